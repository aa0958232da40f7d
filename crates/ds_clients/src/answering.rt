//! A round of all clients: each client's lines are answered in their order, clients at once where several have lines.
ghost use Rattle.std.specs.Prelude.{◌≡◌, ◌+◌, Some, map, OnErr, OnOk};
ghost use Rattle.std.specs.List.{range_with_len};
ghost use Rattle.ds_base.specs.Limits.{greatest_client};
ghost use Rattle.ds_clients.specs.Clients.{AreAlike};
ghost use Rattle.ds_clients.specs.Runs.{AreWritten, HaveRun, seen_of};
ghost use Rattle.ds_protocol.specs.Watermarks.{HaveCounts};
ghost use Rattle.ds_rounds.specs.Reading.{IsRound};
ghost use Rattle.ds_rounds.specs.Rounds.{lines_of_round};

use crate::clients::ready_clients;
use crate::workers::{RunNames, Workers};
use ds_base::NoMemory;
use ds_client::Client;
use ds_indexdef::Defs;
use ds_io::Gate;
use ds_rounds::Round;
use ds_store::{Names, Store};
use ds_workers::{Handler, Handling};
use std::alloc::{AllocError, Global};
use std::marker::{Model, PhantomData};
use std::sync::Wait;
use std::thread::Threads;

/// What is said of clients whose lines workers answer: it is a tag, without bytes.
pub struct Answering<J, N> {
    names: PhantomData<(J, N)>,
}

impl<J: Names, N: RunNames> Handling<Client<J>> for Answering<J, N> {
    ghost use Rattle.std.specs.Prelude.{Some};
    ghost use Rattle.ds_clients.specs.Clients.{HasAnsweredOwn, StartsRound};

    ghost history = { N.history };

    ghost is_ready = { λ c. StartsRound N.shards c.session c.own };

    ghost handled = { λ c d. HasAnsweredOwn J.definitions N.shards (Some J.window) c.session c.own d.session };
}

/// What a client's lines are answered by: the store, its definitions, and the gate that is called around each answer. Contracts see how
/// many shards the store has.
#[derive(Drop)]
pub(crate) struct LineHandler<'a, J: Names, N: RunNames, H: Wait + Drop, G> {
    store: &'a Store<J, H>,
    defs: &'a Defs,
    gate: &'a G,
    names: PhantomData<N>,
}

impl<'a, J: Names, N: RunNames, H: Wait + Drop, G> Model for LineHandler<'a, J, N, H, G> {
    ghost use Rattle.std.specs.Prelude.{◌≡◌, ℕ};

    ghost Value = { ℕ };

    ghost view = { λ h. h.store.now.shards };

    ghost invariant = { λ h. (h.defs.now ≡ J.definitions) × (h.store.now.shards ≡ N.shards) };
}

impl<'a, J: Names, N: RunNames, H: Wait + Drop, G> LineHandler<'a, J, N, H, G> {
    pub(crate) fn new(
        store: &'a Store<J, H>,
        defs: &'a Defs,
        gate: &'a G,
    ) -> LineHandler<'a, J, N, H, G>
        requires definitions { defs.now ≡ J.definitions }
        requires shards { store.now.shards ≡ N.shards }
    {
        LineHandler {
            store,
            defs,
            gate,
            names: PhantomData,
        }
    }
}

impl<'a, J: Names, N: RunNames, H: Wait + Drop, G: Gate> Handler<Client<J>, Answering<J, N>>
    for LineHandler<'a, J, N, H, G> {
    fn is_busy(&self, client: &Client<J>) -> bool {
        client.has_lines()
    }

    fn handle<R: Threads + Wait + Sync>(&self, rt: &R, client: &mut Client<J>) {
        client.run(rt, self.store, self.defs, self.gate);
    }
}

/// Runs a round: the clients are made ready for it, and then each client's lines are answered, all clients at once. A refusal is want of
/// memory, and comes before any line is answered.
pub(crate) fn run_clients<
    J: Names + Send + Sync,
    N: RunNames + Send + Sync,
    R: Threads + Wait + Sync,
    H: Wait + Drop + Send,
    G: Gate + Sync,
>(
    rt: &R,
    alloc: Global,
    handler: &LineHandler<'_, J, N, H, G>,
    workers: &Workers<J, N>,
    clients: &mut Vec<Client<J>>,
    round: Round,
) -> Result<(), NoMemory>
    requires round { IsRound round }
    requires numbers { map (λ c. c.session.client) clients.old.items ≡ range_with_len 0 (greatest_client + 1) }
    requires counts { HaveCounts N.shards (seen_of (map (λ c. c.session) clients.old.items)) }
    requires written { AreWritten (map (λ c. c.session) clients.old.items) }
    ensures ok { OnOk result (HaveRun J.definitions N.shards (Some J.window) (lines_of_round round)
        (map (λ c. c.session) clients.old.items) (map (λ c. c.session) clients.new.items)) }
    ensures err { OnErr result (AreAlike (map (λ c. c.session) clients.old.items) (map (λ c. c.session) clients.new.items)
        × AreWritten (map (λ c. c.session) clients.new.items)) }
    ensures numbers { map (λ c. c.session.client) clients.new.items ≡ range_with_len 0 (greatest_client + 1) }
    ensures counts { HaveCounts N.shards (seen_of (map (λ c. c.session) clients.new.items)) }
{
    match ready_clients(alloc, handler.store.shards(), clients, round) {
        Ok(()) => {
            workers.run_round(rt, handler, clients);
            Ok(())
        }
        Err(_) => Err(AllocError),
    }
}
