//! All clients' sessions, and a round: the sessions meet, and then each client's lines are answered, the clients at once.
ghost use Rattle.std.specs.Prelude.{◌≡◌, ◌+◌, ◌-◌, ◌≤◌, ◌++◌, [], All, Some, drop, map, take, vec_len, IfOk, OnErr, OnOk};
ghost use Rattle.std.specs.Vec.{vec_capacity};
ghost use Rattle.ds_base.specs.Limits.{greatest_client};
ghost use Rattle.ds_protocol.specs.Watermarks.{HaveCounts};
ghost use Rattle.ds_rounds.specs.Reading.{IsRound};
ghost use Rattle.ds_rounds.specs.Rounds.{lines_of_round};
ghost use Rattle.ds_clients.specs.Clients.{AreAlike, AreNew, IsCut};
ghost use Rattle.ds_clients.specs.Runs.{AreWritten, HaveRun, passes_of, seen_of, texts_of};
ghost use Rattle.ds_store.specs.Passes.{nothing_seen};

use crate::answering::{LineHandler, run_clients};
use crate::clients::{CLIENTS, clear_texts, first_marks, none_missed, seated, take_texts};
use crate::output::Cut;
use crate::workers::{RunNames, Workers};
use ds_base::NoMemory;
use ds_client::Client;
use ds_indexdef::Defs;
use ds_io::Gate;
use ds_output::{Unsent, no_texts};
use ds_rounds::Round;
use ds_store::{Ledgers, Names, Pass, Store};
use std::alloc::Global;
use std::marker::Model;
use std::sync::Wait;
use std::thread::Threads;

/// The sessions of all clients, one for each from client 0 on. Contracts see their list.
#[derive(Drop)]
pub struct Sessions<J: Names> {
    pub(crate) clients: Vec<Client<J>>,
    pub(crate) alloc: Global,
}

impl<J: Names> Model for Sessions<J> {
    ghost use Rattle.std.specs.Prelude.{◌≡◌, ◌+◌, List, map};
    ghost use Rattle.std.specs.List.{range_with_len};
    ghost use Rattle.ds_base.specs.Limits.{greatest_client};
    ghost use Rattle.ds_client.specs.Sessions.{SessionParts};

    ghost Value = { List SessionParts };

    ghost view = { λ s. map (λ c. c.session) s.clients.items };

    ghost invariant = { λ s. map (λ c. c.session.client) s.clients.items ≡ range_with_len 0 (greatest_client + 1) };
}

impl<J: Names> Sessions<J> {
    /// A session for each client, which has seen nothing. They take the last sixteen of these passes, and leave the others, with the room
    /// that the passes had. The steps that their lines take count on these ledgers. A refusal means out of memory, and leaves all passes.
    pub fn make(
        alloc: Global,
        shards: u32,
        passes: &mut Vec<Pass<J>>,
        ledgers: &Ledgers<J>,
    ) -> Result<Sessions<J>, NoMemory>
        requires many { greatest_client + 1 ≤ vec_len passes.old }
        requires new { All (λ p. p ≡ nothing_seen shards) passes.old.items }
        ensures sessions { IfOk result (AreNew shards) }
        ensures left { OnOk result (passes.new.items ≡ take (vec_len passes.old - (greatest_client + 1)) passes.old.items) }
        ensures err { OnErr result (passes.new.items ≡ passes.old.items) }
        ensures capacity { vec_capacity passes.new ≡ vec_capacity passes.old }
    {
        let seen = first_marks(alloc, shards)?;
        let missed = none_missed(alloc, shards)?;
        let clients = Vec::with_capacity(alloc, CLIENTS)?;
        Ok(Sessions {
            clients: seated(alloc, shards, clients, seen, missed, passes, ledgers),
            alloc,
        })
    }

    /// Uses the sessions up, and puts their passes behind these, which have room for them. It takes no memory.
    pub fn end(self, passes: &mut Vec<Pass<J>>)
        requires { vec_len passes.old + (greatest_client + 1) ≤ vec_capacity passes.old }
        ensures passes { passes.new.items ≡ passes.old.items ++ passes_of self }
        ensures many { vec_len passes.new ≡ vec_len passes.old + (greatest_client + 1) }
        ensures capacity { vec_capacity passes.new ≡ vec_capacity passes.old }
    {
        let Sessions { clients, alloc: _ } = self;
        for client in clients {
            passes.push_reserved(client.end());
        }
    }
}

/// Runs a round: the sessions meet, so that each client has seen all that any reply of an earlier round showed; then each client's lines
/// are answered in their order, the clients at once, each other one by a worker where two or more have lines. The gate is called around
/// each answer. The store is that of the sessions' passes, the definitions are the store's, and no reply is left from an earlier round. A
/// refusal means out of memory, and comes before any line is answered.
pub fn run_round<
    J: Names + Send + Sync,
    N: RunNames + Send + Sync,
    R: Threads + Wait + Sync,
    H: Wait + Drop + Send,
    G: Gate + Sync,
>(
    rt: &R,
    store: &Store<J, H>,
    workers: &Workers<J, N>,
    sessions: &mut Sessions<J>,
    defs: &Defs,
    round: Round,
    gate: &G,
) -> Result<(), NoMemory>
    requires round { IsRound round }
    requires definitions { defs.now ≡ J.definitions }
    requires shards { store.now.shards ≡ N.shards }
    requires counts { HaveCounts store.now.shards (seen_of sessions.old) }
    requires written { AreWritten sessions.old }
    ensures ok { OnOk result (HaveRun J.definitions store.now.shards (Some J.window) (lines_of_round round) sessions.old sessions.new) }
    ensures err { OnErr result (AreAlike sessions.old sessions.new × AreWritten sessions.new) }
    ensures counts { HaveCounts store.now.shards (seen_of sessions.new) }
{
    let handler = LineHandler::<J, N, H, G>::new(store, defs, gate);
    run_clients(
        rt,
        sessions.alloc,
        &handler,
        workers,
        &mut sessions.clients,
        round,
    )
}

impl<J: Names> Sessions<J> {
    /// The clients, in their order.
    pub(crate) fn clients(&self) -> &[Client<J>]
        ensures { map (λ c. c.session) result.now ≡ self.now }
    {
        self.clients.as_slice()
    }

    /// Nothing unsent.
    pub(crate) fn nothing_unsent(&self) -> Unsent
        ensures { result ≡ [] }
    {
        Unsent::none(self.alloc)
    }

    /// Takes all replies out.
    pub(crate) fn clear_texts(&mut self)
        ensures alike { AreAlike self.old self.new }
        ensures written { AreWritten self.new }
    {
        clear_texts(&mut self.clients);
    }

    /// Takes all replies out, and gives those that were not taken where a write failed.
    pub(crate) fn take_unsent(&mut self, cut: Cut) -> Unsent
        requires { IsCut self.old cut }
        ensures unsent { result ≡ drop cut.taken (texts_of (drop cut.client self.old)) }
        ensures alike { AreAlike self.old self.new }
        ensures written { AreWritten self.new }
    {
        let mut texts = no_texts(self.alloc);
        take_texts(&mut self.clients, &mut texts);
        Unsent::rest_of(texts, cut.client, cut.taken)
    }
}
