//! The rounds behind the cut.
ghost use Rattle.std.specs.Prelude.{◌≡◌, ℕ, ◌+◌, ◌≤◌, List, Option, All, vec_len};
ghost use Rattle.std.specs.Vec.{vec_capacity};
ghost use Rattle.ds_base.specs.Limits.{greatest_client, most_input_bytes};
ghost use Rattle.ds_model.specs.Sessions.{Session};
ghost use Rattle.ds_protocol.specs.Watermarks.{HaveCounts};
ghost use Rattle.ds_rounds.specs.Rounds.{NumberedLine};
ghost use Rattle.ds_clients.specs.Runs.{AreWritten, IsIdle, seen_of};
ghost use Rattle.ds_serving.specs.Rounds.{HasServed};
ghost use Rattle.ds_serve.specs.RunSteps.{RanBehind};
ghost use Rattle.ds_cutting.specs.CutSteps.{EndsBegun, EndsLater, asked_of};

use crate::outcome::{CutRun, CutStatus};
use crate::plan::{Host, Plan};
use ds_clients::Sessions;
use ds_io::{Gate, Sink, Source};
use ds_rounds::Rounds;
use ds_serve::{Stopped, serve_beside};
use ds_serving::Serving;
use ds_store::{Closed, Names, Pass, Passes, Store};
use std::sync::Wait;
use std::thread::Threads;

/// What a run is made of behind the cut.
#[derive(Drop)]
pub(crate) struct Later<K: Names, H: Wait + Drop> {
    pub(crate) store: Store<K, H>,
    /// The pass that fed the store.
    pub(crate) loader: Pass<K>,
    /// The passes of the appliers, with room for all others.
    pub(crate) passes: Vec<Pass<K>>,
    pub(crate) sessions: Sessions<K>,
    pub(crate) rounds: Rounds,
    /// How many commits there were at the cut.
    pub(crate) place: u64,
}

/// Serves the rounds that are left of an input, and closes the store.
pub(crate) fn run_later<
    K: Names + Send + Sync,
    Rt: Threads + Wait + Sync,
    H: Wait + Drop + Send,
    I: Source,
    O: Sink,
    G: Gate + Sync,
>(
    host: &Host<'_, Rt, H, G>,
    plan: &Plan<'_>,
    later: Later<K, H>,
    input: &mut I,
    output: &mut O,
) -> CutRun
    requires definitions { K.definitions ≡ plan.now.second.now }
    requires idle { All IsIdle later.passes.items }
    requires all { vec_len later.passes + (greatest_client + 2) ≡ later.store.passes }
    requires room { later.store.passes ≤ vec_capacity later.passes }
    requires reader { later.rounds.number ≤ most_input_bytes + 1 }
    requires counts { HaveCounts later.store.shards (seen_of later.sessions) }
    requires written { AreWritten later.sessions }
    ensures later { (first : List Session) (earlier : List (List NumberedLine)) (said : List ℕ) (left held : Option (List ℕ))
        → HasServed (RanBehind (asked_of later.store.shards K.window K.definitions) first earlier said) left (I.left input.old) held
        (O.held output.old) later.rounds later.sessions
        → EndsLater (asked_of later.store.shards K.window K.definitions) later.place later.loader first earlier said left (I.left input.new)
        held (O.held output.new) result }
    ensures ends { EndsBegun (I.faults input.old) (I.faults input.new) (O.faults output.old) (O.faults output.new) result }
{
    let Later {
        store,
        loader,
        mut passes,
        mut sessions,
        mut rounds,
        place,
    } = later;
    let serving = Serving::new(host.rt, &store, plan.second, host.gate);
    let Stopped { status, unsent } = serve_beside(
        &serving,
        host.alloc,
        &mut rounds,
        &mut sessions,
        passes.as_mut_slice(),
        input,
        output,
    );
    sessions.end(&mut passes);
    passes.push_reserved(loader);
    let Closed { journal, next: _ } = store.close(host.rt, Passes::from(passes));
    CutRun {
        status: CutStatus::Served(status),
        cut: Some(place),
        journal: Some(journal),
        unsent,
    }
}
