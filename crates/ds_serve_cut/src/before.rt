//! The rounds before the cut, with workers for their clients and the appliers beside them.
ghost use Rattle.std.specs.Prelude.{◌≡◌, ◌+◌, ◌≤◌, All, length};
ghost use Rattle.ds_base.specs.Limits.{most_input_bytes};
ghost use Rattle.ds_protocol.specs.Watermarks.{HaveCounts};
ghost use Rattle.ds_clients.specs.Runs.{AreWritten, IsIdle, seen_of};
ghost use Rattle.ds_cutting.specs.CutSteps.{HasServedSome};

use ds_clients::{NewWorkers, RunNames, Sessions};
use ds_io::{Gate, Sink, Source};
use ds_rounds::Rounds;
use ds_serve::{RoundOutcome, serve_some};
use ds_serving::{Serving, ServingWithWorkers};
use ds_store::{Names, Pass};
use std::alloc::Global;
use std::marker::Brand;
use std::sync::Wait;
use std::thread::Threads;

/// How many rounds are served before the cut, and where memory is taken.
#[derive(Clone, Copy)]
pub(crate) struct Before {
    pub(crate) alloc: Global,
    pub(crate) many: u32,
}

/// Serves so many rounds while each of these passes applies entries.
pub(crate) fn serve_before<
    J: Names + Send + Sync,
    Rt: Threads + Wait + Sync,
    H: Wait + Drop + Send,
    I: Source,
    O: Sink,
    G: Gate + Sync,
>(
    serving: &Serving<'_, J, Rt, H, G>,
    before: Before,
    rounds: &mut Rounds,
    sessions: &mut Sessions<J>,
    appliers: &mut [Pass<J>],
    input: &mut I,
    output: &mut O,
) -> RoundOutcome
    requires reader { rounds.old.number ≤ most_input_bytes + 1 }
    requires counts { HaveCounts serving.now.shards (seen_of sessions.old) }
    requires written { AreWritten sessions.old }
    requires idle { All IsIdle appliers.old }
    ensures served { HasServedSome serving.now before.many rounds.old rounds.new (I.left input.old) (I.left input.new) (O.held output.old)
        (O.held output.new) (I.faults input.old) (I.faults input.new) (O.faults output.old) (O.faults output.new) sessions.old sessions.new
        result }
    ensures idle { All IsIdle appliers.new }
    ensures many { length appliers.new ≡ length appliers.old }
{
    let staffed = Staffed {
        workers: NewWorkers::new(before.alloc),
        many: before.many,
    };
    serve_with::<J, Brand, Rt, H, I, O, G>(
        serving, staffed, rounds, sessions, appliers, input, output,
    )
}

/// How many rounds are served before the cut, and what the workers for their clients are made of.
#[derive(Drop)]
struct Staffed<J: Names> {
    workers: NewWorkers<J>,
    many: u32,
}

/// The same with workers of this history for the clients of each round.
fn serve_with<
    J: Names + Send + Sync,
    N: RunNames + Send + Sync,
    Rt: Threads + Wait + Sync,
    H: Wait + Drop + Send,
    I: Source,
    O: Sink,
    G: Gate + Sync,
>(
    serving: &Serving<'_, J, Rt, H, G>,
    before: Staffed<J>,
    rounds: &mut Rounds,
    sessions: &mut Sessions<J>,
    appliers: &mut [Pass<J>],
    input: &mut I,
    output: &mut O,
) -> RoundOutcome
    requires history { before.workers ≡ N.history }
    requires shards { serving.now.shards ≡ N.shards }
    requires reader { rounds.old.number ≤ most_input_bytes + 1 }
    requires counts { HaveCounts serving.now.shards (seen_of sessions.old) }
    requires written { AreWritten sessions.old }
    requires idle { All IsIdle appliers.old }
    ensures served { HasServedSome serving.now before.many rounds.old rounds.new (I.left input.old) (I.left input.new) (O.held output.old)
        (O.held output.new) (I.faults input.old) (I.faults input.new) (O.faults output.old) (O.faults output.new) sessions.old sessions.new
        result }
    ensures idle { All IsIdle appliers.new }
    ensures many { length appliers.new ≡ length appliers.old }
{
    let Staffed { workers, many } = before;
    let before = Before {
        alloc: workers.alloc(),
        many,
    };
    let serving = ServingWithWorkers::<J, N, Rt, H, G>::new(serving, workers);
    serve_working(&serving, before, rounds, sessions, appliers, input, output)
}

/// The same with these workers.
fn serve_working<
    J: Names + Send + Sync,
    N: RunNames + Send + Sync,
    Rt: Threads + Wait + Sync,
    H: Wait + Drop + Send,
    I: Source,
    O: Sink,
    G: Gate + Sync,
>(
    serving: &ServingWithWorkers<'_, J, N, Rt, H, G>,
    before: Before,
    rounds: &mut Rounds,
    sessions: &mut Sessions<J>,
    appliers: &mut [Pass<J>],
    input: &mut I,
    output: &mut O,
) -> RoundOutcome
    requires reader { rounds.old.number ≤ most_input_bytes + 1 }
    requires counts { HaveCounts serving.now.shards (seen_of sessions.old) }
    requires written { AreWritten sessions.old }
    requires idle { All IsIdle appliers.old }
    ensures served { HasServedSome serving.now before.many rounds.old rounds.new (I.left input.old) (I.left input.new) (O.held output.old)
        (O.held output.new) (I.faults input.old) (I.faults input.new) (O.faults output.old) (O.faults output.new) sessions.old sessions.new
        result }
    ensures idle { All IsIdle appliers.new }
    ensures many { length appliers.new ≡ length appliers.old }
{
    let Before { alloc, many } = before;
    serving.with_appliers(
        appliers,
        &mut || -> RoundOutcome
            requires reader { rounds.now.number ≤ most_input_bytes + 1 }
            requires counts { HaveCounts serving.now.shards (seen_of sessions.now) }
            requires written { AreWritten sessions.now }
            ensures { HasServedSome serving.entry.now many rounds.entry.now rounds.exit.now (I.left input.entry.now)
                (I.left input.exit.now) (O.held output.entry.now) (O.held output.exit.now) (I.faults input.entry.now)
                (I.faults input.exit.now) (O.faults output.entry.now) (O.faults output.exit.now) sessions.entry.now sessions.exit.now
                result }
        { serve_some(serving, alloc, many, rounds, sessions, input, output) },
    )
}
