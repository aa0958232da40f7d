//! A run over a store: its sessions, with the appliers beside them, and its close.
ghost use Rattle.std.specs.Prelude.{◌≡◌, ◌+◌, ◌≤◌, ℕ, All, IfSome, IsSome, length, replicate, vec_len};
ghost use Rattle.std.specs.Vec.{vec_capacity};
ghost use Rattle.ds_base.specs.Limits.{greatest_client, most_input_bytes};
ghost use Rattle.ds_protocol.specs.Watermarks.{HaveCounts};
ghost use Rattle.ds_rounds.specs.Reading.{first_reader};
ghost use Rattle.ds_serve.specs.RunSteps.{HasEnded, IsRunOf};
ghost use Rattle.ds_clients.specs.Clients.{AreNew};
ghost use Rattle.ds_clients.specs.Runs.{AreWritten, IsIdle, seen_of};
ghost use Rattle.ds_store.specs.Ending.{HaveEnded};
ghost use Rattle.ds_store_hubs.specs.Opening.{AreBegun, AreNamesOf};
ghost use Rattle.ds_store.specs.Passes.{nothing_seen};

use crate::outcome::{Run, nothing_run};
use crate::serving::serve_rounds;
use crate::stopped::Stopped;
use ds_clients::{NewWorkers, RunNames, Sessions};
use ds_indexdef::Defs;
use ds_io::{Gate, Sink, Source};
use ds_rounds::Rounds;
use ds_serving::{Begun, Serving, ServingWithWorkers, begin};
use ds_store::{Closed, Made, Names, Opened, Pass, Passes, Store, make};
use ds_words::Status;
use std::alloc::Global;
use std::marker::Brand;
use std::sync::Wait;
use std::thread::Threads;

/// Makes a store of what was opened, whose names these are; serves an input with it, from the first round on; and closes it. The clients
/// have the first of its passes, and appliers the others.
pub(crate) fn run_opened<
    J: Names + Send + Sync,
    Rt: Threads + Wait + Sync,
    H: Wait + Drop + Send,
    I: Source,
    O: Sink,
    G: Gate + Sync,
>(
    rt: &Rt,
    alloc: Global,
    opened: Opened<H>,
    defs: &Defs,
    input: &mut I,
    output: &mut O,
    gate: &G,
) -> Run
    requires names { AreNamesOf opened J.journal J.shards J.commits J.ids J.definitions J.window J.ledger }
    requires begun { AreBegun opened }
    requires passes { greatest_client + 1 ≤ opened.passes }
    requires definitions { defs.now ≡ opened.definitions }
    ensures { IsRunOf (record { shards = length opened.shards; window = opened.window; defs = opened.definitions }) (I.left input.old)
        (I.left input.new) (O.held output.old) (O.held output.new) (I.faults input.old) (I.faults input.new) (O.faults output.old)
        (O.faults output.new) result }
{
    match make::<J, H>(alloc, opened) {
        Ok(made) => run_made(rt, alloc, made, defs, input, output, gate),
        Err(_) => nothing_run(alloc, Status::NoMemory),
    }
}

/// The same with the store, and with its passes, which have seen nothing.
fn run_made<
    J: Names + Send + Sync,
    Rt: Threads + Wait + Sync,
    H: Wait + Drop + Send,
    I: Source,
    O: Sink,
    G: Gate + Sync,
>(
    rt: &Rt,
    alloc: Global,
    made: Made<J, H>,
    defs: &Defs,
    input: &mut I,
    output: &mut O,
    gate: &G,
) -> Run
    requires enough { greatest_client + 1 ≤ made.store.passes }
    requires passes { made.passes ≡ replicate made.store.passes (nothing_seen made.store.shards) }
    requires definitions { defs.now ≡ J.definitions }
    ensures { IsRunOf (record { shards = made.store.shards; window = J.window; defs = J.definitions }) (I.left input.old)
        (I.left input.new) (O.held output.old) (O.held output.new) (I.faults input.old) (I.faults input.new) (O.faults output.old)
        (O.faults output.new) result }
{
    let Made {
        store,
        tail: _tail,
        ledgers,
        passes,
    } = made;
    match begin(alloc, store.shards(), passes, &ledgers) {
        Ok(begun) => run_begun(rt, alloc, Ready { store, begun }, defs, input, output, gate),
        Err(_) => nothing_run(alloc, Status::NoMemory),
    }
}

/// What a run has made before its first round.
#[derive(Drop)]
struct Ready<J: Names, H: Wait + Drop> {
    store: Store<J, H>,
    begun: Begun<J>,
}

/// Serves an input with a store, whose passes are those of the sessions and of the appliers, and closes it.
fn run_begun<
    J: Names + Send + Sync,
    Rt: Threads + Wait + Sync,
    H: Wait + Drop + Send,
    I: Source,
    O: Sink,
    G: Gate + Sync,
>(
    rt: &Rt,
    alloc: Global,
    ready: Ready<J, H>,
    defs: &Defs,
    input: &mut I,
    output: &mut O,
    gate: &G,
) -> Run
    requires definitions { defs.now ≡ J.definitions }
    requires rounds { ready.begun.rounds ≡ first_reader }
    requires sessions { AreNew ready.store.shards ready.begun.sessions }
    requires appliers { All IsIdle ready.begun.passes.items }
    requires all { vec_len ready.begun.passes + (greatest_client + 1) ≡ ready.store.passes }
    requires room { ready.store.passes ≤ vec_capacity ready.begun.passes }
    ensures { IsRunOf (record { shards = ready.store.shards; window = J.window; defs = J.definitions }) (I.left input.old)
        (I.left input.new) (O.held output.old) (O.held output.new) (I.faults input.old) (I.faults input.new) (O.faults output.old)
        (O.faults output.new) result }
{
    let Ready { store, begun } = ready;
    let Begun {
        mut sessions,
        mut passes,
        mut rounds,
    } = begun;
    let serving = Serving::new(rt, &store, defs, gate);
    let stopped = serve_beside(
        &serving,
        alloc,
        &mut rounds,
        &mut sessions,
        passes.as_mut_slice(),
        input,
        output,
    );
    sessions.end(&mut passes);
    close(rt, store, Passes::from(passes), stopped)
}

/// Serves the rounds of an input that are left, until the run stops, while each of these passes applies entries.
pub fn serve_beside<
    J: Names + Send + Sync,
    Rt: Threads + Wait + Sync,
    H: Wait + Drop + Send,
    I: Source,
    O: Sink,
    G: Gate + Sync,
>(
    serving: &Serving<'_, J, Rt, H, G>,
    alloc: Global,
    rounds: &mut Rounds,
    sessions: &mut Sessions<J>,
    appliers: &mut [Pass<J>],
    input: &mut I,
    output: &mut O,
) -> Stopped
    requires reader { rounds.old.number ≤ most_input_bytes + 1 }
    requires counts { HaveCounts serving.now.shards (seen_of sessions.old) }
    requires written { AreWritten sessions.old }
    requires idle { All IsIdle appliers.old }
    ensures ended { HasEnded serving.now rounds.old (I.left input.old) (I.left input.new) (O.held output.old) (O.held output.new)
        (I.faults input.old) (I.faults input.new) (O.faults output.old) (O.faults output.new) sessions.old sessions.new result }
    ensures idle { All IsIdle appliers.new }
    ensures many { length appliers.new ≡ length appliers.old }
{
    let workers = NewWorkers::new(alloc);
    serve_with::<J, Brand, Rt, H, I, O, G>(
        serving, workers, rounds, sessions, appliers, input, output,
    )
}

/// The same with workers of this history for the clients of each round.
fn serve_with<
    J: Names + Send + Sync,
    N: RunNames + Send + Sync,
    Rt: Threads + Wait + Sync,
    H: Wait + Drop + Send,
    I: Source,
    O: Sink,
    G: Gate + Sync,
>(
    serving: &Serving<'_, J, Rt, H, G>,
    workers: NewWorkers<J>,
    rounds: &mut Rounds,
    sessions: &mut Sessions<J>,
    appliers: &mut [Pass<J>],
    input: &mut I,
    output: &mut O,
) -> Stopped
    requires history { workers ≡ N.history }
    requires shards { serving.now.shards ≡ N.shards }
    requires reader { rounds.old.number ≤ most_input_bytes + 1 }
    requires counts { HaveCounts serving.now.shards (seen_of sessions.old) }
    requires written { AreWritten sessions.old }
    requires idle { All IsIdle appliers.old }
    ensures ended { HasEnded serving.now rounds.old (I.left input.old) (I.left input.new) (O.held output.old) (O.held output.new)
        (I.faults input.old) (I.faults input.new) (O.faults output.old) (O.faults output.new) sessions.old sessions.new result }
    ensures idle { All IsIdle appliers.new }
    ensures many { length appliers.new ≡ length appliers.old }
{
    let alloc = workers.alloc();
    let serving = ServingWithWorkers::<J, N, Rt, H, G>::new(serving, workers);
    serve_working(&serving, alloc, rounds, sessions, appliers, input, output)
}

/// The same with these workers.
fn serve_working<
    J: Names + Send + Sync,
    N: RunNames + Send + Sync,
    Rt: Threads + Wait + Sync,
    H: Wait + Drop + Send,
    I: Source,
    O: Sink,
    G: Gate + Sync,
>(
    serving: &ServingWithWorkers<'_, J, N, Rt, H, G>,
    alloc: Global,
    rounds: &mut Rounds,
    sessions: &mut Sessions<J>,
    appliers: &mut [Pass<J>],
    input: &mut I,
    output: &mut O,
) -> Stopped
    requires reader { rounds.old.number ≤ most_input_bytes + 1 }
    requires counts { HaveCounts serving.now.shards (seen_of sessions.old) }
    requires written { AreWritten sessions.old }
    requires idle { All IsIdle appliers.old }
    ensures ended { HasEnded serving.now rounds.old (I.left input.old) (I.left input.new) (O.held output.old) (O.held output.new)
        (I.faults input.old) (I.faults input.new) (O.faults output.old) (O.faults output.new) sessions.old sessions.new result }
    ensures idle { All IsIdle appliers.new }
    ensures many { length appliers.new ≡ length appliers.old }
{
    serving.with_appliers(
        appliers,
        &mut || -> Stopped
            requires reader { rounds.now.number ≤ most_input_bytes + 1 }
            requires counts { HaveCounts serving.now.shards (seen_of sessions.now) }
            requires written { AreWritten sessions.now }
            ensures { HasEnded serving.entry.now rounds.entry.now (I.left input.entry.now) (I.left input.exit.now) (O.held output.entry.now)
                (O.held output.exit.now) (I.faults input.entry.now) (I.faults input.exit.now) (O.faults output.entry.now)
                (O.faults output.exit.now) sessions.entry.now sessions.exit.now result }
        { serve_rounds(serving, alloc, rounds, sessions, input, output) },
    )
}

/// Closes the store with all its passes.
fn close<J: Names, Rt: Wait, H: Wait + Drop>(
    rt: &Rt,
    store: Store<J, H>,
    passes: Passes<J>,
    stopped: Stopped,
) -> Run
    requires { length passes ≡ store.passes }
    ensures journal { IsSome result.journal }
    ensures ended { IfSome result.journal (λ journal. (next : ℕ) × HaveEnded store.shards passes journal next) }
    ensures status { result.status ≡ stopped.status }
    ensures unsent { result.unsent ≡ stopped.unsent }
{
    let Closed { journal, next: _ } = store.close(rt, passes);
    let Stopped { status, unsent } = stopped;
    Run {
        status,
        journal: Some(journal),
        unsent,
    }
}
