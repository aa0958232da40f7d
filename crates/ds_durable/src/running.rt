//! A run over a store that begins with what is kept: its rounds, with the appliers beside them, and its close.
ghost use Rattle.std.specs.Prelude.{◌≡◌, ◌+◌, ◌≤◌, ◌++◌, ◌∷◌, ℕ, IfSome, IsSome, IsTrue, None, [], length, vec_len};
ghost use Rattle.std.specs.Vec.{vec_capacity};
ghost use Rattle.ds_base.specs.Limits.{first_drawn_id, greatest_client};
ghost use Rattle.ds_clients.specs.Runs.{passes_of};
ghost use Rattle.ds_disk.specs.Crashes.{LeavesOnly};
ghost use Rattle.ds_durable.specs.Behind.{IsRunBehind};
ghost use Rattle.ds_keep.specs.Keepers.{IsHistory, IsSettled};
ghost use Rattle.ds_keeping.specs.Holding.{kept_at, seen_by};
ghost use Rattle.ds_keeping.specs.Moments.{IsLeft};
ghost use Rattle.ds_restoring.specs.Fitting.{too_many_rows};
ghost use Rattle.ds_restoring.specs.Restored.{IsReady};
ghost use Rattle.ds_store.specs.Ending.{HaveEnded};
ghost use Rattle.ds_store_hubs.specs.Opening.{AreBegun, AreNamesOf};

use crate::outcome::{KeptRun, not_served};
use ds_disk::Disk;
use ds_indexdef::Defs;
use ds_io::{Gate, Sink, Source};
use ds_keep::{Keeper, Opened as OpenedDisk};
use ds_keeping::Follower;
use ds_kept_rounds::{KeptStatus, Running, Stopped, serve_beside};
use ds_restoring::{Ready, restore};
use ds_serving::Serving;
use ds_store::{Closed, Names, Opened, Pass, Passes, Store};
use ds_words::Status;
use std::alloc::Global;
use std::sync::Wait;
use std::thread::Threads;

/// What a run is made of: the hubs of a store with their definitions, and what the disk keeps.
#[derive(Drop)]
pub(crate) struct Origin<H: Wait + Drop> {
    pub opened: Opened<H>,
    pub defs: Defs,
    pub kept: OpenedDisk,
}

/// Makes a store of what was opened, whose names these are, with what the disk keeps; serves an input with it, from the first round on; and
/// closes it.
pub(crate) fn run_opened<
    J: Names + Send + Sync,
    Rt: Threads + Wait + Sync,
    H: Wait + Drop + Send,
    D: Disk,
    I: Source,
    O: Sink,
    G: Gate + Sync,
>(
    rt: &Rt,
    alloc: Global,
    origin: Origin<H>,
    disk: &mut D,
    input: &mut I,
    output: &mut O,
    gate: &G,
) -> KeptRun
    requires names { AreNamesOf origin.opened J.journal J.shards J.commits J.ids J.definitions J.window J.ledger }
    requires begun { AreBegun origin.opened }
    requires passes { greatest_client + 2 ≤ origin.opened.passes }
    requires definitions { origin.defs ≡ origin.opened.definitions }
    requires fits { too_many_rows origin.opened.definitions 1 origin.kept.journal ≡ None }
    requires history { IsHistory (record { journal = origin.kept.journal; next = origin.kept.next }) }
    requires numbers { (origin.kept.keeper.commits ≡ length origin.kept.journal) × (origin.kept.keeper.next ≡ origin.kept.next) }
    requires settled { IsTrue (D.is_honest disk.old) → IsSettled D.is_honest D.contents D.images origin.kept.keeper
        (record { journal = origin.kept.journal; next = origin.kept.next }) disk.old }
    ensures run { IsRunBehind
        (record { shards = length origin.opened.shards; window = origin.opened.window; defs = origin.opened.definitions })
        (record { journal = origin.kept.journal; next = origin.kept.next }) (I.left input.old) (I.left input.new) (O.held output.old)
        (O.held output.new) (I.faults input.old) (I.faults input.new) (O.faults output.old) (O.faults output.new)
        (D.is_honest disk.old) (D.images disk.new) (D.faults disk.old) (D.faults disk.new) result }
    ensures any_moment { IsTrue (D.is_honest disk.old) → LeavesOnly D.moment D.left_since disk.old disk.new
        (IsLeft (record { journal = origin.kept.journal; next = origin.kept.next }) result.journal) }
    ensures honest { D.is_honest disk.new ≡ D.is_honest disk.old }
    ensures unread { result.journal ≡ None → input.new ≡ input.old }
    ensures unwritten { result.journal ≡ None → output.new ≡ output.old }
{
    let Origin { opened, defs, kept } = origin;
    let OpenedDisk {
        keeper,
        journal,
        next,
    } = kept;
    match restore::<J, Rt, H>(rt, alloc, opened, journal, next) {
        Ok(ready) => run_ready(
            rt,
            Start {
                alloc,
                ready,
                keeper,
                defs,
            },
            disk,
            input,
            output,
            gate,
        ),
        Err(_) => not_served(alloc, KeptStatus::Served(Status::NoMemory), keeper.kept()),
    }
}

/// What a run begins with, the keeper of its journal, and its definitions.
#[derive(Drop)]
struct Start<J: Names, H: Wait + Drop> {
    alloc: Global,
    ready: Ready<J, H>,
    keeper: Keeper,
    defs: Defs,
}

/// Serves an input with a store that begins with what is kept, and closes it.
fn run_ready<
    J: Names + Send + Sync,
    Rt: Threads + Wait + Sync,
    H: Wait + Drop + Send,
    D: Disk,
    I: Source,
    O: Sink,
    G: Gate + Sync,
>(rt: &Rt, start: Start<J, H>, disk: &mut D, input: &mut I, output: &mut O, gate: &G) -> KeptRun
    requires definitions { start.defs ≡ J.definitions }
    requires ready { IsReady start.ready.store.shards (seen_by start.ready.pass) start.ready.store start.ready.rounds
        start.ready.sessions start.ready.pass start.ready.counts start.ready.appliers.items (vec_capacity start.ready.appliers) }
    requires numbers { (start.keeper.commits ≡ length start.ready.pass.journal) × (start.keeper.next ≡ start.ready.pass.next) }
    requires least { first_drawn_id ≤ start.keeper.next }
    requires fits { too_many_rows J.definitions 1 start.ready.pass.journal ≡ None }
    requires settled { IsTrue (D.is_honest disk.old) → IsSettled D.is_honest D.contents D.images start.keeper
        (kept_at start.ready.pass start.keeper.next) disk.old }
    ensures run { IsRunBehind (record { shards = start.ready.store.shards; window = J.window; defs = J.definitions })
        (kept_at start.ready.pass start.keeper.next) (I.left input.old) (I.left input.new) (O.held output.old)
        (O.held output.new) (I.faults input.old) (I.faults input.new) (O.faults output.old) (O.faults output.new)
        (D.is_honest disk.old) (D.images disk.new) (D.faults disk.old) (D.faults disk.new) result }
    ensures any_moment { IsTrue (D.is_honest disk.old) → LeavesOnly D.moment D.left_since disk.old disk.new
        (IsLeft (kept_at start.ready.pass start.keeper.next) result.journal) }
    ensures honest { D.is_honest disk.new ≡ D.is_honest disk.old }
    ensures journal { IsSome result.journal }
{
    let Start {
        alloc,
        ready,
        keeper,
        defs,
    } = start;
    let Ready {
        store,
        pass,
        tail,
        counts,
        rounds,
        sessions,
        mut appliers,
    } = ready;
    let mut running = Running {
        alloc,
        rounds,
        sessions,
        follower: Follower { pass, tail, counts },
    };
    let kept = keeper.kept();
    let serving = Serving::new(rt, &store, &defs, gate);
    let stopped = serve_beside(
        &serving,
        appliers.as_mut_slice(),
        &mut running,
        keeper,
        disk,
        input,
        output,
    );
    close(rt, store, running, appliers, stopped, kept)
}

/// Closes the store with all its passes: those of the appliers, those of the sessions, and the one that follows the journal.
fn close<J: Names, Rt: Wait, H: Wait + Drop>(
    rt: &Rt,
    store: Store<J, H>,
    running: Running<J>,
    appliers: Vec<Pass<J>>,
    stopped: Stopped,
    start: u64,
) -> KeptRun
    requires many { vec_len appliers + (greatest_client + 2) ≡ store.passes }
    requires room { store.passes ≤ vec_capacity appliers }
    ensures journal { IsSome result.journal }
    ensures ended { IfSome result.journal (λ journal. (next : ℕ) × HaveEnded store.shards
        ((appliers.items ++ passes_of running.sessions) ++ running.follower.pass ∷ []) journal next) }
    ensures status { result.status ≡ stopped.status }
    ensures unsent { result.unsent ≡ stopped.unsent }
    ensures start { result.start ≡ start }
{
    let passes = all_passes(running, appliers);
    let Closed { journal, next: _ } = store.close(rt, passes);
    let Stopped { status, unsent } = stopped;
    KeptRun {
        status,
        start,
        journal: Some(journal),
        unsent,
    }
}

/// The passes of the appliers, those of the sessions, and the one that follows the journal.
fn all_passes<J: Names>(running: Running<J>, mut appliers: Vec<Pass<J>>) -> Passes<J>
    requires { vec_len appliers + (greatest_client + 2) ≤ vec_capacity appliers }
    ensures passes { result ≡ (appliers.items ++ passes_of running.sessions) ++ running.follower.pass ∷ [] }
    ensures many { length result ≡ vec_len appliers + (greatest_client + 2) }
{
    let Running {
        alloc: _,
        rounds: _rounds,
        sessions,
        follower,
    } = running;
    let Follower {
        pass,
        tail: _tail,
        counts: _counts,
    } = follower;
    sessions.end(&mut appliers);
    appliers.push_reserved(pass);
    Passes::from(appliers)
}
