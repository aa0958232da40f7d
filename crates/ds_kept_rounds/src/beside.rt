//! The rounds of an input over a kept journal, with appliers beside them.
ghost use Rattle.std.specs.Prelude.{◌≡◌, All, IfSome, IsSome, IsTrue, length};
ghost use Rattle.ds_clients.specs.Runs.{IsIdle};
ghost use Rattle.ds_disk.specs.Crashes.{LeavesOnly};
ghost use Rattle.ds_keep.specs.Keepers.{IsSettled};
ghost use Rattle.ds_keeping.specs.Holding.{kept_at};
ghost use Rattle.ds_keeping.specs.Moments.{IsBetween};
ghost use Rattle.ds_kept_rounds.specs.Ending.{HasEndedKept};
ghost use Rattle.ds_kept_rounds.specs.Going.{IsGoing};
ghost use Rattle.ds_rounds.specs.Reading.{first_reader};
ghost use Rattle.ds_store.specs.Passes.{HasRead};

use crate::serving::{Running, serve_rounds};
use crate::stopped::Stopped;
use ds_clients::{NewWorkers, RunNames};
use ds_disk::Disk;
use ds_io::{Gate, Sink, Source};
use ds_keep::Keeper;
use ds_serving::{Serving, ServingWithWorkers};
use ds_store::{Names, Pass};
use std::marker::Brand;
use std::sync::Wait;
use std::thread::Threads;

/// Serves the rounds of an input, from the first one on, while each of these passes applies entries. After each round the disk gets what
/// the round committed and drew, if it did, and only then the round's replies are written.
pub fn serve_beside<
    J: Names + Send + Sync,
    Rt: Threads + Wait + Sync,
    H: Wait + Drop + Send,
    D: Disk,
    I: Source,
    O: Sink,
    G: Gate + Sync,
>(
    serving: &Serving<'_, J, Rt, H, G>,
    appliers: &mut [Pass<J>],
    running: &mut Running<J>,
    keeper: Keeper,
    disk: &mut D,
    input: &mut I,
    output: &mut O,
) -> Stopped
    requires reader { running.old.rounds ≡ first_reader }
    requires going { IsGoing serving.now.shards keeper running.old.sessions running.old.follower.pass running.old.follower.counts }
    requires settled { IsTrue (D.is_honest disk.old)
        → IsSettled D.is_honest D.contents D.images keeper (kept_at running.old.follower.pass keeper.next) disk.old }
    requires idle { All IsIdle appliers.old }
    ensures ended { HasEndedKept serving.now keeper (I.left input.old) (I.left input.new) (O.held output.old) (O.held output.new)
        (I.faults input.old) (I.faults input.new) (O.faults output.old) (O.faults output.new) running.old.sessions running.new.sessions
        (D.is_honest disk.old) (D.images disk.new) (D.faults disk.old) (D.faults disk.new) result }
    ensures read { HasRead running.old.follower.pass running.new.follower.pass }
    ensures any_moment { IsTrue (D.is_honest disk.old) → LeavesOnly D.moment D.left_since disk.old disk.new
        (IsBetween (kept_at running.old.follower.pass keeper.next) running.new.follower.pass.journal) }
    ensures honest { D.is_honest disk.new ≡ D.is_honest disk.old }
    ensures idle { All IsIdle appliers.new }
    ensures many { length appliers.new ≡ length appliers.old }
{
    let start = Start {
        keeper,
        workers: NewWorkers::new(running.alloc),
    };
    serve_with::<J, Brand, Rt, H, D, I, O, G>(
        serving, appliers, running, start, disk, input, output,
    )
}

/// The keeper of a run's journal, and what its workers are made of.
#[derive(Drop)]
struct Start<J: Names> {
    keeper: Keeper,
    workers: NewWorkers<J>,
}

/// The same with workers of this history for the clients of each round.
fn serve_with<
    J: Names + Send + Sync,
    N: RunNames + Send + Sync,
    Rt: Threads + Wait + Sync,
    H: Wait + Drop + Send,
    D: Disk,
    I: Source,
    O: Sink,
    G: Gate + Sync,
>(
    serving: &Serving<'_, J, Rt, H, G>,
    appliers: &mut [Pass<J>],
    running: &mut Running<J>,
    start: Start<J>,
    disk: &mut D,
    input: &mut I,
    output: &mut O,
) -> Stopped
    requires history { start.workers ≡ N.history }
    requires shards { serving.now.shards ≡ N.shards }
    requires reader { running.old.rounds ≡ first_reader }
    requires going { IsGoing serving.now.shards start.keeper running.old.sessions running.old.follower.pass running.old.follower.counts }
    requires settled { IsTrue (D.is_honest disk.old)
        → IsSettled D.is_honest D.contents D.images start.keeper (kept_at running.old.follower.pass start.keeper.next) disk.old }
    requires idle { All IsIdle appliers.old }
    ensures ended { HasEndedKept serving.now start.keeper (I.left input.old) (I.left input.new) (O.held output.old) (O.held output.new)
        (I.faults input.old) (I.faults input.new) (O.faults output.old) (O.faults output.new) running.old.sessions running.new.sessions
        (D.is_honest disk.old) (D.images disk.new) (D.faults disk.old) (D.faults disk.new) result }
    ensures read { HasRead running.old.follower.pass running.new.follower.pass }
    ensures any_moment { IsTrue (D.is_honest disk.old) → LeavesOnly D.moment D.left_since disk.old disk.new
        (IsBetween (kept_at running.old.follower.pass start.keeper.next) running.new.follower.pass.journal) }
    ensures honest { D.is_honest disk.new ≡ D.is_honest disk.old }
    ensures idle { All IsIdle appliers.new }
    ensures many { length appliers.new ≡ length appliers.old }
{
    let Start { keeper, workers } = start;
    let serving = ServingWithWorkers::<J, N, Rt, H, G>::new(serving, workers);
    serve_working(&serving, appliers, running, keeper, disk, input, output)
}

/// The same with these workers.
fn serve_working<
    J: Names + Send + Sync,
    N: RunNames + Send + Sync,
    Rt: Threads + Wait + Sync,
    H: Wait + Drop + Send,
    D: Disk,
    I: Source,
    O: Sink,
    G: Gate + Sync,
>(
    serving: &ServingWithWorkers<'_, J, N, Rt, H, G>,
    appliers: &mut [Pass<J>],
    running: &mut Running<J>,
    keeper: Keeper,
    disk: &mut D,
    input: &mut I,
    output: &mut O,
) -> Stopped
    requires reader { running.old.rounds ≡ first_reader }
    requires going { IsGoing serving.now.shards keeper running.old.sessions running.old.follower.pass running.old.follower.counts }
    requires settled { IsTrue (D.is_honest disk.old)
        → IsSettled D.is_honest D.contents D.images keeper (kept_at running.old.follower.pass keeper.next) disk.old }
    requires idle { All IsIdle appliers.old }
    ensures ended { HasEndedKept serving.now keeper (I.left input.old) (I.left input.new) (O.held output.old) (O.held output.new)
        (I.faults input.old) (I.faults input.new) (O.faults output.old) (O.faults output.new) running.old.sessions running.new.sessions
        (D.is_honest disk.old) (D.images disk.new) (D.faults disk.old) (D.faults disk.new) result }
    ensures read { HasRead running.old.follower.pass running.new.follower.pass }
    ensures any_moment { IsTrue (D.is_honest disk.old) → LeavesOnly D.moment D.left_since disk.old disk.new
        (IsBetween (kept_at running.old.follower.pass keeper.next) running.new.follower.pass.journal) }
    ensures honest { D.is_honest disk.new ≡ D.is_honest disk.old }
    ensures idle { All IsIdle appliers.new }
    ensures many { length appliers.new ≡ length appliers.old }
{
    let mut given = Some(keeper);
    serving.with_appliers(
        appliers,
        &mut || -> Stopped
            requires given { IsSome given }
            requires reader { running.now.rounds ≡ first_reader }
            requires going { IfSome given (λ k.
                IsGoing serving.now.shards k running.now.sessions running.now.follower.pass running.now.follower.counts) }
            requires settled { IfSome given (λ k. IsTrue (D.is_honest disk.now)
                → IsSettled D.is_honest D.contents D.images k (kept_at running.now.follower.pass k.next) disk.now) }
            ensures ended { IfSome given.entry (λ k. HasEndedKept serving.entry.now k (I.left input.entry.now)
                (I.left input.exit.now) (O.held output.entry.now) (O.held output.exit.now) (I.faults input.entry.now)
                (I.faults input.exit.now) (O.faults output.entry.now) (O.faults output.exit.now) running.entry.now.sessions
                running.exit.now.sessions (D.is_honest disk.entry.now) (D.images disk.exit.now) (D.faults disk.entry.now)
                (D.faults disk.exit.now) result) }
            ensures read { HasRead running.entry.now.follower.pass running.exit.now.follower.pass }
            ensures any_moment { IfSome given.entry (λ k. IsTrue (D.is_honest disk.entry.now)
                → LeavesOnly D.moment D.left_since disk.entry.now disk.exit.now
                (IsBetween (kept_at running.entry.now.follower.pass k.next) running.exit.now.follower.pass.journal)) }
            ensures honest { D.is_honest disk.exit.now ≡ D.is_honest disk.entry.now }
        {
            match given.take() {
                Some(keeper) => serve_rounds(serving, running, keeper, disk, input, output),
                None => unreachable!(),
            }
        },
    )
}
