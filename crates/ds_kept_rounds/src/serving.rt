//! The rounds of an input over a kept journal: each is read and run, what it committed and drew is kept, and only then its replies are
//! written, before the next one is read.
ghost use Rattle.std.specs.Prelude.{◌≡◌, ◌+◌, ◌<◌, ◌≤◌, ◌⊎◌, List, ℕ, Option, [], IsTrue};
ghost use Rattle.ds_base.specs.Limits.{most_input_bytes};
ghost use Rattle.ds_disk.specs.Crashes.{LeavesOnly};
ghost use Rattle.ds_kept_rounds.specs.Ending.{HasBegunKept, HasEndedKept, LeavesKept, WhereServed, WhereStopped, round_read_faults};
ghost use Rattle.ds_kept_rounds.specs.Ending.{round_write_faults, status_of};
ghost use Rattle.ds_kept_rounds.specs.Going.{HasRunKept, IsGoing};
ghost use Rattle.ds_keeping.specs.Holding.{kept_at};
ghost use Rattle.ds_kept_rounds.specs.KeptEnds.{MayLeaveReplies};
ghost use Rattle.ds_keeping.specs.Moments.{IsBetween};
ghost use Rattle.ds_io.specs.Faults.{Rose};
ghost use Rattle.ds_keep.specs.Keepers.{IsSettled};
ghost use Rattle.ds_model.specs.Sessions.{Session};
ghost use Rattle.ds_rounds.specs.Reading.{first_reader};
ghost use Rattle.ds_serving.specs.Rounds.{HasServed};
ghost use Rattle.ds_store.specs.Passes.{HasRead};

use crate::status::KeptStatus;
use crate::stopped::{RoundOutcome, Stopped, stop_with};
use ds_clients::{Rounds, RunNames, Sessions};
use ds_disk::Disk;
use ds_io::{Gate, Sink, Source};
use ds_keep::Keeper;
use ds_keeping::{Follower, Unkept, keep_round, send};
use ds_serving::{NextRound, ServingWithWorkers};
use ds_store::Names;
use ds_words::Status;
use std::alloc::Global;
use std::sync::Wait;
use std::thread::Threads;

/// What changes from round to round.
#[derive(Drop)]
pub struct Running<J: Names> {
    pub alloc: Global,
    /// The reader of the input.
    pub rounds: Rounds,
    pub sessions: Sessions<J>,
    /// What follows the journal for the keeper.
    pub follower: Follower<J>,
}

/// Serves the rounds of an input, from the first one on.
pub(crate) fn serve_rounds<
    J: Names + Send + Sync,
    N: RunNames + Send + Sync,
    Rt: Threads + Wait + Sync,
    H: Wait + Drop + Send,
    D: Disk,
    I: Source,
    O: Sink,
    G: Gate + Sync,
>(
    serving: &ServingWithWorkers<'_, J, N, Rt, H, G>,
    running: &mut Running<J>,
    keeper: Keeper,
    disk: &mut D,
    input: &mut I,
    output: &mut O,
) -> Stopped
    requires reader { running.old.rounds ≡ first_reader }
    requires going { IsGoing serving.now.shards keeper running.old.sessions running.old.follower.pass running.old.follower.counts }
    requires settled { IsTrue (D.is_honest disk.old)
        → IsSettled D.is_honest D.contents D.images keeper (kept_at running.old.follower.pass keeper.next) disk.old }
    ensures ended { HasEndedKept serving.now keeper (I.left input.old) (I.left input.new) (O.held output.old) (O.held output.new)
        (I.faults input.old) (I.faults input.new) (O.faults output.old) (O.faults output.new) running.old.sessions running.new.sessions
        (D.is_honest disk.old) (D.images disk.new) (D.faults disk.old) (D.faults disk.new) result }
    ensures read { HasRead running.old.follower.pass running.new.follower.pass }
    ensures any_moment { IsTrue (D.is_honest disk.old) → LeavesOnly D.moment D.left_since disk.old disk.new
        (IsBetween (kept_at running.old.follower.pass keeper.next) running.new.follower.pass.journal) }
    ensures honest { D.is_honest disk.new ≡ D.is_honest disk.old }
{
    let mut keeper = keeper;
    'serve: loop {
        match serve_round(serving, running, keeper, disk, input, output) {
            RoundOutcome::Served(kept) => keeper = kept,
            RoundOutcome::Stopped(stopped) => return stopped,
        }
    }
}

/// Reads the next round, runs it, keeps what it committed and drew, and writes its replies.
fn serve_round<
    J: Names + Send + Sync,
    N: RunNames + Send + Sync,
    Rt: Threads + Wait + Sync,
    H: Wait + Drop + Send,
    D: Disk,
    I: Source,
    O: Sink,
    G: Gate + Sync,
>(
    serving: &ServingWithWorkers<'_, J, N, Rt, H, G>,
    running: &mut Running<J>,
    keeper: Keeper,
    disk: &mut D,
    input: &mut I,
    output: &mut O,
) -> RoundOutcome
    requires going { IsGoing serving.now.shards keeper running.old.sessions running.old.follower.pass running.old.follower.counts }
    requires settled { IsTrue (D.is_honest disk.old)
        → IsSettled D.is_honest D.contents D.images keeper (kept_at running.old.follower.pass keeper.next) disk.old }
    ensures leaves { (first : List Session) (left held : Option (List ℕ))
        → HasServed (HasRunKept serving.now first keeper.commits keeper.next []) left (I.left input.old) held (O.held output.old)
        running.old.rounds running.old.sessions
        → LeavesKept serving.now first result left (I.left input.new) held (O.held output.new) running.new.rounds running.new.sessions
        (D.is_honest disk.old) (D.images disk.new) }
    ensures going { WhereServed (λ k. IsGoing serving.now.shards k running.new.sessions running.new.follower.pass
        running.new.follower.counts) result }
    ensures settled { WhereServed (λ k. IsTrue (D.is_honest disk.old)
        → IsSettled D.is_honest D.contents D.images k (kept_at running.new.follower.pass k.next) disk.new) result }
    ensures rises { WhereServed (λ k. (keeper.commits ≤ k.commits) × (keeper.next ≤ k.next)) result }
    ensures read { HasRead running.old.follower.pass running.new.follower.pass }
    ensures any_moment { IsTrue (D.is_honest disk.old) → LeavesOnly D.moment D.left_since disk.old disk.new
        (IsBetween (kept_at running.old.follower.pass keeper.next) running.new.follower.pass.journal) }
    ensures later { WhereServed (λ _. running.old.rounds.number < running.new.rounds.number) result }
    ensures within { WhereServed (λ _. running.new.rounds.number ≤ most_input_bytes + 1) result }
    ensures unsent { WhereStopped (λ s. MayLeaveReplies s.status ⊎ (s.unsent ≡ [])) result }
    ensures began { WhereStopped (λ s. HasBegunKept s.status) result }
    ensures disk_fault { WhereStopped (λ s. s.status ≡ KeptStatus.DiskFault → Rose (D.faults disk.old) (D.faults disk.new)) result }
    ensures disk_faults { D.faults disk.old ≤ D.faults disk.new }
    ensures read_faults { I.faults input.new ≡ round_read_faults result (I.faults input.old) }
    ensures write_faults { O.faults output.new ≡ round_write_faults result (O.faults output.old) }
    ensures honest { D.is_honest disk.new ≡ D.is_honest disk.old }
{
    match serving.run_next(&mut running.rounds, &mut running.sessions, input) {
        NextRound::Ran => match keep_round(
            serving.rt(),
            running.alloc,
            serving.store(),
            &running.sessions,
            &mut running.follower,
            keeper,
            disk,
        ) {
            Ok(kept) => match send(&kept, disk, &mut running.sessions, output) {
                Ok(()) => RoundOutcome::Served(kept),
                Err(unsent) => RoundOutcome::Stopped(Stopped {
                    status: KeptStatus::Served(Status::WriteFault),
                    unsent,
                }),
            },
            Err(unkept) => RoundOutcome::Stopped(Stopped {
                status: status_of(unkept),
                unsent: running.sessions.hold_back(),
            }),
        },
        NextRound::Ended(status) => stop_with(running.alloc, status),
    }
}

fn status_of(unkept: Unkept) -> KeptStatus
    ensures { result ≡ status_of unkept }
{
    match unkept {
        Unkept::DiskFault => KeptStatus::DiskFault,
        Unkept::NoMemory => KeptStatus::Served(Status::NoMemory),
    }
}
