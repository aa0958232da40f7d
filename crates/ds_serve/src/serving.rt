//! The rounds of an input: each is read and run, and its replies are written before the next one is read.
ghost use Rattle.std.specs.Prelude.{◌≡◌, ◌+◌, ◌<◌, ◌≤◌, ◌⊎◌, List, ℕ, Option, []};
ghost use Rattle.ds_base.specs.Limits.{most_input_bytes};
ghost use Rattle.ds_rounds.specs.Rounds.{NumberedLine};
ghost use Rattle.ds_model.specs.Sessions.{Session};
ghost use Rattle.ds_protocol.specs.Watermarks.{HaveCounts};
ghost use Rattle.ds_clients.specs.Runs.{AreWritten, seen_of};
ghost use Rattle.ds_serving.specs.Runs.{HasBegun};
ghost use Rattle.ds_serving.specs.Rounds.{HasServed};
ghost use Rattle.ds_serve.specs.RunSteps.{Counted, Exactly, HasEnded, Leaves, LeavesOne, RanBehind, WhereStopped};
ghost use Rattle.ds_serve.specs.RunSteps.{round_read_faults, round_write_faults};

use crate::stopped::{RoundOutcome, Stopped, stop_with};
use ds_clients::{RunNames, Sessions, write_round};
use ds_io::{Gate, Sink, Source};
use ds_rounds::Rounds;
use ds_serving::{NextRound, ServingWithWorkers};
use ds_store::Names;
use ds_words::Status;
use std::alloc::Global;
use std::sync::Wait;
use std::thread::Threads;

/// Serves the rounds of an input that are left, until the run stops.
pub fn serve_rounds<
    J: Names + Send + Sync,
    N: RunNames + Send + Sync,
    Rt: Threads + Wait + Sync,
    H: Wait + Drop + Send,
    I: Source,
    O: Sink,
    G: Gate + Sync,
>(
    serving: &ServingWithWorkers<'_, J, N, Rt, H, G>,
    alloc: Global,
    rounds: &mut Rounds,
    sessions: &mut Sessions<J>,
    input: &mut I,
    output: &mut O,
) -> Stopped
    requires reader { rounds.old.number ≤ most_input_bytes + 1 }
    requires counts { HaveCounts serving.now.shards (seen_of sessions.old) }
    requires written { AreWritten sessions.old }
    ensures { HasEnded serving.now rounds.old (I.left input.old) (I.left input.new) (O.held output.old) (O.held output.new)
        (I.faults input.old) (I.faults input.new) (O.faults output.old) (O.faults output.new) sessions.old sessions.new result }
{
    'serve: loop {
        match serve_round(serving, alloc, rounds, sessions, input, output) {
            RoundOutcome::Served => {}
            RoundOutcome::Stopped(stopped) => return stopped,
        }
    }
}

/// Reads the next round, runs it, and writes its replies.
fn serve_round<
    J: Names + Send + Sync,
    N: RunNames + Send + Sync,
    Rt: Threads + Wait + Sync,
    H: Wait + Drop + Send,
    I: Source,
    O: Sink,
    G: Gate + Sync,
>(
    serving: &ServingWithWorkers<'_, J, N, Rt, H, G>,
    alloc: Global,
    rounds: &mut Rounds,
    sessions: &mut Sessions<J>,
    input: &mut I,
    output: &mut O,
) -> RoundOutcome
    requires counts { HaveCounts serving.now.shards (seen_of sessions.old) }
    requires written { AreWritten sessions.old }
    ensures leaves { (first : List Session) (before : List (List NumberedLine)) (said : List ℕ) (many : ℕ) (left held : Option (List ℕ))
        → HasServed (Counted (Exactly many) (RanBehind serving.now first before said)) left (I.left input.old) held (O.held output.old)
        rounds.old sessions.old
        → LeavesOne serving.now first before said many result left (I.left input.new) held (O.held output.new) rounds.new sessions.new }
    ensures counts { HaveCounts serving.now.shards (seen_of sessions.new) }
    ensures written { AreWritten sessions.new }
    ensures later { result ≡ RoundOutcome.Served → rounds.old.number < rounds.new.number }
    ensures within { result ≡ RoundOutcome.Served → rounds.new.number ≤ most_input_bytes + 1 }
    ensures unsent { WhereStopped (λ s. (s.status ≡ Status.WriteFault) ⊎ (s.unsent ≡ [])) result }
    ensures began { WhereStopped (λ s. HasBegun s.status) result }
    ensures read_faults { I.faults input.new ≡ round_read_faults result (I.faults input.old) }
    ensures write_faults { O.faults output.new ≡ round_write_faults result (O.faults output.old) }
{
    match serving.run_next(rounds, sessions, input) {
        NextRound::Ran => match write_round(sessions, output) {
            Ok(()) => RoundOutcome::Served,
            Err(unsent) => RoundOutcome::Stopped(Stopped {
                status: Status::WriteFault,
                unsent,
            }),
        },
        NextRound::Ended(status) => stop_with(alloc, status),
    }
}

/// Serves so many rounds of an input, or fewer where the run stops at one of them.
pub fn serve_some<
    J: Names + Send + Sync,
    N: RunNames + Send + Sync,
    Rt: Threads + Wait + Sync,
    H: Wait + Drop + Send,
    I: Source,
    O: Sink,
    G: Gate + Sync,
>(
    serving: &ServingWithWorkers<'_, J, N, Rt, H, G>,
    alloc: Global,
    many: u32,
    rounds: &mut Rounds,
    sessions: &mut Sessions<J>,
    input: &mut I,
    output: &mut O,
) -> RoundOutcome
    requires counts { HaveCounts serving.now.shards (seen_of sessions.old) }
    requires written { AreWritten sessions.old }
    requires within { rounds.old.number ≤ most_input_bytes + 1 }
    ensures leaves { (first : List Session) (before : List (List NumberedLine)) (said : List ℕ) (left held : Option (List ℕ))
        → HasServed (Counted (Exactly 0) (RanBehind serving.now first before said)) left (I.left input.old) held (O.held output.old)
        rounds.old sessions.old
        → Leaves serving.now first before said many result left (I.left input.new) held (O.held output.new) rounds.new sessions.new }
    ensures counts { HaveCounts serving.now.shards (seen_of sessions.new) }
    ensures written { AreWritten sessions.new }
    ensures within { result ≡ RoundOutcome.Served → rounds.new.number ≤ most_input_bytes + 1 }
    ensures unsent { WhereStopped (λ s. (s.status ≡ Status.WriteFault) ⊎ (s.unsent ≡ [])) result }
    ensures began { WhereStopped (λ s. HasBegun s.status) result }
    ensures read_faults { I.faults input.new ≡ round_read_faults result (I.faults input.old) }
    ensures write_faults { O.faults output.new ≡ round_write_faults result (O.faults output.old) }
{
    for _done in 0..many {
        match serve_round(serving, alloc, rounds, sessions, input, output) {
            RoundOutcome::Served => {}
            RoundOutcome::Stopped(stopped) => return RoundOutcome::Stopped(stopped),
        }
    }
    RoundOutcome::Served
}
