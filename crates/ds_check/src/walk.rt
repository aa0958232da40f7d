//! The walk over a run: one reply after another is held against what its line asks.
ghost use Rattle.std.specs.Prelude.{◌≡◌, ◌<◌, [], Some, map, length, slice_get, All, IfOk};
ghost use Rattle.ds_asked.specs.AskedLines.{MayBeAnswered};
ghost use Rattle.ds_model.specs.Sessions.{first_sessions};
ghost use Rattle.ds_judging_lines.specs.Deciding.{IsHeld, world_run};
ghost use Rattle.ds_check.specs.Walks.{AreSessions, IfAsk, IsFound, IsReplied, IsTaken, MayBeTaken, Walked, asks};

use crate::steps::Step;
use ds_asked::Asked;
use ds_base::NoMemory;
use ds_judging::judge;
use ds_judging_lines::{Run, first_sessions, meet};
use ds_protocol::Session;
use ds_told::{Draws, Told};
use std::alloc::Global;

/// The number of the first line whose reply is wrong; none where all are answers, and then what they tell is noted. There is a reply for
/// each line. A refusal means out of memory.
pub(crate) fn wrong_reply(
    alloc: Global,
    run: &Run<'_>,
    steps: Vec<Step>,
    replies: &[&[u8]],
    told: &mut Told,
) -> Result<Option<u64>, NoMemory>
    requires held { IsHeld run.now.history.shards run.now.history.journal }
    requires each { All (MayBeTaken run.now.history.shards) steps.items }
    requires counted { asks steps.items ≡ length replies.now }
    requires begun { told.old ≡ record { commits = []; drawn = []; accepted = 0; printed = 0 } }
    ensures { IfOk result (λ wrong. Walked (world_run run.now) (first_sessions run.now.history.shards) steps.items
        (map (λ line. line.now) replies.now) wrong told.new) }
{
    let mut sessions = first_sessions(alloc, run.history.shards())?;
    let mut answered = 0;
    'steps: for step in steps {
        answered = match take_step(alloc, run, step, replies, answered, &mut sessions, told)? {
            Ok(count) => count,
            Err(number) => return Ok(Some(number)),
        };
    }
    Ok(None)
}

/// Takes one step behind those that so many replies answered. It gives how many replies are answers now; or the number of the line whose
/// reply is wrong. A refusal means out of memory.
fn take_step(
    alloc: Global,
    run: &Run<'_>,
    step: Step,
    replies: &[&[u8]],
    answered: usize,
    sessions: &mut Vec<Session>,
    told: &mut Told,
) -> Result<Result<usize, u64>, NoMemory>
    requires held { IsHeld run.now.history.shards run.now.history.journal }
    requires step { MayBeTaken run.now.history.shards step }
    requires replied { IsReplied step answered (length replies.now) }
    requires sessions { AreSessions run.now.history.shards sessions.old.items }
    ensures taken { IfOk result (λ count. IsTaken (world_run run.now) sessions.old.items told.old
        (map (λ line. line.now) replies.now) answered step count sessions.new.items told.new) }
    ensures sessions { IfOk result (λ count. IfAsk step (AreSessions run.now.history.shards sessions.new.items)) }
{
    match step {
        Step::Meet => {
            meet(alloc, run.history.shards(), sessions.as_mut_slice())?;
            Ok(Ok(answered))
        }
        Step::Ask(asked) => {
            let number = asked.number;
            if is_answered(
                alloc,
                run,
                asked,
                line_at(replies, answered),
                sessions,
                told,
            )? {
                Ok(Ok(answered + 1))
            } else {
                Ok(Err(number))
            }
        }
    }
}

/// Whether the reply to what was asked is an answer. Then its client's session is the one behind it, and what it tells is noted.
/// A refusal means out of memory.
fn is_answered(
    alloc: Global,
    run: &Run<'_>,
    asked: Asked,
    line: &[u8],
    sessions: &mut Vec<Session>,
    told: &mut Told,
) -> Result<bool, NoMemory>
    requires held { IsHeld run.now.history.shards run.now.history.journal }
    requires answerable { MayBeAnswered run.now.history.shards asked }
    requires sessions { AreSessions run.now.history.shards sessions.old.items }
    ensures found { IfOk result (λ right. IsFound (world_run run.now) sessions.old.items told.old asked line.now right
        sessions.new.items told.new) }
    ensures sessions { IfOk result (λ right. AreSessions run.now.history.shards sessions.new.items) }
{
    let draws = Draws::of(&asked.request);
    match judge(
        alloc,
        run,
        &mut sessions[asked.client as usize],
        asked,
        line,
    )? {
        Some(body) => {
            told.note(draws, &body)?;
            Ok(true)
        }
        None => Ok(false),
    }
}

/// The line of a reply.
#[tactic(auto, using(crate::proofs::SessionLaws::got_some))]
fn line_at<'a>(replies: &'a [&'a [u8]], i: usize) -> &'a [u8]
    requires { i < length replies.now }
    ensures { slice_get (map (λ line. line.now) replies.now) i ≡ Some result.now }
{
    match replies.get(i) {
        Some(line) => line,
        None => unreachable!(),
    }
}
