//! Whether replies are those of a legal run.
ghost use Rattle.std.specs.Prelude.{◌≡◌, ◌≤◌, ◌↔◌, All, IfOk, length, map};
ghost use Rattle.ds_base.specs.Limits.{most_shards};
ghost use Rattle.ds_rounds.specs.Rounds.{rounds_of_input};
ghost use Rattle.ds_model.specs.Sessions.{first_sessions};
ghost use Rattle.ds_judging_lines.specs.Deciding.{IsHeld, world_run};
ghost use Rattle.ds_check.specs.Verdicts.{IsLegalText, IsVerdict};
ghost use Rattle.ds_check.specs.Walks.{IsJudged, MayBeTaken, asks, of_tally};

use crate::steps::{Step, asks, steps_of};
use crate::walk::wrong_reply;
use ds_asked::asked_of_input;
use ds_base::NoMemory;
use ds_history::History;
use ds_indexdef::Defs;
use ds_judging_lines::{Run, journal_is_held};
use ds_log::Journal;
use ds_reply_lines::whole_lines;
use ds_told::{Tally, Told};
use std::alloc::Global;

/// What is found of a run.
#[derive(Clone, Copy, PartialEq, Eq, Debug)]
pub enum Verdict {
    /// The replies are those of a legal run.
    Legal,
    /// The first reply, in the order of replies, that no legal run could give behind those before it: the number of its line of the input.
    Reply {
        /// The line's number, counted from 1 through the whole input.
        line: u64,
    },
    /// There isn't one whole line of a reply for each line of the input that isn't empty.
    Count,
    /// The acknowledged commits aren't those of the journal, each once.
    Numbers,
    /// The drawn ids aren't the first ones, each once; or an accepted id or a printed counter is above them.
    Ids,
}

/// Whether `replies` are the replies of a legal run of `input`, over these index definitions, so many shards and this window of kept
/// versions, whose commits are those of the journal; else the first of `Count`, `Reply`, `Numbers` and `Ids` that holds. `NoMemory` is want
/// of memory alone. It is linear in the lines and in the journal's writes, but for what a query costs.
pub fn check(
    alloc: Global,
    input: &[u8],
    shards: u32,
    window: u64,
    defs: &Defs,
    journal: &Journal,
    replies: &[u8],
) -> Result<Verdict, NoMemory>
    requires least { 1 ≤ shards }
    requires most { shards ≤ most_shards }
    ensures verdict { IfOk result (IsVerdict defs.now shards window (rounds_of_input input.now) journal.now replies.now) }
    ensures legal { IfOk result (λ v. (v ≡ Verdict.Legal)
        ↔ IsLegalText defs.now shards window (rounds_of_input input.now) journal.now replies.now) }
{
    let steps = steps_of(alloc, asked_of_input(alloc, shards, input)?)?;
    let Some(lines) = whole_lines(alloc, replies)? else {
        return Ok(Verdict::Count);
    };
    if lines.len() != asks(steps.as_slice()) {
        return Ok(Verdict::Count);
    }
    let run = Run {
        history: History::make(alloc, journal, shards)?,
        defs,
        window,
    };
    journal_is_held(&run.history, journal);
    judged(alloc, &run, steps, lines.as_slice())
}

/// What is found of a run with a reply for each line.
fn judged(
    alloc: Global,
    run: &Run<'_>,
    steps: Vec<Step>,
    lines: &[&[u8]],
) -> Result<Verdict, NoMemory>
    requires held { IsHeld run.now.history.shards run.now.history.journal }
    requires each { All (MayBeTaken run.now.history.shards) steps.items }
    requires counted { asks steps.items ≡ length lines.now }
    ensures { IfOk result (IsJudged (world_run run.now) (first_sessions run.now.history.shards) steps.items
        (map (λ line. line.now) lines.now) (length run.now.history.journal)) }
{
    let mut told = Told::new(alloc);
    match wrong_reply(alloc, run, steps, lines, &mut told)? {
        Some(line) => Ok(Verdict::Reply { line }),
        None => Ok(of_tally(told.tally(run.history.commits()))),
    }
}

/// What is found of a run all of whose replies are answers.
fn of_tally(tally: Tally) -> Verdict
    ensures { result ≡ of_tally tally }
{
    match tally {
        Tally::Whole => Verdict::Legal,
        Tally::Commits => Verdict::Numbers,
        Tally::Ids => Verdict::Ids,
    }
}
