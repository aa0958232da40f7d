//! Whether a commit is one of the journal.
ghost use Rattle.std.specs.Prelude.{◌≡◌, ◌≤◌, ◌↔◌, length, Some, IfOk, IsTrue};
ghost use Rattle.ds_base.specs.Limits.{most_writes};
ghost use Rattle.ds_history.specs.Writers.{nth_commit};
ghost use Rattle.ds_journal_text.specs.Lawful.{IsLawfulCommit};
ghost use Rattle.ds_journal_text.specs.Texts.{commit_text};

use ds_base::limits::MAX_WRITES;
use ds_base::{Buffer, NoMemory};
use ds_journal_text::write_commit;
use ds_judging_lines::Turn;
use ds_log::Commit;
use std::alloc::Global;

/// Whether commit `number` of the journal is this one: both have one line.
pub fn is_commit(turn: &Turn<'_>, number: u64, commit: &Commit) -> Result<bool, NoMemory>
    requires { length commit.now.writes ≤ most_writes }
    ensures { IfOk result (λ same. IsTrue same ↔ (nth_commit turn.now.run.now.history.journal number ≡ Some commit.now)) }
{
    let Some(there) = turn.run.history.commit(number) else {
        return Ok(false);
    };
    if there.writes.len() > MAX_WRITES {
        return Ok(false);
    }
    have_one_line(turn.alloc, number, there, commit)
}

/// Whether two commits have one line, with this number.
fn have_one_line(
    alloc: Global,
    number: u64,
    first: &Commit,
    second: &Commit,
) -> Result<bool, NoMemory>
    requires first { length first.now.writes ≤ most_writes }
    requires second { length second.now.writes ≤ most_writes }
    ensures { IfOk result (λ same. IsTrue same ↔ (first.now ≡ second.now)) }
{
    let own = line_of(alloc, number, first)?;
    let other = line_of(alloc, number, second)?;
    Ok(are_same(own.bytes(), other.bytes()))
}

/// The line of a commit. A refusal means out of memory.
fn line_of(alloc: Global, number: u64, commit: &Commit) -> Result<Buffer, NoMemory>
    requires { length commit.now.writes ≤ most_writes }
    ensures text { IfOk result (λ line. line.bytes ≡ commit_text number commit.now) }
    ensures lawful { IsLawfulCommit commit.now }
{
    let mut line = Buffer::new(alloc);
    write_commit(alloc, commit, number, &mut line)?;
    Ok(line)
}

/// Whether these are the same bytes.
fn are_same(first: &[u8], second: &[u8]) -> bool
    ensures { IsTrue result ↔ (first.now ≡ second.now) }
{
    first == second
}
