//! The body of one batch, read into a book.
ghost use Rattle.std.specs.Prelude.{◌≡◌, ◌∷◌, ◌++◌, ◌≤◌, ◌↔◌, List, [], None, false, length, take, All, IfOk, IsTrue};
ghost use Rattle.ds_base.specs.Limits.{most_commits, most_writes};
ghost use Rattle.ds_log.specs.declared.Commit.{Commit};
ghost use Rattle.ds_log.specs.Ids.{AreIssued, first_unissued};
ghost use Rattle.ds_log.specs.Logs.{key_of};
ghost use Rattle.ds_journal.specs.Books.{IsBook};
ghost use Rattle.ds_journal_text.specs.Texts.{IsLineOf};
ghost use Rattle.ds_kept_file.specs.Files.{next_number};
ghost use Rattle.ds_kept_file.specs.Readings.{kept_in, IsBodyRead, HasNoBody, AreNext, AreLinesRead, MayCommit};

use crate::counter::read_next;
use ds_base::NoMemory;
use ds_base::limits::MAX_ID;
use ds_journal::ids::check_path;
use ds_journal::{Book, CommitCause, Draft};
use ds_journal_text::read_commit;
use ds_log::{Commit, Touch, Write};
use ds_rounds::split_line;
use std::alloc::{AllocError, Global};

/// Reads the body of a batch that is appended to the book: the counter is raised to its `next`, and its commits are appended. `false`
/// exactly where it is the body of no batch that may follow; of such a body some commits may be in the book, and the counter be raised. A
/// refusal means out of memory, or a journal of more than 2^48 commits.
pub fn read_body(alloc: Global, book: &mut Book, body: &[u8]) -> Result<bool, NoMemory>
    ensures read { IfOk result (λ whole. IsTrue whole → IsBodyRead (kept_in book.old) body.now (kept_in book.new)) }
    ensures refused { IfOk result (λ whole. whole ≡ false → HasNoBody (kept_in book.old) body.now) }
    ensures front { IfOk result (λ _. take (length book.old.journal) book.new.journal ≡ book.old.journal) }
{
    let (line, lines) = match split_line(body) {
        Some(parts) => parts,
        None => return Ok(false),
    };
    let next = match read_next(alloc, line)? {
        Some(next) => next,
        None => return Ok(false),
    };
    if next < book.next() {
        return Ok(false);
    }
    if next > MAX_ID {
        return Ok(false);
    }
    book.raise(next);
    read_lines(alloc, book, lines)
}

/// Appends the commits whose lines these are, numbered on from the book's last one; each line ends with a newline. `false` exactly where
/// the lines are those of no commits that may follow.
fn read_lines(alloc: Global, book: &mut Book, lines: &[u8]) -> Result<bool, NoMemory>
    ensures read { IfOk result (λ whole. IsTrue whole → AreLinesRead (kept_in book.old) lines.now (kept_in book.new)) }
    ensures refused { IfOk result (λ whole. whole ≡ false → (commits : List Commit) → AreNext (kept_in book.old) lines.now commits → ⊥) }
    ensures front { IfOk result (λ _. take (length book.old.journal) book.new.journal ≡ book.old.journal) }
{
    let mut rest = lines;
    'lines: while !rest.is_empty() {
        match split_line(rest) {
            None => return Ok(false),
            Some((line, behind)) => {
                if !read_line(alloc, book, line)? {
                    return Ok(false);
                }
                rest = behind;
            }
        }
    }
    book_is_lawful(book);
    Ok(true)
}

/// Appends the commit whose line this is.
fn read_line(alloc: Global, book: &mut Book, line: &[u8]) -> Result<bool, NoMemory>
    ensures read { IfOk result (λ whole. IsTrue whole
        → (c : Commit) × IsLineOf (next_number (kept_in book.old)) c line.now × (book.new.journal ≡ book.old.journal ++ c ∷ [])) }
    ensures refused { IfOk result (λ whole. whole ≡ false
        → (c : Commit) → IsLineOf (next_number (kept_in book.old)) c line.now → MayCommit (kept_in book.old) c → ⊥) }
    ensures same { IfOk result (λ whole. whole ≡ false → book.new.journal ≡ book.old.journal) }
    ensures next { book.new.next ≡ book.old.next }
    ensures few { length book.old.journal ≤ most_commits }
{
    let number = book.journal().len() as u64 + 1;
    match read_commit(alloc, number, line)? {
        Some(commit) => append_commit(alloc, book, commit),
        None => Ok(false),
    }
}

/// Appends a commit, where it may follow.
fn append_commit(alloc: Global, book: &mut Book, commit: Commit) -> Result<bool, NoMemory>
    requires { length commit.writes ≤ most_writes }
    ensures read { IfOk result (λ whole. IsTrue whole → book.new.journal ≡ book.old.journal ++ commit ∷ []) }
    ensures refused { IfOk result (λ whole. whole ≡ false → MayCommit (kept_in book.old) commit → ⊥) }
    ensures same { IfOk result (λ whole. whole ≡ false → book.new.journal ≡ book.old.journal) }
    ensures next { book.new.next ≡ book.old.next }
{
    if !are_before(book.journal().len() as u64, commit.touched.as_slice()) {
        return Ok(false);
    }
    if !are_issued(book.next(), commit.writes.as_slice()) {
        return Ok(false);
    }
    let Commit {
        client,
        touched,
        writes,
    } = commit;
    let draft = Draft::make(alloc, client, touched, writes)?;
    match book.commit(draft) {
        Ok(_) => Ok(true),
        Err(refused) => match refused.cause {
            CommitCause::Conflict(_) => Ok(false),
            CommitCause::NoMemory => Err(AllocError),
        },
    }
}

/// Whether each touch place is one of a journal of so many commits.
fn are_before(commits: u64, touched: &[Touch]) -> bool
    ensures { IsTrue result ↔ All (λ t. t.place ≤ commits) touched.now }
{
    touched.iter().all(|touch| touch.place <= commits)
}

/// Whether each written key may stand at this counter.
fn are_issued(next: u64, writes: &[Write]) -> bool
    ensures { IsTrue result ↔ AreIssued next writes.now }
{
    writes.iter().all(|write| is_issued(next, write))
}

fn is_issued(next: u64, write: &Write) -> bool
    ensures { IsTrue result ↔ (first_unissued next (key_of write.now).elems ≡ None) }
{
    check_path(next, write.key().elems().as_slice()).is_ok()
}

/// What every book keeps, for the proofs' sake.
fn book_is_lawful(book: &Book)
    ensures { IsBook book.now.journal book.now.next }
{
    let _commits = book.journal();
}
