//! Commits of a book: which conflict, and what is recorded.
ghost use Rattle.std.specs.Prelude.{◌≤◌, IsTrue, IfOk};
ghost use Rattle.std.specs.List.{All};
ghost use Rattle.ds_log.specs.Ids.{AreIssued};

use crate::writes::{deletes, touches};
use ds_journal::{Book, CommitCause, CommitRefused, Draft};
use ds_log::Touch;
use std::alloc::Global;
use std::test::Fail;

/// A draft of client 1 that touched these groups and deletes the keys with these names, of which there are at most 500.
fn draft(alloc: Global, touched: &[(&str, u64)], names: &[&str]) -> Result<Draft, Fail>
    ensures { IfOk result (λ draft. AreIssued 0 draft.writes) }
{
    if names.len() > 500 {
        return Err(Fail::new("many writes"));
    }
    let touched = touches(alloc, touched)?;
    let writes = deletes(alloc, names)?;
    Ok(Draft::make(alloc, 1, touched, writes)?)
}

fn are_places(touched: &[Touch], most: u64) -> bool
    ensures { IsTrue result → All (λ t. t.place ≤ most) touched.now }
{
    touched.iter().all(|touch| touch.place <= most)
}

/// The answer to a commit. `None` stands for a draft that isn't one of this book.
fn commit(book: &mut Book, draft: Draft) -> Option<Result<u64, CommitRefused>>
    requires { AreIssued 0 draft.writes }
{
    let most = book.journal().len() as u64;
    if !are_places(draft.commit().touched.as_slice(), most) {
        return None;
    }
    Some(book.commit(draft))
}

fn is_commit(answer: Option<Result<u64, CommitRefused>>, number: u64) -> bool {
    match answer {
        Some(Ok(commit)) => commit == number,
        _ => false,
    }
}

fn is_conflict(
    answer: Option<Result<u64, CommitRefused>>,
    group: u32,
    commit: u64,
    place: u64,
) -> bool {
    match answer {
        Some(Err(refused)) => match refused.cause {
            CommitCause::Conflict(conflict) => {
                conflict.group == group && conflict.commit == commit && conflict.place == place
            }
            CommitCause::NoMemory => false,
        },
        _ => false,
    }
}

/// What is answered to a commit: its number, or of a conflict the group, the last commit that wrote it, and the journal's length.
type Answer = Result<u64, (u32, u64, u64)>;

/// The groups that a draft touched, each with its place, the keys that it deletes, and the answer to its commit.
type Row = (
    &'static [(&'static str, u64)],
    &'static [&'static str],
    Answer,
);

/// Two transactions touch [T,a] at place 1 and write it; the second one to commit conflicts with the first one.
const SECOND_WRITER: [Row; 3] = [
    (&[], &["a"], Ok(1)),
    (&[("a", 1)], &["a"], Ok(2)),
    (&[("a", 1)], &["a"], Err((0, 2, 2))),
];

/// A group that is only read is checked too, and so is each group after the first one.
const READERS: [Row; 4] = [
    (&[], &["a"], Ok(1)),
    (&[("a", 0), ("b", 0)], &["b"], Err((0, 1, 1))),
    (&[("c", 0), ("b", 0), ("a", 0)], &["c"], Err((2, 1, 1))),
    (&[("a", 1), ("b", 0)], &["b"], Ok(2)),
];

/// A write outside a transaction touches nothing and never conflicts; a transaction without touches and writes is numbered too.
const UNTOUCHED: [Row; 4] = [
    (&[], &["a"], Ok(1)),
    (&[], &["a"], Ok(2)),
    (&[], &["a"], Ok(3)),
    (&[], &[], Ok(4)),
];

/// The last commit that wrote the group is told, and the journal's length at the check.
const LAST_WRITER: [Row; 4] = [
    (&[], &["a"], Ok(1)),
    (&[], &["a", "b"], Ok(2)),
    (&[], &["b"], Ok(3)),
    (&[("a", 0)], &["a"], Err((0, 2, 3))),
];

fn is_as_wanted(answer: Option<Result<u64, CommitRefused>>, wanted: Answer) -> bool {
    match wanted {
        Ok(number) => is_commit(answer, number),
        Err((group, commit, place)) => is_conflict(answer, group, commit, place),
    }
}

fn is_answered(alloc: Global, book: &mut Book, row: &Row) -> Result<bool, Fail> {
    let draft = draft(alloc, row.0, row.1)?;
    Ok(is_as_wanted(commit(book, draft), row.2))
}

/// Tables of commits, and the length of the journal that each leaves.
const BOOKS: [(&[Row], usize); 4] = [
    (&SECOND_WRITER, 2),
    (&READERS, 2),
    (&UNTOUCHED, 4),
    (&LAST_WRITER, 3),
];

fn are_answered(alloc: Global, book: &mut Book, rows: &[Row], length: usize) -> Result<bool, Fail> {
    for row in rows {
        if !is_answered(alloc, book, row)? {
            return Ok(false);
        }
    }
    Ok(book.journal().len() == length)
}

/// Whether the commits of a new book are answered as the rows say in turn, and leave a journal of this length.
fn is_book(alloc: Global, rows: &[Row], length: usize) -> Result<bool, Fail> {
    let mut book = Book::make(alloc);
    are_answered(alloc, &mut book, rows, length)
}

/// The place of the first table of which something else is answered.
fn first_wrong(alloc: Global) -> Result<Option<usize>, Fail> {
    for (place, table) in BOOKS.iter().enumerate() {
        if !is_book(alloc, table.0, table.1)? {
            return Ok(Some(place));
        }
    }
    Ok(None)
}

/// Whether a draft commits where room was made, and it had no conflict.
fn commits_in_room(book: &mut Book, draft: Draft) -> Result<bool, Fail>
    requires { AreIssued 0 draft.writes }
{
    book.make_room(&draft)?;
    let free = book.check(&draft).is_ok();
    Ok(is_commit(commit(book, draft), 1) && free)
}

/// With room made a draft without conflict is appended, and the journal that is left has it.
fn room_is_made(alloc: Global) -> Result<bool, Fail> {
    let draft = draft(alloc, &[("a", 0)], &["a", "b"])?;
    let mut book = Book::make(alloc);
    let holds = commits_in_room(&mut book, draft)?;
    Ok(holds && book.end().len() == 1)
}

#[test]
fn commits_are_decided(rt: HostRuntime) -> Result<(), Fail> {
    assert_eq!(rt; first_wrong(rt.alloc())?, None);
    assert!(rt; room_is_made(rt.alloc())?);
    Ok(())
}
