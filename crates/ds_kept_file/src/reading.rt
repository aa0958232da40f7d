//! From a file's bytes to what is kept in it.
ghost use Rattle.std.specs.Prelude.{◌≡◌, ◌-◌, ◌≤◌, length, take, IfOk};
ghost use Rattle.ds_base.specs.Limits.{most_commits};
ghost use Rattle.ds_kept_file.specs.Files.{is_open as is_open_gate};
ghost use Rattle.ds_kept_file.specs.Readings.{IsReadingOf};

use crate::body::read_body;
use crate::parts::{is_open, split_batch};
use ds_base::NoMemory;
use ds_journal::Book;
use ds_log::Journal;
use std::alloc::Global;

/// What was read of a file.
#[derive(Drop)]
pub struct FileRead {
    /// The commits of all whole batches up to the gate.
    pub journal: Journal,
    /// The id counter of the last of them; 2^52 where there is none.
    pub next: u64,
    /// The place of the gate behind them, counted in bytes from 0.
    pub gate: u64,
    /// Whether that gate is open although no whole batch that may follow stands behind it.
    pub damaged: bool,
}

/// Reads a file up to its end or its first damage: `damaged` tells whether there is one, and `gate` then its place, that of the open gate
/// of the first batch that passes the end with its next gate, whose body isn't such text, whose commits don't continue the journal, whose
/// counter falls or is above 2^63 - 1, or whose counter isn't above each id of 2^52 or more in a written key. The journal and the counter
/// are those of the batches in front of it. A file that isn't damaged stands for them. The rule is our own.
///
/// A refusal means out of memory, or a journal of more than 2^48 commits. It is linear in the file.
pub fn read_file(alloc: Global, file: &[u8]) -> Result<FileRead, NoMemory>
    ensures read { IfOk result (IsReadingOf file.now) }
    ensures few { IfOk result (λ read. length read.journal ≤ most_commits) }
{
    let mut book = Book::make(alloc);
    let mut rest = file;
    'batches: while is_open(rest) {
        let commits = book.journal().len();
        let next = book.next();
        match split_batch(rest) {
            None => return Ok(ended(book, commits, next, file, rest)),
            Some((body, behind)) => {
                if !read_body(alloc, &mut book, body)? {
                    return Ok(ended(book, commits, next, file, rest));
                }
                rest = behind;
            }
        }
    }
    let commits = book.journal().len();
    let next = book.next();
    Ok(ended(book, commits, next, file, rest))
}

/// What was read where the walk ends in front of `rest`, which is the end of the file, with so many commits and this counter.
fn ended(book: Book, commits: usize, next: u64, file: &[u8], rest: &[u8]) -> FileRead
    requires { length rest.now ≤ length file.now }
    ensures journal { result.journal ≡ take commits book.journal }
    ensures next { result.next ≡ next }
    ensures gate { result.gate ≡ length file.now - length rest.now }
    ensures damaged { result.damaged ≡ is_open_gate rest.now }
{
    let mut journal = book.end().into_vec();
    journal.truncate(commits);
    FileRead {
        journal: Journal::from(journal),
        next,
        gate: (file.len() - rest.len()) as u64,
        damaged: is_open(rest),
    }
}
