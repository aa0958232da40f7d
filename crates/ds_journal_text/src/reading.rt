//! From a text to the journal that it stands for.
ghost use Rattle.std.specs.Prelude.{◌≡◌, ◌<◌, ◌≤◌, ◌↔◌, ℕ, All, Err, Some, length, option_map, true, IfOk, IfSome, IsTrue};
ghost use Rattle.serde_json.specs.View.{view};
ghost use Rattle.ds_base.specs.Limits.{most_writes};
ghost use Rattle.ds_log.specs.declared.Commit.{Commit};
ghost use Rattle.ds_request.specs.Requests.{line_data};
ghost use Rattle.ds_rounds.specs.Lines.{lines_in};
ghost use Rattle.ds_journal_text.specs.Lines.{IsFirstLine, LineIs, IsIfLine};
ghost use Rattle.ds_journal_text.specs.Texts.{IsLineOf, IsJournalOf, IsFirstWrongLine, commit_line};

use crate::forms::CommitForm;
use crate::lawful::commit_is_lawful;
use crate::writing::commit_line;
use ds_base::NoMemory;
use ds_base::limits::MAX_WRITES;
use ds_json_reading::{Form, Refusal};
use ds_log::{Commit, Journal};
use ds_rounds::split_line;
use serde_json::Value;
use std::alloc::{AllocError, Global};

/// Why a text is no journal's.
#[derive(Clone, Copy, PartialEq, Eq, Debug)]
pub enum JournalRefused {
    /// The first line, counted from 1, that isn't the text of a commit with the next number.
    Line(u64),
    /// There was no memory.
    NoMemory,
}

/// The journal that a text stands for: line by line the text of a commit, numbered from 1; the last line may lack its newline. What
/// `write_journal` writes is read as the same journal.
///
/// `Line` comes exactly at the first line that isn't the text of a commit with at most 500 writes and the next number, byte by byte.
/// `NoMemory` means out of memory alone. It is linear in the text.
pub fn read_journal(alloc: Global, text: &[u8]) -> Result<Journal, JournalRefused>
    ensures read { IfOk result (λ journal. IsJournalOf text.now journal) }
    ensures few { IfOk result (All (λ c. length c.writes ≤ most_writes)) }
    ensures line { (wrong : ℕ) → result ≡ Err (JournalRefused.Line wrong) → IsFirstWrongLine 1 (lines_in true text.now) wrong }
{
    let mut commits = Vec::new(alloc);
    let mut rest = text;
    let mut number = 1;
    'lines: while !rest.is_empty() {
        let (line, behind) = first_line(rest);
        let commit = commit_in(alloc, number, line)?;
        if let Err(_) = commits.push(commit) {
            return Err(JournalRefused::NoMemory);
        }
        rest = behind;
        number += 1;
    }
    Ok(Journal::from(commits))
}

/// The first line of a text that has one, without its newline, and what stands behind it.
fn first_line(text: &[u8]) -> (&[u8], &[u8])
    ensures { IsFirstLine text.now result.0.now result.1.now }
{
    match split_line(text) {
        Some((line, behind)) => (line, behind),
        None => (text, &text[text.len()..]),
    }
}

/// The commit with this number whose text the line is.
fn commit_in(alloc: Global, number: u64, line: &[u8]) -> Result<Commit, JournalRefused>
    ensures read { IfOk result (λ c. IsLineOf number c line.now) }
    ensures wrong { (wrong : ℕ) → result ≡ Err (JournalRefused.Line wrong) → wrong ≡ number }
    ensures none { (wrong : ℕ) → result ≡ Err (JournalRefused.Line wrong) → (c : Commit) → IsLineOf number c line.now → ⊥ }
{
    match read_commit(alloc, number, line) {
        Ok(Some(commit)) => Ok(commit),
        Ok(None) => Err(JournalRefused::Line(number)),
        Err(_) => Err(JournalRefused::NoMemory),
    }
}

/// The commit with this number whose text the line, given without its newline, is; `None` exactly where it is the text of none. A refusal
/// is lack of memory. It is linear in the line.
pub fn read_commit(alloc: Global, number: u64, line: &[u8]) -> Result<Option<Commit>, NoMemory>
    ensures { IfOk result (LineIs number line.now) }
{
    match parse(alloc, line)? {
        Some(value) => read_value(alloc, number, line, value),
        None => Ok(None),
    }
}

/// The same of a line that is this JSON value.
fn read_value(
    alloc: Global,
    number: u64,
    line: &[u8],
    value: Value,
) -> Result<Option<Commit>, NoMemory>
    requires { line_data line.now ≡ Some (view value) }
    ensures { IfOk result (LineIs number line.now) }
{
    match CommitForm.read(alloc, value) {
        Ok(commit) => if_line(alloc, number, line, commit),
        Err(refused) => match refused {
            Refusal::NoMemory => Err(AllocError),
            _ => Ok(None),
        },
    }
}

/// The JSON value of a line; none where it isn't UTF-8 or isn't JSON. A refusal means out of memory.
pub fn parse(alloc: Global, line: &[u8]) -> Result<Option<Value>, NoMemory>
    ensures { IfOk result (λ d. line_data line.now ≡ option_map view d) }
{
    match Value::from_slice(alloc, line) {
        Ok(value) => Ok(Some(value)),
        Err(error) => {
            if error.is_memory() {
                return Err(AllocError);
            }
            Ok(None)
        }
    }
}

/// The commit that was read of the line, where it has at most 500 writes and the line is its text.
fn if_line(
    alloc: Global,
    number: u64,
    line: &[u8],
    commit: Commit,
) -> Result<Option<Commit>, NoMemory>
    ensures { IfOk result (IsIfLine number line.now commit) }
{
    if commit.writes.len() > MAX_WRITES {
        return Ok(None);
    }
    commit_is_lawful(&commit);
    if is_line_of(alloc, number, line, &commit)? {
        return Ok(Some(commit));
    }
    Ok(None)
}

/// Whether the line is what is written for the commit.
fn is_line_of(alloc: Global, number: u64, line: &[u8], commit: &Commit) -> Result<bool, NoMemory>
    ensures { IfOk result (λ same. IsTrue same ↔ (line.now ≡ commit_line number commit.now)) }
{
    let written = commit_line(alloc, commit, number)?;
    Ok(written.bytes() == line)
}
