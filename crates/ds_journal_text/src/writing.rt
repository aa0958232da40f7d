//! From a commit to its line, and from a journal to its text.
ghost use Rattle.std.specs.Prelude.{◌≡◌, ◌≤◌, ◌++◌, List, All, length, false, codes, IfOk, OnOk, OnErr};
ghost use Rattle.serde_json.specs.Written.{comma_if, compact_text, items_text};
ghost use Rattle.ds_base.specs.Limits.{most_writes};
ghost use Rattle.ds_log.specs.declared.Commit.{Commit};
ghost use Rattle.ds_json_printing.specs.Printing.{natural, tagged, key_data};
ghost use Rattle.ds_reply.specs.EntityPrinting.{entity_data};
ghost use Rattle.ds_journal_text.specs.Lawful.{IsLawfulCommit};
ghost use Rattle.ds_journal_text.specs.Texts.{touch_data, touch_items, write_data, write_items, commit_line, commit_text, journal_text};
ghost use Rattle.ds_journal_text.specs.Texts.{IsJournalOf};

use crate::lawful::commit_is_lawful;
use ds_base::{Buffer, ByteString, Key, NoMemory};
use ds_entity::Entity;
use ds_json_printing::append_key;
use ds_log::{Commit, Journal, Touch, Write};
use ds_reply::append_entity;
use std::alloc::Global;

/// Puts the line of a commit with this number, which counts from 1, at the end of `onto`: one JSON object in compact text with its members
/// by name, and a newline. A refusal means out of memory, and leaves `onto` as it was: the line is made apart, and put as a whole.
pub fn write_commit(
    alloc: Global,
    commit: &Commit,
    number: u64,
    onto: &mut Buffer,
) -> Result<(), NoMemory>
    requires { length commit.now.writes ≤ most_writes }
    ensures ok { OnOk result (onto.new.bytes ≡ onto.old.bytes ++ commit_text number commit.now) }
    ensures err { OnErr result (onto.new.bytes ≡ onto.old.bytes) }
    ensures lawful { IsLawfulCommit commit.now }
{
    commit_is_lawful(commit);
    let mut line = commit_line(alloc, commit, number)?;
    line.append(b"\n")?;
    onto.append(line.bytes())
}

/// The text of a journal: the lines of its commits, numbered from 1. It is read back as that journal and no other. A refusal is want of
/// memory.
pub fn write_journal(alloc: Global, journal: &Journal) -> Result<ByteString, NoMemory>
    requires { All (λ c. length c.writes ≤ most_writes) journal.now }
    ensures text { IfOk result (λ text. text ≡ journal_text journal.now) }
    ensures stands { IfOk result (λ text. IsJournalOf text journal.now) }
    ensures alone { IfOk result (λ text. (other : List Commit) → IsJournalOf text other → other ≡ journal.now) }
{
    let mut text = Buffer::new(alloc);
    for (i, commit) in journal.as_slice().iter().enumerate() {
        write_commit(alloc, commit, i as u64 + 1, &mut text)?;
    }
    Ok(ByteString::from(text))
}

/// The line of a commit with this number, without its newline. A refusal means out of memory.
pub(crate) fn commit_line(alloc: Global, commit: &Commit, number: u64) -> Result<Buffer, NoMemory>
    ensures { IfOk result (λ line. line.bytes ≡ commit_line number commit.now) }
{
    let mut line = Buffer::new(alloc);
    append_commit(commit, number, &mut line)?;
    Ok(line)
}

/// Puts a commit with its number behind the line's bytes.
fn append_commit(commit: &Commit, number: u64, line: &mut Buffer) -> Result<(), NoMemory>
    ensures { OnOk result (line.new.bytes ≡ line.old.bytes ++ commit_line number commit.now) }
{
    line.append(b"{\"client\":")?;
    append_number(u64::from(commit.client), line)?;
    line.append(b",\"commit\":")?;
    append_number(number, line)?;
    line.append(b",\"touched\":[")?;
    append_touches(commit.touched.as_slice(), line)?;
    line.append(b",\"writes\":[")?;
    append_writes(commit.writes.as_slice(), line)?;
    line.append(b"}")
}

/// Puts the touched groups as items, and the closing bracket.
fn append_touches(touches: &[Touch], line: &mut Buffer) -> Result<(), NoMemory>
    ensures { OnOk result (line.new.bytes ≡ line.old.bytes ++ items_text false (touch_items touches.now)) }
{
    let mut later = false;
    for touch in touches {
        append_comma(later, line)?;
        append_touch(touch, line)?;
        later = true;
    }
    line.append(b"]")
}

fn append_touch(touch: &Touch, line: &mut Buffer) -> Result<(), NoMemory>
    ensures { OnOk result (line.new.bytes ≡ line.old.bytes ++ compact_text (touch_data touch.now)) }
{
    line.append(b"[")?;
    append_key(&touch.group, line)?;
    line.append(b",")?;
    append_number(touch.place, line)?;
    line.append(b"]")
}

/// Puts the writes as items, and the closing bracket.
fn append_writes(writes: &[Write], line: &mut Buffer) -> Result<(), NoMemory>
    ensures { OnOk result (line.new.bytes ≡ line.old.bytes ++ items_text false (write_items writes.now)) }
{
    let mut later = false;
    for write in writes {
        append_comma(later, line)?;
        append_write(write, line)?;
        later = true;
    }
    line.append(b"]")
}

fn append_write(write: &Write, line: &mut Buffer) -> Result<(), NoMemory>
    ensures { OnOk result (line.new.bytes ≡ line.old.bytes ++ compact_text (write_data write.now)) }
{
    match write {
        Write::Put(entity) => append_put(entity, line),
        Write::Delete(key) => append_delete(key, line),
    }
}

#[tactic(auto, unfolding(json::specs::Print::escape_byte))]
fn append_put(entity: &Entity, line: &mut Buffer) -> Result<(), NoMemory>
    ensures { OnOk result (line.new.bytes ≡ line.old.bytes ++ compact_text (tagged (codes "put") (entity_data entity.now))) }
{
    line.append(b"{\"put\":")?;
    append_entity(entity, line)?;
    line.append(b"}")
}

#[tactic(auto, unfolding(json::specs::Print::escape_byte))]
fn append_delete(key: &Key, line: &mut Buffer) -> Result<(), NoMemory>
    ensures { OnOk result (line.new.bytes ≡ line.old.bytes ++ compact_text (tagged (codes "delete") (key_data key.now))) }
{
    line.append(b"{\"delete\":")?;
    append_key(key, line)?;
    line.append(b"}")
}

/// Puts a comma, where something stands before.
fn append_comma(later: bool, line: &mut Buffer) -> Result<(), NoMemory>
    ensures { OnOk result (line.new.bytes ≡ line.old.bytes ++ comma_if later) }
{
    if later {
        line.append(b",")
    } else {
        line.append(b"")
    }
}

fn append_number(number: u64, line: &mut Buffer) -> Result<(), NoMemory>
    ensures { OnOk result (line.new.bytes ≡ line.old.bytes ++ compact_text (natural number)) }
{
    line.append(itoa::Buffer::new().format(number).as_bytes())
}
