//! Which commits wrote a group.
ghost use Rattle.std.specs.Prelude.{◌≡◌, ◌+◌, ◌<◌, ◌≤◌, ◌++◌, ◌∷◌, [], ℕ, length, cond, IfOk, OnOk};
ghost use Rattle.ds_base.specs.Keys.{KeyParts};
ghost use Rattle.ds_base.specs.KeyOrder.{same_key};
ghost use Rattle.ds_log.specs.Conflicts.{writes_group};
ghost use Rattle.ds_log.specs.UpTo.{last_number};
ghost use Rattle.ds_history.specs.Writers.{noted_in, with_number, writers_of};

use ds_base::{Key, NoMemory};
use ds_log::{Commit, ShardCommits, Write};
use indexmap::IndexMap;
use std::alloc::{AllocError, Global};

/// Of each entity group the numbers of the commits that wrote it, in their order.
pub(crate) type Writers = IndexMap<Key, ShardCommits>;

/// The writers of each group of a journal. A refusal means out of memory.
pub(crate) fn writers_of(alloc: Global, journal: &[Commit]) -> Result<Writers, NoMemory>
    ensures { IfOk result (λ w. (g : KeyParts) → noted_in w.entries g ≡ writers_of g journal.now) }
{
    let mut writers = IndexMap::new(alloc);
    for (i, commit) in journal.iter().enumerate() {
        note_writes(alloc, &mut writers, commit.writes.as_slice(), i as u64 + 1)?;
    }
    Ok(writers)
}

/// Notes a commit for each group that its writes write.
fn note_writes(
    alloc: Global,
    writers: &mut Writers,
    writes: &[Write],
    number: u64,
) -> Result<(), NoMemory>
    requires { (g : KeyParts) → last_number (noted_in writers.old.entries g) < number }
    ensures { OnOk result ((g : KeyParts) → noted_in writers.new.entries g
        ≡ cond (writes_group g writes.now) (noted_in writers.old.entries g ++ number ∷ []) (noted_in writers.old.entries g)) }
{
    for write in writes {
        let group = write.key().root(alloc)?;
        note(alloc, writers, group, number)?;
    }
    Ok(())
}

/// Notes a commit for a group, unless it is the group's last one.
fn note(alloc: Global, writers: &mut Writers, group: Key, number: u64) -> Result<(), NoMemory>
    requires { last_number (noted_in writers.old.entries group) ≤ number }
    ensures { OnOk result ((g : KeyParts) → noted_in writers.new.entries g
        ≡ cond (same_key group g) (with_number number (noted_in writers.old.entries g)) (noted_in writers.old.entries g)) }
{
    let numbers = take_out(alloc, writers, &group);
    let numbers = with_number(numbers, number)?;
    put_back(writers, group, numbers)
}

/// Takes out the numbers that are noted for a group.
fn take_out(alloc: Global, writers: &mut Writers, group: &Key) -> ShardCommits
    ensures taken { result.commits ≡ noted_in writers.old.entries group.now }
    ensures left { (g : KeyParts) → noted_in writers.new.entries g
        ≡ cond (same_key group.now g) [] (noted_in writers.old.entries g) }
{
    match writers.swap_remove(group) {
        Some(numbers) => numbers,
        None => ShardCommits::new(alloc),
    }
}

/// Keeps these numbers for a group.
fn put_back(writers: &mut Writers, group: Key, numbers: ShardCommits) -> Result<(), NoMemory>
    ensures { OnOk result ((g : KeyParts) → noted_in writers.new.entries g
        ≡ cond (same_key group g) numbers.commits (noted_in writers.old.entries g)) }
{
    match writers.insert(group, numbers) {
        Ok(_) => Ok(()),
        Err(_) => Err(AllocError),
    }
}

/// Numbers with one more, which stands there only once.
fn with_number(mut numbers: ShardCommits, number: u64) -> Result<ShardCommits, NoMemory>
    requires { last_number numbers.commits ≤ number }
    ensures { IfOk result (λ r. r.commits ≡ with_number number numbers.commits) }
{
    if numbers.commit_of(numbers.len()) != number {
        numbers.make_room(1)?;
        numbers.push(number);
    }
    Ok(numbers)
}
