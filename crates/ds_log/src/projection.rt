//! The log entries that commits give, and a shard's list of them.
ghost use Rattle.std.specs.Prelude.{◌≡◌, ◌≤◌, ◌++◌, ◌∷◌, ◌+◌, ◌↔◌, [], List, All, length, map, take, IsTrue, IfOk, OnOk};
ghost use Rattle.ds_base.specs.Keys.{root_of};
ghost use Rattle.ds_base.specs.KeyOrder.{same_key};
ghost use Rattle.ds_base.specs.Limits.{most_shards};
ghost use Rattle.ds_log.specs.declared.Commit.{Commit};
ghost use Rattle.ds_log.specs.Logs.{groups_of, group_writes, commit_entries, shard_entries, shard_list};
ghost use Rattle.ds_log.specs.Routing.{IsRouted, entry_of};

use crate::shard::shard_of;
use crate::{Commit, Entries, Entry, Journal, Write, Writes};
use ds_base::{Elem, Key, NoMemory, TryCopy};
use std::alloc::Global;
use std::collections::BTreeSet;

/// The list of a shard, counted from 0, out of `shards`, which are from 1 to 16: for each commit of the journal in order,
/// and in it for each group of that shard by root key, what the commit writes to the group, in its order. It is linear in
/// the journal, so for tests and for those who check a journal.
pub fn project(
    alloc: Global,
    journal: &Journal,
    shard: u32,
    shards: u32,
) -> Result<Entries, NoMemory>
    requires least { 1 ≤ shards }
    requires most { shards ≤ most_shards }
    ensures { IfOk result (λ entries. entries ≡ shard_list journal.now shard shards) }
{
    let mut entries = Vec::new(alloc);
    for (i, commit) in journal.as_slice().iter().enumerate() {
        push_entries(alloc, i as u64 + 1, commit, shard, shards, &mut entries)?;
    }
    Ok(Entries::from(entries))
}

/// The entries that commit `number` gives a shard, counted from 0, out of `shards`, which are from 1 to 16: one for each group of that
/// shard that it writes, by root key. Appending the commit to a journal appends just these to the shard's list. A refusal is want of
/// memory.
pub fn shard_entries(
    alloc: Global,
    number: u64,
    commit: &Commit,
    shard: u32,
    shards: u32,
) -> Result<Entries, NoMemory>
    requires least { 1 ≤ shards }
    requires most { shards ≤ most_shards }
    ensures value { IfOk result (λ entries. entries ≡ shard_entries number commit.now shard shards) }
    ensures appended { (journal : List Commit) → number ≡ length journal + 1 → IfOk result (λ entries.
        shard_list (journal ++ commit.now ∷ []) shard shards ≡ shard_list journal shard shards ++ entries) }
{
    let mut entries = Vec::new(alloc);
    push_entries(alloc, number, commit, shard, shards, &mut entries)?;
    Ok(Entries::from(entries))
}

/// Puts the entries of commit `number` for a shard at the end.
fn push_entries(
    alloc: Global,
    number: u64,
    commit: &Commit,
    shard: u32,
    shards: u32,
    entries: &mut Vec<Entry>,
) -> Result<(), NoMemory>
    requires least { 1 ≤ shards }
    requires most { shards ≤ most_shards }
    ensures { OnOk result (entries.new.items ≡ entries.old.items ++ shard_entries number commit.now shard shards) }
{
    for group in groups_of(alloc, &commit.writes)? {
        if shard_of(alloc, &group, shards)? == shard {
            entries.push(entry_for(alloc, number, group, &commit.writes)?)?;
        }
    }
    Ok(())
}

/// An entry, and the shard of its group, counted from 0.
#[derive(Drop)]
pub struct Routed {
    /// The shard of the entry's group.
    pub shard: u32,
    /// The entry.
    pub entry: Entry,
}

/// The entries that commit `number` gives all shards, one for each group that it writes, by root key, each with its shard out of
/// `shards`, which are from 1 to 16. A refusal means out of memory.
pub fn route(
    alloc: Global,
    number: u64,
    commit: &Commit,
    shards: u32,
) -> Result<Vec<Routed>, NoMemory>
    requires least { 1 ≤ shards }
    requires most { shards ≤ most_shards }
    ensures entries { IfOk result (λ routed. map entry_of routed.items ≡ commit_entries number commit.now) }
    ensures shards { IfOk result (λ routed. All (IsRouted shards) routed.items) }
{
    let mut routed = Vec::new(alloc);
    for group in groups_of(alloc, &commit.writes)? {
        let shard = shard_of(alloc, &group, shards)?;
        let entry = entry_for(alloc, number, group, &commit.writes)?;
        routed.push(Routed { shard, entry })?;
    }
    Ok(routed)
}

/// What writes of commit `number` write to one group.
fn entry_for(alloc: Global, number: u64, group: Key, writes: &Writes) -> Result<Entry, NoMemory>
    ensures { IfOk result (λ e. e ≡ record { commit = number; group = group; writes = group_writes group writes.now }) }
{
    let writes = group_writes(alloc, &group, writes)?;
    Ok(Entry {
        commit: number,
        group,
        writes,
    })
}

/// The groups that are written, each once, by root key.
pub fn groups_of(alloc: Global, writes: &Writes) -> Result<Vec<Key>, NoMemory>
    ensures { IfOk result (λ groups. groups.items ≡ groups_of writes.now) }
{
    match writes.as_slice() {
        [only] => group_alone(alloc, only),
        several => distinct_groups(alloc, several),
    }
}

/// The group of the only write, which most commits have: no set is made for it.
fn group_alone(alloc: Global, write: &Write) -> Result<Vec<Key>, NoMemory>
    ensures { IfOk result (λ groups. groups.items ≡ groups_of (write.now ∷ [])) }
{
    let group = write.key().root(alloc)?;
    let mut groups = Vec::with_capacity(alloc, 1)?;
    groups.push(group)?;
    Ok(groups)
}

/// The groups that are written, each once, by root key, by way of a set.
fn distinct_groups(alloc: Global, writes: &[Write]) -> Result<Vec<Key>, NoMemory>
    ensures { IfOk result (λ groups. groups.items ≡ groups_of writes.now) }
{
    let mut sorted = BTreeSet::new(alloc);
    for write in writes {
        let group = write.key().root(alloc)?;
        sorted.insert(group)?;
    }
    let mut groups = Vec::with_capacity(alloc, sorted.len())?;
    for group in sorted {
        groups.push(group)?;
    }
    Ok(groups)
}

/// Copies of the writes to one group, in their order.
pub fn group_writes(alloc: Global, group: &Key, writes: &Writes) -> Result<Writes, NoMemory>
    ensures { IfOk result (λ own. own ≡ group_writes group.now writes.now) }
{
    let mut own = Vec::new(alloc);
    for write in writes.as_slice() {
        if is_of_group(write.key(), group) {
            let copy = write.copy(alloc)?;
            own.push(copy)?;
        }
    }
    Ok(Writes::from(own))
}

/// Whether the key is one of the group with this root key.
fn is_of_group(key: &Key, group: &Key) -> bool
    ensures { result ≡ same_key (root_of key.now) group.now }
{
    key.namespace() == group.namespace()
        && is_first_elem(key.elems().as_slice(), group.elems().as_slice())
}

/// Whether `root` is the first element of a path alone.
fn is_first_elem(path: &[Elem], root: &[Elem]) -> bool
    ensures { IsTrue result ↔ (take 1 path.now ≡ root.now) }
{
    match path {
        [] => root.is_empty(),
        [first, ..] => match root {
            [only] => first == only,
            _ => false,
        },
    }
}
