//! The entries of a shard on their way from the journal's commits to the shard's hub.
ghost use Rattle.std.specs.Prelude.{◌≡◌, ◌+◌, ◌≤◌, ◌++◌, ◌∷◌, [], All, IfOk, IfSome, OnOk, MatchOption, length, take};
ghost use Rattle.std.specs.VecDeque.{deque_len, deque_capacity};
ghost use Rattle.ds_base.specs.Limits.{most_shards};
ghost use Rattle.ds_log.specs.Logs.{shard_list};
ghost use Rattle.ds_log.specs.UpTo.{commits_of, last_number};
ghost use Rattle.ds_shard.specs.States.{IsOfShard};
ghost use Rattle.ds_store_hubs.specs.Rising.{Rises};

use ds_base::NoMemory;
use ds_hub::Writer;
use ds_log::{Commit, Entries, Entry, ShardCommits, shard_entries};
use ds_shard::ShardState;
use std::alloc::{AllocError, Global};
use std::collections::VecDeque;
use std::sync::Wait;

/// So many entries of a shard are never reached: a journal has at most 2^48 commits of at most 500 writes.
const MOST_ENTRIES: u64 = 1 << 61;

/// The entries that the commits behind the first `from` give a shard, in their order. A refusal means out of memory.
pub fn later_entries(
    alloc: Global,
    journal: &[Commit],
    from: usize,
    shard: u32,
    shards: u32,
) -> Result<Vec<Entry>, NoMemory>
    requires from { from ≤ length journal.now }
    requires shards { (1 ≤ shards) × (shards ≤ most_shards) }
    ensures { IfOk result (λ entries. shard_list journal.now shard shards ≡ shard_list (take from journal.now) shard shards ++
        entries.items) }
{
    let mut entries = Vec::new(alloc);
    for place in from..journal.len() {
        let new = shard_entries(alloc, place as u64 + 1, &journal[place], shard, shards)?;
        put_all(&mut entries, new)?;
    }
    Ok(entries)
}

fn put_all(entries: &mut Vec<Entry>, new: Entries) -> Result<(), NoMemory>
    ensures { OnOk result (entries.new.items ≡ entries.old.items ++ new) }
{
    for entry in new.into_vec() {
        entries.push(entry)?;
    }
    Ok(())
}

/// Puts entries behind those that wait, and the numbers of their commits, which never fall, behind the others. There is room for them.
pub fn take_in(waiting: &mut VecDeque<Entry>, commits: &mut ShardCommits, entries: Vec<Entry>)
    requires room { deque_len waiting.old + length entries.items ≤ deque_capacity waiting.old }
    requires spare { length entries.items ≤ commits.old.spare }
    requires rises { Rises (last_number commits.old.commits) entries.items }
    ensures waiting { waiting.new.items ≡ waiting.old.items ++ entries.items }
    ensures commits { commits.new.commits ≡ commits.old.commits ++ commits_of entries.items }
{
    for entry in entries {
        commits.push(entry.commit);
        waiting.push_back_reserved(entry);
    }
}

/// Publishes what is pending and so many of the entries that wait, the first ones, all of which are of the writer's shard. A refusal is
/// lack of memory; it may then have published what was pending, and added some.
///
/// Behind an entry that is kept aside when out of memory none is added, so what is pending is then published first.
pub fn publish_waiting<R: Wait>(
    rt: &R,
    waiting: &mut VecDeque<Entry>,
    writer: &mut Writer<Entry, ShardState>,
    count: u64,
) -> Result<(), NoMemory>
    requires many { count ≤ length waiting.old.items }
    requires belong { IfSome writer.old.start (λ start. All (IsOfShard start.place) waiting.old.items) }
    ensures same { (writer.new.hub ≡ writer.old.hub) × (writer.new.start ≡ writer.old.start) }
    ensures kept { (writer.new.published ++ writer.new.pending) ++ waiting.new.items ≡ (writer.old.published ++ writer.old.pending) ++
        waiting.old.items }
    ensures published { OnOk result (length writer.new.published
        ≡ (length writer.old.published + length writer.old.pending) + count) }
{
    publish_parked(rt, writer)?;
    add_waiting(waiting, writer, count)?;
    writer.publish(rt)
}

/// Publishes what is pending where the last of it is kept aside. A refusal means out of memory, and publishes nothing.
fn publish_parked<R: Wait>(rt: &R, writer: &mut Writer<Entry, ShardState>) -> Result<(), NoMemory>
    ensures same { (writer.new.hub ≡ writer.old.hub) × (writer.new.start ≡ writer.old.start) }
    ensures kept { writer.new.published ++ writer.new.pending ≡ writer.old.published ++ writer.old.pending }
{
    if !writer.is_parked() {
        return Ok(());
    }
    writer.publish(rt)
}

/// Adds so many of the entries that wait to what is pending, the first ones. A refusal means out of memory; it may then have added some.
fn add_waiting(
    waiting: &mut VecDeque<Entry>,
    writer: &mut Writer<Entry, ShardState>,
    count: u64,
) -> Result<(), NoMemory>
    requires many { count ≤ length waiting.old.items }
    requires belong { IfSome writer.old.start (λ start. All (IsOfShard start.place) waiting.old.items) }
    ensures same { (writer.new.hub ≡ writer.old.hub) × (writer.new.start ≡ writer.old.start)
        × (writer.new.published ≡ writer.old.published) }
    ensures kept { (writer.new.published ++ writer.new.pending) ++ waiting.new.items ≡ (writer.old.published ++ writer.old.pending) ++
        waiting.old.items }
    ensures added { OnOk result (length writer.new.pending ≡ length writer.old.pending + count) }
{
    for _done in 0..count {
        let Some(entry) = waiting.pop_front() else {
            return Err(AllocError);
        };
        if let Some(entry) = added(writer, entry) {
            waiting.push_front_reserved(entry);
            return Err(AllocError);
        }
    }
    Ok(())
}

/// Adds an entry of its shard to what is pending. It comes back where there is no memory.
fn added(writer: &mut Writer<Entry, ShardState>, entry: Entry) -> Option<Entry>
    requires { IfSome writer.old.start (λ start. IsOfShard start.place entry) }
    ensures same { (writer.new.hub ≡ writer.old.hub) × (writer.new.start ≡ writer.old.start)
        × (writer.new.published ≡ writer.old.published) }
    ensures pending { MatchOption result (writer.new.pending ≡ writer.old.pending ++ entry ∷ []) (λ back. (back ≡ entry)
        × (writer.new.pending ≡ writer.old.pending)) }
{
    if writer.published() >= MOST_ENTRIES || writer.pending() >= MOST_ENTRIES {
        return Some(entry);
    }
    writer.add(entry).err()
}
