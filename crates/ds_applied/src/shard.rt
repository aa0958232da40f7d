//! One shard: its entries, and the entities that the applied ones leave.
ghost use Rattle.std.specs.Prelude.{◌≡◌, ◌+◌, ◌≤◌, ◌<◌, ◌∷◌, ◌++◌, [], length, take, IfOk, OnOk, OnErr, List, ℕ, nat_lt};
ghost use Rattle.ds_log.specs.declared.Commit.{Commit};
ghost use Rattle.ds_log.specs.Logs.{shard_list};
ghost use Rattle.ds_model.specs.Sessions.{last_commit};
ghost use Rattle.ds_applied.specs.AppliedLists.{AppliedShard, writes_at, left_by};

use crate::entity_map::EntityMap;
use crate::visible::Visible;
use ds_base::NoMemory;
use ds_log::{Entry, Write};
use std::alloc::Global;
use std::marker::Model;

/// The entries of one shard, how many are applied, and the entities that those leave.
#[derive(Drop)]
pub(crate) struct Shard {
    entries: Vec<Entry>,
    applied: usize,
    begun: usize,
    entities: EntityMap,
}

impl Model for Shard {
    ghost use Rattle.std.specs.Prelude.{◌-◌};
    ghost use Rattle.std.specs.Vec.{vec_len, vec_capacity};
    ghost use Rattle.ds_applied.specs.AppliedLists.{AppliedShard, IsShard};

    ghost Value = { AppliedShard };

    ghost view = { λ s. record {
      entries = s.entries.items;
      applied = s.applied;
      begun = s.begun;
      spare = vec_capacity s.entries - vec_len s.entries;
    } };

    ghost invariant = { λ s. IsShard s.entries.items s.applied s.begun s.entities };
}

impl Shard {
    /// A shard without entries. It takes no memory.
    pub(crate) fn new(alloc: Global) -> Shard
        ensures entries { result.entries ≡ [] }
        ensures applied { result.applied ≡ 0 }
    {
        Shard {
            entries: Vec::new(alloc),
            applied: 0,
            begun: 0,
            entities: EntityMap::new(alloc),
        }
    }

    /// The entries.
    pub(crate) fn entries(&self) -> &[Entry]
        ensures { result.now ≡ self.now.entries }
    {
        self.entries.as_slice()
    }

    /// How many entries are applied; no more than there are.
    pub(crate) fn applied(&self) -> usize
        ensures value { result ≡ self.now.applied }
        ensures within { self.now.applied ≤ length self.now.entries }
    {
        self.applied
    }

    /// Makes room for so many entries. A refusal changes nothing.
    pub(crate) fn reserve(&mut self, entries: usize) -> Result<(), NoMemory>
        ensures ok { OnOk result (entries ≤ self.new.spare) }
        ensures kept { (self.new.entries ≡ self.old.entries) × (self.new.applied ≡ self.old.applied) }
    {
        self.entries.reserve(entries)
    }

    /// Puts an entry at the end, for which there is room.
    pub(crate) fn push(&mut self, entry: Entry)
        requires { 0 < self.old.spare }
        ensures entries { self.new.entries ≡ self.old.entries ++ entry ∷ [] }
        ensures applied { self.new.applied ≡ self.old.applied }
        ensures spare { self.old.spare ≤ self.new.spare + 1 }
    {
        self.entries.push(entry).unwrap();
    }

    /// Applies the next entry, write by write. After a refusal, which means out of memory, the entry isn't applied, and the next call
    /// goes on with the writes that are left.
    pub(crate) fn apply_one(&mut self, alloc: Global) -> Result<(), NoMemory>
        requires { self.old.applied < length self.old.entries }
        ensures ok { OnOk result (self.new.applied ≡ self.old.applied + 1) }
        ensures err { OnErr result (self.new.applied ≡ self.old.applied) }
        ensures entries { self.new.entries ≡ self.old.entries }
        ensures within { self.new.applied ≤ length self.new.entries }
    {
        while self.has_writes_left() {
            self.apply_write(alloc)?;
        }
        self.end_entry();
        Ok(())
    }

    /// Whether a write of the next entry isn't applied yet.
    fn has_writes_left(&self) -> bool
        requires { self.now.applied < length self.now.entries }
        ensures value { result ≡ nat_lt self.now.begun (length (writes_at self.now.entries self.now.applied)) }
        ensures within { self.now.begun ≤ length (writes_at self.now.entries self.now.applied) }
    {
        self.begun < writes_at(self.entries.as_slice(), self.applied).len()
    }

    /// Applies the next write of the next entry. A refusal changes nothing.
    fn apply_write(&mut self, alloc: Global) -> Result<(), NoMemory>
        requires next { self.old.applied < length self.old.entries }
        requires left { self.old.begun < length (writes_at self.old.entries self.old.applied) }
        ensures ok { OnOk result (self.new ≡ record self.old { begun = self.old.begun + 1 }) }
        ensures err { OnErr result (self.new ≡ self.old) }
    {
        let writes = writes_at(self.entries.as_slice(), self.applied);
        self.entities.apply(alloc, &writes[self.begun])?;
        self.begun += 1;
        Ok(())
    }

    /// Goes on to the entry behind the next one, whose writes are all applied.
    fn end_entry(&mut self)
        requires next { self.old.applied < length self.old.entries }
        requires all { self.old.begun ≡ length (writes_at self.old.entries self.old.applied) }
        ensures { self.new ≡ record self.old { applied = self.old.applied + 1; begun = 0 } }
    {
        self.applied += 1;
        self.begun = 0;
    }

    /// How many of the entries are of the first `place` commits, by bisection.
    pub(crate) fn entries_up_to(&self, place: u64) -> usize
        ensures within { result ≤ length self.now.entries }
        ensures value { (journal : List Commit) (m shard shards : ℕ) → self.now.entries ≡ shard_list (take m journal) shard shards
            → place ≤ m → result ≡ length (shard_list (take place journal) shard shards) }
    {
        self.entries
            .as_slice()
            .partition_point(|entry| entry.commit <= place)
    }

    /// The commit of the last of the first `count` entries; 0 where there is none.
    pub(crate) fn last_commit(&self, count: usize) -> u64
        requires { count ≤ length self.now.entries }
        ensures { result ≡ last_commit (take count self.now.entries) }
    {
        if count == 0 {
            0
        } else {
            self.entries[count - 1].commit
        }
    }

    /// The entities that the first `count` entries leave: those that are kept, where so many are applied, else rebuilt. A refusal is
    /// lack of memory.
    pub(crate) fn visible(&self, alloc: Global, count: usize) -> Result<Visible<'_>, NoMemory>
        requires { count ≤ length self.now.entries }
        ensures { IfOk result (λ v. v ≡ left_by self.now.entries count) }
    {
        if count == self.applied && self.begun == 0 {
            Ok(Visible::kept(&self.entities))
        } else {
            Visible::rebuilt(alloc, &self.entries.as_slice()[..count])
        }
    }
}

/// The writes of the entry at a place, counted from 0.
fn writes_at(entries: &[Entry], place: usize) -> &[Write]
    requires { place < length entries.now }
    ensures { result.now ≡ writes_at entries.now place }
{
    entries[place].writes.as_slice()
}
