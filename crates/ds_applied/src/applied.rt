//! What all shards have applied.
ghost use Rattle.std.specs.Prelude.{◌≡◌, ◌+◌, ◌≤◌, ◌<◌, ◌^◌, List, [], length, take, replicate, IfOk, OnOk, OnErr};
ghost use Rattle.ds_base.specs.Limits.{most_shards};
ghost use Rattle.ds_log.specs.declared.Commit.{Commit};
ghost use Rattle.ds_log.specs.Logs.{commit_entries};
ghost use Rattle.ds_model.specs.Sessions.{count_of, counted_place, list_of, last_commit, raised_at};
ghost use Rattle.ds_applied.specs.AppliedLists.{AppliedParts, Follows, AreCounts, entries_by, shard_view, shard_views};
ghost use Rattle.ds_applied.specs.Routing.{added};

use crate::routing::{make_room, put_all};
use crate::shard::Shard;
use crate::visible::{AllVisible, Visible};
use ds_base::NoMemory;
use ds_log::{Commit, route};
use std::alloc::Global;
use std::marker::Model;

/// Per shard the entries that a journal's first commits give it, how many are applied, and the entities that those leave.
///
/// Contracts see the entries and the counts; `Follows` says of which journal they are.
#[derive(Drop)]
pub struct Applied {
    shards: Vec<Shard>,
    commits: usize,
}

impl Model for Applied {
    ghost use Rattle.std.specs.Prelude.{◌≤◌, length};
    ghost use Rattle.ds_base.specs.Limits.{most_shards};
    ghost use Rattle.ds_applied.specs.AppliedLists.{AppliedParts, AreCounts, entries_of, applied_of};

    ghost Value = { AppliedParts };

    ghost view = { λ a. record {
      shards = length a.shards.items;
      commits = a.commits;
      lists = entries_of a.shards.items;
      counts = applied_of a.shards.items;
    } };

    ghost invariant = { λ a. (1 ≤ length a.shards.items) × (length a.shards.items ≤ most_shards)
        × AreCounts (entries_of a.shards.items) (applied_of a.shards.items) };
}

impl Applied {
    /// Shards without entries, 1 to 16 of them. A refusal means out of memory.
    pub fn make(alloc: Global, shards: u32) -> Result<Applied, NoMemory>
        requires least { 1 ≤ shards }
        requires most { shards ≤ most_shards }
        ensures { IfOk result (λ a. a ≡ record { shards = shards; commits = 0; lists = replicate shards []; counts = replicate shards 0 }) }
    {
        let mut list = Vec::with_capacity(alloc, shards as usize)?;
        for _ in 0..shards {
            list.push(Shard::new(alloc))?;
        }
        Ok(Applied {
            shards: list,
            commits: 0,
        })
    }

    /// How many shards there are, 1 to 16, with a list and a count for each, of no more entries than are on the list.
    pub fn shards(&self) -> u32
        ensures value { result ≡ self.now.shards }
        ensures least { 1 ≤ self.now.shards }
        ensures most { self.now.shards ≤ most_shards }
        ensures lists { length self.now.lists ≡ self.now.shards }
        ensures counts { length self.now.counts ≡ self.now.shards }
        ensures within { AreCounts self.now.lists self.now.counts }
    {
        self.shards.len() as u32
    }

    /// Looks at the journal's commits that were not looked at yet, each once, and puts each one's entries behind those of their
    /// shards; what is applied stays. A refusal, which means out of memory, leaves some commits looked at, each with all its entries.
    pub fn pull(&mut self, alloc: Global, journal: &[Commit]) -> Result<(), NoMemory>
        requires { Follows journal.now self.old }
        ensures ok { OnOk result (self.new.commits ≡ length journal.now) }
        ensures follows { Follows journal.now self.new }
        ensures rises { self.old.commits ≤ self.new.commits }
        ensures kept { (self.new.shards ≡ self.old.shards) × (self.new.counts ≡ self.old.counts) }
    {
        while self.commits < journal.len() {
            let commit = &journal[self.commits];
            self.pull_commit(alloc, commit)?;
        }
        Ok(())
    }

    /// Looks at the next commit. A refusal changes nothing.
    fn pull_commit(&mut self, alloc: Global, commit: &Commit) -> Result<(), NoMemory>
        requires { self.old.commits + 1 < 2 ^ 64 }
        ensures ok { OnOk result (self.new ≡ record self.old {
          commits = self.old.commits + 1;
          lists = added self.old.shards 0 self.old.lists (commit_entries (self.old.commits + 1) commit.now);
        }) }
        ensures err { OnErr result (self.new ≡ self.old) }
    {
        let number = self.commits as u64 + 1;
        let routed = route(alloc, number, commit, self.shards.len() as u32)?;
        make_room(&mut self.shards, routed.len())?;
        put_all(&mut self.shards, routed);
        self.commits += 1;
        Ok(())
    }

    /// How many entries of a shard are applied: no more than it has.
    pub fn count(&self, shard: u32) -> u64
        requires { shard < self.now.shards }
        ensures value { result ≡ count_of self.now.counts shard }
        ensures listed { shard < length self.now.counts }
        ensures within { count_of self.now.counts shard ≤ length (list_of self.now.lists shard) }
    {
        self.shards[shard as usize].applied() as u64
    }

    /// How many entries a shard has.
    pub fn entries(&self, shard: u32) -> u64
        requires { shard < self.now.shards }
        ensures { result ≡ length (list_of self.now.lists shard) }
    {
        self.shards[shard as usize].entries().len() as u64
    }

    /// How many entries of a shard are of the journal's first `place` commits, which were looked at. It bisects.
    pub fn entries_up_to(&self, shard: u32, place: u64) -> u64
        requires shard { shard < self.now.shards }
        requires place { place ≤ self.now.commits }
        ensures value { (journal : List Commit) → Follows journal self.now → result ≡ entries_by journal self.now.shards shard place }
        ensures within { result ≤ length (list_of self.now.lists shard) }
    {
        self.shards[shard as usize].entries_up_to(place) as u64
    }

    /// The commit of the last of a shard's first `count` entries; 0 where there is none.
    pub fn last_commit(&self, shard: u32, count: u64) -> u64
        requires shard { shard < self.now.shards }
        requires count { count ≤ length (list_of self.now.lists shard) }
        ensures { result ≡ last_commit (take count (list_of self.now.lists shard)) }
    {
        self.shards[shard as usize].last_commit(count as usize)
    }

    /// The greatest commit of the shards' last counted entries, at a count for each shard, shard 0 first; 0 where none is counted.
    pub fn counted_place(&self, counts: &[u64]) -> u64
        requires { AreCounts self.now.lists counts.now }
        ensures { result ≡ counted_place self.now.lists counts.now }
    {
        let mut place: u64 = 0;
        for (shard, count) in counts.iter().enumerate() {
            place = place.max(self.shards[shard].last_commit(*count as usize));
        }
        place
    }

    /// Applies the next entry of a shard. A refusal, which means out of memory, applies none. It takes time by the entry's writes and
    /// the logarithm of the shard's entities.
    pub fn apply_one(&mut self, alloc: Global, shard: u32) -> Result<(), NoMemory>
        requires shard { shard < self.old.shards }
        requires left { count_of self.old.counts shard < length (list_of self.old.lists shard) }
        ensures ok { OnOk result (self.new ≡ record self.old {
          counts = raised_at shard (count_of self.old.counts shard + 1) self.old.counts;
        }) }
        ensures err { OnErr result (self.new ≡ self.old) }
    {
        self.shards[shard as usize].apply_one(alloc)
    }

    /// The entities that a shard's first `count` entries leave: those that are kept, where so many are applied, else rebuilt. A
    /// refusal means out of memory.
    pub fn visible(&self, alloc: Global, shard: u32, count: u64) -> Result<Visible<'_>, NoMemory>
        requires shard { shard < self.now.shards }
        requires count { count ≤ length (list_of self.now.lists shard) }
        ensures { IfOk result (λ v. v ≡ shard_view self.now.lists shard count) }
    {
        self.shards[shard as usize].visible(alloc, count as usize)
    }

    /// The entities of all shards at a count for each, shard 0 first. A refusal means out of memory.
    pub fn all_visible(&self, alloc: Global, counts: &[u64]) -> Result<AllVisible<'_>, NoMemory>
        requires { AreCounts self.now.lists counts.now }
        ensures { IfOk result (λ v. v ≡ shard_views self.now.lists counts.now) }
    {
        let mut shards = Vec::with_capacity(alloc, counts.len())?;
        for (shard, count) in counts.iter().enumerate() {
            let visible = self.shards[shard].visible(alloc, *count as usize)?;
            shards.push(visible)?;
        }
        Ok(AllVisible::of_shards(shards))
    }
}
