//! What a pass has seen, and sees of others' readers.
ghost use Rattle.std.specs.Prelude.{◌≡◌, ◌≤◌, ◌<◌, max, length};
ghost use mathlib.Core.List.{IsPrefix};
ghost use Rattle.ds_model.specs.Sessions.{count_of};
ghost use Rattle.ds_store_passes.specs.Passes.{HasRead, counts_of};

use crate::pass::Pass;
use ds_base::NoMemory;
use ds_hub::Reader;
use ds_store_hubs::{JournalState, Names};
use std::alloc::AllocError;

impl<J: Names> Pass<J> {
    /// How many shards there are.
    pub fn slots(&self) -> usize
        ensures { (result ≡ length self.now.lists) × (result ≡ length J.shards) }
    {
        self.shards.len()
    }

    /// How many entries of a shard it has seen.
    pub fn count_at(&self, shard: usize) -> u64
        requires { shard < length self.now.lists }
        ensures { result ≡ count_of (counts_of self.now) shard }
    {
        self.shards[shard].len()
    }

    /// No lower than this a place may be that the pass hasn't been shown: neither than its own, nor than all commits that it has seen.
    pub fn least_place(&self) -> u64
        ensures { result ≡ max self.now.place (length self.now.journal) }
    {
        self.place.max(self.journal.len())
    }

    /// Sees the commits that another reader of the journal has seen. It takes no lock.
    pub fn see_commits(&mut self, reader: &Reader<(), JournalState>)
        requires { reader.now.hub ≡ J.journal }
        ensures pass { self.new ≡ record self.old { journal = self.new.journal } }
        ensures seen { IsPrefix reader.now.known self.new.journal }
        ensures all { length self.old.journal ≤ length reader.now.known → self.new.journal ≡ reader.now.known }
        ensures read { HasRead self.old self.new }
    {
        learn_commits(&mut self.journal, reader);
    }

    /// Enters a shard. A refusal is that its hub has ended, which never is while a store stands: the hub's writer lies under the shard's
    /// lock, and what lies there is known by its type alone.
    pub fn enter_shard(&mut self, shard: usize) -> Result<(), NoMemory>
        requires { shard < length self.old.lists }
        ensures pass { self.new ≡ record self.old { lists = self.new.lists } }
        ensures read { HasRead self.old self.new }
    {
        self.shards[shard].enter().then_some(()).ok_or(AllocError)
    }
}

fn learn_commits(reader: &mut Reader<(), JournalState>, other: &Reader<(), JournalState>)
    requires { other.now.hub ≡ reader.old.hub }
    ensures hub { reader.new.hub ≡ reader.old.hub }
    ensures kept { IsPrefix reader.old.known reader.new.known }
    ensures seen { IsPrefix other.now.known reader.new.known }
    ensures all { length reader.old.known ≤ length other.now.known → reader.new.known ≡ other.now.known }
{
    reader.learn(other.tell());
}
