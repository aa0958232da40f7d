//! Commits, the journal that they form, and the log entries that shards apply.
//!
//! A journal is a list of commits, numbered from 1. Each commit gives one log entry per entity group that it writes, to the
//! shard of that group. The definitions stand in `specs/`: `Logs` (groups, shard lists), `Shards` (which shard a group
//! belongs to), `After` (what a list of writes leaves), `Touches` (the groups that a transaction touched), `Conflicts` (when
//! a commit conflicts, and what a serial journal is), `Ids` (which ids a written key may have), `Heads` (the last commit of
//! each group), `Routing` (entries with their shards) and `UpTo` (which entries are of the first commits). What is proved of them
//! stands apart, in the files whose names end in `Laws` or `Steps`.
//!
//! `hash` computes the hash that tells shards apart, `shard` the shard of a group, `projection` the entries that a commit gives the
//! shards, `shard_commits` counts those of the first commits, and `heads` keeps what a conflict is seen by.
#![tactic(auto)]

pub mod hash;
pub mod heads;
pub mod projection;
pub mod shard;
pub mod shard_commits;

ghost use Rattle.std.specs.Prelude.{◌≡◌};
ghost use Rattle.ds_log.specs.Logs.{key_of};

use ds_base::{Key, NoMemory, Sequence, TryCopy};
use ds_entity::Entity;
pub use hash::fnv1a;
pub use heads::Heads;
pub use projection::{Routed, group_writes, groups_of, project, route, shard_entries};
pub use shard::shard_of;
pub use shard_commits::ShardCommits;
use std::alloc::Global;

/// A write of one entity.
#[derive(Drop)]
pub enum Write {
    /// The entity takes the place of one with its key.
    Put(Entity),
    /// The entity with this key is taken out, if there is one.
    Delete(Key),
}

impl Write {
    /// The key that is written.
    pub fn key(&self) -> &Key
        ensures { result.now ≡ key_of self.now }
    {
        match self {
            Write::Put(entity) => entity.key(),
            Write::Delete(key) => key,
        }
    }
}

/// Writes in their order.
pub type Writes = Sequence<Write>;

/// An entity group that a transaction touched, and the place in the journal at which it reads the group.
#[derive(Drop)]
pub struct Touch {
    /// The group's root key.
    pub group: Key,
    /// A number of commits from the front of the journal: the transaction reads what these left.
    pub place: u64,
}

/// Touched groups, in the order in which they were touched.
pub type Touches = Sequence<Touch>;

/// One commit of the journal.
#[derive(Drop)]
pub struct Commit {
    /// Whose commit it is, 0 to 15.
    pub client: u32,
    /// The groups that its transaction touched, those only read among them; none of a write outside a transaction.
    pub touched: Touches,
    /// What it writes, at most 500 writes.
    pub writes: Writes,
}

/// All commits, the n-th being commit n; the first is commit 1.
pub type Journal = Sequence<Commit>;

/// Commits in their order.
pub type Commits = Sequence<Commit>;

/// Why a commit is refused: a commit after a touched group's touch place wrote that group.
#[derive(Drop, Clone, Copy, Debug)]
pub struct Conflict {
    /// The first such group, by its place in touch order, counted from 0.
    pub group: u32,
    /// The last commit that wrote it, counted from 1.
    pub commit: u64,
    /// The journal's length at the check.
    pub place: u64,
}

/// What one commit writes to one group.
#[derive(Drop)]
pub struct Entry {
    /// The commit's number, from 1.
    pub commit: u64,
    /// The group's root key.
    pub group: Key,
    /// The commit's writes to this group, at least one, in their order.
    pub writes: Writes,
}

/// Log entries in their order.
pub type Entries = Sequence<Entry>;

impl TryCopy for Write {
    fn copy(&self, alloc: Global) -> Result<Write, NoMemory> {
        Ok(match self {
            Write::Put(entity) => Write::Put(entity.copy(alloc)?),
            Write::Delete(key) => Write::Delete(key.copy(alloc)?),
        })
    }
}

impl TryCopy for Touch {
    fn copy(&self, alloc: Global) -> Result<Touch, NoMemory> {
        Ok(Touch {
            group: self.group.copy(alloc)?,
            place: self.place,
        })
    }
}

impl TryCopy for Commit {
    fn copy(&self, alloc: Global) -> Result<Commit, NoMemory> {
        Ok(Commit {
            client: self.client,
            touched: self.touched.copy(alloc)?,
            writes: self.writes.copy(alloc)?,
        })
    }
}

impl TryCopy for Entry {
    fn copy(&self, alloc: Global) -> Result<Entry, NoMemory> {
        Ok(Entry {
            commit: self.commit,
            group: self.group.copy(alloc)?,
            writes: self.writes.copy(alloc)?,
        })
    }
}
