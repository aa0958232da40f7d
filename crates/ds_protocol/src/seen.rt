//! What a reply shows its client.
use ds_base::{Counts, Key};

/// A read of a group, which the transaction touches, if there is one.
#[derive(Drop)]
pub struct GroupRead {
    /// The group's root key.
    pub group: Key,
    /// Where the group stands, which is shown.
    pub place: u64,
    /// Its shard.
    pub shard: u32,
    /// How many entries the shard has up to the place.
    pub entries: u64,
}

/// A count for each shard.
#[derive(Drop)]
pub struct CountsSeen {
    /// The last commit of the counted entries.
    pub commit: u64,
    /// The counts.
    pub counts: Counts,
}

/// A place, and a count of one shard.
#[derive(Drop)]
pub struct CountSeen {
    /// The place.
    pub place: u64,
    /// The shard.
    pub shard: u32,
    /// The count.
    pub count: u64,
    /// The commit of the last counted entry.
    pub commit: u64,
}
