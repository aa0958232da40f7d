//! What a run is served with and asked for.
use ds_indexdef::Defs;
use std::alloc::Global;

/// What a run is served with: the runtime, what ends the hubs of a store that is dropped without a close, where memory is taken, and the
/// gate that is called around each answer.
#[derive(Drop)]
pub struct Host<'a, Rt, H: Drop, G> {
    /// The runtime.
    pub rt: &'a Rt,
    /// What ends the hubs of a store that is dropped without a close.
    pub handle: H,
    /// Where memory is taken.
    pub alloc: Global,
    /// The gate.
    pub gate: &'a G,
}

/// What a run is asked for: the definitions before and behind the cut, and behind how many rounds that is; and with what both stores are
/// opened.
#[derive(Drop)]
pub struct Plan<'a> {
    /// The composite indexes of the first store.
    pub first: &'a Defs,
    /// Those of the second one.
    pub second: &'a Defs,
    /// Behind how many rounds clients go over, 1 to 9,999.
    pub after: u32,
    /// How many shards each store has, 1 to 16.
    pub shards: u32,
    /// How many entries' versions a shard keeps.
    pub window: u64,
    /// How many passes each store has: those of the clients, of the appliers, and the one that feeds.
    pub passes: u32,
}
