//! What is claimed of the definitions, for the crates above to cite. The functions do nothing.
ghost use Rattle.ds_shard.specs.Shards.{EntriesAreKept};

/// A shard that absorbed entries stands, at each stamp that it keeps, for the entities that as many of its entries leave and for
/// their rows; its count is their number, its last commit that of the last one, and it holds no version that was replaced or
/// deleted at or before the floor.
pub fn entries_are_kept()
    ensures { EntriesAreKept }
{}
