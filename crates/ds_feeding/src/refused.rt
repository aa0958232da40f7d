//! Why commits weren't fed.
ghost use Rattle.std.specs.Prelude.{◌≡◌};
ghost use Rattle.ds_feeding.specs.declared.refused.ReindexRefused.TheVariants as refused;

use std::alloc::AllocError;

/// Why no more commits were fed.
#[derive(Drop, Debug)]
pub enum ReindexRefused {
    /// The commit with this number is the next one, and it has a put with more than 20,000 index rows under the new definitions: so many
    /// has the first such put, or 2^63 - 1 where it has more.
    TooManyRows {
        /// The commit's number.
        commit: u64,
        /// How many rows.
        count: u64,
    },
    /// There was no memory.
    NoMemory,
}

impl From<AllocError> for ReindexRefused {
    ghost from_gives = { λ e r. r ≡ refused.NoMemory };

    fn from(_refused: AllocError) -> ReindexRefused {
        ReindexRefused::NoMemory
    }
}
