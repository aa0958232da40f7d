//! Why the rows of an entity aren't counted.
ghost use Rattle.std.specs.Prelude.{◌≡◌};
ghost use Rattle.ds_rows.specs.declared.refused.RowsRefused.TheVariants as refused;

use std::alloc::AllocError;

/// Why an entity may not be written with these index definitions.
#[derive(Drop, Debug)]
pub enum RowsRefused {
    /// It has more than 20,000 index rows: the number, or 2^63 - 1 where it is larger. The limit is the Datastore's.
    TooManyRows { count: u64 },
    /// There was no memory.
    NoMemory,
}

impl From<AllocError> for RowsRefused {
    ghost from_gives = { λ e r. r ≡ refused.NoMemory };

    fn from(_refused: AllocError) -> RowsRefused {
        RowsRefused::NoMemory
    }
}
