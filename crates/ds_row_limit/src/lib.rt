//! Whether commits keep the limit on index rows under other definitions than those under which they were made: an index file that has
//! changed may give an entity more rows than it had when it was put.
//!
//! It stands on `ds_rows`, which counts an entity's index rows. A second index file (`ds_feeding`) and a kept journal (`ds_restoring`) are
//! looked through by it. `specs/ManyRows` says what is told of a put that has too many.
#![tactic(auto)]

ghost use Rattle.ds_row_limit.specs.ManyRows.{IsChecked, first_too_many, too_many_in};

use ds_indexdef::Defs;
use ds_log::Write;
use ds_rows::{RowsRefused, count_rows};
use std::alloc::Global;

/// Counts the index rows of each put among a commit's writes. It answers TooManyRows exactly where a put has more than 20,000 under these
/// definitions, with the number of the first one that has, or 2^63 - 1 where that is less; and else NoMemory only when out of memory. The
/// limit is the Datastore's. It is linear in the writes.
pub fn check_writes(alloc: Global, defs: &Defs, writes: &[Write]) -> Result<(), RowsRefused>
    ensures { IsChecked (first_too_many defs.now writes.now) result }
{
    for write in writes {
        check_write(alloc, defs, write)?;
    }
    Ok(())
}

/// Counts the rows of a put.
fn check_write(alloc: Global, defs: &Defs, write: &Write) -> Result<(), RowsRefused>
    ensures { IsChecked (too_many_in defs.now write.now) result }
{
    match write {
        Write::Put(entity) => {
            count_rows(alloc, defs, entity)?;
            Ok(())
        }
        Write::Delete(_) => Ok(()),
    }
}
