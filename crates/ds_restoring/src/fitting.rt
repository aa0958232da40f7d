//! Whether the kept puts fit the index file of this run: its definitions may give an entity more rows than the ones under which it was
//! put.
ghost use Rattle.std.specs.Prelude.{◌+◌, ◌<◌, ◌^◌, length};
ghost use Rattle.ds_restoring.specs.Fitting.{AreChecked};

use ds_indexdef::Defs;
use ds_log::Commit;
use ds_row_limit::check_writes;
use ds_rows::RowsRefused;
use std::alloc::Global;

/// Why a kept journal isn't served.
#[derive(Clone, Copy, Debug, PartialEq, Eq)]
pub enum Unfit {
    /// A put has more than 20,000 index rows: the first of the journal that has, with its commit's number and its rows, or 2^63 - 1 where
    /// they are more.
    TooManyRows { commit: u64, count: u64 },
    /// There was no memory to count them.
    NoMemory,
}

/// Counts the rows of each put of a journal. It refuses exactly where a put has more than 20,000, or when out of memory. It is linear in
/// the journal.
pub fn check_rows(alloc: Global, defs: &Defs, journal: &[Commit]) -> Result<(), Unfit>
    requires { length journal.now < 2 ^ 62 }
    ensures { AreChecked defs.now journal.now result }
{
    for (i, commit) in journal.iter().enumerate() {
        match check_writes(alloc, defs, commit.writes.as_slice()) {
            Ok(()) => {}
            Err(RowsRefused::TooManyRows { count }) => {
                return Err(Unfit::TooManyRows {
                    commit: i as u64 + 1,
                    count,
                });
            }
            Err(RowsRefused::NoMemory) => return Err(Unfit::NoMemory),
        }
    }
    Ok(())
}
