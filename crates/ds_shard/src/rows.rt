//! The rows of an entity, closed or added in a table one after another.
ghost use Rattle.std.specs.Prelude.{◌≡◌, ◌≤◌, ◌<◌, IsTrue, IsFalse, OnOk};
ghost use Rattle.ds_rows.specs.Laws.{IsOnce};
ghost use Rattle.ds_table.specs.Versions.{never, has_alive, undone};
ghost use Rattle.ds_table.specs.Blocks.{versions};
ghost use Rattle.std.specs.List.{AllByRecursion as Each};
ghost use Rattle.ds_shard.specs.Rows.{all_closed, all_added};

use ds_base::NoMemory;
use ds_rows::RowSet;
use ds_table::Table;

/// Closes the rows, which are alive, at the stamp. It takes no memory.
pub(crate) fn close_rows(table: &mut Table, rows: &RowSet, stamp: u64)
    requires alive { Each (λ row. IsTrue (has_alive row (versions table.old))) rows.now }
    requires once { IsOnce rows.now }
    requires not_before { table.old.last ≤ stamp }
    requires above_the_floor { table.old.least ≤ stamp }
    requires a_stamp { stamp < never }
    ensures closed { versions table.new ≡ all_closed stamp (versions table.old) rows.now }
    ensures last { table.new.last ≤ stamp }
    ensures same_floor { table.new.floor ≡ table.old.floor }
    ensures same_least { table.new.least ≡ table.old.least }
    ensures same_least_undone { table.new.least_undone ≡ table.old.least_undone }
{
    for i in 0..rows.len() {
        match rows.get(i) {
            Some(row) => table.close(row, stamp),
            None => {}
        }
    }
}

/// Adds the rows, which aren't alive, at the stamp. A refusal, which means out of memory, leaves some of them added.
pub(crate) fn add_rows(table: &mut Table, rows: &RowSet, stamp: u64) -> Result<(), NoMemory>
    requires not_alive { Each (λ row. IsFalse (has_alive row (versions table.old))) rows.now }
    requires once { IsOnce rows.now }
    requires not_before { table.old.last ≤ stamp }
    requires above_the_floor { table.old.least ≤ stamp }
    requires a_stamp { stamp < never }
    ensures added { OnOk result (versions table.new ≡ all_added stamp (versions table.old) rows.now) }
    ensures leads_back { undone stamp (versions table.new) ≡ undone stamp (versions table.old) }
    ensures last { table.new.last ≤ stamp }
    ensures same_floor { table.new.floor ≡ table.old.floor }
    ensures same_least { table.new.least ≡ table.old.least }
    ensures same_least_undone { table.new.least_undone ≡ table.old.least_undone }
{
    for i in 0..rows.len() {
        match rows.get(i) {
            Some(row) => table.add(row, stamp)?,
            None => {}
        }
    }
    Ok(())
}
