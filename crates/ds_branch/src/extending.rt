//! The rows of a branch in the merged columns of its query.
ghost use Rattle.std.specs.Prelude.{◌≡◌, All, map, IfOk};
ghost use Rattle.ds_pages.specs.Columns.{directions as column_directions, key_descends};
ghost use Rattle.ds_pages.specs.Places.{IsPlaced};
ghost use Rattle.ds_branch.specs.Merging.{in_merged};

use ds_base::{Columns, NoMemory};
use ds_pages::{Directions, directions_of, extended_values, placed};
use ds_query::{Branch, Row, RowList};
use std::alloc::Global;

/// The rows of a branch in the merged columns, in the same order, each with its place there: where a column is none of the branch's it
/// has the least value that the branch asks of the property. The rows are moved. A refusal means out of memory.
pub fn extended(
    alloc: Global,
    merged: &Columns,
    branch: &Branch,
    rows: RowList,
) -> Result<RowList, NoMemory>
    ensures rows { IfOk result (λ all. all ≡ map (in_merged merged.now branch.now) rows) }
    ensures placed { IfOk result (λ all. All (IsPlaced merged.now) all) }
{
    let directions = directions_of(alloc, merged.as_slice())?;
    let mut all = Vec::with_capacity(alloc, rows.len())?;
    for row in rows.into_vec() {
        all.push(extended_row(alloc, merged, branch, &directions, row)?)?;
    }
    Ok(RowList::from(all))
}

fn extended_row(
    alloc: Global,
    merged: &Columns,
    branch: &Branch,
    written: &Directions,
    row: Row,
) -> Result<Row, NoMemory>
    requires values { written.now.values.items ≡ column_directions merged.now }
    requires key { written.now.key ≡ key_descends merged.now }
    ensures { IfOk result (λ r. (r ≡ in_merged merged.now branch.now row) × IsPlaced merged.now r) }
{
    let values = extended_values(alloc, merged.as_slice(), branch, &row.values)?;
    placed(alloc, written, row.key, values)
}
