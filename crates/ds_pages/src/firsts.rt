//! Of rows the first of each mark.
ghost use Rattle.std.specs.Prelude.{◌≡◌, IfOk};
ghost use Rattle.ds_pages.specs.Pages.{first_of_each};
ghost use Rattle.ds_pages.specs.Marks.{is_same};

use crate::marks::mark_of;
use ds_base::NoMemory;
use ds_query::Row;
use std::alloc::Global;
use std::collections::BTreeSet;

/// Of each mark the first row, in their order. A row costs the logarithm of the number of marks.
pub(crate) fn firsts(
    alloc: Global,
    rows: Vec<Row>,
    slots: &[Option<usize>],
) -> Result<Vec<Row>, NoMemory>
    ensures { IfOk result (λ kept. kept.items ≡ first_of_each (is_same slots.now) rows.items) }
{
    let mut marks = BTreeSet::new(alloc);
    let mut kept = Vec::new(alloc);
    for row in rows {
        if marks.insert(mark_of(alloc, &row, slots)?)? {
            kept.push(row)?;
        }
    }
    Ok(kept)
}
