//! The page of the rows of several lists.
ghost use Rattle.std.specs.Prelude.{◌≡◌, All, map, IfOk};
ghost use Rattle.ds_pages.specs.Pages.{all_rows, page_of_rows};
ghost use Rattle.ds_pages.specs.Places.{IsPlaced, parts_of};

use ds_base::{Columns, Names, NoMemory};
use ds_pages::{RowPage, joined, page_of_rows};
use ds_query::{RowLists, Window};
use std::alloc::Global;

/// A page of the results of several lists.
pub type Merged = RowPage;

/// The page of the rows of several lists: united in order, the first row of each result, skipped and taken by the window.
///
/// A result is a key, and where names are projected the key with the values of these columns. The rows are moved. Lists that are in the
/// order of the merged columns take time in the rows times the logarithm of the lists: the sort keeps ascending runs and merges them.
/// Lists in no order are put in order. A refusal means out of memory.
pub fn merge(
    alloc: Global,
    lists: RowLists,
    merged: &Columns,
    projected: &Names,
    window: &Window,
) -> Result<Merged, NoMemory>
    requires placed { All (IsPlaced merged.now) (all_rows lists) }
    ensures { IfOk result (λ page. page ≡ page_of_rows merged.now projected.now window.now (map parts_of (all_rows lists))) }
{
    let rows = joined(alloc, lists)?;
    page_of_rows(alloc, rows, merged, projected.as_slice(), window)
}
