//! The page of rows in any order.
ghost use Rattle.std.specs.Prelude.{◌≡◌, All, List, map, IfOk};
ghost use Rattle.std.specs.List.Sorted.{IsSorted, IsPermutation};
ghost use Rattle.ds_base.specs.declared.column.Column.{Column};
ghost use Rattle.ds_base.specs.Sorting.{sorted_by};
ghost use Rattle.ds_pages.specs.Pages.{page_of, page_of_rows, with_places};
ghost use Rattle.ds_pages.specs.Places.{IsPlaced, compare_rows, parts_of, place_cmp};

use crate::firsts::firsts;
use crate::marks::slots;
use crate::pages::page;
use crate::row_page::RowPage;
use ds_base::{Columns, NoMemory, TextString};
use ds_query::{Row, Window};
use std::alloc::Global;

/// The page of rows in any order: in the order of their places the first row of each result, skipped and taken by the window.
///
/// A result is a key, and where names are projected the key with the values of these columns. The rows are moved. n rows take the time
/// n log n, and rows in order n: the sort keeps ascending runs and merges them. A refusal means out of memory.
pub fn page_of_rows(
    alloc: Global,
    rows: Vec<Row>,
    columns: &Columns,
    names: &[TextString],
    window: &Window,
) -> Result<RowPage, NoMemory>
    requires placed { All (IsPlaced columns.now) rows.items }
    ensures { IfOk result (λ page. page ≡ page_of_rows columns.now names.now window.now (map parts_of rows.items)) }
{
    let slots = slots(alloc, columns.as_slice(), names)?;
    let sorted = sorted(rows)?;
    let firsts = firsts(alloc, sorted, slots.as_slice())?;
    page(alloc, firsts, window)
}

/// The page of rows in any order of which each is a result of its own: in the order of their places, skipped and taken by the window.
///
/// The rows are moved, and their keys and values aren't compared. n rows take the time n log n, and rows in order n: the sort keeps
/// ascending runs and merges them. A refusal means out of memory.
pub fn page_of_results(alloc: Global, rows: Vec<Row>, window: &Window) -> Result<RowPage, NoMemory>
    ensures { (columns : List Column) → All (IsPlaced columns) rows.items → IfOk result (λ page. page
        ≡ with_places columns (page_of columns window.now (sorted_by (compare_rows columns) (map parts_of rows.items)))) }
{
    let sorted = sorted(rows)?;
    page(alloc, sorted, window)
}

/// The rows in the order of their places. Ascending runs are kept and merged.
fn sorted(rows: Vec<Row>) -> Result<Vec<Row>, NoMemory>
    ensures sorted { IfOk result (λ r. IsSorted place_cmp r.items) }
    ensures permutation { IfOk result (λ r. IsPermutation rows.items r.items) }
{
    let mut rows = rows;
    rows.sort_by(|a, b| a.place.bytes.cmp(&b.place.bytes))?;
    Ok(rows)
}
