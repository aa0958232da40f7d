//! What a window gives of results in their order.
ghost use Rattle.std.specs.Prelude.{◌≡◌, drop, fold, Some, IfOk};
ghost use Rattle.ds_query.specs.declared.row.Row.{Row};
ghost use Rattle.ds_pages.specs.Pages.{at_most, plus_limit};
ghost use Rattle.ds_pages.specs.Pages.{last_of};

use crate::row_page::RowPage;
use ds_base::{NoMemory, TryCopy};
use ds_query::{Place, Row, RowList, Window};
use std::alloc::Global;

/// The results that are left when the first are skipped, as many as are asked for, with the place of the last one skipped or
/// taken.
pub(crate) fn page(alloc: Global, firsts: Vec<Row>, window: &Window) -> Result<RowPage, NoMemory>
    ensures rows { IfOk result (λ m. m.rows ≡ at_most window.now.limit (drop window.now.offset firsts.items)) }
    ensures next { IfOk result (λ m. m.next
        ≡ last_of window.now.start (at_most (plus_limit window.now.offset window.now.limit) firsts.items)) }
{
    cut(alloc, seen(firsts, window), window)
}

/// Of rows that stand in their order, as many as are skipped and taken: those that are left when the first are skipped, and the place of
/// the last one. The rows are moved.
fn cut(alloc: Global, rows: Vec<Row>, window: &Window) -> Result<RowPage, NoMemory>
    ensures rows { IfOk result (λ m. m.rows ≡ drop window.now.offset rows.items) }
    ensures next { IfOk result (λ m. m.next ≡ last_of window.now.start rows.items) }
{
    let next = next_place(alloc, rows.as_slice(), &window.start)?;
    let rows = RowList::from(without(rows, window.offset as usize)?);
    Ok(RowPage { rows, next })
}

/// The results that are skipped or taken.
fn seen(firsts: Vec<Row>, window: &Window) -> Vec<Row>
    ensures { result.items ≡ at_most (plus_limit window.now.offset window.now.limit) firsts.items }
{
    let mut firsts = firsts;
    if let Some(limit) = window.limit {
        firsts.truncate(window.offset as usize + limit as usize);
    }
    firsts
}

/// The place of the last row, or else the start.
fn next_place(alloc: Global, rows: &[Row], start: &Option<Place>) -> Result<Option<Place>, NoMemory>
    ensures { IfOk result (λ next. next ≡ last_of start.now rows.now) }
{
    match rows.last() {
        Some(row) => Ok(Some(row.place.copy(alloc)?)),
        None => Ok(start.copy(alloc)?),
    }
}

/// The rows without the first ones, so many.
fn without(rows: Vec<Row>, skipped: usize) -> Result<Vec<Row>, NoMemory>
    ensures { IfOk result (λ left. left.items ≡ drop skipped rows.items) }
{
    let mut rows = rows;
    let most = skipped.min(rows.len());
    Ok(rows.split_off(most)?)
}
