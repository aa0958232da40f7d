//! The page of a query.
ghost use Rattle.std.specs.Prelude.{◌≡◌, ◌&&◌, [], map, filter, All, IfOk, true, false};
ghost use Rattle.ds_query.specs.Filters.{projected};
ghost use Rattle.ds_query.specs.Lawful.{IsLawfulNormal};
ghost use Rattle.ds_model.specs.Rows.{rows};
ghost use Rattle.ds_pages.specs.Columns.{directions as value_directions, key_descends};
ghost use Rattle.ds_pages.specs.Pages.{all_rows, is_between, is_after, is_up_to};
ghost use Rattle.ds_pages.specs.Places.{IsPlaced, placed};
ghost use Rattle.ds_plain.specs.Answers.{query_page, branch_list};

use crate::found::found_rows;
use ds_base::{Columns, NoMemory};
use ds_entity::{Entities, Entity};
use ds_pages::{Directions, RowPage, directions_of, extended_values, joined, page_of_rows, placed};
use ds_query::{Branch, Normal, Place, Row, RowList, RowLists, Window};
use std::alloc::Global;
use std::cmp::Ordering;

/// A page of a query's results: the row of each, with its place among the merged columns, and where the next page begins.
pub type Plain = RowPage;

/// What the query finds over the entities, as the window gives it: the rows in order with their places, and the next place.
///
/// The rules are those of the Datastore's queries: an entity counts where it has the namespace and the kind, lies under the ancestor and
/// meets each filter; it has a row for each way to take one indexed value per column; of each result the first row is kept, after the
/// rows outside of the window's places are dropped. A refusal means out of memory.
pub fn answer(
    alloc: Global,
    entities: &Entities,
    normal: &Normal,
    window: &Window,
) -> Result<Plain, NoMemory>
    requires lawful { IsLawfulNormal normal.now }
    ensures { IfOk result (λ p. p ≡ query_page normal.now window.now entities.now) }
{
    let mut lent = Vec::with_capacity(alloc, entities.len())?;
    for entity in entities.as_slice() {
        lent.push(entity)?;
    }
    answer_of(alloc, lent.as_slice(), normal, window)
}

/// The same over entities where they lie, so that those of a map need no copy.
pub fn answer_of(
    alloc: Global,
    entities: &[&Entity],
    normal: &Normal,
    window: &Window,
) -> Result<Plain, NoMemory>
    requires lawful { IsLawfulNormal normal.now }
    ensures { IfOk result (λ p. p ≡ query_page normal.now window.now (map (λ e. e.now) entities.now)) }
{
    if normal.several {
        several(alloc, entities, normal, window)
    } else {
        single(alloc, entities, normal, window)
    }
}

/// The page of a query of several branches: their rows united, and of each key the first.
fn several(
    alloc: Global,
    entities: &[&Entity],
    normal: &Normal,
    window: &Window,
) -> Result<Plain, NoMemory>
    requires several { normal.now.several ≡ true }
    ensures { IfOk result (λ m. m ≡ query_page normal.now window.now (map (λ e. e.now) entities.now)) }
{
    let lists = branch_lists(alloc, entities, normal)?;
    let rows = joined(alloc, lists)?;
    page_of_rows(alloc, rows, &normal.merged, &[], window)
}

/// The rows of each branch in the merged columns, with their places there. Where a column is none of the
/// branch's its value is the least that the branch asks of the property. The lists stand in no order. A refusal means out of memory.
pub fn branch_lists(
    alloc: Global,
    entities: &[&Entity],
    normal: &Normal,
) -> Result<RowLists, NoMemory>
    ensures rows { IfOk result (λ lists. lists
        ≡ map (branch_list normal.now.merged (map (λ e. e.now) entities.now)) normal.now.branches) }
    ensures placed { IfOk result (λ lists. All (IsPlaced normal.now.merged) (all_rows lists)) }
{
    let directions = directions_of(alloc, normal.merged.as_slice())?;
    let mut lists = Vec::with_capacity(alloc, normal.branches.len())?;
    for branch in normal.branches.as_slice() {
        let list = branch_list(alloc, entities, branch, &normal.merged, &directions)?;
        lists.push(list)?;
    }
    Ok(RowLists::from(lists))
}

/// The rows of a branch in the merged columns, with their places.
fn branch_list(
    alloc: Global,
    entities: &[&Entity],
    branch: &Branch,
    merged: &Columns,
    directions: &Directions,
) -> Result<RowList, NoMemory>
    requires values { directions.now.values.items ≡ value_directions merged.now }
    requires key { directions.now.key ≡ key_descends merged.now }
    ensures rows { IfOk result (λ list. list ≡ branch_list merged.now (map (λ e. e.now) entities.now) branch.now) }
    ensures placed { IfOk result (λ list. All (IsPlaced merged.now) list) }
{
    let mut rows = Vec::new(alloc);
    for found in found_rows(alloc, entities, branch)? {
        let values = extended_values(alloc, merged.as_slice(), branch, &found.values)?;
        rows.push(placed(alloc, directions, found.key, values)?)?;
    }
    Ok(RowList::from(rows))
}

/// The page of a query of one branch.
fn single(
    alloc: Global,
    entities: &[&Entity],
    normal: &Normal,
    window: &Window,
) -> Result<Plain, NoMemory>
    requires lawful { IsLawfulNormal normal.now }
    requires single { normal.now.several ≡ false }
    ensures { IfOk result (λ m. m ≡ query_page normal.now window.now (map (λ e. e.now) entities.now)) }
{
    let branch = &normal.branches.as_slice()[0];
    let rows = rows_between(alloc, entities, branch, window)?;
    let names = branch.select.projected();
    page_of_rows(alloc, rows, &branch.columns, names, window)
}

/// The rows of a branch between the window's places, after the start and up to the end, each with its place among the branch's
/// columns. They stand in no order. A refusal means out of memory.
pub fn rows_between(
    alloc: Global,
    entities: &[&Entity],
    branch: &Branch,
    window: &Window,
) -> Result<Vec<Row>, NoMemory>
    ensures rows { IfOk result (λ r. r.items ≡ map (placed branch.now.columns)
        (filter (is_between branch.now.columns window.now.start window.now.end) (rows branch.now (map (λ e. e.now) entities.now)))) }
    ensures placed { IfOk result (λ r. All (IsPlaced branch.now.columns) r.items) }
{
    let directions = directions_of(alloc, branch.columns.as_slice())?;
    let mut rows = Vec::new(alloc);
    for found in found_rows(alloc, entities, branch)? {
        let row = placed(alloc, &directions, found.key, found.values)?;
        if !is_between(&row.place, window) {
            continue;
        }
        rows.push(row)?;
    }
    Ok(rows)
}

fn is_between(place: &Place, window: &Window) -> bool
    ensures { result ≡ (is_after window.now.start place.now.bytes && is_up_to window.now.end place.now.bytes) }
{
    is_after(&window.start, place) && is_up_to(&window.end, place)
}

fn is_after(start: &Option<Place>, place: &Place) -> bool
    ensures { result ≡ is_after start.now place.now.bytes }
{
    match start {
        Some(start) => start.bytes.cmp(&place.bytes) == Ordering::Less,
        None => true,
    }
}

fn is_up_to(end: &Option<Place>, place: &Place) -> bool
    ensures { result ≡ is_up_to end.now place.now.bytes }
{
    match end {
        Some(end) => end.bytes.cmp(&place.bytes) != Ordering::Less,
        None => true,
    }
}
