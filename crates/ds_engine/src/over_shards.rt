//! A query of one branch over several shards.
ghost use Rattle.std.specs.Prelude.{◌≡◌, ◌+◌, ◌≤◌, List, All, None, length, map, sum_by, IfOk, OnErr, OnOk};
ghost use Rattle.ds_base.specs.KeyOrder.{bytes_cmp};
ghost use Rattle.ds_base.specs.Sorting.{sorted_by};
ghost use Rattle.ds_bytes.specs.Rows.{RowParts};
ghost use Rattle.ds_cursor.specs.RowsOfColumns.{IsRowOf};
ghost use Rattle.ds_query.specs.Lawful.{IsLawfulBranch};
ghost use Rattle.ds_pages.specs.Pages.{at_most, plus_limit};
ghost use Rattle.ds_pages.specs.Places.{placed};
ghost use Rattle.ds_branch.specs.Behind.{ArePlaces};
ghost use Rattle.ds_engine.specs.Plans.{IsPlanFor};
ghost use Rattle.ds_engine.specs.Searches.{bound_in, given_over, last_at, most_of, page_in_order};

use crate::planned::PlannedQuery;
use crate::snapshot::ShardSnapshot;
use ds_base::{ByteString, Column, NoMemory, TryCopy};
use ds_branch::row_of;
use ds_io::Steps;
use ds_pages::RowPage;
use ds_planner::ScanPlan;
use ds_query::{Branch, Place, Row, RowList, Window};
use std::alloc::Global;
use std::sync::ledger::Ledger;

/// The page of a branch's results in shards. Each shard gives the places of its first results, as many as the page skips or takes; they are
/// put in order, and the rows of the page alone are read, each of which took a step. A refusal means out of memory.
pub(crate) fn page_over_shards<L: Ledger>(
    alloc: Global,
    snapshots: &[ShardSnapshot<'_, L>],
    query: &PlannedQuery<'_>,
    branch: &Branch,
    plan: &ScanPlan,
    steps: &mut Steps<L>,
) -> Result<RowPage, NoMemory>
    requires lawful { IsLawfulBranch branch.now }
    requires definitions { All (λ s. query.now.defs.now ≡ s.shard.definitions) snapshots.now }
    requires plan { IsPlanFor query.now.defs.now branch.now plan.now }
    ensures page { IfOk result (λ page. page ≡ page_in_order branch.now.columns query.now.window.now
        (given_over query.now.normal.now query.now.window.now branch.now snapshots.now)) }
    ensures steps { OnOk result (steps.new ≤ steps.old + sum_by
        (bound_in query.now.window.now (most_of query.now.normal.now query.now.window.now) branch.now) snapshots.now) }
    ensures refused { OnErr result (steps.new ≤ steps.old + sum_by (bound_in query.now.window.now None branch.now) snapshots.now) }
    ensures a_step_for_each { IfOk result (λ page. steps.old + length page.rows ≤ steps.new) }
{
    let mut places = Vec::new(alloc);
    for snapshot in snapshots {
        let mut list = snapshot.places(alloc, query, branch, plan, steps)?;
        places.append(&mut list)?;
    }
    page_of_places(alloc, branch.columns.as_slice(), query.window, places)
}

/// The page of rows whose places these are, in any order.
fn page_of_places(
    alloc: Global,
    columns: &[Column],
    window: &Window,
    places: Vec<ByteString>,
) -> Result<RowPage, NoMemory>
    requires { All (IsRowOf columns.now) places.items }
    ensures { (rows : List RowParts) → ArePlaces columns.now rows places.items
        → IfOk result (λ page. page ≡ page_in_order columns.now window.now rows) }
{
    let seen = seen(places, window)?;
    let seen = seen.as_slice();
    let next = last_or_start(alloc, seen, &window.start)?;
    let first = (window.offset as usize).min(seen.len());
    let rows = rows_at(alloc, columns, seen.split_at(first).1)?;
    Ok(RowPage {
        rows: RowList::from(rows),
        next,
    })
}

/// The places in order, those that are skipped or taken. Ascending runs are kept and merged.
fn seen(places: Vec<ByteString>, window: &Window) -> Result<Vec<ByteString>, NoMemory>
    ensures { IfOk result (λ seen. seen.items
        ≡ at_most (plus_limit window.now.offset window.now.limit) (sorted_by bytes_cmp places.items)) }
{
    let mut places = places;
    places.sort()?;
    if let Some(limit) = window.limit {
        places.truncate(window.offset as usize + limit as usize);
    }
    Ok(places)
}

/// The last place, or else the start.
fn last_or_start(
    alloc: Global,
    places: &[ByteString],
    start: &Option<Place>,
) -> Result<Option<Place>, NoMemory>
    ensures { IfOk result (λ next. next ≡ last_at start.now places.now) }
{
    match places.last() {
        Some(place) => Ok(Some(Place {
            bytes: place.copy(alloc)?,
        })),
        None => start.copy(alloc),
    }
}

/// The rows whose places these are.
fn rows_at(alloc: Global, columns: &[Column], places: &[ByteString]) -> Result<Vec<Row>, NoMemory>
    requires { All (IsRowOf columns.now) places.now }
    ensures { (rows : List RowParts) → ArePlaces columns.now rows places.now
        → IfOk result (λ found. found.items ≡ map (placed columns.now) rows) }
{
    let mut rows = Vec::with_capacity(alloc, places.len())?;
    for place in places {
        let row = row_of(alloc, columns, place.bytes())?;
        rows.push(row)?;
    }
    Ok(rows)
}
