//! A query of one branch over one shard.
ghost use Rattle.std.specs.Prelude.{◌≡◌, ◌+◌, ◌≤◌, List, drop, false, length, map, None, IfOk, OnErr, OnOk};
ghost use Rattle.ds_base.specs.declared.column.Column.{Column};
ghost use Rattle.ds_query.specs.Lawful.{IsLawfulBranch};
ghost use Rattle.ds_query.specs.declared.row.Row.{Row};
ghost use Rattle.ds_pages.specs.Pages.{last_of};
ghost use Rattle.ds_pages.specs.Places.{placed};
ghost use Rattle.ds_branch.specs.Behind.{IsCollected};
ghost use Rattle.ds_engine.specs.Plans.{IsPlanFor};
ghost use Rattle.ds_engine.specs.Searches.{IsCutOf, bound_in, given_in, most_of};

use crate::planned::PlannedQuery;
use crate::snapshot::ShardSnapshot;
use ds_base::{NoMemory, TryCopy};
use ds_branch::RowsBehind;
use ds_io::Steps;
use ds_pages::RowPage;
use ds_planner::ScanPlan;
use ds_query::{Branch, Place, RowList, Window};
use std::alloc::Global;
use std::sync::ledger::Ledger;

/// The page of a branch's results in one shard: these come in their order, each once, so no row is compared with another one, and those
/// before the offset are counted and not kept. Each row of the page took a step. A refusal means out of memory.
pub(crate) fn page_alone<L: Ledger>(
    alloc: Global,
    snapshot: &ShardSnapshot<'_, L>,
    query: &PlannedQuery<'_>,
    branch: &Branch,
    plan: &ScanPlan,
    steps: &mut Steps<L>,
) -> Result<RowPage, NoMemory>
    requires lawful { IsLawfulBranch branch.now }
    requires definitions { query.now.defs.now ≡ snapshot.now.shard.definitions }
    requires plan { IsPlanFor query.now.defs.now branch.now plan.now }
    ensures page { IfOk result (IsCutOf query.now.window.now (map (placed branch.now.columns)
        (given_in query.now.normal.now query.now.window.now branch.now snapshot.now))) }
    ensures steps { OnOk result (steps.new ≤ steps.old
        + bound_in query.now.window.now (most_of query.now.normal.now query.now.window.now) branch.now snapshot.now) }
    ensures refused { OnErr result (steps.new ≤ steps.old + bound_in query.now.window.now None branch.now snapshot.now) }
    ensures a_step_for_each { IfOk result (λ page. steps.old + length page.rows ≤ steps.new) }
{
    let found = snapshot.answer_behind(alloc, query, branch, plan, steps)?;
    page_of(alloc, found, query.window)
}

/// The page of what was collected.
fn page_of(alloc: Global, found: RowsBehind, window: &Window) -> Result<RowPage, NoMemory>
    ensures { (columns : List Column) (rows : List Row) → IsCollected columns window.now.offset false rows found
        → IfOk result (IsCutOf window.now rows) }
{
    let next = next_place(alloc, found.last, &window.start)?;
    let rows = without(found.rows, found.left)?;
    Ok(RowPage { rows, next })
}

/// The place of the last row, or else the start.
fn next_place(
    alloc: Global,
    last: Option<Place>,
    start: &Option<Place>,
) -> Result<Option<Place>, NoMemory>
    ensures { (rows : List Row) → last ≡ last_of None rows → IfOk result (λ next. next ≡ last_of start.now rows) }
{
    match last {
        Some(last) => Ok(Some(last)),
        None => start.copy(alloc),
    }
}

/// The rows without the first ones, so many. Where there are none to be left out all stay where they are.
fn without(rows: RowList, left: u32) -> Result<RowList, NoMemory>
    ensures { IfOk result (λ kept. kept ≡ drop left rows) }
{
    if left == 0 {
        return Ok(rows);
    }
    let mut rows = rows.into_vec();
    let most = (left as usize).min(rows.len());
    Ok(RowList::from(rows.split_off(most)?))
}
