//! What one shard gives of a query.
ghost use Rattle.std.specs.Prelude.{◌≡◌, ◌+◌, ◌≤◌, ◌++◌, List, All, None, false, length, map, sum_by, IfOk, OnErr, OnOk};
ghost use Rattle.ds_bytes.specs.Rows.{RowParts};
ghost use Rattle.ds_query.specs.Lawful.{IsLawfulBranch};
ghost use Rattle.ds_pages.specs.Places.{IsPlaced, placed};
ghost use Rattle.ds_engine.specs.Planned.{IsPlanned};
ghost use Rattle.ds_engine.specs.Plans.{IsPlanFor};
ghost use Rattle.ds_engine.specs.Searches.{bound_in, branch_rows, in_columns, most_of, shard_rows};
ghost use Rattle.ds_engine.specs.Snapshots.{entities_in};

use crate::planned::PlannedQuery;
use crate::snapshot::ShardSnapshot;
use ds_base::NoMemory;
use ds_branch::extended;
use ds_io::Steps;
use ds_planner::ScanPlan;
use ds_query::{Branch, Normal, Row, RowList};
use std::alloc::Global;
use std::sync::ledger::Ledger;

/// Puts what a shard gives of a query behind other rows: branch by branch its results, as many as a page may need, in the columns of the
/// query, each with its place there. Each row took a step. A refusal means out of memory.
pub(crate) fn put_shard_rows<L: Ledger>(
    alloc: Global,
    snapshot: &ShardSnapshot<'_, L>,
    query: &PlannedQuery<'_>,
    rows: &mut Vec<Row>,
    steps: &mut Steps<L>,
) -> Result<(), NoMemory>
    requires planned { IsPlanned query.now }
    requires definitions { query.now.defs.now ≡ snapshot.now.shard.definitions }
    requires placed { All (IsPlaced query.now.normal.now.merged) rows.old.items }
    ensures rows { OnOk result (rows.new.items ≡ rows.old.items ++ map (placed query.now.normal.now.merged)
        (shard_rows query.now.normal.now query.now.window.now (entities_in snapshot.now))) }
    ensures placed { OnOk result (All (IsPlaced query.now.normal.now.merged) rows.new.items) }
    ensures steps { OnOk result (steps.new ≤ steps.old + sum_by (λ q. bound_in query.now.window.now
        (most_of query.now.normal.now query.now.window.now) q snapshot.now) query.now.normal.now.branches) }
    ensures refused { OnErr result (steps.new ≤ steps.old
        + sum_by (λ q. bound_in query.now.window.now None q snapshot.now) query.now.normal.now.branches) }
    ensures a_step_for_each { OnOk result (steps.old + length rows.new.items ≤ steps.new + length rows.old.items) }
{
    let branches = query.normal.branches.as_slice();
    for number in 0..branches.len() {
        let list = branch_rows(
            alloc,
            snapshot,
            query,
            &branches[number],
            &query.plans[number],
            steps,
        )?;
        put_rows(list, rows)?;
    }
    Ok(())
}

/// Puts rows behind others. They are moved, and where there are no others they stay where they are.
pub(crate) fn put_rows(list: RowList, rows: &mut Vec<Row>) -> Result<(), NoMemory>
    ensures { OnOk result (rows.new.items ≡ rows.old.items ++ list) }
{
    let mut list = list.into_vec();
    if rows.is_empty() {
        *rows = list;
        return Ok(());
    }
    rows.append(&mut list)
}

/// What a branch gives of a shard.
fn branch_rows<L: Ledger>(
    alloc: Global,
    snapshot: &ShardSnapshot<'_, L>,
    query: &PlannedQuery<'_>,
    branch: &Branch,
    plan: &ScanPlan,
    steps: &mut Steps<L>,
) -> Result<RowList, NoMemory>
    requires lawful { IsLawfulBranch branch.now }
    requires columns { query.now.normal.now.several ≡ false → branch.now.columns ≡ query.now.normal.now.merged }
    requires definitions { query.now.defs.now ≡ snapshot.now.shard.definitions }
    requires plan { IsPlanFor query.now.defs.now branch.now plan.now }
    ensures rows { IfOk result (λ rows. rows ≡ map (placed query.now.normal.now.merged)
        (branch_rows query.now.normal.now query.now.window.now (entities_in snapshot.now) branch.now)) }
    ensures placed { IfOk result (λ rows. All (IsPlaced query.now.normal.now.merged) rows) }
    ensures steps { OnOk result (steps.new ≤ steps.old
        + bound_in query.now.window.now (most_of query.now.normal.now query.now.window.now) branch.now snapshot.now) }
    ensures refused { OnErr result (steps.new ≤ steps.old + bound_in query.now.window.now None branch.now snapshot.now) }
    ensures a_step_for_each { IfOk result (λ rows. steps.old + length rows ≤ steps.new) }
{
    let rows = snapshot.answer(alloc, query, branch, plan, steps)?;
    in_columns(alloc, query.normal, branch, rows)
}

/// The rows of a branch in the columns of the query, which are the branch's where there is one branch.
fn in_columns(
    alloc: Global,
    normal: &Normal,
    branch: &Branch,
    rows: RowList,
) -> Result<RowList, NoMemory>
    requires columns { normal.now.several ≡ false → branch.now.columns ≡ normal.now.merged }
    requires placed { All (IsPlaced branch.now.columns) rows }
    ensures rows { (parts : List RowParts) → rows ≡ map (placed branch.now.columns) parts
        → IfOk result (λ all. all ≡ map (placed normal.now.merged) (in_columns normal.now branch.now parts)) }
    ensures placed { IfOk result (λ all. All (IsPlaced normal.now.merged) all) }
    ensures as_many { IfOk result (λ all. length all ≡ length rows) }
{
    if normal.several {
        extended(alloc, &normal.merged, branch, rows)
    } else {
        Ok(rows)
    }
}
