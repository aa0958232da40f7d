//! A query over shards.
ghost use Rattle.std.specs.Prelude.{◌≡◌, ◌+◌, ◌*◌, ◌≤◌, [], All, None, map, length, IfOk, false};
ghost use Rattle.ds_base.specs.Limits.{most_shards};
ghost use Rattle.ds_pages.specs.Places.{IsPlaced, placed};
ghost use Rattle.ds_engine.specs.Planned.{IsPlanned};
ghost use Rattle.ds_engine.specs.Searches.{AreOfShards, IsResultOf, all_entities, look_ups, most_of, page_over, rows_of_shards};
ghost use Rattle.ds_engine.specs.Searches.{search_bound};
ghost use Rattle.ds_engine.specs.Snapshots.{entities_in};

use crate::alone::page_alone;
use crate::items::items;
use crate::over_shards::page_over_shards;
use crate::planned::PlannedQuery;
use crate::rows::put_shard_rows;
use crate::snapshot::ShardSnapshot;
use ds_base::NoMemory;
use ds_branch::laws::bounds_add_up;
use ds_entity::Results;
use ds_io::Steps;
use ds_pages::{RowPage, page_of_results, page_of_rows};
use ds_query::{Place, Row};
use std::alloc::Global;
use std::sync::ledger::Ledger;

/// What a query found.
#[derive(Drop)]
pub struct Found {
    /// What is selected of each result, in their order.
    pub results: Results,
    /// The place of the last result skipped or taken, else the window's start: where the next page begins.
    pub next: Option<Place>,
}

/// What a query finds in shards, each as its snapshot stands: a page of its results over the entities of all.
///
/// The steps are within the sum of the bounds of all branches over all shards, where each shard is asked for as many results of a branch
/// as the page skips or takes, and by a projection of several branches for all; and each entity that is given takes one step more. A
/// refusal means out of memory; it may have looked at all rows up to the end, each given row took a step, and no look-up is of a row that
/// isn't given.
pub fn search<L: Ledger>(
    alloc: Global,
    snapshots: &[ShardSnapshot<'_, L>],
    query: &PlannedQuery<'_>,
    steps: &mut Steps<L>,
) -> Result<Found, NoMemory>
    requires planned { IsPlanned query.now }
    requires some { 1 ≤ length snapshots.now }
    requires few { length snapshots.now ≤ most_shards }
    requires definitions { All (λ s. query.now.defs.now ≡ s.shard.definitions) snapshots.now }
    ensures found { AreOfShards (length (map entities_in snapshots.now)) 0 (map entities_in snapshots.now)
        → IfOk result (λ f. IsResultOf query.now.normal.now query.now.window.now (all_entities (map entities_in snapshots.now))
        f.results f.next) }
    ensures steps_bounded { IfOk result (λ f. All (λ q. steps.new ≤ (steps.old + search_bound query.now.normal.now query.now.window.now
        (most_of query.now.normal.now query.now.window.now) snapshots.now) + look_ups q.select (length f.results))
        query.now.normal.now.branches) }
    ensures steps_in_all { steps.new ≤ steps.old + 2 * search_bound query.now.normal.now query.now.window.now None snapshots.now }
{
    if !query.normal.several {
        return search_single(alloc, snapshots, query, steps);
    }
    bounds_add_up();
    let mut rows = Vec::new(alloc);
    for snapshot in snapshots {
        put_shard_rows(alloc, snapshot, query, &mut rows, steps)?;
    }
    page_of(alloc, snapshots, query, rows, steps)
}

/// The same of one branch. Over several shards each gives the places of its rows, and the rows of the page alone are read.
fn search_single<L: Ledger>(
    alloc: Global,
    snapshots: &[ShardSnapshot<'_, L>],
    query: &PlannedQuery<'_>,
    steps: &mut Steps<L>,
) -> Result<Found, NoMemory>
    requires planned { IsPlanned query.now }
    requires single { query.now.normal.now.several ≡ false }
    requires some { 1 ≤ length snapshots.now }
    requires few { length snapshots.now ≤ most_shards }
    requires definitions { All (λ s. query.now.defs.now ≡ s.shard.definitions) snapshots.now }
    ensures found { AreOfShards (length (map entities_in snapshots.now)) 0 (map entities_in snapshots.now)
        → IfOk result (λ f. IsResultOf query.now.normal.now query.now.window.now (all_entities (map entities_in snapshots.now))
        f.results f.next) }
    ensures steps_bounded { IfOk result (λ f. All (λ q. steps.new ≤ (steps.old + search_bound query.now.normal.now query.now.window.now
        (most_of query.now.normal.now query.now.window.now) snapshots.now) + look_ups q.select (length f.results))
        query.now.normal.now.branches) }
    ensures steps_in_all { steps.new ≤ steps.old + 2 * search_bound query.now.normal.now query.now.window.now None snapshots.now }
{
    if snapshots.len() == 1 {
        return search_alone(alloc, snapshots, query, steps);
    }
    let branch = &query.normal.branches.as_slice()[0];
    let plan = &query.plans[0];
    let page = page_over_shards(alloc, snapshots, query, branch, plan, steps)?;
    told(alloc, snapshots, query, page, steps)
}

/// The same of one branch over one shard, which gives its results in their order, each once.
fn search_alone<L: Ledger>(
    alloc: Global,
    snapshots: &[ShardSnapshot<'_, L>],
    query: &PlannedQuery<'_>,
    steps: &mut Steps<L>,
) -> Result<Found, NoMemory>
    requires planned { IsPlanned query.now }
    requires single { query.now.normal.now.several ≡ false }
    requires one { length snapshots.now ≡ 1 }
    requires few { length snapshots.now ≤ most_shards }
    requires definitions { All (λ s. query.now.defs.now ≡ s.shard.definitions) snapshots.now }
    ensures found { AreOfShards (length (map entities_in snapshots.now)) 0 (map entities_in snapshots.now)
        → IfOk result (λ f. IsResultOf query.now.normal.now query.now.window.now (all_entities (map entities_in snapshots.now))
        f.results f.next) }
    ensures steps_bounded { IfOk result (λ f. All (λ q. steps.new ≤ (steps.old + search_bound query.now.normal.now query.now.window.now
        (most_of query.now.normal.now query.now.window.now) snapshots.now) + look_ups q.select (length f.results))
        query.now.normal.now.branches) }
    ensures steps_in_all { steps.new ≤ steps.old + 2 * search_bound query.now.normal.now query.now.window.now None snapshots.now }
{
    let branch = &query.normal.branches.as_slice()[0];
    let plan = &query.plans[0];
    let page = page_alone(alloc, &snapshots[0], query, branch, plan, steps)?;
    told(alloc, snapshots, query, page, steps)
}

/// The page of what the shards gave, and what is told of its rows.
pub(crate) fn page_of<L: Ledger>(
    alloc: Global,
    snapshots: &[ShardSnapshot<'_, L>],
    query: &PlannedQuery<'_>,
    rows: Vec<Row>,
    steps: &mut Steps<L>,
) -> Result<Found, NoMemory>
    requires planned { IsPlanned query.now }
    requires some { 1 ≤ length snapshots.now }
    requires few { length snapshots.now ≤ most_shards }
    requires rows { rows.items ≡ map (placed query.now.normal.now.merged)
        (rows_of_shards query.now.normal.now query.now.window.now (map entities_in snapshots.now)) }
    requires placed { All (IsPlaced query.now.normal.now.merged) rows.items }
    ensures found { AreOfShards (length (map entities_in snapshots.now)) 0 (map entities_in snapshots.now)
        → IfOk result (λ f. IsResultOf query.now.normal.now query.now.window.now (all_entities (map entities_in snapshots.now))
        f.results f.next) }
    ensures steps { IfOk result (λ f. All (λ q. steps.new ≡ steps.old + look_ups q.select (length f.results))
        query.now.normal.now.branches) }
    ensures look_ups { steps.new ≤ steps.old + length rows.items }
{
    let page = page_of_all(alloc, snapshots, query, rows)?;
    told(alloc, snapshots, query, page, steps)
}

/// What is told of the rows of a page.
fn told<L: Ledger>(
    alloc: Global,
    snapshots: &[ShardSnapshot<'_, L>],
    query: &PlannedQuery<'_>,
    page: RowPage,
    steps: &mut Steps<L>,
) -> Result<Found, NoMemory>
    requires planned { IsPlanned query.now }
    requires some { 1 ≤ length snapshots.now }
    requires few { length snapshots.now ≤ most_shards }
    ensures found { page ≡ page_over query.now.normal.now query.now.window.now (all_entities (map entities_in snapshots.now))
        → AreOfShards (length (map entities_in snapshots.now)) 0 (map entities_in snapshots.now)
        → IfOk result (λ f. IsResultOf query.now.normal.now query.now.window.now (all_entities (map entities_in snapshots.now))
        f.results f.next) }
    ensures steps { IfOk result (λ f. All (λ q. steps.new ≡ steps.old + look_ups q.select (length f.results))
        query.now.normal.now.branches) }
    ensures look_ups { steps.new ≤ steps.old + length page.rows }
{
    let branch = &query.normal.branches.as_slice()[0];
    let results = items(
        alloc,
        snapshots,
        &query.normal.merged,
        &branch.select,
        page.rows,
        steps,
    )?;
    Ok(Found {
        results,
        next: page.next,
    })
}

/// The page of rows in any order. Where one branch is asked no result is given twice, as each is of one shard.
fn page_of_all<L: Ledger>(
    alloc: Global,
    snapshots: &[ShardSnapshot<'_, L>],
    query: &PlannedQuery<'_>,
    rows: Vec<Row>,
) -> Result<RowPage, NoMemory>
    requires planned { IsPlanned query.now }
    requires rows { rows.items ≡ map (placed query.now.normal.now.merged)
        (rows_of_shards query.now.normal.now query.now.window.now (map entities_in snapshots.now)) }
    requires placed { All (IsPlaced query.now.normal.now.merged) rows.items }
    ensures page { AreOfShards (length (map entities_in snapshots.now)) 0 (map entities_in snapshots.now)
        → IfOk result (λ page. page
        ≡ page_over query.now.normal.now query.now.window.now (all_entities (map entities_in snapshots.now))) }
    ensures few { IfOk result (λ page. length page.rows ≤ length rows.items) }
{
    let normal = query.normal;
    if normal.several {
        page_of_rows(alloc, rows, &normal.merged, &[], query.window)
    } else {
        page_of_results(alloc, rows, query.window)
    }
}
