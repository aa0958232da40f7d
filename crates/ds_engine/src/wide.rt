//! A query over shards that are searched at once.
ghost use Rattle.std.specs.Prelude.{◌≡◌, ℕ, ◌<◌, ◌≤◌, List, All, Option, map, length, slice_index_or, vec_len, IfOk};
ghost use Rattle.ds_base.specs.Limits.{most_shards};
ghost use Rattle.ds_pages.specs.Places.{IsPlaced, placed};
ghost use Rattle.ds_query.specs.declared.row.Row.{Row};
ghost use Rattle.ds_engine.specs.Lanes.{AreLaneRows, AreLanes, IsLaneOf};
ghost use Rattle.ds_engine.specs.Planned.{IsPlanned};
ghost use Rattle.ds_engine.specs.Searches.{AreOfShards, IsResultOf, all_entities, rows_of_shards};
ghost use Rattle.ds_engine.specs.Snapshots.{SnapshotParts, entities_in};

use crate::planned::PlannedQuery;
use crate::rows::{put_rows, put_shard_rows};
use crate::searching::{Found, page_of};
use crate::snapshot::ShardSnapshot;
use ds_base::NoMemory;
use ds_io::{Gate, Steps};
use ds_query::{Row, RowList};
use std::alloc::{AllocError, Global};
use std::marker::Brand;
use std::sync::ledger::{Blank, Ledger};
use std::thread::{self, Threads};

/// How shards are scanned at once.
#[derive(Drop)]
pub struct AtOnce<'a, G> {
    /// What is called before and after each shard's scan, with the shard's number and line 0.
    pub gate: &'a G,
    /// Into how many parts the ledgers are cut, one a scan, on which the scans count: as many as those of the store.
    pub ledger: u64,
}

/// What one shard gives, or that there was no memory.
type Lane = Option<RowList>;

/// What `search` finds, where each shard is scanned in a thread of its own as far as threads can be made. Each scan counts on a ledger
/// of its own, with as many parts as that of the snapshots; so no steps are told but those of the look-ups. A refusal means out of memory.
pub fn search_wide<L: Ledger, R: Threads + Sync, G: Gate + Sync>(
    rt: &R,
    alloc: Global,
    snapshots: &[ShardSnapshot<'_, L>],
    query: &PlannedQuery<'_>,
    at_once: &AtOnce<'_, G>,
    steps: &mut Steps<L>,
) -> Result<Found, NoMemory>
    requires ledger { (at_once.now.ledger ≡ L.parts) × (1 ≤ at_once.now.ledger) }
    requires planned { IsPlanned query.now }
    requires some { 1 ≤ length snapshots.now }
    requires few { length snapshots.now ≤ most_shards }
    requires definitions { All (λ s. query.now.defs.now ≡ s.shard.definitions) snapshots.now }
    ensures found { AreOfShards (length (map entities_in snapshots.now)) 0 (map entities_in snapshots.now)
        → IfOk result (λ f. IsResultOf query.now.normal.now query.now.window.now (all_entities (map entities_in snapshots.now))
        f.results f.next) }
{
    let rows = rows_at_once::<L, Brand, R, G>(rt, alloc, snapshots, query, at_once)?;
    page_of(alloc, snapshots, query, rows, steps)
}

/// The rows of all shards, which are scanned at once. Threads share the snapshots as of a ledger whose type they can share.
fn rows_at_once<L: Ledger, M: Ledger + Send + Sync, R: Threads + Sync, G: Gate + Sync>(
    rt: &R,
    alloc: Global,
    snapshots: &[ShardSnapshot<'_, L>],
    query: &PlannedQuery<'_>,
    at_once: &AtOnce<'_, G>,
) -> Result<Vec<Row>, NoMemory>
    requires ledger { (at_once.now.ledger ≡ M.parts) × (1 ≤ at_once.now.ledger) }
    requires same { M.parts ≡ L.parts }
    requires planned { IsPlanned query.now }
    requires some { 1 ≤ length snapshots.now }
    requires few { length snapshots.now ≤ most_shards }
    requires definitions { All (λ s. query.now.defs.now ≡ s.shard.definitions) snapshots.now }
    ensures rows { IfOk result (λ rows. rows.items ≡ map (placed query.now.normal.now.merged)
        (rows_of_shards query.now.normal.now query.now.window.now (map entities_in snapshots.now))) }
    ensures placed { IfOk result (λ rows. All (IsPlaced query.now.normal.now.merged) rows.items) }
{
    let list = shared::<L, M>(alloc, snapshots)?;
    let shared = list.as_slice();
    let mut lanes = empty_lanes(alloc, shared.len())?;
    scan_all(rt, alloc, shared, query, at_once, lanes.as_mut_slice());
    joined(alloc, shared, query, lanes)
}

/// The same snapshots, counted on another ledger of the store.
fn shared<'a, L: Ledger, M: Ledger>(
    alloc: Global,
    snapshots: &[ShardSnapshot<'a, L>],
) -> Result<Vec<ShardSnapshot<'a, M>>, NoMemory>
    requires same { M.parts ≡ L.parts }
    ensures { IfOk result (λ shared. shared.items ≡ snapshots.now) }
{
    let mut shared = Vec::with_capacity(alloc, snapshots.len())?;
    for snapshot in snapshots {
        shared.push(snapshot.counting_on::<M>())?;
    }
    Ok(shared)
}

fn empty_lanes(alloc: Global, many: usize) -> Result<Vec<Lane>, NoMemory>
    ensures { IfOk result (λ lanes. vec_len lanes ≡ many) }
{
    let mut lanes = Vec::new(alloc);
    for lane in 0..many {
        lanes.push(None)?;
    }
    Ok(lanes)
}

/// Fills each lane by a scan of its shard.
fn scan_all<L: Ledger + Send + Sync, R: Threads + Sync, G: Gate + Sync>(
    rt: &R,
    alloc: Global,
    snapshots: &[ShardSnapshot<'_, L>],
    query: &PlannedQuery<'_>,
    at_once: &AtOnce<'_, G>,
    lanes: &mut [Lane],
)
    requires ledger { (at_once.now.ledger ≡ L.parts) × (1 ≤ at_once.now.ledger) }
    requires planned { IsPlanned query.now }
    requires few { length snapshots.now ≤ most_shards }
    requires definitions { All (λ s. query.now.defs.now ≡ s.shard.definitions) snapshots.now }
    requires some { 1 ≤ length snapshots.now }
    requires lanes { length lanes.old ≡ length snapshots.now }
    ensures { (shard : ℕ) (s : SnapshotParts) (l : Option (List Row)) → shard < length snapshots.now
        → IsLaneOf query.now.normal.now query.now.window.now (slice_index_or snapshots.now shard s) (slice_index_or lanes.new shard l) }
{
    let AtOnce { gate, ledger } = *at_once;
    let scan = |shard: usize, lane: &mut Lane|
        requires { (shard < length snapshots.now) × (length snapshots.now ≤ most_shards) × IsPlanned query.now
            × All (λ s. query.now.defs.now ≡ s.shard.definitions) snapshots.now × (ledger ≡ L.parts) × (1 ≤ ledger) }
        ensures { (s : SnapshotParts) → IsLaneOf query.entry.now.normal.now query.entry.now.window.now (slice_index_or snapshots.entry.now shard s) lane.new }
    {
        gate.before(shard as u32, 0);
        *lane = lane_of(alloc, &snapshots[shard], query, ledger);
        gate.after(shard as u32, 0);
    };
    thread::for_each_mut(rt, lanes, snapshots.len(), &scan);
}

/// What one shard gives.
fn lane_of<L: Ledger>(
    alloc: Global,
    snapshot: &ShardSnapshot<'_, L>,
    query: &PlannedQuery<'_>,
    ledger: u64,
) -> Lane
    requires ledger { (ledger ≡ L.parts) × (1 ≤ ledger) }
    requires planned { IsPlanned query.now }
    requires definitions { query.now.defs.now ≡ snapshot.now.shard.definitions }
    ensures { IsLaneOf query.now.normal.now query.now.window.now snapshot.now result }
{
    scanned::<L, Brand>(Blank::new(ledger), alloc, snapshot, query).ok()
}

/// What one shard gives, by steps on the ledger that the blank becomes.
fn scanned<L: Ledger, M: Ledger>(
    blank: Blank,
    alloc: Global,
    snapshot: &ShardSnapshot<'_, L>,
    query: &PlannedQuery<'_>,
) -> Result<RowList, NoMemory>
    requires name { blank.name ≡ M.name }
    requires parts { blank.parts ≡ M.parts }
    requires some { 1 ≤ blank.parts }
    requires same { M.parts ≡ L.parts }
    requires planned { IsPlanned query.now }
    requires definitions { query.now.defs.now ≡ snapshot.now.shard.definitions }
    ensures { IfOk result (AreLaneRows query.now.normal.now query.now.window.now snapshot.now) }
{
    let mut steps = Steps::<M>::new(blank);
    let snapshot = snapshot.counting_on::<M>();
    let mut rows = Vec::new(alloc);
    put_shard_rows(alloc, &snapshot, query, &mut rows, &mut steps)?;
    Ok(RowList::from(rows))
}

/// The rows of all lanes, one behind the other. They are moved.
fn joined<L: Ledger>(
    alloc: Global,
    snapshots: &[ShardSnapshot<'_, L>],
    query: &PlannedQuery<'_>,
    lanes: Vec<Lane>,
) -> Result<Vec<Row>, NoMemory>
    requires lanes { AreLanes query.now.normal.now query.now.window.now snapshots.now lanes.items }
    ensures rows { IfOk result (λ rows. rows.items ≡ map (placed query.now.normal.now.merged) (rows_of_shards query.now.normal.now query.now.window.now
        (map entities_in snapshots.now))) }
    ensures placed { IfOk result (λ rows. All (IsPlaced query.now.normal.now.merged) rows.items) }
{
    let mut rows = Vec::new(alloc);
    for lane in lanes {
        let Some(list) = lane else {
            return Err(AllocError);
        };
        put_rows(list, &mut rows)?;
    }
    Ok(rows)
}
