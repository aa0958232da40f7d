//! Queries without an ancestor over the shards of a pass.
ghost use Rattle.std.specs.Prelude.{◌≡◌, ◌+◌, ◌*◌, ◌≤◌, All, None, length, map, IfOk, OnErr};
ghost use Rattle.ds_base.specs.Limits.{most_shards};
ghost use Rattle.ds_hub.specs.Growing.{AreLonger};
ghost use Rattle.ds_hub.specs.Holding.{hub_in, known_in};
ghost use Rattle.ds_engine.specs.Counted.{AreInPlace, FindsGlobally, HasBegun, IsCounted};
ghost use Rattle.ds_store_passes.specs.Passes.{HasRead};
ghost use Rattle.ds_engine.specs.Planned.{IsPlanned};
ghost use Rattle.ds_store_reads.specs.Searched.{HasCounted};
ghost use Rattle.ds_engine.specs.Searches.{look_ups, most_of, search_bound};
ghost use Rattle.ds_engine.specs.Snapshots.{newest};

use crate::uncounted::UncountedScans;
use ds_base::NoMemory;
use ds_engine::{Answer, AtOnce, PlannedQuery, query_slots, query_slots_wide};
use ds_hub::Slot;
use ds_io::{Gate, Steps};
use ds_log::Entry;
use ds_shard::ShardState;
use ds_store_hubs::Names;
use ds_store_passes::Pass;
use std::alloc::Global;
use std::marker::Brand;
use std::sync::ledger::{Blank, Ledger};
use std::thread::Threads;

/// Enters all shards, answers a query there and leaves them; the place is then no lower than the last commit of the counted entries.
pub fn query<J: Names, L: Ledger>(
    pass: &mut Pass<J>,
    alloc: Global,
    kept: u64,
    query: &PlannedQuery<'_>,
    steps: &mut Steps<L>,
) -> Result<Answer, NoMemory>
    requires planned { IsPlanned query.now }
    requires definitions { query.now.defs.now ≡ J.definitions }
    requires kept { (kept ≡ J.window) × (1 ≤ J.window) }
    requires ledger { L.parts ≡ J.ledger }
    ensures counted { IfOk result (λ a. HasCounted pass.old pass.new a.seen a.beside) }
    ensures found { IfOk result (λ a. FindsGlobally pass.new.lists query.now.normal.now query.now.window.now a.results a.next) }
    ensures steps_bounded { IfOk result (λ a. All (λ q. steps.new ≤ (steps.old
        + search_bound query.now.normal.now query.now.window.now (most_of query.now.normal.now query.now.window.now)
        (newest J.definitions J.window pass.new.lists)) + look_ups q.select (length a.results)) query.now.normal.now.branches) }
    ensures steps_in_all { steps.new ≤ steps.old + 2 * search_bound query.now.normal.now query.now.window.now None
        (newest J.definitions J.window pass.new.lists) }
    ensures read { OnErr result (HasRead pass.old pass.new) }
{
    let answer = query_shards(alloc, &mut pass.shards, kept, query, steps)?;
    pass.place = pass.place.max(answer.beside);
    Ok(answer)
}

/// The same, where the shards are scanned at once: the look-ups count, and the scans count on ledgers of their own, so nothing is told of
/// the steps.
pub fn query_wide<J: Names, L: Ledger, R: Threads + Sync, G: Gate + Sync>(
    rt: &R,
    pass: &mut Pass<J>,
    alloc: Global,
    kept: u64,
    query: &PlannedQuery<'_>,
    uncounted: &UncountedScans<'_, J, G>,
    steps: &mut Steps<L>,
) -> Result<Answer, NoMemory>
    requires planned { IsPlanned query.now }
    requires definitions { query.now.defs.now ≡ J.definitions }
    requires kept { (kept ≡ J.window) × (1 ≤ J.window) }
    requires ledger { L.parts ≡ J.ledger }
    ensures counted { IfOk result (λ a. HasCounted pass.old pass.new a.seen a.beside) }
    ensures found { IfOk result (λ a. FindsGlobally pass.new.lists query.now.normal.now query.now.window.now a.results a.next) }
    ensures read { OnErr result (HasRead pass.old pass.new) }
{
    let at_once = AtOnce {
        gate: uncounted.gate,
        ledger: uncounted.right.ledgers.parts(),
    };
    let answer = query_shards_wide(rt, alloc, &mut pass.shards, kept, query, &at_once, steps)?;
    pass.place = pass.place.max(answer.beside);
    Ok(answer)
}

/// The same, where the look-ups count on a ledger of their own too.
pub fn query_uncounted<J: Names, R: Threads + Sync, G: Gate + Sync>(
    rt: &R,
    pass: &mut Pass<J>,
    alloc: Global,
    kept: u64,
    query: &PlannedQuery<'_>,
    uncounted: &UncountedScans<'_, J, G>,
) -> Result<Answer, NoMemory>
    requires planned { IsPlanned query.now }
    requires definitions { query.now.defs.now ≡ J.definitions }
    requires kept { (kept ≡ J.window) × (1 ≤ J.window) }
    ensures counted { IfOk result (λ a. HasCounted pass.old pass.new a.seen a.beside) }
    ensures found { IfOk result (λ a. FindsGlobally pass.new.lists query.now.normal.now query.now.window.now a.results a.next) }
    ensures read { OnErr result (HasRead pass.old pass.new) }
{
    let blank = Blank::new(uncounted.right.ledgers.parts());
    query_on::<J, Brand, R, G>(blank, rt, pass, alloc, kept, query, uncounted)
}

/// The same on the ledger that the blank becomes.
fn query_on<J: Names, L: Ledger, R: Threads + Sync, G: Gate + Sync>(
    blank: Blank,
    rt: &R,
    pass: &mut Pass<J>,
    alloc: Global,
    kept: u64,
    query: &PlannedQuery<'_>,
    uncounted: &UncountedScans<'_, J, G>,
) -> Result<Answer, NoMemory>
    requires name { blank.name ≡ L.name }
    requires parts { blank.parts ≡ L.parts }
    requires some { 1 ≤ blank.parts }
    requires planned { IsPlanned query.now }
    requires definitions { query.now.defs.now ≡ J.definitions }
    requires kept { (kept ≡ J.window) × (1 ≤ J.window) }
    requires ledger { L.parts ≡ J.ledger }
    ensures counted { IfOk result (λ a. HasCounted pass.old pass.new a.seen a.beside) }
    ensures found { IfOk result (λ a. FindsGlobally pass.new.lists query.now.normal.now query.now.window.now a.results a.next) }
    ensures read { OnErr result (HasRead pass.old pass.new) }
{
    let mut steps = Steps::<L>::new(blank);
    query_wide(rt, pass, alloc, kept, query, uncounted, &mut steps)
}

/// What a query finds in these shards, which are entered and left.
fn query_shards<L: Ledger>(
    alloc: Global,
    shards: &mut Vec<Slot<Entry, ShardState>>,
    kept: u64,
    query: &PlannedQuery<'_>,
    steps: &mut Steps<L>,
) -> Result<Answer, NoMemory>
    requires planned { IsPlanned query.now }
    requires begun { All (HasBegun L.parts query.now.defs.now kept) shards.old.items }
    requires placed { AreInPlace (length shards.old.items) 0 shards.old.items }
    requires kept { 1 ≤ kept }
    requires some { 1 ≤ length shards.old.items }
    requires few { length shards.old.items ≤ most_shards }
    ensures hubs { map hub_in shards.new.items ≡ map hub_in shards.old.items }
    ensures known { AreLonger (map known_in shards.old.items) (map known_in shards.new.items) }
    ensures counted { IfOk result (λ a. IsCounted (map known_in shards.new.items) a.seen a.beside) }
    ensures found { IfOk result (λ a. FindsGlobally (map known_in shards.new.items) query.now.normal.now query.now.window.now a.results
        a.next) }
    ensures steps_bounded { IfOk result (λ a. All (λ q. steps.new ≤ (steps.old
        + search_bound query.now.normal.now query.now.window.now (most_of query.now.normal.now query.now.window.now)
        (newest query.now.defs.now kept (map known_in shards.new.items))) + look_ups q.select (length a.results))
        query.now.normal.now.branches) }
    ensures steps_in_all { steps.new ≤ steps.old + 2 * search_bound query.now.normal.now query.now.window.now None
        (newest query.now.defs.now kept (map known_in shards.new.items)) }
{
    query_slots(alloc, shards.as_mut_slice(), kept, query, steps)
}

/// The same, where the shards are scanned at once.
fn query_shards_wide<L: Ledger, R: Threads + Sync, G: Gate + Sync>(
    rt: &R,
    alloc: Global,
    shards: &mut Vec<Slot<Entry, ShardState>>,
    kept: u64,
    query: &PlannedQuery<'_>,
    at_once: &AtOnce<'_, G>,
    steps: &mut Steps<L>,
) -> Result<Answer, NoMemory>
    requires planned { IsPlanned query.now }
    requires begun { All (HasBegun L.parts query.now.defs.now kept) shards.old.items }
    requires placed { AreInPlace (length shards.old.items) 0 shards.old.items }
    requires kept { 1 ≤ kept }
    requires ledger { (at_once.now.ledger ≡ L.parts) × (1 ≤ at_once.now.ledger) }
    requires some { 1 ≤ length shards.old.items }
    requires few { length shards.old.items ≤ most_shards }
    ensures hubs { map hub_in shards.new.items ≡ map hub_in shards.old.items }
    ensures known { AreLonger (map known_in shards.old.items) (map known_in shards.new.items) }
    ensures counted { IfOk result (λ a. IsCounted (map known_in shards.new.items) a.seen a.beside) }
    ensures found { IfOk result (λ a. FindsGlobally (map known_in shards.new.items) query.now.normal.now query.now.window.now a.results
        a.next) }
{
    query_slots_wide(
        rt,
        alloc,
        shards.as_mut_slice(),
        kept,
        query,
        at_once,
        steps,
    )
}
