//! A query over all shards, as readers see them that wait for nobody.
ghost use Rattle.std.specs.Prelude.{◌≡◌, ◌+◌, ◌*◌, ◌≤◌, All, IsTrue, None, map, length, IfOk, OnOk};
ghost use Rattle.ds_base.specs.Limits.{most_shards};
ghost use Rattle.ds_hub.specs.Growing.{AreLonger};
ghost use Rattle.ds_hub.specs.Holding.{hub_in, is_inside, known_in};
ghost use Rattle.ds_engine.specs.Counted.{AreInPlace, FindsGlobally, HasBegun, IsCounted, KnowsOwn, greatest_last};
ghost use Rattle.ds_engine.specs.Planned.{IsPlanned};
ghost use Rattle.ds_engine.specs.Searches.{look_ups, most_of, search_bound};
ghost use Rattle.ds_engine.specs.Snapshots.{newest, newest_of};

use crate::answer::Answer;
use crate::planned::PlannedQuery;
use crate::searching::{Found, search};
use crate::snapshot::ShardSnapshot;
use crate::wide::{AtOnce, search_wide};
use ds_base::{Counts, NoMemory};
use ds_entity::Seen;
use ds_hub::{Slot, enter_all, leave_all};
use ds_indexdef::Defs;
use ds_io::{Gate, Steps};
use ds_log::Entry;
use ds_shard::{ShardState, entries_are_kept};
use std::alloc::{AllocError, Global};
use std::sync::ledger::Ledger;
use std::thread::Threads;

/// Enters all shards, answers a query there, and leaves them. The answer counts all entries that the slots then know. A refusal is want of
/// memory, or comes where a shard's hub has ended.
pub fn query_slots<L: Ledger>(
    alloc: Global,
    slots: &mut [Slot<Entry, ShardState>],
    kept: u64,
    query: &PlannedQuery<'_>,
    steps: &mut Steps<L>,
) -> Result<Answer, NoMemory>
    requires planned { IsPlanned query.now }
    requires begun { All (HasBegun L.parts query.now.defs.now kept) slots.old }
    requires placed { AreInPlace (length slots.old) 0 slots.old }
    requires kept { 1 ≤ kept }
    requires some { 1 ≤ length slots.old }
    requires few { length slots.old ≤ most_shards }
    ensures hubs { map hub_in slots.new ≡ map hub_in slots.old }
    ensures known { AreLonger (map known_in slots.old) (map known_in slots.new) }
    ensures counted { IfOk result (λ a. IsCounted (map known_in slots.new) a.seen a.beside) }
    ensures found { IfOk result (λ a. FindsGlobally (map known_in slots.new) query.now.normal.now query.now.window.now a.results a.next) }
    ensures steps_bounded { IfOk result (λ a. All (λ q. steps.new ≤ (steps.old + search_bound query.now.normal.now query.now.window.now
        (most_of query.now.normal.now query.now.window.now) (newest query.now.defs.now kept (map known_in slots.new)))
        + look_ups q.select (length a.results)) query.now.normal.now.branches) }
    ensures steps_in_all { steps.new ≤ steps.old + 2 * search_bound query.now.normal.now query.now.window.now None
        (newest query.now.defs.now kept (map known_in slots.new)) }
{
    enter(slots)?;
    let answer = answer(alloc, slots, kept, query, steps);
    leave(slots);
    answer
}

/// The same, where the shards are scanned at once and the steps of the scans aren't told: each scan counts on a ledger of its own.
pub fn query_slots_wide<L: Ledger, R: Threads + Sync, G: Gate + Sync>(
    rt: &R,
    alloc: Global,
    slots: &mut [Slot<Entry, ShardState>],
    kept: u64,
    query: &PlannedQuery<'_>,
    at_once: &AtOnce<'_, G>,
    steps: &mut Steps<L>,
) -> Result<Answer, NoMemory>
    requires planned { IsPlanned query.now }
    requires begun { All (HasBegun L.parts query.now.defs.now kept) slots.old }
    requires placed { AreInPlace (length slots.old) 0 slots.old }
    requires kept { 1 ≤ kept }
    requires ledger { (at_once.now.ledger ≡ L.parts) × (1 ≤ at_once.now.ledger) }
    requires some { 1 ≤ length slots.old }
    requires few { length slots.old ≤ most_shards }
    ensures hubs { map hub_in slots.new ≡ map hub_in slots.old }
    ensures known { AreLonger (map known_in slots.old) (map known_in slots.new) }
    ensures counted { IfOk result (λ a. IsCounted (map known_in slots.new) a.seen a.beside) }
    ensures found { IfOk result (λ a. FindsGlobally (map known_in slots.new) query.now.normal.now query.now.window.now a.results a.next) }
{
    enter(slots)?;
    let answer = answer_wide(rt, alloc, slots, kept, query, at_once, steps);
    leave(slots);
    answer
}

/// Enters all shards. A refusal is that a hub has ended, and then none is entered: it never comes where the hubs' writers stand under locks
/// of a store, as those of a running one do.
fn enter(slots: &mut [Slot<Entry, ShardState>]) -> Result<(), NoMemory>
    ensures hubs { map hub_in slots.new ≡ map hub_in slots.old }
    ensures known { AreLonger (map known_in slots.old) (map known_in slots.new) }
    ensures inside { OnOk result (All (λ slot. IsTrue (is_inside slot)) slots.new) }
{
    if enter_all(slots) {
        return Ok(());
    }
    leave(slots);
    Err(AllocError)
}

/// Leaves all shards.
fn leave(slots: &mut [Slot<Entry, ShardState>])
    ensures hubs { map hub_in slots.new ≡ map hub_in slots.old }
    ensures known { map known_in slots.new ≡ map known_in slots.old }
{
    leave_all(slots);
}

/// The answer in shards that are entered.
fn answer<L: Ledger>(
    alloc: Global,
    slots: &[Slot<Entry, ShardState>],
    kept: u64,
    query: &PlannedQuery<'_>,
    steps: &mut Steps<L>,
) -> Result<Answer, NoMemory>
    requires planned { IsPlanned query.now }
    requires inside { All (λ slot. IsTrue (is_inside slot)) slots.now }
    requires begun { All (HasBegun L.parts query.now.defs.now kept) slots.now }
    requires placed { AreInPlace (length slots.now) 0 slots.now }
    requires kept { 1 ≤ kept }
    requires some { 1 ≤ length slots.now }
    requires few { length slots.now ≤ most_shards }
    ensures counted { IfOk result (λ a. IsCounted (map known_in slots.now) a.seen a.beside) }
    ensures found { IfOk result (λ a. FindsGlobally (map known_in slots.now) query.now.normal.now query.now.window.now a.results a.next) }
    ensures steps_bounded { IfOk result (λ a. All (λ q. steps.new ≤ (steps.old + search_bound query.now.normal.now query.now.window.now
        (most_of query.now.normal.now query.now.window.now) (newest query.now.defs.now kept (map known_in slots.now)))
        + look_ups q.select (length a.results)) query.now.normal.now.branches) }
    ensures steps_in_all { steps.new ≤ steps.old + 2 * search_bound query.now.normal.now query.now.window.now None
        (newest query.now.defs.now kept (map known_in slots.now)) }
{
    let snapshots = snapshots_of(alloc, slots, query.defs, kept)?;
    entries_are_kept();
    let found = search(alloc, snapshots.as_slice(), query, steps)?;
    counted(alloc, snapshots.as_slice(), found)
}

fn answer_wide<L: Ledger, R: Threads + Sync, G: Gate + Sync>(
    rt: &R,
    alloc: Global,
    slots: &[Slot<Entry, ShardState>],
    kept: u64,
    query: &PlannedQuery<'_>,
    at_once: &AtOnce<'_, G>,
    steps: &mut Steps<L>,
) -> Result<Answer, NoMemory>
    requires ledger { (at_once.now.ledger ≡ L.parts) × (1 ≤ at_once.now.ledger) }
    requires planned { IsPlanned query.now }
    requires inside { All (λ slot. IsTrue (is_inside slot)) slots.now }
    requires begun { All (HasBegun L.parts query.now.defs.now kept) slots.now }
    requires placed { AreInPlace (length slots.now) 0 slots.now }
    requires kept { 1 ≤ kept }
    requires some { 1 ≤ length slots.now }
    requires few { length slots.now ≤ most_shards }
    ensures counted { IfOk result (λ a. IsCounted (map known_in slots.now) a.seen a.beside) }
    ensures found { IfOk result (λ a. FindsGlobally (map known_in slots.now) query.now.normal.now query.now.window.now a.results a.next) }
{
    let snapshots = snapshots_of(alloc, slots, query.defs, kept)?;
    entries_are_kept();
    let found = search_wide(rt, alloc, snapshots.as_slice(), query, at_once, steps)?;
    counted(alloc, snapshots.as_slice(), found)
}

/// The shards that are entered, each with all that it has absorbed. A refusal means out of memory.
fn snapshots_of<'a, L: Ledger>(
    alloc: Global,
    slots: &'a [Slot<Entry, ShardState>],
    defs: &Defs,
    kept: u64,
) -> Result<Vec<ShardSnapshot<'a, L>>, NoMemory>
    requires inside { All (λ slot. IsTrue (is_inside slot)) slots.now }
    requires begun { All (HasBegun L.parts defs.now kept) slots.now }
    requires kept { 1 ≤ kept }
    ensures snapshots { IfOk result (λ s. s.items ≡ newest defs.now kept (map known_in slots.now)) }
    ensures own { OnOk result (All KnowsOwn slots.now) }
{
    let mut snapshots = Vec::with_capacity(alloc, slots.len())?;
    for slot in slots {
        snapshots.push(snapshot_of(slot, defs, kept))?;
    }
    Ok(snapshots)
}

/// A shard that is entered, with all that it has absorbed, which are entries of this shard.
fn snapshot_of<'a, L: Ledger>(
    slot: &'a Slot<Entry, ShardState>,
    defs: &Defs,
    kept: u64,
) -> ShardSnapshot<'a, L>
    requires inside { IsTrue (is_inside slot.now) }
    requires begun { HasBegun L.parts defs.now kept slot.now }
    requires kept { 1 ≤ kept }
    ensures snapshot { result ≡ newest_of defs.now kept slot.now.known }
    ensures own { KnowsOwn slot.now }
{
    let Some(state) = slot.state() else {
        unreachable!()
    };
    entries_are_kept();
    let shard = state.tables::<L>();
    ShardSnapshot::newest(&shard)
}

/// What was found, with the counts of the snapshots, and the greatest commit of their last entries.
fn counted<L: Ledger>(
    alloc: Global,
    snapshots: &[ShardSnapshot<'_, L>],
    found: Found,
) -> Result<Answer, NoMemory>
    ensures results { IfOk result (λ a. a.results ≡ found.results) }
    ensures next { IfOk result (λ a. a.next ≡ found.next) }
    ensures seen { IfOk result (λ a. a.seen ≡ Seen.Counts (map (λ s. s.stamp) snapshots.now)) }
    ensures beside { IfOk result (λ a. a.beside ≡ greatest_last snapshots.now) }
{
    let counts = counts_of(alloc, snapshots)?;
    Ok(Answer {
        results: found.results,
        next: found.next,
        seen: Seen::Counts(counts),
        beside: greatest_last(snapshots),
    })
}

fn counts_of<L: Ledger>(
    alloc: Global,
    snapshots: &[ShardSnapshot<'_, L>],
) -> Result<Counts, NoMemory>
    ensures { IfOk result (λ counts. counts ≡ map (λ s. s.stamp) snapshots.now) }
{
    let mut counts = Vec::with_capacity(alloc, snapshots.len())?;
    for snapshot in snapshots {
        counts.push(snapshot.stamp())?;
    }
    Ok(Counts::from(counts))
}

fn greatest_last<L: Ledger>(snapshots: &[ShardSnapshot<'_, L>]) -> u64
    ensures { result ≡ greatest_last snapshots.now }
{
    let mut greatest = 0;
    for snapshot in snapshots {
        greatest = snapshot.last().max(greatest);
    }
    greatest
}
