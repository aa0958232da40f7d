//! Queries with an ancestor over the shard of its group, which a pass has entered.
ghost use Rattle.std.specs.Prelude.{◌≡◌, ◌+◌, ◌*◌, ◌≤◌, ◌<◌, ◌∷◌, [], All, None, IfOk, length};
ghost use Rattle.ds_model.specs.Sessions.{list_of};
ghost use Rattle.ds_engine.specs.Groups.{IsGroupFound, look_ups_of};
ghost use Rattle.ds_engine.specs.Planned.{IsPlanned};
ghost use Rattle.ds_engine.specs.Searches.{most_of, search_bound};
ghost use Rattle.ds_engine.specs.Snapshots.{snapshot_of};

use ds_base::NoMemory;
use ds_engine::{GroupFound, PlannedQuery, query_slot};
use ds_io::Steps;
use ds_store_hubs::Names;
use ds_store_passes::Pass;
use std::alloc::Global;
use std::sync::ledger::Ledger;

/// Answers a query with an ancestor in the shard that was entered, at the stamp of so many entries, and leaves.
pub fn query_in<J: Names, L: Ledger>(
    pass: &mut Pass<J>,
    alloc: Global,
    shard: usize,
    kept: u64,
    entries: u64,
    query: &PlannedQuery<'_>,
    steps: &mut Steps<L>,
) -> Result<GroupFound, NoMemory>
    requires planned { IsPlanned query.now }
    requires definitions { query.now.defs.now ≡ J.definitions }
    requires kept { (kept ≡ J.window) × (1 ≤ J.window) }
    requires ledger { L.parts ≡ J.ledger }
    requires shard { shard < length pass.old.lists }
    requires entries { entries ≤ length (list_of pass.old.lists shard) }
    ensures same { pass.new ≡ pass.old }
    ensures found { IfOk result (IsGroupFound (list_of pass.old.lists shard) J.window entries query.now.normal.now query.now.window.now) }
    ensures steps_bounded { IfOk result (λ f. All (λ q. steps.new ≤ (steps.old
        + search_bound query.now.normal.now query.now.window.now (most_of query.now.normal.now query.now.window.now)
        (snapshot_of J.definitions J.window (list_of pass.old.lists shard) entries ∷ []))
        + look_ups_of q.select f) query.now.normal.now.branches) }
    ensures steps_in_all { steps.new ≤ steps.old + 2 * search_bound query.now.normal.now query.now.window.now None
        (snapshot_of J.definitions J.window (list_of pass.old.lists shard) entries ∷ []) }
{
    let slot = &mut pass.shards[shard];
    let found = query_slot(alloc, slot, kept, entries, query, steps);
    slot.leave();
    found
}
