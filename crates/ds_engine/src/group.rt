//! A query in the shard of its ancestor's group.
ghost use Rattle.std.specs.Prelude.{◌≡◌, ◌+◌, ◌*◌, ◌≤◌, [], ◌∷◌, All, None, length, IfOk};
ghost use Rattle.ds_engine.specs.Counted.{HasBegun};
ghost use Rattle.ds_engine.specs.Groups.{IsGroupFound, look_ups_of};
ghost use Rattle.ds_engine.specs.Planned.{IsPlanned};
ghost use Rattle.ds_engine.specs.Searches.{most_of, search_bound};
ghost use Rattle.ds_engine.specs.Snapshots.{snapshot_of};

use crate::entered::shard_in;
use crate::planned::PlannedQuery;
use crate::searching::{Found, search};
use crate::snapshot::ShardSnapshot;
use ds_base::NoMemory;
use ds_hub::Slot;
use ds_io::Steps;
use ds_log::Entry;
use ds_shard::{ShardState, entries_are_kept};
use std::alloc::Global;
use std::sync::ledger::Ledger;

/// What a query finds in one shard at a stamp.
#[derive(Drop)]
pub enum GroupFound {
    /// What it found.
    There(Found),
    /// The stamp isn't kept any more.
    Gone {
        /// How many entries the shard has absorbed.
        applied: u64,
        /// The commit of the last one, 0 where there is none.
        commit: u64,
    },
}

/// What a query with an ancestor finds in a shard that is entered, at the stamp of so many entries. A refusal means out of memory, or that
/// the shard isn't entered.
pub fn query_slot<L: Ledger>(
    alloc: Global,
    slot: &Slot<Entry, ShardState>,
    kept: u64,
    stamp: u64,
    query: &PlannedQuery<'_>,
    steps: &mut Steps<L>,
) -> Result<GroupFound, NoMemory>
    requires planned { IsPlanned query.now }
    requires begun { HasBegun L.parts query.now.defs.now kept slot.now }
    requires kept { 1 ≤ kept }
    requires stamp { stamp ≤ length slot.now.known }
    ensures found { IfOk result (IsGroupFound slot.now.known kept stamp query.now.normal.now query.now.window.now) }
    ensures steps_bounded { IfOk result (λ f. All (λ q. steps.new ≤ (steps.old + search_bound query.now.normal.now query.now.window.now
        (most_of query.now.normal.now query.now.window.now) (snapshot_of query.now.defs.now kept slot.now.known stamp ∷ []))
        + look_ups_of q.select f) query.now.normal.now.branches) }
    ensures steps_in_all { steps.new ≤ steps.old + 2 * search_bound query.now.normal.now query.now.window.now None
        (snapshot_of query.now.defs.now kept slot.now.known stamp ∷ []) }
{
    let shard = shard_in::<L>(slot)?;
    entries_are_kept();
    match ShardSnapshot::of(&shard, stamp, kept) {
        Some(snapshot) => {
            let found = search(alloc, &[snapshot], query, steps)?;
            Ok(GroupFound::There(found))
        }
        None => Ok(GroupFound::Gone {
            applied: shard.count(),
            commit: shard.last(),
        }),
    }
}
