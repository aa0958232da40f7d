//! Looking a key up in a shard that a pass has entered.
ghost use Rattle.std.specs.Prelude.{◌≡◌, ◌+◌, ◌≤◌, ◌<◌, IfOk, length};
ghost use Rattle.ds_engine.specs.Counted.{HasBegun};
ghost use Rattle.ds_model.specs.Sessions.{list_of};
ghost use Rattle.ds_store_reads.specs.Found.{IsFound};

use crate::entity_at::{entity_at, keeps_stamp};
use ds_base::{Key, NoMemory};
use ds_engine::shard_in;
use ds_entity::Entity;
use ds_hub::Slot;
use ds_io::Steps;
use ds_log::Entry;
use ds_shard::{ShardState, entries_are_kept};
use ds_store_hubs::Names;
use ds_store_passes::{Expired, Pass};
use std::alloc::Global;
use std::sync::ledger::Ledger;

/// What a look-up at the stamp of so many entries finds.
#[derive(Drop)]
pub enum Found {
    /// The entity, if there is one.
    There(Option<Entity>),
    /// The stamp isn't kept any more.
    Gone(Expired),
}

/// Looks a key up in the shard that was entered, at the stamp of so many entries, and leaves. It takes one step at most. A refusal means
/// out of memory, or that the shard wasn't entered.
pub fn look_up<J: Names, L: Ledger>(
    pass: &mut Pass<J>,
    alloc: Global,
    shard: usize,
    entries: u64,
    window: u64,
    key: &Key,
    steps: &mut Steps<L>,
) -> Result<Found, NoMemory>
    requires shard { shard < length pass.old.lists }
    requires entries { entries ≤ length (list_of pass.old.lists shard) }
    requires window { (window ≡ J.window) × (1 ≤ J.window) }
    requires ledger { L.parts ≡ J.ledger }
    ensures same { pass.new ≡ pass.old }
    ensures found { IfOk result (λ found. IsFound (list_of pass.old.lists shard) entries J.window key.now found) }
    ensures step { steps.new ≤ steps.old + 1 }
{
    let slot = &mut pass.shards[shard];
    let found = found_in::<J, L>(alloc, slot, entries, window, key, steps);
    slot.leave();
    found
}

/// What the shard that a slot has entered holds for a key, at the stamp of so many entries.
fn found_in<J: Names, L: Ledger>(
    alloc: Global,
    slot: &Slot<Entry, ShardState>,
    entries: u64,
    window: u64,
    key: &Key,
    steps: &mut Steps<L>,
) -> Result<Found, NoMemory>
    requires start { HasBegun L.parts J.definitions J.window slot.now }
    requires entries { entries ≤ length slot.now.known }
    requires window { (window ≡ J.window) × (1 ≤ J.window) }
    ensures found { IfOk result (λ found. IsFound slot.now.known entries J.window key.now found) }
    ensures step { steps.new ≤ steps.old + 1 }
{
    let shard = shard_in::<L>(slot)?;
    entries_are_kept();
    if !keeps_stamp(&shard, window, entries) {
        return Ok(Found::Gone(Expired {
            snapshot: entries,
            applied: shard.count(),
            commit: shard.last(),
        }));
    }
    let entity = entity_at(alloc, &shard, entries, key, steps)?;
    Ok(Found::There(entity))
}
