//! Shards that a reader has entered.
ghost use Rattle.std.specs.Prelude.{◌≡◌, ℕ, List, IfOk, IfSome};
ghost use Rattle.ds_indexdef.specs.declared.IndexDef.{IndexDef};
ghost use Rattle.ds_shard.specs.Shards.{shard_of_entries};
ghost use Rattle.ds_engine.specs.Counted.{HasBegun};

use ds_base::NoMemory;
use ds_hub::Slot;
use ds_log::Entry;
use ds_shard::{ShardState, ShardTables};
use std::alloc::AllocError;
use std::sync::ledger::Ledger;

/// The shard that a slot has entered, read on one of its ledgers: all that is known of it is absorbed. A refusal is that the slot isn't
/// entered, which it is wherever a store let its reader stand: only the slot knows.
pub fn shard_in<L: Ledger>(slot: &Slot<Entry, ShardState>) -> Result<ShardTables<'_, L>, NoMemory>
    requires ledger { IfSome slot.now.start (λ begins. begins.ledger ≡ L.parts) }
    ensures { IfOk result (λ shard. (definitions : List IndexDef) (kept : ℕ) → HasBegun L.parts definitions kept slot.now
        → shard ≡ shard_of_entries definitions kept slot.now.known) }
{
    match slot.state() {
        Some(state) => Ok(state.tables::<L>()),
        None => Err(AllocError),
    }
}
