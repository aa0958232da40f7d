//! The entity of a key in a shard, at a stamp.
ghost use Rattle.std.specs.Prelude.{◌≡◌, ◌+◌, ◌≤◌, ℕ, List, IfOk, IsTrue};
ghost use Rattle.ds_indexdef.specs.declared.IndexDef.{IndexDef};
ghost use Rattle.ds_log.specs.declared.Entry.{Entry};
ghost use Rattle.ds_model.specs.ByKey.{left_by};
ghost use Rattle.ds_model.specs.Results.{entity_of};
ghost use Rattle.ds_shard.specs.Shards.{keeps, shard_of_entries};

use ds_base::{Key, NoMemory, copy_of};
use ds_entity::Entity;
use ds_io::Steps;
use ds_rows::Tables;
use ds_shard::{ShardTables, entries_are_kept};
use std::alloc::Global;
use std::sync::ledger::Ledger;

/// The entity of a key at a stamp that the shard keeps, if there is one: as many of the shard's entries as the stamp says leave it. It
/// is a copy, which shares the properties. It takes one step. A refusal means out of memory.
pub(crate) fn entity_at<L: Ledger>(
    alloc: Global,
    shard: &ShardTables<'_, L>,
    stamp: u64,
    key: &Key,
    steps: &mut Steps<L>,
) -> Result<Option<Entity>, NoMemory>
    requires { IsTrue (keeps shard.now stamp) }
    ensures step { steps.new ≡ steps.old + 1 }
    ensures found { (definitions : List IndexDef) (window : ℕ) (entries : List Entry) → 1 ≤ window
        → shard.now ≡ shard_of_entries definitions window entries
        → IfOk result (λ found. found ≡ entity_of (left_by entries stamp) key.now) }
{
    entries_are_kept();
    copy_of(alloc, shard.entity(stamp, key, steps))
}

/// Whether a shard with this window keeps a stamp, which isn't above its count.
pub(crate) fn keeps_stamp<L: Ledger>(shard: &ShardTables<'_, L>, window: u64, stamp: u64) -> bool
    requires window { shard.now.window ≡ window }
    requires stamp { stamp ≤ shard.now.count }
    ensures { result ≡ keeps shard.now stamp }
{
    shard.count() - stamp < window
}
