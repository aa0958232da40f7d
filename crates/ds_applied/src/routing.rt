//! The entries of one commit, each put behind those of its shard.
ghost use Rattle.std.specs.Prelude.{◌≡◌, length, map, All, OnOk};
ghost use Rattle.ds_log.specs.Routing.{IsRouted, entry_of};
ghost use Rattle.ds_applied.specs.AppliedLists.{AppliedShard, entries_of, applied_of};
ghost use Rattle.ds_applied.specs.Routing.{HasRoom, added};

use crate::shard::Shard;
use ds_base::NoMemory;
use ds_log::Routed;

/// Makes room for so many entries in each shard. A refusal changes nothing else.
pub(crate) fn make_room(shards: &mut Vec<Shard>, entries: usize) -> Result<(), NoMemory>
    ensures room { OnOk result (All (HasRoom entries) shards.new.items) }
    ensures entries { entries_of shards.new.items ≡ entries_of shards.old.items }
    ensures applied { applied_of shards.new.items ≡ applied_of shards.old.items }
{
    for i in 0..shards.len() {
        shards[i].reserve(entries)?;
    }
    Ok(())
}

/// Puts each entry behind those of its shard, which has room for it.
pub(crate) fn put_all(shards: &mut Vec<Shard>, routed: Vec<Routed>)
    requires routed { All (IsRouted (length shards.old.items)) routed.items }
    requires room { All (HasRoom (length routed.items)) shards.old.items }
    ensures entries { entries_of shards.new.items
        ≡ added (length shards.old.items) 0 (entries_of shards.old.items) (map entry_of routed.items) }
    ensures applied { applied_of shards.new.items ≡ applied_of shards.old.items }
{
    for one in routed {
        shards[one.shard as usize].push(one.entry);
    }
}
