//! Which shard an entity group belongs to.
ghost use Rattle.std.specs.Prelude.{◌≡◌, ◌≤◌, ◌<◌, IfOk};
ghost use Rattle.ds_base.specs.Limits.{most_shards};
ghost use Rattle.ds_log.specs.Shards.{shard_of};

use crate::hash::fnv1a;
use ds_base::{Buffer, Key, NoMemory};
use ds_bytes::encode_key;
use std::alloc::Global;

/// Room for the bytes of most root keys, so that they don't move as they grow.
const KEY_ROOM: usize = 64;

/// The shard of the entity group with this root key, counted from 0: the hash of the key's ascending encoding, modulo the
/// number of shards, which is from 1 to 16.
pub fn shard_of(alloc: Global, group: &Key, shards: u32) -> Result<u32, NoMemory>
    requires least { 1 ≤ shards }
    requires most { shards ≤ most_shards }
    ensures value { IfOk result (λ shard. shard ≡ shard_of group.now shards) }
    ensures below { IfOk result (λ shard. shard < shards) }
{
    let mut bytes = Buffer::new(alloc);
    bytes.make_room(KEY_ROOM)?;
    encode_key(group, false, &mut bytes)?;
    Ok((fnv1a(bytes.bytes()) % u64::from(shards)) as u32)
}
