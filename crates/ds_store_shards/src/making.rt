//! How the desks of the shards are made.
ghost use Rattle.std.specs.Prelude.{◌≡◌, ◌≤◌, [], All, IfOk, length, slice_get, Some};
ghost use Rattle.ds_base.specs.Limits.{most_shards};
ghost use Rattle.ds_shard.specs.States.{begun};
ghost use Rattle.ds_store_hubs.specs.Origins.{origins};

use crate::shard_desk::ShardDesk;
use ds_base::NoMemory;
use ds_hub::Reader;
use ds_log::ShardCommits;
use ds_store_hubs::{JournalState, Names, OpenedShard};
use ds_store_passes::a_reader;
use std::alloc::Global;
use std::collections::VecDeque;
use std::marker::PhantomData;
use std::sync::{Mutex, Wait};

/// What lies under the lock of each shard, by number. A refusal means out of memory.
pub fn shard_desks<J: Names, H: Wait + Drop>(
    alloc: Global,
    opened: Vec<OpenedShard<H>>,
    readers: &mut Vec<Reader<(), JournalState>>,
) -> Result<Vec<Mutex<ShardDesk<J, H>>>, NoMemory>
    requires shards { opened.items ≡ origins J.ledger J.definitions J.window J.shards }
    requires few { (1 ≤ length J.shards) × (length J.shards ≤ most_shards) }
    requires readers { All (λ r. (r.hub ≡ J.journal) × (r.known ≡ [])) readers.old.items }
    ensures { IfOk result (λ desks. length desks.items ≡ length J.shards) }
{
    let shards = opened.len() as u32;
    let mut desks = Vec::with_capacity(alloc, opened.len())?;
    let mut number = 0;
    for shard in opened {
        let journal = a_reader::<J>(readers)?;
        let desk = shard_desk(alloc, number, shards, shard, journal);
        desks.push(Mutex::new(desk))?;
        number += 1;
    }
    Ok(desks)
}

/// What lies under the lock of one shard at first.
fn shard_desk<J: Names, H: Wait + Drop>(
    alloc: Global,
    number: u32,
    shards: u32,
    opened: OpenedShard<H>,
    journal: Reader<(), JournalState>,
) -> ShardDesk<J, H>
    requires hub { slice_get J.shards number ≡ Some opened.0 }
    requires begun { opened.1 ≡ Some (begun J.ledger (record { shards = shards; number = number }) J.definitions J.window) }
    requires journal { (journal.hub ≡ J.journal) × (journal.known ≡ []) }
    requires many { (shards ≡ length J.shards) × (1 ≤ shards) × (shards ≤ most_shards) }
{
    ShardDesk {
        number,
        shards,
        writer: opened.into_writer(),
        journal,
        commits: ShardCommits::new(alloc),
        waiting: VecDeque::new(alloc),
        of: PhantomData,
    }
}
