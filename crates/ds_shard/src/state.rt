//! A shard as the state of a hub.
ghost use Rattle.std.specs.Prelude.{◌≡◌, ◌≤◌, IfOk};
ghost use Rattle.ds_shard.specs.States.{begun};

use crate::shard::Shard;
use crate::tables::ShardTables;
use ds_base::NoMemory;
use ds_hub::Absorb;
use ds_indexdef::Defs;
use ds_log::Entry;
use std::alloc::{AllocError, Global};
use std::marker::Model;
use std::sync::ledger::Ledger;

/// The count at which no further entry is absorbed. No journal grows so long.
const MOST_ENTRIES: u64 = 0x4000_0000_0000_0000;

/// A shard as the state of a hub, which keeps two copies of it: each absorbs the same entries in the same order. It lends no shard, and its
/// tables on ledgers of its store alone: those that are cut into as many parts as it says. It knows which shard it is, of how many, so
/// that its hub takes in entries of this shard alone.
///
/// Contracts see that number, its place, and the shard.
#[derive(Drop)]
pub struct ShardState {
    shard: Shard,
    ledger: u64,
    shards: u32,
    number: u32,
}

impl Model for ShardState {
    ghost use Rattle.ds_shard.specs.States.{StateParts};

    ghost Value = { StateParts };

    ghost view = { λ s. record {
      ledger = s.ledger;
      place = record { shards = s.shards; number = s.number };
      shard = s.shard;
    } };
}

impl ShardState {
    /// The two copies of the shard of this number, of so many, that has absorbed no entry, with these definitions and a window of 1 to
    /// 65,536 stamps, whose seeks and look-ups count on ledgers of so many parts. A refusal is lack of memory.
    pub fn make_both(
        alloc: Global,
        defs: &Defs,
        window: u64,
        ledger: u64,
        shards: u32,
        number: u32,
    ) -> Result<(ShardState, ShardState), NoMemory>
        requires least { 1 ≤ window }
        requires most { window ≤ 65536 }
        ensures first { IfOk result (λ both. both.0 ≡ begun ledger (record { shards = shards; number = number }) defs.now window) }
        ensures second { IfOk result (λ both. both.1 ≡ begun ledger (record { shards = shards; number = number }) defs.now window) }
    {
        let first = Shard::make(alloc, defs, window)?;
        let second = Shard::make(alloc, defs, window)?;
        Ok((
            ShardState {
                shard: first,
                ledger,
                shards,
                number,
            },
            ShardState {
                shard: second,
                ledger,
                shards,
                number,
            },
        ))
    }

    /// The shard as tables whose seeks and look-ups count on one ledger of the store. A ledger that somebody opens for himself isn't known
    /// to have as many parts, so nobody looks here without counting where he is asked to. It takes no memory.
    pub fn tables<L: Ledger>(&self) -> ShardTables<'_, L>
        requires ledger { L.parts ≡ self.now.ledger }
        ensures { result ≡ self.now.shard }
    {
        ShardTables::new(&self.shard)
    }
}

impl Absorb<Entry> for ShardState {
    ghost use Rattle.ds_shard.specs.States.{state_after, IsOfShard};

    type State = ShardState;

    type Told = Entry;

    ghost state = { λ s. s };

    ghost applied = { state_after };

    ghost asks = { λ told. told };

    ghost belongs = { λ start entry. IsOfShard start.place entry };

    /// Absorbs the entry. It refuses where memory is wanted, and at a count of 2^62 entries, which is as far away.
    fn absorb(&mut self, entry: &Entry) -> Result<(), NoMemory> {
        if self.shard.count() >= MOST_ENTRIES {
            return Err(AllocError);
        }
        self.shard.absorb(entry)
    }
}
