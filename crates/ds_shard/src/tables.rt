//! A shard as tables that queries are answered from.
ghost use Rattle.std.specs.Prelude.{◌≡◌};

use crate::shard::Shard;
use ds_base::Key;
use ds_entity::Entity;
use ds_io::Steps;
use ds_rows::Tables;
use std::marker::{Model, PhantomData};
use std::sync::ledger::Ledger;

/// A shard whose seeks and look-ups count on one ledger. Contracts see the shard.
#[derive(Drop)]
pub struct ShardTables<'a, L> {
    shard: &'a Shard,
    counted_on: PhantomData<L>,
}

impl<'a, L> Model for ShardTables<'a, L> {
    ghost use Rattle.ds_shard.specs.Shards.{ShardParts};

    ghost Value = { ShardParts };

    ghost view = { λ t. t.shard.now };
}

impl<'a, L> ShardTables<'a, L> {
    pub(crate) fn new(shard: &'a Shard) -> ShardTables<'a, L>
        ensures { result ≡ shard.now }
    {
        ShardTables {
            shard,
            counted_on: PhantomData,
        }
    }
}

impl<'a, L: Ledger> ShardTables<'a, L> {
    /// How many entries the shard has absorbed: the stamp of the last one. It takes no memory.
    pub fn count(&self) -> u64
        ensures { result ≡ self.now.count }
    {
        self.shard.count()
    }

    /// The commit of the last entry that the shard has absorbed, 0 where there is none. It takes no memory.
    pub fn last(&self) -> u64
        ensures { result ≡ self.now.last }
    {
        self.shard.last()
    }

    /// The same tables, counted on another ledger of the store, which is cut into as many parts. It takes no memory.
    pub fn counting_on<M: Ledger>(&self) -> ShardTables<'a, M>
        requires parts { M.parts ≡ L.parts }
        ensures { result ≡ self.now }
    {
        ShardTables::new(self.shard)
    }
}

impl<'a, L: Ledger> Tables for ShardTables<'a, L> {
    ghost use Rattle.ds_shard.specs.Shards.{ShardParts, keeps};

    ghost ledger = { L.name };

    ghost definitions = { λ (s : ShardParts). s.definitions };

    ghost keeps = { keeps };

    ghost versions = { λ (s : ShardParts). s.versions };

    fn seek<M: Ledger>(
        &self,
        at: u64,
        at_least: &[u8],
        below: Option<&[u8]>,
        steps: &mut Steps<M>,
    ) -> Option<&[u8]> {
        let mut near = 0;
        self.seek_near(at, at_least, below, &mut near, steps)
    }

    fn seek_near<M: Ledger>(
        &self,
        at: u64,
        at_least: &[u8],
        below: Option<&[u8]>,
        near: &mut u64,
        steps: &mut Steps<M>,
    ) -> Option<&[u8]> {
        self.shard.view(at).seek_near(at_least, below, near, steps)
    }

    fn stand(&self, at: u64) {
        let _view = self.shard.view(at);
    }

    fn entity<M: Ledger>(&self, at: u64, key: &Key, steps: &mut Steps<M>) -> Option<&Entity> {
        steps.tick();
        self.shard.entity(at, key)
    }
}
