//! One shard.
ghost use Rattle.std.specs.Prelude.{◌≡◌, ◌<◌, ◌≤◌, ◌^◌, IfOk, OnOk, OnErr, find, IsTrue};
ghost use Rattle.std.specs.Option.{option_copied};
ghost use Rattle.ds_entity.specs.Entities.{EntityParts};
ghost use Rattle.ds_base.specs.KeyOrder.{same_key};
ghost use Rattle.ds_rows.specs.Versions.{entities_at, AreTables};
ghost use Rattle.ds_table.specs.Versions.{never};
ghost use Rattle.ds_shard.specs.Contents.{HaveSame};
ghost use Rattle.ds_shard.specs.Rows.{rows_of_versions};
ghost use Rattle.ds_shard.specs.Shards.{floor_of, empty, absorbed, keeps};

use crate::contents::Contents;
use ds_base::{Key, NoMemory, TryCopy};
use ds_entity::Entity;
use ds_indexdef::Defs;
use ds_log::Entry;
use ds_table::TableView;
use std::alloc::Global;
use std::marker::Model;

/// One shard: how many log entries it has absorbed, the versions of its entities, and the table of their index rows. An entry's
/// stamp is its number, from 1; the shard keeps what a window of stamps up to its count sees.
///
/// Contracts see the definitions of composite indexes, the window, the count, the commit of the last entry, and the versions.
#[derive(Drop)]
pub struct Shard {
    window: u64,
    count: u64,
    last: u64,
    contents: Contents,
}

impl Model for Shard {
    ghost use Rattle.ds_shard.specs.Shards.{ShardParts, IsShard};

    ghost Value = { ShardParts };

    ghost view = { λ s. record {
      definitions = s.contents.definitions;
      window = s.window;
      count = s.count;
      last = s.last;
      versions = s.contents.entities;
    } };

    ghost invariant = { λ s. IsShard s.window s.count s.contents };
}

impl Shard {
    /// A shard that has absorbed no entry, with a copy of the definitions, and a window of 1 to 65,536 stamps. A refusal is want of
    /// memory.
    pub fn make(alloc: Global, defs: &Defs, window: u64) -> Result<Shard, NoMemory>
        requires least { 1 ≤ window }
        requires most { window ≤ 65536 }
        ensures { IfOk result (λ s. s ≡ empty defs.now window) }
    {
        let defs = defs.copy(alloc)?;
        Ok(Shard {
            window,
            count: 0,
            last: 0,
            contents: Contents::new(alloc, defs),
        })
    }

    /// How many entries it has absorbed: the stamp of the last one. It takes no memory.
    pub fn count(&self) -> u64
        ensures { result ≡ self.now.count }
    {
        self.count
    }

    /// The commit of the last entry, 0 where there is none. It takes no memory.
    pub fn last(&self) -> u64
        ensures { result ≡ self.now.last }
    {
        self.last
    }

    /// Absorbs the next entry, of fewer than 2^62: at the next stamp the rows of replaced and deleted entities are closed and those
    /// of put entities are added, and then the versions are taken out, with their entities and rows, that no stamp of the window
    /// sees any more. A refusal, which means out of memory, changes nothing.
    ///
    /// It takes time by the rows of the entities that are written, old and new; their properties are shared with the entry.
    pub fn absorb(&mut self, entry: &Entry) -> Result<(), NoMemory>
        requires { self.old.count < 2 ^ 62 }
        ensures ok { OnOk result (self.new ≡ absorbed self.old entry.now) }
        ensures err { OnErr result (self.new ≡ self.old) }
    {
        let stamp = self.count + 1;
        self.contents.absorb(stamp, entry.writes.as_slice())?;
        self.contents.trim(floor_of(self.window, stamp));
        self.count = stamp;
        self.last = entry.commit;
        Ok(())
    }

    /// The table of rows at the stamp.
    pub(crate) fn view(&self, stamp: u64) -> TableView<'_>
        requires { IsTrue (keeps self.now stamp) }
        ensures stamp { result.stamp ≡ stamp }
        ensures a_stamp { stamp < never }
        ensures rows { HaveSame result.versions (rows_of_versions self.now.definitions self.now.versions) }
        ensures tables { AreTables self.now.definitions stamp self.now.versions }
    {
        self.contents.view(stamp)
    }

    /// The entity of this key that is seen at the stamp; `None` exactly where there is none.
    pub(crate) fn entity(&self, stamp: u64, key: &Key) -> Option<&Entity>
        requires { IsTrue (keeps self.now stamp) }
        ensures { option_copied result ≡ find (λ (e : EntityParts). same_key e.key key.now) (entities_at stamp self.now.versions) }
    {
        self.contents.seen_at(stamp, key)
    }
}

/// The least stamp of the window: 0 as long as the count is below the window.
fn floor_of(window: u64, count: u64) -> u64
    requires { count < 2 ^ 63 }
    ensures { result ≡ floor_of window count }
{
    if count < window {
        0
    } else {
        count - window + 1
    }
}
