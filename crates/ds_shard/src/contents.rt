//! The entities of a shard and the table of their rows, which writes change together.
ghost use Rattle.std.specs.Prelude.{◌≡◌, ℕ, ◌+◌, ◌≤◌, ◌<◌, [], None, fold, map, find, OnOk, OnErr};
ghost use Rattle.std.specs.Option.{option_copied};
ghost use Rattle.ds_base.specs.KeyOrder.{same_key};
ghost use Rattle.ds_entity.specs.Entities.{EntityParts};
ghost use Rattle.ds_log.specs.Logs.{key_of};
ghost use Rattle.ds_rows.specs.Versions.{Version, entities_at};
ghost use Rattle.ds_table.specs.Versions.{never};
ghost use Rattle.ds_table.specs.Blocks.{versions};
ghost use Rattle.ds_shard.specs.Histories.{written, ended, with_version, trimmed, BeginsBy, IsOverAt};
ghost use Rattle.std.specs.List.{AllByRecursion as Each};
ghost use Rattle.ds_shard.specs.Contents.{ContentsParts, all_undone, AreKept, IsGivenBefore, CanUndo, IsBack, IsTrimmed, LeadBack};
ghost use Rattle.ds_shard.specs.Contents.{LeadsBack};
ghost use Rattle.ds_shard.specs.Expiries.{AreBy, AreNoted};

use crate::entity_versions::EntityVersions;
use crate::expiring::Expiring;
use crate::rows::{add_rows, close_rows};
use ds_base::{Key, NoMemory, TryCopy};
use ds_entity::Entity;
use ds_indexdef::Defs;
use ds_log::Write;
use ds_rows::rows_of;
use ds_table::{Table, TableView};
use std::alloc::Global;
use std::marker::Model;

/// The versions of entities, the table of the rows of those among them that outlive its floor, and the ends of versions, by which
/// a rising floor finds what it takes out.
#[derive(Drop)]
pub(crate) struct Contents {
    alloc: Global,
    defs: Defs,
    table: Table,
    entities: EntityVersions,
    expiring: Expiring,
}

impl Model for Contents {
    ghost use Rattle.ds_shard.specs.Contents.{ContentsParts};

    ghost Value = { ContentsParts };

    ghost view = { λ c. record { definitions = c.defs; table = c.table; entities = c.entities; ends = c.expiring } };
}

impl Contents {
    /// No entity. It takes no memory.
    pub(crate) fn new(alloc: Global, defs: Defs) -> Contents
        ensures kept { AreKept 1 result }
        ensures definitions { result.definitions ≡ defs }
        ensures floor { result.table.floor ≡ 0 }
        ensures entities { result.entities ≡ [] }
    {
        // For the proof alone: the call tells that the definitions are distinct.
        let _ = defs.len();
        Contents {
            alloc,
            defs,
            table: Table::make(alloc),
            entities: EntityVersions::new(alloc),
            expiring: Expiring::new(alloc),
        }
    }

    /// The table at a stamp that isn't below its floor.
    pub(crate) fn view(&self, at: u64) -> TableView<'_>
        requires not_below_the_floor { self.now.table.floor ≤ at }
        requires a_stamp { at < never }
        ensures { result ≡ record { versions = versions self.now.table; stamp = at } }
    {
        self.table.view(at)
    }

    /// The entity of this key that is seen at the stamp; `None` exactly where there is none.
    pub(crate) fn seen_at(&self, at: u64, key: &Key) -> Option<&Entity>
        ensures { option_copied result ≡ find (λ (e : EntityParts). same_key e.key key.now) (entities_at at self.now.entities) }
    {
        self.entities.seen_at(at, key)
    }

    /// Does the writes in turn at the stamp. A refusal, which means out of memory, leaves some of them done.
    fn write_all(&mut self, stamp: u64, writes: &[Write]) -> Result<(), NoMemory>
        requires { AreKept stamp self.old }
        ensures entities { OnOk result (self.new.entities ≡ fold (written stamp) self.old.entities writes.now) }
        ensures kept { OnOk result (AreKept stamp self.new) }
        ensures leads_back { LeadBack stamp (map key_of writes.now) self.old self.new }
        ensures can_undo { CanUndo stamp self.new }
    {
        for write in writes {
            self.write(stamp, write)?;
        }
        Ok(())
    }

    /// Does one write at the stamp: the current entity of its key ends there with its rows, and a put begins one with its rows. A
    /// refusal, which means out of memory, leaves a part of it done.
    fn write(&mut self, stamp: u64, write: &Write) -> Result<(), NoMemory>
        requires { AreKept stamp self.old }
        ensures entities { OnOk result (self.new.entities ≡ written stamp self.old.entities write.now) }
        ensures kept { OnOk result (AreKept stamp self.new) }
        ensures leads_back { LeadsBack stamp (key_of write.now) self.old self.new }
    {
        self.end(stamp, write.key())?;
        match write {
            Write::Put(entity) => self.begin(stamp, entity),
            Write::Delete(_) => Ok(()),
        }
    }

    /// Ends the current entity of this key, if there is one, with its rows.
    fn end(&mut self, stamp: u64, key: &Key) -> Result<(), NoMemory>
        requires { AreKept stamp self.old }
        ensures entities { OnOk result (self.new.entities ≡ ended stamp key.now self.old.entities) }
        ensures kept { OnOk result (AreKept stamp self.new) }
        ensures leads_back { LeadsBack stamp key.now self.old self.new }
    {
        let rows = match self.entities.current(key) {
            Some(entity) => rows_of(self.alloc, &self.defs, entity)?,
            None => return Ok(()),
        };
        let copy = key.copy(self.alloc)?;
        self.expiring.push(copy, stamp)?;
        close_rows(&mut self.table, &rows, stamp);
        self.entities.end(key, stamp);
        Ok(())
    }

    /// Begins an entity, whose key has no current one, with its rows.
    fn begin(&mut self, stamp: u64, entity: &Entity) -> Result<(), NoMemory>
        requires kept { AreKept stamp self.old }
        requires over { Each (IsOverAt stamp entity.now.key) self.old.entities }
        ensures entities { OnOk result (self.new.entities
            ≡ with_version (record { entity = entity.now; from = stamp; until = None }) self.old.entities) }
        ensures kept { OnOk result (AreKept stamp self.new) }
        ensures leads_back { LeadsBack stamp entity.now.key self.old self.new }
    {
        let rows = rows_of(self.alloc, &self.defs, entity)?;
        add_rows(&mut self.table, &rows, stamp)?;
        self.entities.begin(self.alloc, entity, stamp)
    }

    /// Does the writes in turn at the stamp, above all that were given. A refusal, which means out of memory, changes nothing that
    /// contracts of a shard see.
    pub(crate) fn absorb(&mut self, stamp: u64, writes: &[Write]) -> Result<(), NoMemory>
        requires kept { AreKept stamp self.old }
        requires given_before { Each (IsGivenBefore stamp) self.old.entities }
        ensures entities { OnOk result (self.new.entities ≡ fold (written stamp) self.old.entities writes.now) }
        ensures unchanged { OnErr result (self.new.entities ≡ self.old.entities) }
        ensures kept { AreKept stamp self.new }
        ensures definitions { self.new.definitions ≡ self.old.definitions }
        ensures floor { self.new.table.floor ≡ self.old.table.floor }
    {
        match self.write_all(stamp, writes) {
            Err(refused) => {
                self.undo(stamp, writes);
                Err(refused)
            }
            Ok(()) => Ok(()),
        }
    }

    /// Takes back writes that were done at the stamp, all or some of them. It takes no memory.
    fn undo(&mut self, stamp: u64, writes: &[Write])
        requires { CanUndo stamp self.old }
        ensures { (before : ContentsParts) → AreKept stamp before → Each (IsGivenBefore stamp) before.entities
            → LeadBack stamp (map key_of writes.now) before self.old → IsBack stamp before self.new }
    {
        self.table.undo(stamp);
        undo_writes(&mut self.entities, stamp, writes);
        self.expiring.undo(stamp);
    }

    /// Raises the floor: the rows of versions that ended at or before it go, and these versions with them. It takes no memory.
    pub(crate) fn trim(&mut self, floor: u64)
        requires rises { self.old.table.floor ≤ floor }
        requires a_stamp { floor < never }
        requires noted { AreNoted self.old.ends self.old.entities }
        ensures entities { self.new.entities ≡ trimmed floor self.old.entities }
        ensures definitions { self.new.definitions ≡ self.old.definitions }
        ensures floor { self.new.table.floor ≡ floor }
        ensures kept { (stamp : ℕ) → AreKept stamp self.old → floor ≤ stamp → stamp + 1 < never → IsTrimmed stamp self.new }
    {
        self.table.trim(floor);
        trim_due(&mut self.entities, &mut self.expiring, floor);
    }
}

/// Takes back what was done at the stamp to the entities that were written. It takes no memory.
fn undo_writes(entities: &mut EntityVersions, stamp: u64, writes: &[Write])
    requires { Each (BeginsBy stamp) entities.old }
    ensures { entities.new ≡ all_undone stamp (map key_of writes.now) entities.old }
{
    for write in writes {
        entities.undo(write.key(), stamp);
    }
}

/// Takes out the versions that ended at or before the floor, whose ends are due. It takes no memory.
fn trim_due(entities: &mut EntityVersions, expiring: &mut Expiring, floor: u64)
    requires { AreNoted expiring.old entities.old }
    ensures entities { entities.new ≡ trimmed floor entities.old }
    ensures noted { AreNoted expiring.new entities.new }
    ensures still_by { (most : ℕ) → AreBy most expiring.old → AreBy most expiring.new }
{
    'due: loop {
        match expiring.pop_due(floor) {
            Some(due) => entities.trim(&due.key, floor),
            None => return,
        }
    }
}
