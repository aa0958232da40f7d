//! The versions of all entities, by key.
ghost use Rattle.std.specs.Prelude.{◌≡◌, ◌↔◌, [], None, Some, map, find, option_map, IsTrue, OnOk, OnErr};
ghost use Rattle.std.specs.Map.{lookup};
ghost use Rattle.std.specs.Option.{option_copied};
ghost use Rattle.ds_base.specs.KeyOrder.{same_key};
ghost use Rattle.ds_entity.specs.Entities.{EntityParts};
ghost use Rattle.ds_rows.specs.Versions.{Version, entities_at};
ghost use Rattle.ds_shard.specs.Histories.{in_key_order, joined, is_current, ended, with_version, undone, trimmed_at, BeginsBy, IsOverAt};
ghost use Rattle.std.specs.List.{AllByRecursion as Each};
ghost use Rattle.ds_shard.specs.Histories.{AreByKey, AreByKeyBut};

use crate::version_list::VersionList;
use ds_base::{Key, NoMemory, TryCopy};
use ds_entity::Entity;
use std::alloc::Global;
use std::collections::HashMap;
use std::marker::Model;

/// The versions of all entities, found by the hash of the key: nobody asks for the order of the keys, since index rows have it.
/// Contracts see them as a list: by key, those of one key in the order of their stamps.
#[derive(Drop)]
pub(crate) struct EntityVersions {
    by_key: HashMap<Key, VersionList>,
}

impl Model for EntityVersions {
    ghost use Rattle.std.specs.Prelude.{List};
    ghost use Rattle.ds_rows.specs.Versions.{Version};
    ghost use Rattle.ds_shard.specs.Histories.{in_key_order, joined, AreByKey};

    ghost Value = { List Version };

    ghost view = { λ m. joined (in_key_order m.by_key.entries) };

    ghost invariant = { λ m. AreByKey (in_key_order m.by_key.entries) };
}

impl EntityVersions {
    /// No version. It takes no memory.
    pub(crate) fn new(alloc: Global) -> EntityVersions
        ensures { result ≡ [] }
    {
        EntityVersions {
            by_key: HashMap::new(alloc),
        }
    }

    /// The entity of this key that nothing replaced or deleted; `None` exactly where there is none.
    pub(crate) fn current(&self, key: &Key) -> Option<&Entity>
        ensures { option_copied result ≡ option_map (λ (v : Version). v.entity) (find (is_current key.now) self.now) }
    {
        match self.by_key.get(key) {
            Some(list) => list.current(),
            None => None,
        }
    }

    /// The entity of this key that is seen at the stamp; `None` exactly where there is none.
    pub(crate) fn seen_at(&self, at: u64, key: &Key) -> Option<&Entity>
        ensures { option_copied result ≡ find (λ (e : EntityParts). same_key e.key key.now) (entities_at at self.now) }
    {
        match self.by_key.get(key) {
            Some(list) => list.seen_at(at),
            None => None,
        }
    }

    /// Ends the version of this key that isn't ended, if there is one, at the stamp, by which each one began. It takes no memory.
    pub(crate) fn end(&mut self, key: &Key, stamp: u64)
        requires { Each (BeginsBy stamp) self.old }
        ensures { self.new ≡ ended stamp key.now self.old }
    {
        end_in(&mut self.by_key, key, stamp);
    }

    /// Begins a version at the stamp, by which each one of its key has ended. A refusal, which means out of memory, changes nothing.
    pub(crate) fn begin(
        &mut self,
        alloc: Global,
        entity: &Entity,
        stamp: u64,
    ) -> Result<(), NoMemory>
        requires { Each (IsOverAt stamp entity.now.key) self.old }
        ensures begun { OnOk result (self.new ≡ with_version (record { entity = entity.now; from = stamp; until = None }) self.old) }
        ensures unchanged { OnErr result (self.new ≡ self.old) }
    {
        begin_in(&mut self.by_key, alloc, entity, stamp)
    }

    /// Takes back what was done to the entity of this key at the stamp, after which nothing began. It takes no memory.
    pub(crate) fn undo(&mut self, key: &Key, stamp: u64)
        requires { Each (BeginsBy stamp) self.old }
        ensures { self.new ≡ undone stamp key.now self.old }
    {
        undo_in(&mut self.by_key, key, stamp);
        drop_empty(&mut self.by_key, key);
    }

    /// Takes out the versions of this key that ended at or before the floor. It takes no memory.
    pub(crate) fn trim(&mut self, key: &Key, floor: u64)
        ensures { self.new ≡ trimmed_at floor key.now self.old }
    {
        trim_in(&mut self.by_key, key, floor);
        drop_empty(&mut self.by_key, key);
    }
}

/// Ends the open version of the key.
fn end_in(map: &mut HashMap<Key, VersionList>, key: &Key, stamp: u64)
    requires by_key { AreByKey (in_key_order map.old.entries) }
    requires begun { Each (BeginsBy stamp) (joined (in_key_order map.old.entries)) }
    ensures by_key { AreByKey (in_key_order map.new.entries) }
    ensures ended { joined (in_key_order map.new.entries) ≡ ended stamp key.now (joined (in_key_order map.old.entries)) }
{
    if let Some(list) = map.get_mut(key) {
        list.end(stamp);
    }
}

/// Begins a version in the list of its key, which is made where there is none.
fn begin_in(
    map: &mut HashMap<Key, VersionList>,
    alloc: Global,
    entity: &Entity,
    stamp: u64,
) -> Result<(), NoMemory>
    requires by_key { AreByKey (in_key_order map.old.entries) }
    requires over { Each (IsOverAt stamp entity.now.key) (joined (in_key_order map.old.entries)) }
    ensures by_key { AreByKey (in_key_order map.new.entries) }
    ensures begun { OnOk result (joined (in_key_order map.new.entries)
        ≡ with_version (record { entity = entity.now; from = stamp; until = None }) (joined (in_key_order map.old.entries))) }
    ensures unchanged { OnErr result (joined (in_key_order map.new.entries) ≡ joined (in_key_order map.old.entries)) }
{
    match map.get_mut(entity.key()) {
        Some(list) => list.begin(alloc, entity, stamp),
        None => begin_list(map, alloc, entity, stamp),
    }
}

/// Makes the list of a key that has none, with its first version.
fn begin_list(
    map: &mut HashMap<Key, VersionList>,
    alloc: Global,
    entity: &Entity,
    stamp: u64,
) -> Result<(), NoMemory>
    requires by_key { AreByKey (in_key_order map.old.entries) }
    requires none { lookup (same_key entity.now.key) map.old.entries ≡ None }
    ensures by_key { AreByKey (in_key_order map.new.entries) }
    ensures begun { OnOk result (joined (in_key_order map.new.entries)
        ≡ with_version (record { entity = entity.now; from = stamp; until = None }) (joined (in_key_order map.old.entries))) }
    ensures unchanged { OnErr result (joined (in_key_order map.new.entries) ≡ joined (in_key_order map.old.entries)) }
{
    let mut list = VersionList::new(alloc);
    list.begin(alloc, entity, stamp)?;
    let key = entity.key().copy(alloc)?;
    map.insert(key, list)?;
    Ok(())
}

/// Takes back what was done to the entity of the key at the stamp.
fn undo_in(map: &mut HashMap<Key, VersionList>, key: &Key, stamp: u64)
    requires by_key { AreByKey (in_key_order map.old.entries) }
    requires begun { Each (BeginsBy stamp) (joined (in_key_order map.old.entries)) }
    ensures by_key { AreByKeyBut key.now (in_key_order map.new.entries) }
    ensures undone { joined (in_key_order map.new.entries) ≡ undone stamp key.now (joined (in_key_order map.old.entries)) }
{
    if let Some(list) = map.get_mut(key) {
        list.undo(stamp);
    }
}

/// Takes out the versions of the key that ended at or before the floor.
fn trim_in(map: &mut HashMap<Key, VersionList>, key: &Key, floor: u64)
    requires { AreByKey (in_key_order map.old.entries) }
    ensures by_key { AreByKeyBut key.now (in_key_order map.new.entries) }
    ensures trimmed { joined (in_key_order map.new.entries) ≡ trimmed_at floor key.now (joined (in_key_order map.old.entries)) }
{
    if let Some(list) = map.get_mut(key) {
        list.trim(floor);
    }
}

/// Takes the key out where it has no version any more; the versions stay.
fn drop_empty(map: &mut HashMap<Key, VersionList>, key: &Key)
    requires { AreByKeyBut key.now (in_key_order map.old.entries) }
    ensures by_key { AreByKey (in_key_order map.new.entries) }
    ensures same { joined (in_key_order map.new.entries) ≡ joined (in_key_order map.old.entries) }
{
    if is_empty_at(map, key) {
        let _ = map.remove(key);
    }
}

/// Whether the key is there without a version.
fn is_empty_at(map: &HashMap<Key, VersionList>, key: &Key) -> bool
    ensures { IsTrue result ↔ (lookup (same_key key.now) map.now.entries ≡ Some []) }
{
    match map.get(key) {
        Some(list) => list.is_empty(),
        None => false,
    }
}
