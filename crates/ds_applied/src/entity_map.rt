//! Entities by key.
ghost use Rattle.std.specs.Prelude.{◌≡◌, ◌++◌, List, [], fold, length, map, IfOk, OnOk, OnErr};
ghost use Rattle.std.specs.BTreeMap.{insert_entry, IsOrdered, is_at};
ghost use Rattle.std.specs.Map.{remove_entry};
ghost use Rattle.std.specs.Option.{option_copied};
ghost use Rattle.ds_entity.specs.Entities.{EntityParts};
ghost use Rattle.ds_base.specs.KeyOrder.{key_cmp};
ghost use Rattle.ds_log.specs.After.{after, apply_write};
ghost use Rattle.ds_log.specs.Logs.{entry_writes};
ghost use Rattle.ds_model.specs.Results.{entity_of};
ghost use Rattle.ds_entity.specs.EntityOrder.{sorted_by_key};

use ds_base::{Key, NoMemory, TryCopy};
use ds_entity::Entity;
use ds_log::{Entry, Write};
use std::alloc::Global;
use std::collections::BTreeMap;
use std::marker::Model;

/// Entities, each kept by its key. Contracts see them as a list in the order of the keys.
#[derive(Drop)]
pub struct EntityMap {
    by_key: BTreeMap<Key, Entity>,
}

impl Model for EntityMap {
    ghost use Rattle.std.specs.Prelude.{◌≡◌, List, map};
    ghost use Rattle.ds_entity.specs.Entities.{EntityParts};
    ghost use Rattle.ds_applied.specs.ByKey.{entities_in, keyed};

    ghost Value = { List EntityParts };

    ghost view = { λ m. entities_in m.by_key.entries };

    ghost invariant = { λ m. m.by_key.entries ≡ map keyed (entities_in m.by_key.entries) };
}

impl EntityMap {
    /// No entity. It takes no memory.
    pub fn new(alloc: Global) -> EntityMap
        ensures { result ≡ [] }
    {
        EntityMap {
            by_key: BTreeMap::new(alloc),
        }
    }

    /// The entity of a key; `None` exactly where there is none. It takes no memory, and time by the logarithm of the entities.
    pub fn get(&self, key: &Key) -> Option<&Entity>
        ensures { option_copied result ≡ entity_of self.now key.now }
    {
        self.by_key.get(key)
    }

    /// How many entities there are. It takes no memory.
    pub fn len(&self) -> usize
        ensures { result ≡ length self.now }
    {
        self.by_key.len()
    }

    /// Puts a reference to each entity at the end, in the order of the keys. A refusal, which is lack of memory, leaves some of them there.
    pub fn put_all<'a>(&'a self, entities: &mut Vec<&'a Entity>) -> Result<(), NoMemory>
        ensures { OnOk result (map (λ e. e.now) entities.new.items ≡ map (λ e. e.now) entities.old.items ++ self.now) }
    {
        for entity in self.by_key.values() {
            entities.push(entity)?;
        }
        Ok(())
    }

    /// Applies one write: a put takes the place of the entity with its key, a delete takes it out. A refusal, which is want of
    /// memory, changes nothing. It takes time by the logarithm of the entities.
    pub fn apply(&mut self, alloc: Global, write: &Write) -> Result<(), NoMemory>
        ensures ok { OnOk result ((es : List EntityParts) → self.old ≡ sorted_by_key es
            → self.new ≡ sorted_by_key (apply_write es write.now)) }
        ensures err { OnErr result (self.new ≡ self.old) }
    {
        match write {
            Write::Put(entity) => put(alloc, &mut self.by_key, entity),
            Write::Delete(key) => {
                delete(&mut self.by_key, key);
                Ok(())
            }
        }
    }

    /// Applies writes in turn. A refusal, which means out of memory, leaves some of them applied.
    pub fn apply_all(&mut self, alloc: Global, writes: &[Write]) -> Result<(), NoMemory>
        ensures { OnOk result ((es : List EntityParts) → self.old ≡ sorted_by_key es
            → self.new ≡ sorted_by_key (fold apply_write es writes.now)) }
    {
        for write in writes {
            self.apply(alloc, write)?;
        }
        Ok(())
    }

    /// The entities that entries leave, applied in turn from no entity. A refusal means out of memory.
    pub fn rebuilt(alloc: Global, entries: &[Entry]) -> Result<EntityMap, NoMemory>
        ensures { IfOk result (λ m. m ≡ sorted_by_key (after (entry_writes entries.now))) }
    {
        let mut entities = EntityMap::new(alloc);
        for entry in entries {
            entities.apply_all(alloc, entry.writes.as_slice())?;
        }
        Ok(entities)
    }
}

fn put(alloc: Global, map: &mut BTreeMap<Key, Entity>, entity: &Entity) -> Result<(), NoMemory>
    ensures ok { OnOk result (map.new.entries ≡ insert_entry key_cmp map.old.entries entity.now.key entity.now) }
    ensures ordered { OnOk result (IsOrdered key_cmp map.old) }
    ensures err { OnErr result (map.new.entries ≡ map.old.entries) }
{
    let key = entity.key().copy(alloc)?;
    let entity = entity.copy(alloc)?;
    map.insert(key, entity)?;
    Ok(())
}

fn delete(map: &mut BTreeMap<Key, Entity>, key: &Key)
    ensures removed { map.new.entries ≡ remove_entry (is_at (key_cmp key.now)) map.old.entries }
    ensures ordered { IsOrdered key_cmp map.old }
{
    // For the proof alone: the call tells that the map is in order.
    let _ = map.len();
    let _ = map.remove(key);
}
