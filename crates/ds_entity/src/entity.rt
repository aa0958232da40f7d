//! Entities: a key and named properties, within the Datastore's limits.
ghost use Rattle.std.specs.Prelude.{◌≡◌, ◌<◌, ◌^◌, IsTrue, IfOk, length, min};

use crate::entity_rules::{first_faulty, size_of};
use ds_base::limits::MAX_ENTITY_SIZE;
use ds_base::{Key, Sequence, TextString, TryCopy, Values};
use std::alloc::{AllocError, Global};
use std::marker::Model;
use std::sync::Arc;

/// A named property with one value or several.
#[derive(Drop)]
pub struct Property {
    /// In an entity it has 1 to 1,500 bytes and isn't reserved.
    pub name: TextString,
    /// Whether indexes hold the values; of long text and blobs they hold none in any case.
    pub indexed: bool,
    /// At least one in an entity. A list of one value is that value.
    pub values: Values,
}

/// The properties of an entity, by name.
pub type Properties = Sequence<Property>;

/// Entities in their order.
pub type Entities = Sequence<Entity>;

/// Why a key and properties are no entity.
#[derive(Drop, Debug)]
pub enum EntityRefused {
    /// A kind or a name of the key is reserved.
    BadKey,
    /// The first property whose name is empty, longer than 1,500 bytes or reserved, that has no value, a rating above
    /// 100, or an indexed string or byte string of more than 1,500 bytes. `property` is its place, counted from 0.
    BadValue { property: u32 },
    /// The entity's size, or 2^63 - 1 where it is larger; it is above 1,048,576.
    TooLarge { size: u64 },
    /// There was no memory, where nothing else refuses the entity.
    NoMemory,
}

/// A key and its properties, which keep the limits: what can be written.
///
/// Contracts see it as these two. An entity shares its properties with its copies, since nothing changes them: a copy
/// takes the memory of its key alone, and the last owner frees them.
#[derive(Drop)]
pub struct Entity {
    key: Key,
    properties: Arc<Properties, Global>,
}

impl Model for Entity {
    ghost use Rattle.std.specs.Arc.{arc_value};
    ghost use Rattle.ds_entity.specs.Entities.{EntityParts, IsEntity};

    ghost Value = { EntityParts };

    ghost view = { λ e. record { key = e.key; properties = arc_value e.properties } };

    ghost invariant = { λ e. IsEntity e.key (arc_value e.properties) };
}

impl Entity {
    ghost use Rattle.std.specs.Result.{result_err};
    ghost use Rattle.std.specs.Prelude.{◌≤◌};
    ghost use Rattle.ds_base.specs.Keys.{renumbered, ends_in_id};
    ghost use Rattle.ds_base.specs.Limits.{greatest_id};
    ghost use Rattle.ds_entity.specs.Entities.{EntityParts, IsEntity, entity_refusal, names_ascend};
    ghost use Rattle.ds_base.specs.Memory.{IsDueOrNoMemory};

    /// The entity of this key and these properties, whose names strictly ascend by bytes. The refusals, of which the first
    /// that holds is answered, are those of `EntityRefused`. It takes one pass over the entity, and memory for what its
    /// copies share, from the allocator of the list.
    pub fn new(key: Key, properties: Properties) -> Result<Entity, EntityRefused>
        requires ascending { IsTrue (names_ascend properties) }
        requires few { length properties < 2 ^ 32 }
        ensures ok { IfOk result (λ e. e ≡ record { key = key; properties = properties }) }
        ensures refused { IsDueOrNoMemory EntityRefused.NoMemory (entity_refusal key properties) (result_err result) }
    {
        if !key.writable() {
            return Err(EntityRefused::BadKey);
        }
        if let Some(property) = first_faulty(properties.as_slice()) {
            return Err(EntityRefused::BadValue {
                property: property as u32,
            });
        }
        let size = size_of(&key, properties.as_slice());
        if size > MAX_ENTITY_SIZE {
            return Err(EntityRefused::TooLarge { size });
        }
        let items = properties.into_vec();
        let alloc = *items.allocator();
        match Arc::new(alloc, Sequence::from(items)) {
            Ok(properties) => Ok(Entity { key, properties }),
            Err(_) => Err(EntityRefused::NoMemory),
        }
    }

    /// The key.
    pub fn key(&self) -> &Key
        ensures value { result.now ≡ self.now.key }
        ensures lawful { IsEntity self.now.key self.now.properties }
    {
        &self.key
    }

    /// The properties, by name.
    pub fn properties(&self) -> &Properties
        ensures value { result.now ≡ self.now.properties }
        ensures lawful { IsEntity self.now.key self.now.properties }
    {
        &self.properties
    }

    /// How many entities share these properties at the moment, this one among them. It takes no memory.
    pub fn owners(&self) -> usize
        ensures { 0 < result }
    {
        Arc::strong_count(&self.properties)
    }

    /// Gives the key's last identifier the number `id`; nothing else changes, nor does any other entity. It takes no
    /// memory.
    pub fn renumber(&mut self, id: u64)
        requires ends_in_id { IsTrue (ends_in_id self.old.key.elems) }
        requires positive { 1 ≤ id }
        requires bounded { id ≤ greatest_id }
        ensures { self.new ≡ record { key = renumbered self.old.key id; properties = self.old.properties } }
    {
        self.key.renumber(id);
    }
}

impl TryCopy for Entity {
    /// An equal entity that shares the properties: the memory is that of the key alone.
    fn copy(&self, alloc: Global) -> Result<Entity, AllocError> {
        let key = self.key.copy(alloc)?;
        let properties = Arc::try_clone(&self.properties)?;
        Ok(Entity { key, properties })
    }
}

impl TryCopy for Property {
    fn copy(&self, alloc: Global) -> Result<Property, AllocError> {
        Ok(Property {
            name: self.name.copy(alloc)?,
            indexed: self.indexed,
            values: self.values.copy(alloc)?,
        })
    }
}
