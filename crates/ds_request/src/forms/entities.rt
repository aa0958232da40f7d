//! Entities: a key and properties.
ghost use Rattle.std.specs.Prelude.{◌≡◌, [], Some, IfOk, codes, option_map};
ghost use Rattle.std.specs.Option.{option_or};
ghost use Rattle.serde_json.specs.Data.{object};
ghost use Rattle.serde_json.specs.View.{view, members_view};
ghost use Rattle.ds_json_reading.specs.Reading.{Reads, defaulted, member_of};
ghost use Rattle.ds_request.specs.Entities.{property_with, property_of, properties_of, entity_of, ArePut};

use crate::call::Call;
use ds_base::{Key, TextString, Values, is_name, is_reserved};
use ds_entity::{Properties, Property};
use ds_json_reading::{
    EntryForm, Form, Members, Refusal, read_entity_key, read_entries, read_property_values,
    unless_null,
};
use serde_json::Value;
use std::alloc::Global;
use std::marker::Model;

/// What a put writes: a key, whether its last identifier was left open, and properties that an entity may have.
#[derive(Drop)]
pub struct Written {
    pub(crate) key: Key,
    pub(crate) incomplete: bool,
    pub(crate) properties: Properties,
}

impl Model for Written {
    ghost use Rattle.ds_request.specs.Entities.{PutParts, IsPut};

    ghost Value = { PutParts };

    ghost view = { λ w. record { key = w.key; incomplete = w.incomplete; properties = w.properties } };

    ghost invariant = { λ w. IsPut w.key w.incomplete w.properties };
}

impl Written {
    ghost use Rattle.ds_request.specs.Lawful.{IsLawfulCall};

    /// The call that writes it.
    pub fn into_call(self) -> Call
        ensures call { result ≡ Call.Put self.key self.incomplete self.properties }
        ensures lawful { IsLawfulCall result }
    {
        Call::Put {
            key: self.key,
            incomplete: self.incomplete,
            properties: self.properties,
        }
    }
}

/// An entity: an object with a key, which is looked at first, and properties.
#[derive(Drop)]
pub struct EntityForm;

impl Form for EntityForm {
    type Item = Written;

    ghost reads = { λ _. entity_of };

    fn read(&self, alloc: Global, value: Value) -> Result<Written, Refusal> {
        match value {
            Value::Object(members) => read_entity(alloc, members),
            _ => Err(Refusal::Request),
        }
    }
}

fn read_entity(alloc: Global, members: Members) -> Result<Written, Refusal>
    ensures { Reads Refusal.NoMemory (entity_of (object (members_view members.entries))) result }
{
    let (key, properties) = key_and_properties(members);
    let Some(key) = key else {
        return Err(Refusal::Request);
    };
    let (key, incomplete) = read_entity_key(alloc, key)?;
    let properties = read_properties(alloc, properties)?;
    Ok(Written {
        key,
        incomplete,
        properties,
    })
}

/// The two members of an entity that are read, by one pass over all; null counts as absent.
fn key_and_properties(members: Members) -> (Option<Value>, Option<Value>)
    ensures key { option_map view result.0 ≡ member_of (codes "key") (members_view members.entries) }
    ensures properties { option_map view result.1 ≡ member_of (codes "properties") (members_view members.entries) }
{
    let mut key = None;
    let mut properties = None;
    for (name, value) in members {
        match name.as_str() {
            "key" => keep_first(&mut key, value),
            "properties" => keep_first(&mut properties, value),
            _ => {}
        }
    }
    (unless_null(key), unless_null(properties))
}

/// Keeps this value where none was found before.
fn keep_first(found: &mut Option<Value>, value: Value)
    ensures { found.new ≡ option_or found.old (Some value) }
{
    if let None = found {
        *found = Some(value);
    }
}

/// Reads properties by name; none where the member is absent. An object of 2^32 properties or more, for which a line has no
/// room, is refused as out of memory.
fn read_properties(alloc: Global, given: Option<Value>) -> Result<Properties, Refusal>
    ensures read { Reads Refusal.NoMemory (defaulted [] properties_of (option_map view given)) result }
    ensures lawful { IfOk result ArePut }
{
    match given {
        Some(Value::Object(members)) => read_each_property(alloc, members),
        Some(_) => Err(Refusal::Request),
        None => Ok(Properties::new(alloc)),
    }
}

/// Reads the members of an object as properties, whose names ascend as the map's keys do.
fn read_each_property(alloc: Global, members: Members) -> Result<Properties, Refusal>
    ensures read { Reads Refusal.NoMemory (properties_of (object (members_view members.entries))) result }
    ensures lawful { IfOk result ArePut }
{
    let properties = read_entries(alloc, &PropertyForm, members)?;
    if properties.len() > u32::MAX as usize {
        return Err(Refusal::NoMemory);
    }
    Ok(properties)
}

/// A property: a member whose name is a property's, and its values.
#[derive(Drop)]
struct PropertyForm;

impl EntryForm for PropertyForm {
    type Item = Property;

    ghost reads = { λ _. property_of };

    fn read(&self, alloc: Global, name: String, value: Value) -> Result<Option<Property>, Refusal> {
        if !is_name(name.as_str().as_bytes()) || is_reserved(name.as_str().as_bytes()) {
            return Err(Refusal::Value);
        }
        let (indexed, values) = read_property_values(alloc, value)?;
        Ok(property_with(TextString::from_string(name), indexed, values))
    }
}

/// The property of these values; none where there is no value.
pub(crate) fn property_with(name: TextString, indexed: bool, values: Values) -> Option<Property>
    ensures { result ≡ property_with name (indexed, values) }
{
    if values.len() == 0 {
        return None;
    }
    Some(Property {
        name,
        indexed,
        values,
    })
}
