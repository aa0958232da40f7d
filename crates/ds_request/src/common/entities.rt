//! Entities of common lines.
ghost use Rattle.std.specs.Prelude.{◌≡◌, ◌<◌, [], ◌∷◌, ◌++◌, Some, Ok, codes, length, IsTrue, IfSome};
ghost use Rattle.std.specs.Ordering.{is_lt};
ghost use Rattle.serde_json.specs.Data.{object, Members, no_members};
ghost use Rattle.ds_base.specs.KeyOrder.{bytes_cmp};
ghost use Rattle.ds_entity.specs.Entities.{names_ascend};
ghost use Rattle.ds_entity.specs.declared.entity.Property.{Property};
ghost use Rattle.ds_json_reading.specs.declared.refusal.Refusal.TheVariants as refusal;
ghost use Rattle.ds_json_reading.specs.Reading.{member_of, optional};
ghost use Rattle.ds_json_reading.specs.Keys.{entity_key_of};
ghost use Rattle.ds_line_reading.specs.Parts.{IsRead, AreMembers};
ghost use Rattle.ds_line_reading.specs.TableLaws.{refused};
ghost use Rattle.ds_request.specs.Common.{AreProperties};
ghost use Rattle.ds_request.specs.Entities.{property_with, property_of, properties_of, entity_of};

use crate::forms::entities::{Written, property_with};
use ds_base::{Key, TextString, Values, is_name, is_reserved};
use ds_entity::{Properties, Property};
use ds_line_reading::{LineForm, Member, Slot, fill_object, read_entity_path, read_property_parts};
use json::{Reader, Token};
use std::alloc::Global;
use std::cmp::Ordering;
use std::marker::Model;

/// An entity: its key and its properties.
#[derive(Drop)]
pub(crate) struct LineEntityForm;

impl LineForm for LineEntityForm {
    type Item = Written;

    ghost reads = { λ _. entity_of };

    fn read(&self, alloc: Global, reader: &mut Reader<'_>, depth: usize) -> Option<Written> {
        let key = Slot {
            member: PathMember,
            found: None,
        };
        let properties = Slot {
            member: PropertiesMember,
            found: None,
        };
        let mut table = (key, (properties, ()));
        if !fill_object(alloc, &mut table, reader, depth) {
            return None;
        }
        let (key, (properties, ())) = table;
        written(key.found, properties.found)
    }
}

/// What a put writes, where its key is complete and both members were met.
fn written(key: Option<(Key, bool)>, properties: Option<PutProperties>) -> Option<Written>
    ensures { (ms : Members) → optional entity_key_of (member_of (codes "key") ms) ≡ Ok key
        → optional properties_of (member_of (codes "properties") ms) ≡ Ok properties
        → IfSome result (λ w. entity_of (object ms) ≡ Ok w) }
{
    let (key, incomplete) = key?;
    if incomplete {
        return None;
    }
    let properties = properties?;
    Some(Written {
        key,
        incomplete: false,
        properties: properties.list,
    })
}

/// An entity's key, whose last identifier isn't left open.
#[derive(Drop)]
struct PathMember;

impl Member for PathMember {
    type Item = (Key, bool);

    ghost called = { codes "key" };

    ghost reads = { entity_key_of };

    ghost never_null = { refused refusal.Key };

    fn is_named(&self, name: &str) -> bool {
        name == "key"
    }

    fn read(&self, alloc: Global, reader: &mut Reader<'_>, depth: usize) -> Option<(Key, bool)> {
        match read_entity_path(alloc, reader, depth) {
            Some(key) => Some((key, false)),
            None => None,
        }
    }
}

/// An entity's properties.
#[derive(Drop)]
struct PropertiesMember;

impl Member for PropertiesMember {
    type Item = PutProperties;

    ghost called = { codes "properties" };

    ghost reads = { properties_of };

    ghost never_null = { refused refusal.Request };

    fn is_named(&self, name: &str) -> bool {
        name == "properties"
    }

    fn read(&self, alloc: Global, reader: &mut Reader<'_>, depth: usize) -> Option<PutProperties> {
        read_properties(alloc, reader, depth)
    }
}

/// Properties that an entity may have: names ascend, and there are fewer than 2^32 of them.
#[derive(Drop)]
struct PutProperties {
    list: Properties,
}

impl Model for PutProperties {
    ghost use Rattle.std.specs.Prelude.{List};
    ghost use Rattle.ds_entity.specs.declared.entity.Property.{Property};
    ghost use Rattle.ds_request.specs.Entities.{ArePut};

    ghost Value = { List Property };

    ghost view = { λ p. p.list };

    ghost invariant = { λ p. ArePut p.list };
}

/// Reads properties whose names ascend.
fn read_properties(alloc: Global, reader: &mut Reader<'_>, depth: usize) -> Option<PutProperties>
    ensures { IfSome result (λ ps. IsRead depth properties_of reader.old ps reader.new) }
{
    if depth == 0 {
        return None;
    }
    let Some(Token::BeginObject) = reader.next() else {
        return None;
    };
    let Ok(mut found) = Vec::with_capacity(alloc, 4) else {
        return None;
    };
    if !add_properties(alloc, &mut found, reader, depth - 1) {
        return None;
    }
    few(found)
}

/// The properties, unless there are too many. What room they don't need is given back.
fn few(mut found: Vec<Property>) -> Option<PutProperties>
    requires { IsTrue (names_ascend found.items) }
    ensures { IfSome result (λ ps. ps ≡ found.items) }
{
    if found.len() > u32::MAX as usize {
        return None;
    }
    found.shrink_to_fit();
    Some(PutProperties {
        list: Properties::from(found),
    })
}

/// Reads the members of an object that has begun as properties; false where a name doesn't ascend, or a value has no common form.
fn add_properties(
    alloc: Global,
    found: &mut Vec<Property>,
    reader: &mut Reader<'_>,
    depth: usize,
) -> bool
    requires { found.old.items ≡ [] }
    ensures { IsTrue result → (ms : Members) × AreMembers depth no_members reader.old ms reader.new
        × (length reader.new < length reader.old) × AreProperties ms found.new.items
        × IsTrue (names_ascend found.new.items) }
{
    let mut last: &[u8] = b"";
    'properties: loop {
        let Ok(next) = reader.next_key() else {
            return false;
        };
        let Some(name) = next else {
            return true;
        };
        let bytes = name.as_bytes();
        if !is_above(last, bytes) {
            return false;
        }
        if !add_property(alloc, found, name, reader, depth) {
            return false;
        }
        last = bytes;
    }
}

/// Whether the name is above the last one.
fn is_above(last: &[u8], name: &[u8]) -> bool
    ensures { result ≡ is_lt (bytes_cmp last.now name.now) }
{
    matches!(last.cmp(name), Ordering::Less)
}

/// Reads the value of a member as a property, and puts it behind the others.
fn add_property(
    alloc: Global,
    found: &mut Vec<Property>,
    name: &str,
    reader: &mut Reader<'_>,
    depth: usize,
) -> bool
    ensures { IsTrue result → (p : Property) × (found.new.items ≡ found.old.items ++ p ∷ []) × (p.name ≡ name.now)
        × IsRead depth (property_of name.now) reader.old (Some p) reader.new }
{
    match read_property(alloc, name, reader, depth) {
        Some(property) => found.push(property).is_ok(),
        None => false,
    }
}

fn read_property(
    alloc: Global,
    name: &str,
    reader: &mut Reader<'_>,
    depth: usize,
) -> Option<Property>
    ensures { IfSome result (λ p. (p.name ≡ name.now) × IsRead depth (property_of name.now) reader.old (Some p) reader.new) }
{
    if !is_name(name.as_bytes()) || is_reserved(name.as_bytes()) {
        return None;
    }
    let (indexed, values) = read_property_parts(alloc, reader, depth)?;
    named_property(alloc, name, indexed, values)
}

fn named_property(alloc: Global, name: &str, indexed: bool, values: Values) -> Option<Property>
    ensures { IfSome result (λ p. property_with name.now (indexed, values) ≡ Some p) }
{
    match TextString::of(alloc, name) {
        Ok(name) => property_with(name, indexed, values),
        Err(_) => None,
    }
}
