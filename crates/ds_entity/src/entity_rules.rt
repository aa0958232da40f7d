//! The conditions of an entity: which properties are faulty, and what its size is.
ghost use Rattle.std.specs.Prelude.{◌≡◌, ◌+◌, ◌≤◌, min, position, sum_by};
ghost use Rattle.std.specs.List.{list_any};
ghost use Rattle.ds_base.specs.Limits.{greatest_told};
ghost use Rattle.ds_entity.specs.Entities.{is_faulty_property, elem_size, key_size, value_size, content_size};
ghost use Rattle.ds_base.specs.Values.{is_faulty_value};
ghost use Rattle.ds_entity.specs.Entities.{property_size, entity_size};

use crate::entity::Property;
use ds_base::limits::MAX_TOLD_SIZE;
use ds_base::{Elem, Ident, Key, Value, is_name, is_reserved};

/// The place of the first property that no entity may have.
pub(crate) fn first_faulty(properties: &[Property]) -> Option<usize>
    ensures { result ≡ position is_faulty_property properties.now }
{
    properties
        .iter()
        .position(|property| is_faulty_property(property))
}

fn is_faulty_property(property: &Property) -> bool
    ensures { result ≡ is_faulty_property property.now }
{
    let name = property.name.bytes();
    !is_name(name)
        || is_reserved(name)
        || property.values.len() == 0
        || any_faulty(property.indexed, property.values.as_slice())
}

fn any_faulty(indexed: bool, values: &[Value]) -> bool
    ensures { result ≡ list_any (is_faulty_value indexed) values.now }
{
    values.iter().any(|value| value.is_faulty(indexed))
}

/// The size of an entity of this key and these properties, or 2^63 - 1 where it is larger.
pub(crate) fn size_of(key: &Key, properties: &[Property]) -> u64
    ensures { result ≡ min (entity_size key.now properties.now) greatest_told }
{
    let mut size = size_of_key(key);
    for property in properties {
        size = capped_sum(size, size_of_property(property));
    }
    size
}

fn size_of_property(property: &Property) -> u64
    ensures { result ≡ min (property_size property.now) greatest_told }
{
    let mut size = capped_sum(16, property.name.bytes().len() as u64);
    for value in property.values.as_slice() {
        size = capped_sum(size, size_of_value(value));
    }
    size
}

fn size_of_value(value: &Value) -> u64
    ensures { result ≡ min (value_size value.now) greatest_told }
{
    capped_sum(16, size_of_content(value))
}

fn size_of_content(value: &Value) -> u64
    ensures { result ≡ min (content_size value.now) greatest_told }
{
    match value {
        Value::Bytes(bytes) | Value::Blob(bytes) => capped_sum(0, bytes.bytes().len() as u64),
        Value::Str(text) | Value::Text(text) => capped_sum(0, text.bytes().len() as u64),
        Value::Key(key) => size_of_key(key),
        _ => 0,
    }
}

fn size_of_key(key: &Key) -> u64
    ensures { result ≡ min (key_size key.now) greatest_told }
{
    let mut size = capped_sum(0, key.namespace().bytes().len() as u64);
    for elem in key.elems().as_slice() {
        size = capped_sum(size, size_of_elem(elem));
    }
    size
}

fn size_of_elem(elem: &Elem) -> u64
    ensures { result ≡ min (elem_size elem.now) greatest_told }
{
    let ident = match &elem.ident {
        Ident::Id(_) => 8,
        Ident::Name(name) => name.bytes().len() as u64,
    };
    capped_sum(capped_sum(16, elem.kind.bytes().len() as u64), ident)
}

/// The sum, or 2^63 - 1 where it is larger.
fn capped_sum(a: u64, b: u64) -> u64
    ensures { result ≡ min (a + b) greatest_told }
{
    a.saturating_add(b).min(MAX_TOLD_SIZE)
}
