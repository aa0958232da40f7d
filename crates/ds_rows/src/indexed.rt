//! What the indexes hold of an entity.
ghost use Rattle.std.specs.Prelude.{◌≡◌, ◌∷◌, [], length, map, fold, filter_map, IsTrue, IfOk, OnOk};
ghost use Rattle.ds_entity.specs.Entities.{EntityParts, names_ascend};
ghost use Rattle.ds_base.specs.IndexOrder.{index_value_cmp};
ghost use Rattle.ds_base.specs.Values.{index_of};
ghost use Rattle.std.specs.BTreeSet.{insert_key};
ghost use Rattle.ds_rows.specs.IndexedValues.{kind_of, property_values, value_count, indexed_values};

use ds_base::{IndexValue, IndexValues, Key, NoMemory, TextString, Value};
use ds_entity::{Entity, Property};
use std::alloc::Global;
use std::collections::BTreeSet;

/// The kind of an entity: that of its key's last element, as UTF-8.
pub fn kind_of(key: &Key) -> &[u8]
    ensures { result.now ≡ kind_of key.now }
{
    match key.elems().as_slice().last() {
        Some(elem) => elem.kind.bytes(),
        None => &[],
    }
}

/// The values of each property that its indexes hold, each once, ascending, in the order of the properties.
pub(crate) fn indexed_lists(
    alloc: Global,
    properties: &[Property],
) -> Result<Vec<IndexValues>, NoMemory>
    ensures { IfOk result (λ lists. lists.items ≡ map property_values properties.now) }
{
    let mut lists = Vec::with_capacity(alloc, properties.len())?;
    for property in properties {
        let values = property_values(alloc, property)?;
        lists.push(values)?;
    }
    Ok(lists)
}

/// How many values of each property its indexes hold, in the order of the properties.
pub(crate) fn indexed_counts(alloc: Global, properties: &[Property]) -> Result<Vec<u64>, NoMemory>
    ensures { IfOk result (λ counts. counts.items ≡ map value_count properties.now) }
{
    let mut counts = Vec::with_capacity(alloc, properties.len())?;
    for property in properties {
        let count = value_count(alloc, property)?;
        counts.push(count)?;
    }
    Ok(counts)
}

/// The values that the indexes hold of the entity's property of this name, each once, ascending; none where it has no such property.
/// One pass over the properties. A refusal means out of memory.
pub fn indexed_values(
    alloc: Global,
    entity: &Entity,
    name: &TextString,
) -> Result<IndexValues, NoMemory>
    ensures { IfOk result (λ values. values ≡ indexed_values entity.now name.now) }
{
    for property in entity.properties().as_slice() {
        if property.name.text() == name.text() {
            return property_values(alloc, property);
        }
    }
    Ok(IndexValues::new(alloc))
}

/// The values of a property that its indexes hold, each once, ascending. It takes no memory where the property isn't indexed.
fn property_values(alloc: Global, property: &Property) -> Result<IndexValues, NoMemory>
    ensures { IfOk result (λ values. values ≡ property_values property.now) }
{
    if !property.indexed {
        return Ok(IndexValues::new(alloc));
    }
    match property.values.as_slice() {
        [only] => value_alone(alloc, only),
        _ => distinct_values(alloc, property),
    }
}

/// How many values of a property its indexes hold. It takes memory only where there are several.
fn value_count(alloc: Global, property: &Property) -> Result<u64, NoMemory>
    ensures { IfOk result (λ count. count ≡ value_count property.now) }
{
    if !property.indexed {
        return Ok(0);
    }
    match property.values.as_slice() {
        [only] => Ok(count_alone(only)),
        _ => Ok(distinct_values(alloc, property)?.len() as u64),
    }
}

/// Whether an index holds a property's only value: 1, or 0 of a long text and a blob.
fn count_alone(value: &Value) -> u64
    ensures { result ≡ length (filter_map index_of (value.now ∷ [])) }
{
    match value {
        Value::Text(_) | Value::Blob(_) => 0,
        _ => 1,
    }
}

/// What an index holds of a property's only value, which most properties have: no set is made for it.
fn value_alone(alloc: Global, value: &Value) -> Result<IndexValues, NoMemory>
    ensures { IfOk result (λ values. values ≡ fold (insert_key index_value_cmp) [] (filter_map index_of (value.now ∷ []))) }
{
    let mut alone = Vec::with_capacity(alloc, 1)?;
    if let Some(indexed) = value.index(alloc)? {
        alone.push(indexed)?;
    }
    Ok(IndexValues::from(alone))
}

/// The values of a property that an index can hold, each once, ascending.
fn distinct_values(alloc: Global, property: &Property) -> Result<IndexValues, NoMemory>
    ensures { IfOk result (λ values. values ≡ fold (insert_key index_value_cmp) [] (filter_map index_of property.now.values)) }
{
    let mut distinct = BTreeSet::new(alloc);
    for value in property.values.as_slice() {
        insert_indexed(alloc, value, &mut distinct)?;
    }
    let mut ascending = Vec::with_capacity(alloc, distinct.len())?;
    for value in distinct {
        ascending.push(value)?;
    }
    Ok(IndexValues::from(ascending))
}

/// Puts what an index holds of the value among the others, unless it is there.
fn insert_indexed(
    alloc: Global,
    value: &Value,
    distinct: &mut BTreeSet<IndexValue>,
) -> Result<(), NoMemory>
    ensures { OnOk result (distinct.new.keys ≡ fold (insert_key index_value_cmp) distinct.old.keys (filter_map index_of (value.now ∷ []))) }
{
    if let Some(indexed) = value.index(alloc)? {
        distinct.insert(indexed)?;
    }
    Ok(())
}

/// The indexed values of the property of this name, out of those of all properties; none where there is no such property.
pub(crate) fn values_named<'a>(
    properties: &[Property],
    lists: &'a [IndexValues],
    name: &TextString,
) -> &'a [IndexValue]
    requires ascending { IsTrue (names_ascend properties.now) }
    requires theirs { lists.now ≡ map property_values properties.now }
    ensures { (e : EntityParts) → e.properties ≡ properties.now → result.now ≡ indexed_values e name.now }
{
    match properties.binary_search_by(|p| p.name.cmp(name)) {
        Ok(place) => lists[place].as_slice(),
        Err(_) => &[],
    }
}

/// How many values the property of this name has, out of the counts of all properties; 0 where there is no such property.
pub(crate) fn count_named(properties: &[Property], counts: &[u64], name: &TextString) -> u64
    requires ascending { IsTrue (names_ascend properties.now) }
    requires theirs { counts.now ≡ map value_count properties.now }
    ensures { (e : EntityParts) → e.properties ≡ properties.now → result ≡ length (indexed_values e name.now) }
{
    match properties.binary_search_by(|p| p.name.cmp(name)) {
        Ok(place) => counts[place],
        Err(_) => 0,
    }
}
