//! The rows of one branch.
ghost use Rattle.std.specs.Prelude.{◌≡◌, ◌++◌, ◌∷◌, [], map, filter, flat_map, length, All, IfOk, OnOk};
ghost use Rattle.ds_entity.specs.Entities.{EntityParts};
ghost use Rattle.ds_pages.specs.Columns.{directions};
ghost use Rattle.ds_model.specs.Rows.{value_columns, entity_rows, first_value, is_within, rows};
ghost use Rattle.ds_rows.specs.IndexedValues.{indexed_values};
ghost use Rattle.ds_plain.specs.FoundRows.{found_parts, found_of, is_in, IsLong};

use crate::matching::{is_found, is_within};
use crate::ways::each_way;
use ds_base::{Column, IndexValue, IndexValues, Key, NoMemory, TryCopy, is_key_name};
use ds_entity::Entity;
use ds_query::{Branch, Range};
use ds_rows::indexed_values;
use std::alloc::Global;

/// A row of a branch, without its place.
#[derive(Drop)]
pub(crate) struct Found {
    /// The entity's key.
    pub(crate) key: Key,
    /// One indexed value for each column other than `__key__`.
    pub(crate) values: IndexValues,
}

/// The rows of the branch: of each entity that counts one for each way to take one indexed value per column, the first column's value
/// within the range. They stand in no order that is promised. A refusal means out of memory.
pub(crate) fn found_rows(
    alloc: Global,
    entities: &[&Entity],
    branch: &Branch,
) -> Result<Vec<Found>, NoMemory>
    ensures rows { IfOk result (λ found. map found_parts found.items ≡ rows branch.now (map (λ e. e.now) entities.now)) }
    ensures long { IfOk result (λ found. All (IsLong branch.now.columns) found.items) }
{
    let mut found = Vec::new(alloc);
    for entity in entities {
        if is_found(alloc, branch, entity)? {
            put_entity(alloc, entity, branch, &mut found)?;
        }
    }
    Ok(found)
}

fn put_entity(
    alloc: Global,
    entity: &Entity,
    branch: &Branch,
    found: &mut Vec<Found>,
) -> Result<(), NoMemory>
    ensures { OnOk result (map found_parts found.new.items ≡ map found_parts found.old.items
        ++ filter (λ row. is_within branch.now.range (first_value row)) (entity_rows branch.now.columns entity.now)) }
{
    let lists = value_lists(alloc, branch.columns.as_slice(), entity)?;
    for values in each_way(alloc, lists.as_slice())? {
        put_way(alloc, &branch.range, entity.key(), values, found)?;
    }
    Ok(())
}

/// The indexed values for each column other than `__key__`.
fn value_lists(
    alloc: Global,
    columns: &[Column],
    entity: &Entity,
) -> Result<Vec<IndexValues>, NoMemory>
    ensures { IfOk result (λ lists. lists.items ≡ map (λ c. indexed_values entity.now c.name) (value_columns columns.now)) }
{
    let mut lists = Vec::with_capacity(alloc, columns.len())?;
    for column in columns {
        if !is_key_name(&column.name) {
            lists.push(indexed_values(alloc, entity, &column.name)?)?;
        }
    }
    Ok(lists)
}

fn put_way(
    alloc: Global,
    range: &Range,
    key: &Key,
    values: IndexValues,
    found: &mut Vec<Found>,
) -> Result<(), NoMemory>
    ensures { OnOk result (found.new.items ≡ found.old.items
        ++ filter (is_in range.now) (found_of key.now values ∷ [])) }
{
    if is_in_range(alloc, range, values.as_slice(), key)? {
        let key = key.copy(alloc)?;
        found.push(Found { key, values })?;
    }
    Ok(())
}

/// Whether the first column's value is within the range: the key where no other column stands before it.
fn is_in_range(
    alloc: Global,
    range: &Range,
    values: &[IndexValue],
    key: &Key,
) -> Result<bool, NoMemory>
    ensures { IfOk result (λ inside. inside ≡ is_within range.now (first_value (record { values = values.now; key = key.now }))) }
{
    match values.first() {
        Some(value) => Ok(is_within(range, value)),
        None => Ok(is_within(range, &IndexValue::Key(key.copy(alloc)?))),
    }
}
