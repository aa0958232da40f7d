//! How many index rows an entity has.
ghost use Rattle.std.specs.Prelude.{◌≡◌, ℕ, ◌+◌, ◌*◌, ◌≤◌, min, map, length, sum_by, cond, IsTrue, IfOk};
ghost use Rattle.ds_base.specs.Limits.{greatest_told};
ghost use Rattle.ds_entity.specs.Entities.{EntityParts, names_ascend};
ghost use Rattle.ds_rows.specs.IndexedValues.{value_count, kind_in};
ghost use Rattle.ds_rows.specs.Counts.{product, column_count, composite_count, row_count, IsCounted};

use crate::indexed::{count_named, indexed_counts, kind_of};
use crate::refused::RowsRefused;
use ds_base::limits::{MAX_INDEX_ROWS, MAX_TOLD_SIZE};
use ds_base::{Column, is_key_name};
use ds_entity::Entity;
use ds_indexdef::{Defs, IndexDef};
use std::alloc::Global;

/// How many index rows the entity has with these definitions of composite indexes, at most 20,000: one by kind, two for each
/// property and distinct indexed value of it, and for each definition of its kind one for each combination of the distinct
/// values of its columns, once for each element of the path where it has the ancestor flag. The row in the index of all
/// entities isn't counted. Above 20,000 it answers TooManyRows with the number, or with 2^63 - 1 where that is less.
///
/// It takes memory for a number a property, and for the indexed values of those that have several.
pub fn count_rows(alloc: Global, defs: &Defs, entity: &Entity) -> Result<u64, RowsRefused>
    ensures { IsCounted (row_count defs.now entity.now) result }
{
    let properties = entity.properties().as_slice();
    let counts = indexed_counts(alloc, properties)?;
    let single = single_count(counts.as_slice());
    let composite = composite_counts(defs.as_slice(), entity, counts.as_slice());
    checked(single.saturating_add(composite).min(MAX_TOLD_SIZE))
}

/// The number, unless it is above the limit.
fn checked(count: u64) -> Result<u64, RowsRefused>
    requires { count ≤ greatest_told }
    ensures { (n : ℕ) → count ≡ min n greatest_told → IsCounted n result }
{
    if count > MAX_INDEX_ROWS {
        return Err(RowsRefused::TooManyRows { count });
    }
    Ok(count)
}

/// One row by kind, and two for each value of these counts, or 2^63 - 1 where there are more.
fn single_count(counts: &[u64]) -> u64
    ensures { result ≡ min (1 + sum_by (λ n. 2 * n) counts.now) greatest_told }
{
    let mut count = 1u64;
    for values in counts {
        let rows = values.saturating_mul(2).min(MAX_TOLD_SIZE);
        count = count.saturating_add(rows).min(MAX_TOLD_SIZE);
    }
    count
}

/// The rows in the composite indexes of the entity's kind, or 2^63 - 1 where there are more.
fn composite_counts(defs: &[IndexDef], entity: &Entity, counts: &[u64]) -> u64
    requires { counts.now ≡ map value_count entity.now.properties }
    ensures { result ≡ min (sum_by (λ d. cond (kind_in d.kind entity.now.key) (composite_count entity.now d) 0) defs.now) greatest_told }
{
    let mut count = 0u64;
    for def in defs {
        let rows = composite_count(def, entity, counts);
        count = count.saturating_add(rows).min(MAX_TOLD_SIZE);
    }
    count
}

/// The rows in one composite index, or 2^63 - 1 where there are more; none where it is of another kind.
fn composite_count(def: &IndexDef, entity: &Entity, counts: &[u64]) -> u64
    requires { counts.now ≡ map value_count entity.now.properties }
    ensures { result ≡ min (cond (kind_in def.now.kind entity.now.key) (composite_count entity.now def.now) 0) greatest_told }
{
    if def.kind.bytes() != kind_of(entity.key()) {
        return 0;
    }
    let combinations = combinations(def.columns.as_slice(), entity, counts);
    let ancestors = if def.ancestor {
        entity.key().elems().len() as u64
    } else {
        1
    };
    combinations.saturating_mul(ancestors).min(MAX_TOLD_SIZE)
}

/// How many ways there are to take one value per column, or 2^63 - 1 where there are more.
fn combinations(columns: &[Column], entity: &Entity, counts: &[u64]) -> u64
    requires { counts.now ≡ map value_count entity.now.properties }
    ensures { result ≡ min (product (map (λ c. column_count entity.now c.name) columns.now)) greatest_told }
{
    let mut count = 1u64;
    for column in columns {
        count = count
            .saturating_mul(column_count(column, entity, counts))
            .min(MAX_TOLD_SIZE);
    }
    count
}

/// How many values the entity has in the column.
fn column_count(column: &Column, entity: &Entity, counts: &[u64]) -> u64
    requires { counts.now ≡ map value_count entity.now.properties }
    ensures { result ≡ column_count entity.now column.now.name }
{
    if is_key_name(&column.name) {
        return 1;
    }
    count_named(entity.properties().as_slice(), counts, &column.name)
}
