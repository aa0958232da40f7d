//! The rows of an entity in the composite indexes of its kind.
ghost use Rattle.std.specs.Prelude.{◌≡◌, [], ◌∷◌, ◌++◌, cond, flat_map, map, IfOk, OnOk};
ghost use Rattle.ds_base.specs.declared.index_value.IndexValue.TheVariants as class;
ghost use Rattle.ds_rows.specs.IndexedValues.{kind_of, kind_in, property_values, column_values};
ghost use Rattle.ds_rows.specs.Indexes.{RowIndex, Composite, composite_indexes, front_columns, last_key_descends};
ghost use Rattle.ds_rows.specs.Indexes.{has_ancestor, directions, index_key_descends};
ghost use Rattle.ds_rows.specs.Rows.{rows_in, ancestors, index_front, index_lists};
ghost use Rattle.ds_bytes.specs.Encoding.{key_encoding};
ghost use Rattle.ds_entity.specs.Entities.{EntityParts};
ghost use Rattle.ds_indexdef.specs.Definitions.{AreDefs};
ghost use Rattle.ds_rows.specs.Ways.{lists_of, directions_of, ancestor_rows};

use crate::fronts::put_composite_front;
use crate::indexed::{kind_of, values_named};
use crate::row_set::RowWriter;
use crate::ways::{ColumnValues, put_rows};
use ds_base::{Buffer, Column, IndexValue, IndexValues, Key, NoMemory, TryCopy, is_key_name};
use ds_bytes::{encode_ancestor, encode_key};
use ds_entity::Entity;
use ds_indexdef::{Defs, IndexDef};
use std::alloc::Global;

/// Puts the rows in the composite indexes of the entity's kind. The indexed values of its properties are given.
pub(crate) fn put_composite_rows(
    alloc: Global,
    defs: &Defs,
    entity: &Entity,
    lists: &[IndexValues],
    front: &mut Buffer,
    rows: &mut RowWriter,
) -> Result<(), NoMemory>
    requires theirs { lists.now ≡ map property_values entity.now.properties }
    requires begun { rows.old.begun ≡ [] }
    ensures put { OnOk result (rows.new ≡ record {
      rows = rows.old.rows
          ++ flat_map (rows_in entity.now) (composite_indexes defs.now entity.now);
      begun = [];
    }) }
    ensures lawful { OnOk result (AreDefs defs.now) }
{
    for (position, def) in defs.as_slice().iter().enumerate() {
        put_if_of_kind(alloc, position as u32, def, entity, lists, front, rows)?;
    }
    Ok(())
}

/// Puts the rows in one composite index; none where it is of another kind.
fn put_if_of_kind(
    alloc: Global,
    position: u32,
    def: &IndexDef,
    entity: &Entity,
    lists: &[IndexValues],
    front: &mut Buffer,
    rows: &mut RowWriter,
) -> Result<(), NoMemory>
    requires theirs { lists.now ≡ map property_values entity.now.properties }
    requires begun { rows.old.begun ≡ [] }
    ensures { OnOk result (rows.new ≡ record {
      rows = rows.old.rows
          ++ cond (kind_in def.now.kind entity.now.key) (rows_in entity.now (Composite position def.now)) [];
      begun = [];
    }) }
{
    if def.kind.bytes() != kind_of(entity.key()) {
        return Ok(());
    }
    put_composite(alloc, position, def, entity, lists, front, rows)
}

/// Puts the rows in one composite index of the entity's kind.
fn put_composite(
    alloc: Global,
    position: u32,
    def: &IndexDef,
    entity: &Entity,
    lists: &[IndexValues],
    front: &mut Buffer,
    rows: &mut RowWriter,
) -> Result<(), NoMemory>
    requires theirs { lists.now ≡ map property_values entity.now.properties }
    requires begun { rows.old.begun ≡ [] }
    ensures { OnOk result (rows.new ≡ record { rows = rows.old.rows ++ rows_in entity.now (Composite position def.now); begun = [] }) }
{
    let own_key = own_key(alloc, entity.key())?;
    let values = values_in(
        alloc,
        front_columns(def.columns.as_slice()),
        entity,
        lists,
        own_key.as_slice(),
    )?;
    let mut key = Buffer::new(alloc);
    encode_key(
        entity.key(),
        last_key_descends(def.columns.as_slice()),
        &mut key,
    )?;
    put_composite_front(entity.key().namespace(), position, front)?;
    put_for_index(
        def.ancestor,
        entity.key(),
        values.as_slice(),
        key.bytes(),
        front,
        rows,
    )
}

/// Puts the rows in an index behind what `front` has: once for each ancestor of the key, or without ancestors.
fn put_for_index(
    ancestor: bool,
    key: &Key,
    columns: &[ColumnValues],
    last: &[u8],
    front: &mut Buffer,
    rows: &mut RowWriter,
) -> Result<(), NoMemory>
    requires { rows.old.begun ≡ [] }
    ensures { (e : EntityParts) (i : RowIndex) → e.key ≡ key.now → has_ancestor i ≡ ancestor
        → front.old.bytes ≡ index_front i e.key.namespace (kind_of e.key) → last.now ≡ key_encoding (index_key_descends i) e.key
        → lists_of columns.now ≡ index_lists e i → directions_of columns.now ≡ directions i
        → OnOk result (rows.new ≡ record { rows = rows.old.rows ++ rows_in e i; begun = [] }) }
{
    if ancestor {
        return put_for_ancestors(key, columns, last, front, rows);
    }
    put_rows(front.bytes(), columns, last, rows)
}

/// The key as the one value of a column that holds it.
fn own_key(alloc: Global, key: &Key) -> Result<IndexValues, NoMemory>
    ensures { IfOk result (λ values. values ≡ class.Key key.now ∷ []) }
{
    let mut values = Vec::new(alloc);
    values.push(IndexValue::Key(key.copy(alloc)?))?;
    Ok(IndexValues::from(values))
}

/// Puts the rows once for each ancestor of the key, from its root to itself, behind what `front` has.
fn put_for_ancestors(
    key: &Key,
    columns: &[ColumnValues],
    last: &[u8],
    front: &mut Buffer,
    rows: &mut RowWriter,
) -> Result<(), NoMemory>
    requires begun { rows.old.begun ≡ [] }
    ensures { OnOk result (rows.new ≡ record {
      rows = rows.old.rows
          ++ flat_map (ancestor_rows front.old.bytes columns.now last.now) (ancestors key.now);
      begun = [];
    }) }
{
    let begun = front.bytes().len();
    for place in 0..key.elems().len() {
        front.truncate(begun);
        encode_ancestor(key, place + 1, front)?;
        put_rows(front.bytes(), columns, last, rows)?;
    }
    Ok(())
}

/// What the entity has in each column. `own_key` is its key as the one value of a column of keys.
fn values_in<'a>(
    alloc: Global,
    columns: &[Column],
    entity: &Entity,
    lists: &'a [IndexValues],
    own_key: &'a [IndexValue],
) -> Result<Vec<ColumnValues<'a>>, NoMemory>
    requires theirs { lists.now ≡ map property_values entity.now.properties }
    requires own { own_key.now ≡ class.Key entity.now.key ∷ [] }
    ensures lists { IfOk result (λ values. lists_of values.items ≡ map (λ c. column_values entity.now c.name) columns.now) }
    ensures directions { IfOk result (λ values. directions_of values.items ≡ map (λ c. c.descending) columns.now) }
{
    let mut values = Vec::with_capacity(alloc, columns.len())?;
    for column in columns {
        values.push(in_column(column, entity, lists, own_key))?;
    }
    Ok(values)
}

/// What the entity has in a column.
fn in_column<'a>(
    column: &Column,
    entity: &Entity,
    lists: &'a [IndexValues],
    own_key: &'a [IndexValue],
) -> ColumnValues<'a>
    requires theirs { lists.now ≡ map property_values entity.now.properties }
    requires own { own_key.now ≡ class.Key entity.now.key ∷ [] }
    ensures values { result.values.now ≡ column_values entity.now column.now.name }
    ensures direction { result.descending ≡ column.now.descending }
{
    let values = if is_key_name(&column.name) {
        own_key
    } else {
        values_named(entity.properties().as_slice(), lists, &column.name)
    };
    ColumnValues {
        values,
        descending: column.descending,
    }
}

/// The columns without a `__key__` at their end.
fn front_columns(columns: &[Column]) -> &[Column]
    ensures { result.now ≡ front_columns columns.now }
{
    match columns.last() {
        Some(last) if is_key_name(&last.name) => &columns[..columns.len() - 1],
        _ => columns,
    }
}

/// Whether the key that ends each row descends: where `__key__` ends the columns, and descending.
fn last_key_descends(columns: &[Column]) -> bool
    ensures { result ≡ last_key_descends columns.now }
{
    match columns.last() {
        Some(last) => is_key_name(&last.name) && last.descending,
        None => false,
    }
}
