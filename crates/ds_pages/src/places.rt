//! The place of a row among columns.
ghost use Rattle.std.specs.Prelude.{◌≡◌, ◌++◌, List, length, All, IfOk, OnOk};
ghost use Rattle.ds_base.specs.declared.column.Column.{Column};
ghost use Rattle.ds_bytes.specs.Rows.{row_bytes, columns_bytes, IsRow};
ghost use Rattle.ds_bytes.specs.Lawful.{IsValueOfBytes};
ghost use Rattle.ds_pages.specs.Columns.{directions as column_directions, key_descends};
ghost use Rattle.ds_pages.specs.Places.{IsPlaced, placed};

use ds_base::{
    Buffer, ByteString, Column, IndexValue, IndexValues, Key, NoMemory, is_key_name, key_descends,
};
use ds_bytes::{encode, encode_key};
use ds_query::{Place, Row};
use std::alloc::Global;

/// The columns' directions, as a place is written by them.
#[derive(Drop)]
pub struct Directions {
    /// Of each column other than `__key__` whether it descends.
    pub values: Vec<bool>,
    /// Whether the keys descend.
    pub key: bool,
}

/// The directions of columns. A refusal means out of memory.
pub fn directions_of(alloc: Global, columns: &[Column]) -> Result<Directions, NoMemory>
    ensures values { IfOk result (λ d. d.values.items ≡ column_directions columns.now) }
    ensures key { IfOk result (λ d. d.key ≡ key_descends columns.now) }
{
    let values = value_directions(alloc, columns)?;
    let key = key_descends(columns);
    Ok(Directions { values, key })
}

fn value_directions(alloc: Global, columns: &[Column]) -> Result<Vec<bool>, NoMemory>
    ensures { IfOk result (λ d. d.items ≡ column_directions columns.now) }
{
    let mut values = Vec::with_capacity(alloc, columns.len())?;
    for column in columns {
        if !is_key_name(&column.name) {
            values.push(column.descending)?;
        }
    }
    Ok(values)
}

/// The row with its place, among columns of these directions. A refusal means out of memory.
pub fn placed(
    alloc: Global,
    directions: &Directions,
    key: Key,
    values: IndexValues,
) -> Result<Row, NoMemory>
    requires { length values ≡ length directions.now.values.items }
    ensures { (columns : List Column) → directions.now.values.items ≡ column_directions columns → directions.now.key ≡ key_descends columns
        → IfOk result (λ r. (r ≡ placed columns (record { values = values; key = key })) × IsPlaced columns r) }
{
    let place = place_of(
        alloc,
        directions.values.as_slice(),
        directions.key,
        values.as_slice(),
        &key,
    )?;
    Ok(Row { key, values, place })
}

/// The place of the row of these values and this key, among columns of these directions. A refusal means out of memory.
pub fn place_of(
    alloc: Global,
    directions: &[bool],
    key_descends: bool,
    values: &[IndexValue],
    key: &Key,
) -> Result<Place, NoMemory>
    requires { length values.now ≡ length directions.now }
    ensures place { IfOk result (λ p. p.bytes ≡ row_bytes directions.now key_descends (record { values = values.now; key = key.now })) }
    ensures lawful { OnOk result (IsRow directions.now (record { values = values.now; key = key.now })) }
{
    let mut bytes = Buffer::new(alloc);
    put_values(directions, values, &mut bytes)?;
    encode_key(key, key_descends, &mut bytes)?;
    let bytes = ByteString::of(alloc, bytes.bytes())?;
    Ok(Place { bytes })
}

fn put_values(
    directions: &[bool],
    values: &[IndexValue],
    bytes: &mut Buffer,
) -> Result<(), NoMemory>
    requires { length values.now ≡ length directions.now }
    ensures put { OnOk result (bytes.new.bytes ≡ bytes.old.bytes ++ columns_bytes directions.now values.now) }
    ensures lawful { OnOk result (All IsValueOfBytes values.now) }
{
    for slot in 0..values.len() {
        encode(&values[slot], directions[slot], bytes)?;
    }
    Ok(())
}
