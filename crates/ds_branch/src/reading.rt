//! Rows read back from their places.
ghost use Rattle.std.specs.Prelude.{◌≡◌, ◌++◌, ◌∷◌, [], List, ℕ, IfOk};
ghost use Rattle.ds_base.specs.declared.index_value.IndexValue.{IndexValue};
ghost use Rattle.ds_base.specs.Keys.{KeyParts};
ghost use Rattle.ds_bytes.specs.Encoding.{encoding, key_encoding};
ghost use Rattle.ds_bytes.specs.Lawful.{IsLawfulKey, IsLawfulValue};
ghost use Rattle.ds_base.specs.KeyColumn.{is_key_name, key_descends};
ghost use Rattle.ds_cursor.specs.RowsOfColumns.{IsRowOf};
ghost use Rattle.ds_pages.specs.Places.{placed};
ghost use Rattle.ds_branch.specs.Reading.{ValueStands, KeyStands, StandBehind};

use ds_base::{
    ByteString, Column, IndexValue, IndexValues, Key, NoMemory, is_key_name, key_descends,
};
use ds_bytes::{decode, decode_key};
use ds_query::{Place, Row};
use std::alloc::Global;

/// The row whose place it is: a value for each column other than `__key__`, and the key. Refused: lack of memory.
pub fn row_of(alloc: Global, columns: &[Column], place: &[u8]) -> Result<Row, NoMemory>
    requires { IsRowOf columns.now place.now }
    ensures { IfOk result (λ row. (r : IsRowOf columns.now place.now) → row ≡ placed columns.now r.row) }
{
    let mut values = room_for_values(alloc, columns)?;
    let key = key_bytes(alloc, columns, place, &mut values)?;
    row_from(alloc, columns, place, values, key)
}

/// Room for the values of a row. The last column is `__key__`, for which there is no value.
pub(crate) fn room_for_values(
    alloc: Global,
    columns: &[Column],
) -> Result<Vec<IndexValue>, NoMemory>
    ensures { IfOk result (λ values. values.items ≡ []) }
{
    Vec::with_capacity(alloc, columns.len().saturating_sub(1))
}

/// Reads the values of the row whose place it is, and gives the bytes of its key, which stand behind them. Refused: lack of memory.
pub(crate) fn key_bytes<'a>(
    alloc: Global,
    columns: &[Column],
    place: &'a [u8],
    values: &mut Vec<IndexValue>,
) -> Result<&'a [u8], NoMemory>
    requires row { IsRowOf columns.now place.now }
    requires none { values.old.items ≡ [] }
    ensures { IfOk result (λ key. (r : IsRowOf columns.now place.now) → StandBehind columns.now values.new.items key.now r.row) }
{
    let mut rest = place;
    for column in columns {
        if !is_key_name(&column.name) {
            rest = put_value(alloc, rest, column.descending, values)?;
        }
    }
    Ok(rest)
}

/// The row of these values whose key stands in these bytes. Refused: lack of memory.
pub(crate) fn row_from(
    alloc: Global,
    columns: &[Column],
    place: &[u8],
    values: Vec<IndexValue>,
    bytes: &[u8],
) -> Result<Row, NoMemory>
    requires row { IsRowOf columns.now place.now }
    requires key { (r : IsRowOf columns.now place.now) → StandBehind columns.now values.items bytes.now r.row }
    ensures { IfOk result (λ row. (r : IsRowOf columns.now place.now) → row ≡ placed columns.now r.row) }
{
    let key = key_of(alloc, bytes, key_descends(columns))?;
    let copy = ByteString::of(alloc, place)?;
    Ok(Row {
        key,
        values: IndexValues::from(values),
        place: Place { bytes: copy },
    })
}

/// Puts the value that stands at the front behind the others, and gives what stands behind it.
fn put_value<'a>(
    alloc: Global,
    bytes: &'a [u8],
    descending: bool,
    values: &mut Vec<IndexValue>,
) -> Result<&'a [u8], NoMemory>
    requires { ValueStands descending bytes.now }
    ensures { IfOk result (λ rest. (v : IndexValue) (more : List ℕ) → IsLawfulValue v → bytes.now ≡ encoding descending v ++ more
        → (values.new.items ≡ values.old.items ++ v ∷ []) × (rest.now ≡ more)) }
{
    match decode(alloc, bytes, descending)? {
        Some(found) => {
            values.push(found.value)?;
            Ok(bytes.split_at(found.rest).1)
        }
        None => unreachable!(),
    }
}

/// The key that stands there.
fn key_of(alloc: Global, bytes: &[u8], descending: bool) -> Result<Key, NoMemory>
    requires { KeyStands descending bytes.now }
    ensures { IfOk result (λ key. (k : KeyParts) → IsLawfulKey k → bytes.now ≡ key_encoding descending k → key ≡ k) }
{
    match decode_key(alloc, bytes, descending)? {
        Some(found) => Ok(found.key),
        None => unreachable!(),
    }
}
