//! Which bytes are a row of columns.
ghost use Rattle.std.specs.Prelude.{◌≡◌, ◌↔◌, ◌&&◌, [], IsTrue, IfOk, MatchOption};
ghost use Rattle.ds_base.specs.KeyColumn.{is_key_name, key_descends};
ghost use Rattle.ds_cursor.specs.RowSteps.{NoneStands, Behind};
ghost use Rattle.ds_cursor.specs.RowsOfColumns.{IsRowOf, IsRowIn, directions};

use ds_base::{Column, Columns, NoMemory, is_key_name, key_descends};
use ds_bytes::{decode, decode_key};
use std::alloc::Global;

/// Whether the bytes are one row of the columns, each in its direction, and nothing behind it: a value for each column other
/// than `__key__`, and then a key, which ascends where no column is `__key__`. A refusal means out of memory. One pass.
pub(crate) fn is_row_of(alloc: Global, columns: &Columns, bytes: &[u8]) -> Result<bool, NoMemory>
    ensures { IfOk result (λ row. IsTrue row ↔ IsRowOf columns.now bytes.now) }
{
    let columns = columns.as_slice();
    is_row(alloc, columns, key_descends(columns), bytes)
}

fn is_row(
    alloc: Global,
    columns: &[Column],
    descending: bool,
    bytes: &[u8],
) -> Result<bool, NoMemory>
    ensures { IfOk result (λ row. IsTrue row ↔ IsRowIn (directions columns.now) descending bytes.now) }
{
    let mut rest = bytes;
    for column in columns {
        if !is_key_name(&column.name) {
            match behind_value(alloc, rest, column.descending)? {
                None => return Ok(false),
                Some(behind) => rest = behind,
            }
        }
    }
    is_key(alloc, rest, descending)
}

/// What stands behind the value at the front; none where no value stands there.
fn behind_value<'a>(
    alloc: Global,
    bytes: &'a [u8],
    descending: bool,
) -> Result<Option<&'a [u8]>, NoMemory>
    ensures { IfOk result (λ found. MatchOption found (NoneStands descending bytes.now)
        (λ behind. Behind descending bytes.now behind.now)) }
{
    match decode(alloc, bytes, descending)? {
        None => Ok(None),
        Some(found) => Ok(Some(bytes.split_at(found.rest).1)),
    }
}

/// Whether the bytes are a key and nothing behind it.
fn is_key(alloc: Global, bytes: &[u8], descending: bool) -> Result<bool, NoMemory>
    ensures { IfOk result (λ key. IsTrue key ↔ IsRowIn [] descending bytes.now) }
{
    match decode_key(alloc, bytes, descending)? {
        None => Ok(false),
        Some(found) => Ok(found.rest == bytes.len()),
    }
}
