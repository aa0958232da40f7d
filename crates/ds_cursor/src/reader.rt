//! What texts stand for as cursors.
ghost use Rattle.std.specs.Prelude.{◌≡◌, ◌+◌, ◌*◌, ◌^◌, IfOk, Ok, Err};
ghost use Rattle.std.specs.Result.{result_ok};
ghost use Rattle.base64.specs.Engines.{standard};
ghost use Rattle.base64.specs.GeneralPurpose.{decode_of};
ghost use Rattle.ds_base.specs.Memory.{UnlessNoMemory};
ghost use Rattle.ds_cursor.specs.Cursors.{CursorIs, PartsAre, PlaceIs, parts_of_bytes, parts_with, is_version, is_of_branch, cursor_fault};

use crate::cursor::CursorRefused;
use crate::query_bytes::{put_query, version_of};
use crate::rows::is_row_of;
use base64::DecodeAllocError;
use base64::engine::general_purpose::STANDARD;
use ds_base::{Buffer, ByteString, Columns, NoMemory};
use ds_query::{Branch, Place};
use std::alloc::{AllocError, Global};
use std::marker::Model;

/// What stands in a cursor of any query.
#[derive(Drop)]
struct Parts<'a> {
    version: u8,
    query: &'a [u8],
    place: &'a [u8],
}

impl<'a> Model for Parts<'a> {
    ghost use Rattle.ds_cursor.specs.Cursors.{CursorParts};

    ghost Value = { CursorParts };

    ghost view = { λ p. record { version = p.version; query = p.query.now; place = p.place.now } };
}

/// The place that a text stands for as a cursor of the branch; none is the place before the first row. `BadCursor` where the
/// text is no cursor of any query, or its place is none in rows of the branch's columns; `CursorMismatch` where it is a cursor
/// of another query, whatever its place; `NoMemory` only when out of memory. The query bytes are compared where they stand.
pub fn read(alloc: Global, branch: &Branch, text: &str) -> Result<Option<Place>, CursorRefused>
    ensures { UnlessNoMemory cursor_fault (CursorIs branch.now text.now) result }
{
    match decode(alloc, text)? {
        None => Err(CursorRefused::BadCursor),
        Some(bytes) => read_bytes(alloc, branch, bytes.bytes()),
    }
}

/// The bytes that stand in base64, in its one strict form; none where the text is none.
fn decode(alloc: Global, text: &str) -> Result<Option<ByteString>, NoMemory>
    ensures { IfOk result (λ bytes. bytes ≡ result_ok (decode_of standard text.now)) }
{
    match STANDARD.decode(alloc, text.as_bytes()) {
        Ok(bytes) => Ok(Some(ByteString::from_vec(bytes))),
        Err(DecodeAllocError::DecodeError(_)) => Ok(None),
        Err(DecodeAllocError::OutOfMemory) => Err(AllocError),
    }
}

fn read_bytes(alloc: Global, branch: &Branch, bytes: &[u8]) -> Result<Option<Place>, CursorRefused>
    ensures { UnlessNoMemory cursor_fault (PartsAre branch.now (parts_of_bytes bytes.now)) result }
{
    match parts_of(bytes) {
        None => Err(CursorRefused::BadCursor),
        Some(parts) => read_parts(alloc, branch, &parts),
    }
}

fn read_parts(alloc: Global, branch: &Branch, parts: &Parts) -> Result<Option<Place>, CursorRefused>
    ensures { UnlessNoMemory cursor_fault (PartsAre branch.now (Some parts.now)) result }
{
    if is_of_branch(alloc, branch, parts)? {
        read_place(alloc, &branch.columns, parts.place)
    } else {
        Err(CursorRefused::CursorMismatch)
    }
}

/// The version, the query bytes and the place; none where the bytes are no cursor of any query.
fn parts_of<'a>(bytes: &'a [u8]) -> Option<Parts<'a>>
    ensures { result ≡ parts_of_bytes bytes.now }
{
    match bytes {
        [version, a, b, c, d, rest @ ..] => parts_with(*version, number_from(*a, *b, *c, *d), rest),
        _ => None,
    }
}

/// The number whose bytes these are, highest first.
fn number_from(a: u8, b: u8, c: u8, d: u8) -> usize
    ensures { result ≡ a * 2 ^ 24 + b * 2 ^ 16 + c * 2 ^ 8 + d }
{
    a as usize * 0x100_0000 + b as usize * 0x1_0000 + c as usize * 0x100 + d as usize
}

/// The parts of a cursor whose first so many bytes behind the length are its query bytes.
fn parts_with<'a>(version: u8, count: usize, rest: &'a [u8]) -> Option<Parts<'a>>
    ensures { result ≡ parts_with version count rest.now }
{
    if rest.len() < count {
        return None;
    }
    let (query, place) = rest.split_at(count);
    if is_version(version, query) {
        Some(Parts {
            version,
            query,
            place,
        })
    } else {
        None
    }
}

/// Whether there are query bytes like these under this version.
fn is_version(version: u8, query: &[u8]) -> bool
    ensures { result ≡ is_version version query.now }
{
    version == 1 || version == 2 && !query.starts_with(&[0x00, 0x01])
}

/// Whether the parts are of a cursor of this branch.
fn is_of_branch(alloc: Global, branch: &Branch, parts: &Parts) -> Result<bool, NoMemory>
    ensures { IfOk result (λ own. own ≡ is_of_branch branch.now parts.now) }
{
    if parts.version != version_of(branch) {
        return Ok(false);
    }
    let mut query = Buffer::new(alloc);
    query.make_room(parts.query.len())?;
    put_query(branch, &mut query)?;
    Ok(parts.query == query.bytes())
}

/// The place that the bytes stand for.
fn read_place(
    alloc: Global,
    columns: &Columns,
    bytes: &[u8],
) -> Result<Option<Place>, CursorRefused>
    ensures { UnlessNoMemory cursor_fault (PlaceIs columns.now bytes.now) result }
{
    match bytes {
        [0x00] => Ok(None),
        [0x01, row @ ..] => {
            if !is_row_of(alloc, columns, row)? {
                return Err(CursorRefused::BadCursor);
            }
            Ok(Some(Place {
                bytes: ByteString::of(alloc, row)?,
            }))
        }
        _ => Err(CursorRefused::BadCursor),
    }
}
