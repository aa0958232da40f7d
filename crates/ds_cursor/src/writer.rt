//! Cursors as texts: base64 with padding of these bytes, over the texts, values and keys of `ds_bytes`; numbers are hexadecimal bytes.
//!
//!     cursor  = version length query place                 the length of the query bytes in 4 bytes, highest first
//!     version = 01 | 02                                    02 where the query has a namespace that isn't the default
//!     query   = [namespace] option(kind) option(ancestor) list(equality) range list(column) select
//!     range   = 00 | 01 property bound bound               bound = 00 | 01 value (exclusive) | 02 value (inclusive)
//!     column  = name 00 | name 01                          ascending, descending; an equality is a property and a value
//!     select  = 00 | 01 | 02 list(name)                    entities, keys, a projection
//!     place   = 00 | 01 row                                before the first row; behind a row, its columns and its key
//!     option(x) = 00 | 01 x                                list(x) = {01 x} 00
ghost use Rattle.std.specs.Prelude.{◌≡◌, ◌<◌, ◌≤◌, ◌^◌, ◌++◌, ◌∷◌, length, take, drop, IfOk, OnOk};
ghost use Rattle.std.specs.Option.{option_copied};
ghost use Rattle.base64.specs.Engines.{standard};
ghost use Rattle.base64.specs.GeneralPurpose.{decode_of, encode_of};
ghost use Rattle.ds_cursor.specs.QueryBytes.{four_bytes, query_bytes, version_of};
ghost use Rattle.ds_cursor.specs.Cursors.{place_bytes, cursor_bytes, cursor_text, IsReadBack, IsOfOneQuery};

use crate::query_bytes::{put_query, version_of};
use base64::engine::general_purpose::STANDARD;
use ds_base::{Buffer, ByteString, NoMemory, TextString};
use ds_query::{Branch, Place};
use std::alloc::{AllocError, Global};

/// How many bytes stand before the query bytes: the version, and the length in four.
const HEAD: usize = 5;

/// The cursor of a place in the branch's rows, none being the place before the first row: in base64 with padding the version,
/// the number of query bytes, the query bytes, and the place. It is read as the same place under the branch, and is a cursor
/// of another query under each branch with other query bytes. A refusal means out of memory, and comes for each branch with
/// 2^32 or more query bytes.
pub fn write(alloc: Global, branch: &Branch, place: Option<&Place>) -> Result<TextString, NoMemory>
    ensures text { IfOk result (λ t. t ≡ cursor_text branch.now (option_copied place.entry)) }
    ensures short { OnOk result (length (query_bytes branch.now) < 2 ^ 32) }
    ensures own { IfOk result (IsReadBack branch.now (option_copied place.entry)) }
    ensures others { IfOk result (IsOfOneQuery branch.now) }
{
    let bytes = cursor_bytes(alloc, branch, place)?;
    encode(alloc, bytes.as_slice())
}

/// The bytes in base64, with padding.
fn encode(alloc: Global, bytes: &[u8]) -> Result<TextString, NoMemory>
    ensures text { IfOk result (λ t. t ≡ encode_of standard bytes.now) }
    ensures back { IfOk result (λ t. decode_of standard t ≡ Ok bytes.now) }
{
    let text = STANDARD.encode(alloc, bytes)?;
    Ok(TextString::from_string(text))
}

/// The bytes of the cursor. The length is put in front when the query bytes stand, so that they are written once.
fn cursor_bytes(alloc: Global, branch: &Branch, place: Option<&Place>) -> Result<Vec<u8>, NoMemory>
    ensures bytes { IfOk result (λ b. b.items ≡ cursor_bytes branch.now (option_copied place.entry)) }
    ensures short { OnOk result (length (query_bytes branch.now) < 2 ^ 32) }
{
    let mut bytes = Buffer::new(alloc);
    bytes.append(&[version_of(branch), 0, 0, 0, 0])?;
    put_query(branch, &mut bytes)?;
    let length = bytes.bytes().len() - HEAD;
    if length > u32::MAX as usize {
        return Err(AllocError);
    }
    put_place(place, &mut bytes)?;
    let mut bytes = ByteString::from(bytes).into_vec();
    set_length(length as u32, &mut bytes);
    Ok(bytes)
}

fn put_place(place: Option<&Place>, onto: &mut Buffer) -> Result<(), NoMemory>
    ensures { OnOk result (onto.new.bytes ≡ onto.old.bytes ++ place_bytes (option_copied place.entry)) }
{
    match place {
        None => onto.append(&[0x00]),
        Some(row) => {
            onto.append(&[0x01])?;
            onto.append(row.bytes.bytes())
        }
    }
}

/// Puts the length in the four bytes behind the first.
fn set_length(number: u32, bytes: &mut [u8])
    requires { 5 ≤ length bytes.old }
    ensures { bytes.new ≡ take 1 bytes.old ++ (four_bytes number ++ drop 5 bytes.old) }
{
    let [a, b, c, d] = number.to_be_bytes();
    bytes[1] = a;
    bytes[2] = b;
    bytes[3] = c;
    bytes[4] = d;
}
