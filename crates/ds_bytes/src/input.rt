//! The parts of an encoding, read from the front of bytes.
ghost use Rattle.std.specs.Prelude.{◌≡◌, ℕ, ◌<◌, ◌≤◌, ◌++◌, ◌^◌, length, take, drop, slice_get, string_bytes, IsUtf8, MatchOption, IfOk};
ghost use Rattle.ds_lanes.specs.Kernels.{first_zero, complement};
ghost use Rattle.ds_bytes.specs.Encoding.{directed, escaped, eight_bytes};
ghost use Rattle.ds_bytes.specs.Lawful.{IsText};
ghost use Rattle.ds_base.specs.Bytes.{AreBytes};
ghost use Rattle.ds_bytes.specs.Reading.{Begins, NoneBegins, ReadsFront};

use crate::blocks::BLOCK;
use crate::marks::{STAYS, TEXT_END, ZERO};
use ds_base::{ByteString, NoMemory, TextString};
use ds_lanes::{complement, first_zero};
use std::alloc::Global;

/// Leaves in `dst` the bytes of `src` as they stand in ascending order.
fn direct(dst: &mut [u8], src: &[u8], descending: bool)
    requires { length dst.old ≡ length src.now }
    ensures { dst.new ≡ directed descending src.now }
{
    if descending {
        complement(dst, src);
    } else {
        dst.copy_from_slice(src);
    }
}

/// The byte at a place, as it stands in ascending order; none past the end.
pub(crate) fn byte_at(bytes: &[u8], at: usize, descending: bool) -> Option<u8>
    ensures { result ≡ slice_get (directed descending bytes.now) at }
{
    match bytes.get(at) {
        None => None,
        Some(byte) => Some(if descending { 255 - *byte } else { *byte }),
    }
}

/// What is behind the first bytes.
pub(crate) fn behind(bytes: &[u8], first: usize) -> &[u8]
    requires { first ≤ length bytes.now }
    ensures { result.now ≡ drop first bytes.now }
{
    bytes.split_at(first).1
}

/// The number of 8 bytes at the front; none where there are fewer.
pub(crate) fn read_number(bytes: &[u8], descending: bool) -> Option<u64>
    ensures { MatchOption result (length bytes.now < 8) (λ n. Begins eight_bytes (directed descending bytes.now) n 8) }
{
    if bytes.len() < 8 {
        return None;
    }
    let mut eight = [0; 8];
    direct(&mut eight, bytes.split_at(8).0, descending);
    Some(u64::from_be_bytes(eight))
}

/// The text at the front, with its zero bytes as they were before they were escaped.
pub(crate) fn read_bytes(
    alloc: Global,
    bytes: &[u8],
    descending: bool,
) -> Result<Option<(ByteString, usize)>, NoMemory>
    ensures { ReadsFront AreBytes escaped (directed descending bytes.now) result }
{
    let mut text = Vec::new(alloc);
    let mut taken = 0;
    let mut rest = bytes;
    'runs: loop {
        let run = append_run(rest, descending, &mut text)?;
        let follower = match byte_at(rest, run + 1, descending) {
            None => return Ok(None),
            Some(found) => found,
        };
        taken += run + 2;
        if follower == TEXT_END {
            return Ok(Some((ByteString::from_vec(text), taken)));
        }
        if follower != STAYS {
            return Ok(None);
        }
        text.push(ZERO)?;
        rest = behind(rest, run + 2);
    }
}

/// IsAppended the bytes before the first zero byte, and gives how many they are.
fn append_run(bytes: &[u8], descending: bool, text: &mut Vec<u8>) -> Result<usize, NoMemory>
    ensures run { IfOk result (λ run. run ≡ first_zero (directed descending bytes.now)) }
    ensures appended { IfOk result (λ run. text.new.items ≡ text.old.items ++ take run (directed descending bytes.now)) }
    ensures within { IfOk result (λ run. run ≤ length bytes.now) }
{
    if descending {
        return append_turned_run(bytes, text);
    }
    let run = first_zero(bytes);
    text.extend_from_slice(bytes.split_at(run).0)?;
    Ok(run)
}

/// The same of bytes that are each taken from 255, a block at a time.
fn append_turned_run(bytes: &[u8], text: &mut Vec<u8>) -> Result<usize, NoMemory>
    ensures run { IfOk result (λ run. run ≡ first_zero (complement bytes.now)) }
    ensures appended { IfOk result (λ run. text.new.items ≡ text.old.items ++ take run (complement bytes.now)) }
    ensures within { IfOk result (λ run. run ≤ length bytes.now) }
{
    let mut run = 0;
    let mut rest = bytes;
    while rest.len() > BLOCK {
        let (block, behind) = rest.split_at(BLOCK);
        let plain = append_block_run(block, text)?;
        run += plain;
        if plain < BLOCK {
            return Ok(run);
        }
        rest = behind;
    }
    let plain = append_block_run(rest, text)?;
    Ok(run + plain)
}

fn append_block_run(bytes: &[u8], text: &mut Vec<u8>) -> Result<usize, NoMemory>
    requires { length bytes.now ≤ BLOCK }
    ensures run { IfOk result (λ run. run ≡ first_zero (complement bytes.now)) }
    ensures appended { IfOk result (λ run. text.new.items ≡ text.old.items ++ take run (complement bytes.now)) }
    ensures within { IfOk result (λ run. run ≤ length bytes.now) }
{
    let mut block = [0; BLOCK];
    let turned = &mut block[..bytes.len()];
    complement(turned, bytes);
    let run = first_zero(turned);
    text.extend_from_slice(&turned[..run])?;
    Ok(run)
}

/// The text at the front, which is UTF-8.
pub(crate) fn read_text(
    alloc: Global,
    bytes: &[u8],
    descending: bool,
) -> Result<Option<(TextString, usize)>, NoMemory>
    ensures { ReadsFront IsText escaped (directed descending bytes.now) result }
{
    match read_bytes(alloc, bytes, descending)? {
        None => Ok(None),
        Some((text, taken)) => match String::from_utf8(text.into_vec()) {
            Ok(text) => Ok(Some((text_of(text), taken))),
            Err(_) => Ok(None),
        },
    }
}

/// The text of a string, which is UTF-8.
fn text_of(string: String) -> TextString
    ensures value { result ≡ string_bytes string }
    ensures utf8 { IsUtf8 result }
{
    let text = TextString::from_string(string);
    let _ = text.bytes();
    text
}
