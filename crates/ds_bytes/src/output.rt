//! The pieces of an encoding, put at the end of a buffer.
ghost use Rattle.std.specs.Prelude.{◌≡◌, ◌+◌, ◌≤◌, ◌++◌, ◌∷◌, [], take, length, false, IsTrue, OnOk, OnErr, IsOk};
ghost use Rattle.ds_bytes.specs.Encoding.{directed, escaped};
ghost use Rattle.ds_bytes.specs.Writing.{Puts};

use crate::blocks::BLOCK;
use crate::marks::{STAYS, TEXT_END, ZERO};
use ds_base::{Buffer, ByteString, NoMemory};
use ds_lanes::{complement, first_zero};
use std::alloc::AllocError;

/// How long a text may be that is put in one piece: it is a block with the three bytes around it.
const SHORT: usize = BLOCK - 3;

/// A buffer that takes an encoding piece by piece, each in one direction. Once it was refused memory it takes nothing more,
/// so that only the end asks whether it was.
#[derive(Drop)]
pub(crate) struct Output {
    pub(crate) buffer: Buffer,
    /// Whether each byte is taken from 255.
    pub(crate) descending: bool,
    /// How many bytes were there before.
    pub(crate) before: usize,
    /// Whether memory was refused.
    pub(crate) refused: bool,
}

/// An output onto the end of a buffer.
#[inline]
pub(crate) fn begin(buffer: Buffer, descending: bool) -> Output
    ensures { result ≡ record { buffer = buffer; descending = descending; before = length buffer.bytes; refused = false } }
{
    let before = buffer.bytes().len();
    Output {
        buffer,
        descending,
        before,
        refused: false,
    }
}

/// The buffer, with what was put, or where memory was refused with the bytes that were there before.
#[inline]
pub(crate) fn end(output: Output) -> (Buffer, Result<(), NoMemory>)
    ensures ok { OnOk result.1 ((output.refused ≡ false) × (result.0 ≡ output.buffer)) }
    ensures err { OnErr result.1 (result.0.bytes ≡ take output.before output.buffer.bytes) }
    ensures succeeds { output.refused ≡ false → IsOk result.1 }
{
    if !output.refused {
        return (output.buffer, Ok(()));
    }
    let mut bytes = ByteString::from(output.buffer).into_vec();
    bytes.truncate(output.before);
    (Buffer::from(ByteString::from_vec(bytes)), Err(AllocError))
}

/// Puts bytes.
#[inline]
pub(crate) fn put(bytes: &[u8], output: &mut Output)
    ensures { Puts bytes.now output.old output.new }
{
    if output.refused {
        return;
    }
    if output.descending {
        put_turned(bytes, output);
    } else {
        output.refused = output.buffer.append(bytes).is_err();
    }
}

/// Puts each byte taken from 255, a block at a time.
fn put_turned(bytes: &[u8], output: &mut Output)
    requires { IsTrue output.old.descending }
    ensures { Puts bytes.now output.old output.new }
{
    let mut rest = bytes;
    while rest.len() > BLOCK {
        let (block, behind) = rest.split_at(BLOCK);
        put_block(block, output);
        rest = behind;
    }
    put_block(rest, output);
}

#[inline]
fn put_block(bytes: &[u8], output: &mut Output)
    requires turned { IsTrue output.old.descending }
    requires fits { length bytes.now ≤ BLOCK }
    ensures { Puts bytes.now output.old output.new }
{
    if output.refused {
        return;
    }
    let mut block = [0; BLOCK];
    let turned = &mut block[..bytes.len()];
    complement(turned, bytes);
    output.refused = output.buffer.append(turned).is_err();
}

/// Puts a text escaped, behind the byte that announces it. A short one without zero bytes, as most are, is one piece.
pub(crate) fn put_tagged(tag: u8, text: &[u8], output: &mut Output)
    ensures { Puts (tag ∷ escaped text.now) output.old output.new }
{
    if text.len() <= SHORT && first_zero(text) == text.len() {
        put_short(tag, text, output);
    } else {
        put(&[tag], output);
        put_text(text, output);
    }
}

fn put_short(tag: u8, text: &[u8], output: &mut Output)
    requires { length text.now ≤ SHORT }
    ensures { Puts (tag ∷ text.now ++ ZERO ∷ TEXT_END ∷ []) output.old output.new }
{
    let end = 1 + text.len();
    let mut piece = [tag; BLOCK];
    piece[1..end].copy_from_slice(text);
    piece[end..end + 2].copy_from_slice(&[ZERO, TEXT_END]);
    put(&piece[..end + 2], output);
}

/// Puts a text escaped: the runs between its zero bytes as they are.
pub(crate) fn put_text(text: &[u8], output: &mut Output)
    ensures { Puts (escaped text.now) output.old output.new }
{
    let mut rest = text;
    let mut run = first_zero(rest);
    while run < rest.len() {
        let (plain, from_zero) = rest.split_at(run);
        put(plain, output);
        put(&[ZERO, STAYS], output);
        let (_zero, behind) = from_zero.split_at(1);
        rest = behind;
        run = first_zero(rest);
    }
    put(rest, output);
    put(&[ZERO, TEXT_END], output);
}
