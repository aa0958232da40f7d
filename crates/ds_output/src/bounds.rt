//! Room for replies that are told after a commit or a draw, by bounds on their length: nothing is written to find them out.
ghost use Rattle.std.specs.Prelude.{◌≡◌, ◌+◌, ◌*◌, ◌≤◌, length, IfOk, IfSome, IsTrue, OnOk};
ghost use Rattle.ds_base.specs.Keys.{is_key};
ghost use Rattle.ds_output.specs.Room.{HasRoomForCommit, HasRoomForIds, HasRoomForNew, HasRoomForWrite};
ghost use Rattle.ds_output.specs.Room.{most_of_elem, most_of_ident, most_of_reply};

use ds_base::{Buffer, Elem, Ident, Key, NoMemory, TryCopy};
use std::alloc::{AllocError, Global};

/// No reply to a write has more bytes beside the key's texts and the elements' own signs.
const MOST_BESIDE: usize = 256;

/// No element of a key has more bytes beside its texts: its signs and a number.
const MOST_SIGNS: usize = 32;

/// A byte of a text takes no more than that in a line, as one that is escaped by its number does.
const MOST_ESCAPED: usize = 6;

/// No reply to a commit or to a draw of ids has more bytes.
const MOST_OF_NUMBERS: usize = 160;

/// Makes room for the reply to a write of this key, whatever the number of its commit or its place, and `keep` bytes beside it; false where
/// there is no memory for them.
pub fn make_room_for_write(key: &Key, keep: usize, text: &mut Buffer) -> bool
    ensures same { text.new.bytes ≡ text.old.bytes }
    ensures kept { text.old.spare ≤ text.new.spare }
    ensures suffices { IsTrue result → HasRoomForWrite key.now keep text.new.spare }
{
    make_most(key, keep, text)
}

/// Makes room for the reply to a put of this key whose last id isn't drawn yet, whatever that id and the number of its commit or its place,
/// and `keep` bytes beside it; and copies the key for it. A refusal means out of memory.
pub fn prepare_key(
    alloc: Global,
    key: &Key,
    keep: usize,
    text: &mut Buffer,
) -> Result<Key, NoMemory>
    ensures copied { IfOk result (λ copy. copy ≡ key.now) }
    ensures same { text.new.bytes ≡ text.old.bytes }
    ensures kept { text.old.spare ≤ text.new.spare }
    ensures suffices { OnOk result (HasRoomForNew key.now keep text.new.spare) }
{
    let copy = key.copy(alloc)?;
    if !make_most(key, keep, text) {
        return Err(AllocError);
    }
    Ok(copy)
}

/// Makes room for the reply to a commit, whatever its number, or that tells drawn ids, whatever the first and however many, and `keep`
/// bytes beside it; false where there is no memory for them.
pub fn make_room_for_numbers(keep: usize, text: &mut Buffer) -> bool
    ensures same { text.new.bytes ≡ text.old.bytes }
    ensures kept { text.old.spare ≤ text.new.spare }
    ensures commit { IsTrue result → HasRoomForCommit keep text.new.spare }
    ensures ids { IsTrue result → HasRoomForIds keep text.new.spare }
{
    make_beside(keep, MOST_OF_NUMBERS, text)
}

/// Makes room for so many bytes as no reply to a write of this key exceeds, and `keep` bytes beside them.
fn make_most(key: &Key, keep: usize, text: &mut Buffer) -> bool
    ensures same { text.new.bytes ≡ text.old.bytes }
    ensures kept { text.old.spare ≤ text.new.spare }
    ensures lawful { IsTrue (is_key key.now) }
    ensures most { IsTrue result → keep + most_of_reply key.now ≤ text.new.spare }
{
    match most_bytes(key) {
        Some(most) => make_beside(keep, most, text),
        None => false,
    }
}

/// Makes room for so many bytes and `keep` beside them.
fn make_beside(keep: usize, most: usize, text: &mut Buffer) -> bool
    ensures same { text.new.bytes ≡ text.old.bytes }
    ensures kept { text.old.spare ≤ text.new.spare }
    ensures most { IsTrue result → keep + most ≤ text.new.spare }
{
    match keep.checked_add(most) {
        Some(all) => text.make_room(all).is_ok(),
        None => false,
    }
}

/// No reply to a write of this key has more bytes. `None` where the number of them is too large.
fn most_bytes(key: &Key) -> Option<usize>
    ensures lawful { IsTrue (is_key key.now) }
    ensures most { IfSome result (λ most. most ≡ most_of_reply key.now) }
{
    let mut most = most_escaped(key.namespace().bytes())?.checked_add(MOST_BESIDE)?;
    for elem in key.elems().as_slice() {
        let more = most_of_elem(elem)?;
        most = most.checked_add(more)?;
    }
    Some(most)
}

fn most_of_elem(elem: &Elem) -> Option<usize>
    ensures { IfSome result (λ most. most ≡ most_of_elem elem.now) }
{
    let texts = most_escaped(elem.kind.bytes())?.checked_add(most_of_ident(&elem.ident)?)?;
    texts.checked_add(MOST_SIGNS)
}

fn most_of_ident(ident: &Ident) -> Option<usize>
    ensures { IfSome result (λ most. most ≡ most_of_ident ident.now) }
{
    match ident {
        Ident::Id(_) => Some(0),
        Ident::Name(name) => most_escaped(name.bytes()),
    }
}

fn most_escaped(text: &[u8]) -> Option<usize>
    ensures { IfSome result (λ most. most ≡ length text.now * 6) }
{
    text.len().checked_mul(MOST_ESCAPED)
}
