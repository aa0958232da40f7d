//! A growing list of bytes that tells how much room it has.
ghost use Rattle.std.specs.Prelude.{◌≡◌, ◌≤◌, ◌+◌, [], ◌++◌, length, take, OnOk, OnErr, IsOk};

use crate::text::ByteString;
use std::alloc::{AllocError, Global};
use std::marker::Model;

/// Bytes with room behind them. Where a promise rests on memory that was taken before, as for a reply that may not be
/// refused any more, the bytes are put here: contracts see the bytes and `spare`, how many more are taken without memory.
#[derive(Drop)]
pub struct Buffer {
    bytes: Vec<u8>,
}

impl Model for Buffer {
    ghost use Rattle.std.specs.Prelude.{◌-◌};
    ghost use Rattle.std.specs.Vec.{vec_len, vec_capacity};
    ghost use Rattle.ds_base.specs.Buffers.{BufferParts};

    ghost Value = { BufferParts };

    ghost view = { λ b. record { bytes = b.bytes.items; spare = vec_capacity b.bytes - vec_len b.bytes } };
}

impl Buffer {
    /// The empty buffer, without room. It takes no memory.
    pub fn new(alloc: Global) -> Buffer
        ensures { result ≡ record { bytes = []; spare = 0 } }
    {
        Buffer {
            bytes: Vec::new(alloc),
        }
    }

    /// The bytes so far.
    pub fn bytes(&self) -> &[u8]
        ensures { result.now ≡ self.now.bytes }
    {
        self.bytes.as_slice()
    }

    /// Puts `piece` at the end. It is refused only when out of memory, which leaves the bytes as they were and takes
    /// no room, and is never refused where the room suffices.
    pub fn append(&mut self, piece: &[u8]) -> Result<(), AllocError>
        ensures ok { OnOk result (self.new.bytes ≡ self.old.bytes ++ piece.now) }
        ensures room { self.old.spare ≤ self.new.spare + length piece.now }
        ensures err { OnErr result (self.new.bytes ≡ self.old.bytes) }
        ensures kept { OnErr result (self.old.spare ≤ self.new.spare) }
        ensures succeeds { length piece.now ≤ self.old.spare → IsOk result }
    {
        self.bytes.extend_from_slice(piece)
    }

    /// Keeps the first `keep` bytes and takes the others out; the room that they had stays. It takes no memory.
    pub fn truncate(&mut self, keep: usize)
        ensures bytes { self.new.bytes ≡ take keep self.old.bytes }
        ensures room { length self.old.bytes + self.old.spare ≡ length self.new.bytes + self.new.spare }
    {
        self.bytes.truncate(keep)
    }

    /// Makes room for `more` bytes: after it so many bytes are appended without memory. A refusal changes nothing, and
    /// never comes where there is the room already.
    pub fn make_room(&mut self, more: usize) -> Result<(), AllocError>
        ensures same { self.new.bytes ≡ self.old.bytes }
        ensures ok { OnOk result (more ≤ self.new.spare) }
        ensures kept { self.old.spare ≤ self.new.spare }
        ensures err { OnErr result (self.new ≡ self.old) }
        ensures succeeds { more ≤ self.old.spare → IsOk result }
    {
        self.bytes.reserve(more)
    }

    /// Takes the bytes out and keeps the room that they had. It takes no memory.
    pub fn clear(&mut self)
        ensures { self.new ≡ record { bytes = []; spare = self.old.spare + length self.old.bytes } }
    {
        self.bytes.clear()
    }
}

impl From<ByteString> for Buffer {
    ghost from_gives = { λ s b. b.bytes ≡ s };

    /// The buffer of these bytes, moved in; how much room there is isn't known. It takes no memory.
    fn from(bytes: ByteString) -> Buffer {
        Buffer {
            bytes: bytes.into_vec(),
        }
    }
}

impl From<Buffer> for ByteString {
    ghost from_gives = { λ b s. s ≡ b.bytes };

    /// The bytes of the buffer, moved out. It takes no memory.
    fn from(buffer: Buffer) -> ByteString {
        ByteString::from_vec(buffer.bytes)
    }
}
