//! The bytes that were read and not given yet.
ghost use Rattle.std.specs.Prelude.{◌≡◌, ◌<◌, ◌≤◌, [], length, take, drop, IfOk, OnOk, OnErr};
ghost use Rattle.std.specs.Io.KnownBytes.{Consumes, IsAtEnd, Keeps};
ghost use Rattle.ds_io.specs.Faults.{next_count};

use ds_io::{Failed, Source};
use std::alloc::{AllocError, Global};
use std::marker::Model;

/// How many bytes are asked for at a time.
pub(crate) const PIECE: usize = 65_536;

/// What is left of the bytes that one read gave. They stand in one buffer, which every read fills again.
#[derive(Drop)]
pub(crate) struct Piece {
    bytes: Vec<u8>,
    from: usize,
    to: usize,
}

impl Model for Piece {
    ghost use Rattle.std.specs.Prelude.{◌≡◌, ◌-◌, ◌≤◌, List, ℕ, length, take, drop};
    ghost use Rattle.ds_rounds.specs.declared.piece.TheConstants.{PIECE};

    ghost Value = { List ℕ };

    ghost view = { λ p. take (p.to - p.from) (drop p.from p.bytes.items) };

    ghost invariant = { λ p. (p.from ≤ p.to) × (p.to ≤ PIECE) × (length p.bytes.items ≡ PIECE) };
}

impl Piece {
    pub fn new(alloc: Global) -> Result<Piece, AllocError>
        ensures { IfOk result (λ piece. piece ≡ []) }
    {
        Ok(Piece {
            bytes: vec![in alloc; 0u8; PIECE]?,
            from: 0,
            to: 0,
        })
    }

    pub fn bytes(&self) -> &[u8]
        ensures { result.now ≡ self.now }
    {
        &self.bytes[self.from..self.to]
    }

    pub fn skip(&mut self, n: usize)
        requires { n ≤ length self.old }
        ensures { self.new ≡ drop n self.old }
    {
        self.from += n;
    }

    pub fn clear(&mut self)
        ensures { self.new ≡ [] }
    {
        self.from = self.to;
    }

    /// One read of the next bytes, at most so many; none are read exactly at the end.
    pub fn fill<I: Source>(&mut self, input: &mut I, most: usize) -> Result<(), Failed>
        requires some { 0 < most }
        requires fits { most ≤ PIECE }
        requires empty { self.old ≡ [] }
        ensures told { OnOk result (Consumes (I.left input.old) (I.left input.new) self.new) }
        ensures within { length self.new ≤ most }
        ensures at_the_end { OnOk result (self.new ≡ [] → IsAtEnd (I.left input.new)) }
        ensures no_fault { OnOk result (I.faults input.new ≡ I.faults input.old) }

        ensures untold { OnErr result (Keeps (I.left input.old) (I.left input.new)) }
        ensures none { OnErr result (self.new ≡ []) }
        ensures fault { OnErr result (I.faults input.new ≡ next_count (I.faults input.old)) }
    {
        match read_at_most(input, &mut self.bytes, most) {
            Ok(n) => {
                self.from = 0;
                self.to = n;
                Ok(())
            }
            Err(failed) => Err(failed),
        }
    }
}

/// Reads the next bytes, at most so many, into the front of `buffer`.
fn read_at_most<I: Source>(input: &mut I, buffer: &mut [u8], most: usize) -> Result<usize, Failed>
    requires { most ≤ length buffer.old }
    ensures same_length { length buffer.new ≡ length buffer.old }
    ensures within { IfOk result (λ n. n ≤ most) }
    ensures told { IfOk result (λ n. Consumes (I.left input.old) (I.left input.new) (take n buffer.new)) }
    ensures at_the_end { IfOk result (λ n. n ≡ 0 → 0 < most → IsAtEnd (I.left input.new)) }
    ensures no_fault { OnOk result (I.faults input.new ≡ I.faults input.old) }

    ensures untold { OnErr result (Keeps (I.left input.old) (I.left input.new)) }
    ensures fault { OnErr result (I.faults input.new ≡ next_count (I.faults input.old)) }
{
    input.read(&mut buffer[..most])
}
