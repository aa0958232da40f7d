//! Lists of rows, in one buffer.
ghost use Rattle.std.specs.Prelude.{◌≡◌, [], ◌∷◌, ◌++◌, length, slice_get, IfOk, OnOk, IsOk};
ghost use Rattle.std.specs.Option.{option_copied};
ghost use Rattle.ds_bytes.specs.Encoding.{encoding};
ghost use Rattle.ds_bytes.specs.Lawful.{IsLawfulValue};

use ds_base::{Buffer, IndexValue, NoMemory};
use ds_bytes::encode;
use std::alloc::Global;
use std::marker::Model;

/// From which place up to which the bytes of a row stand.
#[derive(Clone, Copy)]
pub(crate) struct Span {
    pub(crate) from: usize,
    pub(crate) to: usize,
}

/// Rows as bytes, one behind the other in one buffer, so that many rows take few allocations.
///
/// Contracts see the list of their bytes.
#[derive(Drop)]
pub struct RowSet {
    bytes: Buffer,
    spans: Vec<Span>,
}

impl Model for RowSet {
    ghost use Rattle.std.specs.Prelude.{List, ℕ, All};
    ghost use Rattle.ds_rows.specs.Spans.{pieces, IsWithin};

    ghost Value = { List (List ℕ) };

    ghost view = { λ s. pieces s.bytes.bytes s.spans.items };

    ghost invariant = { λ s. All (IsWithin s.bytes.bytes) s.spans.items };
}

impl RowSet {
    /// How many rows there are.
    pub fn len(&self) -> usize
        ensures { result ≡ length self.now }
    {
        self.spans.len()
    }

    /// The bytes of the row at place `i`, counted from 0; `None` exactly where `i` is not below the length.
    pub fn get(&self, i: usize) -> Option<&[u8]>
        ensures { option_copied result ≡ slice_get self.now i }
    {
        match self.spans.as_slice().get(i) {
            None => None,
            Some(span) => Some(&self.bytes.bytes()[span.from..span.to]),
        }
    }
}

/// Rows that are whole, and the beginning of one more, which is put piece by piece.
#[derive(Drop)]
pub(crate) struct RowWriter {
    bytes: Buffer,
    spans: Vec<Span>,
    /// Where the row begins that isn't whole yet.
    begun: usize,
}

impl Model for RowWriter {
    ghost use Rattle.std.specs.Prelude.{◌≤◌, drop, length, All};
    ghost use Rattle.ds_rows.specs.Spans.{pieces, IsWithin, Written};

    ghost Value = { Written };

    ghost view = { λ w. record { rows = pieces w.bytes.bytes w.spans.items; begun = drop w.begun w.bytes.bytes } };

    ghost invariant = { λ w. All (IsWithin w.bytes.bytes) w.spans.items × (w.begun ≤ length w.bytes.bytes) };
}

impl RowWriter {
    /// No row, with room for so many rows of so many bytes each, which fewer or shorter ones leave unused and more outgrow.
    /// Refused: lack of memory.
    pub(crate) fn with_room(alloc: Global, rows: usize, each: usize) -> Result<RowWriter, NoMemory>
        ensures { IfOk result (λ w. w ≡ record { rows = []; begun = [] }) }
    {
        let mut bytes = Buffer::new(alloc);
        bytes.make_room(rows.saturating_mul(each))?;
        let spans = Vec::with_capacity(alloc, rows)?;
        Ok(RowWriter {
            bytes,
            spans,
            begun: 0,
        })
    }

    /// Puts bytes at the end of the row.
    pub(crate) fn append(&mut self, piece: &[u8]) -> Result<(), NoMemory>
        ensures { OnOk result (self.new ≡ record { rows = self.old.rows; begun = self.old.begun ++ piece.now }) }
    {
        self.bytes.append(piece)
    }

    /// Puts the encoding of a value at the end of the row.
    pub(crate) fn append_value(
        &mut self,
        value: &IndexValue,
        descending: bool,
    ) -> Result<(), NoMemory>
        ensures put { OnOk result (self.new ≡ record { rows = self.old.rows; begun = self.old.begun ++ encoding descending value.now }) }
        ensures lawful { IsLawfulValue value.now }
    {
        encode(value, descending, &mut self.bytes)
    }

    /// Ends the row, which is whole.
    pub(crate) fn end_row(&mut self) -> Result<(), NoMemory>
        ensures { OnOk result (self.new ≡ record { rows = self.old.rows ++ self.old.begun ∷ []; begun = [] }) }
    {
        let span = Span {
            from: self.begun,
            to: self.bytes.bytes().len(),
        };
        self.spans.push(span)?;
        self.begun = span.to;
        Ok(())
    }

    /// The rows that are whole.
    pub(crate) fn finish(self) -> RowSet
        ensures { result ≡ self.rows }
    {
        RowSet {
            bytes: self.bytes,
            spans: self.spans,
        }
    }
}
