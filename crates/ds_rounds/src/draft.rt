//! A round that is being read.
ghost use Rattle.std.specs.Prelude.{◌≡◌, ℕ, ◌+◌, ◌^◌, ◌-◌, ◌<◌, ◌≤◌, ◌==◌, ◌&&◌, [], ◌∷◌, ◌++◌, List, Bool, true, false, length, take};
ghost use Rattle.std.specs.Prelude.{IfOk, OnOk, OnErr};
ghost use Rattle.ds_base.specs.Limits.{most_line_bytes};
ghost use Rattle.ds_rounds.specs.Lines.{Content, content_of, is_blank};
ghost use Rattle.ds_rounds.specs.Rounds.{is_full};
ghost use Rattle.ds_rounds.specs.Drafts.{EndsInput, EndsLine, IsLine, IsOpen, IsSame, Leaves, so_far};

use crate::lines::{Chunk, Lines, Span};
use crate::round::Round;
use ds_base::limits::{MAX_LINE_BYTES, MAX_ROUND_BYTES, MAX_ROUND_LINES};
use std::alloc::{AllocError, Global};
use std::marker::Model;
use std::mem;

/// For how many bytes there is room in a chunk, where no line is longer. One allocator's pages serve the chunk and, when its lines
/// are read, what is made of them: so it is below the size from which memory goes back to the system.
const CHUNK_ROOM: usize = 65_536;

/// With so many bytes of lines a chunk ends.
const CHUNK_BYTES: usize = 61_440;

/// The lines of a round so far, in chunks that have ended and in one that goes on; and behind the kept bytes of that one those of
/// the line that is being read.
#[derive(Drop)]
pub(crate) struct Draft {
    first: u64,
    chunks: Vec<Chunk>,
    bytes: Vec<u8>,
    spans: Vec<Span>,
    /// How many lines there are.
    count: usize,
    /// How many bytes they count towards the most of a round: of a line that is too long, whose bytes are dropped, one more than a
    /// line may have.
    total: usize,
    /// Where the line that is being read begins.
    start: usize,
    /// Whether that line has blanks alone so far.
    blank: bool,
}

impl Model for Draft {
    ghost use Rattle.std.specs.Prelude.{◌-◌, ◌++◌, take, drop};
    ghost use Rattle.std.specs.Vec.{vec_len, vec_capacity};
    ghost use Rattle.ds_rounds.specs.Lines.{contents, lines_of_chunks};
    ghost use Rattle.ds_rounds.specs.Drafts.{DraftParts, IsDraft};

    ghost Value = { DraftParts };

    ghost view = { λ d. record {
      first = d.first;
      lines = lines_of_chunks d.chunks.items ++ contents (take d.start d.bytes.items) d.spans.items;
      kept = drop d.start d.bytes.items;
      blank = d.blank;
      byte_room = vec_capacity d.bytes - vec_len d.bytes;
      line_room = vec_capacity d.spans - vec_len d.spans;
    } };

    ghost invariant = { λ d. IsDraft d.start d.count d.total d.bytes.items d.spans.items
        (lines_of_chunks d.chunks.items ++ contents (take d.start d.bytes.items) d.spans.items) };
}

impl Draft {
    /// Nothing read yet of a round whose first line has this number. It takes no memory.
    pub fn new(alloc: Global, first: u64) -> Draft
        ensures first { result.first ≡ first }
        ensures lines { result.lines ≡ [] }
        ensures kept { result.kept ≡ [] }
        ensures blank { result.blank ≡ true }
    {
        Draft {
            first,
            chunks: Vec::new(alloc),
            bytes: Vec::new(alloc),
            spans: Vec::new(alloc),
            count: 0,
            total: 0,
            start: 0,
            blank: true,
        }
    }

    /// Whether it has no line.
    pub fn is_empty(&self) -> bool
        ensures { result ≡ (length self.now.lines == 0) }
    {
        self.count == 0
    }

    /// Makes room for one more byte and one more line.
    pub fn make_room(&mut self) -> Result<(), AllocError>
        ensures same { IsSame self.old self.new }
        ensures bytes { OnOk result (0 < self.new.byte_room) }
        ensures lines { OnOk result (0 < self.new.line_room) }
    {
        self.spans.reserve(1)?;
        self.make_byte_room(1)
    }

    /// Makes room for so many bytes more: for those of a chunk at once, and of a longer line just so many.
    fn make_byte_room(&mut self, n: usize) -> Result<(), AllocError>
        ensures same { IsSame self.old self.new }
        ensures line_room { self.new.line_room ≡ self.old.line_room }
        ensures room { OnOk result (n ≤ self.new.byte_room) }
        ensures err { OnErr result (self.old.byte_room < n) }
    {
        let len = self.bytes.len();
        if n <= self.bytes.capacity() - len {
            return Ok(());
        }
        self.bytes
            .reserve_exact(n.max(CHUNK_ROOM.saturating_sub(len)))
    }

    /// Puts bytes without a newline to the line that is being read. Of these no more are kept than are kept of a line.
    pub fn extend(&mut self, piece: &[u8]) -> Result<(), AllocError>
        ensures first { self.new.first ≡ self.old.first }
        ensures lines { self.new.lines ≡ self.old.lines }
        ensures kept { OnOk result (self.new.kept ≡ self.old.kept ++ take (most_line_bytes + 1 - length self.old.kept) piece.now) }
        ensures blank { OnOk result (self.new.blank ≡ self.old.blank && is_blank piece.now) }
        ensures line_room { self.new.line_room ≡ self.old.line_room }
        ensures err { OnErr result (self.old.byte_room < length piece.now) }
    {
        let kept = self.bytes.len() - self.start;
        let most = (MAX_LINE_BYTES + 1 - kept).min(piece.len());
        self.make_byte_room(most)?;
        self.bytes.extend_from_slice(&piece[..most])?;
        self.blank = self.blank && is_blank(piece);
        Ok(())
    }

    /// Ends the line that is being read, and says whether the round has ended with it: an empty line ends a round that has
    /// lines, and any other line is the next one and ends the round where that is full.
    pub fn end_line(&mut self) -> Result<bool, AllocError>
        requires open { IsOpen self.old }
        requires fits { self.old.first + 1 < 2 ^ 64 }
        ensures leaves { IfOk result (λ ended. Leaves ended self.old self.new) }
        ensures rounds { IfOk result (λ ended. (line : List ℕ) → IsLine self.old line → EndsLine ended self.old self.new line) }
        ensures err { OnErr result (self.old.line_room < 1) }
    {
        if self.blank {
            self.drop_line();
            if self.is_empty() {
                self.first += 1;
                return Ok(false);
            }
            return Ok(true);
        }
        self.add_line()?;
        self.end_chunk();
        Ok(self.is_full())
    }

    /// Whether the round takes no further line.
    fn is_full(&self) -> bool
        requires { self.now.kept ≡ [] }
        ensures { result ≡ is_full (so_far self.now) }
    {
        self.count >= MAX_ROUND_LINES || self.total >= MAX_ROUND_BYTES
    }

    /// Ends the line that is being read with the input, where an empty one is no line.
    pub fn end_input(&mut self) -> Result<(), AllocError>
        requires { IsOpen self.old }
        ensures within { OnOk result (length self.new.lines ≤ length self.old.lines + 1) }
        ensures first { OnOk result (self.new.first ≡ self.old.first) }
        ensures between { OnOk result (self.new.kept ≡ []) }
        ensures rounds { OnOk result ((line : List ℕ) → IsLine self.old line → EndsInput self.old self.new line) }
    {
        if self.blank {
            self.drop_line();
            return Ok(());
        }
        self.add_line()?;
        Ok(())
    }

    /// The line that is being read is the next one.
    fn add_line(&mut self) -> Result<(), AllocError>
        requires { IsOpen self.old }
        ensures first { self.new.first ≡ self.old.first }
        ensures lines { OnOk result (self.new.lines ≡ self.old.lines ++ content_of self.old.kept ∷ []) }
        ensures kept { OnOk result (self.new.kept ≡ []) }
        ensures blank { OnOk result (self.new.blank ≡ true) }
        ensures err { OnErr result (self.old.line_room < 1) }
    {
        let end = self.bytes.len();
        self.spans.push(Span {
            from: self.start,
            to: end,
        })?;
        self.count += 1;
        self.total += end - self.start;
        drop_long(&mut self.bytes, self.start);
        self.start = self.bytes.len();
        self.blank = true;
        Ok(())
    }

    /// Lines with so many bytes as a chunk has become one, where there is memory for one more, and else stay where they are.
    fn end_chunk(&mut self)
        requires { self.old.kept ≡ [] }
        ensures { IsSame self.old self.new }
    {
        if self.bytes.len() < CHUNK_BYTES || self.chunks.reserve(1).is_err() {
            return;
        }
        let alloc = *self.bytes.allocator();
        let bytes = mem::replace(&mut self.bytes, Vec::new(alloc));
        let spans = mem::replace(&mut self.spans, Vec::new(alloc));
        self.start = 0;
        self.chunks.push_reserved(Chunk { bytes, spans });
    }

    /// The line that is being read is none.
    fn drop_line(&mut self)
        ensures first { self.new.first ≡ self.old.first }
        ensures lines { self.new.lines ≡ self.old.lines }
        ensures kept { self.new.kept ≡ [] }
        ensures blank { self.new.blank ≡ true }
    {
        self.bytes.truncate(self.start);
        self.blank = true;
    }

    /// The round of its lines.
    pub fn into_round(self) -> Round
        ensures first { result.first ≡ self.first }
        ensures lines { result.lines ≡ self.lines }
    {
        Round {
            first: self.first,
            lines: Lines {
                chunks: self.chunks,
                last: Chunk {
                    bytes: self.bytes,
                    spans: self.spans,
                },
                count: self.count,
            },
        }
    }
}

/// Drops the bytes from here on where they are a line that is too long, and gives back their memory.
fn drop_long(bytes: &mut Vec<u8>, start: usize)
    requires { start ≤ length bytes.old.items }
    ensures front { take start bytes.new.items ≡ take start bytes.old.items }
    ensures longer { start ≤ length bytes.new.items }
    ensures kept { length bytes.old.items - start ≤ most_line_bytes → bytes.new.items ≡ bytes.old.items }
{
    if bytes.len() - start > MAX_LINE_BYTES {
        bytes.truncate(start);
        bytes.shrink_to(CHUNK_ROOM);
    }
}

/// Whether a line has spaces, tabs and carriage returns alone.
fn is_blank(line: &[u8]) -> bool
    ensures { result ≡ is_blank line.now }
{
    line.iter()
        .all(|b| *b == b' ' || *b == b'\t' || *b == b'\r')
}
