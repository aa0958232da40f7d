//! The lines of a round.
ghost use Rattle.std.specs.Prelude.{◌≡◌, ◌==◌, ◌++◌, length, slice_get, option_map, IfSome};
ghost use Rattle.ds_rounds.specs.Lines.{IsWithinLimit, content_at, handed, lines_of_chunks};
ghost use Rattle.ds_rounds.specs.Spans.{IsWithin};

use crate::line::Line;
use ds_base::limits::MAX_LINE_BYTES;
use std::marker::Model;

/// Where the bytes of a line stand among those of its chunk. Of a line that is too long it has the length alone.
#[derive(Clone, Copy)]
pub(crate) struct Span {
    pub from: usize,
    pub to: usize,
}

/// Lines of a round whose bytes stand together: at least 60 KiB of them, but for the last lines of a round.
#[derive(Drop)]
pub struct Chunk {
    pub(crate) bytes: Vec<u8>,
    pub(crate) spans: Vec<Span>,
}

impl Model for Chunk {
    ghost use Rattle.std.specs.Prelude.{List, length};
    ghost use Rattle.ds_rounds.specs.Lines.{Content, contents};
    ghost use Rattle.ds_rounds.specs.Spans.{AreWithin};

    ghost Value = { List Content };

    ghost view = { λ c. contents c.bytes.items c.spans.items };

    ghost invariant = { λ c. AreWithin (length c.bytes.items) c.spans.items };
}

impl Chunk {
    /// How many lines there are.
    pub fn len(&self) -> usize
        ensures { result ≡ length self.now }
    {
        self.spans.len()
    }

    /// Whether there is no line.
    pub fn is_empty(&self) -> bool
        ensures { result ≡ (length self.now == 0) }
    {
        self.spans.is_empty()
    }

    /// The line at place `i`, counted from 0; `None` exactly where `i` is not below the length.
    pub fn get(&self, i: usize) -> Option<Line<'_>>
        ensures line { option_map handed result ≡ slice_get self.now i }
        ensures within { IfSome result (λ line. IsWithinLimit line) }
    {
        match self.spans.as_slice().get(i) {
            Some(span) => Some(line_at(self.bytes.as_slice(), *span)),
            None => None,
        }
    }
}

/// The lines of a round in their order: of each its bytes, or that it was too long. Empty lines are none of them. They stand in
/// chunks, so that whoever reads one line after another can free their bytes meanwhile.
#[derive(Drop)]
pub struct Lines {
    pub(crate) chunks: Vec<Chunk>,
    pub(crate) last: Chunk,
    pub(crate) count: usize,
}

impl Model for Lines {
    ghost use Rattle.std.specs.Prelude.{◌≡◌, List, ◌++◌, length};
    ghost use Rattle.ds_rounds.specs.Lines.{Content, lines_of_chunks};

    ghost Value = { List Content };

    ghost view = { λ l. lines_of_chunks l.chunks.items ++ l.last };

    ghost invariant = { λ l. l.count ≡ length (lines_of_chunks l.chunks.items ++ l.last) };
}

impl Lines {
    /// How many lines there are.
    pub fn len(&self) -> usize
        ensures { result ≡ length self.now }
    {
        self.count
    }

    /// Whether there is no line.
    pub fn is_empty(&self) -> bool
        ensures { result ≡ (length self.now == 0) }
    {
        self.count == 0
    }

    /// The chunks in which the lines stand, in their order, and the last one, which may have no line.
    pub fn into_chunks(self) -> (Vec<Chunk>, Chunk)
        ensures { lines_of_chunks result.0.items ++ result.1 ≡ self }
    {
        (self.chunks, self.last)
    }
}

/// The line of a span of these bytes.
fn line_at(bytes: &[u8], span: Span) -> Line<'_>
    requires { IsWithin (length bytes.now) span }
    ensures line { handed result ≡ content_at bytes.now span }
    ensures within { IsWithinLimit result }
{
    if span.to - span.from > MAX_LINE_BYTES {
        return Line::TooLong;
    }
    Line::Kept(&bytes[span.from..span.to])
}
