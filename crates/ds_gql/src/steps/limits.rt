//! Limit and offset, and the end.
ghost use Rattle.std.specs.Prelude.{◌≡◌};
ghost use Rattle.ds_gql.specs.Taking.{Takes};
ghost use Rattle.ds_gql.specs.Steps as spec;
ghost use Rattle.ds_tokens.specs.Pieces.{seen};

use crate::draft::{Draft, Phase};
use ds_base::limits::MAX_RESULTS;
use ds_tokens::{Mark, Piece};

impl Draft {
    /// Nothing more, but the end of the text.
    pub(super) fn at_end(&mut self, piece: Piece<'_>) -> bool
        ensures { Takes (spec.at_end self.old (seen piece.entry)) result self.new }
    {
        self.go_if(piece.is(Mark::End), Phase::Ended)
    }

    /// LIMIT, OFFSET or the end.
    pub(super) fn at_limits(&mut self, piece: Piece<'_>) -> bool
        ensures { Takes (spec.at_limits self.old (seen piece.entry)) result self.new }
    {
        if piece.is(Mark::Limit) {
            self.go(Phase::Limit)
        } else if piece.is(Mark::Offset) {
            self.go(Phase::Offset)
        } else {
            self.at_end(piece)
        }
    }

    /// The count behind LIMIT.
    pub(super) fn at_limit(&mut self, piece: Piece<'_>) -> bool
        ensures { Takes (spec.limit_by self.old (spec.count_in (seen piece.entry))) result self.new }
    {
        match count_in(piece) {
            Some(count) => {
                self.limit = Some(count);
                self.go(Phase::LimitRead)
            }
            None => false,
        }
    }

    /// What may stand behind LIMIT and a count.
    pub(super) fn at_limit_read(&mut self, piece: Piece<'_>) -> bool
        ensures { Takes (spec.at_limit_read self.old (seen piece.entry)) result self.new }
    {
        if piece.is(Mark::Comma) {
            self.go(Phase::PairedLimit)
        } else if piece.is(Mark::Offset) {
            self.go(Phase::Offset)
        } else {
            self.at_end(piece)
        }
    }

    /// The second count of a pair: the first one was the offset.
    pub(super) fn at_paired_limit(&mut self, piece: Piece<'_>) -> bool
        ensures { Takes (spec.paired_by self.old (spec.count_in (seen piece.entry))) result self.new }
    {
        match count_in(piece) {
            Some(count) => {
                let first = self.limit.unwrap_or(0);
                self.put_pair(first, count)
            }
            None => false,
        }
    }

    fn put_pair(&mut self, offset: u32, limit: u32) -> bool
        ensures { Takes (spec.with_pair self.old offset limit) result self.new }
    {
        self.offset = offset;
        self.limit = Some(limit);
        self.go(Phase::Whole)
    }

    /// The count behind OFFSET.
    pub(super) fn at_offset(&mut self, piece: Piece<'_>) -> bool
        ensures { Takes (spec.offset_by self.old (spec.count_in (seen piece.entry))) result self.new }
    {
        match count_in(piece) {
            Some(count) => {
                self.offset = count;
                self.go(Phase::Whole)
            }
            None => false,
        }
    }
}

/// The count that stands there: an integer from 0 to 2,147,483,647.
fn count_in(piece: Piece<'_>) -> Option<u32>
    ensures { result ≡ spec.count_in (seen piece.entry) }
{
    match piece {
        Piece::Integer(n) => count_of(n),
        _ => None,
    }
}

fn count_of(n: i64) -> Option<u32>
    ensures { result ≡ spec.count_of n }
{
    if 0 <= n && n <= i64::from(MAX_RESULTS) {
        Some(n as u32)
    } else {
        None
    }
}
