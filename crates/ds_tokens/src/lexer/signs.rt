//! Signs.
ghost use Rattle.std.specs.Prelude.{◌≡◌, ◌<◌, ◌-◌, slice_index};
ghost use Rattle.ds_tokens.specs.Fronts.{Fronts};
ghost use Rattle.ds_tokens.specs.Tokens as spec;

use crate::lexer::Front;
use crate::lexer::runs::{byte_at, skip};
use crate::token::{Mark, Piece};

/// The sign at the front.
#[tactic(auto, unfolding(crate::specs::Tokens::sign))]
pub(super) fn sign<'a>(text: &'a str) -> Front<'a>
    ensures { Fronts (spec.sign (slice_index text.now 0) (slice_index text.now 1)) text.now result }
{
    let next = byte_at(text, 1);
    match byte_at(text, 0) {
        b'*' => sign_of(text, Mark::Star, 0),
        b',' => sign_of(text, Mark::Comma, 0),
        b'(' => sign_of(text, Mark::Open, 0),
        b')' => sign_of(text, Mark::Close, 0),
        b'=' => sign_of(text, Mark::Equal, 0),
        b'<' if next == b'=' => sign_of(text, Mark::LessEqual, 1),
        b'<' => sign_of(text, Mark::Less, 0),
        b'>' if next == b'=' => sign_of(text, Mark::GreaterEqual, 1),
        b'>' => sign_of(text, Mark::Greater, 0),
        b'!' if next == b'=' => sign_of(text, Mark::NotEqual, 1),
        _ => Front::none(text),
    }
}

/// The sign whose last byte has this place.
fn sign_of<'a>(text: &'a str, mark: Mark, last: usize) -> Front<'a>
    requires few { last < 2 }
    requires there { 0 < slice_index text.now last }
    requires ascii { slice_index text.now last < 128 }
    ensures { Fronts (spec.sign_of mark last) text.now result }
{
    Front {
        piece: Piece::Fixed(mark),
        rest: skip(text, last + 1),
    }
}
