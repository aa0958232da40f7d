//! Integers, and the numbers of bindings.
ghost use Rattle.std.specs.Prelude.{◌≡◌, ◌<◌, ◌==◌, ◌||◌, true, drop, slice_index};
ghost use Rattle.std.specs.List.{prefix_len};
ghost use Rattle.std.specs.Char.{is_ascii_digit};
ghost use Rattle.ds_tokens.specs.Fronts.{Fronts};
ghost use Rattle.ds_tokens.specs.Tokens as spec;

use crate::lexer::Front;
use crate::lexer::runs::{Class, split_longer, split_run};
use crate::token::Piece;

/// The integer at the front: digits with an optional `-` in front. One that leaves 64 bits is no token.
#[tactic(auto, unfolding(crate::specs::Tokens::integer_front))]
pub(super) fn integer<'a>(text: &'a str) -> Front<'a>
    requires { (is_ascii_digit (slice_index text.now 0) || (slice_index text.now 0 == 45)) ≡ true }
    ensures { Fronts (spec.integer_front text.now) text.now result }
{
    let (number, rest) = split_longer(text, Class::Digit);
    match integer_of(number) {
        Some(n) => Front {
            piece: Piece::Integer(n),
            rest,
        },
        None => Front::none(text),
    }
}

#[tactic(auto, unfolding(crate::specs::Tokens::integer_of))]
fn integer_of(number: &str) -> Option<i64>
    requires { spec.is_integer number.now ≡ true }
    ensures { result ≡ spec.integer_of number.now }
{
    match number.parse::<i64>() {
        Ok(n) => Some(n),
        Err(_) => None,
    }
}

/// The binding by number whose colon begins the text.
#[tactic(auto, unfolding(crate::specs::Tokens::numbered_front))]
pub(super) fn numbered<'a>(text: &'a str, cited: &'a str) -> Front<'a>
    requires behind { cited.now ≡ drop 1 text.now }
    requires digits { 0 < prefix_len is_ascii_digit cited.now }
    ensures { Fronts (spec.numbered_front cited.now) text.now result }
{
    let (digits, rest) = split_run(cited, Class::Digit);
    match digits.parse::<u64>() {
        Ok(number) => Front {
            piece: Piece::Numbered(number),
            rest,
        },
        Err(_) => Front::none(text),
    }
}
