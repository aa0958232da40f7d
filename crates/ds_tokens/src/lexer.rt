//! From bytes to tokens: the longest token at the front of a text.
ghost use Rattle.std.specs.Prelude.{◌≡◌, ◌<◌, ◌≤◌, drop, length, slice_index, false};
ghost use Rattle.ds_tokens.specs.Fronts.{Fronts};
ghost use Rattle.ds_tokens.specs.Tokens as spec;

pub(crate) mod names;
mod numbers;
pub(crate) mod runs;
mod signs;
mod strings;

use crate::token::{Mark, Piece};
use names::{binding, quoted_name, word};
use numbers::integer;
use runs::{Class, begins_word, byte_at, split_run};
use signs::sign;
use strings::string;

/// What stands at the front of a text, and what follows it. Where no token stands there, what follows doesn't count.
#[derive(Clone, Copy)]
pub struct Front<'a> {
    /// What stands there.
    pub piece: Piece<'a>,
    /// What follows it.
    pub rest: &'a str,
}

impl<'a> Front<'a> {
    ghost use Rattle.ds_tokens.specs.Fronts.{Fronts};
    ghost use Rattle.ds_tokens.specs.Tokens as spec;

    /// No token stands there.
    fn none(text: &'a str) -> Front<'a>
        ensures { Fronts None text.now result }
    {
        Front {
            piece: Piece::Strange,
            rest: text,
        }
    }
}

/// What follows the blanks at the front.
pub fn skip_blanks(text: &str) -> &str
    ensures { result.now ≡ spec.behind_blanks text.now }
{
    split_run(text, Class::Blank).1
}

/// The token at the front of a text that doesn't begin with a blank; the end where there is nothing.
pub fn first<'a>(text: &'a str) -> Front<'a>
    ensures { Fronts (spec.first text.now) text.now result }
{
    if text.is_empty() {
        return Front {
            piece: Piece::Fixed(Mark::End),
            rest: text,
        };
    }
    some_token(text)
}

#[tactic(auto, unfolding(crate::specs::Tokens::front))]
fn some_token<'a>(text: &'a str) -> Front<'a>
    ensures { Fronts (spec.front text.now) text.now result }
{
    let byte = byte_at(text, 0);
    if begins_word(byte) {
        word(text)
    } else if byte == b'"' {
        quoted_name(text)
    } else if byte == b'\'' {
        string(text)
    } else if byte == b':' {
        binding(text)
    } else if byte.is_ascii_digit() || byte == b'-' {
        integer(text)
    } else {
        sign(text)
    }
}
