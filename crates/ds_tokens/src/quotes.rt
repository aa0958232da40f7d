//! The text that a string stands for.
ghost use Rattle.std.specs.Prelude.{◌≡◌, ◌<◌, length, IfOk, MatchOption};
ghost use Rattle.std.specs.List.{before_first, after_first, position_or_len};
ghost use Rattle.ds_tokens.specs.Pieces.{undoubled, without_second};
ghost use Rattle.ds_tokens.specs.Tokens.{is_quote};

use crate::lexer::runs::{byte_at, skip};
use ds_base::{NoMemory, TextString};
use std::alloc::Global;

/// What is between the quotes of a string, with one quote for each two.
pub fn undoubled(alloc: Global, raw: &str) -> Result<TextString, NoMemory>
    ensures { IfOk result (λ text. text ≡ undoubled raw.now) }
{
    let mut text = String::with_capacity(alloc, raw.len())?;
    let mut rest = raw;
    'quotes: loop {
        match split_quote(rest) {
            Some((piece, behind)) => {
                text.push_str(piece)?;
                text.push_str("'")?;
                rest = without_second(behind);
            }
            None => {
                text.push_str(rest)?;
                return Ok(TextString::from_string(text));
            }
        }
    }
}

/// What stands before the first quote, and what behind it.
pub fn split_quote(text: &str) -> Option<(&str, &str)>
    ensures { MatchOption result (position_or_len is_quote text.now ≡ length text.now)
        (λ parts. (position_or_len is_quote text.now < length text.now)
        × (parts.0.now ≡ before_first is_quote text.now)
        × (parts.1.now ≡ after_first is_quote text.now)) }
{
    text.split_once('\'')
}

/// What follows a quote, without the second one that it may be doubled by.
fn without_second(text: &str) -> &str
    ensures { result.now ≡ without_second text.now }
{
    if byte_at(text, 0) == b'\'' {
        skip(text, 1)
    } else {
        text
    }
}
