//! Texts, truth values and numbers.
ghost use Rattle.std.specs.Prelude.{◌≡◌, ◌∷◌, Some, IfSome};
ghost use Rattle.json.specs.Token as token;
ghost use Rattle.serde_json.specs.Data.{Num, Data, number, string, boolean};
ghost use Rattle.serde_json.specs.Find.{as_i64};
ghost use Rattle.serde_json.specs.Read.{number_of};
ghost use Rattle.ds_json_reading.specs.Reading.{natural_of};
ghost use Rattle.ds_line_reading.specs.Parts.{BeginsWith};

use ds_base::TextString;
use ds_json_values::read_number;
use json::{Reader, Token};
use std::alloc::Global;

/// Takes a text.
pub fn take_text<'a>(reader: &mut Reader<'a>) -> Option<&'a str>
    ensures { IfSome result (λ s. reader.old ≡ token.string s.now ∷ reader.new) }
{
    match reader.next() {
        Some(Token::String(text)) => Some(text),
        _ => None,
    }
}

/// Reads a text.
pub fn read_text(alloc: Global, reader: &mut Reader<'_>) -> Option<TextString>
    ensures { IfSome result (λ s. BeginsWith reader.old (string s) reader.new) }
{
    match take_text(reader) {
        Some(text) => copied(alloc, text),
        None => None,
    }
}

/// A text of its own.
pub(crate) fn copied(alloc: Global, text: &str) -> Option<TextString>
    ensures { IfSome result (λ t. t ≡ text.now) }
{
    match TextString::of(alloc, text) {
        Ok(text) => Some(text),
        Err(_) => None,
    }
}

/// Reads a truth value.
pub fn read_flag(reader: &mut Reader<'_>) -> Option<bool>
    ensures { IfSome result (λ b. BeginsWith reader.old (boolean b) reader.new) }
{
    match reader.next() {
        Some(Token::Bool(flag)) => Some(flag),
        _ => None,
    }
}

/// The integer that a number's text writes.
pub fn read_integer(text: &str) -> Option<i64>
    ensures { IfSome result (λ n. (m : Num) × (number_of text.now ≡ Some m) × (as_i64 m ≡ Some n)) }
{
    match read_number(text) {
        Some(number) => number.as_i64(),
        None => None,
    }
}

/// Reads a number from 0 on.
pub fn read_natural(reader: &mut Reader<'_>) -> Option<u64>
    ensures { IfSome result (λ n. (d : Data) × BeginsWith reader.old d reader.new × (natural_of d ≡ Some n)) }
{
    match reader.next() {
        Some(Token::Number(text)) => natural(text),
        _ => None,
    }
}

/// The integer from 0 on that a number's text writes.
pub(crate) fn natural(text: &str) -> Option<u64>
    ensures { IfSome result (λ n. (m : Num) × (number_of text.now ≡ Some m) × (natural_of (number m) ≡ Some n)) }
{
    match read_integer(text) {
        Some(n) if n >= 0 => Some(n as u64),
        _ => None,
    }
}
