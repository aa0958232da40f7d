//! Values, and the values of a property.
ghost use Rattle.std.specs.Prelude.{◌≡◌, ℕ, ◌∷◌, Some, Ok, IfSome};
ghost use Rattle.std.specs.Option.{ok_or};
ghost use Rattle.json.specs.Token as token;
ghost use Rattle.json.specs.Reads.{token_of};
ghost use Rattle.serde_json.specs.Data.{Num, Data, number};
ghost use Rattle.serde_json.specs.Read.{number_of};
ghost use Rattle.serde_json.specs.Find.{as_str};
ghost use Rattle.ds_base.specs.declared.value.Value.TheVariants as value;
ghost use Rattle.ds_json_reading.specs.declared.refusal.Refusal.TheVariants as refusal;
ghost use Rattle.ds_json_reading.specs.Reading.{read_as, integer_of};
ghost use Rattle.ds_json_reading.specs.Keys.{key_of};
ghost use Rattle.ds_json_reading.specs.Values.{tagged_value_of, value_of, property_values_of};
ghost use Rattle.ds_line_reading.specs.Parts.{IsRead, data_of};

use crate::form::LineForm;
use crate::keys::LineKeyForm;
use crate::scalars::{copied, read_integer, read_text};
use ds_base::{Value, Values};
use json::{Reader, Token};
use std::alloc::Global;

/// A value.
#[derive(Drop)]
pub struct LineValueForm;

impl LineForm for LineValueForm {
    type Item = Value;

    ghost reads = { λ _. value_of };

    fn read(&self, alloc: Global, reader: &mut Reader<'_>, depth: usize) -> Option<Value> {
        let token = reader.next()?;
        match token {
            Token::BeginObject => read_tagged(alloc, reader, depth),
            _ => scalar(alloc, token),
        }
    }
}

/// The value of one token.
fn scalar(alloc: Global, token: Token<'_>) -> Option<Value>
    ensures { IfSome result (λ v. (d : Data) × (data_of (token_of token.entry) ≡ Some d) × (value_of d ≡ Ok v)) }
{
    match token {
        Token::Null => Some(Value::Null),
        Token::Bool(b) => Some(Value::Bool(b)),
        Token::Number(text) => integer(text),
        Token::String(text) => match copied(alloc, text) {
            Some(text) => Some(Value::Str(text)),
            None => None,
        },
        _ => None,
    }
}

/// The integer that a number's text writes, as a value.
fn integer(text: &str) -> Option<Value>
    ensures { IfSome result (λ v. (m : Num) × (number_of text.now ≡ Some m) × (value_of (number m) ≡ Ok v)) }
{
    match read_integer(text) {
        Some(n) => Some(Value::Int(n)),
        None => None,
    }
}

/// The date that a number's text writes.
fn date(text: &str) -> Option<Value>
    ensures { IfSome result (λ v. (m : Num) × (number_of text.now ≡ Some m)
        × (read_as value.Date (ok_or (integer_of (number m)) refusal.Value) ≡ Ok v)) }
{
    match read_integer(text) {
        Some(microseconds) => Some(Value::Date(microseconds)),
        None => None,
    }
}

/// Reads the value in an object that has begun, whose one member tells its type by its name.
fn read_tagged(alloc: Global, reader: &mut Reader<'_>, depth: usize) -> Option<Value>
    ensures { IfSome result (λ v. IsRead depth value_of (token.begin_object ∷ reader.old) v reader.new) }
{
    if depth == 0 {
        return None;
    }
    let Ok(Some(name)) = reader.next_key() else {
        return None;
    };
    let value = read_tagged_value(alloc, name, reader, depth - 1)?;
    let Ok(None) = reader.next_key() else {
        return None;
    };
    Some(value)
}

/// Reads a value by the name of its type.
fn read_tagged_value(
    alloc: Global,
    name: &str,
    reader: &mut Reader<'_>,
    depth: usize,
) -> Option<Value>
    ensures { IfSome result (λ v. IsRead depth (tagged_value_of name.now) reader.old v reader.new) }
{
    match name {
        "date" => read_date(reader),
        "text" => read_long_text(alloc, reader),
        "key" => read_key(alloc, reader, depth),
        _ => None,
    }
}

fn read_date(reader: &mut Reader<'_>) -> Option<Value>
    ensures { (depth : ℕ) → IfSome result (λ v. IsRead depth (λ d. read_as value.Date (ok_or (integer_of d) refusal.Value)) reader.old v
        reader.new) }
{
    match reader.next() {
        Some(Token::Number(text)) => date(text),
        _ => None,
    }
}

fn read_long_text(alloc: Global, reader: &mut Reader<'_>) -> Option<Value>
    ensures { (depth : ℕ) → IfSome result (λ v. IsRead depth (λ d. read_as value.Text (ok_or (as_str d) refusal.Value)) reader.old v
        reader.new) }
{
    match read_text(alloc, reader) {
        Some(text) => Some(Value::Text(text)),
        None => None,
    }
}

fn read_key(alloc: Global, reader: &mut Reader<'_>, depth: usize) -> Option<Value>
    ensures { IfSome result (λ v. IsRead depth (λ d. read_as value.Key (key_of d)) reader.old v reader.new) }
{
    match LineKeyForm.read(alloc, reader, depth) {
        Some(key) => Some(Value::Key(key)),
        None => None,
    }
}

/// Reads the one value of a property that indexes hold. `true` says so.
pub fn read_property_parts(
    alloc: Global,
    reader: &mut Reader<'_>,
    depth: usize,
) -> Option<(bool, Values)>
    ensures { IfSome result (λ p. IsRead depth property_values_of reader.old p reader.new) }
{
    let value = LineValueForm.read(alloc, reader, depth)?;
    if value.is_faulty(true) {
        return None;
    }
    match Values::of_one(alloc, value) {
        Ok(values) => Some((true, values)),
        Err(_) => None,
    }
}
