//! One pass over a text's tokens. Each function gives none where the text is no JSON from where it began.
ghost use Rattle.std.specs.Prelude.{◌≡◌, ◌<◌, length, option_map, IfOk, IfSome};
ghost use Rattle.json.specs.Json.{value, items, members};
ghost use Rattle.serde_json.specs.Data.{no_members};
ghost use Rattle.serde_json.specs.Read.{of_json, of_items, of_members, read};
ghost use Rattle.serde_json.specs.View.{view, items_view, members_view};
ghost use Rattle.ds_json_values.specs.Outcomes.{Gives};

use crate::number::read_number;
use json::{Reader, Scratch, Token};
use serde_json::{Map, Value};
use std::alloc::{AllocError, Global};

/// How deep arrays and objects may nest.
const MAX_DEPTH: usize = 127;

/// The JSON value of a text, as `serde_json` reads it: of an object's members with one name the last counts. None where the text
/// isn't JSON, nests deeper than 127 levels, or has a number that is too large for a float.
///
/// `scratch` is the memory for the reading. It grows to the length of the longest text in bytes, so one that is kept costs nothing
/// from the second text on. `AllocError` means out of memory alone.
pub fn read_text(
    alloc: Global,
    text: &str,
    scratch: &mut Scratch,
) -> Result<Option<Value>, AllocError>
    ensures { IfOk result (λ d. read text.now ≡ option_map view d) }
{
    let mut reader = Reader::new(text, scratch)?;
    let Some(found) = read_value(alloc, &mut reader, MAX_DEPTH)? else {
        return Ok(None);
    };
    if reader.next().is_some() {
        return Ok(None);
    }
    Ok(Some(found))
}

#[cycle(read_value)]
fn read_value(
    alloc: Global,
    reader: &mut Reader<'_>,
    depth: usize,
) -> Result<Option<Value>, AllocError>
    ensures gives { IfOk result (λ o. Gives of_json (value depth reader.old) (option_map view o) reader.new) }
    ensures shorter { IfOk result (λ o. IfSome o (λ v. length reader.new < length reader.old)) }
{
    let Some(token) = reader.next() else {
        return Ok(None);
    };
    match token {
        Token::String(text) => Ok(Some(Value::String(String::from_str(alloc, text)?))),
        Token::Number(text) => match read_number(text) {
            Some(number) => Ok(Some(Value::Number(number))),
            None => Ok(None),
        },
        Token::Bool(b) => Ok(Some(Value::Bool(b))),
        Token::Null => Ok(Some(Value::Null)),
        Token::EndObject | Token::EndArray | Token::Key(_) | Token::Bad => Ok(None),
        Token::BeginArray => {
            if depth == 0 {
                return Ok(None);
            }
            match read_items(alloc, reader, depth - 1)? {
                Some(found) => Ok(Some(Value::Array(found))),
                None => Ok(None),
            }
        }
        Token::BeginObject => {
            if depth == 0 {
                return Ok(None);
            }
            match read_members(alloc, reader, depth - 1)? {
                Some(found) => Ok(Some(Value::Object(found))),
                None => Ok(None),
            }
        }
    }
}

#[cycle(read_value)]
fn read_items(
    alloc: Global,
    reader: &mut Reader<'_>,
    depth: usize,
) -> Result<Option<Vec<Value>>, AllocError>
    ensures gives { IfOk result (λ o. Gives of_items (items (value depth) (length reader.old) reader.old)
        (option_map (λ v. items_view v.items) o) reader.new) }
    ensures shorter { IfOk result (λ o. IfSome o (λ v. length reader.new < length reader.old)) }
{
    let mut found = Vec::new(alloc);
    'items: while !reader.take_end_array() {
        let Some(item) = read_value(alloc, reader, depth)? else {
            return Ok(None);
        };
        found.push(item)?;
    }
    Ok(Some(found))
}

#[cycle(read_value)]
fn read_members(
    alloc: Global,
    reader: &mut Reader<'_>,
    depth: usize,
) -> Result<Option<Map<String, Value>>, AllocError>
    ensures gives { IfOk result (λ o.
        Gives (λ ms. of_members ms no_members) (members (value depth) (length reader.old) reader.old)
        (option_map (λ m. members_view m.entries) o) reader.new) }
    ensures shorter { IfOk result (λ o. IfSome o (λ m. length reader.new < length reader.old)) }
{
    let mut found = Map::new(alloc);
    'members: loop {
        let Ok(next) = reader.next_key() else {
            return Ok(None);
        };
        let Some(name) = next else {
            return Ok(Some(found));
        };
        let key = String::from_str(alloc, name)?;
        let Some(member) = read_value(alloc, reader, depth)? else {
            return Ok(None);
        };
        drop(found.insert(key, member)?);
    }
}
