//! Values, and the values of a property.
ghost use Rattle.std.specs.Prelude.{◌≡◌, ◌↔◌, ◌∷◌, [], Ok, Err, length, true, false, IsSome, IfSome, cond, option_and_then};
ghost use Rattle.std.specs.Option.{ok_or};
ghost use Rattle.std.specs.Result.{result_ok};
ghost use Rattle.base64.specs.Engines.{standard};
ghost use Rattle.base64.specs.GeneralPurpose.{decode_of};
ghost use Rattle.serde_json.specs.Data.{object, member, no_members};
ghost use Rattle.serde_json.specs.Find.{as_str};
ghost use Rattle.serde_json.specs.View.{view, members_view};
ghost use Rattle.ds_base.specs.Limits.{greatest_rating};
ghost use Rattle.ds_base.specs.declared.value.Value.TheVariants as read_value_as;
ghost use Rattle.ds_base.specs.Values.{is_faulty_value};
ghost use Rattle.ds_json_reading.specs.declared.refusal.Refusal.TheVariants as refused;
ghost use Rattle.ds_json_reading.specs.Reading.{Reads, read_as, integer_of, up_to};
ghost use Rattle.ds_json_reading.specs.Keys.{key_of};
ghost use Rattle.ds_json_reading.specs.Values.{base64_of, tagged_value_of, value_of, property_value_of, values_of, property_values_of};

use crate::form::Form;
use crate::integers::up_to;
use crate::keys::KeyForm;
use crate::lists::read_each;
use crate::members::Members;
use crate::refusal::Refusal;
use base64::DecodeAllocError;
use base64::engine::general_purpose::STANDARD;
use ds_base::limits::MAX_RATING;
use ds_base::{ByteString, TextString, Value, Values};
use serde_json::Value as Json;
use std::alloc::Global;

/// A value.
#[derive(Drop)]
pub struct ValueForm;

impl Form for ValueForm {
    type Item = Value;

    ghost reads = { λ _. value_of };

    fn read(&self, alloc: Global, value: Json) -> Result<Value, Refusal> {
        match value {
            Json::Null => Ok(Value::Null),
            Json::Bool(b) => Ok(Value::Bool(b)),
            Json::Number(number) => match number.as_i64() {
                Some(n) => Ok(Value::Int(n)),
                None => Err(Refusal::Value),
            },
            Json::String(text) => Ok(Value::Str(TextString::from_string(text))),
            Json::Array(_) => Err(Refusal::Value),
            Json::Object(members) => read_tagged(alloc, members),
        }
    }
}

/// Reads the value in an object of one member, whose name tells its type.
fn read_tagged(alloc: Global, members: Members) -> Result<Value, Refusal>
    ensures { Reads Refusal.NoMemory (value_of (object (members_view members.entries))) result }
{
    match take_only(members) {
        Some((name, value)) => read_tagged_value(alloc, name.as_str(), value),
        None => Err(Refusal::Value),
    }
}

/// The member of an object that has one.
pub fn take_only(mut members: Members) -> Option<(String, Json)>
    ensures some { IfSome result (λ p. members.entries ≡ p ∷ []) }
    ensures one { IsSome result ↔ (length members.entries ≡ 1) }
{
    if members.len() != 1 {
        return None;
    }
    members.pop_first()
}

fn read_tagged_value(alloc: Global, name: &str, value: Json) -> Result<Value, Refusal>
    ensures { Reads Refusal.NoMemory (tagged_value_of name.now (view value)) result }
{
    match name {
        "date" => read_date(&value),
        "rating" => read_rating(&value),
        "bytes" => Ok(Value::Bytes(read_base64(alloc, value)?)),
        "text" => read_text(value),
        "blob" => Ok(Value::Blob(read_base64(alloc, value)?)),
        "key" => Ok(Value::Key(KeyForm.read(alloc, value)?)),
        _ => Err(Refusal::Value),
    }
}

fn read_date(value: &Json) -> Result<Value, Refusal>
    ensures { result ≡ read_as read_value_as.Date (ok_or (integer_of (view value.now)) refused.Value) }
{
    match value.as_i64() {
        Some(microseconds) => Ok(Value::Date(microseconds)),
        None => Err(Refusal::Value),
    }
}

fn read_rating(value: &Json) -> Result<Value, Refusal>
    ensures { result ≡ read_as read_value_as.Rating (ok_or (up_to greatest_rating (view value.now)) refused.Value) }
{
    match up_to(u32::from(MAX_RATING), value) {
        Some(rating) => Ok(Value::Rating(rating as u8)),
        None => Err(Refusal::Value),
    }
}

fn read_base64(alloc: Global, value: Json) -> Result<ByteString, Refusal>
    ensures { Reads Refusal.NoMemory (ok_or (base64_of (view value)) refused.Value) result }
{
    match value {
        Json::String(text) => decode(alloc, text.as_str()),
        _ => Err(Refusal::Value),
    }
}

fn decode(alloc: Global, text: &str) -> Result<ByteString, Refusal>
    ensures { Reads Refusal.NoMemory (ok_or (result_ok (decode_of standard text.now)) refused.Value) result }
{
    match STANDARD.decode(alloc, text.as_bytes()) {
        Ok(bytes) => Ok(ByteString::from_vec(bytes)),
        Err(DecodeAllocError::DecodeError(_)) => Err(Refusal::Value),
        Err(DecodeAllocError::OutOfMemory) => Err(Refusal::NoMemory),
    }
}

fn read_text(value: Json) -> Result<Value, Refusal>
    ensures { result ≡ read_as read_value_as.Text (ok_or (as_str (view value)) refused.Value) }
{
    match value {
        Json::String(text) => Ok(Value::Text(TextString::from_string(text))),
        _ => Err(Refusal::Value),
    }
}

/// Reads the values of a property, and tells whether indexes hold them.
pub fn read_property_values(alloc: Global, value: Json) -> Result<(bool, Values), Refusal>
    ensures { Reads Refusal.NoMemory (property_values_of (view value)) result }
{
    match value {
        Json::Object(members) => read_object_values(alloc, members),
        value => read_indexed(alloc, value),
    }
}

fn read_indexed(alloc: Global, value: Json) -> Result<(bool, Values), Refusal>
    ensures { Reads Refusal.NoMemory (read_as (λ vs. (true, vs)) (values_of true (view value))) result }
{
    let values = read_values(alloc, true, value)?;
    Ok((true, values))
}

fn read_object_values(alloc: Global, members: Members) -> Result<(bool, Values), Refusal>
    ensures { Reads Refusal.NoMemory (property_values_of (object (members_view members.entries))) result }
{
    match take_only(members) {
        Some((name, value)) => read_member_values(alloc, name.as_str(), value),
        None => Err(Refusal::Value),
    }
}

/// Reads the values in an object of one member: those that no index holds, or one tagged value.
fn read_member_values(alloc: Global, name: &str, value: Json) -> Result<(bool, Values), Refusal>
    ensures { Reads Refusal.NoMemory
        (property_values_of (object (member name.now (view value) no_members))) result }
{
    if name == "unindexed" {
        let values = read_values(alloc, false, value)?;
        Ok((false, values))
    } else {
        let value = read_tagged_value(alloc, name, value)?;
        let value = unless_faulty(true, value)?;
        Ok((true, only(alloc, value)?))
    }
}

/// Reads one value, or an array of them.
fn read_values(alloc: Global, indexed: bool, value: Json) -> Result<Values, Refusal>
    ensures { Reads Refusal.NoMemory (values_of indexed (view value)) result }
{
    match value {
        Json::Array(items) => read_each(alloc, &PropertyValueForm { indexed }, items),
        value => only(alloc, PropertyValueForm { indexed }.read(alloc, value)?),
    }
}

/// The list of one value.
pub fn only(alloc: Global, value: Value) -> Result<Values, Refusal>
    ensures { Reads Refusal.NoMemory (Ok (value ∷ [])) result }
{
    match Values::of_one(alloc, value) {
        Ok(values) => Ok(values),
        Err(_) => Err(Refusal::NoMemory),
    }
}

/// A value of a property.
#[derive(Drop)]
struct PropertyValueForm {
    indexed: bool,
}

impl Form for PropertyValueForm {
    type Item = Value;

    ghost reads = { λ form. property_value_of form.indexed };

    fn read(&self, alloc: Global, value: Json) -> Result<Value, Refusal> {
        let value = ValueForm.read(alloc, value)?;
        unless_faulty(self.indexed, value)
    }
}

/// The value, unless no property may have it: what indexes hold is too long.
fn unless_faulty(indexed: bool, value: Value) -> Result<Value, Refusal>
    ensures { result ≡ cond (is_faulty_value indexed value) (Err refused.Value) (Ok value) }
{
    if value.is_faulty(indexed) {
        Err(Refusal::Value)
    } else {
        Ok(value)
    }
}
