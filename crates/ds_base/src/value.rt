//! Property values, and what of them an index holds.
ghost use Rattle.std.specs.Prelude.{◌≡◌, IfOk};

use crate::index_value::IndexValue;
use crate::key::Key;
use crate::limits::{MAX_NAME_BYTES, MAX_RATING};
use crate::sequence::{Sequence, TryCopy};
use crate::text::{ByteString, TextString};
use std::alloc::{AllocError, Global};

/// A property's value.
#[derive(Drop)]
pub enum Value {
    /// The value that is no other: least in every order.
    Null,
    /// A signed number of 64 bits.
    Int(i64),
    /// Microseconds since 1970 began.
    Date(i64),
    /// From 0 to 100 in an entity.
    Rating(u8),
    /// A truth value.
    Bool(bool),
    /// At most 1,500 bytes where it is indexed.
    Bytes(ByteString),
    /// At most 1,500 bytes where it is indexed.
    Str(TextString),
    /// Long text, which no index holds.
    Text(TextString),
    /// Long bytes, which no index holds.
    Blob(ByteString),
    /// A reference to an entity, which may or may not exist.
    Key(Key),
}

/// The values of a property, in their order.
pub type Values = Sequence<Value>;

impl Value {
    ghost use Rattle.ds_base.specs.Values.{index_of, is_faulty_value};

    /// The value as an index holds it: integers, dates and ratings as numbers, strings and byte strings as byte
    /// sequences; `None` exactly for long text and blobs.
    pub fn index(&self, alloc: Global) -> Result<Option<IndexValue>, AllocError>
        ensures { IfOk result (λ v. v ≡ index_of self.now) }
    {
        let index = match self {
            Value::Null => IndexValue::Null,
            Value::Int(n) | Value::Date(n) => IndexValue::Num(*n),
            Value::Rating(n) => IndexValue::Num(i64::from(*n)),
            Value::Bool(b) => IndexValue::Bool(*b),
            Value::Bytes(bytes) => IndexValue::Bytes(bytes.copy(alloc)?),
            Value::Str(text) => IndexValue::Bytes(ByteString::of(alloc, text.bytes())?),
            Value::Text(_) | Value::Blob(_) => return Ok(None),
            Value::Key(key) => IndexValue::Key(key.copy(alloc)?),
        };
        Ok(Some(index))
    }

    /// Whether no entity may have this value in a property that is indexed, or isn't: true exactly of a rating above 100,
    /// and where `indexed` is set, of a string or byte string of more than 1,500 bytes.
    pub fn is_faulty(&self, indexed: bool) -> bool
        ensures { result ≡ is_faulty_value indexed self.now }
    {
        match self {
            Value::Rating(n) => *n > MAX_RATING,
            Value::Bytes(bytes) => indexed && bytes.bytes().len() > MAX_NAME_BYTES,
            Value::Str(text) => indexed && text.bytes().len() > MAX_NAME_BYTES,
            _ => false,
        }
    }
}

impl TryCopy for Value {
    fn copy(&self, alloc: Global) -> Result<Value, AllocError> {
        Ok(match self {
            Value::Null => Value::Null,
            Value::Int(n) => Value::Int(*n),
            Value::Date(n) => Value::Date(*n),
            Value::Rating(n) => Value::Rating(*n),
            Value::Bool(b) => Value::Bool(*b),
            Value::Bytes(bytes) => Value::Bytes(bytes.copy(alloc)?),
            Value::Str(text) => Value::Str(text.copy(alloc)?),
            Value::Text(text) => Value::Text(text.copy(alloc)?),
            Value::Blob(bytes) => Value::Blob(bytes.copy(alloc)?),
            Value::Key(key) => Value::Key(key.copy(alloc)?),
        })
    }
}
