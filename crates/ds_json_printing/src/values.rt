//! Values and index values as JSON.
ghost use Rattle.std.specs.Prelude.{◌∷◌, ◌++◌, [], false};
ghost use Rattle.json.specs.Print.{quoted};
ghost use Rattle.serde_json.specs.Written.{compact_text, items_text};
ghost use Rattle.ds_json_printing.specs.Printing.{natural, integer, base64_data, key_data, value_data, value_items, values_data};
ghost use Rattle.ds_json_printing.specs.Printing.{index_value_data};

use crate::keys::write_key;
use crate::output::Output;
use crate::text::{
    write_base64, write_boolean, write_comma, write_integer, write_natural, write_string,
    write_text,
};
use ds_base::{ByteString, IndexValue, Key, TextString, Value};

/// Puts one value as itself, and several as an array.
pub fn write_values<O: Output>(values: &[Value], out: &mut O)
    ensures { O.Writes (compact_text (values_data values.now)) out.old out.new }
{
    if values.len() != 1 {
        out.put(b"[");
        write_items(values, out);
    } else {
        write_value(&values[0], out);
    }
}

/// Puts the values as items and the closing bracket.
fn write_items<O: Output>(values: &[Value], out: &mut O)
    ensures { O.Writes (items_text false (value_items values.now)) out.old out.new }
{
    let mut later = false;
    for value in values {
        write_comma(later, out);
        write_value(value, out);
        later = true;
    }
    out.put(b"]");
}

#[tactic(auto, unfolding(json::specs::Print::escape_byte))]
fn write_value<O: Output>(value: &Value, out: &mut O)
    ensures { O.Writes (compact_text (value_data value.now)) out.old out.new }
{
    match value {
        Value::Null => out.put(b"null"),
        Value::Int(n) => write_integer(*n, out),
        Value::Date(n) => write_tagged_integer(b"{\"date\":", *n, out),
        Value::Rating(n) => write_tagged_natural(b"{\"rating\":", u64::from(*n), out),
        Value::Bool(b) => write_boolean(*b, out),
        Value::Bytes(bytes) => write_tagged_bytes(b"{\"bytes\":", bytes, out),
        Value::Str(text) => write_text(text, out),
        Value::Text(text) => write_tagged_text(b"{\"text\":", text, out),
        Value::Blob(bytes) => write_tagged_bytes(b"{\"blob\":", bytes, out),
        Value::Key(key) => write_tagged_key(b"{\"key\":", key, out),
    }
}

/// Puts an index value.
#[tactic(auto, unfolding(json::specs::Print::escape_byte))]
pub fn write_index_value<O: Output>(value: &IndexValue, out: &mut O)
    ensures { O.Writes (compact_text (index_value_data value.now)) out.old out.new }
{
    match value {
        IndexValue::Null => out.put(b"null"),
        IndexValue::Num(n) => write_integer(*n, out),
        IndexValue::Bool(b) => write_boolean(*b, out),
        IndexValue::Bytes(bytes) => write_text_or_bytes(bytes, out),
        IndexValue::Key(key) => write_tagged_key(b"{\"key\":", key, out),
    }
}

/// Puts a byte string as a text, where it is UTF-8.
#[tactic(auto, unfolding(json::specs::Print::escape_byte))]
fn write_text_or_bytes<O: Output>(bytes: &ByteString, out: &mut O)
    ensures { O.Writes (compact_text (index_value_data (IndexValue.Bytes bytes.now))) out.old out.new }
{
    match std::str::from_utf8(bytes.bytes()) {
        Ok(text) => write_string(text.as_bytes(), out),
        Err(_) => write_tagged_bytes(b"{\"bytes\":", bytes, out),
    }
}

// An object of one member: `tag` is what stands before the value.

fn write_tagged_integer<O: Output>(tag: &[u8], n: i64, out: &mut O)
    ensures { O.Writes (tag.now ++ (compact_text (integer n) ++ 125 ∷ [])) out.old out.new }
{
    out.put(tag);
    write_integer(n, out);
    out.put(b"}");
}

fn write_tagged_natural<O: Output>(tag: &[u8], n: u64, out: &mut O)
    ensures { O.Writes (tag.now ++ (compact_text (natural n) ++ 125 ∷ [])) out.old out.new }
{
    out.put(tag);
    write_natural(n, out);
    out.put(b"}");
}

fn write_tagged_text<O: Output>(tag: &[u8], text: &TextString, out: &mut O)
    ensures { O.Writes (tag.now ++ (quoted text.now ++ 125 ∷ [])) out.old out.new }
{
    out.put(tag);
    write_text(text, out);
    out.put(b"}");
}

fn write_tagged_bytes<O: Output>(tag: &[u8], bytes: &ByteString, out: &mut O)
    ensures { O.Writes (tag.now ++ (compact_text (base64_data bytes.now) ++ 125 ∷ [])) out.old out.new }
{
    out.put(tag);
    write_base64(bytes.bytes(), out);
    out.put(b"}");
}

fn write_tagged_key<O: Output>(tag: &[u8], key: &Key, out: &mut O)
    ensures { O.Writes (tag.now ++ (compact_text (key_data key.now) ++ 125 ∷ [])) out.old out.new }
{
    out.put(tag);
    write_key(key, out);
    out.put(b"}");
}
