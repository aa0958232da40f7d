//! Keys and values as bytes, whose grammar this is; numbers are hexadecimal bytes.
//!
//!     key        = [03 text] {02 text identifier} 01       a namespace that isn't the default; each element's kind
//!     identifier = 10 number | 20 text                     an id, or a name
//!     value      = 10                                      null
//!                | 20 number                               an integer, a date or a rating, raised by 2^63
//!                | 30 00 | 30 01                           false, true
//!                | 40 text | 50 key                        a string or byte string; a key
//!     text       = {byte} 00 01                            each byte 00 as 00 ff
//!     number     = 8 bytes, highest first
//!
//! A descending encoding is an ascending one with each byte taken from 255.
ghost use Rattle.std.specs.Prelude.{◌≡◌, ◌+◌, ◌≤◌, ◌++◌, ◌∷◌, length, All, OnOk, OnErr, IsOk};
ghost use Rattle.ds_bytes.specs.Encoding.{encoding, key_encoding, escaped, ancestor_of, eight_bytes, raised, ident_bytes, elem_bytes};
ghost use Rattle.ds_bytes.specs.Encoding.{key_bytes, namespace_bytes, path_bytes, value_bytes};
ghost use Rattle.ds_bytes.specs.Lawful.{IsText, IsLawfulValue, IsLawfulKey, IsLawfulElem, IsLawfulIdent};
ghost use Rattle.ds_bytes.specs.Writing.{Puts};
ghost use Rattle.ds_bytes.specs.Appending.{IsAppended};

use crate::marks::{ELEMENT, ID, KEY, NAME, NAMESPACE, NULL, NUMBER, PATH_END, SEQUENCE, TRUTH};
use crate::output::{Output, begin, end, put, put_tagged, put_text};
use core::mem::replace_with;
use ds_base::{Buffer, Elem, Ident, IndexValue, Key, NoMemory, TextString};

/// Puts the encoding of a value at the end of `onto`: its class as one byte, and then what tells it from other values of the
/// class, so that the order of the bytes is that of the values. Where `descending` is true each byte is taken from 255, which
/// turns the order round. A refusal means out of memory; it leaves the bytes of `onto` as they were, and never comes where the
/// room suffices. One pass.
pub fn encode(value: &IndexValue, descending: bool, onto: &mut Buffer) -> Result<(), NoMemory>
    ensures ok { OnOk result (onto.new.bytes ≡ onto.old.bytes ++ encoding descending value.now) }
    ensures room { OnOk result (onto.old.spare ≤ onto.new.spare + length (encoding descending value.now)) }
    ensures err { OnErr result (onto.new.bytes ≡ onto.old.bytes) }
    ensures succeeds { length (encoding descending value.now) ≤ onto.old.spare → IsOk result }
    ensures lawful { IsLawfulValue value.now }
{
    replace_with(onto, value, |buffer: Buffer, value: &IndexValue| {
        append_value(buffer, value, descending)
    })
}

/// Puts the encoding of a key at the end of `onto`, without the class that stands before it as a value: as `encode` does.
pub fn encode_key(key: &Key, descending: bool, onto: &mut Buffer) -> Result<(), NoMemory>
    ensures ok { OnOk result (onto.new.bytes ≡ onto.old.bytes ++ key_encoding descending key.now) }
    ensures room { OnOk result (onto.old.spare ≤ onto.new.spare + length (key_encoding descending key.now)) }
    ensures err { OnErr result (onto.new.bytes ≡ onto.old.bytes) }
    ensures succeeds { length (key_encoding descending key.now) ≤ onto.old.spare → IsOk result }
    ensures lawful { IsLawfulKey key.now }
{
    replace_with(onto, key, |buffer: Buffer, key: &Key| {
        append_key(buffer, key, descending)
    })
}

/// Puts the ascending encoding of a key's first `elements` elements, which make a key of the same namespace, at the end of
/// `onto`: that of an ancestor, or of the key itself. As `encode_key` does.
pub fn encode_ancestor(key: &Key, elements: usize, onto: &mut Buffer) -> Result<(), NoMemory>
    requires { elements ≤ length key.now.elems }
    ensures ok { OnOk result (onto.new.bytes ≡ onto.old.bytes ++ key_bytes (ancestor_of key.now elements)) }
    ensures room { OnOk result (onto.old.spare ≤ onto.new.spare + length (key_bytes (ancestor_of key.now elements))) }
    ensures err { OnErr result (onto.new.bytes ≡ onto.old.bytes) }
    ensures succeeds { length (key_bytes (ancestor_of key.now elements)) ≤ onto.old.spare → IsOk result }
{
    replace_with(
        onto,
        key,
        |buffer: Buffer, key: &Key| -> (Buffer, Result<(), NoMemory>)
            requires { elements ≤ length key.now.elems }
            ensures { IsAppended (key_bytes (ancestor_of key.now elements)) (Unit {0}) buffer result.0 result.1 }
        { append_ancestor(buffer, key, elements) },
    )
}

/// Puts a text escaped at the end of `onto`, as a namespace, a kind or a name stands in front of rows: each zero byte as two
/// bytes, and then an end that stands nowhere else, so that the order of the bytes is that of the texts. A refusal is want of
/// memory; it leaves the bytes of `onto` as they were, and never comes where the room suffices.
pub fn encode_text(text: &[u8], onto: &mut Buffer) -> Result<(), NoMemory>
    ensures ok { OnOk result (onto.new.bytes ≡ onto.old.bytes ++ escaped text.now) }
    ensures room { OnOk result (onto.old.spare ≤ onto.new.spare + length (escaped text.now)) }
    ensures err { OnErr result (onto.new.bytes ≡ onto.old.bytes) }
    ensures succeeds { length (escaped text.now) ≤ onto.old.spare → IsOk result }
{
    replace_with(onto, text, |buffer: Buffer, text: &[u8]| {
        append_text(buffer, text)
    })
}

/// The buffer with the encoding of the value at its end, where it wasn't refused.
fn append_value(
    buffer: Buffer,
    value: &IndexValue,
    descending: bool,
) -> (Buffer, Result<(), NoMemory>)
    ensures { IsAppended (encoding descending value.now) (IsLawfulValue value.now) buffer result.0 result.1 }
{
    let mut output = begin(buffer, descending);
    put_value(value, &mut output);
    end(output)
}

/// The buffer with the encoding of the key at its end, where it wasn't refused.
fn append_key(buffer: Buffer, key: &Key, descending: bool) -> (Buffer, Result<(), NoMemory>)
    ensures { IsAppended (key_encoding descending key.now) (IsLawfulKey key.now) buffer result.0 result.1 }
{
    let mut output = begin(buffer, descending);
    put_key(key, &mut output);
    end(output)
}

/// The buffer with the encoding of the first elements of the key at its end, where it wasn't refused.
fn append_ancestor(buffer: Buffer, key: &Key, elements: usize) -> (Buffer, Result<(), NoMemory>)
    requires { elements ≤ length key.now.elems }
    ensures { IsAppended (key_bytes (ancestor_of key.now elements)) (Unit {0}) buffer result.0 result.1 }
{
    let mut output = begin(buffer, false);
    put_namespace(key.namespace(), &mut output);
    put_path(&key.elems().as_slice()[..elements], &mut output);
    end(output)
}

/// The buffer with the escaped text at its end, where it wasn't refused.
fn append_text(buffer: Buffer, text: &[u8]) -> (Buffer, Result<(), NoMemory>)
    ensures { IsAppended (escaped text.now) (Unit {0}) buffer result.0 result.1 }
{
    let mut output = begin(buffer, false);
    put_text(text, &mut output);
    end(output)
}

fn put_value(value: &IndexValue, output: &mut Output)
    ensures puts { Puts (value_bytes value.now) output.old output.new }
    ensures lawful { IsLawfulValue value.now }
{
    match value {
        IndexValue::Null => put(&[NULL], output),
        IndexValue::Num(number) => put_number(NUMBER, raised(*number), output),
        IndexValue::Bool(truth) => put(&[TRUTH, u8::from(*truth)], output),
        IndexValue::Bytes(sequence) => {
            let bytes = sequence.bytes();
            put_tagged(SEQUENCE, bytes, output);
        }
        IndexValue::Key(key) => {
            put(&[KEY], output);
            put_key(key, output);
        }
    }
}

/// The number raised by 2^63, so that none is negative.
fn raised(number: i64) -> u64
    ensures { result ≡ raised number }
{
    number.cast_unsigned().wrapping_add(1 << 63)
}

/// Puts the tag and the number as 8 bytes, highest first.
fn put_number(tag: u8, number: u64, output: &mut Output)
    ensures { Puts (tag ∷ eight_bytes number) output.old output.new }
{
    let [a, b, c, d, e, f, g, h] = number.to_be_bytes();
    put(&[tag, a, b, c, d, e, f, g, h], output);
}

fn put_key(key: &Key, output: &mut Output)
    ensures puts { Puts (key_bytes key.now) output.old output.new }
    ensures lawful { IsLawfulKey key.now }
{
    put_namespace(key.namespace(), output);
    put_path(key.elems().as_slice(), output);
}

/// Puts a namespace other than the default; the default one is nothing.
fn put_namespace(namespace: &TextString, output: &mut Output)
    ensures puts { Puts (namespace_bytes namespace.now) output.old output.new }
    ensures lawful { IsText namespace.now }
{
    let bytes = namespace.bytes();
    if !bytes.is_empty() {
        put_tagged(NAMESPACE, bytes, output);
    }
}

fn put_path(path: &[Elem], output: &mut Output)
    ensures puts { Puts (path_bytes path.now) output.old output.new }
    ensures lawful { All IsLawfulElem path.now }
{
    for elem in path {
        put_elem(elem, output);
    }
    put(&[PATH_END], output);
}

fn put_elem(elem: &Elem, output: &mut Output)
    ensures puts { Puts (elem_bytes elem.now) output.old output.new }
    ensures lawful { IsLawfulElem elem.now }
{
    let kind = elem.kind.bytes();
    put_tagged(ELEMENT, kind, output);
    put_ident(&elem.ident, output);
}

fn put_ident(ident: &Ident, output: &mut Output)
    ensures puts { Puts (ident_bytes ident.now) output.old output.new }
    ensures lawful { IsLawfulIdent ident.now }
{
    match ident {
        Ident::Id(id) => put_number(ID, *id, output),
        Ident::Name(name) => {
            let bytes = name.bytes();
            put_tagged(NAME, bytes, output);
        }
    }
}
