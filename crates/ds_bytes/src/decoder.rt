//! Keys and values, read from the front of bytes.
ghost use Rattle.std.specs.Prelude.{◌≡◌, ℕ, List, ◌∷◌, ◌++◌, All, IsTrue, MatchOption, IfOk, IfSome, IfNone};
ghost use Rattle.ds_bytes.specs.Encoding.{directed, encoding, key_encoding, raised, ident_bytes, elem_rest, key_bytes, namespace_bytes};
ghost use Rattle.ds_bytes.specs.Encoding.{path_bytes, value_bytes};
ghost use Rattle.ds_bytes.specs.Lawful.{IsText, IsLawfulIdent, IsLawfulElem, IsLawfulKey, IsDefaultKey, IsNamedKey, IsLawfulValue};
ghost use Rattle.ds_bytes.specs.Reading.{Begins, NoneBegins, Found, ReadsFront, IsKeyOf};
ghost use Rattle.ds_base.specs.Keys.{is_key};

use crate::input::{behind, byte_at, read_bytes, read_number, read_text};
use crate::marks::{ELEMENT, ID, KEY, NAME, NAMESPACE, NULL, NUMBER, PATH_END, SEQUENCE, TRUTH};
use ds_base::{Elem, Elems, Ident, IndexValue, Key, NoMemory, TextString};
use std::alloc::Global;

/// A value that was read, and how many bytes its encoding takes.
#[derive(Drop)]
pub struct Decoded {
    pub value: IndexValue,
    pub rest: usize,
}

/// A key that was read, and how many bytes its encoding takes.
#[derive(Drop)]
pub struct DecodedKey {
    pub key: Key,
    pub rest: usize,
}

/// The value whose encoding stands at the front of the bytes, whatever follows it; there is at most one. `None` exactly where
/// no encoding of that direction stands there. It copies only what it returns.
pub fn decode(alloc: Global, bytes: &[u8], descending: bool) -> Result<Option<Decoded>, NoMemory>
    ensures found { IfOk result (λ found. IfSome found (λ d. Begins (encoding descending) bytes.now d.value d.rest)) }
    ensures lawful { IfOk result (λ found. IfSome found (λ d. IsLawfulValue d.value)) }
    ensures none { IfOk result (λ found. IfNone found (NoneBegins IsLawfulValue (encoding descending) bytes.now)) }
{
    match read_value(alloc, bytes, descending)? {
        None => Ok(None),
        Some((value, rest)) => Ok(Some(Decoded { value, rest })),
    }
}

/// The key whose encoding stands at the front of the bytes, as `decode` reads a value.
pub fn decode_key(
    alloc: Global,
    bytes: &[u8],
    descending: bool,
) -> Result<Option<DecodedKey>, NoMemory>
    ensures found { IfOk result (λ found. IfSome found (λ d. Begins (key_encoding descending) bytes.now d.key d.rest)) }
    ensures lawful { IfOk result (λ found. IfSome found (λ d. IsLawfulKey d.key)) }
    ensures none { IfOk result (λ found. IfNone found (NoneBegins IsLawfulKey (key_encoding descending) bytes.now)) }
{
    match read_key(alloc, bytes, descending)? {
        None => Ok(None),
        Some((key, rest)) => Ok(Some(DecodedKey { key, rest })),
    }
}

fn read_value(
    alloc: Global,
    bytes: &[u8],
    descending: bool,
) -> Result<Option<(IndexValue, usize)>, NoMemory>
    ensures { ReadsFront IsLawfulValue value_bytes (directed descending bytes.now) result }
{
    let class = match byte_at(bytes, 0, descending) {
        None => return Ok(None),
        Some(found) => found,
    };
    let rest = behind(bytes, 1);
    if class == NULL {
        Ok(Some((IndexValue::Null, 1)))
    } else if class == NUMBER {
        read_signed(rest, descending)
    } else if class == TRUTH {
        read_truth(rest, descending)
    } else if class == SEQUENCE {
        read_sequence(alloc, rest, descending)
    } else if class == KEY {
        read_key_value(alloc, rest, descending)
    } else {
        Ok(None)
    }
}

/// The number whose bytes stand behind its class.
fn read_signed(rest: &[u8], descending: bool) -> Result<Option<(IndexValue, usize)>, NoMemory>
    ensures { ReadsFront IsLawfulValue value_bytes (NUMBER ∷ directed descending rest.now) result }
{
    match read_number(rest, descending) {
        None => Ok(None),
        Some(number) => Ok(Some((IndexValue::Num(lowered(number)), 9))),
    }
}

/// The number that was raised by 2^63.
fn lowered(number: u64) -> i64
    ensures { raised result ≡ number }
{
    number.wrapping_sub(1 << 63).cast_signed()
}

/// The truth value whose byte stands behind its class.
fn read_truth(rest: &[u8], descending: bool) -> Result<Option<(IndexValue, usize)>, NoMemory>
    ensures { ReadsFront IsLawfulValue value_bytes (TRUTH ∷ directed descending rest.now) result }
{
    match byte_at(rest, 0, descending) {
        Some(0x00) => Ok(Some((IndexValue::Bool(false), 2))),
        Some(0x01) => Ok(Some((IndexValue::Bool(true), 2))),
        _ => Ok(None),
    }
}

/// The byte sequence whose escaped bytes stand behind its class.
fn read_sequence(
    alloc: Global,
    rest: &[u8],
    descending: bool,
) -> Result<Option<(IndexValue, usize)>, NoMemory>
    ensures { ReadsFront IsLawfulValue value_bytes (SEQUENCE ∷ directed descending rest.now) result }
{
    match read_bytes(alloc, rest, descending)? {
        None => Ok(None),
        Some((bytes, taken)) => Ok(Some((IndexValue::Bytes(bytes), 1 + taken))),
    }
}

/// The key whose encoding stands behind its class.
fn read_key_value(
    alloc: Global,
    rest: &[u8],
    descending: bool,
) -> Result<Option<(IndexValue, usize)>, NoMemory>
    ensures { ReadsFront IsLawfulValue value_bytes (KEY ∷ directed descending rest.now) result }
{
    match read_key(alloc, rest, descending)? {
        None => Ok(None),
        Some((key, taken)) => Ok(Some((IndexValue::Key(key), 1 + taken))),
    }
}

/// A namespace and a path that make a key.
fn read_key(alloc: Global, bytes: &[u8], descending: bool) -> Result<Option<(Key, usize)>, NoMemory>
    ensures { ReadsFront IsLawfulKey key_bytes (directed descending bytes.now) result }
{
    let first = match byte_at(bytes, 0, descending) {
        None => return Ok(None),
        Some(found) => found,
    };
    if first == NAMESPACE {
        read_named_key(alloc, behind(bytes, 1), descending)
    } else {
        read_default_key(alloc, bytes, descending)
    }
}

/// A path that makes a key of the default namespace.
fn read_default_key(
    alloc: Global,
    bytes: &[u8],
    descending: bool,
) -> Result<Option<(Key, usize)>, NoMemory>
    ensures { ReadsFront IsDefaultKey key_bytes (directed descending bytes.now) result }
{
    match read_path(alloc, bytes, descending)? {
        None => Ok(None),
        Some((path, taken)) => Ok(key_of(TextString::new(alloc), path, taken)),
    }
}

/// A namespace other than the default, behind the byte that announces it, and a path, which make a key.
fn read_named_key(
    alloc: Global,
    rest: &[u8],
    descending: bool,
) -> Result<Option<(Key, usize)>, NoMemory>
    ensures { ReadsFront IsNamedKey key_bytes (NAMESPACE ∷ directed descending rest.now) result }
{
    match read_text(alloc, rest, descending)? {
        None => Ok(None),
        Some((namespace, before)) => {
            if namespace.bytes().is_empty() {
                return Ok(None);
            }
            match read_path(alloc, behind(rest, before), descending)? {
                None => Ok(None),
                Some((path, taken)) => Ok(key_of(namespace, path, 1 + before + taken)),
            }
        }
    }
}

/// The key of these parts, which take so many bytes; none where they break a rule of keys.
fn key_of(namespace: TextString, path: Elems, taken: usize) -> Option<(Key, usize)>
    ensures { MatchOption result (IsTrue (is_key (record { namespace = namespace; elems = path })) → ⊥)
        (λ x. IsKeyOf namespace path x.0 × (x.1 ≡ taken)) }
{
    match Key::within(namespace, path) {
        Ok(key) => Some((key, taken)),
        Err(_) => None,
    }
}

/// Elements up to the byte that ends a path.
fn read_path(
    alloc: Global,
    bytes: &[u8],
    descending: bool,
) -> Result<Option<(Elems, usize)>, NoMemory>
    ensures { ReadsFront (All IsLawfulElem) path_bytes (directed descending bytes.now) result }
{
    let mut path = Vec::new(alloc);
    let mut taken = 0;
    let mut rest = bytes;
    'elems: loop {
        let tag = match byte_at(rest, 0, descending) {
            None => return Ok(None),
            Some(found) => found,
        };
        if tag == PATH_END {
            return Ok(Some((Elems::from(path), taken + 1)));
        }
        if tag != ELEMENT {
            return Ok(None);
        }
        match read_elem(alloc, behind(rest, 1), descending)? {
            None => return Ok(None),
            Some((elem, more)) => {
                path.push(elem)?;
                taken += 1 + more;
                rest = behind(rest, 1 + more);
            }
        }
    }
}

/// A kind and an identifier: an element without the byte in front of it.
fn read_elem(
    alloc: Global,
    bytes: &[u8],
    descending: bool,
) -> Result<Option<(Elem, usize)>, NoMemory>
    ensures { ReadsFront IsLawfulElem elem_rest (directed descending bytes.now) result }
{
    match read_text(alloc, bytes, descending)? {
        None => Ok(None),
        Some((kind, before)) => match read_ident(alloc, behind(bytes, before), descending)? {
            None => Ok(None),
            Some((ident, taken)) => Ok(Some((Elem { kind, ident }, before + taken))),
        },
    }
}

fn read_ident(
    alloc: Global,
    bytes: &[u8],
    descending: bool,
) -> Result<Option<(Ident, usize)>, NoMemory>
    ensures { ReadsFront IsLawfulIdent ident_bytes (directed descending bytes.now) result }
{
    let tag = match byte_at(bytes, 0, descending) {
        None => return Ok(None),
        Some(found) => found,
    };
    let rest = behind(bytes, 1);
    if tag == ID {
        read_id(rest, descending)
    } else if tag == NAME {
        read_name(alloc, rest, descending)
    } else {
        Ok(None)
    }
}

/// The id whose bytes stand behind the byte that announces it.
fn read_id(rest: &[u8], descending: bool) -> Result<Option<(Ident, usize)>, NoMemory>
    ensures { ReadsFront IsLawfulIdent ident_bytes (ID ∷ directed descending rest.now) result }
{
    match read_number(rest, descending) {
        None => Ok(None),
        Some(id) => Ok(Some((Ident::Id(id), 9))),
    }
}

/// The name whose escaped bytes stand behind the byte that announces it.
fn read_name(
    alloc: Global,
    rest: &[u8],
    descending: bool,
) -> Result<Option<(Ident, usize)>, NoMemory>
    ensures { ReadsFront IsLawfulIdent ident_bytes (NAME ∷ directed descending rest.now) result }
{
    match read_text(alloc, rest, descending)? {
        None => Ok(None),
        Some((name, taken)) => Ok(Some((Ident::Name(name), 1 + taken))),
    }
}
