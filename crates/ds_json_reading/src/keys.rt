//! Keys: elements, paths, and the completion of a path.
ghost use Rattle.std.specs.Prelude.{◌≡◌, ◌∷◌, ◌++◌, [], IsTrue, length, IfOk};
ghost use Rattle.std.specs.Vec.Iter.{into_iter_items};
ghost use Rattle.serde_json.specs.Data.{array, item, no_items};
ghost use Rattle.serde_json.specs.View.{view, items_view};
ghost use Rattle.ds_base.specs.Keys.{ends_in_id};
ghost use Rattle.ds_json_reading.specs.Reading.{Reads, and_then, each_of};
ghost use Rattle.ds_json_reading.specs.Keys.{ident_of, elem_of, key_of, lawful_key, writable_key_of, completed, is_incomplete};
ghost use Rattle.ds_json_reading.specs.Keys.{entity_key_of};

use crate::form::Form;
use crate::lists::{read_rest, take_two};
use crate::refusal::Refusal;
use ds_base::{Elem, Elems, Ident, Key, TextString};
use serde_json::Value;
use std::alloc::{AllocError, Global};
use std::mem;
use std::vec::IntoIter;

/// A key: an array of elements, before which its namespace may stand. Reserved kinds and names are allowed.
#[derive(Drop)]
pub struct KeyForm;

impl Form for KeyForm {
    type Item = Key;

    ghost reads = { λ _. key_of };

    fn read(&self, alloc: Global, value: Value) -> Result<Key, Refusal> {
        match value {
            Value::Array(items) => read_items(alloc, items),
            _ => Err(Refusal::Key),
        }
    }
}

/// A key of which no kind and no name is reserved.
#[derive(Drop)]
pub struct WritableKeyForm;

impl Form for WritableKeyForm {
    type Item = Key;

    ghost reads = { λ _. writable_key_of };

    fn read(&self, alloc: Global, value: Value) -> Result<Key, Refusal> {
        let key = KeyForm.read(alloc, value)?;
        if !key.writable() {
            return Err(Refusal::Key);
        }
        Ok(key)
    }
}

/// Reads the key of an entity, and tells whether it is incomplete: its last identifier is null, and read as the id 1.
pub fn read_entity_key(alloc: Global, value: Value) -> Result<(Key, bool), Refusal>
    ensures read { Reads Refusal.NoMemory (entity_key_of (view value)) result }
    ensures completes { IfOk result (λ k. IsTrue k.1 → IsTrue (ends_in_id k.0.elems)) }
{
    match value {
        Value::Array(items) => read_entity_items(alloc, items),
        _ => Err(Refusal::Key),
    }
}

fn read_entity_items(alloc: Global, mut items: Vec<Value>) -> Result<(Key, bool), Refusal>
    ensures { Reads Refusal.NoMemory (entity_key_of (array (items_view items.items))) result }
{
    let incomplete = complete(&mut items);
    let key = WritableKeyForm.read(alloc, Value::Array(items))?;
    Ok((key, incomplete))
}

/// Puts the id 1 in place of a last identifier that is null, and tells whether it was.
fn complete(items: &mut Vec<Value>) -> bool
    ensures completed { items_view items.new.items ≡ completed (items_view items.old.items) }
    ensures told { result ≡ is_incomplete (items_view items.old.items) }
{
    let len = items.len();
    if len == 0 {
        return false;
    }
    let last = len - 1;
    let elem = mem::take(&mut items[last]);
    let (elem, incomplete) = complete_elem(elem);
    items[last] = elem;
    incomplete
}

fn complete_elem(elem: Value) -> (Value, bool)
    ensures completed { item (view result.0) no_items ≡ completed (item (view elem) no_items) }
    ensures told { result.1 ≡ is_incomplete (item (view elem) no_items) }
{
    match elem {
        Value::Array(parts) => complete_parts(parts),
        elem => (elem, false),
    }
}

fn complete_parts(mut parts: Vec<Value>) -> (Value, bool)
    ensures completed { item (view result.0) no_items
        ≡ completed (item (array (items_view parts.items)) no_items) }
    ensures told { result.1 ≡ is_incomplete (item (array (items_view parts.items)) no_items) }
{
    if !lacks_ident(&parts) {
        return (Value::Array(parts), false);
    }
    parts[1] = Value::from(1u64);
    (Value::Array(parts), true)
}

/// Whether these are a kind and null.
fn lacks_ident(parts: &[Value]) -> bool
    ensures told { result ≡ is_incomplete (item (array (items_view parts.now)) no_items) }
    ensures two { IsTrue result → length parts.now ≡ 2 }
{
    if parts.len() != 2 {
        return false;
    }
    parts[1].is_null()
}

fn read_items(alloc: Global, items: Vec<Value>) -> Result<Key, Refusal>
    ensures { Reads Refusal.NoMemory (key_of (array (items_view items.items))) result }
{
    let mut rest = items.into_iter();
    match rest.next() {
        Some(first) => read_from(alloc, first, rest),
        None => Err(Refusal::Key),
    }
}

/// Reads a key whose first item is the namespace or the first element.
fn read_from(alloc: Global, first: Value, rest: IntoIter<Value>) -> Result<Key, Refusal>
    ensures { Reads Refusal.NoMemory
        (key_of (array (item (view first) (items_view (into_iter_items rest))))) result }
{
    match first {
        Value::String(namespace) => read_path(
            alloc,
            TextString::from_string(namespace),
            Vec::new(alloc),
            rest,
        ),
        first => read_default(alloc, first, rest),
    }
}

/// Reads a key in the default namespace from its first element.
fn read_default(alloc: Global, first: Value, rest: IntoIter<Value>) -> Result<Key, Refusal>
    ensures { Reads Refusal.NoMemory
        (and_then (each_of elem_of (item (view first) (items_view (into_iter_items rest)))) (lawful_key [])) result }
{
    let elem = ElemForm.read(alloc, first)?;
    match begun(alloc, elem, rest.len()) {
        Ok(path) => read_path(alloc, TextString::new(alloc), path, rest),
        Err(_) => Err(Refusal::NoMemory),
    }
}

/// A path that begins with an element, with room for so many more. A refusal means out of memory.
fn begun(alloc: Global, elem: Elem, more: usize) -> Result<Vec<Elem>, AllocError>
    ensures { IfOk result (λ path. path.items ≡ elem ∷ []) }
{
    let mut path = Vec::with_capacity(alloc, more.saturating_add(1))?;
    path.push(elem)?;
    Ok(path)
}

/// Reads the elements that are left of a path whose first ones were read.
fn read_path(
    alloc: Global,
    namespace: TextString,
    begun: Vec<Elem>,
    rest: IntoIter<Value>,
) -> Result<Key, Refusal>
    ensures { Reads Refusal.NoMemory (and_then (each_of elem_of (items_view (into_iter_items rest)))
        (λ es. lawful_key namespace (begun.items ++ es))) result }
{
    let path = read_rest(alloc, &ElemForm, begun, rest)?;
    lawful(namespace, path)
}

/// The key of this namespace and path, where they keep the rules of a key.
fn lawful(namespace: TextString, path: Elems) -> Result<Key, Refusal>
    ensures { result ≡ lawful_key namespace path }
{
    match Key::within(namespace, path) {
        Ok(key) => Ok(key),
        Err(_) => Err(Refusal::Key),
    }
}

/// An element of a path: a kind and an identifier.
#[derive(Drop)]
struct ElemForm;

impl Form for ElemForm {
    type Item = Elem;

    ghost reads = { λ _. elem_of };

    fn read(&self, _alloc: Global, value: Value) -> Result<Elem, Refusal> {
        match value {
            Value::Array(parts) => read_parts(parts),
            _ => Err(Refusal::Key),
        }
    }
}

fn read_parts(parts: Vec<Value>) -> Result<Elem, Refusal>
    ensures { result ≡ elem_of (array (items_view parts.items)) }
{
    match take_two(parts) {
        Some((kind, ident)) => elem_from(kind, ident),
        None => Err(Refusal::Key),
    }
}

fn elem_from(kind: Value, ident: Value) -> Result<Elem, Refusal>
    ensures { result ≡ elem_of (array (item (view kind) (item (view ident) no_items))) }
{
    match kind {
        Value::String(kind) => {
            let ident = read_ident(ident)?;
            Ok(Elem {
                kind: TextString::from_string(kind),
                ident,
            })
        }
        _ => Err(Refusal::Key),
    }
}

/// Reads an identifier: an integer or a text.
fn read_ident(value: Value) -> Result<Ident, Refusal>
    ensures { result ≡ ident_of (view value) }
{
    match value {
        Value::Number(id) => match id.as_i64() {
            Some(id) if id >= 0 => Ok(Ident::Id(id as u64)),
            _ => Err(Refusal::Key),
        },
        Value::String(name) => Ok(Ident::Name(TextString::from_string(name))),
        _ => Err(Refusal::Key),
    }
}
