//! The types of `ds_base`: limits and orders as tables, and each public call once where it succeeds.
ghost use Rattle.std.specs.Prelude.{◌≡◌, [], ◌∷◌, IfOk};

use ds_base::limits::MAX_ID;
use ds_base::{
    ByteString, Elem, Elems, Ident, IndexValue, Key, NoMemory, TextString, TryCopy, Value, Values,
};
use ds_entity::{Entity, EntityRefused, Properties, Property};
use std::alloc::Global;
use std::cmp::Ordering;
use std::test::Fail;

fn letters(alloc: Global, count: usize) -> Result<TextString, NoMemory> {
    let mut text = String::new(alloc);
    for _ in 0..count {
        text.push('a')?;
    }
    Ok(TextString::from_string(text))
}

fn named(alloc: Global, name: &str) -> Result<Ident, NoMemory> {
    Ok(Ident::Name(TextString::of(alloc, name)?))
}

fn path_of(alloc: Global, kind: &str, ident: Ident) -> Result<Elems, NoMemory> {
    let kind = TextString::of(alloc, kind)?;
    Ok(Elems::from(vec![in alloc; Elem { kind, ident }]?))
}

fn id_key(alloc: Global, id: u64) -> Result<Key, Fail> {
    let path = path_of(alloc, "T", Ident::Id(id))?;
    Ok(Key::new(alloc, path)?)
}

fn name_key(alloc: Global, kind: &str, name: &str) -> Result<Key, Fail> {
    let path = path_of(alloc, kind, named(alloc, name)?)?;
    Ok(Key::new(alloc, path)?)
}

fn elem(alloc: Global, ident: Ident) -> Result<Elem, NoMemory> {
    let kind = TextString::of(alloc, "T")?;
    Ok(Elem { kind, ident })
}

/// The key [T,9]/[T,c] in a namespace.
fn child_key(alloc: Global, namespace: &str) -> Result<Key, Fail> {
    let root = elem(alloc, Ident::Id(9))?;
    let child = elem(alloc, named(alloc, "c")?)?;
    let path = Elems::from(vec![in alloc; root, child]?);
    Ok(Key::within(TextString::of(alloc, namespace)?, path)?)
}

fn lettered(alloc: Global, kind: usize, name: usize) -> Result<Elem, NoMemory> {
    let ident = Ident::Name(letters(alloc, name)?);
    let kind = letters(alloc, kind)?;
    Ok(Elem { kind, ident })
}

/// A path of so many elements, with so many letters in each kind and each name.
fn path(alloc: Global, length: usize, kind: usize, name: usize) -> Result<Elems, NoMemory> {
    let mut path = Vec::new(alloc);
    for _ in 0..length {
        path.push(lettered(alloc, kind, name)?)?;
    }
    Ok(Elems::from(path))
}

fn makes_key(alloc: Global, length: usize, kind: usize, name: usize) -> Result<bool, NoMemory> {
    Ok(Key::new(alloc, path(alloc, length, kind, name)?).is_ok())
}

/// The number of elements of a path, the letters of its kinds and of its names, and whether it is a key's.
const PATHS: [(usize, usize, usize, bool); 9] = [
    (0, 1, 1, false),
    (100, 1, 1, true),
    (101, 1, 1, false),
    (1, 0, 1, false),
    (1, 1_500, 1, true),
    (1, 1_501, 1, false),
    (1, 1, 0, false),
    (1, 1, 1_500, true),
    (1, 1, 1_501, false),
];

fn paths_are_limited(
    alloc: Global,
    rows: &[(usize, usize, usize, bool)],
) -> Result<bool, NoMemory> {
    for row in rows {
        if makes_key(alloc, row.0, row.1, row.2)? != row.3 {
            return Ok(false);
        }
    }
    Ok(true)
}

fn makes_id_key(alloc: Global, id: u64) -> Result<bool, NoMemory> {
    Ok(Key::new(alloc, path_of(alloc, "T", Ident::Id(id))?).is_ok())
}

fn makes_key_within(alloc: Global, namespace: TextString) -> Result<bool, NoMemory> {
    let path = path_of(alloc, "T", Ident::Id(1))?;
    Ok(Key::within(namespace, path).is_ok())
}

fn ids_are_limited(alloc: Global, rows: &[(u64, bool)]) -> Result<bool, NoMemory> {
    for row in rows {
        if makes_id_key(alloc, row.0)? != row.1 {
            return Ok(false);
        }
    }
    Ok(true)
}

/// The letters of a namespace, with a text behind them, and whether it is one.
const NAMESPACES: [(usize, &str, bool); 5] = [
    (0, "", true),
    (100, "", true),
    (100, "Z", false),
    (1, "Z09._-", true),
    (1, " b", false),
];

fn makes_key_in(alloc: Global, count: usize, text: &str) -> Result<bool, NoMemory> {
    let mut namespace = String::new(alloc);
    namespace.push_str(letters(alloc, count)?.text())?;
    namespace.push_str(text)?;
    makes_key_within(alloc, TextString::from_string(namespace))
}

fn namespaces_are_limited(alloc: Global, rows: &[(usize, &str, bool)]) -> Result<bool, NoMemory> {
    for row in rows {
        if makes_key_in(alloc, row.0, row.1)? != row.2 {
            return Ok(false);
        }
    }
    Ok(true)
}

#[test]
fn keys_keep_their_limits(rt: HostRuntime) -> Result<(), Fail> {
    let alloc = rt.alloc();
    let ids = [(0, false), (1, true), (MAX_ID, true), (MAX_ID + 1, false)];
    assert!(rt; paths_are_limited(alloc, &PATHS)?);
    assert!(rt; ids_are_limited(alloc, &ids)?);
    assert!(rt; namespaces_are_limited(alloc, &NAMESPACES)?);
    Ok(())
}

/// Whether each item compares as equal to itself and as greater than the one before it.
fn ascend<T: Ord>(items: &[T]) -> bool {
    let mut below = None;
    for item in items {
        if let Some(last) = below
            && item.cmp(last) != Ordering::Greater
        {
            return false;
        }
        if item.cmp(item) != Ordering::Equal {
            return false;
        }
        below = Some(item);
    }
    true
}

/// In order [T,9], [T,9]/[T,c], [T,10], [T,"10"], [T,"9"], [T,"9x"], and in a namespace [T,9]/[T,c].
fn key_at(alloc: Global, place: usize) -> Result<Key, Fail> {
    match place {
        0 => id_key(alloc, 9),
        1 => child_key(alloc, ""),
        2 => id_key(alloc, 10),
        3 => name_key(alloc, "T", "10"),
        4 => name_key(alloc, "T", "9"),
        5 => name_key(alloc, "T", "9x"),
        _ => child_key(alloc, "n"),
    }
}

fn bytes_value(alloc: Global, text: &str) -> Result<IndexValue, Fail> {
    Ok(IndexValue::Bytes(ByteString::of(alloc, text.as_bytes())?))
}

/// In order a null, numbers, truth values, bytes and keys.
fn index_value_at(alloc: Global, place: usize) -> Result<IndexValue, Fail> {
    match place {
        0 => Ok(IndexValue::Null),
        1 => Ok(IndexValue::Num(-1)),
        2 => Ok(IndexValue::Num(7)),
        3 => Ok(IndexValue::Bool(false)),
        4 => Ok(IndexValue::Bool(true)),
        5 => bytes_value(alloc, ""),
        6 => bytes_value(alloc, "a"),
        7 => bytes_value(alloc, "ab"),
        8 => bytes_value(alloc, "b"),
        _ => Ok(IndexValue::Key(key_at(alloc, place.saturating_sub(9))?)),
    }
}

fn index_values_in_order(alloc: Global) -> Result<Vec<IndexValue>, Fail> {
    let mut values = Vec::new(alloc);
    for place in 0..16 {
        values.push(index_value_at(alloc, place)?)?;
    }
    Ok(values)
}

fn index_values_ascend(alloc: Global) -> Result<bool, Fail> {
    let values = index_values_in_order(alloc)?;
    Ok(ascend(values.as_slice()))
}

fn property(
    alloc: Global,
    name: TextString,
    indexed: bool,
    value: Value,
) -> Result<Properties, NoMemory>
    ensures { IfOk result (λ list. (one : _) × (list ≡ one ∷ [])) }
{
    let values = Values::from(vec![in alloc; value]?);
    let property = Property {
        name,
        indexed,
        values,
    };
    Ok(Properties::from(vec![in alloc; property]?))
}

/// Whether the first of the properties may be an entity's.
fn is_entity(alloc: Global, properties: Properties) -> Result<bool, Fail>
    requires { (one : _) × (properties ≡ one ∷ []) }
{
    match Entity::new(name_key(alloc, "T", "a")?, properties) {
        Err(EntityRefused::BadValue { property: 0 }) => Ok(false),
        _ => Ok(true),
    }
}

fn takes_value(alloc: Global, name: TextString, indexed: bool, value: Value) -> Result<bool, Fail> {
    let properties = property(alloc, name, indexed, value)?;
    is_entity(alloc, properties)
}

fn too_large(alloc: Global, letter_count: usize) -> Result<Option<u64>, Fail> {
    let text = Value::Text(letters(alloc, letter_count)?);
    let properties = property(alloc, letters(alloc, 1)?, true, text)?;
    match Entity::new(name_key(alloc, "T", "a")?, properties) {
        Err(EntityRefused::TooLarge { size }) => Ok(Some(size)),
        _ => Ok(None),
    }
}

/// The letters of a property's name and of its text, whether it is indexed, and whether it may be.
const TEXTS: [(usize, usize, bool, bool); 6] = [
    (0, 1, true, false),
    (1_500, 1, true, true),
    (1_501, 1, true, false),
    (1, 1_500, true, true),
    (1, 1_501, true, false),
    (1, 1_501, false, true),
];

fn takes_text(alloc: Global, name: usize, text: usize, indexed: bool) -> Result<bool, Fail> {
    let value = Value::Str(letters(alloc, text)?);
    takes_value(alloc, letters(alloc, name)?, indexed, value)
}

fn texts_are_limited(alloc: Global, rows: &[(usize, usize, bool, bool)]) -> Result<bool, Fail> {
    for row in rows {
        if takes_text(alloc, row.0, row.1, row.2)? != row.3 {
            return Ok(false);
        }
    }
    Ok(true)
}

#[test]
fn entities_keep_their_limits(rt: HostRuntime) -> Result<(), Fail> {
    let alloc = rt.alloc();
    assert!(rt; texts_are_limited(alloc, &TEXTS)?);
    // The key has 18, the property 17, and the value 16 besides its letters.
    assert!(rt; too_large(alloc, 1_048_525)? == None);
    assert!(rt; too_large(alloc, 1_048_526)? == Some(1_048_577));
    Ok(())
}

fn are_told(root: &Key, child: &Key, other: &Key) -> bool {
    let rooted = root.elems().len() == 1 && root.namespace() == child.namespace();
    let under = root.is_ancestor(child) && child.is_ancestor(child);
    rooted && under && !other.is_ancestor(child) && !child.is_ancestor(root)
}

fn ancestors_are_told(alloc: Global) -> Result<bool, Fail> {
    let child = child_key(alloc, "n")?;
    let root = child.root(alloc)?;
    let other = id_key(alloc, 9)?;
    Ok(are_told(&root, &child, &other))
}

/// Whether a copy of an entity has the very properties of the first, and not some of its own.
fn copies_share(alloc: Global) -> Result<bool, Fail> {
    let properties = property(alloc, letters(alloc, 1)?, true, Value::Null)?;
    let entity = Entity::new(id_key(alloc, 1)?, properties)?;
    let copy = entity.copy(alloc)?;
    Ok(entity.owners() == 2 && copy.owners() == 2)
}

#[test]
fn calls_succeed(rt: HostRuntime) -> Result<(), Fail> {
    let alloc = rt.alloc();
    assert!(rt; index_values_ascend(alloc)?);
    assert!(rt; ancestors_are_told(alloc)?);
    assert!(rt; copies_share(alloc)?);
    assert!(rt; Value::Rating(101).is_faulty(false) && !Value::Rating(100).is_faulty(true));
    Ok(())
}
