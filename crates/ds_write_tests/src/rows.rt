//! The rows of small entities, byte for byte.
ghost use Rattle.std.specs.Prelude.{◌≡◌, [], ◌∷◌, IfOk};

use crate::parts::{column, definition, key};
use ds_base::{Elem, Elems, Ident, Key, TextString, Value, Values};
use ds_entity::{Entity, Properties, Property};
use ds_indexdef::Defs;
use ds_rows::{
    RowSet, rows_are_apart, rows_are_counted, rows_are_its_own, rows_are_ordered, rows_of,
    rows_stand_together,
};
use std::alloc::{AllocError, Global};
use std::test::Fail;

/// Whether these are the rows, in this order.
fn are(rows: &RowSet, expected: &[&[u8]]) -> bool {
    for (place, row) in expected.iter().enumerate() {
        match rows.get(place) {
            Some(found) => {
                if found != *row {
                    return false;
                }
            }
            None => return false,
        }
    }
    rows.len() == expected.len() && rows.get(expected.len()).is_none()
}

/// The property n, with the number 5 twice.
fn fives_of(alloc: Global, indexed: bool) -> Result<Properties, AllocError>
    ensures { IfOk result (λ list. (one : _) × (list ≡ one ∷ [])) }
{
    let values = Values::from(vec![in alloc; Value::Int(5), Value::Date(5)]?);
    let name = TextString::of(alloc, "n")?;
    let property = Property {
        name,
        indexed,
        values,
    };
    Ok(Properties::from(vec![in alloc; property]?))
}

/// The entity of this key and that property.
fn fives(alloc: Global, key: Key, indexed: bool) -> Result<Entity, Fail> {
    Ok(Entity::new(key, fives_of(alloc, indexed)?)?)
}

/// A definition over this property, descending.
fn descending(alloc: Global, ancestor: bool, name: &str) -> Result<Defs, AllocError> {
    let column = column(alloc, name, true)?;
    let definition = definition(alloc, ancestor, vec![in alloc; column]?)?;
    let mut defs = Defs::new(alloc);
    let _ = defs.push(definition);
    Ok(defs)
}

/// The element of kind G named by a zero byte.
fn group(alloc: Global) -> Result<Elem, AllocError> {
    Ok(Elem {
        kind: TextString::of(alloc, "G")?,
        ident: Ident::Name(TextString::of(alloc, "\0")?),
    })
}

/// The key of kind T with the id 1 under that group, in this namespace.
fn child(alloc: Global, namespace: &str) -> Result<Key, Fail> {
    let group = group(alloc)?;
    let elem = Elem {
        kind: TextString::of(alloc, "T")?,
        ident: Ident::Id(1),
    };
    let path = Elems::from(vec![in alloc; group, elem]?);
    Ok(Key::within(TextString::of(alloc, namespace)?, path)?)
}

/// Whether these are the rows of the entity under the definitions.
fn writes(alloc: Global, defs: &Defs, entity: &Entity, expected: &[&[u8]]) -> Result<bool, Fail> {
    let rows = rows_of(alloc, defs, entity)?;
    Ok(are(&rows, expected))
}

/// In the default namespace, without an ancestor: a number that stands twice has one row in each index.
const ONCE: [&[u8]; 4] = [
    b"\x00\x00\x01\x02T\x00\x01\x20a\x00\x01\x01",
    b"\x01\x00\x01T\x00\x01\x02T\x00\x01\x20a\x00\x01\x01",
    b"\x02\x00\x01T\x00\x01n\x00\x01\x20\x80\0\0\0\0\0\0\x05\x02T\x00\x01\x20a\x00\x01\x01",
    b"\x03\x00\x01T\x00\x01n\x00\x01\xdf\x7f\xff\xff\xff\xff\xff\xff\xfa\x02T\x00\x01\x20a\x00\x01\x01",
];

fn writes_each_row_once(alloc: Global) -> Result<bool, Fail> {
    let entity = fives(alloc, key(alloc, "a")?, true)?;
    writes(alloc, &Defs::new(alloc), &entity, &ONCE)
}

/// In another namespace, under an ancestor definition: the namespace stands twice in each row, in that of the composite index
/// three times, and there is one such row for the group and one for the entity itself.
const OF_ANCESTORS: [&[u8]; 6] = [
    b"\x00s\x00\x01\x03s\x00\x01\x02G\x00\x01\x20\x00\xff\x00\x01\x02T\x00\x01\x10\0\0\0\0\0\0\0\x01\x01",
    b"\x01s\x00\x01T\x00\x01\x03s\x00\x01\x02G\x00\x01\x20\x00\xff\x00\x01\x02T\x00\x01\x10\0\0\0\0\0\0\0\x01\x01",
    b"\x02s\x00\x01T\x00\x01n\x00\x01\x20\x80\0\0\0\0\0\0\x05\
      \x03s\x00\x01\x02G\x00\x01\x20\x00\xff\x00\x01\x02T\x00\x01\x10\0\0\0\0\0\0\0\x01\x01",
    b"\x03s\x00\x01T\x00\x01n\x00\x01\xdf\x7f\xff\xff\xff\xff\xff\xff\xfa\
      \x03s\x00\x01\x02G\x00\x01\x20\x00\xff\x00\x01\x02T\x00\x01\x10\0\0\0\0\0\0\0\x01\x01",
    b"\x04s\x00\x01\0\0\0\0\
      \x03s\x00\x01\x02G\x00\x01\x20\x00\xff\x00\x01\x01\xdf\x7f\xff\xff\xff\xff\xff\xff\xfa\
      \x03s\x00\x01\x02G\x00\x01\x20\x00\xff\x00\x01\x02T\x00\x01\x10\0\0\0\0\0\0\0\x01\x01",
    b"\x04s\x00\x01\0\0\0\0\
      \x03s\x00\x01\x02G\x00\x01\x20\x00\xff\x00\x01\x02T\x00\x01\x10\0\0\0\0\0\0\0\x01\x01\xdf\x7f\xff\xff\xff\xff\xff\xff\xfa\
      \x03s\x00\x01\x02G\x00\x01\x20\x00\xff\x00\x01\x02T\x00\x01\x10\0\0\0\0\0\0\0\x01\x01",
];

fn writes_rows_of_ancestors(alloc: Global) -> Result<bool, Fail> {
    let entity = fives(alloc, child(alloc, "s")?, true)?;
    let defs = descending(alloc, true, "n")?;
    writes(alloc, &defs, &entity, &OF_ANCESTORS)
}

fn writes_so_many(alloc: Global, defs: &Defs, entity: &Entity, count: usize) -> Result<bool, Fail> {
    let rows = rows_of(alloc, defs, entity)?;
    Ok(rows.len() == count)
}

/// An unindexed property has no row, and a definition of it none either.
fn writes_no_unindexed_row(alloc: Global) -> Result<bool, Fail> {
    let entity = fives(alloc, key(alloc, "a")?, false)?;
    let defs = descending(alloc, true, "n")?;
    writes_so_many(alloc, &defs, &entity, 2)
}

/// A definition that ends in `__key__` descending has that in place of the key.
const DESCENDING: [&[u8]; 3] = [
    b"\x00\x00\x01\x02T\x00\x01\x20a\x00\x01\x01",
    b"\x01\x00\x01T\x00\x01\x02T\x00\x01\x20a\x00\x01\x01",
    b"\x04\x00\x01\0\0\0\0\xfd\xab\xff\xfe\xdf\x9e\xff\xfe\xfe",
];

fn writes_descending_keys(alloc: Global) -> Result<bool, Fail> {
    let entity = Entity::new(key(alloc, "a")?, Properties::new(alloc))?;
    let defs = descending(alloc, false, "__key__")?;
    writes(alloc, &defs, &entity, &DESCENDING)
}

#[test]
fn writes_rows(rt: HostRuntime) -> Result<(), Fail> {
    rows_are_its_own();
    rows_are_apart();
    rows_are_ordered();
    rows_are_counted();
    rows_stand_together();
    assert!(rt; writes_each_row_once(rt.alloc())?);
    assert!(rt; writes_rows_of_ancestors(rt.alloc())?);
    assert!(rt; writes_no_unindexed_row(rt.alloc())?);
    assert!(rt; writes_descending_keys(rt.alloc())?);
    Ok(())
}
