//! Keys, properties and definitions for the tests.
ghost use Rattle.std.specs.Prelude.{◌≡◌, None, IfOk};
ghost use Rattle.ds_log.specs.Ids.{first_unissued};

use ds_base::{Column, Columns, Elem, Elems, Ident, Key, NoMemory, TextString, Value, Values};
use ds_entity::Property;
use ds_indexdef::IndexDef;
use std::alloc::{AllocError, Global};
use std::test::Fail;

fn named_path(alloc: Global, name: &str) -> Result<Elems, NoMemory>
    ensures { IfOk result (λ path. first_unissued 0 path ≡ None) }
{
    let kind = TextString::of(alloc, "T")?;
    let ident = Ident::Name(TextString::of(alloc, name)?);
    Ok(Elems::from(vec![in alloc; Elem { kind, ident }]?))
}

/// The key [T,name].
pub(crate) fn key(alloc: Global, name: &str) -> Result<Key, Fail>
    ensures { IfOk result (λ key. first_unissued 0 key.elems ≡ None) }
{
    let path = named_path(alloc, name)?;
    Ok(Key::new(alloc, path)?)
}

/// The property of this name with so many numbers, from 0 on.
pub(crate) fn numbers(alloc: Global, name: &str, count: i64) -> Result<Property, AllocError>
    ensures { IfOk result (λ p. p.name ≡ name.now) }
{
    let values = values_below(alloc, count)?;
    Ok(Property {
        name: TextString::of(alloc, name)?,
        indexed: true,
        values,
    })
}

fn values_below(alloc: Global, count: i64) -> Result<Values, AllocError> {
    let mut values = Vec::new(alloc);
    for number in 0..count {
        values.push(Value::Int(number))?;
    }
    Ok(Values::from(values))
}

pub(crate) fn column(alloc: Global, name: &str, descending: bool) -> Result<Column, AllocError> {
    Ok(Column {
        name: TextString::of(alloc, name)?,
        descending,
    })
}

/// A definition of the kind T.
pub(crate) fn definition(
    alloc: Global,
    ancestor: bool,
    columns: Vec<Column>,
) -> Result<IndexDef, AllocError> {
    Ok(IndexDef {
        kind: TextString::of(alloc, "T")?,
        ancestor,
        columns: Columns::from(columns),
    })
}
