//! Lists of index definitions: what differs is taken, and what is there already is handed back.
use ds_base::{Column, Columns, TextString, TryCopy};
use ds_indexdef::{Defs, IndexDef};
use std::alloc::{AllocError, Global};
use std::test::Fail;

/// The definition of this kind and this flag with one column.
fn definition(
    alloc: Global,
    kind: &str,
    ancestor: bool,
    name: &str,
    descending: bool,
) -> Result<IndexDef, AllocError> {
    let name = TextString::of(alloc, name)?;
    let columns = Columns::from(vec![in alloc; Column { name, descending }]?);
    Ok(IndexDef {
        kind: TextString::of(alloc, kind)?,
        ancestor,
        columns,
    })
}

/// A definition, and whether it is taken behind those before it.
type Row = (&'static str, bool, &'static str, bool, bool);

const DEFINITIONS: [Row; 7] = [
    ("A", false, "p", false, true),
    ("A", false, "p", false, false),
    ("B", false, "p", false, true),
    ("A", true, "p", false, true),
    ("A", false, "q", false, true),
    ("A", false, "p", true, true),
    ("A", true, "p", false, false),
];

/// Whether the list takes the definitions of a table as it says.
fn takes(alloc: Global, defs: &mut Defs, rows: &[Row]) -> Result<bool, AllocError> {
    for row in rows {
        let definition = definition(alloc, row.0, row.1, row.2, row.3)?;
        if defs.push(definition).is_ok() != row.4 {
            return Ok(false);
        }
    }
    Ok(true)
}

/// Whether the list has five definitions, and a copy of it has the same.
fn has_five(alloc: Global, defs: &Defs) -> Result<bool, AllocError> {
    let copy = defs.copy(alloc)?;
    let same = copy.as_slice() == defs.as_slice();
    Ok(same && defs.len() == 5 && defs.get(5).is_none())
}

fn fills(alloc: Global, defs: &mut Defs) -> Result<bool, AllocError> {
    if !takes(alloc, defs, &DEFINITIONS)? {
        return Ok(false);
    }
    has_five(alloc, defs)
}

#[test]
fn definitions_are_distinct(rt: HostRuntime) -> Result<(), Fail> {
    let mut defs = Defs::new(rt.alloc());
    assert!(rt; fills(rt.alloc(), &mut defs)?);
    Ok(())
}
