//! How many rows an entity has, at the limit and far beyond it.
ghost use Rattle.std.specs.Prelude.{◌<◌, ◌^◌, IfOk, IsTrue, length};
ghost use Rattle.ds_entity.specs.Entities.{names_ascend};

use crate::parts::{column, definition, key, numbers};
use ds_base::Column;
use ds_entity::{Entity, Properties};
use ds_indexdef::Defs;
use ds_rows::{RowsRefused, count_rows};
use std::alloc::{AllocError, Global};
use std::test::Fail;

/// The names of the properties, ascending.
const NAMES: [&str; 5] = ["a", "b", "c", "d", "e"];

/// How many numbers the two properties have, the width of the definition over the first of them, or 0 for none, and the rows.
type Case = (i64, i64, usize, u64);

/// The entity of a hundred and two hundred numbers: 1 + 600 + 20,000 rows, and with the definition gone 601. With 81 and 239
/// numbers it has 1 + 640 + 19,359, which is the limit, and with 10 and 1,665 one more.
const UP_TO_THE_LIMIT: [Case; 4] = [
    (100, 200, 2, 20_601),
    (100, 200, 0, 601),
    (81, 239, 2, 20_000),
    (10, 1_665, 2, 20_001),
];

/// How many numbers each of five properties has, the width of the definition, and the rows.
type Wide = (i64, usize, u64);

/// Five columns of three numbers have 243 combinations; of 10,000 numbers there are more than 64 bits tell.
const FAR_BEYOND: [Wide; 3] = [
    (3, 5, 1 + 30 + 243),
    (100, 3, 1 + 1_000 + 1_000_000),
    (10_000, 5, 9_223_372_036_854_775_807),
];

/// Columns of the first properties, so many.
fn columns(alloc: Global, width: usize) -> Result<Vec<Column>, AllocError> {
    let mut columns = Vec::new(alloc);
    for name in NAMES.iter().take(width) {
        columns.push(column(alloc, name, false)?)?;
    }
    Ok(columns)
}

/// A definition over the first properties, so many; none over no property.
fn composite(alloc: Global, ancestor: bool, width: usize) -> Result<Defs, AllocError> {
    if width == 0 {
        return Ok(Defs::new(alloc));
    }
    let definition = definition(alloc, ancestor, columns(alloc, width)?)?;
    let mut defs = Defs::new(alloc);
    let _ = defs.push(definition);
    Ok(defs)
}

fn one_of(alloc: Global, a: i64) -> Result<Properties, AllocError>
    ensures { IfOk result (λ list. IsTrue (names_ascend list) × (length list < 2 ^ 32)) }
{
    let a = numbers(alloc, "a", a)?;
    Ok(Properties::from(vec![in alloc; a]?))
}

fn two_of(alloc: Global, a: i64, b: i64) -> Result<Properties, AllocError>
    ensures { IfOk result (λ list. IsTrue (names_ascend list) × (length list < 2 ^ 32)) }
{
    let a = numbers(alloc, "a", a)?;
    let b = numbers(alloc, "b", b)?;
    Ok(Properties::from(vec![in alloc; a, b]?))
}

/// Five properties with as many numbers each.
fn five_of(alloc: Global, count: i64) -> Result<Properties, AllocError>
    ensures { IfOk result (λ list. IsTrue (names_ascend list) × (length list < 2 ^ 32)) }
{
    let a = numbers(alloc, "a", count)?;
    let b = numbers(alloc, "b", count)?;
    let c = numbers(alloc, "c", count)?;
    let d = numbers(alloc, "d", count)?;
    let e = numbers(alloc, "e", count)?;
    Ok(Properties::from(vec![in alloc; a, b, c, d, e]?))
}

fn entity_of(alloc: Global, properties: Properties) -> Result<Entity, Fail>
    requires ascending { IsTrue (names_ascend properties) }
    requires few { length properties < 2 ^ 32 }
{
    Ok(Entity::new(key(alloc, "a")?, properties)?)
}

/// Whether the entity has so many rows, and is taken just where they are no more than 20,000.
fn has_rows(alloc: Global, defs: &Defs, entity: &Entity, rows: u64) -> bool {
    match count_rows(alloc, defs, entity) {
        Ok(count) => count == rows && rows <= 20_000,
        Err(RowsRefused::TooManyRows { count }) => count == rows && rows > 20_000,
        Err(RowsRefused::NoMemory) => false,
    }
}

fn is_counted(alloc: Global, case: &Case) -> Result<bool, Fail> {
    let entity = entity_of(alloc, two_of(alloc, case.0, case.1)?)?;
    let defs = composite(alloc, false, case.2)?;
    Ok(has_rows(alloc, &defs, &entity, case.3))
}

fn is_wide_counted(alloc: Global, case: &Wide) -> Result<bool, Fail> {
    let entity = entity_of(alloc, five_of(alloc, case.0)?)?;
    let defs = composite(alloc, false, case.1)?;
    Ok(has_rows(alloc, &defs, &entity, case.2))
}

fn counts_up_to_the_limit(alloc: Global) -> Result<bool, Fail> {
    for case in &UP_TO_THE_LIMIT {
        if !is_counted(alloc, case)? {
            return Ok(false);
        }
    }
    Ok(true)
}

fn counts_far_beyond(alloc: Global) -> Result<bool, Fail> {
    for case in &FAR_BEYOND {
        if !is_wide_counted(alloc, case)? {
            return Ok(false);
        }
    }
    Ok(true)
}

/// A definition with a property that the entity hasn't gives no row.
fn counts_none_where_a_property_is_missing(alloc: Global) -> Result<bool, Fail> {
    let one = entity_of(alloc, one_of(alloc, 7)?)?;
    let defs = composite(alloc, true, 5)?;
    Ok(has_rows(alloc, &defs, &one, 15))
}

#[test]
fn counts_rows(rt: HostRuntime) -> Result<(), Fail> {
    assert!(rt; counts_up_to_the_limit(rt.alloc())?);
    assert!(rt; counts_far_beyond(rt.alloc())?);
    assert!(rt; counts_none_where_a_property_is_missing(rt.alloc())?);
    Ok(())
}
