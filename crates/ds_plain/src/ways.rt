//! Each way to take one value for each column.
ghost use Rattle.std.specs.Prelude.{◌≡◌, ◌++◌, ◌∷◌, [], map, flat_map, IfOk, OnOk};
ghost use Rattle.ds_rows.specs.IndexedValues.{each_way};
ghost use Rattle.ds_plain.specs.Ways.{with_each};

use ds_base::{IndexValue, IndexValues, NoMemory, TryCopy};
use std::alloc::Global;

/// Each way to take one value of each list, the last varying fastest.
pub(crate) fn each_way(alloc: Global, lists: &[IndexValues]) -> Result<Vec<IndexValues>, NoMemory>
    ensures { IfOk result (λ ways. ways.items ≡ each_way lists.now) }
{
    let mut ways = Vec::with_capacity(alloc, 1)?;
    ways.push(IndexValues::new(alloc))?;
    for list in lists {
        ways = with_values(alloc, ways.as_slice(), list.as_slice())?;
    }
    Ok(ways)
}

/// Each way with each of the values behind it.
fn with_values(
    alloc: Global,
    ways: &[IndexValues],
    values: &[IndexValue],
) -> Result<Vec<IndexValues>, NoMemory>
    ensures { IfOk result (λ more. more.items ≡ flat_map (with_each values.now) ways.now) }
{
    let mut more = Vec::new(alloc);
    for way in ways {
        put_with_each(alloc, way, values, &mut more)?;
    }
    Ok(more)
}

fn put_with_each(
    alloc: Global,
    way: &IndexValues,
    values: &[IndexValue],
    more: &mut Vec<IndexValues>,
) -> Result<(), NoMemory>
    ensures { OnOk result (more.new.items ≡ more.old.items ++ with_each values.now way.now) }
{
    for value in values {
        more.push(with_value(alloc, way, value)?)?;
    }
    Ok(())
}

fn with_value(alloc: Global, way: &IndexValues, value: &IndexValue) -> Result<IndexValues, NoMemory>
    ensures { IfOk result (λ more. more ≡ way.now ++ value.now ∷ []) }
{
    let mut more = Vec::with_capacity(alloc, way.len().saturating_add(1))?;
    for held in way.as_slice() {
        more.push(held.copy(alloc)?)?;
    }
    more.push(value.copy(alloc)?)?;
    Ok(IndexValues::from(more))
}
