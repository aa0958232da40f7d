//! Marks: what makes two rows one result.
ghost use Rattle.std.specs.Prelude.{◌≡◌, map, IfOk};
ghost use Rattle.ds_pages.specs.Marks.{mark_of, value_at};
ghost use Rattle.ds_pages.specs.Slots.{slot_of};

use ds_base::{Column, IndexValue, IndexValues, Key, NoMemory, TextString, TryCopy, is_key_name};
use ds_query::Row;
use std::alloc::Global;

/// The key of a row, and in a projection the projected values in its order.
#[derive(Drop)]
pub(crate) struct Mark {
    /// The row's key.
    pub(crate) key: Key,
    /// The projected values; none where nothing is projected.
    pub(crate) values: IndexValues,
}

/// Where the projected values stand among those of a row; nowhere for a name that no column has.
pub(crate) fn slots(
    alloc: Global,
    columns: &[Column],
    names: &[TextString],
) -> Result<Vec<Option<usize>>, NoMemory>
    ensures { IfOk result (λ slots. slots.items ≡ map (slot_of columns.now) names.now) }
{
    let mut slots = Vec::with_capacity(alloc, names.len())?;
    for name in names {
        slots.push(slot_of(columns, name))?;
    }
    Ok(slots)
}

/// Where the value of the column of this name stands among those of a row.
fn slot_of(columns: &[Column], name: &TextString) -> Option<usize>
    ensures { result ≡ slot_of columns.now name.now }
{
    let mut slot = 0;
    for column in columns {
        if !is_key_name(&column.name) {
            if name.text() == column.name.text() {
                return Some(slot);
            }
            slot += 1;
        }
    }
    None
}

/// The mark of a row, by where the projected values stand.
pub(crate) fn mark_of(alloc: Global, row: &Row, slots: &[Option<usize>]) -> Result<Mark, NoMemory>
    ensures { IfOk result (λ mark. mark ≡ mark_of slots.now row.now) }
{
    let mut values = Vec::with_capacity(alloc, slots.len())?;
    for slot in slots {
        values.push(value_at(alloc, row.values.as_slice(), *slot)?)?;
    }
    Ok(Mark {
        key: row.key.copy(alloc)?,
        values: IndexValues::from(values),
    })
}

fn value_at(
    alloc: Global,
    values: &[IndexValue],
    slot: Option<usize>,
) -> Result<IndexValue, NoMemory>
    ensures { IfOk result (λ value. value ≡ value_at values.now slot) }
{
    match slot {
        Some(slot) => match values.get(slot) {
            Some(value) => value.copy(alloc),
            None => Ok(IndexValue::Null),
        },
        None => Ok(IndexValue::Null),
    }
}
