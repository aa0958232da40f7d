//! The values of a row and of a branch's pairs, by the names of their properties.
ghost use Rattle.std.specs.Prelude.{◌≡◌};
ghost use Rattle.std.specs.Option.{option_copied};
ghost use Rattle.ds_query.specs.RowValues.{asked_value, value_columns, value_named};

use crate::branch::Pair;
use ds_base::{Column, IndexValue, TextString, is_key_name};

/// The value in the column of this name, of a row with one value per column other than `__key__`, in their order; `None`
/// exactly where no such column has the name or the values end before it.
pub fn value_named<'a>(
    name: &TextString,
    columns: &[Column],
    values: &'a [IndexValue],
) -> Option<&'a IndexValue>
    ensures { option_copied result ≡ value_named name.now (value_columns columns.now) values.now }
{
    let mut slot = 0;
    for column in columns {
        if is_key_name(&column.name) {
            continue;
        }
        if name.text() == column.name.text() {
            return values.get(slot);
        }
        slot += 1;
    }
    None
}

/// The value of the first pair on the property of this name: of a branch's pairs, which ascend, the least that it asks.
pub fn asked_value<'a>(pairs: &'a [Pair], name: &TextString) -> Option<&'a IndexValue>
    ensures { option_copied result ≡ asked_value pairs.now name.now }
{
    for pair in pairs {
        if name.text() == pair.property.text() {
            return Some(&pair.value);
        }
    }
    None
}
