//! Orders of a query.
ghost use Rattle.std.specs.Prelude.{◌≡◌, [], ◌∷◌};
ghost use Rattle.serde_json.specs.Data.{string, array};
ghost use Rattle.serde_json.specs.View.{view, items_view};
ghost use Rattle.ds_json_reading.specs.Reading.{Reads};
ghost use Rattle.ds_member_reading.specs.Forms.{direction_of, order_of};

use crate::scalars::NameForm;
use ds_base::Column;
use ds_json_reading::{Form, Refusal, take_two};
use serde_json::Value;
use std::alloc::Global;

/// An order: `[property, "asc" or "desc"]`.
#[derive(Drop)]
pub struct OrderForm;

impl Form for OrderForm {
    type Item = Column;

    ghost reads = { λ _. order_of };

    fn read(&self, alloc: Global, value: Value) -> Result<Column, Refusal> {
        match value {
            Value::Array(parts) => read_parts(alloc, parts),
            _ => Err(Refusal::Request),
        }
    }
}

fn read_parts(alloc: Global, parts: Vec<Value>) -> Result<Column, Refusal>
    ensures { Reads Refusal.NoMemory (order_of (array (items_view parts.items))) result }
{
    match take_two(parts) {
        Some((property, direction)) => read_order(alloc, property, direction),
        None => Err(Refusal::Request),
    }
}

fn read_order(alloc: Global, property: Value, direction: Value) -> Result<Column, Refusal>
    ensures { Reads Refusal.NoMemory (order_of (array (items_view (property ∷ direction ∷ [])))) result }
{
    let name = NameForm.read(alloc, property)?;
    let descending = is_descending(&direction)?;
    Ok(Column { name, descending })
}

/// Whether rows descend in the direction that the value names.
fn is_descending(value: &Value) -> Result<bool, Refusal>
    ensures { result ≡ direction_of (view value.now) }
{
    match value.as_str() {
        Some(name) => descends(name),
        None => Err(Refusal::Request),
    }
}

/// Whether rows descend in the direction of this name.
pub(crate) fn descends(name: &str) -> Result<bool, Refusal>
    ensures { result ≡ direction_of (string name.now) }
{
    match name {
        "asc" => Ok(false),
        "desc" => Ok(true),
        _ => Err(Refusal::Request),
    }
}
