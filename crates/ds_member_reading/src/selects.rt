//! What a query gives of each result.
ghost use Rattle.std.specs.Prelude.{◌≡◌};
ghost use Rattle.serde_json.specs.Data.{string};
ghost use Rattle.ds_member_reading.specs.Forms.{select_of};

use crate::scalars::NameForm;
use ds_json_reading::{Form, Refusal, read_some};
use ds_query::Select;
use serde_json::Value;
use std::alloc::Global;

/// A selection: `"entities"`, `"keys"`, or an array of at least one property.
#[derive(Drop)]
pub struct SelectForm;

impl Form for SelectForm {
    type Item = Select;

    ghost reads = { λ _. select_of };

    fn read(&self, alloc: Global, value: Value) -> Result<Select, Refusal> {
        match value {
            Value::String(name) => selection(name.as_str()),
            value => Ok(Select::Projection(read_some(alloc, &NameForm, value)?)),
        }
    }
}

/// The selection of this name.
pub(crate) fn selection(name: &str) -> Result<Select, Refusal>
    ensures { result ≡ select_of (string name.now) }
{
    match name {
        "entities" => Ok(Select::Entities),
        "keys" => Ok(Select::Keys),
        _ => Err(Refusal::Request),
    }
}
