//! The arguments of a statement by their names.
ghost use Rattle.ds_member_reading.specs.Forms.{named_value_of, named_values_of};

use ds_base::{NamedValue, NamedValues, TextString};
use ds_json_reading::{EntryForm, Form, Refusal, ValueForm, read_entries};
use serde_json::Value;
use std::alloc::Global;

/// An object of values, in the order of their names.
#[derive(Drop)]
pub struct NamedValuesForm;

impl Form for NamedValuesForm {
    type Item = NamedValues;

    ghost reads = { λ _. named_values_of };

    fn read(&self, alloc: Global, value: Value) -> Result<NamedValues, Refusal> {
        match value {
            Value::Object(members) => read_entries(alloc, &NamedValueForm, members),
            _ => Err(Refusal::Request),
        }
    }
}

/// One member of that object.
#[derive(Drop)]
struct NamedValueForm;

impl EntryForm for NamedValueForm {
    type Item = NamedValue;

    ghost reads = { λ _. named_value_of };

    fn read(
        &self,
        alloc: Global,
        name: String,
        value: Value,
    ) -> Result<Option<NamedValue>, Refusal> {
        Ok(Some(NamedValue {
            name: TextString::from_string(name),
            value: ValueForm.read(alloc, value)?,
        }))
    }
}
