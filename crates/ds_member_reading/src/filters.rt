//! Filters of a query.
ghost use Rattle.std.specs.Prelude.{◌≡◌, [], ◌∷◌};
ghost use Rattle.serde_json.specs.Data.{string, array};
ghost use Rattle.serde_json.specs.View.{view, items_view};
ghost use Rattle.ds_json_reading.specs.Reading.{Reads};
ghost use Rattle.ds_member_reading.specs.Forms.{op_of, operands_of, filter_of};

use crate::scalars::NameForm;
use ds_base::Values;
use ds_json_reading::{Form, Refusal, ValueForm, only, read_some, take_three};
use ds_query::{Filter, Op};
use serde_json::Value;
use std::alloc::Global;

/// A filter: `[property, operator, value]`.
#[derive(Drop)]
pub struct FilterForm;

impl Form for FilterForm {
    type Item = Filter;

    ghost reads = { λ _. filter_of };

    fn read(&self, alloc: Global, value: Value) -> Result<Filter, Refusal> {
        match value {
            Value::Array(parts) => read_parts(alloc, parts),
            _ => Err(Refusal::Request),
        }
    }
}

fn read_parts(alloc: Global, parts: Vec<Value>) -> Result<Filter, Refusal>
    ensures { Reads Refusal.NoMemory (filter_of (array (items_view parts.items))) result }
{
    match take_three(parts) {
        Some((property, op, operand)) => read_filter(alloc, property, op, operand),
        None => Err(Refusal::Request),
    }
}

fn read_filter(alloc: Global, property: Value, op: Value, operand: Value) -> Result<Filter, Refusal>
    ensures { Reads Refusal.NoMemory
        (filter_of (array (items_view (property ∷ op ∷ operand ∷ [])))) result }
{
    let property = NameForm.read(alloc, property)?;
    let op = operator(&op)?;
    let values = operands(alloc, op, operand)?;
    Ok(Filter {
        property,
        op,
        values,
    })
}

/// The operator that the value names.
fn operator(value: &Value) -> Result<Op, Refusal>
    ensures { result ≡ op_of (view value.now) }
{
    match value.as_str() {
        Some(name) => operator_named(name),
        None => Err(Refusal::Request),
    }
}

/// The operator of this name.
pub(crate) fn operator_named(name: &str) -> Result<Op, Refusal>
    ensures { result ≡ op_of (string name.now) }
{
    match name {
        "=" => Ok(Op::Equal),
        "<" => Ok(Op::Less),
        "<=" => Ok(Op::LessEqual),
        ">" => Ok(Op::Greater),
        ">=" => Ok(Op::GreaterEqual),
        "!=" => Ok(Op::NotEqual),
        "in" => Ok(Op::OneOf),
        _ => Err(Refusal::Request),
    }
}

/// The values that an operator compares with: an array of at least one for `in`, one value for every other operator.
fn operands(alloc: Global, op: Op, value: Value) -> Result<Values, Refusal>
    ensures { Reads Refusal.NoMemory (operands_of op (view value)) result }
{
    if op == Op::OneOf {
        read_some(alloc, &ValueForm, value)
    } else {
        only(alloc, ValueForm.read(alloc, value)?)
    }
}
