//! Names, numbers of results, filters, orders and selections in common lines.
ghost use Rattle.std.specs.Prelude.{◌≡◌, ◌≤◌, ℕ, Ok, IfSome};
ghost use Rattle.serde_json.specs.Data.{Data, string, array, item, no_items};
ghost use Rattle.ds_json_reading.specs.Values.{value_of};
ghost use Rattle.ds_line_reading.specs.Parts.{IsRead};
ghost use Rattle.ds_member_reading.specs.Forms.{name_of, results_of, operands_of, filter_of, order_of, select_of};

use crate::filters::operator_named;
use crate::orders::descends;
use crate::selects::selection;
use ds_base::limits::MAX_RESULTS;
use ds_base::{Column, TextString, Value, Values};
use ds_line_reading::{LineForm, LineValueForm, read_natural, take_text};
use ds_query::{Filter, Op, Select};
use json::{Reader, Token};
use std::alloc::Global;

/// Reads a kind or a property's name.
pub(crate) fn read_name(alloc: Global, reader: &mut Reader<'_>) -> Option<TextString>
    ensures { (depth : ℕ) → IfSome result (λ n. IsRead depth name_of reader.old n reader.new) }
{
    let name = take_text(reader)?;
    copied_name(alloc, name)
}

/// A name of its own, of at least one byte.
fn copied_name(alloc: Global, name: &str) -> Option<TextString>
    ensures { IfSome result (λ n. name_of (string name.now) ≡ Ok n) }
{
    if name.is_empty() {
        return None;
    }
    match TextString::of(alloc, name) {
        Ok(name) => Some(name),
        Err(_) => None,
    }
}

/// Reads a number of results.
pub(crate) fn read_results(reader: &mut Reader<'_>) -> Option<u32>
    ensures { (depth : ℕ) → IfSome result (λ n. IsRead depth results_of reader.old n reader.new) }
{
    let number = read_natural(reader)?;
    results(number)
}

fn results(number: u64) -> Option<u32>
    ensures { IfSome result (λ n. (n ≡ number) × (n ≤ MAX_RESULTS)) }
{
    if number <= u64::from(MAX_RESULTS) {
        Some(number as u32)
    } else {
        None
    }
}

/// The selection of this name.
pub(crate) fn selection_of(name: &str) -> Option<Select>
    ensures { IfSome result (λ s. select_of (string name.now) ≡ Ok s) }
{
    match selection(name) {
        Ok(selected) => Some(selected),
        Err(_) => None,
    }
}

/// A filter with any operator but `in`: `[property, operator, value]`.
#[derive(Drop)]
pub struct LineFilterForm;

impl LineForm for LineFilterForm {
    type Item = Filter;

    ghost reads = { λ _. filter_of };

    fn read(&self, alloc: Global, reader: &mut Reader<'_>, depth: usize) -> Option<Filter> {
        if depth == 0 {
            return None;
        }
        let Some(Token::BeginArray) = reader.next() else {
            return None;
        };
        let property = take_text(reader)?;
        let op = take_text(reader)?;
        let value = LineValueForm.read(alloc, reader, depth - 1)?;
        if !reader.take_end_array() {
            return None;
        }
        filter(alloc, property, op, value)
    }
}

/// The filter of a property, an operator and a value.
fn filter(alloc: Global, property: &str, op: &str, value: Value) -> Option<Filter>
    ensures { (d : Data) → value_of d ≡ Ok value → IfSome result (λ f. filter_of (array (item (string property.now)
        (item (string op.now) (item d no_items)))) ≡ Ok f) }
{
    let Ok(op) = operator_named(op) else {
        return None;
    };
    let values = operand(alloc, op, value)?;
    let property = copied_name(alloc, property)?;
    Some(Filter {
        property,
        op,
        values,
    })
}

/// The one value that an operator other than `in` compares with.
fn operand(alloc: Global, op: Op, value: Value) -> Option<Values>
    ensures { (d : Data) → value_of d ≡ Ok value → IfSome result (λ vs. operands_of op d ≡ Ok vs) }
{
    if op == Op::OneOf {
        return None;
    }
    match Values::of_one(alloc, value) {
        Ok(values) => Some(values),
        Err(_) => None,
    }
}

/// An order: `[property, "asc" or "desc"]`.
#[derive(Drop)]
pub struct LineOrderForm;

impl LineForm for LineOrderForm {
    type Item = Column;

    ghost reads = { λ _. order_of };

    fn read(&self, alloc: Global, reader: &mut Reader<'_>, depth: usize) -> Option<Column> {
        if depth == 0 {
            return None;
        }
        let Some(Token::BeginArray) = reader.next() else {
            return None;
        };
        let property = take_text(reader)?;
        let direction = take_text(reader)?;
        if !reader.take_end_array() {
            return None;
        }
        order(alloc, property, direction)
    }
}

fn order(alloc: Global, property: &str, direction: &str) -> Option<Column>
    ensures { IfSome result (λ c. order_of (array (item (string property.now) (item (string direction.now) no_items))) ≡ Ok c) }
{
    let Ok(descending) = descends(direction) else {
        return None;
    };
    let name = copied_name(alloc, property)?;
    Some(Column { name, descending })
}
