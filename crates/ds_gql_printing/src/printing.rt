//! From a statement to a text.
ghost use Rattle.std.specs.Prelude.{◌≡◌, ◌↔◌, ◌&&◌, not, IsTrue, IfOk, Err, Ok, [], bytes_eq, false};
ghost use Rattle.std.specs.List.{list_all, list_any};
ghost use Rattle.ds_query.specs.Filters.{has_operands};
ghost use Rattle.ds_query.specs.declared.query.Select.TheVariants as select;
ghost use Rattle.ds_gql_printing.specs.Printing.{can_print, is_selection, is_short_kind, is_count, is_written_name, has_written_names};
ghost use Rattle.ds_gql_printing.specs.Printing.{has_written_properties, has_written_orders, selected_names, kind_names, text_of, args_of};
ghost use Rattle.ds_gql.specs.Statements.{statement_of};
ghost use Rattle.ds_base.specs.KeyColumn.{key_name};
ghost use Rattle.ds_tokens.specs.Tokens.{is_double_quote};
ghost use Rattle.ds_gql_printing.specs.declared.printing.PrintRefused.TheVariants as refused;

use crate::printer::Printer;
use crate::printer::values::is_default;
use ds_base::limits::{MAX_NAME_BYTES, MAX_RESULTS};
use ds_base::{Column, NoMemory, TextString, Values, is_key_name};
use ds_gql::Statement;
use ds_query::{Filter, Select};
use std::alloc::Global;

/// A statement as a text with its arguments.
#[derive(Drop)]
pub struct Printed {
    /// The text. One space stands between two tokens, keywords stand in capitals, the ancestor's condition stands first, each
    /// order has its direction, and a name has double quotes where it isn't a plain one.
    pub text: TextString,
    /// The arguments that the text cites by their numbers: `:1` is the first. They are the values that have no literal.
    pub args: Values,
}

/// Why a statement isn't printed.
#[derive(Drop, Debug)]
pub enum PrintRefused {
    /// A kind or a property is empty or has a double quote, which no name of a text has.
    Name,
    /// There is no memory for what is printed.
    NoMemory,
}

impl From<NoMemory> for PrintRefused {
    ghost use Rattle.std.specs.Prelude.{◌≡◌};
    ghost use Rattle.ds_gql_printing.specs.declared.printing.PrintRefused.TheVariants.{NoMemory};

    ghost from_gives = { λ _ refused. refused ≡ NoMemory };

    fn from(_: std::alloc::AllocError) -> PrintRefused {
        PrintRefused::NoMemory
    }
}

/// The text that a statement is, with the arguments that it cites: `parse` reads it with them as the same statement. Integers,
/// strings, truth values, nulls and keys of the default namespace stand in the text; each other value is an argument. `Name` comes
/// exactly where a kind or a property is empty or has a double quote; `NoMemory` only when out of memory.
///
/// It needs a statement that `can_print` takes, as `parse` gives them. Its time and memory grow with the text.
pub fn print(alloc: Global, statement: &Statement) -> Result<Printed, PrintRefused>
    requires { IsTrue (can_print statement.now) }
    ensures text { IfOk result (λ printed. printed.text ≡ text_of statement.now) }
    ensures args { IfOk result (λ printed. printed.args ≡ args_of statement.now) }
    ensures read { IfOk result (λ printed. statement_of printed.text (record { args = printed.args; names = [] }) ≡ Ok statement.now) }
    ensures refused { (result ≡ Err refused.Name) ↔ (has_written_names statement.now ≡ false) }
{
    if !has_written_names(statement) {
        return Err(PrintRefused::Name);
    }
    let mut printer = Printer {
        text: String::from_str(alloc, "SELECT")?,
        args: Values::new(alloc),
        refused: false,
    };
    printer.put_statement(alloc, statement);
    if printer.refused {
        return Err(PrintRefused::NoMemory);
    }
    Ok(Printed {
        text: TextString::from_string(printer.text),
        args: printer.args,
    })
}

/// Whether `print` takes a statement: its `cursors` is false and its namespace the default one; its kind has at most 1,500 bytes;
/// `OneOf` has at least one value and every other operator one; a projection has at least one name, none of them `__key__`; and
/// the offset and the limit are at most 2,147,483,647. It takes no memory.
pub fn can_print(statement: &Statement) -> bool
    ensures { result ≡ can_print statement.now }
{
    let query = &statement.query;
    !query.cursors
        && is_default(query.namespace.bytes())
        && is_short_kind(&query.kind)
        && have_operands(query.filters.as_slice())
        && is_selection(&query.select)
        && statement.offset <= MAX_RESULTS
        && is_count(statement.limit)
}

fn is_short_kind(kind: &Option<TextString>) -> bool
    ensures { result ≡ is_short_kind kind.now }
{
    match kind {
        Some(kind) => kind.bytes().len() <= MAX_NAME_BYTES,
        None => true,
    }
}

fn is_count(limit: Option<u32>) -> bool
    ensures { result ≡ is_count limit }
{
    match limit {
        Some(count) => count <= MAX_RESULTS,
        None => true,
    }
}

fn have_operands(filters: &[Filter]) -> bool
    ensures { result ≡ list_all has_operands filters.now }
{
    filters.iter().all(|filter| filter.has_operands())
}

fn is_selection(select: &Select) -> bool
    ensures { result ≡ is_selection select.now }
{
    match select {
        Select::Entities => true,
        Select::Keys => true,
        Select::Projection(names) => are_selected(names.as_slice()),
    }
}

fn are_selected(names: &[TextString]) -> bool
    ensures { result ≡ is_selection (select.Projection names.now) }
{
    match names {
        [] => false,
        [_, ..] => !has_key_name(names),
    }
}

fn has_key_name(names: &[TextString]) -> bool
    ensures { result ≡ list_any (λ name. bytes_eq name key_name) names.now }
{
    names.iter().any(|name| is_key_name(name))
}

/// Whether the kind and each property can be written.
fn has_written_names(statement: &Statement) -> bool
    ensures { result ≡ has_written_names statement.now }
{
    let query = &statement.query;
    has_written_selection(&query.select)
        && has_written_kind(&query.kind)
        && has_written_properties(query.filters.as_slice())
        && has_written_orders(query.orders.as_slice())
}

fn has_written_selection(select: &Select) -> bool
    ensures { result ≡ list_all is_written_name (selected_names select.now) }
{
    match select {
        Select::Entities => true,
        Select::Keys => true,
        Select::Projection(names) => are_written_names(names.as_slice()),
    }
}

fn are_written_names(names: &[TextString]) -> bool
    ensures { result ≡ list_all is_written_name names.now }
{
    names.iter().all(|name| is_written_name(name.bytes()))
}

fn has_written_kind(kind: &Option<TextString>) -> bool
    ensures { result ≡ list_all is_written_name (kind_names kind.now) }
{
    match kind {
        Some(kind) => is_written_name(kind.bytes()),
        None => true,
    }
}

fn has_written_properties(filters: &[Filter]) -> bool
    ensures { result ≡ has_written_properties filters.now }
{
    filters
        .iter()
        .all(|filter| is_written_name(filter.property.bytes()))
}

fn has_written_orders(orders: &[Column]) -> bool
    ensures { result ≡ has_written_orders orders.now }
{
    orders
        .iter()
        .all(|order| is_written_name(order.name.bytes()))
}

/// Whether a name has at least one byte and no double quote.
fn is_written_name(name: &[u8]) -> bool
    ensures { result ≡ is_written_name name.now }
{
    match name {
        [] => false,
        [_, ..] => !has_double_quote(name),
    }
}

fn has_double_quote(bytes: &[u8]) -> bool
    ensures { result ≡ list_any is_double_quote bytes.now }
{
    bytes.iter().any(|byte| *byte == b'"')
}
