//! A query's results, and the lists of counts and columns, as JSON.
ghost use Rattle.std.specs.Prelude.{false};
ghost use Rattle.serde_json.specs.Written.{compact_text, items_text};
ghost use Rattle.ds_reply.specs.Results.{count_items, column_data, column_items, index_def_data, constraint_data, result_data};
ghost use Rattle.ds_reply.specs.Results.{result_items};
ghost use Rattle.ds_reply.specs.Orders.{IsOrder};

use crate::entities::write_optional_entity;
use crate::projection::{Order, order_of, write_projected};
use ds_base::{Column, IndexValue, TextString};
use ds_entity::Item;
use ds_indexdef::IndexDef;
use ds_json_printing::{
    Output, write_boolean, write_comma, write_index_value, write_key, write_natural, write_text,
};
use ds_query::{Constraint, Select};

/// Puts the results and the closing bracket.
pub(crate) fn write_results<O: Output>(select: &Select, results: &[Item], out: &mut O)
    ensures { O.Writes (items_text false (result_items select.now results.now)) out.old out.new }
{
    match select {
        Select::Entities => write_entities(results, out),
        Select::Keys => write_keys(results, out),
        Select::Projection(names) => write_projections(names.as_slice(), results, out),
    }
}

/// Puts the entities of the results and the closing bracket.
fn write_entities<O: Output>(results: &[Item], out: &mut O)
    ensures { O.Writes (items_text false (result_items Select.Entities results.now)) out.old out.new }
{
    let mut later = false;
    for result in results {
        write_comma(later, out);
        write_optional_entity(&result.entity, out);
        later = true;
    }
    out.put(b"]");
}

/// Puts the keys of the results and the closing bracket.
fn write_keys<O: Output>(results: &[Item], out: &mut O)
    ensures { O.Writes (items_text false (result_items Select.Keys results.now)) out.old out.new }
{
    let mut later = false;
    for result in results {
        write_comma(later, out);
        write_key(&result.key, out);
        later = true;
    }
    out.put(b"]");
}

/// Puts the keys of the results with their projected values, and the closing bracket.
fn write_projections<O: Output>(names: &[TextString], results: &[Item], out: &mut O)
    ensures { O.Writes (items_text false (result_items (Select.Projection names.now) results.now)) out.old out.new }
{
    let order = order_of(names);
    let mut later = false;
    for result in results {
        write_comma(later, out);
        write_projection(names, &order, result, out);
        later = true;
    }
    out.put(b"]");
}

fn write_projection<O: Output>(names: &[TextString], order: &Order, item: &Item, out: &mut O)
    requires { IsOrder names.now order.now }
    ensures { O.Writes (compact_text (result_data (Select.Projection names.now) item.now)) out.old out.new }
{
    out.put(b"{\"key\":");
    write_key(&item.key, out);
    out.put(b",\"properties\":{");
    write_projected(names, order, item.projected.as_slice(), out);
    out.put(b"}");
}

/// Puts the counts and the closing bracket.
pub(crate) fn write_counts<O: Output>(counts: &[u64], out: &mut O)
    ensures { O.Writes (items_text false (count_items counts.now)) out.old out.new }
{
    let mut later = false;
    for count in counts {
        write_comma(later, out);
        write_natural(*count, out);
        later = true;
    }
    out.put(b"]");
}

/// Puts the definition of an index.
pub(crate) fn write_index_def<O: Output>(index: &IndexDef, out: &mut O)
    ensures { O.Writes (compact_text (index_def_data index.now)) out.old out.new }
{
    out.put(b"{\"ancestor\":");
    write_boolean(index.ancestor, out);
    out.put(b",\"kind\":");
    write_text(&index.kind, out);
    out.put(b",\"properties\":[");
    write_columns(index.columns.as_slice(), out);
    out.put(b"}");
}

/// Puts the columns and the closing bracket.
fn write_columns<O: Output>(columns: &[Column], out: &mut O)
    ensures { O.Writes (items_text false (column_items columns.now)) out.old out.new }
{
    let mut later = false;
    for column in columns {
        write_comma(later, out);
        write_column(column, out);
        later = true;
    }
    out.put(b"]");
}

fn write_column<O: Output>(column: &Column, out: &mut O)
    ensures { O.Writes (compact_text (column_data column.now)) out.old out.new }
{
    out.put(b"[");
    write_text(&column.name, out);
    if column.descending {
        out.put(b",\"desc\"]");
    } else {
        out.put(b",\"asc\"]");
    }
}

/// Puts what no index serves.
#[tactic(auto, unfolding(json::specs::Print::escape_byte))]
pub(crate) fn write_constraint<O: Output>(constraint: &Constraint, out: &mut O)
    ensures { O.Writes (compact_text (constraint_data constraint.now)) out.old out.new }
{
    match constraint {
        Constraint::Columns => out.put(b"\"columns\""),
        Constraint::Ancestor => out.put(b"\"ancestor\""),
        Constraint::Equal(pair) => write_equality(&pair.property, &pair.value, out),
    }
}

fn write_equality<O: Output>(property: &TextString, value: &IndexValue, out: &mut O)
    ensures { O.Writes
        (compact_text (constraint_data (Constraint.Equal (record { property = property.now; value = value.now })))) out.old out.new }
{
    out.put(b"{\"property\":");
    write_text(property, out);
    out.put(b",\"value\":");
    write_index_value(value, out);
    out.put(b"}");
}
