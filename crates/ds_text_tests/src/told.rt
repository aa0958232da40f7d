//! A statement as one line.

use ds_base::{Column, Elem, Elems, Ident, TextString, Value};
use ds_gql::{GqlRefused, Statement};
use ds_query::{Filter, Op, Query, Select};
use std::alloc::{AllocError, Global};

/// Whether this is told of what was read, or of where it was refused.
pub(crate) fn is_told(
    alloc: Global,
    read: Result<Statement, GqlRefused>,
    want: &str,
) -> Result<bool, AllocError> {
    let mut told = String::new(alloc);
    tell(alloc, read, &mut told)?;
    Ok(told.as_str() == want)
}

fn tell(
    alloc: Global,
    read: Result<Statement, GqlRefused>,
    onto: &mut String,
) -> Result<(), AllocError> {
    match read {
        Ok(statement) => tell_statement(alloc, &statement, onto),
        Err(GqlRefused::At(place)) => {
            onto.push_str("at ")?;
            tell_number(alloc, place, onto)
        }
        Err(GqlRefused::NoMemory) => onto.push_str("no memory"),
    }
}

fn tell_number(alloc: Global, number: u64, onto: &mut String) -> Result<(), AllocError> {
    let text = number.to_string(alloc)?;
    onto.push_str(text.as_str())
}

fn tell_statement(
    alloc: Global,
    statement: &Statement,
    onto: &mut String,
) -> Result<(), AllocError> {
    tell_query(alloc, &statement.query, onto)?;
    onto.push_str(" ")?;
    tell_number(alloc, u64::from(statement.offset), onto)?;
    onto.push_str("+")?;
    match statement.limit {
        Some(limit) => tell_number(alloc, u64::from(limit), onto),
        None => Ok(()),
    }
}

fn tell_query(alloc: Global, query: &Query, onto: &mut String) -> Result<(), AllocError> {
    tell_select(&query.select, onto)?;
    onto.push_str("|")?;
    onto.push_str(kind_of(query))?;
    onto.push_str("|")?;
    if let Some(key) = &query.ancestor {
        tell_path(alloc, key.elems(), onto)?;
    }
    onto.push_str("|")?;
    tell_filters(alloc, query.filters.as_slice(), onto)?;
    onto.push_str("|")?;
    tell_orders(query.orders.as_slice(), onto)?;
    onto.push_str("|")
}

fn tell_select(select: &Select, onto: &mut String) -> Result<(), AllocError> {
    match select {
        Select::Entities => onto.push_str("*"),
        Select::Keys => onto.push_str("keys"),
        Select::Projection(names) => tell_names(names.as_slice(), onto),
    }
}

fn tell_names(names: &[TextString], onto: &mut String) -> Result<(), AllocError> {
    for name in names {
        onto.push_str(name.text())?;
        onto.push_str(";")?;
    }
    Ok(())
}

fn kind_of(query: &Query) -> &str {
    match &query.kind {
        Some(kind) => kind.text(),
        None => "-",
    }
}

fn tell_path(alloc: Global, path: &Elems, onto: &mut String) -> Result<(), AllocError> {
    for elem in path.as_slice() {
        tell_elem(alloc, elem, onto)?;
    }
    Ok(())
}

fn tell_elem(alloc: Global, elem: &Elem, onto: &mut String) -> Result<(), AllocError> {
    onto.push_str("/")?;
    onto.push_str(elem.kind.text())?;
    onto.push_str(" ")?;
    match &elem.ident {
        Ident::Id(id) => tell_number(alloc, *id, onto),
        Ident::Name(name) => tell_quoted(name, onto),
    }
}

fn tell_quoted(text: &TextString, onto: &mut String) -> Result<(), AllocError> {
    onto.push_str("'")?;
    onto.push_str(text.text())?;
    onto.push_str("'")
}

fn tell_filters(alloc: Global, filters: &[Filter], onto: &mut String) -> Result<(), AllocError> {
    for filter in filters {
        onto.push_str(filter.property.text())?;
        onto.push_str(op_name(filter.op))?;
        tell_values(alloc, filter.values.as_slice(), onto)?;
    }
    Ok(())
}

fn op_name(op: Op) -> &'static str {
    match op {
        Op::Equal => "=",
        Op::Less => "<",
        Op::LessEqual => "<=",
        Op::Greater => ">",
        Op::GreaterEqual => ">=",
        Op::NotEqual => "!=",
        Op::OneOf => " in ",
    }
}

fn tell_values(alloc: Global, values: &[Value], onto: &mut String) -> Result<(), AllocError> {
    for value in values {
        tell_value(alloc, value, onto)?;
        onto.push_str(";")?;
    }
    Ok(())
}

fn tell_value(alloc: Global, value: &Value, onto: &mut String) -> Result<(), AllocError> {
    match value {
        Value::Null => onto.push_str("null"),
        Value::Int(n) => {
            let text = n.to_string(alloc)?;
            onto.push_str(text.as_str())
        }
        Value::Bool(b) => onto.push_str(if *b { "true" } else { "false" }),
        Value::Str(text) => tell_quoted(text, onto),
        Value::Key(key) => tell_path(alloc, key.elems(), onto),
        _ => onto.push_str("other"),
    }
}

fn tell_orders(orders: &[Column], onto: &mut String) -> Result<(), AllocError> {
    for order in orders {
        onto.push_str(order.name.text())?;
        onto.push_str(if order.descending { "-" } else { "+" })?;
    }
    Ok(())
}
