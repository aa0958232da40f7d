//! Why a query is refused for its form: the first reason that holds.
ghost use Rattle.std.specs.Prelude.{◌≡◌, ◌&&◌, not, bytes_eq, IfOk, List, ℕ};
ghost use Rattle.std.specs.Option.{option_copied};
ghost use Rattle.std.specs.List.{list_any};
ghost use Rattle.ds_query.specs.Filters.{is_inequality, has_equality, inequality_of, is_several, projected};
ghost use Rattle.ds_base.specs.KeyColumn.{is_key_name};
ghost use Rattle.ds_query.specs.Reasons.{is_key_value, is_unindexed, has_wrong_key, has_unindexed, needs_kind, lacks_kind};
ghost use Rattle.ds_query.specs.Reasons.{two_inequalities, equal_and_range, first_left, first_order_apart, is_projection, projects_key};
ghost use Rattle.ds_query.specs.Reasons.{has_name, repeats, projects_equal, first_that_holds, later_reasons, reason_of};

use crate::filters::{inequality_of, is_equality, is_several};
use crate::names::NameSet;
use crate::query::{Filter, Query, Select};
use crate::refusal::Reason;
use ds_base::{Column, TextString, Value, is_key_name};
use std::alloc::{AllocError, Global};

/// The first reason that holds; `equal` has the properties with an equality.
pub(crate) fn reason_of(
    alloc: Global,
    query: &Query,
    equal: &NameSet,
) -> Result<Option<Reason>, AllocError>
    requires { (n : List ℕ) → has_name equal.now n ≡ has_equality query.now.filters n }
    ensures { IfOk result (λ r. r ≡ reason_of query.now) }
{
    let filters = query.filters.as_slice();
    if any_wrong_key(filters) {
        return Ok(Some(Reason::KeyValue));
    }
    if any_unindexed(filters) {
        return Ok(Some(Reason::UnindexedValue));
    }
    if lacks_kind(query) {
        return Ok(Some(Reason::Kindless));
    }
    if two_inequalities(filters) {
        return Ok(Some(Reason::Inequalities));
    }
    if equal_and_range(filters, equal) {
        return Ok(Some(Reason::EqualAndRange));
    }
    later_reason(alloc, query, equal)
}

/// The first reason that orders, projections and cursors give.
fn later_reason(alloc: Global, query: &Query, equal: &NameSet) -> Result<Option<Reason>, AllocError>
    requires { (n : List ℕ) → has_name equal.now n ≡ has_equality query.now.filters n }
    ensures { IfOk result (λ r. r ≡ first_that_holds (later_reasons query.now)) }
{
    if first_order_apart(query, equal) {
        return Ok(Some(Reason::FirstOrder));
    }
    if projects_key(query) {
        return Ok(Some(Reason::ProjectionKey));
    }
    if repeats(alloc, query.select.projected())? {
        return Ok(Some(Reason::ProjectionRepeat));
    }
    if projects_equal(query, equal) {
        return Ok(Some(Reason::ProjectionEqual));
    }
    if is_several(query.filters.as_slice()) && query.cursors {
        return Ok(Some(Reason::SeveralCursor));
    }
    Ok(None)
}

/// Whether a filter on `__key__` has a value that is no key.
fn any_wrong_key(filters: &[Filter]) -> bool
    ensures { result ≡ list_any has_wrong_key filters.now }
{
    filters.iter().any(|filter| has_wrong_key(filter))
}

fn has_wrong_key(filter: &Filter) -> bool
    ensures { result ≡ has_wrong_key filter.now }
{
    is_key_name(&filter.property) && any_no_key(filter.values.as_slice())
}

fn any_no_key(values: &[Value]) -> bool
    ensures { result ≡ list_any (λ v. not (is_key_value v)) values.now }
{
    values.iter().any(|value| !is_key_value(value))
}

fn is_key_value(value: &Value) -> bool
    ensures { result ≡ is_key_value value.now }
{
    matches!(value, Value::Key(_))
}

/// Whether a filter has a value that no index holds.
fn any_unindexed(filters: &[Filter]) -> bool
    ensures { result ≡ list_any has_unindexed filters.now }
{
    filters.iter().any(|filter| has_unindexed(filter))
}

fn has_unindexed(filter: &Filter) -> bool
    ensures { result ≡ has_unindexed filter.now }
{
    filter
        .values
        .as_slice()
        .iter()
        .any(|value| is_unindexed(value))
}

fn is_unindexed(value: &Value) -> bool
    ensures { result ≡ is_unindexed value.now }
{
    matches!(value, Value::Text(_) | Value::Blob(_))
}

/// Whether there is no kind, and a filter, an order or a projection that needs one.
fn lacks_kind(query: &Query) -> bool
    ensures { result ≡ lacks_kind query.now }
{
    match &query.kind {
        Some(_) => false,
        None => {
            any_property(query.filters.as_slice())
                || any_needs_kind(query.orders.as_slice())
                || any_other_name(query.select.projected())
        }
    }
}

fn any_property(filters: &[Filter]) -> bool
    ensures { result ≡ list_any (λ f. not (is_key_name f.property)) filters.now }
{
    filters.iter().any(|filter| !is_key_name(&filter.property))
}

fn any_needs_kind(orders: &[Column]) -> bool
    ensures { result ≡ list_any needs_kind orders.now }
{
    orders.iter().any(|order| needs_kind(order))
}

/// Whether an order is on a property, or on `__key__` descending.
fn needs_kind(order: &Column) -> bool
    ensures { result ≡ needs_kind order.now }
{
    !is_key_name(&order.name) || order.descending
}

fn any_other_name(names: &[TextString]) -> bool
    ensures { result ≡ list_any (λ n. not (is_key_name n)) names.now }
{
    names.iter().any(|name| !is_key_name(name))
}

/// Whether two different properties have inequalities.
fn two_inequalities(filters: &[Filter]) -> bool
    ensures { result ≡ two_inequalities filters.now }
{
    match inequality_of(filters) {
        None => false,
        Some(property) => any_other_inequality(filters, property),
    }
}

fn any_other_inequality(filters: &[Filter], property: &TextString) -> bool
    ensures { result ≡ list_any (λ f. is_inequality f && not (bytes_eq f.property property.now))
        filters.now }
{
    filters.iter().any(|filter| !is_equality(filter) && filter.property != *property)
}

/// Whether a property has an equality and an inequality.
fn equal_and_range(filters: &[Filter], equal: &NameSet) -> bool
    requires { (n : List ℕ) → has_name equal.now n ≡ has_equality filters.now n }
    ensures { result ≡ equal_and_range filters.now }
{
    for filter in filters {
        if !is_equality(filter) && equal.contains(filter.property.text()) {
            return true;
        }
    }
    false
}

/// Whether there is an inequality, and the first order that is left without those on properties with an equality is on
/// another property.
fn first_order_apart(query: &Query, equal: &NameSet) -> bool
    requires { (n : List ℕ) → has_name equal.now n ≡ has_equality query.now.filters n }
    ensures { result ≡ first_order_apart query.now }
{
    match (
        inequality_of(query.filters.as_slice()),
        first_left(query, equal),
    ) {
        (Some(property), Some(order)) => order != property,
        _ => false,
    }
}

/// The first order that isn't on a property with an equality.
fn first_left<'a>(query: &'a Query, equal: &NameSet) -> Option<&'a TextString>
    requires { (n : List ℕ) → has_name equal.now n ≡ has_equality query.now.filters n }
    ensures { option_copied result ≡ first_left query.now.filters query.now.orders }
{
    for order in query.orders.as_slice() {
        if !equal.contains(order.name.text()) {
            return Some(&order.name);
        }
    }
    None
}

/// Whether a projection query names `__key__` in its selection, a filter or an order.
fn projects_key(query: &Query) -> bool
    ensures { result ≡ projects_key query.now }
{
    is_projection(&query.select)
        && (any_key_name(query.select.projected())
            || any_on_key(query.filters.as_slice())
            || any_by_key(query.orders.as_slice()))
}

fn is_projection(select: &Select) -> bool
    ensures { result ≡ is_projection select.now }
{
    matches!(select, Select::Projection(_))
}

fn any_key_name(names: &[TextString]) -> bool
    ensures { result ≡ list_any is_key_name names.now }
{
    names.iter().any(|name| is_key_name(name))
}

fn any_on_key(filters: &[Filter]) -> bool
    ensures { result ≡ list_any (λ f. is_key_name f.property) filters.now }
{
    filters.iter().any(|filter| is_key_name(&filter.property))
}

fn any_by_key(orders: &[Column]) -> bool
    ensures { result ≡ list_any (λ c. is_key_name c.name) orders.now }
{
    orders.iter().any(|order| is_key_name(&order.name))
}

/// Whether a name stands twice among these.
fn repeats(alloc: Global, names: &[TextString]) -> Result<bool, AllocError>
    ensures { IfOk result (λ r. r ≡ repeats names.now) }
{
    let mut seen = NameSet::new(alloc);
    for name in names {
        if !seen.insert(name.text())? {
            return Ok(true);
        }
    }
    Ok(false)
}

/// Whether a projected property has an equality.
fn projects_equal(query: &Query, equal: &NameSet) -> bool
    requires { (n : List ℕ) → has_name equal.now n ≡ has_equality query.now.filters n }
    ensures { result ≡ projects_equal query.now }
{
    for name in query.select.projected() {
        if equal.contains(name.text()) {
            return true;
        }
    }
    false
}
