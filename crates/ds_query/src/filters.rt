//! What the filters of a query ask: which are equalities, which inequalities, and of which property.
ghost use Rattle.std.specs.Prelude.{◌≡◌, ◌&&◌, IfOk, List, ℕ, option_map, take};
ghost use Rattle.std.specs.Option.{option_copied};
ghost use Rattle.ds_query.specs.Filters.{asks_equal, is_equality, is_inequality, has_equality, is_one_of, has_one_of, inequality_of};
ghost use Rattle.ds_query.specs.Filters.{is_split, is_several};
ghost use Rattle.ds_base.specs.KeyColumn.{is_key_name};
ghost use Rattle.ds_query.specs.Reasons.{has_name};

use crate::names::NameSet;
use crate::query::{Filter, Op};
use ds_base::{TextString, is_key_name};
use std::alloc::{AllocError, Global};

/// Whether the operator is `=`, or `in` with one of its values.
pub(crate) fn asks_equal(op: Op) -> bool
    ensures { result ≡ asks_equal op }
{
    matches!(op, Op::Equal | Op::OneOf)
}

/// Whether the filter is `=` or `in` on a property other than `__key__`. Every other filter is an inequality.
pub(crate) fn is_equality(filter: &Filter) -> bool
    ensures { result ≡ is_equality filter.now }
{
    asks_equal(filter.op) && !is_key_name(&filter.property)
}

/// The properties that have an equality, and those that have an `in`.
#[derive(Drop)]
pub(crate) struct FilterNames<'a> {
    pub(crate) equal: NameSet<'a>,
    pub(crate) one_of: NameSet<'a>,
}

/// Whether the operator is `in`.
fn is_one_of(op: Op) -> bool
    ensures { result ≡ is_one_of op }
{
    op == Op::OneOf
}

/// The properties that have an equality.
pub(crate) fn equality_names<'a>(
    alloc: Global,
    filters: &'a [Filter],
) -> Result<NameSet<'a>, AllocError>
    ensures { IfOk result (λ s. (n : List ℕ) → has_name s n ≡ has_equality filters.now n) }
{
    let mut names = NameSet::new(alloc);
    for filter in filters {
        if is_equality(filter) {
            names.insert(filter.property.text())?;
        }
    }
    Ok(names)
}

/// The properties that have an `in`.
pub(crate) fn one_of_names<'a>(
    alloc: Global,
    filters: &'a [Filter],
) -> Result<NameSet<'a>, AllocError>
    ensures { IfOk result (λ s. (n : List ℕ) → has_name s n ≡ has_one_of filters.now n) }
{
    let mut names = NameSet::new(alloc);
    for filter in filters {
        if is_one_of(filter.op) {
            names.insert(filter.property.text())?;
        }
    }
    Ok(names)
}

/// The property of the first inequality.
pub(crate) fn inequality_of(filters: &[Filter]) -> Option<&TextString>
    ensures { option_copied result ≡ inequality_of filters.now }
{
    for filter in filters {
        if !is_equality(filter) {
            return Some(&filter.property);
        }
    }
    None
}

/// Whether there is `!=` or `in`.
pub(crate) fn is_several(filters: &[Filter]) -> bool
    ensures { result ≡ is_several filters.now }
{
    filters.iter().any(|filter| is_split(filter.op))
}

fn is_split(op: Op) -> bool
    ensures { result ≡ is_split op }
{
    matches!(op, Op::NotEqual | Op::OneOf)
}
