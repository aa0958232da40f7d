//! Which entities count for a branch, and which values are in its range.
ghost use Rattle.std.specs.Prelude.{◌≡◌, IfOk};
ghost use Rattle.std.specs.List.{list_all, list_any};
ghost use Rattle.std.specs.Ordering.{is_eq};
ghost use Rattle.ds_base.specs.IndexOrder.{index_value_cmp};
ghost use Rattle.ds_base.specs.declared.index_value.IndexValue.TheVariants as index;
ghost use Rattle.ds_model.specs.Rows.{has_kind, is_under, has_value, is_found, is_above, is_below, is_within};

use ds_base::{IndexValue, Key, NoMemory, TextString};
use ds_entity::Entity;
use ds_query::{Bound, Branch, Pair, Range};
use ds_rows::{indexed_values, kind_of};
use std::alloc::Global;
use std::cmp::Ordering;

/// Whether the entity has the branch's namespace and kind, lies under its ancestor, and meets each equality. Values are looked at last.
pub(crate) fn is_found(alloc: Global, branch: &Branch, entity: &Entity) -> Result<bool, NoMemory>
    ensures { IfOk result (λ found. found ≡ is_found branch.now entity.now) }
{
    let key = entity.key();
    if key.namespace().text() != branch.namespace.text() {
        return Ok(false);
    }
    if !has_kind(&branch.kind, key) {
        return Ok(false);
    }
    if !is_under(&branch.ancestor, key) {
        return Ok(false);
    }
    has_values(alloc, entity, branch.equal.as_slice())
}

fn has_kind(kind: &Option<TextString>, key: &Key) -> bool
    ensures { result ≡ has_kind kind.now key.now }
{
    match kind {
        Some(kind) => kind.bytes() == kind_of(key),
        None => true,
    }
}

fn is_under(ancestor: &Option<Key>, key: &Key) -> bool
    ensures { result ≡ is_under ancestor.now key.now }
{
    match ancestor {
        Some(ancestor) => ancestor.is_ancestor(key),
        None => true,
    }
}

fn has_values(alloc: Global, entity: &Entity, pairs: &[Pair]) -> Result<bool, NoMemory>
    ensures { IfOk result (λ all. all ≡ list_all (has_value entity.now) pairs.now) }
{
    for pair in pairs {
        if !has_value(alloc, entity, pair)? {
            return Ok(false);
        }
    }
    Ok(true)
}

fn has_value(alloc: Global, entity: &Entity, pair: &Pair) -> Result<bool, NoMemory>
    ensures { IfOk result (λ has. has ≡ has_value entity.now pair.now) }
{
    let values = indexed_values(alloc, entity, &pair.property)?;
    Ok(contains(values.as_slice(), &pair.value))
}

fn contains(values: &[IndexValue], value: &IndexValue) -> bool
    ensures { result ≡ list_any (λ v. is_eq (index_value_cmp v value.now)) values.now }
{
    values.iter().any(|held| *held == *value)
}

/// Whether one value meets both bounds.
pub(crate) fn is_within(range: &Range, value: &IndexValue) -> bool
    ensures { result ≡ is_within range.now value.now }
{
    is_above(&range.lower, value) && is_below(&range.upper, value)
}

fn is_above(bound: &Option<Bound>, value: &IndexValue) -> bool
    ensures { result ≡ is_above bound.now value.now }
{
    match bound {
        Some(bound) => match bound.value.cmp(value) {
            Ordering::Less => true,
            Ordering::Equal => bound.inclusive,
            Ordering::Greater => false,
        },
        None => true,
    }
}

fn is_below(bound: &Option<Bound>, value: &IndexValue) -> bool
    ensures { result ≡ is_below bound.now value.now }
{
    match bound {
        Some(bound) => match value.cmp(&bound.value) {
            Ordering::Less => true,
            Ordering::Equal => bound.inclusive,
            Ordering::Greater => false,
        },
        None => true,
    }
}
