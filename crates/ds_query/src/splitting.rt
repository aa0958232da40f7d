//! Taking the `!=` and `in` filters of a query apart.
ghost use Rattle.std.specs.Prelude.{◌≡◌, ◌++◌, ◌∷◌, [], min, length, map, IfOk, OnOk, IsTrue};
ghost use Rattle.std.specs.List.{list_all};
ghost use Rattle.ds_base.specs.Limits.{greatest_told};
ghost use Rattle.ds_query.specs.Filters.{has_operands};
ghost use Rattle.ds_query.specs.Branching.{stricter, greater_bound, lesser_bound, from_bound, up_to_bound, within, unasked, narrowed};
ghost use Rattle.ds_query.specs.Branching.{as_indexed, ways, choices, split_by, split_all, conditions};

use crate::branch::{Bound, Pair, Pairs, Range};
use crate::conditions::Conditions;
use crate::filters::asks_equal;
use crate::query::{Filter, Op};
use ds_base::limits::MAX_TOLD_SIZE;
use ds_base::{IndexValue, TextString, TryCopy, Value, is_key_name};
use std::alloc::{AllocError, Global};
use std::cmp::Ordering;

/// How many ways there are to meet the filters, or 2^63 - 1 where there are more.
pub(crate) fn count_conditions(filters: &[Filter]) -> u64
    requires { IsTrue (list_all has_operands filters.now) }
    ensures { result ≡ min (length (conditions filters.now)) greatest_told }
{
    let mut count = 1u64;
    for filter in filters {
        count = count
            .saturating_mul(count_choices(filter))
            .min(MAX_TOLD_SIZE);
    }
    count
}

/// How many conditions a filter may ask.
fn count_choices(filter: &Filter) -> u64
    requires { IsTrue (has_operands filter.now) }
    ensures { result ≡ length (choices filter.now) }
{
    match filter.op {
        Op::NotEqual => 2,
        _ => filter.values.len() as u64,
    }
}

/// All ways to meet the filters, numbered by the filters as they are written, the last varying fastest.
pub(crate) fn conditions(alloc: Global, filters: &[Filter]) -> Result<Vec<Conditions>, AllocError>
    ensures { IfOk result (λ cs. cs.items ≡ conditions filters.now) }
{
    let mut found = Vec::new(alloc);
    found.push(unasked(alloc))?;
    for filter in filters {
        found = split_all(alloc, found, filter)?;
    }
    Ok(found)
}

/// Nothing asked. It takes no memory.
fn unasked(alloc: Global) -> Conditions
    ensures { result ≡ unasked }
{
    Conditions {
        equal: Pairs::new(alloc),
        range: Range {
            lower: None,
            upper: None,
        },
    }
}

/// Each of the conditions, split by what one more filter may ask.
fn split_all(
    alloc: Global,
    before: Vec<Conditions>,
    filter: &Filter,
) -> Result<Vec<Conditions>, AllocError>
    ensures { IfOk result (λ cs. cs.items ≡ split_all before.items filter.now) }
{
    let mut after = Vec::with_capacity(alloc, before.len())?;
    for conditions in before {
        split(alloc, conditions, filter, &mut after)?;
    }
    Ok(after)
}

/// The conditions, split by what one more filter may ask, at the end of `onto`. Where it asks one thing alone, they are
/// moved and not copied, so that many filters take linear time.
fn split(
    alloc: Global,
    conditions: Conditions,
    filter: &Filter,
    onto: &mut Vec<Conditions>,
) -> Result<(), AllocError>
    ensures { OnOk result (onto.new.items ≡ onto.old.items ++ split_by filter.now conditions) }
{
    let values = filter.values.as_slice();
    if values.len() == 1 && filter.op != Op::NotEqual {
        let one = narrowed(alloc, &filter.property, conditions, filter.op, &values[0])?;
        onto.push(one)?;
        return Ok(());
    }
    for value in values {
        split_by_value(alloc, &conditions, filter, value, onto)?;
    }
    Ok(())
}

/// The conditions, split by what the filter asks with one of its values, at the end of `onto`.
fn split_by_value(
    alloc: Global,
    conditions: &Conditions,
    filter: &Filter,
    value: &Value,
    onto: &mut Vec<Conditions>,
) -> Result<(), AllocError>
    ensures { OnOk result (onto.new.items ≡ onto.old.items
        ++ map (narrowed filter.now.property conditions.now)
        (ways filter.now.op (as_indexed value.now))) }
{
    let property = &filter.property;
    if filter.op == Op::NotEqual {
        let below = narrowed(alloc, property, conditions.copy(alloc)?, Op::Less, value)?;
        onto.push(below)?;
        let above = narrowed(alloc, property, conditions.copy(alloc)?, Op::Greater, value)?;
        onto.push(above)?;
    } else {
        let one = narrowed(alloc, property, conditions.copy(alloc)?, filter.op, value)?;
        onto.push(one)?;
    }
    Ok(())
}

/// The conditions with one more: an equality of a property, or a smaller range.
fn narrowed(
    alloc: Global,
    property: &TextString,
    conditions: Conditions,
    op: Op,
    value: &Value,
) -> Result<Conditions, AllocError>
    ensures { IfOk result (λ c. c ≡ narrowed property.now conditions (op, as_indexed value.now)) }
{
    let value = as_indexed(alloc, value)?;
    let Conditions { equal, range } = conditions;
    if asks_equal(op) && !is_key_name(property) {
        let equal = with_equality(alloc, property, value, equal)?;
        return Ok(Conditions { equal, range });
    }
    let range = within(alloc, op, value, range)?;
    Ok(Conditions { equal, range })
}

/// The pairs with one more at their end.
fn with_equality(
    alloc: Global,
    property: &TextString,
    value: IndexValue,
    mut equal: Pairs,
) -> Result<Pairs, AllocError>
    ensures { IfOk result (λ ps. ps ≡ equal ++ record { property = property.now; value = value } ∷ []) }
{
    let property = property.copy(alloc)?;
    match equal.push(Pair { property, value }) {
        Ok(()) => Ok(equal),
        Err(_) => Err(AllocError),
    }
}

/// The value as an index holds it; null where none does, which no query has that is answered.
fn as_indexed(alloc: Global, value: &Value) -> Result<IndexValue, AllocError>
    ensures { IfOk result (λ v. v ≡ as_indexed value.now) }
{
    match value.index(alloc)? {
        Some(value) => Ok(value),
        None => Ok(IndexValue::Null),
    }
}

/// The part of a range that meets an inequality; `=` on the key is both of its bounds.
fn within(alloc: Global, op: Op, value: IndexValue, range: Range) -> Result<Range, AllocError>
    ensures { IfOk result (λ r. r ≡ within op value range) }
{
    Ok(match op {
        Op::Less => up_to_bound(at_bound(value, false), range),
        Op::LessEqual => up_to_bound(at_bound(value, true), range),
        Op::Greater => from_bound(at_bound(value, false), range),
        Op::GreaterEqual => from_bound(at_bound(value, true), range),
        Op::Equal | Op::OneOf | Op::NotEqual => {
            let lower = at_bound(value.copy(alloc)?, true);
            up_to_bound(at_bound(value, true), from_bound(lower, range))
        }
    })
}

fn at_bound(value: IndexValue, inclusive: bool) -> Bound
    ensures { result ≡ record { value = value; inclusive = inclusive } }
{
    Bound { value, inclusive }
}

/// What is above the bound too.
fn from_bound(bound: Bound, range: Range) -> Range
    ensures { result ≡ from_bound bound range }
{
    let Range { lower, upper } = range;
    let lower = match lower {
        None => bound,
        Some(before) => greater_bound(before, bound),
    };
    Range {
        lower: Some(lower),
        upper,
    }
}

/// What is below the bound too.
fn up_to_bound(bound: Bound, range: Range) -> Range
    ensures { result ≡ up_to_bound bound range }
{
    let Range { lower, upper } = range;
    let upper = match upper {
        None => bound,
        Some(before) => lesser_bound(before, bound),
    };
    Range {
        lower,
        upper: Some(upper),
    }
}

/// The greater of two lower bounds; of two at one value the exclusive one.
fn greater_bound(a: Bound, b: Bound) -> Bound
    ensures { result ≡ greater_bound a b }
{
    match a.value.cmp(&b.value) {
        Ordering::Less => b,
        Ordering::Equal => stricter(a, b),
        Ordering::Greater => a,
    }
}

/// The lesser of two upper bounds; of two at one value the exclusive one.
fn lesser_bound(a: Bound, b: Bound) -> Bound
    ensures { result ≡ lesser_bound a b }
{
    match a.value.cmp(&b.value) {
        Ordering::Less => a,
        Ordering::Equal => stricter(a, b),
        Ordering::Greater => b,
    }
}

fn stricter(a: Bound, b: Bound) -> Bound
    ensures { result ≡ stricter a b }
{
    Bound {
        value: a.value,
        inclusive: a.inclusive && b.inclusive,
    }
}
