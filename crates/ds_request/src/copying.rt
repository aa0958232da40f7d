//! A copy of a call. Its parts are copied two or three at a time, in functions of their own, since each value that is held where
//! a copy may be refused makes the proof dearer.
ghost use Rattle.std.specs.Prelude.{◌≡◌, IfOk};

use crate::call::Call;
use ds_base::{Columns, Key, NamedValues, TextString, TryCopy, Values};
use ds_entity::Properties;
use ds_query::{Filters, Select};
use std::alloc::{AllocError, Global};

impl TryCopy for Call {
    fn copy(&self, alloc: Global) -> Result<Call, AllocError> {
        match self {
            Call::Put {
                key,
                incomplete,
                properties,
            } => copy_put(alloc, key, *incomplete, properties),
            Call::Delete { key } => Ok(Call::Delete {
                key: key.copy(alloc)?,
            }),
            Call::Get { key } => Ok(Call::Get {
                key: key.copy(alloc)?,
            }),
            Call::Query {
                namespace,
                kind,
                ancestor,
                filters,
                orders,
                select,
                offset,
                limit,
                start,
                end,
                cursor,
            } => copy_query(
                alloc,
                (namespace, kind, ancestor),
                (filters, orders, select),
                (*offset, *limit, *cursor),
                (start, end),
            ),
            Call::Gql {
                namespace,
                text,
                args,
                names,
                start,
                end,
                cursor,
            } => copy_gql(
                alloc,
                (namespace, text),
                (args, names),
                (start, end),
                *cursor,
            ),
            Call::Begin { xg } => Ok(Call::Begin { xg: *xg }),
            Call::Commit => Ok(Call::Commit),
            Call::Rollback => Ok(Call::Rollback),
            Call::Settle => Ok(Call::Settle),
            Call::AllocateIds { count } => Ok(Call::AllocateIds { count: *count }),
            Call::Apply { shard } => Ok(Call::Apply { shard: *shard }),
        }
    }
}

fn copy_put(
    alloc: Global,
    key: &Key,
    incomplete: bool,
    properties: &Properties,
) -> Result<Call, AllocError>
    ensures { IfOk result (λ c. c ≡ Call.Put key.now incomplete properties.now) }
{
    let (key, properties) = copy_both(alloc, key, properties)?;
    Ok(Call::Put {
        key,
        incomplete,
        properties,
    })
}

/// A copy of a query: where it looks, what it asks, which results are given, and its cursors.
fn copy_query(
    alloc: Global,
    scope: (&TextString, &Option<TextString>, &Option<Key>),
    terms: (&Filters, &Columns, &Select),
    page: (u32, Option<u32>, bool),
    ends: (&Option<TextString>, &Option<TextString>),
) -> Result<Call, AllocError>
    ensures { IfOk result (λ c. c ≡ Call.Query scope.entry.0.now scope.entry.1.now scope.entry.2.now terms.entry.0.now terms.entry.1.now
        terms.entry.2.now page.0 page.1 ends.entry.0.now ends.entry.1.now page.2) }
{
    let scope = copy_scope(alloc, scope.0, scope.1, scope.2);
    let terms = copy_terms(alloc, terms.0, terms.1, terms.2);
    let ends = copy_both(alloc, ends.0, ends.1);
    let (scope, terms, ends) = all_three(scope, terms, ends)?;
    let (namespace, kind, ancestor) = scope;
    let (filters, orders, select) = terms;
    let (start, end) = ends;
    let (offset, limit, cursor) = page;
    Ok(Call::Query {
        namespace,
        kind,
        ancestor,
        filters,
        orders,
        select,
        offset,
        limit,
        start,
        end,
        cursor,
    })
}

/// A copy of a statement: its text, its bindings, and its cursors.
fn copy_gql(
    alloc: Global,
    statement: (&TextString, &TextString),
    bindings: (&Values, &NamedValues),
    ends: (&Option<TextString>, &Option<TextString>),
    cursor: bool,
) -> Result<Call, AllocError>
    ensures { IfOk result (λ c. c ≡ Call.Gql statement.entry.0.now statement.entry.1.now bindings.entry.0.now bindings.entry.1.now
        ends.entry.0.now ends.entry.1.now cursor) }
{
    let statement = copy_both(alloc, statement.0, statement.1);
    let bindings = copy_both(alloc, bindings.0, bindings.1);
    let ends = copy_both(alloc, ends.0, ends.1);
    let (statement, bindings, ends) = all_three(statement, bindings, ends)?;
    let (namespace, text) = statement;
    let (args, names) = bindings;
    let (start, end) = ends;
    Ok(Call::Gql {
        namespace,
        text,
        args,
        names,
        start,
        end,
        cursor,
    })
}

fn copy_scope(
    alloc: Global,
    namespace: &TextString,
    kind: &Option<TextString>,
    ancestor: &Option<Key>,
) -> Result<(TextString, Option<TextString>, Option<Key>), AllocError>
    ensures { IfOk result (λ r. r ≡ (namespace.now, kind.now, ancestor.now)) }
{
    let namespace = namespace.copy(alloc)?;
    let kind = kind.copy(alloc)?;
    let ancestor = ancestor.copy(alloc)?;
    Ok((namespace, kind, ancestor))
}

fn copy_terms(
    alloc: Global,
    filters: &Filters,
    orders: &Columns,
    select: &Select,
) -> Result<(Filters, Columns, Select), AllocError>
    ensures { IfOk result (λ r. r ≡ (filters.now, orders.now, select.now)) }
{
    let filters = filters.copy(alloc)?;
    let orders = orders.copy(alloc)?;
    let select = select.copy(alloc)?;
    Ok((filters, orders, select))
}

fn copy_both<A: TryCopy, B: TryCopy>(
    alloc: Global,
    first: &A,
    second: &B,
) -> Result<(A, B), AllocError>
    ensures { IfOk result (λ r. r ≡ (first.now, second.now)) }
{
    let first = first.copy(alloc)?;
    let second = second.copy(alloc)?;
    Ok((first, second))
}

/// All three, where none is refused. So the arms of a query and of a statement have one way out each, at which no copy is held.
fn all_three<A: Drop, B: Drop, C: Drop>(
    first: Result<A, AllocError>,
    second: Result<B, AllocError>,
    third: Result<C, AllocError>,
) -> Result<(A, B, C), AllocError>
    ensures { (a : A) (b : B) (c : C) → IfOk first (λ x. x ≡ a) → IfOk second (λ x. x ≡ b) → IfOk third (λ x. x ≡ c)
        → IfOk result (λ r. r ≡ (a, b, c)) }
{
    let first = first?;
    let second = second?;
    let third = third?;
    Ok((first, second, third))
}
