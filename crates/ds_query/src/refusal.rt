//! Why a query is refused.
ghost use Rattle.std.specs.Prelude.{◌≡◌};
ghost use Rattle.ds_query.specs.declared.refusal.QueryRefused.TheVariants as refused;

use crate::branch::Pair;
use std::alloc::AllocError;

/// The rule that a query breaks: the first of these, in this order.
#[derive(Clone, Copy, PartialEq, Eq)]
pub enum Reason {
    /// A filter on `__key__` has a value that is no key.
    KeyValue,
    /// A filter has a long text or a blob as its value.
    UnindexedValue,
    /// Without a kind, a filter, order or projection names a property other than `__key__`, or orders `__key__`
    /// descending.
    Kindless,
    /// Two different properties have inequalities.
    Inequalities,
    /// A property has an equality and an inequality.
    EqualAndRange,
    /// There is an inequality, and the first order that counts is on another property.
    FirstOrder,
    /// A projection query names `__key__` in its selection, a filter or an order.
    ProjectionKey,
    /// A projection names a property twice.
    ProjectionRepeat,
    /// A projected property has an equality.
    ProjectionEqual,
    /// There is `!=` or `in`, and a start, an end or a cursor is asked for.
    SeveralCursor,
}

/// What no index serves.
#[derive(Drop)]
pub enum Constraint {
    /// No index has the columns.
    Columns,
    /// No index that has the columns binds the ancestor.
    Ancestor,
    /// No index that has the columns binds this equality.
    Equal(Pair),
}

/// Why a query has no normal form.
#[derive(Drop)]
pub enum QueryRefused {
    /// The first rule that the query breaks.
    Bad(Reason),
    /// The number of branches, or 2^63 - 1 where it is larger; it is above 30.
    TooManySubqueries { count: u64 },
    /// There was no memory.
    NoMemory,
}

impl From<AllocError> for QueryRefused {
    ghost from_gives = { λ e r. r ≡ refused.NoMemory };

    fn from(_refused: AllocError) -> QueryRefused {
        QueryRefused::NoMemory
    }
}
