//! Branches: what is left of a query when `!=` and `in` are taken apart, and each condition stands in its place.
//!
//! `specs/Lawful` says what every branch, normal form and window keeps.
ghost use Rattle.std.specs.Prelude.{◌≡◌, IfOk};

use crate::query::Select;
use crate::row::Place;
use ds_base::{Columns, IndexValue, Key, Sequence, TextString, TryCopy};
use std::alloc::{AllocError, Global};

/// An equality: the property has this value among its indexed values.
#[derive(Drop)]
pub struct Pair {
    /// The property's name, never `__key__`.
    pub property: TextString,
    /// The value that one of its indexed values equals.
    pub value: IndexValue,
}

/// Distinct pairs, ascending by property and then by value.
pub type Pairs = Sequence<Pair>;

/// One end of a range.
#[derive(Drop)]
pub struct Bound {
    /// The value at the end; a key where the first column is `__key__`.
    pub value: IndexValue,
    /// Whether the value itself is in the range.
    pub inclusive: bool,
}

/// The values that the first column may have; no bound is no limit.
#[derive(Drop)]
pub struct Range {
    /// Values from here on alone.
    pub lower: Option<Bound>,
    /// Values up to here alone.
    pub upper: Option<Bound>,
}

/// A query without `!=` and `in`.
#[derive(Drop)]
pub struct Branch {
    /// It sees the entities of this namespace alone.
    pub namespace: TextString,
    /// The kind of its entities; any where there is none.
    pub kind: Option<TextString>,
    /// What its entities lie under, itself among them; anything where there is none.
    pub ancestor: Option<Key>,
    /// The equalities that each entity meets.
    pub equal: Pairs,
    /// What the first column's values lie within.
    pub range: Range,
    /// What the rows are sorted by; `__key__` is the last.
    pub columns: Columns,
    /// What is given of each result.
    pub select: Select,
}

/// Branches in their order.
pub type Branches = Sequence<Branch>;

/// A query taken apart: its branches, and the columns that their rows are united by.
#[derive(Drop)]
pub struct Normal {
    /// One for each way to take the `!=` and `in` filters apart; they differ in pairs and ranges alone.
    pub branches: Branches,
    /// What the united rows are sorted by: the branches' columns, and the orders on properties with an `in`.
    pub merged: Columns,
    /// Whether the query has `!=` or `in`, also where they give one branch.
    pub several: bool,
}

/// Which of a query's results are given.
#[derive(Drop)]
pub struct Window {
    /// Rows after this one alone.
    pub start: Option<Place>,
    /// Rows up to this one alone.
    pub end: Option<Place>,
    /// How many results are skipped.
    pub offset: u32,
    /// How many results are given at most; all where there is none.
    pub limit: Option<u32>,
}

impl TryCopy for Pair {
    fn copy(&self, alloc: Global) -> Result<Pair, AllocError> {
        Ok(Pair {
            property: self.property.copy(alloc)?,
            value: self.value.copy(alloc)?,
        })
    }
}

impl TryCopy for Bound {
    fn copy(&self, alloc: Global) -> Result<Bound, AllocError> {
        Ok(Bound {
            value: self.value.copy(alloc)?,
            inclusive: self.inclusive,
        })
    }
}

impl TryCopy for Range {
    fn copy(&self, alloc: Global) -> Result<Range, AllocError> {
        Ok(Range {
            lower: self.lower.copy(alloc)?,
            upper: self.upper.copy(alloc)?,
        })
    }
}

/// What a branch looks among: few values are held while more are copied, since each that is held at a call that may fail makes the
/// proof of that call dearer.
#[derive(Drop)]
pub(crate) struct Target {
    pub(crate) namespace: TextString,
    pub(crate) kind: Option<TextString>,
    pub(crate) ancestor: Option<Key>,
}

pub(crate) fn copy_target(
    alloc: Global,
    namespace: &TextString,
    kind: &Option<TextString>,
    ancestor: &Option<Key>,
) -> Result<Target, AllocError>
    ensures { IfOk result (λ t. (t.namespace ≡ namespace.now) × (t.kind ≡ kind.now) × (t.ancestor ≡ ancestor.now)) }
{
    let namespace = namespace.copy(alloc)?;
    let kind = kind.copy(alloc)?;
    let ancestor = ancestor.copy(alloc)?;
    Ok(Target {
        namespace,
        kind,
        ancestor,
    })
}

impl TryCopy for Branch {
    fn copy(&self, alloc: Global) -> Result<Branch, AllocError> {
        let equal = self.equal.copy(alloc)?;
        let range = self.range.copy(alloc)?;
        let columns = self.columns.copy(alloc)?;
        let select = self.select.copy(alloc)?;
        let Target {
            namespace,
            kind,
            ancestor,
        } = copy_target(alloc, &self.namespace, &self.kind, &self.ancestor)?;
        Ok(Branch {
            namespace,
            kind,
            ancestor,
            equal,
            range,
            columns,
            select,
        })
    }
}

impl TryCopy for Normal {
    fn copy(&self, alloc: Global) -> Result<Normal, AllocError> {
        Ok(Normal {
            branches: self.branches.copy(alloc)?,
            merged: self.merged.copy(alloc)?,
            several: self.several,
        })
    }
}

impl TryCopy for Window {
    fn copy(&self, alloc: Global) -> Result<Window, AllocError> {
        Ok(Window {
            start: self.start.copy(alloc)?,
            end: self.end.copy(alloc)?,
            offset: self.offset,
            limit: self.limit,
        })
    }
}
