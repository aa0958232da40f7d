//! What no index serves, and the definition that would serve it.
ghost use Rattle.std.specs.Prelude.{◌≡◌, ◌++◌, not, IsTrue, IfOk, is_some};
ghost use Rattle.std.specs.Option.{option_copied};
ghost use Rattle.std.specs.List.{list_any};
ghost use Rattle.ds_query.specs.Lawful.{ends_in_key};
ghost use Rattle.ds_planner.specs.Indexes.{leads, binds_ancestor};
ghost use Rattle.ds_planner.specs.Missing.{candidates, first_unled, constraint_among, goes_on, equal_columns, suggestion_of};

use crate::indexes::{binds_ancestor, leads};
use crate::key_columns::without_key;
use crate::planned::PlannedIndex;
use ds_base::{Column, Columns, TextString, TryCopy};
use ds_indexdef::{Defs, IndexDef};
use ds_query::{Branch, Constraint, Pair};
use std::alloc::{AllocError, Global};

/// What none of these indexes serves.
pub(crate) fn constraint_among(
    alloc: Global,
    branch: &Branch,
    defs: &Defs,
    found: &[PlannedIndex],
) -> Result<Option<Constraint>, AllocError>
    requires { IsTrue (ends_in_key branch.now.columns) }
    ensures { IfOk result (λ c. c ≡ constraint_among branch.now defs.now found.now) }
{
    if found.is_empty() {
        return Ok(Some(Constraint::Columns));
    }
    if branch.ancestor.is_some() && !any_binds_ancestor(branch, defs, found) {
        return Ok(Some(Constraint::Ancestor));
    }
    match first_unled(branch, defs, found) {
        Some(pair) => Ok(Some(Constraint::Equal(pair.copy(alloc)?))),
        None => Ok(None),
    }
}

fn any_binds_ancestor(branch: &Branch, defs: &Defs, found: &[PlannedIndex]) -> bool
    ensures { result ≡ list_any (binds_ancestor branch.now defs.now) found.now }
{
    found
        .iter()
        .any(|index| binds_ancestor(branch, defs, index))
}

/// The first pair whose property leads none of the indexes.
fn first_unled<'a>(branch: &'a Branch, defs: &Defs, found: &[PlannedIndex]) -> Option<&'a Pair>
    requires { IsTrue (ends_in_key branch.now.columns) }
    ensures { option_copied result ≡ first_unled branch.now defs.now found.now }
{
    for pair in branch.equal.as_slice() {
        if !any_leads(branch, defs, found, &pair.property) {
            return Some(pair);
        }
    }
    None
}

fn any_leads(branch: &Branch, defs: &Defs, found: &[PlannedIndex], name: &TextString) -> bool
    requires { IsTrue (ends_in_key branch.now.columns) }
    ensures { result ≡ list_any (λ i. leads branch.now defs.now i name.now) found.now }
{
    found.iter().any(|index| leads(branch, defs, index, name))
}

/// The definition with which a branch that has a kind is served: its kind, an ancestor flag exactly where it has an ancestor,
/// its equality properties by name ascending, and then its columns without a final `__key__` ascending.
pub(crate) fn suggestion_of(alloc: Global, branch: &Branch) -> Result<IndexDef, AllocError>
    ensures { IfOk result (λ d. d ≡ suggestion_of branch.now) }
{
    let mut columns = equal_columns(alloc, branch.equal.as_slice())?;
    for column in without_key(branch.columns.as_slice()) {
        columns.push(column.copy(alloc)?)?;
    }
    Ok(IndexDef {
        kind: kind_of(alloc, branch)?,
        ancestor: branch.ancestor.is_some(),
        columns: Columns::from(columns),
    })
}

fn kind_of(alloc: Global, branch: &Branch) -> Result<TextString, AllocError>
    ensures { IfOk result (λ kind. kind ≡ (suggestion_of branch.now).kind) }
{
    match &branch.kind {
        Some(kind) => kind.copy(alloc),
        None => Ok(TextString::new(alloc)),
    }
}

/// The properties of the pairs, each once, where those of one property stand together.
fn equal_columns(alloc: Global, pairs: &[Pair]) -> Result<Vec<Column>, AllocError>
    ensures { IfOk result (λ columns. columns.items ≡ equal_columns pairs.now) }
{
    let mut columns = Vec::new(alloc);
    for (i, pair) in pairs.iter().enumerate() {
        if !goes_on(pair, &pairs[i + 1..]) {
            let name = pair.property.copy(alloc)?;
            columns.push(Column {
                name,
                descending: false,
            })?;
        }
    }
    Ok(columns)
}

/// Whether the next pair is on the same property.
fn goes_on(pair: &Pair, next: &[Pair]) -> bool
    ensures { result ≡ goes_on pair.now next.now }
{
    match next {
        [first, ..] => pair.property == first.property,
        [] => false,
    }
}
