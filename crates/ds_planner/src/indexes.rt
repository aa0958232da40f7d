//! What an index is to a branch: whether it may be scanned for it, and what a scan of it is bound to.
ghost use Rattle.std.specs.Prelude.{◌≡◌, ◌&&◌, ◌||◌, not, bytes_eq, IsTrue, ◌∷◌, is_some, option_and_then};
ghost use Rattle.std.specs.Option.{option_copied};
ghost use Rattle.std.specs.List.{list_all, slice_get};
ghost use Rattle.ds_query.specs.ColumnLists.{has_column};
ghost use Rattle.ds_query.specs.Lawful.{ends_in_key, has_pair};
ghost use Rattle.ds_planner.specs.Indexes.{by_key, defined_columns, in_front_of, is_by_property, is_of_kind, is_usable};
ghost use Rattle.ds_base.specs.KeyColumn.{is_by_key};
ghost use Rattle.ds_planner.specs.Indexes.{are_paired, binds_ancestor, has_flag, is_candidate, is_paired, leading, leads};

use crate::key_columns::in_front_of;
use crate::pairs::has_pair;
use crate::planned::PlannedIndex;
use ds_base::{Column, TextString, is_ascending_key, is_by_key};
use ds_indexdef::{Defs, IndexDef};
use ds_query::{Branch, Pair};

/// Whether the index ends with the branch's columns, and each of its columns in front of them is on the property of one of
/// the pairs.
pub(crate) fn is_paired(branch: &Branch, defs: &Defs, index: &PlannedIndex, pairs: &[Pair]) -> bool
    requires { IsTrue (ends_in_key branch.now.columns) }
    ensures { result ≡ is_paired branch.now defs.now index.now pairs.now }
{
    let columns = branch.columns.as_slice();
    match index {
        PlannedIndex::AllByKey => !has_kind(branch) && is_by_key(columns),
        PlannedIndex::KindByKey => has_kind(branch) && is_by_key(columns),
        PlannedIndex::Property { name, descending } => {
            has_kind(branch) && is_property_paired(name, *descending, columns, pairs)
        }
        PlannedIndex::Composite { position } => match leading(branch, defs, *position) {
            Some(columns) => are_paired(columns, pairs),
            None => false,
        },
    }
}

/// Whether the index may be scanned for the branch.
pub(crate) fn is_candidate(branch: &Branch, defs: &Defs, index: &PlannedIndex) -> bool
    requires { IsTrue (ends_in_key branch.now.columns) }
    ensures { result ≡ is_candidate branch.now defs.now index.now }
{
    is_paired(branch, defs, index, branch.equal.as_slice())
}

/// Whether the index has the property in front of the branch's columns.
pub(crate) fn leads(branch: &Branch, defs: &Defs, index: &PlannedIndex, wanted: &TextString) -> bool
    requires { IsTrue (ends_in_key branch.now.columns) }
    ensures { result ≡ leads branch.now defs.now index.now wanted.now }
{
    match index {
        PlannedIndex::AllByKey => false,
        PlannedIndex::KindByKey => false,
        PlannedIndex::Property { name, .. } => {
            has_kind(branch) && property_leads(name, branch.columns.as_slice(), wanted)
        }
        PlannedIndex::Composite { position } => match leading(branch, defs, *position) {
            Some(columns) => has_column(columns, wanted),
            None => false,
        },
    }
}

/// Whether the index has the property of each pair in front of the branch's columns.
pub(crate) fn lead_all(branch: &Branch, defs: &Defs, index: &PlannedIndex, pairs: &[Pair]) -> bool
    requires { IsTrue (ends_in_key branch.now.columns) }
    ensures { result ≡ list_all (λ p. leads branch.now defs.now index.now p.property) pairs.now }
{
    pairs
        .iter()
        .all(|pair| leads(branch, defs, index, &pair.property))
}

/// Whether a scan of the index is bound to the branch's ancestor.
pub(crate) fn binds_ancestor(branch: &Branch, defs: &Defs, index: &PlannedIndex) -> bool
    ensures { result ≡ binds_ancestor branch.now defs.now index.now }
{
    is_by_key(branch.columns.as_slice()) || has_flag(defs, index)
}

/// Whether the index's definition has the ancestor flag.
pub(crate) fn has_flag(defs: &Defs, index: &PlannedIndex) -> bool
    ensures { result ≡ has_flag defs.now index.now }
{
    match index {
        PlannedIndex::Composite { position } => match defs.get(*position as usize) {
            Some(def) => def.ancestor,
            None => false,
        },
        _ => false,
    }
}

pub(crate) fn has_kind(branch: &Branch) -> bool
    ensures { result ≡ is_some branch.now.kind }
{
    branch.kind.is_some()
}

/// The columns of a composite index in front of the branch's; none where it doesn't serve the branch.
fn leading<'a>(branch: &Branch, defs: &'a Defs, position: u32) -> Option<&'a [Column]>
    requires { IsTrue (ends_in_key branch.now.columns) }
    ensures { option_copied result ≡ leading branch.now defs.now (PlannedIndex.Composite position) }
{
    match defs.get(position as usize) {
        Some(def) => leading_of(branch, def),
        None => None,
    }
}

fn leading_of<'a>(branch: &Branch, def: &'a IndexDef) -> Option<&'a [Column]>
    requires { IsTrue (ends_in_key branch.now.columns) }
    ensures { option_copied result ≡ option_and_then (in_front_of branch.now.columns) (defined_columns branch.now (Some def.now)) }
{
    if is_usable(branch, def) {
        in_front_of(branch.columns.as_slice(), def.columns.as_slice())
    } else {
        None
    }
}

/// Whether the definition is of the branch's kind, and has the ancestor flag only where the branch has an ancestor.
fn is_usable(branch: &Branch, def: &IndexDef) -> bool
    ensures { result ≡ is_usable branch.now def.now }
{
    is_of_kind(branch, &def.kind) && (!def.ancestor || branch.ancestor.is_some())
}

fn is_of_kind(branch: &Branch, kind: &TextString) -> bool
    ensures { result ≡ is_of_kind branch.now.kind kind.now }
{
    match &branch.kind {
        Some(own) => *own == *kind,
        None => false,
    }
}

/// Whether the columns are on properties of the pairs.
fn are_paired(columns: &[Column], pairs: &[Pair]) -> bool
    ensures { result ≡ list_all (λ c. has_pair pairs.now c.name) columns.now }
{
    columns.iter().all(|column| has_pair(pairs, &column.name))
}

fn has_column(columns: &[Column], name: &TextString) -> bool
    ensures { result ≡ has_column columns.now name.now }
{
    columns.iter().any(|column| *name == column.name)
}

/// Whether the index of the property has it in front of the columns: these are `__key__` ascending alone.
fn property_leads(name: &TextString, columns: &[Column], wanted: &TextString) -> bool
    ensures { result ≡ (is_by_key columns.now && bytes_eq wanted.now name.now) }
{
    is_by_key(columns) && *wanted == *name
}

/// Whether the index of the property ends with the columns, with a pair on it where it stands in front of them: they are
/// `__key__` ascending alone and the property has a pair, or the property and `__key__` ascending.
fn is_property_paired(
    name: &TextString,
    descending: bool,
    columns: &[Column],
    pairs: &[Pair],
) -> bool
    requires { IsTrue (ends_in_key columns.now) }
    ensures { result ≡ are_paired pairs.now
        (in_front_of columns.now (record { name = name.now; descending = descending } ∷ by_key)) }
{
    is_by_property(name, descending, columns) || (is_by_key(columns) && has_pair(pairs, name))
}

/// Whether the columns are the property in this direction, and then `__key__` ascending.
fn is_by_property(name: &TextString, descending: bool, columns: &[Column]) -> bool
    ensures { result ≡ is_by_property (record { name = name.now; descending = descending }) columns.now }
{
    match columns {
        [first, last] => {
            *name == first.name && descending == first.descending && is_ascending_key(last)
        }
        _ => false,
    }
}
