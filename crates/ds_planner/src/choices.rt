//! Which scans are planned: one where one suffices, else scans part by part.
ghost use Rattle.std.specs.Prelude.{◌≡◌, ◌&&◌, ◌||◌, not, [], IsTrue, IfOk, OnOk, fold, is_some};
ghost use Rattle.std.specs.Option.{option_copied};
ghost use Rattle.std.specs.List.{list_any, list_all, find};
ghost use Rattle.ds_query.specs.Lawful.{ends_in_key, has_pair};
ghost use Rattle.ds_planner.specs.Indexes.{leads, binds_ancestor};
ghost use Rattle.ds_planner.specs.Parts.{conditions};
ghost use Rattle.ds_planner.specs.Suits.{chooses, bound_ancestor};
ghost use Rattle.ds_planner.specs.Lean.{binds};
ghost use Rattle.ds_planner.specs.Missing.{candidates};
ghost use Rattle.ds_planner.specs.Choices.{can_bind, agrees, with_choice, scan_for, sole_index, with_part, scans_of};

use crate::indexes::{binds_ancestor, has_flag, lead_all, leads};
use crate::pairs::{are_among, chooses, has_pair, properties_differ};
use crate::planned::{PlannedIndex, PlannedScan, PlannedScans};
use ds_base::{Key, TryCopy};
use ds_indexdef::Defs;
use ds_query::{Branch, Pair, Pairs};
use std::alloc::{AllocError, Global};
use std::slice;

impl TryCopy for PlannedIndex {
    fn copy(&self, alloc: Global) -> Result<PlannedIndex, AllocError> {
        Ok(match self {
            PlannedIndex::AllByKey => PlannedIndex::AllByKey,
            PlannedIndex::KindByKey => PlannedIndex::KindByKey,
            PlannedIndex::Property { name, descending } => PlannedIndex::Property {
                name: name.copy(alloc)?,
                descending: *descending,
            },
            PlannedIndex::Composite { position } => PlannedIndex::Composite {
                position: *position,
            },
        })
    }
}

/// The scans of a plan: of the first candidate that alone can bind all that is asked for, with all pairs; where there is none,
/// for each pair and then the ancestor, unless a scan before binds it, one of the first candidate that can bind it.
pub(crate) fn scans_of(
    alloc: Global,
    branch: &Branch,
    defs: &Defs,
    found: &[PlannedIndex],
) -> Result<PlannedScans, AllocError>
    requires columns { IsTrue (ends_in_key branch.now.columns) }
    requires candidates { found.now ≡ candidates branch.now defs.now }
    ensures { IfOk result (λ scans. scans ≡ scans_of branch.now defs.now) }
{
    match sole_index(branch, defs, found) {
        Some(index) => {
            let pairs = branch.equal.as_slice();
            let scan = scan_for(alloc, branch, defs, pairs, branch.ancestor.is_some(), index)?;
            Ok(PlannedScans::from(vec![in alloc; scan]?))
        }
        None => Ok(PlannedScans::from(scans_by_part(alloc, branch, defs, found)?)),
    }
}

/// The first candidate that alone can bind all that the branch asks for.
fn sole_index<'a>(
    branch: &Branch,
    defs: &Defs,
    found: &'a [PlannedIndex],
) -> Option<&'a PlannedIndex>
    requires columns { IsTrue (ends_in_key branch.now.columns) }
    requires candidates { found.now ≡ candidates branch.now defs.now }
    ensures { option_copied result ≡ sole_index branch.now defs.now }
{
    let pairs = branch.equal.as_slice();
    if properties_differ(pairs) {
        first_that_can_bind(branch, defs, pairs, branch.ancestor.is_some(), found)
    } else {
        None
    }
}

/// The scans for each pair, and then for the ancestor.
fn scans_by_part(
    alloc: Global,
    branch: &Branch,
    defs: &Defs,
    found: &[PlannedIndex],
) -> Result<Vec<PlannedScan>, AllocError>
    requires columns { IsTrue (ends_in_key branch.now.columns) }
    requires candidates { found.now ≡ candidates branch.now defs.now }
    ensures { IfOk result (λ scans. scans.items ≡ fold (with_part branch.now defs.now) [] (conditions branch.now)) }
{
    let mut scans = Vec::new(alloc);
    for pair in branch.equal.as_slice() {
        let part = slice::from_ref(pair);
        add_scan(alloc, branch, defs, part, false, found, &mut scans)?;
    }
    if branch.ancestor.is_some() {
        add_scan(alloc, branch, defs, &[], true, found, &mut scans)?;
    }
    Ok(scans)
}

/// Adds a scan that binds these pairs, and the ancestor if it is asked for, unless a scan does so already.
fn add_scan(
    alloc: Global,
    branch: &Branch,
    defs: &Defs,
    equal: &[Pair],
    ancestor: bool,
    found: &[PlannedIndex],
    scans: &mut Vec<PlannedScan>,
) -> Result<(), AllocError>
    requires columns { IsTrue (ends_in_key branch.now.columns) }
    requires candidates { found.now ≡ candidates branch.now defs.now }
    ensures { OnOk result (scans.new.items ≡ with_part branch.now defs.now scans.old.items
        (record { equal = equal.now; ancestor = ancestor })) }
{
    if any_binds(branch, defs, scans.as_slice(), equal, ancestor) {
        return Ok(());
    }
    match first_that_can_bind(branch, defs, equal, ancestor, found) {
        Some(index) => {
            let scan = scan_for(alloc, branch, defs, equal, ancestor, index)?;
            scans.push(scan)?;
            Ok(())
        }
        None => Ok(()),
    }
}

fn any_binds(
    branch: &Branch,
    defs: &Defs,
    scans: &[PlannedScan],
    equal: &[Pair],
    ancestor: bool,
) -> bool
    ensures { result ≡ list_any (λ s. binds branch.now defs.now s
        (record { equal = equal.now; ancestor = ancestor })) scans.now }
{
    scans
        .iter()
        .any(|scan| binds(branch, defs, scan, equal, ancestor))
}

fn binds(branch: &Branch, defs: &Defs, scan: &PlannedScan, equal: &[Pair], ancestor: bool) -> bool
    ensures { result ≡ binds branch.now defs.now scan.now (record { equal = equal.now; ancestor = ancestor }) }
{
    are_among(equal, scan.equal.as_slice())
        && (!ancestor || binds_ancestor(branch, defs, &scan.index))
}

/// The first of the indexes of which a scan can bind these pairs, and the ancestor if it is asked for.
fn first_that_can_bind<'a>(
    branch: &Branch,
    defs: &Defs,
    equal: &[Pair],
    ancestor: bool,
    found: &'a [PlannedIndex],
) -> Option<&'a PlannedIndex>
    requires { IsTrue (ends_in_key branch.now.columns) }
    ensures { option_copied result ≡ find (can_bind branch.now defs.now
        (record { equal = equal.now; ancestor = ancestor })) found.now }
{
    for index in found {
        if can_bind(branch, defs, equal, ancestor, index) {
            return Some(index);
        }
    }
    None
}

fn can_bind(
    branch: &Branch,
    defs: &Defs,
    equal: &[Pair],
    ancestor: bool,
    index: &PlannedIndex,
) -> bool
    requires { IsTrue (ends_in_key branch.now.columns) }
    ensures { result ≡ can_bind branch.now defs.now (record { equal = equal.now; ancestor = ancestor }) index.now }
{
    lead_all(branch, defs, index, equal) && (!ancestor || binds_ancestor(branch, defs, index))
}

/// The scan of the index for these pairs, and for the ancestor if it is asked for.
fn scan_for(
    alloc: Global,
    branch: &Branch,
    defs: &Defs,
    equal: &[Pair],
    ancestor: bool,
    index: &PlannedIndex,
) -> Result<PlannedScan, AllocError>
    requires { IsTrue (ends_in_key branch.now.columns) }
    ensures { IfOk result (λ s. s ≡ scan_for branch.now defs.now
        (record { equal = equal.now; ancestor = ancestor }) index.now) }
{
    Ok(PlannedScan {
        index: index.copy(alloc)?,
        equal: chosen_pairs(alloc, branch, defs, equal, ancestor, index)?,
        ancestor: bound_ancestor(alloc, branch, defs, index)?,
    })
}

/// For each equality property of the index the first pair, those on properties of `equal` from `equal` alone.
fn chosen_pairs(
    alloc: Global,
    branch: &Branch,
    defs: &Defs,
    equal: &[Pair],
    ancestor: bool,
    index: &PlannedIndex,
) -> Result<Pairs, AllocError>
    requires { IsTrue (ends_in_key branch.now.columns) }
    ensures { IfOk result (λ pairs. pairs ≡ fold (with_choice branch.now defs.now index.now
        (record { equal = equal.now; ancestor = ancestor })) [] branch.now.equal) }
{
    let mut chosen = Vec::new(alloc);
    for pair in branch.equal.as_slice() {
        if is_choice(branch, defs, index, equal, chosen.as_slice(), pair) {
            chosen.push(pair.copy(alloc)?)?;
        }
    }
    Ok(Pairs::from(chosen))
}

/// Whether the pair is chosen next: the index has its property, none of the property is chosen, and it is one of `equal` or
/// these have none on its property.
fn is_choice(
    branch: &Branch,
    defs: &Defs,
    index: &PlannedIndex,
    equal: &[Pair],
    chosen: &[Pair],
    pair: &Pair,
) -> bool
    requires { IsTrue (ends_in_key branch.now.columns) }
    ensures { result ≡ (leads branch.now defs.now index.now pair.now.property
        && (not (has_pair chosen.now pair.now.property)
        && (not (has_pair equal.now pair.now.property) || chooses equal.now pair.now))) }
{
    leads(branch, defs, index, &pair.property)
        && !has_pair(chosen, &pair.property)
        && (!has_pair(equal, &pair.property) || chooses(equal, pair))
}

/// The branch's ancestor, where the index's definition has the ancestor flag.
fn bound_ancestor(
    alloc: Global,
    branch: &Branch,
    defs: &Defs,
    index: &PlannedIndex,
) -> Result<Option<Key>, AllocError>
    ensures { IfOk result (λ a. a ≡ bound_ancestor branch.now defs.now index.now) }
{
    match &branch.ancestor {
        Some(ancestor) if has_flag(defs, index) => Ok(Some(ancestor.copy(alloc)?)),
        _ => Ok(None),
    }
}
