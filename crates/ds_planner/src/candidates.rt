//! All indexes that may be scanned for a branch.
ghost use Rattle.std.specs.Prelude.{◌≡◌, ◌++◌, ◌∷◌, [], IsTrue, OnOk, IfOk, flat_map, map, filter, length};
ghost use Rattle.std.specs.List.{range_with_len};
ghost use Rattle.ds_query.specs.Lawful.{ends_in_key};
ghost use Rattle.ds_planner.specs.Indexes.{is_candidate};
ghost use Rattle.ds_planner.specs.Missing.{two_ways, candidates};

use crate::indexes::is_candidate;
use crate::planned::PlannedIndex;
use ds_base::{TextString, TryCopy};
use ds_indexdef::Defs;
use ds_query::Branch;
use std::alloc::{AllocError, Global};

/// The candidates: composite ones by the places of their definitions, then those of one property, then those by key.
pub(crate) fn candidates(
    alloc: Global,
    branch: &Branch,
    defs: &Defs,
) -> Result<Vec<PlannedIndex>, AllocError>
    requires { IsTrue (ends_in_key branch.now.columns) }
    ensures { IfOk result (λ found. found.items ≡ candidates branch.now defs.now) }
{
    let mut found = composites(alloc, branch, defs)?;
    push_paired(alloc, branch, defs, &mut found)?;
    push_columns(alloc, branch, defs, &mut found)?;
    push(branch, defs, PlannedIndex::KindByKey, &mut found)?;
    push(branch, defs, PlannedIndex::AllByKey, &mut found)?;
    Ok(found)
}

/// The index at the end, if it is a candidate.
fn push(
    branch: &Branch,
    defs: &Defs,
    index: PlannedIndex,
    found: &mut Vec<PlannedIndex>,
) -> Result<(), AllocError>
    requires { IsTrue (ends_in_key branch.now.columns) }
    ensures { OnOk result (found.new.items ≡ found.old.items
        ++ filter (is_candidate branch.now defs.now) (index ∷ [])) }
{
    if is_candidate(branch, defs, &index) {
        found.push(index)?;
    }
    Ok(())
}

/// The composite candidates.
fn composites(alloc: Global, branch: &Branch, defs: &Defs) -> Result<Vec<PlannedIndex>, AllocError>
    requires { IsTrue (ends_in_key branch.now.columns) }
    ensures { IfOk result (λ found. found.items ≡ filter (is_candidate branch.now defs.now)
        (map PlannedIndex.Composite (range_with_len 0 (length defs.now)))) }
{
    let mut found = Vec::new(alloc);
    for position in 0..defs.len() {
        let position = position as u32;
        push(
            branch,
            defs,
            PlannedIndex::Composite { position },
            &mut found,
        )?;
    }
    Ok(found)
}

/// The candidates among the indexes of the pairs' properties.
fn push_paired(
    alloc: Global,
    branch: &Branch,
    defs: &Defs,
    found: &mut Vec<PlannedIndex>,
) -> Result<(), AllocError>
    requires { IsTrue (ends_in_key branch.now.columns) }
    ensures { OnOk result (found.new.items ≡ found.old.items
        ++ filter (is_candidate branch.now defs.now) (flat_map (λ p. two_ways p.property) branch.now.equal)) }
{
    for pair in branch.equal.as_slice() {
        push_two_ways(alloc, branch, defs, &pair.property, found)?;
    }
    Ok(())
}

/// The candidates among the indexes of the columns' properties.
fn push_columns(
    alloc: Global,
    branch: &Branch,
    defs: &Defs,
    found: &mut Vec<PlannedIndex>,
) -> Result<(), AllocError>
    requires { IsTrue (ends_in_key branch.now.columns) }
    ensures { OnOk result (found.new.items ≡ found.old.items
        ++ filter (is_candidate branch.now defs.now) (flat_map (λ c. two_ways c.name) branch.now.columns)) }
{
    for column in branch.columns.as_slice() {
        push_two_ways(alloc, branch, defs, &column.name, found)?;
    }
    Ok(())
}

/// The candidates among the two indexes of a property.
fn push_two_ways(
    alloc: Global,
    branch: &Branch,
    defs: &Defs,
    name: &TextString,
    found: &mut Vec<PlannedIndex>,
) -> Result<(), AllocError>
    requires { IsTrue (ends_in_key branch.now.columns) }
    ensures { OnOk result (found.new.items ≡ found.old.items
        ++ filter (is_candidate branch.now defs.now) (two_ways name.now)) }
{
    push(branch, defs, property(alloc, name, false)?, found)?;
    push(branch, defs, property(alloc, name, true)?, found)
}

fn property(alloc: Global, name: &TextString, descending: bool) -> Result<PlannedIndex, AllocError>
    ensures { IfOk result (λ i. i ≡ PlannedIndex.Property name.now descending) }
{
    Ok(PlannedIndex::Property {
        name: name.copy(alloc)?,
        descending,
    })
}
