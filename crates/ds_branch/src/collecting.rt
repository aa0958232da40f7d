//! The walk over the strings that the scans of a plan have in common.
ghost use Rattle.std.specs.Prelude.{◌≡◌, ◌+◌, ◌<◌, ◌≤◌, [], List, ℕ, IsTrue, length, map, Some, IfOk, OnErr};
ghost use Rattle.std.specs.Option.{option_copied};
ghost use Rattle.ds_bytes.specs.Rows.{RowParts};
ghost use Rattle.ds_query.specs.Filters.{projected};
ghost use Rattle.ds_query.specs.Lawful.{names_differ};
ghost use Rattle.ds_cursor.specs.RowsOfColumns.{IsRowOf};
ghost use Rattle.ds_zigzag.specs.CommonStrings.{IsCommon};
ghost use Rattle.ds_zigzag.specs.Walks.{steps_to_end};
ghost use Rattle.ds_model.specs.Results.{at_most, first_of_each, same_mark};
ghost use Rattle.ds_pages.specs.Places.{placed};
ghost use Rattle.ds_branch.specs.Behind.{IsCollected};
ghost use Rattle.ds_branch.specs.Common.{AreCommonRows};
ghost use Rattle.ds_branch.specs.Places.{bytes_of, is_wanted, walk_steps};

use crate::behind::RowsBehind;
use crate::kept::KeptRows;
use ds_base::NoMemory;
use ds_io::Steps;
use ds_query::{Branch, Place};
use ds_zigzag::{Scan, Walk};
use std::alloc::Global;
use std::sync::ledger::Ledger;

/// Of the rows whose places are the strings that all scans have after the start, in order, the first of each mark, at most so many; of
/// them those behind the first `skip`, how many all are, the place of the last one, and if asked for the places of all. It looks at no
/// string above the last one where so many are there, and at none where none is asked for. Each of them took a step. Refused: want of
/// memory.
pub(crate) fn first_common<S: Scan, L: Ledger>(
    alloc: Global,
    scans: &mut [S],
    branch: &Branch,
    start: Option<&Place>,
    most: Option<u64>,
    skip: u32,
    places: bool,
    steps: &mut Steps<L>,
) -> Result<RowsBehind, NoMemory>
    requires some { 0 < length scans.old }
    requires its_ledger { L.name ≡ S.ledger }
    requires differ { IsTrue (names_differ branch.now.columns) }
    requires rows { (x : List ℕ) → IsCommon (map S.strings scans.old) x → IsRowOf branch.now.columns x }
    ensures rows { IfOk result (λ found. (sorted : List RowParts)
        → AreCommonRows branch.now.columns (bytes_of (option_copied start.entry)) (map S.strings scans.old) sorted
        → IsCollected branch.now.columns skip places (map (placed branch.now.columns) (at_most most
        (first_of_each (same_mark branch.now.columns (projected branch.now.select)) sorted))) found) }
    ensures steps_when_done { IfOk result (λ found. steps.new ≤ steps.old + walk_steps (is_wanted most found.count) (length scans.old)
        (bytes_of (option_copied start.entry)) (bytes_of found.last) (map S.strings scans.old) (map S.passed scans.old)) }
    ensures steps_when_refused { OnErr result (steps.new ≤ steps.old + steps_to_end (length scans.old)
        (bytes_of (option_copied start.entry)) (map S.strings scans.old) (map S.passed scans.old)) }
    ensures a_step_for_each { IfOk result (λ found. steps.old + found.count ≤ steps.new) }
    ensures none_asked { most ≡ Some 0 → steps.new ≡ steps.old }
    ensures steps_stay_counted { steps.old ≤ steps.new }
{
    let mut walk = Walk::begin(alloc, scans.len(), bytes_of(start))?;
    let mut firsts = KeptRows::new(
        alloc,
        branch.columns.as_slice(),
        branch.select.projected(),
        skip,
        places,
    )?;
    'answers: while is_wanted(most, firsts.len()) {
        let found = walk.next(scans, steps)?;
        match found {
            None => return Ok(firsts.finish()),
            Some(place) => firsts.put(branch.columns.as_slice(), place)?,
        }
    }
    Ok(firsts.finish())
}

/// Whether more are wanted than these.
fn is_wanted(most: Option<u64>, found: usize) -> bool
    ensures { result ≡ is_wanted most found }
{
    match most {
        Some(most) => (found as u64) < most,
        None => true,
    }
}

fn bytes_of(place: Option<&Place>) -> Option<&[u8]>
    ensures { option_copied result ≡ bytes_of (option_copied place.entry) }
{
    match place {
        Some(place) => Some(place.bytes.bytes()),
        None => None,
    }
}
