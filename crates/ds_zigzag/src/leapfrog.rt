//! The leapfrog: how the scans are brought to the next string that all of them have.
ghost use Rattle.std.specs.Prelude.{◌≡◌, ℕ, ◌+◌, ◌*◌, ◌<◌, ◌≤◌, List, [], Option, length, map, option_copied, Some, None, IsTrue};
ghost use Rattle.std.specs.Prelude.{IsFalse, IfOk, OnOk, OnErr};
ghost use Rattle.ds_zigzag.specs.CommonStrings.{IsNextCommon, HasNoNextCommon, least_count, total_count};
ghost use Rattle.ds_zigzag.specs.Targets.{first_above, string_below};
ghost use Rattle.ds_zigzag.specs.Walks.{IsWalked, standing_at, steps_to_end};

use crate::scan::Scan;
use crate::target::{Sought, above_standing, seek_target, start_above};
use ds_io::Steps;
use std::alloc::AllocError;
use std::sync::ledger::Ledger;

/// The first room of a buffer for the string sought, in bytes. Most keys of rows fit into it.
pub const FIRST_ROOM: usize = 64;

/// Leaps to the first string above `after` that all scans have, whatever the target was; see `leapfrog`.
pub fn leapfrog_above<S: Scan, L: Ledger>(
    target: &mut Vec<u8>,
    scans: &mut [S],
    after: Option<&[u8]>,
    steps: &mut Steps<L>,
) -> Result<bool, AllocError>
    requires some { 0 < length scans.old }
    requires its_ledger { L.name ≡ S.ledger }
    ensures next_common { IfOk result (λ common. IsTrue common
        → IsNextCommon (option_copied after.entry) (map S.strings scans.old) target.new.items) }
    ensures none_is_left { IfOk result (λ common. IsFalse common → HasNoNextCommon (option_copied after.entry) (map S.strings scans.old)) }
    ensures same_strings { map S.strings scans.new ≡ map S.strings scans.old }
    ensures same_passed { map S.passed scans.new ≡ map S.passed scans.old }

    ensures steps_with_answer { IfOk result (λ common. IsTrue common →
        let n = least_count (option_copied after.entry) (Some target.new.items) (map S.strings scans.old) in
        let p = total_count (option_copied after.entry) (Some target.new.items) (map S.passed scans.old) in
        steps.new ≤ steps.old + length scans.old * (n + 1) + p) }
    ensures steps_with_none { IfOk result (λ common. IsFalse common →
        let n = least_count (option_copied after.entry) None (map S.strings scans.old) in
        let p = total_count (option_copied after.entry) None (map S.passed scans.old) in
        steps.new ≤ steps.old + length scans.old * (n + 2) + p) }
    ensures steps_when_refused { OnErr result (
        let n = least_count (option_copied after.entry) None (map S.strings scans.old) in
        let p = total_count (option_copied after.entry) None (map S.passed scans.old) in
        steps.new ≤ steps.old + length scans.old * (n + 2) + p) }
    ensures agrees_by_steps { IfOk result (λ common. IsTrue common → steps.old + length scans.old ≤ steps.new) }
    ensures takes_a_step { OnOk result (steps.old + 1 ≤ steps.new) }
    ensures steps_stay_counted { steps.old ≤ steps.new }
{
    start_above(target, after)?;
    leapfrog(target, scans, steps)
}

/// Leaps from the string in `target` to the next one that all scans have, or to the first one where it doesn't stand at its
/// string, which is then empty; see `leapfrog`. It tells what its steps add to those of a walk.
pub fn leapfrog_on<S: Scan, L: Ledger>(
    target: &mut Vec<u8>,
    stands: bool,
    scans: &mut [S],
    steps: &mut Steps<L>,
) -> Result<bool, AllocError>
    requires some { 0 < length scans.old }
    requires empty_before { IsFalse stands → target.old.items ≡ [] }
    requires its_ledger { L.name ≡ S.ledger }
    ensures next_common { IfOk result (λ common. IsTrue common
        → IsNextCommon (standing_at stands target.old.items) (map S.strings scans.old) target.new.items) }
    ensures none_is_left { IfOk result (λ common. IsFalse common
        → HasNoNextCommon (standing_at stands target.old.items) (map S.strings scans.old)) }
    ensures same_strings { map S.strings scans.new ≡ map S.strings scans.old }
    ensures same_passed { map S.passed scans.new ≡ map S.passed scans.old }

    ensures walks_on { IfOk result (λ common. IsTrue common → (start : Option (List ℕ)) (begun : ℕ) →
        IsWalked (length scans.old) start (standing_at stands target.old.items) (map S.strings scans.old) (map S.passed scans.old) begun
        steps.old →
        IsWalked (length scans.old) start (Some target.new.items) (map S.strings scans.new) (map S.passed scans.new) begun steps.new) }
    ensures walk_within { (start : Option (List ℕ)) (begun : ℕ) →
        IsWalked (length scans.old) start (standing_at stands target.old.items) (map S.strings scans.old) (map S.passed scans.old) begun
        steps.old →
        steps.new ≤ begun + steps_to_end (length scans.old) start (map S.strings scans.old) (map S.passed scans.old) }
    ensures agrees_by_steps { IfOk result (λ common. IsTrue common → steps.old + length scans.old ≤ steps.new) }
    ensures takes_a_step { OnOk result (steps.old + 1 ≤ steps.new) }
    ensures steps_stay_counted { steps.old ≤ steps.new }
{
    above_standing(target, stands)?;
    leapfrog(target, scans, steps)
}

/// The leapfrog join: goes round the scans and seeks the target at each, which rises to what they give, until a whole turn
/// found it at all of them; `false` where one of them has no string from there on, and so none is common. The target is at
/// first the least string above another one, or above none.
///
/// The greatest string found is all that is kept: a scan whose turn comes again stands below it, for otherwise all have
/// agreed. So no string is sought twice at one scan, and the scan with the fewest strings bounds the turns.
pub fn leapfrog<S: Scan, L: Ledger>(
    target: &mut Vec<u8>,
    scans: &mut [S],
    steps: &mut Steps<L>,
) -> Result<bool, AllocError>
    requires some { 0 < length scans.old }
    requires from_above { target.old.items ≡ first_above (string_below target.old.items) }
    requires its_ledger { L.name ≡ S.ledger }
    ensures next_common { IfOk result (λ common. IsTrue common
        → IsNextCommon (string_below target.old.items) (map S.strings scans.old) target.new.items) }
    ensures none_is_left { IfOk result (λ common. IsFalse common
        → HasNoNextCommon (string_below target.old.items) (map S.strings scans.old)) }
    ensures same_strings { map S.strings scans.new ≡ map S.strings scans.old }
    ensures same_passed { map S.passed scans.new ≡ map S.passed scans.old }

    ensures steps_with_answer { IfOk result (λ common. IsTrue common →
        let n = least_count (string_below target.old.items) (Some target.new.items) (map S.strings scans.old) in
        let p = total_count (string_below target.old.items) (Some target.new.items) (map S.passed scans.old) in
        steps.new ≤ steps.old + length scans.old * (n + 1) + p) }
    ensures steps_with_none { IfOk result (λ common. IsFalse common →
        let n = least_count (string_below target.old.items) None (map S.strings scans.old) in
        let p = total_count (string_below target.old.items) None (map S.passed scans.old) in
        steps.new ≤ steps.old + length scans.old * (n + 2) + p) }
    ensures steps_when_refused { OnErr result (
        let n = least_count (string_below target.old.items) None (map S.strings scans.old) in
        let p = total_count (string_below target.old.items) None (map S.passed scans.old) in
        steps.new ≤ steps.old + length scans.old * (n + 2) + p) }
    ensures agrees_by_steps { IfOk result (λ common. IsTrue common → steps.old + length scans.old ≤ steps.new) }
    ensures takes_a_step { OnOk result (steps.old + 1 ≤ steps.new) }
    ensures steps_stay_counted { steps.old ≤ steps.new }
{
    let mut turn = 0;
    let mut agreed = 0;
    while agreed < scans.len() {
        let at = wrapped(turn, scans.len());
        match seek_target(target, &mut scans[at], steps)? {
            Sought::Nothing => return Ok(false),
            Sought::Same => agreed += 1,
            Sought::Greater => agreed = 1,
        }
        turn = at + 1;
    }
    Ok(true)
}

/// Begins again at the first scan after the last one.
fn wrapped(turn: usize, scans: usize) -> usize
    requires some { 0 < scans }
    requires within { turn ≤ scans }
    ensures within { result < scans }
    ensures same { turn < scans → result ≡ turn }
    ensures again { turn ≡ scans → result ≡ 0 }
{
    if turn < scans { turn } else { 0 }
}
