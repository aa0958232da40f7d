//! How a target is brought to a scan.
ghost use Rattle.std.specs.Prelude.{◌≡◌, ℕ, ◌+◌, ◌≤◌, List, [], option_copied, None, IsFalse, IfOk, OnErr, OnOk};
ghost use Rattle.std.specs.List.Sorted.{IsStrictlySortedBy};
ghost use Rattle.ds_base.specs.KeyOrder.{bytes_cmp};
ghost use Rattle.ds_zigzag.specs.Spans.{count_from};
ghost use Rattle.ds_zigzag.specs.Walks.{standing_at};
ghost use Rattle.ds_zigzag.specs.Targets.{first_above, string_below, IsSought, sought_at};

use crate::scan::Scan;
use ds_io::Steps;
use std::alloc::AllocError;
use std::sync::ledger::Ledger;

/// What a scan that is sought at the target has there.
pub enum Sought {
    /// No string from the target on.
    Nothing,
    /// The target itself.
    Same,
    /// A string above the target, which is the target now.
    Greater,
}

/// The target is the first of all strings above `after`: that string and a zero byte. Without an `after` it is the empty
/// string, the first of all.
pub fn start_above(target: &mut Vec<u8>, after: Option<&[u8]>) -> Result<(), AllocError>
    ensures first { OnOk result (target.new.items ≡ first_above (option_copied after.entry)) }
    ensures below { OnOk result (string_below target.new.items ≡ option_copied after.entry) }
{
    target.clear();
    match after {
        Some(after) => {
            target.extend_from_slice(after)?;
            above_standing(target, true)
        }
        None => above_standing(target, false),
    }
}

/// The target is the first of all strings above the one where it stands, or of all where it stands nowhere.
pub fn above_standing(target: &mut Vec<u8>, stands: bool) -> Result<(), AllocError>
    requires { IsFalse stands → target.old.items ≡ [] }
    ensures first { OnOk result (target.new.items ≡ first_above (standing_at stands target.old.items)) }
    ensures below { OnOk result (string_below target.new.items ≡ standing_at stands target.old.items) }
{
    if stands {
        target.push(0)?;
    }
    Ok(())
}

/// Seeks the target at a scan; a greater string that the scan gives becomes the target.
pub fn seek_target<S: Scan, L: Ledger>(
    target: &mut Vec<u8>,
    scan: &mut S,
    steps: &mut Steps<L>,
) -> Result<Sought, AllocError>
    requires its_ledger { L.name ≡ S.ledger }
    ensures sought { IfOk result (λ m. IsSought m target.old.items target.new.items (S.strings scan.old)) }
    ensures strings_ascend { OnOk result (IsStrictlySortedBy bytes_cmp (S.strings scan.old)) }
    ensures same_strings { S.strings scan.new ≡ S.strings scan.old }
    ensures same_passed { S.passed scan.new ≡ S.passed scan.old }

    ensures steps_when_done { IfOk result (λ m. steps.new ≤ steps.old + 1 + count_from target.old.items (sought_at m target.new.items)
        (S.passed scan.old)) }
    ensures steps_when_refused { OnErr result (steps.new ≤ steps.old + 1 + count_from target.old.items None (S.passed scan.old)) }
    ensures takes_a_step { OnOk result (steps.old + 1 ≤ steps.new) }
    ensures steps_stay_counted { steps.old ≤ steps.new }
{
    let Some(found) = scan.seek(target.as_slice(), steps)? else {
        return Ok(Sought::Nothing);
    };
    if found == target.as_slice() {
        return Ok(Sought::Same);
    }
    target.clear();
    target.extend_from_slice(found)?;
    Ok(Sought::Greater)
}
