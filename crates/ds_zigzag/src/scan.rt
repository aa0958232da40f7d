//! An ordered source of strings that can leap.
ghost use Rattle.std.specs.Prelude.{◌≡◌, ℕ, ◌+◌, ◌≤◌, List, find, option_copied, None, IfOk, OnOk, OnErr};
ghost use Rattle.std.specs.Borrow.{sem};
ghost use Rattle.std.specs.Io.BufRead.{Rests};
ghost use Rattle.std.specs.List.Sorted.{IsSorted, IsStrictlySortedBy};
ghost use Rattle.ds_base.specs.KeyOrder.{bytes_cmp};
ghost use Rattle.ds_zigzag.specs.Spans.{is_from, count_from};

use ds_io::Steps;
use std::alloc::AllocError;
use std::sync::ledger::Ledger;

/// A list of byte strings in their order, which is sought and not walked: the rows of an index that meet a filter, say.
/// Strings compare byte by byte, and one that another begins with comes first.
///
/// A scan may have to pass over strings that it doesn't give, such as rows of an index that were deleted. They are its
/// passed strings; they are in order too, and may repeat.
pub trait Scan {
    // The name of the one ledger on which its seeks count, `L.name` of the `Steps<L>` that they are handed. A caller can't
    // seek on a ledger of its own, so the bound of a call that is handed steps speaks of all its seeks.
    ghost ledger: { ℕ };

    // The strings that it gives.
    ghost strings: { Self → List (List ℕ) };

    // The strings that it only passes over.
    ghost passed: { Self → List (List ℕ) };

    /// The first of its strings that isn't below `at_least`; `None` where there is none. It changes neither of its
    /// lists. It takes a step, and at most one more for each passed string that isn't below `at_least` and not above the
    /// string given; a refusal, which means out of memory, takes no more than `None` would.
    ///
    /// Whoever implements it shows too, where it isn't refused, that its strings ascend, each above the one before it,
    /// and that its passed strings don't fall. It is free to keep where it stands and to begin there, since no clause
    /// speaks of such a hint.
    fn seek<L: Ledger>(
        &mut self,
        at_least: &[u8],
        steps: &mut Steps<L>,
    ) -> Result<Option<&[u8]>, AllocError>
        requires its_ledger { L.name ≡ ledger }
        ensures finds_the_first { IfOk result (λ found. option_copied found ≡ find (is_from at_least.now) (strings self.old)) }
        ensures* same_lists { sem 𝓛 (Rests Self.row self.entry (λ new. (strings new ≡ strings self.old) × (passed new ≡ passed self.old))) }
        ensures strings_ascend { OnOk result (IsStrictlySortedBy bytes_cmp (strings self.old)) }
        ensures passed_do_not_fall { OnOk result (IsSorted bytes_cmp (passed self.old)) }

        ensures steps_when_done { IfOk result (λ found. steps.new ≤ steps.old + 1 + count_from at_least.now (option_copied found)
            (passed self.old)) }
        ensures steps_when_refused { OnErr result (steps.new ≤ steps.old + 1 + count_from at_least.now None (passed self.old)) }
        ensures takes_a_step { OnOk result (steps.old + 1 ≤ steps.new) }
        ensures steps_stay_counted { steps.old ≤ steps.new };
}
