//! Rows in their order, which are sought.
ghost use Rattle.std.specs.Prelude.{◌≡◌, ℕ, ◌+◌, ◌≤◌, List, All, find, option_copied};
ghost use Rattle.std.specs.List.Sorted.{IsSorted, IsStrictlySortedBy};
ghost use Rattle.ds_base.specs.KeyOrder.{bytes_cmp};
ghost use Rattle.ds_table.specs.Versions.{in_range};
ghost use Rattle.ds_base.specs.Bytes.{AreBytes};
ghost use Rattle.ds_scan.specs.Ranges.{rows_passed};

use ds_io::Steps;
use std::sync::ledger::Ledger;

/// A table of rows as it is seen at one stamp: it is sought and not walked. Contracts see the rows that are seen, in their
/// order, and those of the versions that aren't, one for each version.
pub trait Rows {
    // The name of the one ledger on which its seeks count, `L.name` of the `Steps<L>` that they are handed. A caller can't
    // seek on a ledger of its own, so the bound of a call that is handed steps speaks of all its seeks.
    ghost ledger: { ℕ };

    // The rows that are seen.
    ghost seen: { Self → List (List ℕ) };

    // The rows of the versions that aren't, over which a seek passes.
    ghost unseen: { Self → List (List ℕ) };

    /// The least row that is seen, isn't below `at_least` and, where it is given, is below `below`; `None` exactly where there
    /// is none. It takes no memory. It takes a step, and at most one more for each unseen row of that range that isn't
    /// above the row given, or that is in the range where none is given.
    ///
    /// Whoever implements it shows too that the rows seen ascend, each above the one before it, and that the unseen ones don't
    /// fall and are bytes.
    fn seek<L: Ledger>(
        &self,
        at_least: &[u8],
        below: Option<&[u8]>,
        steps: &mut Steps<L>,
    ) -> Option<&[u8]>
        requires its_ledger { L.name ≡ ledger }
        ensures finds_the_first { option_copied result ≡ find (in_range at_least.now (option_copied below.entry)) (seen self.now) }
        ensures steps_bounded { steps.new ≤ steps.old + 1
            + rows_passed at_least.now (option_copied below.entry) (option_copied result) (unseen self.now) }
        ensures takes_a_step { steps.old + 1 ≤ steps.new }
        ensures rows_ascend { IsStrictlySortedBy bytes_cmp (seen self.now) }
        ensures passed_do_not_fall { IsSorted bytes_cmp (unseen self.now) }
        ensures passed_are_bytes { All AreBytes (unseen self.now) };

    /// The same call with a place near which to look first, at first 0; it leaves there where it ended. Every place gives the
    /// same answer and the same steps.
    fn seek_near<L: Ledger>(
        &self,
        at_least: &[u8],
        below: Option<&[u8]>,
        near: &mut u64,
        steps: &mut Steps<L>,
    ) -> Option<&[u8]>
        requires its_ledger { L.name ≡ ledger }
        ensures finds_the_first { option_copied result ≡ find (in_range at_least.now (option_copied below.entry)) (seen self.now) }
        ensures steps_bounded { steps.new ≤ steps.old + 1
            + rows_passed at_least.now (option_copied below.entry) (option_copied result) (unseen self.now) }
        ensures takes_a_step { steps.old + 1 ≤ steps.new }
        ensures rows_ascend { IsStrictlySortedBy bytes_cmp (seen self.now) }
        ensures passed_do_not_fall { IsSorted bytes_cmp (unseen self.now) }
        ensures passed_are_bytes { All AreBytes (unseen self.now) }
    {
        let _near = near;
        self.seek(at_least, below, steps)
    }
}
