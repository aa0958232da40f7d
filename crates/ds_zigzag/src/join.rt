//! The join of several scans: it leaps from each string that all of them have to the next.
ghost use Rattle.std.specs.Prelude.{◌≡◌, ℕ, ◌+◌, ◌*◌, ◌<◌, ◌≤◌, length, map, option_copied, Some, None, IfOk, OnOk, OnErr, IfSome, IfNone};
ghost use Rattle.std.specs.Borrow.{sem};
ghost use Rattle.std.specs.Io.BufRead.{Rests};
ghost use Rattle.ds_zigzag.specs.CommonStrings.{IsNextCommon, HasNoNextCommon, least_count, total_count};

use crate::leapfrog::{FIRST_ROOM, leapfrog_above};
use crate::scan::Scan;
use ds_io::Steps;
use std::alloc::{AllocError, Global};
use std::marker::Model;
use std::sync::ledger::Ledger;

/// Finds the strings that a fixed number of scans have in common, one after the other. Contracts see that number.
#[derive(Drop)]
pub struct Join {
    scans: usize,
    // The string that is sought at each scan in turn: the greatest found so far.
    target: Vec<u8>,
}

impl Model for Join {
    ghost use Rattle.std.specs.Prelude.{ℕ, ◌<◌};

    ghost Value = { ℕ };

    ghost view = { λ j. j.scans };

    ghost invariant = { λ j. 0 < j.scans };
}

impl Join {
    ghost use Rattle.ds_zigzag.specs.contracts.join.Join.{the_row};

    /// A join of so many scans, which is at least 1. Its one buffer is the only memory that it takes. Refused: there
    /// was no memory for it.
    pub fn make(alloc: Global, scans: usize) -> Result<Join, AllocError>
        requires { 0 < scans }
        ensures { IfOk result (λ join. join ≡ scans) }
    {
        let target = Vec::with_capacity(alloc, FIRST_ROOM)?;
        Ok(Join { scans, target })
    }

    /// The least string above `after` that all scans have, or the least of all where there is no `after`; `None` exactly
    /// where there is none. It needs as many scans as it was made for, and changes none of their lists. Refused: there
    /// was no memory for the string, or for a scan.
    ///
    /// Let n be the least number, over the scans, of that scan's strings above `after` and not above the answer, and p
    /// the number of passed strings there, over all scans. With an answer it takes `scans * (n + 1) + p` steps at most.
    /// Without one, where n and p count all such strings above `after`, it takes `scans * (n + 2) + p` at most.
    pub fn next<S: Scan, L: Ledger>(
        &mut self,
        scans: &mut [S],
        after: Option<&[u8]>,
        steps: &mut Steps<L>,
    ) -> Result<Option<&[u8]>, AllocError>
        requires as_many { length scans.old ≡ self.old }
        requires its_ledger { L.name ≡ S.ledger }
        ensures next_common { IfOk result (λ found. IfSome found (λ a. IsNextCommon (option_copied after.entry) (map S.strings scans.old)
            a.now)) }
        ensures none_is_left { IfOk result (λ found. IfNone found (HasNoNextCommon (option_copied after.entry) (map S.strings scans.old))) }
        ensures same_strings { map S.strings scans.new ≡ map S.strings scans.old }
        ensures same_passed { map S.passed scans.new ≡ map S.passed scans.old }
        ensures* same_number { sem 𝓛 (Rests the_row self.entry (λ new. new ≡ self.old)) }

        ensures steps_with_answer { IfOk result (λ found. IfSome found (λ a.
            let n = least_count (option_copied after.entry) (Some a.now) (map S.strings scans.old) in
            let p = total_count (option_copied after.entry) (Some a.now) (map S.passed scans.old) in
            steps.new ≤ steps.old + self.old * (n + 1) + p)) }
        ensures steps_with_none { IfOk result (λ found. IfNone found (
            let n = least_count (option_copied after.entry) None (map S.strings scans.old) in
            let p = total_count (option_copied after.entry) None (map S.passed scans.old) in
            steps.new ≤ steps.old + self.old * (n + 2) + p)) }
        ensures steps_when_refused { OnErr result (
            let n = least_count (option_copied after.entry) None (map S.strings scans.old) in
            let p = total_count (option_copied after.entry) None (map S.passed scans.old) in
            steps.new ≤ steps.old + self.old * (n + 2) + p) }
        ensures agrees_by_steps { IfOk result (λ found. IfSome found (λ a. steps.old + self.old ≤ steps.new)) }
        ensures takes_a_step { OnOk result (steps.old + 1 ≤ steps.new) }
        ensures steps_stay_counted { steps.old ≤ steps.new }
    {
        if leapfrog_above(&mut self.target, scans, after, steps)? {
            Ok(Some(self.target.as_slice()))
        } else {
            Ok(None)
        }
    }
}
