//! A walk over the strings that several scans have in common, each after the one before it.
ghost use Rattle.std.specs.Prelude.{◌≡◌, ℕ, ◌+◌, ◌<◌, ◌≤◌, List, Option, length, map, option_copied, Some, IfOk, OnOk, IfSome, IfNone};
ghost use Rattle.std.specs.Borrow.{sem};
ghost use Rattle.std.specs.Io.BufRead.{Rests};
ghost use Rattle.ds_zigzag.specs.CommonStrings.{IsNextCommon, HasNoNextCommon};
ghost use Rattle.ds_zigzag.specs.Walks.{Standing, IsWalked, steps_to_end};

use crate::leapfrog::{FIRST_ROOM, leapfrog_on};
use crate::scan::Scan;
use ds_io::Steps;
use std::alloc::{AllocError, Global};
use std::marker::Model;
use std::sync::ledger::Ledger;

/// A join that goes on from its last answer, without being given it again. Contracts see the number of scans and where it
/// stands, `last`.
///
/// It carries the law that the bounds of successive answers add up. A caller keeps `IsWalked` from the walk's beginning on:
/// it holds there (`begins`), and `walks_on` brings it to each answer. So where the walk is stopped after some answers its
/// steps are within `steps_up_to` the last one, and at its end, or at a refusal, within `steps_to_end` (`walk_within`), which
/// `stops` says too of each walk that is on its way.
#[derive(Drop)]
pub struct Walk {
    scans: usize,
    // Whether it stands at a string, which is then in `at`; else `at` is empty.
    stands: bool,
    // The string at which it stands, in which the next one is sought.
    at: Vec<u8>,
}

impl Model for Walk {
    ghost use Rattle.std.specs.Prelude.{◌≡◌, ◌<◌, [], IsFalse};
    ghost use Rattle.ds_zigzag.specs.Walks.{Standing, standing_at};

    ghost Value = { Standing };

    ghost view = { λ w. record { scans = w.scans; last = standing_at w.stands w.at.items } };

    ghost invariant = { λ w. (0 < w.scans) × (IsFalse w.stands → w.at.items ≡ []) };
}

impl Walk {
    ghost use Rattle.ds_zigzag.specs.contracts.walk.Walk.{the_row};

    /// A walk over so many scans, which are at least 1, that begins above `after`, or before all strings where there is no
    /// `after`. Refused: there was no memory for its one buffer.
    pub fn begin(alloc: Global, scans: usize, after: Option<&[u8]>) -> Result<Walk, AllocError>
        requires { 0 < scans }
        ensures over { IfOk result (λ walk. walk.scans ≡ scans) }
        ensures stands { IfOk result (λ walk. walk.last ≡ option_copied after.entry) }
        ensures begins { (start : Option (List ℕ)) (strings passed : List (List (List ℕ))) (now : ℕ) →
            IsWalked scans start start strings passed now now }
        ensures stops { (start last : Option (List ℕ)) (strings passed : List (List (List ℕ))) (begun now : ℕ) →
            IsWalked scans start last strings passed begun now → now ≤ begun + steps_to_end scans start strings passed }
    {
        let mut at = Vec::with_capacity(alloc, FIRST_ROOM)?;
        let mut stands = false;
        if let Some(after) = after {
            at.extend_from_slice(after)?;
            stands = true;
        }
        Ok(Walk { scans, stands, at })
    }

    /// The least string above the one where it stands that all scans have, which is where it stands then; `None` exactly
    /// where there is none. It needs as many scans as it was made for, and changes none of their lists. Refused: there was
    /// no memory for the string, or for a scan. After a refusal or `None` it may stand anywhere.
    ///
    /// With `IsWalked` before it, from any start and any count of steps, there is `IsWalked` after an answer, and in each
    /// case the steps are within those of a walk to the end.
    pub fn next<S: Scan, L: Ledger>(
        &mut self,
        scans: &mut [S],
        steps: &mut Steps<L>,
    ) -> Result<Option<&[u8]>, AllocError>
        requires as_many { length scans.old ≡ self.old.scans }
        requires its_ledger { L.name ≡ S.ledger }
        ensures next_common { IfOk result (λ found. IfSome found (λ a. IsNextCommon self.old.last (map S.strings scans.old) a.now)) }
        ensures none_is_left { IfOk result (λ found. IfNone found (HasNoNextCommon self.old.last (map S.strings scans.old))) }
        ensures same_strings { map S.strings scans.new ≡ map S.strings scans.old }
        ensures same_passed { map S.passed scans.new ≡ map S.passed scans.old }
        // What becomes of the walk when the answer, which is borrowed from it, is let go.
        ensures* stands { sem 𝓛 (Rests the_row self.entry (λ new.
            (new.scans ≡ self.old.scans) × IfOk result (λ found. IfSome found (λ a. new.last ≡ Some a.now)))) }

        ensures walks_on { IfOk result (λ found. IfSome found (λ a. (start : Option (List ℕ)) (begun : ℕ) →
            IsWalked self.old.scans start self.old.last (map S.strings scans.old) (map S.passed scans.old) begun steps.old →
            IsWalked self.old.scans start (Some a.now) (map S.strings scans.new) (map S.passed scans.new) begun steps.new)) }
        ensures walk_within { (start : Option (List ℕ)) (begun : ℕ) →
            IsWalked self.old.scans start self.old.last (map S.strings scans.old) (map S.passed scans.old) begun steps.old →
            steps.new ≤ begun + steps_to_end self.old.scans start (map S.strings scans.old) (map S.passed scans.old) }
        ensures agrees_by_steps { IfOk result (λ found. IfSome found (λ a. steps.old + self.old.scans ≤ steps.new)) }
        ensures takes_a_step { OnOk result (steps.old + 1 ≤ steps.new) }
        ensures steps_stay_counted { steps.old ≤ steps.new }
    {
        let stands = self.stands;
        self.stands = true;
        if leapfrog_on(&mut self.at, stands, scans, steps)? {
            Ok(Some(self.at.as_slice()))
        } else {
            Ok(None)
        }
    }
}
