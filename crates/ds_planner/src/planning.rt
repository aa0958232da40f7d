//! Planning: a suiting and lean set of scans, or exactly what is missing.
ghost use Rattle.std.specs.Prelude.{◌≡◌, ◌≢◌, ◌≤◌, ◌∷◌, [], None, Some, IfOk, IfErr, IsTrue, All, length};
ghost use Rattle.std.specs.List.Sorted.{IsStrictlySortedBy};
ghost use Rattle.ds_query.specs.Branching.{pair_cmp};
ghost use Rattle.ds_query.specs.Lawful.{IsLawfulBranch};
ghost use Rattle.ds_planner.specs.declared.planned.PlannedScan.{PlannedScan};
ghost use Rattle.ds_planner.specs.declared.planning.PlanRefused.TheVariants as refused;
ghost use Rattle.ds_planner.specs.Parts.{parts};
ghost use Rattle.ds_planner.specs.Suits.{suits};
ghost use Rattle.ds_planner.specs.Lean.{IsLean};
ghost use Rattle.ds_planner.specs.Missing.{Missing, missing_of};
ghost use Rattle.ds_planner.specs.Choices.{scans_of};

use crate::candidates::candidates;
use crate::choices::scans_of;
use crate::missing::{constraint_among, suggestion_of};
use crate::planned::ScanPlan;
use ds_indexdef::{Defs, IndexDef};
use ds_query::{Branch, Constraint};
use std::alloc::{AllocError, Global};

/// Why there is no plan.
#[derive(Drop)]
pub enum PlanRefused {
    /// No set of scans suits.
    MissingIndex {
        /// What no index serves.
        constraint: Constraint,
        /// The definition with which the branch would be served.
        suggestion: IndexDef,
    },
    /// There was no memory.
    NoMemory,
}

impl From<AllocError> for PlanRefused {
    ghost from_gives = { λ e r. r ≡ refused.NoMemory };

    fn from(_refused: AllocError) -> PlanRefused {
        PlanRefused::NoMemory
    }
}

/// A plan that suits the branch, or what is missing.
///
/// `MissingIndex` comes exactly where no set of scans suits. Its constraint is the columns where no index may be scanned, else
/// the ancestor where none of those binds it, else the first pair, by property and then by value, whose property is in none;
/// its suggestion has the branch's kind, an ancestor flag exactly where the branch has an ancestor, the equality properties by
/// name ascending, and then the columns without a final `__key__` ascending.
///
/// No scan of a plan is one too many: there is at most one for each pair and one for the ancestor, and one where there are
/// neither; where one scan alone suits the plan has one scan. Composite indexes come before those of one property.
pub fn plan(alloc: Global, branch: &Branch, defs: &Defs) -> Result<ScanPlan, PlanRefused>
    requires lawful { IsLawfulBranch branch.now }
    ensures served { IfOk result (λ plan. missing_of branch.now defs.now ≡ None) }
    ensures chosen { IfOk result (λ plan. plan.scans ≡ scans_of branch.now defs.now) }
    ensures suits { IfOk result (λ plan. IsTrue (suits branch.now defs.now plan.scans)) }
    ensures lean { IfOk result (λ plan. IsLean branch.now defs.now plan.scans) }
    ensures few { IfOk result (λ plan. length plan.scans ≤ length (parts branch.now)) }
    ensures one { IfOk result (λ plan. (scan : PlannedScan)
        → IsTrue (suits branch.now defs.now (scan ∷ [])) → length plan.scans ≡ 1) }
    ensures ascending { IfOk result (λ plan. All (λ scan. IsStrictlySortedBy pair_cmp scan.equal) plan.scans) }
    ensures missing { IfErr result (λ e. e ≢ PlanRefused.NoMemory → (m : Missing)
        × (missing_of branch.now defs.now ≡ Some m)
        × (e ≡ PlanRefused.MissingIndex m.constraint m.suggestion)) }
{
    let found = candidates(alloc, branch, defs)?;
    match constraint_among(alloc, branch, defs, found.as_slice())? {
        Some(constraint) => Err(PlanRefused::MissingIndex {
            constraint,
            suggestion: suggestion_of(alloc, branch)?,
        }),
        None => Ok(ScanPlan {
            scans: scans_of(alloc, branch, defs, found.as_slice())?,
        }),
    }
}
