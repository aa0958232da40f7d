//! Laws of what is missing, each as a call that does nothing and whose contract is the law.
ghost use Rattle.std.specs.Prelude.{◌≡◌, ◌↔◌, ◌++◌, ◌∷◌, [], List, None, IsSome, IsTrue};
ghost use Rattle.std.specs.List.{Contains};
ghost use Rattle.ds_query.specs.Lawful.{IsLawfulBranch};
ghost use Rattle.ds_planner.specs.declared.planned.PlannedIndex.{PlannedIndex};
ghost use Rattle.ds_planner.specs.declared.planned.PlannedScan.{PlannedScan};
ghost use Rattle.ds_planner.specs.Indexes.{is_candidate};
ghost use Rattle.ds_planner.specs.Suits.{suits};
ghost use Rattle.ds_planner.specs.Missing.{candidates, missing_of, suggestion_of};

use ds_indexdef::Defs;
use ds_query::Branch;

/// With the suggestion among the definitions, as when it was put at their end, a branch that has a kind misses nothing.
pub fn suggestion_serves(branch: &Branch, defs: &Defs)
    requires lawful { IsLawfulBranch branch.now }
    requires kind { IsSome branch.now.kind }
    ensures added { missing_of branch.now (defs.now ++ suggestion_of branch.now ∷ []) ≡ None }
    ensures among { Contains defs.now (suggestion_of branch.now) → missing_of branch.now defs.now ≡ None }
{}

/// Nothing is missing exactly where some set of scans suits.
pub fn served_where_suited(branch: &Branch, defs: &Defs)
    requires lawful { IsLawfulBranch branch.now }
    ensures { (missing_of branch.now defs.now ≡ None)
        ↔ ((scans : List PlannedScan) × IsTrue (suits branch.now defs.now scans)) }
{}

/// The list of candidates, by which what is missing is told, has each index that may be scanned for the branch, and no other.
pub fn candidates_are_all(branch: &Branch, defs: &Defs)
    requires lawful { IsLawfulBranch branch.now }
    ensures { (i : PlannedIndex) → IsTrue (is_candidate branch.now defs.now i)
        ↔ Contains (candidates branch.now defs.now) i }
{}
