//! The rows of a branch.
ghost use Rattle.std.specs.Prelude.{◌≡◌, ◌+◌, ◌≤◌, ◌≢◌, All, length, map, None, Some, IsTrue, IfOk, IfErr, OnErr};
ghost use Rattle.std.specs.Option.{option_copied};
ghost use Rattle.ds_query.specs.Lawful.{IsLawfulBranch};
ghost use Rattle.ds_planner.specs.Suits.{suits};
ghost use Rattle.ds_planner.specs.Lean.{IsLean};
ghost use Rattle.ds_planner.specs.Missing.{Missing, missing_of};
ghost use Rattle.ds_rows.specs.Versions.{entities_at};
ghost use Rattle.ds_model.specs.Bounds.{bound, given};
ghost use Rattle.ds_pages.specs.Places.{IsPlaced, placed};
ghost use Rattle.ds_branch.specs.Behind.{IsCollected};

use crate::behind::RowsBehind;
use crate::collecting::first_common;
use crate::refused::EngineRefused;
use ds_base::NoMemory;
use ds_indexdef::Defs;
use ds_io::Steps;
use ds_planner::{PlanRefused, ScanPlan, plan};
use ds_query::{Branch, Place, RowList};
use ds_rows::Tables;
use ds_scan::scans_of;
use std::alloc::Global;
use std::sync::ledger::Ledger;

/// The first `most` results of the branch at the stamp `at`, or all where there is no `most`: of its rows after the start and up to the
/// end, in order, the first of each mark, each with its values, its key and its place.
///
/// It needs the definitions of the tables, a plan that suits the branch under them, and a stamp that the tables keep. Where no scan of the
/// plan is one too many it takes at most `bound` steps, which speaks of no row above the last one given where as many are given as were
/// asked for; each row given took a step, and where none is asked for no step is taken. Refused: lack of memory; it may then have looked
/// at all rows up to the end.
///
/// Whoever asks several shards plans the branch once, by `ds_planner::plan`, and calls this for each of them with that plan.
pub fn answer<T: Tables, L: Ledger>(
    alloc: Global,
    tables: &T,
    at: u64,
    branch: &Branch,
    defs: &Defs,
    plan: &ScanPlan,
    start: Option<&Place>,
    end: Option<&Place>,
    most: Option<u64>,
    steps: &mut Steps<L>,
) -> Result<RowList, NoMemory>
    requires its_ledger { L.name ≡ T.ledger }
    requires kept { IsTrue (T.keeps tables.now at) }
    requires definitions { defs.now ≡ T.definitions tables.now }
    requires lawful { IsLawfulBranch branch.now }
    requires suits { IsTrue (suits branch.now defs.now plan.now.scans) }
    ensures rows { IfOk result (λ rows. rows ≡ map (placed branch.now.columns)
        (given branch.now (option_copied start.entry) (option_copied end.entry) most (entities_at at (T.versions tables.now)))) }
    ensures placed { IfOk result (λ rows. All (IsPlaced branch.now.columns) rows) }
    ensures steps_bounded { IsLean branch.now defs.now plan.now.scans → IfOk result (λ rows. steps.new
        ≤ steps.old + bound branch.now (option_copied start.entry) (option_copied end.entry) most at (T.versions tables.now)) }
    ensures steps_when_refused { IsLean branch.now defs.now plan.now.scans → OnErr result (steps.new
        ≤ steps.old + bound branch.now (option_copied start.entry) (option_copied end.entry) None at (T.versions tables.now)) }
    ensures a_step_for_each { IfOk result (λ rows. steps.old + length rows ≤ steps.new) }
    ensures none_asked { most ≡ Some 0 → steps.new ≡ steps.old }
    ensures steps_stay_counted { steps.old ≤ steps.new }
{
    let found = answer_behind(
        alloc, tables, at, branch, defs, plan, start, end, most, 0, false, steps,
    )?;
    Ok(found.rows)
}

/// The same results without the first `skip` of them, which are counted and not kept, the place of the last one, and if asked for the
/// places of all.
pub fn answer_behind<T: Tables, L: Ledger>(
    alloc: Global,
    tables: &T,
    at: u64,
    branch: &Branch,
    defs: &Defs,
    plan: &ScanPlan,
    start: Option<&Place>,
    end: Option<&Place>,
    most: Option<u64>,
    skip: u32,
    places: bool,
    steps: &mut Steps<L>,
) -> Result<RowsBehind, NoMemory>
    requires its_ledger { L.name ≡ T.ledger }
    requires kept { IsTrue (T.keeps tables.now at) }
    requires definitions { defs.now ≡ T.definitions tables.now }
    requires lawful { IsLawfulBranch branch.now }
    requires suits { IsTrue (suits branch.now defs.now plan.now.scans) }
    ensures rows { IfOk result (IsCollected branch.now.columns skip places (map (placed branch.now.columns)
        (given branch.now (option_copied start.entry) (option_copied end.entry) most (entities_at at (T.versions tables.now))))) }
    ensures steps_bounded { IsLean branch.now defs.now plan.now.scans → IfOk result (λ found. steps.new
        ≤ steps.old + bound branch.now (option_copied start.entry) (option_copied end.entry) most at (T.versions tables.now)) }
    ensures steps_when_refused { IsLean branch.now defs.now plan.now.scans → OnErr result (steps.new
        ≤ steps.old + bound branch.now (option_copied start.entry) (option_copied end.entry) None at (T.versions tables.now)) }
    ensures a_step_for_each { IfOk result (λ found. steps.old + found.count ≤ steps.new) }
    ensures none_asked { most ≡ Some 0 → steps.new ≡ steps.old }
    ensures steps_stay_counted { steps.old ≤ steps.new }
{
    tables.stand(at);
    let mut scans = scans_of(alloc, tables, at, branch, defs, plan, end)?;
    first_common(
        alloc,
        scans.as_mut_slice(),
        branch,
        start,
        most,
        skip,
        places,
        steps,
    )
}

/// The same rows by a plan of its own, within the same bounds. `MissingIndex` comes exactly where no set of scans suits the branch; it
/// carries what no index serves, and the definition with which the branch would be served.
pub fn branch_rows<T: Tables, L: Ledger>(
    alloc: Global,
    tables: &T,
    at: u64,
    branch: &Branch,
    defs: &Defs,
    start: Option<&Place>,
    end: Option<&Place>,
    most: Option<u64>,
    steps: &mut Steps<L>,
) -> Result<RowList, EngineRefused>
    requires its_ledger { L.name ≡ T.ledger }
    requires kept { IsTrue (T.keeps tables.now at) }
    requires definitions { defs.now ≡ T.definitions tables.now }
    requires lawful { IsLawfulBranch branch.now }
    ensures rows { IfOk result (λ rows. rows ≡ map (placed branch.now.columns)
        (given branch.now (option_copied start.entry) (option_copied end.entry) most (entities_at at (T.versions tables.now)))) }
    ensures placed { IfOk result (λ rows. All (IsPlaced branch.now.columns) rows) }
    ensures served { IfOk result (λ rows. missing_of branch.now defs.now ≡ None) }
    ensures missing { IfErr result (λ e. e ≢ EngineRefused.NoMemory → (m : Missing)
        × (missing_of branch.now defs.now ≡ Some m)
        × (e ≡ EngineRefused.MissingIndex m.constraint m.suggestion)) }
    ensures steps_bounded { IfOk result (λ rows. steps.new
        ≤ steps.old + bound branch.now (option_copied start.entry) (option_copied end.entry) most at (T.versions tables.now)) }
    ensures steps_when_refused { OnErr result (steps.new
        ≤ steps.old + bound branch.now (option_copied start.entry) (option_copied end.entry) None at (T.versions tables.now)) }
    ensures a_step_for_each { IfOk result (λ rows. steps.old + length rows ≤ steps.new) }
    ensures none_asked { most ≡ Some 0 → steps.new ≡ steps.old }
    ensures steps_stay_counted { steps.old ≤ steps.new }
{
    match plan(alloc, branch, defs) {
        Ok(plan) => Ok(answer(
            alloc, tables, at, branch, defs, &plan, start, end, most, steps,
        )?),
        Err(
            PlanRefused::MissingIndex {
                constraint,
                suggestion,
            },
        ) => Err(EngineRefused::MissingIndex {
            constraint,
            suggestion,
        }),
        Err(PlanRefused::NoMemory) => Err(EngineRefused::NoMemory),
    }
}
