//! Plans for the branches of a query.
ghost use Rattle.std.specs.Prelude.{◌≡◌, ◌≢◌, ◌++◌, ◌∷◌, [], All, None, Some, IfOk, IfErr, OnOk};
ghost use Rattle.ds_query.specs.Lawful.{IsLawfulBranch};
ghost use Rattle.ds_planner.specs.Missing.{Missing, missing_of};
ghost use Rattle.ds_engine.specs.Plans.{ArePlansFor, IsPlanFor, first_missing};

use ds_branch::EngineRefused;
use ds_indexdef::Defs;
use ds_planner::{PlanRefused, ScanPlan, plan};
use ds_query::Branch;
use std::alloc::Global;

/// A plan for each branch, which serves every shard. `MissingIndex` comes exactly where no set of scans suits some branch; it tells what
/// no index serves of the first such branch, and the definition with which that one would be served.
pub fn plans_of(
    alloc: Global,
    branches: &[Branch],
    defs: &Defs,
) -> Result<Vec<ScanPlan>, EngineRefused>
    requires lawful { All IsLawfulBranch branches.now }
    ensures plans { IfOk result (λ plans. ArePlansFor defs.now branches.now plans.items) }
    ensures served { OnOk result (first_missing defs.now branches.now ≡ None) }
    ensures missing { IfErr result (λ e. e ≢ EngineRefused.NoMemory → (m : Missing)
        × (first_missing defs.now branches.now ≡ Some m)
        × (e ≡ EngineRefused.MissingIndex m.constraint m.suggestion)) }
{
    let mut plans = Vec::new(alloc);
    for branch in branches {
        let plan = plan_of(alloc, branch, defs)?;
        put_plan(&mut plans, plan)?;
    }
    Ok(plans)
}

/// Puts a plan behind the others.
fn put_plan(plans: &mut Vec<ScanPlan>, plan: ScanPlan) -> Result<(), EngineRefused>
    ensures ok { OnOk result (plans.new.items ≡ plans.old.items ++ plan ∷ []) }
    ensures refused { IfErr result (λ e. e ≡ EngineRefused.NoMemory) }
{
    match plans.push(plan) {
        Ok(()) => Ok(()),
        Err(_) => Err(EngineRefused::NoMemory),
    }
}

/// A plan for a branch, or what it misses.
fn plan_of(alloc: Global, branch: &Branch, defs: &Defs) -> Result<ScanPlan, EngineRefused>
    requires lawful { IsLawfulBranch branch.now }
    ensures plan { IfOk result (IsPlanFor defs.now branch.now) }
    ensures served { OnOk result (missing_of branch.now defs.now ≡ None) }
    ensures missing { IfErr result (λ e. e ≢ EngineRefused.NoMemory → (m : Missing)
        × (missing_of branch.now defs.now ≡ Some m)
        × (e ≡ EngineRefused.MissingIndex m.constraint m.suggestion)) }
{
    match plan(alloc, branch, defs) {
        Ok(plan) => Ok(plan),
        Err(
            PlanRefused::MissingIndex {
                constraint,
                suggestion,
            },
        ) => Err(EngineRefused::MissingIndex {
            constraint,
            suggestion,
        }),
        Err(PlanRefused::NoMemory) => Err(EngineRefused::NoMemory),
    }
}
