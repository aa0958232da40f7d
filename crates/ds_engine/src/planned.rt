//! A query, the page of it that is asked for, and plans for its branches: what is handed down to the scans.
ghost use Rattle.std.specs.Prelude.{◌≡◌, None};
ghost use Rattle.ds_engine.specs.Searches.{most_of, selects_projection};

use ds_indexdef::Defs;
use ds_planner::ScanPlan;
use ds_query::{Branch, Normal, Select, Window};

/// A query in normal form, the page of it that is asked for, and for each of its branches a plan that answers it under the definitions and
/// has no scan too many, as `plans_of` gives them. What is asked of these four together stands once, in `IsPlanned`.
#[derive(Drop)]
pub struct PlannedQuery<'a> {
    /// The query.
    pub normal: &'a Normal,
    /// The page.
    pub window: &'a Window,
    /// The definitions of composite indexes, which are those of the shards.
    pub defs: &'a Defs,
    /// The plans, branch by branch.
    pub plans: &'a [ScanPlan],
}

impl<'a> PlannedQuery<'a> {
    /// How many results of a branch each shard gives: those that the page skips or takes, and of a projection by several branches all.
    pub(crate) fn most(&self) -> Option<u64>
        ensures { result ≡ most_of self.now.normal.now self.now.window.now }
    {
        if self.normal.several && is_projection(self.normal.branches.as_slice()) {
            return None;
        }
        match self.window.limit {
            Some(limit) => Some(u64::from(self.window.offset) + u64::from(limit)),
            None => None,
        }
    }
}

/// Whether a projection is selected, which all branches do or none.
fn is_projection(branches: &[Branch]) -> bool
    ensures { result ≡ selects_projection branches.now }
{
    match branches.first() {
        Some(branch) => matches!(branch.select, Select::Projection(_)),
        None => false,
    }
}
