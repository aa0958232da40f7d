//! Why a branch isn't answered.
ghost use Rattle.std.specs.Prelude.{◌≡◌};
ghost use Rattle.ds_branch.specs.declared.refused.EngineRefused.TheVariants as refused;

use ds_indexdef::IndexDef;
use ds_query::Constraint;
use std::alloc::AllocError;

/// Why a branch isn't answered.
#[derive(Drop)]
pub enum EngineRefused {
    /// No set of scans suits.
    MissingIndex {
        /// What no index serves.
        constraint: Constraint,
        /// The definition with which the branch would be served.
        suggestion: IndexDef,
    },
    /// There was no memory.
    NoMemory,
}

impl From<AllocError> for EngineRefused {
    ghost from_gives = { λ e r. r ≡ refused.NoMemory };

    fn from(_refused: AllocError) -> EngineRefused {
        EngineRefused::NoMemory
    }
}
