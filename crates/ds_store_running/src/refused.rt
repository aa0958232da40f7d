//! Why a query with an ancestor is refused.
use ds_engine::EngineRefused;
use ds_store_passes::{Expired, GetRefused};
use std::alloc::AllocError;

/// Why a query with an ancestor is refused.
#[derive(Drop)]
pub enum StrongRefused {
    /// No index serves it.
    MissingIndex {
        /// What no index serves.
        constraint: ds_query::Constraint,
        /// The definition with which it would be served.
        suggestion: ds_indexdef::IndexDef,
    },
    /// The versions of the touch place are gone.
    Expired(Expired),
    /// There was no memory, or the shard's hub has ended.
    NoMemory,
}

impl From<AllocError> for StrongRefused {
    ghost use Rattle.std.specs.Prelude.{◌≡◌};
    ghost use Rattle.ds_store_running.specs.declared.refused.StrongRefused.TheVariants.{NoMemory};

    ghost from_gives = { λ _ refused. refused ≡ NoMemory };

    fn from(_refused: AllocError) -> StrongRefused {
        StrongRefused::NoMemory
    }
}

impl From<EngineRefused> for StrongRefused {
    ghost use Rattle.std.specs.Prelude.{◌≡◌};
    ghost use Rattle.ds_store_running.specs.Strong.{from_engine};

    ghost from_gives = { λ refused strong. strong ≡ from_engine refused };

    fn from(refused: EngineRefused) -> StrongRefused {
        match refused {
            EngineRefused::MissingIndex {
                constraint,
                suggestion,
            } => StrongRefused::MissingIndex {
                constraint,
                suggestion,
            },
            EngineRefused::NoMemory => StrongRefused::NoMemory,
        }
    }
}

impl From<GetRefused> for StrongRefused {
    ghost use Rattle.std.specs.Prelude.{◌≡◌};
    ghost use Rattle.ds_store_running.specs.Strong.{from_get};

    ghost from_gives = { λ refused strong. strong ≡ from_get refused };

    fn from(refused: GetRefused) -> StrongRefused {
        match refused {
            GetRefused::Expired(expired) => StrongRefused::Expired(expired),
            GetRefused::NoMemory => StrongRefused::NoMemory,
        }
    }
}
