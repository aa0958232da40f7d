//! How a run over a kept journal stops, before its store is closed.
ghost use Rattle.std.specs.Prelude.{◌≡◌, []};

use crate::status::KeptStatus;
use ds_keep::Keeper;
use ds_output::Unsent;
use ds_words::Status;
use std::alloc::Global;

/// How a run stopped, and the replies' bytes that were not taken.
#[derive(Drop)]
pub struct Stopped {
    pub status: KeptStatus,
    pub unsent: Unsent,
}

/// What the next round of a run comes to.
#[derive(Drop)]
pub(crate) enum RoundOutcome {
    /// A round was read and run, what it committed and drew is kept, and its replies were written.
    Served(Keeper),
    /// The run has stopped.
    Stopped(Stopped),
}

/// The run stops, and all its replies were taken.
pub(crate) fn stop_with(alloc: Global, status: Status) -> RoundOutcome
    ensures { result ≡ RoundOutcome.Stopped (record { status = KeptStatus.Served status; unsent = [] }) }
{
    RoundOutcome::Stopped(Stopped {
        status: KeptStatus::Served(status),
        unsent: Unsent::none(alloc),
    })
}
