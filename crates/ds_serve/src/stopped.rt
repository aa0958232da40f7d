//! How a run stops, before its store is closed.
ghost use Rattle.std.specs.Prelude.{◌≡◌, []};

use ds_clients::Unsent;
use ds_words::Status;
use std::alloc::Global;

/// How a run stopped, and the replies' bytes that were not taken.
#[derive(Drop)]
pub struct Stopped {
    pub status: Status,
    pub unsent: Unsent,
}

/// What the next round of a run comes to.
#[derive(Drop)]
pub enum RoundOutcome {
    /// A round was read and run, and its replies were written.
    Served,
    /// The run has stopped.
    Stopped(Stopped),
}

/// The run stops, and all its replies were taken.
pub(crate) fn stop_with(alloc: Global, status: Status) -> RoundOutcome
    ensures { result ≡ RoundOutcome.Stopped (record { status = status; unsent = [] }) }
{
    RoundOutcome::Stopped(Stopped {
        status,
        unsent: Unsent::none(alloc),
    })
}
