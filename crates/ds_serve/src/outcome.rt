//! What a run of the server gives.
ghost use Rattle.std.specs.Prelude.{◌≡◌, [], Some};

use ds_clients::Unsent;
use ds_log::Journal;
use ds_words::Status;
use std::alloc::Global;

/// What a run gives.
#[derive(Drop)]
pub struct Run {
    /// How it ended.
    pub status: Status,
    /// The commits. They are there with every status.
    pub journal: Option<Journal>,
    /// The replies' bytes that were not taken; none unless a write failed.
    pub unsent: Unsent,
}

/// The end of a run that ran no round.
pub(crate) fn nothing_run(alloc: Global, status: Status) -> Run
    ensures status { result.status ≡ status }
    ensures journal { result.journal ≡ Some [] }
    ensures unsent { result.unsent ≡ [] }
{
    Run {
        status,
        journal: Some(Journal::new(alloc)),
        unsent: Unsent::none(alloc),
    }
}
