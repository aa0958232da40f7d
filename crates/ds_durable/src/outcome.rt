//! What a run over a kept journal gives.
ghost use Rattle.std.specs.Prelude.{◌≡◌, [], None};

use ds_kept_rounds::KeptStatus;
use ds_log::Journal;
use ds_output::Unsent;
use std::alloc::Global;

/// What a run over a kept journal gives.
#[derive(Drop)]
pub struct KeptRun {
    /// How it ended.
    pub status: KeptStatus,
    /// How many commits were kept at the start; 0 where the disk wasn't opened.
    pub start: u64,
    /// The commits, the kept ones first. None where the disk wasn't opened, with `TooManyRows`, and only then or when out of memory.
    pub journal: Option<Journal>,
    /// The replies' bytes that were not taken. None unless a write failed, or a round was run whose commits could not be kept.
    pub unsent: Unsent,
}

/// The end of a run that ran no round, over so many kept commits.
pub(crate) fn not_served(alloc: Global, status: KeptStatus, start: u64) -> KeptRun
    ensures status { result.status ≡ status }
    ensures start { result.start ≡ start }
    ensures journal { result.journal ≡ None }
    ensures unsent { result.unsent ≡ [] }
{
    KeptRun {
        status,
        start,
        journal: None,
        unsent: Unsent::none(alloc),
    }
}
