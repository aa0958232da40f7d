//! What a run gives whose index definitions change.
ghost use Rattle.std.specs.Prelude.{◌≡◌, [], None, Some};
ghost use Rattle.ds_cutting.specs.CutRuns.{cut_exit_of};

use ds_clients::Unsent;
use ds_log::Journal;
use ds_words::Status;
use std::alloc::Global;

/// How a run ended.
#[derive(Drop, Clone, Copy, PartialEq, Debug)]
pub enum CutStatus {
    /// As a server's run ends.
    Served(Status),
    /// The second index file leaves its form, first at this line.
    NextFile { line: u64 },
    /// Under the second file's definitions the commit with this number has a put with more than 20,000 index rows: so many has the first
    /// such put, or 2^63 - 1 where it has more. No round was run behind the cut.
    TooManyRows { commit: u64, count: u64 },
}

impl CutStatus {
    /// The number with which the program ends: the server's, 8 for the second file, and 9 for too many rows.
    pub fn exit_number(&self) -> u8
        ensures { result ≡ cut_exit_of self.now }
    {
        match self {
            CutStatus::Served(status) => status.exit_number(),
            CutStatus::NextFile { .. } => 8,
            CutStatus::TooManyRows { .. } => 9,
        }
    }
}

/// What a run gives.
#[derive(Drop)]
pub struct CutRun {
    /// How it ended.
    pub status: CutStatus,
    /// How many commits there were behind the last round before the cut; none where there was no cut.
    pub cut: Option<u64>,
    /// The commits. They are there with every status but lack of memory.
    pub journal: Option<Journal>,
    /// The replies' bytes that were not taken; none unless a write failed.
    pub unsent: Unsent,
}

/// The end of a run that ran no round.
pub fn nothing_run(alloc: Global, status: CutStatus) -> CutRun
    ensures status { result.status ≡ status }
    ensures cut { result.cut ≡ None }
    ensures journal { result.journal ≡ Some [] }
    ensures unsent { result.unsent ≡ [] }
{
    CutRun {
        status,
        cut: None,
        journal: Some(Journal::new(alloc)),
        unsent: Unsent::none(alloc),
    }
}
