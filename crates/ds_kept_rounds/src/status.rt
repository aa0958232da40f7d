//! How a run over a kept journal ends.
ghost use Rattle.std.specs.Prelude.{◌≡◌};
ghost use Rattle.ds_kept_rounds.specs.KeptEnds.{kept_exit_of};

use ds_words::Status;

/// How a run over a kept journal ended.
#[derive(Clone, Copy, Debug, PartialEq, Eq)]
pub enum KeptStatus {
    /// It ended as a run without a kept journal ends.
    Served(Status),
    /// A call of the disk failed.
    DiskFault,
    /// The file is damaged, first by the batch whose gate is at this place, in bytes from 0. It is as it was.
    Damaged { at: u64 },
    /// A kept put has above 20,000 rows under the index file: the first of the journal that has, with its commit's number and its rows.
    TooManyRows { commit: u64, count: u64 },
}

impl KeptStatus {
    /// The number with which the program ends, 0 exactly for `Served(Done)`.
    pub fn exit_number(&self) -> u8
        ensures { result ≡ kept_exit_of self.now }
    {
        match self {
            KeptStatus::Served(status) => status.exit_number(),
            KeptStatus::DiskFault => 8,
            KeptStatus::Damaged { at: _ } => 9,
            KeptStatus::TooManyRows {
                commit: _,
                count: _,
            } => 10,
        }
    }
}
