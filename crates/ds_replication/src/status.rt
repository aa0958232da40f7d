//! How a run ends.
ghost use Rattle.std.specs.Prelude.{◌≡◌};
ghost use Rattle.ds_replication.specs.Exits.{exit_of};

use ds_base::NoMemory;

/// How a run ends.
#[derive(Clone, Copy, PartialEq, Eq, Debug)]
pub enum ReplicaStatus {
    /// All events happened, and what is held is printed.
    Done,
    /// The words aren't one digit from 1 to 9.
    Usage,
    /// The script leaves its form at this line, or its event can't happen.
    Script {
        /// Counted from 1.
        line: u64,
    },
    /// The input couldn't be read.
    ReadFault,
    /// The output couldn't be written.
    WriteFault,
    /// There was no memory.
    NoMemory,
    /// 67,108,864 bytes were taken.
    InputLimit,
}

impl ReplicaStatus {
    /// The program's exit status.
    pub fn exit_number(&self) -> u8
        ensures { result ≡ exit_of self.now }
    {
        match self {
            ReplicaStatus::Done => 0,
            ReplicaStatus::Usage => 1,
            ReplicaStatus::Script { line: _ } => 2,
            ReplicaStatus::ReadFault => 3,
            ReplicaStatus::WriteFault => 4,
            ReplicaStatus::NoMemory => 6,
            ReplicaStatus::InputLimit => 7,
        }
    }
}

impl From<NoMemory> for ReplicaStatus {
    ghost use Rattle.std.specs.Prelude.{◌≡◌};
    ghost use Rattle.ds_replication.specs.declared.status.ReplicaStatus.{ReplicaStatus};
    ghost use Rattle.ds_replication.specs.declared.status.ReplicaStatus.TheVariants.{NoMemory};

    ghost from_gives = { λ _ status. status ≡ NoMemory };

    /// Want of memory.
    fn from(_error: NoMemory) -> ReplicaStatus {
        ReplicaStatus::NoMemory
    }
}
