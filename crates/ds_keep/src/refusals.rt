//! Why nothing is opened or appended.
use crate::keeper::Keeper;
use ds_io::Failed;
use std::alloc::AllocError;

/// Why a disk isn't opened.
#[derive(Clone, Copy, PartialEq, Eq, Debug, Drop)]
pub enum KeepRefused {
    /// The file is damaged, and it is as it was. `at` is the place, counted in bytes from 0, of the open gate of the first batch that
    /// passes the end with its next gate, whose body isn't the text of a batch, whose commits don't continue the journal, whose counter
    /// falls or is above 2^63 - 1, or whose counter isn't above each id of 2^52 or more in a written key.
    Damaged { at: u64 },
    /// A call of the disk failed.
    DiskFault,
    /// There was no memory, or the journal has more than 2^48 commits.
    NoMemory,
}

impl From<Failed> for KeepRefused {
    ghost use Rattle.std.specs.Prelude.{◌≡◌};
    ghost use Rattle.ds_keep.specs.declared.refusals.KeepRefused.TheVariants.{DiskFault};

    ghost from_gives = { λ _ refused. refused ≡ DiskFault };

    fn from(_: Failed) -> KeepRefused {
        KeepRefused::DiskFault
    }
}

impl From<AllocError> for KeepRefused {
    ghost use Rattle.std.specs.Prelude.{◌≡◌};
    ghost use Rattle.ds_keep.specs.declared.refusals.KeepRefused.TheVariants.{NoMemory};

    ghost from_gives = { λ _ refused. refused ≡ NoMemory };

    fn from(_: AllocError) -> KeepRefused {
        KeepRefused::NoMemory
    }
}

/// Why the contents of a disk weren't read.
#[derive(Clone, Copy, Drop)]
pub(crate) enum Unread {
    /// A call of the disk failed.
    DiskFault,
    /// There was no memory.
    NoMemory,
}

impl From<Failed> for Unread {
    ghost use Rattle.std.specs.Prelude.{◌≡◌};
    ghost use Rattle.ds_keep.specs.declared.refusals.Unread.TheVariants.{DiskFault};

    ghost from_gives = { λ _ unread. unread ≡ DiskFault };

    fn from(_: Failed) -> Unread {
        Unread::DiskFault
    }
}

impl From<AllocError> for Unread {
    ghost use Rattle.std.specs.Prelude.{◌≡◌};
    ghost use Rattle.ds_keep.specs.declared.refusals.Unread.TheVariants.{NoMemory};

    ghost from_gives = { λ _ unread. unread ≡ NoMemory };

    fn from(_: AllocError) -> Unread {
        Unread::NoMemory
    }
}

/// Why nothing is appended.
#[derive(Drop)]
pub enum Stopped {
    /// A call of the disk failed. The commits may be kept or not, all of them or none; the disk is to be opened again.
    DiskFault,
    /// There was no memory, or the journal would have more than 2^48 commits. The disk wasn't touched, and the keeper is handed back.
    NoMemory(Keeper),
}
