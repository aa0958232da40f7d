//! Whether a reader of rounds goes on, and why it doesn't.
use ds_io::Failed;
use std::alloc::AllocError;

/// Where a reader of rounds stands.
#[derive(Clone, Copy, Debug, PartialEq, Eq)]
pub enum Stage {
    /// It reads on.
    Reading,
    /// It met the end of its input and has given all lines.
    Ended,
    /// It refused, and refuses from then on.
    Failed,
}

/// Why no round was read.
#[derive(Clone, Copy, Debug, PartialEq, Eq)]
pub enum RoundRefused {
    /// A read of this call failed.
    ReadFault,
    /// So many bytes were taken as are taken of an input, `MAX_INPUT_BYTES` of `ds_base`'s limits, and no whole round is
    /// left of them. The input's end isn't asked for.
    InputLimit,
    /// There was no memory. It comes only while fewer bytes were taken than are taken of an input.
    NoMemory,
}

impl From<Failed> for RoundRefused {
    ghost use Rattle.std.specs.Prelude.{◌≡◌};
    ghost use Rattle.ds_rounds.specs.declared.stage.RoundRefused.TheVariants.{ReadFault};

    ghost from_gives = { λ _ refused. refused ≡ ReadFault };

    fn from(_failed: Failed) -> RoundRefused {
        RoundRefused::ReadFault
    }
}

impl From<AllocError> for RoundRefused {
    ghost use Rattle.std.specs.Prelude.{◌≡◌};
    ghost use Rattle.ds_rounds.specs.declared.stage.RoundRefused.TheVariants.{NoMemory};

    ghost from_gives = { λ _ refused. refused ≡ NoMemory };

    fn from(_refused: AllocError) -> RoundRefused {
        RoundRefused::NoMemory
    }
}
