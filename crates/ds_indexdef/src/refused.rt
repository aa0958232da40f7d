//! Why an index file is refused.
use std::alloc::AllocError;

/// Why the text of an index file was not read.
#[derive(Clone, Copy, Debug, PartialEq, Eq)]
pub enum YamlRefused {
    /// This line, counted from 1, is the first with which no index file begins; or it is the last of an entry that would be the
    /// 201st definition. A text that ends too early has one line more than there are.
    Line(u64),
    /// There was no memory for the definitions.
    NoMemory,
}

impl From<AllocError> for YamlRefused {
    ghost use Rattle.std.specs.Prelude.{◌≡◌};
    ghost use Rattle.ds_indexdef.specs.declared.refused.YamlRefused.TheVariants.{NoMemory};

    ghost from_gives = { λ _ refused. refused ≡ NoMemory };

    fn from(_refused: AllocError) -> YamlRefused {
        YamlRefused::NoMemory
    }
}
