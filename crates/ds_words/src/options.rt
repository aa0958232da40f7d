//! What the words of the command line say.

use ds_base::TextString;

/// What the server is started with.
#[derive(Drop)]
pub struct Options {
    /// The name of the index file, where there is one.
    pub indexes: Option<TextString>,
    /// How many shards there are, 1 to `MAX_SHARDS` of `ds_base`'s limits; 4 if no word says it.
    pub shards: u32,
    /// How many background appliers there are, at most `MAX_APPLIERS`; 2 if no word says it.
    pub appliers: u32,
    /// How many entries' versions a shard keeps, 1 to `MAX_WINDOW`, which it is if no word says it.
    pub window: u64,
}

/// Why the words were not read.
#[derive(Clone, Copy, Debug, PartialEq, Eq)]
pub enum WordsRefused {
    /// They leave their form.
    Usage,
    /// There was no memory for the name of the index file.
    NoMemory,
}

impl From<std::alloc::AllocError> for WordsRefused {
    ghost use Rattle.std.specs.Prelude.{◌≡◌};
    ghost use Rattle.ds_words.specs.declared.options.WordsRefused.TheVariants.{NoMemory};

    ghost from_gives = { λ _ refused. refused ≡ NoMemory };

    fn from(_refused: std::alloc::AllocError) -> WordsRefused {
        WordsRefused::NoMemory
    }
}
