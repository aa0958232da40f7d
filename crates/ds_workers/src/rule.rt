//! The rule of a history: its one word counts the entries.

use logbook::{Gain, Plain, Play, Rule};

/// The rule that the word of a history keeps.
pub struct CountsEntries;

impl<E> Rule<E, u64> for CountsEntries {
    ghost use Rattle.std.specs.Prelude.{[]};
    ghost use base.Fml.{ftrue};
    ghost use Rattle.ds_workers.specs.Marks.{IsCounted};

    ghost holds = { λ cells log. IsCounted cells log };

    ghost first = { [] };

    ghost hinted = { λ n log. Unit {0} };

    ghost shows = { λ log. [] };

    ghost keeps = { λ names log. ftrue };

    ghost moves = { λ ask before after answer. Unit {0} };
}

/// Nothing is traded for a step on a history.
pub struct NoGain;

impl<E> Gain<E, u64> for NoGain {
    ghost use base.Fml.{ftrue};

    ghost after = { λ names about answer. ftrue };
}

/// The step that puts an entry behind a history.
pub struct Append;

impl<E> Play<E, u64> for Append {
    ghost use Rattle.ds_workers.specs.Marks.{Appended};

    ghost then = { Appended };
}

impl<E> Plain<E, E, u64> for Append {
    ghost use Rattle.std.specs.Prelude.{None};

    ghost ask = { λ entry. entry };

    ghost state = { λ entry. None };
}
