//! A history of entries that stands in contracts alone, and marks of its beginnings.
ghost use Rattle.std.specs.Prelude.{◌≡◌, [], Some, IfSome, IsTrue};
ghost use Rattle.ds_workers.specs.Marks.{last_of};

use crate::rule::{Append, CountsEntries, NoGain};
use logbook::{Offer, Seen, Start, Word};
use std::marker::Model;

/// A beginning of a history. It holds how many entries there are, and nothing of them. Contracts see which history it is, and that
/// beginning.
#[derive(Drop)]
pub struct Mark<E> {
    count: u64,
    seen: Seen<E, u64, CountsEntries>,
}

impl<E> Model for Mark<E> {
    ghost use Rattle.std.specs.Prelude.{◌≡◌, length};
    ghost use Rattle.ds_workers.specs.Marks.{Marked};

    ghost Value = { Marked E };

    ghost view = { λ m. record { history = m.seen.book; entries = m.seen.log } };

    ghost invariant = { λ m. m.count ≡ length m.seen.log };
}

/// A history, and the mark of all of it. Contracts see what its mark tells.
#[derive(Drop)]
pub struct History<E> {
    word: Word<E, u64, CountsEntries>,
    all: Mark<E>,
}

impl<E> Model for History<E> {
    ghost use Rattle.std.specs.Prelude.{◌≡◌};
    ghost use Rattle.ds_workers.specs.Marks.{Marked, word_of};

    ghost Value = { Marked E };

    ghost view = { λ h. h.all };

    ghost invariant = { λ h. h.word ≡ word_of h.all.history };
}

impl<E> History<E> {
    /// A new history, with nothing in it. It takes no memory.
    pub fn new() -> History<E>
        ensures { result.entries ≡ [] }
    {
        let (seen, mut first, _second) = Seen::open(Start::alone(), 0, 0);
        History {
            word: Word::tracked(0, &mut first),
            all: Mark { count: 0, seen },
        }
    }

    /// Puts an entry behind the history, and gives the mark of all of it then. There is none once it has 2^62 entries.
    pub(crate) fn append(&mut self, entry: &E) -> Option<Mark<E>>
        ensures history { self.new.history ≡ self.old.history }
        ensures mark { IfSome result (λ m. (m.history ≡ self.old.history) × (last_of m.entries ≡ Some entry.now)) }
    {
        let Mark { count, mut seen } = self.all.duplicate();
        if count >= MOST_ENTRIES {
            return None;
        }
        let mut offer: Offer<E, u64, CountsEntries, NoGain> = seen.plain::<NoGain, E, Append>(
            entry,
        );
        let mut pen = seen.no_pen();
        let found = self
            .word
            .compare_exchange::<Append, NoGain>(count, count + 1, &mut seen, &mut offer, &mut pen);
        // Nobody else has the word: it is found as it was left.
        if found != count {
            return None;
        }
        let all = Mark {
            count: count + 1,
            seen,
        };
        self.all = all.duplicate();
        Some(all)
    }
}

/// A history has no more entries.
const MOST_ENTRIES: u64 = 1 << 62;

impl<E> Mark<E> {
    /// A copy. It takes no memory.
    pub(crate) fn duplicate(&self) -> Mark<E>
        ensures { result ≡ self.now }
    {
        Mark {
            count: self.count,
            seen: self.seen.again(),
        }
    }

    /// Whether two marks of one history are of the same entries.
    pub(crate) fn is_same(&self, other: &Mark<E>) -> bool
        requires { other.now.history ≡ self.now.history }
        ensures { IsTrue result → self.now ≡ other.now }
    {
        let mut both = self.seen.again();
        both.learn(&other.seen);
        self.count == other.count
    }
}
