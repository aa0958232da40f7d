//! Counted steps, for bounds on the work of a call.
ghost use Rattle.std.specs.Prelude.{◌≡◌, ◌+◌, ◌<◌};

use std::marker::Model;
use std::sync::ledger::{Blank, Book, Ledger, Share};

/// How many steps were taken. It takes no bytes and counting costs nothing when the program runs; only `tick` changes
/// it, so a call that is passed `steps` can promise a bound, as `steps.new ≤ steps.old + 1`. One step is one table
/// seek, one closed row passed over, or one entity look-up: whoever does that work ticks.
///
/// A call that counts is generic in the ledger, as `fn seek<L: Ledger>(&self, steps: &mut Steps<L>)`. A caller that
/// counts nothing makes a `Blank::new(1)`, passes it to a function of its own over `L: Ledger` at `L = Brand`, and
/// picks the ledger in the proof of that call: its name is that of the blank, and its parts those of the blank.
#[derive(Drop)]
pub struct Steps<L: Ledger> {
    book: Book<L>,
    share: Share<L>,
}

impl<L: Ledger> Model for Steps<L> {
    ghost use Rattle.std.specs.Prelude.{ℕ, ◌<◌};

    ghost Value = { ℕ };

    ghost view = { λ s. s.book.total };

    ghost invariant = { λ s. 0 < s.share.parts };
}

impl<L: Ledger> Steps<L> {
    /// No step so far, in the ledger that the blank becomes. The blank has a part, as `Blank::new(1)`.
    pub fn new(blank: Blank) -> Steps<L>
        requires name { blank.name ≡ L.name }
        requires parts { blank.parts ≡ L.parts }
        requires some { 0 < blank.parts }
        ensures { result ≡ 0 }
    {
        let (book, share) = blank.open::<L>();
        Steps { book, share }
    }

    /// One step more.
    pub fn tick(&mut self)
        ensures { self.new ≡ self.old + 1 }
    {
        self.book.add(&mut self.share, 1);
    }
}
