//! A seat: a thread's right to draw numbers, and the list type of seats.
ghost use Rattle.std.specs.Prelude.{◌≡◌, ◌++◌, [], ◌∷◌, length, MatchOption, MatchResult, IsTrue, ◌↔◌, Some, None, slice_get};

use crate::rule::Known;
use atomic_table::Seat as TableSeat;
use std::alloc::{AllocFailed, Global};
use std::marker::Model;

/// A thread's right to draw numbers from one word. It takes no bytes: contracts see the word that it belongs to, the
/// numbers that it drew, in that order, and its counter, the last value of the word that it knows.
///
/// A seat may be dropped, but `Word::close` then can't be called any more, since it needs all seats.
#[derive(Drop)]
pub struct Seat {
    pub(crate) inner: TableSeat<(), Known>,
}

impl Model for Seat {
    ghost use Rattle.std.specs.Prelude.{◌≡◌, []};
    ghost use Rattle.ds_draw.specs.Draws.{SeatView};

    ghost Value = { SeatView };

    ghost view = { λ s. record { word = s.inner.table_id; draws = s.inner.me.0.drawn; counter = s.inner.me.0.counter } };

    ghost invariant = { λ s. (s.inner.me.0.parts ≡ 1) × (s.inner.me.1 ≡ []) };
}

/// A list of seats, which contracts see as the list of what they see of each.
#[derive(Drop)]
pub struct Seats {
    items: Vec<Seat>,
}

impl Model for Seats {
    ghost use Rattle.std.specs.Prelude.{List};
    ghost use Rattle.ds_draw.specs.Draws.{SeatView};

    ghost Value = { List SeatView };

    ghost view = { λ s. s.items.items };
}

impl Seats {
    /// An empty list, which takes no memory. It grows by `alloc`.
    pub fn new(alloc: Global) -> Seats
        ensures { result ≡ [] }
    {
        Seats {
            items: Vec::new(alloc),
        }
    }

    /// How many seats there are.
    pub fn len(&self) -> usize
        ensures { result ≡ length self.now }
    {
        self.items.len()
    }

    /// Whether there is no seat.
    pub fn is_empty(&self) -> bool
        ensures { IsTrue result ↔ (self.now ≡ []) }
    {
        self.items.is_empty()
    }

    /// The seat at a place, counted from 0; `None` exactly where `i` isn't below the length.
    pub fn get(&self, i: usize) -> Option<&Seat>
        ensures { MatchOption result (slice_get self.now i ≡ None) (λ s. slice_get self.now i ≡ Some s.now) }
    {
        self.items.get(i)
    }

    /// Puts a seat at the end. `Err` means out of memory: it hands the seat back, and the list is as it was.
    pub fn push(&mut self, item: Seat) -> Result<(), Seat>
        ensures { MatchResult result (λ _. self.new ≡ self.old ++ item ∷ []) (λ s. (s ≡ item) × (self.new ≡ self.old)) }
    {
        match self.items.push(item) {
            Ok(()) => Ok(()),
            Err(AllocFailed { value }) => Err(value),
        }
    }

    /// Takes the last seat out; `None` exactly where there is none. It takes no memory.
    pub fn pop(&mut self) -> Option<Seat>
        ensures { MatchOption result ((self.old ≡ []) × (self.new ≡ [])) (λ s. self.old ≡ self.new ++ s ∷ []) }
    {
        self.items.pop()
    }
}

/// The seats of a vector, in its order. It takes no memory, so a caller can take the room for all seats beforehand.
impl From<Vec<Seat>> for Seats {
    ghost from_gives = { λ items seats. seats ≡ items.items };

    fn from(items: Vec<Seat>) -> Seats {
        Seats { items }
    }
}

/// The vector of the seats, in their order. It takes no memory.
impl From<Seats> for Vec<Seat> {
    ghost from_gives = { λ seats items. items.items ≡ seats };

    fn from(seats: Seats) -> Vec<Seat> {
        let Seats { items } = seats;
        items
    }
}
