//! A word that only rises, and the calls that look at it and draw numbers from it.
ghost use Rattle.std.specs.Prelude.{◌≡◌, ◌≢◌, ◌+◌, ◌^◌, ◌<◌, ◌≤◌, ◌++◌, length, All, IsTrue, MatchBool};
ghost use Rattle.ds_draw.specs.Draws.{numbers, draws_of, HasEachOnce};

use crate::rule::{BothSeats, Draw, EachOnce, Known, Look, Start};
use crate::seat::{Seat, Seats};
use atomic_table::Table;
use std::alloc::Global;
use std::marker::Model;
use std::sync::Wait;
use std::thread;

/// A word that only rises, shared by threads, from which seats draw numbers.
#[derive(Drop)]
pub struct Word {
    pub(crate) table: Table<(), Known, Start, EachOnce, Global>,
}

impl Model for Word {
    ghost use Rattle.std.specs.Prelude.{◌≡◌, ◌<◌};
    ghost use Rattle.ds_draw.specs.Draws.{WordView};

    ghost Value = { WordView };

    ghost view = { λ w. record { name = w.table.shared.table_id; first = w.table.shared.key.first; seats = w.table.shared.key.seats } };

    ghost invariant = { λ w. (w.table.shared.table_id.words ≡ 1) × (w.table.shared.table_id.slots ≡ 0) × (0 < w.table.shared.key.seats) };
}

impl Word {
    /// Loads the word, by one atomic step: the number that it finds becomes the seat's counter, and isn't below the counter that
    /// the seat had. It doesn't wait, and takes no memory. No clause says that the number is the word's own at that step, since
    /// another thread may raise the word at any time; only a test shows that a look sees what other seats drew.
    pub fn look(&self, seat: &mut Seat) -> u64
        requires { seat.old.word ≡ self.now.name }
        ensures counter { seat.new ≡ record { word = seat.old.word; draws = seat.old.draws; counter = result } }
        ensures risen { seat.old.counter ≤ result }
        ensures limit { result < 2 ^ 63 }
    {
        self.table.shared.load::<Look>(&mut seat.inner, 0)
    }

    /// Draws the numbers from `at` up to but without `at + count`, by one exchange that finds the word at `at` and leaves it at
    /// `at + count`, which is the seat's counter then; before, the counter wasn't above `at`. An exchange that finds another
    /// number is a look, and is tried again after a yield: the call waits until the word comes to stand at `at`, and never returns
    /// where it doesn't. It takes no memory. The clauses say which numbers the seat drew, and not by how many exchanges.
    pub fn draw_at<Rt: Wait>(&self, rt: &Rt, seat: &mut Seat, at: u64, count: u64)
        requires word { seat.old.word ≡ self.now.name }
        requires some { 0 < count }
        requires limit { at + count < 2 ^ 63 }
        ensures drawn { seat.new ≡ record {
          word = seat.old.word;
          draws = seat.old.draws ++ numbers at (at + count);
          counter = at + count;
        } }
        ensures risen { seat.old.counter ≤ at }
    {
        for _ in rt.forever() {
            if self.try_draw(seat, at, count) {
                return;
            }
            thread::yield_now();
        }
        unreachable!()
    }

    // One exchange, and whether it found the word at `at`, so that the seat drew. Else it was a look, and the counter is
    // the other number that it found.
    fn try_draw(&self, seat: &mut Seat, at: u64, count: u64) -> bool
        requires word { seat.old.word ≡ self.now.name }
        requires some { 0 < count }
        requires limit { at + count < 2 ^ 63 }
        ensures word { seat.new.word ≡ seat.old.word }
        ensures draws { MatchBool result (seat.new.draws ≡ seat.old.draws ++ numbers at (at + count))
            ((seat.new.draws ≡ seat.old.draws) × (seat.new.counter ≢ at)) }
        ensures counter { IsTrue result → (seat.new.counter ≡ at + count) × (seat.old.counter ≤ at) }
        ensures risen { seat.old.counter ≤ seat.new.counter }
    {
        let found = self
            .table
            .shared
            .compare_exchange::<Draw>(&mut seat.inner, 0, at, at + count);
        found == at
    }

    /// The word, once no thread uses it any more. It needs all the seats that `make` gave: their draws are the
    /// numbers from the first one below the word, each once. It takes no memory.
    pub fn close(self, mut seats: Seats) -> u64
        requires all { length seats ≡ self.seats }
        requires word { All (λ s. s.word ≡ self.name) seats }
        ensures each_once { HasEachOnce self.first result (draws_of seats) }
        ensures begins { self.first ≤ result }
        ensures limit { result < 2 ^ 63 }
        ensures counters { All (λ s. s.counter ≤ result) seats }
    {
        let Some(last) = seats.pop() else {
            unreachable!()
        };
        let Seat { inner: mut all } = last;
        while let Some(seat) = seats.pop() {
            let Seat { inner } = seat;
            self.table.shared.join_seat::<BothSeats>(&mut all, inner);
        }
        let closed = self.table.close_with(all);
        let word = closed.word(0);
        closed.free();
        word
    }
}
