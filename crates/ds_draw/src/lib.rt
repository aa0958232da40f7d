//! Numbers that clients draw, each once and none left out: ids of entities and numbers of commits.
//!
//! A `Word` is a number that only rises. A client draws from it with a `Seat` of its own, by one atomic exchange that
//! moves the word from the first drawn number to the one behind the last. Contracts see the numbers that a seat drew,
//! and its counter, the last value of the word that it knows. Once all seats are back, `Word::close` says that their
//! draws are all numbers from the first one below the word, each once. That holds whatever the threads did: it is
//! a rule over the word and all seats, which every atomic step keeps.
//!
//! The crate stands on `atomic_table`, which has the atomic steps, and no caller needs to name it. Begin with
//! `specs/Draws.antt`, what contracts see, and the calls in `word.rt`; the rule is in `specs/Rule.antt`.
#![tactic(auto)]

ghost use Rattle.std.specs.Prelude.{◌≡◌, ◌^◌, ◌<◌, IfOk, replicate};
ghost use Rattle.ds_draw.specs.Draws.{new_seat};

mod rule;
mod seat;
mod word;

use crate::rule::{EachOnce, OnePart, Start};
use atomic_table::Table;
pub use seat::{Seat, Seats};
use std::alloc::{AllocError, Global};
pub use word::Word;

/// What `make` gives: a word, and all its seats.
#[derive(Drop)]
pub struct Drawn {
    pub word: Word,
    pub seats: Seats,
}

/// A word that stands at `first`, with so many seats, which have drawn nothing. `Err` means out of memory.
pub fn make(alloc: Global, first: u64, seats: u32) -> Result<Drawn, AllocError>
    requires seats { 0 < seats }
    requires first { first < 2 ^ 63 }
    ensures word { IfOk result (λ d. (d.word.first ≡ first) × (d.word.seats ≡ seats)) }
    ensures seats { IfOk result (λ d. d.seats ≡ replicate seats (new_seat d.word.name first)) }
{
    let start = Start {
        first,
        seats: u64::from(seats),
    };
    let (table, mut giver) = Table::<(), _, Start, EachOnce, Global>::of_words(
        alloc,
        &[first],
        &start,
    )?;
    let mut all = Seats::new(alloc);
    for _ in 1..seats {
        let inner = table.shared.split_seat::<OnePart>(&mut giver);
        all.push(Seat { inner }).map_err(|_| AllocError)?;
    }
    all.push(Seat { inner: giver }).map_err(|_| AllocError)?;
    Ok(Drawn {
        word: Word { table },
        seats: all,
    })
}
