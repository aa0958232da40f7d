//! The rule of a word, as the crate `atomic_table` asks for it: what a seat knows, and what each kind of step does to
//! that. The five kinds are make, draw, look, split and join; a make is `Table::of_words` with `Start`.
use atomic_table::{Join, Play, Split, TableRule};
use std::collections::LinkedList;

/// What a word is told once, when it is made: the number that it begins at, and how many seats it has.
#[derive(Clone, Copy)]
pub struct Start {
    pub first: u64,
    pub seats: u64,
}

/// What a seat knows: how many of the word's seats it stands for, its draws, and the last value of the word that it
/// saw. It exists in proofs alone, and no value of it is made.
pub struct Known {
    pub parts: u64,
    pub drawn: LinkedList<u64>,
    pub counter: u64,
}

/// The rule that the draws are the numbers below the word, each once.
pub struct EachOnce;

impl TableRule<(), Known, Start> for EachOnce {
    ghost use Rattle.ds_draw.specs.Rule.{IsKept, opens};

    ghost holds = { IsKept };

    ghost first = { opens };
}

/// A load of the word: the seat's counter rises to what it finds.
pub struct Look;

impl Play<(), Known> for Look {
    ghost use Rattle.ds_draw.specs.Rule.{Looks};

    ghost then = { Looks };
}

/// An exchange of the word: the seat draws where it finds the expected number, and else looks.
pub struct Draw;

impl Play<(), Known> for Draw {
    ghost use Rattle.ds_draw.specs.Rule.{Draws};

    ghost then = { Draws };
}

/// A new seat, with one of the parts of the seat that it is split from, and no draws.
pub struct OnePart;

impl Split<Known> for OnePart {
    ghost use Rattle.ds_draw.specs.Rule.{split_left, split_right};

    ghost left = { split_left };

    ghost right = { split_right };
}

/// Two seats in one.
pub struct BothSeats;

impl Join<Known> for BothSeats {
    ghost use Rattle.ds_draw.specs.Rule.{joined, spent_seat};

    ghost both = { joined };

    ghost spent = { spent_seat };
}
