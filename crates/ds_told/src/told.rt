//! The numbers that all replies tell: acknowledged commits, drawn and accepted ids, printed counters.
ghost use Rattle.std.specs.Prelude.{◌≡◌, ◌++◌, ◌+◌, ◌≤◌, ◌∷◌, ◌↔◌, [], max, All, IsPermutation, IsTrue, OnOk};
ghost use Rattle.std.specs.List.{range_with_len};
ghost use Rattle.ds_base.specs.Limits.{greatest_id};
ghost use Rattle.ds_model.specs.Legal.{acknowledged_in, last_id, written_commit};
ghost use Rattle.ds_model.specs.Sessions.{next_above};
ghost use Rattle.std.specs.Option.{option_to_list};
ghost use Rattle.ds_told.specs.Told.{AreIssued, CanBeDrawn, EndWithin, above_in, drawn_told, ids_of, printed_in};

use crate::draws::Draws;
use crate::ranges::{are_all, end_of};
use ds_base::{Ident, Key, NoMemory};
use ds_protocol::next_above;
use ds_reply::{Body, WriteAt};
use std::alloc::Global;
use std::marker::Model;

/// What the replies so far told.
#[derive(Drop)]
pub struct Told {
    commits: Vec<u64>,
    drawn: Vec<(u64, u64)>,
    accepted: u64,
    printed: u64,
}

impl Model for Told {
    ghost use Rattle.std.specs.Prelude.{All};
    ghost use Rattle.ds_told.specs.Told.{EndWithin, ToldParts};

    ghost Value = { ToldParts };

    ghost view = { λ t. record { commits = t.commits.items; drawn = t.drawn.items; accepted = t.accepted; printed = t.printed } };

    ghost invariant = { λ t. All EndWithin t.drawn.items };
}

/// Whether the told numbers are those of a legal run; else what is wrong first.
#[derive(Clone, Copy, PartialEq, Eq, Debug)]
pub enum Tally {
    /// They are.
    Whole,
    /// The acknowledged commits aren't those of the journal, each once.
    Commits,
    /// The drawn ids aren't the first ones, each once; or an accepted id or a printed counter is above them.
    Ids,
}

impl Told {
    /// Nothing is told yet. It takes no memory.
    pub fn new(alloc: Global) -> Told
        ensures { result ≡ record { commits = []; drawn = []; accepted = 0; printed = 0 } }
    {
        Told {
            commits: Vec::new(alloc),
            drawn: Vec::new(alloc),
            accepted: 0,
            printed: 0,
        }
    }

    /// Notes what one more reply tells, to a request that draws such ids. A refusal, which means out of memory, may leave a part noted.
    pub fn note(&mut self, draws: Draws, body: &Body) -> Result<(), NoMemory>
        requires { CanBeDrawn draws body.now }
        ensures commits { OnOk result (self.new.commits ≡ self.old.commits ++ acknowledged_in body.now) }
        ensures drawn { OnOk result (ids_of self.new.drawn ≡ ids_of self.old.drawn ++ drawn_told draws body.now) }
        ensures accepted { OnOk result (self.new.accepted ≡ max self.old.accepted (above_in body.now)) }
        ensures printed { OnOk result (self.new.printed ≡ max self.old.printed (printed_in body.now)) }
    {
        self.note_drawn(draws, body)?;
        self.note_told(body)
    }

    /// Notes what a reply tells but for drawn ids.
    fn note_told(&mut self, body: &Body) -> Result<(), NoMemory>
        ensures commits { OnOk result (self.new.commits ≡ self.old.commits ++ acknowledged_in body.now) }
        ensures drawn { self.new.drawn ≡ self.old.drawn }
        ensures accepted { OnOk result (self.new.accepted ≡ max self.old.accepted (above_in body.now)) }
        ensures printed { OnOk result (self.new.printed ≡ max self.old.printed (printed_in body.now)) }
    {
        match body {
            Body::Put { key, at } => self.note_write(key, at),
            Body::Delete { key, at } => self.note_write(key, at),
            Body::Commit { commit } => self.note_commit(*commit),
            Body::IdNotIssued { id: _, next } => {
                self.printed = self.printed.max(*next);
                Ok(())
            }
            Body::IdsExhausted { next } => {
                self.printed = self.printed.max(*next);
                Ok(())
            }
            _ => Ok(()),
        }
    }

    /// Notes an accepted key, and where its write stands.
    fn note_write(&mut self, key: &Key, at: &WriteAt) -> Result<(), NoMemory>
        ensures commits { OnOk result (self.new.commits ≡ self.old.commits ++ written_commit at.now) }
        ensures drawn { self.new.drawn ≡ self.old.drawn }
        ensures accepted { OnOk result (self.new.accepted ≡ max self.old.accepted (next_above key.now.elems)) }
        ensures printed { self.new.printed ≡ self.old.printed }
    {
        self.accepted = self.accepted.max(next_above(key.elems().as_slice()));
        match at {
            WriteAt::Commit(number) => self.note_commit(*number),
            WriteAt::Place(_) => Ok(()),
        }
    }

    fn note_commit(&mut self, number: u64) -> Result<(), NoMemory>
        ensures commits { OnOk result (self.new.commits ≡ self.old.commits ++ number ∷ []) }
        ensures drawn { self.new.drawn ≡ self.old.drawn }
        ensures accepted { self.new.accepted ≡ self.old.accepted }
        ensures printed { self.new.printed ≡ self.old.printed }
    {
        self.commits.push(number)?;
        Ok(())
    }

    /// Notes the drawn ids.
    fn note_drawn(&mut self, draws: Draws, body: &Body) -> Result<(), NoMemory>
        requires { CanBeDrawn draws body.now }
        ensures drawn { OnOk result (ids_of self.new.drawn ≡ ids_of self.old.drawn ++ drawn_told draws body.now) }
        ensures commits { self.new.commits ≡ self.old.commits }
        ensures accepted { self.new.accepted ≡ self.old.accepted }
        ensures printed { self.new.printed ≡ self.old.printed }
    {
        match (draws, body) {
            (Draws::Key, Body::Put { key, at: _ }) => match last_id(key) {
                Some(id) => self.note_range(id, 1),
                None => Ok(()),
            },
            (Draws::Range, Body::AllocateIds { first, count }) => self.note_range(*first, *count),
            _ => Ok(()),
        }
    }

    fn note_range(&mut self, first: u64, count: u64) -> Result<(), NoMemory>
        requires { first + count ≤ greatest_id }
        ensures drawn { OnOk result (ids_of self.new.drawn ≡ ids_of self.old.drawn ++ range_with_len first count) }
        ensures commits { self.new.commits ≡ self.old.commits }
        ensures accepted { self.new.accepted ≡ self.old.accepted }
        ensures printed { self.new.printed ≡ self.old.printed }
    {
        self.drawn.push((first, count))?;
        Ok(())
    }

    /// Whether the told commits are those of a journal of so many, each once, and the ids issued: what is wrong first, if anything is.
    pub fn tally(self, commits: u64) -> Tally
        ensures whole { result ≡ Tally.Whole
            → IsPermutation self.commits (range_with_len 1 commits) × AreIssued self.drawn self.accepted self.printed }
        ensures commits { result ≡ Tally.Commits → IsPermutation self.commits (range_with_len 1 commits) → ⊥ }
        ensures ids { result ≡ Tally.Ids
            → IsPermutation self.commits (range_with_len 1 commits) × (AreIssued self.drawn self.accepted self.printed → ⊥) }
    {
        let Told {
            commits: numbers,
            drawn,
            accepted,
            printed,
        } = self;
        if !are_all(numbers, commits) {
            return Tally::Commits;
        }
        if are_issued(drawn, accepted, printed) {
            Tally::Whole
        } else {
            Tally::Ids
        }
    }
}

/// Whether ranges of ids are all from the first one up to a bound that no accepted id reaches and no printed counter passes.
fn are_issued(drawn: Vec<(u64, u64)>, accepted: u64, printed: u64) -> bool
    requires { All EndWithin drawn.items }
    ensures { IsTrue result ↔ AreIssued drawn.items accepted printed }
{
    match end_of(drawn) {
        Some(end) => accepted <= end && printed <= end,
        None => false,
    }
}

/// The id in which a key ends.
fn last_id(key: &Key) -> Option<u64>
    ensures { option_to_list result ≡ last_id key.now.elems }
{
    match &key.elems().as_slice().last()?.ident {
        Ident::Id(id) => Some(*id),
        Ident::Name(_) => None,
    }
}
