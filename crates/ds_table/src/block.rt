//! A block of versions, in columns.
ghost use Rattle.std.specs.Prelude.{◌≡◌, ℕ, ◌+◌, ◌<◌, ◌≤◌, Bool, true, false, IsFalse, List, [], ◌++◌, length, take, drop, find, Some};
ghost use Rattle.std.specs.Prelude.{None, option_copied, option_to_list, slice_index_or, slice_set, IfOk, OnErr, MatchOption};
ghost use Rattle.std.specs.List.{insert};
ghost use Rattle.ds_table.specs.Versions.{RowVersion, never, is_before, is_seen, ended_at, unseen_before, versions_within};
ghost use Rattle.ds_table.specs.Blocks.{EndFrom, IsOrdered};
ghost use Rattle.ds_table.specs.Changes.{kept_end, kept, changed};
ghost use Rattle.ds_table.specs.Places.{comes_before, IsPlace};
ghost use Rattle.std.specs.List.{AllByRecursion as Each};

use crate::change::{Change, kept_end};
use crate::rows::{Rows, copy_behind};
use ds_base::ByteString;
use ds_lanes::first_visible;
use std::alloc::{AllocError, Global};
use std::marker::Model;

/// How many versions a block has at most.
pub const MOST_VERSIONS: usize = 256;

/// Some versions in their order: their rows, and two columns of stamps, from which and up to which each is seen. The room for
/// all that it may have is taken when it is made. No version ends before the stamp `due`, so that a trim passes over blocks of
/// which nothing goes.
#[derive(Drop)]
pub struct Block {
    rows: Rows,
    froms: Vec<u64>,
    tos: Vec<u64>,
    due: u64,
    // The place behind the version that was put in last, 0 where that isn't known.
    near: usize,
}

impl Model for Block {
    ghost use Rattle.std.specs.Prelude.{List};
    ghost use Rattle.std.specs.Vec.{vec_capacity};
    ghost use Rattle.ds_table.specs.Versions.{RowVersion};
    ghost use Rattle.ds_table.specs.Blocks.{versions_of, IsBlock};

    ghost Value = { List RowVersion };

    ghost view = { λ b. versions_of b.rows b.froms.items b.tos.items };

    ghost invariant = { λ b. IsBlock b.rows b.froms.items b.tos.items b.due (vec_capacity b.froms) (vec_capacity b.tos) };
}

/// What a seek finds in one block.
#[derive(Drop)]
pub struct Found {
    /// How many versions of the range aren't seen and come before the one found, or before the block's end.
    pub passed: usize,
    /// The place of the first version of the range that is seen.
    pub place: Option<usize>,
}

impl Block {
    /// A block without versions, with room for all that it may have. Refused: lack of memory.
    pub fn new(alloc: Global) -> Result<Block, AllocError>
        ensures { IfOk result (λ b. b ≡ []) }
    {
        let rows = Rows::new(alloc)?;
        let froms = Vec::with_capacity(alloc, MOST_VERSIONS)?;
        let tos = Vec::with_capacity(alloc, MOST_VERSIONS)?;
        Ok(Block {
            rows,
            froms,
            tos,
            due: u64::MAX,
            near: 0,
        })
    }

    /// How many versions it has.
    pub fn len(&self) -> usize
        ensures value { result ≡ length self.now }
        ensures within { result ≤ 256 }
    {
        self.rows.len()
    }

    /// A stamp before which none of its versions ends.
    pub fn due(&self) -> u64
        ensures { EndFrom result self.now }
    {
        self.due
    }

    /// The row of the version at this place.
    pub fn row(&self, i: usize) -> &[u8]
        requires { i < length self.now }
        ensures { (d : RowVersion) → result.now ≡ (slice_index_or self.now i d).row }
    {
        self.rows.row(i)
    }

    /// The place behind all versions that come before the row, or aren't above it where `same_too`.
    pub fn place(&self, row: &[u8], same_too: bool) -> usize
        requires { IsOrdered self.now }
        ensures { IsPlace (comes_before row.now same_too) self.now result }
    {
        self.rows.place(row, same_too)
    }

    /// What a seek finds in it.
    pub fn look(&self, at_least: &[u8], below: Option<&[u8]>, at: u64) -> Found
        requires { IsOrdered self.now }
        ensures passed { result.passed ≡ unseen_before at (versions_within at_least.now (option_copied below.entry) self.now) }
        ensures found { MatchOption result.place
            (find (is_seen at) (versions_within at_least.now (option_copied below.entry) self.now) ≡ None)
            (λ i. (i < length self.now) × ((d : RowVersion) →
            find (is_seen at) (versions_within at_least.now (option_copied below.entry) self.now) ≡ Some (slice_index_or self.now i d))) }
    {
        let low = self.rows.place(at_least, false);
        let high = self.rows.place_of_bound(below);
        if high <= low {
            return Found {
                passed: 0,
                place: None,
            };
        }
        let passed = first_visible(&self.froms[low..high], &self.tos[low..high], at);
        let wide = high - low;
        if passed < wide {
            return Found {
                passed,
                place: Some(low + passed),
            };
        }
        Found {
            passed,
            place: None,
        }
    }

    /// Puts an open version at this place. It takes no memory.
    pub fn insert(&mut self, i: usize, row: ByteString, stamp: u64)
        requires place { i ≤ length self.old }
        requires room { length self.old < 256 }
        ensures { self.new ≡ insert self.old i (record { row = row; from = stamp; to = never }) }
    {
        self.rows.insert(i, row);
        let _ = self.froms.insert(i, stamp);
        let _ = self.tos.insert(i, u64::MAX);
        self.near = i + 1;
    }

    /// Whether a version at this place comes beside the one that was put in last, as where rows come in order. It decides only
    /// where a block is split, so no clause tells it.
    pub fn goes_on_at(&self, place: usize) -> bool {
        place == self.near || place < self.near && self.near - place == 1
    }

    /// Ends the version at this place at the stamp.
    pub fn close(&mut self, i: usize, stamp: u64)
        requires { i < length self.old }
        ensures { (d : RowVersion) → self.new ≡ slice_set self.old i (ended_at stamp (slice_index_or self.old i d)) }
    {
        self.tos[i] = stamp;
        self.due = self.due.min(stamp);
    }

    /// Changes all versions, and takes out those that go. It takes no memory.
    pub fn change(&mut self, change: Change)
        ensures { self.new ≡ changed change self.old }
    {
        if self.may_change(change) {
            self.change_each(change);
            self.find_due();
        }
    }

    /// Whether a version may change or go.
    fn may_change(&self, change: Change) -> bool
        ensures { IsFalse result → changed change self.now ≡ self.now }
    {
        match change {
            Change::Undo(_) => true,
            Change::Trim(floor) => self.due <= floor,
        }
    }

    /// Sets `due` to the least stamp at which a version ends.
    fn find_due(&mut self)
        ensures { self.new ≡ self.old }
    {
        self.due = least(self.tos.as_slice());
    }

    fn change_each(&mut self, change: Change)
        ensures { self.new ≡ changed change self.old }
    {
        let mut i = self.len();
        while i > 0 {
            i -= 1;
            self.change_one(change, i);
        }
    }

    /// Changes the version at this place, or takes it out.
    fn change_one(&mut self, change: Change, i: usize)
        requires { i < length self.old }
        ensures { (d : RowVersion)
            → self.new ≡ take i self.old ++ (option_to_list (kept change (slice_index_or self.old i d)) ++ drop (i + 1) self.old) }
    {
        match self.end_after(change, i) {
            Some(to) => self.close(i, to),
            None => self.take_out(i),
        }
    }

    /// The end that the version at this place has after the change; `None` where it goes.
    fn end_after(&self, change: Change, i: usize) -> Option<u64>
        requires { i < length self.now }
        ensures { (d : RowVersion) → result ≡ kept_end change (slice_index_or self.now i d).from (slice_index_or self.now i d).to }
    {
        kept_end(change, self.froms[i], self.tos[i])
    }

    fn take_out(&mut self, i: usize)
        requires { i < length self.old }
        ensures { self.new ≡ take i self.old ++ drop (i + 1) self.old }
    {
        self.rows.remove(i);
        let _from = self.froms.remove(i);
        let _to = self.tos.remove(i);
    }

    /// Moves the versions from this place on into a block of their own. A refusal, which means out of memory, changes nothing.
    pub fn split(&mut self, alloc: Global, i: usize) -> Result<Block, AllocError>
        requires { i ≤ length self.old }
        ensures parts { IfOk result (λ rest. (self.new ≡ take i self.old) × (rest ≡ drop i self.old)) }
        ensures unchanged { OnErr result (self.new ≡ self.old) }
    {
        let froms = copy_behind(alloc, self.froms.as_slice(), i)?;
        let tos = copy_behind(alloc, self.tos.as_slice(), i)?;
        let rows = self.rows.split(alloc, i)?;
        self.froms.truncate(i);
        self.tos.truncate(i);
        Ok(Block {
            rows,
            froms,
            tos,
            due: self.due,
            near: 0,
        })
    }

    /// Puts the versions of another block behind its own. It takes no memory.
    pub fn append(&mut self, other: Block)
        requires { length self.old + length other ≤ 256 }
        ensures { self.new ≡ self.old ++ other }
    {
        let Block {
            rows,
            mut froms,
            mut tos,
            due,
            near: _,
        } = other;
        self.rows.append(rows);
        let _ = self.froms.append(&mut froms);
        let _ = self.tos.append(&mut tos);
        self.due = self.due.min(due);
    }
}

/// The least of the stamps, 2^64 - 1 where there is none.
fn least(stamps: &[u64]) -> u64
    ensures { Each (λ s. result ≤ s) stamps.now }
{
    let mut least = u64::MAX;
    for stamp in stamps {
        least = least.min(*stamp);
    }
    least
}
