//! The table of all versions.
ghost use Rattle.std.specs.Prelude.{◌≡◌, ℕ, ◌+◌, ◌/◌, ◌<◌, ◌≤◌, List, [], length, max, IsTrue, IsFalse, OnOk, OnErr, IfSome, slice_get};
ghost use Rattle.std.specs.Prelude.{option_map};
ghost use Rattle.ds_table.specs.Versions.{RowVersion, IsOfBytes, never, has_alive, added, closed, undone, trimmed};
ghost use Rattle.ds_table.specs.Blocks.{Tabled, versions, joined, IsOrdered};
ghost use Rattle.std.specs.List.{AllByRecursion as Each};

use crate::adding::block_to_add;
use crate::block::Block;
use crate::change::Change;
use crate::joining::change_all;
use crate::places::block_of;
use crate::view::TableView;
use ds_base::ByteString;
use std::alloc::{AllocError, Global};
use std::marker::Model;

/// Rows of bytes with lifetimes, in blocks of 1 to 256 versions. A row may live several times, and its lifetimes don't overlap.
/// Contracts see the versions of each block in their order, the floor of the last trim, and which stamps may come.
///
/// A stamp counts what has happened, and so never goes back: each that a call is given isn't below one that was given before,
/// is below 2^64 - 1, and after a trim is above its floor.
#[derive(Drop)]
pub struct Table {
    alloc: Global,
    blocks: Vec<Block>,
    floor: u64,
    last: u64,
    least: u64,
    least_undone: u64,
    count: u64,
    // No version ends before this stamp, so that a trim below it changes nothing.
    due: u64,
}

impl Model for Table {
    ghost use Rattle.ds_table.specs.Blocks.{Tabled, IsTable};

    ghost Value = { Tabled };

    ghost view = { λ t. record {
      blocks = t.blocks.items;
      floor = t.floor;
      last = t.last;
      least = t.least;
      least_undone = t.least_undone;
    } };

    ghost invariant = { λ t. IsTable t.blocks.items t.last t.count t.due };
}

impl Table {
    /// The table without rows. It takes no memory.
    pub fn make(alloc: Global) -> Table
        ensures { result ≡ record { blocks = []; floor = 0; last = 0; least = 0; least_undone = 0 } }
    {
        Table {
            alloc,
            blocks: Vec::new(alloc),
            floor: 0,
            last: 0,
            least: 0,
            least_undone: 0,
            count: 0,
            due: u64::MAX,
        }
    }

    /// The floor of the last trim, 0 before the first one. It takes no memory.
    pub fn floor(&self) -> u64
        ensures { result ≡ self.now.floor }
    {
        self.floor
    }

    /// How many versions are held. It takes no memory.
    pub fn versions(&self) -> u64
        ensures { result ≡ length (versions self.now) }
    {
        self.count
    }

    /// In how many blocks the versions stand: with n versions in n / 64 + 1 at most. It takes no memory.
    pub fn blocks(&self) -> u64
        ensures value { result ≡ length self.now.blocks }
        ensures few { result ≤ length (versions self.now) / 64 + 1 }
    {
        self.blocks.len() as u64
    }

    /// How many versions the block at place `i` has, from 1 to 256; `None` exactly where `i` isn't below the number of blocks. It
    /// takes no memory.
    pub fn block_len(&self, i: u64) -> Option<u64>
        ensures value { result ≡ option_map length (slice_get self.now.blocks i) }
        ensures filled { IfSome result (λ n. 0 < n) }
        ensures within { IfSome result (λ n. n ≤ 256) }
    {
        match self.blocks.as_slice().get(i as usize) {
            Some(block) => Some(block.len() as u64),
            None => None,
        }
    }

    /// The rows as they are seen at the stamp, which isn't below the floor. It takes no memory.
    pub fn view(&self, at: u64) -> TableView<'_>
        requires not_below_the_floor { self.now.floor ≤ at }
        requires a_stamp { at < never }
        ensures { result ≡ record { versions = versions self.now; stamp = at } }
    {
        TableView::new(self, at)
    }

    /// Its blocks, which are in order and have versions each.
    pub(crate) fn as_blocks(&self) -> &[Block]
        ensures value { result.now ≡ self.now.blocks }
        ensures ordered { IsOrdered (joined self.now.blocks) }
        ensures of_bytes { Each IsOfBytes (joined self.now.blocks) }
        ensures filled { Each (λ b. 0 < length b) self.now.blocks }
    {
        self.blocks.as_slice()
    }

    /// Adds a row, which isn't alive, at the stamp: it is seen from there on. A refusal, which means out of memory, changes nothing.
    pub fn add(&mut self, row: &[u8], stamp: u64) -> Result<(), AllocError>
        requires not_alive { IsFalse (has_alive row.now (versions self.old)) }
        requires not_before { self.old.last ≤ stamp }
        requires above_the_floor { self.old.least ≤ stamp }
        requires a_stamp { stamp < never }
        ensures added { OnOk result (versions self.new ≡ added row.now stamp (versions self.old)) }
        ensures last { OnOk result (self.new.last ≡ stamp) }
        ensures same_floor { self.new.floor ≡ self.old.floor }
        ensures same_least { self.new.least ≡ self.old.least }
        ensures same_least_undone { self.new.least_undone ≡ self.old.least_undone }
        ensures unchanged { OnErr result (self.new ≡ self.old) }
    {
        if self.count == u64::MAX {
            return Err(AllocError);
        }
        let copy = ByteString::of(self.alloc, row)?;
        let i = block_to_add(self.alloc, &mut self.blocks, row)?;
        let place = self.blocks[i].place(row, true);
        self.blocks[i].insert(place, copy, stamp);
        self.last = stamp;
        self.count += 1;
        Ok(())
    }

    /// Closes the life of a row, which is alive, at the stamp: it isn't seen there any more. It takes no memory.
    pub fn close(&mut self, row: &[u8], stamp: u64)
        requires alive { IsTrue (has_alive row.now (versions self.old)) }
        requires not_before { self.old.last ≤ stamp }
        requires above_the_floor { self.old.least ≤ stamp }
        requires a_stamp { stamp < never }
        ensures closed { versions self.new ≡ closed row.now stamp (versions self.old) }
        ensures last { self.new.last ≡ stamp }
        ensures same_floor { self.new.floor ≡ self.old.floor }
        ensures same_least { self.new.least ≡ self.old.least }
        ensures same_least_undone { self.new.least_undone ≡ self.old.least_undone }
    {
        let i = block_of(self.blocks.as_slice(), row, true);
        let place = self.blocks[i].place(row, true);
        self.blocks[i].close(place - 1, stamp);
        self.last = stamp;
        self.due = self.due.min(stamp);
    }

    /// Undoes the calls at the stamp: each version that was added there goes, and each other one that was closed there is open
    /// again. The stamp is above each one that was given before the last trim. It takes no memory.
    pub fn undo(&mut self, stamp: u64)
        requires not_before { self.old.last ≤ stamp }
        requires above_the_floor { self.old.least ≤ stamp }
        requires above_those_before_the_trim { self.old.least_undone ≤ stamp }
        requires a_stamp { stamp < never }
        ensures undone { versions self.new ≡ undone stamp (versions self.old) }
        ensures last { self.new.last ≡ stamp }
        ensures same_floor { self.new.floor ≡ self.old.floor }
        ensures same_least { self.new.least ≡ self.old.least }
        ensures same_least_undone { self.new.least_undone ≡ self.old.least_undone }
    {
        self.count = change_all(&mut self.blocks, Change::Undo(stamp)).count;
        self.last = stamp;
    }

    /// Takes out each version that was closed at or before the floor, which isn't below the last one, and keeps all others. No
    /// view is below the floor from now on, and each stamp given is above it. It takes no memory. Where none goes it takes
    /// no time; else it asks of each block when the first of its versions ends, and looks at the versions of those blocks alone of which
    /// one goes.
    pub fn trim(&mut self, floor: u64)
        requires not_below_the_last { self.old.floor ≤ floor }
        requires a_stamp { floor < never }
        ensures trimmed { versions self.new ≡ trimmed floor (versions self.old) }
        ensures floor { self.new.floor ≡ floor }
        ensures same_last { self.new.last ≡ self.old.last }
        ensures least { self.new.least ≡ floor + 1 }
        ensures least_undone { self.new.least_undone ≡ max floor self.old.last + 1 }
    {
        self.take_out(floor);
        self.floor = floor;
        self.least = floor + 1;
        self.least_undone = floor.max(self.last) + 1;
    }

    /// Takes out each version that was closed at or before the floor. Where none is due it takes no time.
    fn take_out(&mut self, floor: u64)
        requires a_stamp { floor < never }
        ensures trimmed { versions self.new ≡ trimmed floor (versions self.old) }
        ensures same_floor { self.new.floor ≡ self.old.floor }
        ensures same_last { self.new.last ≡ self.old.last }
    {
        if floor < self.due {
            return;
        }
        let left = change_all(&mut self.blocks, Change::Trim(floor));
        self.count = left.count;
        self.due = left.due;
    }
}
