//! A table as it is seen at one stamp.
ghost use Rattle.std.specs.Prelude.{◌≡◌, ℕ, ◌+◌, ◌<◌, ◌≤◌, suc, true, false, length, take, find, option_copied, IsTrue, IsSorted};
ghost use Rattle.std.specs.List.Sorted.{IsStrictlySortedBy};
ghost use Rattle.ds_base.specs.KeyOrder.{bytes_cmp};
ghost use Rattle.ds_table.specs.Versions.{RowVersion, IsOfBytes, in_range, is_before, seen_rows, unseen_rows, unseen_before};
ghost use Rattle.ds_table.specs.Versions.{versions_within};
ghost use Rattle.ds_table.specs.Blocks.{joined, IsOrdered};
ghost use Rattle.ds_table.specs.Places.{comes_before};
ghost use Rattle.ds_table.specs.Seen.{Seen};
ghost use Rattle.std.specs.List.{AllByRecursion as Each};

use crate::block::Block;
use crate::places::block_near;
use crate::table::Table;
use ds_io::Steps;
use std::marker::Model;
use std::sync::ledger::Ledger;

/// The rows of a table as they are seen at a stamp. Contracts see the versions of the table, and the stamp.
#[derive(Drop)]
pub struct TableView<'a> {
    table: &'a Table,
    at: u64,
}

impl<'a> Model for TableView<'a> {
    ghost use Rattle.ds_table.specs.Blocks.{versions};
    ghost use Rattle.ds_table.specs.Seen.{Seen};

    ghost Value = { Seen };

    ghost view = { λ v. record { versions = versions v.table.now; stamp = v.at } };
}

impl<'a> TableView<'a> {
    ghost use Rattle.ds_table.specs.Blocks.{versions};

    pub(crate) fn new(table: &'a Table, at: u64) -> TableView<'a>
        ensures { result ≡ record { versions = versions table.now; stamp = at } }
    {
        TableView { table, at }
    }

    /// The least row that is seen, isn't below `at_least` and, where it is given, is below `below`; `None` exactly where there is
    /// none. It takes no memory. It takes one step, and one more for each version of that range that isn't seen and that
    /// stands before the one found, or in the whole range where none is.
    ///
    /// The rows seen ascend, and those of the versions that aren't seen don't fall. All are bytes, and the versions stand in order.
    pub fn seek<L: Ledger>(
        &self,
        at_least: &[u8],
        below: Option<&[u8]>,
        steps: &mut Steps<L>,
    ) -> Option<&'a [u8]>
        ensures least { option_copied result ≡ find (in_range at_least.now (option_copied below.entry))
            (seen_rows self.now.stamp self.now.versions) }
        ensures steps { steps.new ≡ steps.old + 1 + unseen_before self.now.stamp (versions_within at_least.now (option_copied below.entry)
            self.now.versions) }
        ensures rows_ascend { IsStrictlySortedBy bytes_cmp (seen_rows self.now.stamp self.now.versions) }
        ensures passed_do_not_fall { IsSorted bytes_cmp (unseen_rows self.now.stamp self.now.versions) }
        ensures in_order { IsOrdered self.now.versions }
        ensures of_bytes { Each IsOfBytes self.now.versions }
    {
        let mut near = 0;
        self.seek_near(at_least, below, &mut near, steps)
    }

    /// The same, with a hint: `near` is where the last seek began, at first 0, and each value of it gives the same answer with
    /// the same steps. It looks from there on in steps that double, which is quick where seeks go on in order, and leaves there
    /// where it began.
    pub fn seek_near<L: Ledger>(
        &self,
        at_least: &[u8],
        below: Option<&[u8]>,
        near: &mut u64,
        steps: &mut Steps<L>,
    ) -> Option<&'a [u8]>
        ensures least { option_copied result ≡ find (in_range at_least.now (option_copied below.entry))
            (seen_rows self.now.stamp self.now.versions) }
        ensures steps { steps.new ≡ steps.old + 1 + unseen_before self.now.stamp (versions_within at_least.now (option_copied below.entry)
            self.now.versions) }
        ensures rows_ascend { IsStrictlySortedBy bytes_cmp (seen_rows self.now.stamp self.now.versions) }
        ensures passed_do_not_fall { IsSorted bytes_cmp (unseen_rows self.now.stamp self.now.versions) }
        ensures in_order { IsOrdered self.now.versions }
        ensures of_bytes { Each IsOfBytes self.now.versions }
    {
        let table = self.table;
        let start = block_near(table.as_blocks(), at_least, *near as usize);
        *near = start as u64;
        seek_from(table.as_blocks(), start, at_least, below, self.at, steps)
    }
}

/// Looks for the row in this block and those behind it; all rows before this block are below `at_least`.
fn seek_from<'b, L: Ledger>(
    blocks: &'b [Block],
    start: usize,
    at_least: &[u8],
    below: Option<&[u8]>,
    at: u64,
    steps: &mut Steps<L>,
) -> Option<&'b [u8]>
    requires ordered { IsOrdered (joined blocks.now) }
    requires filled { Each (λ b. 0 < length b) blocks.now }
    requires start { Each (λ v. comes_before at_least.now false v ≡ true) (joined (take start blocks.now)) }
    ensures least { option_copied result ≡ find (in_range at_least.now (option_copied below.entry)) (seen_rows at (joined blocks.now)) }
    ensures steps { steps.new ≡ steps.old + 1 + unseen_before at (versions_within at_least.now (option_copied below.entry)
        (joined blocks.now)) }
{
    steps.tick();
    for i in start..blocks.len() {
        let block = &blocks[i];
        if !is_below_bound(block.row(0), below) {
            return None;
        }
        let found = block.look(at_least, below, at);
        tick_times(steps, found.passed);
        if let Some(place) = found.place {
            return Some(block.row(place));
        }
    }
    None
}

fn is_below_bound(row: &[u8], below: Option<&[u8]>) -> bool
    ensures { result ≡ is_before (option_copied below.entry) row.now }
{
    match below {
        Some(bound) => row.cmp(bound).is_lt(),
        None => true,
    }
}

fn tick_times<L: Ledger>(steps: &mut Steps<L>, times: usize)
    ensures { steps.new ≡ steps.old + times }
{
    for _i in 0..times {
        steps.tick();
    }
}
