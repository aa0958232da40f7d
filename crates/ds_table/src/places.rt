//! Places of rows in the order, found by halving.
ghost use Rattle.std.specs.Prelude.{◌≡◌, ℕ, ◌+◌, ◌<◌, ◌≤◌, Bool, true, false, List, [], length, take, drop, slice_index_or, IsTrue};
ghost use Rattle.std.specs.Prelude.{IsFalse};
ghost use Rattle.ds_table.specs.Versions.{RowVersion, is_below};
ghost use Rattle.ds_table.specs.Blocks.{IsOrdered, joined};
ghost use Rattle.ds_table.specs.Places.{comes_before, row_before, IsBegun, IsPlaced};
ghost use Rattle.std.specs.List.{AllByRecursion as Each};

use crate::block::Block;
use ds_lanes::common_prefix;

/// Whether a row comes before another one, or is the same where `same_too`.
pub fn is_before_row(row: &[u8], other: &[u8], same_too: bool) -> bool
    ensures { result ≡ row_before other.now same_too row.now }
{
    if same_too {
        !is_below(other, row)
    } else {
        is_below(row, other)
    }
}

/// Whether a row is below another one. Vectors find where the two begin to differ, since rows of one index begin alike.
fn is_below(row: &[u8], other: &[u8]) -> bool
    ensures { result ≡ is_below row.now other.now }
{
    let alike = common_prefix(row, other);
    if alike >= other.len() {
        return false;
    }
    if alike >= row.len() {
        return true;
    }
    row[alike] < other[alike]
}

/// The block in which a row's place is: the last one whose first row comes before it, or isn't above it where `same_too`; the
/// first block where there is no such one.
pub fn block_of(blocks: &[Block], row: &[u8], same_too: bool) -> usize
    requires ordered { IsOrdered (joined blocks.now) }
    requires filled { Each (λ b. 0 < length b) blocks.now }
    ensures { IsPlaced (comes_before row.now same_too) blocks.now result }
{
    let begun = blocks_begun(blocks, row, same_too);
    if begun == 0 { 0 } else { begun - 1 }
}

/// How many blocks have a first row that comes before this one, or isn't above it where `same_too`.
fn blocks_begun(blocks: &[Block], row: &[u8], same_too: bool) -> usize
    requires ordered { IsOrdered (joined blocks.now) }
    requires filled { Each (λ b. 0 < length b) blocks.now }
    ensures { IsBegun (comes_before row.now same_too) blocks.now result }
{
    let mut low = 0;
    let mut high = blocks.len();
    while low < high {
        let middle = low + (high - low) / 2;
        if is_before_row(blocks[middle].row(0), row, same_too) {
            low = middle + 1;
        } else {
            high = middle;
        }
    }
    low
}

/// Whether this block is there and its first row is below this one. If so, all rows before the block are, too; if not, none of
/// the block and those behind it is.
fn is_begun(blocks: &[Block], i: usize, row: &[u8]) -> bool
    requires ordered { IsOrdered (joined blocks.now) }
    requires filled { Each (λ b. 0 < length b) blocks.now }
    ensures within { IsTrue result → i < length blocks.now }
    ensures before { IsTrue result → Each (λ v. comes_before row.now false v ≡ true) (joined (take i blocks.now)) }
    ensures begun { IsTrue result → (d : RowVersion) → comes_before row.now false (slice_index_or (slice_index_or blocks.now i []) 0 d)
        ≡ true }
    ensures after { IsFalse result → Each (λ v. comes_before row.now false v ≡ false) (joined (drop i blocks.now)) }
{
    if i < blocks.len() {
        return is_before_row(blocks[i].row(0), row, false);
    }
    false
}

/// The block in which a row's place is, as `block_of` gives it. If the first row of the hint is below, it is looked for from
/// there on, in steps that double, and then by halving.
pub fn block_near(blocks: &[Block], row: &[u8], near: usize) -> usize
    requires ordered { IsOrdered (joined blocks.now) }
    requires filled { Each (λ b. 0 < length b) blocks.now }
    ensures { IsPlaced (comes_before row.now false) blocks.now result }
{
    if !is_begun(blocks, near, row) {
        return block_of(blocks, row, false);
    }
    gallop(blocks, row, near)
}

/// Looks for a row's place from this block on, whose first row is below, in steps that double.
fn gallop(blocks: &[Block], row: &[u8], near: usize) -> usize
    requires ordered { IsOrdered (joined blocks.now) }
    requires filled { Each (λ b. 0 < length b) blocks.now }
    requires within { near < length blocks.now }
    requires before { Each (λ v. comes_before row.now false v ≡ true) (joined (take near blocks.now)) }
    requires begun { (d : RowVersion) → comes_before row.now false (slice_index_or (slice_index_or blocks.now near []) 0 d) ≡ true }
    ensures { IsPlaced (comes_before row.now false) blocks.now result }
{
    let mut low = near;
    while low - near + 1 < blocks.len() - low {
        let next = low + (low - near) + 1;
        if !is_begun(blocks, next, row) {
            return last_begun(blocks, row, low, next);
        }
        low = next;
    }
    last_begun(blocks, row, low, blocks.len())
}

/// The last of the blocks from `low` on and before `high` whose first row is below this one. That of `low` is, and behind `high`
/// none is.
fn last_begun(blocks: &[Block], row: &[u8], low: usize, high: usize) -> usize
    requires ordered { IsOrdered (joined blocks.now) }
    requires filled { Each (λ b. 0 < length b) blocks.now }
    requires some { low < high }
    requires within { high ≤ length blocks.now }
    requires before { Each (λ v. comes_before row.now false v ≡ true) (joined (take low blocks.now)) }
    requires begun { (d : RowVersion) → comes_before row.now false (slice_index_or (slice_index_or blocks.now low []) 0 d) ≡ true }
    requires after { Each (λ v. comes_before row.now false v ≡ false) (joined (drop high blocks.now)) }
    ensures { IsPlaced (comes_before row.now false) blocks.now result }
{
    let mut low = low;
    let mut high = high;
    while high - low > 1 {
        let middle = low + (high - low) / 2;
        if is_begun(blocks, middle, row) {
            low = middle;
        } else {
            high = middle;
        }
    }
    low
}
