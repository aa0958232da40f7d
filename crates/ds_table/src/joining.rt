//! How all versions are changed, and small blocks joined, so that there are few.
ghost use Rattle.std.specs.Prelude.{◌≡◌, ℕ, ◌+◌, ◌^◌, ◌<◌, ◌≤◌, true, length, slice_index_or, IsTrue, IsFalse, List, []};
ghost use Rattle.ds_table.specs.Versions.{RowVersion, never};
ghost use Rattle.ds_table.specs.Changes.{changed};
ghost use Rattle.ds_table.specs.Blocks.{EndFrom, joined, IsSpaced, IsFit};
ghost use Rattle.std.specs.List.{AllByRecursion as Each};

use crate::block::{Block, MOST_VERSIONS};
use crate::change::Change;

/// How many versions two blocks side by side have together at least.
pub const LEAST_OF_TWO: usize = MOST_VERSIONS / 2;

/// What blocks have together.
#[derive(Drop)]
pub struct Counted {
    /// How many versions.
    pub count: u64,
    /// A stamp before which none of them ends.
    pub due: u64,
}

/// Changes all versions, and joins blocks where some have become small. One pass changes and counts, so that a trim looks once at
/// each block of which nothing goes.
pub fn change_all(blocks: &mut Vec<Block>, change: Change) -> Counted
    requires few { length (joined blocks.old.items) < 2 ^ 64 }
    requires spaced { IsSpaced blocks.old.items }
    requires filled { Each (λ b. 0 < length b) blocks.old.items }
    ensures changed { joined blocks.new.items ≡ changed change (joined blocks.old.items) }
    ensures spaced { IsSpaced blocks.new.items }
    ensures filled { Each (λ b. 0 < length b) blocks.new.items }
    ensures count { result.count ≡ length (joined blocks.new.items) }
    ensures due { EndFrom result.due (joined blocks.new.items) }
    ensures within { result.due ≤ never }
{
    let passed = change_each(blocks, change);
    let counted = Counted {
        count: passed.count,
        due: passed.due,
    };
    if passed.apart {
        return counted;
    }
    join_small(blocks);
    counted
}

/// What a pass over blocks finds.
#[derive(Drop)]
struct Passed {
    /// How many versions they have.
    count: u64,
    /// A stamp before which none of these ends.
    due: u64,
    /// Whether no block became too small to stand beside those around it.
    apart: bool,
}

fn change_each(blocks: &mut Vec<Block>, change: Change) -> Passed
    requires few { length (joined blocks.old.items) < 2 ^ 64 }
    requires spaced { IsSpaced blocks.old.items }
    requires filled { Each (λ b. 0 < length b) blocks.old.items }
    ensures changed { joined blocks.new.items ≡ changed change (joined blocks.old.items) }
    ensures spaced { IsTrue result.apart → IsSpaced blocks.new.items }
    ensures filled { IsTrue result.apart → Each (λ b. 0 < length b) blocks.new.items }
    ensures count { result.count ≡ length (joined blocks.new.items) }
    ensures due { EndFrom result.due (joined blocks.new.items) }
    ensures within { result.due ≤ never }
{
    let mut count = 0;
    let mut due = u64::MAX;
    let mut apart = true;
    for i in 0..blocks.len() {
        let was = blocks[i].len();
        let own = change_block(&mut blocks[i], change);
        let stays = stays_apart(blocks.as_slice(), i, was);
        apart = both(apart, stays);
        count += own.count;
        due = due.min(own.due);
    }
    Passed { count, due, apart }
}

fn both(first: bool, second: bool) -> bool
    ensures first { IsTrue result → first ≡ true }
    ensures second { IsTrue result → second ≡ true }
{
    first && second
}

/// Whether a block that had so many versions may still stand beside the blocks around it.
fn stays_apart(blocks: &[Block], i: usize, was: usize) -> bool
    requires { i < length blocks.now }
    ensures { IsTrue result → IsFit was blocks.now i }
{
    let len = blocks[i].len();
    if len >= was {
        return true;
    }
    if len == 0 {
        return false;
    }
    if fits_before(blocks, i, len) {
        return fits_behind(blocks, i, MOST_VERSIONS - len);
    }
    false
}

/// Whether a block of so many versions has enough beside the block before it.
fn fits_before(blocks: &[Block], i: usize, len: usize) -> bool
    requires block { i < length blocks.now }
    requires within { len ≤ 256 }
    ensures { IsTrue result → (j : ℕ) → i ≡ j + 1 → 128 ≤ length (slice_index_or blocks.now j []) + len }
{
    if i == 0 {
        return true;
    }
    let before = blocks[i - 1].len();
    if before + len < LEAST_OF_TWO {
        return false;
    }
    true
}

/// Whether a block of 256 versions without so many has enough beside the block behind it.
fn fits_behind(blocks: &[Block], i: usize, cut: usize) -> bool
    requires block { i < length blocks.now }
    requires not_all { cut < 256 }
    ensures { IsTrue result → i + 1 < length blocks.now → 128 + cut ≤ 256 + length (slice_index_or blocks.now (i + 1) []) }
{
    if i + 1 >= blocks.len() {
        return true;
    }
    let len = blocks[i + 1].len();
    if MOST_VERSIONS - cut + len < LEAST_OF_TWO {
        return false;
    }
    true
}

/// Changes the versions of one block.
fn change_block(block: &mut Block, change: Change) -> Counted
    ensures changed { block.new ≡ changed change block.old }
    ensures count { result.count ≡ length block.new }
    ensures due { EndFrom result.due block.new }
{
    block.change(change);
    Counted {
        count: block.len() as u64,
        due: block.due(),
    }
}

/// Joins blocks, each with the one behind it, until each two of them have 128 versions together; a block without versions
/// goes. Each join moves the list of blocks, as the split did that made one of the two.
pub fn join_small(blocks: &mut Vec<Block>)
    ensures same { joined blocks.new.items ≡ joined blocks.old.items }
    ensures spaced { IsSpaced blocks.new.items }
    ensures filled { Each (λ b. 0 < length b) blocks.new.items }
{
    let mut i = 1;
    while i < blocks.len() {
        if are_apart(blocks[i - 1].len(), blocks[i].len()) {
            i += 1;
        } else {
            let next = blocks.remove(i);
            blocks[i - 1].append(next);
        }
    }
    drop_empty(blocks);
}

/// Takes the only block out if it has no version.
fn drop_empty(blocks: &mut Vec<Block>)
    requires { IsSpaced blocks.old.items }
    ensures same { joined blocks.new.items ≡ joined blocks.old.items }
    ensures spaced { IsSpaced blocks.new.items }
    ensures filled { Each (λ b. 0 < length b) blocks.new.items }
{
    if blocks.len() == 1 && blocks[0].len() == 0 {
        blocks.clear();
    }
}

/// Whether two blocks of so many versions may stand side by side.
fn are_apart(len: usize, next_len: usize) -> bool
    requires first { len ≤ 256 }
    requires second { next_len ≤ 256 }
    ensures apart { IsTrue result → (0 < len) × (0 < next_len) × (128 ≤ len + next_len) }
    ensures fit { IsFalse result → len + next_len ≤ 256 }
{
    len > 0 && next_len > 0 && len + next_len >= LEAST_OF_TWO
}
