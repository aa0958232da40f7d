//! How room is made for one more version.
ghost use Rattle.std.specs.Prelude.{◌≡◌, ℕ, ◌+◌, ◌<◌, ◌≤◌, true, List, [], ◌∷◌, ◌++◌, length, take, drop, IfOk, OnOk, OnErr};
ghost use Rattle.std.specs.Prelude.{slice_index_or, slice_set};
ghost use Rattle.ds_table.specs.Versions.{RowVersion};
ghost use Rattle.ds_table.specs.Blocks.{joined, IsOrdered, IsSpaced, IsCut};
ghost use Rattle.ds_table.specs.Places.{comes_before, IsPlaced};
ghost use Rattle.std.specs.List.{AllByRecursion as Each};

use crate::block::{Block, MOST_VERSIONS};
use crate::joining::LEAST_OF_TWO;
use crate::places::block_of;
use std::alloc::{AllocError, Global};

/// Where a full block is split if rows come to it in no order.
const HALF: usize = MOST_VERSIONS / 2;

/// The block with room in which a row's place is, behind the versions of the row itself. A full block is split before, and the
/// first block is made. A refusal, which means out of memory, changes nothing.
pub fn block_to_add(alloc: Global, blocks: &mut Vec<Block>, row: &[u8]) -> Result<usize, AllocError>
    requires ordered { IsOrdered (joined blocks.old.items) }
    requires spaced { IsSpaced blocks.old.items }
    requires filled { Each (λ b. 0 < length b) blocks.old.items }
    ensures unchanged { OnErr result (blocks.new.items ≡ blocks.old.items) }
    ensures same { OnOk result (joined blocks.new.items ≡ joined blocks.old.items) }
    ensures spaced { OnOk result (IsSpaced blocks.new.items) }
    ensures within { IfOk result (λ i. i < length blocks.new.items) }
    ensures placed { IfOk result (λ i. IsPlaced (comes_before row.now true) blocks.new.items i) }
    ensures room { IfOk result (λ i. length (slice_index_or blocks.new.items i []) < 256) }
    ensures filled { IfOk result (λ i. (b : List RowVersion) → 0 < length b → Each (λ c. 0 < length c) (slice_set blocks.new.items i b)) }
{
    if blocks.len() == 0 {
        return first_block(alloc, blocks, row);
    }
    let i = block_of(blocks.as_slice(), row, true);
    if blocks[i].len() < MOST_VERSIONS {
        return Ok(i);
    }
    let place = blocks[i].place(row, true);
    let cut = cut_of(blocks.as_slice(), i, place);
    split_block(alloc, blocks, i, cut)?;
    Ok(if place <= cut { i } else { i + 1 })
}

/// Where a full block is split to which a row is added at this place: in the middle, unless rows come there in order. Then it is
/// split there, or as near as may be, so that those which follow come behind the last row of a block, and no row moves for them.
fn cut_of(blocks: &[Block], i: usize, place: usize) -> usize
    requires { i < length blocks.now }
    ensures { IsCut blocks.now i result }
{
    if blocks[i].goes_on_at(place) {
        return place.max(least_cut(blocks, i)).min(most_cut(blocks, i));
    }
    HALF
}

/// How many versions the first part has at least, to have enough together with the block before it.
fn least_cut(blocks: &[Block], i: usize) -> usize
    requires { i < length blocks.now }
    ensures some { 0 < result }
    ensures within { result ≤ 128 }
    ensures enough { (j : ℕ) → i ≡ j + 1 → 128 ≤ length (slice_index_or blocks.now j []) + result }
{
    if i == 0 {
        return 1;
    }
    let len = blocks[i - 1].len();
    if len < LEAST_OF_TWO {
        return LEAST_OF_TWO - len;
    }
    1
}

/// How many versions the first part has at most, so that the second part has enough together with the block behind it.
fn most_cut(blocks: &[Block], i: usize) -> usize
    requires { i < length blocks.now }
    ensures within { 128 ≤ result }
    ensures not_all { result < 256 }
    ensures enough { i + 1 < length blocks.now → 128 + result ≤ 256 + length (slice_index_or blocks.now (i + 1) []) }
{
    if i + 1 >= blocks.len() {
        return MOST_VERSIONS - 1;
    }
    let len = blocks[i + 1].len();
    if len < LEAST_OF_TWO {
        return (HALF + len).min(MOST_VERSIONS - 1);
    }
    MOST_VERSIONS - 1
}

/// Makes the first block.
fn first_block(alloc: Global, blocks: &mut Vec<Block>, row: &[u8]) -> Result<usize, AllocError>
    requires { blocks.old.items ≡ [] }
    ensures unchanged { OnErr result (blocks.new.items ≡ blocks.old.items) }
    ensures made { IfOk result (λ i. (i ≡ 0) × (blocks.new.items ≡ [] ∷ [])) }
    ensures placed { IfOk result (λ i. IsPlaced (comes_before row.now true) blocks.new.items i) }
{
    let block = Block::new(alloc)?;
    blocks.push(block)?;
    Ok(0)
}

/// Splits a full block into two parts. A refusal changes nothing.
fn split_block(
    alloc: Global,
    blocks: &mut Vec<Block>,
    i: usize,
    cut: usize,
) -> Result<(), AllocError>
    requires within { i < length blocks.old.items }
    requires full { 256 ≤ length (slice_index_or blocks.old.items i []) }
    requires cut { cut < 256 }
    ensures unchanged { OnErr result (blocks.new.items ≡ blocks.old.items) }
    ensures parts { OnOk result (blocks.new.items ≡ take i blocks.old.items
        ++ take cut (slice_index_or blocks.old.items i []) ∷ drop cut (slice_index_or blocks.old.items i []) ∷ drop (i + 1)
        blocks.old.items) }
{
    blocks.reserve(1)?;
    let rest = blocks[i].split(alloc, cut)?;
    let _ = blocks.insert(i + 1, rest);
    Ok(())
}
