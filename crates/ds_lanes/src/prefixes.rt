//! The prefix that two slices have in common.
ghost use Rattle.std.specs.Prelude.{◌≡◌, ◌≢◌, ◌+◌, ◌<◌, ◌≤◌, length, take, slice_index, IsTrue};
ghost use Rattle.ds_lanes.specs.Kernels.{common_prefix};
ghost use Rattle.ds_lanes.specs.Hits.{NoneIn, IsFirstHit, differ_at};

use crate::masks::lanes_before;
use std::simd::prelude::*;

/// How many bytes a vector holds.
const LANES: usize = 32;

/// How many bytes are tested at once while no hit is met.
const BLOCK: usize = 128;

/// Gives the length of the longest prefix that both have.
pub fn common_prefix(a: &[u8], b: &[u8]) -> usize
    ensures value { result ≡ common_prefix a.now b.now }
    ensures within_a { result ≤ length a.now }
    ensures within_b { result ≤ length b.now }
    ensures same { take result a.now ≡ take result b.now }
    ensures differ { result < length a.now → result < length b.now → slice_index a.now result ≢ slice_index b.now result }
{
    if a.len() <= b.len() {
        difference_place(a, b, a.len())
    } else {
        difference_place(a, b, b.len())
    }
}

/// The first of `len` places at which they differ, or `len`. Chooses by it: vectors that cover so many bytes, of which the
/// last may overlap the one before it, or a plain loop.
#[inline(always)]
fn difference_place(a: &[u8], b: &[u8], len: usize) -> usize
    requires within_a { len ≤ length a.now }
    requires within_b { len ≤ length b.now }
    ensures { IsFirstHit (differ_at a.now b.now) 0 len result }
{
    if len >= LANES {
        difference_in_many(a, b, len)
    } else if len >= 16 {
        difference_in_16_to_32(a, b, len)
    } else if len >= 8 {
        difference_in_8_to_16(a, b, len)
    } else {
        difference_in_few(a, b, len)
    }
}

/// Passes blocks and then vectors that are equal; the last vector ends at `len`.
#[inline(always)]
fn difference_in_many(a: &[u8], b: &[u8], len: usize) -> usize
    requires least { LANES ≤ len }
    requires within_a { len ≤ length a.now }
    requires within_b { len ≤ length b.now }
    ensures { IsFirstHit (differ_at a.now b.now) 0 len result }
{
    let last = len - LANES;
    let mut at = pass_equal_blocks(a, b, len);
    while at < last {
        let place = difference_among_32(a, b, at);
        if place < at + LANES {
            return place;
        }
        at += LANES;
    }
    difference_among_32(a, b, last)
}

/// Two vectors of 16 bytes of each, the second of which ends at `len`.
#[inline(always)]
fn difference_in_16_to_32(a: &[u8], b: &[u8], len: usize) -> usize
    requires least { 16 ≤ len }
    requires most { len ≤ 32 }
    requires within_a { len ≤ length a.now }
    requires within_b { len ≤ length b.now }
    ensures { IsFirstHit (differ_at a.now b.now) 0 len result }
{
    let place = difference_among_16(a, b, 0);
    if place < 16 {
        return place;
    }
    difference_among_16(a, b, len - 16)
}

/// Two vectors of 8 bytes of each, the second of which ends at `len`.
#[inline(always)]
fn difference_in_8_to_16(a: &[u8], b: &[u8], len: usize) -> usize
    requires least { 8 ≤ len }
    requires most { len ≤ 16 }
    requires within_a { len ≤ length a.now }
    requires within_b { len ≤ length b.now }
    ensures { IsFirstHit (differ_at a.now b.now) 0 len result }
{
    let place = difference_among_8(a, b, 0);
    if place < 8 {
        return place;
    }
    difference_among_8(a, b, len - 8)
}

/// A plain loop.
#[inline(always)]
fn difference_in_few(a: &[u8], b: &[u8], len: usize) -> usize
    requires within_a { len ≤ length a.now }
    requires within_b { len ≤ length b.now }
    ensures { IsFirstHit (differ_at a.now b.now) 0 len result }
{
    for i in 0..len {
        if a[i] != b[i] {
            return i;
        }
    }
    len
}

/// Passes whole blocks that are equal.
#[inline(always)]
fn pass_equal_blocks(a: &[u8], b: &[u8], len: usize) -> usize
    requires within_a { len ≤ length a.now }
    requires within_b { len ≤ length b.now }
    ensures within { result ≤ len }
    ensures passed { NoneIn (differ_at a.now b.now) 0 result }
{
    let mut at = 0;
    while len - at >= BLOCK && are_equal(a, b, at) {
        at += BLOCK;
    }
    at
}

/// The first place at which the vectors of 32 bytes at `at` differ, or that after them.
#[inline(always)]
fn difference_among_32(a: &[u8], b: &[u8], at: usize) -> usize
    requires within_a { at + 32 ≤ length a.now }
    requires within_b { at + 32 ≤ length b.now }
    ensures { IsFirstHit (differ_at a.now b.now) at (at + 32) result }
{
    let differing = u8x32::from_slice(&a[at..]).simd_ne(u8x32::from_slice(&b[at..]));
    at + lanes_before(differing.to_bitmask(), 32)
}

/// The first place at which the vectors of 16 bytes at `at` differ, or that after them.
#[inline(always)]
fn difference_among_16(a: &[u8], b: &[u8], at: usize) -> usize
    requires within_a { at + 16 ≤ length a.now }
    requires within_b { at + 16 ≤ length b.now }
    ensures { IsFirstHit (differ_at a.now b.now) at (at + 16) result }
{
    let differing = u8x16::from_slice(&a[at..]).simd_ne(u8x16::from_slice(&b[at..]));
    at + lanes_before(differing.to_bitmask(), 16)
}

/// The first place at which the vectors of 8 bytes at `at` differ, or that after them.
#[inline(always)]
fn difference_among_8(a: &[u8], b: &[u8], at: usize) -> usize
    requires within_a { at + 8 ≤ length a.now }
    requires within_b { at + 8 ≤ length b.now }
    ensures { IsFirstHit (differ_at a.now b.now) at (at + 8) result }
{
    let differing = u8x8::from_slice(&a[at..]).simd_ne(u8x8::from_slice(&b[at..]));
    at + lanes_before(differing.to_bitmask(), 8)
}

/// Whether it is certain that the blocks at `at` are equal.
#[inline(always)]
fn are_equal(a: &[u8], b: &[u8], at: usize) -> bool
    requires within_a { at + BLOCK ≤ length a.now }
    requires within_b { at + BLOCK ≤ length b.now }
    ensures { IsTrue result → NoneIn (differ_at a.now b.now) at (at + BLOCK) }
{
    let i = at + LANES;
    let j = at + 2 * LANES;
    let k = at + 3 * LANES;
    let first = u8x32::from_slice(&a[at..]).simd_ne(u8x32::from_slice(&b[at..]));
    let second = u8x32::from_slice(&a[i..]).simd_ne(u8x32::from_slice(&b[i..]));
    let third = u8x32::from_slice(&a[j..]).simd_ne(u8x32::from_slice(&b[j..]));
    let fourth = u8x32::from_slice(&a[k..]).simd_ne(u8x32::from_slice(&b[k..]));
    ((first | second) | (third | fourth)).to_bitmask() == 0
}
