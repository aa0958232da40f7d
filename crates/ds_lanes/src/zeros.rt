//! The search for a zero byte.
ghost use Rattle.std.specs.Prelude.{◌≡◌, ◌≢◌, ◌+◌, ◌<◌, ◌≤◌, length, take, slice_index, All, IsTrue};
ghost use Rattle.ds_lanes.specs.Kernels.{first_zero};
ghost use Rattle.ds_lanes.specs.Hits.{NoneIn, IsFirstHit, zero_at};

use crate::masks::lanes_before;
use std::simd::prelude::*;

/// How many bytes a vector holds.
const LANES: usize = 32;

/// How many bytes are tested at once while no hit is met.
const BLOCK: usize = 128;

/// Gives the place of the first zero byte, or the length where no byte is zero.
pub fn first_zero(bytes: &[u8]) -> usize
    ensures value { result ≡ first_zero bytes.now }
    ensures within { result ≤ length bytes.now }
    ensures before { All (λ b. b ≢ 0) (take result bytes.now) }
    ensures here { result < length bytes.now → slice_index bytes.now result ≡ 0 }
{
    zero_place(bytes)
}

/// Chooses by the length: vectors that cover it, of which the last may overlap the one before it, or a plain loop.
#[inline(always)]
fn zero_place(bytes: &[u8]) -> usize
    ensures { IsFirstHit (zero_at bytes.now) 0 (length bytes.now) result }
{
    if bytes.len() >= LANES {
        zero_in_many(bytes)
    } else if bytes.len() >= 16 {
        zero_in_16_to_32(bytes)
    } else if bytes.len() >= 8 {
        zero_in_8_to_16(bytes)
    } else {
        zero_in_few(bytes)
    }
}

/// Passes blocks and then vectors that have no zero byte; the last vector ends where the bytes do.
#[inline(always)]
fn zero_in_many(bytes: &[u8]) -> usize
    requires { LANES ≤ length bytes.now }
    ensures { IsFirstHit (zero_at bytes.now) 0 (length bytes.now) result }
{
    let last = bytes.len() - LANES;
    let mut at = pass_nonzero_blocks(bytes);
    while at < last {
        let place = zero_among_32(bytes, at);
        if place < at + LANES {
            return place;
        }
        at += LANES;
    }
    zero_among_32(bytes, last)
}

/// Two vectors of 16, the second of which ends where the bytes do.
#[inline(always)]
fn zero_in_16_to_32(bytes: &[u8]) -> usize
    requires least { 16 ≤ length bytes.now }
    requires most { length bytes.now ≤ 32 }
    ensures { IsFirstHit (zero_at bytes.now) 0 (length bytes.now) result }
{
    let place = zero_among_16(bytes, 0);
    if place < 16 {
        return place;
    }
    zero_among_16(bytes, bytes.len() - 16)
}

/// Two vectors of 8, the second of which ends where the bytes do.
#[inline(always)]
fn zero_in_8_to_16(bytes: &[u8]) -> usize
    requires least { 8 ≤ length bytes.now }
    requires most { length bytes.now ≤ 16 }
    ensures { IsFirstHit (zero_at bytes.now) 0 (length bytes.now) result }
{
    let place = zero_among_8(bytes, 0);
    if place < 8 {
        return place;
    }
    zero_among_8(bytes, bytes.len() - 8)
}

/// A plain loop.
#[inline(always)]
fn zero_in_few(bytes: &[u8]) -> usize
    ensures { IsFirstHit (zero_at bytes.now) 0 (length bytes.now) result }
{
    for i in 0..bytes.len() {
        if bytes[i] == 0 {
            return i;
        }
    }
    bytes.len()
}

/// Passes whole blocks that have no zero byte.
#[inline(always)]
fn pass_nonzero_blocks(bytes: &[u8]) -> usize
    ensures within { result ≤ length bytes.now }
    ensures passed { NoneIn (zero_at bytes.now) 0 result }
{
    let mut at = 0;
    while bytes.len() - at >= BLOCK && lacks_zero(bytes, at) {
        at += BLOCK;
    }
    at
}

/// The place of the first zero byte among the 32 at `at`, or that after them.
#[inline(always)]
fn zero_among_32(bytes: &[u8], at: usize) -> usize
    requires { at + 32 ≤ length bytes.now }
    ensures { IsFirstHit (zero_at bytes.now) at (at + 32) result }
{
    let zeros = u8x32::from_slice(&bytes[at..]).simd_eq(u8x32::splat(0));
    at + lanes_before(zeros.to_bitmask(), 32)
}

/// The place of the first zero byte among the 16 at `at`, or that after them.
#[inline(always)]
fn zero_among_16(bytes: &[u8], at: usize) -> usize
    requires { at + 16 ≤ length bytes.now }
    ensures { IsFirstHit (zero_at bytes.now) at (at + 16) result }
{
    let zeros = u8x16::from_slice(&bytes[at..]).simd_eq(u8x16::splat(0));
    at + lanes_before(zeros.to_bitmask(), 16)
}

/// The place of the first zero byte among the 8 at `at`, or that after them.
#[inline(always)]
fn zero_among_8(bytes: &[u8], at: usize) -> usize
    requires { at + 8 ≤ length bytes.now }
    ensures { IsFirstHit (zero_at bytes.now) at (at + 8) result }
{
    let zeros = u8x8::from_slice(&bytes[at..]).simd_eq(u8x8::splat(0));
    at + lanes_before(zeros.to_bitmask(), 8)
}

/// Whether it is certain that no byte of the block at `at` is zero.
#[inline(always)]
fn lacks_zero(bytes: &[u8], at: usize) -> bool
    requires { at + BLOCK ≤ length bytes.now }
    ensures { IsTrue result → NoneIn (zero_at bytes.now) at (at + BLOCK) }
{
    let zero = u8x32::splat(0);
    let first = u8x32::from_slice(&bytes[at..]).simd_eq(zero);
    let second = u8x32::from_slice(&bytes[at + LANES..]).simd_eq(zero);
    let third = u8x32::from_slice(&bytes[at + 2 * LANES..]).simd_eq(zero);
    let fourth = u8x32::from_slice(&bytes[at + 3 * LANES..]).simd_eq(zero);
    ((first | second) | (third | fourth)).to_bitmask() == 0
}
