//! The bytes of a slice turned round, so that their order is reversed.
ghost use Rattle.std.specs.Prelude.{◌≡◌, ℕ, ◌+◌, ◌-◌, ◌<◌, ◌≤◌, length, slice_index};
ghost use Rattle.ds_lanes.specs.Kernels.{complement};

use std::simd::prelude::*;

/// How many bytes a vector holds.
const LANES: usize = 32;

/// Leaves each byte of `dst` as 255 minus that of `src`, so that a greater byte comes out as a lesser.
pub fn complement(dst: &mut [u8], src: &[u8])
    requires { length dst.old ≡ length src.now }
    ensures { dst.new ≡ complement src.now }
{
    if src.len() >= LANES {
        turn_many(dst, src);
    } else if src.len() >= 16 {
        turn_16(dst, src, 0);
        turn_16(dst, src, src.len() - 16);
    } else if src.len() >= 8 {
        turn_8(dst, src, 0);
        turn_8(dst, src, src.len() - 8);
    } else {
        for i in 0..src.len() {
            dst[i] = 255 - src[i];
        }
    }
}

/// Turns whole vectors, and then, where bytes are left, the vector that ends with them.
#[inline(always)]
fn turn_many(dst: &mut [u8], src: &[u8])
    requires same { length dst.old ≡ length src.now }
    requires least { LANES ≤ length src.now }
    ensures { (k : ℕ) → k < length src.now → slice_index dst.new k ≡ 255 - slice_index src.now k }
{
    for chunk in 0..src.len() / LANES {
        let at = chunk * LANES;
        store(complement_at(src, at), dst, at);
    }
    if src.len() % LANES != 0 {
        let last = src.len() - LANES;
        store(complement_at(src, last), dst, last);
    }
}

/// Turns the 16 bytes at `at`.
#[inline(always)]
fn turn_16(dst: &mut [u8], src: &[u8], at: usize)
    requires room { at + 16 ≤ length src.now }
    requires same { length dst.old ≡ length src.now }
    ensures kept { (k : ℕ) → k < at → slice_index dst.new k ≡ slice_index dst.old k }
    ensures written { (k : ℕ) → at ≤ k → k < at + 16 → slice_index dst.new k ≡ 255 - slice_index src.now k }
{
    let turned = u8x16::splat(255) - u8x16::from_slice(&src[at..]);
    turned.copy_to_slice(&mut dst[at..]);
}

/// Turns the 8 bytes at `at`.
#[inline(always)]
fn turn_8(dst: &mut [u8], src: &[u8], at: usize)
    requires room { at + 8 ≤ length src.now }
    requires same { length dst.old ≡ length src.now }
    ensures kept { (k : ℕ) → k < at → slice_index dst.new k ≡ slice_index dst.old k }
    ensures written { (k : ℕ) → at ≤ k → k < at + 8 → slice_index dst.new k ≡ 255 - slice_index src.now k }
{
    let turned = u8x8::splat(255) - u8x8::from_slice(&src[at..]);
    turned.copy_to_slice(&mut dst[at..]);
}

/// The complements of the vector at `at`.
#[inline(always)]
fn complement_at(src: &[u8], at: usize) -> u8x32
    requires { at + LANES ≤ length src.now }
    ensures long { length result ≡ LANES }
    ensures each { (k : ℕ) → k < LANES → slice_index result k ≡ 255 - slice_index src.now (at + k) }
{
    u8x32::splat(255) - u8x32::from_slice(&src[at..])
}

/// Stores a vector by its halves, the low one first. A processor with vectors of 16 bytes fills long
/// slices faster in ascending order, and one with vectors of 32 makes one store of both.
#[inline(always)]
fn store(lanes: u8x32, dst: &mut [u8], at: usize)
    requires long { length lanes ≡ LANES }
    requires room { at + LANES ≤ length dst.old }
    ensures kept { (k : ℕ) → k < at → slice_index dst.new k ≡ slice_index dst.old k }
    ensures written { (k : ℕ) → k < LANES → slice_index dst.new (at + k) ≡ slice_index lanes k }
{
    lanes.extract::<0, 16>().copy_to_slice(&mut dst[at..]);
    lanes.extract::<16, 16>().copy_to_slice(&mut dst[at + 16..]);
}
