//! The search of two columns of stamps, from which and until before which each entry is seen.
ghost use Rattle.std.specs.Prelude.{◌≡◌, ℕ, ◌+◌, ◌<◌, ◌≤◌, if◌then◌else◌, nat_le, length, slice_index, IsTrue};
ghost use Rattle.ds_lanes.specs.Kernels.{first_visible, is_visible};
ghost use Rattle.ds_lanes.specs.Hits.{NoneIn, IsFirstHit, visible_at};

use crate::masks::lanes_before;
use std::simd::prelude::*;

/// How many stamps a vector holds.
const LANES: usize = 4;

/// How many entries are tested at once while none is seen.
const BLOCK: usize = 16;

/// How many entries are looked at one by one before any vector is loaded: the newest stamp mostly finds its entry there.
const NEAR: usize = 32;

/// Gives the place of the first entry that is seen at the stamp `at`, or the length where none is.
/// Entry i is seen from the stamp `from[i]` on until before the stamp `to[i]`.
pub fn first_visible(from: &[u64], to: &[u64], at: u64) -> usize
    requires { length from.now ≡ length to.now }
    ensures value { result ≡ first_visible from.now to.now at }
    ensures within { result ≤ length from.now }
    ensures before { (k : ℕ) → k < result → slice_index from.now k ≤ at → slice_index to.now k ≤ at }
    ensures begun { result < length from.now → slice_index from.now result ≤ at }
    ensures not_ended { result < length from.now → at < slice_index to.now result }
{
    seen_place(from, to, at)
}

/// Looks at the near entries, and then at the rest if there is one.
#[inline(always)]
fn seen_place(from: &[u64], to: &[u64], at: u64) -> usize
    requires { length from.now ≡ length to.now }
    ensures { IsFirstHit (visible_at from.now to.now at) 0 (length from.now) result }
{
    let near = from.len().min(NEAR);
    let place = seen_near(from, to, at, near);
    if place < near || from.len() == near {
        return place;
    }
    seen_far(from, to, at)
}

/// A plain loop over the first `len` entries.
#[inline(always)]
fn seen_near(from: &[u64], to: &[u64], at: u64, len: usize) -> usize
    requires equal { length from.now ≡ length to.now }
    requires within { len ≤ length from.now }
    ensures { IsFirstHit (visible_at from.now to.now at) 0 len result }
{
    for i in 0..len {
        if is_seen(from[i], to[i], at) {
            return i;
        }
    }
    len
}

/// Whether an entry that holds from the stamp `from` until before `to` is seen at `at`.
#[inline(always)]
fn is_seen(from: u64, to: u64, at: u64) -> bool
    ensures { result ≡ is_visible from to at }
{
    from <= at && at < to
}

/// Passes blocks and then vectors in which no entry is seen; the last vector ends where the entries do. It is a call of its
/// own, so that the near entries are looked at in a short loop.
#[inline(never)]
fn seen_far(from: &[u64], to: &[u64], at: u64) -> usize
    requires equal { length from.now ≡ length to.now }
    requires more { NEAR < length from.now }
    requires passed { NoneIn (visible_at from.now to.now at) 0 NEAR }
    ensures { IsFirstHit (visible_at from.now to.now at) 0 (length from.now) result }
{
    let last = from.len() - LANES;
    let mut i = pass_unseen_blocks(from, to, at);
    while i < last {
        let place = seen_among_lanes(from, to, at, i);
        if place < i + LANES {
            return place;
        }
        i += LANES;
    }
    seen_among_lanes(from, to, at, last)
}

/// Passes whole blocks, after the near entries, in which no entry is seen.
#[inline(always)]
fn pass_unseen_blocks(from: &[u64], to: &[u64], at: u64) -> usize
    requires equal { length from.now ≡ length to.now }
    requires more { NEAR < length from.now }
    requires passed { NoneIn (visible_at from.now to.now at) 0 NEAR }
    ensures within { result ≤ length from.now }
    ensures passed { NoneIn (visible_at from.now to.now at) 0 result }
{
    let mut i = NEAR;
    while from.len() - i >= BLOCK && are_unseen(from, to, at, i) {
        i += BLOCK;
    }
    i
}

/// The place of the first entry that is seen among those of the vectors at `i`, or that after them.
#[inline(always)]
fn seen_among_lanes(from: &[u64], to: &[u64], at: u64, i: usize) -> usize
    requires equal { length from.now ≡ length to.now }
    requires room { i + LANES ≤ length from.now }
    ensures { IsFirstHit (visible_at from.now to.now at) i (i + LANES) result }
{
    let seen = begun_ends(from, to, at, i).simd_gt(u64x4::splat(at));
    i + lanes_before(seen.to_bitmask(), LANES)
}

/// Whether it is certain that no entry of the block at `i` is seen.
#[inline(always)]
fn are_unseen(from: &[u64], to: &[u64], at: u64, i: usize) -> bool
    requires equal { length from.now ≡ length to.now }
    requires room { i + BLOCK ≤ length from.now }
    ensures { IsTrue result → NoneIn (visible_at from.now to.now at) i (i + BLOCK) }
{
    let stamp = u64x4::splat(at);
    let first = begun_ends(from, to, at, i).simd_gt(stamp);
    let second = begun_ends(from, to, at, i + LANES).simd_gt(stamp);
    let third = begun_ends(from, to, at, i + 2 * LANES).simd_gt(stamp);
    let fourth = begun_ends(from, to, at, i + 3 * LANES).simd_gt(stamp);
    ((first | second) | (third | fourth)).to_bitmask() == 0
}

/// The ends of the entries of the vectors at `i` that began by `at`, and 0 for each that did not.
#[inline(always)]
fn begun_ends(from: &[u64], to: &[u64], at: u64, i: usize) -> u64x4
    requires equal { length from.now ≡ length to.now }
    requires room { i + LANES ≤ length from.now }
    ensures long { length result ≡ LANES }
    ensures each { (k : ℕ) → k < LANES
        → slice_index result k ≡ (if nat_le (slice_index from.now (i + k)) at then slice_index to.now (i + k) else 0) }
{
    u64x4::from_slice(&from[i..])
        .simd_le(u64x4::splat(at))
        .select(u64x4::from_slice(&to[i..]), u64x4::splat(0))
}
