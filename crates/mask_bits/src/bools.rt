//! Truth values packed into words.

ghost use Rattle.std.specs.Prelude.{◌≡◌, ◌*◌, ◌<◌, ◌≤◌, ℕ, false, length, nat_eq, slice_index_or};
ghost use Rattle.mask_bits.specs.Buffer.{backing_bit};
ghost use Rattle.mask_bits.specs.Words.{word_bits, started_words};

use crate::words::set_word;
use std::simd::prelude::*;

/// Writes truth values to the front of `bytes`, which is room of whole words, a word at a time. The bits
/// past them have no meaning.
// rust: level
pub fn put_bools(bytes: &mut [u8], bools: &[bool])
    requires { 8 * started_words (length bools.now) ≤ length bytes.old }
    ensures { (i : ℕ) → i < length bools.now
        → backing_bit bytes.new i ≡ slice_index_or bools.now i false }
{
    let whole = bools.len() / 64;
    for i in 0..whole {
        set_word(bytes, i, word_of_bools(&bools[64 * i..64 * i + 64]));
    }
    if 64 * whole < bools.len() {
        set_word(bytes, whole, word_of_bools(&bools[64 * whole..]));
    }
}

/// The word of at most 64 values, the first lowest, with zeros past them.
//
// Always inlined: where there are 64, a value is a lane that is copied, and no loop is left.
#[inline(always)]
pub fn word_of_bools(bools: &[bool]) -> u64
    requires { length bools.now ≤ 64 }
    ensures { (j : ℕ) → j < 64
        → slice_index_or (word_bits result) j false ≡ slice_index_or bools.now j false }
{
    let mut lanes = [0u8; 64];
    for j in 0..bools.len() {
        lanes[j] = bools[j] as u8;
    }
    word_of_lanes(&lanes)
}

// The word whose bit `j` is set exactly where lane `j` is 1.
#[inline(always)]
pub(crate) fn word_of_lanes(lanes: &[u8; 64]) -> u64
    ensures { (j : ℕ) → j < 64
        → slice_index_or (word_bits result) j false ≡ nat_eq (slice_index_or lanes.now j 0) 1 }
{
    u8x64::from_slice(lanes)
        .simd_eq(u8x64::splat(1))
        .to_bitmask()
}

// The same of 32 lanes, with zeros past them.
#[inline(always)]
pub(crate) fn word_of_half_lanes(lanes: &[u8; 32]) -> u64
    ensures { (j : ℕ) → j < 64
        → slice_index_or (word_bits result) j false ≡ nat_eq (slice_index_or lanes.now j 0) 1 }
{
    u8x32::from_slice(lanes)
        .simd_eq(u8x32::splat(1))
        .to_bitmask()
}

// The same of sixteen.
#[inline(always)]
pub(crate) fn word_of_sixteen_lanes(lanes: &[u8; 16]) -> u64
    ensures { (j : ℕ) → j < 64
        → slice_index_or (word_bits result) j false ≡ nat_eq (slice_index_or lanes.now j 0) 1 }
{
    u8x16::from_slice(lanes)
        .simd_eq(u8x16::splat(1))
        .to_bitmask()
}
