//! The bits of two words at the set places of two masks, in all their sixteen bytes at once, with a lane
//! of a vector for each byte.
//!
//! In each byte the bits first move down to its low end. For each clear place of the mask, the highest
//! first, the bits above it move down by one:
//!
//! ```text
//!        place   7 6 5 4 3 2 1 0
//!         mask   1 . 1 1 . 1 . .
//!       source   a . b c . d . .
//! past place 6   . a b c . d . .
//! past place 3   . . a b c d . .
//! past place 1   . . . a b c d .
//! past place 0   . . . . a b c d
//! ```
//!
//! Then two neighbors are joined to a lane of twice their width: the upper one's bits move down to those
//! of the lower one, of which there are as many as its mask has set places. So a product with two to that
//! count puts them there. Bytes become numbers of 16 bits in this way, and these numbers of 32. The two
//! halves of a word are joined by a shift.

ghost use Rattle.std.specs.Prelude.{ℕ, ◌≡◌, ◌+◌, ◌<◌, ◌*◌, ◌/◌, ◌%◌, ◌^◌, count_ones, length, slice_index};
ghost use Rattle.std.specs.Int.{bit_at};
ghost use Rattle.mask_bits.specs.Extract.{Extracts, gathered, closed_up, two_words};
ghost use Rattle.mask_bits.specs.Lanes.{AreLanes};

use std::simd::prelude::*;

/// The bits of each of two words at the set places of its mask. It takes about as long at any masks.
// Inlined, so that a loop keeps the tables and the words in registers.
#[inline(always)]
pub(super) fn extract_two_by_bytes(sources: u64x2, masks: u64x2) -> [u64; 2]
    ensures first { Extracts (slice_index sources 0) (slice_index masks 0) (slice_index result 0) }
    ensures second { Extracts (slice_index sources 1) (slice_index masks 1) (slice_index result 1) }
{
    let places = masks.to_le_bytes();
    let powers = powers_of(places);
    let bytes = gather_in_bytes(sources.to_le_bytes(), places);
    let pairs = join_bytes(bytes, powers.even);
    let halves = join_pairs(pairs, powers.even, powers.odd);
    join_halves(halves, masks)
}

// In each lane, the bits at the set places of the mask's byte, moved down to its low end.
#[inline(always)]
fn gather_in_bytes(sources: u8x16, masks: u8x16) -> u8x16
    ensures { AreLanes 16 result (λ j. gathered 8 (slice_index sources j) (slice_index masks j)) }
{
    let mut bits = sources & masks;
    for passed in 0..7u8 {
        bits = close_up(bits, masks, 6 - passed);
    }
    bits
}

// In each lane whose mask is clear at the place, the bits above it move down by one: half of them is
// taken away, as a bit is twice the one below.
#[inline(always)]
fn close_up(bits: u8x16, masks: u8x16, place: u8) -> u8x16
    requires place { place < 7 }
    requires free { (j : ℕ) → j < 16 → bit_at (slice_index masks j) place ≡ 0
        → bit_at (slice_index bits j) place ≡ 0 }
    ensures { AreLanes 16 result
        (λ j. closed_up place (slice_index masks j) (slice_index bits j)) }
{
    let here = u8x16::splat(1 << place);
    // no bit where the place is set, and all from it on where it is clear
    let from_here = (masks & here) - here;
    bits - ((bits & from_here) >> u8x16::splat(1))
}

// Two to the count of set places: of the lower byte of each pair, and of the upper one.
#[derive(Clone, Copy)]
struct Powers {
    even: u16x8,
    odd: u16x8,
}

#[inline(always)]
fn powers_of(masks: u8x16) -> Powers
    ensures even { AreLanes 8 result.even (λ j. 2 ^ count_ones (slice_index masks (2 * j))) }
    ensures odd { AreLanes 8 result.odd (λ j. 2 ^ count_ones (slice_index masks (2 * j + 1))) }
{
    let lower = u16x8::from_le_bytes(powers_of_nibbles(masks & u8x16::splat(15)));
    let upper = u16x8::from_le_bytes(powers_of_nibbles(masks >> u8x16::splat(4)));
    Powers {
        even: (lower & u16x8::splat(0xFF)) * (upper & u16x8::splat(0xFF)),
        odd: (lower >> u16x8::splat(8)) * (upper >> u16x8::splat(8)),
    }
}

// Two to the count of set bits of each nibble.
#[inline(always)]
fn powers_of_nibbles(nibbles: u8x16) -> u8x16
    requires lanes { length nibbles ≡ 16 }
    requires nibbles { (j : ℕ) → j < 16 → slice_index nibbles j < 16 }
    ensures { AreLanes 16 result (λ j. 2 ^ count_ones (slice_index nibbles j)) }
{
    u8x16::from_array([1, 2, 2, 4, 2, 4, 4, 8, 2, 4, 4, 8, 4, 8, 8, 16]).swizzle_dyn(nibbles)
}

// Each pair of bytes as one number, with the upper one at the place of the power.
#[inline(always)]
fn join_bytes(bytes: u8x16, powers: u16x8) -> u16x8
    ensures { AreLanes 8 result (λ j.
        (slice_index bytes (2 * j) + slice_index bytes (2 * j + 1) * slice_index powers j) % 2 ^ 16) }
{
    let pairs = u16x8::from_le_bytes(bytes);
    (pairs & u16x8::splat(0xFF)) + (pairs >> u16x8::splat(8)) * powers
}

// The same of pairs of numbers of 16 bits: the upper one stands at the place of both powers of the lower one's bytes.
#[inline(always)]
fn join_pairs(pairs: u16x8, even: u16x8, odd: u16x8) -> u32x4
    ensures { AreLanes 4 result (λ j.
        (slice_index pairs (2 * j) + slice_index pairs (2 * j + 1)
        * (slice_index even (2 * j) * slice_index odd (2 * j))) % 2 ^ 32) }
{
    let low = u32x4::splat(0xFFFF);
    let both = wide(pairs);
    let power = (wide(even) & low) * (wide(odd) & low);
    (both & low) + (both >> u32x4::splat(16)) * power
}

// Two neighbors in a lane.
#[inline(always)]
fn wide(pairs: u16x8) -> u32x4
    ensures { AreLanes 4 result (λ j. slice_index pairs (2 * j) + slice_index pairs (2 * j + 1) * 2 ^ 16) }
{
    u32x4::from_le_bytes(pairs.to_le_bytes())
}

// Two words of their halves, with the upper one behind as many bits as the mask of the lower one has set places.
#[inline(always)]
fn join_halves(halves: u32x4, masks: u64x2) -> [u64; 2]
    ensures { (k : ℕ) → k < 2 → slice_index result k
        ≡ (slice_index halves (2 * k) + slice_index halves (2 * k + 1)
        * 2 ^ count_ones (slice_index masks k % 2 ^ 32)) % 2 ^ 64 }
{
    let words = u64x2::from_le_bytes(halves.to_le_bytes()).to_array();
    let masks = masks.to_array();
    [join_half(words[0], masks[0]), join_half(words[1], masks[1])]
}

#[inline(always)]
fn join_half(halves: u64, mask: u64) -> u64
    ensures { result ≡ (halves % 2 ^ 32 + halves / 2 ^ 32 * 2 ^ count_ones (mask % 2 ^ 32)) % 2 ^ 64 }
{
    let lower = halves & 0xFFFF_FFFF;
    let count = (mask & 0xFFFF_FFFF).count_ones();
    lower.wrapping_add((halves >> 32) << count)
}
