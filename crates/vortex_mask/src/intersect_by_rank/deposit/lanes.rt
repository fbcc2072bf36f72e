//! Two words as the sixteen lanes of a vector, a lane for each byte, with the counts of mask bits below each: for the
//! deposits of `bytewise` and of `nibbles`, and for selections.
//!
//! ```text
//!  lane  15 14 13 12 11 10  9  8 | 7 6 5 4 3 2 1 0
//!           the second word      |  the first word
//!  base   8  8  8  8  8  8  8  8 | 0 0 0 0 0 0 0 0
//! ```
//!
//! The set places of a mask byte take that many source bits, from the one on whose number is the
//! count of mask bits in all lower bytes of its word. These bits lie in two neighboring bytes of the
//! source: with 21 mask bits below they begin at bit 5 of byte 2. So each lane fetches the lane of
//! its base and 2, and the next one.
//!
//! After the last byte of a word another one's is fetched. But a mask byte uses no more bits than
//! it has, so none past the 64 of the source.

ghost use Rattle.std.specs.Prelude.{◌≡◌, ℕ, ◌+◌, ◌*◌, ◌/◌, ◌%◌, ◌^◌, ◌<◌, slice_index, length};
ghost use Rattle.mask_bits.specs.Positions.{count_below};
ghost use Rattle.mask_bits.specs.Words.{word_bits};
ghost use Rattle.mask_bits.specs.Lanes.{AreLanes};
ghost use Rattle.vortex_mask.specs.Bytes.{EachLane, byte_at, byte_of_two};

use std::simd::prelude::*;

// The bytes of two words as lanes.
#[inline(always)]
pub(super) fn bytes_of(words: u64x2) -> u8x16
    ensures { AreLanes 16 result (byte_of_two words) }
{
    words.to_le_bytes()
}

// The words whose bytes the lanes are.
#[inline(always)]
pub(crate) fn words_of(lanes: u8x16) -> u64x2
    ensures words { length result ≡ 2 }
    ensures bytes { EachLane (λ j. byte_of_two result j ≡ slice_index lanes j) }
{
    u64x2::from_le_bytes(lanes)
}

// In each lane, the number of set bits in all lower bytes of its word.
#[inline(always)]
pub(crate) fn counts_below(masks: u64x2) -> u8x16
    ensures { AreLanes 16 result
        (λ j. count_below (word_bits (slice_index masks (j / 8))) (8 * (j % 8))) }
{
    bytes_of(sums_below(words_of(bytes_of(masks).count_ones())))
}

// Of each word, the sums of all lower bytes, in each byte: of one lower byte, of two, of four and then of all.
#[inline(always)]
fn sums_below(words: u64x2) -> u64x2
    ensures sums { (w : ℕ) → w < 2 → slice_index result w
        ≡ slice_index words w * 0x0101010101010101 % 2 ^ 64 * 2 ^ 8 % 2 ^ 64 }
{
    let sums = words << u64x2::splat(8);
    let sums = sums + (sums << u64x2::splat(8));
    let sums = sums + (sums << u64x2::splat(16));
    sums + (sums << u64x2::splat(32))
}

#[derive(Clone, Copy)]
pub(super) struct TwoBytes {
    pub(super) low: u8x16,
    pub(super) high: u8x16,
}

// In each lane, the byte of its word in which bit `below` is, and the next one of the word.
#[inline(always)]
pub(super) fn neighbors(words: u64x2, below: u8x16) -> TwoBytes
    requires { EachLane (λ j. slice_index below j < 64) }
    ensures low_lanes { length result.low ≡ 16 }
    ensures high_lanes { length result.high ≡ 16 }
    ensures low { EachLane (λ j. slice_index result.low j
        ≡ byte_at (slice_index words (j / 8)) (slice_index below j / 8)) }
    ensures high { EachLane (λ j. slice_index below j / 8 < 7 → slice_index result.high j
        ≡ byte_at (slice_index words (j / 8)) (slice_index below j / 8 + 1)) }
{
    let bytes = bytes_of(words);
    // the second word's bytes are the lanes from 8 on
    let base = u8x16::from_array([0, 0, 0, 0, 0, 0, 0, 0, 8, 8, 8, 8, 8, 8, 8, 8]);
    let at = base + (below >> u8x16::splat(3));
    let next = (at + u8x16::splat(1)) & u8x16::splat(15);
    TwoBytes {
        low: bytes.swizzle_dyn(at),
        high: bytes.swizzle_dyn(next),
    }
}
