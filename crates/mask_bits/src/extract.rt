//! The bits of one word at the set places of another.
//!
//! At most two bits are taken without a branch, and a few more one after another. More of them are gathered by bytes,
//! of two words at once, as `two_words` draws it.

ghost use Rattle.std.specs.Prelude.{ℕ, ◌≡◌, ◌≤◌, ◌/◌, ◌%◌, ◌^◌, slice_index};
ghost use Rattle.mask_bits.specs.Extract.{Extracts};
ghost use Rattle.mask_bits.specs.Positions.{count};
ghost use Rattle.mask_bits.specs.Words.{word_bits};

mod two_words;

use std::simd::prelude::*;
use two_words::extract_two_by_bytes;

// One bit after another takes less time than all bytes where at most so many places are set.
const FEW: u32 = 4;

/// The bits of `source` at the set places of `mask`, moved down to the low end in their order, and
/// zeros above them: what the instruction PEXT does. It takes about as long at each mask, and less
/// where all places are set or at most four.
// rust: by instruction native::extract
#[inline]
#[tactic(auto, using(crate::proofs::Lists::Words::WordLemmas::ones_of_word))]
pub fn extract(source: u64, mask: u64) -> u64
    ensures { Extracts source mask result }
{
    if mask.count_ones() <= 2 {
        extract_two_lowest(source, mask)
    } else {
        extract_more(source, mask)
    }
}

/// The bits of two words, each at the set places of its own mask, as [`extract`] has them. It takes less time than two
/// calls of that, and about as long at any masks, but less where both have at most two set places, or all.
#[inline(always)]
#[tactic(auto, using(crate::proofs::Lists::Words::WordLemmas::ones_of_word, crate::proofs::Lists::Words::GatherLemmas::full_mask))]
pub fn extract_two(sources: [u64; 2], masks: [u64; 2]) -> [u64; 2]
    ensures first { Extracts (slice_index sources 0) (slice_index masks 0) (slice_index result 0) }
    ensures second { Extracts (slice_index sources 1) (slice_index masks 1) (slice_index result 1) }
{
    if masks[0].count_ones().max(masks[1].count_ones()) <= 2 {
        [
            extract_two_lowest(sources[0], masks[0]),
            extract_two_lowest(sources[1], masks[1]),
        ]
    } else if masks[0] == u64::MAX && masks[1] == u64::MAX {
        sources
    } else {
        extract_two_by_bytes(u64x2::from_array(sources), u64x2::from_array(masks))
    }
}

// Never inlined, so that a loop over the words of a sparse mask stays small.
#[tactic(auto, using(crate::proofs::Lists::Words::GatherLemmas::full_mask))]
#[inline(never)]
fn extract_more(source: u64, mask: u64) -> u64
    ensures { Extracts source mask result }
{
    if mask == u64::MAX {
        source
    } else if mask.count_ones() <= FEW {
        extract_in_turn(source, mask)
    } else {
        extract_two_by_bytes(u64x2::from_array([source, 0]), u64x2::from_array([mask, 0]))[0]
    }
}

// At most two set places, without a branch: how many of them a word of a sparse mask has would often be
// guessed wrong.
#[inline(always)]
fn extract_two_lowest(source: u64, mask: u64) -> u64
    requires { count (word_bits mask) ≤ 2 }
    ensures { Extracts source mask result }
{
    let second = mask & mask.wrapping_sub(1);
    let lowest = mask ^ second;
    masked_bit(source, lowest) | (masked_bit(source, second) << 1)
}

// The bit of `source` at a place, which is the word that has this bit alone, or 0 for none.
#[inline(always)]
#[tactic(auto, using(std::proofs::lemmas::Nat::Bits::and_pow))]
fn masked_bit(source: u64, place: u64) -> u64
    ensures bit { (p : ℕ) → place ≡ 2 ^ p → result ≡ source / 2 ^ p % 2 }
    ensures none { place ≡ 0 → result ≡ 0 }
{
    (source & place != 0) as u64
}

// One set place after another.
#[inline]
fn extract_in_turn(source: u64, mask: u64) -> u64
    ensures { Extracts source mask result }
{
    let mut left = mask;
    let mut result = 0;
    let mut at = 0u32;
    while left != 0 {
        result |= ((source >> left.trailing_zeros()) & 1) << at;
        left &= left - 1;
        at += 1;
    }
    result
}
