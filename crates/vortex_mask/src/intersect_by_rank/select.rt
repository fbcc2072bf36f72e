//! Selections: the place of a set bit by its number.
//!
//! The set bits below a byte are counted for all bytes of the word at once. The bit lies in the last byte
//! with at most as many below it as the bit's number, and a table has its place there. Bit number 3:
//!
//! ```text
//!    byte   7  6  5  4  3  2  1  0
//!    bits   0  0  0  0  0  3  0  2     those of byte 2 at its places 1, 4 and 6
//!   below   5  5  5  5  5  2  2  0     at most 3 up to byte 2
//! ```
//!
//! So it is bit number 1 of byte 2, at place 4 there, and at place 20 of the word.

ghost use Rattle.std.specs.Prelude.{ℕ, ◌≡◌, ◌<◌, ◌≤◌, ◌*◌};
ghost use Rattle.mask_bits.specs.Positions.{count, count_below};
ghost use Rattle.mask_bits.specs.Words.{word_bits};
ghost use Rattle.vortex_mask.specs.Bytes.{byte_at};
ghost use Rattle.vortex_mask.specs.Deposit.{selected};

use super::deposit::{Portable, counts_below, words_of};
use mask_bits::byte_places::place_in_byte;
use std::simd::prelude::*;

/// A way to find a set bit of a word by its number.
// rust: lawful
pub trait SelectBit {
    /// The place of set bit number `rank`, counted from 0 at the lowest.
    fn select_bit_position(word: u64, rank: usize) -> usize
        requires { rank < count (word_bits word) }
        ensures { result ≡ selected word rank };
}

impl SelectBit for Portable {
    // Without a branch, which would often be guessed wrong.
    #[inline(always)]
    fn select_bit_position(word: u64, rank: usize) -> usize {
        let below = counts_below_bytes(word);
        let number = last_byte_within(below, rank);
        let left = rank - byte_of(below, number);
        8 * number + place_in_byte(byte_of(word, number), left)
    }
}

// In each byte, how many bits are set in all lower bytes.
#[inline(always)]
fn counts_below_bytes(word: u64) -> u64
    ensures { (j : ℕ) → j < 8 → byte_at result j ≡ count_below (word_bits word) (8 * j) }
{
    words_of(counts_below(u64x2::from_array([word, 0]))).to_array()[0]
}

// The number of the last byte that is at most `rank`.
#[tactic(auto, using(crate::proofs::Deposits::LastByteLemmas::last_byte))]
#[inline(always)]
fn last_byte_within(bytes: u64, rank: usize) -> usize
    requires rank { rank < 64 }
    requires small { (j : ℕ) → j < 8 → byte_at bytes j ≤ 64 }
    requires some { byte_at bytes 0 ≤ rank }
    ensures inside { result < 8 }
    ensures within { byte_at bytes result ≤ rank }
    ensures last { (j : ℕ) → result < j → j < 8 → rank < byte_at bytes j }
{
    // no byte takes from the next, and its top bit stays where it is at most the rank
    let differences = (rank as u64 + 128) * 0x0101010101010101 - bytes;
    let tops = differences & 0x8080808080808080;
    (63 - tops.leading_zeros() as usize) / 8
}

// Byte `j` of a word, the lowest first.
#[tactic(auto, unfolding(crate::specs::Bytes::byte_at))]
#[inline(always)]
fn byte_of(word: u64, j: usize) -> usize
    requires { j < 8 }
    ensures { result ≡ byte_at word j }
{
    ((word >> (8 * j)) & 0xFF) as usize
}
