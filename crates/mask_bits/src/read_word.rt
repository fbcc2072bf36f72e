//! Ways to read the words of a list that begins at some bit of some bytes.
//!
//! A loop that is generic over the way compiles to one that tests nothing per word.

ghost use Rattle.std.specs.Prelude.{◌≡◌, ◌≤◌, ◌+◌, ◌-◌, ◌*◌, ◌/◌, ◌%◌, length, drop};
ghost use Rattle.mask_bits.specs.Combine.{IsWholeWord, IsInTwoWords, IsShifted, IsUnaligned, HasPlace};
ghost use Rattle.mask_bits.specs.Words.{window, word_bits};

use crate::unchecked::{item, rest};
use crate::words::{funnel_shift, funnel_shift_inside, word_at, word_of};

/// A list that begins at bit `low` of the first of these bytes.
#[derive(Clone, Copy)]
pub(crate) struct Bits<'a> {
    pub(crate) bytes: &'a [u8],
    pub(crate) low: u32,
}

impl<'a> Bits<'a> {
    // The list that begins at bit `offset` of these bytes.
    #[inline]
    pub(crate) fn new(bytes: &'a [u8], offset: usize) -> Bits<'a>
        requires { offset / 8 ≤ length bytes.now }
        ensures bytes { result.bytes.now ≡ drop (offset / 8) bytes.now }
        ensures low { result.low ≡ offset % 8 }
    {
        Bits {
            bytes: rest(bytes, offset / 8),
            low: (offset % 8) as u32,
        }
    }

    // How many of the whole words have another one beside them.
    #[inline]
    pub(crate) fn neighbors(self) -> usize
        ensures { result ≡ length self.entry.bytes.now / 8 - 1 }
    {
        (self.bytes.len() / 8).saturating_sub(1)
    }
}

/// Reads the 64 bits of word `i` of a list.
pub(crate) trait ReadWord {
    ghost use Rattle.std.specs.Prelude.{ℕ, List};

    ghost can_read: { List ℕ → ℕ → ℕ → Type 0 };

    fn word(bits: Bits<'_>, i: usize) -> u64
        requires { can_read bits.bytes.now bits.low i }
        ensures { word_bits result ≡ window bits.entry.bytes.now (bits.entry.low + 64 * i) };
}

/// Words that are whole in the bytes.
#[derive(Drop)]
pub(crate) struct Whole;

/// Words that lie in two neighbors of the bytes. A loop that counts is put into vectors with the two
/// shifts that this takes of the next word, and isn't with the one of `Shifted`.
#[derive(Drop)]
pub(crate) struct Neighbors;

/// The same of a list that doesn't begin at a whole byte.
#[derive(Drop)]
pub(crate) struct Shifted;

/// Words that begin at any bit and of which the bytes have all bits.
#[derive(Drop)]
pub(crate) struct Unaligned;

/// Words wherever they are, the last bytes included.
#[derive(Drop)]
pub(crate) struct Anywhere;

impl ReadWord for Whole {
    ghost can_read = { IsWholeWord };

    #[inline]
    fn word(bits: Bits<'_>, i: usize) -> u64 {
        word_of(bits.bytes, i)
    }
}

impl ReadWord for Neighbors {
    ghost can_read = { IsInTwoWords };

    #[tactic(auto, using(crate::proofs::CombineLemmas::window_of_two))]
    #[inline]
    fn word(bits: Bits<'_>, i: usize) -> u64 {
        funnel_shift(word_of(bits.bytes, i), word_of(bits.bytes, i + 1), bits.low)
    }
}

impl ReadWord for Shifted {
    ghost can_read = { IsShifted };

    #[tactic(auto, using(crate::proofs::CombineLemmas::window_of_two))]
    #[inline]
    fn word(bits: Bits<'_>, i: usize) -> u64 {
        funnel_shift_inside(word_of(bits.bytes, i), word_of(bits.bytes, i + 1), bits.low)
    }
}

impl ReadWord for Unaligned {
    ghost can_read = { IsUnaligned };

    // tests nothing that a loop over words has to test again, and reads past no end, so that such a
    // loop needs no slower way for its last words
    #[tactic(auto, using(crate::proofs::CombineLemmas::window_of_two))]
    #[inline]
    fn word(bits: Bits<'_>, i: usize) -> u64 {
        let word = word_of(bits.bytes, i);
        if bits.low == 0 {
            word
        } else {
            funnel_shift_inside(word, item(bits.bytes, 8 * i + 8) as u64, bits.low)
        }
    }
}

impl ReadWord for Anywhere {
    ghost can_read = { HasPlace };

    #[inline]
    fn word(bits: Bits<'_>, i: usize) -> u64 {
        word_at(bits.bytes, bits.low as usize + 64 * i)
    }
}
