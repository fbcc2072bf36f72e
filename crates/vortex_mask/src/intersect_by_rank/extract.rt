//! Extracts: the bits of one word at the set places of another.

ghost use Rattle.std.specs.Prelude.{◌≡◌};
ghost use Rattle.mask_bits.specs.Extract.{Extracts};
ghost use Rattle.mask_bits.specs.Positions.{count};
ghost use Rattle.mask_bits.specs.Words.{word_bits};

use crate::intersect_by_rank::Portable;
use mask_bits::extract::extract;

/// Gathers the bits of a word at the set places of a mask word, as the instruction PEXT does: the way
/// back of a deposit.
// rust: lawful
pub trait ExtractBits {
    /// The word whose bit `k` is the bit of `source` at set place number `k` of `mask`, counted from
    /// the lowest, for each `k` below `mask_count`, and whose other bits are 0.
    ///
    /// `mask_count` is how many bits of `mask` are set, which callers know anyway.
    fn extract_bits(source: u64, mask: u64, mask_count: usize) -> u64
        requires { mask_count ≡ count (word_bits mask) }
        ensures { Extracts source mask result };
}

impl ExtractBits for Portable {
    #[inline(always)]
    fn extract_bits(source: u64, mask: u64, _mask_count: usize) -> u64 {
        extract(source, mask)
    }
}
