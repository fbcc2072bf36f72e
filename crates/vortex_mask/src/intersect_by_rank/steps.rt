//! The steps that a kernel takes, counted. The fields are private to this file, so that the calls
//! here alone change them.

ghost use Rattle.std.specs.Prelude.{◌≡◌, ◌+◌, ◌*◌, ◌/◌, ◌<◌, ◌^◌, length, slice_index};
ghost use Rattle.mask_bits.specs.Positions.{count};
ghost use Rattle.mask_bits.specs.Words.{word_bits, word_part, padded_part, padded_remainder};
ghost use Rattle.vortex_mask.specs.Deposit.{Deposits, selected};
ghost use Rattle.vortex_mask.specs.Steps.{no_steps};

use super::deposit::DepositBits;
use super::select::SelectBit;
use mask_bits::BitChunks;
use std::marker::Model;

/// How many words a kernel has deposited, read and selected in, and sums over these steps.
///
/// A step adds at most 64 to a sum, so a sum never passes its type.
//
// The steps are inlined always, so that a kernel's loop keeps the counters in registers: a call
// would write them back for each word.
#[derive(Drop)]
pub struct Steps {
    deposits: usize,
    words: usize,
    selections: usize,
    offered: u128,
    placed: u128,
    spots: u128,
}

impl Model for Steps {
    ghost use Rattle.vortex_mask.specs.Steps.{StepCounts, SumsFit};

    ghost Value = { StepCounts };

    ghost view = { λ s. record {
      deposits = s.deposits;
      words = s.words;
      selections = s.selections;
      offered = s.offered;
      placed = s.placed;
      spots = s.spots;
    } };

    ghost invariant = { λ s. SumsFit s.deposits s.selections s.offered s.placed s.spots };
}

impl Steps {
    /// No steps yet.
    pub fn new() -> Steps
        ensures { result ≡ no_steps }
    {
        Steps {
            deposits: 0,
            words: 0,
            selections: 0,
            offered: 0,
            placed: 0,
            spots: 0,
        }
    }

    /// How many words were deposited.
    pub fn deposits(&self) -> usize
        ensures { result ≡ self.now.deposits }
    {
        self.deposits
    }

    /// How many words of self were read.
    pub fn words(&self) -> usize
        ensures { result ≡ self.now.words }
    {
        self.words
    }

    /// How many set bits were selected.
    pub fn selections(&self) -> usize
        ensures { result ≡ self.now.selections }
    {
        self.selections
    }

    /// The sum of `mask_count` over all deposits: the set bits of their masks.
    pub fn offered(&self) -> u128
        ensures { result ≡ self.now.offered }
    {
        self.offered
    }

    /// The set bits of all deposited words.
    pub fn placed(&self) -> u128
        ensures { result ≡ self.now.placed }
    {
        self.placed
    }

    /// The sum of the bits' places within their words that all selections found.
    pub fn spots(&self) -> u128
        ensures { result ≡ self.now.spots }
    {
        self.spots
    }

    /// Deposits the bits of `source` at the set places of `mask`, of which there are `mask_count`.
    // rust: room needs a count of deposits below `usize::MAX`
    #[tactic(auto, using(crate::proofs::Kernels::DepositListLemmas::word_counts))]
    #[inline(always)]
    pub fn deposit<D: DepositBits>(&mut self, source: u64, mask: u64, mask_count: usize) -> u64
        requires room { self.old.deposits < usize.MAX }
        requires counted { mask_count ≡ count (word_bits mask) }
        ensures deposited { Deposits source mask result }
        ensures ticked { self.new ≡ record self.old {
          deposits = self.old.deposits + 1;
          offered = self.old.offered + mask_count;
          placed = self.old.placed + count (word_bits result);
        } }
    {
        let result = D::deposit_bits(source, mask, mask_count);
        self.deposits += 1;
        self.offered += mask_count as u128;
        self.placed += u128::from(result.count_ones());
        result
    }

    /// Deposits two words of a list, and counts what two calls of [`Steps::deposit`] would. A list has so
    /// few words that its sums are of 64 bits, which a loop adds in fewer steps.
    #[tactic(auto, using(crate::proofs::Kernels::DepositListLemmas::word_counts))]
    #[inline(always)]
    pub(crate) fn deposit_words<D: DepositBits>(
        &mut self,
        sources: [u64; 2],
        masks: [u64; 2],
        mask_counts: [usize; 2],
    ) -> [u64; 2]
        requires few { self.old.deposits + 2 < 2 ^ 58 }
        requires counted_first { slice_index mask_counts 0
            ≡ count (word_bits (slice_index masks 0)) }
        requires counted_second { slice_index mask_counts 1
            ≡ count (word_bits (slice_index masks 1)) }
        ensures first { Deposits (slice_index sources 0) (slice_index masks 0)
            (slice_index result 0) }
        ensures second { Deposits (slice_index sources 1) (slice_index masks 1)
            (slice_index result 1) }
        ensures ticked { self.new ≡ record self.old {
          deposits = self.old.deposits + 2;
          offered = self.old.offered + slice_index mask_counts 0 + slice_index mask_counts 1;
          placed = self.old.placed + count (word_bits (slice_index result 0))
              + count (word_bits (slice_index result 1));
        } }
    {
        let words = D::deposit_two(sources, masks, mask_counts);
        let offered = self.offered as u64 + mask_counts[0] as u64 + mask_counts[1] as u64;
        let placed = self.placed as u64 + u64::from(words[0].count_ones() + words[1].count_ones());
        self.deposits += 2;
        self.offered = u128::from(offered);
        self.placed = u128::from(placed);
        words
    }

    /// Word `i` of the values: a whole word, or as the last one the values after the whole words
    /// in its low bits and zeros above.
    // rust: room needs a count of words below `usize::MAX`
    // rust: there needs a word whose first value is there
    #[inline(always)]
    pub fn word(&mut self, chunks: &BitChunks<'_>, i: usize) -> u64
        requires room { self.old.words < usize.MAX }
        requires there { 64 * i < length chunks.now }
        ensures whole { i < length chunks.now / 64 → word_bits result ≡ word_part chunks.now i }
        ensures last { i ≡ length chunks.now / 64 → word_bits result ≡ padded_remainder chunks.now }
        ensures ticked { self.new ≡ record self.old { words = self.old.words + 1 } }
    {
        self.words += 1;
        if i < chunks.len() {
            chunks.word(i)
        } else {
            chunks.remainder_bits()
        }
    }

    /// Whole words `i` and `i + 1` of the values. Counts what two calls of [`Steps::word`] would.
    #[inline(always)]
    pub(crate) fn two_words(&mut self, chunks: &BitChunks<'_>, i: usize) -> (u64, u64)
        requires there { i + 1 < length chunks.now / 64 }
        requires fits { i + 1 < 2 ^ 64 }
        requires room { self.old.words + 1 < usize.MAX }
        ensures first { word_bits result.0 ≡ padded_part chunks.now i }
        ensures second { word_bits result.1 ≡ padded_part chunks.now (i + 1) }
        ensures ticked { self.new ≡ record self.old { words = self.old.words + 2 } }
    {
        self.words += 2;
        (chunks.word(i), chunks.word(i + 1))
    }

    /// The place of set bit number `rank` of `word`.
    // rust: room needs a count of selections below `usize::MAX`
    #[tactic(auto, using(crate::proofs::Kernels::DepositListLemmas::selected_is_inside))]
    #[inline(always)]
    pub fn select<S: SelectBit>(&mut self, word: u64, rank: usize) -> usize
        requires room { self.old.selections < usize.MAX }
        requires inside { rank < count (word_bits word) }
        ensures selected { result ≡ selected word rank }
        ensures ticked { self.new ≡ record self.old {
          selections = self.old.selections + 1;
          spots = self.old.spots + result;
        } }
    {
        let place = S::select_bit_position(word, rank);
        self.selections += 1;
        self.spots += place as u128;
        place
    }
}
