//! What a kernel counts its steps by: [`Steps`], or nothing.

ghost use Rattle.std.specs.Prelude.{◌≡◌, ◌+◌, ◌*◌, ◌/◌, ◌<◌, ◌^◌, None, Some, IfSome, length, slice_index};
ghost use Rattle.std.specs.Option.{option_map};
ghost use Rattle.mask_bits.specs.Positions.{count};
ghost use Rattle.mask_bits.specs.Words.{word_bits, word_part, padded_part, padded_remainder};
ghost use Rattle.vortex_mask.specs.Deposit.{Deposits, selected};
ghost use Rattle.vortex_mask.specs.Steps.{StepCounts, no_steps};

use super::deposit::DepositBits;
use super::select::SelectBit;
use super::steps::Steps;
use mask_bits::BitChunks;

// Takes the steps of a kernel, and may count them. Each call does what the named one of `Steps` does, and counts what that
// one counts, or nothing.
pub(crate) trait CountSteps: Drop {
    ghost use Rattle.std.specs.Prelude.{Option};
    ghost use Rattle.vortex_mask.specs.Steps.{StepCounts};

    // the steps so far, where they are counted
    ghost step_counts: { Self → Option StepCounts };

    // No steps yet.
    fn none() -> Self
        ensures { IfSome (step_counts result) (λ s. s ≡ no_steps) };

    // `Steps::deposit`.
    fn deposit_word<D: DepositBits>(&mut self, source: u64, mask: u64, mask_count: usize) -> u64
        requires room { IfSome (step_counts self.old) (λ s. s.deposits < usize.MAX) }
        requires counted { mask_count ≡ count (word_bits mask) }
        ensures deposited { Deposits source mask result }
        ensures ticked { step_counts self.new ≡ option_map (λ (s : StepCounts). record s {
          deposits = s.deposits + 1;
          offered = s.offered + mask_count;
          placed = s.placed + count (word_bits result);
        }) (step_counts self.old) };

    // `Steps::deposit_words`.
    fn deposit_two_words<D: DepositBits>(
        &mut self,
        sources: [u64; 2],
        masks: [u64; 2],
        mask_counts: [usize; 2],
    ) -> [u64; 2]
        requires few { IfSome (step_counts self.old) (λ s. s.deposits + 2 < 2 ^ 58) }
        requires counted_first { slice_index mask_counts 0
            ≡ count (word_bits (slice_index masks 0)) }
        requires counted_second { slice_index mask_counts 1
            ≡ count (word_bits (slice_index masks 1)) }
        ensures first { Deposits (slice_index sources 0) (slice_index masks 0)
            (slice_index result 0) }
        ensures second { Deposits (slice_index sources 1) (slice_index masks 1)
            (slice_index result 1) }
        ensures ticked { step_counts self.new ≡ option_map (λ (s : StepCounts). record s {
          deposits = s.deposits + 2;
          offered = s.offered + slice_index mask_counts 0 + slice_index mask_counts 1;
          placed = s.placed + count (word_bits (slice_index result 0))
              + count (word_bits (slice_index result 1));
        }) (step_counts self.old) };

    // `Steps::word`.
    fn read_word(&mut self, chunks: &BitChunks<'_>, i: usize) -> u64
        requires room { IfSome (step_counts self.old) (λ s. s.words < usize.MAX) }
        requires there { 64 * i < length chunks.now }
        ensures whole { i < length chunks.now / 64 → word_bits result ≡ word_part chunks.now i }
        ensures last { i ≡ length chunks.now / 64 → word_bits result ≡ padded_remainder chunks.now }
        ensures ticked { step_counts self.new
            ≡ option_map (λ (s : StepCounts). record s { words = s.words + 1 }) (step_counts self.old) };

    // `Steps::two_words`.
    fn read_two_words(&mut self, chunks: &BitChunks<'_>, i: usize) -> (u64, u64)
        requires there { i + 1 < length chunks.now / 64 }
        requires fits { i + 1 < 2 ^ 64 }
        requires room { IfSome (step_counts self.old) (λ s. s.words + 1 < usize.MAX) }
        ensures first { word_bits result.0 ≡ padded_part chunks.now i }
        ensures second { word_bits result.1 ≡ padded_part chunks.now (i + 1) }
        ensures ticked { step_counts self.new
            ≡ option_map (λ (s : StepCounts). record s { words = s.words + 2 }) (step_counts self.old) };

    // `Steps::select`.
    fn select_bit<S: SelectBit>(&mut self, word: u64, rank: usize) -> usize
        requires room { IfSome (step_counts self.old) (λ s. s.selections < usize.MAX) }
        requires inside { rank < count (word_bits word) }
        ensures selected { result ≡ selected word rank }
        ensures ticked { step_counts self.new ≡ option_map (λ (s : StepCounts). record s {
          selections = s.selections + 1;
          spots = s.spots + result;
        }) (step_counts self.old) };
}

impl CountSteps for Steps {
    ghost step_counts = { λ s. Some s };

    #[inline(always)]
    fn none() -> Steps {
        Steps::new()
    }

    #[inline(always)]
    fn deposit_word<D: DepositBits>(&mut self, source: u64, mask: u64, mask_count: usize) -> u64 {
        self.deposit::<D>(source, mask, mask_count)
    }

    #[inline(always)]
    fn deposit_two_words<D: DepositBits>(
        &mut self,
        sources: [u64; 2],
        masks: [u64; 2],
        mask_counts: [usize; 2],
    ) -> [u64; 2] {
        self.deposit_words::<D>(sources, masks, mask_counts)
    }

    #[inline(always)]
    fn read_word(&mut self, chunks: &BitChunks<'_>, i: usize) -> u64 {
        self.word(chunks, i)
    }

    #[inline(always)]
    fn read_two_words(&mut self, chunks: &BitChunks<'_>, i: usize) -> (u64, u64) {
        self.two_words(chunks, i)
    }

    #[inline(always)]
    fn select_bit<S: SelectBit>(&mut self, word: u64, rank: usize) -> usize {
        self.select::<S>(word, rank)
    }
}

// Counts nothing. Each step is taken by a counter of its own, which nobody reads: no instruction is left of it.
#[derive(Drop)]
pub(crate) struct Uncounted;

impl CountSteps for Uncounted {
    ghost step_counts = { λ _. None };

    #[inline(always)]
    fn none() -> Uncounted {
        Uncounted
    }

    #[inline(always)]
    fn deposit_word<D: DepositBits>(&mut self, source: u64, mask: u64, mask_count: usize) -> u64 {
        Steps::new().deposit::<D>(source, mask, mask_count)
    }

    // Deposits two words, by a counter of the call's own.
    #[inline(always)]
    fn deposit_two_words<D: DepositBits>(
        &mut self,
        sources: [u64; 2],
        masks: [u64; 2],
        mask_counts: [usize; 2],
    ) -> [u64; 2] {
        Steps::new().deposit_words::<D>(sources, masks, mask_counts)
    }

    #[inline(always)]
    fn read_word(&mut self, chunks: &BitChunks<'_>, i: usize) -> u64 {
        Steps::new().word(chunks, i)
    }

    // Whole words `i` and `i + 1` of the values, by a counter of the call's own.
    #[inline(always)]
    fn read_two_words(&mut self, chunks: &BitChunks<'_>, i: usize) -> (u64, u64) {
        Steps::new().two_words(chunks, i)
    }

    #[inline(always)]
    fn select_bit<S: SelectBit>(&mut self, word: u64, rank: usize) -> usize {
        Steps::new().select::<S>(word, rank)
    }
}
