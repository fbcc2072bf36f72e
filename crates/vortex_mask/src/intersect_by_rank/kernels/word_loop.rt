//! The loop over words: each started word takes a deposit of rank bits, whole words two at a time.

ghost use Rattle.std.specs.Prelude.{◌≡◌, ◌+◌, ◌*◌, ◌/◌, ◌<◌, ◌≤◌, ◌^◌, ◌↔◌, IsTrue, IfSome, ℕ, length, slice_index};
ghost use Rattle.mask_bits.specs.Bitmap.{bitmap};
ghost use Rattle.mask_bits.specs.Positions.{count};
ghost use Rattle.mask_bits.specs.Words.{started_words};
ghost use Rattle.vortex_mask.specs.Ranks.{AreBitsFrom, narrowed_by};
ghost use Rattle.vortex_mask.specs.Steps.{IsDeposited, no_steps, word_steps};

use crate::intersect_by_rank::count_steps::CountSteps;
use crate::intersect_by_rank::deposit::DepositBits;
use mask_bits::BitChunks;
use mask_bits::words::set_word;

// Where the bits of a rank mask are read from.
pub(crate) trait RankWords {
    ghost use Rattle.std.specs.Prelude.{ℕ, Bool};

    // the rank bit of this number
    ghost bit: { Self → ℕ → Bool };

    // how many there are at most
    ghost end: { Self → ℕ };

    // the number of the one that stands at this place
    ghost number: { Self → ℕ → ℕ };

    // those before a place are passed by a walk that stands at `next`
    ghost IsPassed: { Self → ℕ → ℕ → Type 0 };

    // those of two words can be read from a place on
    ghost Reaches: { Self → ℕ → Type 0 };

    // Whether the bits of two words can be read from `at` on.
    fn reaches(&self, at: usize) -> bool
        ensures { IsTrue result ↔ Reaches self.now at };

    // The bits from `at` on, as many for each of two words as it has true values.
    fn two_words(&self, next: &mut usize, at: usize, ones: [usize; 2]) -> [u64; 2]
        requires reached { Reaches self.now at }
        requires passed { IsPassed self.now next.old at }
        requires few_first { slice_index ones 0 ≤ 64 }
        requires few_second { slice_index ones 1 ≤ 64 }
        requires within { number self.now at + slice_index ones 0 + slice_index ones 1
            ≤ end self.now }
        ensures first { AreBitsFrom (bit self.now) (number self.now at) (slice_index ones 0)
            (slice_index result 0) }
        ensures second { AreBitsFrom (bit self.now) (number self.now at + slice_index ones 0)
            (slice_index ones 1) (slice_index result 1) }
        ensures fits { at + slice_index ones 0 + slice_index ones 1 < 2 ^ 64 }
        ensures number { number self.now (at + slice_index ones 0 + slice_index ones 1)
            ≡ number self.now at + slice_index ones 0 + slice_index ones 1 }
        ensures passed { IsPassed self.now next.new
            (at + slice_index ones 0 + slice_index ones 1) };
}

// How far the words of a list are narrowed, and the steps that took.
#[derive(Drop)]
pub(super) struct Narrowed<C> {
    pub(super) steps: C,
    pub(super) pairs: usize,
    // where the next rank bit stands
    pub(super) at: usize,
    // ranks of a list that stand before it
    pub(super) next: usize,
}

impl<C: CountSteps> Narrowed<C> {
    // No words yet.
    pub(super) fn new(at: usize) -> Narrowed<C>
        ensures steps { IfSome (C.step_counts result.steps) (λ s. s ≡ no_steps) }
        ensures pairs { result.pairs ≡ 0 }
        ensures at { result.at ≡ at }
        ensures next { result.next ≡ 0 }
    {
        Narrowed {
            steps: C::none(),
            pairs: 0,
            at,
            next: 0,
        }
    }

    // Narrows pairs of whole words, as long as `ranks` reaches.
    #[inline(always)]
    pub(super) fn narrow_pairs<D: DepositBits, R: RankWords>(
        &mut self,
        chunks: &BitChunks<'_>,
        ranks: &R,
        out: &mut [u8],
    )
        requires there { self.old.pairs ≤ length chunks.now / 128 }
        requires room { length out.old ≡ 8 * started_words (length chunks.now) }
        requires ranks { count chunks.now ≤ R.end ranks.now }
        requires passed { R.IsPassed ranks.now self.old.next self.old.at }
        requires begun { IsDeposited chunks.now (narrowed_by (R.bit ranks.now) chunks.now)
            (2 * self.old.pairs) (R.number ranks.now self.old.at) out.old
            (C.step_counts self.old.steps) }
        ensures there { self.new.pairs ≤ length chunks.now / 128 }
        ensures goes_on { R.Reaches ranks.now self.old.at
            → self.old.pairs < length chunks.now / 128 → self.old.pairs < self.new.pairs }
        ensures passed { R.IsPassed ranks.now self.new.next self.new.at }
        ensures narrowed { IsDeposited chunks.now (narrowed_by (R.bit ranks.now) chunks.now)
            (2 * self.new.pairs) (R.number ranks.now self.new.at) out.new
            (C.step_counts self.new.steps) }
    {
        let pairs = chunks.len() / 2;
        prove!(2 * pairs <= chunks.started_words());
        while self.pairs < pairs && ranks.reaches(self.at) {
            let i = 2 * self.pairs;
            let both = self.steps.read_two_words(chunks, i);
            let masks = [both.0, both.1];
            let ones = [
                masks[0].count_ones() as usize,
                masks[1].count_ones() as usize,
            ];
            let sources = ranks.two_words(&mut self.next, self.at, ones);
            let kept = self.steps.deposit_two_words::<D>(sources, masks, ones);
            set_word(out, i, kept[0]);
            set_word(out, i + 1, kept[1]);
            self.at = self.at + ones[0] + ones[1];
            self.pairs += 1;
        }
    }

    // Narrows the words that are left, where `ranks` reaches from anywhere, and returns all steps.
    #[inline(always)]
    pub(super) fn narrow_rest<D: DepositBits, R: RankWords>(
        self,
        chunks: &BitChunks<'_>,
        ranks: &R,
        out: &mut [u8],
    ) -> C
        requires there { self.pairs ≤ length chunks.now / 128 }
        requires room { length out.old ≡ 8 * started_words (length chunks.now) }
        requires ranks { count chunks.now ≤ R.end ranks.now }
        requires reaches { (at : ℕ) → R.Reaches ranks.now at }
        requires passed { R.IsPassed ranks.now self.next self.at }
        requires begun { IsDeposited chunks.now (narrowed_by (R.bit ranks.now) chunks.now)
            (2 * self.pairs) (R.number ranks.now self.at) out.old (C.step_counts self.steps) }
        ensures list { bitmap out.new 0 (length chunks.now)
            ≡ narrowed_by (R.bit ranks.now) chunks.now }
        ensures steps { IfSome (C.step_counts result)
            (λ s. s ≡ word_steps chunks.now (narrowed_by (R.bit ranks.now) chunks.now)) }
    {
        let mut done = self;
        let words = chunks.started_words();
        done.narrow_pairs::<D, R>(chunks, ranks, out);
        for i in 2 * done.pairs..words {
            let word = done.steps.read_word(chunks, i);
            let ones = word.count_ones() as usize;
            let source = ranks.two_words(&mut done.next, done.at, [ones, 0])[0];
            let kept = done.steps.deposit_word::<D>(source, word, ones);
            set_word(out, i, kept);
            done.at += ones;
        }
        done.steps
    }
}
