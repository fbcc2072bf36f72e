//! The loop of the kernel over indices of a rank mask that narrows most words: the ranks become a block
//! of bits, by which pairs of whole words are narrowed as by the bits of a buffer.

ghost use Rattle.std.specs.Prelude.{◌≡◌, ◌+◌, ◌-◌, ◌*◌, ◌/◌, ◌<◌, ◌≤◌, ◌^◌, ℕ, All, IfSome, false, length, slice_index};
ghost use Rattle.std.specs.List.Sorted.{IsStrictlyIncreasing};
ghost use Rattle.mask_bits.specs.Buffer.{backing_bit};
ghost use Rattle.mask_bits.specs.Positions.{count};
ghost use Rattle.mask_bits.specs.Words.{started_words};
ghost use Rattle.mask_bits.specs.CommonIndices.{AreSplit};
ghost use Rattle.vortex_mask.specs.Ranks.{CanHold, HoldsRanks, HoldsUpTo, is_listed, narrowed_by};
ghost use Rattle.vortex_mask.specs.Steps.{IsDeposited, no_steps};

use crate::intersect_by_rank::count_steps::CountSteps;
use crate::intersect_by_rank::deposit::DepositBits;
use crate::intersect_by_rank::kernels::rank_lists::bits_of_ranks;
use crate::intersect_by_rank::kernels::word_loop::{Narrowed, RankWords};
use crate::intersect_by_rank::rank_bits::word_inside;
use mask_bits::BitChunks;
use mask_bits::words::set_word;

// Narrows all pairs of whole words.
#[inline(always)]
pub(super) fn narrow_by_blocks<D: DepositBits, C: CountSteps>(
    done: &mut Narrowed<C>,
    chunks: &BitChunks<'_>,
    ranks: &[usize],
    out: &mut [u8],
)
    requires fits { length chunks.now < 2 ^ 64 }
    requires ascending { IsStrictlyIncreasing ranks.now }
    requires within { All (λ k. k < count chunks.now) ranks.now }
    requires room { length out.old ≡ 8 * started_words (length chunks.now) }
    requires steps { IfSome (C.step_counts done.old.steps) (λ s. s ≡ no_steps) }
    requires pairs { done.old.pairs ≡ 0 }
    requires at { done.old.at ≡ 0 }
    requires next { done.old.next ≡ 0 }
    ensures there { done.new.pairs ≤ length chunks.now / 128 }
    ensures passed { AreSplit ranks.now done.new.next done.new.at }
    ensures narrowed { IsDeposited chunks.now (narrowed_by (is_listed ranks.now) chunks.now)
        (2 * done.new.pairs) done.new.at out.new (C.step_counts done.new.steps) }
{
    while done.pairs < chunks.len() / 2 {
        let base = done.at;
        let mut block = [0u8; 512];
        let end = put_ranks(ranks, done.next, base, &mut block);
        let held = RankBlock {
            ranks,
            block: &block,
            base,
        };
        done.at = 0;
        done.narrow_pairs::<D, _>(chunks, &held, out);
        done.at += base;
        done.next = ranks_below(ranks, end, done.at);
    }
}

// Ranks from `base` on as the bits of a block of bytes. A place is one of these bits.
#[derive(Drop)]
struct RankBlock<'a> {
    ranks: &'a [usize],
    block: &'a [u8],
    base: usize,
    ghost holds: { HoldsRanks ranks.now base block.now },
}

impl RankWords for RankBlock<'_> {
    ghost bit = { λ b. is_listed b.ranks.now };

    ghost end = { λ _. 2 ^ 64 - 1 };

    ghost number = { λ b at. b.base + at };

    ghost IsPassed = { λ _ _ at. at ≤ 8 * 512 };

    // there are 24 bytes
    ghost Reaches = { λ _ at. at < 8 * (512 - 23) };

    #[inline(always)]
    fn reaches(&self, at: usize) -> bool {
        at < 8 * (512 - 23)
    }

    #[inline(always)]
    fn two_words(&self, _next: &mut usize, at: usize, ones: [usize; 2]) -> [u64; 2] {
        let next = at + ones[0];
        [word_inside(self.block, at), word_inside(self.block, next)]
    }
}

// Puts the ranks from `base` on as set bits, that of `base` first, whose first one is number `next`.
// Returns the number of the first rank past the block.
#[tactic(auto, using(crate::proofs::Lists::PlaceListLemmas::rises_to))]
#[inline(always)]
fn put_ranks(ranks: &[usize], next: usize, base: usize, block: &mut [u8]) -> usize
    requires room { CanHold ranks.now next base block.old }
    requires clear { (p : ℕ) → backing_bit block.old p ≡ false }
    ensures { HoldsUpTo ranks.now base block.new result }
{
    // one by one there is no branch to guess wrong, and by words less to do for each of many
    if next + 32 < ranks.len() && ranks[next + 32] - ranks[next] <= 128 {
        put_by_words(ranks, next, base, block)
    } else {
        put_one_by_one(ranks, next, base, block)
    }
}

fn put_by_words(ranks: &[usize], next: usize, base: usize, block: &mut [u8]) -> usize
    requires { CanHold ranks.now next base block.old }
    ensures { HoldsUpTo ranks.now base block.new result }
{
    let mut next = next;
    let mut at = base;
    for i in 0..64usize {
        let end = at.saturating_add(64);
        let word = bits_of_ranks(ranks, &mut next, at, end);
        set_word(block, i, word);
        at = end;
    }
    next
}

fn put_one_by_one(ranks: &[usize], next: usize, base: usize, block: &mut [u8]) -> usize
    requires room { CanHold ranks.now next base block.old }
    requires clear { (p : ℕ) → backing_bit block.old p ≡ false }
    ensures { HoldsUpTo ranks.now base block.new result }
{
    let mut next = next;
    while next < ranks.len() && ranks[next] - base < 4096 {
        let place = ranks[next] - base;
        block[place / 8] |= 1 << (place % 8);
        next += 1;
    }
    next
}

// How many ranks are below `limit`, which none is from number `end` on.
#[tactic(auto, using(crate::proofs::Lists::PlaceListLemmas::rises_to))]
fn ranks_below(ranks: &[usize], end: usize, limit: usize) -> usize
    requires ascending { IsStrictlyIncreasing ranks.now }
    requires within { end ≤ length ranks.now }
    requires past { (k : ℕ) → end ≤ k → k < length ranks.now → limit ≤ slice_index ranks.now k }
    ensures { AreSplit ranks.now result limit }
{
    let mut below = end;
    while below > 0 && ranks[below - 1] >= limit {
        below -= 1;
    }
    below
}
