//! The kernel over two bit buffers: one deposit for each started word.

ghost use Rattle.std.specs.Prelude.{◌≡◌, ◌+◌, ◌-◌, ◌*◌, ◌/◌, ◌<◌, ◌≤◌, ◌^◌, ⊤, min, IfOk, IfSome, IsOkUnless, alloc_error, length};
ghost use Rattle.mask_bits.specs.Bitmap.{bitmap};
ghost use Rattle.mask_bits.specs.Buffer.{backing_bit, values, IsWithinBytes};
ghost use Rattle.mask_bits.specs.Positions.{count, rank_intersection};
ghost use Rattle.vortex_mask.specs.Caches.{caches};
ghost use Rattle.vortex_mask.specs.Mask.{truth, variant, fitting_variant, all_false};
ghost use Rattle.vortex_mask.specs.MaskValues.{no_caches};
ghost use Rattle.vortex_mask.specs.Steps.{word_steps};
ghost use Rattle.mask_bits.specs.Words.{started_words};

use crate::intersect_by_rank::count_steps::{CountSteps, Uncounted};
use crate::intersect_by_rank::deposit::DepositBits;
use crate::intersect_by_rank::kernels::word_loop::{Narrowed, RankWords};
use crate::intersect_by_rank::rank_bits::{RankBits, word_inside};
use crate::intersect_by_rank::steps::Steps;
use crate::mask::{Mask, MaskError};
use mask_bits::byte_list::unwritten;
use mask_bits::words::{started_words, word_at};
use mask_bits::{BitBuffer, BitChunks};
use std::alloc::Global;

/// The values of one buffer narrowed by those of another, of which `true_count` are true. Each
/// started word of the first takes one deposit.
// rust: level alone
pub fn intersect_bit_buffers<D: DepositBits>(
    alloc: Global,
    self_buffer: &BitBuffer,
    mask_buffer: &BitBuffer,
    true_count: usize,
) -> Result<(Mask, Steps), MaskError>
    requires fitting { length (values mask_buffer.now) ≡ count (values self_buffer.now) }
    requires counted { true_count ≡ count (values mask_buffer.now) }
    ensures list { IfOk result (λ r.
        truth r.0 ≡ rank_intersection (values self_buffer.now) (values mask_buffer.now)) }
    ensures variant { IfOk result (λ r. variant r.0 ≡ fitting_variant all_false (truth r.0)) }
    ensures caches { IfOk result (λ r. caches r.0 ≡ no_caches) }
    ensures steps { IfOk result (λ r. r.1 ≡ word_steps (values self_buffer.now) (truth r.0)) }
    ensures refused { IsOkUnless result (MaskError.Memory alloc_error) }
{
    intersect_bit_buffers_with::<D, Steps>(alloc, self_buffer, mask_buffer, true_count)
}

// The mask of `intersect_bit_buffers`, with the steps where `C` counts them.
// rust: inline
#[tactic(auto, using(mask_bits::proofs::Lists::LawLemmas::rank_intersection_count, std::proofs::lemmas::List::take_at, crate::proofs::Lists::BufferPartLemmas::buffer_parts))]
pub(crate) fn intersect_bit_buffers_with<D: DepositBits, C: CountSteps>(
    alloc: Global,
    self_buffer: &BitBuffer,
    mask_buffer: &BitBuffer,
    true_count: usize,
) -> Result<(Mask, C), MaskError>
    requires fitting { length (values mask_buffer.now) ≡ count (values self_buffer.now) }
    requires counted { true_count ≡ count (values mask_buffer.now) }
    ensures list { IfOk result (λ r.
        truth r.0 ≡ rank_intersection (values self_buffer.now) (values mask_buffer.now)) }
    ensures variant { IfOk result (λ r. variant r.0 ≡ fitting_variant all_false (truth r.0)) }
    ensures caches { IfOk result (λ r. caches r.0 ≡ no_caches) }
    ensures steps { IfOk result (λ r. IfSome (C.step_counts r.1)
        (λ s. s ≡ word_steps (values self_buffer.now) (truth r.0))) }
    ensures refused { IsOkUnless result (MaskError.Memory alloc_error) }
{
    let len = self_buffer.len();
    let mut words = unwritten(alloc, 8 * started_words(len))?;
    let (ranks, offset) = (mask_buffer.inner().as_slice(), mask_buffer.offset());
    let chunks = self_buffer.chunks();
    let steps = narrow_words_with::<D, C>(&chunks, ranks, offset, mask_buffer.len(), &mut words);
    Ok((Mask::of_words(alloc, words, len, true_count)?, steps))
}

/// Writes the values of `chunks` narrowed by those of `ranks` to `out`, which has just the bytes of
/// the started words, and returns the steps.
// rust: level
// rust: called at its level
pub fn narrow_by_bits<D: DepositBits>(
    chunks: &BitChunks<'_>,
    ranks: &RankBits<'_>,
    out: &mut [u8],
) -> Steps
    requires fitting { length (values ranks.now) ≡ count chunks.now }
    requires within { IsWithinBytes ranks.now.bytes ranks.now.offset ranks.now.len }
    requires room { length out.old ≡ 8 * started_words (length chunks.now) }
    ensures list { bitmap out.new 0 (length chunks.now)
        ≡ rank_intersection chunks.now (values ranks.now) }
    ensures steps { result
        ≡ word_steps chunks.now (rank_intersection chunks.now (values ranks.now)) }
{
    narrow_by_bits_with::<D, Steps>(chunks, ranks, out)
}

// So few words go by the ranks where they lie: to make their last bytes ready takes as long as some words.
const FEW_WORDS: usize = 16;

/// Writes the values of `chunks` narrowed by the `len` bits of `ranks` from bit `offset` on to `out`, which has just the
/// bytes of the started words.
// rust: inline
pub fn narrow_words<D: DepositBits>(
    chunks: &BitChunks<'_>,
    ranks: &[u8],
    offset: usize,
    len: usize,
    out: &mut [u8],
)
    requires fitting { len ≡ count chunks.now }
    requires within { IsWithinBytes ranks.now offset len }
    requires room { length out.old ≡ 8 * started_words (length chunks.now) }
    ensures { bitmap out.new 0 (length chunks.now)
        ≡ rank_intersection chunks.now (bitmap ranks.now offset len) }
{
    narrow_words_with::<D, Uncounted>(chunks, ranks, offset, len, out);
}

// Writes what `narrow_words` does, and returns the steps where `C` counts them.
// rust: inline
fn narrow_words_with<D: DepositBits, C: CountSteps>(
    chunks: &BitChunks<'_>,
    ranks: &[u8],
    offset: usize,
    len: usize,
    out: &mut [u8],
) -> C
    requires fitting { len ≡ count chunks.now }
    requires within { IsWithinBytes ranks.now offset len }
    requires room { length out.old ≡ 8 * started_words (length chunks.now) }
    ensures list { bitmap out.new 0 (length chunks.now)
        ≡ rank_intersection chunks.now (bitmap ranks.now offset len) }
    ensures steps { IfSome (C.step_counts result) (λ s. s
        ≡ word_steps chunks.now (rank_intersection chunks.now (bitmap ranks.now offset len))) }
{
    if chunks.len() > FEW_WORDS {
        return narrow_by_bits_with::<D, C>(chunks, &RankBits::over(ranks, offset, len), out);
    }
    let anywhere = BitsAnywhere {
        bytes: ranks,
        offset,
    };
    Narrowed::new(offset).narrow_rest::<D, _>(chunks, &anywhere, out)
}

// Writes what `narrow_by_bits` does, and returns the steps where `C` counts them.
// rust: level
#[inline(never)]
fn narrow_by_bits_with<D: DepositBits, C: CountSteps>(
    chunks: &BitChunks<'_>,
    ranks: &RankBits<'_>,
    out: &mut [u8],
) -> C
    requires fitting { length (values ranks.now) ≡ count chunks.now }
    requires within { IsWithinBytes ranks.now.bytes ranks.now.offset ranks.now.len }
    requires room { length out.old ≡ 8 * started_words (length chunks.now) }
    ensures list { bitmap out.new 0 (length chunks.now)
        ≡ rank_intersection chunks.now (values ranks.now) }
    ensures steps { IfSome (C.step_counts result)
        (λ s. s ≡ word_steps chunks.now (rank_intersection chunks.now (values ranks.now))) }
{
    let inside = BitsInside {
        bytes: ranks.bytes(),
        offset: ranks.offset(),
    };
    let mut done = Narrowed::new(ranks.offset());
    done.narrow_pairs::<D, _>(chunks, &inside, out);
    done.narrow_rest::<D, _>(chunks, ranks, out)
}

// The bits of some bytes from bit `offset` on, as far as they can be read with one test for two words. A
// place is a position in the bytes.
#[derive(Drop)]
struct BitsInside<'a> {
    bytes: &'a [u8],
    offset: usize,
}

impl RankWords for BitsInside<'_> {
    ghost bit = { λ b k. backing_bit b.bytes.now (b.offset + k) };

    ghost end = { λ b. 2 ^ 64 - 1 - b.offset };

    ghost number = { λ b at. at - b.offset };

    ghost IsPassed = { λ b _ at. (b.offset ≤ at) × (at < 2 ^ 64) };

    // there are 24 bytes
    ghost Reaches = { λ b at. at < min ((length b.bytes.now - 23) * 8) (2 ^ 64 - 1) };

    #[inline(always)]
    fn reaches(&self, at: usize) -> bool {
        at < self.bytes.len().saturating_sub(23).saturating_mul(8)
    }

    // Two words from positions that are known to be inside.
    #[tactic(auto, using(crate::proofs::Kernels::WordKernelLemmas::bit_of_window))]
    #[inline(always)]
    fn two_words(&self, _next: &mut usize, at: usize, ones: [usize; 2]) -> [u64; 2] {
        let next = at + ones[0];
        [word_inside(self.bytes, at), word_inside(self.bytes, next)]
    }
}

// The bits of some bytes from bit `offset` on, with a test for each word. A place is a position in the bytes.
#[derive(Drop)]
struct BitsAnywhere<'a> {
    bytes: &'a [u8],
    offset: usize,
}

impl RankWords for BitsAnywhere<'_> {
    ghost bit = { λ b k. backing_bit b.bytes.now (b.offset + k) };

    ghost end = { λ b. 2 ^ 64 - 1 - b.offset };

    ghost number = { λ b at. at - b.offset };

    ghost IsPassed = { λ b _ at. (b.offset ≤ at) × (at < 2 ^ 64) };

    ghost Reaches = { λ _ _. ⊤ };

    #[inline(always)]
    fn reaches(&self, _at: usize) -> bool {
        true
    }

    #[tactic(auto, using(crate::proofs::Kernels::WordKernelLemmas::bit_of_window))]
    #[inline(always)]
    fn two_words(&self, _next: &mut usize, at: usize, ones: [usize; 2]) -> [u64; 2] {
        [word_at(self.bytes, at), word_at(self.bytes, at + ones[0])]
    }
}
