//! The kernel over a bit buffer and the indices of a rank mask: one deposit for each started word.

ghost use Rattle.std.specs.Prelude.{◌≡◌, ◌*◌, ◌<◌, ◌^◌, All, IfOk, IfSome, IsOkUnless, alloc_error, length};
ghost use Rattle.std.specs.List.Sorted.{IsStrictlyIncreasing};
ghost use Rattle.mask_bits.specs.Bitmap.{bitmap};
ghost use Rattle.mask_bits.specs.Buffer.{values};
ghost use Rattle.mask_bits.specs.Positions.{positions, count, at_indices, true_at};
ghost use Rattle.vortex_mask.specs.Caches.{caches};
ghost use Rattle.vortex_mask.specs.Mask.{truth, variant, fitting_variant, all_false};
ghost use Rattle.vortex_mask.specs.MaskValues.{no_caches};
ghost use Rattle.vortex_mask.specs.Ranks.{is_listed, narrowed_by};
ghost use Rattle.vortex_mask.specs.Steps.{word_steps};
ghost use Rattle.mask_bits.specs.Words.{started_words};

use crate::intersect_by_rank::count_steps::CountSteps;
use crate::intersect_by_rank::deposit::DepositBits;
use crate::intersect_by_rank::kernels::rank_blocks::narrow_by_blocks;
use crate::intersect_by_rank::kernels::rank_lists::ListedRanks;
use crate::intersect_by_rank::kernels::word_loop::Narrowed;
use crate::intersect_by_rank::steps::Steps;
use crate::mask::{Mask, MaskError};
use mask_bits::words::started_words;
use mask_bits::{BitBuffer, BitChunks};
use std::alloc::Global;

/// The values of a buffer narrowed to the true ones whose numbers are `mask_indices`. Each started
/// word of the buffer takes one deposit.
pub fn intersect_bit_buffer_by_rank_indices<D: DepositBits>(
    alloc: Global,
    self_buffer: &BitBuffer,
    mask_indices: &[usize],
) -> Result<(Mask, Steps), MaskError>
    requires ascending { IsStrictlyIncreasing mask_indices.now }
    requires within { All (λ k. k < count (values self_buffer.now)) mask_indices.now }
    ensures len { IfOk result (λ r. length (truth r.0) ≡ length (values self_buffer.now)) }
    ensures true_indices { IfOk result (λ r. positions (truth r.0)
        ≡ at_indices (positions (values self_buffer.now)) mask_indices.now) }
    ensures variant { IfOk result (λ r. variant r.0 ≡ fitting_variant all_false (truth r.0)) }
    ensures caches { IfOk result (λ r. caches r.0 ≡ no_caches) }
    ensures steps { IfOk result (λ r. r.1 ≡ word_steps (values self_buffer.now) (truth r.0)) }
    ensures refused { IsOkUnless result (MaskError.Memory alloc_error) }
{
    intersect_bit_buffer_by_rank_indices_with::<D, Steps>(alloc, self_buffer, mask_indices)
}

// The mask of `intersect_bit_buffer_by_rank_indices`, with the steps where `C` counts them.
pub(crate) fn intersect_bit_buffer_by_rank_indices_with<D: DepositBits, C: CountSteps>(
    alloc: Global,
    self_buffer: &BitBuffer,
    mask_indices: &[usize],
) -> Result<(Mask, C), MaskError>
    requires ascending { IsStrictlyIncreasing mask_indices.now }
    requires within { All (λ k. k < count (values self_buffer.now)) mask_indices.now }
    ensures len { IfOk result (λ r. length (truth r.0) ≡ length (values self_buffer.now)) }
    ensures true_indices { IfOk result (λ r. positions (truth r.0)
        ≡ at_indices (positions (values self_buffer.now)) mask_indices.now) }
    ensures variant { IfOk result (λ r. variant r.0 ≡ fitting_variant all_false (truth r.0)) }
    ensures caches { IfOk result (λ r. caches r.0 ≡ no_caches) }
    ensures steps { IfOk result (λ r. IfSome (C.step_counts r.1)
        (λ s. s ≡ word_steps (values self_buffer.now) (truth r.0))) }
    ensures refused { IsOkUnless result (MaskError.Memory alloc_error) }
{
    let len = self_buffer.len();
    let mut words = vec![in alloc; 0u8; 8 * started_words(len)]?;
    let steps = narrow_at_ranks_with::<D, C>(&self_buffer.chunks(), mask_indices, &mut words);
    Ok((
        Mask::of_words(alloc, words, len, mask_indices.len())?,
        steps,
    ))
}

/// Writes the values of `chunks` narrowed to the true ones whose numbers are `ranks` to `out`, which
/// has just the bytes of the started words, and returns the steps.
pub fn narrow_at_ranks<D: DepositBits>(
    chunks: &BitChunks<'_>,
    ranks: &[usize],
    out: &mut [u8],
) -> Steps
    requires fits { length chunks.now < 2 ^ 64 }
    requires ascending { IsStrictlyIncreasing ranks.now }
    requires within { All (λ k. k < count chunks.now) ranks.now }
    requires room { length out.old ≡ 8 * started_words (length chunks.now) }
    ensures list { bitmap out.new 0 (length chunks.now)
        ≡ true_at (length chunks.now) (at_indices (positions chunks.now) ranks.now) }
    ensures steps { result ≡ word_steps chunks.now
        (true_at (length chunks.now) (at_indices (positions chunks.now) ranks.now)) }
{
    narrow_at_ranks_with::<D, Steps>(chunks, ranks, out)
}

// Writes what `narrow_at_ranks` does, and returns the steps where `C` counts them.
// rust: level
fn narrow_at_ranks_with<D: DepositBits, C: CountSteps>(
    chunks: &BitChunks<'_>,
    ranks: &[usize],
    out: &mut [u8],
) -> C
    requires fits { length chunks.now < 2 ^ 64 }
    requires ascending { IsStrictlyIncreasing ranks.now }
    requires within { All (λ k. k < count chunks.now) ranks.now }
    requires room { length out.old ≡ 8 * started_words (length chunks.now) }
    ensures list { bitmap out.new 0 (length chunks.now)
        ≡ true_at (length chunks.now) (at_indices (positions chunks.now) ranks.now) }
    ensures steps { IfSome (C.step_counts result) (λ s. s ≡ word_steps chunks.now
        (true_at (length chunks.now) (at_indices (positions chunks.now) ranks.now))) }
{
    if chunks.len() < SOME_WORDS || ranks.len() / RANKS_IN_A_WORD > chunks.len() {
        return narrow_by_list::<D, C>(chunks, ranks, out);
    }
    let mut done = Narrowed::new(0);
    narrow_by_blocks::<D, C>(&mut done, chunks, ranks, out);
    done.narrow_rest::<D, _>(chunks, &ListedRanks { ranks }, out)
}

// With more of them in a word of self than that, ranks are quicker to take word by word, while the deposit
// before is under way.
const RANKS_IN_A_WORD: usize = 12;

// Fewer words than that are not worth the zeros of a block.
const SOME_WORDS: usize = 64;

// Narrows word after word. Never inlined, so that its loop has all registers.
// rust: level
#[inline(never)]
fn narrow_by_list<D: DepositBits, C: CountSteps>(
    chunks: &BitChunks<'_>,
    ranks: &[usize],
    out: &mut [u8],
) -> C
    requires fits { length chunks.now < 2 ^ 64 }
    requires ascending { IsStrictlyIncreasing ranks.now }
    requires room { length out.old ≡ 8 * started_words (length chunks.now) }
    ensures list { bitmap out.new 0 (length chunks.now)
        ≡ narrowed_by (is_listed ranks.now) chunks.now }
    ensures steps { IfSome (C.step_counts result)
        (λ s. s ≡ word_steps chunks.now (narrowed_by (is_listed ranks.now) chunks.now)) }
{
    Narrowed::new(0).narrow_rest::<D, _>(chunks, &ListedRanks { ranks }, out)
}
