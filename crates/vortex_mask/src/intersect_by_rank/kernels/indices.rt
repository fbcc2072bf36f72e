//! The kernel over two lists of indices.

ghost use Rattle.std.specs.Prelude.{◌≡◌, ◌<◌, IfOk, IfSome, IsOkUnless, All, alloc_error, length};
ghost use Rattle.std.specs.List.Sorted.{IsStrictlyIncreasing};
ghost use Rattle.mask_bits.specs.Positions.{positions, at_indices};
ghost use Rattle.vortex_mask.specs.Caches.{caches, where_mixed};
ghost use Rattle.vortex_mask.specs.Mask.{truth, variant, fitting_variant, all_false};
ghost use Rattle.vortex_mask.specs.MaskValues.{only_indices};
ghost use Rattle.vortex_mask.specs.Steps.{no_steps};

use crate::intersect_by_rank::count_steps::CountSteps;
use crate::intersect_by_rank::steps::Steps;
use crate::mask::{Mask, MaskError};
use std::alloc::Global;

/// The mask of `len` values whose true indices are `self_indices` taken at `mask_indices`, which it
/// caches. No word is read and none is deposited.
pub fn intersect_by_rank_indices(
    alloc: Global,
    len: usize,
    self_indices: &[usize],
    mask_indices: &[usize],
) -> Result<(Mask, Steps), MaskError>
    requires self_ascending { IsStrictlyIncreasing self_indices.now }
    requires self_within { All (λ i. i < len) self_indices.now }
    requires mask_ascending { IsStrictlyIncreasing mask_indices.now }
    requires mask_within { All (λ k. k < length self_indices.now) mask_indices.now }
    ensures len { IfOk result (λ r. length (truth r.0) ≡ len) }
    ensures true_indices { IfOk result
        (λ r. positions (truth r.0) ≡ at_indices self_indices.now mask_indices.now) }
    ensures variant { IfOk result (λ r. variant r.0 ≡ fitting_variant all_false (truth r.0)) }
    ensures caches { IfOk result (λ r. caches r.0
        ≡ where_mixed r.0 (only_indices (at_indices self_indices.now mask_indices.now))) }
    ensures steps { IfOk result (λ r. r.1 ≡ no_steps) }
    ensures refused { IsOkUnless result (MaskError.Memory alloc_error) }
{
    intersect_by_rank_indices_with::<Steps>(alloc, len, self_indices, mask_indices)
}

// The mask of `intersect_by_rank_indices`, with no step.
pub(crate) fn intersect_by_rank_indices_with<C: CountSteps>(
    alloc: Global,
    len: usize,
    self_indices: &[usize],
    mask_indices: &[usize],
) -> Result<(Mask, C), MaskError>
    requires self_ascending { IsStrictlyIncreasing self_indices.now }
    requires self_within { All (λ i. i < len) self_indices.now }
    requires mask_ascending { IsStrictlyIncreasing mask_indices.now }
    requires mask_within { All (λ k. k < length self_indices.now) mask_indices.now }
    ensures len { IfOk result (λ r. length (truth r.0) ≡ len) }
    ensures true_indices { IfOk result
        (λ r. positions (truth r.0) ≡ at_indices self_indices.now mask_indices.now) }
    ensures variant { IfOk result (λ r. variant r.0 ≡ fitting_variant all_false (truth r.0)) }
    ensures caches { IfOk result (λ r. caches r.0
        ≡ where_mixed r.0 (only_indices (at_indices self_indices.now mask_indices.now))) }
    ensures steps { IfOk result (λ r. IfSome (C.step_counts r.1) (λ s. s ≡ no_steps)) }
    ensures refused { IsOkUnless result (MaskError.Memory alloc_error) }
{
    let mut indices = Vec::with_capacity(alloc, mask_indices.len())?;
    for rank in mask_indices {
        indices.push(self_indices[*rank])?;
    }
    let mask = Mask::of_indices(alloc, len, indices)?;
    Ok((mask, C::none()))
}
