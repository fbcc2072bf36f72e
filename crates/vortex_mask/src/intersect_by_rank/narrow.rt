//! The call of the kernel that a path names.

ghost use Rattle.std.specs.Prelude.{◌≡◌, ◌<◌, IfOk, IsOkUnless, alloc_error, length};
ghost use Rattle.mask_bits.specs.Buffer.{values};
ghost use Rattle.mask_bits.specs.Positions.{count};
ghost use Rattle.vortex_mask.specs.Mask.{truth};
ghost use Rattle.vortex_mask.specs.Path.{path_of, IsNarrowedOn};

use crate::intersect_by_rank::count_steps::CountSteps;
use crate::intersect_by_rank::deposit::{Portable, PortableLoop, deposits_by_loop};
use crate::intersect_by_rank::kernels::{
    intersect_bit_buffer_by_rank_indices_with, intersect_bit_buffers_with,
    intersect_by_rank_indices_with, intersect_mask_driven_with,
};
use crate::intersect_by_rank::path::{RankPath, rank_path};
use crate::mask::{Mask, MaskError, MaskValues};
use std::alloc::Global;

// The rank intersection of two mixed masks, by the kernel that `rank_path` names.
// rust: inline
#[tactic(auto, using(crate::proofs::Masks::MaskLemmas::narrowing_facts, crate::proofs::Kernels::PathLemmas::path_facts))]
pub(super) fn narrow_by_path<C: CountSteps>(
    alloc: Global,
    rows: &MaskValues,
    ranks: &MaskValues,
) -> Result<(Mask, C), MaskError>
    requires { length (values ranks.now.buffer) ≡ count (values rows.now.buffer) }
    ensures narrowed { IfOk result
        (λ r. IsNarrowedOn (path_of rows.now ranks.now) rows.now ranks.now r.0
        (C.step_counts r.1)) }
    ensures nonempty { IfOk result (λ r. 0 < length (truth r.0)) }
    ensures refused { IsOkUnless result (MaskError.Memory alloc_error) }
{
    let by_loop = deposits_by_loop(rows.len(), rows.true_count());
    let (buffer, bits, true_count) = (rows.bit_buffer(), ranks.bit_buffer(), ranks.true_count());
    match rank_path(rows, ranks) {
        RankPath::Indices => by_indices(alloc, rows, ranks),
        RankPath::MaskDriven => by_selections(alloc, rows, ranks),
        RankPath::BitBuffers if by_loop => {
            intersect_bit_buffers_with::<PortableLoop, _>(alloc, buffer, bits, true_count)
        }
        RankPath::BitBuffers => {
            intersect_bit_buffers_with::<Portable, _>(alloc, buffer, bits, true_count)
        }
        RankPath::RankIndices if by_loop => {
            let indices = ranks.cached_indices().unwrap();
            intersect_bit_buffer_by_rank_indices_with::<PortableLoop, _>(alloc, buffer, indices)
        }
        RankPath::RankIndices => {
            let indices = ranks.cached_indices().unwrap();
            intersect_bit_buffer_by_rank_indices_with::<Portable, _>(alloc, buffer, indices)
        }
    }
}

// Of true indices of both, which are listed where they are not cached.
#[tactic(auto, using(crate::proofs::Kernels::PathLemmas::path_facts))]
fn by_indices<C: CountSteps>(
    alloc: Global,
    rows: &MaskValues,
    ranks: &MaskValues,
) -> Result<(Mask, C), MaskError>
    requires { length (values ranks.now.buffer) ≡ count (values rows.now.buffer) }
    ensures narrowed { IfOk result
        (λ r. IsNarrowedOn RankPath.Indices rows.now ranks.now r.0
        (C.step_counts r.1)) }
    ensures refused { IsOkUnless result (MaskError.Memory alloc_error) }
{
    let (indices, ranks) = (rows.true_indices(alloc)?, ranks.true_indices(alloc)?);
    intersect_by_rank_indices_with(alloc, rows.len(), indices.as_slice(), ranks.as_slice())
}

// By a selection for each true index of the second, which are walked over where they aren't cached.
fn by_selections<C: CountSteps>(
    alloc: Global,
    rows: &MaskValues,
    ranks: &MaskValues,
) -> Result<(Mask, C), MaskError>
    requires { length (values ranks.now.buffer) ≡ count (values rows.now.buffer) }
    ensures narrowed { IfOk result
        (λ r. IsNarrowedOn RankPath.MaskDriven rows.now ranks.now r.0
        (C.step_counts r.1)) }
    ensures refused { IsOkUnless result (MaskError.Memory alloc_error) }
{
    let (buffer, true_count) = (rows.bit_buffer(), ranks.true_count());
    match ranks.cached_indices() {
        Some(cached) => {
            let ranks = cached.iter().copied();
            intersect_mask_driven_with::<Portable, _, _>(alloc, buffer, ranks, true_count)
        }
        None => {
            let ranks = ranks.bit_buffer().set_indices();
            intersect_mask_driven_with::<Portable, _, _>(alloc, buffer, ranks, true_count)
        }
    }
}
