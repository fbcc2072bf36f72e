//! A stack of masks as one, from the last mask down. `docs/DECISIONS.md` says why, and where a fold goes up.

ghost use Rattle.std.specs.Prelude.{◌≡◌, ◌∷◌, ◌<◌, ◌↔◌, IsTrue, IsSomeAnd, All, IfOk, IsOkUnless, alloc_error, length, map};
ghost use Rattle.vortex_mask.specs.Mask.{truth, variant, fitting_variant, mixed};
ghost use Rattle.vortex_mask.specs.StackFold.{TakesListAtList, first_mixed};
ghost use Rattle.mask_bits.specs.Positions.{count};
ghost use Rattle.mask_bits.specs.Stacks.{IsStack, folded_left};

use crate::intersect_by_rank::path::{RankPath, rank_path};
use crate::mask::{Mask, MaskError, MaskValues};
use std::alloc::Global;

// Whether the fold from the first mask up begins by taking one cached list at another, which reads no word and leaves
// a list for the next step. An all-true mask changes nothing.
pub(super) fn begins_by_lists(first: &MaskValues, masks: &[Mask]) -> bool
    ensures { IsTrue result ↔ IsSomeAnd (first_mixed masks.now) (TakesListAtList first.now) }
{
    for mask in masks {
        if let Mask::Values(ranks) = mask {
            let are_listed = first.cached_indices().is_some() && ranks.cached_indices().is_some();
            return are_listed && rank_path(first, ranks) == RankPath::Indices;
        }
    }
    false
}

// The first mask narrowed by the fold of the others, each of which chooses a row.
pub(super) fn fold_down(alloc: Global, first: &Mask, masks: &[Mask]) -> Result<Mask, MaskError>
    requires stack { IsStack (truth first.now ∷ map truth masks.now) }
    requires some { 0 < length masks.now }
    requires choose { All (λ m. 0 < count (truth m)) masks.now }
    ensures list { IfOk result (λ m. truth m ≡ folded_left (truth first.now ∷ map truth masks.now)) }
    ensures nonempty { IfOk result (λ m. 0 < length (truth m)) }
    ensures variant { IfOk result (λ m. variant m ≡ fitting_variant mixed (truth m)) }
    ensures refused { IsOkUnless result (MaskError.Memory alloc_error) }
{
    let mut i = masks.len() - 1;
    let mut narrowed = masks[i].clone()?;
    while i > 0 {
        i -= 1;
        narrowed = masks[i].intersect_by_rank(alloc, &narrowed)?;
    }
    first.intersect_by_rank(alloc, &narrowed)
}
