//! Rank intersection: a mask narrowed by a mask over its true values.

mod count_steps;
mod deposit;
mod extract;
// rust: visible
mod kernels;
mod narrow;
mod path;
mod rank_bits;
mod select;
mod stack;
mod steps;

ghost use Rattle.std.specs.Prelude.{◌≡◌, ◌≢◌, ◌<◌, ◌⊎◌, ◌∷◌, [], IsOk, IfOk, IfSome, All, fold, map, length, IsOkUnless, alloc_error};
ghost use Rattle.vortex_mask.specs.Caches.{caches};
ghost use Rattle.vortex_mask.specs.Mask.{truth, variant, fitting_variant, variant_and, all_false, mixed};
ghost use Rattle.mask_bits.specs.Positions.{positions, count, at_indices, rank_intersection};
ghost use Rattle.mask_bits.specs.Stacks.{IsStack, folded_left};
ghost use Rattle.vortex_mask.specs.Path.{narrowed_caches, AreNarrowingSteps};

use crate::laws;
use crate::mask::{Mask, MaskError};
use count_steps::{CountSteps, Uncounted};
pub use deposit::{
    DepositBits, Portable, PortableLoop, deposit_bytewise, deposit_two_holes, deposit_two_lowest,
    deposits_by_loop,
};
pub use extract::ExtractBits;
pub use kernels::{
    intersect_bit_buffer_by_rank_indices, intersect_bit_buffers, intersect_by_rank_indices,
    intersect_mask_driven, narrow_at_ranks, narrow_by_bits, narrow_words,
};
use narrow::narrow_by_path;
pub use path::{RankPath, rank_path};
pub use rank_bits::RankBits;
pub use select::SelectBit;
use stack::{begins_by_lists, fold_down};
use std::alloc::Global;
pub use steps::Steps;

impl Mask {
    /// The mask in which the true values of this one are narrowed by a mask over them: true value
    /// number `k` stays true exactly where value `k` of `mask` is true.
    // rust: level alone
    // rust: needs a rank mask as long as the mask's count of true values
    // rust: named try_intersect_by_rank
    pub fn intersect_by_rank(&self, alloc: Global, mask: &Mask) -> Result<Mask, MaskError>
        requires { length (truth mask.now) ≡ count (truth self.now) }
        ensures len { IfOk result (λ m. length (truth m) ≡ length (truth self.now)) }
        ensures true_indices { IfOk result (λ m. positions (truth m)
            ≡ at_indices (positions (truth self.now)) (positions (truth mask.now))) }

        // The one list of that length and with those true indices.
        ensures list { IfOk result
            (λ m. truth m ≡ rank_intersection (truth self.now) (truth mask.now)) }
        ensures variant { IfOk result (λ m. variant m
            ≡ fitting_variant (variant_and (variant self.now) (variant mask.now)) (truth m)) }

        ensures caches { IfOk result
            (λ m. caches m ≡ narrowed_caches self.now mask.now m) }

        // What needs no memory succeeds.
        ensures uniform { variant self.now ≢ mixed → variant mask.now ≢ mixed → IsOk result }
        ensures none { (variant self.now ≡ all_false) ⊎ (variant mask.now ≡ all_false)
            → IsOk result }
        ensures refused { IsOkUnless result (MaskError.Memory alloc_error) }
    {
        Ok(self.intersect_by_rank_with::<Uncounted>(alloc, mask)?.0)
    }

    /// The mask of `intersect_by_rank`, with the steps that its kernel takes. No step is counted
    /// where no kernel runs: where a side is all true or all false.
    // rust: level alone
    // rust: needs a rank mask as long as the mask's count of true values
    // rust: named try_intersect_by_rank_counted
    pub fn intersect_by_rank_counted(
        &self,
        alloc: Global,
        mask: &Mask,
    ) -> Result<(Mask, Steps), MaskError>
        requires { length (truth mask.now) ≡ count (truth self.now) }
        ensures len { IfOk result (λ r. length (truth r.0) ≡ length (truth self.now)) }
        ensures true_indices { IfOk result (λ r. positions (truth r.0)
            ≡ at_indices (positions (truth self.now)) (positions (truth mask.now))) }
        ensures list { IfOk result
            (λ r. truth r.0 ≡ rank_intersection (truth self.now) (truth mask.now)) }
        ensures variant { IfOk result (λ r. variant r.0
            ≡ fitting_variant (variant_and (variant self.now) (variant mask.now)) (truth r.0)) }
        ensures caches { IfOk result
            (λ r. caches r.0 ≡ narrowed_caches self.now mask.now r.0) }
        ensures steps { IfOk result (λ r. AreNarrowingSteps self.now mask.now r.0 r.1) }

        // What needs no memory succeeds.
        ensures uniform { variant self.now ≢ mixed → variant mask.now ≢ mixed → IsOk result }
        ensures none { (variant self.now ≡ all_false) ⊎ (variant mask.now ≡ all_false)
            → IsOk result }
        ensures refused { IsOkUnless result (MaskError.Memory alloc_error) }
    {
        self.intersect_by_rank_with::<Steps>(alloc, mask)
    }

    // The mask of `intersect_by_rank`, with the steps that its kernel takes where `C` counts them.
    // rust: inline
    #[tactic(auto, using(crate::proofs::Masks::MaskLemmas::variant_facts, crate::proofs::Masks::MaskLemmas::narrowing_facts))]
    fn intersect_by_rank_with<C: CountSteps>(
        &self,
        alloc: Global,
        mask: &Mask,
    ) -> Result<(Mask, C), MaskError>
        requires { length (truth mask.now) ≡ count (truth self.now) }
        ensures len { IfOk result (λ r. length (truth r.0) ≡ length (truth self.now)) }
        ensures true_indices { IfOk result (λ r. positions (truth r.0)
            ≡ at_indices (positions (truth self.now)) (positions (truth mask.now))) }
        ensures list { IfOk result
            (λ r. truth r.0 ≡ rank_intersection (truth self.now) (truth mask.now)) }
        ensures variant { IfOk result (λ r. variant r.0
            ≡ fitting_variant (variant_and (variant self.now) (variant mask.now)) (truth r.0)) }
        ensures caches { IfOk result
            (λ r. caches r.0 ≡ narrowed_caches self.now mask.now r.0) }
        ensures steps { IfOk result
            (λ r. IfSome (C.step_counts r.1) (AreNarrowingSteps self.now mask.now r.0)) }
        ensures uniform { variant self.now ≢ mixed → variant mask.now ≢ mixed → IsOk result }
        ensures none { (variant self.now ≡ all_false) ⊎ (variant mask.now ≡ all_false)
            → IsOk result }
        ensures refused { IsOkUnless result (MaskError.Memory alloc_error) }
    {
        match (self, mask) {
            (_, Mask::AllTrue(_)) => {
                laws::one_variant(self);
                Ok((self.clone()?, C::none()))
            }
            (_, Mask::AllFalse(_)) | (Mask::AllFalse(_), _) => {
                Ok((Mask::new_false(self.len()), C::none()))
            }
            (Mask::AllTrue(_), Mask::Values(_)) => {
                laws::one_variant(mask);
                Ok((mask.clone()?, C::none()))
            }
            (Mask::Values(values), Mask::Values(ranks)) => narrow_by_path(alloc, values, ranks),
        }
    }

    /// This mask narrowed by each of `masks` in turn: by the first over its true values, and by each
    /// next one over the true values of the one before it. Without `masks` it is a clone.
    ///
    /// A stack of filters becomes one by this call. Once the result so far is all false no kernel runs. Which lists of
    /// its true indices the result of one mask or more caches is left open: it depends on each step.
    // rust: named try_intersect_all_by_rank
    #[tactic(auto, using(mask_bits::proofs::Lists::StackLemmas::length_of_fold))]
    pub fn intersect_all_by_rank(&self, alloc: Global, masks: &[Mask]) -> Result<Mask, MaskError>
        requires { IsStack (truth self.now ∷ map truth masks.now) }
        ensures len { IfOk result (λ m. length (truth m) ≡ length (truth self.now)) }
        ensures list { IfOk result
            (λ m. truth m ≡ folded_left (truth self.now ∷ map truth masks.now)) }
        ensures variant { IfOk result (λ m. variant m
            ≡ fitting_variant (fold variant_and (variant self.now) (map variant masks.now)) (truth m)) }
        ensures alone { masks.now ≡ [] → IfOk result (λ m. caches m ≡ caches self.now) }

        // What needs no memory succeeds.
        ensures uniform { variant self.now ≢ mixed → All (λ m. variant m ≢ mixed) masks.now
            → IsOk result }
        ensures none { variant self.now ≡ all_false → IsOk result }
        ensures refused { IsOkUnless result (MaskError.Memory alloc_error) }
    {
        // `docs/DECISIONS.md` says from which end a stack is folded, and why
        if let Mask::Values(values) = self {
            // where each mask chooses a row, no fold of them ends early
            let all_choose = masks.iter().all(|mask| mask.true_count() > 0);
            if masks.len() > 1 && all_choose && !begins_by_lists(values, masks) {
                return fold_down(alloc, self, masks);
            }
        }
        let mut narrowed = self.clone()?;
        for mask in masks {
            narrowed = narrowed.intersect_by_rank(alloc, mask)?;
        }
        laws::one_variant(&narrowed);
        Ok(narrowed)
    }
}
