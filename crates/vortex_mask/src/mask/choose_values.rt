//! The values of a mask at the rows that another chooses.

ghost use Rattle.std.specs.Prelude.{◌≡◌, ◌≢◌, IsOk, IfOk, IsOkUnless, alloc_error, length};
ghost use Rattle.mask_bits.specs.Positions.{count, chosen};
ghost use Rattle.vortex_mask.specs.Caches.{caches};
ghost use Rattle.vortex_mask.specs.Mask.{truth, variant, fitting_variant, variant_of_no_part, all_true, all_false, mixed};
ghost use Rattle.vortex_mask.specs.MaskValues.{no_caches};

use crate::mask::{Mask, MaskError};
use std::alloc::Global;

/// The way back of a rank intersection.
#[tactic(auto, using(crate::proofs::Masks::MaskLemmas::variant_facts, crate::proofs::Masks::MaskLemmas::chosen_value_facts))]
impl Mask {
    /// The values of `of` at the rows that this mask chooses, in their order: one for each true
    /// value of this mask. Arrow calls it to filter `of` by this mask.
    ///
    /// It filters a column's validity bitmap beside the column. It also makes a rank mask of a
    /// predicate that was evaluated on all rows: narrowed by it, this mask is its `and` with `of`.
    ///
    /// Where this mask is all true, the result is a clone of `of`.
    // rust: named try_choose_values
    pub fn choose_values(&self, alloc: Global, of: &Mask) -> Result<Mask, MaskError>
        requires { length (truth of.now) ≡ length (truth self.now) }
        ensures list { IfOk result (λ m. truth m ≡ chosen (truth of.now) (truth self.now)) }
        ensures len { IfOk result (λ m. length (truth m) ≡ count (truth self.now)) }
        ensures variant { IfOk result (λ m. variant m
            ≡ fitting_variant (variant_of_no_part (variant of.now)) (truth m)) }
        ensures whole { variant self.now ≡ all_true → IfOk result (λ m. caches m ≡ caches of.now) }
        ensures part { variant self.now ≢ all_true → IfOk result (λ m. caches m ≡ no_caches) }

        // What needs no memory succeeds.
        ensures uniform { variant of.now ≢ mixed → IsOk result }
        ensures none { variant self.now ≡ all_false → IsOk result }
        ensures refused { IsOkUnless result (MaskError.Memory alloc_error) }
    {
        match (self, of) {
            (_, Mask::AllTrue(_)) => Ok(Mask::AllTrue(self.true_count())),
            (_, Mask::AllFalse(_)) => Ok(Mask::AllFalse(self.true_count())),
            (Mask::AllTrue(_), Mask::Values(values)) => {
                // some values are true and some are not, as its count tells
                let _ = values.true_count();
                of.clone()
            }
            (Mask::AllFalse(_), Mask::Values(_)) => Ok(Mask::AllFalse(0)),
            (Mask::Values(chosen), Mask::Values(values)) => {
                let bits = chosen
                    .bit_buffer()
                    .choose_values(alloc, values.bit_buffer())?;
                Mask::from_buffer(alloc, bits)
            }
        }
    }
}
