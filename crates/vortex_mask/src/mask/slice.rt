//! Parts of a mask, and its groups.

ghost use Rattle.std.specs.Prelude.{◌≡◌, ◌≢◌, ◌-◌, ◌<◌, ◌≤◌, IsOk, IfOk, IsOkUnless, Ok, alloc_error, length, slice_range, ◌*◌, map, vec_len};
ghost use Rattle.std.specs.Int.{div_ceil};
ghost use Rattle.std.specs.List.{range_with_len};
ghost use Rattle.mask_bits.specs.Buffer.{values};
ghost use Rattle.mask_bits.specs.Lists.{group};
ghost use Rattle.mask_bits.specs.Positions.{count};
ghost use Rattle.vortex_mask.specs.Caches.{caches};
ghost use Rattle.vortex_mask.specs.Mask.{truth, variant, fitting_variant, variant_of_no_part, mixed};
ghost use Rattle.vortex_mask.specs.MaskValues.{no_caches};

use crate::mask::{Mask, MaskError};
use std::alloc::Global;

/// Parts.
#[tactic(auto, using(crate::proofs::Masks::MaskLemmas::variant_facts, crate::proofs::Masks::MaskLemmas::part_facts))]
impl Mask {
    /// The values `start..end`. The whole mask has its cached lists, and any other part has none.
    // rust: named try_slice
    pub fn slice(&self, alloc: Global, start: usize, end: usize) -> Result<Mask, MaskError>
        requires ordered { start ≤ end }
        requires within { end ≤ length (truth self.now) }
        ensures list { IfOk result (λ m. truth m ≡ slice_range (truth self.now) start end) }
        ensures variant { IfOk result (λ m. variant m
            ≡ fitting_variant (variant_of_no_part (variant self.now)) (truth m)) }
        ensures whole { end - start ≡ length (truth self.now)
            → IfOk result (λ m. caches m ≡ caches self.now) }
        ensures part { end - start < length (truth self.now)
            → IfOk result (λ m. caches m ≡ no_caches) }

        // What needs no memory succeeds.
        ensures uniform { variant self.now ≢ mixed → IsOk result }
        ensures refused { IsOkUnless result (MaskError.Memory alloc_error) }
    {
        match self {
            Mask::AllTrue(_) => Ok(Mask::AllTrue(end - start)),
            Mask::AllFalse(_) => Ok(Mask::AllFalse(end - start)),
            Mask::Values(values) => {
                let buffer = values.bit_buffer();
                if end - start == buffer.len() {
                    return self.clone();
                }
                Mask::from_buffer(alloc, buffer.slice(start, end)?)
            }
        }
    }
}

/// Groups of values.
#[tactic(auto, using(crate::proofs::Masks::GroupLemmas::group_facts))]
impl Mask {
    /// A mask for each group of `size` values, as for the row groups of a file or the batches of a
    /// scan. The last group may have fewer values, and no values give no group.
    // rust: named try_groups
    pub fn groups(&self, alloc: Global, size: usize) -> Result<Vec<Mask>, MaskError>
        requires { 0 < size }
        ensures groups { IfOk result (λ v. map truth v.items ≡ map (group (truth self.now) size)
            (range_with_len 0 (div_ceil (length (truth self.now)) size))) }
        ensures len { IfOk result
            (λ v. vec_len v ≡ div_ceil (length (truth self.now)) size) }
        ensures counts { IfOk result (λ v. map (λ m. count (truth m)) v.items
            ≡ map (λ g. count (group (truth self.now) size g))
            (range_with_len 0 (div_ceil (length (truth self.now)) size))) }
        ensures refused { IsOkUnless result (MaskError.Memory alloc_error) }
    {
        let count = self.len().div_ceil(size);
        let mut groups = Vec::with_capacity(alloc, count)?;
        for number in 0..count {
            let start = size * number;
            let end = start + size.min(self.len() - start);
            groups.push(self.slice(alloc, start, end)?)?;
        }
        Ok(groups)
    }
}
