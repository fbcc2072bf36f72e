//! Laws of masks.
//!
//! A call of one of these does nothing when it runs: a caller's proof then knows the law.

ghost use Rattle.std.specs.Prelude.{◌≡◌};
ghost use Rattle.mask_bits.specs.RunScan.{runs};
ghost use Rattle.mask_bits.specs.Runs.{AreRanges};
ghost use Rattle.vortex_mask.specs.Caches.{caches};
ghost use Rattle.vortex_mask.specs.Mask.{truth, variant, fitting_variant};
ghost use Rattle.vortex_mask.specs.MaskValues.{AreOf};

use crate::mask::Mask;

/// A mask is held in the one variant that its list may have.
#[tactic(auto, using(crate::proofs::Masks::MaskLemmas::variant_facts))]
pub fn one_variant(mask: &Mask)
    ensures { variant mask.now ≡ fitting_variant (variant mask.now) (truth mask.now) }
{
    match mask {
        Mask::AllTrue(_) => {}
        Mask::AllFalse(_) => {}
        Mask::Values(values) => {
            // some values are true and some are not, as its count tells
            let _ = values.true_count();
        }
    }
}

/// The lists that a mask caches are its true indices and its runs, which hold exactly these indices.
pub fn cached_lists(mask: &Mask)
    ensures cached { AreOf (truth mask.now) (caches mask.now) }
    ensures lent { AreRanges (truth mask.now) (runs (truth mask.now)) }
{
    if let Mask::Values(values) = mask {
        // what it caches is of its own list
        let _ = values.cached_slices();
    }
}
