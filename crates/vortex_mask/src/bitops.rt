//! The boolean calls of masks.

ghost use Rattle.std.specs.Prelude.{◌≡◌, ◌≢◌, ◌⊎◌, IsOk, IfOk, IsOkUnless, Ok, alloc_error, length};
ghost use Rattle.mask_bits.specs.Buffer.{values};
ghost use Rattle.mask_bits.specs.Lists.{combined, and_of, or_of, not_of, and_not_of};
ghost use Rattle.vortex_mask.specs.Bitops.{and_caches, or_caches, and_not_caches};
ghost use Rattle.vortex_mask.specs.Caches.{caches};
ghost use Rattle.vortex_mask.specs.Mask.{truth, variant, fitting_variant, variant_and, variant_or, variant_not, all_true, all_false, mixed};
ghost use Rattle.vortex_mask.specs.MaskValues.{no_caches};

use crate::laws;
use crate::mask::{Mask, MaskError, MaskValues};
use mask_bits::BitBuffer;
use mask_bits::byte_list::unwritten;
use mask_bits::combine::{And, AndNot, BitOp, Or, combine_counted};
use mask_bits::words::started_words;
use std::alloc::Global;

/// Boolean calls, value by value, of masks of one length.
///
/// The result caches an operand's lists of true indices where it is that operand.
#[tactic(auto, using(crate::proofs::Masks::MaskLemmas::variant_facts, crate::proofs::Masks::BitopLemmas::bitop_facts))]
impl Mask {
    /// The values that are true in both.
    // rust: says Masks must have the same length
    // rust: named try_bitand
    pub fn bitand(&self, alloc: Global, other: &Mask) -> Result<Mask, MaskError>
        requires { length (truth self.now) ≡ length (truth other.now) }
        ensures list { IfOk result (λ m. truth m ≡ and_of (truth self.now) (truth other.now)) }
        ensures len { IfOk result (λ m. length (truth m) ≡ length (truth self.now)) }
        ensures variant { IfOk result (λ m. variant m
            ≡ fitting_variant (variant_and (variant self.now) (variant other.now)) (truth m)) }
        ensures caches { IfOk result (λ m. caches m ≡ and_caches self.now other.now) }

        // What needs no memory succeeds.
        ensures uniform { variant self.now ≢ mixed → variant other.now ≢ mixed → IsOk result }
        ensures none { (variant self.now ≡ all_false) ⊎ (variant other.now ≡ all_false)
            → IsOk result }
        ensures refused { IsOkUnless result (MaskError.Memory alloc_error) }
    {
        match (self, other) {
            (_, Mask::AllTrue(_)) => {
                laws::one_variant(self);
                self.clone()
            }
            (_, Mask::AllFalse(_)) | (Mask::AllFalse(_), _) => Ok(Mask::new_false(self.len())),
            (Mask::AllTrue(_), Mask::Values(_)) => {
                laws::one_variant(other);
                other.clone()
            }
            (Mask::Values(a), Mask::Values(b)) => {
                combined_mask::<And>(alloc, a.bit_buffer(), b.bit_buffer())
            }
        }
    }

    /// The values that are true in one or in both.
    // rust: says Masks must have the same length
    // rust: named try_bitor
    pub fn bitor(&self, alloc: Global, other: &Mask) -> Result<Mask, MaskError>
        requires { length (truth self.now) ≡ length (truth other.now) }
        ensures list { IfOk result (λ m. truth m ≡ or_of (truth self.now) (truth other.now)) }
        ensures len { IfOk result (λ m. length (truth m) ≡ length (truth self.now)) }
        ensures variant { IfOk result (λ m. variant m
            ≡ fitting_variant (variant_or (variant self.now) (variant other.now)) (truth m)) }
        ensures caches { IfOk result (λ m. caches m ≡ or_caches self.now other.now) }

        // What needs no memory succeeds.
        ensures uniform { variant self.now ≢ mixed → variant other.now ≢ mixed → IsOk result }
        ensures all { (variant self.now ≡ all_true) ⊎ (variant other.now ≡ all_true)
            → IsOk result }
        ensures refused { IsOkUnless result (MaskError.Memory alloc_error) }
    {
        match (self, other) {
            (_, Mask::AllFalse(_)) => {
                laws::one_variant(self);
                self.clone()
            }
            (_, Mask::AllTrue(_)) | (Mask::AllTrue(_), _) => Ok(Mask::new_true(self.len())),
            (Mask::AllFalse(_), Mask::Values(_)) => {
                laws::one_variant(other);
                other.clone()
            }
            (Mask::Values(a), Mask::Values(b)) => {
                combined_mask::<Or>(alloc, a.bit_buffer(), b.bit_buffer())
            }
        }
    }

    /// The complement: each value negated.
    // rust: named try_not
    pub fn not(&self, alloc: Global) -> Result<Mask, MaskError>
        ensures list { IfOk result (λ m. truth m ≡ not_of (truth self.now)) }
        ensures len { IfOk result (λ m. length (truth m) ≡ length (truth self.now)) }
        ensures variant { IfOk result
            (λ m. variant m ≡ fitting_variant (variant_not (variant self.now)) (truth m)) }
        ensures caches { IfOk result (λ m. caches m ≡ no_caches) }

        // What needs no memory succeeds.
        ensures uniform { variant self.now ≢ mixed → IsOk result }
        ensures refused { IsOkUnless result (MaskError.Memory alloc_error) }
    {
        match self {
            Mask::AllTrue(len) => Ok(Mask::AllFalse(*len)),
            Mask::AllFalse(len) => Ok(Mask::AllTrue(*len)),
            Mask::Values(values) => {
                // what was false is true now, so nothing is counted
                let false_count = values.len() - values.true_count();
                Mask::from_counted_buffer(alloc, values.bit_buffer().not(alloc)?, false_count, None)
            }
        }
    }

    /// The values that are true here and not in `other`: `bitand_not` of a mask that is only lent.
    // rust: says Masks must have the same length
    // rust: named try_to_bitand_not
    pub fn to_bitand_not(&self, alloc: Global, other: &Mask) -> Result<Mask, MaskError>
        requires { length (truth self.now) ≡ length (truth other.now) }
        ensures list { IfOk result (λ m. truth m ≡ and_not_of (truth self.now) (truth other.now)) }
        ensures len { IfOk result (λ m. length (truth m) ≡ length (truth self.now)) }
        ensures variant { IfOk result (λ m. variant m ≡ fitting_variant
            (variant_and (variant self.now) (variant_not (variant other.now))) (truth m)) }
        ensures caches { IfOk result (λ m. caches m ≡ and_not_caches self.now other.now) }
        ensures uniform { variant self.now ≢ mixed → variant other.now ≢ mixed → IsOk result }
        ensures none { (variant self.now ≡ all_false) ⊎ (variant other.now ≡ all_true)
            → IsOk result }
        ensures refused { IsOkUnless result (MaskError.Memory alloc_error) }
    {
        match (self, other) {
            (_, Mask::AllFalse(_)) => {
                laws::one_variant(self);
                self.clone()
            }
            (_, Mask::AllTrue(_)) | (Mask::AllFalse(_), _) => Ok(Mask::new_false(self.len())),
            (Mask::AllTrue(_), Mask::Values(_)) => other.not(alloc),
            (Mask::Values(a), Mask::Values(b)) => {
                combined_mask::<AndNot>(alloc, a.bit_buffer(), b.bit_buffer())
            }
        }
    }
}

/// Boolean calls of a mask that is taken by value. It is the result where the other side changes nothing. Else a result
/// of mixed masks is written into its bytes, where nobody else holds them and it begins at a whole one.
#[tactic(auto, using(crate::proofs::Masks::MaskLemmas::variant_facts, crate::proofs::Masks::BitopLemmas::bitop_facts))]
impl Mask {
    /// The values that are true in both.
    // rust: says Masks must have the same length
    // rust: named try_into_bitand
    pub fn into_bitand(self, alloc: Global, other: &Mask) -> Result<Mask, MaskError>
        requires { length (truth self) ≡ length (truth other.now) }
        ensures list { IfOk result (λ m. truth m ≡ and_of (truth self) (truth other.now)) }
        ensures len { IfOk result (λ m. length (truth m) ≡ length (truth self)) }
        ensures variant { IfOk result (λ m. variant m
            ≡ fitting_variant (variant_and (variant self) (variant other.now)) (truth m)) }
        ensures caches { IfOk result (λ m. caches m ≡ and_caches self other.now) }

        // What needs no memory succeeds.
        ensures itself { variant other.now ≡ all_true → result ≡ Ok self }
        ensures uniform { variant self ≢ mixed → variant other.now ≢ mixed → IsOk result }
        ensures none { (variant self ≡ all_false) ⊎ (variant other.now ≡ all_false)
            → IsOk result }
        ensures refused { IsOkUnless result (MaskError.Memory alloc_error) }
    {
        if let Mask::AllTrue(_) = other {
            laws::one_variant(&self);
            return Ok(self);
        }
        match (self, other) {
            (Mask::Values(a), Mask::Values(b)) => {
                let bits = MaskValues::buffer_of(a)?.into_bitand(alloc, b.bit_buffer())?;
                Mask::from_buffer(alloc, bits)
            }
            (mask, other) => mask.bitand(alloc, other),
        }
    }

    /// The values that are true in one or in both.
    // rust: says Masks must have the same length
    // rust: named try_into_bitor
    pub fn into_bitor(self, alloc: Global, other: &Mask) -> Result<Mask, MaskError>
        requires { length (truth self) ≡ length (truth other.now) }
        ensures list { IfOk result (λ m. truth m ≡ or_of (truth self) (truth other.now)) }
        ensures len { IfOk result (λ m. length (truth m) ≡ length (truth self)) }
        ensures variant { IfOk result (λ m. variant m
            ≡ fitting_variant (variant_or (variant self) (variant other.now)) (truth m)) }
        ensures caches { IfOk result (λ m. caches m ≡ or_caches self other.now) }

        // What needs no memory succeeds.
        ensures itself { variant other.now ≡ all_false → result ≡ Ok self }
        ensures uniform { variant self ≢ mixed → variant other.now ≢ mixed → IsOk result }
        ensures all { (variant self ≡ all_true) ⊎ (variant other.now ≡ all_true)
            → IsOk result }
        ensures refused { IsOkUnless result (MaskError.Memory alloc_error) }
    {
        if let Mask::AllFalse(_) = other {
            laws::one_variant(&self);
            return Ok(self);
        }
        match (self, other) {
            (Mask::Values(a), Mask::Values(b)) => {
                let bits = MaskValues::buffer_of(a)?.into_bitor(alloc, b.bit_buffer())?;
                Mask::from_buffer(alloc, bits)
            }
            (mask, other) => mask.bitor(alloc, other),
        }
    }

    /// The complement: each value negated.
    // rust: named try_into_not
    pub fn into_not(self, alloc: Global) -> Result<Mask, MaskError>
        ensures list { IfOk result (λ m. truth m ≡ not_of (truth self)) }
        ensures len { IfOk result (λ m. length (truth m) ≡ length (truth self)) }
        ensures variant { IfOk result
            (λ m. variant m ≡ fitting_variant (variant_not (variant self)) (truth m)) }
        ensures caches { IfOk result (λ m. caches m ≡ no_caches) }

        // What needs no memory succeeds.
        ensures uniform { variant self ≢ mixed → IsOk result }
        ensures refused { IsOkUnless result (MaskError.Memory alloc_error) }
    {
        match self {
            Mask::Values(values) => {
                let false_count = values.len() - values.true_count();
                let bits = MaskValues::buffer_of(values)?.into_not(alloc)?;
                Mask::from_counted_buffer(alloc, bits, false_count, None)
            }
            mask => mask.not(alloc),
        }
    }

    /// The values that are true here and not in `other`.
    // rust: says Masks must have the same length
    // rust: named try_bitand_not
    pub fn bitand_not(self, alloc: Global, other: &Mask) -> Result<Mask, MaskError>
        requires { length (truth self) ≡ length (truth other.now) }
        ensures list { IfOk result (λ m. truth m ≡ and_not_of (truth self) (truth other.now)) }
        ensures len { IfOk result (λ m. length (truth m) ≡ length (truth self)) }
        ensures variant { IfOk result (λ m. variant m ≡ fitting_variant
            (variant_and (variant self) (variant_not (variant other.now))) (truth m)) }
        ensures caches { IfOk result (λ m. caches m ≡ and_not_caches self other.now) }

        // What needs no memory succeeds.
        ensures itself { variant other.now ≡ all_false → result ≡ Ok self }
        ensures uniform { variant self ≢ mixed → variant other.now ≢ mixed → IsOk result }
        ensures none { (variant self ≡ all_false) ⊎ (variant other.now ≡ all_true)
            → IsOk result }
        ensures refused { IsOkUnless result (MaskError.Memory alloc_error) }
    {
        match (self, other) {
            (mask, Mask::AllFalse(_)) => {
                laws::one_variant(&mask);
                Ok(mask)
            }
            (Mask::Values(a), Mask::Values(b)) => {
                let bits = MaskValues::buffer_of(a)?.into_bitand_not(alloc, b.bit_buffer())?;
                Mask::from_buffer(alloc, bits)
            }
            (mask, other) => mask.to_bitand_not(alloc, other),
        }
    }
}

// The mask of what `C` makes of two buffers. Its true values are counted as they are written.
// rust: visible
#[tactic(auto, using(mask_bits::proofs::Lists::Words::BackingBitLemmas::lengths))]
fn combined_mask<C: BitOp>(alloc: Global, a: &BitBuffer, b: &BitBuffer) -> Result<Mask, MaskError>
    requires { length (values a.now) ≡ length (values b.now) }
    ensures list { IfOk result (λ m. truth m ≡ combined C.of_bits (values a.now) (values b.now)) }
    ensures variant { IfOk result (λ m. variant m ≡ fitting_variant all_false (truth m)) }
    ensures caches { IfOk result (λ m. caches m ≡ no_caches) }
    ensures refused { IsOkUnless result (MaskError.Memory alloc_error) }
{
    let len = a.len();
    let mut out = unwritten(alloc, 8 * started_words(len))?;
    let (first, second) = (a.inner().as_slice(), b.inner().as_slice());
    let true_count = combine_counted::<C>(first, a.offset(), second, b.offset(), len, &mut out);
    Mask::of_words(alloc, out, len, true_count)
}
