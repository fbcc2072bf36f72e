//! The true values of a mask behind its first ones.

ghost use Rattle.std.specs.Prelude.{◌≡◌, ◌≢◌, ◌+◌, ◌-◌, ◌<◌, ◌≤◌, ◌^◌, ◌++◌, false, IsOk, IfOk, OnOk, IsOkUnless, alloc_error, length, slice_range};
ghost use Rattle.mask_bits.specs.Buffer.{values};
ghost use Rattle.mask_bits.specs.Lists.{without_first};
ghost use Rattle.mask_bits.specs.Positions.{count, repeated};
ghost use Rattle.vortex_mask.specs.Caches.{caches};
ghost use Rattle.vortex_mask.specs.Mask.{truth, variant, fitting_variant, all_true, all_false, mixed};
ghost use Rattle.vortex_mask.specs.MaskValues.{no_caches};

use crate::laws;
use crate::mask::{Mask, MaskError};
use mask_bits::{BitBuffer, BitBufferMut};
use std::alloc::{AllocError, Global};

/// The true values behind the first ones.
#[tactic(auto, using(crate::proofs::Masks::MaskLemmas::variant_facts, crate::proofs::Masks::WithoutFirstLemmas::without_first_facts))]
impl Mask {
    /// All true values but the first `k`, which are false then: SQL's `OFFSET`, as [`Mask::limit`] is its `LIMIT`. The
    /// result is a clone of a mask that loses none.
    // rust: named try_without_first
    pub fn without_first(&self, alloc: Global, k: usize) -> Result<Mask, MaskError>
        ensures list { IfOk result (λ m. truth m ≡ without_first (truth self.now) k) }
        ensures len { IfOk result (λ m. length (truth m) ≡ length (truth self.now)) }
        ensures count { IfOk result (λ m. count (truth m) ≡ count (truth self.now) - k) }
        ensures variant { IfOk result
            (λ m. variant m ≡ fitting_variant (variant self.now) (truth m)) }
        ensures cut { 0 < k → IfOk result (λ m. caches m ≡ no_caches) }
        ensures unchanged { k ≡ 0 → IfOk result (λ m. caches m ≡ caches self.now) }

        // What needs no memory succeeds.
        ensures uniform { k ≡ 0 → variant self.now ≢ mixed → IsOk result }
        ensures none { 0 < k → count (truth self.now) ≤ k → IsOk result }
        ensures refused { IsOkUnless result (MaskError.Memory alloc_error) }
    {
        if k == 0 {
            laws::one_variant(self);
            return self.clone();
        }
        if self.true_count() <= k {
            return Ok(self.without_true());
        }
        self.without_first_of_more(alloc, k)
    }

    // As many values, of which none is true.
    fn without_true(&self) -> Mask
        ensures list { truth result ≡ repeated (length (truth self.now)) false }
        ensures variant { variant result ≡ fitting_variant (variant self.now) (truth result) }
        ensures caches { caches result ≡ no_caches }
    {
        match self {
            Mask::AllTrue(len) => all_false_of(*len),
            Mask::AllFalse(len) => Mask::AllFalse(*len),
            Mask::Values(values) => Mask::AllFalse(values.bit_buffer().len()),
        }
    }

    // All true values but the first `k` of more.
    fn without_first_of_more(&self, alloc: Global, k: usize) -> Result<Mask, MaskError>
        requires { k < count (truth self.now) }
        ensures list { IfOk result (λ m. truth m ≡ without_first (truth self.now) k) }
        ensures variant { IfOk result (λ m. variant m ≡ fitting_variant all_false (truth m)) }
        ensures caches { IfOk result (λ m. caches m ≡ no_caches) }
        ensures refused { IsOkUnless result (MaskError.Memory alloc_error) }
    {
        let left = self.true_count() - k;
        Mask::from_counted_buffer(alloc, self.true_from(alloc, k)?, left, None)
    }

    // The same, packed: false values, and those from true value number `k` on.
    fn true_from(&self, alloc: Global, k: usize) -> Result<BitBuffer, AllocError>
        requires { k < count (truth self.now) }
        ensures { IfOk result (λ b. values b ≡ without_first (truth self.now) k) }
    {
        let begin = self.rank(k);
        let mut bits = BitBufferMut::with_capacity(alloc, self.len())?;
        bits.append_n(false, begin)?;
        self.append_back(&mut bits, begin)?;
        bits.freeze()
    }

    // Appends the values from index `begin` on.
    fn append_back(&self, bits: &mut BitBufferMut, begin: usize) -> Result<(), AllocError>
        requires within { begin ≤ length (truth self.now) }
        requires fits { length bits.old + (length (truth self.now) - begin) < 2 ^ 64 }
        ensures { OnOk result
            (bits.new ≡ bits.old ++ slice_range (truth self.now) begin (length (truth self.now))) }
    {
        match self {
            Mask::AllTrue(len) => bits.append_n(true, *len - begin),
            Mask::AllFalse(len) => bits.append_n(false, *len - begin),
            Mask::Values(values) => {
                bits.append_buffer(&values.bit_buffer().slice(begin, values.len())?)
            }
        }
    }
}

// No true value of so many, where no value is held as all true.
#[tactic(auto, using(crate::proofs::Masks::MaskLemmas::variant_facts, crate::proofs::Masks::WithoutFirstLemmas::without_first_facts))]
fn all_false_of(len: usize) -> Mask
    ensures list { truth result ≡ repeated len false }
    ensures variant { variant result ≡ fitting_variant all_true (repeated len false) }
    ensures caches { caches result ≡ no_caches }
{
    if len == 0 {
        return Mask::AllTrue(0);
    }
    Mask::AllFalse(len)
}
