//! The first true values of a mask.

ghost use Rattle.std.specs.Prelude.{◌≡◌, ◌≢◌, ◌+◌, ◌<◌, ◌≤◌, ◌^◌, ◌++◌, IsOk, IfOk, OnOk, IsOkUnless, Ok, alloc_error, length, min, slice_range};
ghost use Rattle.mask_bits.specs.Buffer.{values};
ghost use Rattle.mask_bits.specs.Lists.{limited};
ghost use Rattle.mask_bits.specs.Positions.{count};
ghost use Rattle.vortex_mask.specs.Caches.{caches};
ghost use Rattle.vortex_mask.specs.Mask.{truth, variant, fitting_variant, all_false, mixed};
ghost use Rattle.vortex_mask.specs.MaskValues.{no_caches};

use crate::laws;
use crate::mask::{Mask, MaskError};
use mask_bits::{BitBuffer, BitBufferMut};
use std::alloc::{AllocError, Global};

/// The first true values.
#[tactic(auto, using(crate::proofs::Masks::MaskLemmas::variant_facts, crate::proofs::Masks::MaskLemmas::part_facts))]
impl Mask {
    /// The first `k` true values, and false ones from there on. A mask that has no more true ones stays as it is.
    // rust: named try_limit
    pub fn limit(self, alloc: Global, k: usize) -> Result<Mask, MaskError>
        ensures list { IfOk result (λ m. truth m ≡ limited (truth self) k) }
        ensures len { IfOk result (λ m. length (truth m) ≡ length (truth self)) }
        ensures count { IfOk result (λ m. count (truth m) ≡ min k (count (truth self))) }
        ensures variant { IfOk result
            (λ m. variant m ≡ fitting_variant (variant self) (truth m)) }
        ensures cut { k < count (truth self) → IfOk result (λ m. caches m ≡ no_caches) }

        // What needs no memory succeeds.
        ensures unchanged { count (truth self) ≤ k → result ≡ Ok self }
        ensures none { k ≡ 0 → IsOk result }
        ensures refused { IsOkUnless result (MaskError.Memory alloc_error) }
    {
        if self.true_count() <= k {
            laws::one_variant(&self);
            return Ok(self);
        }
        self.limit_below_count(alloc, k)
    }

    /// The first `k` true values of a mask that is only lent, and false ones from there on. The
    /// result is a clone of a mask that has no more true ones.
    // rust: named try_to_limited
    pub fn to_limited(&self, alloc: Global, k: usize) -> Result<Mask, MaskError>
        ensures list { IfOk result (λ m. truth m ≡ limited (truth self.now) k) }
        ensures len { IfOk result (λ m. length (truth m) ≡ length (truth self.now)) }
        ensures count { IfOk result (λ m. count (truth m) ≡ min k (count (truth self.now))) }
        ensures variant { IfOk result
            (λ m. variant m ≡ fitting_variant (variant self.now) (truth m)) }
        ensures cut { k < count (truth self.now) → IfOk result (λ m. caches m ≡ no_caches) }
        ensures unchanged { count (truth self.now) ≤ k
            → IfOk result (λ m. caches m ≡ caches self.now) }

        // What needs no memory succeeds.
        ensures uniform { count (truth self.now) ≤ k → variant self.now ≢ mixed → IsOk result }
        ensures none { k ≡ 0 → 0 < count (truth self.now) → IsOk result }
        ensures refused { IsOkUnless result (MaskError.Memory alloc_error) }
    {
        if self.true_count() <= k {
            laws::one_variant(self);
            return self.clone();
        }
        self.limit_below_count(alloc, k)
    }

    // The first `k` true values of more, and false ones from there on.
    fn limit_below_count(&self, alloc: Global, k: usize) -> Result<Mask, MaskError>
        requires { k < count (truth self.now) }
        ensures list { IfOk result (λ m. truth m ≡ limited (truth self.now) k) }
        ensures variant { IfOk result (λ m. variant m ≡ fitting_variant all_false (truth m)) }
        ensures caches { IfOk result (λ m. caches m ≡ no_caches) }
        ensures none { k ≡ 0 → IsOk result }
        ensures refused { IsOkUnless result (MaskError.Memory alloc_error) }
    {
        if k == 0 {
            return Ok(Mask::AllFalse(self.len()));
        }
        Mask::from_counted_buffer(alloc, self.first_true(alloc, k)?, k, None)
    }

    // The first `k` true values of more, packed.
    fn first_true(&self, alloc: Global, k: usize) -> Result<BitBuffer, AllocError>
        requires { k < count (truth self.now) }
        ensures { IfOk result (λ b. values b ≡ limited (truth self.now) k) }
    {
        let len = self.len();
        let end = self.rank(k);
        let mut bits = BitBufferMut::with_capacity(alloc, len)?;
        self.append_front(&mut bits, end)?;
        bits.append_n(false, len - bits.len())?;
        bits.freeze()
    }

    // Appends the values before index `end`.
    fn append_front(&self, bits: &mut BitBufferMut, end: usize) -> Result<(), AllocError>
        requires within { end ≤ length (truth self.now) }
        requires fits { length bits.old + end < 2 ^ 64 }
        ensures { OnOk result (bits.new ≡ bits.old ++ slice_range (truth self.now) 0 end) }
    {
        match self {
            Mask::AllTrue(_) => bits.append_n(true, end),
            Mask::AllFalse(_) => bits.append_n(false, end),
            Mask::Values(values) => bits.append_buffer(&values.bit_buffer().slice(0, end)?),
        }
    }
}
