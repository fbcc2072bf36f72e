//! Shares of true values, and thresholds.

ghost use Rattle.std.specs.Prelude.{◌≡◌, ◌*◌, ◌<◌, ◌≤◌, ◌↔◌, IsTrue, length};
ghost use Rattle.mask_bits.specs.Buffer.{values};
ghost use Rattle.mask_bits.specs.Positions.{count};
ghost use Rattle.vortex_mask.specs.Fraction.{share, share_by_variant};
ghost use Rattle.vortex_mask.specs.Mask.{truth};

use crate::mask::{Mask, MaskValues};

/// A share or a threshold, `num` of `den`. It isn't reduced, so that `==` tells 1/2 from 2/4.
#[derive(Debug, Clone, Copy, PartialEq, Eq)]
pub struct Fraction {
    pub num: usize,
    pub den: usize,
}

impl Fraction {
    /// Whether `self >= other`, compared exactly.
    pub fn at_least(self, other: Fraction) -> bool
        requires den { 0 < self.den }
        requires other_den { 0 < other.den }
        ensures { IsTrue result ↔ (other.num * self.den ≤ self.num * other.den) }
    {
        self.num as u128 * other.den as u128 >= other.num as u128 * self.den as u128
    }
}

#[tactic(auto, using(crate::proofs::Masks::MaskLemmas::count_facts))]
impl Mask {
    /// The share of true values: 1/1 of `AllTrue`, 0/1 of `AllFalse`, also where they are empty, and
    /// else the true count over the length.
    // rust: named share
    pub fn density(&self) -> Fraction
        ensures by_variant { result ≡ share_by_variant self.now }
        ensures share { result.num * length (truth self.now) ≡ count (truth self.now) * result.den }
        ensures positive { 0 < result.den }
    {
        match self {
            Mask::AllTrue(_) => Fraction { num: 1, den: 1 },
            Mask::AllFalse(_) => Fraction { num: 0, den: 1 },
            Mask::Values(values) => values.density(),
        }
    }
}

impl MaskValues {
    /// The share of true values: the true count over the length.
    // rust: named share
    pub fn density(&self) -> Fraction
        ensures share { result ≡ share (values self.now.buffer) }
        ensures positive { 0 < result.den }
    {
        Fraction {
            num: self.true_count(),
            den: self.len(),
        }
    }
}
