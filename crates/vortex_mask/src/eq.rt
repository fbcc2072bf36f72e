//! When two masks are equal, and a mask and a buffer: they hold the same list.

ghost use Rattle.std.specs.Prelude.{◌≡◌, ◌↔◌, IsTrue};
ghost use Rattle.std.specs.Cmp.{bool_eq_equiv, partial_equiv_from_equiv};
ghost use Rattle.std.proofs.lemmas.Cmp.{on_equiv, lists_equiv};
ghost use Rattle.mask_bits.specs.Buffer.{values};
ghost use Rattle.vortex_mask.specs.Mask.{truth, same_truth};

use crate::mask::Mask;
use mask_bits::BitBuffer;

// Two masks are equal where their lists are; cached lists, offsets and how an empty list is held don't count.
impl PartialEq for Mask {
    ghost eq = { same_truth };

    ghost laws = { partial_equiv_from_equiv (on_equiv truth (lists_equiv bool_eq_equiv)) };

    #[tactic(auto, using(crate::proofs::Masks::MaskLemmas::same_truth_is_one_list, crate::proofs::Masks::MaskLemmas::variant_facts, mask_bits::proofs::Lists::Words::BackingBitLemmas::same_values_are_one_list))]
    fn eq(&self, other: &Mask) -> bool
        ensures answer { result ≡ same_truth self.now other.now }
        ensures same { IsTrue result ↔ (truth self.now ≡ truth other.now) }
    {
        self.len() == other.len()
            && match (self, other) {
                (Mask::Values(a), Mask::Values(b)) => a.bit_buffer() == b.bit_buffer(),
                // one of them is of one value, so that the count tells the list
                _ => self.true_count() == other.true_count(),
            }
    }
}

impl Eq for Mask {
    ghost laws = { on_equiv truth (lists_equiv bool_eq_equiv) };
}

#[tactic(auto, using(crate::proofs::Masks::MaskLemmas::variant_facts, mask_bits::proofs::Lists::Words::BackingBitLemmas::same_values_are_one_list))]
impl Mask {
    /// Whether these are the values of a buffer.
    pub fn equals_buffer(&self, buffer: &BitBuffer) -> bool
        ensures { IsTrue result ↔ (truth self.now ≡ values buffer.now) }
    {
        self.len() == buffer.len()
            && match self {
                Mask::AllTrue(len) => buffer.true_count() == *len,
                Mask::AllFalse(_) => buffer.true_count() == 0,
                Mask::Values(values) => values.bit_buffer() == buffer,
            }
    }
}
