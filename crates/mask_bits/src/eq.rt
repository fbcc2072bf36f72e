//! When two buffers are equal: they hold the same list.

ghost use Rattle.std.specs.Prelude.{◌≡◌, ◌↔◌, length, IsTrue};
ghost use Rattle.std.specs.Cmp.{bool_eq_equiv, partial_equiv_from_equiv};
ghost use Rattle.std.proofs.lemmas.Cmp.{on_equiv, lists_equiv};
ghost use Rattle.mask_bits.specs.Buffer.{values, same_values};

use crate::buffer::BitBuffer;
use crate::compare::same_bits;

// Two buffers are equal where their lists are; offsets and the bits outside don't count.
impl PartialEq for BitBuffer {
    ghost eq = { same_values };

    ghost laws = { partial_equiv_from_equiv (on_equiv values (lists_equiv bool_eq_equiv)) };

    fn eq(&self, other: &BitBuffer) -> bool
        ensures answer { result ≡ same_values self.now other.now }
        ensures same { IsTrue result ↔ (values self.now ≡ values other.now) }
    {
        self.len() == other.len() && same_lists(self, other)
    }
}

impl Eq for BitBuffer {
    ghost laws = { on_equiv values (lists_equiv bool_eq_equiv) };
}

// Whether two buffers of one length have the same list.
#[tactic(auto, using(crate::proofs::CombineLemmas::part_facts))]
fn same_lists(a: &BitBuffer, b: &BitBuffer) -> bool
    requires { length (values a.now) ≡ length (values b.now) }
    ensures answer { result ≡ same_values a.now b.now }
    ensures same { IsTrue result ↔ (values a.now ≡ values b.now) }
{
    same_bits(a.bits(), a.offset(), b.bits(), b.offset(), a.len())
}
