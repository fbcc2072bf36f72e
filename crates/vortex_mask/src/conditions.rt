//! What calls require, as tests: a program that reads masks and lists from outside asks these before such a call.

ghost use Rattle.std.specs.Prelude.{◌↔◌, ◌∷◌, IsTrue, map};
ghost use Rattle.std.specs.List.Sorted.{IsStrictlyIncreasing};
ghost use Rattle.mask_bits.specs.Stacks.{IsStack};
ghost use Rattle.vortex_mask.specs.Mask.{truth};

use crate::mask::Mask;

/// Whether these masks are a stack, as [`Mask::intersect_all_by_rank`] requires it: each has a value for each
/// true value of the one before it.
pub fn are_a_stack(first: &Mask, masks: &[Mask]) -> bool
    ensures { IsTrue result ↔ IsStack (truth first.now ∷ map truth masks.now) }
{
    let mut before = first;
    for mask in masks {
        if mask.len() != before.true_count() {
            return false;
        }
        before = mask;
    }
    true
}

/// Whether each index is above the one before it, as [`Mask::from_intersection_indices`] requires it of both lists.
//
// With no early return, so that several are compared at once.
// rust: level
pub fn ascends(indices: &[usize]) -> bool
    ensures { IsTrue result ↔ IsStrictlyIncreasing indices.now }
{
    let mut ascends = true;
    for at in 1..indices.len() {
        ascends &= indices[at - 1] < indices[at];
    }
    ascends
}
