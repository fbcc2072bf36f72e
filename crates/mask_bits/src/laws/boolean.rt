//! Laws of `and`, `or`, and-not and complements.

ghost use Rattle.mask_bits.specs.Laws.Boolean.{IsFreeOfOrder, DistributesOver, Absorbs, HasComplements, AndNotIsAndOfNot};
ghost use Rattle.mask_bits.specs.Lists.{and_of, or_of};

/// `and` may be sorted and grouped in any way.
#[tactic(auto, using(crate::proofs::Lists::BooleanLemmas::and_is_free_of_order))]
pub fn and_is_free_of_order()
    ensures order { IsFreeOfOrder and_of }
{}

/// `or` may be sorted and grouped in any way.
#[tactic(auto, using(crate::proofs::Lists::BooleanLemmas::or_is_free_of_order))]
pub fn or_is_free_of_order()
    ensures order { IsFreeOfOrder or_of }
{}

/// `and` and `or` distribute over each other.
#[tactic(auto, using(crate::proofs::Lists::BooleanLemmas::and_distributes, crate::proofs::Lists::BooleanLemmas::or_distributes))]
pub fn and_or_distribute()
    ensures and { DistributesOver and_of or_of }
    ensures or { DistributesOver or_of and_of }
{}

/// `and` and `or` absorb each other.
#[tactic(auto, using(crate::proofs::Lists::BooleanLemmas::and_absorbs_or, crate::proofs::Lists::BooleanLemmas::or_absorbs_and))]
pub fn and_or_absorb()
    ensures and { Absorbs and_of or_of }
    ensures or { Absorbs or_of and_of }
{}

/// A list and its complement are never both true and never both false, and the complement of the
/// complement is the list.
#[tactic(auto, using(crate::proofs::Lists::BooleanLemmas::complements))]
pub fn complements()
    ensures complements { HasComplements }
{}

/// And-not is `and` with the complement.
#[tactic(auto, using(crate::proofs::Lists::BooleanLemmas::and_not_is_and_of_not))]
pub fn and_not_is_and_of_not()
    ensures same { AndNotIsAndOfNot }
{}
