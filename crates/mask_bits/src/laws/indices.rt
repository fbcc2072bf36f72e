//! Laws of true indices, how many there are, and how many below an index.

#![tactic(auto, using(crate::proofs::LawRules::laws))]

ghost use Rattle.mask_bits.specs.Laws.Indices.{PositionsDetermineList, CountBelowPosition, PositionOfCountBelow};

/// Lists of one length with the same true indices are the same.
pub fn positions_determine_list()
    ensures equal { PositionsDetermineList }
{}

/// The count below true index `n` is `n`.
#[tactic(auto, using(crate::proofs::Lists::LimitLemmas::count_below_position))]
pub fn count_below_position()
    ensures number { CountBelowPosition }
{}

/// A true value's index is the one whose number is the count below it.
#[tactic(auto, using(crate::proofs::Lists::Places::HalfLemmas::position_of_count_below))]
pub fn position_of_count_below()
    ensures index { PositionOfCountBelow }
{}
