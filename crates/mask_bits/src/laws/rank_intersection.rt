//! Laws of rank intersections.

#![tactic(auto, using(crate::proofs::LawRules::laws))]

ghost use Rattle.mask_bits.specs.Laws.RankIntersection.{RankIntersectionIsTheList, RankIntersectionValue, ChoosingTwice, RankIntersectionAssociative, AllTrueLeftUnit, AllTrueRightUnit, RankIntersectionCount, RankIntersectionPosition, RankIntersectionOfAnd, RankIntersectionOfNot};

/// The rank intersection is the one list as long as the first whose true indices are the first's
/// taken at the second's.
pub fn rank_intersection_is_the_list()
    ensures only { RankIntersectionIsTheList }
{}

/// Value `i` of a rank intersection is true where it is in the first list, and in the second at the
/// number of true values before it in the first.
pub fn rank_intersection_value()
    ensures value { RankIntersectionValue }
{}

/// A rank intersection has the second list's count.
pub fn rank_intersection_count()
    ensures count { RankIntersectionCount }
{}

/// True index `n` of a rank intersection is the first list's true index at the second's true index
/// `n`.
pub fn rank_intersection_position()
    ensures position { RankIntersectionPosition }
{}

/// Choosing by a rank intersection is choosing by the first list, then by the second.
pub fn choosing_twice<T>()
    ensures twice { ChoosingTwice T }
{}

/// Rank intersections may be grouped in any way.
pub fn rank_intersection_associative()
    ensures regrouped { RankIntersectionAssociative }
{}

/// An all-true list narrowed by another is the other one.
pub fn all_true_left_unit()
    ensures unit { AllTrueLeftUnit }
{}

/// A list narrowed by an all-true one is the list.
pub fn all_true_right_unit()
    ensures unit { AllTrueRightUnit }
{}

/// `and` of two rank intersections with one first list is its rank intersection with `and` of the
/// second ones.
#[tactic(auto, using(crate::proofs::Lists::BooleanLemmas::rank_intersection_of_and))]
pub fn rank_intersection_of_and()
    ensures both { RankIntersectionOfAnd }
{}

/// A list narrowed by a complement is the list without what the second list leaves of it.
#[tactic(auto, using(crate::proofs::Lists::BooleanLemmas::rank_intersection_of_not))]
pub fn rank_intersection_of_not()
    ensures negated { RankIntersectionOfNot }
{}
