//! Laws of truth values with nulls.

ghost use Rattle.mask_bits.specs.Laws.Nullable.{IsDeMorgan, IsTrueOfParts, KeepsNoNull, IsNotTwice, IsNotFalseOfNot, IsPlainWithoutNulls, IsByParts, IsRowByRow};

/// `not` of Kleene's `and` is his `or` of both negated, and the other way round.
#[tactic(auto, using(crate::proofs::Lists::NullableLemmas::de_morgan))]
pub fn kleene_de_morgan()
    ensures laws { IsDeMorgan }
{}

/// A filter keeps of Kleene's `and` what it keeps of both sides, and of his `or` what it keeps of one.
#[tactic(auto, using(crate::proofs::Lists::NullableLemmas::is_true_of_parts))]
pub fn kleene_is_true()
    ensures parts { IsTrueOfParts }
{}

/// A filter by a test with nulls keeps no row whose answer is null, nor does one by its `not`.
#[tactic(auto, using(crate::proofs::Lists::NullableLemmas::keeps_no_null))]
pub fn kleene_filter_keeps_no_null()
    ensures none { KeepsNoNull }
{}

/// Kleene's `not` of `not` is the list.
#[tactic(auto, using(crate::proofs::Lists::NullableLemmas::not_twice))]
pub fn kleene_not_twice()
    ensures twice { IsNotTwice }
{}

/// What isn't false is what a filter by Kleene's `not` leaves out.
#[tactic(auto, using(crate::proofs::Lists::NullableLemmas::is_not_false_of_not))]
pub fn kleene_is_not_false_of_not()
    ensures same { IsNotFalseOfNot }
{}

/// Without nulls, Kleene's tables are those of two values.
#[tactic(auto, using(crate::proofs::Lists::NullableLemmas::plain_without_nulls))]
pub fn kleene_without_nulls()
    ensures plain { IsPlainWithoutNulls }
{}

/// What a filter keeps, what a check lets pass and what is null, by the values and their validity.
#[tactic(auto, using(crate::proofs::Lists::NullableLemmas::by_parts))]
pub fn kleene_by_parts()
    ensures parts { IsByParts }
{}

/// What Kleene's tables make of two tests of each row, and which rows a filter keeps.
#[tactic(auto, using(crate::proofs::Lists::NullableLemmas::row_by_row))]
pub fn kleene_row_by_row<T>()
    ensures rows { IsRowByRow T }
{}
