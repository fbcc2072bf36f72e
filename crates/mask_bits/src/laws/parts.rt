//! Laws of parts, groups and limits.

ghost use Rattle.mask_bits.specs.Laws.Parts.{PartOfPart, PartOfConcat, LimitOfLimit, HasLimitCount, HasCountWithoutFirst, AreSplitAtLimit};

/// A part of a part is one part of the whole.
#[tactic(auto, using(crate::proofs::Lists::PartLemmas::part_of_part))]
pub fn part_of_part()
    ensures once { PartOfPart }
{}

/// Each of several lists is the part that it takes in them one after another.
#[tactic(auto, using(crate::proofs::Lists::PartLemmas::part_of_concat))]
pub fn part_of_concat()
    ensures part { PartOfConcat }
{}

/// A limit of a limit is the smaller limit.
#[tactic(auto, using(crate::proofs::Lists::LimitLemmas::limit_of_limit))]
pub fn limit_of_limit()
    ensures once { LimitOfLimit }
{}

/// A limited list keeps its length, and has the smaller of its count and the limit.
#[tactic(auto, using(crate::proofs::Lists::LimitLemmas::limit_count))]
pub fn limit_count()
    ensures count { HasLimitCount }
{}

/// A list without its first true values keeps its length, and has as many true values fewer.
#[tactic(auto, using(crate::proofs::Lists::WithoutFirstLemmas::without_first_count))]
pub fn without_first_count()
    ensures count { HasCountWithoutFirst }
{}

/// A limit and what leaves the first true values out part the true indices between them.
#[tactic(auto, using(crate::proofs::Lists::WithoutFirstLemmas::split_at_limit))]
pub fn split_at_limit()
    ensures split { AreSplitAtLimit }
{}
