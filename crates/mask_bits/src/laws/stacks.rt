//! The law of stacks of lists.

ghost use Rattle.mask_bits.specs.Laws.Stacks.{StackFoldsAlike, FoldedByTheFirst};

/// A stack folds alike from both ends: the first list narrowed by the fold of the rest is the fold
/// from the left too.
#[tactic(auto, using(crate::proofs::Lists::StackLemmas::stack_folds_alike, crate::proofs::Lists::StackLemmas::folded_by_the_first))]
pub fn stack_folds_alike()
    ensures alike { StackFoldsAlike }
    ensures first { FoldedByTheFirst }
{}
