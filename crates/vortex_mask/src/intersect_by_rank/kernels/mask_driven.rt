//! The kernel that goes by ranks: one selection for each, in words that are read in turn.

ghost use Rattle.std.specs.Prelude.{◌≡◌, ◌≤◌, ℕ, List, IfOk, IfSome, IsOkUnless, alloc_error, length, ◌+◌, ◌*◌, ◌<◌, ◌^◌, ◌%◌, Some, count_ones, slice_get};
ghost use Rattle.std.specs.Iterator.{IsFinite, Drains};
ghost use Rattle.std.specs.Option.{option_map};
ghost use Rattle.std.specs.Iterator.Runs.{EachRunFrom, WholeRun};
ghost use Rattle.mask_bits.specs.Buffer.{values};
ghost use Rattle.mask_bits.specs.Positions.{positions, count, at_indices};
ghost use Rattle.mask_bits.specs.Words.{started_words};
ghost use Rattle.vortex_mask.specs.Caches.{caches, where_mixed};
ghost use Rattle.vortex_mask.specs.Mask.{truth, variant, fitting_variant, all_false};
ghost use Rattle.vortex_mask.specs.MaskValues.{only_indices};
ghost use Rattle.vortex_mask.specs.Ranks.{AreRanks, HasRead};
ghost use Rattle.vortex_mask.specs.Steps.{StepCounts, driven_steps};

use crate::intersect_by_rank::count_steps::CountSteps;
use crate::intersect_by_rank::select::SelectBit;
use crate::intersect_by_rank::steps::Steps;
use crate::mask::{Mask, MaskError};
use mask_bits::{BitBuffer, BitChunks};
use std::alloc::Global;

/// Keeps the true values of `self_buffer` at the ranks that `mask_indices` yields, ascending,
/// `true_count` of them. The result caches its true indices.
///
/// Takes one selection for each rank. A word of the buffer is read only once a rank lies past the words read so far,
/// and none is read again, so this is the kernel for few ranks. No word is deposited.
pub fn intersect_mask_driven<S: SelectBit, I: Iterator<Item = usize>>(
    alloc: Global,
    self_buffer: &BitBuffer,
    mask_indices: I,
    true_count: usize,
) -> Result<(Mask, Steps), MaskError>
    requires can { I.can_next mask_indices }
    requires ends { IsFinite (I.remaining mask_indices) }
    requires ranks { EachRunFrom I.next_gives mask_indices
        (AreRanks (count (values self_buffer.now)) true_count) }
    ensures len { IfOk result (λ r. length (truth r.0) ≡ length (values self_buffer.now)) }
    ensures true_indices { IfOk result (λ r. (xs : List ℕ) × Drains I.next_gives mask_indices xs
        × (positions (truth r.0) ≡ at_indices (positions (values self_buffer.now)) xs)) }
    ensures whole { IfOk result (λ r. WholeRun I.next_gives mask_indices
        (λ p. positions (truth r.0) ≡ at_indices (positions (values self_buffer.now)) p.items)) }
    ensures counted { IfOk result (λ r. count (truth r.0) ≡ true_count) }
    ensures variant { IfOk result (λ r. variant r.0 ≡ fitting_variant all_false (truth r.0)) }
    ensures caches { IfOk result
        (λ r. caches r.0 ≡ where_mixed r.0 (only_indices (positions (truth r.0)))) }
    ensures words { IfOk result
        (λ r. r.1.words ≤ started_words (length (values self_buffer.now))) }
    ensures steps { IfOk result
        (λ r. r.1 ≡ driven_steps r.1.words true_count (positions (truth r.0))) }
    ensures refused { IsOkUnless result (MaskError.Memory alloc_error) }
{
    intersect_mask_driven_with::<S, I, Steps>(alloc, self_buffer, mask_indices, true_count)
}

// The mask of `intersect_mask_driven`, with the steps where `C` counts them.
// rust: level
pub(crate) fn intersect_mask_driven_with<S: SelectBit, I: Iterator<Item = usize>, C: CountSteps>(
    alloc: Global,
    self_buffer: &BitBuffer,
    mask_indices: I,
    true_count: usize,
) -> Result<(Mask, C), MaskError>
    requires can { I.can_next mask_indices }
    requires ends { IsFinite (I.remaining mask_indices) }
    requires ranks { EachRunFrom I.next_gives mask_indices
        (AreRanks (count (values self_buffer.now)) true_count) }
    ensures len { IfOk result (λ r. length (truth r.0) ≡ length (values self_buffer.now)) }
    ensures true_indices { IfOk result (λ r. (xs : List ℕ) × Drains I.next_gives mask_indices xs
        × (positions (truth r.0) ≡ at_indices (positions (values self_buffer.now)) xs)) }
    ensures whole { IfOk result (λ r. WholeRun I.next_gives mask_indices
        (λ p. positions (truth r.0) ≡ at_indices (positions (values self_buffer.now)) p.items)) }
    ensures counted { IfOk result (λ r. count (truth r.0) ≡ true_count) }
    ensures variant { IfOk result (λ r. variant r.0 ≡ fitting_variant all_false (truth r.0)) }
    ensures caches { IfOk result
        (λ r. caches r.0 ≡ where_mixed r.0 (only_indices (positions (truth r.0)))) }
    ensures words { IfOk result (λ r. IfSome (C.step_counts r.1)
        (λ s. s.words ≤ started_words (length (values self_buffer.now)))) }
    ensures steps { IfOk result (λ r. IfSome (C.step_counts r.1)
        (λ s. s ≡ driven_steps s.words true_count (positions (truth r.0)))) }
    ensures refused { IsOkUnless result (MaskError.Memory alloc_error) }
{
    let (len, chunks) = (self_buffer.len(), self_buffer.chunks());
    let mut indices = Vec::with_capacity(alloc, true_count)?;
    let mut steps = C::none();
    let mut reached = Reached {
        words: 0,
        word: 0,
        before: 0,
    };
    for rank in mask_indices {
        indices.push(reached.index_of::<S, C>(&chunks, &mut steps, rank))?;
    }
    Ok((Mask::of_indices(alloc, len, indices)?, steps))
}

// How far the words have been read.
#[derive(Drop)]
struct Reached {
    // how many of them
    words: usize,
    // the last of them
    word: u64,
    // how many true values stand before it
    before: usize,
}

impl Reached {
    // The index of the true value at `rank`, which doesn't stand before the last word. Reads on
    // until it is in the last word. Inlined, so that what is reached stays in registers.
    #[inline(always)]
    fn index_of<S: SelectBit, C: CountSteps>(
        &mut self,
        chunks: &BitChunks<'_>,
        steps: &mut C,
        rank: usize,
    ) -> usize
        requires fits { length chunks.now < 2 ^ 64 }
        requires read { HasRead chunks.now self.old.words self.old.word self.old.before }
        requires counted { IfSome (C.step_counts steps.old) (λ s. s.words ≡ self.old.words) }
        requires room { IfSome (C.step_counts steps.old) (λ s. s.selections < usize.MAX) }
        requires ahead { self.old.before ≤ rank }
        requires there { rank < count chunks.now }
        ensures index { slice_get (positions chunks.now) rank ≡ Some result }
        ensures read { HasRead chunks.now self.new.words self.new.word self.new.before }
        ensures reached { self.new.before ≤ rank }
        ensures ticked { C.step_counts steps.new ≡ option_map (λ (s : StepCounts). record s {
          words = self.new.words;
          selections = s.selections + 1;
          spots = s.spots + result % 64;
        }) (C.step_counts steps.old) }
    {
        let mut end = self.before + self.word.count_ones() as usize;
        while end <= rank {
            self.before = end;
            self.word = steps.read_word(chunks, self.words);
            self.words += 1;
            end += self.word.count_ones() as usize;
        }
        64 * (self.words - 1) + steps.select_bit::<S>(self.word, rank - self.before)
    }
}
