//! Walks over a mask that is only lent: its values, true indices and runs.

ghost use Rattle.std.specs.Prelude.{◌≡◌, ◌<◌, ◌^◌, length, IfSome, Some, All, true};
ghost use Rattle.std.specs.Iterator.{YieldsFirst, UpTo, item_count};
ghost use Rattle.std.specs.Iterator.Runs.{YieldsInOrder};
ghost use Rattle.std.specs.Iterator.SizeHint.{IsWithinCount};
ghost use Rattle.std.specs.List.Sorted.{IsStrictlyIncreasing};
ghost use Rattle.vortex_mask.specs.Iter.{values_left, indices_left, ranges_left};
ghost use Rattle.vortex_mask.specs.Mask.{truth};
ghost use Rattle.mask_bits.specs.Positions.{positions};
ghost use Rattle.mask_bits.specs.Runs.{AreRuns};

use crate::mask::Mask;
use mask_bits::{BitIterator, SetIndices, SetSlices};

/// The values of a mask, in their order.
#[derive(Drop)]
pub enum MaskBoolIter<'a> {
    /// `value`, `remaining` more times.
    Repeat { value: bool, remaining: usize },
    /// What is left of the values of a buffer.
    Bits(BitIterator<'a>),
}

// rust: by hand
#[tactic(auto, using(crate::proofs::Masks::MaskWalkLemmas::next_facts))]
impl Iterator for MaskBoolIter<'_> {
    type Item = bool;

    ghost next_gives = { YieldsFirst values_left };

    ghost remaining = { item_count values_left };

    fn next(&mut self) -> Option<bool> {
        match self {
            MaskBoolIter::Repeat { value, remaining } => {
                if *remaining == 0 {
                    return None;
                }
                *remaining -= 1;
                Some(*value)
            }
            MaskBoolIter::Bits(bits) => bits.next(),
        }
    }

    fn size_hint(&self) -> (usize, Option<usize>)
        ensures lower { IsWithinCount result.0 (item_count values_left self.now) }
        ensures upper { IfSome result.1 (UpTo (item_count values_left self.now)) }
        ensures exact { result.0 ≡ length (values_left self.now) }
        ensures known { result.1 ≡ Some result.0 }
    {
        let left = self.len();
        (left, Some(left))
    }
}

#[tactic(auto, using(mask_bits::proofs::Lists::CountLemmas::repeated_facts))]
impl ExactSizeIterator for MaskBoolIter<'_> {
    fn len(&self) -> usize {
        match self {
            MaskBoolIter::Repeat { remaining, .. } => *remaining,
            MaskBoolIter::Bits(bits) => bits.len(),
        }
    }
}

#[tactic(auto, using(mask_bits::proofs::Lists::CountLemmas::repeated_facts, crate::proofs::Masks::MaskWalkLemmas::values_in_order))]
impl Mask {
    /// The values in their order.
    pub fn iter(&self) -> MaskBoolIter<'_>
        ensures list { values_left result ≡ truth self.now }
        ensures in_order { YieldsInOrder (YieldsFirst values_left) values_left }
        ensures fits { length (values_left result) < 2 ^ 64 }
    {
        if let Mask::Values(values) = self {
            return MaskBoolIter::Bits(values.bit_buffer().iter());
        }
        MaskBoolIter::Repeat {
            value: matches!(self, Mask::AllTrue(_)),
            remaining: self.len(),
        }
    }
}

/// The indices of a mask's true values, ascending.
#[derive(Drop)]
pub enum MaskSetIndices<'a> {
    /// Each index from `next` on, before `end`.
    Range { next: usize, end: usize },
    /// What is left of the true indices of a buffer.
    Bits(SetIndices<'a>),
}

#[tactic(auto, using(crate::proofs::Masks::MaskWalkLemmas::next_facts))]
impl Iterator for MaskSetIndices<'_> {
    type Item = usize;

    ghost next_gives = { YieldsFirst indices_left };

    ghost remaining = { item_count indices_left };

    fn next(&mut self) -> Option<usize> {
        match self {
            MaskSetIndices::Range { next, end } => {
                if *next >= *end {
                    return None;
                }
                let index = *next;
                *next += 1;
                Some(index)
            }
            MaskSetIndices::Bits(bits) => bits.next(),
        }
    }
}

#[tactic(auto, using(crate::proofs::Masks::MaskWalkLemmas::index_walks))]
impl Mask {
    /// The indices of the true values, ascending, of a mask that is only lent. No list is made or cached.
    pub fn set_indices(&self) -> MaskSetIndices<'_>
        ensures indices { indices_left result ≡ positions (truth self.now) }
        ensures in_order { YieldsInOrder (YieldsFirst indices_left) indices_left }
        ensures ascending { IsStrictlyIncreasing (indices_left result) }
        ensures within { All (λ i. i < length (truth self.now)) (indices_left result) }
        ensures fits { length (indices_left result) < 2 ^ 64 }
    {
        match self {
            Mask::AllTrue(len) => MaskSetIndices::Range { next: 0, end: *len },
            Mask::AllFalse(_) => MaskSetIndices::Range { next: 0, end: 0 },
            Mask::Values(values) => MaskSetIndices::Bits(values.bit_buffer().set_indices()),
        }
    }
}

/// The runs of a mask's true values, ascending, each by its first index and the index past its last.
#[derive(Drop)]
pub enum MaskSetSlices<'a> {
    /// One run, if it is still to come.
    Whole(Option<(usize, usize)>),
    /// What is left of the runs of a buffer.
    Bits(SetSlices<'a>),
}

impl Iterator for MaskSetSlices<'_> {
    type Item = (usize, usize);

    ghost next_gives = { YieldsFirst ranges_left };

    ghost remaining = { item_count ranges_left };

    fn next(&mut self) -> Option<(usize, usize)> {
        match self {
            MaskSetSlices::Whole(run) => run.take(),
            MaskSetSlices::Bits(bits) => bits.next(),
        }
    }
}

#[tactic(auto, using(crate::proofs::Masks::MaskWalkLemmas::ranges_in_order))]
impl Mask {
    /// The runs of the true values, ascending, of a mask that is only lent. No list is made or cached.
    pub fn set_slices(&self) -> MaskSetSlices<'_>
        ensures runs { AreRuns (truth self.now) (ranges_left result) }
        ensures in_order { YieldsInOrder (YieldsFirst ranges_left) ranges_left }
        ensures fits { length (ranges_left result) < 2 ^ 64 }
    {
        match self {
            Mask::AllTrue(0) => MaskSetSlices::Whole(None),
            Mask::AllTrue(len) => MaskSetSlices::Whole(Some((0, *len))),
            Mask::AllFalse(_) => MaskSetSlices::Whole(None),
            Mask::Values(values) => MaskSetSlices::Bits(values.bit_buffer().set_slices()),
        }
    }
}
