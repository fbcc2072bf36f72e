//! Single true indices of mixed values: read in a cached list, and found in the bits where there is none.

ghost use Rattle.std.specs.Prelude.{◌≡◌, ◌-◌, ◌<◌, Some, length, slice_get};
ghost use Rattle.mask_bits.specs.Buffer.{values};
ghost use Rattle.mask_bits.specs.Positions.{count, positions};

use crate::mask::MaskValues;

#[tactic(auto, using(crate::proofs::Masks::CachedLemmas::lookup_facts))]
impl MaskValues {
    // The index of true value number `n`, counted from 0. (The runs don't say how many values come before each.)
    pub(super) fn nth_index(&self, n: usize) -> usize
        requires { n < count (values self.now.buffer) }
        ensures index { slice_get (positions (values self.now.buffer)) n ≡ Some result }
        ensures within { result < length (values self.now.buffer) }
    {
        let buffer = self.bit_buffer();
        match self.cached_indices() {
            Some(indices) => indices[n],
            None => buffer.select(n).unwrap(),
        }
    }

    // The index of the first true value.
    pub(super) fn first_index(&self) -> usize
        ensures index { slice_get (positions (values self.now.buffer)) 0 ≡ Some result }
        ensures within { result < length (values self.now.buffer) }
    {
        let buffer = self.bit_buffer();
        if let Some(indices) = self.cached_indices() {
            return indices[0];
        }
        match self.cached_slices() {
            Some(ranges) => ranges[0].0,
            None => buffer.first_from(0, true),
        }
    }

    // The index of the last true value.
    pub(super) fn last_index(&self) -> usize
        ensures index { slice_get (positions (values self.now.buffer))
            (count (values self.now.buffer) - 1) ≡ Some result }
        ensures within { result < length (values self.now.buffer) }
    {
        let buffer = self.bit_buffer();
        if let Some(indices) = self.cached_indices() {
            return indices[indices.len() - 1];
        }
        match self.cached_slices() {
            Some(ranges) => ranges[ranges.len() - 1].1 - 1,
            None => buffer.last_set_index().unwrap(),
        }
    }
}
