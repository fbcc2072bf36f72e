//! Masks from ranges, and what is wrong with a list of them.

ghost use Rattle.std.specs.Prelude.{◌≡◌, ◌<◌, ◌^◌, ◌⊎◌, if◌then◌else◌, IsOk, IfOk, IfErr, OnOk, IfSome, All, Some, None, Ok, Err, alloc_error, length, nat_eq, List, Bool};
ghost use Rattle.mask_bits.specs.Buffer.{values};
ghost use Rattle.mask_bits.specs.RunScan.{runs};
ghost use Rattle.mask_bits.specs.Runs.{AreRanges};
ghost use Rattle.vortex_mask.specs.Faults.{neighbors_fault_from, range_fault};
ghost use Rattle.vortex_mask.specs.Caches.{caches, where_mixed};
ghost use Rattle.vortex_mask.specs.Mask.{truth, variant, fitting_variant, all_false};
ghost use Rattle.vortex_mask.specs.MaskValues.{only_ranges};
ghost use Rattle.vortex_mask.specs.Ranges.{rows_held};

use crate::mask::set_ranges::set_ranges;
use crate::mask::{Mask, MaskError};
use mask_bits::BitBuffer;
use mask_bits::words::started_words;
use std::alloc::{AllocError, Global};

#[tactic(auto, using(crate::proofs::Masks::MaskLemmas::variant_facts, crate::proofs::Masks::SoundRangeLemmas::range_facts))]
impl Mask {
    /// The mask of `len` values that is true exactly in these ranges. Where some values are true and some are not it
    /// caches its runs: ranges that touch are merged, in the memory that came with them. No values give `AllFalse(0)`.
    ///
    /// All ranges are tested before any memory is taken: `BadRange` is reported of the first that is
    /// empty or passes the length, else `UnsortedRanges` or `OverlappingRanges` of the first that
    /// does not start after the start of the one before it, or starts below its end.
    // rust: named try_from_slices
    pub fn from_slices(
        alloc: Global,
        len: usize,
        ranges: Vec<(usize, usize)>,
    ) -> Result<Mask, MaskError>
        ensures len { IfOk result (λ m. length (truth m) ≡ len) }
        ensures list { IfOk result (λ m. AreRanges (truth m) ranges.items) }
        ensures variant { IfOk result (λ m. variant m ≡ fitting_variant all_false (truth m)) }
        ensures caches { IfOk result
            (λ m. caches m ≡ where_mixed m (only_ranges (runs (truth m)))) }

        // A fault is reported before any memory is taken, and after that being out of memory alone.
        ensures faultless { OnOk result (range_fault len ranges.items ≡ None) }
        ensures fault { IfSome (range_fault len ranges.items) (λ e. result ≡ Err e) }
        ensures refused { IfErr result (λ e. (e ≡ MaskError.Memory alloc_error)
            ⊎ (range_fault len ranges.items ≡ Some e)) }

        // Values that are all false or all true need no memory.
        ensures uniform { range_fault len ranges.items ≡ None
            → (rows_held ranges.items ≡ 0) ⊎ (rows_held ranges.items ≡ len) → IsOk result }
    {
        if let Some(fault) = range_fault(len, &ranges) {
            return Err(fault);
        }
        let true_count = rows_held(&ranges);
        if let Some(mask) = Mask::of_one_value(len, true_count) {
            return Ok(mask);
        }
        let buffer = buffer_of(alloc, len, &ranges)?;
        let mut ranges = ranges;
        merge_touching(&mut ranges);
        Mask::of_mixed(alloc, buffer, true_count, None, Some(ranges))
    }
}

/// What [`Mask::from_slices`] refuses these ranges by, if it does.
pub fn range_fault(len: usize, ranges: &[(usize, usize)]) -> Option<MaskError>
    ensures { result ≡ range_fault len ranges.now }
{
    ranges
        .iter()
        .position(|(start, end)| !(start < end && *end <= len))
        .map(|at| MaskError::BadRange { at })
        .or_else(|| neighbors_fault(ranges))
}

#[tactic(auto, using(crate::proofs::Masks::SoundRangeLemmas::no_more_neighbors))]
fn neighbors_fault(ranges: &[(usize, usize)]) -> Option<MaskError>
    ensures { result ≡ neighbors_fault_from 0 ranges.now }
{
    for at in 1..ranges.len() {
        let (before, range) = (ranges[at - 1], ranges[at]);
        if range.0 <= before.0 {
            return Some(MaskError::UnsortedRanges { at });
        }
        if range.0 < before.1 {
            return Some(MaskError::OverlappingRanges { at });
        }
    }
    None
}

// Merges ranges that touch, in place: what held exactly the true indices of a list is its runs then.
pub(super) fn merge_touching(ranges: &mut Vec<(usize, usize)>)
    ensures runs { (m : List Bool) → AreRanges m ranges.old.items → ranges.new.items ≡ runs m }
{
    ranges.dedup_by(lengthens);
}

// Whether `range` begins where `run` ends, which then ends where `range` does.
fn lengthens(range: &mut (usize, usize), run: &mut (usize, usize)) -> bool
    ensures touch { result ≡ nat_eq range.old.0 run.old.1 }
    ensures run { run.new ≡ (if result then (run.old.0, range.old.1) else run.old) }
    ensures range { range.new ≡ range.old }
{
    let touch = range.0 == run.1;
    if touch {
        run.1 = range.1;
    }
    touch
}

// How many indices the ranges hold.
fn rows_held(ranges: &[(usize, usize)]) -> usize
    requires ascending { All (λ r. r.0 < r.1) ranges.now }
    requires fits { rows_held ranges.now < 2 ^ 64 }
    ensures { result ≡ rows_held ranges.now }
{
    ranges.iter().map(|(start, end)| end - start).sum()
}

// `len` values that are true exactly in the ranges.
fn buffer_of(alloc: Global, len: usize, ranges: &[(usize, usize)]) -> Result<BitBuffer, AllocError>
    requires { range_fault len ranges.now ≡ None }
    ensures len { IfOk result (λ b. length (values b) ≡ len) }
    ensures list { IfOk result (λ b. AreRanges (values b) ranges.now) }
{
    let mut bytes = vec![in alloc; 0u8; 8 * started_words(len)]?;
    set_ranges(&mut bytes, ranges);
    BitBuffer::from_list(bytes, len)
}
