//! The rows that a mask chooses, by the lists that it lends: copied range by range where it is dense, and one by one
//! where it isn't.
ghost use Rattle.std.specs.Prelude.{◌≡◌, ◌<◌, ◌≤◌, All, Bool, IfOk, List, flat_map, length, slice_get, slice_range};
ghost use Rattle.std.specs.List.{filter_map};
ghost use Rattle.mask_bits.specs.Positions.{chosen};
ghost use Rattle.mask_bits.specs.Runs.{AreRanges};
ghost use Rattle.vortex_mask.specs.Mask.{truth};

use std::alloc::{AllocError, Global};
use vortex_mask::{AllOr, Mask, MaskError, MaskIter};

/// The rows at the true indices: by ranges from every second row on, else by indices. The mask keeps
/// the list that it lends.
#[tactic(auto, using(mask_bits::proofs::Lists::ChooseLemmas::choosing_facts, vortex_mask::proofs::Lists::VariantLemmas::variants_of_one_value))]
pub fn filtered<T: Copy>(alloc: Global, rows: &[T], mask: &mut Mask) -> Result<Vec<T>, MaskError>
    requires { length rows.now ≡ length (truth mask.old) }
    ensures { IfOk result (λ v. v.items ≡ chosen rows.now (truth mask.old)) }
{
    vortex_mask::laws::cached_lists(mask);
    match mask.threshold_iter(alloc, 1, 2)? {
        AllOr::All => Ok(Vec::from_slice(alloc, rows)?),
        AllOr::None => Ok(Vec::new(alloc)),
        AllOr::Some(MaskIter::Slices(ranges)) => Ok(by_ranges(alloc, rows, ranges)?),
        AllOr::Some(MaskIter::Indices(indices)) => Ok(by_indices(alloc, rows, indices)?),
    }
}

// The rows of ranges that hold exactly the true indices of a mask, whichever that is.
fn by_ranges<T: Copy>(
    alloc: Global,
    rows: &[T],
    ranges: &[(usize, usize)],
) -> Result<Vec<T>, AllocError>
    requires nonempty { All (λ r. r.0 < r.1) ranges.now }
    requires within { All (λ r. r.1 ≤ length rows.now) ranges.now }
    ensures { IfOk result (λ v. (m : List Bool) → length rows.now ≡ length m
        → AreRanges m ranges.now → v.items ≡ chosen rows.now m) }
{
    choosing_by_ranges(rows, ranges);
    let mut copied = Vec::new(alloc);
    for (start, end) in ranges {
        copied.extend_from_slice(&rows[*start..*end])?;
    }
    Ok(copied)
}

// Rows copied range by range are the rows chosen.
fn choosing_by_ranges<T>(rows: &[T], ranges: &[(usize, usize)])
    ensures { (m : List Bool) → length rows.now ≡ length m → AreRanges m ranges.now
        → flat_map (λ r. slice_range rows.now r.0 r.1) ranges.now ≡ chosen rows.now m }
{}

// The rows at indices, one after another.
fn by_indices<T: Copy>(alloc: Global, rows: &[T], indices: &[usize]) -> Result<Vec<T>, AllocError>
    ensures { IfOk result (λ v. v.items ≡ filter_map (λ i. slice_get rows.now i) indices.now) }
{
    let found = indices.iter().filter_map(|index| row_at(rows, *index));
    found.collect(alloc)
}

// The row at an index, if there is one.
fn row_at<T: Copy>(rows: &[T], index: usize) -> Option<T>
    ensures { result ≡ slice_get rows.now index }
{
    rows.get(index).copied()
}
