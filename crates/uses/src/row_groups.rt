//! Which groups of rows a reader may skip, and in which ranges it reads the others.
ghost use Rattle.std.specs.Prelude.{ℕ, ◌≡◌, ◌*◌, ◌-◌, ◌/◌, ◌<◌, ◌↔◌, ◌∷◌, [], All, Bool, IfOk, IfSome, List, count_by, false, length, min, nat_eq, nat_lt, slice_index_or, true, vec_len};
ghost use Rattle.std.specs.Int.{div_ceil};
ghost use Rattle.mask_bits.specs.Lists.{group};
ghost use Rattle.mask_bits.specs.Positions.{count, positions, repeated};
ghost use Rattle.mask_bits.specs.RunScan.{runs};
ghost use Rattle.uses.specs.RowGroups.{is_chosen_of};
ghost use Rattle.vortex_mask.specs.Mask.{all_false, all_true, truth, variant};
ghost use Rattle.vortex_mask.specs.declared.mask.Mask.{Mask as mask};

use std::alloc::{AllocError, Global};
use vortex_mask::{AllOr, Mask, MaskError};

/// For each group of `size` rows whether a mask chooses one of its rows, by the list of indices that the
/// mask lends; the last may have fewer rows.
pub fn kept(alloc: Global, mask: &mut Mask, size: usize) -> Result<Vec<bool>, MaskError>
    requires { 0 < size }
    ensures len { IfOk result (λ kept. vec_len kept ≡ div_ceil (length (truth mask.old)) size) }
    ensures exact { IfOk result (λ kept. (g : ℕ) → g < div_ceil (length (truth mask.old)) size
        → slice_index_or kept.items g false ≡ is_chosen_of (truth mask.old) size g) }
{
    groups();
    variants_of_one_value();
    let groups = mask.len().div_ceil(size);
    match mask.indices(alloc)? {
        AllOr::All => Ok(vec![in alloc; true; groups]?),
        AllOr::None => Ok(vec![in alloc; false; groups]?),
        AllOr::Some(indices) => Ok(marked(alloc, indices, size, groups)?),
    }
}

// Which groups there are, what a group of one value is, and which groups true indices lie in.
#[tactic(auto, using(mask_bits::proofs::Lists::GroupLemmas::group_facts))]
fn groups()
    ensures begins { (n size g : ℕ) → 0 < size → (g < div_ceil n size) ↔ (size * g < n) }
    ensures one_value { (n size g : ℕ) (v : Bool) → size * g < n
        → group (repeated n v) size g ≡ repeated (min size (n - size * g)) v }
    ensures indices { (m : List Bool) (size : ℕ) → 0 < size
        → All (λ p. p / size < div_ceil (length m) size) (positions m) }
    ensures count { (m : List Bool) (size g : ℕ) → 0 < size
        → count (group m size g) ≡ count_by (λ p. nat_eq (p / size) g) (positions m) }
    ensures all_true { (n : ℕ) → count (repeated n true) ≡ n }
    ensures all_false { (n : ℕ) → positions (repeated n false) ≡ [] }
{}

// The list of a mask that is held as all true, or as all false.
#[tactic(auto, using(vortex_mask::proofs::Lists::VariantLemmas::variants_of_one_value))]
fn variants_of_one_value()
    ensures all_true { (m : mask) → variant m ≡ all_true → truth m ≡ repeated (length (truth m)) true }
    ensures all_false { (m : mask) → variant m ≡ all_false → truth m ≡ repeated (length (truth m)) false }
{}

// The runs of a list of one value.
#[tactic(auto, using(mask_bits::proofs::Lists::Runs::RunListLemmas::run_of_all_true, mask_bits::proofs::Lists::Runs::RunListLemmas::runs_of_all_false))]
fn runs_of_one_value()
    ensures whole { (n : ℕ) → 0 < n → runs (repeated n true) ≡ (0, n) ∷ [] }
    ensures none { (n : ℕ) → runs (repeated n false) ≡ [] }
{}

// Which groups have one of these indices.
fn marked(
    alloc: Global,
    indices: &[usize],
    size: usize,
    groups: usize,
) -> Result<Vec<bool>, AllocError>
    requires some { 0 < size }
    requires within { All (λ p. p / size < groups) indices.now }
    ensures len { IfOk result (λ kept. vec_len kept ≡ groups) }
    ensures exact { IfOk result (λ kept. (g : ℕ) → g < groups
        → slice_index_or kept.items g false
        ≡ nat_lt 0 (count_by (λ p. nat_eq (p / size) g) indices.now)) }
{
    let mut kept = vec![in alloc; false; groups]?;
    for index in indices {
        kept[*index / size] = true;
    }
    Ok(kept)
}

/// The ranges of the rows that a mask chooses, none of which touches another.
pub fn ranges_of(alloc: Global, mask: &mut Mask) -> Result<Vec<(usize, usize)>, MaskError>
    ensures { IfOk result (λ ranges. ranges.items ≡ runs (truth mask.old)) }
{
    runs_of_one_value();
    variants_of_one_value();
    let len = mask.len();
    if mask.is_empty() {
        return Ok(Vec::new(alloc));
    }
    match mask.slices(alloc)? {
        AllOr::All => Ok(Vec::from_slice(alloc, &[(0, len)])?),
        AllOr::None => Ok(Vec::new(alloc)),
        AllOr::Some(ranges) => Ok(Vec::from_slice(alloc, ranges)?),
    }
}

/// The ranges of the rows of an index, given as ranges that may touch, and of a filter, given one by
/// one. They are equal. There are none where the two do not choose the same rows.
pub fn ranges_both_ways(
    alloc: Global,
    len: usize,
    index: Vec<(usize, usize)>,
    filter: &[usize],
) -> Result<Option<(Vec<(usize, usize)>, Vec<(usize, usize)>)>, MaskError>
    ensures same { IfOk result (λ both. IfSome both (λ lists. lists.0.items ≡ lists.1.items)) }
{
    let mut by_index = Mask::from_slices(alloc, len, index)?;
    let mut by_filter = Mask::from_indices(alloc, len, filter.iter().copied())?;
    if by_index == by_filter {
        let left = ranges_of(alloc, &mut by_index)?;
        let right = ranges_of(alloc, &mut by_filter)?;
        Ok(Some((left, right)))
    } else {
        Ok(None)
    }
}
