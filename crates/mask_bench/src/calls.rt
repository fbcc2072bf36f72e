//! Calls with what they require tested first. Where it isn't met they answer `LengthOverflow`, which no job sees.

ghost use Rattle.std.specs.Prelude.{◌∷◌, ◌↔◌, IfOk, IsTrue, map};
ghost use Rattle.std.specs.List.Sorted.{IsStrictlyIncreasing, IsNonDecreasing};
ghost use Rattle.mask_bits.specs.Stacks.{IsStack};
ghost use Rattle.vortex_mask.specs.Mask.{truth};

use std::alloc::Global;
use vortex_mask::{Mask, MaskError};

pub fn choose<T: Copy>(alloc: Global, mask: &Mask, rows: &[T]) -> Result<Vec<T>, MaskError> {
    if rows.len() != mask.len() {
        return Err(MaskError::LengthOverflow);
    }
    mask.choose(alloc, rows)
}

pub fn choose_values(alloc: Global, mask: &Mask, of: &Mask) -> Result<Mask, MaskError> {
    if of.len() != mask.len() {
        return Err(MaskError::LengthOverflow);
    }
    mask.choose_values(alloc, of)
}

pub fn narrow(alloc: Global, mask: &Mask, ranks: &Mask) -> Result<Mask, MaskError> {
    if ranks.len() != mask.true_count() {
        return Err(MaskError::LengthOverflow);
    }
    mask.intersect_by_rank(alloc, ranks)
}

pub fn bitand(alloc: Global, left: &Mask, right: &Mask) -> Result<Mask, MaskError> {
    if left.len() != right.len() {
        return Err(MaskError::LengthOverflow);
    }
    left.bitand(alloc, right)
}

pub fn into_bitor(alloc: Global, left: Mask, right: &Mask) -> Result<Mask, MaskError> {
    if left.len() != right.len() {
        return Err(MaskError::LengthOverflow);
    }
    left.into_bitor(alloc, right)
}

pub fn bitand_not(alloc: Global, left: Mask, right: &Mask) -> Result<Mask, MaskError> {
    if left.len() != right.len() {
        return Err(MaskError::LengthOverflow);
    }
    left.bitand_not(alloc, right)
}

pub fn slice(alloc: Global, mask: &Mask, start: usize, end: usize) -> Result<Mask, MaskError> {
    if start > end || end > mask.len() {
        return Err(MaskError::LengthOverflow);
    }
    mask.slice(alloc, start, end)
}

pub fn count_range(mask: &Mask, start: usize, end: usize) -> usize {
    if start > end || end > mask.len() {
        return 0;
    }
    mask.count_range(start, end)
}

/// For each index the number of true values below it.
pub fn valid_counts(
    alloc: Global,
    mask: &Mask,
    indices: &[usize],
) -> Result<Vec<usize>, MaskError> {
    let len = mask.len();
    in_order(indices)?;
    if !indices.iter().all(|index| *index <= len) {
        return Err(MaskError::LengthOverflow);
    }
    mask.valid_counts_for_indices(alloc, indices)
}

// Whether no index is below the one before it.
fn in_order(indices: &[usize]) -> Result<(), MaskError>
    ensures { IfOk result (λ _. IsNonDecreasing indices.now) }
{
    if indices.is_sorted() {
        Ok(())
    } else {
        Err(MaskError::LengthOverflow)
    }
}

/// One mask in the place of a stack.
pub fn narrow_all(alloc: Global, masks: &[Mask]) -> Result<Mask, MaskError> {
    match masks {
        [first, rest @ ..] if are_a_stack(first, rest) => first.intersect_all_by_rank(alloc, rest),
        _ => Err(MaskError::LengthOverflow),
    }
}

// Whether each mask is as long as the one before it has true values.
fn are_a_stack(first: &Mask, rest: &[Mask]) -> bool
    ensures { IsTrue result ↔ IsStack (truth first.now ∷ map truth rest.now) }
{
    match rest {
        [] => true,
        [second, above @ ..] => second.len() == first.true_count() && are_a_stack(second, above),
    }
}

/// The mask of the indices that both lists have.
pub fn of_common(
    alloc: Global,
    len: usize,
    lhs: &[usize],
    rhs: &[usize],
) -> Result<Mask, MaskError> {
    if !ascends(lhs) || !ascends(rhs) {
        return Err(MaskError::LengthOverflow);
    }
    Mask::from_intersection_indices(alloc, len, lhs.iter().copied(), rhs.iter().copied())
}

// Whether each index is above the one before it.
fn ascends(indices: &[usize]) -> bool
    ensures { IsTrue result ↔ IsStrictlyIncreasing indices.now }
{
    let mut ascends = true;
    for at in 1..indices.len() {
        ascends &= indices[at - 1] < indices[at];
    }
    ascends
}
