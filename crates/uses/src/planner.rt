//! Filters of which each stands on the rows that the one before it chose, as a planner has them: run as one, limited,
//! folded, counted and explained.
ghost use Rattle.std.specs.Prelude.{◌≡◌, ◌∷◌, ◌<◌, ◌≤◌, Bool, IfOk, List, false, filter, fold, length, map, nat_lt, slice_index_or};
ghost use Rattle.vortex_mask.specs.Mask.{truth};
ghost use Rattle.mask_bits.specs.Lists.{and_of, limited};
ghost use Rattle.mask_bits.specs.Positions.{count, chosen, rank_intersection};
ghost use Rattle.mask_bits.specs.Stacks.{IsStack, folded_left};
ghost use Rattle.mask_bits.specs.Words.{started_words};

use crate::column_filter::above;
use mask_bits::laws;
use std::alloc::Global;
use vortex_mask::{Mask, MaskError};

/// The rows that two stacked filters choose, by one mask in the place of both.
pub fn filtered<T: Copy>(
    alloc: Global,
    rows: &[T],
    first: &Mask,
    second: &Mask,
) -> Result<Vec<T>, MaskError>
    requires rows { length rows.now ≡ length (truth first.now) }
    requires stacked { length (truth second.now) ≡ count (truth first.now) }
    ensures in_turn { IfOk result
        (λ v. v.items ≡ chosen (chosen rows.now (truth first.now)) (truth second.now)) }
{
    laws::choosing_twice::<T>();
    first.intersect_by_rank(alloc, second)?.choose(alloc, rows)
}

/// The rows above `low`, and of these those below `high`: the second filter is tested on what the first
/// one left, and both run as one.
#[tactic(auto, using(mask_bits::proofs::Lists::RowLemmas::chosen_by_test))]
pub fn between(alloc: Global, rows: &[u64], low: u64, high: u64) -> Result<Vec<u64>, MaskError>
    ensures { IfOk result
        (λ v. v.items ≡ filter (λ row. nat_lt row high) (filter (nat_lt low) rows.now)) }
{
    let first = above(alloc, rows, low)?;
    let second = below_of_left(alloc, rows, &first, high)?;
    filtered(alloc, rows, &first, &second)
}

// The mask of the rows below `high`, over those that a filter leaves.
fn below_of_left(alloc: Global, rows: &[u64], filter: &Mask, high: u64) -> Result<Mask, MaskError>
    requires { length rows.now ≡ length (truth filter.now) }
    ensures list { IfOk result (λ m. truth m
        ≡ map (λ row. nat_lt row high) (chosen rows.now (truth filter.now))) }
    ensures len { IfOk result (λ m. length (truth m) ≡ count (truth filter.now)) }
{
    let left = filter.choose(alloc, rows)?;
    Mask::from_rows(alloc, &left, |row| *row < high)
}

/// The rows that pass two filters, where the second was evaluated on all rows: as a rank mask of the
/// first one's rows it narrows that to their `and`.
#[tactic(auto, using(mask_bits::proofs::Lists::RowLemmas::narrowed_by_chosen))]
pub fn narrowed_by_all_rows(alloc: Global, first: &Mask, second: &Mask) -> Result<Mask, MaskError>
    requires { length (truth second.now) ≡ length (truth first.now) }
    ensures { IfOk result (λ m. truth m ≡ and_of (truth first.now) (truth second.now)) }
{
    let ranks = first.choose_values(alloc, second)?;
    first.intersect_by_rank(alloc, &ranks)
}

/// The first `k` rows of two stacked filters, and the rows of a third that is tested on these: the limit
/// is pushed below the narrowing.
#[tactic(auto, using(mask_bits::proofs::Lists::RowLemmas::limit_of_rank_intersection))]
pub fn first_of_both(
    alloc: Global,
    first: &Mask,
    second: &Mask,
    k: usize,
) -> Result<Mask, MaskError>
    requires { length (truth second.now) ≡ count (truth first.now) }
    ensures limited { IfOk result (λ m. truth m
        ≡ limited (rank_intersection (truth first.now) (truth second.now)) k) }
    ensures pushed_below { IfOk result (λ m. truth m
        ≡ rank_intersection (truth first.now) (limited (truth second.now) k)) }
{
    first.intersect_by_rank(alloc, &second.to_limited(alloc, k)?)
}

/// The rows that a stack of filters chooses one after the other, by one mask in the place of all.
#[tactic(auto, using(mask_bits::proofs::Lists::StackLemmas::choosing_in_turn))]
pub fn filtered_by_all<T: Copy>(
    alloc: Global,
    rows: &[T],
    first: &Mask,
    rest: &[Mask],
) -> Result<Vec<T>, MaskError>
    requires rows { length rows.now ≡ length (truth first.now) }
    requires stack { IsStack (truth first.now ∷ map truth rest.now) }
    ensures in_turn { IfOk result
        (λ v. v.items ≡ fold chosen rows.now (truth first.now ∷ map truth rest.now)) }
{
    first
        .intersect_all_by_rank(alloc, rest)?
        .choose(alloc, rows)
}

/// A stack of filters as one mask, by a fold from the left that stops as soon as no row is left.
#[tactic(auto, using(mask_bits::proofs::Lists::LawLemmas::folding_keeps_a_stack, mask_bits::proofs::Lists::StackLemmas::length_of_fold))]
pub fn stopped_early(alloc: Global, first: &Mask, rest: &[Mask]) -> Result<Mask, MaskError>
    requires { IsStack (truth first.now ∷ map truth rest.now) }
    ensures { IfOk result (λ m. truth m ≡ folded_left (truth first.now ∷ map truth rest.now)) }
{
    fold_of_no_row();
    match rest {
        [second, above @ ..] if first.true_count() > 0 => {
            let left = first.intersect_by_rank(alloc, second)?;
            stopped_early(alloc, &left, above)
        }
        _ => first.clone(),
    }
}

// The fold of a stack that begins with no row.
#[tactic(auto, using(mask_bits::proofs::Lists::StackLemmas::fold_of_no_row))]
fn fold_of_no_row()
    ensures { (first : List Bool) (ms : List (List Bool)) → count first ≡ 0
        → IsStack (first ∷ ms) → folded_left (first ∷ ms) ≡ first }
{}

/// Whether a row is left by two stacked filters, with no mask made.
pub fn is_left(first: &Mask, second: &Mask, row: usize) -> bool
    requires stacked { length (truth second.now) ≡ count (truth first.now) }
    requires row { row < length (truth first.now) }
    ensures { result
        ≡ slice_index_or (rank_intersection (truth first.now) (truth second.now)) row false }
{
    laws::rank_intersection_value();
    if !first.value(row) {
        return false;
    }
    value_or_false(second, first.count_range(0, row))
}

// The value at an index, and `false` past the end.
fn value_or_false(mask: &Mask, index: usize) -> bool
    ensures { result ≡ slice_index_or (truth mask.now) index false }
{
    index < mask.len() && mask.value(index)
}

/// How many rows two stacked filters leave, without joining them.
pub fn left_by_both(first: &Mask, second: &Mask) -> usize
    requires { length (truth second.now) ≡ count (truth first.now) }
    ensures { result ≡ count (rank_intersection (truth first.now) (truth second.now)) }
{
    laws::rank_intersection_count();
    second.true_count()
}

/// One filter in the place of two that are stacked, with how many words were deposited for it, and how
/// many of the first were read: whatever ran, none twice.
pub fn explained(
    alloc: Global,
    first: &Mask,
    second: &Mask,
) -> Result<(Mask, usize, usize), MaskError>
    requires { length (truth second.now) ≡ count (truth first.now) }
    ensures list { IfOk result
        (λ r. truth r.0 ≡ rank_intersection (truth first.now) (truth second.now)) }
    ensures deposits { IfOk result (λ r. r.1 ≤ started_words (length (truth first.now))) }
    ensures words { IfOk result (λ r. r.2 ≤ started_words (length (truth first.now))) }
{
    let (mask, steps) = first.intersect_by_rank_counted(alloc, second)?;
    Ok((mask, steps.deposits(), steps.words()))
}
