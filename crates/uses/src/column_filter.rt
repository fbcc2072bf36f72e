//! A column filtered by a test of its rows, with its validity, by page and by chunk: the mask first, then the rows.
ghost use Rattle.std.specs.Borrow.{Bor};
ghost use Rattle.std.specs.Prelude.{◌≡◌, ◌≤◌, Bool, IfOk, IfSome, List, filter, length, map, nat_lt, slice_range};
ghost use Rattle.vortex_mask.specs.Mask.{truth};
ghost use Rattle.mask_bits.specs.Lists.{and_of, concat};
ghost use Rattle.mask_bits.specs.Positions.{chosen};

use std::alloc::Global;
use vortex_mask::{Mask, MaskError};

/// The mask of the rows above `low`.
pub fn above(alloc: Global, rows: &[u64], low: u64) -> Result<Mask, MaskError>
    ensures { IfOk result (λ m. truth m ≡ map (nat_lt low) rows.now) }
{
    Mask::from_rows(alloc, rows, |row| *row > low)
}

/// The rows above `low`.
#[tactic(auto, using(mask_bits::proofs::Lists::RowLemmas::chosen_by_test))]
pub fn filtered(alloc: Global, rows: &[u64], low: u64) -> Result<Vec<u64>, MaskError>
    ensures { IfOk result (λ v. v.items ≡ filter (nat_lt low) rows.now) }
{
    above(alloc, rows, low)?.choose(alloc, rows)
}

/// The mask of the rows above `low` and below `high`: the second test is of the rows that the first one left.
pub fn within(alloc: Global, rows: &[u64], low: u64, high: u64) -> Result<Mask, MaskError>
    ensures { IfOk result (λ m. truth m
        ≡ and_of (map (nat_lt low) rows.now) (map (λ row. nat_lt row high) rows.now)) }
{
    above(alloc, rows, low)?.and_rows(alloc, rows, |row| *row < high)
}

/// The rows that pass a test, whatever the rows and the test are.
pub fn passing<T: Copy, F: Fn(&T) -> bool>(
    alloc: Global,
    rows: &[T],
    test: F,
) -> Result<Vec<T>, MaskError>
    requires { F.IsAlwaysCallable test }
    ensures { IfOk result (λ v. (f : T → Bool)
        → ((row : Bor T) (answer : Bool) → F.post test row answer → answer ≡ f row.now)
        → v.items ≡ filter f rows.now) }
{
    choosing_by_a_test::<T>();
    Mask::from_rows(alloc, rows, test)?.choose(alloc, rows)
}

// Choosing by a mask of a test of each row is filtering by it.
#[tactic(auto, using(mask_bits::proofs::Lists::RowLemmas::chosen_by_test))]
fn choosing_by_a_test<T>()
    ensures { (rows : List T) (test : T → Bool) → chosen rows (map test rows) ≡ filter test rows }
{}

/// A column with nulls, filtered: its values and its validity, of which row `i` says whether value `i`
/// is there.
pub fn filtered_with_validity<T: Copy>(
    alloc: Global,
    rows: &[T],
    validity: &Mask,
    filter: &Mask,
) -> Result<(Vec<T>, Mask), MaskError>
    requires rows { length rows.now ≡ length (truth filter.now) }
    requires validity { length (truth validity.now) ≡ length (truth filter.now) }
    ensures rows { IfOk result (λ both. both.0.items ≡ chosen rows.now (truth filter.now)) }
    ensures validity { IfOk result
        (λ both. truth both.1 ≡ chosen (truth validity.now) (truth filter.now)) }
{
    let kept = filter.choose(alloc, rows)?;
    let valid = filter.choose_values(alloc, validity)?;
    Ok((kept, valid))
}

/// The rows of a page that a filter chooses.
pub fn of_page<T: Copy>(
    alloc: Global,
    rows: &[T],
    filter: &Mask,
    start: usize,
    end: usize,
) -> Result<Vec<T>, MaskError>
    requires rows { length rows.now ≡ length (truth filter.now) }
    requires ordered { start ≤ end }
    requires within { end ≤ length rows.now }
    ensures { IfOk result (λ v. v.items
        ≡ chosen (slice_range rows.now start end) (slice_range (truth filter.now) start end)) }
{
    let page = filter.slice(alloc, start, end)?;
    page.choose(alloc, &rows[start..end])
}

/// The rows of a column that the filters of its chunks choose, by one mask in the place of all. There are
/// none where these are not as long as the column.
pub fn of_chunks<T: Copy>(
    alloc: Global,
    rows: &[T],
    filters: &[Mask],
) -> Result<Option<Vec<T>>, MaskError>
    ensures { IfOk result (λ found. IfSome found
        (λ v. v.items ≡ chosen rows.now (concat (map truth filters.now)))) }
{
    let filter = Mask::concat(alloc, filters.iter())?;
    if filter.len() != rows.len() {
        return Ok(None);
    }
    Ok(Some(filter.choose(alloc, rows)?))
}
