//! Which rows are valid, how many values are stored before a row, and the bitmaps of two columns as one.
ghost use Rattle.std.specs.Prelude.{◌≡◌, ◌+◌, ◌*◌, ◌<◌, ◌≤◌, ◌^◌, All, IfOk, IfSome, List, Some, length, map, true, vec_len, ℕ};
ghost use Rattle.std.specs.List.{AllAdjacentBelow};
ghost use Rattle.std.specs.List.Sorted.{IsNonDecreasing};
ghost use Rattle.std.specs.Ordering.{nat_cmp, partial_le};
ghost use Rattle.mask_bits.specs.Bitmap.{bitmap};
ghost use Rattle.mask_bits.specs.Buffer.{values};
ghost use Rattle.mask_bits.specs.Lists.{and_of};
ghost use Rattle.mask_bits.specs.Positions.{positions, count_below};
ghost use Rattle.vortex_mask.specs.Mask.{truth};

use bytes::Bytes;
use mask_bits::BitBuffer;
use std::alloc::{AllocError, Global};
use vortex_mask::{Mask, MaskError};

/// The rows that are valid.
pub fn valid_rows(alloc: Global, validity: &BitBuffer) -> Result<Vec<usize>, AllocError>
    ensures { IfOk result (λ rows. rows.items ≡ positions (values validity.now)) }
{
    validity.set_indices().collect(alloc)
}

/// How many values are stored before each of these rows, as of pages, where a column stores those of its valid rows
/// alone. The numbers are from outside: there is nothing where they do not ascend or one passes the length.
pub fn counts_before(
    alloc: Global,
    validity: &Mask,
    rows: &[usize],
) -> Result<Option<Vec<usize>>, MaskError>
    ensures { IfOk result (λ counts. IfSome counts
        (λ v. v.items ≡ map (count_below (truth validity.now)) rows.now)) }
{
    sorted_numbers();
    let len = validity.len();
    if !rows.is_sorted() || !rows.iter().all(|row| *row <= len) {
        return Ok(None);
    }
    Ok(Some(validity.valid_counts_for_indices(alloc, rows)?))
}

// Numbers that `is_sorted` finds sorted are in order over the whole list.
fn sorted_numbers()
    ensures { (xs : List ℕ) → AllAdjacentBelow (λ x y. partial_le (λ a b. Some (nat_cmp a b)) x y ≡ true) xs (length xs)
        → IsNonDecreasing xs }
{}

/// The rows that are valid in both of two columns, where the first bitmap was written by the caller and
/// the second begins at any bit.
pub fn valid_in_both(
    alloc: Global,
    written: Vec<u8>,
    column: Bytes,
    start: usize,
    rows: usize,
) -> Result<BitBuffer, AllocError>
    requires written { rows ≤ 8 * vec_len written }
    requires column { start + rows ≤ 8 * length column }
    requires fits { start + rows < 2 ^ 64 }
    ensures { IfOk result (λ b. values b ≡ and_of
        (bitmap written.items 0 rows)
        (bitmap column start rows)) }
{
    let column = BitBuffer::new_with_offset(column, start, rows);
    BitBuffer::from_vec(written, rows)?.bitand(alloc, &column)
}
