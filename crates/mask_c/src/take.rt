//! The rows at a list of indices, by the size of a row.

ghost use Rattle.std.specs.Prelude.{◌≡◌, ◌<◌, ◌≤◌, All, drop, length, slice_get, take};
ghost use Rattle.std.specs.List.{filter_map};

use crate::choose::RowMask16;
use mask_bits::row_index::RowIndex;
use mask_bits::unchecked::{item, put};

/// Writes the rows at `indices`, in their order, to the front of `out`. A row has 1 byte. Indices may come in any order
/// and more than once. So a bitmap that chooses rows of many columns is read once, by `row_mask_next_indices`.
///
/// Asks that each index is below `rows_count`, and that `out_count >= indices_count`.
#[unsafe(no_mangle)]
pub extern "C" fn row_mask_take_1(indices: &[usize], rows: &[u8], out: &mut [u8])
    requires within { All (λ i. i < length rows.now) indices.now }
    requires room { length indices.now ≤ length out.old }
    ensures rows { take (length indices.now) out.new
        ≡ filter_map (λ i. slice_get rows.now i) indices.now }
    ensures behind { drop (length indices.now) out.new ≡ drop (length indices.now) out.old }
{
    rows_at(indices, rows, out);
}

/// Writes the rows at `indices`, in their order, to the front of `out`. A row has 2 bytes. Indices may come in any
/// order and more than once. So a bitmap that chooses rows of many columns is read once, by `row_mask_next_indices`.
///
/// Asks that each index is below `rows_count`, and that `out_count >= indices_count`.
#[unsafe(no_mangle)]
pub extern "C" fn row_mask_take_2(indices: &[usize], rows: &[u16], out: &mut [u16])
    requires within { All (λ i. i < length rows.now) indices.now }
    requires room { length indices.now ≤ length out.old }
    ensures rows { take (length indices.now) out.new
        ≡ filter_map (λ i. slice_get rows.now i) indices.now }
    ensures behind { drop (length indices.now) out.new ≡ drop (length indices.now) out.old }
{
    rows_at(indices, rows, out);
}

/// Writes the rows at `indices`, in their order, to the front of `out`. A row has 4 bytes. Indices may come in any
/// order and more than once. So a bitmap that chooses rows of many columns is read once, by `row_mask_next_indices`.
///
/// Asks that each index is below `rows_count`, and that `out_count >= indices_count`.
#[unsafe(no_mangle)]
pub extern "C" fn row_mask_take_4(indices: &[usize], rows: &[u32], out: &mut [u32])
    requires within { All (λ i. i < length rows.now) indices.now }
    requires room { length indices.now ≤ length out.old }
    ensures rows { take (length indices.now) out.new
        ≡ filter_map (λ i. slice_get rows.now i) indices.now }
    ensures behind { drop (length indices.now) out.new ≡ drop (length indices.now) out.old }
{
    rows_at(indices, rows, out);
}

/// Writes the rows at `indices`, in their order, to the front of `out`. A row has 8 bytes. Indices may come in any
/// order and more than once. So a bitmap that chooses rows of many columns is read once, by `row_mask_next_indices`.
///
/// Asks that each index is below `rows_count`, and that `out_count >= indices_count`.
#[unsafe(no_mangle)]
pub extern "C" fn row_mask_take_8(indices: &[usize], rows: &[u64], out: &mut [u64])
    requires within { All (λ i. i < length rows.now) indices.now }
    requires room { length indices.now ≤ length out.old }
    ensures rows { take (length indices.now) out.new
        ≡ filter_map (λ i. slice_get rows.now i) indices.now }
    ensures behind { drop (length indices.now) out.new ≡ drop (length indices.now) out.old }
{
    rows_at(indices, rows, out);
}

/// Writes the rows at `indices`, in their order, to the front of `out`. A row has 16 bytes. Indices may come in any
/// order and more than once. So a bitmap that chooses rows of many columns is read once, by `row_mask_next_indices`.
///
/// Asks that each index is below `rows_count`, and that `out_count >= indices_count`.
#[unsafe(no_mangle)]
pub extern "C" fn row_mask_take_16(indices: &[usize], rows: &[RowMask16], out: &mut [RowMask16])
    requires within { All (λ i. i < length rows.now) indices.now }
    requires room { length indices.now ≤ length out.old }
    ensures rows { take (length indices.now) out.new
        ≡ filter_map (λ i. slice_get rows.now i) indices.now }
    ensures behind { drop (length indices.now) out.new ≡ drop (length indices.now) out.old }
{
    rows_at(indices, rows, out);
}

/// As `row_mask_take_1`, and an index has 4 bytes.
///
/// Asks that each index is below `rows_count`, and that `out_count >= indices_count`.
#[unsafe(no_mangle)]
pub extern "C" fn row_mask_take_1_by_4(indices: &[u32], rows: &[u8], out: &mut [u8])
    requires within { All (λ i. i < length rows.now) indices.now }
    requires room { length indices.now ≤ length out.old }
    ensures rows { take (length indices.now) out.new
        ≡ filter_map (λ i. slice_get rows.now i) indices.now }
    ensures behind { drop (length indices.now) out.new ≡ drop (length indices.now) out.old }
{
    rows_at(indices, rows, out);
}

/// As `row_mask_take_2`, and an index has 4 bytes.
///
/// Asks that each index is below `rows_count`, and that `out_count >= indices_count`.
#[unsafe(no_mangle)]
pub extern "C" fn row_mask_take_2_by_4(indices: &[u32], rows: &[u16], out: &mut [u16])
    requires within { All (λ i. i < length rows.now) indices.now }
    requires room { length indices.now ≤ length out.old }
    ensures rows { take (length indices.now) out.new
        ≡ filter_map (λ i. slice_get rows.now i) indices.now }
    ensures behind { drop (length indices.now) out.new ≡ drop (length indices.now) out.old }
{
    rows_at(indices, rows, out);
}

/// As `row_mask_take_4`, and an index has 4 bytes.
///
/// Asks that each index is below `rows_count`, and that `out_count >= indices_count`.
#[unsafe(no_mangle)]
pub extern "C" fn row_mask_take_4_by_4(indices: &[u32], rows: &[u32], out: &mut [u32])
    requires within { All (λ i. i < length rows.now) indices.now }
    requires room { length indices.now ≤ length out.old }
    ensures rows { take (length indices.now) out.new
        ≡ filter_map (λ i. slice_get rows.now i) indices.now }
    ensures behind { drop (length indices.now) out.new ≡ drop (length indices.now) out.old }
{
    rows_at(indices, rows, out);
}

/// As `row_mask_take_8`, and an index has 4 bytes.
///
/// Asks that each index is below `rows_count`, and that `out_count >= indices_count`.
#[unsafe(no_mangle)]
pub extern "C" fn row_mask_take_8_by_4(indices: &[u32], rows: &[u64], out: &mut [u64])
    requires within { All (λ i. i < length rows.now) indices.now }
    requires room { length indices.now ≤ length out.old }
    ensures rows { take (length indices.now) out.new
        ≡ filter_map (λ i. slice_get rows.now i) indices.now }
    ensures behind { drop (length indices.now) out.new ≡ drop (length indices.now) out.old }
{
    rows_at(indices, rows, out);
}

/// As `row_mask_take_16`, and an index has 4 bytes.
///
/// Asks that each index is below `rows_count`, and that `out_count >= indices_count`.
#[unsafe(no_mangle)]
pub extern "C" fn row_mask_take_16_by_4(indices: &[u32], rows: &[RowMask16], out: &mut [RowMask16])
    requires within { All (λ i. i < length rows.now) indices.now }
    requires room { length indices.now ≤ length out.old }
    ensures rows { take (length indices.now) out.new
        ≡ filter_map (λ i. slice_get rows.now i) indices.now }
    ensures behind { drop (length indices.now) out.new ≡ drop (length indices.now) out.old }
{
    rows_at(indices, rows, out);
}

// The rows at some indices.
// rust: visible
#[inline]
fn rows_at<N: RowIndex, T: Copy>(indices: &[N], rows: &[T], out: &mut [T])
    requires within { All (λ i. N.row_number i < length rows.now) indices.now }
    requires room { length indices.now ≤ length out.old }
    ensures rows { take (length indices.now) out.new
        ≡ filter_map (λ i. slice_get rows.now (N.row_number i)) indices.now }
    ensures behind { drop (length indices.now) out.new ≡ drop (length indices.now) out.old }
{
    for k in 0..indices.len() {
        put(out, k, item(rows, indices[k].get()));
    }
}
