//! The values of a bitmap at a list of indices.

ghost use Rattle.std.specs.Prelude.{◌≡◌, ◌+◌, ◌*◌, ◌/◌, ◌<◌, ◌≤◌, ℕ, All, drop, false, length, map, slice_get, slice_index_or};
ghost use Rattle.std.specs.Int.{div_ceil};
ghost use Rattle.std.specs.List.{filter_map};
ghost use Rattle.mask_bits.specs.Bitmap.{bitmap};
ghost use Rattle.mask_bits.specs.Buffer.{IsWithinBytes, backing_bit};
ghost use Rattle.mask_bits.specs.Words.{word_bits};
ghost use Rattle.mask_c.specs.Bitmap.{AreClearBehind};

use crate::last::put_remainder;
use mask_bits::bools::word_of_bools;
use mask_bits::row_index::RowIndex;
use mask_bits::unchecked::item;
use mask_bits::words::set_word;

/// Writes the values at `indices`, in their order, as a bitmap from bit 0 on: the validity of a column whose rows
/// `row_mask_take_1` and its like take. Indices may come in any order and more than once.
///
/// Asks that each index is below `len`, and that `out_size >= row_mask_room(indices_count)`.
#[unsafe(no_mangle)]
pub extern "C" fn row_mask_take_bits(
    bytes: &[u8],
    offset: usize,
    len: usize,
    indices: &[usize],
    out: &mut [u8],
)
    requires bitmap { IsWithinBytes bytes.now offset len }
    requires within { All (λ i. i < len) indices.now }
    requires room { div_ceil (length indices.now) 8 ≤ length out.old }
    ensures values { bitmap out.new 0 (length indices.now)
        ≡ filter_map (λ i. slice_get (bitmap bytes.now offset len) i) indices.now }
    ensures clear { AreClearBehind out.new (length indices.now) }
    ensures behind { drop (div_ceil (length indices.now) 8) out.new
        ≡ drop (div_ceil (length indices.now) 8) out.old }
{
    bits_at(bytes, offset, len, indices, out);
}

/// As `row_mask_take_bits`, and an index has 4 bytes.
///
/// Asks that each index is below `len`, and that `out_size >= row_mask_room(indices_count)`.
#[unsafe(no_mangle)]
pub extern "C" fn row_mask_take_bits_by_4(
    bytes: &[u8],
    offset: usize,
    len: usize,
    indices: &[u32],
    out: &mut [u8],
)
    requires bitmap { IsWithinBytes bytes.now offset len }
    requires within { All (λ i. i < len) indices.now }
    requires room { div_ceil (length indices.now) 8 ≤ length out.old }
    ensures values { bitmap out.new 0 (length indices.now)
        ≡ filter_map (λ i. slice_get (bitmap bytes.now offset len) i) indices.now }
    ensures clear { AreClearBehind out.new (length indices.now) }
    ensures behind { drop (div_ceil (length indices.now) 8) out.new
        ≡ drop (div_ceil (length indices.now) 8) out.old }
{
    bits_at(bytes, offset, len, indices, out);
}

// The values at some indices.
// rust: visible
// rust: level
fn bits_at<N: RowIndex>(bytes: &[u8], offset: usize, len: usize, indices: &[N], out: &mut [u8])
    requires bitmap { IsWithinBytes bytes.now offset len }
    requires within { All (λ i. N.row_number i < len) indices.now }
    requires room { div_ceil (length indices.now) 8 ≤ length out.old }
    ensures values { bitmap out.new 0 (length indices.now)
        ≡ filter_map (λ i. slice_get (bitmap bytes.now offset len) (N.row_number i)) indices.now }
    ensures clear { AreClearBehind out.new (length indices.now) }
    ensures behind { drop (div_ceil (length indices.now) 8) out.new
        ≡ drop (div_ceil (length indices.now) 8) out.old }
{
    let whole = indices.len() / 64;
    put_words(
        bytes,
        offset,
        len,
        &indices[..64 * whole],
        &mut out[..8 * whole],
    );
    let word = word_of_indices(bytes, offset, len, &indices[64 * whole..]);
    put_remainder(out, word, indices.len());
}

// Writes those at whole words of indices.
#[inline(always)]
fn put_words<N: RowIndex>(bytes: &[u8], offset: usize, len: usize, indices: &[N], out: &mut [u8])
    requires bitmap { IsWithinBytes bytes.now offset len }
    requires within { All (λ i. N.row_number i < len) indices.now }
    requires room { length indices.now / 64 * 8 ≤ length out.old }
    ensures { (i : ℕ) → i < length indices.now / 64 * 64 → backing_bit out.new i
        ≡ slice_index_or (map (λ i. backing_bit bytes.now (offset + N.row_number i)) indices.now) i false }
{
    for i in 0..indices.len() / 64 {
        let word = word_of_indices(bytes, offset, len, &indices[64 * i..64 * i + 64]);
        set_word(out, i, word);
    }
}

// The word of those at up to 64 indices, the first lowest, with zeros past them.
#[inline(always)]
fn word_of_indices<N: RowIndex>(bytes: &[u8], offset: usize, len: usize, indices: &[N]) -> u64
    requires bitmap { IsWithinBytes bytes.now offset len }
    requires within { All (λ i. N.row_number i < len) indices.now }
    requires few { length indices.now ≤ 64 }
    ensures { (j : ℕ) → j < 64 → slice_index_or (word_bits result) j false
        ≡ slice_index_or (map (λ i. backing_bit bytes.now (offset + N.row_number i)) indices.now) j false }
{
    let mut bits = [false; 64];
    for j in 0..indices.len() {
        bits[j] = bit(bytes, offset + indices[j].get());
    }
    word_of_bools(&bits)
}

// The bit at a position.
#[inline(always)]
fn bit(bytes: &[u8], position: usize) -> bool
    requires { position < 8 * length bytes.now }
    ensures { result ≡ backing_bit bytes.now position }
{
    (item(bytes, position / 8) >> (position % 8)) & 1 == 1
}
