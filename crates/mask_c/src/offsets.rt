//! The offsets of strings that are chosen.

ghost use Rattle.std.specs.Prelude.{◌≡◌, ◌+◌, ◌*◌, ◌<◌, ◌≤◌, ◌^◌, ◌++◌, ◌-◌, ℕ, List, Some, All, drop, length, map, slice_get, slice_index, slice_range, slice_set, take};
ghost use Rattle.std.specs.List.{sum};
ghost use Rattle.std.specs.List.Sorted.{IsNonDecreasing};
ghost use Rattle.mask_bits.specs.Bitmap.{bitmap};
ghost use Rattle.mask_bits.specs.Buffer.{IsWithinBytes};
ghost use Rattle.mask_bits.specs.Positions.{chosen, count};
ghost use Rattle.mask_c.specs.Strings.{ends_from, items_at, offsets_of, size_of, sizes, strings};

use crate::indices::indices_in_word;
use mask_bits::BitChunks;
use mask_bits::unchecked::{item, put};

/// An offset of 4 or 8 bytes.
pub(crate) trait Offset: Copy {
    ghost use Rattle.std.specs.Prelude.{ℕ};

    ghost number: { Self → ℕ };

    ghost limit: { ℕ };

    fn get(self) -> usize
        ensures { result ≡ number self };

    fn of(n: usize) -> Self
        requires { n < limit }
        ensures { number result ≡ n };
}

impl Offset for u32 {
    ghost number = { λ n. n };

    ghost limit = { 2 ^ 32 };

    #[inline]
    fn get(self) -> usize {
        self as usize
    }

    #[inline]
    fn of(n: usize) -> u32 {
        n as u32
    }
}

impl Offset for u64 {
    ghost number = { λ n. n };

    ghost limit = { 2 ^ 64 };

    #[inline]
    fn get(self) -> usize {
        self as usize
    }

    #[inline]
    fn of(n: usize) -> u64 {
        n as u64
    }
}

/// Writes the offsets of the strings at the true values to the front of `out`: 0, and then where each of these ends if
/// they stand one after the other. Returns how many bytes they have, which is the room for `row_mask_choose_bytes_4`.
/// String `i` has the bytes from `offsets[i]` to `offsets[i + 1]`, and an offset has 4 bytes.
///
/// Asks that `offsets_count == len + 1`, that no offset is below the one before it, and that `out_count` is
/// above the count of the true values.
#[unsafe(no_mangle)]
#[tactic(auto, using(crate::proofs::StringLemmas::number_itself))]
pub extern "C" fn row_mask_choose_offsets_4(
    bytes: &[u8],
    offset: usize,
    len: usize,
    offsets: &[u32],
    out: &mut [u32],
) -> usize
    requires bitmap { IsWithinBytes bytes.now offset len }
    requires offsets { length offsets.now ≡ len + 1 }
    requires ascending { IsNonDecreasing offsets.now }
    requires room { count (bitmap bytes.now offset len) < length out.old }
    ensures offsets { take (count (bitmap bytes.now offset len) + 1) out.new
        ≡ offsets_of (chosen (sizes offsets.now) (bitmap bytes.now offset len)) }
    ensures behind { drop (count (bitmap bytes.now offset len) + 1) out.new
        ≡ drop (count (bitmap bytes.now offset len) + 1) out.old }
    ensures size { result ≡ sum (chosen (sizes offsets.now) (bitmap bytes.now offset len)) }
{
    choose_offsets(&BitChunks::new(bytes, offset, len), offsets, out)
}

/// Writes the offsets of the strings at the true values to the front of `out`: 0, and then where each of these ends if
/// they stand one after the other. Returns how many bytes they have, which is the room for `row_mask_choose_bytes_8`.
/// String `i` has the bytes from `offsets[i]` to `offsets[i + 1]`, and an offset has 8 bytes.
///
/// Asks that `offsets_count == len + 1`, that no offset is below the one before it, and that `out_count` is
/// above the count of the true values.
#[unsafe(no_mangle)]
#[tactic(auto, using(crate::proofs::StringLemmas::number_itself))]
pub extern "C" fn row_mask_choose_offsets_8(
    bytes: &[u8],
    offset: usize,
    len: usize,
    offsets: &[u64],
    out: &mut [u64],
) -> usize
    requires bitmap { IsWithinBytes bytes.now offset len }
    requires offsets { length offsets.now ≡ len + 1 }
    requires ascending { IsNonDecreasing offsets.now }
    requires room { count (bitmap bytes.now offset len) < length out.old }
    ensures offsets { take (count (bitmap bytes.now offset len) + 1) out.new
        ≡ offsets_of (chosen (sizes offsets.now) (bitmap bytes.now offset len)) }
    ensures behind { drop (count (bitmap bytes.now offset len) + 1) out.new
        ≡ drop (count (bitmap bytes.now offset len) + 1) out.old }
    ensures size { result ≡ sum (chosen (sizes offsets.now) (bitmap bytes.now offset len)) }
{
    choose_offsets(&BitChunks::new(bytes, offset, len), offsets, out)
}

/// Writes the offsets of the strings at `indices` to the front of `out`: 0, and then where each of these ends
/// if they stand one after the other, in the order of the indices. Returns how many bytes they have, which is
/// the room for `row_mask_take_bytes_4`. Indices may come in any order and more than once. String `i` has
/// the bytes from `offsets[i]` to `offsets[i + 1]`, and an offset has 4 bytes.
///
/// Asks that each index is below `offsets_count - 1`, that no offset is below the one before it, that the bytes are
/// fewer than 2 to the 32, as they are where no index comes twice, and that `out_count` is above `indices_count`.
#[unsafe(no_mangle)]
#[tactic(auto, using(crate::proofs::StringLemmas::number_itself))]
pub extern "C" fn row_mask_take_offsets_4(
    indices: &[usize],
    offsets: &[u32],
    out: &mut [u32],
) -> usize
    requires within { All (λ i. i + 1 < length offsets.now) indices.now }
    requires ascending { IsNonDecreasing offsets.now }
    requires fits { sum (items_at (sizes offsets.now) indices.now) < 2 ^ 32 }
    requires room { length indices.now < length out.old }
    ensures offsets { take (length indices.now + 1) out.new
        ≡ offsets_of (items_at (sizes offsets.now) indices.now) }
    ensures behind { drop (length indices.now + 1) out.new ≡ drop (length indices.now + 1) out.old }
    ensures size { result ≡ sum (items_at (sizes offsets.now) indices.now) }
{
    take_offsets(indices, offsets, out)
}

/// Writes the offsets of the strings at `indices` to the front of `out`: 0, and then where each of these ends
/// if they stand one after the other, in the order of the indices. Returns how many bytes they have, which is
/// the room for `row_mask_take_bytes_8`. Indices may come in any order and more than once. String `i` has
/// the bytes from `offsets[i]` to `offsets[i + 1]`, and an offset has 8 bytes.
///
/// Asks that each index is below `offsets_count - 1`, that no offset is below the one before it, that the bytes are
/// fewer than 2 to the 64, as they are where no index comes twice, and that `out_count` is above `indices_count`.
#[unsafe(no_mangle)]
#[tactic(auto, using(crate::proofs::StringLemmas::number_itself))]
pub extern "C" fn row_mask_take_offsets_8(
    indices: &[usize],
    offsets: &[u64],
    out: &mut [u64],
) -> usize
    requires within { All (λ i. i + 1 < length offsets.now) indices.now }
    requires ascending { IsNonDecreasing offsets.now }
    requires fits { sum (items_at (sizes offsets.now) indices.now) < 2 ^ 64 }
    requires room { length indices.now < length out.old }
    ensures offsets { take (length indices.now + 1) out.new
        ≡ offsets_of (items_at (sizes offsets.now) indices.now) }
    ensures behind { drop (length indices.now + 1) out.new ≡ drop (length indices.now + 1) out.old }
    ensures size { result ≡ sum (items_at (sizes offsets.now) indices.now) }
{
    take_offsets(indices, offsets, out)
}

// Offset `i`.
#[inline]
pub(crate) fn offset_at<O: Offset>(offsets: &[O], i: usize) -> usize
    requires { i < length offsets.now }
    ensures { result ≡ slice_index (map O.number offsets.now) i }
{
    item(offsets, i).get()
}

#[inline]
fn set_offset<O: Offset>(offsets: &mut [O], i: usize, n: usize)
    requires within { i < length offsets.old }
    requires fits { n < O.limit }
    ensures { map O.number offsets.new ≡ slice_set (map O.number offsets.old) i n }
{
    put(offsets, i, O::of(n));
}

// How many bytes string `i` has.
#[inline]
pub(crate) fn size_at<O: Offset>(offsets: &[O], i: usize) -> usize
    requires within { i + 1 < length offsets.now }
    requires ascending { IsNonDecreasing (map O.number offsets.now) }
    ensures { slice_get (sizes (map O.number offsets.now)) i ≡ Some result }
{
    let (from, to) = string_at(offsets, i);
    to - from
}

/// Where string `i` begins, and where it ends.
#[inline]
pub(crate) fn string_at<O: Offset>(offsets: &[O], i: usize) -> (usize, usize)
    requires within { i + 1 < length offsets.now }
    requires ascending { IsNonDecreasing (map O.number offsets.now) }
    ensures ordered { result.0 ≤ result.1 }
    ensures covered { result.1 ≤ slice_index (map O.number offsets.now) (length offsets.now - 1) }
    ensures size { slice_get (sizes (map O.number offsets.now)) i ≡ Some (result.1 - result.0) }
    ensures string { (bytes : List ℕ) → slice_get (strings (map O.number offsets.now) bytes) i
        ≡ Some (slice_range bytes result.0 result.1) }
{
    (offset_at(offsets, i), offset_at(offsets, i + 1))
}

// Writes behind the first `at` offsets where each of the strings at some indices ends, if the first of
// them begins at byte `from`, and returns where the last one ends.
// rust: visible
#[inline]
fn put_ends<O: Offset>(
    indices: &[usize],
    offsets: &[O],
    from: usize,
    out: &mut [O],
    at: usize,
) -> usize
    requires within { All (λ i. i + 1 < length offsets.now) indices.now }
    requires ascending { IsNonDecreasing (map O.number offsets.now) }
    requires fits { from + size_of (map O.number offsets.now) indices.now < O.limit }
    requires in_usize { from + size_of (map O.number offsets.now) indices.now < 2 ^ 64 }
    requires room { at + length indices.now ≤ length out.old }
    ensures ends { take (at + length indices.now) (map O.number out.new)
        ≡ take at (map O.number out.old)
        ++ ends_from from (items_at (sizes (map O.number offsets.now)) indices.now) }
    ensures behind { drop (at + length indices.now) (map O.number out.new)
        ≡ drop (at + length indices.now) (map O.number out.old) }
    ensures end { result ≡ from + size_of (map O.number offsets.now) indices.now }
{
    let mut end = from;
    for k in 0..indices.len() {
        end += size_at(offsets, indices[k]);
        set_offset(out, at + k, end);
    }
    end
}

// The offsets of the strings at some indices.
// rust: visible
#[inline]
fn take_offsets<O: Offset>(indices: &[usize], offsets: &[O], out: &mut [O]) -> usize
    requires within { All (λ i. i + 1 < length offsets.now) indices.now }
    requires ascending { IsNonDecreasing (map O.number offsets.now) }
    requires fits { size_of (map O.number offsets.now) indices.now < O.limit }
    requires in_usize { size_of (map O.number offsets.now) indices.now < 2 ^ 64 }
    requires room { length indices.now < length out.old }
    ensures offsets { take (length indices.now + 1) (map O.number out.new)
        ≡ offsets_of (items_at (sizes (map O.number offsets.now)) indices.now) }
    ensures behind { drop (length indices.now + 1) (map O.number out.new)
        ≡ drop (length indices.now + 1) (map O.number out.old) }
    ensures size { result ≡ size_of (map O.number offsets.now) indices.now }
{
    set_offset(out, 0, 0);
    put_ends(indices, offsets, 0, out, 1)
}

// The offsets of the strings at the true values, word by word.
#[inline]
fn choose_offsets<O: Offset>(chunks: &BitChunks<'_>, offsets: &[O], out: &mut [O]) -> usize
    requires offsets { length offsets.now ≡ length chunks.now + 1 }
    requires ascending { IsNonDecreasing (map O.number offsets.now) }
    requires fits { slice_index (map O.number offsets.now) (length chunks.now) < O.limit }
    requires in_usize { slice_index (map O.number offsets.now) (length chunks.now) < 2 ^ 64 }
    requires room { count chunks.now < length out.old }
    ensures offsets { take (count chunks.now + 1) (map O.number out.new)
        ≡ offsets_of (chosen (sizes (map O.number offsets.now)) chunks.now) }
    ensures behind { drop (count chunks.now + 1) (map O.number out.new)
        ≡ drop (count chunks.now + 1) (map O.number out.old) }
    ensures size { result ≡ sum (chosen (sizes (map O.number offsets.now)) chunks.now) }
{
    set_offset(out, 0, 0);
    let mut block = [0; 64];
    let (mut end, mut at) = (0, 1);
    for i in 0..chunks.started_words() {
        let some = indices_in_word(chunks, i, &mut block);
        end = put_ends(&block[..some], offsets, end, out, at);
        at += some;
    }
    end
}
