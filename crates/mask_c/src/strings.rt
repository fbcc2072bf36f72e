//! The bytes of strings that are chosen.

ghost use Rattle.std.specs.Prelude.{◌≡◌, ◌+◌, ◌-◌, ◌<◌, ◌≤◌, ◌++◌, All, drop, length, map, slice_index, slice_range, take};
ghost use Rattle.std.specs.List.{concat, sum};
ghost use Rattle.std.specs.List.Sorted.{IsNonDecreasing};
ghost use Rattle.mask_bits.specs.Bitmap.{bitmap};
ghost use Rattle.mask_bits.specs.Buffer.{IsWithinBytes};
ghost use Rattle.mask_bits.specs.Positions.{chosen};
ghost use Rattle.mask_c.specs.Strings.{bytes_of, items_at, size_of, sizes, strings};

use crate::offsets::{Offset, string_at};
use crate::short_strings::{before_last, put_part, put_wide, words_of_each};
use mask_bits::BitChunks;
use mask_bits::indices_of_word::put_indices;

/// Writes the bytes of the strings at the true values, one string behind another, to the front of `out`, and
/// returns how many these are. String `i` has the bytes from `offsets[i]` to `offsets[i + 1]`, and an offset
/// has 4 bytes.
///
/// Asks that `offsets_count == len + 1`, that no offset is below the one before it and the last is at most
/// `string_bytes_size`, and that `out_size` is at least what `row_mask_choose_offsets_4` returns.
#[unsafe(no_mangle)]
#[tactic(auto, using(crate::proofs::StringLemmas::number_itself))]
pub extern "C" fn row_mask_choose_bytes_4(
    bytes: &[u8],
    offset: usize,
    len: usize,
    offsets: &[u32],
    string_bytes: &[u8],
    out: &mut [u8],
) -> usize
    requires bitmap { IsWithinBytes bytes.now offset len }
    requires offsets { length offsets.now ≡ len + 1 }
    requires ascending { IsNonDecreasing offsets.now }
    requires covered { slice_index offsets.now len ≤ length string_bytes.now }
    requires room { sum (chosen (sizes offsets.now) (bitmap bytes.now offset len)) ≤ length out.old }
    ensures strings { take result out.new
        ≡ concat (chosen (strings offsets.now string_bytes.now) (bitmap bytes.now offset len)) }
    ensures behind { drop result out.new ≡ drop result out.old }
    ensures size { result ≡ sum (chosen (sizes offsets.now) (bitmap bytes.now offset len)) }
{
    choose_strings(
        &BitChunks::new(bytes, offset, len),
        offsets,
        string_bytes,
        out,
    )
}

/// Writes the bytes of the strings at the true values, one string behind another, to the front of `out`, and
/// returns how many these are. String `i` has the bytes from `offsets[i]` to `offsets[i + 1]`, and an offset
/// has 8 bytes.
///
/// Asks that `offsets_count == len + 1`, that no offset is below the one before it and the last is at most
/// `string_bytes_size`, and that `out_size` is at least what `row_mask_choose_offsets_8` returns.
#[unsafe(no_mangle)]
#[tactic(auto, using(crate::proofs::StringLemmas::number_itself))]
pub extern "C" fn row_mask_choose_bytes_8(
    bytes: &[u8],
    offset: usize,
    len: usize,
    offsets: &[u64],
    string_bytes: &[u8],
    out: &mut [u8],
) -> usize
    requires bitmap { IsWithinBytes bytes.now offset len }
    requires offsets { length offsets.now ≡ len + 1 }
    requires ascending { IsNonDecreasing offsets.now }
    requires covered { slice_index offsets.now len ≤ length string_bytes.now }
    requires room { sum (chosen (sizes offsets.now) (bitmap bytes.now offset len)) ≤ length out.old }
    ensures strings { take result out.new
        ≡ concat (chosen (strings offsets.now string_bytes.now) (bitmap bytes.now offset len)) }
    ensures behind { drop result out.new ≡ drop result out.old }
    ensures size { result ≡ sum (chosen (sizes offsets.now) (bitmap bytes.now offset len)) }
{
    choose_strings(
        &BitChunks::new(bytes, offset, len),
        offsets,
        string_bytes,
        out,
    )
}

/// Writes the bytes of the strings at `indices`, in their order and one after another, to the front of
/// `out`, and returns how many these are. Indices may come in any order and more than once. String `i` has
/// the bytes from `offsets[i]` to `offsets[i + 1]`, and an offset has 4 bytes.
///
/// Asks that each index is below `offsets_count - 1`, that no offset is below the one before it and the last
/// is at most `string_bytes_size`, and that `out_size` is at least what `row_mask_take_offsets_4` returns.
#[unsafe(no_mangle)]
#[tactic(auto, using(crate::proofs::StringLemmas::number_itself))]
pub extern "C" fn row_mask_take_bytes_4(
    indices: &[usize],
    offsets: &[u32],
    string_bytes: &[u8],
    out: &mut [u8],
) -> usize
    requires within { All (λ i. i + 1 < length offsets.now) indices.now }
    requires ascending { IsNonDecreasing offsets.now }
    requires covered { slice_index offsets.now (length offsets.now - 1) ≤ length string_bytes.now }
    requires room { sum (items_at (sizes offsets.now) indices.now) ≤ length out.old }
    ensures strings { take result out.new
        ≡ concat (items_at (strings offsets.now string_bytes.now) indices.now) }
    ensures behind { drop result out.new ≡ drop result out.old }
    ensures size { result ≡ sum (items_at (sizes offsets.now) indices.now) }
{
    put_strings(indices, offsets, string_bytes, out, 0)
}

/// Writes the bytes of the strings at `indices`, in their order and one after another, to the front of
/// `out`, and returns how many these are. Indices may come in any order and more than once. String `i` has
/// the bytes from `offsets[i]` to `offsets[i + 1]`, and an offset has 8 bytes.
///
/// Asks that each index is below `offsets_count - 1`, that no offset is below the one before it and the last
/// is at most `string_bytes_size`, and that `out_size` is at least what `row_mask_take_offsets_8` returns.
#[unsafe(no_mangle)]
#[tactic(auto, using(crate::proofs::StringLemmas::number_itself))]
pub extern "C" fn row_mask_take_bytes_8(
    indices: &[usize],
    offsets: &[u64],
    string_bytes: &[u8],
    out: &mut [u8],
) -> usize
    requires within { All (λ i. i + 1 < length offsets.now) indices.now }
    requires ascending { IsNonDecreasing offsets.now }
    requires covered { slice_index offsets.now (length offsets.now - 1) ≤ length string_bytes.now }
    requires room { sum (items_at (sizes offsets.now) indices.now) ≤ length out.old }
    ensures strings { take result out.new
        ≡ concat (items_at (strings offsets.now string_bytes.now) indices.now) }
    ensures behind { drop result out.new ≡ drop result out.old }
    ensures size { result ≡ sum (items_at (sizes offsets.now) indices.now) }
{
    put_strings(indices, offsets, string_bytes, out, 0)
}

// The strings at the true values, by as many words as `block` has room for the indices of.
#[inline]
fn choose_strings<O: Offset>(
    chunks: &BitChunks<'_>,
    offsets: &[O],
    string_bytes: &[u8],
    out: &mut [u8],
) -> usize
    requires offsets { length offsets.now ≡ length chunks.now + 1 }
    requires ascending { IsNonDecreasing (map O.number offsets.now) }
    requires covered { slice_index (map O.number offsets.now) (length chunks.now)
        ≤ length string_bytes.now }
    requires room { sum (chosen (sizes (map O.number offsets.now)) chunks.now) ≤ length out.old }
    ensures strings { take result out.new
        ≡ concat (chosen (strings (map O.number offsets.now) string_bytes.now) chunks.now) }
    ensures behind { drop result out.new ≡ drop result out.old }
    ensures size { result ≡ sum (chosen (sizes (map O.number offsets.now)) chunks.now) }
{
    let mut block = [0; 64];
    let (mut waiting, mut at) = (0, 0);
    for i in 0..chunks.started_words() {
        let word = chunks.started_word(i);
        let ones = word.count_ones() as usize;
        let left = put_if_full(&block[..waiting], ones, offsets, string_bytes, out, at);
        at = left.1;
        waiting = put_indices(word, 64 * i, &mut block, left.0);
    }
    put_strings(&block[..waiting], offsets, string_bytes, out, at)
}

// Writes the strings that wait if these and `more` are above 64. Returns how many wait then, and how many bytes
// are written.
#[inline]
fn put_if_full<O: Offset>(
    waiting: &[usize],
    more: usize,
    offsets: &[O],
    string_bytes: &[u8],
    out: &mut [u8],
    at: usize,
) -> (usize, usize)
    requires few { more ≤ 64 }
    requires within { All (λ i. i + 1 < length offsets.now) waiting.now }
    requires ascending { IsNonDecreasing (map O.number offsets.now) }
    requires covered { slice_index (map O.number offsets.now) (length offsets.now - 1)
        ≤ length string_bytes.now }
    requires room { at + size_of (map O.number offsets.now) waiting.now ≤ length out.old }
    ensures few { result.0 + more ≤ 64 }
    ensures within { result.0 ≤ length waiting.now }
    ensures later { at ≤ result.1 }
    ensures strings { take result.1 out.new
        ++ bytes_of (map O.number offsets.now) string_bytes.now (take result.0 waiting.now)
        ≡ take at out.old ++ bytes_of (map O.number offsets.now) string_bytes.now waiting.now }
    ensures behind { drop result.1 out.new ≡ drop result.1 out.old }
    ensures size { result.1 + size_of (map O.number offsets.now) (take result.0 waiting.now)
        ≡ at + size_of (map O.number offsets.now) waiting.now }
{
    if waiting.len() + more <= 64 {
        return (waiting.len(), at);
    }
    (0, put_strings(waiting, offsets, string_bytes, out, at))
}

// Writes the strings at some indices behind the first `at` bytes, and returns how many bytes there are
// then.
// rust: visible
#[inline]
fn put_strings<O: Offset>(
    indices: &[usize],
    offsets: &[O],
    string_bytes: &[u8],
    out: &mut [u8],
    at: usize,
) -> usize
    requires within { All (λ i. i + 1 < length offsets.now) indices.now }
    requires ascending { IsNonDecreasing (map O.number offsets.now) }
    requires covered { slice_index (map O.number offsets.now) (length offsets.now - 1)
        ≤ length string_bytes.now }
    requires room { at + size_of (map O.number offsets.now) indices.now ≤ length out.old }
    ensures strings { take result out.new ≡ take at out.old
        ++ bytes_of (map O.number offsets.now) string_bytes.now indices.now }
    ensures behind { drop result out.new ≡ drop result out.old }
    ensures size { result ≡ at + size_of (map O.number offsets.now) indices.now }
{
    match words_of_each(indices, offsets) {
        0 => put_runs(indices, offsets, string_bytes, out, at),
        2 => put_short::<2, _>(indices, offsets, string_bytes, out, at),
        _ => put_short::<4, _>(indices, offsets, string_bytes, out, at),
    }
}

// The same where strings are short: `WORDS` words are copied for each but the last. It isn't inlined: where it is, long
// strings take longer.
#[inline(never)]
fn put_short<const WORDS: usize, O: Offset>(
    indices: &[usize],
    offsets: &[O],
    string_bytes: &[u8],
    out: &mut [u8],
    at: usize,
) -> usize
    requires few { WORDS ≤ 4 }
    requires within { All (λ i. i + 1 < length offsets.now) indices.now }
    requires ascending { IsNonDecreasing (map O.number offsets.now) }
    requires covered { slice_index (map O.number offsets.now) (length offsets.now - 1)
        ≤ length string_bytes.now }
    requires room { at + size_of (map O.number offsets.now) indices.now ≤ length out.old }
    ensures strings { take result out.new ≡ take at out.old
        ++ bytes_of (map O.number offsets.now) string_bytes.now indices.now }
    ensures behind { drop result out.new ≡ drop result out.old }
    ensures size { result ≡ at + size_of (map O.number offsets.now) indices.now }
{
    let first = before_last::<WORDS, _>(indices, offsets);
    let written = put_wide::<WORDS, _>(first, indices, offsets, string_bytes, out, at);
    put_runs(&indices[first..], offsets, string_bytes, out, written)
}

// The same, where strings that are neighbors are copied at once.
#[inline]
fn put_runs<O: Offset>(
    indices: &[usize],
    offsets: &[O],
    string_bytes: &[u8],
    out: &mut [u8],
    at: usize,
) -> usize
    requires within { All (λ i. i + 1 < length offsets.now) indices.now }
    requires ascending { IsNonDecreasing (map O.number offsets.now) }
    requires covered { slice_index (map O.number offsets.now) (length offsets.now - 1)
        ≤ length string_bytes.now }
    requires room { at + size_of (map O.number offsets.now) indices.now ≤ length out.old }
    ensures strings { take result out.new ≡ take at out.old
        ++ bytes_of (map O.number offsets.now) string_bytes.now indices.now }
    ensures behind { drop result out.new ≡ drop result out.old }
    ensures size { result ≡ at + size_of (map O.number offsets.now) indices.now }
{
    let (mut written, mut begin, mut end) = (at, 0, 0);
    for k in 0..indices.len() {
        let (from, to) = string_at(offsets, indices[k]);
        let part = part_before(string_bytes, begin, end, from, out, written);
        begin = part.0;
        written = part.1;
        end = to;
    }
    put_part(string_bytes, begin, end, out, written)
}

// The part of the bytes from `begin` to `end` waits to be copied. It goes on if the next string begins
// where it ends. Else it is copied, and a part begins there. Returns where the part begins that waits
// then, and how many bytes are written.
#[inline]
fn part_before(
    bytes: &[u8],
    begin: usize,
    end: usize,
    next: usize,
    out: &mut [u8],
    at: usize,
) -> (usize, usize)
    requires ordered { begin ≤ end }
    requires within { end ≤ length bytes.now }
    requires room { at + (end - begin) ≤ length out.old }
    ensures ordered { result.0 ≤ next }
    ensures later { at ≤ result.1 }
    ensures bytes { take result.1 out.new ++ slice_range bytes.now result.0 next
        ≡ take at out.old ++ slice_range bytes.now begin end }
    ensures behind { drop result.1 out.new ≡ drop result.1 out.old }
    ensures size { result.1 + (next - result.0) ≡ at + (end - begin) }
{
    if next == end {
        return (begin, at);
    }
    (next, put_part(bytes, begin, end, out, at))
}
