//! The bytes of short strings: for each some words are copied, with what comes behind it, and the next string is
//! written over that.

ghost use Rattle.std.specs.Prelude.{◌≡◌, ◌+◌, ◌-◌, ◌<◌, ◌≤◌, ◌^◌, ◌++◌, ◌*◌, ◌⊎◌, All, drop, length, map, slice_index, slice_range, take};
ghost use Rattle.std.specs.List.Sorted.{IsNonDecreasing};
ghost use Rattle.mask_c.specs.Strings.{bytes_of, size_of};

use crate::offsets::{Offset, offset_at, size_at, string_at};
use mask_bits::unchecked;

/// How many words of eight bytes to copy for each string, by the strings from the first index to the last: none
/// where these are long, where most are taken, or where most are empty.
#[inline]
pub(crate) fn words_of_each<O: Offset>(indices: &[usize], offsets: &[O]) -> usize
    requires within { All (λ i. i + 1 < length offsets.now) indices.now }
    requires ascending { IsNonDecreasing (map O.number offsets.now) }
{
    let count = indices.len();
    if count < 8 {
        return 0;
    }
    let (one, other) = (indices[0], indices[count - 1]);
    let (first, last) = (one.min(other), one.max(other));
    let rows = last - first + 1;
    if count > rows - rows / 3 {
        return 0;
    }
    let size = offset_at(offsets, last + 1) - offset_at(offsets, first);
    if size < rows || size / 16 > rows || !are_apart(&indices[..count.min(16)]) {
        return 0;
    }
    if size / 8 < rows { 2 } else { 4 }
}

// Whether a fourth of the strings or more don't come right behind the one before them.
#[inline(never)]
fn are_apart(indices: &[usize]) -> bool {
    let mut apart = 1;
    for k in 1..indices.len() {
        apart += usize::from(indices[k].wrapping_sub(indices[k - 1]) != 1);
    }
    apart >= indices.len() / 4
}

/// How many of the strings at some indices have `WORDS` words of others behind them.
#[inline]
pub(crate) fn before_last<const WORDS: usize, O: Offset>(indices: &[usize], offsets: &[O]) -> usize
    requires few { WORDS ≤ 4 }
    requires within { All (λ i. i + 1 < length offsets.now) indices.now }
    requires ascending { IsNonDecreasing (map O.number offsets.now) }
    requires fits { size_of (map O.number offsets.now) indices.now < 2 ^ 64 }
    ensures within { result ≤ length indices.now }
    ensures behind { (result ≡ 0) ⊎ (size_of (map O.number offsets.now) (take result indices.now)
        + 8 * WORDS ≤ size_of (map O.number offsets.now) indices.now) }
{
    let (mut first, mut behind) = (indices.len(), 0);
    while behind < 8 * WORDS {
        if first == 0 {
            return 0;
        }
        first -= 1;
        behind += size_at(offsets, indices[first]);
    }
    first
}

/// Writes the first of the strings at some indices behind the first `at` bytes, `WORDS` words of eight bytes for each,
/// and other bytes than before where the last of them come. Returns how many bytes there are then.
#[inline]
pub(crate) fn put_wide<const WORDS: usize, O: Offset>(
    first: usize,
    indices: &[usize],
    offsets: &[O],
    string_bytes: &[u8],
    out: &mut [u8],
    at: usize,
) -> usize
    requires first { first ≤ length indices.now }
    requires behind { (first ≡ 0) ⊎ (size_of (map O.number offsets.now) (take first indices.now)
        + 8 * WORDS ≤ size_of (map O.number offsets.now) indices.now) }
    requires within { All (λ i. i + 1 < length offsets.now) indices.now }
    requires ascending { IsNonDecreasing (map O.number offsets.now) }
    requires covered { slice_index (map O.number offsets.now) (length offsets.now - 1)
        ≤ length string_bytes.now }
    requires room { at + size_of (map O.number offsets.now) indices.now ≤ length out.old }
    ensures strings { take result out.new ≡ take at out.old
        ++ bytes_of (map O.number offsets.now) string_bytes.now (take first indices.now) }
    ensures behind { drop (at + size_of (map O.number offsets.now) indices.now) out.new
        ≡ drop (at + size_of (map O.number offsets.now) indices.now) out.old }
    ensures size { result ≡ at + size_of (map O.number offsets.now) (take first indices.now) }
{
    let mut written = at;
    for k in 0..first {
        let (from, to) = string_at(offsets, indices[k]);
        written = put_one::<WORDS>(string_bytes, from, to, out, written);
    }
    written
}

// Writes one string, by whole words of which all bytes are there, where it has no more.
#[inline]
fn put_one<const WORDS: usize>(
    bytes: &[u8],
    begin: usize,
    end: usize,
    out: &mut [u8],
    at: usize,
) -> usize
    requires ordered { begin ≤ end }
    requires within { end ≤ length bytes.now }
    requires room { at + (end - begin) + 8 * WORDS ≤ length out.old }
    ensures bytes { take result out.new ≡ take at out.old ++ slice_range bytes.now begin end }
    ensures behind { drop (result + 8 * WORDS) out.new ≡ drop (result + 8 * WORDS) out.old }
    ensures size { result ≡ at + (end - begin) }
{
    if end - begin <= 8 * WORDS && 8 * WORDS <= bytes.len() - begin {
        put_words::<WORDS>(bytes, begin, out, at);
        return at + (end - begin);
    }
    put_part(bytes, begin, end, out, at)
}

#[inline]
fn put_words<const WORDS: usize>(bytes: &[u8], begin: usize, out: &mut [u8], at: usize)
    requires within { begin + 8 * WORDS ≤ length bytes.now }
    requires room { at + 8 * WORDS ≤ length out.old }
    ensures bytes { take (at + 8 * WORDS) out.new
        ≡ take at out.old ++ slice_range bytes.now begin (begin + 8 * WORDS) }
    ensures behind { drop (at + 8 * WORDS) out.new ≡ drop (at + 8 * WORDS) out.old }
{
    for j in 0..WORDS {
        unchecked::put_eight(bytes, begin + 8 * j, out, at + 8 * j);
    }
}

/// Writes a part of some bytes behind the first `at`, and returns how many there are then.
#[inline]
pub(crate) fn put_part(bytes: &[u8], begin: usize, end: usize, out: &mut [u8], at: usize) -> usize
    requires ordered { begin ≤ end }
    requires within { end ≤ length bytes.now }
    requires room { at + (end - begin) ≤ length out.old }
    ensures bytes { take result out.new ≡ take at out.old ++ slice_range bytes.now begin end }
    ensures behind { drop result out.new ≡ drop result out.old }
    ensures size { result ≡ at + (end - begin) }
{
    let written = at + (end - begin);
    unchecked::put_part(bytes, begin, end, out, at);
    written
}
