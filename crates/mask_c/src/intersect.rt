//! A bitmap narrowed by another over its true values.

ghost use Rattle.std.specs.Prelude.{◌≡◌, ◌+◌, ◌*◌, ◌/◌, ◌%◌, ◌^◌, ◌<◌, ◌≤◌, ℕ, All, Bool, List, drop, false, length, nat_eq, slice_index_or};
ghost use Rattle.std.specs.Int.{div_ceil};
ghost use Rattle.std.specs.List.{list_any};
ghost use Rattle.std.specs.List.Sorted.{IsStrictlyIncreasing};
ghost use Rattle.mask_bits.specs.Bitmap.{bitmap};
ghost use Rattle.mask_bits.specs.Buffer.{IsWithinBytes, values};
ghost use Rattle.mask_bits.specs.Positions.{at_indices, count, count_below, positions, rank_intersection, true_at};
ghost use Rattle.mask_bits.specs.Words.{padded_part, padded_remainder, started_words, word_bits};
ghost use Rattle.mask_c.specs.Bitmap.{AreClearBehind};
ghost use Rattle.mask_bits.specs.CommonIndices.{AreSplit};

use crate::last::put_remainder;
use crate::pointwise::row_mask_copy;
use mask_bits::BitChunks;
use mask_bits::counts::count_bits;
use mask_bits::words::{set_word, word_at};
use vortex_mask::intersect_by_rank::{
    DepositBits, Portable, PortableLoop, RankBits, deposits_by_loop, narrow_at_ranks, narrow_words,
};

/// Writes the bitmap narrowed by another over its true values: true value number `k` stays true
/// exactly where value `k` of `ranks` is true.
///
/// Asks that `ranks_len` is the count of the bitmap's true values, and that `out_size >= row_mask_room(len)`.
#[unsafe(no_mangle)]
pub extern "C" fn row_mask_intersect_by_rank(
    bytes: &[u8],
    offset: usize,
    len: usize,
    ranks: &[u8],
    ranks_offset: usize,
    ranks_len: usize,
    out: &mut [u8],
)
    requires bitmap { IsWithinBytes bytes.now offset len }
    requires ranks { IsWithinBytes ranks.now ranks_offset ranks_len }
    requires fitting { ranks_len ≡ count (bitmap bytes.now offset len) }
    requires room { div_ceil len 8 ≤ length out.old }
    ensures values { bitmap out.new 0 len
        ≡ rank_intersection (bitmap bytes.now offset len) (bitmap ranks.now ranks_offset ranks_len) }
    ensures clear { AreClearBehind out.new len }
    ensures behind { drop (div_ceil len 8) out.new ≡ drop (div_ceil len 8) out.old }
{
    if ranks_len == len {
        // all values are true, so that the ranks are the whole
        row_mask_copy(ranks, ranks_offset, len, out);
        return;
    }
    narrow_rows(bytes, offset, len, ranks, ranks_offset, ranks_len, out);
}

// Narrows the whole words, and then the last values.
// rust: level
fn narrow_rows(
    bytes: &[u8],
    offset: usize,
    len: usize,
    ranks: &[u8],
    ranks_offset: usize,
    ranks_len: usize,
    out: &mut [u8],
)
    requires bitmap { IsWithinBytes bytes.now offset len }
    requires ranks { IsWithinBytes ranks.now ranks_offset ranks_len }
    requires fitting { ranks_len ≡ count (bitmap bytes.now offset len) }
    requires room { div_ceil len 8 ≤ length out.old }
    ensures values { bitmap out.new 0 len
        ≡ rank_intersection (bitmap bytes.now offset len) (bitmap ranks.now ranks_offset ranks_len) }
    ensures clear { AreClearBehind out.new len }
    ensures behind { drop (div_ceil len 8) out.new ≡ drop (div_ceil len 8) out.old }
{
    let whole = len / 64;
    let (word, ones) = remainder_and_count(bytes, offset, len);
    let before = ranks_len - ones;
    let front = BitChunks::new(bytes, offset, 64 * whole);
    narrow_whole(&front, ranks, ranks_offset, before, &mut out[..8 * whole]);
    let source = word_at(ranks, ranks_offset + before);
    put_remainder(out, Portable::deposit_bits(source, word, ones), len);
}

// The values past the whole words in the low bits of a word, and how many of them are true.
fn remainder_and_count(bytes: &[u8], offset: usize, len: usize) -> (u64, usize)
    requires { IsWithinBytes bytes.now offset len }
    ensures word { word_bits result.0 ≡ padded_remainder (bitmap bytes.now offset len) }
    ensures ones { result.1 ≡ count (word_bits result.0) }
    ensures few { result.1 ≤ 64 }
    ensures all { count (bitmap bytes.now offset (64 * (len / 64))) + result.1
        ≡ count (bitmap bytes.now offset len) }
{
    let word = BitChunks::new(bytes, offset, len).remainder_bits();
    (word, word.count_ones() as usize)
}

// Narrows whole words.
fn narrow_whole(
    chunks: &BitChunks<'_>,
    ranks: &[u8],
    ranks_offset: usize,
    ranks_len: usize,
    out: &mut [u8],
)
    requires fitting { ranks_len ≡ count chunks.now }
    requires within { IsWithinBytes ranks.now ranks_offset ranks_len }
    requires fits { length chunks.now < 2 ^ 64 }
    requires whole { length chunks.now % 64 ≡ 0 }
    requires room { length out.old ≡ 8 * started_words (length chunks.now) }
    ensures { bitmap out.new 0 (length chunks.now)
        ≡ rank_intersection chunks.now (bitmap ranks.now ranks_offset ranks_len) }
{
    if deposits_by_loop(64 * chunks.len(), ranks_len) {
        let ranks = RankBits::over(ranks, ranks_offset, ranks_len);
        narrow_few(chunks, &ranks, out);
    } else {
        narrow_words::<Portable>(chunks, ranks, ranks_offset, ranks_len, out);
    }
}

// Narrows whole words of which most have no true value, and need no ranks.
fn narrow_few(chunks: &BitChunks<'_>, ranks: &RankBits<'_>, out: &mut [u8])
    requires fitting { length (values ranks.now) ≡ count chunks.now }
    requires within { IsWithinBytes ranks.now.bytes ranks.now.offset ranks.now.len }
    requires whole { length chunks.now % 64 ≡ 0 }
    requires room { length out.old ≡ 8 * started_words (length chunks.now) }
    ensures { bitmap out.new 0 (length chunks.now) ≡ rank_intersection chunks.now (values ranks.now) }
{
    let mut at = 0;
    for i in 0..chunks.len() {
        let word = chunks.word(i);
        let ones = word.count_ones() as usize;
        set_word(out, i, narrow_word(word, ones, ranks, at));
        at += ones;
    }
}

// A word of a bitmap narrowed, if `at` values before it are true. Where none of its own is, no rank is read.
#[inline(always)]
fn narrow_word(word: u64, ones: usize, ranks: &RankBits<'_>, at: usize) -> u64
    requires counted { ones ≡ count (word_bits word) }
    requires fits { ranks.now.offset + at < 2 ^ 64 }
    ensures { (m : List Bool) (i : ℕ) → length (values ranks.now) ≡ count m → at ≡ count_below m (64 * i)
        → word_bits word ≡ padded_part m i
        → word_bits result ≡ padded_part (rank_intersection m (values ranks.now)) i }
{
    if word == 0 {
        return 0;
    }
    PortableLoop::deposit_bits(ranks.read(at), word, ones)
}

/// Writes the bitmap in which just those true values stay true whose numbers are `ranks`.
///
/// Asks that each rank is above the one before it and below the count of the bitmap's true values,
/// and that `out_size >= row_mask_room(len)`.
#[unsafe(no_mangle)]
pub extern "C" fn row_mask_intersect_at_ranks(
    bytes: &[u8],
    offset: usize,
    len: usize,
    ranks: &[usize],
    out: &mut [u8],
)
    requires bitmap { IsWithinBytes bytes.now offset len }
    requires ascending { IsStrictlyIncreasing ranks.now }
    requires within { All (λ k. k < count (bitmap bytes.now offset len)) ranks.now }
    requires room { div_ceil len 8 ≤ length out.old }
    ensures values { bitmap out.new 0 len
        ≡ true_at len (at_indices (positions (bitmap bytes.now offset len)) ranks.now) }
    ensures clear { AreClearBehind out.new len }
    ensures behind { drop (div_ceil len 8) out.new ≡ drop (div_ceil len 8) out.old }
{
    let true_count = count_bits(bytes, offset, len);
    if deposits_by_loop(len, true_count) {
        narrow_at::<PortableLoop>(bytes, offset, len, true_count, ranks, out);
    } else {
        narrow_at::<Portable>(bytes, offset, len, true_count, ranks, out);
    }
}

// Narrows the whole words, and then the last values, by their ranks as bits.
fn narrow_at<D: DepositBits>(
    bytes: &[u8],
    offset: usize,
    len: usize,
    true_count: usize,
    ranks: &[usize],
    out: &mut [u8],
)
    requires bitmap { IsWithinBytes bytes.now offset len }
    requires counted { true_count ≡ count (bitmap bytes.now offset len) }
    requires ascending { IsStrictlyIncreasing ranks.now }
    requires within { All (λ k. k < true_count) ranks.now }
    requires room { div_ceil len 8 ≤ length out.old }
    ensures values { bitmap out.new 0 len
        ≡ true_at len (at_indices (positions (bitmap bytes.now offset len)) ranks.now) }
    ensures clear { AreClearBehind out.new len }
    ensures behind { drop (div_ceil len 8) out.new ≡ drop (div_ceil len 8) out.old }
{
    let whole = len / 64;
    let (word, ones) = remainder_and_count(bytes, offset, len);
    let (cut, bits) = last_ranks(ranks, true_count - ones);
    let front = BitChunks::new(bytes, offset, 64 * whole);
    narrow_at_ranks::<D>(&front, &ranks[..cut], &mut out[..8 * whole]);
    put_remainder(out, D::deposit_bits(bits, word, ones), len);
}

// How many ranks are below `from`, and the others as set bits, that of `from` lowest.
#[tactic(auto, using(crate::proofs::LastRankLemmas::gathered_facts))]
fn last_ranks(ranks: &[usize], from: usize) -> (usize, u64)
    requires ascending { IsStrictlyIncreasing ranks.now }
    requires few { All (λ k. k < from + 64) ranks.now }
    ensures split { AreSplit ranks.now result.0 from }
    ensures bits { (j : ℕ) → j < 64
        → slice_index_or (word_bits result.1) j false ≡ list_any (nat_eq (from + j)) ranks.now }
{
    let mut cut = ranks.len();
    let mut bits = 0u64;
    while cut > 0 && ranks[cut - 1] >= from {
        cut -= 1;
        bits |= 1 << (ranks[cut] - from);
    }
    (cut, bits)
}
