//! The words of a bitmap, each beside the rank bits that a deposit at it takes.

ghost use Rattle.std.specs.Prelude.{◌≡◌, ◌+◌, ◌*◌, ◌<◌, ◌≤◌, ℕ, length, slice_index};
ghost use Rattle.mask_bits.specs.Bitmap.{bitmap};
ghost use Rattle.mask_bits.specs.Buffer.{IsWithinBytes};
ghost use Rattle.mask_bits.specs.Positions.{count, count_below};
ghost use Rattle.mask_bits.specs.Words.{padded_part, started_words, window, word_bits};

use crate::words::row_mask_words;
use vortex_mask::intersect_by_rank::RankBits;

/// Writes the next words of a bitmap, from word `from` on, to `words`, and for each to `sources` the 64 bits of `ranks`
/// from the number of true values before that word on. Bit `j` of word `i` is value `64 * i + j`, and 0 past the last
/// value; a source has there what the bytes of `ranks` have, and then 0. The result is how many values are true before
/// the word after these, which is `at` for the next call. So whoever deposits each source at its word, as the
/// instruction `pdep` does, has the words of the rank intersection.
///
/// Asks that `ranks_len` is the count of the bitmap's true values, that `at` is how many values are true
/// before word `from` (0 at word 0), that `from + words_count` is at most how many words the bitmap starts,
/// `(len + 63) / 64`, and that `sources_count == words_count`.
// rust: level
#[unsafe(no_mangle)]
pub extern "C" fn row_mask_rank_words(
    bytes: &[u8],
    offset: usize,
    len: usize,
    ranks: &[u8],
    ranks_offset: usize,
    ranks_len: usize,
    from: usize,
    at: usize,
    words: &mut [u64],
    sources: &mut [u64],
) -> usize
    requires bitmap { IsWithinBytes bytes.now offset len }
    requires ranks { IsWithinBytes ranks.now ranks_offset ranks_len }
    requires fitting { ranks_len ≡ count (bitmap bytes.now offset len) }
    requires begins { at ≡ count_below (bitmap bytes.now offset len) (64 * from) }
    requires within { from + length words.old ≤ started_words len }
    requires alike { length sources.old ≡ length words.old }
    ensures words { (i : ℕ) → i < length words.old → word_bits (slice_index words.new i)
        ≡ padded_part (bitmap bytes.now offset len) (from + i) }
    ensures sources { (i : ℕ) → i < length words.old → word_bits (slice_index sources.new i)
        ≡ window ranks.now (ranks_offset + count_below (bitmap bytes.now offset len) (64 * (from + i))) }
    ensures next { result
        ≡ count_below (bitmap bytes.now offset len) (64 * (from + length words.old)) }
{
    row_mask_words(bytes, offset, len, from, words);
    let ranks = RankBits::over(ranks, ranks_offset, ranks_len);
    let mut at = at;
    for i in 0..words.len() {
        sources[i] = ranks.read(at);
        at += words[i].count_ones() as usize;
    }
    at
}
