//! Blocks of four words, and the indices of their set bits.

ghost use Rattle.std.specs.Prelude.{◌≡◌, ◌+◌, ◌*◌, ◌^◌, ◌<◌, ◌≤◌, ◌++◌, ◌⊎◌, false, length, map, min, slice_range};
ghost use Rattle.mask_bits.specs.Positions.{count, indices_from};
ghost use Rattle.mask_bits.specs.Words.{bits_of_words};

use crate::chunks::BitChunks;
use crate::indices_of_word::push_indices;
use crate::output::Room;
use crate::row_index::RowIndex;

/// The words of block `i`.
#[inline(always)]
#[tactic(auto, using(crate::proofs::Lists::Words::BlockLemmas::block_facts))]
pub fn block(chunks: &BitChunks<'_>, i: usize) -> [u64; 4]
    requires within { 256 * i + 256 ≤ length chunks.now }
    requires fits { length chunks.now < 2 ^ 64 }
    ensures { bits_of_words result ≡ slice_range chunks.now (256 * i) (256 * i + 256) }
{
    [
        chunks.word(4 * i),
        chunks.word(4 * i + 1),
        chunks.word(4 * i + 2),
        chunks.word(4 * i + 3),
    ]
}

// Whether a block may have a true value.
#[inline(always)]
#[tactic(auto, using(crate::proofs::Lists::Words::BlockLemmas::block_facts))]
pub(crate) fn has_some(words: &[u64; 4]) -> bool
    ensures { result ≡ false → count (bits_of_words words.now) ≡ 0 }
{
    words[0] | words[1] | words[2] | words[3] != 0
}

/// So much room a block needs behind its own where several are put at a time.
pub const SPARE: usize = 8;

/// Puts the indices of the set bits of a block, whose first bit has the index `base`: the more there are, the
/// more at a time, so that few branches are guessed wrong, and where there are many byte by byte if `BYTES`.
#[inline(always)]
pub fn push_block<const BYTES: bool, N: RowIndex, R: Room<N>>(
    indices: &mut R,
    base: usize,
    words: &[u64; 4],
)
    requires room { length (R.items indices.old) + count (bits_of_words words.now)
        ≤ R.capacity (R.kept indices.old) }
    requires fits { base + 256 < 2 ^ 64 }
    ensures items { R.items indices.new
        ≡ R.items indices.old ++ map N.index_of (indices_from base (bits_of_words words.now)) }
    ensures kept { R.kept indices.new ≡ R.kept indices.old }
{
    let ones = ones_in(words);
    if indices.spare() < ones + SPARE {
        push_each::<0, _, _>(indices, base, words);
    } else if ones <= 5 {
        push_each::<2, _, _>(indices, base, words);
    } else if ones <= 15 {
        push_each::<4, _, _>(indices, base, words);
    } else if !BYTES || ones <= 80 {
        push_each::<8, _, _>(indices, base, words);
    } else {
        push_each::<64, _, _>(indices, base, words);
    }
}

/// How many bits of a block are set.
#[inline(always)]
#[tactic(auto, using(crate::proofs::Lists::Words::BlockLemmas::bits_of_words_more))]
pub fn ones_in(words: &[u64; 4]) -> usize
    ensures count { result ≡ count (bits_of_words words.now) }
    ensures few { result ≤ 256 }
{
    let mut ones = 0;
    for j in 0..4 {
        ones += words[j].count_ones() as usize;
    }
    ones
}

// Puts the indices of the set bits of each word of a block, as [`push_indices`] does.
#[inline(always)]
#[tactic(auto, using(crate::proofs::Lists::Words::BlockLemmas::bits_of_words_more))]
fn push_each<const K: usize, N: RowIndex, R: Room<N>>(
    indices: &mut R,
    base: usize,
    words: &[u64; 4],
)
    requires step { (K ≤ 8) ⊎ (K ≡ 64) }
    requires room { length (R.items indices.old) + (count (bits_of_words words.now) + min K 8)
        ≤ R.capacity (R.kept indices.old) }
    requires fits { base + 256 < 2 ^ 64 }
    ensures items { R.items indices.new
        ≡ R.items indices.old ++ map N.index_of (indices_from base (bits_of_words words.now)) }
    ensures kept { R.kept indices.new ≡ R.kept indices.old }
{
    for j in 0..4 {
        push_indices::<K, _, _>(indices, base + 64 * j, words[j]);
    }
}
