//! The rows at the set bits of a word.

ghost use Rattle.std.specs.Prelude.{◌≡◌, ◌+◌, ◌<◌, ◌≤◌, ◌++◌, All, length};
ghost use Rattle.mask_bits.specs.Positions.{count, positions, chosen};
ghost use Rattle.mask_bits.specs.Words.{word_bits};

use crate::items_of_word::{push_by, push_one_by_one};
use crate::output::Room;
use std::mem::size_of_val;

// A word whose bits are all set.
const FULL: u64 = u64::MAX;

// The bytes of 65 rows of 32 bytes. To read and write a wider row for nothing takes longer than a branch that is
// guessed wrong.
const MOST_BYTES: usize = 65 * 32;

/// Puts the rows at the set bits of a word into room for these: `K` at a time where there is room to spare, and
/// what is put past them is dropped, so that few branches go by how many bits a word has; one after another where
/// `K` is 0, which takes less time where few bits are set. `K` at a time takes a row behind those of the word, which
/// is read where no bit is left.
#[inline(always)]
#[tactic(auto, using(crate::proofs::Lists::Places::PushLemmas::rows_of_words, crate::proofs::Lists::Words::WordLemmas::ones_of_word))]
pub(crate) fn push_rows_of_word<const K: usize, T: Copy, R: Room<T>>(
    out: &mut R,
    rows: &[T],
    word: u64,
)
    requires few { K ≤ 4 }
    requires whole { 64 ≤ length rows.now }
    requires room { length (R.items out.old) + count (word_bits word) ≤ R.capacity (R.kept out.old) }
    ensures rows { R.items out.new ≡ R.items out.old ++ chosen rows.now (word_bits word) }
    ensures len { length (R.items out.new) ≡ length (R.items out.old) + count (word_bits word) }
    ensures kept { R.kept out.new ≡ R.kept out.old }
{
    if word == FULL {
        push_all(out, &rows[..64]);
    } else if K == 0
        || rows.len() == 64
        || size_of_val(rows) > MOST_BYTES
        || word == 0
        || out.spare() < word.count_ones() as usize + K
    {
        push_rows_one_by_one(out, rows, word);
    } else {
        push_by::<K, _, _>(out, rows, word);
    }
}

/// Puts them one after another, as where there are fewer rows than a word has bits.
#[inline]
pub(crate) fn push_rows_one_by_one<T: Copy, R: Room<T>>(out: &mut R, rows: &[T], word: u64)
    requires within { All (λ p. p < length rows.now) (positions (word_bits word)) }
    requires room { length (R.items out.old) + count (word_bits word) ≤ R.capacity (R.kept out.old) }
    ensures rows { R.items out.new ≡ R.items out.old ++ chosen rows.now (word_bits word) }
    ensures len { length (R.items out.new) ≡ length (R.items out.old) + count (word_bits word) }
    ensures kept { R.kept out.new ≡ R.kept out.old }
{
    push_one_by_one(out, rows, word);
}

// Puts all rows.
#[inline(always)]
fn push_all<T: Copy, R: Room<T>>(out: &mut R, rows: &[T])
    requires room { length (R.items out.old) + length rows.now ≤ R.capacity (R.kept out.old) }
    ensures rows { R.items out.new ≡ R.items out.old ++ rows.now }
    ensures len { length (R.items out.new) ≡ length (R.items out.old) + length rows.now }
    ensures kept { R.kept out.new ≡ R.kept out.old }
{
    for j in 0..rows.len() {
        out.put(rows[j]);
    }
}
