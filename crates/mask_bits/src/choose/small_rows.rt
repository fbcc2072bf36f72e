//! The rows at the set bits of a word, where several rows are moved at once: rows of few bytes.

ghost use Rattle.std.specs.Prelude.{◌≡◌, ◌+◌, ◌<◌, ◌≤◌, ◌++◌, All, length, take};
ghost use Rattle.mask_bits.specs.Positions.{count, chosen, positions};
ghost use Rattle.mask_bits.specs.Words.{word_bits};

mod one_byte;

use crate::choose::rows_of_word::{push_rows_of_word, push_rows_one_by_one};
use crate::output::Room;

/// How the rows at the set ones of sixteen bits come to stand one after another.
pub trait MoveRows<T: Copy> {
    ghost use Rattle.std.specs.Prelude.{◌≡◌, ◌+◌, ◌≤◌, ◌++◌, length, take};
    ghost use Rattle.mask_bits.specs.Positions.{count, chosen};
    ghost use Rattle.mask_bits.specs.Words.{word_bits};

    /// Puts these rows into room for sixteen.
    fn push_sixteen<R: Room<T>>(out: &mut R, rows: &[T], bits: u16)
        requires sixteen { length rows.now ≡ 16 }
        requires room { length (R.items out.old) + 16 ≤ R.capacity (R.kept out.old) }
        ensures rows { R.items out.new ≡ R.items out.old ++ chosen rows.now (take 16 (word_bits bits)) }
        ensures len { length (R.items out.new) ≡ length (R.items out.old) + count (take 16 (word_bits bits)) }
        ensures kept { R.kept out.new ≡ R.kept out.old };
}

/// By a table, which has the places of a byte's set bits.
pub struct ByTable;

/// Puts the rows at the set bits of a word into room for these: those of sixteen bits at once where there is room to
/// spare; one after another where fewer than `FEW` bits are set, since that takes less time then.
#[inline(always)]
#[tactic(auto, using(crate::proofs::Lists::Places::PushLemmas::rows_of_words, crate::proofs::Lists::Words::WordLemmas::ones_of_word))]
pub fn push_small_rows<const FEW: usize, M: MoveRows<T>, T: Copy, R: Room<T>>(
    out: &mut R,
    rows: &[T],
    word: u64,
)
    requires whole { length rows.now ≡ 64 }
    requires room { length (R.items out.old) + count (word_bits word) ≤ R.capacity (R.kept out.old) }
    ensures rows { R.items out.new ≡ R.items out.old ++ chosen rows.now (word_bits word) }
    ensures len { length (R.items out.new) ≡ length (R.items out.old) + count (word_bits word) }
    ensures kept { R.kept out.new ≡ R.kept out.old }
{
    // (to count what is empty or full takes longer than to copy it)
    if word == 0 || word == u64::MAX {
        push_rows_of_word::<0, _, _>(out, rows, word);
        return;
    }
    if out.spare() < word.count_ones() as usize + 16 {
        push_last_small_rows::<FEW, M, _, _>(out, rows, word);
    } else if (word.count_ones() as usize) < FEW {
        push_rows_one_by_one(out, rows, word);
    } else {
        push_by_sixteen::<M, _, _>(out, rows, word);
    }
}

/// The same of the last rows, with no room to spare: those of sixteen bits at once as long as there is room for sixteen.
#[inline(always)]
#[tactic(auto, using(crate::proofs::ByteRowLemmas::rows_of_sixteen, crate::proofs::Lists::Words::WordLemmas::ones_of_word))]
pub fn push_last_small_rows<const FEW: usize, M: MoveRows<T>, T: Copy, R: Room<T>>(
    out: &mut R,
    rows: &[T],
    word: u64,
)
    requires within { All (λ p. p < length rows.now) (positions (word_bits word)) }
    requires room { length (R.items out.old) + count (word_bits word) ≤ R.capacity (R.kept out.old) }
    ensures rows { R.items out.new ≡ R.items out.old ++ chosen rows.now (word_bits word) }
    ensures len { length (R.items out.new) ≡ length (R.items out.old) + count (word_bits word) }
    ensures kept { R.kept out.new ≡ R.kept out.old }
{
    if (word.count_ones() as usize) < FEW {
        push_rows_one_by_one(out, rows, word);
        return;
    }
    let mut left = word;
    let parts = rows.len() / 16;
    for j in 0..parts {
        push_sixteen_or_fewer::<M, _, _>(out, &rows[16 * j..16 * j + 16], (left & 0xFFFF) as u16);
        left >>= 16;
    }
    push_rows_one_by_one(out, &rows[16 * parts..], left);
}

// Puts those of sixteen bits, at once where there is room for sixteen.
#[inline(always)]
#[tactic(auto, using(crate::proofs::ByteRowLemmas::rows_of_bits, crate::proofs::Lists::Words::WordLemmas::ones_of_word))]
fn push_sixteen_or_fewer<M: MoveRows<T>, T: Copy, R: Room<T>>(out: &mut R, rows: &[T], bits: u16)
    requires sixteen { length rows.now ≡ 16 }
    requires room { length (R.items out.old) + count (take 16 (word_bits bits)) ≤ R.capacity (R.kept out.old) }
    ensures rows { R.items out.new ≡ R.items out.old ++ chosen rows.now (take 16 (word_bits bits)) }
    ensures len { length (R.items out.new) ≡ length (R.items out.old) + count (take 16 (word_bits bits)) }
    ensures kept { R.kept out.new ≡ R.kept out.old }
{
    if out.spare() < 16 {
        push_rows_one_by_one(out, rows, bits as u64);
    } else {
        M::push_sixteen(out, rows, bits);
    }
}

// Puts those of the whole word, sixteen bits at a time.
#[inline(always)]
#[tactic(auto, using(crate::proofs::ByteRowLemmas::rows_of_sixteen))]
fn push_by_sixteen<M: MoveRows<T>, T: Copy, R: Room<T>>(out: &mut R, rows: &[T], word: u64)
    requires whole { length rows.now ≡ 64 }
    requires room { length (R.items out.old) + (count (word_bits word) + 16) ≤ R.capacity (R.kept out.old) }
    ensures rows { R.items out.new ≡ R.items out.old ++ chosen rows.now (word_bits word) }
    ensures len { length (R.items out.new) ≡ length (R.items out.old) + count (word_bits word) }
    ensures kept { R.kept out.new ≡ R.kept out.old }
{
    let mut left = word;
    for j in 0..4 {
        M::push_sixteen(out, &rows[16 * j..16 * j + 16], (left & 0xFFFF) as u16);
        left >>= 16;
    }
}
