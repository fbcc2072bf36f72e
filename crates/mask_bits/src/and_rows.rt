//! What a test of their rows leaves of truth values.

ghost use Rattle.std.specs.Prelude.{◌≡◌, ◌+◌, ◌*◌, ◌<◌, ◌≤◌, ℕ, false, IfOk, length, min, slice_index_or, take, vec_len};
ghost use Rattle.std.specs.Fn.{FnReturnsAt};
ghost use Rattle.std.specs.Int.{bit_at};
ghost use Rattle.mask_bits.specs.Bitmap.{bitmap};
ghost use Rattle.mask_bits.specs.Buffer.{backing_bit, values};
ghost use Rattle.mask_bits.specs.Rows.{AreLeft, AreLeftAsComputed};
ghost use Rattle.mask_bits.specs.Words.{word_bits};

use crate::buffer::BitBuffer;
use crate::byte_list::{ByteList, unwritten};
use crate::combine::{And, combine};
use crate::from_rows::{word_of_rows, word_of_whole};
use crate::unchecked::put_lowest;
use crate::words::{low_bits, set_word, started_words, word_at, word_of};
use std::alloc::{AllocError, Global};
use std::mem::size_of_val;

// Rows of so many bytes and more are taken for strings and the like, whose tests are dear.
const WIDE: usize = 16;

// So many of 64 such rows have to be left for all to be tested: that is 1.28 of the tests of those that are left.
const MANY_WIDE: usize = 50;

impl BitBuffer {
    /// The values that are true here and of whose rows a test says so too: value `i` is true exactly where it is here and
    /// the test returns so for row `i`.
    ///
    /// The next one of several tests of a column's rows. The test is a function of a row: where few of 64 values are true,
    /// it is asked of their rows alone, and else of all 64 together, so of rows too that aren't left.
    // rust: named try_and_rows
    pub fn and_rows<T, F: Fn(&T) -> bool>(
        &self,
        alloc: Global,
        rows: &[T],
        test: F,
    ) -> Result<BitBuffer, AllocError>
        requires same_len { length rows.now ≡ length (values self.now) }
        requires callable { F.IsAlwaysCallable test }
        ensures left { IfOk result
            (λ b. AreLeft (FnReturnsAt F.Fn test) rows.now (values self.now) (values b)) }
        ensures list { IfOk result
            (λ b. AreLeftAsComputed (F.post test) rows.now (values self.now) (values b)) }
        ensures len { IfOk result (λ b. length (values b) ≡ length (values self.now)) }
    {
        let mut bytes = copied(alloc, self)?;
        and_rows_in_place(&mut bytes, rows, &test);
        BitBuffer::from_list(bytes, rows.len())
    }
}

// The values in bytes of their own, from the first bit on.
#[tactic(auto, using(crate::proofs::CombineLemmas::combined_buffers, crate::proofs::Lists::BooleanLemmas::length_facts))]
fn copied(alloc: Global, buffer: &BitBuffer) -> Result<ByteList, AllocError>
    ensures list { IfOk result
        (λ bytes. bitmap bytes.items 0 (length (values buffer.now)) ≡ values buffer.now) }
    ensures covered { IfOk result (λ bytes. length (values buffer.now) ≤ 8 * vec_len bytes) }
{
    let (bits, offset, len) = (buffer.bits(), buffer.offset(), buffer.len());
    let mut bytes = unwritten(alloc, 8 * started_words(len))?;
    // (what is true in a list and in the same one)
    combine::<And>(bits, offset, bits, offset, len, &mut bytes);
    Ok(bytes)
}

// Leaves those of the first values of `bytes` true of whose rows a test says so, in place. The bits of `bytes` past them
// have no meaning.
// rust: level to v4 where size_of::<T>() >= 4 if rows.len() > 128
pub(crate) fn and_rows_in_place<T, F: Fn(&T) -> bool>(bytes: &mut [u8], rows: &[T], test: &F)
    requires covered { length rows.now ≤ 8 * length bytes.old }
    requires callable { F.IsAlwaysCallable test.now }
    ensures { AreLeft (FnReturnsAt F.Fn test.now) rows.now
        (bitmap bytes.old 0 (length rows.now)) (bitmap bytes.new 0 (length rows.now)) }
{
    let whole = rows.len() / 64;
    for i in 0..whole {
        let word = word_of(bytes, i);
        if word != 0 {
            let left = left_of_whole(word, &rows[64 * i..64 * i + 64], test);
            set_word(bytes, i, left);
        }
    }
    if 64 * whole < rows.len() {
        let left = left_of_rows(word_at(bytes, 64 * whole), &rows[64 * whole..], test);
        put_last(bytes, whole, left);
    }
}

// Writes as much of a word to the place of word `i` as the bytes have there.
fn put_last(bytes: &mut [u8], i: usize, word: u64)
    requires { 8 * i ≤ length bytes.old }
    ensures here { (j : ℕ) → j < 64 → 64 * i + j < 8 * length bytes.old
        → backing_bit bytes.new (64 * i + j) ≡ slice_index_or (word_bits word) j false }
    ensures before { (p : ℕ) → p < 64 * i → backing_bit bytes.new p ≡ backing_bit bytes.old p }
{
    let end = bytes.len().min(8 * i + 8);
    put_lowest(word, &mut bytes[8 * i..end]);
}

// What a test of 64 rows leaves of a word.
#[inline(always)]
fn left_of_whole<T, F: Fn(&T) -> bool>(word: u64, rows: &[T], test: &F) -> u64
    requires whole { length rows.now ≡ 64 }
    requires callable { F.IsAlwaysCallable test.now }
    ensures { AreLeft (FnReturnsAt F.Fn test.now) rows.now (word_bits word)
        (take (length rows.now) (word_bits result)) }
{
    if (word.count_ones() as usize) < many(rows) {
        left_one_by_one(word, rows, test)
    } else {
        word & word_of_whole(rows, test)
    }
}

// What a test of fewer rows leaves of the lowest bits of a word.
#[inline(always)]
fn left_of_rows<T, F: Fn(&T) -> bool>(word: u64, rows: &[T], test: &F) -> u64
    requires some { 0 < length rows.now }
    requires few { length rows.now ≤ 64 }
    requires callable { F.IsAlwaysCallable test.now }
    ensures { AreLeft (FnReturnsAt F.Fn test.now) rows.now (word_bits word)
        (take (length rows.now) (word_bits result)) }
{
    let word = low_bits(word, rows.len());
    if (word.count_ones() as usize) < many(rows) {
        left_one_by_one(word, rows, test)
    } else {
        word & word_of_rows(rows, test)
    }
}

// How many of 64 rows have to be left for all to be tested. Of numbers it is as many as one has bytes: 64 narrower ones
// are compared in fewer instructions, and to go to one row takes as long whatever its width.
#[inline(always)]
fn many<T>(rows: &[T]) -> usize
    requires { 0 < length rows.now }
{
    let size = size_of_val(rows) / rows.len();
    if size < WIDE { size } else { MANY_WIDE }
}

// What a test leaves of a word, which is asked of the rows of set bits alone, one after another.
#[inline(always)]
fn left_one_by_one<T, F: Fn(&T) -> bool>(word: u64, rows: &[T], test: &F) -> u64
    requires within { (j : ℕ) → length rows.now ≤ j → bit_at word j ≡ 0 }
    requires few { length rows.now ≤ 64 }
    requires callable { F.IsAlwaysCallable test.now }
    ensures { AreLeft (FnReturnsAt F.Fn test.now) rows.now (word_bits word)
        (take (length rows.now) (word_bits result)) }
{
    let mut asked = word;
    let mut left = 0;
    while asked != 0 {
        let place = asked.trailing_zeros();
        left |= u64::from(test(&rows[place as usize])) << place;
        asked &= asked - 1;
    }
    left
}
