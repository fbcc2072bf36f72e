//! Buffers of what a test returns for each row.

ghost use Rattle.std.specs.Prelude.{◌≡◌, ◌+◌, ◌*◌, ◌≤◌, ◌++◌, ℕ, List, IfOk, length, take, vec_len};
ghost use Rattle.std.specs.Fn.{FnReturnsAt};
ghost use Rattle.std.specs.Int.{bit_at};
ghost use Rattle.mask_bits.specs.Bitmap.{bitmap};
ghost use Rattle.mask_bits.specs.Buffer.{values};
ghost use Rattle.mask_bits.specs.Lanes.{ArePacked};
ghost use Rattle.mask_bits.specs.Rows.{AreAnswers, AreAsComputed};
ghost use Rattle.mask_bits.specs.Words.{word_bits, started_words};

use crate::bools::{word_of_half_lanes, word_of_lanes, word_of_sixteen_lanes};
use crate::buffer::BitBuffer;
use crate::byte_list::{ByteList, unwritten};
use crate::words::{set_word, started_words};
use std::alloc::{AllocError, Global};
use std::mem::size_of_val;

// The bytes of 64 rows of 8 bytes. The answers of so wide rows and of wider ones become bits sixteen at a time, and those
// of others 32 at a time: of more of them the compiler takes a test of two comparisons lane by lane, or leaves the lanes
// in memory.
const WIDE: usize = 64 * 8;

impl BitBuffer {
    /// What a test returns for each row, in their order: value `i` is its result for row `i`. The
    /// answers are packed as they come, 64 to a word, and are listed nowhere else.
    // rust: level to v4 where size_of::<T>() >= 4
    // rust: named try_from_rows
    pub fn from_rows<T, F: Fn(&T) -> bool>(
        alloc: Global,
        rows: &[T],
        test: F,
    ) -> Result<BitBuffer, AllocError>
        requires { F.IsAlwaysCallable test }
        ensures answers { IfOk result
            (λ b. AreAnswers (FnReturnsAt F.Fn test) rows.now (values b)) }
        ensures list { IfOk result (λ b. AreAsComputed (F.post test) rows.now (values b)) }
    {
        let bytes = words_of_answers(alloc, rows, test)?;
        BitBuffer::from_list(bytes, rows.len())
    }
}

/// The list of [`BitBuffer::from_rows`] from bit 0 on, in whole words of which all but the last values have no meaning.
#[inline(always)]
pub fn words_of_answers<T, F: Fn(&T) -> bool>(
    alloc: Global,
    rows: &[T],
    test: F,
) -> Result<ByteList, AllocError>
    requires { F.IsAlwaysCallable test }
    ensures room { IfOk result (λ b. vec_len b ≡ 8 * started_words (length rows.now)) }
    ensures answers { IfOk result
        (λ b. AreAnswers (FnReturnsAt F.Fn test) rows.now (bitmap b.items 0 (length rows.now))) }
    ensures list { IfOk result
        (λ b. AreAsComputed (F.post test) rows.now (bitmap b.items 0 (length rows.now))) }
{
    let mut bytes = unwritten(alloc, 8 * started_words(rows.len()))?;
    put_answers(&mut bytes, rows, &test);
    Ok(bytes)
}

// Writes what a test returns for rows to the front of `bytes`, which is room of whole words, a word at a time.
#[inline(always)]
fn put_answers<T, F: Fn(&T) -> bool>(bytes: &mut [u8], rows: &[T], test: &F)
    requires room { 8 * started_words (length rows.now) ≤ length bytes.old }
    requires callable { F.IsAlwaysCallable test.now }
    ensures { AreAnswers (FnReturnsAt F.Fn test.now) rows.now (bitmap bytes.new 0 (length rows.now)) }
{
    let whole = rows.len() / 64;
    for i in 0..whole {
        set_word(bytes, i, word_of_whole(&rows[64 * i..64 * i + 64], test));
    }
    if 64 * whole < rows.len() {
        set_word(bytes, whole, word_of_rows(&rows[64 * whole..], test));
    }
}

// The word of what a test returns for 64 rows, the first lowest.
#[inline(always)]
pub(crate) fn word_of_whole<T, F: Fn(&T) -> bool>(rows: &[T], test: &F) -> u64
    requires whole { length rows.now ≡ 64 }
    requires callable { F.IsAlwaysCallable test.now }
    ensures { AreAnswers (FnReturnsAt F.Fn test.now) rows.now
        (take (length rows.now) (word_bits result)) }
{
    if size_of_val(rows) < WIDE {
        word_of_halves(rows, test)
    } else {
        word_of_sixteens(rows, test)
    }
}

// The same, 32 rows at a time.
#[inline(always)]
fn word_of_halves<T, F: Fn(&T) -> bool>(rows: &[T], test: &F) -> u64
    requires whole { length rows.now ≡ 64 }
    requires callable { F.IsAlwaysCallable test.now }
    ensures { AreAnswers (FnReturnsAt F.Fn test.now) rows.now
        (take (length rows.now) (word_bits result)) }
{
    let mut word = 0;
    for k in 0..2 {
        word |= bits_of_half(&rows[32 * k..32 * k + 32], test) << (32 * k);
    }
    word
}

// What a test returns for 32 rows, the first lowest, with zeros past them.
#[inline(always)]
fn bits_of_half<T, F: Fn(&T) -> bool>(rows: &[T], test: &F) -> u64
    requires whole { length rows.now ≡ 32 }
    requires callable { F.IsAlwaysCallable test.now }
    ensures answers { AreAnswers (FnReturnsAt F.Fn test.now) rows.now (take 32 (word_bits result)) }
    ensures clear { (j : ℕ) → 32 ≤ j → bit_at result j ≡ 0 }
{
    let mut half = [0u8; 32];
    put_lanes(&mut half, 0, rows, test);
    word_of_half_lanes(&half)
}

// The same, sixteen rows at a time.
#[inline(always)]
fn word_of_sixteens<T, F: Fn(&T) -> bool>(rows: &[T], test: &F) -> u64
    requires whole { length rows.now ≡ 64 }
    requires callable { F.IsAlwaysCallable test.now }
    ensures { AreAnswers (FnReturnsAt F.Fn test.now) rows.now
        (take (length rows.now) (word_bits result)) }
{
    let mut word = 0;
    for k in 0..4 {
        word |= bits_of_sixteen(&rows[16 * k..16 * k + 16], test) << (16 * k);
    }
    word
}

// What a test returns for sixteen rows, the first lowest, with zeros past them.
#[inline(always)]
fn bits_of_sixteen<T, F: Fn(&T) -> bool>(rows: &[T], test: &F) -> u64
    requires whole { length rows.now ≡ 16 }
    requires callable { F.IsAlwaysCallable test.now }
    ensures answers { AreAnswers (FnReturnsAt F.Fn test.now) rows.now (take 16 (word_bits result)) }
    ensures clear { (j : ℕ) → 16 ≤ j → bit_at result j ≡ 0 }
{
    let mut lanes = [0u8; 16];
    put_lanes(&mut lanes, 0, rows, test);
    word_of_sixteen_lanes(&lanes)
}

// The word of what a test returns for at most 64 rows, the first lowest, with zeros past them.
//
// An answer is a lane of its own, so that several rows are tested at once where the test allows it, and all lanes
// become bits together. Always inlined, as the packing of a list's values.
#[inline(always)]
pub(crate) fn word_of_rows<T, F: Fn(&T) -> bool>(rows: &[T], test: &F) -> u64
    requires few { length rows.now ≤ 64 }
    requires callable { F.IsAlwaysCallable test.now }
    ensures { AreAnswers (FnReturnsAt F.Fn test.now) rows.now
        (take (length rows.now) (word_bits result)) }
{
    let mut lanes = [0u8; 64];
    let whole = rows.len() / 16;
    for k in 0..whole {
        put_lanes(&mut lanes, 16 * k, &rows[16 * k..16 * k + 16], test);
    }
    put_lanes(&mut lanes, 16 * whole, &rows[16 * whole..], test);
    word_of_lanes(&lanes)
}

// Writes what a test returns for some rows to the lanes behind the first `at`. Of sixteen rows, the lanes of a vector,
// no loop is left.
#[inline(always)]
fn put_lanes<const N: usize, T, F: Fn(&T) -> bool>(
    lanes: &mut [u8; N],
    at: usize,
    rows: &[T],
    test: &F,
)
    requires room { at + length rows.now ≤ N }
    requires callable { F.IsAlwaysCallable test.now }
    ensures { (front : List T) → length front ≡ at
        → ArePacked N (FnReturnsAt F.Fn test.now) front lanes.old
        → ArePacked N (FnReturnsAt F.Fn test.now) (front ++ rows.now) lanes.new }
{
    for j in 0..rows.len() {
        lanes[at + j] = test(&rows[j]) as u8;
    }
}
