//! Bits written to bytes: one bit, a word, one value many times, or bits of other bytes.

ghost use Rattle.std.specs.Prelude.{◌≡◌, ◌+◌, ◌*◌, ◌%◌, ◌^◌, ◌<◌, ◌≤◌, ◌&&◌, ℕ, not, true, nat_eq, length, take, ◌-◌, ◌||◌, false, slice_index_or, slice_set, IfOk, vec_len};
ghost use Rattle.std.specs.Int.{div_ceil};
ghost use Rattle.mask_bits.specs.Bitmap.{bitmap};
ghost use Rattle.mask_bits.specs.Buffer.{IsWithinBytes, backing_bit};
ghost use Rattle.mask_bits.specs.BufferMut.{IsWrittenBehind, AreClearFrom};
ghost use Rattle.mask_bits.specs.Positions.{repeated, count};
ghost use Rattle.mask_bits.specs.Words.{word_bits};

use crate::byte_list::ByteList;
use crate::read_word::{Bits, ReadWord, Shifted, Whole};
use crate::words::{low_bits, set_word, word_at, word_of};
use std::alloc::{AllocError, Global};

/// Sets the bit at one position and no other.
#[tactic(auto, using(crate::proofs::SetBitLemmas::bits_written))]
pub fn set_bit(bytes: &mut [u8], position: usize)
    requires { position < 8 * length bytes.old }
    ensures { (p : ℕ) → backing_bit bytes.new p ≡ (nat_eq p position || backing_bit bytes.old p) }
{
    bytes[position / 8] |= 1 << (position % 8);
}

/// Clears the bit at one position and no other.
#[tactic(auto, using(crate::proofs::SetBitLemmas::bits_written))]
pub fn clear_bit(bytes: &mut [u8], position: usize)
    requires { position < 8 * length bytes.old }
    ensures { (p : ℕ) → backing_bit bytes.new p
        ≡ (not (nat_eq p position) && backing_bit bytes.old p) }
{
    bytes[position / 8] &= !(1 << (position % 8));
}

/// Bytes for `len` bits, all set.
#[tactic(auto, using(crate::proofs::BufferLemmas::one_value))]
pub fn ones(alloc: Global, len: usize) -> Result<ByteList, AllocError>
    ensures covered { IfOk result (λ bytes. len ≤ 8 * vec_len bytes) }
    ensures list { IfOk result (λ bytes. bitmap bytes.items 0 len ≡ repeated len true) }
{
    vec![in alloc; 0xFFu8; len.div_ceil(8)]
}

/// Makes value `i` of the first `len` false, and no other.
#[tactic(auto, using(crate::proofs::BufferLemmas::len_facts, crate::proofs::BuilderLemmas::bits_set))]
pub fn unset_value(bytes: &mut [u8], len: usize, i: usize)
    requires within { i < len }
    requires covered { len ≤ 8 * length bytes.old }
    ensures { bitmap bytes.new 0 len ≡ slice_set (bitmap bytes.old 0 len) i false }
{
    clear_bit(bytes, i);
}

// Writes the lowest `count` bits of a word behind the first `at` bits.
#[inline]
pub(crate) fn put_word(bytes: &mut [u8], at: usize, word: u64, count: usize)
    requires few { count ≤ 64 }
    requires room { at + count ≤ 8 * length bytes.old }
    requires whole { length bytes.old % 8 ≡ 0 }
    requires clear { AreClearFrom at bytes.old }
    ensures { IsWrittenBehind bytes.old bytes.new at (take count (word_bits word)) }
{
    if count == 0 {
        return;
    }
    let word = low_bits(word, count);
    let (first, low) = (at / 64, at % 64);
    let begun = word_of(bytes, first) | (word << low);
    set_word(bytes, first, begun);
    if low + count > 64 {
        set_word(bytes, first + 1, word >> (64 - low));
    }
}

// Writes `value`, `n` times, behind the first `at` bits.
#[tactic(auto, using(crate::proofs::WriteLemmas::false_values))]
pub(crate) fn put_same(bytes: &mut [u8], at: usize, value: bool, n: usize)
    requires room { at + n ≤ 8 * length bytes.old }
    requires fits { at + n < 2 ^ 64 }
    requires whole { length bytes.old % 8 ≡ 0 }
    requires clear { AreClearFrom at bytes.old }
    ensures { IsWrittenBehind bytes.old bytes.new at (repeated n value) }
{
    // false values are there
    if value {
        put_ones(bytes, at, n);
    }
}

fn put_ones(bytes: &mut [u8], at: usize, n: usize)
    requires room { at + n ≤ 8 * length bytes.old }
    requires fits { at + n < 2 ^ 64 }
    requires whole { length bytes.old % 8 ≡ 0 }
    requires clear { AreClearFrom at bytes.old }
    ensures { IsWrittenBehind bytes.old bytes.new at (repeated n true) }
{
    let room = 64 - at % 64;
    if n <= room {
        put_word(bytes, at, u64::MAX, n);
        return;
    }
    put_word(bytes, at, u64::MAX, room);
    let (first, words) = (at / 64 + 1, (n - room) / 64);
    put_full(bytes, first, words);
    put_word(bytes, 64 * (first + words), u64::MAX, (n - room) % 64);
}

// Writes whole words of ones, from word `first` on.
fn put_full(bytes: &mut [u8], first: usize, words: usize)
    requires room { 8 * (first + words) ≤ length bytes.old }
    requires clear { AreClearFrom (64 * first) bytes.old }
    ensures { IsWrittenBehind bytes.old bytes.new (64 * first) (repeated (64 * words) true) }
{
    bytes[8 * first..8 * (first + words)].fill(0xFF);
}

// Writes the `n` bits of `from` from bit `offset` on behind the first `at` bits.
// rust: level if n > 128
pub(crate) fn put_bits(bytes: &mut [u8], at: usize, from: &[u8], offset: usize, n: usize)
    requires room { at + n ≤ 8 * length bytes.old }
    requires fits { at + n < 2 ^ 64 }
    requires source { IsWithinBytes from.now offset n }
    requires whole { length bytes.old % 8 ≡ 0 }
    requires clear { AreClearFrom at bytes.old }
    ensures { IsWrittenBehind bytes.old bytes.new at (bitmap from.now offset n) }
{
    let room = 64 - at % 64;
    if n < room + 128 {
        put_windows(bytes, at, from, offset, n);
        return;
    }
    put_windows(bytes, at, from, offset, room);
    // beside each of these words the source goes on for another
    let words = (n - room) / 64 - 1;
    put_whole(bytes, at / 64 + 1, from, offset + room, words);
    let done = room + 64 * words;
    put_windows(bytes, at + done, from, offset + done, n - done);
}

// Writes bits behind those that are there, by a window for each word.
#[tactic(auto, using(crate::proofs::WriteLemmas::bits_of_bytes))]
fn put_windows(bytes: &mut [u8], at: usize, from: &[u8], offset: usize, n: usize)
    requires room { at + n ≤ 8 * length bytes.old }
    requires fits { at + n < 2 ^ 64 }
    requires source { IsWithinBytes from.now offset n }
    requires whole { length bytes.old % 8 ≡ 0 }
    requires clear { AreClearFrom at bytes.old }
    ensures { IsWrittenBehind bytes.old bytes.new at (bitmap from.now offset n) }
{
    let mut done = 0;
    while done < n {
        let count = (n - done).min(64);
        put_word(bytes, at + done, word_at(from, offset + done), count);
        done += count;
    }
}

// Writes whole words of `from`, from bit `offset` on, as the words from `first` on.
#[tactic(auto, using(crate::proofs::WriteLemmas::from_byte))]
fn put_whole(bytes: &mut [u8], first: usize, from: &[u8], offset: usize, words: usize)
    requires room { 8 * (first + words) ≤ length bytes.old }
    requires source { IsWithinBytes from.now offset (64 * words + 64) }
    requires clear { AreClearFrom (64 * first) bytes.old }
    ensures { IsWrittenBehind bytes.old bytes.new (64 * first)
        (bitmap from.now offset (64 * words)) }
{
    let from = Bits::new(from, offset);
    if from.low == 0 {
        put_words::<Whole>(bytes, first, from, words);
    } else {
        put_words::<Shifted>(bytes, first, from, words);
    }
}

// Writes the first words of a list as the words from `first` on.
#[tactic(auto, using(crate::proofs::WriteLemmas::bits_of_bytes))]
fn put_words<R: ReadWord>(bytes: &mut [u8], first: usize, from: Bits<'_>, words: usize)
    requires reads { (i : ℕ) → i < words → R.can_read from.bytes.now from.low i }
    requires room { 8 * (first + words) ≤ length bytes.old }
    requires clear { AreClearFrom (64 * first) bytes.old }
    ensures { IsWrittenBehind bytes.old bytes.new (64 * first)
        (bitmap from.entry.bytes.now from.entry.low (64 * words)) }
{
    for i in 0..words {
        set_word(bytes, first + i, R::word(from, i));
    }
}
