//! The values of a list at the rows that another chooses.

ghost use Rattle.std.specs.Prelude.{◌≡◌, ◌+◌, ◌-◌, ◌*◌, ◌/◌, ◌%◌, ◌<◌, ◌≤◌, ◌^◌, ◌++◌, ℕ, IfOk, drop, length, take};
ghost use Rattle.std.specs.Int.{bit_at, div_ceil};
ghost use Rattle.mask_bits.specs.Bitmap.{bitmap};
ghost use Rattle.mask_bits.specs.Buffer.{values};
ghost use Rattle.mask_bits.specs.ChosenBits.{AreChosenSoFar, values_so_far};
ghost use Rattle.mask_bits.specs.Positions.{count, chosen};
ghost use Rattle.mask_bits.specs.Words.{started_words, word_bits};

use crate::buffer::BitBuffer;
use crate::chunks::BitChunks;
use crate::extract::{extract, extract_two};
use crate::words::{set_word, started_words};
use bytes::Bytes;
use std::alloc::{AllocError, Global};

impl BitBuffer {
    /// The values of `of` at the true indices of this buffer, in their order: the way back of a
    /// rank intersection. What Arrow calls to filter `of` by this buffer.
    // rust: named try_choose_values
    pub fn choose_values(&self, alloc: Global, of: &BitBuffer) -> Result<BitBuffer, AllocError>
        requires { length (values of.now) ≡ length (values self.now) }
        ensures list { IfOk result (λ b. values b ≡ chosen (values of.now) (values self.now)) }
        ensures len { IfOk result (λ b. length (values b) ≡ count (values self.now)) }
    {
        let mut bytes = vec![in alloc; 0u8; 8 * started_words(self.true_count())]?;
        let last = put_chosen(&self.chunks(), &of.chunks(), &mut bytes);
        put_last_chosen(&mut bytes, last);
        Ok(BitBuffer::new(Bytes::from_vec(bytes)?, last.count))
    }
}

/// How many values have been chosen, and the word of those that fill no whole one, with zeros above them.
#[derive(Clone, Copy)]
pub struct LastChosen {
    /// The number of values.
    pub count: usize,
    /// The values past the whole words, the first lowest.
    pub word: u64,
}

/// Writes the values of `values` at the true values of `masks`, in their order, to the front of `out`, as far as they
/// fill words of 64. Returns how many there are, and those past the whole words.
// rust: level
// rust: copied by instruction
#[tactic(auto, using(crate::proofs::ChosenBitLemmas::chosen_so_far))]
pub fn put_chosen(masks: &BitChunks<'_>, values: &BitChunks<'_>, out: &mut [u8]) -> LastChosen
    requires fitting { length values.now ≡ length masks.now }
    requires room { div_ceil (count masks.now) 8 ≤ length out.old }
    ensures count { result.count ≡ count masks.now }
    ensures list { values_so_far out.new result.word result.count ≡ chosen values.now masks.now }
    ensures clear { (j : ℕ) → result.count % 64 ≤ j → bit_at result.word j ≡ 0 }
    ensures behind { drop (8 * (result.count / 64)) out.new
        ≡ drop (8 * (result.count / 64)) out.old }
{
    let words = masks.started_words();
    let mut last = put_pairs(masks, values, out);
    for i in masks.len() / 2 * 2..words {
        let mask = masks.started_word(i);
        let word = extract(values.started_word(i), mask);
        last = put_behind(out, last, word, mask.count_ones() as usize);
    }
    last
}

// The same by pairs of whole words.
// rust: by instruction native::put_pairs
fn put_pairs(masks: &BitChunks<'_>, values: &BitChunks<'_>, out: &mut [u8]) -> LastChosen
    requires fits { length masks.now < 2 ^ 64 }
    requires fitting { length values.now ≡ length masks.now }
    requires room { div_ceil (count masks.now) 8 ≤ length out.old }
    ensures { AreChosenSoFar values.now masks.now (length masks.now / 64 / 2 * 2) out.old out.new
        result.word result.count }
{
    let mut last = LastChosen { count: 0, word: 0 };
    for pair in 0..masks.len() / 2 {
        let i = 2 * pair;
        let two = [masks.word(i), masks.word(i + 1)];
        let words = extract_two([values.word(i), values.word(i + 1)], two);
        last = put_behind(out, last, words[0], two[0].count_ones() as usize);
        last = put_behind(out, last, words[1], two[1].count_ones() as usize);
    }
    last
}

// Writes the values past the whole words, where there are any.
#[inline]
#[tactic(auto, using(crate::proofs::Lists::Words::BackingBitLemmas::front_and_last))]
fn put_last_chosen(out: &mut [u8], last: LastChosen)
    requires { 8 * started_words last.count ≤ length out.old }
    ensures { bitmap out.new 0 last.count ≡ values_so_far out.old last.word last.count }
{
    if last.count % 64 != 0 {
        set_word(out, last.count / 64, last.word);
    }
}

// Puts the lowest `count` bits of a word behind the values so far, and writes the word that they fill.
#[inline(always)]
#[tactic(auto, using(crate::proofs::ChosenBitLemmas::put_facts))]
fn put_behind(out: &mut [u8], last: LastChosen, word: u64, count: usize) -> LastChosen
    requires few { count ≤ 64 }
    requires begun { (j : ℕ) → last.count % 64 ≤ j → bit_at last.word j ≡ 0 }
    requires word { (j : ℕ) → count ≤ j → j < 64 → bit_at word j ≡ 0 }
    requires room { div_ceil (last.count + count) 8 ≤ length out.old }
    requires fits { last.count + count < 2 ^ 64 }
    ensures count { result.count ≡ last.count + count }
    ensures list { values_so_far out.new result.word (last.count + count)
        ≡ values_so_far out.old last.word last.count ++ take count (word_bits word) }
    ensures begun { (j : ℕ) → (last.count + count) % 64 ≤ j → bit_at result.word j ≡ 0 }
    ensures behind { drop (8 * ((last.count + count) / 64)) out.new
        ≡ drop (8 * ((last.count + count) / 64)) out.old }
{
    let (whole, low) = (last.count / 64, last.count % 64);
    let joined = last.word | (word << low);
    let end = last.count + count;
    if low + count < 64 {
        return LastChosen {
            count: end,
            word: joined,
        };
    }
    set_word(&mut out[8 * whole..8 * whole + 8], 0, joined);
    // two shifts, since one by 64 would be none
    LastChosen {
        count: end,
        word: (word >> 1) >> (63 - low),
    }
}
