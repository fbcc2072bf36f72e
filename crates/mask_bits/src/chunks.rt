//! The words of a list, and searches by words.

ghost use Rattle.std.specs.Prelude.{◌≡◌, ◌+◌, ◌-◌, ◌*◌, ◌/◌, ◌%◌, ◌<◌, ◌≤◌, ◌^◌, ℕ, length, not, slice_get, take, IfSome, Some};
ghost use Rattle.std.specs.Iterator.{YieldsFirstBy, UpTo, item_count};
ghost use Rattle.std.specs.Iterator.Runs.{EveryRun, ItemsMapTo};
ghost use Rattle.std.specs.Iterator.SizeHint.{IsWithinCount};
ghost use Rattle.mask_bits.specs.Bitmap.{bitmap};
ghost use Rattle.mask_bits.specs.Buffer.{IsWithinBytes, backing_bit, values};
ghost use Rattle.mask_bits.specs.Positions.{IsFirstFrom, count, count_below, positions};
ghost use Rattle.mask_bits.specs.Words.{IsPlaceOf, word_bits, word_part, word_parts, padded_remainder};
ghost use Rattle.mask_bits.specs.Words.{started_words, padded_part, padded_parts};

use crate::byte_places::place_in_byte;
use crate::counts::count_bits;
use crate::read_word::{Bits, ReadWord, Unaligned};
use crate::words::{started_words, word_at};
use std::marker::Model;

/// The values of a buffer in words of 64, the first value lowest.
#[derive(Drop)]
pub struct BitChunks<'a> {
    bytes: &'a [u8],
    offset: usize,
    len: usize,
}

impl<'a> Model for BitChunks<'a> {
    ghost use Rattle.std.specs.Prelude.{Bool, List};
    ghost use Rattle.mask_bits.specs.Bitmap.{bitmap};
    ghost use Rattle.mask_bits.specs.Buffer.{IsWithinBytes};

    ghost Value = { List Bool };

    ghost view = { λ c. bitmap c.bytes.now c.offset c.len };

    ghost invariant = { λ c. IsWithinBytes c.bytes.now c.offset c.len };
}

impl<'a> BitChunks<'a> {
    /// The words of `len` bits of `bytes` from bit `offset` on, without a `BitBuffer`.
    #[tactic(auto, using(crate::proofs::BufferLemmas::buffer_facts))]
    pub fn new(bytes: &'a [u8], offset: usize, len: usize) -> BitChunks<'a>
        requires { IsWithinBytes bytes.now offset len }
        ensures list { result ≡ bitmap bytes.now offset len }
        ensures len { length result ≡ len }
    {
        BitChunks { bytes, offset, len }
    }

    // How many values there are, for bodies whose proofs speak of the list alone.
    #[tactic(auto, using(crate::proofs::BufferLemmas::len_facts))]
    #[inline]
    pub(crate) fn values_len(&self) -> usize
        ensures { result ≡ length self.now }
    {
        self.len
    }

    /// How many whole words there are.
    pub fn len(&self) -> usize
        ensures { result ≡ length self.now / 64 }
    {
        self.values_len() / 64
    }

    /// Whole word `i`, whose bit `j` is value `64 * i + j`.
    // rust: needs the index of a whole word
    pub fn word(&self, i: usize) -> u64
        requires { i < length self.now / 64 }
        ensures { word_bits result ≡ word_part self.now i }
    {
        Unaligned::word(Bits::new(self.bytes, self.offset), i)
    }

    /// The whole words, in their order.
    #[tactic(auto, using(crate::proofs::YieldLemmas::words_in_order, crate::proofs::Lists::Words::WordLemmas::words_of_list))]
    pub fn iter(&self) -> Words<'a>
        ensures parts { result ≡ word_parts self.now }
        ensures in_order { EveryRun (YieldsFirstBy word_bits (λ s. s))
            (λ p. ItemsMapTo p word_bits p.from) }
        ensures fits { length result < 2 ^ 64 }
    {
        Words {
            chunks: BitChunks::new(self.bytes, self.offset, self.len),
            next: 0,
        }
    }

    /// How many values come after the whole words: fewer than 64.
    pub fn remainder_len(&self) -> usize
        ensures { result ≡ length self.now % 64 }
    {
        self.values_len() % 64
    }

    /// The values after the whole words in the low bits, and zeros above.
    #[tactic(auto, using(crate::proofs::BufferLemmas::len_facts, crate::proofs::Lists::Words::PaddedLemmas::no_remainder))]
    pub fn remainder_bits(&self) -> u64
        ensures { word_bits result ≡ padded_remainder self.now }
    {
        if self.len % 64 == 0 {
            return 0;
        }
        remainder(self.bytes, self.offset, self.len)
    }

    /// The started words, in their order: the whole words, and the remainder word where there is a
    /// remainder.
    #[tactic(auto, using(crate::proofs::YieldLemmas::words_in_order, crate::proofs::Lists::Words::PaddedLemmas::padded_words))]
    pub fn iter_padded(&self) -> PaddedWords<'a>
        ensures parts { result ≡ padded_parts self.now }
        ensures in_order { EveryRun (YieldsFirstBy word_bits (λ s. s))
            (λ p. ItemsMapTo p word_bits p.from) }
        ensures fits { length result < 2 ^ 64 }
    {
        PaddedWords {
            chunks: BitChunks::new(self.bytes, self.offset, self.len),
            next: 0,
        }
    }

    /// The index of true value number `n`, counted from 0, and `None` from the true count on.
    // rust: level
    pub fn select(&self, n: usize) -> Option<usize>
        ensures index { result ≡ slice_get (positions self.now) n }
        ensures within { IfSome result (λ p. p < length self.now) }
    {
        let (first, rest) = self.passed_blocks(n);
        self.select_from(first, rest)
    }

    // The index of true value number `n` among those from word `first` on.
    #[tactic(auto, using(crate::proofs::Lists::Places::SelectLemmas::places_of_words, crate::proofs::Lists::Words::WordLemmas::ones_of_word))]
    #[inline]
    pub(crate) fn select_from(&self, first: usize, n: usize) -> Option<usize>
        ensures index { result ≡ slice_get (positions self.now) (count (take (64 * first) self.now) + n) }
        ensures within { IfSome result (λ p. p < length self.now) }
    {
        let mut left = n;
        for i in first..self.started_words() {
            let word = self.started_word(i);
            let ones = word.count_ones() as usize;
            if left < ones {
                return Some(64 * i + index_in_word(word, left));
            }
            left -= ones;
        }
        None
    }

    /// The index of the last true value, if there is one.
    #[tactic(auto, using(crate::proofs::Lists::Places::SelectLemmas::none_more, crate::proofs::Lists::Places::SelectLemmas::last_none))]
    pub fn last_set_index(&self) -> Option<usize>
        ensures index { result
            ≡ slice_get (positions self.now) (count self.now - 1) }
        ensures within { IfSome result (λ p. p < length self.now) }
    {
        let mut i = self.started_words();
        while i > 0 {
            i -= 1;
            let last = self.started_word(i);
            if last != 0 {
                return Some(64 * i + (63 - last.leading_zeros() as usize));
            }
        }
        None
    }

    /// The first index from `from` on whose value is `value`, and the length where none is.
    // rust: needs an index up to the number of values
    #[tactic(auto, using(crate::proofs::BufferLemmas::len_facts))]
    pub fn first_from(&self, from: usize, value: bool) -> usize
        requires { from ≤ length self.now }
        ensures { IsFirstFrom self.now from value result }
    {
        let mut index = from;
        while self.len - index > 64 {
            let run = run_of_others(self.bytes, self.offset + index, value);
            if run < 64 {
                return index + run;
            }
            index += 64;
        }
        index + run_of_others(self.bytes, self.offset + index, value).min(self.len - index)
    }

    // The word at which a block of 64 words begins, not past the word of true value number `n`, and
    // that value's number among the values from there on.
    #[tactic(auto, using(crate::proofs::BufferLemmas::len_facts))]
    fn passed_blocks(&self, n: usize) -> (usize, usize)
        ensures { n ≡ count (take (64 * result.0) self.now) + result.1 }
    {
        let mut word = 0;
        let mut rest = n;
        while self.len - 64 * word > 4096 {
            let ones = count_bits(self.bytes, self.offset + 64 * word, 4096);
            if rest < ones {
                return (word, rest);
            }
            rest -= ones;
            word += 64;
        }
        (word, rest)
    }

    /// How many words are started: the whole ones, and one more where there is a remainder.
    #[inline]
    pub fn started_words(&self) -> usize
        ensures words { result ≡ started_words (length self.now) }
        ensures fits { length self.now < 2 ^ 64 }
    {
        started_words(self.values_len())
    }

    /// Started word `i`, with zeros past the last value.
    // rust: needs the index of a started word
    #[inline]
    #[tactic(auto, using(crate::proofs::Lists::Words::PaddedLemmas::padded_facts))]
    pub fn started_word(&self, i: usize) -> u64
        requires { i < started_words (length self.now) }
        ensures { word_bits result ≡ padded_part self.now i }
    {
        if i < self.len() {
            self.word(i)
        } else {
            remainder(self.bytes, self.offset, self.len)
        }
    }
}

// The values after the whole words in the low bits, and zeros above.
//
// Never inlined: it is read once, and the walks over words stay small without it.
#[inline(never)]
fn remainder(bytes: &[u8], offset: usize, len: usize) -> u64
    requires { IsWithinBytes bytes.now offset len }
    ensures { word_bits result ≡ padded_remainder (bitmap bytes.now offset len) }
{
    let rest = len % 64;
    word_at(bytes, offset + (len - rest)) & ((1 << rest) - 1)
}

// The index of set bit number `n`, counted from 0: its byte is found by halves, and a table has its place there.
#[inline]
fn index_in_word(word: u64, n: usize) -> usize
    requires { n < count (word_bits word) }
    ensures index { slice_get (positions (word_bits word)) n ≡ Some result }
    ensures few { result < 64 }
{
    let (half, left, first) = half_of(word, n, 32);
    let (quarter, left, second) = half_of(half, left, 16);
    let (byte, left, third) = half_of(quarter, left, 8);
    first + second + third + place_in_byte((byte & 0xFF) as usize, left)
}

// Of the lowest `2 * half` bits those in the half that set bit number `n` of these lies in, moved to the low end, with the
// bit's number there, and the place that the half began at.
#[inline(always)]
fn half_of(word: u64, n: usize, half: usize) -> (u64, usize, usize)
    requires few { half ≤ 32 }
    requires within { n < count_below (word_bits word) (2 * half) }
    ensures within { result.1 < count_below (word_bits result.0) half }
    ensures place { (p : ℕ) → p < half → IsPlaceOf result.0 result.1 p → IsPlaceOf word n (result.2 + p) }
    ensures few { result.2 ≤ half }
{
    let below = (word & ((1 << half) - 1)).count_ones() as usize;
    if n < below {
        (word, n, 0)
    } else {
        (word >> half, n - below, half)
    }
}

// How many of the 64 bits from bit `position` on come before the first that is `value`.
#[inline]
fn run_of_others(bytes: &[u8], position: usize, value: bool) -> usize
    ensures few { result ≤ 64 }
    ensures passed { (j : ℕ) → j < result → backing_bit bytes.now (position + j) ≡ not value }
    ensures holds { result < 64 → backing_bit bytes.now (position + result) ≡ value }
{
    let word = word_at(bytes, position);
    if value {
        word.trailing_zeros() as usize
    } else {
        word.trailing_ones() as usize
    }
}

/// The whole words of a buffer, in their order.
#[derive(Drop)]
pub struct Words<'a> {
    chunks: BitChunks<'a>,
    next: usize,
}

impl<'a> Model for Words<'a> {
    ghost use Rattle.std.specs.Prelude.{Bool, List, ◌/◌, ◌≤◌, drop, length};
    ghost use Rattle.mask_bits.specs.Words.{word_parts};

    ghost Value = { List (List Bool) };

    ghost view = { λ w. drop w.next (word_parts w.chunks) };

    ghost invariant = { λ w. w.next ≤ length w.chunks / 64 };
}

impl Iterator for Words<'_> {
    type Item = u64;

    ghost next_gives = { YieldsFirstBy word_bits (λ s. s) };

    ghost remaining = { item_count (λ s. s) };

    #[tactic(auto, using(crate::proofs::Lists::Words::WordLemmas::words_of_list, crate::proofs::YieldLemmas::items))]
    fn next(&mut self) -> Option<u64> {
        if self.next == self.chunks.len() {
            return None;
        }
        let word = self.chunks.word(self.next);
        self.next += 1;
        Some(word)
    }

    fn size_hint(&self) -> (usize, Option<usize>)
        ensures lower { IsWithinCount result.0 (item_count (λ s. s) self.now) }
        ensures upper { IfSome result.1 (UpTo (item_count (λ s. s) self.now)) }
        ensures exact { result.0 ≡ length self.now }
        ensures known { result.1 ≡ Some result.0 }
    {
        let left = self.len();
        (left, Some(left))
    }
}

impl ExactSizeIterator for Words<'_> {
    #[tactic(auto, using(crate::proofs::Lists::Words::WordLemmas::words_of_list))]
    fn len(&self) -> usize {
        self.chunks.len() - self.next
    }
}

/// The started words of a buffer, in their order: the whole words, and the remainder word where
/// there is a remainder.
#[derive(Drop)]
pub struct PaddedWords<'a> {
    chunks: BitChunks<'a>,
    next: usize,
}

impl<'a> Model for PaddedWords<'a> {
    ghost use Rattle.std.specs.Prelude.{Bool, List, ◌≤◌, drop, length};
    ghost use Rattle.mask_bits.specs.Words.{started_words, padded_parts};

    ghost Value = { List (List Bool) };

    ghost view = { λ w. drop w.next (padded_parts w.chunks) };

    ghost invariant = { λ w. w.next ≤ started_words (length w.chunks) };
}

impl Iterator for PaddedWords<'_> {
    type Item = u64;

    ghost next_gives = { YieldsFirstBy word_bits (λ s. s) };

    ghost remaining = { item_count (λ s. s) };

    #[tactic(auto, using(crate::proofs::Lists::Words::PaddedLemmas::padded_words, crate::proofs::YieldLemmas::items))]
    fn next(&mut self) -> Option<u64> {
        if self.next == self.chunks.started_words() {
            return None;
        }
        let word = self.chunks.started_word(self.next);
        self.next += 1;
        Some(word)
    }

    fn size_hint(&self) -> (usize, Option<usize>)
        ensures lower { IsWithinCount result.0 (item_count (λ s. s) self.now) }
        ensures upper { IfSome result.1 (UpTo (item_count (λ s. s) self.now)) }
        ensures exact { result.0 ≡ length self.now }
        ensures known { result.1 ≡ Some result.0 }
    {
        let left = self.len();
        (left, Some(left))
    }
}

impl ExactSizeIterator for PaddedWords<'_> {
    #[tactic(auto, using(crate::proofs::Lists::Words::PaddedLemmas::padded_words))]
    fn len(&self) -> usize {
        self.chunks.started_words() - self.next
    }
}
