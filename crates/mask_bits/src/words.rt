//! Words of 64 bits of some bytes: read, written, and made of two neighbors.

ghost use Rattle.std.specs.Prelude.{◌≡◌, ◌+◌, ◌*◌, ◌/◌, ◌<◌, ◌≤◌, ◌^◌, length, take, drop};
ghost use Rattle.std.specs.Prelude.{◌++◌, ◌-◌, false, slice_range};
ghost use Rattle.mask_bits.specs.Words.{window, word_bits, started_words};
ghost use Rattle.mask_bits.specs.Positions.{repeated};

use crate::unchecked::{item, rest};
pub use crate::unchecked::{set_word, word_of};

/// How many words of 64 bits `len` bits start.
#[inline]
pub fn started_words(len: usize) -> usize
    ensures { result ≡ started_words len }
{
    len.div_ceil(64)
}

/// The lowest `count` bits of `word`, and zeros above them.
#[tactic(auto, using(crate::proofs::Lists::Words::ShiftLemmas::words_cut))]
#[inline]
pub fn low_bits(word: u64, count: usize) -> u64
    requires some { 0 < count }
    requires few { count ≤ 64 }
    ensures { word_bits result ≡ take count (word_bits word) ++ repeated (64 - count) false }
{
    word & (u64::MAX >> (64 - count))
}

/// The 64 bits from bit `low` of `word` on; those past its end are the first of `next`.
#[tactic(auto, using(crate::proofs::Lists::Words::ShiftLemmas::words_cut))]
#[inline]
pub fn funnel_shift(word: u64, next: u64, low: u32) -> u64
    requires { low < 64 }
    ensures { word_bits result ≡ slice_range (word_bits word ++ word_bits next) low (low + 64) }
{
    // two shifts, since one by 64 would be none
    (word >> low) | ((next << 1) << (63 - low))
}

// The same from a bit on that isn't the first, by a shift less.
#[tactic(auto, using(crate::proofs::Lists::Words::ShiftLemmas::words_cut))]
#[inline]
pub(crate) fn funnel_shift_inside(word: u64, next: u64, low: u32) -> u64
    requires some { 0 < low }
    requires few { low < 64 }
    ensures { word_bits result ≡ slice_range (word_bits word ++ word_bits next) low (low + 64) }
{
    (word >> low) | (next << (64 - low))
}

/// The 64 bits from bit `position` on, wherever that is; those past the last byte are 0.
#[tactic(auto, using(crate::proofs::WindowLemmas::window_words))]
#[inline]
pub fn word_at(bytes: &[u8], position: usize) -> u64
    ensures { word_bits result ≡ window bytes.now position }
{
    let first = position / 8;
    if first + 8 < bytes.len() {
        let behind = rest(bytes, first);
        funnel_shift(
            word_of(behind, 0),
            item(behind, 8) as u64,
            (position % 8) as u32,
        )
    } else if first < bytes.len() {
        last_bits(bytes, position)
    } else {
        0
    }
}

// The bits from one of the last eight bytes on, by all of these, since there are too few behind it.
#[inline]
fn last_bits(bytes: &[u8], position: usize) -> u64
    requires some { position / 8 < length bytes.now }
    requires near { length bytes.now ≤ position / 8 + 8 }
    ensures { word_bits result ≡ window bytes.now position }
{
    if bytes.len() < 8 {
        return word_of_few(bytes) >> position;
    }
    let begin = bytes.len() - 8;
    word_of(&bytes[begin..], 0) >> (position - 8 * begin)
}

// All of fewer than eight bytes, the first lowest. There are too few to be copied by a call.
#[inline]
fn word_of_few(bytes: &[u8]) -> u64
    requires { length bytes.now < 8 }
    ensures { word_bits result ≡ window bytes.now 0 }
{
    let mut word = 0;
    let mut left = bytes.len();
    while left > 0 {
        left -= 1;
        word = 256 * word + u64::from(bytes[left]);
    }
    word
}
