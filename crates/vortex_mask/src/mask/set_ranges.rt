//! The bits of ranges set in bytes.

ghost use Rattle.std.specs.Prelude.{◌≡◌, ◌+◌, ◌*◌, ◌<◌, ◌≤◌, ◌%◌, ℕ, All, false, length};
ghost use Rattle.std.specs.List.{list_any};
ghost use Rattle.mask_bits.specs.Buffer.{backing_bit};
ghost use Rattle.mask_bits.specs.Runs.{is_inside};
ghost use Rattle.vortex_mask.specs.SetRanges.{AreSet};

use mask_bits::words::{set_word, word_of};

// Sets the bits in ranges, of bytes that are all clear.
pub(super) fn set_ranges(bytes: &mut [u8], ranges: &[(usize, usize)])
    requires some { All (λ r. r.0 < r.1) ranges.now }
    requires within { All (λ r. r.1 ≤ 8 * length bytes.old) ranges.now }
    requires whole { length bytes.old % 8 ≡ 0 }
    requires clear { (p : ℕ) → backing_bit bytes.old p ≡ false }
    ensures { (p : ℕ) → backing_bit bytes.new p ≡ list_any (is_inside p) ranges.now }
{
    for (start, end) in ranges {
        set_range(bytes, *start, *end);
    }
}

// Sets the bits from position `start` to `end`, the end left out.
#[inline]
fn set_range(bytes: &mut [u8], start: usize, end: usize)
    requires some { start < end }
    requires within { end ≤ 8 * length bytes.old }
    requires whole { length bytes.old % 8 ≡ 0 }
    ensures { AreSet bytes.old bytes.new start end }
{
    let (first, last) = (start / 64, (end - 1) / 64);
    if first == last {
        set_in_word(bytes, first, start % 64, (end - 1) % 64);
        return;
    }
    set_in_word(bytes, first, start % 64, 63);
    set_words(bytes, first + 1, last);
    set_in_word(bytes, last, 0, (end - 1) % 64);
}

// Sets bits `low` to `high` of word `i`, both among them.
#[inline]
fn set_in_word(bytes: &mut [u8], i: usize, low: usize, high: usize)
    requires few_low { low < 64 }
    requires few_high { high < 64 }
    requires within { 8 * i + 8 ≤ length bytes.old }
    ensures { AreSet bytes.old bytes.new (64 * i + low) (64 * i + high + 1) }
{
    let bits = (u64::MAX << low) & (u64::MAX >> (63 - high));
    set_word(bytes, i, word_of(bytes, i) | bits);
}

// Sets all bits of the words from `first` on, up to word `end`.
#[tactic(auto, using(crate::proofs::Masks::SetRangeLemmas::filled_facts))]
#[inline]
fn set_words(bytes: &mut [u8], first: usize, end: usize)
    requires order { first ≤ end }
    requires within { 8 * end ≤ length bytes.old }
    ensures { AreSet bytes.old bytes.new (64 * first) (64 * end) }
{
    // most short ranges have none, and the call takes as long as two words
    if first < end {
        bytes[8 * first..8 * end].fill(0xFF);
    }
}
