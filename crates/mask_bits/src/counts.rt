//! How many bits of some bytes are set, counted by words.

ghost use Rattle.std.specs.Prelude.{◌≡◌, ◌*◌, ◌<◌, ◌≤◌, ◌^◌, length};
ghost use Rattle.mask_bits.specs.Bitmap.{bitmap};
ghost use Rattle.mask_bits.specs.Buffer.{IsWithinBytes};
ghost use Rattle.mask_bits.specs.Positions.{count};

use crate::words::{word_at, word_of};

/// How many of the `len` bits from bit `position` on are set.
// rust: level to vpopcntdq
// rust: called at its level
#[tactic(auto, using(crate::proofs::Lists::Words::BackingBitLemmas::low_counts))]
pub fn count_bits(bytes: &[u8], position: usize, len: usize) -> usize
    requires { IsWithinBytes bytes.now position len }
    ensures { result ≡ count (bitmap bytes.now position len) }
{
    if len < 64 {
        return count_few(bytes, position, len);
    }
    // the bits up to the next byte, the whole words from there, and the bits past them
    let head = (8 - position % 8) % 8;
    let from = position + head;
    let tail = (len - head) % 64;
    count_few(bytes, position, head)
        + count_words(&bytes[from / 8..], (len - head) / 64)
        + count_few(bytes, position + (len - tail), tail)
}

// How many of fewer than 64 bits are set.
#[tactic(auto, using(crate::proofs::Lists::Words::BackingBitLemmas::low_counts, std::proofs::lemmas::Grind::one_shifted, std::proofs::lemmas::Nat::and_le_l))]
#[inline]
fn count_few(bytes: &[u8], position: usize, len: usize) -> usize
    requires { len < 64 }
    ensures { result ≡ count (bitmap bytes.now position len) }
{
    (word_at(bytes, position) & ((1 << len) - 1)).count_ones() as usize
}

// How many bits of the first words are set.
#[inline]
#[tactic(auto, using(crate::proofs::Lists::Words::BackingBitLemmas::low_counts))]
fn count_words(bytes: &[u8], words: usize) -> usize
    requires covered { 8 * words ≤ length bytes.now }
    requires fits { 64 * words < 2 ^ 64 }
    ensures { result ≡ count (bitmap bytes.now 0 (64 * words)) }
{
    let mut count = 0;
    for i in 0..words {
        count += word_of(bytes, i).count_ones() as usize;
    }
    count
}
