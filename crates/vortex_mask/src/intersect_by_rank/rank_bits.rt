//! The bits of a rank mask, read many at once from any bit on.

ghost use Rattle.std.specs.Prelude.{◌≡◌, ◌+◌, ◌-◌, ◌/◌, ◌<◌, ◌≤◌, ◌^◌, ⊤, length};
ghost use Rattle.mask_bits.specs.Buffer.{backing_bit, IsWithinBytes};
ghost use Rattle.mask_bits.specs.Words.{word_bits, window};

use crate::intersect_by_rank::kernels::RankWords;
use mask_bits::unchecked::part;
use mask_bits::{BitBuffer, words};
use std::marker::Model;

/// The bits of a rank mask, read 64 at a time from any bit on.
#[derive(Drop)]
pub struct RankBits<'a> {
    bytes: &'a [u8],
    offset: usize,
    len: usize,
    // The bytes from `tail_from` on, at most sixteen, and zeros behind them. A sparse mask has many
    // reads that begin there, and by this copy each is a load, where bytes end before its own do.
    tail: [u8; 32],
    tail_from: usize,
}

impl<'a> Model for RankBits<'a> {
    ghost use Rattle.std.specs.Prelude.{◌≡◌, ◌-◌, ◌++◌, length, drop, replicate};
    ghost use Rattle.mask_bits.specs.Buffer.{Packed, IsWithinBytes};

    ghost Value = { Packed };

    ghost view = { λ r. record { bytes = r.bytes.now; offset = r.offset; len = r.len } };

    ghost invariant = { λ r. IsWithinBytes r.bytes.now r.offset r.len
        × (r.tail_from ≡ length r.bytes.now - 16)
        × (r.tail ≡ drop r.tail_from r.bytes.now
        ++ replicate (32 - (length r.bytes.now - r.tail_from)) 0) };
}

impl<'a> RankBits<'a> {
    /// The bits of `buffer`.
    #[tactic(auto, using(mask_bits::proofs::Lists::Words::BackingBitLemmas::lengths))]
    pub fn new(buffer: &'a BitBuffer) -> RankBits<'a>
        ensures buffer { result ≡ buffer.now }
        ensures within { IsWithinBytes result.bytes result.offset result.len }
    {
        RankBits::over(buffer.inner().as_slice(), buffer.offset(), buffer.len())
    }

    /// The `len` bits of `bytes` from bit `offset` on, without a `BitBuffer`.
    pub fn over(bytes: &'a [u8], offset: usize, len: usize) -> RankBits<'a>
        requires { IsWithinBytes bytes.now offset len }
        ensures bits { result ≡ record { bytes = bytes.now; offset = offset; len = len } }
        ensures within { IsWithinBytes result.bytes result.offset result.len }
    {
        let tail_from = bytes.len().saturating_sub(16);
        let last = &bytes[tail_from..];
        let mut tail = [0u8; 32];
        tail[..last.len()].copy_from_slice(last);
        RankBits {
            bytes,
            offset,
            len,
            tail,
            tail_from,
        }
    }

    /// All the bytes, in which value 0 is bit [`RankBits::offset`].
    pub(super) fn bytes(&self) -> &[u8]
        ensures { result.now ≡ self.now.bytes }
    {
        self.bytes
    }

    /// Where value 0 is in the bytes.
    pub(super) fn offset(&self) -> usize
        ensures { result ≡ self.now.offset }
    {
        self.offset
    }

    /// The 64 backing bits from value `offset` on, the first lowest.
    ///
    /// Those past the bytes are 0. Those past the last value but inside the bytes are as they
    /// stand, since a deposit ignores the bits past its mask's count.
    // rust: needs `offset` and the bits' own offset to fit a `usize`
    #[inline(always)]
    pub fn read(&self, offset: usize) -> u64
        requires { self.now.offset + offset < 2 ^ 64 }
        ensures { word_bits result ≡ window self.now.bytes (self.now.offset + offset) }
    {
        let position = self.offset + offset;
        if position / 8 + 16 <= self.bytes.len() {
            words::word_at(self.bytes, position)
        } else {
            words::word_at(&self.tail, position - 8 * self.tail_from)
        }
    }
}

// Also the bits at the end of the bytes, by the copy of these.
impl RankWords for RankBits<'_> {
    ghost bit = { λ b k. backing_bit b.bytes (b.offset + k) };

    ghost end = { λ b. 2 ^ 64 - 1 - b.offset };

    ghost number = { λ b at. at - b.offset };

    ghost IsPassed = { λ b _ at. (b.offset ≤ at) × (at < 2 ^ 64) };

    ghost Reaches = { λ _ _. ⊤ };

    #[inline(always)]
    fn reaches(&self, _at: usize) -> bool {
        true
    }

    #[tactic(auto, using(crate::proofs::Kernels::WordKernelLemmas::bit_of_window))]
    #[inline(always)]
    fn two_words(&self, _next: &mut usize, at: usize, ones: [usize; 2]) -> [u64; 2] {
        let first = at - self.offset();
        [self.read(first), self.read(first + ones[0])]
    }
}

/// The 64 bits from bit `position` on, where there are sixteen bytes from its own on.
#[inline(always)]
pub(super) fn word_inside(bytes: &[u8], position: usize) -> u64
    requires { position / 8 + 16 ≤ length bytes.now }
    ensures { word_bits result ≡ window bytes.now position }
{
    // sixteen bytes just, which `word_at` need not test then
    let first = position / 8;
    words::word_at(part(bytes, first, 16), position % 8)
}
