//! The walk over a buffer's values.

ghost use Rattle.std.specs.Prelude.{◌≡◌, length, IfSome, Some, ◌+◌, ◌-◌, ◌≤◌, ◌<◌, ◌/◌, ◌%◌};
ghost use Rattle.std.specs.Iterator.{YieldsFirst, UpTo, item_count};
ghost use Rattle.std.specs.Iterator.SizeHint.{IsWithinCount};
ghost use Rattle.mask_bits.specs.Walk.{IsAtHand};

use crate::chunks::BitChunks;
use std::marker::Model;

/// The values of a buffer, in their order.
#[derive(Drop)]
pub struct BitIterator<'a> {
    // rust: visible
    chunks: BitChunks<'a>,
    // rust: visible
    next: usize,
    // the word at hand, and the index at which it ends or the list does
    // rust: visible
    word: u64,
    // rust: visible
    end: usize,
}

impl<'a> Model for BitIterator<'a> {
    ghost use Rattle.std.specs.Prelude.{Bool, List, drop};
    ghost use Rattle.mask_bits.specs.Walk.{IsAtHand};

    ghost Value = { List Bool };

    ghost view = { λ s. drop s.next s.chunks };

    ghost invariant = { λ s. IsAtHand s.chunks s.next s.end s.word };
}

impl<'a> BitIterator<'a> {
    pub(crate) fn new(chunks: BitChunks<'a>) -> BitIterator<'a>
        ensures { result ≡ chunks.entry }
    {
        BitIterator {
            chunks,
            next: 0,
            word: 0,
            end: 0,
        }
    }
}

// rust: by hand
impl Iterator for BitIterator<'_> {
    type Item = bool;

    ghost next_gives = { YieldsFirst (λ s. s) };

    ghost remaining = { item_count (λ s. s) };

    fn next(&mut self) -> Option<bool> {
        // within a word one test serves for its end and the list's
        if self.next == self.end && self.next == self.chunks.values_len() {
            return None;
        }
        let (word, end) = word_at_hand(&self.chunks, self.next, self.end, self.word);
        self.word = word;
        self.end = end;
        let bit = word >> (self.next % 64);
        self.next += 1;
        Some(bit & 1 == 1)
    }

    fn size_hint(&self) -> (usize, Option<usize>)
        ensures lower { IsWithinCount result.0 (item_count (λ s. s) self.now) }
        ensures upper { IfSome result.1 (UpTo (item_count (λ s. s) self.now)) }
        ensures exact { result.0 ≡ length self.now }
        ensures known { result.1 ≡ Some result.0 }
    {
        let left = self.len();
        (left, Some(left))
    }
}

impl ExactSizeIterator for BitIterator<'_> {
    fn len(&self) -> usize {
        self.chunks.values_len() - self.next
    }
}

// The word of index `next`, and the index at which it ends or the list does, where `word` and `end`
// are these unless `next` is `end`.
// rust: visible
#[inline]
fn word_at_hand(chunks: &BitChunks<'_>, next: usize, end: usize, word: u64) -> (u64, usize)
    requires within { next < length chunks.now }
    requires before { IsAtHand chunks.now next end word }
    ensures more { next < result.1 }
    ensures at_hand { IsAtHand chunks.now next result.1 result.0 }
{
    if next == end {
        let rest = chunks.values_len() - next;
        (chunks.started_word(next / 64), next + rest.min(64))
    } else {
        (word, end)
    }
}
