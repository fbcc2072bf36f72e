//! A directory of a buffer's true values: their indices by rank, and ranks by index, in any order and in a few words' time each.

ghost use Rattle.std.specs.Prelude.{◌≡◌, ◌+◌, ◌-◌, ◌*◌, ◌<◌, ◌≤◌, ◌↔◌, ℕ, Bool, IfNone, IfOk, IfSome, IsTrue, List, [], length, slice_get, slice_index, vec_len};
ghost use Rattle.std.specs.List.Sorted.{IsNonDecreasing};
ghost use Rattle.mask_bits.specs.Buffer.{values};
ghost use Rattle.mask_bits.specs.Positions.{count, count_below, positions};
ghost use Rattle.mask_bits.specs.Ranks.{AreCountsBefore};

use crate::buffer::BitBuffer;
use crate::counts::count_bits;
use std::alloc::{AllocError, Global};
use std::marker::Model;

// How many values a block has. Its bits are those of a cache line, and the counts take an eighth of the bits' memory.
const BLOCK: usize = 512;

/// The true values of a buffer, counted once: which index has a rank, and how many true values are below an index, take a few
/// words' time each then, in any order. For ascending indices or ranks one pass over the buffer takes less.
///
/// It keeps the buffer, and 8 bytes for each 512 values. It is this library's own.
#[derive(Drop)]
pub struct Ranks {
    buffer: BitBuffer,
    before: Vec<usize>,
}

impl Model for Ranks {
    ghost use Rattle.std.specs.Prelude.{Bool, List};
    ghost use Rattle.mask_bits.specs.Buffer.{values};
    ghost use Rattle.mask_bits.specs.Ranks.{AreCountsBefore};

    ghost Value = { List Bool };

    ghost view = { λ r. values r.buffer };

    ghost invariant = { λ r. AreCountsBefore (values r.buffer) r.before.items };
}

#[tactic(auto, using(crate::proofs::BufferLemmas::buffer_facts))]
impl Ranks {
    /// Counts the true values of a buffer, and keeps it. A clone of a buffer shares its bytes.
    // rust: named try_from_buffer
    // rust: level
    pub fn from_buffer(alloc: Global, buffer: BitBuffer) -> Result<Ranks, AllocError>
        ensures { IfOk result (λ ranks. ranks ≡ values buffer) }
    {
        let blocks = buffer.len().div_ceil(BLOCK);
        let mut before = Vec::with_capacity(alloc, blocks + 1)?;
        let mut count = 0;
        before.push(count)?;
        for block in 0..blocks {
            let start = BLOCK * block;
            let len = BLOCK.min(buffer.len() - start);
            count += count_bits(buffer.bits(), buffer.offset() + start, len);
            before.push(count)?;
        }
        Ok(Ranks { buffer, before })
    }

    /// How many values there are.
    pub fn len(&self) -> usize
        ensures { result ≡ length self.now }
    {
        self.buffer.len()
    }

    /// Whether there is no value.
    pub fn is_empty(&self) -> bool
        ensures { IsTrue result ↔ (self.now ≡ []) }
    {
        self.buffer.is_empty()
    }

    /// The buffer that was counted.
    pub fn buffer(&self) -> &BitBuffer
        ensures { values result.now ≡ self.now }
    {
        &self.buffer
    }

    /// How many values are true, which was counted.
    pub fn true_count(&self) -> usize
        ensures { result ≡ count self.now }
    {
        self.before[self.before.len() - 1]
    }

    /// How many of the first `n` values are true. It reads at most nine words of the buffer.
    // rust: needs a number up to that of all values
    // rust: level
    pub fn count_below(&self, n: usize) -> usize
        requires { n ≤ length self.now }
        ensures { result ≡ count_below self.now n }
    {
        let block = n / BLOCK;
        let start = BLOCK * block;
        self.before[block] + count_bits(self.buffer.bits(), self.buffer.offset() + start, n - start)
    }

    /// The index of true value number `n`, counted from 0, and `None` from the true count on. It looks for the block by halves,
    /// and reads at most eight words of the buffer.
    // rust: level
    pub fn select(&self, n: usize) -> Option<usize>
        ensures index { result ≡ slice_get (positions self.now) n }
        ensures within { IfSome result (λ p. p < length self.now) }
    {
        let block = self.block_of(n)?;
        self.buffer
            .chunks()
            .select_from(BLOCK / 64 * block, n - self.before[block])
    }

    // The block of true value number `n`: the last one before which there are at most so many.
    fn block_of(&self, n: usize) -> Option<usize>
        ensures none { IfNone result (count self.now ≤ n) }
        ensures begins { IfSome result (λ block. 512 * block < length self.now) }
        ensures within { IfSome result (λ block. count_below self.now (512 * block) ≤ n) }
    {
        let past = count_up_to(&self.before, n);
        if past == self.before.len() {
            return None;
        }
        Some(past - 1)
    }
}

// How many of some ascending numbers are at most `most`.
#[inline]
fn count_up_to(numbers: &[usize], most: usize) -> usize
    requires { IsNonDecreasing numbers.now }
    ensures bound { result ≤ length numbers.now }
    ensures passed { (k : ℕ) → k < result → slice_index numbers.now k ≤ most }
    ensures left { (k : ℕ) → result ≤ k → k < length numbers.now → most < slice_index numbers.now k }
{
    numbers.partition_point(|number| *number <= most)
}
