//! Buffers with a list of where they are true.

ghost use Rattle.std.specs.Prelude.{◌≡◌, IsTrue, length};
ghost use Rattle.mask_bits.specs.Positions.{count};

use crate::words::{Word, Words};
use mask_bits::{BitBuffer, laws};
use std::alloc::Global;
use std::marker::Model;
use vortex_mask::{Mask, MaskError};

/// A buffer, and the indices of its true values.
#[derive(Drop)]
pub struct Listed {
    pub(crate) buffer: BitBuffer,
    pub(crate) indices: Vec<usize>,
}

impl Model for Listed {
    ghost use Rattle.std.specs.List.Sorted.{IsStrictlyIncreasing};
    ghost use Rattle.std.specs.Prelude.{◌<◌, All, Bool, List, length};
    ghost use Rattle.mask_bits.specs.Buffer.{values};

    ghost Value = { List Bool };

    ghost view = { λ l. values l.buffer };

    ghost invariant = { λ l. IsStrictlyIncreasing l.indices.items
        × All (λ i. i < length (values l.buffer)) l.indices.items };
}

impl Listed {
    /// Whether it has a value for each true one of these rows.
    pub(crate) fn fits(&self, rows: &Listed) -> bool
        ensures { IsTrue result → length self.now ≡ count rows.now }
    {
        self.buffer.len() == rows.buffer.true_count()
    }
}

/// A buffer with its indices.
impl Word for Option<Listed> {
    fn read(words: &mut Words<'_>, word: &str) -> Option<Listed> {
        let buffer = BitBuffer::read(words, word);
        let indices = buffer.set_indices().collect(words.alloc).ok()?;
        Some(Listed { buffer, indices })
    }
}

/// A buffer, and ranges that hold exactly its true values.
#[derive(Drop)]
pub struct Ranged {
    buffer: BitBuffer,
    ranges: Vec<(usize, usize)>,
}

impl Model for Ranged {
    ghost use Rattle.std.specs.Prelude.{ℕ, Bool, List};
    ghost use Rattle.mask_bits.specs.Buffer.{values};
    ghost use Rattle.mask_bits.specs.Runs.{AreRanges};

    ghost Value = { List Bool };

    ghost view = { λ r. values r.buffer };

    ghost invariant = { λ r. AreRanges (values r.buffer) r.ranges.items };
}

impl Ranged {
    /// By a length and ranges, with this mark between: a buffer that is true in these ranges, which may touch.
    pub(crate) fn read(words: &mut Words<'_>, text: &str, mark: &str) -> Option<Ranged> {
        let (len, ranges) = words.halves(text, mark, "a length and ranges");
        let (len, ranges) = (usize::read(words, len), words.list(ranges));
        words.some(Ranged::new(words.alloc, len, ranges))
    }

    fn new(alloc: Global, len: usize, ranges: Vec<(usize, usize)>) -> Result<Ranged, MaskError> {
        let mask = Mask::from_slices(alloc, len, ranges.to_vec(alloc)?)?;
        let buffer = mask.into_bit_buffer(alloc)?;
        Ok(Ranged { buffer, ranges })
    }

    /// `Mask::from_buffer_with_slices`, by value.
    pub(crate) fn mask(self, alloc: Global) -> Result<Mask, MaskError> {
        let Ranged { buffer, ranges } = self;
        Mask::from_buffer_with_slices(alloc, buffer, ranges)
    }
}

/// `Mask::from_buffer_with_slices`, of a buffer and its own runs.
pub(crate) fn with_runs(alloc: Global, buffer: BitBuffer) -> Result<Mask, MaskError> {
    laws::runs_are_ranges();
    let runs = buffer.set_slices().collect(alloc)?;
    Mask::from_buffer_with_slices(alloc, buffer, runs)
}

impl Word for Option<Ranged> {
    fn read(words: &mut Words<'_>, text: &str) -> Option<Ranged> {
        Ranged::read(words, text, " ")
    }
}
