//! Row numbers of 8 and of 4 bytes.

use crate::items_of_word::push_eight;
use crate::output::Room;
use std::simd::prelude::*;

/// A row number, as a list of indices has it.
pub trait RowIndex: Copy {
    ghost use Rattle.std.specs.Prelude.{◌≡◌, ◌+◌, ◌^◌, ◌<◌, ◌≤◌, ◌++◌, ℕ, length, map, slice_index};

    /// The number.
    ghost row_number: { Self → ℕ };

    /// The index that is made of a number: of its lowest bits, as many as an index has.
    ghost index_of: { ℕ → Self };

    fn get(self) -> usize
        ensures { result ≡ row_number self };

    /// All numbers are taken, since loops that put several indices at a time put some after the last one, and drop them.
    fn of(n: usize) -> Self
        ensures { result ≡ index_of n };

    /// Puts those of eight places, of which the first one has the index `base`.
    fn push_places<R: Room<Self>>(out: &mut R, base: usize, places: u8x8)
        requires eight { length places ≡ 8 }
        requires few { (k : ℕ) → k < 8 → slice_index places k < 8 }
        requires fits { base + 8 ≤ 2 ^ 64 }
        requires room { length (R.items out.old) + 8 ≤ R.capacity (R.kept out.old) }
        ensures items { R.items out.new ≡ R.items out.old ++ map (λ p. index_of (base + p)) places }
        ensures kept { R.kept out.new ≡ R.kept out.old };
}

impl RowIndex for usize {
    ghost row_number = { λ n. n };

    ghost index_of = { λ n. n };

    #[inline(always)]
    fn get(self) -> usize {
        self
    }

    #[inline(always)]
    fn of(n: usize) -> usize {
        n
    }

    #[inline(always)]
    fn push_places<R: Room<usize>>(out: &mut R, base: usize, places: u8x8) {
        push_eight(
            out,
            &(usizex8::splat(base) + places.cast::<usize>()).to_array(),
        );
    }
}

impl RowIndex for u32 {
    ghost use Rattle.std.specs.Prelude.{◌%◌, ◌^◌};

    ghost row_number = { λ n. n };

    ghost index_of = { λ n. n % 2 ^ 32 };

    #[inline(always)]
    fn get(self) -> usize {
        self as usize
    }

    #[inline(always)]
    fn of(n: usize) -> u32 {
        (n % (1 << 32)) as u32
    }

    #[inline(always)]
    fn push_places<R: Room<u32>>(out: &mut R, base: usize, places: u8x8) {
        push_eight(
            out,
            &(u32x8::splat(u32::of(base)) + places.cast::<u32>()).to_array(),
        );
    }
}
