//! The indices of the set bits of a word, put into room that was made for them.

ghost use Rattle.std.specs.Prelude.{◌≡◌, ◌+◌, ◌*◌, ◌^◌, ◌<◌, ◌≤◌, ◌++◌, ◌⊎◌, All, length, map, min, take};
ghost use Rattle.mask_bits.specs.Positions.{indices_from, count, positions};
ghost use Rattle.mask_bits.specs.Words.{word_bits};

use crate::byte_places::places_of;
use crate::items_of_word::{WordItems, push_by, push_one_by_one};
use crate::output::Room;
use crate::row_index::RowIndex;
use crate::unchecked::put;
use std::marker::PhantomData;

// The indices of places, of which the first has the index `base`.
#[derive(Clone, Copy)]
struct IndicesFrom<N> {
    base: usize,
    kind: PhantomData<N>,
}

// Each place yields its index.
impl<N: RowIndex> WordItems for IndicesFrom<N> {
    ghost use Rattle.std.specs.Prelude.{◌+◌, ◌^◌, Some, None, nat_lt, if◌then◌else◌};

    type Item = N;

    ghost at = { λ s p. if nat_lt (s.base + p) (2 ^ 64) then Some (N.index_of (s.base + p)) else None };

    #[inline(always)]
    fn lowest(self, word: u64) -> N {
        N::of(self.base + word.trailing_zeros() as usize)
    }
}

/// Writes `first` and the indices of the set bits of a word from there on behind the first `at` indices, as many as there
/// is room for, and returns how many there are then.
#[inline(always)]
pub fn put_indices<N: RowIndex>(word: u64, first: usize, out: &mut [N], at: usize) -> usize
    requires fits { All (λ p. first + p < 2 ^ 64) (positions (word_bits word)) }
    requires room { at ≤ length out.old }
    ensures indices { take result out.new ≡ take (length out.old)
        (take at out.old ++ map (λ p. N.index_of (first + p)) (positions (word_bits word))) }
    ensures count { result ≡ min (length out.old) (at + count (word_bits word)) }
{
    if word == 0 {
        return at;
    }
    let end = at + (word.count_ones() as usize).min(out.len() - at);
    put_indices_up_to(word, first, out, at, end);
    end
}

// Writes the indices of its lowest set bits, up to place `end`.
#[inline(always)]
fn put_indices_up_to<N: RowIndex>(word: u64, first: usize, out: &mut [N], at: usize, end: usize)
    requires fits { All (λ p. first + p < 2 ^ 64) (positions (word_bits word)) }
    requires ordered { at ≤ end }
    requires room { end ≤ length out.old }
    requires enough { end ≤ at + count (word_bits word) }
    ensures { take end out.new ≡ take end
        (take at out.old ++ map (λ p. N.index_of (first + p)) (positions (word_bits word))) }
{
    let mut left = word;
    for place in at..end {
        put(out, place, N::of(first + left.trailing_zeros() as usize));
        left &= left - 1;
    }
}

/// Puts the indices of the set bits of a word whose first bit has the index `base`: `K` at a time; one after
/// another where `K` is 0, and byte by byte where it is 64.
#[inline(always)]
pub(crate) fn push_indices<const K: usize, N: RowIndex, R: Room<N>>(
    indices: &mut R,
    base: usize,
    word: u64,
)
    requires step { (K ≤ 8) ⊎ (K ≡ 64) }
    requires room { length (R.items indices.old) + (count (word_bits word) + min K 8)
        ≤ R.capacity (R.kept indices.old) }
    requires fits { base + (63 + min K 1) < 2 ^ 64 }
    ensures items { R.items indices.new
        ≡ R.items indices.old ++ map N.index_of (indices_from base (word_bits word)) }
    ensures kept { R.kept indices.new ≡ R.kept indices.old }
{
    let items = IndicesFrom::<N> {
        base,
        kind: PhantomData,
    };
    match K {
        0 => push_one_by_one(indices, items, word),
        64 => push_by_bytes(indices, base, word),
        _ => push_by::<K, _, _>(indices, items, word),
    }
}

// Puts them byte by byte, eight numbers for each and no test. It takes about as long at each word.
#[inline(always)]
#[tactic(auto, using(crate::proofs::ByteLemmas::bytes_of_word))]
fn push_by_bytes<N: RowIndex, R: Room<N>>(indices: &mut R, base: usize, word: u64)
    requires room { length (R.items indices.old) + (count (word_bits word) + 8) ≤ R.capacity (R.kept indices.old) }
    requires fits { base + 64 ≤ 2 ^ 64 }
    ensures items { R.items indices.new
        ≡ R.items indices.old ++ map N.index_of (indices_from base (word_bits word)) }
    ensures kept { R.kept indices.new ≡ R.kept indices.old }
{
    for j in 0..8 {
        push_byte(indices, base + 8 * j, ((word >> (8 * j)) & 0xFF) as u8);
    }
}

// Puts those of a byte whose first bit has this index.
#[inline(always)]
fn push_byte<N: RowIndex, R: Room<N>>(indices: &mut R, base: usize, byte: u8)
    requires room { length (R.items indices.old) + 8 ≤ R.capacity (R.kept indices.old) }
    requires fits { base + 8 ≤ 2 ^ 64 }
    ensures items { R.items indices.new
        ≡ R.items indices.old ++ map N.index_of (indices_from base (take 8 (word_bits byte))) }
    ensures kept { R.kept indices.new ≡ R.kept indices.old }
{
    let before = indices.count();
    N::push_places(indices, base, places_of(byte));
    indices.truncate(before + byte.count_ones() as usize);
}
