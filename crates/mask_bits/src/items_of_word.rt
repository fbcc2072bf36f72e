//! What the set bits of a word yield, put into room that was made for it: one after another, or several at a
//! time.
//!
//! All is inlined into the call that makes the list: so its length and the place of its room stay in
//! registers.

ghost use Rattle.std.specs.Prelude.{◌≡◌, ◌+◌, ◌*◌, ◌^◌, ◌<◌, ◌≤◌, ◌++◌, ℕ, List, All, IsSome, length, take};
ghost use Rattle.mask_bits.specs.Positions.{indices_from, positions, count, chosen};
ghost use Rattle.mask_bits.specs.Pushed.{ArePushed};
ghost use Rattle.mask_bits.specs.WordItems.{items_of};
ghost use Rattle.mask_bits.specs.Words.{word_bits};

use crate::output::Room;
use crate::unchecked::item;

/// What the 64 places of a word yield, and what is read where no bit is left, as of place 64.
pub(crate) trait WordItems: Copy {
    ghost use Rattle.std.specs.Prelude.{◌≡◌, ℕ, Option, Some, IsSome};
    ghost use Rattle.std.specs.Int.{w64, trailing_zeros};

    type Item: Copy;

    /// The item of a place, if it has one.
    ghost at: { Self → ℕ → Option Self.Item };

    /// The item of the lowest set bit.
    fn lowest(self, word: u64) -> Self::Item
        requires { IsSome (at self (trailing_zeros w64 word)) }
        ensures { at self (trailing_zeros w64 word) ≡ Some result };
}

/// Each place yields its row.
impl<'a, T: Copy> WordItems for &'a [T] {
    ghost use Rattle.std.specs.Prelude.{slice_get};

    type Item = T;

    ghost at = { λ rows p. slice_get rows.now p };

    #[inline(always)]
    fn lowest(self, word: u64) -> T {
        item(self, word.trailing_zeros() as usize)
    }
}

/// Puts what the set bits of a word yield, one after another. Within a word nothing is looked up but the word.
#[inline(always)]
#[tactic(auto, using(crate::proofs::Lists::Places::SelectLemmas::places_of_words, crate::proofs::Lists::Places::PushLemmas::items_of_words, crate::proofs::Lists::Places::PushLemmas::no_places))]
pub(crate) fn push_one_by_one<W: WordItems, R: Room<W::Item>>(out: &mut R, items: W, word: u64)
    requires each { All (λ p. IsSome (W.at items p)) (positions (word_bits word)) }
    requires room { length (R.items out.old) + count (word_bits word) ≤ R.capacity (R.kept out.old) }
    ensures items { R.items out.new ≡ R.items out.old ++ items_of (W.at items) (word_bits word) }
    ensures len { length (R.items out.new) ≡ length (R.items out.old) + count (word_bits word) }
    ensures kept { R.kept out.new ≡ R.kept out.old }
{
    let mut left = word;
    while left != 0 {
        out.put(items.lowest(left));
        left &= left - 1;
    }
}

/// Puts what the set bits yield `K` at a time. One test for several is guessed right more often than one for
/// each, and the first need none.
#[inline(always)]
#[tactic(auto, using(crate::proofs::Lists::Words::WordLemmas::ones_of_word, crate::proofs::Lists::Places::PushLemmas::items_of_words))]
pub(crate) fn push_by<const K: usize, W: WordItems, R: Room<W::Item>>(
    out: &mut R,
    items: W,
    word: u64,
)
    requires some { 0 < K }
    requires each { (p : ℕ) → p ≤ 64 → IsSome (W.at items p) }
    requires room { length (R.items out.old) + (count (word_bits word) + K) ≤ R.capacity (R.kept out.old) }
    ensures items { R.items out.new ≡ R.items out.old ++ items_of (W.at items) (word_bits word) }
    ensures len { length (R.items out.new) ≡ length (R.items out.old) + count (word_bits word) }
    ensures kept { R.kept out.new ≡ R.kept out.old }
{
    let end = out.count() + word.count_ones() as usize;
    let mut left = push_some::<K, _, _>(out, items, word);
    while out.count() < end {
        left = push_some::<K, _, _>(out, items, left);
    }
    out.truncate(end);
}

// Puts what the `K` lowest bits yield, and other items where there are fewer. Returns the bits that are left.
#[inline(always)]
fn push_some<const K: usize, W: WordItems, R: Room<W::Item>>(
    out: &mut R,
    items: W,
    word: u64,
) -> u64
    requires each { (p : ℕ) → p ≤ 64 → IsSome (W.at items p) }
    requires room { length (R.items out.old) + K ≤ R.capacity (R.kept out.old) }
    ensures pushed { (all : List W.Item) → ArePushed all (R.items out.old) (items_of (W.at items) (word_bits word))
        → ArePushed all (R.items out.new) (items_of (W.at items) (word_bits result)) }
    ensures len { length (R.items out.new) ≡ length (R.items out.old) + K }
    ensures kept { R.kept out.new ≡ R.kept out.old }
{
    let mut left = word;
    for _ in 0..K {
        left = push_lowest(out, items, left);
    }
    left
}

// The same of the lowest bit.
#[inline(always)]
fn push_lowest<W: WordItems, R: Room<W::Item>>(out: &mut R, items: W, word: u64) -> u64
    requires each { (p : ℕ) → p ≤ 64 → IsSome (W.at items p) }
    requires room { length (R.items out.old) < R.capacity (R.kept out.old) }
    ensures pushed { (all : List W.Item) → ArePushed all (R.items out.old) (items_of (W.at items) (word_bits word))
        → ArePushed all (R.items out.new) (items_of (W.at items) (word_bits result)) }
    ensures len { length (R.items out.new) ≡ length (R.items out.old) + 1 }
    ensures kept { R.kept out.new ≡ R.kept out.old }
{
    out.put(items.lowest(word));
    word & word.wrapping_sub(1)
}

/// Puts eight items.
#[inline(always)]
pub(crate) fn push_eight<T: Copy, R: Room<T>>(out: &mut R, items: &[T; 8])
    requires room { length (R.items out.old) + 8 ≤ R.capacity (R.kept out.old) }
    ensures items { R.items out.new ≡ R.items out.old ++ items.now }
    ensures kept { R.kept out.new ≡ R.kept out.old }
{
    for k in 0..8 {
        out.put(items[k]);
    }
}
