//! The true values that an operation makes of two lists: whether there is one, and how many; and whether
//! two lists are the same. Over plain bytes.

ghost use Rattle.std.specs.Prelude.{◌≡◌, ◌↔◌, ◌+◌, ◌*◌, ◌<◌, ◌≤◌, ◌^◌, ℕ, false, IsTrue, length};
ghost use Rattle.mask_bits.specs.Bitmap.{bitmap};
ghost use Rattle.mask_bits.specs.Buffer.{IsWithinBytes};
ghost use Rattle.mask_bits.specs.Combine.{IsNoneTrue};
ghost use Rattle.mask_bits.specs.Lists.{combined};
ghost use Rattle.mask_bits.specs.Positions.{count, repeated};

use crate::combine::{BitOp, Xor};
use crate::read_word::{Bits, Neighbors, ReadWord, Shifted, Unaligned, Whole};
use crate::words::word_at;

/// Whether the `len` bits of `a` from bit `a_offset` on are those of `b` from bit `b_offset` on.
#[tactic(auto, using(crate::proofs::BufferLemmas::buffer_facts, crate::proofs::CompareLemmas::same_from_none_unlike))]
pub fn same_bits(a: &[u8], a_offset: usize, b: &[u8], b_offset: usize, len: usize) -> bool
    requires a_within { IsWithinBytes a.now a_offset len }
    requires b_within { IsWithinBytes b.now b_offset len }
    ensures { IsTrue result ↔ (bitmap a.now a_offset len ≡ bitmap b.now b_offset len) }
{
    none_true::<Xor>(a, a_offset, b, b_offset, len)
}

/// Whether no value is true that `C` makes of the `len` bits of `a` from bit `a_offset` on and of those
/// of `b` from bit `b_offset` on.
// rust: wide level if len > 128
#[tactic(auto, using(crate::proofs::CompareLemmas::none_in_rest, crate::proofs::CompareLemmas::none_from_list))]
pub fn none_true<C: BitOp>(a: &[u8], a_offset: usize, b: &[u8], b_offset: usize, len: usize) -> bool
    requires a_within { IsWithinBytes a.now a_offset len }
    requires b_within { IsWithinBytes b.now b_offset len }
    ensures { IsTrue result ↔ (combined C.of_bits
        (bitmap a.now a_offset len)
        (bitmap b.now b_offset len)
        ≡ repeated len false) }
{
    let whole = 64 * (len / 64);
    none_in_words::<C>(a, a_offset, b, b_offset, len / 64)
        && none_in_last::<C>(a, a_offset + whole, b, b_offset + whole, len % 64)
}

// Whether none is true that `C` makes of fewer than 64 bits.
#[inline]
#[tactic(auto, using(crate::proofs::CompareLemmas::none_in_rest))]
fn none_in_last<C: BitOp>(a: &[u8], p: usize, b: &[u8], q: usize, rest: usize) -> bool
    requires { rest < 64 }
    ensures { IsTrue result ↔ IsNoneTrue C.of_bits a.now p b.now q rest }
{
    C::of(word_at(a, p), word_at(b, q)) & ((1 << rest) - 1) == 0
}

// Whether none is true that `C` makes of whole words.
fn none_in_words<C: BitOp>(
    a: &[u8],
    a_offset: usize,
    b: &[u8],
    b_offset: usize,
    words: usize,
) -> bool
    requires a_within { IsWithinBytes a.now a_offset (64 * words) }
    requires b_within { IsWithinBytes b.now b_offset (64 * words) }
    ensures { IsTrue result ↔ IsNoneTrue C.of_bits a.now a_offset b.now b_offset (64 * words) }
{
    let (a, b) = (Bits::new(a, a_offset), Bits::new(b, b_offset));
    if a.low == 0 && b.low == 0 {
        return none_in_blocks::<C, Whole, Whole>(a, b, words);
    }
    none_in_shifted_words::<C>(a, b, words)
}

// Whether none is true that `C` makes of whole words that do not both begin at a whole byte. Never
// inlined, so that the quicker case stays small.
// rust: level
#[inline(never)]
fn none_in_shifted_words<C: BitOp>(a: Bits<'_>, b: Bits<'_>, words: usize) -> bool
    requires shifted { 0 < a.low + b.low }
    requires a_within { IsWithinBytes a.bytes.now a.low (64 * words) }
    requires b_within { IsWithinBytes b.bytes.now b.low (64 * words) }
    requires few_a { a.low < 8 }
    requires few_b { b.low < 8 }
    ensures { IsTrue result
        ↔ IsNoneTrue C.of_bits a.entry.bytes.now a.entry.low b.entry.bytes.now b.entry.low (64 * words) }
{
    let inner = a.neighbors().min(b.neighbors()).min(words);
    none_in_inner_words::<C>(a, b, inner)
        && none_in_block::<C, Unaligned, Unaligned>(a, b, inner, words)
}

// Whether none is true that `C` makes of words beside which there is another one. Each list is read in
// its own way.
#[inline]
fn none_in_inner_words<C: BitOp>(a: Bits<'_>, b: Bits<'_>, words: usize) -> bool
    requires shifted { 0 < a.low + b.low }
    requires a_goes_on { (i : ℕ) → i < words → 8 * i + 16 ≤ length a.bytes.now }
    requires b_goes_on { (i : ℕ) → i < words → 8 * i + 16 ≤ length b.bytes.now }
    requires few_a { a.low < 8 }
    requires few_b { b.low < 8 }
    requires fits { 64 * words < 2 ^ 64 }
    ensures { IsTrue result
        ↔ IsNoneTrue C.of_bits a.entry.bytes.now a.entry.low b.entry.bytes.now b.entry.low (64 * words) }
{
    if a.low == 0 {
        none_in_blocks::<C, Whole, Shifted>(a, b, words)
    } else if b.low == 0 {
        none_in_blocks::<C, Shifted, Whole>(a, b, words)
    } else {
        none_in_blocks::<C, Shifted, Shifted>(a, b, words)
    }
}

// How many words are looked at before an early return.
const BLOCK: usize = 32;

// Whether none is true that `C` makes of the first words.
#[inline]
fn none_in_blocks<C: BitOp, A: ReadWord, B: ReadWord>(
    a: Bits<'_>,
    b: Bits<'_>,
    words: usize,
) -> bool
    requires reads_a { (i : ℕ) → i < words → A.can_read a.bytes.now a.low i }
    requires reads_b { (i : ℕ) → i < words → B.can_read b.bytes.now b.low i }
    requires fits { 64 * words < 2 ^ 64 }
    ensures { IsTrue result
        ↔ IsNoneTrue C.of_bits a.entry.bytes.now a.entry.low b.entry.bytes.now b.entry.low (64 * words) }
{
    let blocks = words / BLOCK;
    // whole blocks, so that each is a few vectors and no loop
    for k in 0..blocks {
        if !none_in_block::<C, A, B>(a, b, BLOCK * k, BLOCK * k + BLOCK) {
            return false;
        }
    }
    none_in_block::<C, A, B>(a, b, BLOCK * blocks, words)
}

// Whether there is none up to word `to`, where there is none before word `from`. With no early return, so
// that several words are looked at at once: the true values of all are gathered, and tested at the end.
#[inline]
fn none_in_block<C: BitOp, A: ReadWord, B: ReadWord>(
    a: Bits<'_>,
    b: Bits<'_>,
    from: usize,
    to: usize,
) -> bool
    requires reads_a { (i : ℕ) → i < to → A.can_read a.bytes.now a.low i }
    requires reads_b { (i : ℕ) → i < to → B.can_read b.bytes.now b.low i }
    requires ordered { from ≤ to }
    requires before { IsNoneTrue C.of_bits a.bytes.now a.low b.bytes.now b.low (64 * from) }
    ensures { IsTrue result
        ↔ IsNoneTrue C.of_bits a.entry.bytes.now a.entry.low b.entry.bytes.now b.entry.low (64 * to) }
{
    let mut found = 0;
    for i in from..to {
        found |= C::of(A::word(a, i), B::word(b, i));
    }
    found == 0
}

/// How many values are true that `C` makes of the `len` bits of `a` from bit `a_offset` on and of those of
/// `b` from bit `b_offset` on.
// rust: level to vpopcntdq
#[tactic(auto, using(crate::proofs::CompareLemmas::counted))]
pub fn count_true<C: BitOp>(
    a: &[u8],
    a_offset: usize,
    b: &[u8],
    b_offset: usize,
    len: usize,
) -> usize
    requires a_within { IsWithinBytes a.now a_offset len }
    requires b_within { IsWithinBytes b.now b_offset len }
    ensures { result
        ≡ count (combined C.of_bits (bitmap a.now a_offset len) (bitmap b.now b_offset len)) }
{
    let whole = 64 * (len / 64);
    count_in_words::<C>(a, a_offset, b, b_offset, len / 64)
        + count_in_last::<C>(a, a_offset + whole, b, b_offset + whole, len % 64)
}

// How many are true that `C` makes of fewer than 64 bits.
#[tactic(auto, using(crate::proofs::CompareLemmas::counted_in_rest, std::proofs::lemmas::Nat::and_le_l))]
#[inline]
fn count_in_last<C: BitOp>(a: &[u8], p: usize, b: &[u8], q: usize, rest: usize) -> usize
    requires { rest < 64 }
    ensures { result ≡ count (combined C.of_bits (bitmap a.now p rest) (bitmap b.now q rest)) }
{
    let made = C::of(word_at(a, p), word_at(b, q));
    (made & ((1 << rest) - 1)).count_ones() as usize
}

// How many are true that `C` makes of whole words.
#[tactic(auto, using(crate::proofs::CompareLemmas::counted))]
fn count_in_words<C: BitOp>(
    a: &[u8],
    a_offset: usize,
    b: &[u8],
    b_offset: usize,
    words: usize,
) -> usize
    requires a_within { IsWithinBytes a.now a_offset (64 * words) }
    requires b_within { IsWithinBytes b.now b_offset (64 * words) }
    ensures { result ≡ count (combined C.of_bits
        (bitmap a.now a_offset (64 * words))
        (bitmap b.now b_offset (64 * words))) }
{
    let (a, b) = (Bits::new(a, a_offset), Bits::new(b, b_offset));
    if a.low == 0 && b.low == 0 {
        return count_on::<C, Whole, Whole>(a, b, 0, words, 0);
    }
    let inner = a.neighbors().min(b.neighbors()).min(words);
    let first = count_in_inner_words::<C>(a, b, inner);
    count_on::<C, Unaligned, Unaligned>(a, b, inner, words, first)
}

// How many are true that `C` makes of words beside which there is another one. Each list is read in its
// own way.
#[tactic(auto, using(crate::proofs::CompareLemmas::counted))]
fn count_in_inner_words<C: BitOp>(a: Bits<'_>, b: Bits<'_>, words: usize) -> usize
    requires shifted { 0 < a.low + b.low }
    requires a_goes_on { (i : ℕ) → i < words → 8 * i + 16 ≤ length a.bytes.now }
    requires b_goes_on { (i : ℕ) → i < words → 8 * i + 16 ≤ length b.bytes.now }
    requires few_a { a.low < 8 }
    requires few_b { b.low < 8 }
    requires fits { 64 * words < 2 ^ 64 }
    ensures { result ≡ count (combined C.of_bits
        (bitmap a.entry.bytes.now a.entry.low (64 * words))
        (bitmap b.entry.bytes.now b.entry.low (64 * words))) }
{
    if a.low == 0 {
        count_on::<C, Whole, Neighbors>(a, b, 0, words, 0)
    } else if b.low == 0 {
        count_on::<C, Neighbors, Whole>(a, b, 0, words, 0)
    } else {
        count_on::<C, Neighbors, Neighbors>(a, b, 0, words, 0)
    }
}

// How many are true up to word `to`, where `before` are before word `from`.
#[inline]
fn count_on<C: BitOp, A: ReadWord, B: ReadWord>(
    a: Bits<'_>,
    b: Bits<'_>,
    from: usize,
    to: usize,
    before: usize,
) -> usize
    requires reads_a { (i : ℕ) → i < to → A.can_read a.bytes.now a.low i }
    requires reads_b { (i : ℕ) → i < to → B.can_read b.bytes.now b.low i }
    requires ordered { from ≤ to }
    requires fits { 64 * to < 2 ^ 64 }
    requires counted { before ≡ count (combined C.of_bits
        (bitmap a.bytes.now a.low (64 * from))
        (bitmap b.bytes.now b.low (64 * from))) }
    ensures { result ≡ count (combined C.of_bits
        (bitmap a.entry.bytes.now a.entry.low (64 * to))
        (bitmap b.entry.bytes.now b.entry.low (64 * to))) }
{
    let mut count = before;
    for i in from..to {
        count += C::of(A::word(a, i), B::word(b, i)).count_ones() as usize;
    }
    count
}
