//! The list that an operation makes of two lists, value by value, over plain bytes.

ghost use Rattle.std.specs.Prelude.{◌≡◌, ◌+◌, ◌*◌, ◌/◌, ◌^◌, ◌<◌, ◌≤◌, ◌&&◌, ◌||◌, ℕ, not, min, length};
ghost use Rattle.mask_bits.specs.Bitmap.{bitmap};
ghost use Rattle.mask_bits.specs.Buffer.{IsWithinBytes};
ghost use Rattle.mask_bits.specs.Combine.{AreCombined, IsCombinedBetween};
ghost use Rattle.mask_bits.specs.Lists.{combined, not_of};
ghost use Rattle.mask_bits.specs.Positions.{count};
ghost use Rattle.mask_bits.specs.Words.{word_bits, started_words};

use crate::read_word::{Anywhere, Bits, Neighbors, ReadWord, Shifted, Unaligned, Whole};
use crate::words::{set_word, started_words, word_at, word_of};

/// An operation on truth values, done on 64 at once.
pub trait BitOp {
    ghost use Rattle.std.specs.Prelude.{Bool};

    ghost of_bits: { Bool → Bool → Bool };

    fn of(x: u64, y: u64) -> u64
        ensures { word_bits result ≡ combined of_bits (word_bits x) (word_bits y) };
}

/// True in both.
#[derive(Drop)]
pub struct And;

/// True in one or in both.
#[derive(Drop)]
pub struct Or;

/// True in the first, and not in the second.
#[derive(Drop)]
pub struct AndNot;

/// True in the first, or not in the second.
#[derive(Drop)]
pub struct OrNot;

/// True in one, and not in the other.
#[derive(Drop)]
pub struct Xor;

/// Negates the first, and takes no account of the second.
#[derive(Drop)]
pub struct Not;

impl BitOp for And {
    ghost of_bits = { λ x y. x && y };

    #[tactic(auto, using(crate::proofs::CompareLemmas::word_operations))]
    #[inline]
    fn of(x: u64, y: u64) -> u64 {
        x & y
    }
}

impl BitOp for Or {
    ghost of_bits = { λ x y. x || y };

    #[tactic(auto, using(crate::proofs::CompareLemmas::word_operations))]
    #[inline]
    fn of(x: u64, y: u64) -> u64 {
        x | y
    }
}

impl BitOp for AndNot {
    ghost of_bits = { λ x y. x && not y };

    #[tactic(auto, using(crate::proofs::CompareLemmas::word_operations))]
    #[inline]
    fn of(x: u64, y: u64) -> u64 {
        x & !y
    }
}

impl BitOp for OrNot {
    ghost of_bits = { λ x y. x || not y };

    #[tactic(auto, using(crate::proofs::CompareLemmas::word_operations))]
    #[inline]
    fn of(x: u64, y: u64) -> u64 {
        x | !y
    }
}

impl BitOp for Xor {
    ghost of_bits = { λ x y. x && not y || not x && y };

    #[tactic(auto, using(crate::proofs::CompareLemmas::word_operations))]
    #[inline]
    fn of(x: u64, y: u64) -> u64 {
        x ^ y
    }
}

impl BitOp for Not {
    ghost of_bits = { λ x y. not x };

    #[tactic(auto, using(crate::proofs::CompareLemmas::word_operations))]
    #[inline]
    fn of(x: u64, _y: u64) -> u64 {
        !x
    }
}

/// Writes the list that `C` makes of the `len` bits of `a` from bit `a_offset` on and of those of
/// `b` from bit `b_offset` on, value by value, to the front of `out`, which is room of whole words.
/// The bits of `out` past the list have no meaning.
// rust: wide level if len > 128
pub fn combine<C: BitOp>(
    a: &[u8],
    a_offset: usize,
    b: &[u8],
    b_offset: usize,
    len: usize,
    out: &mut [u8],
)
    requires a_within { IsWithinBytes a.now a_offset len }
    requires b_within { IsWithinBytes b.now b_offset len }
    requires room { 8 * started_words len ≤ length out.old }
    ensures { bitmap out.new 0 len
        ≡ combined C.of_bits (bitmap a.now a_offset len) (bitmap b.now b_offset len) }
{
    let (a, b) = (Bits::new(a, a_offset), Bits::new(b, b_offset));
    let (whole, words) = (len / 64, started_words(len));
    extend_whole::<C>(a, b, whole, out);
    if whole < words {
        extend_last::<C>(a, b, whole, out);
    }
}

// Writes the first words.
fn extend_whole<C: BitOp>(a: Bits<'_>, b: Bits<'_>, words: usize, out: &mut [u8])
    requires a_within { IsWithinBytes a.bytes.now a.low (64 * words) }
    requires b_within { IsWithinBytes b.bytes.now b.low (64 * words) }
    requires few_a { a.low < 8 }
    requires few_b { b.low < 8 }
    requires room { 8 * words ≤ length out.old }
    ensures { AreCombined C.of_bits a.entry.bytes.now a.entry.low b.entry.bytes.now b.entry.low
        out.new (64 * words) }
{
    if a.low == 0 && b.low == 0 {
        extend::<C, Whole, Whole>(a, b, 0, words, out);
    } else {
        extend_shifted::<C>(a, b, words, out);
    }
}

// Writes the first words of lists that do not both begin at a whole byte. Never inlined, so that the quicker case stays small.
#[inline(never)]
fn extend_shifted<C: BitOp>(a: Bits<'_>, b: Bits<'_>, words: usize, out: &mut [u8])
    requires shifted { 0 < a.low + b.low }
    requires a_within { IsWithinBytes a.bytes.now a.low (64 * words) }
    requires b_within { IsWithinBytes b.bytes.now b.low (64 * words) }
    requires few_a { a.low < 8 }
    requires few_b { b.low < 8 }
    requires room { 8 * words ≤ length out.old }
    ensures { AreCombined C.of_bits a.entry.bytes.now a.entry.low b.entry.bytes.now b.entry.low
        out.new (64 * words) }
{
    let inner = a.neighbors().min(b.neighbors()).min(words);
    extend_inner::<C>(a, b, inner, out);
    extend::<C, Unaligned, Unaligned>(a, b, inner, words, out);
}

// Writes words beside which there is another one. Each list is read in its own way, since a shift of one
// that begins at a whole byte takes nearly as long as the rest.
// rust: shifted level
fn extend_inner<C: BitOp>(a: Bits<'_>, b: Bits<'_>, words: usize, out: &mut [u8])
    requires shifted { 0 < a.low + b.low }
    requires a_goes_on { (i : ℕ) → i < words → 8 * i + 16 ≤ length a.bytes.now }
    requires b_goes_on { (i : ℕ) → i < words → 8 * i + 16 ≤ length b.bytes.now }
    requires few_a { a.low < 8 }
    requires few_b { b.low < 8 }
    requires room { 8 * words ≤ length out.old }
    ensures { AreCombined C.of_bits a.entry.bytes.now a.entry.low b.entry.bytes.now b.entry.low
        out.new (64 * words) }
{
    if a.low == 0 {
        extend::<C, Whole, Shifted>(a, b, 0, words, out);
    } else if b.low == 0 {
        extend::<C, Shifted, Whole>(a, b, 0, words, out);
    } else {
        extend::<C, Shifted, Shifted>(a, b, 0, words, out);
    }
}

// Writes words `from` to `to`, where those before are written.
fn extend<C: BitOp, A: ReadWord, B: ReadWord>(
    a: Bits<'_>,
    b: Bits<'_>,
    from: usize,
    to: usize,
    out: &mut [u8],
)
    requires reads_a { (i : ℕ) → i < to → A.can_read a.bytes.now a.low i }
    requires reads_b { (i : ℕ) → i < to → B.can_read b.bytes.now b.low i }
    requires ordered { from ≤ to }
    requires room { 8 * to ≤ length out.old }
    requires before { AreCombined C.of_bits a.bytes.now a.low b.bytes.now b.low out.old (64 * from) }
    ensures { AreCombined C.of_bits a.entry.bytes.now a.entry.low b.entry.bytes.now b.entry.low
        out.new (64 * to) }
{
    for i in from..to {
        set_word(out, i, C::of(A::word(a, i), B::word(b, i)));
    }
}

// Writes word `i`, which the bytes may have a part of, where those before are written. It isn't a turn of a loop, since what
// the compiler would work out before that loop takes as long as some words.
fn extend_last<C: BitOp>(a: Bits<'_>, b: Bits<'_>, i: usize, out: &mut [u8])
    requires a_fits { a.low + 64 * i < 2 ^ 64 }
    requires b_fits { b.low + 64 * i < 2 ^ 64 }
    requires room { 8 * i + 8 ≤ length out.old }
    requires before { AreCombined C.of_bits a.bytes.now a.low b.bytes.now b.low out.old (64 * i) }
    ensures { AreCombined C.of_bits a.entry.bytes.now a.entry.low b.entry.bytes.now b.entry.low
        out.new (64 * (i + 1)) }
{
    set_word(out, i, C::of(Anywhere::word(a, i), Anywhere::word(b, i)));
}

/// What [`combine`] does, and the result is how many values are true. Those of a word are counted as it is written.
// rust: level if len > 128
#[tactic(auto, using(crate::proofs::CompareLemmas::counted))]
pub fn combine_counted<C: BitOp>(
    a: &[u8],
    a_offset: usize,
    b: &[u8],
    b_offset: usize,
    len: usize,
    out: &mut [u8],
) -> usize
    requires a_within { IsWithinBytes a.now a_offset len }
    requires b_within { IsWithinBytes b.now b_offset len }
    requires room { 8 * started_words len ≤ length out.old }
    ensures list { bitmap out.new 0 len
        ≡ combined C.of_bits (bitmap a.now a_offset len) (bitmap b.now b_offset len) }
    ensures counted { result ≡ count (bitmap out.new 0 len) }
{
    let (a, b) = (Bits::new(a, a_offset), Bits::new(b, b_offset));
    let (whole, rest) = (len / 64, len % 64);
    let ones = count_whole::<C>(a, b, whole, out);
    if rest == 0 {
        return ones;
    }
    ones + count_last::<C>(a, b, whole, rest, out)
}

// Writes the first words, and returns how many of their values are true.
#[tactic(auto, using(crate::proofs::CompareLemmas::counted))]
fn count_whole<C: BitOp>(a: Bits<'_>, b: Bits<'_>, words: usize, out: &mut [u8]) -> usize
    requires a_within { IsWithinBytes a.bytes.now a.low (64 * words) }
    requires b_within { IsWithinBytes b.bytes.now b.low (64 * words) }
    requires few_a { a.low < 8 }
    requires few_b { b.low < 8 }
    requires room { 8 * words ≤ length out.old }
    ensures list { AreCombined C.of_bits a.entry.bytes.now a.entry.low b.entry.bytes.now b.entry.low
        out.new (64 * words) }
    ensures counted { result ≡ count (combined C.of_bits
        (bitmap a.entry.bytes.now a.entry.low (64 * words))
        (bitmap b.entry.bytes.now b.entry.low (64 * words))) }
{
    if a.low == 0 && b.low == 0 {
        return count_words::<C, Whole, Whole>(a, b, 0, words, 0, out);
    }
    count_shifted::<C>(a, b, words, out)
}

// The same of lists that do not both begin at a whole byte. Never inlined, so that the quicker case stays small.
// rust: level
#[inline(never)]
#[tactic(auto, using(crate::proofs::CompareLemmas::counted))]
fn count_shifted<C: BitOp>(a: Bits<'_>, b: Bits<'_>, words: usize, out: &mut [u8]) -> usize
    requires a_within { IsWithinBytes a.bytes.now a.low (64 * words) }
    requires b_within { IsWithinBytes b.bytes.now b.low (64 * words) }
    requires few_a { a.low < 8 }
    requires few_b { b.low < 8 }
    requires room { 8 * words ≤ length out.old }
    ensures list { AreCombined C.of_bits a.entry.bytes.now a.entry.low b.entry.bytes.now b.entry.low
        out.new (64 * words) }
    ensures counted { result ≡ count (combined C.of_bits
        (bitmap a.entry.bytes.now a.entry.low (64 * words))
        (bitmap b.entry.bytes.now b.entry.low (64 * words))) }
{
    let inner = a.neighbors().min(b.neighbors()).min(words);
    let first = count_words::<C, Neighbors, Neighbors>(a, b, 0, inner, 0, out);
    count_words::<C, Unaligned, Unaligned>(a, b, inner, words, first, out)
}

// Writes words `from` to `to`, where those before are written, and returns how many values of all are true, where `ones`
// of those before are.
fn count_words<C: BitOp, A: ReadWord, B: ReadWord>(
    a: Bits<'_>,
    b: Bits<'_>,
    from: usize,
    to: usize,
    ones: usize,
    out: &mut [u8],
) -> usize
    requires reads_a { (i : ℕ) → i < to → A.can_read a.bytes.now a.low i }
    requires reads_b { (i : ℕ) → i < to → B.can_read b.bytes.now b.low i }
    requires ordered { from ≤ to }
    requires fits { 64 * to < 2 ^ 64 }
    requires room { 8 * to ≤ length out.old }
    requires before { AreCombined C.of_bits a.bytes.now a.low b.bytes.now b.low out.old (64 * from) }
    requires counted { ones ≡ count (combined C.of_bits
        (bitmap a.bytes.now a.low (64 * from))
        (bitmap b.bytes.now b.low (64 * from))) }
    ensures list { AreCombined C.of_bits a.entry.bytes.now a.entry.low b.entry.bytes.now b.entry.low
        out.new (64 * to) }
    ensures counted { result ≡ count (combined C.of_bits
        (bitmap a.entry.bytes.now a.entry.low (64 * to))
        (bitmap b.entry.bytes.now b.entry.low (64 * to))) }
{
    let mut count = ones;
    for i in from..to {
        let word = C::of(A::word(a, i), B::word(b, i));
        set_word(out, i, word);
        count += word.count_ones() as usize;
    }
    count
}

// Writes word `i`, of which fewer than 64 bits are values, where those before are written, and returns how many of these
// values are true.
#[tactic(auto, using(crate::proofs::CompareLemmas::counted_in_rest, std::proofs::lemmas::Nat::and_le_l))]
fn count_last<C: BitOp>(a: Bits<'_>, b: Bits<'_>, i: usize, rest: usize, out: &mut [u8]) -> usize
    requires few { rest < 64 }
    requires a_fits { a.low + 64 * i < 2 ^ 64 }
    requires b_fits { b.low + 64 * i < 2 ^ 64 }
    requires room { 8 * i + 8 ≤ length out.old }
    requires before { AreCombined C.of_bits a.bytes.now a.low b.bytes.now b.low out.old (64 * i) }
    ensures list { AreCombined C.of_bits a.entry.bytes.now a.entry.low b.entry.bytes.now b.entry.low
        out.new (64 * (i + 1)) }
    ensures counted { result ≡ count (combined C.of_bits
        (bitmap a.entry.bytes.now (a.entry.low + 64 * i) rest)
        (bitmap b.entry.bytes.now (b.entry.low + 64 * i) rest)) }
{
    let word = C::of(Anywhere::word(a, i), Anywhere::word(b, i));
    set_word(out, i, word);
    (word & ((1 << rest) - 1)).count_ones() as usize
}

/// What [`combine`] does where the bits of `a` begin `bytes`: the list is written in their place. The bits of
/// `bytes` past the list have no meaning.
// rust: wide level if len > 128
pub fn combine_in_place<C: BitOp>(bytes: &mut [u8], b: &[u8], b_offset: usize, len: usize)
    requires within { len ≤ 8 * length bytes.old }
    requires b_within { IsWithinBytes b.now b_offset len }
    ensures { bitmap bytes.new 0 len
        ≡ combined C.of_bits (bitmap bytes.old 0 len) (bitmap b.now b_offset len) }
{
    let b = Bits::new(b, b_offset);
    change_whole::<C>(bytes, b, len / 64);
    if len % 64 != 0 {
        change_last::<C>(bytes, b, len / 64);
    }
}

// Combines the first words in place.
#[tactic(auto, using(crate::proofs::CombineLemmas::in_place))]
fn change_whole<C: BitOp>(bytes: &mut [u8], b: Bits<'_>, words: usize)
    requires b_within { IsWithinBytes b.bytes.now b.low (64 * words) }
    requires few { b.low < 8 }
    requires room { 8 * words ≤ length bytes.old }
    ensures { IsCombinedBetween C.of_bits bytes.old b.entry.bytes.now bytes.new b.entry.low
        0 (64 * words) }
{
    if b.low == 0 {
        change::<C, Whole>(bytes, b, 0, words);
    } else {
        let inner = b.neighbors().min(words);
        change::<C, Shifted>(bytes, b, 0, inner);
        change::<C, Unaligned>(bytes, b, inner, words);
    }
}

// Combines words `from` to `to` in place.
#[tactic(auto, using(crate::proofs::CombineLemmas::in_place))]
fn change<C: BitOp, R: ReadWord>(bytes: &mut [u8], b: Bits<'_>, from: usize, to: usize)
    requires reads { (i : ℕ) → i < to → R.can_read b.bytes.now b.low i }
    requires ordered { from ≤ to }
    requires room { 8 * to ≤ length bytes.old }
    ensures { IsCombinedBetween C.of_bits bytes.old b.entry.bytes.now bytes.new b.entry.low
        (64 * from) (64 * to) }
{
    for i in from..to {
        set_word(bytes, i, C::of(word_of(bytes, i), R::word(b, i)));
    }
}

// Combines as much of word `i` in place as the bytes have.
#[tactic(auto, using(crate::proofs::CombineLemmas::in_place))]
fn change_last<C: BitOp>(bytes: &mut [u8], b: Bits<'_>, i: usize)
    requires begins { 8 * i ≤ length bytes.old }
    requires fits { b.low + 64 * i < 2 ^ 64 }
    ensures { IsCombinedBetween C.of_bits bytes.old b.entry.bytes.now bytes.new b.entry.low (64 * i)
        (min (64 * i + 64) (8 * length bytes.old)) }
{
    let end = bytes.len().min(8 * i + 8);
    let mut last = [0u8; 8];
    let word = C::of(word_at(bytes, 64 * i), Anywhere::word(b, i));
    set_word(&mut last, 0, word);
    bytes[8 * i..end].copy_from_slice(&last[..end - 8 * i]);
}

/// Negates the first `len` bits of `bytes`. Those past them have no meaning.
// rust: wide level if len > 128
#[tactic(auto, using(crate::proofs::CombineLemmas::negated_bytes))]
pub fn negate_in_place(bytes: &mut [u8], len: usize)
    requires { len ≤ 8 * length bytes.old }
    ensures { bitmap bytes.new 0 len ≡ not_of (bitmap bytes.old 0 len) }
{
    for i in 0..len.div_ceil(8) {
        bytes[i] ^= 0xFF;
    }
}
