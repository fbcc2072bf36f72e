//! Kleene's tables of two lists with nulls, value by value, over plain bytes.

ghost use Rattle.std.specs.Prelude.{◌≡◌, ◌+◌, ◌-◌, ◌*◌, ◌/◌, ◌<◌, ◌≤◌, ◌++◌, ℕ, Bool, true, List, Option, None, Some, get_or, min, length, take};
ghost use Rattle.mask_bits.specs.Bitmap.{bitmap};
ghost use Rattle.mask_bits.specs.Combine.{IsInTwoWords};
ghost use Rattle.mask_bits.specs.Kleene.{nullable_bitmap, nullable_window, value_at, word_values, AreWordsOf, AreWithinBytes, CanReadBoth, HasValues, IsOfTable};
ghost use Rattle.mask_bits.specs.Nullable.{and_kleene, or_kleene, combined_nullable, nullable, is_true_of, is_valid_of};
ghost use Rattle.mask_bits.specs.Words.{word_bits, started_words};

use crate::read_word::{Anywhere, Bits, Neighbors, ReadWord, Unaligned, Whole};
use crate::words::{set_word, started_words, word_at};

/// 64 values with nulls: where they are true, and where they are false.
#[derive(Clone, Copy)]
pub struct NullableWord {
    trues: u64,
    falses: u64,
}

#[tactic(auto, using(crate::proofs::KleeneLemmas::nullable_words))]
impl NullableWord {
    // 64 values and their validity
    #[inline]
    fn new(values: u64, validity: u64) -> NullableWord
        ensures { AreWordsOf (nullable (word_bits values) (Some (word_bits validity)))
            result.trues result.falses }
    {
        NullableWord {
            trues: validity & values,
            falses: validity & !values,
        }
    }

    // where they are valid
    #[inline]
    fn valid(self) -> u64
        ensures { (m : List (Option Bool)) → AreWordsOf m self.trues self.falses
            → word_bits result ≡ is_valid_of m }
    {
        self.trues | self.falses
    }
}

/// A table of truth values with nulls, looked up for 64 pairs at once.
pub trait KleeneOp {
    ghost use Rattle.std.specs.Prelude.{Bool, Option};

    ghost table: { Option Bool → Option Bool → Option Bool };

    fn of(x: NullableWord, y: NullableWord) -> NullableWord
        ensures { (a b : List (Option Bool)) → AreWordsOf a x.trues x.falses → AreWordsOf b y.trues y.falses
            → AreWordsOf (combined_nullable table a b) result.trues result.falses };
}

/// True where both are, and false where one is.
#[derive(Drop)]
pub struct KleeneAnd;

/// True where one is, and false where both are.
#[derive(Drop)]
pub struct KleeneOr;

impl KleeneOp for KleeneAnd {
    ghost table = { and_kleene };

    #[tactic(auto, using(crate::proofs::KleeneLemmas::nullable_words))]
    #[inline]
    fn of(x: NullableWord, y: NullableWord) -> NullableWord {
        NullableWord {
            trues: x.trues & y.trues,
            falses: x.falses | y.falses,
        }
    }
}

impl KleeneOp for KleeneOr {
    ghost table = { or_kleene };

    #[tactic(auto, using(crate::proofs::KleeneLemmas::nullable_words))]
    #[inline]
    fn of(x: NullableWord, y: NullableWord) -> NullableWord {
        NullableWord {
            trues: x.trues | y.trues,
            falses: x.falses & y.falses,
        }
    }
}

/// Truth values with nulls, over plain bytes: the bytes of the values and the position of the first, and
/// those of the validity, where there is one.
#[derive(Clone, Copy)]
pub struct NullableBitmap<'a> {
    pub values: (&'a [u8], usize),
    pub validity: Option<(&'a [u8], usize)>,
}

impl<'a> NullableBitmap<'a> {
    /// The values from the one at `start` on.
    pub fn skip(self, start: usize) -> NullableBitmap<'a>
        requires { HasValues self start }
        ensures { (n : ℕ) → nullable_bitmap self.entry (start + n)
            ≡ nullable_bitmap self.entry start ++ nullable_bitmap result n }
    {
        let values = (self.values.0, self.values.1 + start);
        match self.validity {
            Some(validity) => NullableBitmap {
                values,
                validity: Some((validity.0, validity.1 + start)),
            },
            None => NullableBitmap {
                values,
                validity: None,
            },
        }
    }

    // The 64 values from the first on. Past the bytes they have no meaning.
    fn word(self) -> NullableWord
        ensures { AreWordsOf (nullable_window self.entry) result.trues result.falses }
    {
        let values = word_at(self.values.0, self.values.1);
        match self.validity {
            Some(validity) => NullableWord::new(values, word_at(validity.0, validity.1)),
            None => NullableWord::new(values, u64::MAX),
        }
    }
}

/// What the table of `C` has for the first `count` values of `a` and of `b`, in the lowest bits of a word:
/// where it is true, and where it is valid. The bits above have no meaning.
pub fn combine_kleene_word<C: KleeneOp>(
    a: NullableBitmap<'_>,
    b: NullableBitmap<'_>,
    count: usize,
) -> (u64, u64)
    requires { count ≤ 64 }
    ensures values { take count (word_bits result.0) ≡ is_true_of (combined_nullable C.table
        (nullable_bitmap a.entry count) (nullable_bitmap b.entry count)) }
    ensures validity { take count (word_bits result.1) ≡ is_valid_of (combined_nullable C.table
        (nullable_bitmap a.entry count) (nullable_bitmap b.entry count)) }
{
    let word = C::of(a.word(), b.word());
    (word.trues, word.valid())
}

// The bits of the values, and those of their validity, where a value is valid too if its bit of `valid` is
// set, one of each 64. Where there is no validity, the values stand in its place, and all are valid. So one
// loop serves lists with a validity and without one.
#[derive(Clone, Copy)]
struct NullableBits<'a> {
    values: Bits<'a>,
    validity: Bits<'a>,
    valid: u64,
}

impl<'a> NullableBits<'a> {
    // The bits of some bytes.
    fn new(list: NullableBitmap<'a>) -> NullableBits<'a>
        requires { HasValues list 0 }
        ensures list { (n k : ℕ) → k < n
            → get_or (nullable_bitmap list.entry n) k None ≡ value_at result k }
        ensures within { (n : ℕ) → HasValues list.entry n → AreWithinBytes result n }
    {
        let values = Bits::new(list.values.0, list.values.1);
        match list.validity {
            Some(validity) => NullableBits {
                values,
                validity: Bits::new(validity.0, validity.1),
                valid: 0,
            },
            None => NullableBits {
                values,
                validity: values,
                valid: u64::MAX,
            },
        }
    }

    // Whether both begin at a whole byte.
    #[inline]
    fn begin_whole(self) -> bool
        ensures values { result ≡ true → self.entry.values.low ≡ 0 }
        ensures validity { result ≡ true → self.entry.validity.low ≡ 0 }
    {
        self.values.low == 0 && self.validity.low == 0
    }

    // How many of the whole words of both have another one beside them.
    #[inline]
    fn neighbors(self) -> usize
        ensures { result ≡ min (length self.entry.values.bytes.now / 8 - 1)
            (length self.entry.validity.bytes.now / 8 - 1) }
    {
        self.values.neighbors().min(self.validity.neighbors())
    }

    // The 64 values of word `i`.
    #[inline]
    fn word<R: ReadWord>(self, i: usize) -> NullableWord
        requires values { R.can_read self.values.bytes.now self.values.low i }
        requires validity { R.can_read self.validity.bytes.now self.validity.low i }
        ensures { AreWordsOf (word_values self.entry i) result.trues result.falses }
    {
        NullableWord::new(
            R::word(self.values, i),
            R::word(self.validity, i) | self.valid,
        )
    }
}

// Writes the first words.
fn extend_whole<C: KleeneOp>(
    a: NullableBits<'_>,
    b: NullableBits<'_>,
    words: usize,
    values: &mut [u8],
    validity: &mut [u8],
)
    requires a_within { AreWithinBytes a (64 * words) }
    requires b_within { AreWithinBytes b (64 * words) }
    requires room { 8 * words ≤ length values.old }
    requires validity_room { 8 * words ≤ length validity.old }
    ensures { IsOfTable C.table (value_at a.entry) (value_at b.entry)
        values.new validity.new (64 * words) }
{
    if a.begin_whole() && b.begin_whole() {
        extend::<C, Whole>(a, b, 0, words, values, validity);
    } else {
        let inner = a.neighbors().min(b.neighbors()).min(words);
        extend_inner::<C>(a, b, inner, values, validity);
        extend::<C, Unaligned>(a, b, inner, words, values, validity);
    }
}

// Writes words beside which there is another one.
// rust: shifted level
fn extend_inner<C: KleeneOp>(
    a: NullableBits<'_>,
    b: NullableBits<'_>,
    words: usize,
    values: &mut [u8],
    validity: &mut [u8],
)
    requires reads_a { CanReadBoth IsInTwoWords a words }
    requires reads_b { CanReadBoth IsInTwoWords b words }
    requires room { 8 * words ≤ length values.old }
    requires validity_room { 8 * words ≤ length validity.old }
    ensures { IsOfTable C.table (value_at a.entry) (value_at b.entry)
        values.new validity.new (64 * words) }
{
    extend::<C, Neighbors>(a, b, 0, words, values, validity);
}

// Writes words `from` to `to`, where those before are written.
fn extend<C: KleeneOp, R: ReadWord>(
    a: NullableBits<'_>,
    b: NullableBits<'_>,
    from: usize,
    to: usize,
    values: &mut [u8],
    validity: &mut [u8],
)
    requires reads_a { CanReadBoth R.can_read a to }
    requires reads_b { CanReadBoth R.can_read b to }
    requires ordered { from ≤ to }
    requires room { 8 * to ≤ length values.old }
    requires validity_room { 8 * to ≤ length validity.old }
    requires before { IsOfTable C.table (value_at a) (value_at b)
        values.old validity.old (64 * from) }
    ensures { IsOfTable C.table (value_at a.entry) (value_at b.entry)
        values.new validity.new (64 * to) }
{
    for i in from..to {
        let word = C::of(a.word::<R>(i), b.word::<R>(i));
        set_word(values, i, word.trues);
        set_word(validity, i, word.valid());
    }
}

/// Writes what the table of `C` has for each of the `len` values of `a` and of `b` to the front of
/// `values` and `validity`, which are room of whole words: eight bytes for each started 64 values. Where
/// the table has a null, the value is false. The bits past the list have no meaning.
// rust: wide level if len > 128
pub fn combine_kleene<C: KleeneOp>(
    a: NullableBitmap<'_>,
    b: NullableBitmap<'_>,
    len: usize,
    values: &mut [u8],
    validity: &mut [u8],
)
    requires a_within { HasValues a len }
    requires b_within { HasValues b len }
    requires room { 8 * started_words len ≤ length values.old }
    requires validity_room { 8 * started_words len ≤ length validity.old }
    ensures values { bitmap values.new 0 len ≡ is_true_of (combined_nullable C.table
        (nullable_bitmap a.entry len) (nullable_bitmap b.entry len)) }
    ensures validity { bitmap validity.new 0 len ≡ is_valid_of (combined_nullable C.table
        (nullable_bitmap a.entry len) (nullable_bitmap b.entry len)) }
{
    let (a, b) = (NullableBits::new(a), NullableBits::new(b));
    let (whole, words) = (len / 64, started_words(len));
    extend_whole::<C>(a, b, whole, values, validity);
    extend::<C, Anywhere>(a, b, whole, words, values, validity);
}
