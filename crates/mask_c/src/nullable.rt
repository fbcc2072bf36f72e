//! Kleene's tables of truth values with nulls, value by value.

ghost use Rattle.std.specs.Prelude.{◌≡◌, ◌≤◌, ℕ, drop, length};
ghost use Rattle.std.specs.Int.{div_ceil};
ghost use Rattle.mask_bits.specs.Bitmap.{bitmap};
ghost use Rattle.mask_bits.specs.Buffer.{IsWithinBytes};
ghost use Rattle.mask_bits.specs.Kleene.{nullable_bitmap, HasValues};
ghost use Rattle.mask_bits.specs.Nullable.{and_kleene_of, or_kleene_of, combined_nullable, is_true_of, is_valid_of};
ghost use Rattle.mask_c.specs.Bitmap.{AreClearBehind};
ghost use Rattle.mask_c.specs.Nullable.{nullable_in, IsValidityWithin};

use crate::last::put_remainder;
use mask_bits::kleene::{
    KleeneAnd, KleeneOp, KleeneOr, NullableBitmap, combine_kleene, combine_kleene_word,
};

/// Writes SQL's `AND` of values that may be null: true where both are true, false where one is false, and else null. Where
/// it is null, the value that is written is false.
///
/// The other operations on such values are those on bitmaps. Those that are true are `row_mask_and` of the values and
/// the validity, those that are true or null `row_mask_or_not`. `NOT` has the same validity, and its values are
/// `row_mask_and_not` of the validity and the values.
///
/// Asks that `out_size >= row_mask_room(len)` and `out_validity_size >= row_mask_room(len)`.
#[unsafe(no_mangle)]
pub extern "C" fn row_mask_and_kleene(
    a: &[u8],
    a_offset: usize,
    a_validity: &[u8],
    a_validity_offset: usize,
    b: &[u8],
    b_offset: usize,
    b_validity: &[u8],
    b_validity_offset: usize,
    len: usize,
    out: &mut [u8],
    out_validity: &mut [u8],
)
    requires a { IsWithinBytes a.now a_offset len }
    requires a_validity { IsValidityWithin a_validity.now a_validity_offset len }
    requires b { IsWithinBytes b.now b_offset len }
    requires b_validity { IsValidityWithin b_validity.now b_validity_offset len }
    requires room { div_ceil len 8 ≤ length out.old }
    requires validity_room { div_ceil len 8 ≤ length out_validity.old }
    ensures values { bitmap out.new 0 len ≡ is_true_of (and_kleene_of
        (nullable_in a.now a_offset a_validity.now a_validity_offset len)
        (nullable_in b.now b_offset b_validity.now b_validity_offset len)) }
    ensures validity { bitmap out_validity.new 0 len ≡ is_valid_of (and_kleene_of
        (nullable_in a.now a_offset a_validity.now a_validity_offset len)
        (nullable_in b.now b_offset b_validity.now b_validity_offset len)) }
    ensures clear { AreClearBehind out.new len }
    ensures validity_clear { AreClearBehind out_validity.new len }
    ensures behind { drop (div_ceil len 8) out.new ≡ drop (div_ceil len 8) out.old }
    ensures validity_behind { drop (div_ceil len 8) out_validity.new
        ≡ drop (div_ceil len 8) out_validity.old }
{
    let a = with_validity(a, a_offset, a_validity, a_validity_offset);
    let b = with_validity(b, b_offset, b_validity, b_validity_offset);
    write::<KleeneAnd>(a, b, len, out, out_validity);
}

/// Writes SQL's `OR` of values that may be null: true where one is true, false where both are false, and else null. Where
/// it is null, the value that is written is false.
///
/// Asks that `out_size >= row_mask_room(len)` and `out_validity_size >= row_mask_room(len)`.
#[unsafe(no_mangle)]
pub extern "C" fn row_mask_or_kleene(
    a: &[u8],
    a_offset: usize,
    a_validity: &[u8],
    a_validity_offset: usize,
    b: &[u8],
    b_offset: usize,
    b_validity: &[u8],
    b_validity_offset: usize,
    len: usize,
    out: &mut [u8],
    out_validity: &mut [u8],
)
    requires a { IsWithinBytes a.now a_offset len }
    requires a_validity { IsValidityWithin a_validity.now a_validity_offset len }
    requires b { IsWithinBytes b.now b_offset len }
    requires b_validity { IsValidityWithin b_validity.now b_validity_offset len }
    requires room { div_ceil len 8 ≤ length out.old }
    requires validity_room { div_ceil len 8 ≤ length out_validity.old }
    ensures values { bitmap out.new 0 len ≡ is_true_of (or_kleene_of
        (nullable_in a.now a_offset a_validity.now a_validity_offset len)
        (nullable_in b.now b_offset b_validity.now b_validity_offset len)) }
    ensures validity { bitmap out_validity.new 0 len ≡ is_valid_of (or_kleene_of
        (nullable_in a.now a_offset a_validity.now a_validity_offset len)
        (nullable_in b.now b_offset b_validity.now b_validity_offset len)) }
    ensures clear { AreClearBehind out.new len }
    ensures validity_clear { AreClearBehind out_validity.new len }
    ensures behind { drop (div_ceil len 8) out.new ≡ drop (div_ceil len 8) out.old }
    ensures validity_behind { drop (div_ceil len 8) out_validity.new
        ≡ drop (div_ceil len 8) out_validity.old }
{
    let a = with_validity(a, a_offset, a_validity, a_validity_offset);
    let b = with_validity(b, b_offset, b_validity, b_validity_offset);
    write::<KleeneOr>(a, b, len, out, out_validity);
}

// The values with their validity, where there are bytes of one.
fn with_validity<'a>(
    values: &'a [u8],
    offset: usize,
    validity: &'a [u8],
    validity_offset: usize,
) -> NullableBitmap<'a>
    ensures list { (n : ℕ) → nullable_bitmap result n
        ≡ nullable_in values.now offset validity.now validity_offset n }
    ensures within { (n : ℕ) → IsWithinBytes values.now offset n
        → IsValidityWithin validity.now validity_offset n → HasValues result n }
{
    let values = (values, offset);
    if validity.is_empty() {
        NullableBitmap {
            values,
            validity: None,
        }
    } else {
        NullableBitmap {
            values,
            validity: Some((validity, validity_offset)),
        }
    }
}

// What the table of `C` has: whole words by the loop of `mask_bits`, and then the last values, by a word.
fn write<C: KleeneOp>(
    a: NullableBitmap<'_>,
    b: NullableBitmap<'_>,
    len: usize,
    out: &mut [u8],
    out_validity: &mut [u8],
)
    requires a { HasValues a len }
    requires b { HasValues b len }
    requires room { div_ceil len 8 ≤ length out.old }
    requires validity_room { div_ceil len 8 ≤ length out_validity.old }
    ensures values { bitmap out.new 0 len ≡ is_true_of (combined_nullable C.table
        (nullable_bitmap a.entry len) (nullable_bitmap b.entry len)) }
    ensures validity { bitmap out_validity.new 0 len ≡ is_valid_of (combined_nullable C.table
        (nullable_bitmap a.entry len) (nullable_bitmap b.entry len)) }
    ensures clear { AreClearBehind out.new len }
    ensures validity_clear { AreClearBehind out_validity.new len }
    ensures behind { drop (div_ceil len 8) out.new ≡ drop (div_ceil len 8) out.old }
    ensures validity_behind { drop (div_ceil len 8) out_validity.new
        ≡ drop (div_ceil len 8) out_validity.old }
{
    let whole = len / 64;
    let front = 64 * whole;
    combine_kleene::<C>(
        a,
        b,
        front,
        &mut out[..8 * whole],
        &mut out_validity[..8 * whole],
    );
    let last = combine_kleene_word::<C>(a.skip(front), b.skip(front), len % 64);
    put_remainder(out, last.0, len);
    put_remainder(out_validity, last.1, len);
}
