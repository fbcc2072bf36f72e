//! The bitmap that an operation makes of one or two, value by value.

ghost use Rattle.std.specs.Prelude.{◌≡◌, ◌<◌, ◌≤◌, drop, length, take};
ghost use Rattle.std.specs.Int.{div_ceil};
ghost use Rattle.mask_bits.specs.Bitmap.{bitmap};
ghost use Rattle.mask_bits.specs.Buffer.{IsWithinBytes};
ghost use Rattle.mask_bits.specs.Lists.{and_of, or_of, and_not_of, combined, not_of, xor_of};
ghost use Rattle.mask_bits.specs.Words.{word_bits};
ghost use Rattle.mask_c.specs.Bitmap.{AreClearBehind};

use crate::last::put_remainder;
use mask_bits::combine::{And, AndNot, BitOp, Not, Or, OrNot, Xor, combine};
use mask_bits::words::word_at;

// The first, whatever the second is.
#[derive(Drop)]
struct First;

impl BitOp for First {
    ghost of_bits = { λ x y. x };

    #[inline]
    fn of(x: u64, _y: u64) -> u64 {
        x
    }
}

/// Writes the values that are true in both.
///
/// Asks that `out_size >= row_mask_room(len)`.
#[unsafe(no_mangle)]
pub extern "C" fn row_mask_and(
    a: &[u8],
    a_offset: usize,
    b: &[u8],
    b_offset: usize,
    len: usize,
    out: &mut [u8],
)
    requires a { IsWithinBytes a.now a_offset len }
    requires b { IsWithinBytes b.now b_offset len }
    requires room { div_ceil len 8 ≤ length out.old }
    ensures values { bitmap out.new 0 len
        ≡ and_of (bitmap a.now a_offset len) (bitmap b.now b_offset len) }
    ensures clear { AreClearBehind out.new len }
    ensures behind { drop (div_ceil len 8) out.new ≡ drop (div_ceil len 8) out.old }
{
    write::<And>(a, a_offset, b, b_offset, len, out);
}

/// Writes the values that are true in one or in both.
///
/// Asks that `out_size >= row_mask_room(len)`.
#[unsafe(no_mangle)]
pub extern "C" fn row_mask_or(
    a: &[u8],
    a_offset: usize,
    b: &[u8],
    b_offset: usize,
    len: usize,
    out: &mut [u8],
)
    requires a { IsWithinBytes a.now a_offset len }
    requires b { IsWithinBytes b.now b_offset len }
    requires room { div_ceil len 8 ≤ length out.old }
    ensures values { bitmap out.new 0 len
        ≡ or_of (bitmap a.now a_offset len) (bitmap b.now b_offset len) }
    ensures clear { AreClearBehind out.new len }
    ensures behind { drop (div_ceil len 8) out.new ≡ drop (div_ceil len 8) out.old }
{
    write::<Or>(a, a_offset, b, b_offset, len, out);
}

/// Writes the values that are true in `a` and not in `b`.
///
/// Asks that `out_size >= row_mask_room(len)`.
#[unsafe(no_mangle)]
pub extern "C" fn row_mask_and_not(
    a: &[u8],
    a_offset: usize,
    b: &[u8],
    b_offset: usize,
    len: usize,
    out: &mut [u8],
)
    requires a { IsWithinBytes a.now a_offset len }
    requires b { IsWithinBytes b.now b_offset len }
    requires room { div_ceil len 8 ≤ length out.old }
    ensures values { bitmap out.new 0 len
        ≡ and_not_of (bitmap a.now a_offset len) (bitmap b.now b_offset len) }
    ensures clear { AreClearBehind out.new len }
    ensures behind { drop (div_ceil len 8) out.new ≡ drop (div_ceil len 8) out.old }
{
    write::<AndNot>(a, a_offset, b, b_offset, len, out);
}

/// Writes the values that are true in `a` or false in `b`: of values and their validity those that are true or null.
///
/// Asks that `out_size >= row_mask_room(len)`.
#[unsafe(no_mangle)]
#[tactic(auto, using(crate::proofs::BitmapLemmas::or_of_not))]
pub extern "C" fn row_mask_or_not(
    a: &[u8],
    a_offset: usize,
    b: &[u8],
    b_offset: usize,
    len: usize,
    out: &mut [u8],
)
    requires a { IsWithinBytes a.now a_offset len }
    requires b { IsWithinBytes b.now b_offset len }
    requires room { div_ceil len 8 ≤ length out.old }
    ensures values { bitmap out.new 0 len
        ≡ or_of (bitmap a.now a_offset len) (not_of (bitmap b.now b_offset len)) }
    ensures clear { AreClearBehind out.new len }
    ensures behind { drop (div_ceil len 8) out.new ≡ drop (div_ceil len 8) out.old }
{
    write::<OrNot>(a, a_offset, b, b_offset, len, out);
}

/// Writes the values that are true in one and not in the other.
///
/// Asks that `out_size >= row_mask_room(len)`.
#[unsafe(no_mangle)]
pub extern "C" fn row_mask_xor(
    a: &[u8],
    a_offset: usize,
    b: &[u8],
    b_offset: usize,
    len: usize,
    out: &mut [u8],
)
    requires a { IsWithinBytes a.now a_offset len }
    requires b { IsWithinBytes b.now b_offset len }
    requires room { div_ceil len 8 ≤ length out.old }
    ensures values { bitmap out.new 0 len
        ≡ xor_of (bitmap a.now a_offset len) (bitmap b.now b_offset len) }
    ensures clear { AreClearBehind out.new len }
    ensures behind { drop (div_ceil len 8) out.new ≡ drop (div_ceil len 8) out.old }
{
    write::<Xor>(a, a_offset, b, b_offset, len, out);
}

/// Writes each value negated.
///
/// Asks that `out_size >= row_mask_room(len)`.
#[unsafe(no_mangle)]
#[tactic(auto, using(mask_bits::proofs::Lists::BooleanLemmas::combined_itself))]
pub extern "C" fn row_mask_not(bytes: &[u8], offset: usize, len: usize, out: &mut [u8])
    requires bitmap { IsWithinBytes bytes.now offset len }
    requires room { div_ceil len 8 ≤ length out.old }
    ensures values { bitmap out.new 0 len ≡ not_of (bitmap bytes.now offset len) }
    ensures clear { AreClearBehind out.new len }
    ensures behind { drop (div_ceil len 8) out.new ≡ drop (div_ceil len 8) out.old }
{
    write::<Not>(bytes, offset, bytes, offset, len, out);
}

/// Writes the same values, from bit 0 on.
///
/// Asks that `out_size >= row_mask_room(len)`.
#[unsafe(no_mangle)]
#[tactic(auto, using(crate::proofs::BitmapLemmas::first_of_itself))]
pub extern "C" fn row_mask_copy(bytes: &[u8], offset: usize, len: usize, out: &mut [u8])
    requires bitmap { IsWithinBytes bytes.now offset len }
    requires room { div_ceil len 8 ≤ length out.old }
    ensures values { bitmap out.new 0 len ≡ bitmap bytes.now offset len }
    ensures clear { AreClearBehind out.new len }
    ensures behind { drop (div_ceil len 8) out.new ≡ drop (div_ceil len 8) out.old }
{
    write::<First>(bytes, offset, bytes, offset, len, out);
}

// The values that `C` makes of two bitmaps: whole words by the loop of `mask_bits`, and then the last
// values, by a word.
fn write<C: BitOp>(a: &[u8], a_offset: usize, b: &[u8], b_offset: usize, len: usize, out: &mut [u8])
    requires a { IsWithinBytes a.now a_offset len }
    requires b { IsWithinBytes b.now b_offset len }
    requires room { div_ceil len 8 ≤ length out.old }
    ensures values { bitmap out.new 0 len
        ≡ combined C.of_bits (bitmap a.now a_offset len) (bitmap b.now b_offset len) }
    ensures clear { AreClearBehind out.new len }
    ensures behind { drop (div_ceil len 8) out.new ≡ drop (div_ceil len 8) out.old }
{
    let whole = len / 64;
    let front = 64 * whole;
    combine::<C>(a, a_offset, b, b_offset, front, &mut out[..8 * whole]);
    let last = combine_remainder::<C>(a, a_offset + front, b, b_offset + front, len % 64);
    put_remainder(out, last, len);
}

// A word whose lowest `rest` bits are the values that `C` makes of so many.
#[inline(always)]
fn combine_remainder<C: BitOp>(
    a: &[u8],
    a_offset: usize,
    b: &[u8],
    b_offset: usize,
    rest: usize,
) -> u64
    requires { rest < 64 }
    ensures { take rest (word_bits result)
        ≡ combined C.of_bits (bitmap a.now a_offset rest) (bitmap b.now b_offset rest) }
{
    // past the last byte nothing is read
    if rest == 0 {
        0
    } else {
        C::of(word_at(a, a_offset), word_at(b, b_offset))
    }
}
