//! The bitmap that an operation makes of one or two, written in the place of the first.

ghost use Rattle.std.specs.Prelude.{◌≡◌, ◌≤◌, drop, length};
ghost use Rattle.std.specs.Int.{div_ceil};
ghost use Rattle.mask_bits.specs.Bitmap.{bitmap};
ghost use Rattle.mask_bits.specs.Buffer.{IsWithinBytes};
ghost use Rattle.mask_bits.specs.Lists.{and_of, or_of, and_not_of, combined, not_of, xor_of};
ghost use Rattle.mask_c.specs.Bitmap.{AreClearBehind};

use crate::last::clear_behind;
use mask_bits::combine::{And, AndNot, BitOp, Or, Xor, combine_in_place, negate_in_place};

/// Writes the values that are true in both in the place of `a`, which begins at bit 0.
///
/// Asks that `a_size >= row_mask_room(len)`.
#[unsafe(no_mangle)]
pub extern "C" fn row_mask_and_in_place(a: &mut [u8], b: &[u8], b_offset: usize, len: usize)
    requires room { div_ceil len 8 ≤ length a.old }
    requires b { IsWithinBytes b.now b_offset len }
    ensures values { bitmap a.new 0 len ≡ and_of (bitmap a.old 0 len) (bitmap b.now b_offset len) }
    ensures clear { AreClearBehind a.new len }
    ensures behind { drop (div_ceil len 8) a.new ≡ drop (div_ceil len 8) a.old }
{
    change::<And>(a, b, b_offset, len);
}

/// Writes the values that are true in one or in both in the place of `a`, which begins at bit 0.
///
/// Asks that `a_size >= row_mask_room(len)`.
#[unsafe(no_mangle)]
pub extern "C" fn row_mask_or_in_place(a: &mut [u8], b: &[u8], b_offset: usize, len: usize)
    requires room { div_ceil len 8 ≤ length a.old }
    requires b { IsWithinBytes b.now b_offset len }
    ensures values { bitmap a.new 0 len ≡ or_of (bitmap a.old 0 len) (bitmap b.now b_offset len) }
    ensures clear { AreClearBehind a.new len }
    ensures behind { drop (div_ceil len 8) a.new ≡ drop (div_ceil len 8) a.old }
{
    change::<Or>(a, b, b_offset, len);
}

/// Writes the values that are true in `a` and not in `b` in the place of `a`, which begins at bit 0.
///
/// Asks that `a_size >= row_mask_room(len)`.
#[unsafe(no_mangle)]
pub extern "C" fn row_mask_and_not_in_place(a: &mut [u8], b: &[u8], b_offset: usize, len: usize)
    requires room { div_ceil len 8 ≤ length a.old }
    requires b { IsWithinBytes b.now b_offset len }
    ensures values { bitmap a.new 0 len
        ≡ and_not_of (bitmap a.old 0 len) (bitmap b.now b_offset len) }
    ensures clear { AreClearBehind a.new len }
    ensures behind { drop (div_ceil len 8) a.new ≡ drop (div_ceil len 8) a.old }
{
    change::<AndNot>(a, b, b_offset, len);
}

/// Writes the values that are true in one and not in the other in the place of `a`, which begins at bit 0.
///
/// Asks that `a_size >= row_mask_room(len)`.
#[unsafe(no_mangle)]
pub extern "C" fn row_mask_xor_in_place(a: &mut [u8], b: &[u8], b_offset: usize, len: usize)
    requires room { div_ceil len 8 ≤ length a.old }
    requires b { IsWithinBytes b.now b_offset len }
    ensures values { bitmap a.new 0 len ≡ xor_of (bitmap a.old 0 len) (bitmap b.now b_offset len) }
    ensures clear { AreClearBehind a.new len }
    ensures behind { drop (div_ceil len 8) a.new ≡ drop (div_ceil len 8) a.old }
{
    change::<Xor>(a, b, b_offset, len);
}

/// Writes each value negated in its place. The bitmap begins at bit 0.
///
/// Asks that `bytes_size >= row_mask_room(len)`.
#[unsafe(no_mangle)]
pub extern "C" fn row_mask_not_in_place(bytes: &mut [u8], len: usize)
    requires room { div_ceil len 8 ≤ length bytes.old }
    ensures values { bitmap bytes.new 0 len ≡ not_of (bitmap bytes.old 0 len) }
    ensures clear { AreClearBehind bytes.new len }
    ensures behind { drop (div_ceil len 8) bytes.new ≡ drop (div_ceil len 8) bytes.old }
{
    negate_in_place(&mut bytes[..len.div_ceil(8)], len);
    clear_behind(bytes, len);
}

// The values that `C` makes of two bitmaps, by the loop of `mask_bits`, over just the bytes that the first takes.
fn change<C: BitOp>(a: &mut [u8], b: &[u8], b_offset: usize, len: usize)
    requires room { div_ceil len 8 ≤ length a.old }
    requires b { IsWithinBytes b.now b_offset len }
    ensures values { bitmap a.new 0 len
        ≡ combined C.of_bits (bitmap a.old 0 len) (bitmap b.now b_offset len) }
    ensures clear { AreClearBehind a.new len }
    ensures behind { drop (div_ceil len 8) a.new ≡ drop (div_ceil len 8) a.old }
{
    combine_in_place::<C>(&mut a[..len.div_ceil(8)], b, b_offset, len);
    clear_behind(a, len);
}
