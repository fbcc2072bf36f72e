//! A range of bits written with one value, in place.

ghost use Rattle.std.specs.Prelude.{◌≡◌, ◌+◌, ◌*◌, ◌<◌, ◌≤◌, ◌⊎◌, ℕ, length};
ghost use Rattle.mask_bits.specs.Buffer.{backing_bit};
ghost use Rattle.mask_c.specs.Bitmap.{IsFilled};

use mask_bits::write_bits::{clear_bit, set_bit};

/// Writes `value` to the bits from position `start` to `end`, the end left out, and leaves all others as they
/// were. Of a bitmap with an offset, value `i` is the bit at position `offset + i`.
///
/// Asks that `start <= end` and `end <= 8 * bytes_size`.
#[unsafe(no_mangle)]
pub extern "C" fn row_mask_fill_range(bytes: &mut [u8], start: usize, end: usize, value: bool)
    requires ordered { start ≤ end }
    requires within { end ≤ 8 * length bytes.old }
    ensures inside { (p : ℕ) → start ≤ p → p < end → backing_bit bytes.new p ≡ value }
    ensures outside { (p : ℕ) → ((p < start) ⊎ (end ≤ p))
        → backing_bit bytes.new p ≡ backing_bit bytes.old p }
{
    let (first, last) = (start.div_ceil(8), end / 8);
    if first >= last {
        fill_bits(bytes, start, end, value);
        return;
    }
    fill_bits(bytes, start, 8 * first, value);
    fill_bytes(bytes, first, last, value);
    fill_bits(bytes, 8 * last, end, value);
}

// Fills bit by bit.
fn fill_bits(bytes: &mut [u8], start: usize, end: usize, value: bool)
    requires ordered { start ≤ end }
    requires within { end ≤ 8 * length bytes.old }
    ensures { IsFilled bytes.old bytes.new start end value }
{
    for position in start..end {
        fill_bit(bytes, position, value);
    }
}

#[inline]
#[tactic(auto, using(crate::proofs::FillLemmas::filled_set, crate::proofs::FillLemmas::filled_clear))]
fn fill_bit(bytes: &mut [u8], position: usize, value: bool)
    requires { position < 8 * length bytes.old }
    ensures { IsFilled bytes.old bytes.new position (position + 1) value }
{
    if value {
        set_bit(bytes, position);
    } else {
        clear_bit(bytes, position);
    }
}

// Fills whole bytes.
fn fill_bytes(bytes: &mut [u8], first: usize, last: usize, value: bool)
    requires ordered { first ≤ last }
    requires within { last ≤ length bytes.old }
    ensures { IsFilled bytes.old bytes.new (8 * first) (8 * last) value }
{
    if value {
        bytes[first..last].fill(0xFF);
    } else {
        bytes[first..last].fill(0);
    }
}
