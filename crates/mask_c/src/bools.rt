//! A bitmap made of truth values, or narrowed by them.

ghost use Rattle.std.specs.Prelude.{◌≡◌, ◌*◌, ◌≤◌, drop, length};
ghost use Rattle.std.specs.Int.{div_ceil};
ghost use Rattle.mask_bits.specs.Bitmap.{bitmap};
ghost use Rattle.mask_bits.specs.Lists.{and_of};
ghost use Rattle.mask_c.specs.Bitmap.{AreClearBehind, IsNarrowed};

use crate::last::put_remainder;
use mask_bits::bools::{put_bools, word_of_bools};
use mask_bits::words::{set_word, word_at, word_of};

/// Writes truth values as a bitmap, from bit 0 on.
///
/// Asks that `out_size >= row_mask_room(values_count)`.
#[unsafe(no_mangle)]
pub extern "C" fn row_mask_from_bools(values: &[bool], out: &mut [u8])
    requires { div_ceil (length values.now) 8 ≤ length out.old }
    ensures values { bitmap out.new 0 (length values.now) ≡ values.now }
    ensures clear { AreClearBehind out.new (length values.now) }
    ensures behind { drop (div_ceil (length values.now) 8) out.new
        ≡ drop (div_ceil (length values.now) 8) out.old }
{
    let whole = values.len() / 64;
    put_bools(&mut out[..8 * whole], &values[..64 * whole]);
    put_remainder(out, word_of_bools(&values[64 * whole..]), values.len());
}

/// Writes the values that are true in both a bitmap and a list of truth values in the place of the bitmap, `a`, which begins
/// at bit 0 and is as long as the list.
///
/// Asks that `a_size >= row_mask_room(values_count)`.
#[unsafe(no_mangle)]
pub extern "C" fn row_mask_and_bools_in_place(a: &mut [u8], values: &[bool])
    requires { div_ceil (length values.now) 8 ≤ length a.old }
    ensures values { bitmap a.new 0 (length values.now)
        ≡ and_of (bitmap a.old 0 (length values.now)) values.now }
    ensures clear { AreClearBehind a.new (length values.now) }
    ensures behind { drop (div_ceil (length values.now) 8) a.new
        ≡ drop (div_ceil (length values.now) 8) a.old }
{
    let whole = values.len() / 64;
    let last = word_at(a, 64 * whole) & word_of_bools(&values[64 * whole..]);
    and_words(&mut a[..8 * whole], &values[..64 * whole], whole);
    put_remainder(a, last, values.len());
}

// Clears each bit of the first words whose value is false.
// rust: level
fn and_words(bytes: &mut [u8], values: &[bool], words: usize)
    requires room { 8 * words ≤ length bytes.old }
    requires values { 64 * words ≤ length values.now }
    ensures { IsNarrowed bytes.old bytes.new values.now (64 * words) }
{
    for i in 0..words {
        let word = word_of(bytes, i) & word_of_bools(&values[64 * i..64 * i + 64]);
        set_word(bytes, i, word);
    }
}
