//! Values written behind those of a bitmap.

ghost use Rattle.std.specs.Prelude.{◌≡◌, ◌+◌, ◌-◌, ◌*◌, ◌^◌, ◌<◌, ◌≤◌, ◌++◌, ℕ, drop, length, min};
ghost use Rattle.std.specs.Int.{bit_at, div_ceil};
ghost use Rattle.mask_bits.specs.Bitmap.{bitmap};
ghost use Rattle.mask_bits.specs.Buffer.{IsWithinBytes};
ghost use Rattle.mask_c.specs.Bitmap.{AreClearBehind};

use crate::last::clear_behind;
use crate::pointwise::row_mask_copy;
use mask_bits::words::word_at;

/// Writes the values of `more` behind the first `len` values of `bytes`, which begin at bit 0. So bitmaps
/// are joined by a call for each.
///
/// Asks that `len + more_len` doesn't overflow, and that `bytes_size >= row_mask_room(len + more_len)`.
#[unsafe(no_mangle)]
pub extern "C" fn row_mask_append(
    bytes: &mut [u8],
    len: usize,
    more: &[u8],
    more_offset: usize,
    more_len: usize,
)
    requires more { IsWithinBytes more.now more_offset more_len }
    requires fits { len + more_len < 2 ^ 64 }
    requires room { div_ceil (len + more_len) 8 ≤ length bytes.old }
    ensures values { bitmap bytes.new 0 (len + more_len)
        ≡ bitmap bytes.old 0 len ++ bitmap more.now more_offset more_len }
    ensures clear { AreClearBehind bytes.new (len + more_len) }
    ensures behind { drop (div_ceil (len + more_len) 8) bytes.new
        ≡ drop (div_ceil (len + more_len) 8) bytes.old }
{
    let filled = fill_last(bytes, len, more, more_offset, more_len);
    if filled == more_len {
        clear_behind(bytes, len + more_len);
        return;
    }
    row_mask_copy(
        more,
        more_offset + filled,
        more_len - filled,
        &mut bytes[len.div_ceil(8)..],
    );
}

// Fills up the byte that the last value is in: with the first values of `more`, as many as there are or
// as it takes. Returns how many these are.
#[inline]
fn fill_last(
    bytes: &mut [u8],
    len: usize,
    more: &[u8],
    more_offset: usize,
    more_len: usize,
) -> usize
    requires more { IsWithinBytes more.now more_offset more_len }
    requires room { div_ceil (len + more_len) 8 ≤ length bytes.old }
    ensures count { result ≡ min more_len (8 * div_ceil len 8 - len) }
    ensures values { bitmap bytes.new 0 (len + result)
        ≡ bitmap bytes.old 0 len ++ bitmap more.now more_offset result }
    ensures behind { drop (div_ceil len 8) bytes.new ≡ drop (div_ceil len 8) bytes.old }
{
    let low = len % 8;
    if low == 0 {
        return 0;
    }
    bytes[len / 8] = begun_byte(bytes[len / 8], low, word_at(more, more_offset));
    more_len.min(8 - low)
}

// The lowest `low` bits of a byte, and above them the lowest of a word.
#[inline]
fn begun_byte(byte: u8, low: usize, word: u64) -> u8
    requires { low < 8 }
    ensures kept { (j : ℕ) → j < low → bit_at result j ≡ bit_at byte j }
    ensures put { (j : ℕ) → low + j < 8 → bit_at result (low + j) ≡ bit_at word j }
{
    let kept = u64::from(byte) & ((1 << low) - 1);
    ((kept | (word << low)) & 0xFF) as u8
}
