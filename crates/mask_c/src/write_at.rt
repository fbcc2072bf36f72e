//! A bitmap written at a place within another.

ghost use Rattle.std.specs.Prelude.{◌≡◌, ◌+◌, ◌*◌, ◌%◌, ◌^◌, ◌<◌, ◌≤◌, ◌⊎◌, ℕ, length};
ghost use Rattle.std.specs.Int.{bit_at};
ghost use Rattle.mask_bits.specs.Bitmap.{bitmap};
ghost use Rattle.mask_bits.specs.Buffer.{IsWithinBytes, backing_bit};
ghost use Rattle.mask_c.specs.Bitmap.{IsWritten};

use crate::pointwise::row_mask_copy;
use mask_bits::words::word_at;

/// Writes the values of `more` to the bits of `bytes` from position `start` on, and leaves all others as they
/// were. Of a bitmap with an offset, value `i` is the bit at position `offset + i`.
///
/// Asks that `start + more_len` doesn't overflow, and that `start + more_len <= 8 * bytes_size`.
#[unsafe(no_mangle)]
pub extern "C" fn row_mask_write_at(
    bytes: &mut [u8],
    start: usize,
    more: &[u8],
    more_offset: usize,
    more_len: usize,
)
    requires more { IsWithinBytes more.now more_offset more_len }
    requires fits { start + more_len < 2 ^ 64 }
    requires within { start + more_len ≤ 8 * length bytes.old }
    ensures inside { bitmap bytes.new start more_len ≡ bitmap more.now more_offset more_len }
    ensures outside { (p : ℕ) → ((p < start) ⊎ (start + more_len ≤ p))
        → backing_bit bytes.new p ≡ backing_bit bytes.old p }
{
    let front = ((8 - start % 8) % 8).min(more_len);
    write_in_byte(bytes, start, more, more_offset, front);
    if front == more_len {
        return;
    }
    let (begin, count) = ((start + front) / 8, (more_len - front) / 8);
    write_bytes(bytes, begin, count, more, more_offset + front);
    let done = front + 8 * count;
    write_in_byte(
        bytes,
        start + done,
        more,
        more_offset + done,
        more_len - done,
    );
}

// Writes whole bytes.
#[inline]
fn write_bytes(bytes: &mut [u8], begin: usize, count: usize, more: &[u8], more_offset: usize)
    requires within { begin + count ≤ length bytes.old }
    requires fits { 8 * (begin + count) < 2 ^ 64 }
    requires more { IsWithinBytes more.now more_offset (8 * count) }
    ensures { IsWritten bytes.old bytes.new (8 * begin) more.now more_offset (8 * count) }
{
    row_mask_copy(
        more,
        more_offset,
        8 * count,
        &mut bytes[begin..begin + count],
    );
}

// Writes values that lie in one byte.
#[inline]
fn write_in_byte(bytes: &mut [u8], start: usize, more: &[u8], more_offset: usize, more_len: usize)
    requires one { start % 8 + more_len ≤ 8 }
    requires within { start + more_len ≤ 8 * length bytes.old }
    requires more { IsWithinBytes more.now more_offset more_len }
    ensures { IsWritten bytes.old bytes.new start more.now more_offset more_len }
{
    if more_len == 0 {
        return;
    }
    let word = word_at(more, more_offset);
    bytes[start / 8] = blend(bytes[start / 8], word, start % 8, more_len);
}

// A byte whose `count` bits from bit `low` on are the lowest of a word.
#[inline]
fn blend(byte: u8, word: u64, low: usize, count: usize) -> u8
    requires { low + count ≤ 8 }
    ensures put { (j : ℕ) → j < count → bit_at result (low + j) ≡ bit_at word j }
    ensures kept { (j : ℕ) → j < 8 → ((j < low) ⊎ (low + count ≤ j)) → bit_at result j ≡ bit_at byte j }
{
    let there: u64 = ((1 << count) - 1) << low;
    let blended = (u64::from(byte) & !there) | ((word << low) & there);
    (blended & 0xFF) as u8
}
