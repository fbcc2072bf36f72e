//! The end of a bitmap that is written: its last values, and the bits behind them in their byte.

ghost use Rattle.std.specs.Prelude.{◌≡◌, ◌*◌, ◌/◌, ◌≤◌, ℕ, List, drop, length};
ghost use Rattle.std.specs.Int.{div_ceil};
ghost use Rattle.mask_bits.specs.Bitmap.{bitmap};
ghost use Rattle.mask_bits.specs.ChosenBits.{values_so_far};
ghost use Rattle.mask_c.specs.Bitmap.{AreClearBehind};

use mask_bits::unchecked::put_lowest;
use mask_bits::words::low_bits;

// Writes the values of a bitmap of `len` that are behind its whole words: the lowest bits of `word`, with
// zeros up to the end of the last byte that they take, and nothing else.
pub(crate) fn put_remainder(out: &mut [u8], word: u64, len: usize)
    requires room { div_ceil len 8 ≤ length out.old }
    ensures list { bitmap out.new 0 len ≡ values_so_far out.old word len }
    ensures clear { AreClearBehind out.new len }
    ensures behind { (old : List ℕ) → drop (8 * (len / 64)) out.old ≡ drop (8 * (len / 64)) old
        → drop (div_ceil len 8) out.new ≡ drop (div_ceil len 8) old }
{
    if len % 64 == 0 {
        return;
    }
    let (begin, end) = (8 * (len / 64), len.div_ceil(8));
    put_lowest(low_bits(word, len % 64), &mut out[begin..end]);
}

// Clears the bits behind the first `len` in their last byte.
pub(crate) fn clear_behind(bytes: &mut [u8], len: usize)
    requires room { div_ceil len 8 ≤ length bytes.old }
    ensures list { bitmap bytes.new 0 len ≡ bitmap bytes.old 0 len }
    ensures clear { AreClearBehind bytes.new len }
    ensures behind { drop (div_ceil len 8) bytes.new ≡ drop (div_ceil len 8) bytes.old }
{
    if len % 8 != 0 {
        bytes[len / 8] &= (1 << (len % 8)) - 1;
    }
}
