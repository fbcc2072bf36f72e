//! The values of one bitmap at the rows that another chooses.

ghost use Rattle.std.specs.Prelude.{◌≡◌, ◌≤◌, drop, length};
ghost use Rattle.std.specs.Int.{div_ceil};
ghost use Rattle.mask_bits.specs.Bitmap.{bitmap};
ghost use Rattle.mask_bits.specs.Buffer.{IsWithinBytes};
ghost use Rattle.mask_bits.specs.Positions.{chosen, count};
ghost use Rattle.mask_c.specs.Bitmap.{AreClearBehind};

use crate::last::put_remainder;
use mask_bits::BitChunks;
use mask_bits::choose::bits::put_chosen;

/// Writes the values of `values` at the true values of the bitmap, in their order, and returns how many
/// they are. So the validity of a column is filtered with its rows.
///
/// Asks that `out_size >= row_mask_room(count)`, where `count` is the count of the bitmap's true values.
#[unsafe(no_mangle)]
pub extern "C" fn row_mask_choose_bits(
    bytes: &[u8],
    offset: usize,
    len: usize,
    values: &[u8],
    values_offset: usize,
    out: &mut [u8],
) -> usize
    requires bitmap { IsWithinBytes bytes.now offset len }
    requires values { IsWithinBytes values.now values_offset len }
    requires room { div_ceil (count (bitmap bytes.now offset len)) 8 ≤ length out.old }
    ensures values { bitmap out.new 0 result
        ≡ chosen (bitmap values.now values_offset len) (bitmap bytes.now offset len) }
    ensures count { result ≡ count (bitmap bytes.now offset len) }
    ensures clear { AreClearBehind out.new result }
    ensures behind { drop (div_ceil result 8) out.new ≡ drop (div_ceil result 8) out.old }
{
    let masks = BitChunks::new(bytes, offset, len);
    let sources = BitChunks::new(values, values_offset, len);
    let last = put_chosen(&masks, &sources, out);
    put_remainder(out, last.word, last.count);
    last.count
}
