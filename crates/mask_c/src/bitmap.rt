//! What a bitmap is, and the room for one.

ghost use Rattle.std.specs.Prelude.{◌≡◌, ◌↔◌, ◌<◌, IsTrue, Some, slice_get};
ghost use Rattle.std.specs.Int.{div_ceil};
ghost use Rattle.mask_bits.specs.Bitmap.{bitmap};
ghost use Rattle.mask_bits.specs.Buffer.{IsWithinBytes};

/// Whether the `len` bits from bit `offset` on are within the bytes, as each other call on a bitmap takes for granted.
#[unsafe(no_mangle)]
pub extern "C" fn row_mask_is_within(bytes: &[u8], offset: usize, len: usize) -> bool
    ensures { IsTrue result ↔ IsWithinBytes bytes.now offset len }
{
    len <= usize::MAX - offset && (offset + len).div_ceil(8) <= bytes.len()
}

/// How many bytes a bitmap of `len` values takes from bit 0 on: `(len + 7) / 8`, which this call
/// computes without a sum that could wrap.
#[unsafe(no_mangle)]
pub extern "C" fn row_mask_room(len: usize) -> usize
    ensures { result ≡ div_ceil len 8 }
{
    len.div_ceil(8)
}

/// Value `i`.
///
/// Asks that `i < len`.
#[unsafe(no_mangle)]
pub extern "C" fn row_mask_value(bytes: &[u8], offset: usize, len: usize, i: usize) -> bool
    requires bitmap { IsWithinBytes bytes.now offset len }
    requires within { i < len }
    ensures { slice_get (bitmap bytes.now offset len) i ≡ Some result }
{
    let position = offset + i;
    (bytes[position / 8] >> (position % 8)) & 1 == 1
}
