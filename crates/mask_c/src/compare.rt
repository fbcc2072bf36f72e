//! Two bitmaps of one length beside each other.

ghost use Rattle.std.specs.Prelude.{◌≡◌, ◌↔◌, ◌<◌, IsTrue};
ghost use Rattle.mask_bits.specs.Bitmap.{bitmap};
ghost use Rattle.mask_bits.specs.Buffer.{IsWithinBytes};
ghost use Rattle.mask_bits.specs.Lists.{and_of};
ghost use Rattle.mask_bits.specs.Positions.{count};
ghost use Rattle.mask_c.specs.Bitmap.{IsSubset};

use mask_bits::combine::{And, AndNot};
use mask_bits::compare::{none_true, same_bits};

/// Whether two bitmaps of one length have the same values.
#[unsafe(no_mangle)]
pub extern "C" fn row_mask_equal(
    a: &[u8],
    a_offset: usize,
    b: &[u8],
    b_offset: usize,
    len: usize,
) -> bool
    requires a { IsWithinBytes a.now a_offset len }
    requires b { IsWithinBytes b.now b_offset len }
    ensures { IsTrue result ↔ (bitmap a.now a_offset len ≡ bitmap b.now b_offset len) }
{
    same_bits(a, a_offset, b, b_offset, len)
}

/// Whether each true value of `a` is true in `b`.
#[unsafe(no_mangle)]
pub extern "C" fn row_mask_is_subset(
    a: &[u8],
    a_offset: usize,
    b: &[u8],
    b_offset: usize,
    len: usize,
) -> bool
    requires a { IsWithinBytes a.now a_offset len }
    requires b { IsWithinBytes b.now b_offset len }
    ensures { IsTrue result ↔ IsSubset (bitmap a.now a_offset len) (bitmap b.now b_offset len) }
{
    none_true::<AndNot>(a, a_offset, b, b_offset, len)
}

/// Whether some value is true in both.
#[unsafe(no_mangle)]
pub extern "C" fn row_mask_intersects(
    a: &[u8],
    a_offset: usize,
    b: &[u8],
    b_offset: usize,
    len: usize,
) -> bool
    requires a { IsWithinBytes a.now a_offset len }
    requires b { IsWithinBytes b.now b_offset len }
    ensures { IsTrue result
        ↔ (0 < count (and_of (bitmap a.now a_offset len) (bitmap b.now b_offset len))) }
{
    !none_true::<And>(a, a_offset, b, b_offset, len)
}
