//! How many values of a bitmap are true.

ghost use Rattle.std.specs.Prelude.{◌≡◌, ◌≤◌, All, length, map, slice_range};
ghost use Rattle.std.specs.List.Sorted.{IsNonDecreasing};
ghost use Rattle.mask_bits.specs.Bitmap.{bitmap};
ghost use Rattle.mask_bits.specs.Buffer.{IsWithinBytes};
ghost use Rattle.mask_bits.specs.Lists.{and_of};
ghost use Rattle.mask_bits.specs.Positions.{count, count_below};

use mask_bits::combine::And;
use mask_bits::compare::count_true;
use mask_bits::counts::count_bits;

/// How many values are true.
#[unsafe(no_mangle)]
pub extern "C" fn row_mask_count(bytes: &[u8], offset: usize, len: usize) -> usize
    requires { IsWithinBytes bytes.now offset len }
    ensures { result ≡ count (bitmap bytes.now offset len) }
{
    count_bits(bytes, offset, len)
}

/// How many of the values from `start` to `end` are true, the end left out.
///
/// Asks that `start <= end` and `end <= len`.
#[unsafe(no_mangle)]
pub extern "C" fn row_mask_count_range(
    bytes: &[u8],
    offset: usize,
    len: usize,
    start: usize,
    end: usize,
) -> usize
    requires bitmap { IsWithinBytes bytes.now offset len }
    requires ordered { start ≤ end }
    requires within { end ≤ len }
    ensures { result ≡ count (slice_range (bitmap bytes.now offset len) start end) }
{
    count_bits(bytes, offset + start, end - start)
}

/// Writes for each index how many of the values below it are true. Values are counted once for all
/// indices, up to the last of them.
///
/// Asks that the indices ascend (repeats are allowed), that each is at most `len`, and that
/// `out_count == indices_count`.
// rust: level
#[unsafe(no_mangle)]
pub extern "C" fn row_mask_counts_below(
    bytes: &[u8],
    offset: usize,
    len: usize,
    indices: &[usize],
    out: &mut [usize],
)
    requires bitmap { IsWithinBytes bytes.now offset len }
    requires ascending { IsNonDecreasing indices.now }
    requires within { All (λ i. i ≤ len) indices.now }
    requires room { length out.old ≡ length indices.now }
    ensures { out.new ≡ map (count_below (bitmap bytes.now offset len)) indices.now }
{
    let mut from = 0;
    let mut below = 0;
    for (i, index) in indices.iter().enumerate() {
        below += count_bits(bytes, offset + from, *index - from);
        from = *index;
        out[i] = below;
    }
}

/// How many values are true in both.
#[unsafe(no_mangle)]
pub extern "C" fn row_mask_and_count(
    a: &[u8],
    a_offset: usize,
    b: &[u8],
    b_offset: usize,
    len: usize,
) -> usize
    requires a { IsWithinBytes a.now a_offset len }
    requires b { IsWithinBytes b.now b_offset len }
    ensures { result ≡ count (and_of (bitmap a.now a_offset len) (bitmap b.now b_offset len)) }
{
    count_true::<And>(a, a_offset, b, b_offset, len)
}
