//! A bitmap made of the indices of its true values.

ghost use Rattle.std.specs.Prelude.{◌≡◌, ◌*◌, ◌<◌, ◌≤◌, ℕ, All, drop, length, nat_eq};
ghost use Rattle.std.specs.Int.{div_ceil};
ghost use Rattle.std.specs.List.{list_any};
ghost use Rattle.mask_bits.specs.Bitmap.{bitmap};
ghost use Rattle.mask_bits.specs.Buffer.{backing_bit};
ghost use Rattle.mask_bits.specs.Positions.{true_at};
ghost use Rattle.mask_c.specs.Bitmap.{AreClearBehind};

use mask_bits::row_index::RowIndex;
use mask_bits::write_bits::set_bit;

/// Writes the bitmap of `len` values, from bit 0 on, in which just the values at `indices` are true.
/// Indices may come in any order and more than once.
///
/// Asks that each index is below `len`, and that `out_size >= row_mask_room(len)`.
// rust: level
#[unsafe(no_mangle)]
pub extern "C" fn row_mask_from_indices(indices: &[usize], len: usize, out: &mut [u8])
    requires within { All (λ i. i < len) indices.now }
    requires room { div_ceil len 8 ≤ length out.old }
    ensures values { bitmap out.new 0 len ≡ true_at len indices.now }
    ensures clear { AreClearBehind out.new len }
    ensures behind { drop (div_ceil len 8) out.new ≡ drop (div_ceil len 8) out.old }
{
    set_alone(&mut out[..len.div_ceil(8)], indices);
}

/// As `row_mask_from_indices`, and an index has 4 bytes.
///
/// Asks that each index is below `len`, and that `out_size >= row_mask_room(len)`.
// rust: level
#[unsafe(no_mangle)]
pub extern "C" fn row_mask_from_indices_4(indices: &[u32], len: usize, out: &mut [u8])
    requires within { All (λ i. i < len) indices.now }
    requires room { div_ceil len 8 ≤ length out.old }
    ensures values { bitmap out.new 0 len ≡ true_at len indices.now }
    ensures clear { AreClearBehind out.new len }
    ensures behind { drop (div_ceil len 8) out.new ≡ drop (div_ceil len 8) out.old }
{
    set_alone::<u32>(&mut out[..len.div_ceil(8)], indices);
}

// Sets the bits at these positions, and clears all others.
fn set_alone<N: RowIndex>(bytes: &mut [u8], positions: &[N])
    requires { All (λ p. N.row_number p < 8 * length bytes.old) positions.now }
    ensures { (p : ℕ) → p < 8 * length bytes.old
        → backing_bit bytes.new p ≡ list_any (λ i. nat_eq p (N.row_number i)) positions.now }
{
    bytes.fill(0);
    for position in positions {
        set_bit(bytes, position.get());
    }
}
