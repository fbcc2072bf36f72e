//! The rows at the true values of a bitmap, by the size of a row.

ghost use Rattle.mask_bits.specs.Bitmap.{bitmap};
ghost use Rattle.mask_bits.specs.Buffer.{IsWithinBytes};
ghost use Rattle.mask_c.specs.Bitmap.{AreChosen, CanChoose};

use mask_bits::BitChunks;
use mask_bits::choose::rows::{choose_rows, choose_small_rows};
use mask_bits::choose::small_rows::MoveRows;
use mask_bits::output::Lent;
use mask_bits::processor::{Moved, moves_bytes};

// From so many true values of a word on, several rows of one byte are moved at once. Fewer take less time one by one.
const FEW_BYTES: usize = 6;

// Words have so many true values where one value in eight is true. Where they have fewer, to count those of each word
// takes longer than is gained.
const MANY: u32 = 64 / 8;

// So many of the 64 indices within a word are true in one of four words, where one value in eight is true by chance:
// each is with a probability of 1 - (7 / 8)^4.
const MANY_OF_FOUR: u32 = 26;

/// A row of 16 bytes.
#[derive(Clone, Copy)]
#[repr(C)]
pub struct RowMask16 {
    pub first: u64,
    pub second: u64,
}

/// Writes the rows at the true values, in their order, to the front of `out`, and returns how many
/// they are. A row has 1 byte. Behind these rows, `out` may have others than before.
///
/// Asks that `rows_count == len`, and that `out_count` is at least the count of the true values.
#[unsafe(no_mangle)]
pub extern "C" fn row_mask_choose_1(
    bytes: &[u8],
    offset: usize,
    len: usize,
    rows: &[u8],
    out: &mut [u8],
) -> usize
    requires { CanChoose bytes.now offset len rows.now out.old }
    ensures { AreChosen rows.now (bitmap bytes.now offset len) out.new result }
{
    if moves_bytes() && have_many(bytes, offset, len) {
        choose_small::<FEW_BYTES, Moved, _>(bytes, offset, len, rows, out)
    } else {
        choose_to_front(bytes, offset, len, rows, out)
    }
}

/// Writes the rows at the true values, in their order, to the front of `out`, and returns how many
/// they are. A row has 2 bytes. Behind these rows, `out` may have others than before.
///
/// Asks that `rows_count == len`, and that `out_count` is at least the count of the true values.
#[unsafe(no_mangle)]
pub extern "C" fn row_mask_choose_2(
    bytes: &[u8],
    offset: usize,
    len: usize,
    rows: &[u16],
    out: &mut [u16],
) -> usize
    requires { CanChoose bytes.now offset len rows.now out.old }
    ensures { AreChosen rows.now (bitmap bytes.now offset len) out.new result }
{
    choose_to_front(bytes, offset, len, rows, out)
}

/// Writes the rows at the true values, in their order, to the front of `out`, and returns how many
/// they are. A row has 4 bytes. Behind these rows, `out` may have others than before.
///
/// Asks that `rows_count == len`, and that `out_count` is at least the count of the true values.
#[unsafe(no_mangle)]
pub extern "C" fn row_mask_choose_4(
    bytes: &[u8],
    offset: usize,
    len: usize,
    rows: &[u32],
    out: &mut [u32],
) -> usize
    requires { CanChoose bytes.now offset len rows.now out.old }
    ensures { AreChosen rows.now (bitmap bytes.now offset len) out.new result }
{
    choose_to_front(bytes, offset, len, rows, out)
}

/// Writes the rows at the true values, in their order, to the front of `out`, and returns how many
/// they are. A row has 8 bytes. Behind these rows, `out` may have others than before.
///
/// Asks that `rows_count == len`, and that `out_count` is at least the count of the true values.
#[unsafe(no_mangle)]
pub extern "C" fn row_mask_choose_8(
    bytes: &[u8],
    offset: usize,
    len: usize,
    rows: &[u64],
    out: &mut [u64],
) -> usize
    requires { CanChoose bytes.now offset len rows.now out.old }
    ensures { AreChosen rows.now (bitmap bytes.now offset len) out.new result }
{
    choose_to_front(bytes, offset, len, rows, out)
}

/// Writes the rows at the true values, in their order, to the front of `out`, and returns how many
/// they are. A row has 16 bytes. Behind these rows, `out` may have others than before.
///
/// Asks that `rows_count == len`, and that `out_count` is at least the count of the true values.
#[unsafe(no_mangle)]
pub extern "C" fn row_mask_choose_16(
    bytes: &[u8],
    offset: usize,
    len: usize,
    rows: &[RowMask16],
    out: &mut [RowMask16],
) -> usize
    requires { CanChoose bytes.now offset len rows.now out.old }
    ensures { AreChosen rows.now (bitmap bytes.now offset len) out.new result }
{
    choose_to_front(bytes, offset, len, rows, out)
}

// The rows at the true values.
// rust: replaced by native::choose_to_front
// rust: visible
#[inline]
fn choose_to_front<T: Copy>(
    bytes: &[u8],
    offset: usize,
    len: usize,
    rows: &[T],
    out: &mut [T],
) -> usize
    requires { CanChoose bytes.now offset len rows.now out.old }
    ensures { AreChosen rows.now (bitmap bytes.now offset len) out.new result }
{
    let chunks = BitChunks::new(bytes, offset, len);
    let mut room = Lent { out, at: 0 };
    choose_rows::<0, _, _>(&mut room, rows, &chunks);
    room.at
}

// The same of small rows, of which several are moved at once where a word has `FEW` true values or more. It isn't
// inlined: in one function with the loop above, that one takes longer.
// rust: level to v4
#[inline(never)]
fn choose_small<const FEW: usize, M: MoveRows<T>, T: Copy>(
    bytes: &[u8],
    offset: usize,
    len: usize,
    rows: &[T],
    out: &mut [T],
) -> usize
    requires { CanChoose bytes.now offset len rows.now out.old }
    ensures { AreChosen rows.now (bitmap bytes.now offset len) out.new result }
{
    let chunks = BitChunks::new(bytes, offset, len);
    let mut room = Lent { out, at: 0 };
    choose_small_rows::<FEW, M, _, _>(&mut room, rows, &chunks);
    room.at
}

// Whether words have `MANY` true values on the average, by the indices within a word that are true in one of four words,
// or by the first word of fewer.
// rust: visible
#[inline]
fn have_many(bytes: &[u8], offset: usize, len: usize) -> bool
    requires { IsWithinBytes bytes.now offset len }
{
    let chunks = BitChunks::new(bytes, offset, len);
    let whole = chunks.len();
    if whole < 4 {
        return whole > 0 && chunks.word(0).count_ones() >= MANY;
    }
    let apart = whole / 4;
    let first = chunks.word(0) | chunks.word(apart);
    let last = chunks.word(2 * apart) | chunks.word(3 * apart);
    (first | last).count_ones() >= MANY_OF_FOUR
}
