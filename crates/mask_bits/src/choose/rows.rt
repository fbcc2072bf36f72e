//! The rows at the true values of a list, put into room that was made for just these.

ghost use Rattle.std.specs.Prelude.{◌≡◌, ◌+◌, ◌*◌, ◌<◌, ◌≤◌, ℕ, [], length, take};
ghost use Rattle.mask_bits.specs.Positions.{count, chosen};

use crate::choose::rows_of_word::{push_rows_of_word, push_rows_one_by_one};
use crate::choose::small_rows::{MoveRows, push_last_small_rows, push_small_rows};
use crate::chunks::BitChunks;
use crate::output::Room;
use crate::unchecked::part;

/// Puts the rows at the true values, in their order, into room for these, as [`push_rows_of_word`] does.
// rust: level if rows.len() > 128
#[inline(always)]
pub fn choose_rows<const K: usize, T: Copy, R: Room<T>>(
    out: &mut R,
    rows: &[T],
    chunks: &BitChunks<'_>,
)
    requires few { K ≤ 4 }
    requires fitting { length rows.now ≡ length chunks.now }
    requires empty { R.items out.old ≡ [] }
    requires room { count chunks.now ≤ R.capacity (R.kept out.old) }
    ensures rows { R.items out.new ≡ chosen rows.now chunks.now }
    ensures kept { R.kept out.new ≡ R.kept out.old }
{
    let whole = chunks.len();
    // one after another, no row behind a word's own is read, and the last whole word may have none
    let followed = if K == 0 {
        0
    } else {
        rows.len().saturating_sub(1) / 64
    };
    push_whole_words::<K, 65, _, _>(out, rows, chunks, 0, followed);
    push_whole_words::<0, 64, _, _>(out, rows, chunks, followed, whole);
    push_rows_one_by_one(out, &rows[64 * whole..], chunks.remainder_bits());
}

// Puts those of the whole words from `first` to `end`, with `ROWS` rows at hand at each.
#[inline(always)]
fn push_whole_words<const K: usize, const ROWS: usize, T: Copy, R: Room<T>>(
    out: &mut R,
    rows: &[T],
    chunks: &BitChunks<'_>,
    first: usize,
    end: usize,
)
    requires few { K ≤ 4 }
    requires enough { 64 ≤ ROWS }
    requires fitting { length rows.now ≡ length chunks.now }
    requires ordered { first ≤ end }
    requires within { (i : ℕ) → i < end → 64 * i + ROWS ≤ length rows.now }
    requires begun { R.items out.old ≡ chosen (take (64 * first) rows.now) (take (64 * first) chunks.now) }
    requires room { count chunks.now ≤ R.capacity (R.kept out.old) }
    ensures rows { R.items out.new ≡ chosen (take (64 * end) rows.now) (take (64 * end) chunks.now) }
    ensures kept { R.kept out.new ≡ R.kept out.old }
{
    for i in first..end {
        push_rows_of_word::<K, _, _>(out, part(rows, 64 * i, ROWS), chunks.word(i));
    }
}

/// The same of small rows, as [`push_small_rows`] puts those of a word.
#[inline(always)]
pub fn choose_small_rows<const FEW: usize, M: MoveRows<T>, T: Copy, R: Room<T>>(
    out: &mut R,
    rows: &[T],
    chunks: &BitChunks<'_>,
)
    requires fitting { length rows.now ≡ length chunks.now }
    requires empty { R.items out.old ≡ [] }
    requires room { count chunks.now ≤ R.capacity (R.kept out.old) }
    ensures rows { R.items out.new ≡ chosen rows.now chunks.now }
    ensures kept { R.kept out.new ≡ R.kept out.old }
{
    let words = chunks.len();
    for i in 0..words {
        push_small_rows::<FEW, M, _, _>(out, part(rows, 64 * i, 64), chunks.word(i));
    }
    push_last_small_rows::<FEW, M, _, _>(out, &rows[64 * words..], chunks.remainder_bits());
}
