//! The indices of the true values of a bitmap: by number, from an index on, and the last.

ghost use Rattle.std.specs.Prelude.{◌≡◌, ◌-◌, ◌+◌, ◌*◌, ◌<◌, ◌≤◌, ◌^◌, ◌++◌, [], drop, length, map, min, not, slice_index_or, Some, slice_get, take, true};
ghost use Rattle.mask_bits.specs.Bitmap.{bitmap};
ghost use Rattle.mask_bits.specs.Buffer.{IsWithinBytes, backing_bit};
ghost use Rattle.mask_bits.specs.Positions.{IsFirstFrom, count, indices_from, positions};
ghost use Rattle.mask_bits.specs.Words.{bits_of_words, started_words};

use mask_bits::BitChunks;
use mask_bits::blocks::{SPARE, block, ones_in, push_block};
use mask_bits::indices_of_word::put_indices;
use mask_bits::output::{Lent, Room};
use mask_bits::row_index::RowIndex;

/// The index of true value number `n`, counted from 0, and `len` where there is none.
#[unsafe(no_mangle)]
pub extern "C" fn row_mask_select(bytes: &[u8], offset: usize, len: usize, n: usize) -> usize
    requires { IsWithinBytes bytes.now offset len }
    ensures { result ≡ slice_index_or (positions (bitmap bytes.now offset len)) n len }
{
    BitChunks::new(bytes, offset, len).select(n).unwrap_or(len)
}

/// The first index from `from` on whose value is true, and `len` where there is none, also from past the end. So a walk
/// over the true values goes on from one past the index that it got, and ends where it got `len`.
#[unsafe(no_mangle)]
pub extern "C" fn row_mask_next_index(bytes: &[u8], offset: usize, len: usize, from: usize) -> usize
    requires { IsWithinBytes bytes.now offset len }
    ensures { IsFirstFrom (bitmap bytes.now offset len) (min from len) true result }
{
    BitChunks::new(bytes, offset, len).first_from(from.min(len), true)
}

/// The index of the last true value, and `len` where there is none.
#[unsafe(no_mangle)]
pub extern "C" fn row_mask_last_index(bytes: &[u8], offset: usize, len: usize) -> usize
    requires { IsWithinBytes bytes.now offset len }
    ensures { result ≡ slice_index_or (positions (bitmap bytes.now offset len))
        (count (bitmap bytes.now offset len) - 1) len }
{
    BitChunks::new(bytes, offset, len)
        .last_set_index()
        .unwrap_or(len)
}

/// Writes the indices of the true values from `from` on, ascending, to the front of `out`, as many as there are or as
/// it takes, and returns how many these are: none from past the end. So a walk over all goes on from one past the last,
/// until fewer come than `out` takes. After them `out` may have other numbers than before.
// rust: level
#[unsafe(no_mangle)]
#[tactic(auto, using(crate::proofs::StringLemmas::number_itself))]
pub extern "C" fn row_mask_next_indices(
    bytes: &[u8],
    offset: usize,
    len: usize,
    from: usize,
    out: &mut [usize],
) -> usize
    requires { IsWithinBytes bytes.now offset len }
    ensures indices { take result out.new ≡ take (length out.old)
        (indices_from from (drop from (bitmap bytes.now offset len))) }
    ensures count { result ≡ min (length out.old)
        (count (drop from (bitmap bytes.now offset len))) }
{
    next_indices::<false, _>(bytes, offset, len, from, out)
}

/// As `row_mask_next_indices`, and an index has 4 bytes.
///
/// Asks that `len` is at most 2 to the 32.
// rust: level
#[unsafe(no_mangle)]
#[tactic(auto, using(crate::proofs::NarrowLemmas::indices_of_4_bytes))]
pub extern "C" fn row_mask_next_indices_4(
    bytes: &[u8],
    offset: usize,
    len: usize,
    from: usize,
    out: &mut [u32],
) -> usize
    requires bitmap { IsWithinBytes bytes.now offset len }
    requires fits { len ≤ 2 ^ 32 }
    ensures indices { take result out.new ≡ take (length out.old)
        (indices_from from (drop from (bitmap bytes.now offset len))) }
    ensures count { result ≡ min (length out.old)
        (count (drop from (bitmap bytes.now offset len))) }
{
    next_indices::<true, _>(bytes, offset, len, from, out)
}

// The indices from `from` on, of blocks with many byte by byte if `BYTES`: that pays where eight fill one vector.
#[inline(always)]
fn next_indices<const BYTES: bool, N: RowIndex>(
    bytes: &[u8],
    offset: usize,
    len: usize,
    from: usize,
    out: &mut [N],
) -> usize
    requires { IsWithinBytes bytes.now offset len }
    ensures indices { take result out.new ≡ take (length out.old)
        (map N.index_of (indices_from from (drop from (bitmap bytes.now offset len)))) }
    ensures count { result ≡ min (length out.old)
        (count (drop from (bitmap bytes.now offset len))) }
{
    if from > len {
        return 0;
    }
    // by blocks as long as there is room to spare, and then word by word
    let chunks = BitChunks::new(bytes, offset + from, len - from);
    let mut room = Lent { out, at: 0 };
    let first = indices_of_blocks::<BYTES, _, _>(&chunks, from, &mut room);
    let mut at = room.at;
    for i in first..chunks.started_words() {
        at = put_indices(chunks.started_word(i), from + 64 * i, out, at);
        if at == out.len() {
            return at;
        }
    }
    at
}

// Room for the indices of any word and for some to spare.
const LEAST_ROOM: usize = 64 + SPARE;

// Puts those of the first blocks of four words, as many as there is room for, where the first value has the
// index `from`. Returns the number of the first word behind them.
#[inline(always)]
fn indices_of_blocks<const BYTES: bool, N: RowIndex, R: Room<N>>(
    chunks: &BitChunks,
    from: usize,
    out: &mut R,
) -> usize
    requires fits { from + length chunks.now < 2 ^ 64 }
    requires empty { R.items out.old ≡ [] }
    ensures words { 64 * result ≤ length chunks.now }
    ensures indices { R.items out.new
        ≡ map (λ p. N.index_of (from + p)) (positions (take (64 * result) chunks.now)) }
    ensures kept { R.kept out.new ≡ R.kept out.old }
{
    let blocks = chunks.len() / 4;
    for i in 0..blocks {
        // little room is not worth the look at a block
        if out.spare() < LEAST_ROOM {
            return 4 * i;
        }
        let words = block(chunks, i);
        let ones = ones_in(&words);
        if out.spare() < ones + SPARE {
            return 4 * i;
        }
        put_block::<BYTES, _, _>(out, from + 256 * i, &words, ones);
    }
    4 * blocks
}

// Puts those of a block, of whose bits `ones` are set. It is a function of its own, since a loop that goes on
// to its next turn from two places is compiled as two, and takes longer.
#[inline(always)]
fn put_block<const BYTES: bool, N: RowIndex, R: Room<N>>(
    out: &mut R,
    first: usize,
    words: &[u64; 4],
    ones: usize,
)
    requires counted { ones ≡ count (bits_of_words words.now) }
    requires room { length (R.items out.old) + ones ≤ R.capacity (R.kept out.old) }
    requires fits { first + 256 < 2 ^ 64 }
    ensures items { R.items out.new ≡ R.items out.old ++ map N.index_of (indices_from first (bits_of_words words.now)) }
    ensures kept { R.kept out.new ≡ R.kept out.old }
{
    if ones != 0 {
        push_block::<BYTES, _, _>(out, first, words);
    }
}

// Writes the indices of the true values of started word `i` to the front of `block`, and returns how many these are.
#[inline]
pub(crate) fn indices_in_word(chunks: &BitChunks, i: usize, block: &mut [usize; 64]) -> usize
    requires within { i < started_words (length chunks.now) }
    requires fits { length chunks.now < 2 ^ 64 }
    ensures few { result ≤ 64 }
    ensures indices { positions (take (64 * (i + 1)) chunks.now)
        ≡ positions (take (64 * i) chunks.now) ++ take result block.new }
{
    put_indices(chunks.started_word(i), 64 * i, block, 0)
}
