//! Words, items and parts that are read and written where the caller has shown that they are there.
//!
//! The Rust package has a module by hand in place of this one, which tests for no place that it is there. All that is
//! trusted of it is that each function does what its contract here says.

ghost use Rattle.std.specs.Prelude.{◌≡◌, ◌+◌, ◌-◌, ◌*◌, ◌<◌, ◌≤◌, ◌⊎◌, ◌++◌, ℕ, Some, drop, length, slice_get, slice_range, slice_set, take};
ghost use Rattle.mask_bits.specs.Bitmap.{bitmap};
ghost use Rattle.mask_bits.specs.Buffer.{backing_bit};
ghost use Rattle.mask_bits.specs.Words.{window, word_bits};

/// Word `i` of the whole words of `bytes`: bits `64 * i` to `64 * i + 63`, the first lowest.
#[tactic(auto, using(crate::proofs::Lists::Words::FrontLemmas::whole_words))]
#[inline]
pub fn word_of(bytes: &[u8], i: usize) -> u64
    requires { 8 * i + 8 ≤ length bytes.now }
    ensures { word_bits result ≡ window bytes.now (64 * i) }
{
    match bytes[8 * i..8 * i + 8].first_chunk::<8>() {
        Some(chunk) => u64::from_le_bytes(*chunk),
        None => unreachable!(),
    }
}

/// Writes word `i` of the whole words of `bytes`, and nothing else.
#[inline]
pub fn set_word(bytes: &mut [u8], i: usize, word: u64)
    requires { 8 * i + 8 ≤ length bytes.old }
    ensures here { window bytes.new (64 * i) ≡ word_bits word }
    ensures others { (p : ℕ) → ((p < 64 * i) ⊎ (64 * i + 64 ≤ p)) → backing_bit bytes.new p ≡ backing_bit bytes.old p }
{
    bytes[8 * i..8 * i + 8].copy_from_slice(&word.to_le_bytes());
}

/// Item `i`.
#[inline(always)]
pub fn item<T: Copy>(items: &[T], i: usize) -> T
    requires { i < length items.now }
    ensures { slice_get items.now i ≡ Some result }
{
    items[i]
}

/// The `count` items from item `first` on.
#[inline(always)]
pub fn part<T>(items: &[T], first: usize, count: usize) -> &[T]
    requires { first + count ≤ length items.now }
    ensures { result.now ≡ slice_range items.now first (first + count) }
{
    &items[first..first + count]
}

/// The items from item `first` on.
#[inline(always)]
pub fn rest<T>(items: &[T], first: usize) -> &[T]
    requires { first ≤ length items.now }
    ensures { result.now ≡ drop first items.now }
{
    &items[first..]
}

/// Writes an item to place `at`.
#[inline(always)]
pub fn put<T: Copy>(out: &mut [T], at: usize, item: T)
    requires { at < length out.old }
    ensures { out.new ≡ slice_set out.old at item }
{
    out[at] = item;
}

/// Writes the bytes from `begin` to `end` behind the first `at` bytes.
#[inline(always)]
pub fn put_part(bytes: &[u8], begin: usize, end: usize, out: &mut [u8], at: usize)
    requires ordered { begin ≤ end }
    requires within { end ≤ length bytes.now }
    requires room { at + (end - begin) ≤ length out.old }
    ensures bytes { take (at + (end - begin)) out.new ≡ take at out.old ++ slice_range bytes.now begin end }
    ensures behind { drop (at + (end - begin)) out.new ≡ drop (at + (end - begin)) out.old }
{
    out[at..at + (end - begin)].copy_from_slice(&bytes[begin..end]);
}

/// Writes the eight bytes from `begin` on behind the first `at` bytes.
///
/// They are a number on the way: two copies, of which one has a size that is known, are compiled as one of any size.
#[inline(always)]
pub fn put_eight(bytes: &[u8], begin: usize, out: &mut [u8], at: usize)
    requires within { begin + 8 ≤ length bytes.now }
    requires room { at + 8 ≤ length out.old }
    ensures bytes { take (at + 8) out.new ≡ take at out.old ++ slice_range bytes.now begin (begin + 8) }
    ensures behind { drop (at + 8) out.new ≡ drop (at + 8) out.old }
{
    match bytes[begin..begin + 8].first_chunk::<8>() {
        Some(chunk) => out[at..at + 8].copy_from_slice(&u64::from_le_bytes(*chunk).to_le_bytes()),
        None => unreachable!(),
    }
}

/// Writes the lowest bytes of a word, as many as there is room for.
#[inline(always)]
pub fn put_lowest(word: u64, out: &mut [u8])
    requires { length out.old ≤ 8 }
    ensures { bitmap out.new 0 (8 * length out.old) ≡ take (8 * length out.old) (word_bits word) }
{
    let mut all = [0u8; 8];
    set_word(&mut all, 0, word);
    out.copy_from_slice(&all[..out.len()]);
}
