//! The words of a bitmap.

ghost use Rattle.std.specs.Prelude.{◌≡◌, ◌+◌, ◌-◌, ◌<◌, ℕ, drop, length, min, slice_index};
ghost use Rattle.mask_bits.specs.Bitmap.{bitmap};
ghost use Rattle.mask_bits.specs.Buffer.{IsWithinBytes};
ghost use Rattle.mask_bits.specs.Words.{padded_part, started_words, word_bits};

use mask_bits::BitChunks;

/// Writes words of 64 values, from word `from` on, to the front of `out`, as many as there are or as `out` takes, the
/// last perhaps in part, and returns how many these are: none from past the end. Bit `j` of word `i` is value
/// `64 * i + j`, and 0 past the last value. So a walk over all words goes on from one past the last, until fewer come
/// than `out` takes.
// rust: level
#[unsafe(no_mangle)]
pub extern "C" fn row_mask_words(
    bytes: &[u8],
    offset: usize,
    len: usize,
    from: usize,
    out: &mut [u64],
) -> usize
    requires { IsWithinBytes bytes.now offset len }
    ensures words { (i : ℕ) → i < result → word_bits (slice_index out.new i)
        ≡ padded_part (bitmap bytes.now offset len) (from + i) }
    ensures count { result ≡ min (length out.old) (started_words len - from) }
    ensures behind { drop result out.new ≡ drop result out.old }
{
    let chunks = BitChunks::new(bytes, offset, len);
    let whole = chunks.len().saturating_sub(from).min(out.len());
    for i in 0..whole {
        out[i] = chunks.word(from + i);
    }
    if whole == out.len() || from + whole >= chunks.started_words() {
        return whole;
    }
    out[whole] = chunks.started_word(from + whole);
    whole + 1
}
