//! Words of a walk by the started words of a list: the first one, and the next of which something is left.

ghost use Rattle.std.specs.Prelude.{◌≡◌, ◌≢◌, ◌+◌, ◌-◌, ◌/◌, ◌<◌, ◌≤◌, ◌^◌, false, length, Some, IfSome, IfNone};
ghost use Rattle.mask_bits.specs.Positions.{repeated};
ghost use Rattle.mask_bits.specs.Walk.{left_of, IsLeft};

use crate::chunks::BitChunks;

// The first started word, of which all is left.
#[tactic(auto, using(crate::proofs::Lists::Words::WalkLemmas::left_in_words))]
#[inline]
pub(crate) fn first_word(chunks: &BitChunks<'_>) -> u64
    ensures all { left_of chunks.now 0 result ≡ chunks.now }
    ensures is_left { IsLeft chunks.now 0 result }
    ensures fits { length chunks.now < 2 ^ 64 }
{
    if chunks.started_words() == 0 {
        0
    } else {
        chunks.started_word(0)
    }
}

// From word `at` on, of which `word` is left: the first word of which something is left.
//
// The whole words apart, so that none is tested for being the last.
// rust: inline
#[tactic(auto, using(crate::proofs::Lists::Words::PaddedLemmas::padded_facts, crate::proofs::Lists::Words::WalkLemmas::left_in_words))]
#[inline]
pub(crate) fn next_word(chunks: &BitChunks<'_>, at: usize, word: u64) -> Option<(usize, u64)>
    requires { IsLeft chunks.now at word }
    ensures none { IfNone result (left_of chunks.now at word ≡ repeated (length chunks.now) false) }
    ensures is_left { IfSome result (λ r. IsLeft chunks.now r.0 r.1) }
    ensures same { IfSome result (λ r. left_of chunks.now r.0 r.1 ≡ left_of chunks.now at word) }
    ensures found { IfSome result (λ r. r.1 ≢ 0) }
{
    let whole = chunks.values_len() / 64;
    let mut at = at;
    let mut word = word;
    while word == 0 {
        if at + 1 >= whole {
            return next_remainder(chunks, at);
        }
        at += 1;
        word = chunks.word(at);
    }
    Some((at, word))
}

// The same where nothing is left of word `at`, and no whole word comes after it.
#[tactic(auto, using(crate::proofs::Lists::Words::WalkLemmas::left_in_words))]
#[inline]
fn next_remainder(chunks: &BitChunks<'_>, at: usize) -> Option<(usize, u64)>
    requires passed { IsLeft chunks.now at 0 }
    requires last { length chunks.now / 64 ≤ at + 1 }
    ensures none { IfNone result (left_of chunks.now at 0 ≡ repeated (length chunks.now) false) }
    ensures is_left { IfSome result (λ r. IsLeft chunks.now r.0 r.1) }
    ensures same { IfSome result (λ r. left_of chunks.now r.0 r.1 ≡ left_of chunks.now at 0) }
    ensures found { IfSome result (λ r. r.1 ≢ 0) }
{
    if chunks.started_words() <= at + 1 {
        return None;
    }
    let word = chunks.started_word(at + 1);
    if word == 0 {
        return None;
    }
    Some((at + 1, word))
}
