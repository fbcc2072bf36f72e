//! The runs of a buffer's true values: their list, and the walk over them.

ghost use Rattle.std.specs.Iterator.{YieldsFirst, item_count};
ghost use Rattle.std.specs.Iterator.Runs.{YieldsInOrder};
ghost use Rattle.std.specs.Prelude.{◌≡◌, ◌≢◌, ◌+◌, ◌-◌, ◌≤◌, ◌<◌, ◌^◌, ◌++◌, ℕ, Bool, List, false, length, slice_index_or, IfOk};
ghost use Rattle.std.specs.Vec.{vec_len, vec_capacity};
ghost use Rattle.mask_bits.specs.Buffer.{values};
ghost use Rattle.mask_bits.specs.Positions.{indices_from};
ghost use Rattle.mask_bits.specs.Runs.{AreRuns};
ghost use Rattle.mask_bits.specs.RunScan.{runs};
ghost use Rattle.mask_bits.specs.Pushed.{runs_behind, runs_between, AreEdges, ArePushed};
ghost use Rattle.mask_bits.specs.Walk.{IsLeft, PassesTrue};
ghost use Rattle.mask_bits.specs.Words.{padded_remainder, word_bits};

use crate::buffer::BitBuffer;
use crate::chunks::BitChunks;
use crate::run_words::{Edges, Open, bits_before, count_starts, edges_in, pop};
use crate::scan::{first_word, next_word};
use std::alloc::{AllocError, Global};
use std::marker::Model;

impl BitBuffer {
    /// The runs (maximal ranges) of true values, ascending, each by its first index and the index past its
    /// last.
    #[tactic(auto, using(crate::proofs::YieldLemmas::whole_walks))]
    pub fn set_slices(&self) -> SetSlices<'_>
        ensures runs { AreRuns (values self.now) result }
        ensures in_order { YieldsInOrder (YieldsFirst {A = ℕ × ℕ} (λ s. s)) (λ s. s) }
        ensures fits { length result < 2 ^ 64 }
    {
        SetSlices::new(self.chunks())
    }

    /// The runs (maximal ranges) of true values, ascending, each by its first index and the index past its
    /// last.
    ///
    /// It takes less time than to collect `set_slices`.
    // rust: level
    // rust: named try_runs
    pub fn runs(&self, alloc: Global) -> Result<Vec<(usize, usize)>, AllocError>
        ensures { IfOk result (λ ranges. ranges.items ≡ runs (values self.now)) }
    {
        let chunks = self.chunks();
        // zeros past the last value end the last run
        let last = chunks.remainder_bits();
        let count = count_runs(&chunks, last);
        if count == 0 {
            return Ok(Vec::new(alloc));
        }
        // two more, since runs are put two at a time
        let mut ranges = Vec::with_capacity(alloc, count + 2)?;
        let mut begun = Open {
            inside: false,
            start: 0,
        };
        // the whole words apart, so that none is tested for being the last
        for i in 0..chunks.len() {
            begun = push_runs(&mut ranges, begun, 64 * i, chunks.word(i));
        }
        push_runs(&mut ranges, begun, 64 * chunks.len(), last);
        Ok(ranges)
    }
}

// How many runs there are, where `last` has the values after the whole words.
#[inline(always)]
fn count_runs(chunks: &BitChunks<'_>, last: u64) -> usize
    requires { word_bits last ≡ padded_remainder chunks.now }
    ensures runs { result ≡ length (runs chunks.now) }
    ensures fits { result + 2 < 2 ^ 64 }
{
    let mut count = 0;
    let mut inside = false;
    for i in 0..chunks.values_len() / 64 {
        let word = chunks.word(i);
        count += count_starts(inside, word);
        inside = word >> 63 == 1;
    }
    count + count_starts(inside, last)
}

// Puts the runs that end within a word whose first index is `base`.
#[inline(always)]
#[tactic(auto, using(crate::proofs::RunWordLemmas::runs_of_word))]
fn push_runs(ranges: &mut Vec<(usize, usize)>, begun: Open, base: usize, word: u64) -> Open
    requires fits { base + 64 ≤ 2 ^ 64 }
    requires room { vec_len ranges.old + (length (runs_behind begun.inside begun.start base (word_bits word)) + 2) ≤ vec_capacity ranges.old }
    ensures runs { (rest : List Bool) → ranges.new.items ++ runs_behind result.inside result.start (base + 64) rest
        ≡ ranges.old.items ++ runs_behind begun.inside begun.start base (word_bits word ++ rest) }
    ensures last { result.inside ≡ slice_index_or (word_bits word) 63 false }
    ensures room { vec_capacity ranges.new ≡ vec_capacity ranges.old }
{
    let before = bits_before(begun.inside, word);
    if word == before {
        return begun;
    }
    let (edges, after) = edges_in(begun, base, word, before);
    push_by_two(ranges, base, edges);
    after
}

// Puts the runs between edges. One test for two is guessed right more often than one for each, and the first
// two need none.
#[inline]
#[tactic(auto, using(crate::proofs::RunWordLemmas::runs_pushed))]
fn push_by_two(ranges: &mut Vec<(usize, usize)>, base: usize, edges: Edges)
    requires room { vec_len ranges.old + (length (runs_between base edges.first edges.starts edges.ends) + 2) ≤ vec_capacity ranges.old }
    requires fits { base + 64 ≤ 2 ^ 64 }
    requires edges { AreEdges base edges.starts edges.ends }
    ensures runs { ranges.new.items
        ≡ ranges.old.items ++ runs_between base edges.first edges.starts edges.ends }
    ensures room { vec_capacity ranges.new ≡ vec_capacity ranges.old }
{
    let end = ranges.len() + edges.ends.count_ones() as usize;
    let first = push_first(ranges, base, edges);
    let mut left = push_first(ranges, base, first);
    while ranges.len() < end {
        let next = push_first(ranges, base, left);
        left = push_first(ranges, base, next);
    }
    ranges.truncate(end);
}

// Puts the first run, or another pair where there is none. Returns the edges that are left.
#[inline]
fn push_first(ranges: &mut Vec<(usize, usize)>, base: usize, edges: Edges) -> Edges
    requires room { vec_len ranges.old < vec_capacity ranges.old }
    requires fits { base + 64 ≤ 2 ^ 64 }
    requires edges { AreEdges base edges.starts edges.ends }
    ensures pushed { (all : List (ℕ × ℕ)) → ArePushed all ranges.old.items (runs_between base edges.first edges.starts edges.ends)
        → ArePushed all ranges.new.items (runs_between base result.first result.starts result.ends) }
    ensures edges { AreEdges base result.starts result.ends }
    ensures len { vec_len ranges.new ≡ vec_len ranges.old + 1 }
    ensures room { vec_capacity ranges.new ≡ vec_capacity ranges.old }
{
    let (run, left) = pop(base, edges);
    ranges.push_reserved(run);
    left
}

/// The runs (maximal ranges) of a buffer's true values, ascending.
#[derive(Drop)]
pub struct SetSlices<'a> {
    chunks: BitChunks<'a>,
    // the word at hand, and its bits that are in no range yet
    at: usize,
    word: u64,
}

impl<'a> Model for SetSlices<'a> {
    ghost use Rattle.std.specs.Prelude.{ℕ, List, ◌<◌, ◌^◌, length};
    ghost use Rattle.mask_bits.specs.RunScan.{runs};
    ghost use Rattle.mask_bits.specs.Walk.{left_of, IsLeft};

    ghost Value = { List (ℕ × ℕ) };

    ghost view = { λ s. runs (left_of s.chunks s.at s.word) };

    ghost invariant = { λ s. IsLeft s.chunks s.at s.word × (length s.chunks < 2 ^ 64) };
}

impl<'a> SetSlices<'a> {
    /// The runs of the values of `chunks`. It serves the other crates of this repository alone.
    #[doc(hidden)]
    pub fn new(chunks: BitChunks<'a>) -> SetSlices<'a>
        ensures runs { AreRuns chunks.entry result }
        ensures list { result ≡ runs chunks.entry }
    {
        let word = first_word(&chunks);
        SetSlices {
            chunks,
            at: 0,
            word,
        }
    }
}

impl Iterator for SetSlices<'_> {
    type Item = (usize, usize);

    ghost next_gives = { YieldsFirst (λ s. s) };

    ghost remaining = { item_count (λ s. s) };

    // rust: inline
    #[tactic(auto, using(crate::proofs::RunWalkLemmas::runs_at_words, crate::proofs::YieldLemmas::items))]
    #[inline]
    fn next(&mut self) -> Option<(usize, usize)> {
        let (at, word) = next_word(&self.chunks, self.at, self.word)?;
        let start = 64 * at + word.trailing_zeros() as usize;
        // filled up from below, so that the run begins with the word
        let (at, word) = past_full_words(&self.chunks, at, word | (word - 1));
        let end = 64 * at + word.trailing_ones() as usize;
        self.at = at;
        self.word = word & (word + 1);
        Some((start, end))
    }
}

// From word `at` on, of which `word` is left: the first word that isn't full. Behind the whole words it is the
// values after them, with zeros above.
// rust: inline
#[inline]
fn past_full_words(chunks: &BitChunks<'_>, at: usize, word: u64) -> (usize, u64)
    requires { IsLeft chunks.now at word }
    ensures full { PassesTrue chunks.now at word result.0 result.1 }
    ensures found { result.1 ≢ 2 ^ 64 - 1 }
{
    if word != u64::MAX {
        return (at, word);
    }
    let whole = chunks.len();
    for i in at + 1..whole {
        let next = chunks.word(i);
        if next != u64::MAX {
            return (i, next);
        }
    }
    (whole, chunks.remainder_bits())
}
