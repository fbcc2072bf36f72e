//! The indices of a buffer's true values: their list, and the walk over them.

ghost use Rattle.std.specs.Prelude.{◌≡◌, ◌*◌, ◌/◌, ◌^◌, ◌<◌, ◌≤◌, ℕ, [], All, IfOk, length, take};
ghost use Rattle.std.specs.Vec.{vec_capacity};
ghost use Rattle.std.specs.Iterator.{YieldsFirst, item_count};
ghost use Rattle.std.specs.Iterator.Runs.{YieldsInOrder};
ghost use Rattle.std.specs.List.Sorted.{IsStrictlyIncreasing};
ghost use Rattle.mask_bits.specs.Buffer.{values};
ghost use Rattle.mask_bits.specs.Positions.{positions, count};

use crate::blocks::{block, has_some, push_block};
use crate::buffer::BitBuffer;
use crate::chunks::BitChunks;
use crate::indices_of_word::push_indices;
use crate::scan::{first_word, next_word};
use std::alloc::{AllocError, Global};
use std::marker::Model;

impl BitBuffer {
    /// The indices of the true values, ascending.
    #[tactic(auto, using(crate::proofs::Lists::Places::PlaceLemmas::place_facts, crate::proofs::YieldLemmas::whole_walks, crate::proofs::Lists::Places::AscendingLemmas::ascending_facts))]
    pub fn set_indices(&self) -> SetIndices<'_>
        ensures indices { result ≡ positions (values self.now) }
        ensures in_order { YieldsInOrder (YieldsFirst {A = ℕ} (λ s. s)) (λ s. s) }
        ensures ascending { IsStrictlyIncreasing result }
        ensures within { All (λ p. p < length (values self.now)) result }
        ensures fits { length result < 2 ^ 64 }
    {
        SetIndices::new(self.chunks())
    }

    /// The indices of the true values, ascending, in room for just these.
    ///
    /// It takes less time than to collect `set_indices`.
    // rust: level if self.len() > 128
    // rust: named try_indices
    #[tactic(auto, using(crate::proofs::Lists::Words::BlockLemmas::block_facts, crate::proofs::Lists::Words::BlockLemmas::indices_themselves))]
    pub fn indices(&self, alloc: Global, true_count: usize) -> Result<Vec<usize>, AllocError>
        requires { true_count ≡ count (values self.now) }
        ensures { IfOk result (λ indices. indices.items ≡ positions (values self.now)) }
    {
        let chunks = self.chunks();
        let mut indices = Vec::with_capacity(alloc, true_count)?;
        // the whole words apart, so that none is tested for being the last
        push_whole(&mut indices, &chunks, true_count);
        push_indices::<0, usize, _>(&mut indices, 64 * chunks.len(), chunks.remainder_bits());
        Ok(indices)
    }
}

// Pushes the indices of the true values in the whole words of a list that has so many of them.
#[inline(always)]
fn push_whole(indices: &mut Vec<usize>, chunks: &BitChunks<'_>, true_count: usize)
    requires empty { indices.old.items ≡ [] }
    requires room { count chunks.now ≤ vec_capacity indices.old }
    requires fits { length chunks.now < 2 ^ 64 }
    ensures items { indices.new.items
        ≡ positions (take (64 * (length chunks.now / 64)) chunks.now) }
    ensures capacity { vec_capacity indices.new ≡ vec_capacity indices.old }
{
    let blocks = chunks.len() / 4;
    // where most blocks have none, a test for each block takes longer than one for each word
    if true_count < blocks {
        push_in_turn(indices, chunks, 0);
    } else {
        push_blocks(indices, chunks, blocks);
        push_in_turn(indices, chunks, 4 * blocks);
    }
}

// Pushes those of the whole words from word `from` on, one after another.
#[inline(always)]
#[tactic(auto, using(crate::proofs::Lists::Words::BlockLemmas::block_facts, crate::proofs::Lists::Words::PaddedLemmas::padded_facts, crate::proofs::Lists::Places::SelectLemmas::places_of_words, crate::proofs::Lists::Words::BlockLemmas::indices_themselves))]
fn push_in_turn(indices: &mut Vec<usize>, chunks: &BitChunks<'_>, from: usize)
    requires so_far { indices.old.items ≡ positions (take (64 * from) chunks.now) }
    requires within { from ≤ length chunks.now / 64 }
    requires room { count chunks.now ≤ vec_capacity indices.old }
    requires fits { length chunks.now < 2 ^ 64 }
    ensures items { indices.new.items
        ≡ positions (take (64 * (length chunks.now / 64)) chunks.now) }
    ensures capacity { vec_capacity indices.new ≡ vec_capacity indices.old }
{
    for i in from..chunks.len() {
        push_indices::<0, usize, _>(indices, 64 * i, chunks.word(i));
    }
}

// Pushes those of the first blocks of four words.
#[inline(always)]
#[tactic(auto, using(crate::proofs::Lists::Words::BlockLemmas::block_facts, crate::proofs::Lists::Words::BlockLemmas::indices_themselves))]
fn push_blocks(indices: &mut Vec<usize>, chunks: &BitChunks<'_>, blocks: usize)
    requires empty { indices.old.items ≡ [] }
    requires within { 256 * blocks ≤ length chunks.now }
    requires room { count chunks.now ≤ vec_capacity indices.old }
    requires fits { length chunks.now < 2 ^ 64 }
    ensures items { indices.new.items ≡ positions (take (256 * blocks) chunks.now) }
    ensures capacity { vec_capacity indices.new ≡ vec_capacity indices.old }
{
    let mut i = 0;
    while i < blocks {
        let words = block(chunks, i);
        if has_some(&words) {
            push_block::<true, usize, _>(indices, 256 * i, &words);
            i += 1;
        } else {
            i = next_block(chunks, i + 1, blocks);
        }
    }
}

// The first block from `from` on that may have a true value. Never inlined, so that this loop stays
// small.
#[inline(never)]
#[tactic(auto, using(crate::proofs::Lists::Words::BlockLemmas::block_facts))]
fn next_block(chunks: &BitChunks<'_>, from: usize, blocks: usize) -> usize
    requires ordered { from ≤ blocks }
    requires within { 256 * blocks ≤ length chunks.now }
    requires fits { length chunks.now < 2 ^ 64 }
    ensures later { from ≤ result }
    ensures within { result ≤ blocks }
    ensures none { positions (take (256 * result) chunks.now)
        ≡ positions (take (256 * from) chunks.now) }
{
    for i in from..blocks {
        if has_some(&block(chunks, i)) {
            return i;
        }
    }
    blocks
}

/// The indices of a buffer's true values, ascending.
#[derive(Drop)]
pub struct SetIndices<'a> {
    chunks: BitChunks<'a>,
    // the started word at hand, and its bits that are not yielded yet
    at: usize,
    word: u64,
}

impl<'a> Model for SetIndices<'a> {
    ghost use Rattle.std.specs.Prelude.{ℕ, List, ◌<◌, ◌^◌, length};
    ghost use Rattle.mask_bits.specs.Positions.{positions};
    ghost use Rattle.mask_bits.specs.Walk.{left_of, IsLeft};

    ghost Value = { List ℕ };

    ghost view = { λ s. positions (left_of s.chunks s.at s.word) };

    ghost invariant = { λ s. IsLeft s.chunks s.at s.word × (length s.chunks < 2 ^ 64) };
}

impl<'a> SetIndices<'a> {
    pub(crate) fn new(chunks: BitChunks<'a>) -> SetIndices<'a>
        ensures { result ≡ positions chunks.entry }
    {
        let word = first_word(&chunks);
        SetIndices {
            chunks,
            at: 0,
            word,
        }
    }
}

impl Iterator for SetIndices<'_> {
    type Item = usize;

    ghost next_gives = { YieldsFirst (λ s. s) };

    ghost remaining = { item_count (λ s. s) };

    #[tactic(auto, using(crate::proofs::Lists::Words::WalkLemmas::places_left, crate::proofs::YieldLemmas::items))]
    fn next(&mut self) -> Option<usize> {
        let (at, word) = next_word(&self.chunks, self.at, self.word)?;
        self.at = at;
        self.word = word & (word - 1);
        Some(64 * at + word.trailing_zeros() as usize)
    }
}
