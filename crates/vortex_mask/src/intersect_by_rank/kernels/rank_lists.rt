//! Ascending ranks in a list as the rank bits of words.

ghost use Rattle.std.specs.Prelude.{◌≡◌, ◌+◌, ◌-◌, ◌<◌, ◌≤◌, ◌^◌, ⊤};
ghost use Rattle.std.specs.List.Sorted.{IsStrictlyIncreasing};
ghost use Rattle.mask_bits.specs.CommonIndices.{AreSplit};
ghost use Rattle.vortex_mask.specs.Ranks.{AreBitsFrom, IsGathered, is_listed};

use crate::intersect_by_rank::kernels::word_loop::RankWords;

// Ascending ranks, of which a walk over the words takes each once.
#[derive(Drop)]
pub(super) struct ListedRanks<'a> {
    pub(super) ranks: &'a [usize],
    ghost ascending: { IsStrictlyIncreasing ranks.now },
}

impl RankWords for ListedRanks<'_> {
    ghost bit = { λ r. is_listed r.ranks.now };

    ghost end = { λ _. 2 ^ 64 - 1 };

    ghost number = { λ _ at. at };

    ghost IsPassed = { λ r. AreSplit r.ranks.now };

    ghost Reaches = { λ _ _. ⊤ };

    #[inline(always)]
    fn reaches(&self, _at: usize) -> bool {
        true
    }

    #[inline(always)]
    fn two_words(&self, next: &mut usize, at: usize, ones: [usize; 2]) -> [u64; 2] {
        let middle = at + ones[0];
        let first = bits_of_ranks(self.ranks, next, at, middle);
        let second = bits_of_ranks(self.ranks, next, middle, middle + ones[1]);
        [first, second]
    }
}

// The ranks from `at` up to `end` as set bits, that of `at` lowest. Their first one is number
// `next`, which moves past them.
#[inline(always)]
pub(super) fn bits_of_ranks(ranks: &[usize], next: &mut usize, at: usize, end: usize) -> u64
    requires ascending { IsStrictlyIncreasing ranks.now }
    requires ordered { at ≤ end }
    requires few { end ≤ at + 64 }
    requires from { AreSplit ranks.now next.old at }
    ensures bits { AreBitsFrom (is_listed ranks.now) at (end - at) result }
    ensures passed { AreSplit ranks.now next.new end }
{
    let mut bits = bits_of_most(ranks, next, at, end);
    while *next < ranks.len() && ranks[*next] < end {
        bits |= 1 << (ranks[*next] - at);
        *next += 1;
    }
    bits
}

// The bits of those ranks where there are four or more, unless they are among the last three of all. They are taken by
// fours: a test of each one would be guessed wrong once in most words.
#[inline(always)]
fn bits_of_most(ranks: &[usize], next: &mut usize, at: usize, end: usize) -> u64
    requires ascending { IsStrictlyIncreasing ranks.now }
    requires ordered { at ≤ end }
    requires few { end ≤ at + 64 }
    requires from { AreSplit ranks.now next.old at }
    ensures { IsGathered ranks.now at end next.new result }
{
    // most words of a sparse mask have no rank, which one test tells
    if *next == ranks.len() || ranks[*next] >= end {
        return 0;
    }
    if *next + 4 > ranks.len() || ranks[*next + 3] >= end {
        return 0;
    }
    let mut bits = 0u64;
    while *next + 4 <= ranks.len() && ranks[*next + 3] < end {
        bits |= 1 << (ranks[*next] - at);
        bits |= 1 << (ranks[*next + 1] - at);
        bits |= 1 << (ranks[*next + 2] - at);
        bits |= 1 << (ranks[*next + 3] - at);
        *next += 4;
    }
    with_three(ranks, next, at, end, bits)
}

// `bits`, and those of the next three ranks that are below `end`, if there are three more.
#[inline(always)]
fn with_three(ranks: &[usize], next: &mut usize, at: usize, end: usize, bits: u64) -> u64
    requires ascending { IsStrictlyIncreasing ranks.now }
    requires few { end ≤ at + 64 }
    requires gathered { IsGathered ranks.now at end next.old bits }
    ensures { IsGathered ranks.now at end next.new result }
{
    if *next + 3 > ranks.len() {
        return bits;
    }
    let first = bit_below(ranks[*next], at, end);
    let second = bit_below(ranks[*next + 1], at, end);
    let third = bit_below(ranks[*next + 2], at, end);
    *next += (first.1 + second.1 + third.1) as usize;
    bits | first.0 | second.0 | third.0
}

// The bit of a rank and 1 where it is below `end`, and else none and 0, without a branch.
#[inline(always)]
fn bit_below(rank: usize, at: usize, end: usize) -> (u64, u64)
    requires from { at ≤ rank }
    requires few { end ≤ at + 64 }
    ensures below { rank < end → result ≡ (2 ^ (rank - at), 1) }
    ensures past { end ≤ rank → result ≡ (0, 0) }
{
    let is_below = (rank < end) as u64;
    (is_below << ((rank - at) % 64), is_below)
}
