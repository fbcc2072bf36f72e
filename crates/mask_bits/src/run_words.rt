//! The edges of runs in a word: where runs begin in it and where they end.

ghost use Rattle.std.specs.Prelude.{◌≡◌, ◌≢◌, ◌+◌, ◌-◌, ◌≤◌, ◌<◌, ◌^◌, ◌++◌, ◌∷◌, Bool, List, true, false, length, take, slice_index_or, zip};
ghost use Rattle.mask_bits.specs.Positions.{count, indices_from};
ghost use Rattle.mask_bits.specs.Pushed.{runs_behind, runs_between, AreEdges, begins, starts_of};
ghost use Rattle.mask_bits.specs.Words.{word_bits};

// Whether the words so far end inside a run, and where that begins.
#[derive(Clone, Copy, Drop)]
pub(crate) struct Open {
    pub(crate) inside: bool,
    pub(crate) start: usize,
}

// Where runs end in a word and where others begin, and the start of the first that ends.
#[derive(Clone, Copy, Drop)]
pub(crate) struct Edges {
    pub(crate) first: usize,
    pub(crate) starts: u64,
    pub(crate) ends: u64,
}

// The bit before each bit, where `inside` is the one before the first.
#[inline]
#[tactic(auto, using(crate::proofs::RunWordLemmas::runs_of_word))]
pub(crate) fn bits_before(inside: bool, word: u64) -> u64
    ensures bits { word_bits result ≡ take 64 (inside ∷ word_bits word) }
    ensures full { word ≡ 2 ^ 64 - 1 → inside ≡ true → result ≡ word }
{
    word << 1 | inside as u64
}

// How many runs begin in a word, where `inside` is the bit before the first.
#[inline(always)]
pub(crate) fn count_starts(inside: bool, word: u64) -> usize
    ensures { result ≡ count (starts_of inside (word_bits word)) }
{
    (word & !bits_before(inside, word)).count_ones() as usize
}

// The edges of a word that has some, and what is open behind it.
#[inline(always)]
#[tactic(auto, using(crate::proofs::RunWordLemmas::each_of_word_begins, crate::proofs::RunWordLemmas::last_bit))]
pub(crate) fn edges_in(begun: Open, base: usize, word: u64, before: u64) -> (Edges, Open)
    requires fits { base + 64 ≤ 2 ^ 64 }
    requires bits { word_bits before ≡ take 64 (begun.inside ∷ word_bits word) }
    requires some { word ≡ 2 ^ 64 - 1 → begun.inside ≡ false }
    ensures runs { (rest : List Bool) → runs_between base result.0.first result.0.starts result.0.ends ++ runs_behind result.1.inside result.1.start (base + 64) rest
        ≡ runs_behind begun.inside begun.start base (word_bits word ++ rest) }
    ensures edges { AreEdges base result.0.starts result.0.ends }
    ensures last { result.1.inside ≡ slice_index_or (word_bits word) 63 false }
{
    let edges = edges_of(begun, base, word & !before, before & !word);
    let after = Open {
        inside: word >> 63 == 1,
        start: base.wrapping_add(64 - word.leading_ones() as usize),
    };
    (edges, after)
}

// The edges of a word in which bits of `starts` begin runs and those of `ends` end them.
#[inline]
fn edges_of(begun: Open, base: usize, starts: u64, ends: u64) -> Edges
    requires fits { base + 64 ≤ 2 ^ 64 }
    requires begin { length (indices_from base (word_bits ends))
        ≤ length (begins begun.inside begun.start (indices_from base (word_bits starts))) }
    ensures runs { runs_between base result.first result.starts result.ends
        ≡ zip (begins begun.inside begun.start (indices_from base (word_bits starts))) (indices_from base (word_bits ends)) }
    ensures edges { AreEdges base result.starts result.ends }
{
    if begun.inside {
        return Edges {
            first: begun.start,
            starts,
            ends,
        };
    }
    Edges {
        first: base.wrapping_add(starts.trailing_zeros() as usize),
        starts: starts & starts.wrapping_sub(1),
        ends,
    }
}

// The first run, and the edges past it; where no end is left, another pair.
#[inline]
pub(crate) fn pop(base: usize, edges: Edges) -> ((usize, usize), Edges)
    requires fits { base + 64 ≤ 2 ^ 64 }
    requires edges { AreEdges base edges.starts edges.ends }
    ensures first { 0 < edges.ends → runs_between base edges.first edges.starts edges.ends
        ≡ result.0 ∷ runs_between base result.1.first result.1.starts result.1.ends }
    ensures edges { AreEdges base result.1.starts result.1.ends }
    ensures none { edges.ends ≡ 0 → result.1.ends ≡ 0 }
{
    let run = (
        edges.first,
        base.wrapping_add(edges.ends.trailing_zeros() as usize),
    );
    let left = Edges {
        first: base.wrapping_add(edges.starts.trailing_zeros() as usize),
        starts: edges.starts & edges.starts.wrapping_sub(1),
        ends: edges.ends & edges.ends.wrapping_sub(1),
    };
    (run, left)
}
