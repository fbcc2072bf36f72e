//! Deposits: the bits of one word at the set places of another.

mod bytewise;
mod lanes;
mod nibbles;

ghost use Rattle.std.specs.Prelude.{ℕ, ◌≡◌, ◌<◌, ◌≤◌, ◌+◌, ◌*◌, ◌/◌, ◌%◌, ◌^◌, ◌↔◌, ◌⊎◌, IsTrue, slice_index};
ghost use Rattle.mask_bits.specs.Positions.{count};
ghost use Rattle.mask_bits.specs.Words.{word_bits};
ghost use Rattle.vortex_mask.specs.Deposit.{Deposits};
ghost use Rattle.vortex_mask.specs.Path.{is_deposited_by_loop};

pub use bytewise::deposit_bytewise;
pub(super) use lanes::{counts_below, words_of};
use nibbles::deposit_two_by_nibbles;

/// Scatters the low bits of a word to the set bits of a mask word, as the instruction PDEP does.
// rust: lawful
pub trait DepositBits {
    /// The word in which the set places of `mask` have the bits of `source` in their order, the lowest first, and
    /// all others are 0. So bit `i` is set exactly where bit `i` of `mask` is and so is the bit of `source`
    /// whose number is the count of mask bits below `i`. Bits of `source` from `mask_count` on are ignored.
    ///
    /// `mask_count` is how many bits of `mask` are set, which callers know anyway.
    fn deposit_bits(source: u64, mask: u64, mask_count: usize) -> u64
        requires { mask_count ≡ count (word_bits mask) }
        ensures { Deposits source mask result };

    /// The deposits of two words, each as [`DepositBits::deposit_bits`] has it. The kernels deposit two words at a
    /// time. An implementation that doesn't override this call takes one after the other.
    fn deposit_two(sources: [u64; 2], masks: [u64; 2], mask_counts: [usize; 2]) -> [u64; 2]
        requires counted_first { slice_index mask_counts 0
            ≡ count (word_bits (slice_index masks 0)) }
        requires counted_second { slice_index mask_counts 1
            ≡ count (word_bits (slice_index masks 1)) }
        ensures first { Deposits (slice_index sources 0) (slice_index masks 0)
            (slice_index result 0) }
        ensures second { Deposits (slice_index sources 1) (slice_index masks 1)
            (slice_index result 1) }
    {
        [
            Self::deposit_bits(sources[0], masks[0], mask_counts[0]),
            Self::deposit_bits(sources[1], masks[1], mask_counts[1]),
        ]
    }
}

// The closed forms take masks with at most so many bits that are set, or that are clear.
const FEW: usize = 2;

/// Deposits in few steps at every mask: by a closed form where at most two bits of the mask are
/// set or clear, and by the network between, unless the source is zero. Two words at once take closed
/// forms where both masks allow them, and else tables of their nibbles, unless both sources are zero.
// rust: by instruction native::ByInstruction
pub struct Portable;

impl DepositBits for Portable {
    // inlined into the loop of a kernel, which knows the count
    #[inline(always)]
    fn deposit_bits(source: u64, mask: u64, mask_count: usize) -> u64 {
        if mask_count <= FEW {
            deposit_two_lowest(source, mask)
        } else if mask_count >= 64 - FEW {
            deposit_two_holes(source, mask)
        } else if source == 0 {
            0
        } else {
            deposit_bytewise(source, mask)
        }
    }

    #[inline(always)]
    fn deposit_two(sources: [u64; 2], masks: [u64; 2], mask_counts: [usize; 2]) -> [u64; 2] {
        if sources[0] | sources[1] == 0 {
            [0, 0]
        } else if is_closed(mask_counts[0]) && is_closed(mask_counts[1]) {
            [
                deposit_closed(sources[0], masks[0], mask_counts[0]),
                deposit_closed(sources[1], masks[1], mask_counts[1]),
            ]
        } else {
            deposit_two_by_nibbles(sources, masks)
        }
    }
}

// Whether a mask with so many set bits has a closed form.
#[inline(always)]
fn is_closed(mask_count: usize) -> bool
    ensures { IsTrue result ↔ ((mask_count ≤ 2) ⊎ (62 ≤ mask_count)) }
{
    mask_count <= FEW || mask_count >= 64 - FEW
}

// The deposit by the closed form of its mask.
#[inline(always)]
fn deposit_closed(source: u64, mask: u64, mask_count: usize) -> u64
    requires counted { mask_count ≡ count (word_bits mask) }
    requires closed { (mask_count ≤ 2) ⊎ (62 ≤ mask_count) }
    ensures { Deposits source mask result }
{
    if mask_count >= 64 - FEW {
        deposit_two_holes(source, mask)
    } else {
        deposit_two_lowest(source, mask)
    }
}

/// Deposits one set place after another: quick where few bits of the masks are set.
pub struct PortableLoop;

impl DepositBits for PortableLoop {
    #[inline(always)]
    fn deposit_bits(source: u64, mask: u64, mask_count: usize) -> u64 {
        if mask_count > FEW {
            deposit_in_turn(source, mask)
        } else {
            deposit_two_lowest(source, mask)
        }
    }
}

// A word has fewer than four true values on the average then. The loop over these is quicker than the
// network and the tables, which take the same time at every word.
const VALUES_PER_TRUE_BY_LOOP: u64 = 16;

/// Whether a word kernel over `len` values, of which `true_count` are true, deposits by `PortableLoop`:
/// where fewer than one in 16 is. Else it deposits by `Portable`.
// rust: replaced by native::by_loop
pub fn deposits_by_loop(len: usize, true_count: usize) -> bool
    ensures { result ≡ is_deposited_by_loop len true_count }
{
    u128::from(VALUES_PER_TRUE_BY_LOOP) * (true_count as u128) < len as u128
}

// The lowest set place of the mask takes the lowest bit of the source, until either is used up.
#[tactic(auto, using(crate::proofs::Deposits::DepositLemmas::turn_facts))]
fn deposit_in_turn(source: u64, mask: u64) -> u64
    ensures { Deposits source mask result }
{
    let mut bits = source;
    let mut places = mask;
    let mut result = 0;
    while bits != 0 && places != 0 {
        let later = places & (places - 1);
        result |= lowest_bit_at(places - later, bits);
        bits >>= 1;
        places = later;
    }
    result
}

/// The deposit at a mask with at most two set bits.
#[tactic(auto, using(crate::proofs::Deposits::DepositLemmas::two_lowest_facts))]
pub fn deposit_two_lowest(source: u64, mask: u64) -> u64
    requires { count (word_bits mask) ≤ 2 }
    ensures { Deposits source mask result }
{
    let second = mask & mask.wrapping_sub(1);
    let lowest = mask - second;
    lowest_bit_at(lowest, source) | lowest_bit_at(second, source >> 1)
}

// The lowest bit of `source`, put at `place`: by a mask of ones or zeros, since a branch on the
// bit would often be guessed wrong.
#[tactic(auto, using(crate::proofs::Deposits::DepositLemmas::masked))]
fn lowest_bit_at(place: u64, source: u64) -> u64
    ensures { result ≡ place * (source % 2) }
{
    place & (source & 1).wrapping_neg()
}

/// The deposit at a mask with at most two clear bits: from each of these on, the lowest first, the
/// bits of the source move up by one.
pub fn deposit_two_holes(source: u64, mask: u64) -> u64
    requires { 62 ≤ count (word_bits mask) }
    ensures { Deposits source mask result }
{
    let holes = !mask;
    let second = holes & holes.wrapping_sub(1);
    let lowest = holes - second;
    with_room(with_room(source, lowest), second)
}

// Moves the bits from a hole on up by one, by adding them to themselves. The hole is the word that
// has its place alone, or 0 where there is none.
#[tactic(auto, using(crate::proofs::Deposits::HoleLemmas::kept_from))]
fn with_room(source: u64, hole: u64) -> u64
    ensures room { (p : ℕ) → p < 64 → hole ≡ 2 ^ p
        → result ≡ (source + source / hole * hole) % 2 ^ 64 }
    ensures same { hole ≡ 0 → result ≡ source }
{
    source.wrapping_add(source & hole.wrapping_neg())
}
