//! Deposits that work on the sixteen bytes of two words at once, with no branch: the network of the
//! Rust crate, with a lane of a vector for each byte.
//!
//! Each lane fetches two neighboring bytes of the source, as `lanes` draws. It takes eight bits of both, which begin at bit
//! 5 where 21 mask bits are below:
//!
//! ```text
//!         byte 3            byte 2
//!  . . . h g f e d | c b a . . . . .      the lane holds h g f e d c b a
//! ```
//!
//! These bits come in as the byte's lowest ones, and each has to move up by the number of clear places below its set
//! place. That number is below 8, so three moves do: by 4, by 2 and by 1, each where that bit of the number is set.
//!
//! Which bits have to move is found the other way round, by moving the mask's own bits down to the low end of their
//! byte, by 1, by 2 and by 4, and noting after each stage where the moved ones have landed:
//!
//! ```text
//!        place   7 6 5 4 3 2 1 0   landed
//!         mask   1 . 1 1 . 1 . .
//! clear below    4   3 3   2
//! stage 0, by 1  1 . . 1 1 1 . .   4 3      from 5 4, with 3 = 1 + 2 below
//! stage 1, by 2  1 . . . . 1 1 1   2 1 0    from 4 3, and from 2, with 2 below
//! stage 2, by 4  . . . . 1 1 1 1   3        from 7, with 4 below
//! ```

ghost use Rattle.std.specs.Prelude.{◌+◌, ◌-◌, ◌*◌, ◌/◌, ◌%◌, ◌^◌, ◌<◌, slice_index, count_ones};
ghost use Rattle.mask_bits.specs.Lanes.{AreLanes};
ghost use Rattle.vortex_mask.specs.Bytes.{EachLane, packed_after, landed_in, odd_places, moved_down, with_moved, halved, moved_up};
ghost use Rattle.vortex_mask.specs.Deposit.{Deposits};

use super::lanes::{bytes_of, counts_below, neighbors, words_of};
use std::simd::prelude::*;

/// The deposit at any mask, by a network over its eight bytes at once. It takes about as long at
/// each mask, and as long as two deposits by [`deposit_two_bytewise`].
#[inline(always)]
pub fn deposit_bytewise(source: u64, mask: u64) -> u64
    ensures { Deposits source mask result }
{
    deposit_two_bytewise([source, 0], [mask, 0])[0]
}

/// The deposits of two words at any masks, by a network over their sixteen bytes at once. It serves
/// [`deposit_bytewise`], which deposits a single word; kernels take two words by the tables of `nibbles`.
#[inline(always)]
pub(super) fn deposit_two_bytewise(sources: [u64; 2], masks: [u64; 2]) -> [u64; 2]
    ensures first { Deposits (slice_index sources 0) (slice_index masks 0) (slice_index result 0) }
    ensures second { Deposits (slice_index sources 1) (slice_index masks 1) (slice_index result 1) }
{
    let masks = u64x2::from_array(masks);
    let packing = compress(bytes_of(masks));
    let below = counts_below(masks);
    let bytes = neighbors(u64x2::from_array(sources), below);
    // what would lie past the end of a word is of no use
    let bits = eight_bits(bytes.low, bytes.high, below);
    let lanes = move_up(bits & packing.packed, packing.landed_2, 2);
    let lanes = move_up(lanes, packing.landed_1, 1);
    words_of(move_up(lanes, packing.landed_0, 0)).to_array()
}

// In each lane, the places at which an odd number of zeros have been passed, where the zeros
// stand in groups of `2 ^ stage` and only one place of each group is looked at.
#[inline(always)]
fn odd_zeros(zeros: u8x16, stage: u8) -> u8x16
    requires { stage < 3 }
    ensures { AreLanes 16 result (λ j. odd_places (2 ^ stage) (slice_index zeros j)) }
{
    let mut parity = zeros;
    for doubling in stage..3 {
        parity ^= parity << u8x16::splat(1 << doubling);
    }
    parity
}

#[derive(Clone, Copy)]
struct Stage {
    packed: u8x16,
    zeros: u8x16,
    landed: u8x16,
}

// Moves down by `2 ^ stage` the packed bits that have an odd number of zeros below them, and
// keeps every second zero for the stages after this one.
#[inline(always)]
fn run_stage(packed: u8x16, zeros: u8x16, stage: u8) -> Stage
    requires { stage < 3 }
    ensures landed { AreLanes 16 result.landed (λ j.
        moved_down (2 ^ stage) (slice_index packed j) (odd_places (2 ^ stage) (slice_index zeros j))) }
    ensures packed { AreLanes 16 result.packed (λ j.
        with_moved (2 ^ stage) (slice_index packed j) (odd_places (2 ^ stage) (slice_index zeros j))) }
    ensures zeros { AreLanes 16 result.zeros (λ j.
        halved (2 ^ stage) (slice_index zeros j) (odd_places (2 ^ stage) (slice_index zeros j))) }
{
    let step = u8x16::splat(1 << stage);
    let odd = odd_zeros(zeros, stage);
    let moving = packed & odd;
    let landed = moving >> step;
    let even = zeros & !odd;
    Stage {
        packed: packed ^ (moving ^ landed),
        zeros: even ^ (even >> step),
        landed,
    }
}

#[derive(Clone, Copy)]
struct Packing {
    packed: u8x16,
    landed_0: u8x16,
    landed_1: u8x16,
    landed_2: u8x16,
}

// Moves the bits of each mask byte down to its low end, and says where those landed that each stage has moved.
#[inline(always)]
fn compress(mask: u8x16) -> Packing
    ensures places { AreLanes 16 result.packed (λ j. packed_after 3 (slice_index mask j)) }
    ensures full { AreLanes 16 result.packed (λ j. 2 ^ count_ones (slice_index mask j) - 1) }
    ensures landed_0 { AreLanes 16 result.landed_0 (λ j. landed_in 0 (slice_index mask j)) }
    ensures landed_1 { AreLanes 16 result.landed_1 (λ j. landed_in 1 (slice_index mask j)) }
    ensures landed_2 { AreLanes 16 result.landed_2 (λ j. landed_in 2 (slice_index mask j)) }
{
    let by_one = run_stage(mask, !mask, 0);
    let by_two = run_stage(by_one.packed, by_one.zeros, 1);
    let by_four = run_stage(by_two.packed, by_two.zeros, 2);
    Packing {
        packed: by_four.packed,
        landed_0: by_one.landed,
        landed_1: by_two.landed,
        landed_2: by_four.landed,
    }
}

// In each lane, eight bits of the number whose two bytes are `low` and `high`, from that lane of
// `from` on, modulo eight: moved up to bit 7 and cut there, since a lane is moved up by a product
// with a power of two and not by a number of its own.
#[inline(always)]
fn eight_bits(low: u8x16, high: u8x16, from: u8x16) -> u8x16
    ensures { AreLanes 16 result (λ j. (slice_index low j + slice_index high j * 2 ^ 8)
        / 2 ^ (slice_index from j % 8) % 2 ^ 8) }
{
    let powers = u8x16::from_array([128, 64, 32, 16, 8, 4, 2, 1, 128, 64, 32, 16, 8, 4, 2, 1]);
    let power = powers.swizzle_dyn(from & u8x16::splat(7)).cast::<u16>();
    let both = low.cast::<u16>() + (high.cast::<u16>() << u16x16::splat(8));
    (((both * power) >> u16x16::splat(7)) & u16x16::splat(0xFF)).cast::<u8>()
}

// Moves the bits at `landed` back up by `2 ^ stage`.
#[inline(always)]
fn move_up(lanes: u8x16, landed: u8x16, stage: u8) -> u8x16
    requires stage { stage < 3 }
    requires room { EachLane (λ j. slice_index landed j < 2 ^ (8 - 2 ^ stage)) }
    ensures { AreLanes 16 result (λ j.
        moved_up (2 ^ stage) (slice_index landed j) (slice_index lanes j)) }
{
    (lanes & !landed) | ((lanes & landed) << u8x16::splat(1 << stage))
}
