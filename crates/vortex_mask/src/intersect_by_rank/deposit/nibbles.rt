//! Deposits into two words at once that read from tables how the bits of a nibble move: four bits, or
//! half of a byte. The network of `bytewise` works that out by shifts, which takes longer.
//!
//! ```text
//!           upper nibble   lower nibble
//!    mask     . 1 . 1   |   1 1 . .
//!    bits     . . d c   |   . . b a     gathered: the first four, and four from bit 2 on
//!  by two     . . d c   |   b a . .     whose set place has two or three clear ones below it
//!  by one     . d . c   |   b a . .     whose set place has one or three
//! ```
//!
//! A nibble's set places have at most three clear ones below them, so two moves do, by two places and
//! by one. The upper nibble's bits lie behind those of the lower one, of which there are as many as the
//! lower nibble's mask has set. A product with a power of two moves them to the upper nibble.

ghost use Rattle.std.specs.Prelude.{◌≡◌, ◌+◌, ◌*◌, ◌/◌, ◌%◌, ◌^◌, ◌<◌, slice_index, length, count_ones};
ghost use Rattle.mask_bits.specs.Lanes.{AreLanes};
ghost use Rattle.vortex_mask.specs.Bytes.{EachLane, AreNibbles, landed_in, stays_in, nibble_moved_up};
ghost use Rattle.vortex_mask.specs.Deposit.{Deposits};

use super::lanes::{bytes_of, counts_below, neighbors, words_of};
use std::simd::prelude::*;

/// The deposits of two words at any masks, by the nibbles of their sixteen bytes at once.
// Inlined, so that a kernel's loop takes the words from registers.
#[inline(always)]
pub(super) fn deposit_two_by_nibbles(sources: [u64; 2], masks: [u64; 2]) -> [u64; 2]
    ensures first { Deposits (slice_index sources 0) (slice_index masks 0) (slice_index result 0) }
    ensures second { Deposits (slice_index sources 1) (slice_index masks 1) (slice_index result 1) }
{
    let masks = u64x2::from_array(masks);
    let nibbles = nibbles_of(bytes_of(masks));
    let below = counts_below(masks);
    let bytes = neighbors(u64x2::from_array(sources), below);
    let bits = four_and_four(bytes.low, bytes.high, below, nibbles.lower);
    words_of(move_up_in_nibbles(bits, nibbles)).to_array()
}

#[derive(Clone, Copy)]
struct TwoNibbles {
    lower: u8x16,
    upper: u8x16,
}

#[inline(always)]
fn nibbles_of(bytes: u8x16) -> TwoNibbles
    ensures lower { AreLanes 16 result.lower (λ j. slice_index bytes j % 2 ^ 4) }
    ensures upper { AreLanes 16 result.upper (λ j. slice_index bytes j / 2 ^ 4) }
{
    TwoNibbles {
        lower: bytes & u8x16::splat(15),
        upper: bytes >> u8x16::splat(4),
    }
}

// In each lane, of the number whose two bytes are `low` and `high`, four bits from that lane of
// `from` on, modulo eight, and above them four bits from as many bits further on as `lower` has set.
#[inline(always)]
fn four_and_four(low: u8x16, high: u8x16, from: u8x16, lower: u8x16) -> u8x16
    requires { EachLane (λ j. slice_index lower j < 16) }
    ensures { AreLanes 16 result (λ j. (slice_index low j + slice_index high j * 2 ^ 8)
        / 2 ^ (slice_index from j % 8) % 2 ^ 4
        + (slice_index low j + slice_index high j * 2 ^ 8)
        / 2 ^ (slice_index from j % 8) / 2 ^ count_ones (slice_index lower j) % 2 ^ 4 * 2 ^ 4) }
{
    let powers = u8x16::from_array([128, 64, 32, 16, 8, 4, 2, 1, 128, 64, 32, 16, 8, 4, 2, 1]);
    let power = powers.swizzle_dyn(from & u8x16::splat(7)).cast::<u16>();
    // two to the number of clear places of a nibble
    let gaps = u8x16::from_array([16, 8, 8, 4, 8, 4, 4, 2, 8, 4, 4, 2, 4, 2, 2, 1]);
    let gap = gaps.swizzle_dyn(lower).cast::<u16>();
    // the first bit wanted moves up to bit 7, and by the gap to bit 11
    let near = (low.cast::<u16>() + (high.cast::<u16>() << u16x16::splat(8))) * power;
    let far = near * gap;
    let both = (near & u16x16::splat(0x0780)) + (far & u16x16::splat(0x7800));
    (both >> u16x16::splat(7)).cast::<u8>()
}

// In each nibble, its bits at the mask's places.
#[inline(always)]
fn move_up_in_nibbles(bits: u8x16, masks: TwoNibbles) -> u8x16
    requires lower { AreNibbles masks.lower }
    requires upper { AreNibbles masks.upper }
    requires lanes { length bits ≡ 16 }
    ensures { AreLanes 16 result (λ j.
        nibble_moved_up (slice_index masks.lower j) (slice_index bits j % 2 ^ 4)
        + nibble_moved_up (slice_index masks.upper j) (slice_index bits j / 2 ^ 4) * 2 ^ 4) }
{
    let moves = moves_of(masks);
    let bits = (bits & moves.stay) | ((bits & moves.by_two) << u8x16::splat(2));
    bits + (bits & moves.by_one)
}

#[derive(Clone, Copy)]
struct Moves {
    stay: u8x16,
    by_two: u8x16,
    by_one: u8x16,
}

// Which bits of each nibble move up by two places and which don't, and which then move by one.
#[inline(always)]
fn moves_of(masks: TwoNibbles) -> Moves
    requires lower { AreNibbles masks.lower }
    requires upper { AreNibbles masks.upper }
    ensures stay { AreLanes 16 result.stay (λ j. stays_in (slice_index masks.lower j)
        + stays_in (slice_index masks.upper j) * 2 ^ 4) }
    ensures by_two { AreLanes 16 result.by_two (λ j. landed_in 1 (slice_index masks.lower j)
        + landed_in 1 (slice_index masks.upper j) * 2 ^ 4) }
    ensures by_one { AreLanes 16 result.by_one (λ j. landed_in 0 (slice_index masks.lower j)
        + landed_in 0 (slice_index masks.upper j) * 2 ^ 4) }
{
    let stay = [0, 1, 1, 3, 0, 3, 3, 7, 0, 1, 1, 7, 0, 7, 7, 15];
    let by_two = [0, 0, 0, 0, 1, 0, 0, 0, 1, 2, 2, 0, 3, 0, 0, 0];
    let by_one = [0, 0, 1, 0, 0, 2, 3, 0, 4, 0, 1, 4, 0, 6, 7, 0];
    Moves {
        stay: of_nibbles(stay, masks),
        by_two: of_nibbles(by_two, masks),
        by_one: of_nibbles(by_one, masks),
    }
}

// In each nibble, what the table has for it.
#[inline(always)]
fn of_nibbles(table: [u8; 16], masks: TwoNibbles) -> u8x16
    requires table { AreNibbles table }
    requires lower { AreNibbles masks.lower }
    requires upper { AreNibbles masks.upper }
    ensures { AreLanes 16 result (λ j. slice_index table (slice_index masks.lower j)
        + slice_index table (slice_index masks.upper j) * 2 ^ 4) }
{
    let table = u8x16::from_array(table);
    table.swizzle_dyn(masks.lower) + (table << u8x16::splat(4)).swizzle_dyn(masks.upper)
}
