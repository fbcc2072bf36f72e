//! Rows of one byte: a vector has eight of them as its lanes, and the places of a byte's set bits say which lanes
//! come first.

ghost use Rattle.std.specs.Prelude.{◌≡◌, ◌+◌, ◌≤◌, ◌++◌, count_ones, length, take};
ghost use Rattle.mask_bits.specs.Positions.{chosen, count};
ghost use Rattle.mask_bits.specs.Words.{word_bits};

use crate::byte_places::places_of;
use crate::choose::small_rows::{ByTable, MoveRows};
use crate::items_of_word::push_eight;
use crate::output::Room;
use std::simd::prelude::*;

impl MoveRows<u8> for ByTable {
    #[inline(always)]
    #[tactic(auto, using(crate::proofs::ByteRowLemmas::rows_of_two_bytes))]
    fn push_sixteen<R: Room<u8>>(out: &mut R, rows: &[u8], bits: u16) {
        push_byte(out, &rows[..8], (bits & 0xFF) as u8);
        push_byte(out, &rows[8..16], (bits >> 8) as u8);
    }
}

// Puts the rows at the set bits of a byte into room for eight.
#[inline(always)]
fn push_byte<R: Room<u8>>(out: &mut R, rows: &[u8], byte: u8)
    requires eight { length rows.now ≡ 8 }
    requires room { length (R.items out.old) + 8 ≤ R.capacity (R.kept out.old) }
    ensures rows { R.items out.new ≡ R.items out.old ++ chosen rows.now (take 8 (word_bits byte)) }
    ensures len { length (R.items out.new) ≡ length (R.items out.old) + count (take 8 (word_bits byte)) }
    ensures kept { R.kept out.new ≡ R.kept out.old }
{
    let before = out.count();
    push_eight(out, &rows_of_byte(rows, byte));
    out.truncate(before + byte.count_ones() as usize);
}

// The rows at the set bits of a byte, and others behind them.
#[inline(always)]
fn rows_of_byte(rows: &[u8], byte: u8) -> [u8; 8]
    requires eight { length rows.now ≡ 8 }
    ensures { take (count_ones byte) result ≡ chosen rows.now (take 8 (word_bits byte)) }
{
    u8x8::from_slice(rows)
        .swizzle_dyn(places_of(byte))
        .to_array()
}
