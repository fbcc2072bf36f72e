//! Lists of rows: from an index, joined, deleted, and read as indices, as ranges and by walks.

ghost use Rattle.std.specs.Prelude.{◌<◌};

use crate::calls::{narrow, of_common};
use crate::digest::Digest;
use crate::numbers::Numbers;
use crate::table::{codes, part};
use std::alloc::{AllocError, Global};
use vortex_mask::{AllOr, Mask, MaskError, MaskIter};

// Rows of the table.
const ROWS: usize = 1 << 22;

// The last of the first rows, from which some are deleted: the low bits of an index are one of them.
const NEAR: usize = (1 << 17) - 1;

// Indices of rows: those of two indexes, and few of the same rows.
#[derive(Drop)]
struct Indexes {
    first: Vec<usize>,
    second: Vec<usize>,
    few: Vec<usize>,
}

pub fn run(
    alloc: Global,
    numbers: &mut Numbers,
    rounds: u32,
    digest: &mut Digest,
) -> Result<(), MaskError> {
    let indexes = Indexes {
        first: list(alloc, numbers, 24)?,
        second: list(alloc, numbers, 24)?,
        few: list(alloc, numbers, 24_000)?,
    };
    let codes = codes(alloc, numbers, 1 << 17)?;
    for round in 0..rounds {
        let from = numbers.below(300_000);
        let len = 1000 + numbers.below(60_000);
        let first = part(&indexes.first, from, len);
        let second = part(&indexes.second, from, len);
        let mut mask = Mask::from_indices(alloc, ROWS, first.iter().copied())?;
        digest.add_mask(&mask);
        let common = of_common(alloc, ROWS, first, second)?;
        digest.add_mask(&common);
        let few = of_common(alloc, ROWS, part(&indexes.few, from / 1000, 60), first)?;
        digest.add_mask(&few);
        read(alloc, &codes, &mut mask, round, digest)?;
        left(alloc, numbers, second, round, digest)?;
    }
    Ok(())
}

// Rows in ascending order, one in so many on the average.
fn list(alloc: Global, numbers: &mut Numbers, gap: usize) -> Result<Vec<usize>, AllocError>
    requires { gap < 100_000 }
{
    let mut list = Vec::new(alloc);
    let mut index = 0;
    for _ in 0..ROWS {
        if index >= ROWS {
            break;
        }
        list.push(index)?;
        index += 1 + numbers.below(gap + 1);
    }
    Ok(list)
}

// The true rows of a mask narrowed by a test of them, by its bits or the list of its indices, and a walk over those
// that are left.
fn read(
    alloc: Global,
    codes: &[u8],
    mask: &mut Mask,
    round: u32,
    digest: &mut Digest,
) -> Result<(), MaskError> {
    let shares = [7, 14, 28, 56, 112];
    let share = shares[(round % 5) as usize];
    let codes = part(codes, round as usize % 1024, mask.true_count());
    let mut ranks = Mask::from_rows(alloc, codes, |code| *code < share)?;
    if round % 2 == 0 {
        listed(ranks.threshold_iter(alloc, 1, 1)?, digest);
    }
    let narrowed = narrow(alloc, mask, &ranks)?;
    let mut walked = 0u64;
    for index in narrowed.set_indices() {
        walked = walked.rotate_left(1) ^ index as u64;
    }
    digest.add(walked);
    Ok(())
}

// Rows that are left when some are deleted, as ranges or indices, by a list or a walk.
fn left(
    alloc: Global,
    numbers: &mut Numbers,
    deleted: &[usize],
    round: u32,
    digest: &mut Digest,
) -> Result<(), MaskError> {
    let rows = NEAR + 1 + numbers.below(200_000);
    let few = deleted.iter().map(|index| *index & NEAR);
    let mut left = Mask::from_excluded_indices(alloc, rows, few)?;
    if round % 4 == 0 {
        let mut walked = 0u64;
        for range in left.set_slices() {
            walked = walked.rotate_left(1) ^ (range.0 ^ range.1) as u64;
        }
        digest.add(walked);
    }
    let den = 1 + numbers.below(2);
    listed(left.threshold_iter(alloc, 1, den)?, digest);
    Ok(())
}

// Adds a list that a mask lends.
fn listed(list: AllOr<MaskIter<'_>>, digest: &mut Digest) {
    match list {
        AllOr::All => digest.add(1),
        AllOr::None => digest.add(2),
        AllOr::Some(MaskIter::Indices(indices)) => digest.add_list(indices),
        AllOr::Some(MaskIter::Slices(ranges)) => digest.add_list(ranges),
    }
}
