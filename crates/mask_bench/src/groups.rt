//! Row groups, most of them all or nothing: planned by ranges, cut, limited, and put together again.

ghost use Rattle.std.specs.Prelude.{◌<◌};

use crate::calls::{bitand, slice, valid_counts};
use crate::digest::Digest;
use crate::numbers::Numbers;
use crate::pages::{bitmap, page};
use mask_bits::BitBuffer;
use std::alloc::{AllocError, Global};
use vortex_mask::{Mask, MaskError};

// Rows of a file.
const ROWS: usize = 1 << 20;

pub fn run(
    alloc: Global,
    numbers: &mut Numbers,
    rounds: u32,
    digest: &mut Digest,
) -> Result<(), MaskError> {
    let bitmap = bitmap(alloc, numbers)?;
    for _ in 0..rounds {
        let gap = 500 << numbers.below(5);
        let ranges = ranges(alloc, numbers, gap)?;
        let file = Mask::from_slices(alloc, ROWS, ranges)?;
        let size = 1024 << numbers.below(4);
        let groups = file.groups(alloc, size)?;
        let kept = kept(alloc, &groups, &bitmap, numbers, digest)?;
        digest.add_mask(&Mask::concat(alloc, kept.iter())?);
        offsets(alloc, &file, size, digest)?;
    }
    Ok(())
}

// Ranges that an index leaves, of about as many rows as lie between them.
fn ranges(
    alloc: Global,
    numbers: &mut Numbers,
    gap: usize,
) -> Result<Vec<(usize, usize)>, AllocError>
    requires { gap < 100_000 }
{
    let mut ranges = Vec::new(alloc);
    let mut from = 0;
    for _ in 0..ROWS {
        if from >= ROWS {
            break;
        }
        let start = from + 1 + numbers.below(gap + 1);
        let end = start + 1 + numbers.below(gap + 1);
        if end > ROWS {
            break;
        }
        ranges.push((start, end))?;
        from = end;
    }
    Ok(ranges)
}

// What is left of each group: nothing is read of those that have no row, and of the others the rows that are valid,
// up to a limit.
fn kept(
    alloc: Global,
    groups: &[Mask],
    bitmap: &BitBuffer,
    numbers: &mut Numbers,
    digest: &mut Digest,
) -> Result<Vec<Mask>, MaskError> {
    let mut kept = Vec::new(alloc);
    for group in groups {
        let share = group.density();
        digest.add_count(share.num);
        if group.all_false() {
            kept.push(Mask::new_false(group.len()))?;
            continue;
        }
        let valid = page(alloc, bitmap, numbers, group.len())?;
        let left = bitand(alloc, group, &valid)?;
        let limit = numbers.below(group.len().max(1));
        let half = slice(alloc, &left, group.len() / 3, group.len())?;
        digest.add_count(half.true_count());
        kept.push(left.limit(alloc, limit)?)?;
    }
    Ok(kept)
}

// How many rows are chosen below each group's first.
fn offsets(alloc: Global, file: &Mask, size: usize, digest: &mut Digest) -> Result<(), MaskError> {
    let mut starts = Vec::new(alloc);
    let mut start = 0;
    for _ in 0..ROWS {
        if start > file.len() {
            break;
        }
        starts.push(start)?;
        start = start.saturating_add(size);
    }
    digest.add_list(&valid_counts(alloc, file, &starts)?);
    Ok(())
}
