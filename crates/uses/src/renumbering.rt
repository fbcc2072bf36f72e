//! The rows of a file of which some are deleted, and what they are numbered without these.
ghost use Rattle.std.specs.Prelude.{◌≡◌, ◌<◌, ◌↔◌, IfOk, IfSome, IsNone, Some, false, length, map, slice_get};
ghost use Rattle.mask_bits.specs.Buffer.{values};
ghost use Rattle.mask_bits.specs.Positions.{positions};

use mask_bits::{BitBuffer, Ranks, laws};
use std::alloc::{AllocError, Global};

/// The rows of a file that have these numbers among the kept ones, as a list of them in any order that an index gives.
/// There is nothing where a number is that of no row.
pub fn rows_of(
    alloc: Global,
    kept: BitBuffer,
    numbers: &[usize],
) -> Result<Option<Vec<usize>>, AllocError>
    ensures { IfOk result (λ rows. IfSome rows
        (λ list. map Some list.items ≡ map (slice_get (positions (values kept))) numbers.now)) }
{
    let ranks = Ranks::from_buffer(alloc, kept)?;
    let mut rows = Vec::with_capacity(alloc, numbers.len())?;
    for number in numbers {
        match ranks.select(*number) {
            Some(row) => rows.push(row)?,
            None => return Ok(None),
        }
    }
    Ok(Some(rows))
}

/// The number of a row of the file among the kept ones, if it is one of them.
pub fn number_of(kept: &Ranks, row: usize) -> Option<usize>
    requires { row < length kept.now }
    ensures kept { IfSome result (λ n. slice_get (positions kept.now) n ≡ Some row) }
    ensures deleted { IsNone result ↔ (slice_get kept.now row ≡ Some false) }
{
    laws::position_of_count_below();
    if kept.buffer().value(row) {
        Some(kept.count_below(row))
    } else {
        None
    }
}
