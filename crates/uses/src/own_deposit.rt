//! A deposit of one's own, plugged into a kernel.
ghost use Rattle.std.specs.Prelude.{◌≡◌, IfOk, length};
ghost use Rattle.mask_bits.specs.Buffer.{values};
ghost use Rattle.mask_bits.specs.Positions.{count, rank_intersection};
ghost use Rattle.vortex_mask.specs.Deposit.{Deposits};
ghost use Rattle.vortex_mask.specs.Mask.{truth};

use mask_bits::BitBuffer;
use std::alloc::Global;
use vortex_mask::intersect_by_rank::{DepositBits, intersect_bit_buffers};
use vortex_mask::{Mask, MaskError};

/// Deposits at one set bit after another, from the lowest.
pub struct InTurn;

impl DepositBits for InTurn {
    fn deposit_bits(source: u64, mask: u64, _mask_count: usize) -> u64 {
        deposit_in_turn(source, mask)
    }
}

// The lowest set bit of the mask takes the lowest bit of the source, and the others take the rest.
#[tactic(auto, using(vortex_mask::proofs::Lists::DepositLawLemmas::deposit_at_no_ones, vortex_mask::proofs::Lists::DepositLawLemmas::without_lowest_is_below, vortex_mask::proofs::Lists::DepositLawLemmas::deposit_of_odd_source, vortex_mask::proofs::Lists::DepositLawLemmas::deposit_of_even_source))]
fn deposit_in_turn(source: u64, mask: u64) -> u64
    ensures { Deposits source mask result }
{
    if mask == 0 {
        return 0;
    }
    let later = mask & (mask - 1);
    let rest = deposit_in_turn(source / 2, later);
    if source % 2 == 1 {
        rest | (mask - later)
    } else {
        rest
    }
}

/// The rows of one bitmap that another one, over its true values, keeps: by a deposit of one's own.
pub fn rank_intersection_by<D: DepositBits>(
    alloc: Global,
    rows: &BitBuffer,
    kept: &BitBuffer,
) -> Result<Mask, MaskError>
    requires { length (values kept.now) ≡ count (values rows.now) }
    ensures { IfOk result (λ m. truth m ≡ rank_intersection (values rows.now) (values kept.now)) }
{
    let (mask, _) = intersect_bit_buffers::<D>(alloc, rows, kept, kept.true_count())?;
    Ok(mask)
}
