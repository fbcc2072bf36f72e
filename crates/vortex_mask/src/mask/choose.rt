//! The rows that a mask chooses.

ghost use Rattle.std.specs.Prelude.{◌≡◌, ◌≤◌, [], IsOk, IfOk, IsOkUnless, alloc_error, length, vec_len};
ghost use Rattle.std.specs.Vec.{vec_capacity};
ghost use Rattle.mask_bits.specs.Buffer.{values};
ghost use Rattle.mask_bits.specs.Positions.{count, chosen};
ghost use Rattle.vortex_mask.specs.Mask.{truth, variant, all_false};

use crate::mask::{Mask, MaskError};
use mask_bits::BitBuffer;
use mask_bits::choose::rows::choose_rows;
use std::alloc::Global;
use std::mem::size_of_val;

// Rows that lie so many bytes apart on the average go one by one: to read others beside them, from lines of their own,
// takes longer than a branch that is guessed wrong.
const FAR: usize = 256;

// Room for so many rows more than are chosen, since several are put at once, of which the last may be any.
const MORE: usize = 16;

/// Choosing rows.
#[tactic(auto, using(crate::proofs::Masks::MaskLemmas::chosen_value_facts, crate::proofs::Masks::MaskLemmas::count_facts))]
impl Mask {
    /// The rows at the true indices, in their order.
    // rust: named try_choose
    pub fn choose<T: Copy>(&self, alloc: Global, rows: &[T]) -> Result<Vec<T>, MaskError>
        requires { length rows.now ≡ length (truth self.now) }
        ensures rows { IfOk result (λ v. v.items ≡ chosen rows.now (truth self.now)) }
        ensures len { IfOk result (λ v. vec_len v ≡ count (truth self.now)) }

        // An all-false mask chooses no row, and needs no memory for it.
        ensures none { variant self.now ≡ all_false → IsOk result }
        ensures refused { IsOkUnless result (MaskError.Memory alloc_error) }
    {
        match self {
            Mask::AllTrue(_) => Ok(Vec::from_slice(alloc, rows)?),
            Mask::AllFalse(_) => Ok(Vec::new(alloc)),
            Mask::Values(values) => {
                let (buffer, true_count) = (values.bit_buffer(), values.true_count());
                let mut chosen_rows = Vec::with_capacity(alloc, true_count.saturating_add(MORE))?;
                put_chosen_rows(&mut chosen_rows, rows, buffer, true_count);
                Ok(chosen_rows)
            }
        }
    }
}

// Puts the rows at the true values into an empty list with room for just these, which are so many.
// rust: replaced by native::put_chosen_rows
// rust: visible
fn put_chosen_rows<T: Copy>(
    chosen_rows: &mut Vec<T>,
    rows: &[T],
    buffer: &BitBuffer,
    true_count: usize,
)
    requires fitting { length rows.now ≡ length (values buffer.now) }
    requires empty { chosen_rows.old.items ≡ [] }
    requires counted { true_count ≡ count (values buffer.now) }
    requires room { true_count ≤ vec_capacity chosen_rows.old }
    ensures { chosen_rows.new.items ≡ chosen rows.now (values buffer.now) }
{
    if true_count < size_of_val(rows) / FAR {
        choose_rows::<0, _, _>(chosen_rows, rows, &buffer.chunks());
    } else {
        choose_rows::<4, _, _>(chosen_rows, rows, &buffer.chunks());
    }
}
