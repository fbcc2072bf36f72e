//! What a test of their rows leaves of a mask's values.

ghost use Rattle.std.specs.Prelude.{◌≡◌, IsOk, IfOk, IsOkUnless, alloc_error, length};
ghost use Rattle.std.specs.Fn.{FnReturnsAt};
ghost use Rattle.mask_bits.specs.Rows.{AreLeft, AreLeftAsComputed};
ghost use Rattle.vortex_mask.specs.Caches.{caches};
ghost use Rattle.vortex_mask.specs.Mask.{truth, variant, fitting_variant, all_false};
ghost use Rattle.vortex_mask.specs.MaskValues.{no_caches};

use crate::mask::{Mask, MaskError};
use std::alloc::Global;

impl Mask {
    /// The values that are true here and of whose rows a test says so too: value `i` is true exactly where it is here and
    /// the test returns so for row `i`.
    ///
    /// The next one of several tests of a column's rows. The test is a function of a row: where few of 64 values are true,
    /// it is asked of their rows alone, and else of all 64 together, so of rows too that aren't left.
    // rust: named try_and_rows
    pub fn and_rows<T, F: Fn(&T) -> bool>(
        &self,
        alloc: Global,
        rows: &[T],
        test: F,
    ) -> Result<Mask, MaskError>
        requires same_len { length rows.now ≡ length (truth self.now) }
        requires callable { F.IsAlwaysCallable test }
        ensures left { IfOk result
            (λ m. AreLeft (FnReturnsAt F.Fn test) rows.now (truth self.now) (truth m)) }
        ensures list { IfOk result
            (λ m. AreLeftAsComputed (F.post test) rows.now (truth self.now) (truth m)) }
        ensures len { IfOk result (λ m. length (truth m) ≡ length (truth self.now)) }
        ensures variant { IfOk result (λ m. variant m ≡ fitting_variant all_false (truth m)) }
        ensures caches { IfOk result (λ m. caches m ≡ no_caches) }

        // An all-false mask stays so, and needs no memory for it.
        ensures none { variant self.now ≡ all_false → IsOk result }
        ensures refused { IsOkUnless result (MaskError.Memory alloc_error) }
    {
        match self {
            Mask::AllTrue(_) => Mask::from_rows(alloc, rows, test),
            Mask::AllFalse(len) => Ok(Mask::new_false(*len)),
            Mask::Values(values) => {
                let left = values.bit_buffer().and_rows(alloc, rows, test)?;
                Mask::from_buffer(alloc, left)
            }
        }
    }
}
