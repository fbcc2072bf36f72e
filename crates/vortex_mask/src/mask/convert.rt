//! Masks from buffers and truth values, and buffers from masks.

ghost use Rattle.std.specs.Prelude.{◌≡◌, ◌<◌, true, IsOk, IfOk, All, IsOkUnless, alloc_error, Ok};
ghost use Rattle.std.specs.Fn.{FnReturnsAt};
ghost use Rattle.std.specs.Iterator.{UpTo, Drains};
ghost use Rattle.std.specs.Iterator.Runs.{WholeRun};
ghost use Rattle.vortex_mask.specs.AllOr.{all_or_copied, IsListOf};
ghost use Rattle.mask_bits.specs.Buffer.{values};
ghost use Rattle.mask_bits.specs.Nullable.{is_true_of};
ghost use Rattle.mask_bits.specs.NullableBuffer.{nullable_values};
ghost use Rattle.mask_bits.specs.Rows.{AreAnswers, AreAsComputed};
ghost use Rattle.vortex_mask.specs.Caches.{caches, where_mixed};
ghost use Rattle.vortex_mask.specs.Mask.{truth, variant, fitting_variant, all_false, IsUniform, held_buffer};
ghost use Rattle.vortex_mask.specs.MaskValues.{no_caches, only_ranges};
ghost use Rattle.vortex_mask.specs.declared.mask.Mask.TheVariants.{AllTrue};
ghost use Rattle.mask_bits.specs.RunScan.{runs};
ghost use Rattle.mask_bits.specs.Runs.{AreRanges};

use crate::mask::from_slices::merge_touching;
use crate::mask::{AllOr, Mask, MaskError, MaskValues};
use mask_bits::counts::count_bits;
use mask_bits::from_rows::words_of_answers;
use mask_bits::{BitBuffer, NullableBitBuffer};
use std::alloc::Global;

/// From packed or single values.
#[tactic(auto, using(crate::proofs::Masks::MaskLemmas::variant_facts))]
impl Mask {
    /// The values of a buffer. An empty one gives `AllFalse(0)`.
    // rust: named try_from_buffer
    pub fn from_buffer(alloc: Global, buffer: BitBuffer) -> Result<Mask, MaskError>
        ensures list { IfOk result (λ m. truth m ≡ values buffer) }
        ensures variant { IfOk result (λ m. variant m ≡ fitting_variant all_false (values buffer)) }
        ensures caches { IfOk result (λ m. caches m ≡ no_caches) }
        ensures uniform { IsUniform (values buffer) → IsOk result }
        ensures refused { IsOkUnless result (MaskError.Memory alloc_error) }
    {
        let true_count = buffer.true_count();
        Mask::from_counted_buffer(alloc, buffer, true_count, None)
    }

    /// The values that are true, which are those that a filter keeps: no null is one. None at all give
    /// `AllFalse(0)`.
    // rust: named try_from_nullable
    pub fn from_nullable(alloc: Global, answers: &NullableBitBuffer) -> Result<Mask, MaskError>
        ensures list { IfOk result (λ m. truth m ≡ is_true_of (nullable_values answers.now)) }
        ensures variant { IfOk result (λ m. variant m
            ≡ fitting_variant all_false (is_true_of (nullable_values answers.now))) }
        ensures caches { IfOk result (λ m. caches m ≡ no_caches) }
        ensures refused { IsOkUnless result (MaskError.Memory alloc_error) }
    {
        let kept = answers.is_true(alloc)?;
        Mask::from_buffer(alloc, kept)
    }

    /// The values of a buffer, whose true indices these ranges hold. Where some values are true and
    /// some are not the mask caches its runs: ranges that touch are merged, in the memory
    /// that came with them. An empty buffer gives `AllFalse(0)`.
    // rust: named try_from_buffer_with_slices
    pub fn from_buffer_with_slices(
        alloc: Global,
        buffer: BitBuffer,
        mut ranges: Vec<(usize, usize)>,
    ) -> Result<Mask, MaskError>
        requires { AreRanges (values buffer) ranges.items }
        ensures list { IfOk result (λ m. truth m ≡ values buffer) }
        ensures variant { IfOk result (λ m. variant m ≡ fitting_variant all_false (values buffer)) }
        ensures caches { IfOk result
            (λ m. caches m ≡ where_mixed m (only_ranges (runs (values buffer)))) }
        ensures uniform { IsUniform (values buffer) → IsOk result }
        ensures refused { IsOkUnless result (MaskError.Memory alloc_error) }
    {
        merge_touching(&mut ranges);
        let true_count = buffer.true_count();
        Mask::from_counted_buffer(alloc, buffer, true_count, Some(ranges))
    }

    /// The values that an iterator yields, in their order. No values give `AllFalse(0)`.
    // rust: named try_from_bools
    pub fn from_bools<I: Iterator<Item = bool>>(alloc: Global, bools: I) -> Result<Mask, MaskError>
        requires can { I.can_next bools }
        requires ends { UpTo (I.remaining bools) usize.MAX }
        ensures list { IfOk result (λ m. Drains I.next_gives bools (truth m)) }
        ensures whole { IfOk result (λ m. WholeRun I.next_gives bools (λ p. truth m ≡ p.items)) }
        ensures variant { IfOk result (λ m. variant m ≡ fitting_variant all_false (truth m)) }
        ensures caches { IfOk result (λ m. caches m ≡ no_caches) }
        ensures refused { IsOkUnless result (MaskError.Memory alloc_error) }
    {
        let buffer = BitBuffer::from_bools(alloc, bools)?;
        Mask::from_buffer(alloc, buffer)
    }

    /// What a test returns for each row, in their order: value `i` is its result for row `i`. No rows give `AllFalse(0)`.
    ///
    /// The filter of a column by a test of its rows, such as `|row| *row > low`.
    // rust: level to v4 where size_of::<T>() >= 4
    // rust: named try_from_rows
    pub fn from_rows<T, F: Fn(&T) -> bool>(
        alloc: Global,
        rows: &[T],
        test: F,
    ) -> Result<Mask, MaskError>
        requires { F.IsAlwaysCallable test }
        ensures answers { IfOk result
            (λ m. AreAnswers (FnReturnsAt F.Fn test) rows.now (truth m)) }
        ensures list { IfOk result (λ m. AreAsComputed (F.post test) rows.now (truth m)) }
        ensures variant { IfOk result (λ m. variant m ≡ fitting_variant all_false (truth m)) }
        ensures caches { IfOk result (λ m. caches m ≡ no_caches) }
        ensures refused { IsOkUnless result (MaskError.Memory alloc_error) }
    {
        let words = words_of_answers(alloc, rows, test)?;
        let true_count = count_bits(&words, 0, rows.len());
        Mask::of_words(alloc, words, rows.len(), true_count)
    }
}

/// To packed values.
#[tactic(auto, using(mask_bits::proofs::Lists::CountLemmas::repeated_facts))]
impl Mask {
    /// `All`, `None` or the packed values, by variant.
    pub fn bit_buffer(&self) -> AllOr<&BitBuffer>
        ensures held { all_or_copied result ≡ held_buffer self.now }
        ensures list { IsListOf result (truth self.now) }
    {
        match self {
            Mask::AllTrue(_) => AllOr::All,
            Mask::AllFalse(_) => AllOr::None,
            Mask::Values(values) => AllOr::Some(values.bit_buffer()),
        }
    }

    /// A buffer of the values.
    // rust: named try_to_bit_buffer
    pub fn to_bit_buffer(&self, alloc: Global) -> Result<BitBuffer, MaskError>
        ensures list { IfOk result (λ b. values b ≡ truth self.now) }
        ensures refused { IsOkUnless result (MaskError.Memory alloc_error) }
    {
        match self {
            Mask::AllTrue(len) => Ok(BitBuffer::new_set(alloc, *len)?),
            Mask::AllFalse(len) => Ok(BitBuffer::new_unset(alloc, *len)?),
            Mask::Values(values) => Ok(values.bit_buffer().clone()?),
        }
    }

    /// A buffer of the values, of a mask that is taken by value.
    // rust: named try_into_bit_buffer
    pub fn into_bit_buffer(self, alloc: Global) -> Result<BitBuffer, MaskError>
        ensures list { IfOk result (λ b. values b ≡ truth self) }
        ensures refused { IsOkUnless result (MaskError.Memory alloc_error) }
    {
        match self {
            Mask::AllTrue(len) => Ok(BitBuffer::new_set(alloc, len)?),
            Mask::AllFalse(len) => Ok(BitBuffer::new_unset(alloc, len)?),
            Mask::Values(values) => Ok(MaskValues::buffer_of(values)?),
        }
    }
}
