//! Masks of values whose count of true ones is known, and which variant holds them.

ghost use Rattle.std.specs.Prelude.{◌≡◌, ◌≢◌, ◌*◌, ◌<◌, ◌≤◌, ◌⊎◌, IsOk, IfOk, IsOkUnless, MatchOption, All, None, alloc_error, length, vec_len};
ghost use Rattle.std.specs.List.Sorted.{IsStrictlyIncreasing};
ghost use Rattle.std.specs.Option.{option_map};
ghost use Rattle.mask_bits.specs.Bitmap.{bitmap};
ghost use Rattle.mask_bits.specs.Buffer.{values};
ghost use Rattle.mask_bits.specs.Positions.{count};
ghost use Rattle.vortex_mask.specs.Caches.{caches, where_mixed, IsOfIndices};
ghost use Rattle.vortex_mask.specs.Mask.{truth, variant, fitting_variant, all_false, IsUniform};
ghost use Rattle.vortex_mask.specs.MaskValues.{AreOf, no_caches};

use crate::mask::{Mask, MaskError, MaskValues};
use mask_bits::BitBuffer;
use mask_bits::byte_list::ByteList;
use std::alloc::Global;
use std::rc::Rc;

#[tactic(auto, using(crate::proofs::Masks::MaskLemmas::variant_facts))]
impl Mask {
    // The mask of `len` values of which `true_count` are true, if these are none or all. No values are all false.
    #[inline]
    pub(super) fn of_one_value(len: usize, true_count: usize) -> Option<Mask>
        ensures { MatchOption result ((0 < true_count) × (true_count ≢ len))
            (λ m. ((true_count ≡ 0) × (m ≡ Mask.AllFalse len))
            ⊎ ((0 < true_count) × (true_count ≡ len) × (m ≡ Mask.AllTrue len))) }
    {
        if true_count == 0 {
            return Some(Mask::AllFalse(len));
        }
        if true_count == len {
            return Some(Mask::AllTrue(len));
        }
        None
    }

    // The mask of mixed values, of which `true_count` are true, with these lists of them cached.
    #[inline(always)]
    pub(super) fn of_mixed(
        alloc: Global,
        buffer: BitBuffer,
        true_count: usize,
        indices: Option<Vec<usize>>,
        ranges: Option<Vec<(usize, usize)>>,
    ) -> Result<Mask, MaskError>
        requires counted { true_count ≡ count (values buffer) }
        requires some_true { 0 < true_count }
        requires some_false { true_count ≢ length (values buffer) }
        requires lists { AreOf (values buffer) (record {
          indices = option_map (λ l. l.items) indices;
          ranges = option_map (λ l. l.items) ranges;
        }) }
        ensures list { IfOk result (λ m. truth m ≡ values buffer) }
        ensures variant { IfOk result (λ m. variant m ≡ fitting_variant all_false (truth m)) }
        ensures caches { IfOk result (λ m. caches m ≡ where_mixed m (record {
          indices = option_map (λ l. l.items) indices;
          ranges = option_map (λ l. l.items) ranges;
        })) }
        ensures refused { IsOkUnless result (MaskError.Memory alloc_error) }
    {
        let values = MaskValues::new(buffer, true_count, indices, ranges);
        Ok(Mask::Values(Rc::new(alloc, values)?))
    }

    // The values of a buffer, of which `true_count` are true. Where they are mixed they cache these
    // ranges, the buffer's runs.
    #[inline]
    pub(crate) fn from_counted_buffer(
        alloc: Global,
        buffer: BitBuffer,
        true_count: usize,
        ranges: Option<Vec<(usize, usize)>>,
    ) -> Result<Mask, MaskError>
        requires counted { true_count ≡ count (values buffer) }
        requires ranges { AreOf (values buffer) (record { indices = None; ranges = option_map (λ l. l.items) ranges }) }
        ensures list { IfOk result (λ m. truth m ≡ values buffer) }
        ensures variant { IfOk result (λ m. variant m ≡ fitting_variant all_false (values buffer)) }
        ensures caches { IfOk result (λ m. caches m
            ≡ where_mixed m (record { indices = None; ranges = option_map (λ l. l.items) ranges })) }
        ensures uniform { IsUniform (values buffer) → IsOk result }
        ensures refused { IsOkUnless result (MaskError.Memory alloc_error) }
    {
        if let Some(mask) = Mask::of_one_value(buffer.len(), true_count) {
            return Ok(mask);
        }
        Mask::of_mixed(alloc, buffer, true_count, None, ranges)
    }

    // The mask of the first `len` bits of `words`, of which `true_count` are true.
    #[tactic(auto, using(crate::proofs::Masks::MaskLemmas::bitmap_facts))]
    pub(crate) fn of_words(
        alloc: Global,
        words: ByteList,
        len: usize,
        true_count: usize,
    ) -> Result<Mask, MaskError>
        requires covered { len ≤ 8 * vec_len words }
        requires counted { true_count ≡ count (bitmap words.items 0 len) }
        ensures list { IfOk result (λ m. truth m ≡ bitmap words.items 0 len) }
        ensures variant { IfOk result (λ m. variant m ≡ fitting_variant all_false (truth m)) }
        ensures caches { IfOk result (λ m. caches m ≡ no_caches) }
        ensures refused { IsOkUnless result (MaskError.Memory alloc_error) }
    {
        if let Some(mask) = Mask::of_one_value(len, true_count) {
            return Ok(mask);
        }
        let buffer = BitBuffer::from_list(words, len)?;
        Mask::of_mixed(alloc, buffer, true_count, None, None)
    }

    // The mask of `len` values that is true exactly at these indices, which it caches.
    #[tactic(auto, using(crate::proofs::Masks::MaskLemmas::variant_facts, crate::proofs::Lists::PlaceListLemmas::index_facts))]
    pub(crate) fn of_indices(
        alloc: Global,
        len: usize,
        indices: Vec<usize>,
    ) -> Result<Mask, MaskError>
        requires ascending { IsStrictlyIncreasing indices.items }
        requires within { All (λ i. i < len) indices.items }
        ensures mask { IfOk result (IsOfIndices len indices.items) }
        ensures uniform { (vec_len indices ≡ 0) ⊎ (vec_len indices ≡ len) → IsOk result }
        ensures refused { IsOkUnless result (MaskError.Memory alloc_error) }
    {
        let true_count = indices.len();
        if let Some(mask) = Mask::of_one_value(len, true_count) {
            return Ok(mask);
        }
        let buffer = BitBuffer::from_indices(alloc, len, &indices)?;
        Mask::of_mixed(alloc, buffer, true_count, Some(indices), None)
    }
}
