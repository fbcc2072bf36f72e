//! Masks from indices, and what is wrong with a list of them.

ghost use Rattle.std.specs.Prelude.{◌≡◌, ◌*◌, ◌<◌, ◌≤◌, ◌⊎◌, IfOk, IfErr, Some, None, Ok, Err, length, vec_len, alloc_error, ℕ, List, true, false};
ghost use Rattle.std.specs.List.Sorted.{IsStrictlyIncreasing};
ghost use Rattle.std.specs.Iterator.{IsFinite, Drains};
ghost use Rattle.std.specs.Iterator.Runs.{WholeRun, EachRunFrom};
ghost use Rattle.mask_bits.specs.Bitmap.{bitmap};
ghost use Rattle.mask_bits.specs.Positions.{positions, true_at, repeated};
ghost use Rattle.vortex_mask.specs.Faults.{index_fault, first_unsorted, first_repeated, out_of_bounds, first_past};
ghost use Rattle.mask_bits.specs.CommonIndices.{common};
ghost use Rattle.vortex_mask.specs.Caches.{caches, where_mixed};
ghost use Rattle.vortex_mask.specs.Mask.{truth, variant, fitting_variant, all_false, all_true};
ghost use Rattle.vortex_mask.specs.MaskValues.{only_indices, no_caches};
ghost use Rattle.mask_bits.specs.Lists.{not_of};
ghost use Rattle.vortex_mask.specs.Ranks.{IsAscending};

use crate::conditions::ascends;
use crate::mask::{Mask, MaskError};
use mask_bits::byte_list::ByteList;
use mask_bits::common_indices::keep_common;
use mask_bits::write_bits::{ones, unset_value};
use mask_bits::{BitBuffer, BitBufferMut};
use std::alloc::Global;

/// Masks of true indices.
impl Mask {
    /// The mask of `len` values that is true exactly at the indices that an iterator yields, each
    /// above the one before it. Where both true and false values are there, it caches them.
    ///
    /// The iterator is read to its end first, so `Memory` may come before the other refusals:
    /// `UnsortedIndices` for the first place below the one before it, else `RepeatedIndex` for the
    /// first that equals it, else `IndexOutOfBounds` for the first that is not below `len`.
    // rust: named try_from_indices
    #[tactic(auto, using(crate::proofs::Masks::FaultLemmas::no_index_fault))]
    pub fn from_indices<I: Iterator<Item = usize>>(
        alloc: Global,
        len: usize,
        indices: I,
    ) -> Result<Mask, MaskError>
        requires can { I.can_next indices }
        requires ends { IsFinite (I.remaining indices) }
        ensures len { IfOk result (λ m. length (truth m) ≡ len) }
        ensures indices { IfOk result (λ m. Drains I.next_gives indices (positions (truth m))) }
        ensures faultless { IfOk result (λ m. index_fault len (positions (truth m)) ≡ None) }
        ensures whole { IfOk result
            (λ m. WholeRun I.next_gives indices (λ p. positions (truth m) ≡ p.items)) }
        ensures variant { IfOk result (λ m. variant m ≡ fitting_variant all_false (truth m)) }
        ensures caches { IfOk result
            (λ m. caches m ≡ where_mixed m (only_indices (positions (truth m)))) }

        // A refusal is the fault of what the iterator yielded, or that memory is out.
        ensures refused { IfErr result (λ e. (e ≡ MaskError.Memory alloc_error)
            ⊎ ((xs : List ℕ) × Drains I.next_gives indices xs × (index_fault len xs ≡ Some e))) }
        ensures refused_whole { IfErr result (λ e. (e ≡ MaskError.Memory alloc_error)
            ⊎ WholeRun I.next_gives indices (λ p. index_fault len p.items ≡ Some e)) }
    {
        let indices: Vec<usize> = indices.collect(alloc)?;
        if let Some(fault) = index_fault(len, &indices) {
            return Err(fault);
        }
        Mask::of_indices(alloc, len, indices)
    }
}

/// What [`Mask::from_indices`] refuses these indices by, if it does: order over the whole list first, then repeats,
/// then bounds.
#[tactic(auto, using(crate::proofs::Masks::FaultLemmas::order_facts))]
pub fn index_fault(len: usize, indices: &[usize]) -> Option<MaskError>
    ensures { result ≡ index_fault len indices.now }
{
    // one quick scan tells that there is no fault, and the slower ones which it is
    if let Some(last) = indices.last() {
        if *last < len && ascends(indices) {
            return None;
        }
    }
    if let Some(at) = first_unsorted(indices) {
        return Some(MaskError::UnsortedIndices { at });
    }
    if let Some(at) = first_repeated(indices) {
        return Some(MaskError::RepeatedIndex { at });
    }
    out_of_bounds(len, indices)
}

// The first place whose index is below the one before it.
#[tactic(auto, using(crate::proofs::Masks::FaultLemmas::order_facts))]
fn first_unsorted(indices: &[usize]) -> Option<usize>
    ensures { result ≡ first_unsorted indices.now }
{
    for at in 1..indices.len() {
        if indices[at] < indices[at - 1] {
            return Some(at);
        }
    }
    None
}

// The first place whose index equals the one before it.
#[tactic(auto, using(crate::proofs::Masks::FaultLemmas::order_facts))]
fn first_repeated(indices: &[usize]) -> Option<usize>
    ensures { result ≡ first_repeated indices.now }
{
    for at in 1..indices.len() {
        if indices[at] == indices[at - 1] {
            return Some(at);
        }
    }
    None
}

// The first index that is not below the length.
fn out_of_bounds(len: usize, indices: &[usize]) -> Option<MaskError>
    ensures { result ≡ out_of_bounds len indices.now }
{
    let index = *indices.iter().find(|index| **index >= len)?;
    Some(MaskError::IndexOutOfBounds { index, len })
}

/// Masks of true indices in any order.
impl Mask {
    /// The mask of `len` values that is true exactly at the indices that an iterator yields, in any
    /// order and with repeats: what [`Mask::from_indices`] refuses by its order. It caches no list. No
    /// values give `AllFalse(0)`.
    ///
    /// The values are made first, so `Memory` may come before the other refusal:
    /// `IndexOutOfBounds` for the first index, as the iterator has them, that is not below `len`.
    // rust: named try_from_unsorted_indices
    pub fn from_unsorted_indices<I: Iterator<Item = usize>>(
        alloc: Global,
        len: usize,
        indices: I,
    ) -> Result<Mask, MaskError>
        requires can { I.can_next indices }
        requires ends { IsFinite (I.remaining indices) }
        ensures len { IfOk result (λ m. length (truth m) ≡ len) }
        ensures list { IfOk result (λ m. (xs : List ℕ) × Drains I.next_gives indices xs
            × (out_of_bounds len xs ≡ None) × (truth m ≡ true_at len xs)) }
        ensures whole { IfOk result (λ m. WholeRun I.next_gives indices
            (λ p. (out_of_bounds len p.items ≡ None) × (truth m ≡ true_at len p.items))) }
        ensures variant { IfOk result (λ m. variant m ≡ fitting_variant all_false (truth m)) }
        ensures caches { IfOk result (λ m. caches m ≡ no_caches) }

        // A refusal is the fault of what the iterator yielded, or that memory is out.
        ensures refused { IfErr result (λ e. (e ≡ MaskError.Memory alloc_error)
            ⊎ ((xs : List ℕ) × Drains I.next_gives indices xs × (out_of_bounds len xs ≡ Some e))) }
        ensures refused_whole { IfErr result (λ e. (e ≡ MaskError.Memory alloc_error)
            ⊎ WholeRun I.next_gives indices (λ p. out_of_bounds len p.items ≡ Some e)) }
    {
        let mut values = BitBufferMut::new_unset(alloc, len)?;
        if let Some(index) = include(&mut values, len, indices) {
            return Err(MaskError::IndexOutOfBounds { index, len });
        }
        Mask::from_buffer(alloc, values.freeze()?)
    }
}

// Makes those of `len` values true that are at these indices, and tells the first index that is past their end.
fn include<I: Iterator<Item = usize>>(
    values: &mut BitBufferMut,
    len: usize,
    indices: I,
) -> Option<usize>
    requires can { I.can_next indices }
    requires ends { IsFinite (I.remaining indices) }
    requires none { values.old ≡ repeated len false }
    ensures { (xs : List ℕ) × Drains I.next_gives indices xs
        × (values.new ≡ true_at len xs) × (result ≡ first_past len xs) }
{
    let mut outside = None;
    for index in indices {
        if index < len {
            values.set(index);
        } else {
            outside = outside.or(Some(index));
        }
    }
    outside
}

/// Masks of false indices.
impl Mask {
    /// The mask of `len` values that is false exactly at the indices that an iterator yields, in
    /// any order and with repeats. No values give `AllTrue(0)`.
    ///
    /// The values are made first, so `Memory` may come before the other refusal:
    /// `IndexOutOfBounds` for the first index, as the iterator has them, that is not below `len`.
    // rust: named try_from_excluded_indices
    pub fn from_excluded_indices<I: Iterator<Item = usize>>(
        alloc: Global,
        len: usize,
        indices: I,
    ) -> Result<Mask, MaskError>
        requires can { I.can_next indices }
        requires ends { IsFinite (I.remaining indices) }
        ensures len { IfOk result (λ m. length (truth m) ≡ len) }
        ensures list { IfOk result (λ m. (xs : List ℕ) × Drains I.next_gives indices xs
            × (out_of_bounds len xs ≡ None) × (truth m ≡ not_of (true_at len xs))) }
        ensures whole { IfOk result (λ m. WholeRun I.next_gives indices
            (λ p. (out_of_bounds len p.items ≡ None) × (truth m ≡ not_of (true_at len p.items)))) }
        ensures variant { IfOk result (λ m. variant m ≡ fitting_variant all_true (truth m)) }
        ensures caches { IfOk result (λ m. caches m ≡ no_caches) }

        // A refusal is the fault of what the iterator yielded, or that memory is out.
        ensures refused { IfErr result (λ e. (e ≡ MaskError.Memory alloc_error)
            ⊎ ((xs : List ℕ) × Drains I.next_gives indices xs × (out_of_bounds len xs ≡ Some e))) }
        ensures refused_whole { IfErr result (λ e. (e ≡ MaskError.Memory alloc_error)
            ⊎ WholeRun I.next_gives indices (λ p. out_of_bounds len p.items ≡ Some e)) }
    {
        let mut bytes = ones(alloc, len)?;
        if let Some(index) = exclude(&mut bytes, len, indices) {
            return Err(MaskError::IndexOutOfBounds { index, len });
        }
        Mask::of_bytes(alloc, bytes, len)
    }

    // The mask of the first `len` bits of bytes. No values give `AllTrue(0)`.
    #[tactic(auto, using(crate::proofs::Masks::MaskLemmas::variant_facts, crate::proofs::Masks::MaskLemmas::bitmap_facts))]
    fn of_bytes(alloc: Global, bytes: ByteList, len: usize) -> Result<Mask, MaskError>
        requires { len ≤ 8 * vec_len bytes }
        ensures list { IfOk result (λ m. truth m ≡ bitmap bytes.items 0 len) }
        ensures variant { IfOk result (λ m. variant m ≡ fitting_variant all_true (truth m)) }
        ensures caches { IfOk result (λ m. caches m ≡ no_caches) }
        ensures refused { IfErr result (λ e. e ≡ MaskError.Memory alloc_error) }
    {
        if len == 0 {
            return Ok(Mask::AllTrue(0));
        }
        Mask::from_buffer(alloc, BitBuffer::from_list(bytes, len)?)
    }
}

// Makes those of the first `len` values false that are at these indices, and tells the first index that is past their end.
fn exclude<I: Iterator<Item = usize>>(bytes: &mut [u8], len: usize, indices: I) -> Option<usize>
    requires can { I.can_next indices }
    requires ends { IsFinite (I.remaining indices) }
    requires covered { len ≤ 8 * length bytes.old }
    requires all { bitmap bytes.old 0 len ≡ repeated len true }
    ensures { (xs : List ℕ) × Drains I.next_gives indices xs
        × (bitmap bytes.new 0 len ≡ not_of (true_at len xs)) × (result ≡ first_past len xs) }
{
    let mut past_end = None;
    for index in indices {
        if index < len {
            unset_value(bytes, len, index);
        } else {
            past_end = past_end.or(Some(index));
        }
    }
    past_end
}

/// Masks of the indices that two lists have in common.
impl Mask {
    /// The mask of `len` values that is true exactly at the indices that both iterators yield, each
    /// in ascending order. Where both true and false values are there, it caches them.
    ///
    /// An index that only one of them yields is dropped, past `len` too. The iterators are read to
    /// their ends first, so `Memory` may come before the other refusal: `IndexOutOfBounds` for the
    /// first index in common that is not below `len`.
    // rust: named try_from_intersection_indices
    #[tactic(auto, using(crate::proofs::Masks::FaultLemmas::listed_facts))]
    pub fn from_intersection_indices<L: Iterator<Item = usize>, R: Iterator<Item = usize>>(
        alloc: Global,
        len: usize,
        lhs: L,
        rhs: R,
    ) -> Result<Mask, MaskError>
        requires can_lhs { L.can_next lhs }
        requires can_rhs { R.can_next rhs }
        requires lhs_ends { IsFinite (L.remaining lhs) }
        requires rhs_ends { IsFinite (R.remaining rhs) }
        requires lhs_ascends { EachRunFrom L.next_gives lhs IsAscending }
        requires rhs_ascends { EachRunFrom R.next_gives rhs IsAscending }
        ensures len { IfOk result (λ m. length (truth m) ≡ len) }
        ensures indices { IfOk result (λ m. (xs : List ℕ) × (ys : List ℕ)
            × Drains L.next_gives lhs xs × Drains R.next_gives rhs ys
            × (positions (truth m) ≡ common xs ys)) }
        ensures whole { IfOk result (λ m. WholeRun L.next_gives lhs
            (λ p. WholeRun R.next_gives rhs (λ q. positions (truth m) ≡ common p.items q.items))) }
        ensures within { IfOk result (λ m. out_of_bounds len (positions (truth m)) ≡ None) }
        ensures variant { IfOk result (λ m. variant m ≡ fitting_variant all_false (truth m)) }
        ensures caches { IfOk result
            (λ m. caches m ≡ where_mixed m (only_indices (positions (truth m)))) }

        // A refusal is the fault of what the iterators yielded, or that memory is out.
        ensures refused { IfErr result (λ e. (e ≡ MaskError.Memory alloc_error)
            ⊎ ((xs : List ℕ) × (ys : List ℕ)
            × Drains L.next_gives lhs xs × Drains R.next_gives rhs ys
            × (out_of_bounds len (common xs ys) ≡ Some e))) }
        ensures refused_whole { IfErr result (λ e. (e ≡ MaskError.Memory alloc_error)
            ⊎ WholeRun L.next_gives lhs (λ p. WholeRun R.next_gives rhs
            (λ q. out_of_bounds len (common p.items q.items) ≡ Some e))) }
    {
        let lhs: Vec<usize> = lhs.collect(alloc)?;
        let rhs: Vec<usize> = rhs.collect(alloc)?;
        let mut indices = common(lhs, rhs);
        if let Some(fault) = out_of_bounds(len, &indices) {
            return Err(fault);
        }
        // the mask keeps the list, which may have room for all of the shorter one
        indices.shrink_to_fit();
        Mask::of_indices(alloc, len, indices)
    }
}

// The indices that both lists have, in the shorter one's room.
#[tactic(auto, using(mask_bits::proofs::Lists::CommonLemmas::common_either_way))]
fn common(lhs: Vec<usize>, rhs: Vec<usize>) -> Vec<usize>
    requires lhs { IsStrictlyIncreasing lhs.items }
    requires rhs { IsStrictlyIncreasing rhs.items }
    ensures { result.items ≡ common lhs.items rhs.items }
{
    if lhs.len() <= rhs.len() {
        common_of(lhs, &rhs)
    } else {
        common_of(rhs, &lhs)
    }
}

// Those of a list that another one has too, in its own room.
#[tactic(auto, using(mask_bits::proofs::Lists::Words::BlockLemmas::indices_themselves))]
fn common_of(list: Vec<usize>, other: &[usize]) -> Vec<usize>
    requires list { IsStrictlyIncreasing list.items }
    requires other { IsStrictlyIncreasing other.now }
    ensures { result.items ≡ common list.items other.now }
{
    let mut list = list;
    let found = keep_common(&mut list, other);
    list.truncate(found);
    list
}
