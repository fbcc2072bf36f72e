//! The values of a mask that has both true and false ones.

ghost use Rattle.std.specs.Prelude.{◌≡◌, ◌<◌, ◌≤◌, ◌+◌, ◌-◌, ◌++◌, ◌↔◌, [], true, false, All, IsTrue, IfOk, Some, length, slice_get, IsOkUnless, alloc_error, ◌*◌, IsOk, IsSome, OnErr};
ghost use Rattle.std.specs.List.{flat_map, range_with_len};
ghost use Rattle.std.specs.Vec.{vec_capacity, vec_len};
ghost use Rattle.std.specs.Option.{option_map};
ghost use Rattle.std.specs.Borrow.{sem};
ghost use Rattle.std.specs.Cow.{cow_slice_items};
ghost use Rattle.std.specs.Io.BufRead.{Rests};
ghost use Rattle.mask_bits.specs.Buffer.{values};
ghost use Rattle.mask_bits.specs.Positions.{count, positions};
ghost use Rattle.vortex_mask.specs.MaskValues.{HasList, IsMixed, IsWhole, AreOf, contents, with_caches, with_indices, with_made, with_ranges};
ghost use Rattle.mask_bits.specs.RunScan.{runs};
ghost use Rattle.vortex_mask.specs.Lend.{ReachesShare, lends_ranges, IsLentOf, with_list};
ghost use Rattle.vortex_mask.specs.Ranges.{rows_held};
ghost use Rattle.vortex_mask.specs.Text.{counts_text};
ghost use Rattle.vortex_mask.specs.contracts.mask.values.MaskValues.{the_row};

use crate::cached_list::{Cached, cached};
use crate::mask::{MaskError, MaskIter};
use mask_bits::{BitBuffer, laws};
use std::alloc::{AllocError, Global};
use std::borrow::CowSlice;
use std::fmt;
use std::marker::Model;
use std::rc::Rc;

/// The values of a mask that has both true and false ones, shared with clones of the mask.
pub type MaskValuesRef = Rc<MaskValues>;

/// A bit buffer in which some values are true and some are not, with the count of the true ones.
///
/// It may cache the list of the true indices, and the list of their runs.
#[derive(Drop)]
pub struct MaskValues {
    buffer: BitBuffer,
    true_count: usize,
    // rust: visible
    indices: Cached<usize>,
    // rust: visible
    slices: Cached<(usize, usize)>,
}

impl Model for MaskValues {
    ghost use Rattle.std.specs.Option.{option_map};
    ghost use Rattle.vortex_mask.specs.MaskValues.{Contents, IsWhole, contents};

    ghost Value = { Contents };

    ghost view = { λ v. contents v.buffer v.true_count
        (option_map (λ l. l.items) v.indices) (option_map (λ l. l.items) v.slices) };

    ghost invariant = { λ v. IsWhole (contents v.buffer v.true_count
        (option_map (λ l. l.items) v.indices) (option_map (λ l. l.items) v.slices)) };
}

impl fmt::Debug for MaskValues {
    ghost debug_output = { λ v. Some (counts_text (values v.buffer)) };

    fn fmt<W: fmt::Write>(&self, f: &mut fmt::Formatter<W>) -> fmt::Result {
        let true_count = self.true_count();
        let len = self.len();
        write!(f, "true_count={true_count}, len={len}")
    }
}

impl MaskValues {
    #[inline(always)]
    pub(crate) fn new(
        buffer: BitBuffer,
        true_count: usize,
        indices: Option<Vec<usize>>,
        slices: Option<Vec<(usize, usize)>>,
    ) -> MaskValues
        requires { IsWhole (contents buffer true_count
            (option_map (λ l. l.items) indices) (option_map (λ l. l.items) slices)) }
        ensures { result ≡ contents buffer true_count
            (option_map (λ l. l.items) indices) (option_map (λ l. l.items) slices) }
    {
        MaskValues {
            buffer,
            true_count,
            indices: cached(indices),
            slices: cached(slices),
        }
    }

    /// How many values there are.
    pub fn len(&self) -> usize
        ensures { result ≡ length (values self.now.buffer) }
    {
        self.buffer.len()
    }

    /// Always false: there are at least two values.
    pub fn is_empty(&self) -> bool
        ensures { IsTrue result ↔ (values self.now.buffer ≡ []) }
    {
        self.buffer.is_empty()
    }

    /// How many values are true: at least one, and not all.
    pub fn true_count(&self) -> usize
        ensures counted { result ≡ count (values self.now.buffer) }
        ensures cached { result ≡ self.now.true_count }
        ensures some_true { 0 < result }
        ensures some_false { result < length (values self.now.buffer) }
    {
        self.true_count
    }

    /// The values, packed: some of them true, and some not.
    pub fn bit_buffer(&self) -> &BitBuffer
        ensures buffer { result.now ≡ self.now.buffer }
        ensures mixed { IsMixed result.now self.now.true_count }
    {
        &self.buffer
    }

    /// Takes the packed values out. Their count and the cached lists are dropped.
    pub fn into_bit_buffer(self) -> BitBuffer
        ensures { result ≡ self.buffer }
    {
        let MaskValues {
            buffer,
            true_count: _,
            indices: _,
            slices: _,
        } = self;
        buffer
    }

    /// Value `index`.
    // rust: needs `index < self.len()`
    pub fn value(&self, index: usize) -> bool
        requires { index < length (values self.now.buffer) }
        ensures { slice_get (values self.now.buffer) index ≡ Some result }
    {
        self.buffer.value(index)
    }

    /// The true indices, ascending, if they are cached.
    pub fn cached_indices(&self) -> Option<&[usize]>
        ensures cached { option_map (λ indices. indices.now) result ≡ self.now.caches.indices }
        ensures whole { AreOf (values self.now.buffer) self.now.caches }
    {
        self.indices.as_deref()
    }

    /// The runs of true indices, ascending, if they are cached.
    pub fn cached_slices(&self) -> Option<&[(usize, usize)]>
        ensures cached { option_map (λ ranges. ranges.now) result ≡ self.now.caches.ranges }
        ensures whole { AreOf (values self.now.buffer) self.now.caches }
    {
        self.slices.as_deref()
    }

    // The buffer of values that somebody else may hold too.
    pub(crate) fn buffer_of(held: MaskValuesRef) -> Result<BitBuffer, AllocError>
        ensures buffer { IfOk result (λ b. b ≡ held.value.buffer) }
        ensures mixed { IfOk result (λ b. IsMixed b held.value.true_count) }
    {
        match Rc::try_unwrap(held) {
            Ok(own) => Ok(own.into_bit_buffer()),
            Err(shared) => shared.bit_buffer().clone(),
        }
    }

    /// The same values with the same lists cached.
    // rust: named try_clone
    pub fn clone(&self) -> Result<MaskValues, MaskError>
        ensures same { IfOk result (λ v. v ≡ self.now) }
        ensures refused { IsOkUnless result (MaskError.Memory alloc_error) }
    {
        Ok(MaskValues {
            buffer: self.buffer.clone()?,
            true_count: self.true_count,
            indices: self.indices.clone()?,
            slices: self.slices.clone()?,
        })
    }
}

/// Lists of the true indices, made where they are not cached yet, and cached from then on.
///
/// Where being out of memory refuses one, the cached lists stay as they were.
impl MaskValues {
    /// The true indices, ascending.
    // rust: named try_indices
    // rust: by hand
    pub fn indices(&mut self, alloc: Global) -> Result<&[usize], MaskError>
        ensures list { IfOk result (λ indices. indices.now ≡ positions (values self.old.buffer)) }

        // Once the list is no longer borrowed, it is cached.
        ensures* after { sem 𝓛 (Rests the_row self.entry (λ new.
            IfOk result (λ indices. new
            ≡ with_caches (with_indices indices.now self.old.caches) self.old)
            × OnErr result (new ≡ self.old))) }
        ensures cached { IsSome self.old.caches.indices → IsOk result }
        ensures refused { IsOkUnless result (MaskError.Memory alloc_error) }
    {
        self.cache_list(alloc, false)?;
        Ok(self.cached_indices().unwrap())
    }

    /// The runs of true indices, ascending. Each is its first index and the index past its last.
    // rust: named try_slices
    // rust: by hand
    pub fn slices(&mut self, alloc: Global) -> Result<&[(usize, usize)], MaskError>
        ensures list { IfOk result (λ ranges. ranges.now ≡ runs (values self.old.buffer)) }

        // Once the list is no longer borrowed, it is cached.
        ensures* after { sem 𝓛 (Rests the_row self.entry (λ new.
            IfOk result (λ ranges. new
            ≡ with_caches (with_ranges ranges.now self.old.caches) self.old)
            × OnErr result (new ≡ self.old))) }
        ensures cached { IsSome self.old.caches.ranges → IsOk result }
        ensures refused { IsOkUnless result (MaskError.Memory alloc_error) }
    {
        self.cache_list(alloc, true)?;
        Ok(self.cached_slices().unwrap())
    }

    /// The ranges of `slices` where the share of true values is `num / den` or more, else the list of
    /// `indices`. The comparison is exact.
    // rust: named try_threshold_iter
    // rust: by hand
    pub fn threshold_iter(
        &mut self,
        alloc: Global,
        num: usize,
        den: usize,
    ) -> Result<MaskIter<'_>, MaskError>
        requires { 0 < den }
        ensures threshold { IfOk result (λ lent. IsTrue (lends_ranges lent)
            ↔ ReachesShare (values self.old.buffer) num den) }
        ensures list { IfOk result (IsLentOf (values self.old.buffer)) }

        // Once the list is no longer borrowed, it is cached.
        ensures* after { sem 𝓛 (Rests the_row self.entry (λ new.
            IfOk result (λ lent. new ≡ with_caches (with_list lent self.old.caches) self.old)
            × OnErr result (new ≡ self.old))) }
        ensures cached_ranges { ReachesShare (values self.old.buffer) num den
            → IsSome self.old.caches.ranges → IsOk result }
        ensures cached_indices { count (values self.old.buffer) * den
            < num * length (values self.old.buffer)
            → IsSome self.old.caches.indices → IsOk result }
        ensures refused { IsOkUnless result (MaskError.Memory alloc_error) }
    {
        let by_ranges = self.reaches_share(num, den);
        self.cache_list(alloc, by_ranges)?;
        Ok(self.lend_list(by_ranges))
    }

    // Whether at least `num` of each `den` values are true.
    pub(crate) fn reaches_share(&self, num: usize, den: usize) -> bool
        ensures { IsTrue result ↔ ReachesShare (values self.now.buffer) num den }
    {
        let true_part = self.true_count as u128 * den as u128;
        true_part >= num as u128 * self.buffer.len() as u128
    }

    // The runs, or the true indices, which are cached.
    // rust: by hand
    pub(super) fn lend_list(&self, by_ranges: bool) -> MaskIter<'_>
        requires ranges { by_ranges ≡ true → IsSome self.now.caches.ranges }
        requires indices { by_ranges ≡ false → IsSome self.now.caches.indices }
        ensures choice { lends_ranges result ≡ by_ranges }
        ensures list { IsLentOf (values self.now.buffer) result }
        ensures cached { with_list result self.now.caches ≡ self.now.caches }
    {
        if by_ranges {
            MaskIter::Slices(self.cached_slices().unwrap())
        } else {
            MaskIter::Indices(self.cached_indices().unwrap())
        }
    }

    // Whether the runs, or the true indices, are cached.
    // rust: by hand
    pub(super) fn has_list(&self, by_ranges: bool) -> bool
        ensures has { IsTrue result ↔ HasList by_ranges self.now.caches }
        ensures made { IsTrue result → with_made by_ranges (values self.now.buffer) self.now.caches
            ≡ self.now.caches }
    {
        if by_ranges {
            self.slices.is_some()
        } else {
            self.indices.is_some()
        }
    }

    // Makes the list of the runs, or of the true indices, then caches it, where there is none.
    // rust: by hand
    pub(super) fn cache_list(&mut self, alloc: Global, by_ranges: bool) -> Result<(), MaskError>
        ensures filled { IfOk result (λ _. self.new ≡ with_caches
            (with_made by_ranges (values self.old.buffer) self.old.caches) self.old) }
        ensures unfilled { OnErr result (self.new ≡ self.old) }
        ensures cached { HasList by_ranges self.old.caches → IsOk result }
        ensures refused { IsOkUnless result (MaskError.Memory alloc_error) }
    {
        if self.has_list(by_ranges) {
            return Ok(());
        }
        if by_ranges {
            self.slices = Some(self.runs(alloc)?);
        } else {
            self.indices = Some(self.index_list(alloc)?);
        }
        Ok(())
    }

    // A clone with that list cached.
    // rust: by hand
    pub(super) fn with_list(&self, alloc: Global, by_ranges: bool) -> Result<MaskValues, MaskError>
        ensures filled { IfOk result (λ v. v ≡ with_caches
            (with_made by_ranges (values self.now.buffer) self.now.caches) self.now) }
        ensures refused { IsOkUnless result (MaskError.Memory alloc_error) }
    {
        let mut filled = self.clone()?;
        filled.cache_list(alloc, by_ranges)?;
        Ok(filled)
    }

    // The true indices, in room that is made once. A cached run takes about as long as a word of bits.
    pub(crate) fn index_list(&self, alloc: Global) -> Result<Vec<usize>, AllocError>
        ensures { IfOk result (λ indices. indices.items ≡ positions (values self.now.buffer)) }
    {
        match self.cached_slices() {
            Some(ranges) if ranges.len() <= self.len() / 64 => {
                indices_in(alloc, ranges, self.true_count)
            }
            _ => self.buffer.indices(alloc, self.true_count),
        }
    }

    // The true indices: the cached ones, or a list made for the caller. (In Rust that is cached from then on.)
    // rust: by hand
    pub(crate) fn true_indices(&self, alloc: Global) -> Result<CowSlice<'_, usize>, AllocError>
        ensures { IfOk result
            (λ indices. cow_slice_items indices ≡ positions (values self.now.buffer)) }
    {
        Ok(match self.cached_indices() {
            Some(cached) => CowSlice::Borrowed(cached),
            None => CowSlice::Owned(self.index_list(alloc)?),
        })
    }

    // The runs of true indices: by a walk where few values are true, of which most words have none.
    // rust: visible
    fn runs(&self, alloc: Global) -> Result<Vec<(usize, usize)>, AllocError>
        ensures { IfOk result (λ ranges. ranges.items ≡ runs (values self.now.buffer)) }
    {
        if self.true_count < self.buffer.len() / 32 {
            let ranges: Vec<_> = self.buffer.set_slices().collect(alloc)?;
            laws::runs_are_the_list(&ranges);
            return Ok(ranges);
        }
        self.buffer.runs(alloc)
    }
}

// The indices in ranges that hold so many, one range after another.
#[tactic(auto, using(crate::proofs::Masks::CachedLemmas::inside_facts))]
fn indices_in(
    alloc: Global,
    ranges: &[(usize, usize)],
    count: usize,
) -> Result<Vec<usize>, AllocError>
    requires nonempty { All (λ r. r.0 < r.1) ranges.now }
    requires counted { rows_held ranges.now ≡ count }
    ensures { IfOk result
        (λ indices. indices.items ≡ flat_map (λ r. range_with_len r.0 (r.1 - r.0)) ranges.now) }
{
    let mut indices = Vec::with_capacity(alloc, count)?;
    for (start, end) in ranges {
        push_range(&mut indices, *start, *end);
    }
    Ok(indices)
}

// Pushes the indices from `start` to `end`, the end left out, into room that is there.
#[inline]
#[tactic(auto, using(crate::proofs::Masks::CachedLemmas::inside_facts))]
fn push_range(indices: &mut Vec<usize>, start: usize, end: usize)
    requires ordered { start ≤ end }
    requires room { vec_len indices.old + (end - start) ≤ vec_capacity indices.old }
    ensures items { indices.new.items
        ≡ indices.old.items ++ range_with_len start (end - start) }
    ensures len { vec_len indices.new ≡ vec_len indices.old + (end - start) }
    ensures capacity { vec_capacity indices.new ≡ vec_capacity indices.old }
{
    for index in start..end {
        indices.push_reserved(index);
    }
}
