//! Lists of the true indices and of their runs, which a mask makes once and caches.

ghost use Rattle.std.specs.Prelude.{◌≡◌, ◌≢◌, ◌*◌, ◌<◌, ◌↔◌, true, false, IsTrue, IsOk, IsSome, IfOk, OnErr, Some, None, length, IsOkUnless, alloc_error};
ghost use Rattle.std.specs.Borrow.{sem};
ghost use Rattle.std.specs.Io.BufRead.{Rests};
ghost use Rattle.mask_bits.specs.Positions.{positions, count};
ghost use Rattle.mask_bits.specs.RunScan.{runs};
ghost use Rattle.vortex_mask.specs.Lend.{ReachesShare, lends_ranges, IsLentOf, with_list, lender_variant, IfLent, with_lent, IsCaching};
ghost use Rattle.vortex_mask.specs.Caches.{caches};
ghost use Rattle.vortex_mask.specs.Mask.{truth, variant, mixed};
ghost use Rattle.vortex_mask.specs.MaskValues.{HasList, with_indices, with_made, with_ranges};
ghost use Rattle.vortex_mask.specs.contracts.mask.Mask.{the_row};
ghost use Rattle.mask_bits.specs.Buffer.{values};

use crate::mask::{AllOr, Mask, MaskError};
use std::alloc::Global;
use std::rc::Rc;

/// A list of the true indices of a mask: the indices, or their runs: the maximal ranges that hold them.
#[derive(Drop)]
pub enum MaskIter<'a> {
    /// The indices, ascending.
    Indices(&'a [usize]),
    /// The runs, ascending, each its first index and the index past its last.
    Slices(&'a [(usize, usize)]),
}

/// Lists of the true indices, made where they are not cached yet, and cached from then on. Clones that
/// were made before keep the lists they had.
///
/// Where memory is out the mask stays as it was.
impl Mask {
    /// `All`, `None` or the true indices, ascending, by variant.
    // rust: named try_indices
    // rust: by hand
    pub fn indices(&mut self, alloc: Global) -> Result<AllOr<&[usize]>, MaskError>
        ensures variant { IfOk result (λ lent. lender_variant lent ≡ variant self.old) }
        ensures list { IfOk result (λ lent. IfLent lent
            (λ indices. indices.now ≡ positions (truth self.old))) }

        // Once the list is no longer borrowed, it is cached.
        ensures* after { sem 𝓛 (Rests the_row self.entry (λ new.
            IfOk result (λ lent. IsCaching self.old
            (with_lent (λ indices. with_indices indices.now) lent (caches self.old)) new)
            × OnErr result (new ≡ self.old))) }
        ensures cached { IsSome (caches self.old).indices → IsOk result }
        ensures uniform { variant self.old ≢ mixed → IsOk result }
        ensures refused { IsOkUnless result (MaskError.Memory alloc_error) }
    {
        self.fill(alloc, false)?;
        Ok(match self {
            Mask::AllTrue(_) => AllOr::All,
            Mask::AllFalse(_) => AllOr::None,
            Mask::Values(values) => AllOr::Some(values.cached_indices().unwrap()),
        })
    }

    /// `All`, `None` or the runs of true indices, ascending, by variant. Each is its first index and the index past its
    /// last. Equal masks that are mixed lend equal ranges, however they were made.
    // rust: named try_slices
    // rust: by hand
    pub fn slices(&mut self, alloc: Global) -> Result<AllOr<&[(usize, usize)]>, MaskError>
        ensures variant { IfOk result (λ lent. lender_variant lent ≡ variant self.old) }
        ensures list { IfOk result (λ lent. IfLent lent
            (λ ranges. ranges.now ≡ runs (truth self.old))) }

        // Once the list is no longer borrowed, it is cached.
        ensures* after { sem 𝓛 (Rests the_row self.entry (λ new.
            IfOk result (λ lent. IsCaching self.old
            (with_lent (λ ranges. with_ranges ranges.now) lent (caches self.old)) new)
            × OnErr result (new ≡ self.old))) }
        ensures cached { IsSome (caches self.old).ranges → IsOk result }
        ensures uniform { variant self.old ≢ mixed → IsOk result }
        ensures refused { IsOkUnless result (MaskError.Memory alloc_error) }
    {
        self.fill(alloc, true)?;
        Ok(match self {
            Mask::AllTrue(_) => AllOr::All,
            Mask::AllFalse(_) => AllOr::None,
            Mask::Values(values) => AllOr::Some(values.cached_slices().unwrap()),
        })
    }

    /// `All`, `None` or a list, by variant: the ranges of `slices` where the share of true values is
    /// `num / den` or more, else the list of `indices`. The comparison is exact.
    // rust: named try_threshold_iter
    // rust: by hand
    pub fn threshold_iter(
        &mut self,
        alloc: Global,
        num: usize,
        den: usize,
    ) -> Result<AllOr<MaskIter<'_>>, MaskError>
        requires { 0 < den }
        ensures variant { IfOk result (λ lent. lender_variant lent ≡ variant self.old) }
        ensures threshold { IfOk result (λ lent. IfLent lent (λ list. IsTrue (lends_ranges list)
            ↔ ReachesShare (truth self.old) num den)) }
        ensures list { IfOk result (λ lent. IfLent lent
            (IsLentOf (truth self.old))) }

        // Once the list is no longer borrowed, it is cached.
        ensures* after { sem 𝓛 (Rests the_row self.entry (λ new.
            IfOk result (λ lent. IsCaching self.old
            (with_lent with_list lent (caches self.old)) new)
            × OnErr result (new ≡ self.old))) }
        ensures cached_ranges { ReachesShare (truth self.old) num den
            → IsSome (caches self.old).ranges → IsOk result }
        ensures cached_indices { count (truth self.old) * den < num * length (truth self.old)
            → IsSome (caches self.old).indices → IsOk result }
        ensures uniform { variant self.old ≢ mixed → IsOk result }
        ensures refused { IsOkUnless result (MaskError.Memory alloc_error) }
    {
        let by_ranges = self
            .values()
            .is_some_and(|values| values.reaches_share(num, den));
        self.fill(alloc, by_ranges)?;
        Ok(match self {
            Mask::AllTrue(_) => AllOr::All,
            Mask::AllFalse(_) => AllOr::None,
            Mask::Values(values) => AllOr::Some(values.lend_list(by_ranges)),
        })
    }

    // Caches the runs, or the true indices, where the mask is mixed. Values that nobody else holds cache
    // them in place, and else the mask becomes one of a clone with them.
    // rust: by hand
    fn fill(&mut self, alloc: Global, by_ranges: bool) -> Result<(), MaskError>
        ensures filled { IfOk result (λ _. variant self.old ≡ mixed → IsCaching self.old
            (with_made by_ranges (truth self.old) (caches self.old)) self.new) }
        ensures stays { variant self.old ≢ mixed → self.new ≡ self.old }
        ensures unfilled { OnErr result (self.new ≡ self.old) }
        ensures cached { HasList by_ranges (caches self.old) → IsOk result }
        ensures uniform { variant self.old ≢ mixed → IsOk result }
        ensures refused { IsOkUnless result (MaskError.Memory alloc_error) }
    {
        if let Mask::Values(values) = self {
            if let Some(own) = Rc::get_mut(values) {
                return own.cache_list(alloc, by_ranges);
            }
            if !values.has_list(by_ranges) {
                let filled = values.with_list(alloc, by_ranges)?;
                *self = Mask::Values(Rc::new(alloc, filled)?);
            }
        }
        Ok(())
    }
}
