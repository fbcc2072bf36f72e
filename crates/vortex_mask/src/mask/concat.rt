//! Masks one after another.

ghost use Rattle.std.specs.Prelude.{◌≡◌, ◌+◌, ◌<◌, ◌≤◌, ◌^◌, ◌⊎◌, ◌++◌, IfOk, IfErr, OnOk, Some, MatchOption, true, false, ◌↔◌, IsTrue, List, map, alloc_error, length};
ghost use Rattle.std.specs.Borrow.{Bor};
ghost use Rattle.std.specs.Iterator.{IsFinite, Drains};
ghost use Rattle.std.specs.Iterator.Runs.{WholeRun};
ghost use Rattle.mask_bits.specs.Buffer.{values};
ghost use Rattle.mask_bits.specs.Lists.{concat};
ghost use Rattle.mask_bits.specs.Positions.{count};
ghost use Rattle.vortex_mask.specs.Concat.{lists_of, total_len, Joins, AreAll};
ghost use Rattle.vortex_mask.specs.Caches.{caches};
ghost use Rattle.vortex_mask.specs.Mask.{truth, variant, fitting_variant, all_true};
ghost use Rattle.vortex_mask.specs.MaskValues.{no_caches};
ghost use Rattle.vortex_mask.specs.declared.mask.Mask.{Mask as mask};

use crate::mask::{Mask, MaskError};
use mask_bits::{BitBuffer, BitBufferMut};
use std::alloc::{AllocError, Global};

impl Mask {
    /// The values of the masks that an iterator yields, one mask after another. No values give `AllTrue(0)`.
    ///
    /// The masks are listed first, so `Memory` may come before `LengthOverflow`, which is reported
    /// where the sum of all lengths is above `usize::MAX`.
    pub fn concat<'a, I: Iterator<Item = &'a Mask>>(
        alloc: Global,
        masks: I,
    ) -> Result<Mask, MaskError>
        requires can { I.can_next masks }
        requires ends { IsFinite (I.remaining masks) }
        ensures list { IfOk result (λ m. (ms : List (Bor mask)) × Drains I.next_gives masks ms
            × Joins (lists_of ms) m) }
        ensures whole { IfOk result (λ m. WholeRun I.next_gives masks (λ p. Joins (lists_of p.items) m)) }
        ensures variant { IfOk result (λ m. variant m ≡ fitting_variant all_true (truth m)) }
        ensures caches { IfOk result (λ m. caches m ≡ no_caches) }

        // A refusal is that the sum of all lengths does not fit, or that memory is out.
        ensures refused { IfErr result (λ e. (e ≡ MaskError.Memory alloc_error)
            ⊎ ((ms : List (Bor mask)) × Drains I.next_gives masks ms
            × (e ≡ MaskError.LengthOverflow) × (2 ^ 64 ≤ total_len (lists_of ms)))) }
        ensures refused_whole { IfErr result (λ e. (e ≡ MaskError.Memory alloc_error)
            ⊎ WholeRun I.next_gives masks
            (λ p. (e ≡ MaskError.LengthOverflow) × (2 ^ 64 ≤ total_len (lists_of p.items)))) }
    {
        let lent: Vec<&Mask> = masks.collect(alloc)?;
        concat_list(alloc, &lent)
    }

    /// The values of the masks that an iterator yields, one mask after another, as by `concat`. The
    /// masks are taken by value.
    // rust: named try_from_masks
    pub fn from_masks<I: Iterator<Item = Mask>>(alloc: Global, masks: I) -> Result<Mask, MaskError>
        requires can { I.can_next masks }
        requires ends { IsFinite (I.remaining masks) }
        ensures list { IfOk result (λ m. (ms : List mask) × Drains I.next_gives masks ms
            × Joins (map truth ms) m) }
        ensures whole { IfOk result (λ m. WholeRun I.next_gives masks (λ p. Joins (map truth p.items) m)) }
        ensures variant { IfOk result (λ m. variant m ≡ fitting_variant all_true (truth m)) }
        ensures caches { IfOk result (λ m. caches m ≡ no_caches) }

        // A refusal is that the sum of all lengths does not fit, or that memory is out.
        ensures refused { IfErr result (λ e. (e ≡ MaskError.Memory alloc_error)
            ⊎ ((ms : List mask) × Drains I.next_gives masks ms
            × (e ≡ MaskError.LengthOverflow) × (2 ^ 64 ≤ total_len (map truth ms)))) }
        ensures refused_whole { IfErr result (λ e. (e ≡ MaskError.Memory alloc_error)
            ⊎ WholeRun I.next_gives masks
            (λ p. (e ≡ MaskError.LengthOverflow) × (2 ^ 64 ≤ total_len (map truth p.items)))) }
    {
        let held: Vec<Mask> = masks.collect(alloc)?;
        concat_list(alloc, &held)
    }
}

// A mask in a list of masks that are lent, or held.
trait AsMask {
    ghost use Rattle.std.specs.Prelude.{◌≡◌, Bool, List};
    ghost use Rattle.vortex_mask.specs.Mask.{truth};

    ghost list: { Self → List Bool };

    fn as_mask(&self) -> &Mask
        ensures { truth result.now ≡ list self.now };
}

impl AsMask for Mask {
    ghost list = { truth };

    fn as_mask(&self) -> &Mask {
        self
    }
}

impl<'a> AsMask for &'a Mask {
    ghost list = { λ mask. truth mask.now };

    fn as_mask(&self) -> &Mask {
        self
    }
}

// The values of such masks, one mask after another.
#[tactic(auto, using(crate::proofs::Masks::MaskLemmas::variant_facts, crate::proofs::Masks::ConcatLemmas::concat_facts))]
fn concat_list<M: AsMask>(alloc: Global, masks: &[M]) -> Result<Mask, MaskError>
    ensures list { IfOk result (Joins (map M.list masks.now)) }
    ensures variant { IfOk result (λ m. variant m ≡ fitting_variant all_true (truth m)) }
    ensures caches { IfOk result (λ m. caches m ≡ no_caches) }
    ensures refused { IfErr result (λ e. (e ≡ MaskError.Memory alloc_error)
        ⊎ ((e ≡ MaskError.LengthOverflow) × (2 ^ 64 ≤ total_len (map M.list masks.now)))) }
{
    let Some(len) = total_len(masks) else {
        return Err(MaskError::LengthOverflow);
    };
    if are_all(masks, true) {
        return Ok(Mask::AllTrue(len));
    }
    if are_all(masks, false) {
        return Ok(Mask::AllFalse(len));
    }
    let (buffer, true_count) = buffer_of(alloc, len, masks)?;
    Mask::from_counted_buffer(alloc, buffer, true_count, None)
}

// Whether each value of each mask is `value`.
fn are_all<M: AsMask>(masks: &[M], value: bool) -> bool
    ensures { IsTrue result ↔ AreAll M.list value masks.now }
{
    masks.iter().all(|mask| if value {
        mask.as_mask().all_true()
    } else {
        mask.as_mask().all_false()
    })
}

// The sum of the masks' lengths, if it fits.
fn total_len<M: AsMask>(masks: &[M]) -> Option<usize>
    ensures { MatchOption result (2 ^ 64 ≤ total_len (map M.list masks.now))
        (λ total. total ≡ total_len (map M.list masks.now)) }
{
    let mut total: usize = 0;
    for mask in masks {
        total = total.checked_add(mask.as_mask().len())?;
    }
    Some(total)
}

// The masks' values one after another, of which there are `len`, and how many are true: the masks
// know their counts, so no value is counted again.
#[tactic(auto, using(crate::proofs::Masks::ConcatLemmas::joining_facts))]
fn buffer_of<M: AsMask>(
    alloc: Global,
    len: usize,
    masks: &[M],
) -> Result<(BitBuffer, usize), AllocError>
    requires { total_len (map M.list masks.now) ≡ len }
    ensures list { IfOk result (λ r. values r.0 ≡ concat (map M.list masks.now)) }
    ensures counted { IfOk result (λ r. r.1 ≡ count (values r.0)) }
{
    let mut buffer = BitBufferMut::with_capacity(alloc, len)?;
    let mut true_count = 0;
    for mask in masks {
        append(&mut buffer, mask.as_mask())?;
        true_count += mask.as_mask().true_count();
    }
    Ok((buffer.freeze()?, true_count))
}

#[tactic(auto, using(mask_bits::proofs::Lists::CountLemmas::repeated_facts))]
fn append(buffer: &mut BitBufferMut, mask: &Mask) -> Result<(), AllocError>
    requires { length buffer.old + length (truth mask.now) < 2 ^ 64 }
    ensures { OnOk result (buffer.new ≡ buffer.old ++ truth mask.now) }
{
    match mask {
        Mask::AllTrue(len) => buffer.append_n(true, *len),
        Mask::AllFalse(len) => buffer.append_n(false, *len),
        Mask::Values(values) => buffer.append_buffer(values.bit_buffer()),
    }
}
