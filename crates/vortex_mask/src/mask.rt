//! Masks: lists of truth values that say which rows are chosen.

mod all_or;
mod and_rows;
mod cached;
// rust: visible
mod choose;
mod choose_values;
mod concat;
mod convert;
mod error;
mod fraction;
mod from_count;
mod from_indices;
mod from_slices;
mod iter;
mod limit;
mod lookup;
mod set_ranges;
mod slice;
mod values;
mod without_first;

ghost use Rattle.std.specs.Prelude.{◌≡◌, ◌≢◌, ◌+◌, ◌<◌, ◌↔◌, [], true, false, if◌then◌else◌, IsTrue, IsOk, IfOk, Some, length, All, slice_get, IsOkUnless, alloc_error, ◌-◌, ◌≤◌, IfSome, map, ◌*◌, slice_range};
ghost use Rattle.std.specs.Option.{option_copied};
ghost use Rattle.std.specs.List.Sorted.{IsNonDecreasing};
ghost use Rattle.mask_bits.specs.Buffer.{values};
ghost use Rattle.vortex_mask.specs.Caches.{caches};
ghost use Rattle.vortex_mask.specs.Text.{mask_text, debug_text};
ghost use Rattle.vortex_mask.specs.Mask.{truth, variant, all_true, all_false, mixed, contents};
ghost use Rattle.mask_bits.specs.Positions.{positions, count, count_below};
ghost use Rattle.vortex_mask.specs.declared.mask.Mask.TheVariants.{AllTrue};

pub use all_or::AllOr;
pub use cached::MaskIter;
pub use error::MaskError;
pub use fraction::Fraction;
pub use from_indices::index_fault;
pub use from_slices::range_fault;
pub use iter::{MaskBoolIter, MaskSetIndices, MaskSetSlices};
use mask_bits::BitBuffer;
use std::alloc::{AllocError, Global};
use std::fmt;
pub use values::{MaskValues, MaskValuesRef};

/// Which rows of a column are chosen: a list of truth values, one for each row.
///
/// A list whose values are all the same is held as its length alone. A list of no values may be
/// held as `AllTrue(0)` or `AllFalse(0)`; any other list has one variant.
#[derive(Drop)]
pub enum Mask {
    /// All true: the number of values.
    AllTrue(usize),
    /// All false: the number of values.
    AllFalse(usize),
    /// At least one value true, and one false.
    Values(MaskValuesRef),
}

impl Default for Mask {
    ghost is_default = { λ mask. mask ≡ AllTrue 0 };

    fn default() -> Mask {
        Mask::AllTrue(0)
    }
}

impl fmt::Debug for Mask {
    ghost debug_output = { λ mask. Some (debug_text mask) };

    fn fmt<W: fmt::Write>(&self, f: &mut fmt::Formatter<W>) -> fmt::Result {
        match self {
            Mask::AllTrue(len) => write!(f, "All true({len})"),
            Mask::AllFalse(len) => write!(f, "All false({len})"),
            Mask::Values(values) => values.as_ref().fmt(f),
        }
    }
}

/// The values in their order, `1` for true and `0` for false, and `-` for a mask with no values.
/// A byte is written for each value, however many there are. So a text of a mask that takes no
/// memory itself may take any.
impl fmt::Display for Mask {
    ghost output = { λ mask. Some (mask_text (truth mask)) };

    fn fmt<W: fmt::Write>(&self, f: &mut fmt::Formatter<W>) -> fmt::Result {
        if self.is_empty() {
            return f.write_str("-");
        }
        for is_true in self.iter() {
            f.write_str(if is_true { "1" } else { "0" })?;
        }
        Ok(())
    }
}

/// Masks of one value, and clones.
impl Mask {
    /// `len` values, each of them `value`.
    pub fn new(len: usize, value: bool) -> Mask
        ensures { result ≡ (if value then Mask.AllTrue len else Mask.AllFalse len) }
    {
        if value {
            Mask::AllTrue(len)
        } else {
            Mask::AllFalse(len)
        }
    }

    /// `len` true values.
    pub fn new_true(len: usize) -> Mask
        ensures { result ≡ Mask.AllTrue len }
    {
        Mask::AllTrue(len)
    }

    /// `len` false values.
    pub fn new_false(len: usize) -> Mask
        ensures { result ≡ Mask.AllFalse len }
    {
        Mask::AllFalse(len)
    }

    /// The same mask, with the lists that this one has cached.
    // rust: named try_clone
    pub fn clone(&self) -> Result<Mask, MaskError>
        ensures list { IfOk result (λ m. truth m ≡ truth self.now) }
        ensures variant { IfOk result (λ m. variant m ≡ variant self.now) }
        ensures contents { IfOk result (λ m. contents m ≡ contents self.now) }
        ensures caches { IfOk result (λ m. caches m ≡ caches self.now) }
        ensures uniform { variant self.now ≢ mixed → IsOk result }
        ensures refused { IsOkUnless result (MaskError.Memory alloc_error) }
    {
        match self {
            Mask::AllTrue(len) => Ok(Mask::AllTrue(*len)),
            Mask::AllFalse(len) => Ok(Mask::AllFalse(*len)),
            Mask::Values(values) => Ok(Mask::Values(values.clone()?)),
        }
    }

    /// Becomes `AllFalse(0)`. The old values are dropped.
    pub fn clear(&mut self)
        ensures { self.new ≡ Mask.AllFalse 0 }
    {
        *self = Mask::AllFalse(0);
    }
}

/// What a mask holds.
#[tactic(auto, using(crate::proofs::Masks::MaskLemmas::value_facts, crate::proofs::Masks::MaskLemmas::variant_facts))]
impl Mask {
    /// How many values there are.
    pub fn len(&self) -> usize
        ensures { result ≡ length (truth self.now) }
    {
        match self {
            Mask::AllTrue(len) | Mask::AllFalse(len) => *len,
            Mask::Values(values) => values.len(),
        }
    }

    /// Whether there is no value.
    pub fn is_empty(&self) -> bool
        ensures { IsTrue result ↔ (truth self.now ≡ []) }
    {
        self.len() == 0
    }

    /// How many values are true.
    pub fn true_count(&self) -> usize
        ensures counted { result ≡ count (truth self.now) }
        ensures at_most { result ≤ length (truth self.now) }
    {
        match self {
            Mask::AllTrue(len) => *len,
            Mask::AllFalse(_) => 0,
            Mask::Values(values) => values.true_count(),
        }
    }

    /// How many values are false.
    pub fn false_count(&self) -> usize
        ensures { count (truth self.now) + result ≡ length (truth self.now) }
    {
        self.len() - self.true_count()
    }

    /// Whether each value is true, as of an empty mask.
    pub fn all_true(&self) -> bool
        ensures { IsTrue result ↔ All (λ v. v ≡ true) (truth self.now) }
    {
        self.true_count() == self.len()
    }

    /// Whether each value is false, as of an empty mask.
    pub fn all_false(&self) -> bool
        ensures { IsTrue result ↔ All (λ v. v ≡ false) (truth self.now) }
    {
        self.true_count() == 0
    }

    /// Value `index`.
    pub fn value(&self, index: usize) -> bool
        requires { index < length (truth self.now) }
        ensures { slice_get (truth self.now) index ≡ Some result }
    {
        match self {
            Mask::AllTrue(_) => true,
            Mask::AllFalse(_) => false,
            Mask::Values(values) => values.value(index),
        }
    }

    /// The index of true value number `n`, counted from 0.
    // rust: says Rank {} out of bounds for mask with true count {}
    pub fn rank(&self, n: usize) -> usize
        requires { n < count (truth self.now) }
        ensures index { slice_get (positions (truth self.now)) n ≡ Some result }
        ensures within { result < length (truth self.now) }
    {
        match self {
            Mask::AllTrue(_) => n,
            Mask::AllFalse(_) => unreachable!(),
            Mask::Values(values) => values.nth_index(n),
        }
    }

    /// The mixed values, or `None` where the mask is all true or all false.
    pub fn values(&self) -> Option<&MaskValues>
        ensures { option_copied result ≡ contents self.now }
    {
        match self {
            Mask::AllTrue(_) | Mask::AllFalse(_) => None,
            Mask::Values(values) => Some(values.as_ref()),
        }
    }
}

/// Counts of a part.
#[tactic(auto, using(crate::proofs::Masks::MaskLemmas::count_facts))]
impl Mask {
    /// How many of the values from `start` to `end` are true.
    pub fn count_range(&self, start: usize, end: usize) -> usize
        requires ordered { start ≤ end }
        requires within { end ≤ length (truth self.now) }
        ensures counted { result ≡ count (slice_range (truth self.now) start end) }
        ensures at_most { result ≤ end - start }
    {
        match self {
            Mask::AllTrue(_) => end - start,
            Mask::AllFalse(_) => 0,
            Mask::Values(values) => values.bit_buffer().count_range(start, end),
        }
    }
}

/// The true values by their indices.
#[tactic(auto, using(crate::proofs::Masks::ReadingLemmas::end_facts))]
impl Mask {
    /// The index of the first true value, if there is one.
    pub fn first(&self) -> Option<usize>
        ensures index { result ≡ slice_get (positions (truth self.now)) 0 }
        ensures within { IfSome result (λ p. p < length (truth self.now)) }
    {
        match self {
            Mask::AllTrue(len) => (*len > 0).then_some(0),
            Mask::AllFalse(_) => None,
            Mask::Values(values) => Some(values.first_index()),
        }
    }

    /// The index of the last true value, if there is one.
    pub fn last(&self) -> Option<usize>
        ensures index { result
            ≡ slice_get (positions (truth self.now)) (count (truth self.now) - 1) }
        ensures within { IfSome result (λ p. p < length (truth self.now)) }
    {
        match self {
            Mask::AllTrue(len) => len.checked_sub(1),
            Mask::AllFalse(_) => None,
            Mask::Values(values) => Some(values.last_index()),
        }
    }

    /// For each index the number of true values below it. Values are counted once for all indices,
    /// up to the last of them.
    // rust: within says Row indices exceed array length
    // rust: named try_valid_counts_for_indices
    #[tactic(auto, using(crate::proofs::Masks::ReadingLemmas::one_value_counts))]
    pub fn valid_counts_for_indices(
        &self,
        alloc: Global,
        indices: &[usize],
    ) -> Result<Vec<usize>, MaskError>
        requires ascending { IsNonDecreasing indices.now }
        requires within { All (λ i. i ≤ length (truth self.now)) indices.now }
        ensures counts { IfOk result
            (λ v. v.items ≡ map (count_below (truth self.now)) indices.now) }
        ensures refused { IsOkUnless result (MaskError.Memory alloc_error) }
    {
        match self {
            Mask::AllTrue(_) => Ok(Vec::from_slice(alloc, indices)?),
            Mask::AllFalse(_) => Ok(vec![in alloc; 0usize; indices.len()]?),
            Mask::Values(values) => Ok(counts_below(alloc, values.bit_buffer(), indices)?),
        }
    }
}

// For each index the number of true values below it, by a count that runs from one to the next.
#[tactic(auto, using(crate::proofs::Masks::ReadingLemmas::running_counts))]
fn counts_below(
    alloc: Global,
    buffer: &BitBuffer,
    indices: &[usize],
) -> Result<Vec<usize>, AllocError>
    requires ascending { IsNonDecreasing indices.now }
    requires within { All (λ i. i ≤ length (values buffer.now)) indices.now }
    ensures { IfOk result (λ v. v.items ≡ map (count_below (values buffer.now)) indices.now) }
{
    let mut counts = Vec::with_capacity(alloc, indices.len())?;
    let mut counted_to = 0;
    let mut count = 0;
    for index in indices {
        // the same index again asks for no count
        if counted_to < *index {
            count += buffer.count_range(counted_to, *index);
            counted_to = *index;
        }
        counts.push_reserved(count);
    }
    Ok(counts)
}
