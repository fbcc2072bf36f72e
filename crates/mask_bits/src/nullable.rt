//! Truth values with nulls: the answers of a test whose operands may be missing.

ghost use Rattle.std.specs.Prelude.{◌≡◌, ◌*◌, ◌≤◌, None, Some, length, vec_len, IfOk};
ghost use Rattle.mask_bits.specs.Bitmap.{bitmap};
ghost use Rattle.mask_bits.specs.Buffer.{values};
ghost use Rattle.mask_bits.specs.Kleene.{nullable_bitmap, HasValues};
ghost use Rattle.mask_bits.specs.Nullable.{and_kleene_of, or_kleene_of, not_kleene_of, combined_nullable, is_true_of, is_not_false_of, is_null_of, is_valid_of};
ghost use Rattle.mask_bits.specs.NullableBuffer.{AreInStep, nullable_values};
ghost use Rattle.mask_bits.specs.Positions.{count};
ghost use Rattle.mask_bits.specs.Words.{started_words};
ghost use Rattle.std.specs.Option.{option_map};

use crate::bitops::combined_buffer;
use crate::buffer::BitBuffer;
use crate::byte_list::{ByteList, unwritten};
use crate::combine::OrNot;
use crate::kleene::{KleeneAnd, KleeneOp, KleeneOr, NullableBitmap, combine_kleene};
use crate::words::started_words;
use std::alloc::{AllocError, Global};
use std::marker::Model;

/// An immutable list of truth values of which some are null: values, and as long a validity.
///
/// Value `i` is null where the validity is false at `i`, and what the values hold there has no meaning.
/// Where there is no validity, no value is null. Bits lie as in an Arrow array of booleans.
///
/// Its calls answer as SQL does, by Kleene's tables. They are this library's own. A list that a call makes
/// is as long as its operands, and the call is refused only where memory is missing (`AllocError`).
#[derive(Drop)]
pub struct NullableBitBuffer {
    // rust: visible
    values: BitBuffer,
    // rust: visible
    validity: Option<BitBuffer>,
}

impl Model for NullableBitBuffer {
    ghost use Rattle.mask_bits.specs.NullableBuffer.{NullablePacked, AreInStep};

    ghost Value = { NullablePacked };

    ghost view = { λ b. record { values = b.values; validity = b.validity } };

    ghost invariant = { λ b. AreInStep b.values b.validity };
}

#[tactic(auto, using(crate::proofs::NullableBufferLemmas::buffer_facts))]
impl NullableBitBuffer {
    /// Values and their validity, which is as long; `None` says that all are valid.
    pub fn new(values: BitBuffer, validity: Option<BitBuffer>) -> NullableBitBuffer
        requires { AreInStep values validity }
        ensures buffer { result ≡ record { values = values; validity = validity } }
    {
        NullableBitBuffer { values, validity }
    }

    /// How many values there are, the nulls included.
    pub fn len(&self) -> usize
        ensures { result ≡ length (nullable_values self.now) }
    {
        self.values.len()
    }

    /// The values. What stands at a null has no meaning.
    pub fn values(&self) -> &BitBuffer
        ensures buffer { result.now ≡ self.now.values }
        ensures in_step { AreInStep result.now self.now.validity }
    {
        &self.values
    }

    /// The validity: false at each null. `None` where no value is null.
    pub fn validity(&self) -> Option<&BitBuffer>
        ensures { option_map (λ v. v.now) result ≡ self.now.validity }
    {
        self.validity.as_ref()
    }

    /// How many values are null.
    pub fn null_count(&self) -> usize
        ensures { result ≡ count (is_null_of (nullable_values self.now)) }
    {
        match &self.validity {
            Some(validity) => validity.false_count(),
            None => 0,
        }
    }
}

/// What a filter takes of them.
#[tactic(auto, using(crate::proofs::NullableBufferLemmas::buffer_facts))]
impl NullableBitBuffer {
    /// The values that are true, which are those that a filter keeps: no null is one.
    // rust: named try_is_true
    pub fn is_true(&self, alloc: Global) -> Result<BitBuffer, AllocError>
        ensures list { IfOk result (λ b. values b ≡ is_true_of (nullable_values self.now)) }
        ensures len { IfOk result (λ b. length (values b) ≡ length (nullable_values self.now)) }
    {
        match &self.validity {
            Some(validity) => self.values.bitand(alloc, validity),
            None => self.values.clone(),
        }
    }

    /// The values that are true or null, which are those that a check lets pass.
    // rust: named try_is_not_false
    pub fn is_not_false(&self, alloc: Global) -> Result<BitBuffer, AllocError>
        ensures list { IfOk result (λ b. values b ≡ is_not_false_of (nullable_values self.now)) }
        ensures len { IfOk result (λ b. length (values b) ≡ length (nullable_values self.now)) }
    {
        match &self.validity {
            Some(validity) => combined_buffer::<OrNot>(alloc, &self.values, validity),
            None => self.values.clone(),
        }
    }

    /// The nulls.
    // rust: named try_is_null
    pub fn is_null(&self, alloc: Global) -> Result<BitBuffer, AllocError>
        ensures list { IfOk result (λ b. values b ≡ is_null_of (nullable_values self.now)) }
        ensures len { IfOk result (λ b. length (values b) ≡ length (nullable_values self.now)) }
    {
        match &self.validity {
            Some(validity) => validity.not(alloc),
            None => BitBuffer::new_unset(alloc, self.values.len()),
        }
    }
}

/// Kleene's tables, in one pass over the words of both sides. Where neither has a validity, the answer has
/// none. Its values are false at each null, so they are what `is_true` makes of it.
#[tactic(auto, using(crate::proofs::NullableBufferLemmas::buffer_facts))]
impl NullableBitBuffer {
    /// The negation of each value: that of a null is null.
    // rust: named try_not
    pub fn not(&self, alloc: Global) -> Result<NullableBitBuffer, AllocError>
        ensures list { IfOk result
            (λ b. nullable_values b ≡ not_kleene_of (nullable_values self.now)) }
        ensures len { IfOk result
            (λ b. length (nullable_values b) ≡ length (nullable_values self.now)) }
        ensures cleared { IfOk result (λ b. values b.values ≡ is_true_of (nullable_values b)) }
        ensures validity { IfOk result (λ b. b.validity ≡ self.now.validity) }
    {
        match &self.validity {
            Some(validity) => Ok(NullableBitBuffer {
                values: validity.bitand_not(alloc, &self.values)?,
                validity: Some(validity.clone()?),
            }),
            None => Ok(all_valid(self.values.not(alloc)?)),
        }
    }

    /// True where both are, false where one is, and else null.
    // rust: named try_and_kleene
    pub fn and_kleene(
        &self,
        alloc: Global,
        other: &NullableBitBuffer,
    ) -> Result<NullableBitBuffer, AllocError>
        requires { length (nullable_values self.now) ≡ length (nullable_values other.now) }
        ensures list { IfOk result (λ b. nullable_values b
            ≡ and_kleene_of (nullable_values self.now) (nullable_values other.now)) }
        ensures len { IfOk result
            (λ b. length (nullable_values b) ≡ length (nullable_values self.now)) }
        ensures cleared { IfOk result (λ b. values b.values ≡ is_true_of (nullable_values b)) }
        ensures no_validity { self.now.validity ≡ None → other.now.validity ≡ None
            → IfOk result (λ b. b.validity ≡ None) }
    {
        match (&self.validity, &other.validity) {
            (None, None) => Ok(all_valid(self.values.bitand(alloc, &other.values)?)),
            _ => combined_by_table::<KleeneAnd>(alloc, self, other),
        }
    }

    /// True where one is, false where both are, and else null.
    // rust: named try_or_kleene
    pub fn or_kleene(
        &self,
        alloc: Global,
        other: &NullableBitBuffer,
    ) -> Result<NullableBitBuffer, AllocError>
        requires { length (nullable_values self.now) ≡ length (nullable_values other.now) }
        ensures list { IfOk result (λ b. nullable_values b
            ≡ or_kleene_of (nullable_values self.now) (nullable_values other.now)) }
        ensures len { IfOk result
            (λ b. length (nullable_values b) ≡ length (nullable_values self.now)) }
        ensures cleared { IfOk result (λ b. values b.values ≡ is_true_of (nullable_values b)) }
        ensures no_validity { self.now.validity ≡ None → other.now.validity ≡ None
            → IfOk result (λ b. b.validity ≡ None) }
    {
        match (&self.validity, &other.validity) {
            (None, None) => Ok(all_valid(self.values.bitor(alloc, &other.values)?)),
            _ => combined_by_table::<KleeneOr>(alloc, self, other),
        }
    }

    // the bytes of the values and of the validity, for readers of plain bytes
    fn bitmap(&self) -> NullableBitmap<'_>
        ensures list { nullable_bitmap result (length (nullable_values self.now)) ≡ nullable_values self.now }
        ensures within { HasValues result (length (nullable_values self.now)) }
    {
        let values = (self.values.bits(), self.values.offset());
        match &self.validity {
            Some(validity) => NullableBitmap {
                values,
                validity: Some((validity.bits(), validity.offset())),
            },
            None => NullableBitmap {
                values,
                validity: None,
            },
        }
    }
}

// Values without a null.
fn all_valid(values: BitBuffer) -> NullableBitBuffer
    ensures { result ≡ record { values = values; validity = None } }
{
    NullableBitBuffer::new(values, None)
}

// What the table of `C` has for the values of two lists, with a validity.
fn combined_by_table<C: KleeneOp>(
    alloc: Global,
    a: &NullableBitBuffer,
    b: &NullableBitBuffer,
) -> Result<NullableBitBuffer, AllocError>
    requires { length (nullable_values a.now) ≡ length (nullable_values b.now) }
    ensures list { IfOk result (λ r. nullable_values r
        ≡ combined_nullable C.table (nullable_values a.now) (nullable_values b.now)) }
    ensures len { IfOk result
        (λ r. length (nullable_values r) ≡ length (nullable_values a.now)) }
    ensures cleared { IfOk result (λ r. values r.values ≡ is_true_of (nullable_values r)) }
{
    let len = a.len();
    let mut values = unwritten(alloc, 8 * started_words(len))?;
    let mut validity = unwritten(alloc, 8 * started_words(len))?;
    write_by_table::<C>(a, b, &mut values, &mut validity);
    with_validity(values, validity, len)
}

// Writes it to the front of room of whole words.
fn write_by_table<C: KleeneOp>(
    a: &NullableBitBuffer,
    b: &NullableBitBuffer,
    values: &mut [u8],
    validity: &mut [u8],
)
    requires len { length (nullable_values a.now) ≡ length (nullable_values b.now) }
    requires room { 8 * started_words (length (nullable_values a.now)) ≤ length values.old }
    requires validity_room { 8 * started_words (length (nullable_values a.now))
        ≤ length validity.old }
    ensures values { bitmap values.new 0 (length (nullable_values a.now)) ≡ is_true_of
        (combined_nullable C.table (nullable_values a.now) (nullable_values b.now)) }
    ensures validity { bitmap validity.new 0 (length (nullable_values a.now)) ≡ is_valid_of
        (combined_nullable C.table (nullable_values a.now) (nullable_values b.now)) }
{
    combine_kleene::<C>(a.bitmap(), b.bitmap(), a.len(), values, validity);
}

// The first `len` bits of bytes, with those of others as their validity.
fn with_validity(
    values: ByteList,
    validity: ByteList,
    len: usize,
) -> Result<NullableBitBuffer, AllocError>
    requires covered { len ≤ 8 * vec_len values }
    requires validity_covered { len ≤ 8 * vec_len validity }
    ensures { IfOk result (λ b. (b.values ≡ record { bytes = values.items; offset = 0; len = len })
        × (b.validity ≡ Some (record { bytes = validity.items; offset = 0; len = len }))) }
{
    let values = BitBuffer::from_list(values, len)?;
    let validity = BitBuffer::from_list(validity, len)?;
    Ok(NullableBitBuffer {
        values,
        validity: Some(validity),
    })
}
