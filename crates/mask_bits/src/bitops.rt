//! The boolean calls of buffers.

ghost use Rattle.std.specs.Prelude.{◌≡◌, length, IfOk};
ghost use Rattle.mask_bits.specs.Buffer.{values};
ghost use Rattle.mask_bits.specs.Lists.{and_of, or_of, and_not_of, not_of, combined};

use crate::buffer::BitBuffer;
use crate::byte_list::unwritten;
use crate::combine::{And, AndNot, BitOp, Not, Or, combine, combine_in_place, negate_in_place};
use crate::words::started_words;
use std::alloc::{AllocError, Global};

#[tactic(auto, using(crate::proofs::Lists::BooleanLemmas::length_facts))]
impl BitBuffer {
    /// The values that are true in both.
    // rust: named try_bitand
    pub fn bitand(&self, alloc: Global, other: &BitBuffer) -> Result<BitBuffer, AllocError>
        requires { length (values self.now) ≡ length (values other.now) }
        ensures list { IfOk result (λ b. values b ≡ and_of (values self.now) (values other.now)) }
        ensures len { IfOk result (λ b. length (values b) ≡ length (values self.now)) }
    {
        combined_buffer::<And>(alloc, self, other)
    }

    /// The values that are true in one or in both.
    // rust: named try_bitor
    pub fn bitor(&self, alloc: Global, other: &BitBuffer) -> Result<BitBuffer, AllocError>
        requires { length (values self.now) ≡ length (values other.now) }
        ensures list { IfOk result (λ b. values b ≡ or_of (values self.now) (values other.now)) }
        ensures len { IfOk result (λ b. length (values b) ≡ length (values self.now)) }
    {
        combined_buffer::<Or>(alloc, self, other)
    }

    /// The values that are true here and not in `other`.
    // rust: named try_bitand_not
    pub fn bitand_not(&self, alloc: Global, other: &BitBuffer) -> Result<BitBuffer, AllocError>
        requires { length (values self.now) ≡ length (values other.now) }
        ensures list { IfOk result (λ b. values b ≡ and_not_of (values self.now) (values other.now)) }
        ensures len { IfOk result (λ b. length (values b) ≡ length (values self.now)) }
    {
        combined_buffer::<AndNot>(alloc, self, other)
    }

    /// The complement: each value negated.
    // rust: named try_not
    pub fn not(&self, alloc: Global) -> Result<BitBuffer, AllocError>
        ensures list { IfOk result (λ b. values b ≡ not_of (values self.now)) }
        ensures len { IfOk result (λ b. length (values b) ≡ length (values self.now)) }
    {
        combined_buffer::<Not>(alloc, self, self)
    }
}

/// Boolean calls of a buffer that is taken by value. The result is written into its own bytes where
/// nobody else holds them and it begins at a whole one.
#[tactic(auto, using(crate::proofs::Lists::BooleanLemmas::length_facts))]
impl BitBuffer {
    /// The values that are true in both.
    // rust: named try_into_bitand
    pub fn into_bitand(self, alloc: Global, other: &BitBuffer) -> Result<BitBuffer, AllocError>
        requires { length (values self) ≡ length (values other.now) }
        ensures list { IfOk result (λ b. values b ≡ and_of (values self) (values other.now)) }
        ensures len { IfOk result (λ b. length (values b) ≡ length (values self)) }
    {
        combined_into::<And>(alloc, self, other)
    }

    /// The values that are true in one or in both.
    // rust: named try_into_bitor
    pub fn into_bitor(self, alloc: Global, other: &BitBuffer) -> Result<BitBuffer, AllocError>
        requires { length (values self) ≡ length (values other.now) }
        ensures list { IfOk result (λ b. values b ≡ or_of (values self) (values other.now)) }
        ensures len { IfOk result (λ b. length (values b) ≡ length (values self)) }
    {
        combined_into::<Or>(alloc, self, other)
    }

    /// The values that are true here and not in `other`.
    // rust: named try_into_bitand_not
    pub fn into_bitand_not(self, alloc: Global, other: &BitBuffer) -> Result<BitBuffer, AllocError>
        requires { length (values self) ≡ length (values other.now) }
        ensures list { IfOk result (λ b. values b ≡ and_not_of (values self) (values other.now)) }
        ensures len { IfOk result (λ b. length (values b) ≡ length (values self)) }
    {
        combined_into::<AndNot>(alloc, self, other)
    }

    /// The complement: each value negated.
    // rust: named try_into_not
    #[tactic(auto, using(crate::proofs::Lists::BooleanLemmas::length_facts, crate::proofs::CombineLemmas::room_facts, std::proofs::lemmas::Grind::common_steps))]
    pub fn into_not(self, alloc: Global) -> Result<BitBuffer, AllocError>
        ensures list { IfOk result (λ b. values b ≡ not_of (values self)) }
        ensures len { IfOk result (λ b. length (values b) ≡ length (values self)) }
    {
        let len = self.len();
        match self.into_room() {
            Ok(mut room) => {
                negate_in_place(room.as_mut_slice(), len);
                BitBuffer::from_room(room, len)
            }
            Err(shared) => shared.not(alloc),
        }
    }
}

// A buffer of what `C` makes of two.
// rust: inline
#[tactic(auto, using(crate::proofs::CombineLemmas::combined_buffers))]
pub(crate) fn combined_buffer<C: BitOp>(
    alloc: Global,
    a: &BitBuffer,
    b: &BitBuffer,
) -> Result<BitBuffer, AllocError>
    requires { length (values a.now) ≡ length (values b.now) }
    ensures { IfOk result (λ r. values r ≡ combined C.of_bits (values a.now) (values b.now)) }
{
    let len = a.len();
    let mut out = unwritten(alloc, 8 * started_words(len))?;
    combine::<C>(a.bits(), a.offset(), b.bits(), b.offset(), len, &mut out);
    BitBuffer::from_list(out, len)
}

// The same in the first one's bytes, where they are its own.
#[tactic(auto, using(crate::proofs::CombineLemmas::room_facts, crate::proofs::CombineLemmas::part_facts, std::proofs::lemmas::Grind::common_steps))]
fn combined_into<C: BitOp>(
    alloc: Global,
    a: BitBuffer,
    b: &BitBuffer,
) -> Result<BitBuffer, AllocError>
    requires { length (values a) ≡ length (values b.now) }
    ensures { IfOk result (λ r. values r ≡ combined C.of_bits (values a) (values b.now)) }
{
    let len = a.len();
    match a.into_room() {
        Ok(mut room) => {
            combine_in_place::<C>(room.as_mut_slice(), b.bits(), b.offset(), len);
            BitBuffer::from_room(room, len)
        }
        Err(shared) => combined_buffer::<C>(alloc, &shared, b),
    }
}
