//! A list of truth values, packed.

ghost use Rattle.std.specs.Prelude.{◌≡◌, ◌+◌, ◌-◌, ◌*◌, ◌<◌, ◌≤◌, ◌^◌, ◌↔◌, ℕ, Bool, false, true, [], length, vec_len, All, IfOk, IfSome, IsTrue, MatchResult, Some, slice_get, slice_range};
ghost use Rattle.std.specs.Iterator.{UpTo, Drains, YieldsFirst};
ghost use Rattle.std.specs.Iterator.Runs.{WholeRun, YieldsInOrder};
ghost use Rattle.mask_bits.specs.Bitmap.{bitmap};
ghost use Rattle.mask_bits.specs.Buffer.{Packed, IsWithinBytes, values, backing_bit};
ghost use Rattle.mask_bits.specs.Positions.{positions, count, repeated, true_at, IsFirstFrom};
ghost use Rattle.mask_bits.specs.Text.{buffer_text};

use crate::bit_iterator::BitIterator;
use crate::bools::put_bools;
use crate::byte_list::{ByteList, byte_list, unwritten};
use crate::chunks::BitChunks;
use crate::counts::count_bits;
use crate::words::started_words;
use crate::write_bits::{ones, set_bit};
use bytes::{Bytes, BytesMut};
use std::alloc::{AllocError, Global};
use std::fmt;
use std::marker::Model;

/// An immutable list of truth values, packed eight to a byte.
///
/// Value `i` is the bit at position `p = offset + i` of the backing bytes: bit `p % 8`, counted
/// from the lowest, of byte `p / 8`. Backing bits before the offset and past the last value have
/// no meaning and never change an answer.
#[derive(Drop)]
pub struct BitBuffer {
    bytes: Bytes,
    offset: usize,
    len: usize,
}

impl Model for BitBuffer {
    ghost use Rattle.mask_bits.specs.Buffer.{Packed, IsWithinBytes};

    ghost Value = { Packed };

    ghost view = { λ b. record { bytes = b.bytes; offset = b.offset; len = b.len } };

    ghost invariant = { λ b. IsWithinBytes b.bytes b.offset b.len };
}

#[tactic(auto, using(crate::proofs::BufferLemmas::buffer_facts, crate::proofs::YieldLemmas::whole_walks))]
impl BitBuffer {
    /// The first `len` bits of `bytes`.
    pub fn new(bytes: Bytes, len: usize) -> BitBuffer
        requires { len ≤ 8 * length bytes }
        ensures buffer { result ≡ record { bytes = bytes; offset = 0; len = len } }
        ensures len { length (values result) ≡ len }
    {
        BitBuffer::new_with_offset(bytes, 0, len)
    }

    /// The `len` bits of `bytes` from bit position `offset` on.
    pub fn new_with_offset(bytes: Bytes, offset: usize, len: usize) -> BitBuffer
        requires covered { offset + len ≤ 8 * length bytes }
        requires fits { offset + len < 2 ^ 64 }
        ensures buffer { result ≡ record { bytes = bytes; offset = offset; len = len } }
        ensures len { length (values result) ≡ len }
    {
        BitBuffer { bytes, offset, len }
    }

    /// The first `len` bits of bytes that a caller has written.
    // rust: named try_from_vec
    pub fn from_vec(bytes: Vec<u8>, len: usize) -> Result<BitBuffer, AllocError>
        requires { len ≤ 8 * vec_len bytes }
        ensures buffer { IfOk result
            (λ b. b ≡ record { bytes = bytes.items; offset = 0; len = len }) }
        ensures len { IfOk result (λ b. length (values b) ≡ len) }
    {
        BitBuffer::from_list(byte_list(bytes), len)
    }

    // The first `len` bits of bytes that were made for them.
    #[doc(hidden)]
    pub fn from_list(bytes: ByteList, len: usize) -> Result<BitBuffer, AllocError>
        requires { len ≤ 8 * vec_len bytes }
        ensures buffer { IfOk result
            (λ b. b ≡ record { bytes = bytes.items; offset = 0; len = len }) }
        ensures len { IfOk result (λ b. length (values b) ≡ len) }
    {
        Ok(BitBuffer::new(Bytes::from_vec(bytes)?, len))
    }

    /// `len` true values.
    // rust: named try_new_set
    #[tactic(auto, using(crate::proofs::BufferLemmas::one_value))]
    pub fn new_set(alloc: Global, len: usize) -> Result<BitBuffer, AllocError>
        ensures { IfOk result (λ b. values b ≡ repeated len true) }
    {
        BitBuffer::from_list(ones(alloc, len)?, len)
    }

    /// `len` false values.
    // rust: named try_new_unset
    #[tactic(auto, using(crate::proofs::BufferLemmas::one_value))]
    pub fn new_unset(alloc: Global, len: usize) -> Result<BitBuffer, AllocError>
        ensures { IfOk result (λ b. values b ≡ repeated len false) }
    {
        BitBuffer::from_list(zeroed(alloc, len)?, len)
    }

    /// The list of `len` values that is true exactly at `indices`, in any order and with repeats.
    // rust: named try_from_indices
    #[tactic(auto, using(std::proofs::Common::take_all, crate::proofs::BufferLemmas::values_from_places))]
    pub fn from_indices(
        alloc: Global,
        len: usize,
        indices: &[usize],
    ) -> Result<BitBuffer, AllocError>
        requires { All (λ i. i < len) indices.now }
        ensures { IfOk result (λ b. values b ≡ true_at len indices.now) }
    {
        let mut bytes = zeroed(alloc, len)?;
        for index in indices {
            set_bit(&mut bytes, *index);
        }
        BitBuffer::from_list(bytes, len)
    }

    /// The values that an iterator yields, in their order.
    // rust: named try_from_bools
    pub fn from_bools<I: Iterator<Item = bool>>(
        alloc: Global,
        bools: I,
    ) -> Result<BitBuffer, AllocError>
        requires can { I.can_next bools }
        requires ends { UpTo (I.remaining bools) usize.MAX }
        ensures items { IfOk result (λ b. Drains I.next_gives bools (values b)) }
        ensures whole { IfOk result (λ b. WholeRun I.next_gives bools (λ p. values b ≡ p.items)) }
    {
        // listed first: a word is packed from 64 values in a row several times as fast as from an
        // iterator, which may end at each
        let bools: Vec<bool> = bools.collect(alloc)?;
        BitBuffer::from_slice(alloc, &bools)
    }

    #[tactic(auto, using(crate::proofs::BufferLemmas::values_from_front, crate::proofs::CombineLemmas::take_back))]
    fn from_slice(alloc: Global, bools: &[bool]) -> Result<BitBuffer, AllocError>
        ensures { IfOk result (λ b. values b ≡ bools.now) }
    {
        let mut bytes = unwritten(alloc, 8 * started_words(bools.len()))?;
        put_bools(&mut bytes, bools);
        BitBuffer::from_list(bytes, bools.len())
    }

    /// A buffer of the same backing bytes, at the same offset and length.
    // rust: named try_clone
    pub fn clone(&self) -> Result<BitBuffer, AllocError>
        ensures { IfOk result (λ b. b ≡ self.now) }
    {
        let bytes = self.bytes.clone()?;
        Ok(BitBuffer::new_with_offset(bytes, self.offset, self.len))
    }

    /// The values from `start` to `end`, over the same bytes at the offset of value `start`.
    // rust: named try_slice
    pub fn slice(&self, start: usize, end: usize) -> Result<BitBuffer, AllocError>
        requires ordered { start ≤ end }
        requires within { end ≤ length (values self.now) }
        ensures backing { IfOk result (λ b. b
            ≡ record self.now { offset = self.now.offset + start; len = end - start }) }
        ensures list { IfOk result (λ b. values b ≡ slice_range (values self.now) start end) }
    {
        let bytes = self.bytes.clone()?;
        Ok(BitBuffer::new_with_offset(bytes, self.offset + start, end - start))
    }

    /// How many values there are.
    pub fn len(&self) -> usize
        ensures { result ≡ length (values self.now) }
    {
        self.len
    }

    /// Whether there is no value.
    pub fn is_empty(&self) -> bool
        ensures { IsTrue result ↔ (values self.now ≡ []) }
    {
        self.len == 0
    }

    /// How many values are true.
    #[tactic(auto, using(crate::proofs::Lists::Places::PlaceLemmas::place_facts, crate::proofs::BufferLemmas::buffer_facts, crate::proofs::BufferLemmas::len_facts))]
    pub fn true_count(&self) -> usize
        ensures counted { result ≡ count (values self.now) }
        ensures at_most { result ≤ length (values self.now) }
    {
        count_bits(self.bytes.as_slice(), self.offset, self.len)
    }

    /// How many values are false.
    pub fn false_count(&self) -> usize
        ensures { count (values self.now) + result ≡ length (values self.now) }
    {
        self.len - self.true_count()
    }

    /// How many of the values from `start` to `end` are true.
    pub fn count_range(&self, start: usize, end: usize) -> usize
        requires ordered { start ≤ end }
        requires within { end ≤ length (values self.now) }
        ensures counted { result ≡ count (slice_range (values self.now) start end) }
        ensures at_most { result ≤ end - start }
    {
        count_bits(self.bytes.as_slice(), self.offset + start, end - start)
    }

    /// The position of value 0 in the backing bytes, in bits.
    pub fn offset(&self) -> usize
        ensures { result ≡ self.now.offset }
    {
        self.offset
    }

    /// The backing bytes. All values are within them.
    pub fn inner(&self) -> &Bytes
        ensures bytes { result.now ≡ self.now.bytes }
        ensures within { IsWithinBytes self.now.bytes self.now.offset self.now.len }
    {
        &self.bytes
    }

    // The bytes, with what readers of them need to know.
    pub(crate) fn bits(&self) -> &[u8]
        ensures bytes { result.now ≡ self.now.bytes }
        ensures within { IsWithinBytes result.now self.now.offset self.now.len }
    {
        self.inner().as_slice()
    }

    // The bytes from the first value's on, where nobody else holds them and that value begins one.
    #[tactic(auto, using(crate::proofs::CombineLemmas::room_facts))]
    pub(crate) fn into_room(self) -> Result<BytesMut, BitBuffer>
        ensures list { MatchResult result
            (λ room. bitmap room.items 0 self.len ≡ values self)
            (λ b. b ≡ self) }
        ensures covered { IfOk result (λ room. self.len ≤ 8 * length room.items) }
    {
        let BitBuffer { bytes, offset, len } = self;
        if offset % 8 != 0 {
            return Err(BitBuffer { bytes, offset, len });
        }
        match bytes.try_into_mut() {
            Ok(mut room) => {
                room.advance(offset / 8);
                Ok(room)
            }
            Err(bytes) => Err(BitBuffer { bytes, offset, len }),
        }
    }

    // The first `len` bits of bytes that were written in place.
    pub(crate) fn from_room(room: BytesMut, len: usize) -> Result<BitBuffer, AllocError>
        requires { len ≤ 8 * length room.items }
        ensures { IfOk result (λ b. values b ≡ bitmap room.items 0 len) }
    {
        Ok(BitBuffer::new(BytesMut::freeze(room)?, len))
    }

    /// Value `i`.
    pub fn value(&self, i: usize) -> bool
        requires { i < length (values self.now) }
        ensures { slice_get (values self.now) i ≡ Some result }
    {
        let position = self.offset + i;
        (self.bytes.as_slice()[position / 8] >> (position % 8)) & 1 == 1
    }

    /// The index of true value number `n`, counted from 0, and `None` from the true count on.
    #[inline(never)]
    pub fn select(&self, n: usize) -> Option<usize>
        ensures index { result ≡ slice_get (positions (values self.now)) n }
        ensures within { IfSome result (λ p. p < length (values self.now)) }
    {
        self.chunks().select(n)
    }

    /// The index of the last true value, if there is one.
    pub fn last_set_index(&self) -> Option<usize>
        ensures index { result
            ≡ slice_get (positions (values self.now)) (count (values self.now) - 1) }
        ensures within { IfSome result (λ p. p < length (values self.now)) }
    {
        self.chunks().last_set_index()
    }

    /// The first index from `from` on whose value is `value`, and the length where none is.
    pub fn first_from(&self, from: usize, value: bool) -> usize
        requires { from ≤ length (values self.now) }
        ensures { IsFirstFrom (values self.now) from value result }
    {
        self.chunks().first_from(from, value)
    }

    /// The values in their order.
    pub fn iter(&self) -> BitIterator<'_>
        ensures list { result ≡ values self.now }
        ensures in_order { YieldsInOrder (YieldsFirst {A = Bool} (λ s. s)) (λ s. s) }
        ensures fits { length result < 2 ^ 64 }
    {
        BitIterator::new(self.chunks())
    }

    /// The values in words of 64, the first value lowest.
    pub fn chunks(&self) -> BitChunks<'_>
        ensures list { result ≡ values self.now }
        ensures fits { length result < 2 ^ 64 }
    {
        BitChunks::new(self.bytes.as_slice(), self.offset, self.len)
    }
}

// rust: by hand
impl fmt::Debug for BitBuffer {
    ghost debug_output = { λ b. Some (buffer_text (values b)) };

    fn fmt<W: fmt::Write>(&self, f: &mut fmt::Formatter<W>) -> fmt::Result {
        f.write_str("BitBuffer(")?;
        for value in self.iter() {
            f.write_str(if value { "1" } else { "0" })?;
        }
        f.write_str(")")
    }
}

// Bytes for `len` bits, all clear.
fn zeroed(alloc: Global, len: usize) -> Result<ByteList, AllocError>
    ensures covered { IfOk result (λ bytes. len ≤ 8 * vec_len bytes) }
    ensures clear { IfOk result (λ bytes. (p : ℕ) → backing_bit bytes.items p ≡ false) }
{
    vec![in alloc; 0u8; len.div_ceil(8)]
}
