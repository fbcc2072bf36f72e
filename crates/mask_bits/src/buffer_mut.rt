//! A builder of packed bits.

ghost use Rattle.std.specs.Prelude.{◌≡◌, ◌+◌, ◌*◌, ◌%◌, ◌^◌, ◌<◌, ◌≤◌, ◌++◌, ℕ, true, false, [], length, take, slice_set, IfOk, OnOk, OnErr, vec_len};
ghost use Rattle.mask_bits.specs.Bitmap.{bitmap};
ghost use Rattle.mask_bits.specs.Buffer.{backing_bit, values};
ghost use Rattle.mask_bits.specs.Positions.{repeated};
ghost use Rattle.mask_bits.specs.Words.{word_bits};

use crate::buffer::BitBuffer;
use crate::byte_list::ByteList;
use crate::words::started_words;
use crate::write_bits::{clear_bit, put_bits, put_same, put_word, set_bit};
use bytes::Bytes;
use std::alloc::{AllocError, Global};
use std::marker::Model;

/// A list of truth values under construction, packed eight to a byte.
///
/// Each append adds its values behind those that are there. Where an append is refused, the list
/// stays as it was.
#[derive(Drop)]
pub struct BitBufferMut {
    bytes: ByteList,
    len: usize,
}

impl Model for BitBufferMut {
    ghost use Rattle.std.specs.Prelude.{Bool, List};
    ghost use Rattle.mask_bits.specs.Bitmap.{bitmap};
    ghost use Rattle.mask_bits.specs.BufferMut.{IsRoom};

    ghost Value = { List Bool };

    ghost view = { λ b. bitmap b.bytes.items 0 b.len };

    ghost invariant = { λ b. IsRoom b.bytes.items b.len };
}

impl BitBufferMut {
    /// An empty list, with room for `n` bits.
    // rust: named try_with_capacity
    #[tactic(auto, using(crate::proofs::BuilderLemmas::no_bits))]
    pub fn with_capacity(alloc: Global, n: usize) -> Result<BitBufferMut, AllocError>
        ensures { IfOk result (λ b. b ≡ []) }
    {
        Ok(BitBufferMut {
            bytes: vec![in alloc; 0u8; 8 * started_words(n)]?,
            len: 0,
        })
    }

    /// `len` true values.
    // rust: named try_new_set
    pub fn new_set(alloc: Global, len: usize) -> Result<BitBufferMut, AllocError>
        ensures { IfOk result (λ b. b ≡ repeated len true) }
    {
        let mut buffer = BitBufferMut::with_capacity(alloc, len)?;
        buffer.append_n(true, len)?;
        Ok(buffer)
    }

    /// `len` false values.
    // rust: named try_new_unset
    pub fn new_unset(alloc: Global, len: usize) -> Result<BitBufferMut, AllocError>
        ensures { IfOk result (λ b. b ≡ repeated len false) }
    {
        let mut buffer = BitBufferMut::with_capacity(alloc, len)?;
        buffer.append_n(false, len)?;
        Ok(buffer)
    }

    /// How many values there are.
    #[tactic(auto, using(crate::proofs::BufferLemmas::len_facts))]
    pub fn len(&self) -> usize
        ensures { result ≡ length self.now }
    {
        self.len
    }

    /// Makes value `i` true.
    #[tactic(auto, using(crate::proofs::BufferLemmas::len_facts, crate::proofs::BuilderLemmas::bits_set))]
    pub fn set(&mut self, i: usize)
        requires { i < length self.old }
        ensures { self.new ≡ slice_set self.old i true }
    {
        set_bit(&mut self.bytes, i);
    }

    /// Makes value `i` false.
    #[tactic(auto, using(crate::proofs::BufferLemmas::len_facts, crate::proofs::BuilderLemmas::bits_set))]
    pub fn unset(&mut self, i: usize)
        requires { i < length self.old }
        ensures { self.new ≡ slice_set self.old i false }
    {
        clear_bit(&mut self.bytes, i);
    }

    /// Appends `value`, `n` times.
    // rust: named try_append_n
    #[tactic(auto, using(crate::proofs::BufferLemmas::len_facts, crate::proofs::BuilderLemmas::appended))]
    pub fn append_n(&mut self, value: bool, n: usize) -> Result<(), AllocError>
        requires { length self.old + n < 2 ^ 64 }
        ensures added { OnOk result (self.new ≡ self.old ++ repeated n value) }
        ensures refused { OnErr result (self.new ≡ self.old) }
    {
        make_room(&mut self.bytes, self.len + n)?;
        put_same(&mut self.bytes, self.len, value, n);
        self.len += n;
        Ok(())
    }

    /// Appends the values of a buffer, whatever its bit offset.
    // rust: named try_append_buffer
    #[tactic(auto, using(crate::proofs::BufferLemmas::len_facts, crate::proofs::BufferLemmas::buffer_facts, crate::proofs::CombineLemmas::part_facts, crate::proofs::BuilderLemmas::appended))]
    pub fn append_buffer(&mut self, other: &BitBuffer) -> Result<(), AllocError>
        requires { length self.old + length (values other.now) < 2 ^ 64 }
        ensures added { OnOk result (self.new ≡ self.old ++ values other.now) }
        ensures refused { OnErr result (self.new ≡ self.old) }
    {
        let n = other.len();
        make_room(&mut self.bytes, self.len + n)?;
        put_bits(
            &mut self.bytes,
            self.len,
            other.inner().as_slice(),
            other.offset(),
            n,
        );
        self.len += n;
        Ok(())
    }

    /// Appends the lowest `count` bits of a word, the lowest first.
    // rust: named try_push_word
    #[tactic(auto, using(crate::proofs::BufferLemmas::len_facts, crate::proofs::BuilderLemmas::appended))]
    pub fn push_word(&mut self, word: u64, count: usize) -> Result<(), AllocError>
        requires few { count ≤ 64 }
        requires fits { length self.old + count < 2 ^ 64 }
        ensures added { OnOk result (self.new ≡ self.old ++ take count (word_bits word)) }
        ensures refused { OnErr result (self.new ≡ self.old) }
    {
        make_room(&mut self.bytes, self.len + count)?;
        put_word(&mut self.bytes, self.len, word, count);
        self.len += count;
        Ok(())
    }

    /// A buffer of the same list.
    // rust: named try_freeze
    pub fn freeze(self) -> Result<BitBuffer, AllocError>
        ensures { IfOk result (λ b. values b ≡ self) }
    {
        let BitBufferMut { bytes, len } = self;
        Ok(BitBuffer::new(Bytes::from_vec(bytes)?, len))
    }
}

// Makes room for `bits` bits, where there isn't; new bits are clear.
#[inline]
fn make_room(bytes: &mut ByteList, bits: usize) -> Result<(), AllocError>
    requires { vec_len bytes.old % 8 ≡ 0 }
    ensures stays { (p : ℕ) → backing_bit bytes.new.items p ≡ backing_bit bytes.old.items p }
    ensures whole { vec_len bytes.new % 8 ≡ 0 }
    ensures longer { vec_len bytes.old ≤ vec_len bytes.new }
    ensures room { OnOk result (bits ≤ 8 * vec_len bytes.new) }
{
    if bytes.len() < bits.div_ceil(8) {
        grow(bytes, bits)?;
    }
    Ok(())
}

// At least doubled, so that words pushed one by one grow it seldom.
#[cold]
#[inline(never)]
fn grow(bytes: &mut ByteList, bits: usize) -> Result<(), AllocError>
    requires { vec_len bytes.old % 8 ≡ 0 }
    ensures stays { (p : ℕ) → backing_bit bytes.new.items p ≡ backing_bit bytes.old.items p }
    ensures whole { vec_len bytes.new % 8 ≡ 0 }
    ensures longer { vec_len bytes.old ≤ vec_len bytes.new }
    ensures room { OnOk result (bits ≤ 8 * vec_len bytes.new) }
{
    let words = started_words(bits).max(bytes.len().saturating_mul(2) / 8);
    bytes.resize(8 * words, 0)
}
