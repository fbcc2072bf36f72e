//! Buffers, and what walks yield, as text.

ghost use Rattle.std.specs.Iterator.{IsFinite};

use crate::fault::Fault;
use crate::tell::{Tell, tell_each, tell_fault};
use crate::text::{Detail, Text};
use mask_bits::{BitBuffer, BitChunks};
use std::alloc::AllocError;

impl Tell for BitBuffer {
    fn tell(self, text: &mut Text) {
        (&self).tell(text);
    }
}

/// The list of a buffer, or of a long one its length and how many values are true.
impl<'a> Tell for &'a BitBuffer {
    fn tell(self, text: &mut Text) {
        if text.cuts(self.len()) {
            text.put_pair(self.true_count(), " of ", self.len());
        } else if self.is_empty() {
            text.put("-");
        } else {
            write_bits(text, self);
        }
    }
}

// Word by word.
pub(crate) fn write_bits(text: &mut Text, buffer: &BitBuffer) {
    let mut left = buffer.len();
    for word in buffer.chunks().iter_padded() {
        text.put_bits(word, left.min(64));
        left = left.saturating_sub(64);
    }
}

/// Writes the list of a buffer, and where more than lists is told the bit offset that it stands at, and the bytes, the
/// first sixteen of them.
pub fn write_backed(text: &mut Text, buffer: &BitBuffer) {
    buffer.tell(text);
    if !matches!(text.detail, Detail::Lists) {
        text.put_next(" at ", buffer.offset());
        let bytes = buffer.inner().as_slice().iter().take(16);
        write_walk(text, " of", bytes.map(|byte| *byte as usize));
    }
}

/// Writes a buffer that was made, and where it stands.
pub(crate) fn write_made(text: &mut Text, made: Result<BitBuffer, AllocError>) {
    match made {
        Ok(buffer) => write_backed(text, &buffer),
        Err(error) => tell_fault(text, Fault::from(error)),
    }
}

// Each value by its index.
pub(crate) fn write_each(text: &mut Text, buffer: &BitBuffer) {
    for i in 0..buffer.len() {
        text.put_digit(buffer.value(i));
    }
    text.put(" by index");
}

// How many are left, by both calls that say it.
fn write_hint(text: &mut Text, len: usize, (least, most): (usize, Option<usize>)) {
    match most {
        Some(most) if most == least && len == least => {}
        _ => text.put("not exactly "),
    }
    text.put_display(&least);
}

/// Each item, with how many are said to be left before it; and so often how many past the last.
pub(crate) fn write_steps<T: Into<u64> + Drop, I: ExactSizeIterator<Item = T>>(
    text: &mut Text,
    mut walk: I,
    ends: usize,
)
    requires { (it : I) → I.can_next it }
{
    for _ in 0..walk.len() {
        write_hint(text, walk.len(), walk.size_hint());
        match walk.next() {
            Some(item) => text.put_next::<u64>(":", item.into()),
            None => text.put(":none"),
        }
        text.put(" ");
    }
    for _ in 0..ends {
        write_hint(text, walk.len(), walk.size_hint());
        text.put(if walk.next().is_none() {
            ""
        } else {
            ":one more"
        });
    }
}

/// Each item behind a name of them all.
pub(crate) fn write_walk<T: Tell, I: Iterator<Item = T>>(text: &mut Text, name: &str, items: I)
    requires can { I.can_next items }
    requires ends { IsFinite (I.remaining items) }
{
    text.put(name);
    tell_each(text, " ", " ", items);
}

/// Each whole word by the walk, and by its number; and what is left after them.
pub(crate) fn write_words(text: &mut Text, chunks: &BitChunks<'_>) {
    write_steps(text, chunks.iter(), 1);
    text.put_next(" of ", chunks.len());
    for i in 0..chunks.len() {
        text.put_next(" ", chunks.word(i));
    }
    text.put_next(" rest ", chunks.remainder_len());
    text.put_next(" ", chunks.remainder_bits());
}

// The index of each true value of these numbers, from 0 on.
pub(crate) fn write_selected(text: &mut Text, buffer: &BitBuffer, numbers: usize) {
    for n in 0..numbers {
        buffer.select(n).tell(text);
        text.put(" ");
    }
    text.put("by number");
}
