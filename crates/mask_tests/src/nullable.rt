//! Truth values with nulls.

use crate::packed::empty;
use crate::tell::Tell;
use crate::text::Text;
use crate::walks::write_backed;
use crate::words::{Word, Words};
use mask_bits::{BitBuffer, NullableBitBuffer};

/// Values with nulls by a word: `3+10110/5-11011` of values and their validity, which are buffers of one length, or
/// `3+10110` without a validity.
impl Word for Option<NullableBitBuffer> {
    fn read(words: &mut Words<'_>, word: &str) -> Option<NullableBitBuffer> {
        match word.split_once("/") {
            Some((values, validity)) => {
                let values = BitBuffer::read(words, values);
                let validity = BitBuffer::read(words, validity);
                with_validity(words, values, validity)
            }
            None => Some(NullableBitBuffer::new(BitBuffer::read(words, word), None)),
        }
    }
}

fn with_validity(
    words: &mut Words<'_>,
    values: BitBuffer,
    validity: BitBuffer,
) -> Option<NullableBitBuffer> {
    if values.len() != validity.len() {
        return words.unread("values and as long a validity", None);
    }
    Some(NullableBitBuffer::new(values, Some(validity)))
}

/// Writes the bytes of values and of their validity, with their offsets.
pub(crate) fn write_nullable(text: &mut Text, it: &NullableBitBuffer) {
    write_backed(text, it.values());
    match it.validity() {
        Some(validity) => write_backed(text, validity),
        None => text.put(" all valid"),
    }
}

/// The values, with `?` for a null; and what the values hold there, if there is a validity.
impl Tell for NullableBitBuffer {
    fn tell(self, text: &mut Text) {
        match self.validity() {
            Some(validity) => {
                put_with_nulls(text, self.values(), validity);
                text.put(" of ");
                self.values().tell(text);
            }
            None => self.values().tell(text),
        }
    }
}

fn put_with_nulls(text: &mut Text, values: &BitBuffer, validity: &BitBuffer) {
    if values.is_empty() {
        text.put("-");
    }
    for (value, is_valid) in values.iter().zip(validity.iter()) {
        if is_valid {
            text.put_digit(value);
        } else {
            text.put("?");
        }
    }
}
