//! Operands of which a clone may be held.

use crate::packed::empty;
use crate::text::Text;
use crate::walks::write_backed;
use crate::words::{Word, Words};
use crate::written::{write_mask, write_mixed};
use mask_bits::BitBuffer;
use vortex_mask::{Mask, MaskValues};

#[derive(Drop, Clone, Copy)]
pub(crate) enum Use {
    Lent,
    /// It caches a list in it, or clears it.
    Changed,
    /// It takes it by value, and leaves an empty one, or has none.
    Taken,
}

/// Of what a clone can be held, so that its bytes are shared.
pub(crate) trait Share: Drop {
    fn kept(&self, words: &mut Words<'_>) -> Self;

    fn write_kept(&self, text: &mut Text);
}

impl Share for Mask {
    fn kept(&self, words: &mut Words<'_>) -> Mask {
        words.made(self.clone(), Mask::default())
    }

    fn write_kept(&self, text: &mut Text) {
        write_mask(text, self);
        if let Some(values) = self.values() {
            text.put_next(" at ", values.bit_buffer().offset());
        }
    }
}

impl Share for BitBuffer {
    fn kept(&self, words: &mut Words<'_>) -> BitBuffer {
        words.made(self.clone(), empty())
    }

    fn write_kept(&self, text: &mut Text) {
        write_backed(text, self);
    }
}

impl Share for Vec<Mask> {
    fn kept(&self, words: &mut Words<'_>) -> Vec<Mask> {
        let mut clones: Vec<Mask> = Vec::new(words.alloc);
        for mask in self {
            let clone = mask.kept(words);
            words.add(&mut clones, clone);
        }
        clones
    }

    fn write_kept(&self, text: &mut Text) {
        for mask in self {
            mask.write_kept(text);
        }
    }
}

impl Share for Option<MaskValues> {
    fn kept(&self, words: &mut Words<'_>) -> Option<MaskValues> {
        words.some(self.as_ref()?.clone())
    }

    fn write_kept(&self, text: &mut Text) {
        if let Some(values) = self {
            write_mixed(text, values);
            text.put_next(" at ", values.bit_buffer().offset());
        }
    }
}

/// An operand, and a clone of it where one is held.
#[derive(Drop)]
pub(crate) struct Held<T: Share> {
    pub it: T,
    held: Option<T>,
    pub how: Use,
}

impl<T: Share + Word> Held<T> {
    /// Reads it by the next word, which may end in `&`, where a clone is held.
    pub fn read(&mut self, words: &mut Words<'_>, how: Use) {
        let word = words.next();
        let shared = word.strip_suffix("&");
        self.it = T::read(words, shared.unwrap_or(word));
        self.hold(words, how, shared.is_some());
    }
}

impl Held<Vec<Mask>> {
    /// Reads masks by all words that are left, or none for `()`.
    pub fn read_all(&mut self, words: &mut Words<'_>, how: Use) {
        let all = words.all();
        self.it = words.parts(all, ' ', "()");
        self.hold(words, how, false);
    }
}

impl<T: Share> Held<T> {
    /// What stands for an operand that is not read.
    pub fn new(it: T) -> Held<T> {
        Held {
            it,
            held: None,
            how: Use::Taken,
        }
    }

    /// Notes how the call takes it, and holds a clone of it where that is wanted.
    pub fn hold(&mut self, words: &mut Words<'_>, how: Use, is_held: bool) {
        self.how = how;
        if is_held || words.are_shared {
            self.held = Some(self.it.kept(words));
        }
    }

    /// Writes the clone that is held, and the operand where it was lent, or where the call `is_refused` and has
    /// changed nothing.
    pub fn write_kept(&self, text: &mut Text, is_refused: bool) {
        if matches!(self.how, Use::Lent) || is_refused && matches!(self.how, Use::Changed) {
            self.it.write_kept(text);
        }
        if let Some(held) = &self.held {
            held.write_kept(text);
        }
    }
}
