//! Text that is written piece by piece.

use std::alloc::Global;
use std::fmt::{Debug, Display};

/// How much is written of long lists, and of what masks have cached.
#[derive(Drop, Clone, Copy)]
pub enum Detail {
    /// Long lists by their lengths and counts, and cached lists.
    Short,
    /// Each list whole, and cached lists.
    Whole,
    /// Each list whole, and no cached lists.
    Lists,
}

/// A text, and whether memory was refused for a piece of it. A piece answers nothing and has no clause, so that a
/// body that writes many is proved soon.
#[derive(Drop)]
pub struct Text {
    text: String,
    is_cut: bool,
    /// Whether it says that a call was refused memory.
    pub is_out_of_memory: bool,
    /// How much is written of what.
    pub(crate) detail: Detail,
}

impl Text {
    /// An empty text that takes so much of what is written.
    pub fn new(alloc: Global, detail: Detail) -> Text {
        Text {
            text: String::new(alloc),
            is_cut: false,
            is_out_of_memory: false,
            detail,
        }
    }

    /// An empty text with so many bytes of room, which takes each list whole.
    pub fn with_room(alloc: Global, count: usize) -> Text {
        let mut text = Text::new(alloc, Detail::Whole);
        if let Ok(room) = String::with_capacity(alloc, count) {
            text.text = room;
        }
        text
    }

    // Whether a list of this length is not written item by item.
    pub(crate) fn cuts(&self, len: usize) -> bool {
        len > LONGEST && matches!(self.detail, Detail::Short)
    }

    /// Whether a list of so many items is written item by item. Else it is written here: `-` for none.
    pub(crate) fn takes_items(&mut self, len: usize) -> bool {
        if len == 0 {
            self.put("-");
        } else if self.cuts(len) {
            self.put_display(&len);
            self.put(" items");
        }
        len > 0 && !self.cuts(len)
    }

    /// What is written, as far as there was memory.
    pub fn as_str(&self) -> &str {
        self.text.as_str()
    }

    /// Whether this is the whole text.
    pub fn says(&self, text: &str) -> bool {
        !self.is_cut && self.text.as_str() == text
    }

    pub fn put(&mut self, part: &str) {
        self.is_cut |= self.text.push_str(part).is_err();
    }

    pub(crate) fn put_display<T: Display>(&mut self, value: &T) {
        self.is_cut |= write!(self.text, "{value}").is_err();
    }

    pub(crate) fn put_debug<T: Debug>(&mut self, value: &T) {
        self.is_cut |= write!(self.text, "{value:?}").is_err();
    }

    pub(crate) fn put_hex(&mut self, word: u64) {
        self.is_cut |= write!(self.text, "{word:#X}").is_err();
    }

    pub(crate) fn put_next<T: Display + Drop>(&mut self, mark: &str, number: T) {
        self.put(mark);
        self.put_display(&number);
    }

    pub(crate) fn put_pair(&mut self, first: usize, mark: &str, second: usize) {
        self.put_display(&first);
        self.put_next(mark, second);
    }

    pub(crate) fn put_digit(&mut self, value: bool) {
        self.put(if value { "1" } else { "0" });
    }

    /// Writes so many bits of a word as digits, the lowest first.
    pub(crate) fn put_bits(&mut self, word: u64, count: usize) {
        let mut rest = word;
        for _ in 0..count {
            self.put_digit(rest & 1 == 1);
            rest >>= 1;
        }
    }
}

// Longer lists are written by their length.
const LONGEST: usize = 200;
