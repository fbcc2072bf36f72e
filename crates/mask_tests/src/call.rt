//! A call with its operands.

use crate::calls::masks;
use crate::fault::{Fault, UNKNOWN};
use crate::operands::Operands;
use crate::tell::tell_fault;
use crate::text::{Detail, Text};
use crate::words::Words;
use std::alloc::Global;

/// A call with its operands. Where it was refused memory, operands that were lent are there still, and it can be
/// made again; those by value are made when it is read.
#[derive(Drop)]
pub struct Call<'n> {
    name: &'n str,
    pub operands: Operands,
}

impl<'n> Call<'n> {
    /// The call of this name, and its operands by the words behind it. A clone of each is held where they `are_shared`.
    pub fn read(
        alloc: Global,
        name: &'n str,
        words: &str,
        are_shared: bool,
    ) -> Result<Call<'n>, Fault> {
        let mut operands = Operands::new(alloc);
        match masks(name, &mut operands, &mut Text::new(alloc, Detail::Whole)) {
            Some(names) => {
                let mut words = Words::new(alloc, words, are_shared);
                operands.read(&mut words, names);
                words.end(Call { name, operands })
            }
            None => Err(UNKNOWN),
        }
    }

    /// Makes the call, and tells what it answers. With room in the text, it asks for memory in the call alone.
    pub fn run(&mut self, text: &mut Text) {
        if masks(self.name, &mut self.operands, text).is_none() {
            tell_fault(text, Fault::Unmet("operands that are there"));
        }
    }

    /// What the call leaves as it was, with no list cut: operands that are lent, and clones that are held. Where it
    /// `is_refused` memory, these are also the operands that it changes in place.
    pub fn kept(&self, is_refused: bool, detail: Detail) -> Text {
        let mut text = Text::new(self.operands.alloc, detail);
        self.operands.write_kept(&mut text, is_refused);
        text
    }
}
