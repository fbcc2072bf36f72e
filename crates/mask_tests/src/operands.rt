//! What calls are made of.

use crate::builder::BuilderCall;
use crate::held::{Held, Use};
use crate::listed::{Listed, Ranged};
use crate::nullable::write_nullable;
use crate::packed;
use crate::text::Text;
use crate::walks::write_backed;
use crate::words::Words;
use crate::written::{write_mask, write_mixed};
use mask_bits::{BitBuffer, NullableBitBuffer};
use std::alloc::Global;
use vortex_mask::{Fraction, Mask, MaskValues};

/// The operands of a call: those that its line names, and others that are empty or 0.
#[derive(Drop)]
pub struct Operands {
    pub(crate) alloc: Global,
    /// Whether they were read: else a call is only looked up.
    pub(crate) are_read: bool,
    pub(crate) a: Held<Mask>,
    pub(crate) b: Held<Mask>,
    pub(crate) masks: Held<Vec<Mask>>,
    pub(crate) values: Held<Option<MaskValues>>,
    pub(crate) x: Held<BitBuffer>,
    pub(crate) y: Held<BitBuffer>,
    pub(crate) v: Option<NullableBitBuffer>,
    pub(crate) w: Option<NullableBitBuffer>,
    pub(crate) rows: Option<Listed>,
    pub(crate) ranks: Option<Listed>,
    pub(crate) ranged: Option<Ranged>,
    pub(crate) builder: Option<BuilderCall>,
    pub(crate) m: usize,
    pub(crate) n: usize,
    pub(crate) p: Fraction,
    pub(crate) q: Fraction,
    pub(crate) list: Vec<usize>,
    pub(crate) flags: Vec<bool>,
    pub(crate) ranges: Vec<(usize, usize)>,
    pub(crate) bytes: Vec<u8>,
    is_taken: bool,
}

impl Operands {
    pub(crate) fn new(alloc: Global) -> Operands {
        Operands {
            alloc,
            are_read: false,
            a: Held::new(Mask::default()),
            b: Held::new(Mask::default()),
            masks: Held::new(Vec::new(alloc)),
            values: Held::new(None),
            x: Held::new(packed::empty()),
            y: Held::new(packed::empty()),
            v: None,
            w: None,
            rows: None,
            ranks: None,
            ranged: None,
            builder: None,
            m: 0,
            n: 0,
            p: Fraction { num: 0, den: 0 },
            q: Fraction { num: 0, den: 0 },
            list: Vec::new(alloc),
            flags: Vec::new(alloc),
            ranges: Vec::new(alloc),
            bytes: Vec::new(alloc),
            is_taken: false,
        }
    }

    pub(crate) fn read(&mut self, words: &mut Words<'_>, names: &str) {
        self.are_read = true;
        self.is_taken = names.contains("taken");
        for name in names.split(' ') {
            self.read_one(words, name);
        }
    }

    fn read_one(&mut self, words: &mut Words<'_>, name: &str) {
        match name {
            "a" => self.a.read(words, Use::Lent),
            "b" => self.b.read(words, Use::Lent),
            "taken" => self.a.read(words, Use::Taken),
            "changed" => self.a.read(words, Use::Changed),
            "masks" => self.masks.read_all(words, Use::Lent),
            "taken_masks" => self.masks.read_all(words, Use::Taken),
            "values" => self.values.read(words, Use::Lent),
            "changed_values" => self.values.read(words, Use::Changed),
            "x" => self.x.read(words, Use::Lent),
            "y" => self.y.read(words, Use::Lent),
            "taken_x" => self.x.read(words, Use::Taken),
            "v" => words.read(&mut self.v),
            "w" => words.read(&mut self.w),
            "rows" => words.read(&mut self.rows),
            "ranks" => words.read(&mut self.ranks),
            "taken_ranged" => words.read_all(&mut self.ranged),
            "builder" => words.read_all(&mut self.builder),
            "m" | "source" => words.read(&mut self.m),
            "n" | "word" => words.read(&mut self.n),
            "p" => words.read(&mut self.p),
            "q" => words.read(&mut self.q),
            "list" => words.read_list(&mut self.list),
            "flags" => words.read(&mut self.flags),
            "taken_ranges" => words.read_list(&mut self.ranges),
            "taken_bytes" => words.read_list(&mut self.bytes),
            _ => words.unread("an operand of this name", ()),
        }
    }

    /// Whether all operands are lent, so that they are there still where the call was refused memory.
    pub fn are_lent(&self) -> bool {
        match &self.builder {
            Some(call) => call.lends(),
            None => !self.is_taken,
        }
    }

    /// Has a builder do no more than make its buffer.
    pub fn give_up(&mut self) {
        if let Some(call) = &mut self.builder {
            call.give_up();
        }
    }

    /// Writes operands that are lent, and clones that are held. Where the call `is_refused` memory, these are also the
    /// operands that it changes in place.
    pub(crate) fn write_kept(&self, text: &mut Text, is_refused: bool) {
        self.a.write_kept(text, is_refused);
        self.b.write_kept(text, is_refused);
        self.masks.write_kept(text, is_refused);
        self.values.write_kept(text, is_refused);
        self.x.write_kept(text, is_refused);
        self.y.write_kept(text, is_refused);
        for nullable in [&self.v, &self.w] {
            if let Some(nullable) = nullable {
                write_nullable(text, nullable);
            }
        }
        for listed in [&self.rows, &self.ranks] {
            if let Some(listed) = listed {
                write_backed(text, &listed.buffer);
            }
        }
    }

    /// Writes what the call changed in place, with what it has cached; and what a builder made.
    pub fn write_changed(&mut self, text: &mut Text) {
        if matches!(self.a.how, Use::Changed) {
            text.put(" then ");
            write_mask(text, &self.a.it);
        }
        if let (Use::Changed, Some(values)) = (self.values.how, &self.values.it) {
            text.put(" then ");
            write_mixed(text, values);
        }
        if let Some(call) = &mut self.builder {
            call.write(text);
        }
    }
}
