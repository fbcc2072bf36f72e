//! Calls of builders.

use crate::fault::Fault;
use crate::packed::empty;
use crate::tell::Tell;
use crate::text::Text;
use crate::words::{Word, Words};
use mask_bits::{BitBuffer, BitBufferMut};
use std::alloc::{AllocError, Global};

const NO_BUILDER: Fault = Fault::Unmet("a builder that is there");

// No list of a test is longer.
const LONGEST: usize = 10_000_000;

// What can be done to a builder.
const FORMS: &str = "with_capacity new_set new_unset n w b set unset freeze";

/// A builder to which all operations but the last were done when the call was read, and how often the last is to be
/// done. Where it was refused, the call goes on with it when it is made again.
#[derive(Drop)]
pub struct BuilderCall {
    builder: Option<BitBufferMut>,
    // The buffer that it made, in its place.
    frozen: Option<BitBuffer>,
    times: usize,
    // The last operation: one of the forms, with numbers or a buffer.
    form: &'static str,
    first: usize,
    count: usize,
    buffer: BitBuffer,
}

impl BuilderCall {
    pub fn make(&mut self, alloc: Global) -> Result<(), Fault> {
        for _ in 0..self.times {
            self.step(alloc)?;
            self.times = self.times.saturating_sub(1);
        }
        Ok(())
    }

    fn step(&mut self, alloc: Global) -> Result<(), Fault> {
        match self.form {
            "with_capacity" => self.start(BitBufferMut::with_capacity(alloc, self.first)),
            "new_set" => self.start(BitBufferMut::new_set(alloc, self.first)),
            "new_unset" => self.start(BitBufferMut::new_unset(alloc, self.first)),
            "freeze" => self.finish(),
            _ => self.change(),
        }
    }

    fn start(&mut self, made: Result<BitBufferMut, AllocError>) -> Result<(), Fault> {
        self.builder = Some(made?);
        Ok(())
    }

    // Makes the buffer. The builder is gone where that is refused.
    fn finish(&mut self) -> Result<(), Fault> {
        self.frozen = Some(frozen(self.builder.take().ok_or(NO_BUILDER)?)?);
        Ok(())
    }

    fn change(&mut self) -> Result<(), Fault> {
        let Some(builder) = &mut self.builder else {
            return Err(NO_BUILDER);
        };
        let len = builder.len();
        if len.max(self.count).max(self.buffer.len()) > LONGEST {
            return Err(Fault::Unmet("a length that fits"));
        }
        match self.form {
            "n" => memory(builder.append_n(self.first == 1, self.count)),
            "w" if self.count <= 64 => memory(builder.push_word(self.first as u64, self.count)),
            "b" => memory(builder.append_buffer(&self.buffer)),
            "set" if self.first < len => Ok(builder.set(self.first)),
            "unset" if self.first < len => Ok(builder.unset(self.first)),
            "w" => Err(Fault::Unmet("64 bits at most")),
            _ => Err(Fault::Unmet("an index below the length")),
        }
    }

    /// Writes the list of what was made, once all is done. A builder is frozen for that.
    pub fn write(&mut self, text: &mut Text) {
        if self.times == 0 {
            if self.builder.is_some() {
                self.finish().tell(text);
            }
            if let Some(buffer) = &self.frozen {
                buffer.tell(text);
            }
        }
    }

    /// Whether the builder is lent, and there still where it was refused memory.
    pub fn lends(&self) -> bool {
        self.form != "freeze"
    }

    /// Does no more than to make the buffer.
    pub fn give_up(&mut self) {
        self.form = "freeze";
        self.times = 1;
    }

    // Reads an operation, and how often it is done.
    fn read(&mut self, words: &mut Words<'_>, word: &str) {
        let (times, word) = word.split_once("*").unwrap_or(("1", word));
        self.times = usize::read(words, times);
        let (name, rest) = word.split_once(":").unwrap_or((word, "0"));
        self.form = form(words, name);
        self.read_operands(words, rest);
    }

    fn read_operands(&mut self, words: &mut Words<'_>, rest: &str) {
        if self.form == "b" {
            self.buffer = BitBuffer::read(words, rest);
        } else {
            let (first, count) = rest.split_once(":").unwrap_or((rest, "0"));
            self.first = usize::read(words, first);
            self.count = usize::read(words, count);
        }
    }
}

fn form(words: &mut Words<'_>, name: &str) -> &'static str {
    match FORMS.split(' ').find(|form| *form == name) {
        Some(form) => form,
        None => words.unread("a builder's operation", ""),
    }
}

fn memory(made: Result<(), AllocError>) -> Result<(), Fault> {
    made.map_err(Fault::from)
}

// The buffer, which has the length that the builder said.
fn frozen(builder: BitBufferMut) -> Result<BitBuffer, Fault> {
    let len = builder.len();
    match builder.freeze() {
        Ok(buffer) if buffer.len() == len => Ok(buffer),
        Ok(_) => Err(Fault::Unmet("a buffer as long as its builder")),
        Err(_) => Err(Fault::Memory),
    }
}

/// Operations with a space between two: `with_capacity:130`, `new_set:130` or `new_unset:130` make a builder, `n:1:5`
/// appends five true values, `w:0x5:64` the 64 bits of a word, `b:3+101` a buffer by its word, `set:4` and `unset:4`
/// change a value, `freeze` makes the buffer, and `9*n:1:5` appends nine times.
impl Word for Option<BuilderCall> {
    fn read(words: &mut Words<'_>, text: &str) -> Option<BuilderCall> {
        let mut call = BuilderCall {
            builder: None,
            frozen: None,
            times: 0,
            form: "",
            first: 0,
            count: 0,
            buffer: empty(),
        };
        for word in text.split(' ') {
            words.made(call.make(words.alloc), ());
            call.read(words, word);
        }
        Some(call)
    }
}
