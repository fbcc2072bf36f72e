//! The words of a row, and what they say: numbers, lists of them, ranges, and truth values.

use crate::fault::{Fault, UNKNOWN};
use std::alloc::{AllocError, Global};
use vortex_mask::Fraction;

/// What a word can say. Where it can't be read, its fault is noted, and it says something empty or 0.
pub(crate) trait Word: Drop {
    fn read(words: &mut Words<'_>, word: &str) -> Self;
}

/// A number: its digits, `0x` and hexadecimal ones, `max`, or `max-1`.
impl Word for usize {
    fn read(words: &mut Words<'_>, word: &str) -> usize {
        words.made(number(word), 0)
    }
}

impl Word for u8 {
    fn read(words: &mut Words<'_>, word: &str) -> u8 {
        words.made(parsed(word.parse::<u8>()), 0)
    }
}

/// A range such as `5..7`.
impl Word for (usize, usize) {
    fn read(words: &mut Words<'_>, word: &str) -> (usize, usize) {
        words.pair(word, "..", "a range")
    }
}

/// A fraction such as `3/5`.
impl Word for Fraction {
    fn read(words: &mut Words<'_>, word: &str) -> Fraction {
        let (num, den) = words.pair(word, "/", "a fraction");
        Fraction { num, den }
    }
}

/// What a word is as a number, if it is one.
pub(crate) fn number(word: &str) -> Result<usize, Fault> {
    match word {
        "max" => Ok(usize::MAX),
        "max-1" => Ok(usize::MAX - 1),
        _ => match word.strip_prefix("0x") {
            Some(digits) => parsed(usize::from_str_radix(digits, 16)),
            None => parsed(word.parse::<usize>()),
        },
    }
}

fn parsed<T, E: Drop>(parsed: Result<T, E>) -> Result<T, Fault> {
    parsed.map_err(|_| Fault::Malformed("a number"))
}

/// Truth values by a word: `10110`, `-`, `every:3:20000` (the first of each 3), `first:6:130` (the first 6 of
/// 130), `at:200:5,150` (those at 5 and 150 of 200).
impl Word for Vec<bool> {
    fn read(words: &mut Words<'_>, word: &str) -> Vec<bool> {
        match word.split_once(":") {
            Some(("at", rest)) => true_at_indices(
                words,
                rest.split_once(":").unwrap_or((rest, "-")),
            ),
            Some((form, rest)) => {
                let numbers = words.pair(rest, ":", "truth values");
                repeating(words, form, numbers)
            }
            None => {
                let digits = words.digits(word).as_bytes().iter();
                words.collected(digits.map(|digit| *digit == b'1').collect(words.alloc))
            }
        }
    }
}

fn true_at_indices(words: &mut Words<'_>, (len, list): (&str, &str)) -> Vec<bool> {
    let (len, indices) = (usize::read(words, len), words.list::<usize>(list));
    words.collected((0..len).map(|i| indices.contains(&i)).collect(words.alloc))
}

// Of each period so many are true.
fn repeating(words: &mut Words<'_>, form: &str, (count, len): (usize, usize)) -> Vec<bool> {
    let (period, trues) = match form {
        "every" => (count, 1),
        "first" => (usize::MAX, count),
        _ => words.unread("truth values", (1, 0)),
    };
    let is_true = |i: usize| i.checked_rem(period).unwrap_or(trues) < trues;
    words.collected((0..len).map(is_true).collect(words.alloc))
}

/// The words behind the name of a call, read one after another, and the first fault in them, which `end` answers, so
/// that no word is asked about alone.
#[derive(Drop)]
pub(crate) struct Words<'a> {
    pub alloc: Global,
    /// Whether a clone is held of each mask and buffer.
    pub are_shared: bool,
    rest: &'a str,
    fault: Option<Fault>,
}

impl<'a> Words<'a> {
    pub fn new(alloc: Global, text: &'a str, are_shared: bool) -> Words<'a> {
        Words {
            alloc,
            are_shared,
            rest: text,
            fault: None,
        }
    }

    /// What the words make, if each could be read and none is left.
    pub fn end<T: Drop>(self, made: T) -> Result<T, Fault> {
        match self.fault {
            Some(fault) => Err(fault),
            None if self.rest.is_empty() => Ok(made),
            None => Err(UNKNOWN),
        }
    }

    /// Notes a fault, unless there is one already.
    pub fn note(&mut self, fault: Fault) {
        if self.fault.is_none() {
            self.fault = Some(fault);
        }
    }

    /// What stands for a word of another form than this.
    pub fn unread<T: Drop>(&mut self, form: &'static str, other: T) -> T {
        self.note(Fault::Malformed(form));
        other
    }

    /// What was made, if it was: else the fault is noted.
    pub fn some<T: Drop, E: Into<Fault>>(&mut self, made: Result<T, E>) -> Option<T> {
        match made {
            Ok(it) => Some(it),
            Err(error) => {
                self.note(error.into());
                None
            }
        }
    }

    /// What was made, or else another one.
    pub fn made<T: Drop, E: Into<Fault>>(&mut self, made: Result<T, E>, other: T) -> T {
        self.some(made).unwrap_or(other)
    }

    pub fn collected<T: Drop>(&mut self, made: Result<Vec<T>, AllocError>) -> Vec<T> {
        self.made(made, Vec::new(self.alloc))
    }

    pub fn add<T: Drop>(&mut self, list: &mut Vec<T>, item: T) {
        if list.push(item).is_err() {
            self.note(Fault::Memory);
        }
    }

    /// Numbers, ranges or bytes with a comma between two, as `0,2,3`, or `-`.
    pub fn list<T: Word>(&mut self, word: &str) -> Vec<T> {
        self.parts(word, ',', "-")
    }

    /// What the parts of a text say, with this mark between two: none in one text.
    pub fn parts<T: Word>(&mut self, text: &str, mark: char, none: &str) -> Vec<T> {
        let mut items: Vec<T> = Vec::new(self.alloc);
        for part in text.split(mark).filter(|_| text != none) {
            let item = T::read(self, part);
            self.add(&mut items, item);
        }
        items
    }

    /// The parts before and behind the first mark.
    pub fn halves<'w>(
        &mut self,
        text: &'w str,
        mark: &str,
        what: &'static str,
    ) -> (&'w str, &'w str) {
        match text.split_once(mark) {
            Some(halves) => halves,
            None => {
                self.note(Fault::Malformed(what));
                ("", "")
            }
        }
    }

    /// Two numbers with this mark between.
    pub fn pair(&mut self, word: &str, mark: &str, what: &'static str) -> (usize, usize) {
        let (first, second) = self.halves(word, mark, what);
        (usize::read(self, first), usize::read(self, second))
    }

    /// The digits 0 and 1 that a word is of, or none of `-`.
    pub fn digits<'w>(&mut self, word: &'w str) -> &'w str {
        let digits = if word == "-" { "" } else { word };
        match digits.find(|digit| !matches!(digit, '0' | '1')) {
            Some(_) => self.unread("digits 0 and 1", ""),
            None => digits,
        }
    }

    /// Puts what the next word says into its place.
    pub fn read<T: Word>(&mut self, place: &mut T) {
        let word = self.next();
        *place = T::read(self, word);
    }

    pub fn read_list<T: Word>(&mut self, place: &mut Vec<T>) {
        let word = self.next();
        *place = self.list(word);
    }

    pub fn read_all<T: Word>(&mut self, place: &mut T) {
        let words = self.all();
        *place = T::read(self, words);
    }

    pub fn all(&mut self) -> &'a str {
        let all = self.rest;
        self.rest = "";
        all
    }

    pub fn next(&mut self) -> &'a str {
        if self.rest.is_empty() {
            return self.unread("a word", "");
        }
        match self.rest.split_once(" ") {
            Some((word, rest)) => {
                self.rest = rest;
                word
            }
            None => self.all(),
        }
    }
}
