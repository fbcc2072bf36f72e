//! Indices by rank and ranks by index, by counts that are made once.

use crate::fault::Fault;
use crate::tell::{Tell, tell_fault};
use crate::text::Text;
use crate::walks::write_backed;
use mask_bits::{BitBuffer, Ranks};
use std::alloc::{AllocError, Global};

/// What a row asks of the counts.
#[derive(Clone, Copy)]
pub(crate) enum Asked {
    Held,
    Select(usize),
    SelectEach(usize),
    CountBelowEach,
}

/// Writes what the counts of a buffer answer.
pub(crate) fn write_asked(text: &mut Text, alloc: Global, buffer: &BitBuffer, asked: Asked) {
    match counted(alloc, buffer) {
        Ok(ranks) => match asked {
            Asked::Held => write_held(text, &ranks),
            Asked::Select(n) => ranks.select(n).tell(text),
            Asked::SelectEach(numbers) => write_selected(text, &ranks, numbers),
            Asked::CountBelowEach => write_counts(text, &ranks),
        },
        Err(error) => tell_fault(text, Fault::from(error)),
    }
}

fn counted(alloc: Global, buffer: &BitBuffer) -> Result<Ranks, AllocError> {
    Ranks::from_buffer(alloc, buffer.clone()?)
}

// The buffer, its length and how many values are true.
fn write_held(text: &mut Text, ranks: &Ranks) {
    write_backed(text, ranks.buffer());
    text.put_next(" of ", ranks.len());
    text.put_next(" with ", ranks.true_count());
    text.put(if ranks.is_empty() { " empty" } else { "" });
}

// The index of each true value of these numbers, from 0 on.
fn write_selected(text: &mut Text, ranks: &Ranks, numbers: usize) {
    for n in 0..numbers {
        ranks.select(n).tell(text);
        text.put(" ");
    }
    text.put("by number");
}

// How many values are true below each index, and below the end.
fn write_counts(text: &mut Text, ranks: &Ranks) {
    text.put("below");
    for n in 0..ranks.len() {
        text.put_next(" ", ranks.count_below(n));
    }
    text.put_next(" ", ranks.count_below(ranks.len()));
}
