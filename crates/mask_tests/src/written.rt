//! How a row says what a mask holds.

use crate::tell::{Tell, tell_each};
use crate::text::{Detail, Text};
use crate::walks::write_bits;
use vortex_mask::intersect_by_rank::Steps;
use vortex_mask::{Mask, MaskValues};

const MOST_VALUES: usize = 80;

const MOST_INDICES: usize = 100;

/// Writes the list of a mask, its variant, and what is cached.
///
/// A list of more than 80 values is its length with the indices of those that are true, as `130:63,64`, where they
/// are mixed and at most a hundred are true, and otherwise how many are true: `3334 of 20000`.
pub(crate) fn write_mask(text: &mut Text, mask: &Mask) {
    write_uncached(text, mask);
    if let Some(values) = mask.values() {
        write_lists(text, values);
    }
}

/// Writes the list of a mask, and its variant.
pub(crate) fn write_uncached(text: &mut Text, mask: &Mask) {
    let is_short = matches!(text.detail, Detail::Short);
    match mask.values() {
        Some(values) if !is_short => write_bits(text, values.bit_buffer()),
        _ if is_short && mask.len() <= MOST_VALUES => write_each_value(text, mask),
        Some(_) if mask.true_count() <= MOST_INDICES => write_true(text, mask),
        _ => text.put_pair(mask.true_count(), " of ", mask.len()),
    }
    text.put(match mask {
        Mask::AllTrue(_) => " AllTrue",
        Mask::AllFalse(_) => " AllFalse",
        Mask::Values(_) => " Values",
    });
}

/// Writes the values of a mask one by one, or `-`.
pub(crate) fn write_each_value(text: &mut Text, mask: &Mask) {
    if mask.is_empty() {
        text.put("-");
    }
    for i in 0..mask.len() {
        text.put_digit(mask.value(i));
    }
}

fn write_true(text: &mut Text, mask: &Mask) {
    text.put_display(&mask.len());
    tell_each(text, ":", ",", mask.set_indices());
}

/// Writes the index of each true value, by its number.
pub(crate) fn write_each_rank(text: &mut Text, mask: &Mask) {
    text.put("ranks");
    for n in 0..mask.true_count() {
        text.put_next(" ", mask.rank(n));
    }
}

fn write_lists(text: &mut Text, values: &MaskValues) {
    if matches!(text.detail, Detail::Lists) {
        return;
    }
    if let Some(indices) = values.cached_indices() {
        text.put(" indices ");
        indices.tell(text);
    }
    if let Some(ranges) = values.cached_slices() {
        text.put(" ranges ");
        ranges.tell(text);
    }
}

/// Writes the list, and what is cached.
pub(crate) fn write_mixed(text: &mut Text, values: &MaskValues) {
    values.bit_buffer().tell(text);
    write_lists(text, values);
}

impl Tell for Mask {
    fn tell(self, text: &mut Text) {
        write_mask(text, &self);
    }
}

impl Tell for MaskValues {
    fn tell(self, text: &mut Text) {
        write_mixed(text, &self);
    }
}

impl Tell for (Mask, Steps) {
    fn tell(self, text: &mut Text) {
        write_mask(text, &self.0);
        write_counts(text, &self.1);
    }
}

// Deposits, words and selections; offered, placed and spots.
fn write_counts(text: &mut Text, steps: &Steps) {
    let whole = [steps.deposits(), steps.words(), steps.selections()];
    tell_each(text, " steps ", ",", whole.iter().copied());
    text.put_next(" ", steps.offered());
    text.put_next(",", steps.placed());
    text.put_next(",", steps.spots());
}
