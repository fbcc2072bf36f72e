//! The calls. Each function has lines of some, and looks for others in the next one.

ghost use Rattle.std.specs.Prelude.{◌≡◌, List, Some, length, true, ℕ};
ghost use Rattle.std.specs.List.{AllAdjacentBelow};
ghost use Rattle.std.specs.List.Sorted.{IsNonDecreasing};
ghost use Rattle.std.specs.Ordering.{nat_cmp, partial_le};
ghost use Rattle.mask_bits.specs.Positions.{count};
ghost use Rattle.mask_bits.specs.Words.{word_bits};

use crate::fault::Fault;
use crate::lines::{Found, calls, there};
use crate::operands::Operands;
use crate::ranked::{Asked, write_asked};
use crate::tell::{Tell, tell_fault};
use crate::text::Text;
use crate::walks;
use crate::written::{write_each_rank, write_each_value, write_mask, write_uncached};
use mask_bits::BitBuffer;
use mask_bits::extract::extract;
use std::alloc::Global;
use vortex_mask::conditions::are_a_stack;
use vortex_mask::intersect_by_rank::{
    DepositBits, ExtractBits, Portable, PortableLoop, RankBits, SelectBit, deposit_bytewise,
    deposit_two_holes, deposit_two_lowest, intersect_bit_buffer_by_rank_indices,
    intersect_bit_buffers, intersect_by_rank_indices, intersect_mask_driven, rank_path,
};
use vortex_mask::{AllOr, Mask, MaskValues};

/// What a mask holds, and its texts.
pub(crate) fn masks(name: &str, o: &mut Operands, text: &mut Text) -> Found {
    calls! { name, o, text, alloc, else mask_parts(name, o, text);
        "mask" (a) => write_mask(text, a),
        "len" (a) => a.len(),
        "is_empty" (a) => a.is_empty(),
        "true_count" (a) => a.true_count(),
        "false_count" (a) => a.false_count(),
        "all_true" (a) => a.all_true(),
        "all_false" (a) => a.all_false(),
        "first" (a) => a.first(),
        "last" (a) => a.last(),
        "density" (a) => a.density(),
        "bit_buffer" (a) => a.bit_buffer(),
        "display" (a) => text.put_display(a),
        "debug" (a) => text.put_debug(a),
        "debug_values" (a) => text.put_debug(&a.values()),
    }
}

// Walks, and calls of one mask and numbers.
fn mask_parts(name: &str, o: &mut Operands, text: &mut Text) -> Found {
    calls! { name, o, text, alloc, else mask_pairs(name, o, text);
        "iter" (a) => walks::write_steps(text, a.iter(), 1),
        "set_indices" (a) => walks::write_walk(text, "indices", a.set_indices()),
        "set_slices" (a) => walks::write_walk(text, "ranges", a.set_slices()),
        "each_value" (a) => write_each_value(text, a),
        "each_rank" (a) => write_each_rank(text, a),
        "value" (a n) [n < a.len(), "an index within the mask"] => a.value(n),
        "rank" (a n) [n < a.true_count(), "a true value of this number"] => a.rank(n),
        "clone" (a) => a.clone(),
        "not" (a) => a.not(alloc),
        "to_bit_buffer" (a) => a.to_bit_buffer(alloc),
        "from_bools" (a) => Mask::from_bools(alloc, a.iter()),
        "to_limited" (a m) => a.to_limited(alloc, m),
        "without_first" (a m) => a.without_first(alloc, m),
        "slice" (a m n) [m <= n && n <= a.len(), "a range within the mask"] => a.slice(alloc, m, n),
        "count_range" (a m n) [m <= n && n <= a.len(), "a range within the mask"] => a.count_range(m, n),
        "groups" (a n) [n > 0, "groups of some rows"] => a.groups(alloc, n),
    }
}

// Of two masks, and of lists of masks.
fn mask_pairs(name: &str, o: &mut Operands, text: &mut Text) -> Found {
    calls! { name, o, text, alloc, else taken_masks(name, o, text);
        "bitand" (a b) [a.len() == b.len(), "equal lengths"] => a.bitand(alloc, b),
        "bitor" (a b) [a.len() == b.len(), "equal lengths"] => a.bitor(alloc, b),
        "to_bitand_not" (a b) [a.len() == b.len(), "equal lengths"] => a.to_bitand_not(alloc, b),
        "choose_values" (a b) [a.len() == b.len(), "equal lengths"] => a.choose_values(alloc, b),
        "equal" (a b) => a == b,
        "equal_swapped" (a b) => b == a,
        "intersect_by_rank" (a b) [b.len() == a.true_count(), "a rank for each row"] => a.intersect_by_rank(alloc, b),
        "intersect_by_rank_counted" (a b) [b.len() == a.true_count(), "a rank for each row"]
            => a.intersect_by_rank_counted(alloc, b),
        "rank_path" (a b) => text.put_debug(&rank_path(there!(a.values()), there!(b.values()))),
        "intersect_all_by_rank" (masks) => stack(alloc, text, masks),
        "concat" (masks) => Mask::concat(alloc, masks.iter()),
        "from_masks" (taken_masks) => Mask::from_masks(alloc, taken_masks.into_iter()),
    }
}

// Of a mask by value, or changed in place, and of a list of numbers.
fn taken_masks(name: &str, o: &mut Operands, text: &mut Text) -> Found {
    calls! { name, o, text, alloc, else mixed(name, o, text);
        "into_not" (taken) => taken.into_not(alloc),
        "into_bit_buffer" (taken) => taken.into_bit_buffer(alloc),
        "limit" (taken n) => taken.limit(alloc, n),
        "into_bitand" (taken b) [taken.len() == b.len(), "equal lengths"] => taken.into_bitand(alloc, b),
        "into_bitor" (taken b) [taken.len() == b.len(), "equal lengths"] => taken.into_bitor(alloc, b),
        "bitand_not" (taken b) [taken.len() == b.len(), "equal lengths"] => taken.bitand_not(alloc, b),
        "clear" (changed) => { changed.clear(); text.put("done") },
        "indices" (changed) => changed.indices(alloc),
        "slices" (changed) => changed.slices(alloc),
        "threshold_iter" (changed m n) [n > 0, "a denominator above 0"] => changed.threshold_iter(alloc, m, n),
        "valid_counts_for_indices" (a list) => valid_counts(alloc, a, list),
        "choose" (a list) [list.len() == a.len(), "a row for each value"] => a.choose(alloc, list),
        "and_rows" (a flags) [flags.len() == a.len(), "a row for each value"]
            => a.and_rows(alloc, flags, |row| *row),
        "from_indices" (m list) => Mask::from_indices(alloc, m, list.iter().copied()),
        "from_unsorted_indices" (m list) => Mask::from_unsorted_indices(alloc, m, list.iter().copied()),
        "from_excluded_indices" (m list) => Mask::from_excluded_indices(alloc, m, list.iter().copied()),
    }
}

// Of the values inside a mixed mask.
fn mixed(name: &str, o: &mut Operands, text: &mut Text) -> Found {
    calls! { name, o, text, alloc, else bits(name, o, text);
        "values.clone" (values) => values.clone(),
        "values.into_bit_buffer" (values) => values.clone().map(MaskValues::into_bit_buffer),
        "values.len" (values) => values.len(),
        "values.is_empty" (values) => values.is_empty(),
        "values.true_count" (values) => values.true_count(),
        "values.density" (values) => values.density(),
        "values.bit_buffer" (values) => values.bit_buffer(),
        "values.debug" (values) => text.put_debug(values),
        "values.value" (values n) [n < values.len(), "an index within the values"] => values.value(n),
        "values.indices" (changed_values) => changed_values.indices(alloc),
        "values.slices" (changed_values) => changed_values.slices(alloc),
        "values.threshold_iter" (changed_values m n) [n > 0, "a denominator above 0"]
            => changed_values.threshold_iter(alloc, m, n),
    }
}

// What a buffer holds, and walks.
fn bits(name: &str, o: &mut Operands, text: &mut Text) -> Found {
    calls! { name, o, text, alloc, else bit_parts(name, o, text);
        "bits.buffer" (x) => walks::write_backed(text, x),
        "bits.len" (x) => x.len(),
        "bits.is_empty" (x) => x.is_empty(),
        "bits.true_count" (x) => x.true_count(),
        "bits.false_count" (x) => x.false_count(),
        "bits.last_set_index" (x) => x.last_set_index(),
        "bits.debug" (x) => text.put_debug(x),
        "bits.iter" (x) => walks::write_steps(text, x.iter(), 2),
        "bits.set_indices" (x) => walks::write_walk(text, "indices", x.set_indices()),
        "bits.set_slices" (x) => walks::write_walk(text, "ranges", x.set_slices()),
        "bits.words" (x) => walks::write_words(text, &x.chunks()),
        "bits.padded" (x) => walks::write_steps(text, x.chunks().iter_padded(), 1),
        "bits.each_value" (x) => walks::write_each(text, x),
    }
}

// Of one buffer and numbers.
fn bit_parts(name: &str, o: &mut Operands, text: &mut Text) -> Found {
    calls! { name, o, text, alloc, else ranked(name, o, text);
        "bits.clone" (x) => walks::write_made(text, x.clone()),
        "bits.not" (x) => x.not(alloc),
        "bits.indices" (x) => x.indices(alloc, x.true_count()),
        "bits.runs" (x) => x.runs(alloc),
        "bits.slice" (x m n) [m <= n && n <= x.len(), "a range within the buffer"]
            => walks::write_made(text, x.slice(m, n)),
        "bits.value" (x m) [m < x.len(), "an index within the buffer"] => x.value(m),
        "bits.select" (x m) => x.select(m),
        // each number below this one
        "bits.select_each" (x m) => walks::write_selected(text, x, m),
        "bits.rank_bits" (x m)
            [x.offset() < 8 && m <= 10_000_000, "an offset within a byte, and a position that fits"]
            => RankBits::new(x).read(m),
        "bits.count_range" (x m n) [m <= n && n <= x.len(), "a range within the buffer"] => x.count_range(m, n),
        "bits.first_from" (x m n) [m <= x.len(), "an index within the buffer"] => x.first_from(m, n == 1),
    }
}

// Of one buffer's true values, counted once.
fn ranked(name: &str, o: &mut Operands, text: &mut Text) -> Found {
    calls! { name, o, text, alloc, else bit_pairs(name, o, text);
        "ranks.held" (x) => write_asked(text, alloc, x, Asked::Held),
        "ranks.select" (x m) => write_asked(text, alloc, x, Asked::Select(m)),
        // each number below this one
        "ranks.select_each" (x m) => write_asked(text, alloc, x, Asked::SelectEach(m)),
        "ranks.count_below_each" (x) => write_asked(text, alloc, x, Asked::CountBelowEach),
    }
}

// Of two buffers, and of one by value.
fn bit_pairs(name: &str, o: &mut Operands, text: &mut Text) -> Found {
    calls! { name, o, text, alloc, else nullable(name, o, text);
        "bits.and_rows" (x flags) [flags.len() == x.len(), "a row for each value"]
            => x.and_rows(alloc, flags, |row| *row),
        "bits.bitand" (x y) [x.len() == y.len(), "equal lengths"] => x.bitand(alloc, y),
        "bits.bitor" (x y) [x.len() == y.len(), "equal lengths"] => x.bitor(alloc, y),
        "bits.bitand_not" (x y) [x.len() == y.len(), "equal lengths"] => x.bitand_not(alloc, y),
        "bits.choose_values" (x y) [x.len() == y.len(), "equal lengths"] => x.choose_values(alloc, y),
        "bits.equal" (x y) => x == y,
        "bits.into_not" (taken_x) => taken_x.into_not(alloc),
        "bits.into_bitand" (taken_x y) [taken_x.len() == y.len(), "equal lengths"] => taken_x.into_bitand(alloc, y),
        "bits.into_bitor" (taken_x y) [taken_x.len() == y.len(), "equal lengths"] => taken_x.into_bitor(alloc, y),
        "bits.into_bitand_not" (taken_x y) [taken_x.len() == y.len(), "equal lengths"]
            => taken_x.into_bitand_not(alloc, y),
    }
}

// Of truth values with nulls.
fn nullable(name: &str, o: &mut Operands, text: &mut Text) -> Found {
    calls! { name, o, text, alloc, else made(name, o, text);
        "nullable.len" (v) => v.len(),
        "nullable.null_count" (v) => v.null_count(),
        "nullable.not" (v) => v.not(alloc),
        "nullable.is_true" (v) => v.is_true(alloc),
        "nullable.is_not_false" (v) => v.is_not_false(alloc),
        "nullable.is_null" (v) => v.is_null(alloc),
        "nullable.and_kleene" (v w) [v.len() == w.len(), "equal lengths"] => v.and_kleene(alloc, w),
        "nullable.or_kleene" (v w) [v.len() == w.len(), "equal lengths"] => v.or_kleene(alloc, w),
        "from_nullable" (v) => Mask::from_nullable(alloc, v),
    }
}

// Of lengths, and of operands that no other call has.
fn made(name: &str, o: &mut Operands, text: &mut Text) -> Found {
    calls! { name, o, text, alloc, else made_of_taken(name, o, text);
        "new" (m n) => Mask::new(m, n == 1),
        "new_true" (m) => Mask::new_true(m),
        "new_false" (m) => Mask::new_false(m),
        "default" (m) [m == 0, "no length"] => Mask::default(),
        "bits.new_set" (m) => BitBuffer::new_set(alloc, m),
        "bits.new_unset" (m) => BitBuffer::new_unset(alloc, m),
        "cloned" (m) => AllOr::Some(&m).cloned(),
        "from_rows" (flags) => Mask::from_rows(alloc, flags, |row| *row),
        "bits.from_bools" (flags) => BitBuffer::from_bools(alloc, flags.iter().copied()),
        "bits.from_rows" (flags) => BitBuffer::from_rows(alloc, flags, |row| *row),
        "bits.from_indices" (m list) [list.iter().all(|i| *i < m), "indices below the length"]
            => BitBuffer::from_indices(alloc, m, list),
        "equals_buffer" (a x) => a.equals_buffer(x),
        "at_least" (p q) [p.den > 0 && q.den > 0, "denominators above 0"] => p.at_least(q),
        "equal_fractions" (p q) => p == q,
    }
}

// Of lists that two buffers have, or of one index, and of operands by value.
fn made_of_taken(name: &str, o: &mut Operands, text: &mut Text) -> Found {
    calls! { name, o, text, alloc, else words(name, o, text);
        "from_intersection_indices" (m x y)
            => Mask::from_intersection_indices(alloc, m, x.set_indices(), y.set_indices()),
        "from_common_index" (m n) => Mask::from_intersection_indices(alloc, m, [n].into_iter(), [n].into_iter()),
        "from_buffer" (taken_x) => Mask::from_buffer(alloc, taken_x),
        "from_slices" (m taken_ranges) => Mask::from_slices(alloc, m, taken_ranges),
        "from_buffer_with_slices" (taken_ranged) => taken_ranged.mask(alloc),
        "bits.from_vec" (taken_bytes m)
            [m <= 8 * taken_bytes.len().min(1_000_000), "a bit for each value"]
            => BitBuffer::from_vec(taken_bytes, m),
        "builder" (builder) => builder.make(alloc),
    }
}

// Deposits, extracts and selections of a word.
fn words(name: &str, o: &mut Operands, text: &mut Text) -> Found {
    calls! { name, o, text, alloc, else kernels(name, o, text);
        "deposit" (source word) => Portable::deposit_bits(source, word, ones(word)),
        "deposit_by_loop" (source word) => PortableLoop::deposit_bits(source, word, ones(word)),
        "deposit_bytewise" (source word) => deposit_bytewise(source, word),
        "deposit_two_lowest" (source word) [ones(word) <= 2, "at most two set bits"]
            => deposit_two_lowest(source, word),
        "deposit_two_holes" (source word) [ones(word) >= 62, "at most two clear bits"]
            => deposit_two_holes(source, word),
        "extract" (source word) => Portable::extract_bits(source, word, ones(word)),
        "extract_by_bits" (source word) => extract(source, word),
        "select" (source n) [n < ones(source), "a set bit of this number"]
            => Portable::select_bit_position(source, n),
    }
}

// The kernels of rank intersection. Those of words stand with each of both deposits.
fn kernels(name: &str, o: &mut Operands, text: &mut Text) -> Found {
    calls! { name, o, text, alloc, else None;
        "kernel.intersect_bit_buffers" (rows ranks) [ranks.fits(rows), "a rank for each row"]
            => intersect_bit_buffers::<Portable>(alloc, &rows.buffer, &ranks.buffer, ranks.buffer.true_count()),
        "kernel.intersect_bit_buffers_by_loop" (rows ranks) [ranks.fits(rows), "a rank for each row"]
            => intersect_bit_buffers::<PortableLoop>(alloc, &rows.buffer, &ranks.buffer, ranks.buffer.true_count()),
        "kernel.intersect_bit_buffer_by_rank_indices" (rows ranks) [ranks.fits(rows), "a rank for each row"]
            => intersect_bit_buffer_by_rank_indices::<Portable>(alloc, &rows.buffer, &ranks.indices),
        "kernel.intersect_bit_buffer_by_rank_indices_by_loop" (rows ranks) [ranks.fits(rows), "a rank for each row"]
            => intersect_bit_buffer_by_rank_indices::<PortableLoop>(alloc, &rows.buffer, &ranks.indices),
        "kernel.intersect_by_rank_indices" (rows ranks) [ranks.buffer.len() == rows.indices.len(), "a rank for each"]
            => intersect_by_rank_indices(alloc, rows.buffer.len(), &rows.indices, &ranks.indices),
        "kernel.intersect_mask_driven" (rows ranks) [ranks.fits(rows), "a rank for each row"]
            => intersect_mask_driven::<Portable, _>(
                alloc, &rows.buffer, ranks.buffer.set_indices(), ranks.buffer.true_count(),
            ),
    }
}

// How many bits of a word are set.
#[tactic(auto, using(mask_bits::proofs::Lists::Words::WordLemmas::ones_of_word))]
fn ones(word: u64) -> usize
    ensures { result ≡ count (word_bits word) }
{
    word.count_ones() as usize
}

// Numbers that `is_sorted` finds sorted are in order over the whole list.
fn sorted_numbers()
    ensures { (xs : List ℕ) → AllAdjacentBelow (λ x y. partial_le (λ a b. Some (nat_cmp a b)) x y ≡ true) xs (length xs)
        → IsNonDecreasing xs }
{}

fn valid_counts(alloc: Global, a: &Mask, indices: &[usize]) -> Result<Vec<usize>, Fault> {
    sorted_numbers();
    if !indices.is_sorted() || !indices.iter().all(|i| *i <= a.len()) {
        return Err(Fault::Unmet("indices in order, within the mask"));
    }
    Ok(a.valid_counts_for_indices(alloc, indices)?)
}

// A stack of one mask is a clone of it, with its lists.
fn stack(alloc: Global, text: &mut Text, masks: &[Mask]) {
    match masks {
        [first, rest @ ..] if are_a_stack(first, rest) => {
            match first.intersect_all_by_rank(alloc, rest) {
                Ok(mask) if !rest.is_empty() => write_uncached(text, &mask),
                answer => answer.tell(text),
            }
        }
        _ => tell_fault(text, Fault::Unmet("a mask, and a rank for each row")),
    }
}
