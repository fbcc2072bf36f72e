// Each caller once, by an example whose answer is known. What no clause of the library says, and no row of text makes,
// comes last.
use crate::nulls::{self, Row};
use crate::own_deposit::{InTurn, rank_intersection_by};
use crate::{column_filter, lent_lists, planner, renumbering, row_groups, validity};
use bytes::Bytes;
use mask_bits::{BitBuffer, Ranks};
use std::alloc::AllocError;
use std::fmt::Display;
use std::process::Abort;
use vortex_mask::conditions::are_a_stack;
use vortex_mask::intersect_by_rank::{Portable, RankPath, Steps};
use vortex_mask::{AllOr, Mask, MaskError};

// What a test is given.
trait Host: Abort + AllocGlobal {}

impl<R: Abort + AllocGlobal> Host for R {}

// The answer of a call for which memory is found.
fn found<T, E: Drop>(rt: &impl Host, answer: Result<T, E>) -> T {
    match answer {
        Ok(it) => it,
        Err(_) => panic!(rt; "refused"),
    }
}

fn has<T: PartialEq + Drop, E: Drop>(rt: &impl Host, answer: Result<Vec<T>, E>, want: &[T]) {
    let got = found(rt, answer);
    assert!(rt; got.as_slice() == want);
}

fn reads<T: Display>(rt: &impl Host, it: &T, want: &str) {
    let text = found(rt, format!(in rt.alloc(); "{it}"));
    assert!(rt; text.as_str() == want, "{text} for {want}");
}

fn lists(rt: &impl Host, answer: Result<Mask, MaskError>, want: &str) {
    reads(rt, &found(rt, answer), want);
}

// A bitmap of a text of `0` and `1`, and a mask of it.
fn bits(rt: &impl Host, text: &str) -> BitBuffer {
    let made = BitBuffer::from_rows(rt.alloc(), text.as_bytes(), |digit| *digit == b'1');
    found(rt, made)
}

fn mask(rt: &impl Host, text: &str) -> Mask {
    found(rt, Mask::from_buffer(rt.alloc(), bits(rt, text)))
}

fn masks(rt: &impl Host, texts: &[&str]) -> Vec<Mask> {
    let mut masks = Vec::new(rt.alloc());
    for text in texts {
        found(rt, masks.push(mask(rt, text)));
    }
    masks
}

// ---- a column filter

const COLUMN: [u64; 5] = [3, 1, 4, 1, 5];

fn chooses(rt: &impl Host, filter: &mut Mask, validity: &Mask, rows: &[u64], left: &str) {
    assert!(rt; filter.len() == 5 && validity.len() == 5);
    let both = column_filter::filtered_with_validity(rt.alloc(), &COLUMN, validity, filter);
    let (kept, valid) = found(rt, both);
    assert!(rt; kept.as_slice() == rows);
    reads(rt, &valid, left);
    has(rt, lent_lists::filtered(rt.alloc(), &COLUMN, filter), rows);
}

#[test]
fn rows_of_a_filter(rt: HostRuntime) {
    let validity = mask(&rt, "11010");
    chooses(&rt, &mut mask(&rt, "11111"), &validity, &COLUMN, "11010");
    chooses(&rt, &mut mask(&rt, "00000"), &validity, &[], "-");
    chooses(&rt, &mut mask(&rt, "10110"), &validity, &[3, 4, 1], "101");
    chooses(&rt, &mut mask(&rt, "01001"), &validity, &[1, 5], "10");
}

fn chooses_of_parts(rt: &impl Host, filter: &Mask, chunks: &[Mask]) {
    assert!(rt; filter.len() == 5);
    let of_page = column_filter::of_page(rt.alloc(), &COLUMN, filter, 1, 4);
    has(rt, of_page, &[4, 1]);
    let rows = found(rt, column_filter::of_chunks(rt.alloc(), &COLUMN, chunks));
    assert!(rt; rows.as_deref() == Some(&[3, 4, 1]));
}

fn narrows(rt: &impl Host, first: &Mask, second: &Mask) {
    assert!(rt; first.len() == second.len());
    let both = planner::narrowed_by_all_rows(rt.alloc(), first, second);
    lists(rt, both, "10010");
}

#[test]
fn rows_of_tests_and_parts(rt: HostRuntime) {
    let above_two = column_filter::filtered(rt.alloc(), &COLUMN, 2);
    has(&rt, above_two, &[3, 4, 5]);
    let below_four = column_filter::passing(rt.alloc(), &COLUMN, |row| *row < 4);
    has(&rt, below_four, &[3, 1, 1]);
    has(&rt, planner::between(rt.alloc(), &COLUMN, 2, 5), &[3, 4]);
    chooses_of_parts(&rt, &mask(&rt, "10110"), &masks(&rt, &["10", "110"]));
    narrows(&rt, &mask(&rt, "10110"), &mask(&rt, "11010"));
}

// ---- filters on the rows that another one chose

const EIGHT: [u8; 8] = [10, 11, 12, 13, 14, 15, 16, 17];

fn chooses_twice(rt: &impl Host, first: &Mask, second: &Mask) {
    assert!(rt; first.len() == 8 && second.len() == first.true_count());
    let at_once = planner::filtered(rt.alloc(), &EIGHT, first, second);
    has(rt, at_once, &[14, 17]);
    let kept = found(rt, first.choose(rt.alloc(), &EIGHT));
    assert!(rt; kept.len() == second.len());
    has(rt, second.choose(rt.alloc(), &kept), &[14, 17]);
    has(rt, Ok::<_, ()>(kept), &[10, 13, 14, 15, 17]);
}

fn plans(rt: &impl Host, first: &Mask, second: &Mask) {
    assert!(rt; first.len() == 8 && second.len() == first.true_count());
    let limited = planner::first_of_both(rt.alloc(), first, second, 1);
    lists(rt, limited, "00001000");
    assert!(rt; planner::is_left(first, second, 7) && !planner::is_left(first, second, 5));
    let (mask, deposits, words) = found(rt, planner::explained(rt.alloc(), first, second));
    reads(rt, &mask, "00001001");
    assert!(rt; (deposits, words, planner::left_by_both(first, second)) == (1, 1, 2));
}

#[test]
fn two_filters(rt: HostRuntime) {
    let (first, second) = (mask(&rt, "10011101"), mask(&rt, "00101"));
    chooses_twice(&rt, &first, &second);
    plans(&rt, &first, &second);
}

// The fold by one call, and by one after another.
fn folds(rt: &impl Host, stack: &[Mask], want: &str) {
    let [first, rest @ ..] = stack else {
        panic!(rt; "no mask")
    };
    assert!(rt; are_a_stack(first, rest));
    lists(rt, first.intersect_all_by_rank(rt.alloc(), rest), want);
    lists(rt, planner::stopped_early(rt.alloc(), first, rest), want);
}

#[test]
fn stacks_fold_alike(rt: HostRuntime) {
    folds(&rt, &masks(&rt, &["10011101", "00101", "10"]), "00001000");
    folds(&rt, &masks(&rt, &["101", "10", "1", "1", "0"]), "000");
    folds(&rt, &masks(&rt, &["101", "10", "0", ""]), "000");
    folds(&rt, &masks(&rt, &["101"]), "101");
}

fn chooses_by_all(rt: &impl Host, first: &Mask, rest: &[Mask]) {
    assert!(rt; first.len() == 8 && are_a_stack(first, rest));
    let rows = planner::filtered_by_all(rt.alloc(), &EIGHT, first, rest);
    has(rt, rows, &[14]);
    let missing = [Mask::new_true(4)];
    assert!(rt; !are_a_stack(first, &missing));
}

#[test]
fn rows_of_a_stack(rt: HostRuntime) {
    chooses_by_all(&rt, &mask(&rt, "10011101"), &masks(&rt, &["00101", "10"]));
}

// ---- nulls

fn keeps_row(rt: &impl Host, a: Option<u64>, b: Option<u64>, is_kept: bool) {
    let kept = found(rt, nulls::kept(rt.alloc(), &[Row { a, b }], 5));
    assert!(rt; kept.len() == is_kept as usize);
}

#[test]
fn rows_of_a_condition_with_nulls(rt: HostRuntime) {
    keeps_row(&rt, Some(5), Some(1), true);
    keeps_row(&rt, Some(6), Some(1), false);
    keeps_row(&rt, Some(5), None, false);
    keeps_row(&rt, Some(6), None, false);
    keeps_row(&rt, None, Some(1), false);
    keeps_row(&rt, None, None, false);
}

// ---- validity

fn counts(rt: &impl Host, validity: &Mask, rows: &[usize], want: Option<&[usize]>) {
    let counts = validity::counts_before(rt.alloc(), validity, rows);
    assert!(rt; found(rt, counts).as_deref() == want);
}

#[test]
fn stored_values(rt: HostRuntime) {
    let validity = mask(&rt, "011001");
    counts(&rt, &validity, &[0, 2, 6], Some(&[0, 1, 3]));
    counts(&rt, &validity, &[2, 1], None);
    counts(&rt, &validity, &[7], None);
}

// The column's bitmap begins at bit 3.
#[test]
fn two_columns(rt: HostRuntime) {
    let written = found(&rt, [0b0001_0110u8].as_slice().to_vec(rt.alloc()));
    assert!(&rt; written.len() == 1);
    let column = Bytes::from_static(&[0b1011_0111]);
    let both = validity::valid_in_both(rt.alloc(), written, column, 3, 5);
    let rows = validity::valid_rows(rt.alloc(), &found(&rt, both));
    has(&rt, rows, &[1, 2, 4]);
}

// ---- row groups

fn keeps(rt: &impl Host, rows: &str, want: &[bool]) {
    let kept = row_groups::kept(rt.alloc(), &mut mask(rt, rows), 3);
    has(rt, kept, want);
}

#[test]
fn groups_of_three(rt: HostRuntime) {
    keeps(&rt, "", &[]);
    keeps(&rt, "010000001", &[true, false, true]);
    keeps(&rt, "11100", &[true, false]);
    keeps(&rt, "1111", &[true, true]);
    keeps(&rt, "0000", &[false, false]);
}

// Ranges that touch, and rows one by one.
fn ranges(rt: &impl Host, rows: &[usize], are_same: bool) {
    let touching = [(1, 3), (3, 4), (4, 5), (7, 8)];
    let index = found(rt, touching.as_slice().to_vec(rt.alloc()));
    let runs: &[(usize, usize)] = &[(1, 5), (7, 8)];
    match found(rt, row_groups::ranges_both_ways(rt.alloc(), 8, index, rows)) {
        Some((by_ranges, by_rows)) => {
            assert!(rt; are_same && by_ranges.as_slice() == runs && by_rows.as_slice() == runs);
        }
        None => assert!(rt; !are_same),
    }
}

#[test]
fn ranges_in_one_form(rt: HostRuntime) {
    ranges(&rt, &[1, 2, 3, 4, 7], true);
    ranges(&rt, &[1, 2, 3, 4], false);
}

// ---- a deposit of one's own

fn deposits_in_turn(rt: &impl Host, rows: &BitBuffer, kept: &BitBuffer) {
    assert!(rt; kept.len() == rows.true_count());
    let narrowed = rank_intersection_by::<InTurn>(rt.alloc(), rows, kept);
    lists(rt, narrowed, "00001001");
}

#[test]
fn own_deposit(rt: HostRuntime) {
    deposits_in_turn(&rt, &bits(&rt, "10011101"), &bits(&rt, "00101"));
}

// ---- the library

fn answers(rt: &impl Host, it: AllOr<usize>, text: &str, answer: usize) {
    let debug = found(rt, format!(in rt.alloc(); "{it:?}"));
    assert!(rt; debug.as_str() == text, "{debug} for {text}");
    assert!(rt; it.unwrap_or_else(|| 42, || 0) == answer);
}

fn clones(rt: &impl Host, lent: AllOr<&usize>, want: &AllOr<usize>) {
    let clone = found(rt, lent.cloned());
    assert!(rt; clone == *want);
}

#[test]
fn all_or(rt: HostRuntime) {
    answers(&rt, AllOr::All, "All", 42);
    answers(&rt, AllOr::None, "None", 0);
    answers(&rt, AllOr::Some(10), "Some(10)", 10);
    clones(&rt, AllOr::All, &AllOr::All);
    clones(&rt, AllOr::None, &AllOr::None);
    clones(&rt, AllOr::Some(&10), &AllOr::Some(10));
    assert!(&rt; AllOr::Some(1usize) != AllOr::Some(2) && AllOr::<usize>::All != AllOr::None);
    assert!(&rt; RankPath::Indices == RankPath::Indices);
    assert!(&rt; RankPath::Indices != RankPath::BitBuffers);
}

#[test]
fn texts_of_faults(rt: HostRuntime) {
    const FAULTS: [MaskError; 8] = [
        MaskError::Memory(AllocError),
        MaskError::UnsortedIndices { at: 1 },
        MaskError::RepeatedIndex { at: 2 },
        MaskError::IndexOutOfBounds { index: 5, len: 3 },
        MaskError::BadRange { at: 4 },
        MaskError::UnsortedRanges { at: 6 },
        MaskError::OverlappingRanges { at: 7 },
        MaskError::LengthOverflow,
    ];
    const TEXTS: [&str; 8] = [
        "out of memory",
        "index at place 1 is below the one before it",
        "index at place 2 repeats the one before it",
        "index 5 is not below the length 3",
        "range at place 4 is empty or passes the length",
        "range at place 6 does not start after the one before it",
        "range at place 7 overlaps the one before it",
        "the sum of the lengths does not fit",
    ];
    for (fault, text) in FAULTS.iter().zip(TEXTS.iter()) {
        reads(&rt, fault, text);
    }
    assert!(&rt; MaskError::BadRange { at: 1 } != MaskError::BadRange { at: 2 });
}

#[tactic(auto, using(mask_bits::proofs::Lists::Words::WordLemmas::ones_of_word))]
fn ticks(rt: &impl Host, buffer: &BitBuffer, mask: u64) {
    let ones = mask.count_ones() as usize;
    assert!(rt; buffer.len() == 130 && 2 < ones);
    let (mut steps, chunks) = (Steps::new(), buffer.chunks());
    assert!(rt; (steps.word(&chunks, 1), steps.word(&chunks, 2)) == (u64::MAX, 3));
    assert!(rt; steps.deposit::<Portable>(0b101, mask, ones) == 0b10010);
    assert!(rt; steps.select::<Portable>(mask, 2) == 4);
    assert!(rt; (steps.deposits(), steps.words(), steps.selections()) == (1, 2, 1));
    assert!(rt; (steps.offered(), steps.placed(), steps.spots()) == (3, 2, 4));
}

#[test]
fn steps_are_counted(rt: HostRuntime) {
    let set = found(&rt, BitBuffer::new_set(rt.alloc(), 130));
    ticks(&rt, &set, 0b11010);
}

// ---- rows of a file without those that are deleted

fn rows_are(rt: &impl Host, numbers: &[usize], want: Option<&[usize]>) {
    let rows = renumbering::rows_of(rt.alloc(), bits(rt, "10011101"), numbers);
    assert!(rt; found(rt, rows).as_deref() == want);
}

fn number_is(rt: &impl Host, kept: &Ranks, row: usize, want: Option<usize>) {
    assert!(rt; row < kept.len() && renumbering::number_of(kept, row) == want);
}

#[test]
fn rows_that_are_renumbered(rt: HostRuntime) {
    rows_are(&rt, &[4, 0, 2, 2], Some(&[7, 0, 4, 4]));
    rows_are(&rt, &[0, 5], None);
    let kept = found(&rt, Ranks::from_buffer(rt.alloc(), bits(&rt, "10011101")));
    number_is(&rt, &kept, 7, Some(4));
    number_is(&rt, &kept, 6, None);
}
