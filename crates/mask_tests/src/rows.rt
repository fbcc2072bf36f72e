//! Rows: a line each, of calls, their operands and what they answer. Each call is made once on operands that nobody
//! else holds, and once while a clone of each is held. Operands that it only borrows must read the same afterwards.

use crate::call::Call;
use crate::tell::tell_fault;
use crate::text::{Detail, Text};
use std::alloc::Global;
use std::io::{self, BufRead, BufReader};

/// A line such as `slice 10110 1 4 -> 011 Values`, or `limit,to_limited 01101 2 -> 01100 Values` of two calls that
/// answer the same. With `=>` it doesn't say what masks have cached, and has each list whole.
#[derive(Drop, Clone, Copy)]
pub(crate) struct Row<'a> {
    /// The names of the calls, with a comma between two.
    pub names: &'a str,
    /// The operands.
    pub words: &'a str,
    /// The answer of each.
    pub want: &'a str,
    pub how: Told,
}

/// How much is told of answers, and how much is compared of operands and clones that a call leaves as they were: without
/// cached lists, where a clone has those that are made for another one.
#[derive(Drop, Clone, Copy)]
pub(crate) struct Told {
    pub answers: Detail,
    pub kept: Detail,
}

impl<'a> Row<'a> {
    /// The parts of a line, in which `->` stands for so much detail.
    pub fn read(line: &'a str, how: Told) -> Option<Row<'a>> {
        let (mark, answers) = if line.contains(" => ") {
            (" => ", Detail::Lists)
        } else {
            (" -> ", how.answers)
        };
        let kept = how.kept;
        let (call, want) = line.split_once(mark)?;
        let (names, words) = call.split_once(" ")?;
        Some(Row {
            names,
            words,
            want,
            how: Told { answers, kept },
        })
    }

    // What is wrong with the call of this name: its answer where another one is wanted, or else what operands that it
    // leaves as they are have become.
    fn fault(self, alloc: Global, name: &str, is_shared: bool) -> Option<Text> {
        let mut answer = Text::new(alloc, self.how.answers);
        let change = match Call::read(alloc, name, self.words, is_shared) {
            Ok(call) => change(call, &mut answer, self.how.kept),
            Err(fault) => {
                tell_fault(&mut answer, fault);
                None
            }
        };
        if answer.says(self.want) {
            change
        } else {
            Some(answer)
        }
    }
}

// Tells the answer, and what the call changed in place. What it should leave as it was, if that has changed.
fn change(mut call: Call<'_>, answer: &mut Text, detail: Detail) -> Option<Text> {
    let before = call.kept(false, detail);
    call.run(answer);
    call.operands.write_changed(answer);
    let after = call.kept(false, detail);
    let is_kept = before.says(after.as_str());
    if is_kept { None } else { Some(after) }
}

// What was counted.
#[derive(Drop, Default)]
struct Count {
    rows: usize,
    calls: usize,
    wrong: usize,
}

// How many wrong answers are told.
const MOST: usize = 20;

/// Makes the calls of each row, says which answer otherwise, and how many there are. How many were wrong. Where a line
/// can't be written, nor can the last one.
pub(crate) fn check<R: Input + Print + AllocGlobal>(rt: &R, how: Told) -> io::Result<usize> {
    let mut count = Count::default();
    for line in BufReader::new(rt.alloc(), rt.reader())?.lines(rt.alloc()) {
        check_line(rt, &mut count, line?.as_str(), how);
    }
    println!(rt;
        "{} rows, {} calls, {} wrong",
        count.rows, count.calls, count.wrong
    )?;
    Ok(count.wrong)
}

// Empty lines and comments are no rows.
fn check_line<R: Print + AllocGlobal>(rt: &R, count: &mut Count, line: &str, how: Told) {
    if !matches!(line.as_bytes(), [] | [b'#', ..]) {
        count.rows = count.rows.saturating_add(1);
        match Row::read(line, how) {
            Some(row) => check_row(rt, count, row),
            None => {
                count.wrong = count.wrong.saturating_add(1);
                let _ = println!(rt; "no row: {line}");
            }
        }
    }
}

fn check_row<R: Print + AllocGlobal>(rt: &R, count: &mut Count, row: Row<'_>) {
    for name in row.names.split(',') {
        check_call(rt, count, name, row, false);
        check_call(rt, count, name, row, true);
    }
}

fn check_call<R: Print + AllocGlobal>(
    rt: &R,
    count: &mut Count,
    name: &str,
    row: Row<'_>,
    is_shared: bool,
) {
    count.calls = count.calls.saturating_add(1);
    if let Some(fault) = row.fault(rt.alloc(), name, is_shared) {
        count.wrong = count.wrong.saturating_add(1);
        if count.wrong <= MOST {
            let _ = println!(rt; "{name} {}: {} for {}", row.words, fault.as_str(), row.want);
        }
    }
}
