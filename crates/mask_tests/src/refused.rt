//! Each row with requests for memory refused to its call, by `.ci/refusals`. It is told by lines: `scenario` and the
//! name of the call, `calls` before it, `answered` or `refused` behind it, and `wrong: ` where something is. A call
//! that was refused is made once more behind `calls again`. Between `calls` and the next line nothing but the call asks
//! for memory. The script misses a line that can't be written.

use crate::call::Call;
use crate::rows::{Row, Told};
use crate::text::Text;
use std::io::{self, BufRead, BufReader};

/// Makes the call of each row.
pub(crate) fn check<R: Input + Print + AllocGlobal>(rt: &R, how: Told) -> io::Result<usize> {
    for line in BufReader::new(rt.alloc(), rt.reader())?.lines(rt.alloc()) {
        check_line(rt, line?.as_str(), how);
    }
    Ok(0)
}

fn say<R: Print>(rt: &R, what: &str, of: &str) {
    let _ = println!(rt; "{what}{of}");
}

fn check_line<R: Print + AllocGlobal>(rt: &R, line: &str, how: Told) {
    match Row::read(line, how) {
        Some(row) => {
            say(rt, "scenario ", row.names);
            if let Some(call) = read(rt, row) {
                check_call(rt, row, call);
            }
        }
        None => say(rt, "wrong: no row: ", line),
    }
}

fn read<'a, R: Print + AllocGlobal>(rt: &R, row: Row<'a>) -> Option<Call<'a>> {
    let read = Call::read(rt.alloc(), row.names, row.words, false);
    if read.is_err() {
        say(rt, "wrong: it can't be read", "");
    }
    read.ok()
}

// Makes the call, compares what it leaves as it was, and makes it again where it was refused. What a row wants may end
// in ` or ` and what a builder has that was refused: then it is not called again.
fn check_call<R: Print + AllocGlobal>(rt: &R, row: Row<'_>, mut call: Call<'_>) {
    let answered = call.kept(false, row.how.kept);
    let refused = call.kept(true, row.how.kept);
    let (want, _) = row.want.split_once(" or ").unwrap_or((row.want, ""));
    let is_refused = !is_answered(rt, "calls", &mut call, want);
    let before = if is_refused { &refused } else { &answered };
    if !before.says(call.kept(is_refused, row.how.kept).as_str()) {
        say(rt, "wrong: what was lent has changed", "");
    }
    if is_refused {
        // Operands by value are gone: then the call is read anew.
        let call = if call.operands.are_lent() {
            Some(call)
        } else {
            read(rt, row)
        };
        if let Some(call) = call {
            again(rt, row, call);
        }
    }
}

fn again<R: Print + AllocGlobal>(rt: &R, row: Row<'_>, mut call: Call<'_>) {
    let left = row.want.split_once(" or ");
    if left.is_some() {
        call.operands.give_up();
    }
    let (_, want) = left.unwrap_or(("", row.want));
    if !is_answered(rt, "calls again", &mut call, want) {
        say(rt, "wrong: it is refused once more", "");
    }
}

// Makes the call behind a line, and compares its answer. Its text has room from before the call on.
fn is_answered<R: Print + AllocGlobal>(
    rt: &R,
    line: &str,
    call: &mut Call<'_>,
    want: &str,
) -> bool {
    let mut text = Text::with_room(rt.alloc(), ROOM);
    say(rt, line, "");
    call.run(&mut text);
    if text.is_out_of_memory {
        say(rt, "refused", "");
        return false;
    }
    say(rt, "answered", "");
    call.operands.write_changed(&mut text);
    if !text.says(want) {
        say(rt, "wrong: it answers ", text.as_str());
    }
    true
}

// No answer of a row is longer.
const ROOM: usize = 1 << 20;
