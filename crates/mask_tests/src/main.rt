//! Tests of `mask_bits` and `vortex_mask` as rows of text on standard input: a row has calls, their operands, and
//! what each of them answers. Each public call stands in one line, as `lines` says. With the argument `sweep` lists are
//! told whole, and with `refused` the rows are scenarios of refused memory.
#![tactic(auto)]

mod builder;
mod call;
mod calls;
mod fault;
mod held;
mod lines;
mod listed;
mod mask_word;
mod nullable;
mod operands;
mod packed;
mod ranked;
mod refused;
mod rows;
mod tell;
mod text;
mod walks;
mod words;
mod written;

use crate::rows::Told;
use crate::text::Detail;
use std::process::ExitCode;
use std::rt::Env;
use std::{env, io};

// The statuses of the program, beside 0.
const WRONG: u8 = 1;

const NOT_READ_OR_WRITTEN: u8 = 3;

fn main(rt: HostRuntime) -> ExitCode {
    match check(&rt) {
        Ok(0) => ExitCode::SUCCESS,
        Ok(_) => ExitCode::from(WRONG),
        Err(_) => ExitCode::from(NOT_READ_OR_WRITTEN),
    }
}

// The first argument says what the rows are for.
fn check<R: Env + Input + Print + AllocGlobal>(rt: &R) -> io::Result<usize> {
    match env::args(rt)?.nth(1) {
        Some(mode) if mode.as_str() == "refused" => refused::check(rt, told(Detail::Whole)),
        Some(_) => rows::check(rt, told(Detail::Whole)),
        None => rows::check(rt, told(Detail::Short)),
    }
}

// A clone keeps the lists that it had.
fn told(answers: Detail) -> Told {
    Told {
        answers,
        kept: Detail::Whole,
    }
}
