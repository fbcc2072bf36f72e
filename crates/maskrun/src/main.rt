//! `maskrun rank A B` prints mask `A` narrowed by mask `B`. All commands stand in the docs of `answer`.
#![tactic(auto)]

pub mod answer;
mod argument;
mod command;
mod error;
mod print;

use std::alloc::Global;
use std::process::ExitCode;
use std::rt::Env;
use std::{env, io};

// The statuses of the program, beside 0.
const FAULT: u8 = 2;

const NOT_READ_OR_WRITTEN: u8 = 3;

fn main(rt: HostRuntime) -> ExitCode {
    match run(&rt) {
        Ok(status) => ExitCode::from(status),
        Err(_) => ExitCode::from(NOT_READ_OR_WRITTEN),
    }
}

// Prints the line for the arguments after the program's name, or their fault, and says which.
fn run<R: Env + Print + Eprint + AllocGlobal>(rt: &R) -> io::Result<u8> {
    let words: Vec<String> = env::args(rt)?.skip(1).collect(rt.alloc())?;
    match answer::answer(rt.alloc(), &words) {
        Ok(line) => {
            println!(rt; "{line}")?;
            Ok(0)
        }
        Err(fault) => {
            eprintln!(rt; "maskrun: {fault}")?;
            Ok(FAULT)
        }
    }
}
