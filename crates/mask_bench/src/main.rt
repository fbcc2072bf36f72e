//! `mask_bench JOB SEED ROUNDS`: does a job that users of masks wait for, so many times on inputs of this seed, and
//! prints a digest of all answers.
#![tactic(auto)]

mod awkward;
mod bitmaps;
mod calls;
mod digest;
mod groups;
mod lists;
mod numbers;
mod pages;
mod stacks;
mod table;

use crate::digest::Digest;
use crate::numbers::Numbers;
use std::alloc::Global;
use std::process::ExitCode;
use std::rt::Env;
use std::{env, io};
use vortex_mask::MaskError;

// The statuses of the program, beside 0.
const REFUSED: u8 = 1;

const NOT_READ: u8 = 2;

const NOT_WRITTEN: u8 = 3;

fn main(rt: HostRuntime) -> ExitCode {
    match run(&rt) {
        Ok(status) => ExitCode::from(status),
        Err(_) => ExitCode::from(NOT_WRITTEN),
    }
}

// Does the job that the arguments after the program's name say.
fn run<R: Env + Print + Eprint + AllocGlobal>(rt: &R) -> io::Result<u8> {
    let words: Vec<String> = env::args(rt)?.skip(1).collect(rt.alloc())?;
    let [job, seed, rounds] = words.as_slice() else {
        return usage(rt);
    };
    match (seed.parse::<u32>(), rounds.parse::<u32>()) {
        (Ok(seed), Ok(rounds)) => told(rt, digest_of(rt.alloc(), job.as_str(), seed, rounds)),
        _ => usage(rt),
    }
}

fn usage(rt: &impl Eprint) -> io::Result<u8> {
    eprintln!(rt; "usage: mask_bench stacks|bitmaps|groups|lists|awkward|all SEED ROUNDS")?;
    Ok(NOT_READ)
}

// Prints what came of a job.
fn told<R: Print + Eprint>(rt: &R, digest: Result<Digest, MaskError>) -> io::Result<u8> {
    match digest {
        Ok(digest) => {
            let state = digest.state();
            println!(rt; "{state:016x}")?;
            Ok(0)
        }
        Err(fault) => {
            eprintln!(rt; "{fault}")?;
            Ok(REFUSED)
        }
    }
}

// The digest of all answers of a job, or of each of them in turn.
fn digest_of(alloc: Global, job: &str, seed: u32, rounds: u32) -> Result<Digest, MaskError> {
    let mut digest = Digest::new();
    let mut numbers = Numbers::new(u64::from(seed));
    let all = job == "all";
    if all || job == "stacks" {
        stacks::run(alloc, &mut numbers, rounds, &mut digest)?;
    }
    if all || job == "bitmaps" {
        bitmaps::run(alloc, &mut numbers, rounds, &mut digest)?;
    }
    if all || job == "groups" {
        groups::run(alloc, &mut numbers, rounds, &mut digest)?;
    }
    if all || job == "lists" {
        lists::run(alloc, &mut numbers, rounds, &mut digest)?;
    }
    if all || job == "awkward" {
        awkward::run(alloc, &mut numbers, rounds, &mut digest)?;
    }
    Ok(digest)
}
