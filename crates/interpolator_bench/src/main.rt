//! `interpolator_bench`: makes texts again and again, to be timed from outside.
#![tactic(auto)]

mod checksum;
mod documents;
mod escapes;
mod failure;
mod formats;
mod lists;
mod merge;
mod uses;
mod values;
mod workloads;

use checksum::checksum_of;
use failure::Failure;
use std::env;
use std::process::ExitCode;
use std::rt::Env;
use workloads::{Workload, workloads};

const FAULT: u8 = 1;

const BAD_USE: u8 = 2;

/// The word that stands for every workload.
const EVERY: &str = "all";

fn main(rt: HostRuntime) -> ExitCode {
    let status = match answer(&rt) {
        Ok(()) => return ExitCode::SUCCESS,
        Err(Failure::Usage) => BAD_USE,
        Err(_) => FAULT,
    };
    ExitCode::from(status)
}

// Runs what the command line says, and prints an error if that fails.
fn answer(rt: &(impl Env + Print + Eprint + AllocGlobal)) -> Result<(), Failure> {
    let answer = asked(rt);
    if let Err(failure) = &answer {
        complain(rt, failure)?;
    }
    answer
}

// Runs what the words after the program's name spell: a workload's name, or `all`, and a number of
// repeats.
fn asked(rt: &(impl Env + Print + AllocGlobal)) -> Result<(), Failure> {
    let words = env::args(rt)?.skip(1).collect::<Vec<String>>(rt.alloc())?;
    let [name, repeats] = words.as_slice() else {
        return Err(Failure::Usage);
    };
    match repeats.as_str().parse::<u32>() {
        Ok(repeats) => run(rt, name.as_str(), repeats),
        Err(_) => Err(Failure::Usage),
    }
}

// Runs the workload of this name, or all of them.
fn run(rt: &(impl Print + AllocGlobal), name: &str, repeats: u32) -> Result<(), Failure> {
    let mut is_found = false;
    let all = workloads(rt.alloc())?;
    for workload in &all {
        if name == EVERY || workload.has_name(name) {
            report(rt, workload, repeats)?;
            is_found = true;
        }
    }
    if is_found {
        Ok(())
    } else {
        Err(Failure::Usage)
    }
}

// Runs a workload, and prints the length of its text and its checksum.
fn report(
    rt: &(impl Print + AllocGlobal),
    workload: &Workload,
    repeats: u32,
) -> Result<(), Failure> {
    let text = workload.run(rt.alloc(), repeats)?;
    let (front, name) = (workload.front, workload.name);
    let len = text.len();
    let sum = checksum_of(text.as_str());
    println!(rt; "{front}{name}: {len} bytes, checksum {sum:016x}")?;
    Ok(())
}

fn complain(rt: &(impl Eprint + AllocGlobal), failure: &Failure) -> Result<(), Failure> {
    match failure {
        Failure::Usage => return usage(rt),
        Failure::Format(error) => eprintln!(rt; "{error}")?,
        Failure::Render(fault) => eprintln!(rt; "not rendered: {fault:?}")?,
        Failure::NoMemory => eprintln!(rt; "out of memory")?,
        Failure::Io(error) => eprintln!(rt; "{error}")?,
    }
    Ok(())
}

fn usage(rt: &(impl Eprint + AllocGlobal)) -> Result<(), Failure> {
    eprint!(rt; "usage: interpolator_bench WORKLOAD REPEATS, a workload being all")?;
    let all = workloads(rt.alloc())?;
    for workload in &all {
        let (front, name) = (workload.front, workload.name);
        eprint!(rt; ", {front}{name}")?;
    }
    eprintln!(rt; "")?;
    Ok(())
}
