//! `interpolator_tests`: checks, worked by hand, of what no row of `interpolator_vectors` can say.
//!
//! These are user-defined writers, contexts and values, the calls that a writer gets, refused
//! memory, long formats and depth. Each group reports how many checks it has, and those that fail.
//! With any argument, such as `memory`, only the group `memory` is run. The exit status says only
//! whether everything was run: it is 3 if the program itself was refused memory, or if its report
//! could not be written.
#![tactic(auto)]

mod contexts;
mod costs;
mod counting;
mod decimal_sums;
mod decimals;
mod depth;
mod escaped;
mod explained;
mod faults;
mod given;
mod io_writers;
mod long;
mod maps;
mod memory;
mod named_rows;
mod own;
mod prepared;
mod render;
mod report;
mod templates;
mod values;
mod writers;

use interpolator::Error;
use report::Report;
use std::process::ExitCode;
use std::{env, io};

/// All groups but that of refused memory.
fn run_others(report: &mut Report) -> Result<(), Error> {
    contexts::run(report)?;
    costs::run(report)?;
    decimal_sums::run(report)?;
    decimals::run(report)?;
    depth::run(report)?;
    escaped::run(report)?;
    explained::run(report)?;
    faults::run(report)?;
    io_writers::run(report)?;
    long::run(report)?;
    maps::run(report)?;
    named_rows::run(report)?;
    prepared::run(report)?;
    render::run(report)?;
    templates::run(report)?;
    values::run(report)?;
    writers::run(report)
}

/// Runs the group of refused memory, and the others too if `is_all`.
fn run_asked(report: &mut Report, is_all: bool) -> Result<(), Error> {
    memory::run(report)?;
    if is_all { run_others(report) } else { Ok(()) }
}

/// Whether everything was run; prints the report.
fn reported(rt: &HostRuntime) -> io::Result<bool> {
    let is_all = env::args(rt)?.len() < 2;
    let Ok(mut report) = Report::new(rt.alloc()) else {
        return Ok(false);
    };
    let answer = run_asked(&mut report, is_all);
    report.done(answer);
    rt.print(report.reported.as_str())?;
    Ok(!report.wants_memory)
}

fn main(rt: HostRuntime) -> ExitCode {
    match reported(&rt) {
        Ok(true) => ExitCode::SUCCESS,
        _ => ExitCode::from(3),
    }
}
