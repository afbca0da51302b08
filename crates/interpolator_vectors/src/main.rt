//! `interpolator_vectors FILE..`: files of rows, each of which is run by every way there is.
//!
//! ROWS.md says what is in a file, and what is run. A row that fails is reported with its file and
//! line, what was wanted of it and what came. After the rows of a file come the number of rows and
//! the number of runs. The exit status is 1 if a row fails, or if a file cannot be read.
#![tactic(auto)]

mod arguments;
mod cells;
mod contexts;
mod costs;
mod cuts;
mod files;
mod formats;
mod joins;
mod lexing;
mod limited;
mod loaded;
mod names;
mod rendering;
mod report;
mod running;
mod sizes;
mod small;
mod templates;
mod trouble;
mod ways;
mod words;

use report::Report;
use running::run_text;
use std::alloc::{AllocError, Global};
use std::process::ExitCode;
use std::{env, fs, io};
use trouble::Trouble;

/// The report on a file with this text, and whether all of its rows hold.
fn report_on(alloc: Global, file: &str, text: &str) -> Result<(String, bool), AllocError> {
    let mut report = Report::new(alloc, file);
    let is_read = match run_text(&mut report, text) {
        Ok(()) => true,
        Err(Trouble::Line(line, what)) => {
            report.tell(line, what);
            false
        }
        Err(Trouble::NoMemory) => return Err(AllocError),
    };
    if report.wants_memory {
        return Err(AllocError);
    }
    let (rows, runs, failed) = (report.rows, report.runs, report.failed);
    let mut reported = report.reported;
    let counts = format!(in alloc; "{file}: {rows} rows, {runs} runs, {failed} fail\n")?;
    reported.push_str(counts.as_str())?;
    Ok((reported, is_read && failed == 0))
}

/// Runs the rows of a file, and prints the report on them.
fn run_file(rt: &HostRuntime, file: &str) -> io::Result<bool> {
    let Ok(text) = fs::read_to_string(rt, file) else {
        println!(rt; "{file}: this file cannot be read")?;
        return Ok(false);
    };
    match report_on(rt.alloc(), file, text.as_str()) {
        Ok((reported, holds)) => {
            rt.print(reported.as_str())?;
            Ok(holds)
        }
        Err(_) => {
            println!(rt; "{file}: out of memory")?;
            Ok(false)
        }
    }
}

/// Runs all files, and returns whether all of their rows hold.
fn run_files(rt: &HostRuntime) -> io::Result<bool> {
    let files = env::args(rt)?.skip(1).collect::<Vec<String>>(rt.alloc())?;
    let mut holds = !files.is_empty();
    for file in &files {
        if !run_file(rt, file.as_str())? {
            holds = false;
        }
    }
    Ok(holds)
}

fn main(rt: HostRuntime) -> ExitCode {
    match run_files(&rt) {
        Ok(true) => ExitCode::SUCCESS,
        Ok(false) => ExitCode::from(1),
        Err(_) => ExitCode::from(3),
    }
}
