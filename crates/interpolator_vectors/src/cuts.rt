//! Formats that are cut after each of their characters.

use crate::cells::Cell;
use crate::formats::{Trial, run_makings, run_ways};
use crate::report::{Part, Report, Run};
use crate::ways::{Outcome, Room, WAYS, Way, came_by};
use interpolator::{ContextMap, Error, parse_argument};
use std::alloc::{AllocError, Global};

/// More characters than any beginning of a format writes.
const PLENTY: usize = 1_000;

/// The run that writes a beginning.
fn written(beginning: &str) -> Run<'_> {
    Run {
        way: "write",
        part: Part::Beginning(beginning),
    }
}

/// The outcome of a beginning with nothing under any name: nothing is written.
fn without_names(report: &Report<'_>, beginning: &str) -> Outcome {
    let nothing = ContextMap::new(report.alloc);
    let room = Room::Characters(0);
    came_by(report.alloc, Way::Write, room, &[beginning], &nothing)
}

/// The fault of the argument at the start of the beginning, if it begins with one: if it is not
/// broken, its name is the first that is looked up. The second is whether it is broken.
fn fault_of_beginning(alloc: Global, beginning: &str) -> Result<Option<(Error, bool)>, AllocError> {
    let is_one = beginning.starts_with('{') && !beginning.starts_with("{{");
    if !is_one || !beginning.is_char_boundary(1) {
        return Ok(None);
    }
    match parse_argument(beginning, 1) {
        Ok((argument, _)) => {
            let name = String::from_str(alloc, argument.name)?;
            Ok(Some((Error::MissingValue(name, 1), false)))
        }
        Err(fault) => Ok(Some((fault, true))),
    }
}

/// Checks that an argument at the start of the beginning is read in the same way when it is
/// written: if it is broken, its fault is the only outcome, and else that its name is missing.
fn run_cut_argument(
    report: &mut Report<'_>,
    beginning: &str,
    outcome: &Outcome,
) -> Result<(), AllocError> {
    let Some((fault, is_broken)) = fault_of_beginning(report.alloc, beginning)? else {
        return Ok(());
    };
    let run = written(beginning);
    let wanted = Outcome::new(String::new(report.alloc), Err(fault));
    if is_broken {
        report.check(run, *outcome == wanted, &wanted, outcome);
    }
    let came = without_names(report, beginning);
    report.check(run, came == wanted, &wanted, &came);
    Ok(())
}

/// Checks that a beginning is written alike by every way, and that the place of its fault is not
/// past its end.
fn run_beginning(
    report: &mut Report<'_>,
    context: &ContextMap<'_, Cell>,
    beginning: &str,
    room: Room,
) -> Result<(), AllocError> {
    let parts = [beginning];
    let run = written(beginning);
    let little = match room {
        Room::Characters(count) => Room::Characters(count),
        _ => Room::Characters(PLENTY),
    };
    let outcome = came_by(report.alloc, Way::Write, little, &parts, context);
    let is_short = matches!(&outcome.fault, Some(Error::NoMemory));
    let holds = !is_short && outcome.place() <= beginning.len();
    report.check(run, holds, &"a place within the beginning", &outcome);
    let trial = Trial {
        ways: &WAYS,
        room: little,
        part: run.part,
    };
    run_ways(report, context, &parts, trial, &outcome);
    if let Room::All = room {
        run_makings(report, context, beginning, run.part, &outcome);
    }
    run_cut_argument(report, beginning, &outcome)
}

/// Runs each beginning of a format.
pub fn run_cuts(
    report: &mut Report<'_>,
    context: &ContextMap<'_, Cell>,
    format: &str,
    room: Room,
) -> Result<(), AllocError> {
    for byte in 0..=format.len() {
        if format.is_char_boundary(byte) {
            let (beginning, _) = format.split_at(byte);
            run_beginning(report, context, beginning, room)?;
        }
    }
    Ok(())
}
