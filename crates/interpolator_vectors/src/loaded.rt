//! What is known of a row's format when it is loaded: it is checked with the row's context as a
//! sample, and prepared for the values of this context.

use crate::cells::Cell;
use crate::formats::is_tried;
use crate::limited::Limited;
use crate::report::{Part, Report, Run, whole};
use crate::ways::{Outcome, Room, first};
use interpolator::{ContextMap, Error, Formattable, Interpolate, Pairs, Prepared, Row, Template};

/// A name of a context, and its value.
pub type Named<'a> = (&'a str, Formattable<'a, Cell>);

/// Checks that the fault that a row has with its own context, or an earlier one, is reported with
/// that context as a sample.
pub fn run_check(
    report: &mut Report<'_>,
    context: &ContextMap<'_, Cell>,
    template: &Template,
    wanted: &Outcome,
) {
    if matches!(&wanted.fault, None | Some(Error::NoMemory)) {
        return;
    }
    let answer = context.check_template(report.alloc, template);
    let came = Outcome::new(String::new(report.alloc), answer);
    let holds = came.fault.is_some() && came.place() <= wanted.place();
    report.check(whole("check_template"), holds, wanted, &came);
}

/// Writes a prepared format to a writer of `count` characters, fewer than the text has: it gets so
/// many of the row's text, and the fault is `Fmt` at a place within the format.
fn write_refused(
    report: &mut Report<'_>,
    prepared: &Prepared,
    row: &[Formattable<'_, Cell>],
    count: usize,
    wanted: &Outcome,
) {
    let Ok(mut out) = Limited::new(report.alloc, count) else {
        report.wants_memory = true;
        return;
    };
    let answer = prepared.write(report.alloc, &mut out, &Row(row));
    let came = Outcome::new(out.into_string(), answer);
    let beginning = first(wanted.text.as_str(), count);
    let holds = came.is_refused(beginning, prepared.text().len());
    let run = Run {
        way: "Prepared::write",
        part: Part::To(Room::Characters(count)),
    };
    report.check(run, holds, wanted, &came);
}

/// Checks that a format that can be prepared writes the row's text, also to writers of 0, 1, 2 and
/// so on characters, and that any other is rejected with the fault that the check reports.
pub fn run_prepared(
    report: &mut Report<'_>,
    template: &Template,
    pairs: &[Named<'_>],
    row: &[Formattable<'_, Cell>],
    wanted: &Outcome,
) {
    let prepared = match template.prepare(report.alloc, &Pairs(pairs)) {
        Ok(prepared) => prepared,
        Err(fault) => {
            let wanted = Pairs(pairs).check_template(report.alloc, template).err();
            report.compare("Template::prepare", &wanted, &Some(fault));
            return;
        }
    };
    let made = prepared.format(report.alloc, &Row(row));
    let came = Outcome::made(report.alloc, made);
    let holds = wanted.is_made(&came);
    report.check(whole("Prepared::format"), holds, wanted, &came);
    let all = wanted.text.chars().count();
    for count in 0..all {
        if is_tried(count, all) {
            write_refused(report, &prepared, row, count, wanted);
        }
    }
}
