//! Memory that a template needs: for its names, its check against a sample, its text, and that of
//! the format prepared for rows.

use crate::report::Report;
use interpolator::{Error, Formattable, Interpolate, Pairs, Row, Template};
use std::alloc::Global;

/// A format, the names that it uses, its text, the first of its faults with a sample, and how many
/// there are.
struct Loading<'a> {
    format: &'a str,
    names: &'a [&'a str],
    text: &'a str,
    first: &'a str,
    count: usize,
}

/// Worked by hand from the rules of names, samples and places in docs/DEFINITIONS.md, with the list
/// `h` of 1 and 5, and 7 under `x`. Of a broken argument, what is broken is the only fault.
#[rattlefmt::skip]
const LOADED: [Loading<'static>; 9] = [
    Loading { format: "", names: &[], text: "", first: "", count: 0 },
    Loading { format: "ab{x}{{", names: &["x"], text: "ab7{", first: "", count: 0 },
    Loading { format: "{x}-{x}-{x}-{x}-{x}-{x}-{x}-{x}-{x}", names: &["x", "x", "x", "x", "x", "x", "x", "x", "x"], text: "7-7-7-7-7-7-7-7-7", first: "", count: 0 },
    Loading { format: "{h:i({}{x})(, )}|{h:6i}|", names: &["h", "x", "h"], text: "17, 57|15    |", first: "", count: 0 },
    Loading { format: "{h:i..-1({:>3})}{", names: &["h"], text: "", first: "Parse(FormatSpecUnclosed(17))", count: 1 },
    Loading { format: "{h:i({z)}", names: &["h"], text: "", first: "Parse(FormatSpecUnclosed(6))", count: 1 },
    Loading { format: "{x}{q}", names: &["x", "q"], text: "", first: "MissingValue(\"q\", 4)", count: 1 },
    Loading { format: "{q}{x}{z}", names: &["q", "x", "z"], text: "", first: "MissingValue(\"q\", 1)", count: 2 },
    Loading { format: "{h:i({y})({z})}{", names: &["h", "y", "z"], text: "", first: "MissingValue(\"y\", 6)", count: 3 },
];

/// Whether the names are these, in order.
fn are_names(names: &[String], wanted: &[&str]) -> bool {
    names.len() == wanted.len()
        && names
            .iter()
            .zip(wanted)
            .all(|(name, one)| name.as_str() == *one)
}

/// Checks the names, and what is found with a sample. A call that is refused memory is called again.
fn is_checked(
    report: &mut Report,
    template: &Template,
    sample: Pairs<'_, u64>,
    row: &Loading<'_>,
) -> Result<(), Error> {
    let alloc = report.alloc;
    let names = again!(template.names(alloc))?;
    report.holds(row.format, are_names(&names, row.names));
    let answer = again!(sample.check_template(alloc, template));
    report.fault(row.format, row.first, answer);
    let faults = again!(sample.template_faults(alloc, template))?;
    report.number(row.format, row.count, faults.len());
    Ok(())
}

/// The text of the format, prepared for a row.
fn prepared_text(
    alloc: Global,
    template: &Template,
    sample: Pairs<'_, u64>,
    values: Row<'_, u64>,
) -> Result<String, Error> {
    template.prepare(alloc, &sample)?.format(alloc, &values)
}

/// Checks the text, and that of the prepared format: each is made again if it is refused memory.
fn is_made(
    report: &mut Report,
    template: &Template,
    sample: Pairs<'_, u64>,
    values: Row<'_, u64>,
    row: &Loading<'_>,
) {
    let alloc = report.alloc;
    let made = again!(sample.format_template(alloc, template));
    report.made(row.format, (row.text, row.first), made);
    let made = again!(prepared_text(alloc, template, sample, values));
    report.made(row.format, (row.text, row.first), made);
}

/// Checks the row with a list.
fn gives(
    report: &mut Report,
    row: &Loading<'_>,
    numbers: Formattable<'_, u64>,
) -> Result<(), Error> {
    let template = again!(Template::parse(report.alloc, row.format))?;
    let sample = Pairs(&[("h", numbers), ("x", Formattable::display(&7u64))]);
    let values = Row(&[numbers, Formattable::display(&7u64)]);
    is_checked(report, &template, sample, row)?;
    is_made(report, &template, sample, values, row);
    Ok(())
}

pub fn run(report: &mut Report) -> Result<(), Error> {
    let numbers = [Formattable::display(&1u64), Formattable::display(&5u64)];
    for row in &LOADED {
        gives(report, row, Formattable::iter(&numbers))?;
    }
    Ok(())
}
