//! `chart FORMAT FILE`: draws the numbers of a file as bars, by a format that is a file too.
//!
//! Each record of the file is a name and whole numbers, spelled as the crate `records` reads them:
//! fields may stand in quotes, and white space around one does not count. The separator is that of
//! `--separator`, which is `,`, `;` or `tab`; without it, the one that a line `sep=;` at the head
//! names, or that of the three which the first line alone has, or else the comma. A byte order mark
//! and a line `sep=;` at the head, and blank lines at the end, are skipped. The file is UTF-8, or
//! with `--latin1` Latin-1.
//!
//! The second number is the measure of its record: its bar is 100 long, and the other bars of the
//! record are in proportion, rounded down. The format gets `{height}`, the height of the picture,
//! and `{rows}`, a list for each record: its place from the top, its name, and each number after
//! the length of its bar. Values are escaped as in a page, so each has to stand in text, or between
//! the quotes of an attribute.
//!
//! Each record has as many numbers as the first, at least two, and as many as the format draws by
//! their indices. What is wrong is told by line and column, and no picture is drawn: a byte that is
//! no UTF-8; else all places where the file goes on with no record; else all that is wrong with
//! records; else the first value of the format that is out of place, or its first fault.
#![tactic(auto)]

mod rows;

use interpolator::{
    Argument, ContextMap, Error, Escape, EscapedTemplate, Formattable, Interpolate, Kind,
    PlaceError, Range, Template, View, explain, items_of, places_of, rows_of,
};
use records::{Faults, Separator, Table, advice_on, latin1, text_in};
use rows::{Rows, place_of, rows_of_records};
use std::alloc::Global;
use std::process::ExitCode;
use words::flags::{Flags, files_after};
use words::formats::{reported_at, source_of};
use words::program::{
    Answer, REFUSED, about, bytes_in, ended, print_answer, print_text, status_of, usage,
    without_mark, words_in,
};

const USAGE: &str = "usage: chart [--separator , | ; | tab] [--latin1] [--] FORMAT FILE";

const HELP: &str = "\
usage: chart [--separator , | ; | tab] [--latin1] [--] FORMAT FILE

Draws the numbers of a file as bars, by a format. A record of the file is a name
and whole numbers, of which the second has a bar of 100.

  --separator S  between fields; without it, a line `sep=;` at the head tells
                 it, or else the first record
  --latin1       the file is Latin-1, not UTF-8
  --             what follows are the files
  --help         print this, if it is the only word
  --version      print the version, if it is the only word

chart chart.svg.txt speed.txt >speed.svg
";

const VERSION: &str = "chart 0.5.0\n";

/// What the command line asks for.
#[derive(Clone, Copy, Default)]
struct Asked<'a> {
    format: &'a str,
    table: &'a str,
    separator: Option<Separator>,
    is_latin1: bool,
}

/// How many numbers a row has at least, if it has the cell at this index. Two cells come before
/// them, and each number has two.
fn numbers_up_to(index: isize) -> usize {
    if index < 0 {
        return index.unsigned_abs().saturating_sub(1) / 2;
    }
    index.unsigned_abs() / 2
}

/// How many numbers of each row a list under this name draws, if its range is an index.
fn numbers_of_range(name: &str, range: Range) -> usize {
    match (range.lower, range.upper) {
        (Some(lower), Some(upper)) if name.is_empty() && range.inclusive && lower == upper => {
            numbers_up_to(lower)
        }
        _ => 0,
    }
}

/// How many numbers of each row an argument draws by an index, as `{:i5({})}`.
fn numbers_of_argument(argument: &Argument<'_>) -> usize {
    match argument.kind {
        Kind::List { range, .. } => match range {
            Some(range) => numbers_of_range(argument.name, range),
            None => 0,
        },
        Kind::Value(_) => 0,
    }
}

/// How many numbers of each row the format draws by their indices.
fn numbers_drawn(alloc: Global, template: &Template) -> Result<usize, Error> {
    let arguments = template.arguments(alloc)?;
    let mut drawn = 0usize;
    for argument in &arguments {
        drawn = drawn.max(numbers_of_argument(argument));
    }
    Ok(drawn)
}

/// The picture of rows, drawn by a format.
fn drawn(alloc: Global, page: &EscapedTemplate, rows: Rows<'_>) -> Result<String, Error> {
    let Rows { cells, ends } = rows;
    let height = View::Unsigned(place_of(ends.len()));
    let items = items_of(alloc, &cells)?;
    let lists = rows_of(alloc, &items, &ends)?;
    let mut context = ContextMap::new(alloc);
    context.put("height", Formattable::integer(&height))?;
    context.put("rows", Formattable::iter(&lists))?;
    context.format_page(alloc, page)
}

/// The picture of rows, or the fault of the format, whose text this is.
fn picture_of(
    alloc: Global,
    asked: Asked<'_>,
    format: &str,
    page: &EscapedTemplate,
    rows: Rows<'_>,
) -> Result<Answer, Error> {
    match drawn(alloc, page, rows) {
        Ok(picture) => Ok(Answer::Text(picture)),
        Err(Error::NoMemory) => Err(Error::NoMemory),
        Err(error) => {
            let mut reported = explain(alloc, asked.format, format, &error)?;
            reported.push('\n')?;
            Ok(Answer::Faults(reported))
        }
    }
}

/// The value of the format that is out of place in a picture.
fn misplaced(
    alloc: Global,
    asked: Asked<'_>,
    format: &str,
    error: &PlaceError,
) -> Result<Answer, Error> {
    let PlaceError::Misplaced(misplaced) = error else {
        return Err(Error::NoMemory);
    };
    let places = places_of(Escape::Html);
    let why = format!(in alloc; "{}; a value may stand {places}", misplaced.why)?;
    let source = source_of(asked.format, format);
    let reported = reported_at(alloc, &source, misplaced.place, why.as_str())?;
    Ok(Answer::Faults(reported))
}

/// The chart of a table's text.
fn chart_of(alloc: Global, asked: Asked<'_>, format: &str, text: &str) -> Result<Answer, Error> {
    let template = Template::parse(alloc, format)?;
    let wanted = numbers_drawn(alloc, &template)?;
    let detected = Separator::detected_in(text);
    let separator = asked.separator.or(detected).unwrap_or(Separator::Comma);
    let table = Table::read(alloc, text, separator)?;
    let mut faults = Faults::new(alloc, asked.table);
    for fault in &table.faults {
        faults.add(*fault)?;
    }
    if !faults.is_empty() {
        return Ok(Answer::Faults(faults.into_text()));
    }
    let rows = rows_of_records(&mut faults, &table.records, wanted)?;
    if !faults.is_empty() {
        return Ok(Answer::Faults(faults.into_text()));
    }
    match template.escaped(alloc, Escape::Html) {
        Ok(page) => picture_of(alloc, asked, format, &page, rows),
        Err(error) => misplaced(alloc, asked, format, &error),
    }
}

/// The chart of a table's bytes.
fn chart_bytes(
    alloc: Global,
    asked: Asked<'_>,
    format: &str,
    bytes: &[u8],
) -> Result<Answer, Error> {
    if asked.is_latin1 {
        let text = latin1(alloc, bytes)?;
        return chart_of(alloc, asked, format, text.as_str());
    }
    match text_in(bytes) {
        Ok(text) => chart_of(alloc, asked, format, text),
        Err(bad) => {
            let reported = format!(in alloc; "{}:{bad}; {}\n", asked.table, advice_on(bytes))?;
            Ok(Answer::Faults(reported))
        }
    }
}

/// The text of a format, or how the run ends without it.
fn format_in<'a>(rt: &HostRuntime, name: &str, bytes: &'a [u8]) -> Result<&'a str, ExitCode> {
    match text_in(bytes) {
        Ok(text) => Ok(without_mark(text)),
        Err(bad) => Err(ended(eprintln!(rt; "{name}:{bad}"), REFUSED)),
    }
}

/// Draws the chart of two files, or ends the run without one.
fn draw(rt: &HostRuntime, asked: Asked<'_>) -> Result<ExitCode, ExitCode> {
    let bytes = bytes_in(rt, asked.format)?;
    let format = format_in(rt, asked.format, &bytes)?;
    let table = bytes_in(rt, asked.table)?;
    let answer = chart_bytes(rt.alloc(), asked, format, &table);
    Ok(print_answer(rt, answer))
}

impl<'a> Flags<'a> for Asked<'a> {
    fn take_word(&mut self, flag: &str) -> Option<()> {
        match flag {
            "--latin1" => self.is_latin1 = true,
            _ => return None,
        }
        Some(())
    }

    fn take_value(&mut self, flag: &str, value: &'a str) -> Option<()> {
        match flag {
            "--separator" => self.separator = Some(Separator::named(value)?),
            _ => return None,
        }
        Some(())
    }
}

/// What the words ask for: flags, and then two files.
fn asked_by(words: &[String]) -> Option<Asked<'_>> {
    let mut asked = Asked::default();
    let [format, table] = files_after(&mut asked, words)? else {
        return None;
    };
    asked.format = format.as_str();
    asked.table = table.as_str();
    Some(asked)
}

/// Runs a command line.
fn run(rt: &HostRuntime) -> Result<ExitCode, ExitCode> {
    let words = words_in(rt, USAGE)?;
    if let Some(text) = about(&words, HELP, VERSION) {
        return Ok(print_text(rt, text));
    }
    match asked_by(&words) {
        Some(asked) => draw(rt, asked),
        None => Err(usage(rt, USAGE)),
    }
}

fn main(rt: HostRuntime) -> ExitCode {
    status_of(run(&rt))
}
