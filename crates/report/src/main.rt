//! `report FILE`: prints the records of a file as a table, with totals.
//!
//! The first record names the columns, and each other has a field for each. Records are spelled as
//! the crate `records` reads them: fields may stand in quotes, with separators, line ends and
//! doubled quotes in them. The separator is that of `--separator`, which is `,`, `;` or `tab`;
//! without it, the one that a line `sep=;` above the header names, or that of the three which the
//! header's line alone has, or else the comma. A byte order mark and a line `sep=;` at the head,
//! and blank lines at the end, are skipped. The file is UTF-8, or with `--latin1` Latin-1. White
//! space around a field does not count.
//!
//! A column is summed if `--total` names it; without `--total`, if its name ends in `:`, as
//! `count:`, which is not shown, or if more of its entries are numbers than are not, some with a
//! point, as -12.50: so years and post codes are not summed. An empty entry counts as none, and so
//! does with `--lenient` one that is no number; without, this is a fault. The total is exact, with
//! as many digits after the point as the entry that has the most. If a total leaves out some
//! records, a line `counted` below it says of how many it is. `--group city` puts records of one
//! city together, with totals below them. Below the header alone there are none.
//!
//! A column is as wide, in columns of a terminal, as the widest of its name, its entries and its
//! totals: an East Asian character takes two, a mark on another none. It is aligned to the right if
//! it is summed or all its entries are numbers. A line end in a field is shown as a blank, as is
//! any other control character, and blanks at the end of a line are left out. `--csv` writes
//! records of CSV, each field as it is, between quotes.
//!
//! `--format line.txt` writes each record by the format in that file, which is UTF-8, and no header
//! or totals. The line end at its end, or else a newline, ends each line. A name in it is that of
//! one column, whose entries are numbers if it would be summed without `--total`, or if all are
//! whole numbers that are no codes: none has a plus in front, or a zero in front of other digits.
//! An empty entry, any other, and with `--lenient` one that is no number, is a text, with a blank
//! for each control character. Each value can be displayed, and debugged by `?`.
//!
//! What is wrong is told by line and column: a byte that is no UTF-8; else all places where the
//! file goes on with no record, and all records with another number of fields than the header; else
//! a name that no column has; else in each column all entries that are no numbers, and the first
//! number with more than 128 bits, its point left out, or at the header that the total has more.
//! Then no table is written. With `--format`, all faults of the format with the header are shown in
//! their lines before the other records are read, and entries are told in the columns that it
//! names. The status is 0 if all is written, 1 after such a fault, 2 after wrong use, and 3 after a
//! refused write or for a file that cannot be read.
#![tactic(auto)]

mod asked;
mod columns;
mod feet;
mod formats;
mod formatted;
mod input;
mod layout;
mod lines;
mod places;
mod rows;
mod totals;
mod widths;

use asked::{Asked, HELP, USAGE, VERSION, asked_by};
use columns::{check_names, columns_of, index_of};
use formats::{Format, format_of};
use formatted::{header_in, report_by};
use input::read_records;
use interpolator::Error;
use layout::page_of;
use records::{Faults, Record, Separator, advice_on, latin1, text_in};
use rows::{entry_in, groups_by};
use std::alloc::Global;
use std::process::ExitCode;
use words::program::{
    Answer, BAD_USE, about, bytes_in, ended, print_answer, print_text, status_of, usage, words_in,
};

/// The page of these records below a header. What is wrong with them is told.
fn page_below(
    faults: &mut Faults<'_>,
    asked: Asked<'_>,
    header: &Record<'_>,
    records: &[Record<'_>],
) -> Result<String, Error> {
    let alloc = faults.alloc;
    if let Some(names) = asked.totals {
        check_names(faults, header, names)?;
    }
    let by = match asked.group {
        Some(name) => index_of(faults, header, name)?,
        None => None,
    };
    let groups = match by {
        Some(index) => groups_by(alloc, records, index)?,
        None => Vec::new(alloc),
    };
    let columns = columns_of(faults, asked, header, records, &groups)?;
    let by = by.unwrap_or(0);
    page_of(alloc, &columns, records, &groups, by, asked.is_csv)
}

/// Whether a header names no columns.
fn is_blank(header: &Record<'_>) -> bool {
    header.fields.len() <= 1 && entry_in(header, 0).is_empty()
}

/// The page of all records. What is wrong with them is told.
fn page_of_all(
    faults: &mut Faults<'_>,
    asked: Asked<'_>,
    records: &[Record<'_>],
) -> Result<String, Error> {
    if let [header, ..] = records {
        faults.header = header.line;
    }
    match records {
        [header, below @ ..] if !is_blank(header) => page_below(faults, asked, header, below),
        _ => {
            faults.tell(faults.header, "the first line names no columns")?;
            Ok(String::new(faults.alloc))
        }
    }
}

/// The table of a file's text.
fn report_table(
    alloc: Global,
    asked: Asked<'_>,
    text: &str,
    separator: Separator,
) -> Result<Answer, Error> {
    let mut faults = Faults::new(alloc, asked.file);
    let records = read_records(&mut faults, text, separator)?;
    if !faults.is_empty() {
        return Ok(Answer::Faults(faults.into_text()));
    }
    let page = page_of_all(&mut faults, asked, &records)?;
    if !faults.is_empty() {
        return Ok(Answer::Faults(faults.into_text()));
    }
    Ok(Answer::Text(page))
}

/// The report of a file's text. Without a header this says so, whatever the format is.
fn report_on(
    alloc: Global,
    asked: Asked<'_>,
    format: Option<Format<'_>>,
    text: &str,
) -> Result<Answer, Error> {
    let detected = Separator::detected_in(text);
    let separator = asked.separator.or(detected).unwrap_or(Separator::Comma);
    let Some(format) = format else {
        return report_table(alloc, asked, text, separator);
    };
    match header_in(alloc, text, separator)? {
        Some(header) if !is_blank(&header) => {
            report_by(alloc, asked, format, &header, text, separator)
        }
        _ => report_table(alloc, asked, text, separator),
    }
}

/// The report of a file's bytes.
fn report_bytes(
    alloc: Global,
    asked: Asked<'_>,
    format: Option<Format<'_>>,
    bytes: &[u8],
) -> Result<Answer, Error> {
    if asked.is_latin1 {
        let text = latin1(alloc, bytes)?;
        return report_on(alloc, asked, format, text.as_str());
    }
    match text_in(bytes) {
        Ok(text) => report_on(alloc, asked, format, text),
        Err(bad) => {
            let reported = format!(in alloc; "{}:{bad}; {}\n", asked.file, advice_on(bytes))?;
            Ok(Answer::Faults(reported))
        }
    }
}

/// Prints the report of a file, by this format, if there is one.
fn report(
    rt: &HostRuntime,
    asked: Asked<'_>,
    format: Option<Format<'_>>,
) -> Result<ExitCode, ExitCode> {
    let bytes = bytes_in(rt, asked.file)?;
    let report = report_bytes(rt.alloc(), asked, format, &bytes);
    Ok(print_answer(rt, report))
}

/// Prints the report of a file by the format in another.
fn report_by_file(rt: &HostRuntime, asked: Asked<'_>, file: &str) -> Result<ExitCode, ExitCode> {
    if let Some(flag) = asked.beside_format() {
        let reported = eprintln!(rt; "{flag} does not go with --format\n{USAGE}");
        return Err(ended(reported, BAD_USE));
    }
    let bytes = bytes_in(rt, file)?;
    match format_of(rt.alloc(), file, &bytes) {
        Ok(Ok(format)) => report(rt, asked, Some(format)),
        Ok(Err(faults)) => Ok(print_answer(rt, Ok(Answer::Faults(faults)))),
        Err(error) => Ok(print_answer(rt, Err(error))),
    }
}

/// Runs a command line.
fn run(rt: &HostRuntime) -> Result<ExitCode, ExitCode> {
    let words = words_in(rt, USAGE)?;
    if let Some(text) = about(&words, HELP, VERSION) {
        return Ok(print_text(rt, text));
    }
    let Some(asked) = asked_by(&words) else {
        return Err(usage(rt, USAGE));
    };
    match asked.format {
        Some(file) => report_by_file(rt, asked, file),
        None => report(rt, asked, None),
    }
}

fn main(rt: HostRuntime) -> ExitCode {
    status_of(run(&rt))
}
