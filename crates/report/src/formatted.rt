//! The records of a file, each written by a format.

ghost use Rattle.std.specs.Prelude.{◌≡◌, IfOk};
ghost use Rattle.report.specs.Lines.{IsReady, names_in};

use crate::asked::Asked;
use crate::columns::is_shown_as_numbers;
use crate::formats::{Format, asked_names, columns_for, reported_faults};
use crate::input::read_records;
use crate::lines::{Frame, Named, lines_of, prepared_line, sample_of};
use interpolator::{Error, Prepared, Template, View};
use records::{Faults, ReadError, Reader, Record, Separator};
use std::alloc::Global;
use words::program::Answer;

/// A column, with whether it is shown as numbers. What is wrong with it is told.
fn with_kind<'a>(
    faults: &mut Faults<'_>,
    asked: Asked<'_>,
    header: &Record<'_>,
    records: &[Record<'_>],
    column: Named<'a>,
) -> Result<Named<'a>, Error>
    ensures { IfOk result (λ typed. typed.name.now ≡ column.entry.name.now) }
{
    let is_numeric = is_shown_as_numbers(faults, asked, header, records, column.index)?;
    Ok(Named {
        is_numeric,
        ..column
    })
}

/// Columns, with whether each is shown as numbers. What is wrong with them is told.
fn with_kinds<'a>(
    faults: &mut Faults<'_>,
    asked: Asked<'_>,
    header: &Record<'_>,
    records: &[Record<'_>],
    columns: &[Named<'a>],
) -> Result<Vec<Named<'a>>, Error>
    ensures { IfOk result (λ typed. names_in typed.items ≡ names_in columns.now) }
{
    let mut typed = Vec::with_capacity(faults.alloc, columns.len())?;
    for column in columns.iter() {
        typed.push(with_kind(faults, asked, header, records, *column)?)?;
    }
    Ok(typed)
}

/// The report of records below a header by a format, prepared for the columns that it names.
fn lines_below(
    faults: &mut Faults<'_>,
    asked: Asked<'_>,
    format: Format<'_>,
    line: &Prepared,
    frame: Frame<'_>,
    records: &[Record<'_>],
) -> Result<String, Error>
    requires names { line.now.names ≡ names_in frame.columns.now }
    requires ready { IsReady line.now frame.sample.now }
{
    let alloc = faults.alloc;
    let [header, below @ ..] = records else {
        return Ok(String::new(alloc));
    };
    faults.header = header.line;
    let columns = with_kinds(faults, asked, header, below, frame.columns)?;
    let frame = Frame {
        columns: columns.as_slice(),
        sample: frame.sample,
    };
    Ok(lines_of(alloc, line, format.end, frame, below)?)
}

/// The report of a file's text by a format, prepared for the columns that it names.
fn report_prepared(
    alloc: Global,
    asked: Asked<'_>,
    format: Format<'_>,
    line: &Prepared,
    frame: Frame<'_>,
    text: &str,
    separator: Separator,
) -> Result<Answer, Error>
    requires names { line.now.names ≡ names_in frame.columns.now }
    requires ready { IsReady line.now frame.sample.now }
{
    let mut faults = Faults::new(alloc, asked.file);
    let records = read_records(&mut faults, text, separator)?;
    if !faults.is_empty() {
        return Ok(Answer::Faults(faults.into_text()));
    }
    let lines = lines_below(&mut faults, asked, format, line, frame, &records)?;
    if !faults.is_empty() {
        return Ok(Answer::Faults(faults.into_text()));
    }
    Ok(Answer::Text(lines))
}

/// The first record of a file's text, if it begins with one.
pub fn header_in<'a>(
    alloc: Global,
    text: &'a str,
    separator: Separator,
) -> Result<Option<Record<'a>>, Error> {
    let mut fields = Vec::new(alloc);
    match Reader::new(text, separator).next_record(alloc, &mut fields) {
        Ok(Some(line)) => Ok(Some(Record { line, fields })),
        Ok(None) => Ok(None),
        Err(ReadError::Fault(_)) => Ok(None),
        Err(ReadError::NoMemory) => Err(Error::NoMemory),
    }
}

/// The report of a file's text, whose header this is, by a format.
pub fn report_by(
    alloc: Global,
    asked: Asked<'_>,
    format: Format<'_>,
    header: &Record<'_>,
    text: &str,
    separator: Separator,
) -> Result<Answer, Error> {
    let template = Template::parse(alloc, format.text)?;
    let wanted = asked_names(alloc, &template)?;
    let columns = columns_for(alloc, header, &wanted)?;
    let example = View::Character('a');
    let sample = sample_of(alloc, columns.as_slice(), &example)?;
    let frame = Frame {
        columns: columns.as_slice(),
        sample: sample.as_slice(),
    };
    match prepared_line(alloc, &template, frame)? {
        Ok(line) => report_prepared(alloc, asked, format, &line, frame, text, separator),
        Err(found) => Ok(Answer::Faults(reported_faults(alloc, format, header, &found)?)),
    }
}
