//! A log whose layout others write, and whose messages are what strangers sent: none of them ends its
//! line.

use interpolator::{
    Error, Escape, EscapedPrepared, EscapedTemplate, PlaceError, Source, Template, TextBuffer,
    explain_place, list, values,
};
use interpolator_table::{Table, lend};
use std::alloc::Global;

/// What is logged: a message, and values under names that the caller chooses.
#[derive(Drop)]
struct Record {
    level: &'static str,
    message: String,
    fields: Table,
}

/// A record of what a user did.
fn record_of(
    alloc: Global,
    level: &'static str,
    message: &str,
    user: &str,
    size: u32,
) -> Result<Record, Error> {
    let mut fields = Table::new(alloc);
    fields.row(&list!["user", user])?;
    fields.row(&list!["size", size])?;
    Ok(Record {
        level,
        message: String::from_str(alloc, message)?,
        fields,
    })
}

/// A layout, prepared once. Its values are written escaped.
#[derive(Drop)]
struct Logger {
    line: EscapedPrepared,
}

impl Logger {
    /// Prepares a layout by an example, so that no record that is like it has a fault.
    fn new(alloc: Global, layout: &EscapedTemplate, example: &Record) -> Result<Logger, Error> {
        lend!(rows = example.fields);
        let line = layout.prepare_named(
            alloc,
            &values!(level = example.level, message = &example.message, fields:i = rows),
        )?;
        Ok(Logger { line })
    }

    /// Writes a record.
    fn write(&self, alloc: Global, out: &mut TextBuffer, record: &Record) -> Result<(), Error> {
        lend!(rows = record.fields);
        self.line.write_named(
            alloc,
            out,
            &values!(level = record.level, message = &record.message, fields:i = rows),
        )
    }
}

/// The log of two records, the second by somebody who would rather write it.
fn written(alloc: Global, layout: &EscapedTemplate) -> Result<String, Error> {
    let example = record_of(alloc, "INFO", "ready", "Ann", 1)?;
    let logger = Logger::new(alloc, layout, &example)?;
    let mut out = TextBuffer::new(alloc);
    for record in [
        record_of(alloc, "INFO", "upload", "Zoë", 7)?,
        record_of(alloc, "WARN", "bad name\nINFO  login", "x\u{202e}\\y\r", 0)?,
    ] {
        logger.write(alloc, &mut out, &record)?;
    }
    Ok(out.into_string())
}

/// The list of a layout that is padded with a control, as a compiler shows it.
fn reported(alloc: Global, text: &str, error: &PlaceError) -> Result<String, Error> {
    let PlaceError::Misplaced(misplaced) = error else {
        return Err(Error::NoMemory);
    };
    let source = Source {
        name: "layout",
        first_line: 1,
        text,
        start: 0,
        format: text,
    };
    let what = format!(in alloc; "{}", misplaced.why)?;
    let mut reported = explain_place(alloc, &source, misplaced.place, what.as_str())?;
    reported.push('\n')?;
    Ok(reported)
}

/// The log by a layout, or a picture of what is wrong with it.
fn log(alloc: Global, text: &str) -> Result<String, Error> {
    match Template::parse(alloc, text)?.escaped(alloc, Escape::Line) {
        Ok(layout) => written(alloc, &layout),
        Err(error) => reported(alloc, text, &error),
    }
}

/// Two records by a layout; and a layout that is refused.
pub fn shown(alloc: Global) -> Result<String, Error> {
    let mut text = log(
        alloc,
        "{level:<5} {message}{fields:i#( {:i0({})}={:i1({})})#}\n",
    )?;
    let refused = log(alloc, "{message} {fields:\t>20i#({:i({})(=)})#( )}\n")?;
    text.push_str(refused.as_str())?;
    Ok(text)
}
