//! A layout for log lines, which others write: prepared once, and its values written escaped.

use crate::page::Page;
use interpolator::{Error, Escape, EscapedPrepared, PlaceError, Template, TextBuffer, values};
use std::alloc::Global;

/// A record to be logged.
#[derive(Clone, Copy)]
struct Record<'a> {
    level: &'a str,
    line: u32,
    message: &'a str,
}

/// Why there is no log.
#[derive(Debug, Drop)]
enum LogError {
    /// The layout has a fault.
    Layout(Error),
    /// A list of the layout is padded with a control.
    Place(PlaceError),
}

impl From<Error> for LogError {
    fn from(error: Error) -> LogError {
        LogError::Layout(error)
    }
}

impl From<PlaceError> for LogError {
    fn from(error: PlaceError) -> LogError {
        LogError::Place(error)
    }
}

/// How a record is laid out: a format that is prepared once.
#[derive(Drop)]
struct Layout {
    line: EscapedPrepared,
}

impl Layout {
    /// Parses a layout, and checks it against an example of a record.
    fn new(alloc: Global, text: &str) -> Result<Layout, LogError> {
        let layout = Template::parse(alloc, text)?.escaped(alloc, Escape::Line)?;
        let line = layout.prepare_named(
            alloc,
            &values!(level = "INFO", line:integer = 1u32, message:debug_display = "ready"),
        )?;
        Ok(Layout { line })
    }

    /// Writes a record. The only memory that this needs is that of the text.
    fn write(&self, alloc: Global, out: &mut TextBuffer, record: &Record<'_>) -> Result<(), Error> {
        let Record {
            level,
            line,
            message,
        } = *record;
        self.line.write_named(
            alloc,
            out,
            &values!(level, line:integer, message:debug_display),
        )
    }
}

/// All records, each written by the layout.
fn laid_out(alloc: Global, layout: &str, records: &[Record<'_>]) -> Result<String, LogError> {
    let layout = Layout::new(alloc, layout)?;
    let mut out = TextBuffer::new(alloc);
    for record in records {
        layout.write(alloc, &mut out, record)?;
    }
    Ok(out.into_string())
}

/// Two records, the second of what somebody sent who would rather write the log.
const RECORDS: [Record<'static>; 2] = [
    Record {
        level: "INFO",
        line: 7,
        message: "ready",
    },
    Record {
        level: "WARN",
        line: 1234,
        message: "no {é}\nINFO      8 root",
    },
];

/// The records by this layout, or why there is no log.
fn show_by(page: &mut Page, name: &str, layout: &str) -> Result<(), Error> {
    match laid_out(page.alloc, layout, &RECORDS) {
        Ok(log) => page.put(name, log.as_str()),
        Err(error) => {
            let reported = format!(in page.alloc; "{error:?}")?;
            page.put(name, reported.as_str());
        }
    }
    Ok(())
}

pub fn show(page: &mut Page) -> Result<(), Error> {
    show_by(page, "log", "{level:<6}{line:>5} {message}\n")?;
    show_by(page, "short log", "{line:04x} {message:?};")
}
