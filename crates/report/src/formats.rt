//! The format of a user's own, by which each record is written.

ghost use Rattle.std.specs.Prelude.{◌≡◌};
ghost use Rattle.std.specs.Option.{option_map};
ghost use Rattle.report.specs.Lines.{parted, without};

use crate::columns::name_of;
use crate::lines::Named;
use crate::rows::entry_in;
use interpolator::{
    Error, Formattable, Interpolate, Pairs, Template, View, explain_place, explain_with_names,
};
use records::{BadByte, Record, is_utf16, text_in};
use std::alloc::Global;
use words::formats::source_of;
use words::program::without_mark;

/// A format, as a file has it.
#[derive(Clone, Copy)]
pub struct Format<'a> {
    /// The name of the file.
    pub file: &'a str,
    /// Its text, but for the line end at its end.
    pub text: &'a str,
    /// The line end after each line.
    pub end: &'a str,
}

/// A text before an end, if it ends so.
#[tactic(auto, using(std::proofs::lemmas::Slice::Eq::ends_is))]
fn before_end<'a>(end: &str, text: &'a str) -> Option<&'a str>
    ensures { option_map (λ front. front.now) result ≡ without end.now text.now }
{
    match text.strip_suffix(end) {
        Some(front) => Some(front),
        None => None,
    }
}

/// A text before the line end at its end, and that line end; a newline, if it has none.
fn parted(text: &str) -> (&str, &str)
    ensures { (result.0.now, result.1.now) ≡ parted text.now }
{
    if let Some(front) = before_end("\r\n", text) {
        return (front, "\r\n");
    }
    if let Some(front) = before_end("\n", text) {
        return (front, "\n");
    }
    (text, "\n")
}

/// The format that a text has.
fn format_in<'a>(file: &'a str, text: &'a str) -> Format<'a>
    ensures { (result.text.now, result.end.now) ≡ parted text.now }
{
    let (text, end) = parted(text);
    Format { file, text, end }
}

/// What is wrong with a format's file that is no UTF-8.
fn reported_bad(alloc: Global, file: &str, bytes: &[u8], bad: BadByte) -> Result<String, Error> {
    let advice = if is_utf16(bytes) {
        "this looks like UTF-16: save it as UTF-8"
    } else {
        "save it as UTF-8"
    };
    let reported = format!(in alloc; "{file}:{bad}; {advice}\n")?;
    Ok(reported)
}

/// The format in the bytes of a file, or what is wrong with it.
pub fn format_of<'a>(
    alloc: Global,
    file: &'a str,
    bytes: &'a [u8],
) -> Result<Result<Format<'a>, String>, Error> {
    let text = match text_in(bytes) {
        Ok(text) => without_mark(text),
        Err(bad) => return Ok(Err(reported_bad(alloc, file, bytes, bad)?)),
    };
    let format = format_in(file, text);
    if format.text.is_empty() {
        return Ok(Err(format!(in alloc; "{file}:1: the format is empty\n")?));
    }
    Ok(Ok(format))
}

/// The names for which a format asks, as values that it misses, among its faults.
pub fn asked_names(alloc: Global, template: &Template) -> Result<Vec<Error>, Error> {
    let none: [(&str, Formattable<'_, View<'_>>); 0] = [];
    Pairs(&none).template_faults(alloc, template)
}

/// Whether a name is one for which a format asks.
fn is_asked(asked: &[Error], name: &str) -> bool {
    for error in asked {
        if let Error::MissingValue(wanted, _) = error {
            if wanted.as_str() == name {
                return true;
            }
        }
    }
    false
}

/// How many columns have this name.
fn count_of(header: &Record<'_>, name: &str) -> usize {
    let mut count = 0usize;
    for index in 0..header.fields.len() {
        if name_of(entry_in(header, index)).0 == name {
            count = count.saturating_add(1);
        }
    }
    count
}

/// The columns for which a format asks by a name that no other has.
pub fn columns_for<'a>(
    alloc: Global,
    header: &'a Record<'_>,
    asked: &[Error],
) -> Result<Vec<Named<'a>>, Error> {
    let mut columns = Vec::new(alloc);
    for index in 0..header.fields.len() {
        let (name, _) = name_of(entry_in(header, index));
        if is_asked(asked, name) && count_of(header, name) == 1 {
            columns.push(Named {
                name,
                index,
                is_numeric: false,
            })?;
        }
    }
    Ok(columns)
}

/// A fault of a format with the columns that a header names, shown in its line.
fn reported_fault(
    alloc: Global,
    format: Format<'_>,
    header: &Record<'_>,
    names: &[&str],
    fault: &Error,
) -> Result<String, Error> {
    let source = source_of(format.file, format.text);
    match fault {
        Error::MissingValue(name, place) if count_of(header, name.as_str()) > 1 => {
            let why = format!(in alloc; "more than one column has the name `{name}`")?;
            explain_place(alloc, &source, *place, why.as_str())
        }
        _ => explain_with_names(alloc, &source, fault, names),
    }
}

/// The faults of a format with the columns that a header names, each shown in its line.
pub fn reported_faults(
    alloc: Global,
    format: Format<'_>,
    header: &Record<'_>,
    faults: &[Error],
) -> Result<String, Error> {
    let mut names = Vec::with_capacity(alloc, header.fields.len())?;
    for index in 0..header.fields.len() {
        names.push(name_of(entry_in(header, index)).0)?;
    }
    let mut reported = String::new(alloc);
    for fault in faults {
        let picture = reported_fault(alloc, format, header, &names, fault)?;
        reported.push_str(picture.as_str())?;
        reported.push('\n')?;
    }
    Ok(reported)
}
