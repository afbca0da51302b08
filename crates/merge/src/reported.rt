//! Why letters are missing, in lines.

use crate::columns::{columns_of, names_of};
use crate::files::{FileFault, NameFault, Unnamed};
use crate::table::{LineFault, Trouble};
use crate::templates::{Fault, Unfit};
use interpolator::{Error, Escape, explain_with_names, places_of};
use records::{Faults, Field, ReadError, Reader, Separator};
use std::alloc::{AllocError, Global};
use words::formats::{reported_at, source_of};

/// The files of a command line, and their texts.
#[derive(Clone, Copy)]
pub struct Files<'a> {
    pub template_name: &'a str,
    pub template: &'a str,
    pub other_name: &'a str,
    pub other: &'a str,
    /// The column whose empty fields choose the other template.
    pub column: Option<&'a str>,
    pub table_name: &'a str,
    pub table: &'a str,
    pub separator: Separator,
    pub is_partial: bool,
    /// How values are escaped, if they are.
    pub escape: Option<Escape>,
}

/// Fills in the fields of the header; none, if it has a fault. Returns the line in which it begins.
fn header_line<'a>(
    alloc: Global,
    files: Files<'a>,
    fields: &mut Vec<Field<'a>>,
) -> Result<usize, Error> {
    match Reader::new(files.table, files.separator).next_record(alloc, fields) {
        Ok(line) => Ok(line.unwrap_or(1)),
        Err(ReadError::Fault(_)) => Ok(1),
        Err(ReadError::NoMemory) => Err(Error::NoMemory),
    }
}

/// Tells the fault of a line, in a table whose header has `wanted` names.
fn tell_line(faults: &mut Faults<'_>, fault: LineFault, wanted: usize) -> Result<(), AllocError> {
    let line = fault.line;
    let header = faults.header;
    match fault.trouble {
        Trouble::Broken(broken) => faults.add(broken),
        Trouble::Empty => faults.add(" the table is empty: it has no names"),
        Trouble::Fields(count) => {
            let noun = if count == 1 { "field" } else { "fields" };
            faults.add(format_args!("{line}: {count} {noun}, but line {header} has {wanted}"))
        }
        Trouble::Twice(column) => faults.add(format_args!(
            "{header}: column {column} has the name of an earlier column"
        )),
        Trouble::NotNumber(column) => faults.add(format_args!(
            "{line}: column {column} wants a number, such as -7 or 12.50"
        )),
    }
}

/// The faults of a table, a line for each.
fn reported_lines(alloc: Global, files: Files<'_>, found: &[LineFault]) -> Result<String, Error> {
    let mut fields = Vec::new(alloc);
    let mut faults = Faults::new(alloc, files.table_name);
    faults.header = header_line(alloc, files, &mut fields)?;
    for fault in found {
        tell_line(&mut faults, *fault, fields.len())?;
    }
    Ok(faults.into_text())
}

/// The faults of a template, each shown in its line, and the names below it if one is missing.
fn reported_template(
    alloc: Global,
    files: Files<'_>,
    name: &str,
    text: &str,
    faults: &[Error],
) -> Result<String, Error> {
    let mut fields = Vec::new(alloc);
    header_line(alloc, files, &mut fields)?;
    let columns = columns_of(alloc, fields.as_slice())?;
    let names = names_of(alloc, columns.as_slice())?;
    let source = source_of(name, text);
    let mut reported = String::new(alloc);
    for fault in faults {
        let picture = explain_with_names(alloc, &source, fault, names.as_slice())?;
        reported.push_str(picture.as_str())?;
        reported.push('\n')?;
    }
    Ok(reported)
}

/// What a value of an escape stands in.
fn place_words(escape: Escape) -> &'static str {
    match escape {
        Escape::Line => "a line",
        Escape::Html => "an attribute",
        Escape::Csv => "a field",
        Escape::Json => "a string",
        Escape::Shell => "quotes",
    }
}

/// Where a value of an escape may stand.
fn all_places_of(escape: Escape) -> &'static str {
    match escape {
        Escape::Csv => "between double quotes, or under `?` as a whole field",
        _ => places_of(escape),
    }
}

/// Why a template is not fit for an escape, shown in its line.
fn reported_unfit(
    alloc: Global,
    escape: Escape,
    name: &str,
    text: &str,
    unfit: Unfit,
) -> Result<String, Error> {
    let source = source_of(name, text);
    match unfit {
        Unfit::Misplaced(misplaced) => {
            let places = all_places_of(escape);
            let why = format!(in alloc; "{}; a value may stand {places}", misplaced.why)?;
            reported_at(alloc, &source, misplaced.place, why.as_str())
        }
        Unfit::EndsInPlace => {
            let place = place_words(escape);
            let why = format!(in alloc;
                "this template ends in {place}, and the next letter would begin there"
            )?;
            reported_at(alloc, &source, text.len(), why.as_str())
        }
        Unfit::EndsElsewhere => reported_at(
            alloc,
            &source,
            text.len(),
            "this template ends elsewhere than it began, and the next letter would begin there",
        ),
    }
}

/// The same of one of the files.
fn reported_place(
    alloc: Global,
    files: Files<'_>,
    name: &str,
    text: &str,
    unfit: Unfit,
) -> Result<String, Error> {
    match files.escape {
        Some(escape) => reported_unfit(alloc, escape, name, text, unfit),
        None => Ok(String::new(alloc)),
    }
}

/// Why letters are missing: faults of a template, or of the table.
pub fn reported(alloc: Global, files: Files<'_>, fault: &Fault) -> Result<String, Error> {
    match fault {
        Fault::Template(faults) => {
            reported_template(alloc, files, files.template_name, files.template, faults)
        }
        Fault::Other(faults) => reported_template(
            alloc,
            files,
            files.other_name,
            files.other,
            faults,
        ),
        Fault::Unfit(unfit) => {
            reported_place(alloc, files, files.template_name, files.template, *unfit)
        }
        Fault::OtherUnfit(unfit) => {
            reported_place(alloc, files, files.other_name, files.other, *unfit)
        }
        Fault::Table(faults) => reported_lines(alloc, files, faults.as_slice()),
        Fault::NoColumn => {
            let line = header_line(alloc, files, &mut Vec::new(alloc))?;
            let table = files.table_name;
            let name = files.column.unwrap_or("");
            Ok(format!(in alloc; "{table}:{line}: no column has the name `{name}`\n")?)
        }
        Fault::Stopped => Err(Error::NoMemory),
    }
}

/// Tells why a record gives no name of a file.
fn tell_name(faults: &mut Faults<'_>, fault: &NameFault) -> Result<(), AllocError> {
    let line = fault.line;
    let name = fault.name.as_str();
    match fault.why {
        Unnamed::Slash => faults.add(format_args!("{line}: `{name}`: a value has a `/`")),
        Unnamed::Part => faults.add(format_args!("{line}: `{name}` is no name of a file")),
        Unnamed::Twice(before) => faults.add(format_args!(
            "{line}: `{name}` is the file of line {before}"
        )),
    }
}

/// Why files are missing; of one that could not be written, its name and why.
pub fn reported_files(
    alloc: Global,
    files: Files<'_>,
    pattern: &str,
    fault: &FileFault,
) -> Result<String, Error> {
    match fault {
        FileFault::Letters(fault) => reported(alloc, files, fault),
        FileFault::Pattern(faults) => reported_template(alloc, files, "--out", pattern, faults),
        FileFault::Names(found) => {
            let mut faults = Faults::new(alloc, files.table_name);
            for fault in found {
                tell_name(&mut faults, fault)?;
            }
            Ok(faults.into_text())
        }
        FileFault::Refused(name, error) => Ok(format!(in alloc; "{name}: {error}\n")?),
    }
}
