//! Named values and values alone as rows of prepared formats, and faults as I/O errors: by hand.

use crate::report::Report;
use interpolator::{Error, Formattable, Prepared, Template, TextBuffer, Values, View, values};
use std::alloc::Global;
use std::io;

const FORMAT: &str = "{name}: {n:>3}{n:#x}";

const TEXT: &str = "Zoë:   70x7";

/// The format, prepared for a text and a number.
fn prepared(alloc: Global) -> Result<Prepared, Error> {
    let template = Template::parse(alloc, FORMAT)?;
    template.prepare_named(alloc, &values!(name = "", n:integer = 0u8))
}

/// Checks what is written with a row of named values.
fn is_written(report: &mut Report, line: &Prepared, row: &Values<'_>, wanted: (&str, &str)) {
    let alloc = report.alloc;
    let mut out = TextBuffer::new(alloc);
    let answer = line.write_named(alloc, &mut out, row);
    report.written(FORMAT, wanted, out.as_str(), answer);
}

/// Rows in the order of the sample, and in others: each name has its last value.
#[rattlefmt::skip]
fn named_values_are_found(report: &mut Report, line: &Prepared) {
    is_written(report, line, &values!(name = "Zoë", n:integer = 7u8), (TEXT, ""));
    is_written(report, line, &values!(n:integer = 7u8, name = "Zoë"), (TEXT, ""));
    is_written(report, line, &values!(more = 1u8, name = "Zoë", n:integer = 7u8), (TEXT, ""));
    is_written(report, line, &values!(n:integer = 1u8, name = "Zoë", n:integer = 7u8), (TEXT, ""));
    is_written(report, line, &values!(name = "Zoë"), ("Zoë: ", "MissingValue(\"n\", 9)"));
    is_written(report, line, &values!(n = 7u8), ("", "MissingValue(\"name\", 1)"));
    let no_hex = ("Zoë:   7", "MissingTraitImpl(LowerHex, 19)");
    is_written(report, line, &values!(name = "Zoë", n = 7u8), no_hex);
    is_written(report, line, &values!(), ("", "MissingValue(\"name\", 1)"));
}

/// Checks what is written with the first values of a row.
fn values_are_written(report: &mut Report, line: &Prepared) {
    let alloc = report.alloc;
    let cells = [View::Text("Zoë"), View::from(7u8), View::Text("more")];
    let rows = [
        (3usize, TEXT, ""),
        (2, TEXT, ""),
        (1, "Zoë: ", "MissingValue(\"n\", 9)"),
        (0, "", "MissingValue(\"name\", 1)"),
    ];
    for (len, text, fault) in rows {
        let (row, _) = cells.split_at(len.min(cells.len()));
        let mut out = TextBuffer::new(alloc);
        let answer = line.write_values(alloc, &mut out, row);
        report.written(FORMAT, (text, fault), out.as_str(), answer);
    }
}

/// The other calls with such rows, and a list among named values.
fn other_calls(report: &mut Report, line: &Prepared) -> Result<(), Error> {
    let alloc = report.alloc;
    let row = values!(name = "Zoë", n:integer = 7u8);
    report.made(FORMAT, (TEXT, ""), line.format_named(alloc, &row));
    let mut out = TextBuffer::new(alloc);
    let answer = line.write_named_line(alloc, &mut out, &row);
    report.written(FORMAT, ("Zoë:   70x7\n", ""), out.as_str(), answer);
    let numbers = [View::from(1u8), View::from(5u8)];
    let items = [
        Formattable::display(&numbers[0]),
        Formattable::display(&numbers[1]),
    ];
    let text = "{l:i({}{x})(, )}";
    let template = Template::parse(alloc, text)?;
    let listed = template.prepare_named(alloc, &values!(x = "", l:i = &items))?;
    let made = listed.format_named(alloc, &values!(x = "!", l:i = &items));
    report.made(text, ("1!, 5!", ""), made);
    let refused = template.prepare_named(alloc, &values!(l:i = &items));
    report.fault(text, "MissingValue(\"x\", 8)", refused);
    Ok(())
}

/// Checks the message of a fault as an I/O error.
fn is_reported(report: &mut Report, fault: Error, wanted: &str) -> Result<(), Error> {
    let error = io::Error::from(fault);
    let message = format!(in report.alloc; "{error}")?;
    report.text("an I/O error", wanted, message.as_str());
    Ok(())
}

/// A message has 80 bytes at most: of a longer one 77, or the whole characters in them, and dots.
fn faults_as_io_errors(report: &mut Report) -> Result<(), Error> {
    let alloc = report.alloc;
    let fault = Error::MissingValue(String::from_str(alloc, "nàme")?, 3);
    is_reported(report, fault, "specified value not in context `nàme` at 3")?;
    let long = "1234567890".repeat(alloc, 6)?;
    let cut = "specified value not in context `123456789012345678901234567890123456789012345...";
    is_reported(report, Error::MissingValue(long, 3), cut)?;
    let wide = "é".repeat(alloc, 30)?;
    let cut = "specified value not in context `éééééééééééééééééééééé...";
    is_reported(report, Error::MissingValue(wide, 3), cut)
}

pub fn run(report: &mut Report) -> Result<(), Error> {
    report.begin("named rows");
    let line = prepared(report.alloc)?;
    named_values_are_found(report, &line);
    values_are_written(report, &line);
    other_calls(report, &line)?;
    faults_as_io_errors(report)
}
