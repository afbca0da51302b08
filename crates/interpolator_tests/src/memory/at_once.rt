//! Memory that a text needs which is made escaped by one call: for the format, its pieces, the names
//! of an element and an attribute, the text, and the name of a missing value; and that of a record.

use crate::report::Report;
use interpolator::{Error, Escape, EscapeError, Interpolate, Template, Values, Why, values};
use std::alloc::Global;

/// An escape, a format, and the text or the fault, with `it's <b>` under `x`.
type Row = (Escape, &'static str, &'static str, &'static str);

/// Worked by hand from the tables of escapes.
#[rattlefmt::skip]
const MADE: [Row; 4] = [
    (Escape::Html, "<p title=\"{x}\">{x:.4}</p>", "<p title=\"it&#39;s &lt;b&gt;\">it&#39;s</p>", ""),
    (Escape::Shell, "echo '{x}'", "echo 'it'\\''s <b>'", ""),
    (Escape::Line, "{x}{missing}", "", "MissingValue(\"missing\", 4)"),
    (Escape::Html, "<b>{x}</b>{x", "", "Parse(FormatSpecUnclosed(11))"),
];

/// The answer of one call, which is made once more if it is refused memory.
fn made(
    alloc: Global,
    escape: Escape,
    format: &str,
    row: &Values<'_>,
) -> Result<String, EscapeError> {
    match row.format_escaped(alloc, escape, format) {
        Err(EscapeError::Fault(Error::NoMemory)) => row.format_escaped(alloc, escape, format),
        answer => answer,
    }
}

/// The text of a format of records; the empty text if it is none.
fn recorded(alloc: Global, format: &str, row: &Values<'_>) -> Result<String, Error> {
    let template = again!(Template::parse(alloc, format))?;
    match template.as_record() {
        Ok(record) => again!(record.format(alloc, row)),
        Err(_) => Ok(String::new(alloc)),
    }
}

pub fn run(report: &mut Report) {
    let alloc = report.alloc;
    let row = values!(x = "it's <b>");
    for (escape, format, text, fault) in MADE {
        match made(alloc, escape, format, &row) {
            Ok(answer) => report.made(format, (text, fault), Ok(answer)),
            Err(EscapeError::Fault(error)) => report.made(format, (text, fault), Err(error)),
            Err(EscapeError::Misplaced(_)) => report.holds(format, false),
        }
    }
    let format = "<span lang={x}>";
    match made(alloc, Escape::Html, format, &row) {
        Err(EscapeError::Misplaced(found)) => {
            report.holds(format, found.place == 11 && found.why == Why::Value);
        }
        _ => report.holds(format, false),
    }
    let row = values!(x:debug_display = "it's <b>");
    let format = "{x:?},\"{x:.4}\"\n";
    let answer = recorded(alloc, format, &row);
    report.made(format, ("\"it's <b>\",\"it's\"\n", ""), answer);
}
