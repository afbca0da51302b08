//! Nested lists, to a depth of 200.

use crate::given::{Given, write_given};
use crate::report::Report;
use interpolator::{Error, Formattable, Pairs, Template, TextBuffer};
use std::alloc::{AllocError, Global};

/// How deep the lists are nested; the text in front of each list's signs, and the innermost text;
/// the output; and the fault that is returned.
type Deep = (
    usize,
    &'static str,
    &'static str,
    &'static str,
    &'static str,
);

/// Worked by hand from the rules of lists and places in docs/DEFINITIONS.md. The group at depth n,
/// from 0 for the innermost up to 31, has n signs. So the text in front of the innermost one has
/// 32 * 4 + 31 * 16 = 624 characters, or with a width 32 * 5 + 31 * 16 = 656. At a depth of 200 it
/// has 200 * 4 + 199 * 100 = 20,700, or 200 * 5 + 199 * 100 = 20,900.
#[rattlefmt::skip]
const ROWS: [Deep; 7] = [
    (32, "{:i", "a{}b{z}", "a7b", "MissingValue(\"z\", 629)"),
    (32, "{:3i", "a{}b{z}", "", "MissingValue(\"z\", 661)"),
    (32, "{:3i", "{:>4}", "   7", ""),
    (200, "{:i", "{}", "7", ""),
    (200, "{:i", "{z}", "", "MissingValue(\"z\", 20701)"),
    (200, "{:3i", "{}", "7  ", ""),
    (200, "{:3i", "a{}b{z}", "", "MissingValue(\"z\", 20905)"),
];

/// Appends `count` signs.
fn put_signs(format: &mut String, count: usize) -> Result<(), AllocError> {
    for _ in 0..count {
        format.push('#')?;
    }
    Ok(())
}

/// The row's innermost text inside its groups, each group inside the next.
fn nested_format(alloc: Global, row: Deep) -> Result<String, AllocError> {
    let (depth, open, innermost, ..) = row;
    let mut format = String::new(alloc);
    for passed in 0..depth {
        format.push_str(open)?;
        put_signs(&mut format, depth - 1 - passed)?;
        format.push('(')?;
    }
    format.push_str(innermost)?;
    for signs in 0..depth {
        format.push(')')?;
        put_signs(&mut format, signs)?;
        format.push('}')?;
    }
    Ok(format)
}

/// Writes with a value under the empty name, wrapped in `depth` lists of one item each.
fn write_nested(
    alloc: Global,
    out: &mut TextBuffer,
    value: Formattable<'_, u64>,
    depth: usize,
    given: Given<'_>,
) -> Result<(), Error> {
    if depth == 0 {
        return write_given(alloc, out, given, &Pairs(&[("", value)]));
    }
    let items = [value];
    write_nested(alloc, out, Formattable::iter(&items), depth - 1, given)
}

/// Checks each row by its format and by the template of that format.
pub fn run(report: &mut Report) -> Result<(), Error> {
    report.begin("depth");
    for row in ROWS {
        gives(report, row)?;
    }
    Ok(())
}

fn gives(report: &mut Report, row: Deep) -> Result<(), Error> {
    let (depth, open, innermost, text, fault) = row;
    let alloc = report.alloc;
    let format = nested_format(alloc, row)?;
    let template = Template::parse(alloc, format.as_str())?;
    let what = format!(in alloc; "{innermost} in {depth} of {open}")?;
    report.number(what.as_str(), depth, template.depth());
    for given in [Given::Text(format.as_str()), Given::Template(&template)] {
        let mut out = TextBuffer::new(alloc);
        let value = Formattable::display(&7u64);
        let answer = write_nested(alloc, &mut out, value, depth, given);
        report.written(what.as_str(), (text, fault), out.as_str(), answer);
    }
    Ok(())
}
