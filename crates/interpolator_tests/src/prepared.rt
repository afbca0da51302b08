//! Formats prepared for rows: names at positions, joined text in little room, rows too short.

use crate::counting::Counting;
use crate::report::Report;
use interpolator::{Bounded, Error, Formattable, Pairs, Row, Template, View};

/// A format, how many values the row has, how many bytes the writer takes, what it contains in the
/// end, and the fault that is returned: by hand. The names are `x`, `y`, `x` and `l`, and it is the
/// last `x` that has the value; the row is 1, 7, `Ann`, and a list of 1 and 5.
#[rattlefmt::skip]
const ROWS: [(&str, usize, usize, &str, &str); 20] = [
    ("a{{b{x}}}c", 4, 99, "a{bAnn}c", ""),
    ("{y:>3}|{x:?}", 4, 99, "  7|\"Ann\"", ""),
    ("{y}{y:#x}{x}", 4, 99, "70x7Ann", ""),
    ("", 4, 0, "", ""),
    ("{{}}}{{", 4, 99, "{}}{", ""),
    ("{{}}}{{", 4, 3, "{}}", "Fmt(Error, 5)"),
    ("{{}}}{{", 4, 2, "{}", "Fmt(Error, 4)"),
    ("{{}}}{{", 4, 1, "{", "Fmt(Error, 2)"),
    ("{{}}}{{", 4, 0, "", "Fmt(Error, 0)"),
    ("é{{é{x}", 4, 3, "é{", "Fmt(Error, 4)"),
    ("é{{é{x}", 4, 4, "é{", "Fmt(Error, 4)"),
    ("é{{é{x}", 4, 2, "é", "Fmt(Error, 2)"),
    ("é{{é{x}", 4, 6, "é{éA", "Fmt(Error, 8)"),
    ("ab{y}cd", 4, 3, "ab7", "Fmt(Error, 5)"),
    ("ab{y}cd", 4, 4, "ab7c", "Fmt(Error, 6)"),
    ("<{l:i({})(, )}>", 4, 99, "<1, 5>", ""),
    ("{{{l:i(<{}{y}>)({x})}", 4, 99, "{<17>Ann<57>", ""),
    ("{y}{x}", 2, 99, "7", "MissingValue(\"x\", 4)"),
    ("{{{x}", 2, 99, "{", "MissingValue(\"x\", 3)"),
    ("{y}", 1, 99, "", "MissingValue(\"y\", 1)"),
];

fn rows_are_written(report: &mut Report) -> Result<(), Error> {
    let alloc = report.alloc;
    let numbers = [View::from(1u32), View::from(7i64), View::from(5u8)];
    let ann = View::Text("Ann");
    let items = [
        Formattable::display(&numbers[0]),
        Formattable::display(&numbers[2]),
    ];
    let values = [
        Formattable::integer(&numbers[0]),
        Formattable::integer(&numbers[1]),
        Formattable::debug_display(&ann),
        Formattable::iter(&items),
    ];
    let pairs = [
        ("x", values[0]),
        ("y", values[1]),
        ("x", values[2]),
        ("l", values[3]),
    ];
    for (format, len, room, text, fault) in ROWS {
        let template = Template::parse(alloc, format)?;
        let prepared = template.prepare(alloc, &Pairs(&pairs))?;
        let mut out = Bounded::new(alloc, room);
        let (row, _) = values.split_at(len.min(values.len()));
        let answer = prepared.write(alloc, &mut out, &Row(row));
        report.written(format, (text, fault), out.as_str(), answer);
    }
    Ok(())
}

/// By hand: text between two arguments is written by one call, although a format that is not
/// prepared is written brace by brace. So this shows that the prepared steps are run.
fn joined_text_is_one_call(report: &mut Report) -> Result<(), Error> {
    let alloc = report.alloc;
    let row = [Formattable::display(&7u64)];
    let pairs = [("x", row[0])];
    let template = Template::parse(alloc, "a{{b{x}}}c")?;
    let prepared = template.prepare(alloc, &Pairs(&pairs))?;
    let mut out = Counting::new(alloc);
    prepared.write(alloc, &mut out, &Row(&row))?;
    out.check(report, "a{b7}c", 3);
    Ok(())
}

pub fn run(report: &mut Report) -> Result<(), Error> {
    report.begin("prepared");
    rows_are_written(report)?;
    joined_text_is_one_call(report)
}
