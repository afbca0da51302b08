//! Faults as a compiler shows them, lines and columns, and which argument a place belongs to.

use crate::given::padded;
use crate::report::Report;
use interpolator::{
    Error, ParseError, Position, Source, Template, Trait, explain, explain_in, explain_with_names,
};
use std::alloc::{AllocError, Global};
use std::fmt;

/// A place, its line and its column in the text `a\né{x}\n\nb`, by hand.
#[rattlefmt::skip]
const POSITIONS: [(usize, usize, usize); 9] = [
    (0, 1, 1), (1, 1, 2), (2, 2, 1), (3, 2, 2), (4, 2, 2), (6, 2, 4), (8, 3, 1), (9, 4, 1),
    (99, 4, 2),
];

fn lines_and_columns(report: &mut Report) {
    for (place, line, column) in POSITIONS {
        let position = Position::of("a\né{x}\n\nb", place);
        report.number("the line", line, position.line);
        report.number("the column", column, position.column);
    }
}

/// A place and the argument that it belongs to in the text `{a:i({:?})} {b} {c:y`, by hand.
#[rattlefmt::skip]
const ARGUMENTS: [(usize, Option<(usize, usize)>); 9] = [
    (0, None), (1, Some((0, 11))), (5, Some((0, 11))), (6, Some((5, 9))), (8, Some((5, 9))),
    (9, Some((0, 11))), (11, None), (20, Some((16, 20))), (21, None),
];

fn arguments_at_places(report: &mut Report) -> Result<(), Error> {
    let template = Template::parse(report.alloc, "{a:i({:?})} {b} {c:y")?;
    for (place, argument) in ARGUMENTS {
        report.holds("the argument", template.argument_at(place) == argument);
    }
    Ok(())
}

/// Checks that the fault of a text is shown in this way.
fn check_shown(report: &mut Report, text: &str, error: &Error, wanted: &str) {
    let reported = explain(report.alloc, "f", text, error);
    report.made(text, (wanted, ""), reported);
}

/// Texts, their faults, and how these are shown. Worked by hand: `é` has two bytes, and in its text
/// it is on the second line.
#[rattlefmt::skip]
fn shown(alloc: Global) -> Result<[(&'static str, Error, &'static str); 7], AllocError> {
    Ok([
        ("{a:i({:?})}", Error::MissingTraitImpl(Trait::Debug, 8),
            "f:1:9: trait `Debug` not implemented, used by format argument at 8\n  |\n1 | {a:i({:?})}\n  |      ~~~^"),
        ("a\tb", Error::Fmt(fmt::Error, 2),
            "f:1:3: error while formatting at 2: an error occurred when formatting an argument\n  |\n1 | a\tb\n  |  \t^"),
        ("ab\r\nc", Error::Fmt(fmt::Error, 3),
            "f:1:4: error while formatting at 3: an error occurred when formatting an argument\n  |\n1 | ab \n  |    ^"),
        ("{a:\t>5y}", Error::Parse(ParseError::Expected("}", 6)),
            "f:1:7: error while parsing input: Expected `}` at 6\n  |\n1 | {a:\t>5y}\n  | ~~~\t~~^~"),
        ("{a:\n>5y}", Error::Parse(ParseError::Expected("}", 6)),
            "f:2:3: error while parsing input: Expected `}` at 6\n  |\n2 | >5y}\n  | ~~^~"),
        ("x", Error::NoMemory, "f: out of memory"),
        ("x\né{q}\n", Error::MissingValue(String::from_str(alloc, "q")?, 5),
            "f:2:3: specified value not in context `q` at 5\n  |\n2 | é{q}\n  |  ~^~"),
    ])
}

/// Worked by hand.
fn line_of_a_file(report: &mut Report) {
    let source = Source {
        name: "messages.txt",
        first_line: 13,
        text: "greeting = Hello {name, you",
        start: 11,
        format: "Hello {name, you",
    };
    let error = Error::Parse(ParseError::FormatSpecUnclosed(7));
    let reported = explain_in(report.alloc, &source, &error);
    let wanted = "messages.txt:13:19: error while parsing input: Format spec at 7 is nether closed \
                  with a `}` (byte 7 of the format)\n   |\n13 | greeting = Hello {name, you\n   \
                  |                  ~^~~~~~~~~";
    report.made("a line of a file", (wanted, ""), reported);
}

/// Of 132 characters the first 71 are left out: 60 are shown before the one at the place.
fn long_line(report: &mut Report) -> Result<(), Error> {
    let alloc = report.alloc;
    let text = padded(alloc, ("", "a", 130, "{x"))?;
    let shown = "a".repeat(alloc, 59)?;
    let spaces = " ".repeat(alloc, 59)?;
    let wanted = format!(in alloc;
        "f:1:132: error while parsing input: Format spec at 131 is nether closed with a `}}`\n  |\n\
         1 | ..{shown}{{x\n  |   {spaces}~^"
    )?;
    let error = Error::Parse(ParseError::FormatSpecUnclosed(131));
    check_shown(report, text.as_str(), &error, wanted.as_str());
    Ok(())
}

/// A missing name, the names that there are, and the line that lists them, by hand.
#[rattlefmt::skip]
const NAMES: [(&str, &[&str], &str); 10] = [
    ("nme", &["n", "name", "nm"], "\n  = did you mean `name`? names: `n`, `name`, `nm`"),
    ("naame", &["name"], "\n  = did you mean `name`? names: `name`"),
    ("näme", &["name"], "\n  = did you mean `name`? names: `name`"),
    ("anme", &["name"], "\n  = did you mean `name`? names: `name`"),
    ("é", &["", "e"], "\n  = did you mean ``? names: ``, `e`"),
    ("nmae", &["naem", "nam", "n"], "\n  = names: `naem`, `nam`, `n`"),
    ("nme", &["nme"], "\n  = names: `nme`"),
    ("nme", &["nme", "name"], "\n  = did you mean `name`? names: `nme`, `name`"),
    ("city", &["name"], "\n  = names: `name`"),
    ("name", &[], ""),
];

fn names_are_reported(report: &mut Report) -> Result<(), Error> {
    let alloc = report.alloc;
    let source = Source {
        name: "f",
        first_line: 1,
        text: "{q}",
        start: 0,
        format: "{q}",
    };
    for (missing, names, line) in NAMES {
        let error = Error::MissingValue(String::from_str(alloc, missing)?, 1);
        let wanted = format!(in alloc;
            "f:1:2: specified value not in context `{missing}` at 1\n  |\n1 | {{q}}\n  | ~^~{line}"
        )?;
        let reported = explain_with_names(alloc, &source, &error, names);
        report.made(missing, (wanted.as_str(), ""), reported);
    }
    let reported = explain_with_names(alloc, &source, &Error::NoMemory, &["name"]);
    report.made("no name is missing", ("f: out of memory", ""), reported);
    Ok(())
}

pub fn run(report: &mut Report) -> Result<(), Error> {
    report.begin("explained");
    lines_and_columns(report);
    arguments_at_places(report)?;
    for (text, error, wanted) in shown(report.alloc)? {
        check_shown(report, text, &error, wanted);
    }
    line_of_a_file(report);
    names_are_reported(report)?;
    long_line(report)
}
