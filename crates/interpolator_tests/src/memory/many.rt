//! A format of many names, which are put into a map when it is prepared.

use crate::report::Report;
use interpolator::{Error, Formattable, Pairs, Row, Template};
use std::alloc::Global;

/// The names of the pairs, of which `a` is the first and the last.
#[rattlefmt::skip]
const NAMES: [&str; 39] = [
    "a", "b", "c", "d", "e", "f", "g", "h", "i", "j", "k", "l", "m", "n", "o", "p", "q", "r", "s", "t",
    "u", "v", "w", "x", "y", "z", "A", "B", "C", "D", "E", "F", "G", "H", "I", "J", "K", "L", "a",
];

/// Worked by hand: a name's value is its position, and the last of two counts.
#[rattlefmt::skip]
const ROWS: [(&str, &str, &str); 4] = [
    ("{b},{L:>3},{z:x}", "1, 37,19", ""),
    ("{a}{k}", "3810", ""),
    ("{a}{aa}", "", "MissingValue(\"aa\", 4)"),
    ("{b:?}", "1", ""),
];

/// The text of the format, prepared for a row in which each value is the position of its name.
fn prepared_text(alloc: Global, format: &str) -> Result<String, Error> {
    let values = (0..39).collect::<Vec<u64>>(alloc)?;
    let mut pairs = Vec::new(alloc);
    let mut row = Vec::new(alloc);
    for (name, value) in NAMES.iter().zip(&values) {
        pairs.push((*name, Formattable::integer(value)))?;
        row.push(Formattable::integer(value))?;
    }
    let template = Template::parse(alloc, format)?;
    template
        .prepare(alloc, &Pairs(&pairs))?
        .format(alloc, &Row(&row))
}

pub fn run(report: &mut Report) {
    for (format, text, fault) in ROWS {
        let made = again!(prepared_text(report.alloc, format));
        report.made(format, (text, fault), made);
    }
}
