//! Faults as values: their derived texts and their copies; and the names of filled slots.

use crate::report::Report;
use interpolator::{Error, Formattable, NumberError, ParseError, Trait};
use std::alloc::{AllocError, Global};
use std::fmt;

fn missing(alloc: Global, name: &str, place: usize) -> Result<Error, AllocError> {
    Ok(Error::MissingValue(String::from_str(alloc, name)?, place))
}

/// Faults of formats, and their derived texts: names of variants and fields in order, as std's
/// documentation of the derived `Debug` has it.
#[rattlefmt::skip]
const PARSES: [(ParseError, &str); 8] = [
    (ParseError::FormatSpecUnclosed(1), "FormatSpecUnclosed(1)"),
    (ParseError::Expected("}", 23), "Expected(\"}\", 23)"),
    (ParseError::InvalidWidth(NumberError::PosOverflow, 3), "InvalidWidth(PosOverflow, 3)"),
    (ParseError::InvalidWidth(NumberError::InvalidDigit, 3), "InvalidWidth(InvalidDigit, 3)"),
    (ParseError::InvalidPrecision(NumberError::Empty, 4), "InvalidPrecision(Empty, 4)"),
    (ParseError::Fill(3), "Fill(3)"),
    (ParseError::Iter(5), "Iter(5)"),
    (ParseError::RangeBound(NumberError::NegOverflow, 1001), "RangeBound(NegOverflow, 1001)"),
];

/// The other faults, and their derived texts.
#[rattlefmt::skip]
fn others(alloc: Global) -> Result<[(Error, &'static str); 7], AllocError> {
    Ok([
        (Error::MissingTraitImpl(Trait::Binary, 4), "MissingTraitImpl(Binary, 4)"),
        (Error::Fmt(fmt::Error, 3), "Fmt(Error, 3)"),
        (Error::Parse(ParseError::InvalidWidth(NumberError::InvalidDigit, 3)), "Parse(InvalidWidth(InvalidDigit, 3))"),
        (missing(alloc, "y ", 2)?, "MissingValue(\"y \", 2)"),
        (missing(alloc, "é", 18446744073709551615)?, "MissingValue(\"é\", 18446744073709551615)"),
        (Error::UnsupportedOption("p", "pointer", 3), "UnsupportedOption(\"p\", \"pointer\", 3)"),
        (Error::NoMemory, "NoMemory"),
    ])
}

/// Checks that `Debug` shows the value as this text.
fn debugs<D: fmt::Debug>(report: &mut Report, value: &D, text: &str) {
    let came = format!(in report.alloc; "{value:?}");
    report.made("debugged", (text, ""), came.map_err(Error::from));
}

/// Checks a copy of each of the other faults.
fn copies(report: &mut Report) -> Result<(), Error> {
    for (fault, text) in others(report.alloc)? {
        debugs(report, &fault, text);
        let copy = fault.try_clone(report.alloc)?;
        report.holds(text, copy == fault);
    }
    Ok(())
}

const INTEGER: &str =
    "Formattable(debug, display, binary, lower_exp, lower_hex, octal, upper_exp, upper_hex)";

const FLOAT: &str = "Formattable(debug, display, lower_exp, upper_exp, iter)";

/// The names of the filled slots, in the order of the rules of slots in docs/DEFINITIONS.md.
fn slots(report: &mut Report) {
    let none: [Formattable<'_, u64>; 0] = [];
    debugs(report, &Formattable::<u64>::default(), "Formattable");
    debugs(report, &Formattable::integer(&1u64), INTEGER);
    debugs(report, &Formattable::float(&1u64).and_iter(&none), FLOAT);
}

pub fn run(report: &mut Report) -> Result<(), Error> {
    report.begin("faults");
    for (fault, text) in PARSES {
        debugs(report, &fault, text);
    }
    slots(report);
    copies(report)
}
