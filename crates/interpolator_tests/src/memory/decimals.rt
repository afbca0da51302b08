//! Decimals take no memory: they are read, and written to a buffer that has room for them.

use crate::report::Report;
use interpolator::{Decimal, Error, Spec, TextBuffer, Trait, View, render};

/// More bytes than are written.
const ROOM: usize = 40;

/// Checks that the text is read as a decimal, and that this is written in 12 characters, with two
/// digits after the point.
fn is_written(report: &mut Report, out: &mut TextBuffer, text: &str) {
    let spec = Spec {
        width: Some(12),
        precision: Some(2),
        ..Spec::default()
    };
    let written = match Decimal::parse(text) {
        Ok(decimal) => render(out, View::from(decimal), Trait::Display, &spec).is_ok(),
        Err(_) => false,
    };
    report.holds(text, written);
}

pub fn run(report: &mut Report) -> Result<(), Error> {
    let alloc = report.alloc;
    let room = again!(String::with_capacity(alloc, ROOM).map_err(Error::from))?;
    let mut out = TextBuffer::from_string(room);
    is_written(report, &mut out, "-1234.565");
    is_written(report, &mut out, "7");
    report.text("decimals", "    -1234.56        7.00", out.as_str());
    Ok(())
}
