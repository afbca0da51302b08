//! Named values as the sample and the row of a prepared format.

use crate::report::Report;
use interpolator::{Error, Template, values};
use std::alloc::Global;

const FORMAT: &str = "{name}: {n:>3}";

/// The text of the format, prepared for a text and a number.
fn prepared_text(alloc: Global) -> Result<String, Error> {
    let template = Template::parse(alloc, FORMAT)?;
    let line = template.prepare_named(alloc, &values!(name = "", n:integer = 0u8))?;
    line.format_named(alloc, &values!(name = "Zoë", n:integer = 7u8))
}

/// Checks the text, which is made again if it is refused memory.
pub fn run(report: &mut Report) {
    let made = again!(prepared_text(report.alloc));
    report.made(FORMAT, ("Zoë:   7", ""), made);
}
