//! A format or its template: what both write and return.

use crate::report::Report;
use interpolator::{Error, Interpolate, Template, TextBuffer, TextWrite};
use std::alloc::{AllocError, Global};

/// A format, or its template.
#[derive(Clone, Copy)]
pub enum Given<'a> {
    Text(&'a str),
    Template(&'a Template),
}

/// Writes it with the context.
pub fn write_given<W: TextWrite, C: Interpolate>(
    alloc: Global,
    out: &mut W,
    given: Given<'_>,
    context: &C,
) -> Result<(), Error> {
    match given {
        Given::Text(format) => context.write_to(alloc, out, format),
        Given::Template(template) => context.write_template_to(alloc, out, template),
    }
}

/// Its text with the context.
pub fn format_given<C: Interpolate>(
    alloc: Global,
    given: Given<'_>,
    context: &C,
) -> Result<String, Error> {
    match given {
        Given::Text(format) => context.format(alloc, format),
        Given::Template(template) => context.format_template(alloc, template),
    }
}

/// Checks that the format and its template both write and return this text or, in place of what is
/// returned, this fault.
pub fn gives<C: Interpolate>(
    report: &mut Report,
    context: &C,
    format: &str,
    wanted: (&str, &str),
) -> Result<(), Error> {
    let alloc = report.alloc;
    let template = Template::parse(alloc, format)?;
    for given in [Given::Text(format), Given::Template(&template)] {
        let mut out = TextBuffer::new(alloc);
        let answer = write_given(alloc, &mut out, given, context);
        report.written(format, wanted, out.as_str(), answer);
        report.made(format, wanted, format_given(alloc, given, context));
    }
    Ok(())
}

/// A text that is padded: what is in front, a part, how often the part is repeated, and the end.
pub type Padded<'a> = (&'a str, &'a str, usize, &'a str);

/// The padded text.
pub fn padded(alloc: Global, parts: Padded<'_>) -> Result<String, AllocError> {
    let (front, part, count, end) = parts;
    let middle = part.repeat(alloc, count)?;
    format!(in alloc; "{front}{middle}{end}")
}
