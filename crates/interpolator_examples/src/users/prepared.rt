//! A format that is prepared for rows with the same names.

use crate::page::Page;
use interpolator::{Error, Prepared, Template, TextBuffer, values};
use std::alloc::Global;

/// A format that uses the names `item` and `count`, prepared for rows of a text and a number, in
/// this order.
fn prepared(alloc: Global, format: &str) -> Result<Prepared, Error> {
    let template = Template::parse(alloc, format)?;
    template.prepare_named(alloc, &values!(item = "bread", count:integer = 7u32))
}

/// A line for each row, all in one buffer, which is cleared between them.
fn put_lines(page: &mut Page, line: &Prepared, rows: &[(&str, u32)]) -> Result<(), Error> {
    let alloc = page.alloc;
    let mut out = TextBuffer::new(alloc);
    for (item, count) in rows {
        out.clear();
        line.write_named(
            alloc,
            &mut out,
            &values!(item = *item, count:integer = *count),
        )?;
        page.put("prepared", out.as_str());
    }
    Ok(())
}

/// The lines, and a format that uses a name which the rows do not have.
pub fn show(page: &mut Page) -> Result<(), Error> {
    let alloc = page.alloc;
    let line = prepared(alloc, "{count:>5} {item}")?;
    put_lines(page, &line, &[("bread", 7), ("crème", 1234)])?;
    if let Err(error) = prepared(alloc, "{count} {name}") {
        page.put_fault("not prepared", &error);
    }
    Ok(())
}
