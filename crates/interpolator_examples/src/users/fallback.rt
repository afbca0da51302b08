//! A context of two: a row, and what holds for all rows.

use crate::page::Page;
use interpolator::{Error, Interpolate, Or, Template, TextBuffer, first_if, values};
use std::alloc::Global;

/// The site's names, for those that a row does not have, by a template.
fn prices(alloc: Global, format: &str, rows: &[(&str, u32)]) -> Result<String, Error> {
    let template = Template::parse(alloc, format)?;
    let mut out = TextBuffer::new(alloc);
    let site = values!(n = 1u8, vat:? = 20u8);
    for (item, n) in rows {
        let row = values!(item = *item, n = *n);
        Or(&row, &site).write_template_to(alloc, &mut out, &template)?;
    }
    Ok(out.into_string())
}

/// A language that falls back on another, if its format does not fit the values.
fn translated(alloc: Global, german: &str, english: &str, n: u32) -> Result<String, Error> {
    let german = Template::parse(alloc, german)?;
    let english = Template::parse(alloc, english)?;
    let row = values!(n);
    let german_is_ok = row.check_template(alloc, &german).is_ok();
    row.format_template(alloc, first_if(german_is_ok, &german, &english))
}

pub fn show(page: &mut Page) {
    let alloc = page.alloc;
    let rows = [("tea", 7), ("bread", 12)];
    page.put_made("or", prices(alloc, "{item} {n} {vat:?};", &rows));
    page.put_made("or", prices(alloc, "{item} {town}", &rows));
    page.put_made("first_if", translated(alloc, "{n} Äpfel", "{n} apples", 3));
    page.put_made("first_if", translated(alloc, "{m} Äpfel", "{n} apples", 3));
}
