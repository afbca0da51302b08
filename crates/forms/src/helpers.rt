//! Helpers over any context, and functions that are passed on.

use interpolator::{Error, Interpolate, Template, TextBuffer, TextWrite, Values, values};
use std::alloc::{AllocError, Global};

/// Writes a line for each row, of any kind of context that names at most one lifetime.
fn write_all<W: TextWrite, C: Interpolate>(
    alloc: Global,
    out: &mut W,
    rows: &[C],
    template: &Template,
) -> Result<(), Error> {
    for row in rows {
        row.write_template_line_to(alloc, out, template)?;
    }
    Ok(())
}

/// A line for each row of a table of people.
fn of_values(alloc: Global) -> Result<String, Error> {
    let template = Template::parse(alloc, "{name} is {age}")?;
    let rows = [
        values!(name = "Ann", age = 30u8),
        values!(name = "Bob", age = 7u8),
    ];
    let mut out = TextBuffer::new(alloc);
    write_all(alloc, &mut out, &rows, &template)?;
    Ok(out.into_string())
}

/// Rows in a vector, whose number is known only when the program runs.
fn of_vec(alloc: Global, text: &str) -> Result<String, Error> {
    let template = Template::parse(alloc, "{name}: {n}")?;
    let mut rows: Vec<Values<'_>> = Vec::new(alloc);
    for (n, name) in text.split(',').enumerate() {
        rows.push(values!(name, n))?;
    }
    let mut out = TextBuffer::new(alloc);
    write_all(alloc, &mut out, &rows, &template)?;
    Ok(out.into_string())
}

/// What a passed function makes of each name, one after the other. It takes any error, since a
/// passed function cannot return an `Error` by name; the clause says that it may be called.
fn each<E: From<AllocError> + Drop, F: Fn(&str) -> Result<String, E>>(
    alloc: Global,
    names: &[&str],
    show: F,
) -> Result<String, E>
    requires { F.IsAlwaysCallable show }
{
    let mut all = String::new(alloc);
    for name in names {
        let text = show(*name)?;
        all.push_str(text.as_str())?;
    }
    Ok(all)
}

/// A closure that formats.
fn of_closure(alloc: Global) -> Result<String, Error> {
    let template = Template::parse(alloc, "<{name}>\n")?;
    each(alloc, &["Ann", "Bob"], |name| {
        values!(name).format_template(alloc, &template)
    })
}

/// What helpers make.
pub fn shown(alloc: Global) -> Result<String, Error> {
    let mut text = String::new(alloc);
    for made in [
        of_values(alloc)?,
        of_vec(alloc, "Ann,Bob")?,
        of_closure(alloc)?,
    ] {
        text.push_str(made.as_str())?;
    }
    Ok(text)
}
