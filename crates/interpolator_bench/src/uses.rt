//! Uses of a format, again and again.

use crate::failure::Failure;
use interpolator::{
    ContextMap, Error, Interpolate, Pairs, Prepared, Row, Template, TextBuffer, Value,
};
use std::alloc::Global;

/// How a format is used.
#[derive(Clone, Copy)]
pub enum How {
    /// By `format`, each time as a new text.
    Format,
    /// By `write_to`, into a buffer that keeps its room.
    Write,
    /// By a template that was parsed once, into a buffer that keeps its room.
    Template,
    /// Prepared once for rows of the context's values, into a buffer that keeps its room.
    Prepared,
    /// Parsed into a template each time, and not written.
    Parse,
    /// Prepared each time from a template that was parsed once, and not written.
    Prepare,
}

/// Uses a format `repeats` times. Returns the last text, or the format itself if it is not written.
pub fn repeat_format<V: Value>(
    alloc: Global,
    how: How,
    format: &str,
    pairs: &Pairs<'_, V>,
    repeats: u32,
) -> Result<String, Failure> {
    match how {
        How::Format => repeat_new(alloc, format, pairs, repeats),
        How::Write => repeat_write(alloc, format, pairs, repeats),
        How::Template => repeat_template(alloc, format, pairs, repeats),
        How::Prepared => repeat_prepared(alloc, format, pairs, repeats),
        How::Parse => repeat_parse(alloc, format, repeats),
        How::Prepare => repeat_prepare(alloc, format, pairs, repeats),
    }
}

/// Uses a format `repeats` times over a map of the pairs, which is made once.
pub fn repeat_in_map<V: Value>(
    alloc: Global,
    how: How,
    format: &str,
    pairs: &Pairs<'_, V>,
    repeats: u32,
) -> Result<String, Failure> {
    let mut map = ContextMap::new(alloc);
    for (name, value) in pairs.0 {
        map.put(name, *value)?;
    }
    match how {
        How::Format => repeat_new(alloc, format, &map, repeats),
        How::Write => repeat_write(alloc, format, &map, repeats),
        How::Template => repeat_template(alloc, format, &map, repeats),
        _ => repeat_format(alloc, how, format, pairs, repeats),
    }
}

// Formats each time into a new text.
fn repeat_new<C: Interpolate>(
    alloc: Global,
    format: &str,
    context: &C,
    repeats: u32,
) -> Result<String, Failure> {
    let mut text = String::new(alloc);
    for _ in 0..repeats {
        text = context.format(alloc, format)?;
    }
    Ok(text)
}

// Writes the format anew in the same buffer.
fn repeat_write<C: Interpolate>(
    alloc: Global,
    format: &str,
    context: &C,
    repeats: u32,
) -> Result<String, Failure> {
    let mut out = TextBuffer::new(alloc);
    for _ in 0..repeats {
        out.clear();
        context.write_to(alloc, &mut out, format)?;
    }
    Ok(out.into_string())
}

// Writes the template anew in the same buffer.
fn repeat_template<C: Interpolate>(
    alloc: Global,
    format: &str,
    context: &C,
    repeats: u32,
) -> Result<String, Failure> {
    let template = Template::parse(alloc, format)?;
    let mut out = TextBuffer::new(alloc);
    for _ in 0..repeats {
        out.clear();
        context.write_template_to(alloc, &mut out, &template)?;
    }
    Ok(out.into_string())
}

// Parses the format into a new template each time.
fn repeat_parse(alloc: Global, format: &str, repeats: u32) -> Result<String, Failure> {
    let mut last = None;
    for _ in 0..repeats {
        last = Some(Template::parse(alloc, format)?);
    }
    match &last {
        Some(template) => Ok(String::from_str(alloc, template.text())?),
        None => Ok(String::new(alloc)),
    }
}

// Prepares a template of the format anew each time.
fn repeat_prepare<V: Value>(
    alloc: Global,
    format: &str,
    pairs: &Pairs<'_, V>,
    repeats: u32,
) -> Result<String, Failure> {
    let template = Template::parse(alloc, format)?;
    let mut last = None;
    for _ in 0..repeats {
        last = Some(template.prepare(alloc, pairs)?);
    }
    match &last {
        Some(prepared) => Ok(String::from_str(alloc, prepared.text())?),
        None => Ok(String::new(alloc)),
    }
}

// Prepares the format, and writes it anew in the same buffer with the row of the values.
fn repeat_prepared<V: Value>(
    alloc: Global,
    format: &str,
    pairs: &Pairs<'_, V>,
    repeats: u32,
) -> Result<String, Failure> {
    let prepared = Template::parse(alloc, format)?.prepare(alloc, pairs)?;
    let mut row = Vec::new(alloc);
    for (_, value) in pairs.0 {
        row.push(*value)?;
    }
    repeat_row(alloc, &prepared, &Row(&row), repeats)
}

// Writes a row anew in the same buffer.
fn repeat_row<V: Value>(
    alloc: Global,
    prepared: &Prepared,
    row: &Row<'_, V>,
    repeats: u32,
) -> Result<String, Failure> {
    let mut out = TextBuffer::new(alloc);
    for _ in 0..repeats {
        out.clear();
        put_row(alloc, &mut out, prepared, row)?;
    }
    Ok(out.into_string())
}

// Appends the output of the prepared format with a row.
fn put_row<V: Value>(
    alloc: Global,
    out: &mut TextBuffer,
    prepared: &Prepared,
    row: &Row<'_, V>,
) -> Result<(), Error> {
    prepared.write(alloc, out, row)?;
    Ok(())
}
