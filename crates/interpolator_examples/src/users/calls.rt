//! Calls as README and the doc comments show them.

use crate::page::Page;
use interpolator::{
    ContextMap, Error, Formattable, Interpolate, Pairs, Refusal, Template, TextBuffer, TextWrite,
    View, write_parts,
};
use std::alloc::Global;
use std::collections::HashMap;

/// A map, and pairs: what someone who knows the Rust crate writes.
fn from_the_crate(alloc: Global, n: u32) -> Result<String, Error> {
    let mut map = HashMap::new(alloc);
    map.insert("n", Formattable::integer(&n))?;
    let text = map.format(alloc, "{n:>5}")?;
    let mut out = TextBuffer::from_string(text);
    map.write_to(alloc, &mut out, "{n}")?;
    Pairs(&[("n", Formattable::integer(&n))]).write_to(alloc, &mut out, " {n:#x}")?;
    Ok(out.into_string())
}

/// An owned text is a value as it is, or as a view.
fn of_an_owned_text(alloc: Global, text: &String) -> Result<String, Error> {
    let view = View::from(text);
    let first = Pairs(&[("t", Formattable::display(text))]).format(alloc, "{t}")?;
    let mut out = TextBuffer::from_string(first);
    Pairs(&[("t", Formattable::debug_display(&view))]).write_to(alloc, &mut out, "{t:?}")?;
    Ok(out.into_string())
}

/// The text of a fault, of which the program keeps a copy.
fn fault_of(alloc: Global, format: &str) -> Result<String, Error> {
    let n = 7u64;
    match Pairs(&[("n", Formattable::display(&n))]).format(alloc, format) {
        Ok(text) => Ok(text),
        Err(error) => {
            let copy = error.try_clone(alloc)?;
            Ok(format!(in alloc; "{copy}")?)
        }
    }
}

/// Writes by each method of a context, and in parts.
fn write_all(
    alloc: Global,
    out: &mut TextBuffer,
    context: Pairs<'_, u64>,
    template: &Template,
) -> Result<(), Error> {
    context.write_to(alloc, out, "{n};")?;
    context.write_line_to(alloc, out, "{n}")?;
    write_parts(alloc, out, &["{n}", "-{n}"], &context)?;
    context.write_template_to(alloc, out, template)
}

/// What they write.
fn by_methods(alloc: Global) -> Result<String, Error> {
    let context = Pairs(&[("n", Formattable::display(&7u64))]);
    let template = Template::parse(alloc, "{n:>3}")?;
    let mut out = TextBuffer::new(alloc);
    write_all(alloc, &mut out, context, &template)?;
    Ok(out.into_string())
}

/// Fills two slots under one name, one after the other.
fn of_two_slots(alloc: Global) -> Result<String, Error> {
    let n = 7u64;
    let mut map = ContextMap::new(alloc);
    map.entry("n")?.set_display(&n);
    map.entry("n")?.set_binary(&n);
    map.format(alloc, "{n} {n:b}")
}

/// Writes to a writer, and makes it reserve room.
fn written(out: &mut TextBuffer) -> Result<(), Refusal> {
    out.write_str("né")?;
    out.write_char('!')?;
    out.reserve(100)
}

/// The calls of a writer.
fn by_a_writer(alloc: Global) -> Result<String, Error> {
    let mut out = TextBuffer::new(alloc);
    let is_written = written(&mut out).is_ok();
    let refused = out.refused();
    let is_endless = out.room().is_none();
    let text = out.into_string();
    Ok(format!(in alloc; "{text} {is_written} {refused} {is_endless}")?)
}

pub fn show(page: &mut Page) -> Result<(), Error> {
    let alloc = page.alloc;
    page.put_made("from_the_crate", from_the_crate(alloc, 255));
    let text = String::from_str(alloc, "é")?;
    page.put_made("of_an_owned_text", of_an_owned_text(alloc, &text));
    page.put_made("fault_of", fault_of(alloc, "{q}"));
    page.put_made("by_methods", by_methods(alloc));
    page.put_made("of_two_slots", of_two_slots(alloc));
    page.put_made("by_a_writer", by_a_writer(alloc));
    Ok(())
}
