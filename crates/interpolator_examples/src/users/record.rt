//! A record that is a context: its fields are found by their names.
ghost use Rattle.std.specs.Prelude.{Some, None, if◌then◌else◌, codes};
ghost use Rattle.std.specs.Str.{bytes_eq, encode_utf8_all};
ghost use Rattle.interpolator.specs.Slots.{empty_slots, with_debug_display};

use crate::page::Page;
use interpolator::{Context, Error, Formattable, Interpolate, Template, View, is_name};
use std::alloc::Global;

/// A record to be logged.
#[derive(Clone, Copy)]
struct Entry<'a> {
    level: View<'a>,
    line: View<'a>,
}

impl<'a> Context for Entry<'a> {
    type Object = View<'a>;

    ghost finds = { λ entry name.
        if bytes_eq (encode_utf8_all name) (codes "level")
        then Some (with_debug_display empty_slots entry.level)
        else if bytes_eq (encode_utf8_all name) (codes "line")
        then Some (with_debug_display empty_slots entry.line)
        else None };

    fn get(&self, key: &str) -> Option<Formattable<'_, View<'a>>> {
        if is_name(key, "level") {
            Some(Formattable::debug_display(&self.level))
        } else if is_name(key, "line") {
            Some(Formattable::debug_display(&self.line))
        } else {
            None
        }
    }
}

impl<'a> Interpolate for Entry<'a> {}

/// A record, written by a layout that was parsed once.
fn logged(alloc: Global, level: &str, line: u32, layout: &Template) -> Result<String, Error> {
    let entry = Entry {
        level: View::from(level),
        line: View::from(line),
    };
    entry.format_template(alloc, layout)
}

/// Records; and names that no field has.
pub fn show(page: &mut Page) -> Result<(), Error> {
    let alloc = page.alloc;
    let layout = Template::parse(alloc, "[{level}] {line:>3}")?;
    for (level, line) in [("INFO", 7), ("WARN", 1234)] {
        page.put_made("record", logged(alloc, level, line, &layout));
    }
    for format in ["{Level}", "{leve}", "{}", "{line }"] {
        let layout = Template::parse(alloc, format)?;
        page.put_made(format, logged(alloc, "INFO", 7, &layout));
    }
    Ok(())
}
