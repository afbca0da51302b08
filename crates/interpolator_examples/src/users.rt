//! What a user writes: contexts and formats, without any proof.

mod amounts;
mod calls;
mod catalogue;
mod explained;
mod fallback;
mod files;
mod log;
mod log_file;
mod macros;
mod named;
mod order;
mod own_error;
mod owned_rows;
mod prepared;
mod record;
mod rows;
mod slots;
mod teams;

use crate::page::Page;
use crate::{cells, levels};
use interpolator::{
    Bits, ContextMap, Error, Formattable, Interpolate, Pairs, Spec, Template, TextBuffer, Trait,
    Value, View,
};
use std::alloc::Global;
use std::collections::HashMap;

/// A guest, as a row of a table.
#[derive(Clone, Copy)]
struct Guest<'a> {
    name: &'a str,
    city: &'a str,
}

/// A letter for each guest, with pairs and a template that was parsed once: this needs no map, and
/// no memory besides that of the text.
fn letters(
    alloc: Global,
    out: &mut TextBuffer,
    template: &Template,
    guests: &[Guest<'_>],
) -> Result<(), Error> {
    for guest in guests {
        Pairs(&[
            ("name", Formattable::display(&guest.name)),
            ("city", Formattable::display(&guest.city)),
        ])
        .write_template_to(alloc, out, template)?;
    }
    Ok(())
}

/// Pairs with values of several kinds, which are in one local array.
fn apples(alloc: Global, name: &str, apples: i32) -> Result<String, Error> {
    let values = [View::Text(name), View::from(apples)];
    Pairs(&[
        ("name", Formattable::debug_display(&values[0])),
        ("n", Formattable::integer(&values[1])),
    ])
    .format(alloc, "{name} has {{{n}}} apples")
}

/// Pairs that are known only when the program runs.
fn listed_names(alloc: Global, header: &str, row: &str, text: &str) -> Result<String, Error> {
    let fields = row.split(',').collect::<Vec<&str>>(alloc)?;
    let mut pairs = Vec::new(alloc);
    for (name, field) in header.split(',').zip(&fields) {
        pairs.push((name, Formattable::debug_display(field)))?;
    }
    Pairs(&pairs).format(alloc, text)
}

/// Values of two kinds, as views.
fn count(alloc: Global, name: &str, apples: i32) -> Result<String, Error> {
    let name = View::Text(name);
    let apples = View::Signed(i128::from(apples), Bits::B32);
    let mut context = HashMap::new(alloc);
    context.insert("name", Formattable::debug_display(&name))?;
    context.insert("n", Formattable::integer(&apples))?;
    context.format(alloc, "{name} has {{{n}}} apples")
}

/// Owned names, and owned texts as values.
fn owned(alloc: Global, name: &str, line: &String) -> Result<String, Error> {
    let mut context = HashMap::new(alloc);
    context.insert(String::from_str(alloc, name)?, Formattable::display(line))?;
    context.format(alloc, "> {line}")
}

/// A map that is built name by name; the items of the list borrow from one local array.
fn listed(alloc: Global, title: &str, low: i64, high: i64) -> Result<String, Error> {
    let values = [
        View::Text(title),
        View::Signed(i128::from(low), Bits::B64),
        View::Signed(i128::from(high), Bits::B64),
    ];
    let items = [
        Formattable::integer(&values[1]),
        Formattable::integer(&values[2]),
    ];
    let mut context = ContextMap::new(alloc);
    context.put("title", Formattable::display(&values[0]))?;
    context.put("low", Formattable::integer(&values[1]))?;
    context.put("all", Formattable::iter(&items).and_display(&values[2]))?;
    context.format(alloc, "{title}: {low} up to {all}")
}

/// A user's own type of values.
#[derive(Clone, Copy)]
struct Degrees {
    celsius: i32,
}

impl Value for Degrees {
    ghost use Rattle.interpolator.specs.Views.{signed_number};
    ghost use Rattle.interpolator.specs.declared.Bits.TheVariants.{B32};

    ghost shows = { λ degrees t spec. signed_number degrees.celsius B32 };

    fn view(&self, _t: Trait, _spec: &Spec) -> View<'_> {
        View::Signed(i128::from(self.celsius), Bits::B32)
    }
}

/// A line of a report, written to a writer: values from several locals are pushed to a vector.
fn line(
    alloc: Global,
    out: &mut TextBuffer,
    low: Degrees,
    high: Option<Degrees>,
) -> Result<(), Error> {
    let mut pairs = Vec::new(alloc);
    pairs.push(("low", Formattable::display(&low)))?;
    if let Some(high) = &high {
        pairs.push(("high", Formattable::display(high)))?;
    }
    Pairs(&pairs).write_to(alloc, out, "{low} to {high}\n")
}

/// Ann in Oslo, and Béla in Győr.
const GUESTS: [Guest<'static>; 2] = [
    Guest {
        name: "Ann",
        city: "Oslo",
    },
    Guest {
        name: "Béla",
        city: "Győr",
    },
];

/// A letter for each guest, by a format that is parsed once.
fn all_letters(alloc: Global, format: &str) -> Result<String, Error> {
    let template = Template::parse(alloc, format)?;
    let mut out = TextBuffer::new(alloc);
    letters(alloc, &mut out, &template, &GUESTS)?;
    Ok(out.into_string())
}

fn show_pairs(page: &mut Page) {
    let alloc = page.alloc;
    let letter = all_letters(alloc, "Hello {name}, how is {city}?\n");
    page.put_made("letters", letter);
    page.put_made("columns", all_letters(alloc, "{name:>6}|{city:.2}\n"));
    page.put_made("apples", apples(alloc, "Ann", -7));
    let listed = listed_names(alloc, "name,n,name", "Ann,7,Eve", "{n} {name}");
    page.put_made("listed_names", listed);
}

fn show_maps(page: &mut Page) -> Result<(), Error> {
    let alloc = page.alloc;
    page.put_made("count", count(alloc, "Ann", -7));
    let line = String::from_str(alloc, "é {line}")?;
    page.put_made("owned", owned(alloc, "line", &line));
    page.put_made("listed", listed(alloc, "numbers", 1, -5));
    Ok(())
}

/// A line that is whole, and one whose last name is missing.
fn show_lines(page: &mut Page) -> Result<(), Error> {
    let alloc = page.alloc;
    let mut out = TextBuffer::new(alloc);
    let low = Degrees { celsius: -4 };
    line(alloc, &mut out, low, Some(Degrees { celsius: 3 }))?;
    if let Err(error) = line(alloc, &mut out, low, None) {
        page.put_fault("no high", &error);
    }
    page.put("line", out.as_str());
    Ok(())
}

pub fn show(page: &mut Page) -> Result<(), Error> {
    show_pairs(page);
    show_maps(page)?;
    show_lines(page)?;
    calls::show(page)?;
    catalogue::show(page)?;
    cells::show(page)?;
    levels::show(page);
    log::show(page)?;
    named::show(page);
    macros::show(page);
    fallback::show(page);
    owned_rows::show(page);
    record::show(page)?;
    rows::show(page);
    slots::show(page);
    amounts::show(page);
    explained::show(page);
    files::show(page);
    log_file::show(page)?;
    order::show(page);
    own_error::show(page)?;
    prepared::show(page)?;
    teams::show(page);
    Ok(())
}
