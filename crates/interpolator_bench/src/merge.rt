//! A letter for each of many records, with a new context for each.
//!
//! To add a merge by another kind of context, add a variant of `Kind`; the records are the same.

use crate::failure::Failure;
use interpolator::{Error, Formattable, Interpolate, Pairs, Prepared, Template, TextBuffer, View};
use std::alloc::Global;
use std::collections::HashMap;

const RECORDS: u32 = 10_000;

const LETTER: &str = "Dear {name} of {city}, your {count} {goods} are order {order}.\n";

const NAMES: [&str; 5] = ["Ann", "Bob", "Carla", "Dmitri", "Eve"];

const CITIES: [&str; 3] = ["Oslo", "Lima", "Kyoto"];

const GOODS: [&str; 4] = ["loaves", "rolls", "cakes", "pies"];

/// What one letter is about.
#[derive(Clone, Copy)]
struct Record {
    name: &'static str,
    city: &'static str,
    goods: &'static str,
    count: u32,
    order: u32,
}

/// The kind of context that each letter gets.
#[derive(Clone, Copy)]
pub enum Kind {
    HashMap,
    Pairs,
}

/// The letters of all records, by `write_to`.
pub fn by_text(alloc: Global, kind: Kind, repeats: u32) -> Result<String, Failure> {
    repeat_letters(alloc, kind, None, repeats)
}

/// The letters of all records, by a template that was parsed once.
pub fn by_template(alloc: Global, kind: Kind, repeats: u32) -> Result<String, Failure> {
    let letter = Template::parse(alloc, LETTER)?;
    repeat_letters(alloc, kind, Some(&letter), repeats)
}

// Writes all letters anew in the same buffer, `repeats` times, by the template if there is one.
// Returns the last text.
fn repeat_letters(
    alloc: Global,
    kind: Kind,
    letter: Option<&Template>,
    repeats: u32,
) -> Result<String, Failure> {
    let mut text = String::new(alloc);
    for _ in 0..repeats {
        text.clear();
        text = put_letters(alloc, text, kind, letter)?;
    }
    Ok(text)
}

// Appends the letters of all records.
fn put_letters(
    alloc: Global,
    text: String,
    kind: Kind,
    letter: Option<&Template>,
) -> Result<String, Error> {
    let mut out = TextBuffer::from_string(text);
    for order in 0..RECORDS {
        let record = record_of(order);
        match kind {
            Kind::HashMap => put_by_hash_map(alloc, &mut out, letter, &record)?,
            Kind::Pairs => put_by_pairs(alloc, &mut out, letter, &record)?,
        }
    }
    Ok(out.into_string())
}

/// The letters of all records, by a format that was prepared once.
pub fn by_row(alloc: Global, repeats: u32) -> Result<String, Failure> {
    let letter = prepared_letter(alloc)?;
    let mut text = String::new(alloc);
    for _ in 0..repeats {
        text.clear();
        text = put_rows(alloc, text, &letter)?;
    }
    Ok(text)
}

// The letter, prepared for rows of the fields of a record.
fn prepared_letter(alloc: Global) -> Result<Prepared, Error> {
    let letter = Template::parse(alloc, LETTER)?;
    let values = [View::Text(""), View::Unsigned(0)];
    let pairs = [
        ("name", Formattable::display(&values[0])),
        ("city", Formattable::display(&values[0])),
        ("goods", Formattable::display(&values[0])),
        ("count", Formattable::integer(&values[1])),
        ("order", Formattable::integer(&values[1])),
    ];
    letter.prepare(alloc, &Pairs(&pairs))
}

// Appends the letters of all records.
fn put_rows(alloc: Global, text: String, letter: &Prepared) -> Result<String, Error> {
    let mut out = TextBuffer::from_string(text);
    for order in 0..RECORDS {
        put_by_row(alloc, &mut out, letter, &record_of(order))?;
    }
    Ok(out.into_string())
}

fn put_by_row(
    alloc: Global,
    out: &mut TextBuffer,
    letter: &Prepared,
    record: &Record,
) -> Result<(), Error> {
    let values = [
        View::Text(record.name),
        View::Text(record.city),
        View::Text(record.goods),
        View::Unsigned(u128::from(record.count)),
        View::Unsigned(u128::from(record.order)),
    ];
    letter.write_values(alloc, out, &values)
}

fn put_by_hash_map(
    alloc: Global,
    out: &mut TextBuffer,
    letter: Option<&Template>,
    record: &Record,
) -> Result<(), Error> {
    let name = View::Text(record.name);
    let city = View::Text(record.city);
    let goods = View::Text(record.goods);
    let count = View::Unsigned(u128::from(record.count));
    let order = View::Unsigned(u128::from(record.order));
    let mut context = HashMap::new(alloc);
    context.insert("name", Formattable::display(&name))?;
    context.insert("city", Formattable::display(&city))?;
    context.insert("goods", Formattable::display(&goods))?;
    context.insert("count", Formattable::integer(&count))?;
    context.insert("order", Formattable::integer(&order))?;
    match letter {
        Some(letter) => context.write_template_to(alloc, out, letter),
        None => context.write_to(alloc, out, LETTER),
    }
}

fn put_by_pairs(
    alloc: Global,
    out: &mut TextBuffer,
    letter: Option<&Template>,
    record: &Record,
) -> Result<(), Error> {
    let values = [
        View::Text(record.name),
        View::Text(record.city),
        View::Text(record.goods),
        View::Unsigned(u128::from(record.count)),
        View::Unsigned(u128::from(record.order)),
    ];
    let context = [
        ("name", Formattable::display(&values[0])),
        ("city", Formattable::display(&values[1])),
        ("goods", Formattable::display(&values[2])),
        ("count", Formattable::integer(&values[3])),
        ("order", Formattable::integer(&values[4])),
    ];
    match letter {
        Some(letter) => Pairs(&context).write_template_to(alloc, out, letter),
        None => Pairs(&context).write_to(alloc, out, LETTER),
    }
}

// The record of an order: each field cycles through its values.
fn record_of(order: u32) -> Record {
    let place = order as usize;
    Record {
        name: NAMES[place % NAMES.len()],
        city: CITIES[place % CITIES.len()],
        goods: GOODS[place % GOODS.len()],
        count: order % 90 + 10,
        order,
    }
}
