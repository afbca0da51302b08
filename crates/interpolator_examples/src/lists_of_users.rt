//! What a user writes with lists, without any proof.

use crate::page::Page;
use interpolator::{Error, Formattable, Interpolate, Pairs};
use std::alloc::Global;

/// A list: how each item is written, and what goes between each two.
fn guests(alloc: Global, names: &[&str]) -> Result<String, Error> {
    let mut items = Vec::new(alloc);
    for name in names {
        items.push(Formattable::debug_display(name))?;
    }
    Pairs(&[("guests", Formattable::iter(&items))]).format(
        alloc,
        "Guests: {guests:i..-1({:?})(, )} and {guests:i-1({:?})}.",
    )
}

/// A list of lists: the outer group has a sign `#`, so that it does not end at the `)` of the inner
/// one.
fn table<'a>(alloc: Global, rows: &'a [Formattable<'a, u64>]) -> Result<String, Error> {
    Pairs(&[("rows", Formattable::iter(rows))]).format(alloc, "{rows:i#({:i({:>4})})#(\n)}")
}

/// A table of two rows.
fn numbers(alloc: Global) -> Result<String, Error> {
    let cells = [[1, 20], [300, 4]];
    let items = [
        [
            Formattable::display(&cells[0][0]),
            Formattable::display(&cells[0][1]),
        ],
        [
            Formattable::display(&cells[1][0]),
            Formattable::display(&cells[1][1]),
        ],
    ];
    let rows = [Formattable::iter(&items[0]), Formattable::iter(&items[1])];
    table(alloc, &rows)
}

pub fn show(page: &mut Page) {
    let alloc = page.alloc;
    page.put_made("guests", guests(alloc, &["Ann", "Béla", "Eve"]));
    page.put_made("table", numbers(alloc));
}
