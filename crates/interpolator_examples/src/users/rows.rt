//! Lists of lists whose rows are known only when the program runs.

use crate::page::Page;
use interpolator::{ContextMap, Error, Formattable, Interpolate, View, items_of, rows_of};
use std::alloc::Global;

/// A list whose items are the lines of a text.
fn listed(alloc: Global, text: &str) -> Result<String, Error> {
    let lines = text.lines().collect::<Vec<&str>>(alloc)?;
    let items = items_of(alloc, &lines)?;
    let mut context = ContextMap::new(alloc);
    context.put("lines", Formattable::iter(&items))?;
    context.format(alloc, "{lines:i({:>4})(, )}")
}

/// A list of lists: a row for each line, a cell for each field.
fn table(alloc: Global, text: &str) -> Result<String, Error> {
    let mut cells = Vec::new(alloc);
    let mut ends = Vec::new(alloc);
    for line in text.lines() {
        for field in line.split(',') {
            cells.push(View::Text(field))?;
        }
        ends.push(cells.len())?;
    }
    let items = items_of(alloc, &cells)?;
    let rows = rows_of(alloc, &items, &ends)?;
    let mut context = ContextMap::new(alloc);
    context.put("rows", Formattable::iter(&rows))?;
    context.format(alloc, "{rows:i#({:i0({:<6})}{:i1..({:>4})})#(\n)}")
}

pub fn show(page: &mut Page) {
    let alloc = page.alloc;
    page.put_made("listed", listed(alloc, "a\nbc\n"));
    let table = table(alloc, "crème,7,12\nbread,1234\n\ntea,5,6,7");
    page.put_made("table", table);
}
