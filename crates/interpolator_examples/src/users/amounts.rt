//! Amounts as decimals, which a format aligns and rounds; and records in columns, which a format
//! names by position.

use crate::page::Page;
use interpolator::{
    ContextMap, Decimal, Error, Formattable, Interpolate, TextBuffer, View, iformat, items_of,
    iwriteln, rows_of,
};
use std::alloc::Global;

/// The amount of a number of cents.
fn amount(cents: i128) -> Decimal {
    Decimal {
        units: cents,
        scale: 2,
    }
}

/// What things cost together, in cents, if an `i128` holds it.
fn sum_of(prices: &[(&str, u64)]) -> Option<i128> {
    let mut sum = 0i128;
    for (_, cents) in prices {
        sum = sum.checked_add(i128::from(*cents))?;
    }
    Some(sum)
}

/// A bill of things and their prices in cents, and what they cost together.
fn bill(alloc: Global, prices: &[(&str, u64)]) -> Result<String, Error> {
    let mut out = TextBuffer::new(alloc);
    for (item, cents) in prices {
        let cents = i128::from(*cents);
        let line = "{item:<6}{amount:>10.2}";
        iwriteln!(in alloc; &mut out, line, item = *item, amount = amount(cents))?;
    }
    if let Some(sum) = sum_of(prices) {
        iwriteln!(in alloc; &mut out, "{sum:>16.2}", sum = amount(sum))?;
    }
    Ok(out.into_string())
}

/// Records as rows of cells: a format writes the first cell of each as `{:i0({})}`, the second as
/// `{:i1({})}`.
fn records(alloc: Global, prices: &[(&str, u64)]) -> Result<String, Error> {
    let mut cells = Vec::new(alloc);
    let mut ends = Vec::new(alloc);
    for (item, cents) in prices {
        cells.push(View::Text(item))?;
        cells.push(View::from(amount(i128::from(*cents))))?;
        ends.push(cells.len())?;
    }
    let items = items_of(alloc, &cells)?;
    let rows = rows_of(alloc, &items, &ends)?;
    let mut context = ContextMap::new(alloc);
    context.put("rows", Formattable::iter(&rows))?;
    context.format(alloc, "{rows:i#({:i0({})} is {:i1({})})#(, )}")
}

/// A float by its shortest digits, rounded, and in exponent form.
fn float(alloc: Global, x: f64) -> Result<String, Error> {
    iformat!(in alloc; "{x} {x:.2} {x:e}", x:float)
}

/// Things and their prices in cents.
const PRICES: [(&str, u64); 2] = [("bread", 250), ("crème", 123_405)];

pub fn show(page: &mut Page) {
    let alloc = page.alloc;
    page.put_made("bill", bill(alloc, &PRICES));
    page.put_made("records", records(alloc, &PRICES));
    page.put_made("-0.000625", float(alloc, -0.000625));
    page.put_made("2.5e21", float(alloc, 2.5e21));
    page.put_made("0.1 + 0.2", float(alloc, 0.1 + 0.2));
}
