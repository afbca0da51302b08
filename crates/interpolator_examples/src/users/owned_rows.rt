//! Values of several kinds that own their text.

use crate::page::Page;
use interpolator::{
    Bits, Error, Formattable, Interpolate, OwnedView, Pairs, Prepared, Row, Template, TextBuffer,
    items_of, values,
};
use std::alloc::Global;
use std::fmt;

/// An amount in hundredths.
#[derive(Clone, Copy)]
struct Cents(u32);

impl fmt::Display for Cents {
    fn fmt<W: fmt::Write>(&self, f: &mut fmt::Formatter<W>) -> fmt::Result {
        write!(f, "{}.{:02}", self.0 / 100, self.0 % 100)
    }
}

/// A name and an amount, as a row that owns its texts.
fn row(alloc: Global, name: &str, amount: Cents) -> Result<[OwnedView; 2], Error> {
    Ok([
        OwnedView::Text(String::from_str(alloc, name)?),
        OwnedView::shown(alloc, amount)?,
    ])
}

/// An owned value among others.
fn owes(alloc: Global, name: &str, amount: Cents) -> Result<String, Error> {
    let amount = OwnedView::shown(alloc, amount)?;
    values!(name, amount = &amount).format(alloc, "{name} owes {amount}")
}

/// A list of every kind but decimals.
fn kinds(alloc: Global) -> Result<String, Error> {
    let cells = [
        OwnedView::from(-7i8),
        OwnedView::from(7usize),
        OwnedView::from(true),
        OwnedView::from('c'),
        OwnedView::from(String::from_str(alloc, "é")?),
        OwnedView::from(u128::MAX),
    ];
    let items = items_of(alloc, &cells)?;
    Pairs(&[("cells", Formattable::iter(&items))]).format(alloc, "{cells:i({:?})( )}")
}

/// A signed number outside its width.
fn failed(alloc: Global) -> Result<String, Error> {
    let value = OwnedView::Signed(128, Bits::B8);
    Pairs(&[("n", Formattable::display(&value))]).format(alloc, "{n}")
}

/// A line for each row, by a prepared format.
fn lines(alloc: Global, line: &Prepared, rows: &[[OwnedView; 2]]) -> Result<String, Error> {
    let mut out = TextBuffer::new(alloc);
    for row in rows {
        let slots = [Formattable::display(&row[0]), Formattable::display(&row[1])];
        line.write_line(alloc, &mut out, &Row(&slots))?;
    }
    Ok(out.into_string())
}

/// Rows that own their texts.
fn table(alloc: Global) -> Result<String, Error> {
    let rows = [
        row(alloc, "Ann", Cents(1250))?,
        row(alloc, "Béla", Cents(7))?,
    ];
    let template = Template::parse(alloc, "{name:<5}{amount:>6}")?;
    let line = template.prepare(
        alloc,
        &Pairs(&[
            ("name", Formattable::display(&rows[0][0])),
            ("amount", Formattable::display(&rows[0][1])),
        ]),
    )?;
    lines(alloc, &line, &rows)
}

pub fn show(page: &mut Page) {
    let alloc = page.alloc;
    page.put_made("owned", owes(alloc, "Béla", Cents(7)));
    page.put_made("owned", kinds(alloc));
    page.put_made("owned", failed(alloc));
    page.put_made("owned", table(alloc));
}
