//! A user's own value: an enum, whose `shows` is a definition in `specs/`; here the cells of a table.

use crate::page::Page;
use interpolator::{Bits, Error, Formattable, Interpolate, Spec, Trait, Value, View};
use std::alloc::Global;
use std::collections::HashMap;

/// The content of a cell.
#[derive(Drop)]
pub enum Cell {
    /// A text.
    Name(String),
    /// A number.
    Count(i64),
    /// Nothing.
    Absent,
}

impl Value for Cell {
    ghost use Rattle.interpolator_examples.specs.Cells.{cell_shows};

    ghost shows = { λ cell _ _. cell_shows cell };

    fn view(&self, _t: Trait, _spec: &Spec) -> View<'_> {
        match self {
            Cell::Name(text) => View::Text(text.as_str()),
            Cell::Count(count) => View::Signed(i128::from(*count), Bits::B64),
            Cell::Absent => View::NotImplemented,
        }
    }
}

/// A row of cells, written by a format that uses the names of the columns.
fn row(alloc: Global, names: &[&str], cells: &[Cell], format: &str) -> Result<String, Error> {
    let mut context = HashMap::new(alloc);
    for (name, cell) in names.iter().zip(cells) {
        context.insert(*name, Formattable::integer(cell))?;
    }
    context.format(alloc, format)
}

/// The names of the columns.
const NAMES: [&str; 3] = ["item", "count", "note"];

/// A row, and two formats that use what its cells do not have.
pub fn show(page: &mut Page) -> Result<(), Error> {
    let alloc = page.alloc;
    let cells = [
        Cell::Name(String::from_str(alloc, "crème")?),
        Cell::Count(-7),
        Cell::Absent,
    ];
    for format in [
        "{item:<6}|{count:>4}|{count:#x}|{item:?}",
        "{item:x}",
        "{note}",
    ] {
        page.put_made(format, row(alloc, &NAMES, &cells, format));
    }
    Ok(())
}
