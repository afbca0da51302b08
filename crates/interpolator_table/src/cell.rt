//! Cells: views that own their text.
ghost use Rattle.std.specs.Prelude.{◌≡◌, IfOk};
ghost use Rattle.interpolator_render.specs.Views.{shown_by};
ghost use Rattle.interpolator_table.specs.Cells.{cell_shows};

use interpolator_render::{Bits, View};
use std::alloc::{AllocError, Global};

/// A view that owns its text.
#[derive(Drop)]
pub(crate) enum Cell {
    Text(String),
    Plain(String),
    Signed(i128, Bits),
    Unsigned(u128),
    Truth(bool),
    Decimal { units: i128, scale: u32 },
    Float(f64),
    Float32(f32),
    Character(char),
    NotImplemented,
    Failed,
}

/// A copy of a view, which owns its text.
pub(crate) fn cell_of(alloc: Global, view: &View<'_>) -> Result<Cell, AllocError>
    ensures shows { IfOk result (λ cell. cell_shows cell ≡ shown_by view.now) }
{
    match view {
        View::Text(text) => Ok(Cell::Text(String::from_str(alloc, *text)?)),
        View::Plain(text) => Ok(Cell::Plain(String::from_str(alloc, *text)?)),
        View::Signed(number, bits) => Ok(Cell::Signed(*number, *bits)),
        View::Unsigned(number) => Ok(Cell::Unsigned(*number)),
        View::Truth(truth) => Ok(Cell::Truth(*truth)),
        View::Decimal { units, scale } => Ok(Cell::Decimal {
            units: *units,
            scale: *scale,
        }),
        View::Float(number) => Ok(Cell::Float(*number)),
        View::Float32(number) => Ok(Cell::Float32(*number)),
        View::Character(c) => Ok(Cell::Character(*c)),
        View::NotImplemented => Ok(Cell::NotImplemented),
        View::Failed => Ok(Cell::Failed),
    }
}

/// The view of a cell, which borrows its text.
pub(crate) fn view_of<'a>(cell: &'a Cell) -> View<'a>
    ensures shows { shown_by result ≡ cell_shows cell.now }
{
    match cell {
        Cell::Text(text) => View::Text(text.as_str()),
        Cell::Plain(text) => View::Plain(text.as_str()),
        Cell::Signed(number, bits) => View::Signed(*number, *bits),
        Cell::Unsigned(number) => View::Unsigned(*number),
        Cell::Truth(truth) => View::Truth(*truth),
        Cell::Decimal { units, scale } => View::Decimal {
            units: *units,
            scale: *scale,
        },
        Cell::Float(number) => View::Float(*number),
        Cell::Float32(number) => View::Float32(*number),
        Cell::Character(c) => View::Character(*c),
        Cell::NotImplemented => View::NotImplemented,
        Cell::Failed => View::Failed,
    }
}
