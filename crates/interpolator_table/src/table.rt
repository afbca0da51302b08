//! Tables.
ghost use Rattle.std.specs.Prelude.{◌≡◌, nat_eq, List, [], ◌∷◌, ◌++◌, map, length, take, OnOk};
ghost use Rattle.std.specs.Prelude.{OnErr, IfOk, IfErr};
ghost use Rattle.interpolator_eval.specs.Slots.{slots_of, empty_slots, with_integer};
ghost use Rattle.interpolator_render.specs.{Views.shown_by, declared.view.View.View};
ghost use Rattle.interpolator_table.specs.Cells.{cell_shows, CutTo, rows_at, cells_of};
ghost use Rattle.interpolator_table.specs.Lists.{Lends};
ghost use Rattle.interpolator_syntax.specs.declared.error.Error.TheVariants.{NoMemory};

use crate::cell::{Cell, cell_of, view_of};
use interpolator_eval::{Formattable, rows_of};
use interpolator_render::View;
use interpolator_syntax::Error;
use std::alloc::{AllocError, Global};
use std::marker::Model;

/// Rows of cells of any kind, which own their texts: a list of records for a format.
///
/// [`lend!`](crate::lend) lends it as a list of rows.
///
/// ```text
/// let mut items = Table::new(alloc);
/// items.row(&list!["Paper", Decimal { units: 1250, scale: 2 }])?;
/// items.row(&list!["Pens", 3u8])?;
/// ```
#[derive(Drop)]
pub struct Table {
    // all cells, row by row
    cells: Vec<Cell>,
    // for each row, how many cells there are up to its end
    ends: Vec<usize>,
    alloc: Global,
}

impl Model for Table {
    ghost use Rattle.std.specs.Prelude.{List, length};
    ghost use Rattle.interpolator_render.specs.Views.{Shown};

    ghost Value = { List (List Shown) };

    ghost use Rattle.interpolator_table.specs.Cells.{rows_at, CutTo};

    ghost view = { λ a. rows_at a.cells.items a.ends.items };

    ghost invariant = { λ a. CutTo a.ends.items 0 (length a.cells.items) };
}

/// Appends copies of the views, some of them if memory is refused.
fn push_all(alloc: Global, cells: &mut Vec<Cell>, views: &[View<'_>]) -> Result<(), AllocError>
    ensures pushed { OnOk result (map cell_shows cells.new.items
        ≡ map cell_shows cells.old.items ++ map shown_by views.now) }
    ensures kept { take (length cells.old.items) cells.new.items ≡ cells.old.items }
{
    for view in views {
        cells.push(cell_of(alloc, view)?)?;
    }
    Ok(())
}

/// Appends copies of the views, some of them if memory is refused, and else where the row ends.
fn push_ended(
    alloc: Global,
    cells: &mut Vec<Cell>,
    ends: &mut Vec<usize>,
    views: &[View<'_>],
) -> Result<(), AllocError>
    ensures pushed { OnOk result (map cell_shows cells.new.items
        ≡ map cell_shows cells.old.items ++ map shown_by views.now) }
    ensures ended { OnOk result (ends.new.items ≡ ends.old.items ++ length cells.new.items ∷ []) }
    ensures kept { take (length cells.old.items) cells.new.items ≡ cells.old.items }
    ensures unended { OnErr result (ends.new.items ≡ ends.old.items) }
{
    push_all(alloc, cells, views)?;
    ends.push(cells.len())?;
    Ok(())
}

/// Appends a row to the cells and to the ends, or nothing.
fn push_row(
    alloc: Global,
    cells: &mut Vec<Cell>,
    ends: &mut Vec<usize>,
    views: &[View<'_>],
) -> Result<(), Error>
    requires cut { CutTo ends.old.items 0 (length cells.old.items) }
    ensures cut { CutTo ends.new.items 0 (length cells.new.items) }
    ensures pushed { OnOk result (rows_at cells.new.items ends.new.items
        ≡ rows_at cells.old.items ends.old.items ++ map shown_by views.now ∷ []) }
    ensures kept { OnErr result (cells.new.items ≡ cells.old.items) }
    ensures unended { OnErr result (ends.new.items ≡ ends.old.items) }
    ensures refused { IfErr result (λ error. error ≡ NoMemory) }
{
    let before = cells.len();
    match push_ended(alloc, cells, ends, views) {
        Ok(()) => Ok(()),
        Err(_) => {
            cells.truncate(before);
            Err(Error::NoMemory)
        }
    }
}

/// The view of each cell.
fn views_of<'a>(alloc: Global, cells: &'a [Cell]) -> Result<Vec<View<'a>>, Error>
    ensures views { IfOk result (λ views. map shown_by views.items ≡ map cell_shows cells.now) }
    ensures refused { IfErr result (λ error. error ≡ NoMemory) }
{
    let mut views = Vec::with_capacity(alloc, cells.len())?;
    for cell in cells {
        views.push(view_of(cell))?;
    }
    Ok(views)
}

impl Table {
    /// A table without rows.
    pub fn new(alloc: Global) -> Table
        ensures { result ≡ [] }
    {
        Table {
            cells: Vec::new(alloc),
            ends: Vec::new(alloc),
            alloc,
        }
    }

    /// How many rows there are.
    pub fn len(&self) -> usize
        ensures { result ≡ length self.now }
    {
        self.ends.len()
    }

    /// Whether there are no rows.
    pub fn is_empty(&self) -> bool
        ensures { result ≡ nat_eq (length self.now) 0 }
    {
        self.len() == 0
    }

    /// Takes all rows away, and keeps the memory for others.
    pub fn clear(&mut self)
        ensures { self.new ≡ [] }
    {
        self.cells.clear();
        self.ends.clear();
    }

    /// Appends a row: a copy of each value, in order.
    ///
    /// # Errors
    ///
    /// `NoMemory`: there is no memory for the row. The table stays as it is.
    ///
    /// ```text
    /// table.row(&list![name.as_str(), 7u32])?
    /// ```
    pub fn row(&mut self, cells: &[View<'_>]) -> Result<(), Error>
        ensures pushed { OnOk result (self.new ≡ self.old ++ map shown_by cells.now ∷ []) }
        ensures kept { OnErr result (self.new ≡ self.old) }
        ensures refused { IfErr result (λ error. error ≡ NoMemory) }
    {
        push_row(self.alloc, &mut self.cells, &mut self.ends, cells)
    }

    /// The allocator that it takes memory from.
    pub fn allocator(&self) -> Global {
        self.alloc
    }

    /// The cells of all rows, one after the other, for [`lend!`](crate::lend).
    ///
    /// # Errors
    ///
    /// `NoMemory`.
    pub fn views(&self) -> Result<Vec<View<'_>>, Error>
        ensures views { IfOk result (λ views. map shown_by views.items ≡ cells_of self.now) }
        ensures refused { IfErr result (λ error. error ≡ NoMemory) }
    {
        views_of(self.alloc, &self.cells)
    }

    /// The rows, as a list for [`lend!`](crate::lend): `items` are those of the views.
    ///
    /// # Errors
    ///
    /// `NoMemory`.
    pub fn rows<'a>(
        &self,
        items: &'a [Formattable<'a, View<'a>>],
    ) -> Result<Vec<Formattable<'a, View<'a>>>, Error>
        ensures rows { (views : List View) → map shown_by views ≡ cells_of self.now
            → map slots_of items.now ≡ map (with_integer empty_slots) views
            → IfOk result (λ rows. Lends self.now (map slots_of rows.items)) }
        ensures refused { IfErr result (λ error. error ≡ NoMemory) }
    {
        rows_of(self.alloc, items, &self.ends)
    }
}
