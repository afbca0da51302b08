//! The lines of totals below records.

use crate::columns::Column;
use interpolator::{Error, iformat};
use std::alloc::Global;

/// A line of totals.
#[derive(Drop)]
pub struct Foot {
    /// Which of its totals each column has in it.
    pub part: usize,
    /// Its texts, one for each column.
    pub texts: Vec<String>,
}

/// The text of a column in a line of totals: its sum, or how many cells that is of; without a
/// total, the label.
fn text_of(
    alloc: Global,
    column: &Column<'_>,
    part: usize,
    is_count: bool,
    label: &str,
) -> Result<String, Error> {
    match column.totals.get(part) {
        Some(total) if is_count => iformat!(in alloc; "{counted}", counted = total.counted),
        Some(total) => iformat!(in alloc; "{sum}", sum = total.sum),
        None => Ok(String::from_str(alloc, label)?),
    }
}

/// The line of the totals of this number, with a label in the first column that has none.
fn foot_of(
    alloc: Global,
    columns: &[Column<'_>],
    part: usize,
    is_count: bool,
    label: &str,
) -> Result<Foot, Error> {
    let mut texts = Vec::with_capacity(alloc, columns.len())?;
    let mut left = label;
    for column in columns {
        texts.push(text_of(alloc, column, part, is_count, left)?)?;
        if column.totals.is_empty() {
            left = "";
        }
    }
    Ok(Foot { part, texts })
}

/// Whether a column has a total of this number, of less than so many cells.
fn is_below(column: &Column<'_>, part: usize, size: usize) -> bool {
    match column.totals.get(part) {
        Some(total) => total.counted < size,
        None => false,
    }
}

/// Adds the lines of the totals of this number, which are of so many records: that of the sums, and
/// if some cells are left out, that of how many were counted.
pub fn push_feet(
    alloc: Global,
    feet: &mut Vec<Foot>,
    columns: &[Column<'_>],
    part: usize,
    size: usize,
    label: &str,
) -> Result<(), Error> {
    if columns.iter().any(|column| column.totals.len() > part) {
        feet.push(foot_of(alloc, columns, part, false, label)?)?;
    }
    if columns.iter().any(|column| is_below(column, part, size)) {
        feet.push(foot_of(alloc, columns, part, true, "counted")?)?;
    }
    Ok(())
}
