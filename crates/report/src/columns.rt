//! The columns: their names, and their totals.

use crate::asked::Asked;
use crate::rows::{Group, entries_in_column, entry_in};
use crate::totals::{Cell, NoTotal, Total, cells_of, first_large, has_codes, total_of};
use crate::widths::width;
use interpolator::Error;
use records::{Faults, Record};
use std::alloc::{AllocError, Global};

/// A column.
#[derive(Drop)]
pub struct Column<'a> {
    pub name: &'a str,
    /// How many columns of a terminal the widest of its name and its entries takes.
    pub width: usize,
    /// Whether what it has are numbers.
    pub is_numeric: bool,
    /// Its total, and then that of each group; none if it is not summed.
    pub totals: Vec<Total>,
}

/// Whether most of the cells that are not empty are numbers, some with a point; and whether all
/// are.
fn numbers_in(cells: &[Cell]) -> (bool, bool) {
    let mut numbers = 0usize;
    let mut others = 0usize;
    let mut scale = 0;
    for cell in cells {
        match cell {
            Cell::Empty => {}
            Cell::Number(number) => {
                numbers = numbers.saturating_add(1);
                scale = number.scale.max(scale);
            }
            Cell::Large => numbers = numbers.saturating_add(1),
            Cell::Other => others = others.saturating_add(1),
        }
    }
    (numbers > others && scale > 0, numbers > 0 && others == 0)
}

/// The name that a field of the header gives, and whether it marks a column of numbers.
pub fn name_of(field: &str) -> (&str, bool) {
    match field.strip_suffix(":") {
        Some(name) => (name.trim(), true),
        None => (field, false),
    }
}

/// Whether a name is one of those with commas between them.
fn is_among(names: &str, name: &str) -> bool {
    for one in names.split(',') {
        if one.trim() == name {
            return true;
        }
    }
    false
}

/// How many columns of a terminal the widest of some texts takes.
fn widest(name: &str, entries: &[&str]) -> usize {
    let mut most = width(name);
    for entry in entries {
        most = most.max(width(entry));
    }
    most
}

/// Tells the cells of a column, at this index, that are no numbers.
fn tell_others(
    faults: &mut Faults<'_>,
    records: &[Record<'_>],
    cells: &[Cell],
    name: &str,
    index: usize,
) -> Result<(), Error> {
    let column = index.saturating_add(1);
    let why = format!(in faults.alloc;
        "column {column}, `{name}`, wants a number, such as -7 or 12.50"
    )?;
    for (record, cell) in records.iter().zip(cells) {
        if matches!(cell, Cell::Other) {
            faults.tell(record.line, why.as_str())?;
        }
    }
    Ok(())
}

/// Adds the total of cells of these records. If there is none, tells why.
fn push_total(
    totals: &mut Vec<Total>,
    faults: &mut Faults<'_>,
    records: &[Record<'_>],
    cells: &[Cell],
    name: &str,
) -> Result<(), Error> {
    let (line, what) = match total_of(faults.alloc, cells) {
        Ok(total) => {
            totals.push(total)?;
            return Ok(());
        }
        Err(NoTotal::Number(before)) => {
            let line = records.get(before).map_or(faults.header, |row| row.line);
            (line, "number")
        }
        Err(NoTotal::Sum) => (faults.header, "total"),
        Err(NoTotal::NoMemory) => return Err(Error::NoMemory),
    };
    let why = format!(in faults.alloc; "the {what} of `{name}` has more than 128 bits")?;
    faults.tell(line, why.as_str())?;
    Ok(())
}

/// The cells of a group.
fn cells_in(alloc: Global, cells: &[Cell], group: &Group) -> Result<Vec<Cell>, AllocError> {
    let mut some = Vec::with_capacity(alloc, group.places.len())?;
    for place in &group.places {
        some.push(cells.get(*place).copied().unwrap_or(Cell::Empty))?;
    }
    Ok(some)
}

/// The total of a column, and then that of each group. Tells what has none.
fn totals_of(
    faults: &mut Faults<'_>,
    records: &[Record<'_>],
    groups: &[Group],
    cells: &[Cell],
    name: &str,
) -> Result<Vec<Total>, Error> {
    let mut totals = Vec::new(faults.alloc);
    push_total(&mut totals, faults, records, cells, name)?;
    if totals.is_empty() {
        return Ok(totals);
    }
    for group in groups {
        let some = cells_in(faults.alloc, cells, group)?;
        push_total(&mut totals, faults, &[], &some, name)?;
    }
    Ok(totals)
}

/// The column at this index of the header and the records below it. What is wrong with it is told.
fn column_of<'a>(
    faults: &mut Faults<'_>,
    asked: Asked<'_>,
    header: &'a Record<'_>,
    records: &[Record<'_>],
    groups: &[Group],
    index: usize,
) -> Result<Column<'a>, Error> {
    let alloc = faults.alloc;
    let (name, is_marked) = name_of(entry_in(header, index));
    let entries = entries_in_column(alloc, records, index)?;
    let cells = cells_of(alloc, &entries)?;
    let (has_decimals, has_numbers_alone) = numbers_in(&cells);
    let is_summed = match asked.totals {
        Some(names) => is_among(names, name),
        None => is_marked || has_decimals,
    };
    let mut column = Column {
        name,
        width: widest(name, &entries),
        is_numeric: is_summed || has_numbers_alone,
        totals: Vec::new(alloc),
    };
    if is_summed && !records.is_empty() {
        if !asked.is_lenient {
            tell_others(faults, records, &cells, name, index)?;
        }
        column.totals = totals_of(faults, records, groups, &cells, name)?;
    }
    Ok(column)
}

/// Tells the cells of a column that are numbers of more than 128 bits.
fn tell_large(
    faults: &mut Faults<'_>,
    records: &[Record<'_>],
    cells: &[Cell],
    name: &str,
) -> Result<(), Error> {
    let why = format!(in faults.alloc; "the number of `{name}` has more than 128 bits")?;
    for (record, cell) in records.iter().zip(cells) {
        if matches!(cell, Cell::Large) {
            faults.tell(record.line, why.as_str())?;
        }
    }
    Ok(())
}

/// Whether a format shows what the column at this index has as numbers: if it would be summed, or
/// all are numbers, none of which is a code. What is no number in such a column is told.
pub fn is_shown_as_numbers(
    faults: &mut Faults<'_>,
    asked: Asked<'_>,
    header: &Record<'_>,
    records: &[Record<'_>],
    index: usize,
) -> Result<bool, Error> {
    let (name, is_marked) = name_of(entry_in(header, index));
    let entries = entries_in_column(faults.alloc, records, index)?;
    let cells = cells_of(faults.alloc, &entries)?;
    let (has_decimals, has_numbers_alone) = numbers_in(&cells);
    if !is_marked && !has_decimals {
        return Ok(has_numbers_alone && first_large(&cells).is_none() && !has_codes(&entries));
    }
    if !asked.is_lenient {
        tell_others(faults, records, &cells, name, index)?;
    }
    tell_large(faults, records, &cells, name)?;
    Ok(true)
}

/// The columns that the header names. What is wrong with them is told.
pub fn columns_of<'a>(
    faults: &mut Faults<'_>,
    asked: Asked<'_>,
    header: &'a Record<'_>,
    records: &[Record<'_>],
    groups: &[Group],
) -> Result<Vec<Column<'a>>, Error> {
    let mut columns = Vec::new(faults.alloc);
    for index in 0..header.fields.len() {
        columns.push(column_of(faults, asked, header, records, groups, index)?)?;
    }
    Ok(columns)
}

/// The index of the column with this name; none if there is none, which is told.
pub fn index_of(
    faults: &mut Faults<'_>,
    header: &Record<'_>,
    name: &str,
) -> Result<Option<usize>, Error> {
    for index in 0..header.fields.len() {
        if name_of(entry_in(header, index)).0 == name {
            return Ok(Some(index));
        }
    }
    let why = format!(in faults.alloc; "no column has the name `{name}`")?;
    faults.tell(faults.header, why.as_str())?;
    Ok(None)
}

/// Tells the names, with commas between them, that no column has.
pub fn check_names(faults: &mut Faults<'_>, header: &Record<'_>, names: &str) -> Result<(), Error> {
    for name in names.split(',') {
        index_of(faults, header, name.trim())?;
    }
    Ok(())
}
