//! The records of a table as rows of cells.

use interpolator::{Error, View};
use records::{Faults, Record};

/// The length of the bar of the number that measures its record.
const UNIT: u128 = 100;

/// The height of a record's bars together, with the gap after them.
const ROW: u128 = 82;

/// The height of the space above all bars.
const HEAD: u128 = 64;

/// How many numbers a record has at least.
const FEWEST: usize = 2;

/// Which field of a record measures it: the second number, after the name.
const MEASURE: usize = 2;

/// The cells of all records, one after the other, and where each record ends.
#[derive(Drop)]
pub struct Rows<'a> {
    pub cells: Vec<View<'a>>,
    pub ends: Vec<usize>,
}

/// How far from the top a record is, with `before` others above it.
pub fn place_of(before: usize) -> u128 {
    HEAD.saturating_add(ROW.saturating_mul(before as u128))
}

/// The length of a number's bar, if that of the measure is `UNIT`.
fn length_of(number: u64, measure: u64) -> u128 {
    u128::from(number).saturating_mul(UNIT) / u128::from(measure).max(1)
}

/// The text of the field of a record at this index, without the white space around it.
fn text_at<'a>(record: &'a Record<'_>, index: usize) -> &'a str {
    match record.fields.get(index) {
        Some(field) => field.as_str().trim(),
        None => "",
    }
}

/// The number in the field of a record at this index. Tells it, if it is none, or is the measure
/// and 0, with which no bar can be in proportion.
fn number_at(faults: &mut Faults<'_>, record: &Record<'_>, index: usize) -> Result<u64, Error> {
    let text = text_at(record, index);
    let column = index.saturating_add(1);
    match text.parse::<u64>() {
        Ok(number) if index == MEASURE && number == 0 => {
            let why = format!(in faults.alloc;
                "column {column}: the second number, which measures its line, is 0"
            )?;
            faults.tell(record.line, why.as_str())?;
            Ok(number)
        }
        Ok(number) => Ok(number),
        Err(_) => {
            let most = u64::MAX;
            let why = format!(in faults.alloc;
                "column {column}: `{text}` is no whole number from 0 to {most}"
            )?;
            faults.tell(record.line, why.as_str())?;
            Ok(0)
        }
    }
}

/// The numbers of a record, which follow its name.
fn numbers_of(faults: &mut Faults<'_>, record: &Record<'_>) -> Result<Vec<u64>, Error> {
    let mut numbers = Vec::new(faults.alloc);
    for index in 1..record.fields.len() {
        numbers.push(number_at(faults, record, index)?)?;
    }
    Ok(numbers)
}

/// How many numbers a record has after its name.
fn count_of(record: &Record<'_>) -> usize {
    record.fields.len().saturating_sub(1)
}

/// Tells a record with too few or too many numbers: the first needs at least as many as the format
/// draws, the others as many as the first has.
fn check_count(
    faults: &mut Faults<'_>,
    record: &Record<'_>,
    top: &Record<'_>,
    drawn: usize,
) -> Result<(), Error> {
    let count = count_of(record);
    let first = count_of(top);
    let line = top.line;
    let fewest = drawn.max(FEWEST);
    let noun = if count == 1 { "number" } else { "numbers" };
    let column = count.min(first).saturating_add(2);
    if record.line > line && count != first {
        let why = format!(in faults.alloc;
            "column {column}: {count} {noun}, but line {line} has {first}"
        )?;
        faults.tell(record.line, why.as_str())?;
    }
    if record.line <= line && count < fewest {
        let why = format!(in faults.alloc;
            "column {column}: {count} {noun}, but at least {fewest} are wanted"
        )?;
        faults.tell(record.line, why.as_str())?;
    }
    Ok(())
}

/// Appends the cells of a record, which is this far from the top.
fn push_cells<'a>(
    cells: &mut Vec<View<'a>>,
    place: u128,
    name: &'a str,
    numbers: &[u64],
) -> Result<(), Error> {
    cells.push(View::Unsigned(place))?;
    cells.push(View::Text(name))?;
    let measure = numbers.get(1).copied().unwrap_or(0);
    for number in numbers {
        cells.push(View::Unsigned(length_of(*number, measure)))?;
        cells.push(View::Unsigned(u128::from(*number)))?;
    }
    Ok(())
}

/// The rows of records, each with as many numbers as the first, which has at least as many as the
/// format draws. What is wrong with them is told.
pub fn rows_of_records<'a>(
    faults: &mut Faults<'_>,
    records: &'a [Record<'_>],
    drawn: usize,
) -> Result<Rows<'a>, Error> {
    let mut cells = Vec::new(faults.alloc);
    let mut ends = Vec::new(faults.alloc);
    for record in records {
        let numbers = numbers_of(faults, record)?;
        check_count(faults, record, records.first().unwrap_or(record), drawn)?;
        push_cells(
            &mut cells,
            place_of(ends.len()),
            text_at(record, 0),
            &numbers,
        )?;
        ends.push(cells.len())?;
    }
    Ok(Rows { cells, ends })
}
