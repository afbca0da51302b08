//! The records of a file.

use interpolator::Error;
use records::{Fault, Faults, Record, Separator, Table};

/// Tells the first of these faults, those that are in lines before this one. Returns the others.
fn tell_before<'a>(
    faults: &mut Faults<'_>,
    broken: &'a [Fault],
    line: usize,
) -> Result<&'a [Fault], Error> {
    let mut count = 0usize;
    for fault in broken {
        if fault.place.line >= line {
            break;
        }
        faults.add(*fault)?;
        count = count.saturating_add(1);
    }
    Ok(broken.get(count..).unwrap_or(&[]))
}

/// Tells a record with another number of fields than the header.
fn tell_count(faults: &mut Faults<'_>, row: &Record<'_>, header: &Record<'_>) -> Result<(), Error> {
    let line = header.line;
    let wanted = header.fields.len();
    let count = row.fields.len();
    if count == wanted {
        return Ok(());
    }
    let noun = if count == 1 { "field" } else { "fields" };
    let column = count.min(wanted).saturating_add(1);
    let has = if count < wanted {
        "no field"
    } else {
        "no name"
    };
    let why = format!(in faults.alloc;
        "{count} {noun}, but line {line} has {wanted}: column {column} has {has}"
    )?;
    faults.tell(row.line, why.as_str())?;
    Ok(())
}

/// The header: the first record, if the file does not go on with none before it.
fn header_of<'a, 't>(table: &'t Table<'a>) -> Option<&'t Record<'a>> {
    let header = table.records.first()?;
    match table.faults.first() {
        Some(fault) if fault.place.line < header.line => None,
        _ => Some(header),
    }
}

/// The records of a table. Tells where it goes on with none, and each record with another number of
/// fields than the header.
pub fn read_records<'a>(
    faults: &mut Faults<'_>,
    text: &'a str,
    separator: Separator,
) -> Result<Vec<Record<'a>>, Error> {
    let table = Table::read(faults.alloc, text, separator)?;
    let header = header_of(&table);
    let mut left = table.faults.as_slice();
    for record in &table.records {
        left = tell_before(faults, left, record.line)?;
        tell_count(faults, record, header.unwrap_or(record))?;
    }
    tell_before(faults, left, usize::MAX)?;
    Ok(table.records)
}
