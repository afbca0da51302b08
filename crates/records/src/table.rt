//! All records of a table.

ghost use Rattle.std.specs.Prelude.{◌≡◌, ◌<◌, IfOk, length, true};
ghost use Rattle.records.specs.Heads.{HoldsTable};
ghost use Rattle.records.specs.Tables.{Adds, Holds, at, separator_of};

use crate::fault::Fault;
use crate::field::Field;
use crate::reader::{ReadError, Reader};
use crate::separator::Separator;
use std::alloc::{AllocError, Global};

/// A record of a table.
#[derive(Debug, Drop)]
pub struct Record<'a> {
    /// The number of the line in which it begins, from 1.
    pub line: usize,
    /// Its fields.
    pub fields: Vec<Field<'a>>,
}

/// The records of a table, and where it goes on with none.
#[derive(Debug, Drop)]
pub struct Table<'a> {
    /// Its records.
    pub records: Vec<Record<'a>>,
    /// Its faults.
    pub faults: Vec<Fault>,
}

/// Appends the next record or fault. Returns whether there was one.
fn read_next<'a>(
    alloc: Global,
    reader: &mut Reader<'a>,
    records: &mut Vec<Record<'a>>,
    faults: &mut Vec<Fault>,
) -> Result<bool, AllocError>
    ensures adds { IfOk result (λ more. Adds (separator_of reader.old) more (at reader.old)
        (at reader.new) records.old.items records.new.items faults.old.items faults.new.items) }
    ensures same { separator_of reader.new ≡ separator_of reader.old }
    ensures shorter { IfOk result (λ more. more ≡ true
        → length (at reader.new).text < length (at reader.old).text) }
{
    let mut fields = Vec::new(alloc);
    match reader.next_record(alloc, &mut fields) {
        Ok(None) => Ok(false),
        Ok(Some(line)) => {
            records.push(Record { line, fields })?;
            Ok(true)
        }
        Err(ReadError::Fault(fault)) => {
            faults.push(fault)?;
            Ok(true)
        }
        Err(ReadError::NoMemory) => Err(AllocError),
    }
}

/// The records and faults that a reader has left.
fn read_all<'a>(alloc: Global, from: Reader<'a>) -> Result<Table<'a>, AllocError>
    ensures { IfOk result (λ table. Holds (separator_of from.entry) (at from.entry)
        table.records.items table.faults.items) }
{
    let mut reader = from;
    let mut records = Vec::new(alloc);
    let mut faults = Vec::new(alloc);
    'entries: while read_next(alloc, &mut reader, &mut records, &mut faults)? {}
    Ok(Table { records, faults })
}

impl<'a> Table<'a> {
    /// Reads a table from its beginning to its end, each record once.
    ///
    /// # Errors
    ///
    /// Memory ran out.
    pub fn read(alloc: Global, text: &'a str, separator: Separator) -> Result<Table<'a>, AllocError>
        ensures { IfOk result (λ table. HoldsTable separator text.now table) }
    {
        read_all(alloc, Reader::new(text, separator))
    }
}
