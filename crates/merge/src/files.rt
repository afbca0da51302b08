//! Letters in files of their own, each named by its record.

ghost use Rattle.merge.specs.Columns.{kinds_in, names_in};
ghost use Rattle.merge.specs.Letters.{AreReady, HasNames};

use crate::columns::columns_of;
use crate::letters::{read_header, write_record, write_rows};
use crate::progress::Progress;
use crate::samples::sample_of;
use crate::table::is_clean;
use crate::templates::{Fault, Frame, Letters, Templates, prepared_letters};
use interpolator::{Error, TextBuffer, View};
use records::{Field, Reader, Record, Separator, Table};
use std::alloc::{AllocError, Global};
use std::collections::BTreeMap;
use std::{fs, io};

/// Why a record gives no name of a file.
#[derive(Clone, Copy)]
pub enum Unnamed {
    /// A value has a `/`.
    Slash,
    /// A part of the name is empty, `.` or `..`.
    Part,
    /// The record that begins in this line gives the same name.
    Twice(usize),
}

/// A record, by its first line, that gives this text, which is no name of a file.
#[derive(Drop)]
pub struct NameFault {
    pub line: usize,
    pub name: String,
    pub why: Unnamed,
}

/// Why files are missing.
#[derive(Drop)]
pub enum FileFault {
    /// Letters are missing.
    Letters(Fault),
    /// All faults that the template of the names has with those of the table.
    Pattern(Vec<Error>),
    /// The records that give no name of a file.
    Names(Vec<NameFault>),
    /// The file of this name could not be written.
    Refused(String, io::Error),
}

impl From<Error> for FileFault {
    fn from(_refused: Error) -> FileFault {
        FileFault::Letters(Fault::Stopped)
    }
}

impl From<AllocError> for FileFault {
    fn from(_refused: AllocError) -> FileFault {
        FileFault::Letters(Fault::Stopped)
    }
}

/// What is asked for: letters by these templates, in files named by this one.
#[derive(Clone, Copy)]
pub struct Named<'a> {
    pub templates: Templates<'a>,
    pub pattern: &'a str,
}

/// Whether a part of a name, which a value made, is none of a file's.
fn is_unfit(part: &str, pattern: &str) -> bool {
    part != pattern && matches!(part, "" | "." | "..")
}

/// Why a text is no name of a file, if it is not. A value adds no `/`, and makes no part `..`.
fn why_unnamed(name: &str, pattern: &str) -> Option<Unnamed> {
    if name.split('/').count() != pattern.split('/').count() {
        return Some(Unnamed::Slash);
    }
    for (part, wanted) in name.split('/').zip(pattern.split('/')) {
        if is_unfit(part, wanted) {
            return Some(Unnamed::Part);
        }
    }
    None
}

/// The text of a record by a template.
fn text_by(
    alloc: Global,
    letters: &Letters,
    frame: Frame<'_>,
    record: &Record<'_>,
) -> Result<String, Error>
    requires ready { AreReady letters.now (kinds_in frame.columns.now) frame.sample.now }
{
    let mut out = TextBuffer::new(alloc);
    write_record(
        alloc,
        &mut out,
        letters,
        frame,
        record.fields.as_slice(),
        true,
    )?;
    Ok(out.into_string())
}

/// The names of the files of the records that begin before a line; or all of these that give none.
fn file_names_of(
    alloc: Global,
    pattern: &str,
    names: &Letters,
    frame: Frame<'_>,
    records: &[Record<'_>],
    end: usize,
) -> Result<Result<Vec<String>, Vec<NameFault>>, Error>
    requires ready { AreReady names.now (kinds_in frame.columns.now) frame.sample.now }
{
    let mut seen = BTreeMap::new(alloc);
    let mut faults = Vec::new(alloc);
    let mut fit = Vec::new(alloc);
    for record in records {
        let line = record.line;
        if line >= end {
            break;
        }
        let name = text_by(alloc, names, frame, record)?;
        let before = seen.insert(String::from_str(alloc, name.as_str())?, line)?;
        let why = match why_unnamed(name.as_str(), pattern) {
            Some(why) => Some(why),
            None => before.map(Unnamed::Twice),
        };
        match why {
            Some(why) => faults.push(NameFault { line, name, why })?,
            None => fit.push(name)?,
        }
    }
    if faults.is_empty() {
        return Ok(Ok(fit));
    }
    Ok(Err(faults))
}

/// Writes the letter of a record into the file of this name.
fn write_file(
    rt: &HostRuntime,
    by: &Letters,
    frame: Frame<'_>,
    name: &str,
    record: &Record<'_>,
) -> Result<(), FileFault>
    requires ready { AreReady by.now (kinds_in frame.columns.now) frame.sample.now }
{
    let text = text_by(rt.alloc(), by, frame, record)?;
    match fs::write(rt, name, text.as_str()) {
        Ok(()) => Ok(()),
        Err(error) => Err(FileFault::Refused(String::from_str(rt.alloc(), name)?, error)),
    }
}

/// Writes the letter of each record into the file of its name, as far as there are names.
fn write_all(
    rt: &HostRuntime,
    by: &Letters,
    frame: Frame<'_>,
    names: &[String],
    records: &[Record<'_>],
    progress: &mut Progress<'_>,
) -> Result<(), FileFault>
    requires ready { AreReady by.now (kinds_in frame.columns.now) frame.sample.now }
{
    progress.begin(true);
    for (name, record) in names.iter().zip(records) {
        write_file(rt, by, frame, name.as_str(), record)?;
        progress.count();
    }
    Ok(())
}

/// Writes the letters of records, which a reader has left, behind a header with these fields.
fn write_below(
    rt: &HostRuntime,
    named: Named<'_>,
    header: &[Field<'_>],
    rest: Reader<'_>,
    records: &[Record<'_>],
    is_partial: bool,
    progress: &mut Progress<'_>,
) -> Result<(), FileFault> {
    let alloc = rt.alloc();
    let held = columns_of(alloc, header)?;
    let columns = held.as_slice();
    let text = View::Character('a');
    let number = View::Decimal { units: 0, scale: 0 };
    let held = sample_of(alloc, columns, &text, &number)?;
    let sample = held.as_slice();
    write_framed(
        rt,
        named,
        Frame { columns, sample },
        rest,
        records,
        is_partial,
        progress,
    )
}

/// The same with the columns of the table.
fn write_framed(
    rt: &HostRuntime,
    named: Named<'_>,
    frame: Frame<'_>,
    rest: Reader<'_>,
    records: &[Record<'_>],
    is_partial: bool,
    progress: &mut Progress<'_>,
) -> Result<(), FileFault>
    requires { HasNames (names_in frame.columns.now) (kinds_in frame.columns.now) frame.sample.now }
{
    let alloc = rt.alloc();
    let by = match prepared_letters(alloc, named.templates, frame) {
        Ok(letters) => letters,
        Err(fault) => return Err(FileFault::Letters(fault)),
    };
    let names = match prepared_letters(alloc, Templates::plain(named.pattern), frame) {
        Ok(names) => names,
        Err(Fault::Template(faults)) => return Err(FileFault::Pattern(faults)),
        Err(fault) => return Err(FileFault::Letters(fault)),
    };
    let faults = write_rows(
        alloc,
        &mut TextBuffer::new(alloc),
        &by,
        frame,
        rest,
        false,
        progress,
    )?;
    let end = faults.first().map_or(usize::MAX, |fault| fault.line);
    if is_partial || is_clean(&faults) {
        match file_names_of(alloc, named.pattern, &names, frame, records, end)? {
            Ok(names) => write_all(rt, &by, frame, &names, records, progress)?,
            Err(faults) => return Err(FileFault::Names(faults)),
        }
    }
    if is_clean(&faults) {
        return Ok(());
    }
    Err(FileFault::Letters(Fault::Table(faults)))
}

/// Writes a letter for each record of the table after the first, which names the fields, into a
/// file of its own. A file that is there is written anew. If a record is wrong, or gives no name of
/// a file, no letter is written; unless a part of them is wanted: then those of the records before
/// the first that is wrong are.
///
/// # Errors
///
/// As of `merge`; and the faults of the names' template, the records that give no name or one that
/// was given before, or the first file that could not be written.
pub fn write_files(
    rt: &HostRuntime,
    named: Named<'_>,
    table: &str,
    separator: Separator,
    is_partial: bool,
    progress: &mut Progress<'_>,
) -> Result<(), FileFault> {
    let alloc = rt.alloc();
    let mut reader = Reader::new(table, separator);
    let mut fields = Vec::new(alloc);
    if let Err(fault) = read_header(alloc, &mut reader, &mut fields) {
        return Err(FileFault::Letters(fault));
    }
    let read = Table::read(alloc, table, separator)?;
    match read.records.as_slice() {
        [_, below @ ..] => write_below(
            rt,
            named,
            fields.as_slice(),
            reader,
            below,
            is_partial,
            progress,
        ),
        [] => Ok(()),
    }
}
