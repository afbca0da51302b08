//! The letters of a table, by its templates.

ghost use Rattle.std.specs.Prelude.{◌≡◌, ◌<◌, ℕ, List, IfOk, IfErr, OnOk, true, None, Some, length};
ghost use Rattle.std.specs.Prelude.{map};
ghost use Rattle.std.specs.Str.{chars};
ghost use Rattle.interpolator.specs.Prepared.Rows.{found_by_row, row_at};
ghost use Rattle.interpolator.specs.{Places.outermost, Faults.result_answer};
ghost use Rattle.interpolator.specs.{Meaning.Environments.environment, Meaning.Meanings.means};
ghost use Rattle.interpolator.specs.Meaning.Outcomes.{Outcome};
ghost use Rattle.interpolator_escapes.specs.{Fields.record_shows, Formats.escaped_shows};
ghost use Rattle.merge.specs.Letters.{AreReady, IsOneFault, IsReady, LacksHeader, Merges};
ghost use Rattle.merge.specs.Letters.{MergesAfter, MergesFrom, PutsIf, PutsLetter, WritesNext};
ghost use Rattle.merge.specs.Letters.{WritesRows};
ghost use Rattle.merge.specs.Table.{HasTrouble, IsTrouble, with_line};
ghost use Rattle.merge.specs.{Columns.kinds_in, Columns.names_in, Values.AreShown};
ghost use Rattle.records.specs.Spellings.{text_of};
ghost use Rattle.records.specs.Tables.{AreEntries, Entry, GivesRecord, at, separator_of};

use crate::columns::columns_of;
use crate::progress::Progress;
use crate::samples::sample_of;
use crate::table::{
    LineFault, Trouble, count_trouble, goes_on, is_clean, push_broken, push_fault, repeats_of,
};
use crate::templates::{Fault, Form, Frame, Letters, Templates, Way, prepared_letters};
use crate::values::{row_of, views_of};
use interpolator::{Error, Escape, Pairs, Prepared, Row, TextWrite, Value, View};
use interpolator_escapes::{
    CsvEscaper, HtmlEscaper, JsonEscaper, LineEscaper, RecordEscaper, ShellEscaper,
};
use interpolator_laws::prepared::a_prepared_format_is_written;
use interpolator_laws::samples::a_view_has_a_text_by_its_kind;
use records::laws::a_table_is_read_in_one_way;
use records::{Field, ReadError, Reader, Separator};
use std::alloc::Global;

/// Writes what a template means with a row, each value escaped.
fn write_escaped<W: TextWrite, V: Value>(
    alloc: Global,
    out: &mut W,
    escape: Escape,
    letter: &Prepared,
    row: &Row<'_, V>,
) -> Result<(), Error>
    ensures { Outcome
        (means (escaped_shows escape V.shows)
        (environment (found_by_row letter.now.names (row_at row.now.0.now)))
        (outermost (chars letter.now.text)))
        (W.written out.old) (W.written out.new) (result_answer result) }
{
    match escape {
        Escape::Line => letter.write_by::<W, Row<'_, V>, LineEscaper>(alloc, out, row),
        Escape::Html => letter.write_by::<W, Row<'_, V>, HtmlEscaper>(alloc, out, row),
        Escape::Csv => letter.write_by::<W, Row<'_, V>, CsvEscaper>(alloc, out, row),
        Escape::Json => letter.write_by::<W, Row<'_, V>, JsonEscaper>(alloc, out, row),
        Escape::Shell => letter.write_by::<W, Row<'_, V>, ShellEscaper>(alloc, out, row),
    }
}

/// Writes what a template means with a row, each value under `?` as a whole field of CSV, and any
/// other escaped.
fn write_whole_fields<W: TextWrite, V: Value>(
    alloc: Global,
    out: &mut W,
    letter: &Prepared,
    row: &Row<'_, V>,
) -> Result<(), Error>
    ensures { Outcome
        (means (record_shows V.shows)
        (environment (found_by_row letter.now.names (row_at row.now.0.now)))
        (outermost (chars letter.now.text)))
        (W.written out.old) (W.written out.new) (result_answer result) }
{
    letter.write_by::<W, Row<'_, V>, RecordEscaper>(alloc, out, row)
}

/// Writes the letter of a record with these views, one for each column.
fn write_letter<W: TextWrite>(
    alloc: Global,
    out: &mut W,
    letter: &Form,
    frame: Frame<'_>,
    views: &[View<'_>],
) -> Result<(), Error>
    requires ready { IsReady letter.now.format (kinds_in frame.columns.now) frame.sample.now }
    requires shown { (fields : List (List ℕ)) × AreShown (kinds_in frame.columns.now) fields
        views.now }
    ensures { OnOk result (PutsLetter letter.now views.now (W.written out.old).text
        (W.written out.new).text) }
{
    let held = row_of(alloc, views)?;
    let row = Row(held.as_slice());
    match letter.way {
        Way::Plain => {
            a_view_has_a_text_by_its_kind();
            let sample = Pairs(frame.sample);
            a_prepared_format_is_written(alloc, out, &letter.format, &sample, &row)
        }
        Way::Escaped(escape) => write_escaped(alloc, out, escape, &letter.format, &row),
        Way::Record => write_whole_fields(alloc, out, &letter.format, &row),
    }
}

/// Writes the letter of a record with these fields, one for each column, if it is asked to, or
/// returns which of them is no number or float though its column wants one.
fn write_fields<W: TextWrite>(
    alloc: Global,
    out: &mut W,
    letters: &Letters,
    frame: Frame<'_>,
    fields: &[Field<'_>],
    writes: bool,
) -> Result<Option<Trouble>, Error>
    requires ready { AreReady letters.now (kinds_in frame.columns.now) frame.sample.now }
    requires whole { length fields.now ≡ length frame.columns.now }
    ensures trouble { IfOk result (λ trouble. IsTrouble (kinds_in frame.entry.columns.now)
        (map text_of fields.now) None trouble) }
    ensures puts { IfOk result (λ trouble. PutsIf letters.now (kinds_in frame.entry.columns.now)
        writes (map text_of fields.now) (W.written out.old).text (W.written out.new).text
        trouble) }
{
    let read = views_of(alloc, frame.columns, fields)?;
    match read {
        Err(column) => Ok(Some(Trouble::NotNumber(column))),
        Ok(views) => {
            if writes {
                let letter = letters.letter_of(fields);
                write_letter(alloc, out, letter, frame, views.as_slice())?;
                return Ok(None);
            }
            Ok(None)
        }
    }
}

/// Writes the letter of a record, if it is asked to, or returns what is wrong with it.
pub fn write_record<W: TextWrite>(
    alloc: Global,
    out: &mut W,
    letters: &Letters,
    frame: Frame<'_>,
    fields: &[Field<'_>],
    writes: bool,
) -> Result<Option<Trouble>, Error>
    requires ready { AreReady letters.now (kinds_in frame.columns.now) frame.sample.now }
    ensures trouble { IfOk result (λ trouble.
        HasTrouble (kinds_in frame.entry.columns.now) (map text_of fields.now) trouble) }
    ensures puts { IfOk result (λ trouble. PutsIf letters.now (kinds_in frame.entry.columns.now)
        writes (map text_of fields.now) (W.written out.old).text (W.written out.new).text
        trouble) }
{
    match count_trouble(fields.len(), frame.columns.len()) {
        Some(trouble) => Ok(Some(trouble)),
        None => write_fields(alloc, out, letters, frame, fields, writes),
    }
}

/// Writes the letter of the next record, if it is asked to and nothing was wrong before, or appends
/// what is wrong with it. Returns whether there was one.
fn write_next<'a, W: TextWrite>(
    alloc: Global,
    out: &mut W,
    faults: &mut Vec<LineFault>,
    letters: &Letters,
    frame: Frame<'_>,
    reader: &mut Reader<'a>,
    fields: &mut Vec<Field<'a>>,
    writes: bool,
) -> Result<bool, Error>
    requires ready { AreReady letters.now (kinds_in frame.columns.now) frame.sample.now }
    ensures ok { IfOk result (λ more. WritesNext (separator_of reader.old) letters.now
        (kinds_in frame.entry.columns.now) writes more (at reader.old) (at reader.new)
        faults.old.items faults.new.items (W.written out.old).text (W.written out.new).text) }
    ensures same { separator_of reader.new ≡ separator_of reader.old }
    ensures shorter { IfOk result (λ more. more ≡ true
        → length (at reader.new).text < length (at reader.old).text) }
{
    let goes = goes_on(writes, faults);
    match reader.next_record(alloc, fields) {
        Ok(None) => Ok(false),
        Ok(Some(line)) => {
            let trouble = write_record(alloc, out, letters, frame, fields.as_slice(), goes)?;
            push_fault(faults, line, trouble)?;
            Ok(true)
        }
        Err(ReadError::Fault(fault)) => {
            push_broken(faults, fault)?;
            Ok(true)
        }
        Err(ReadError::NoMemory) => Err(Error::NoMemory),
    }
}

/// Finds what is wrong with the names of a table and with the records that a reader has left of it;
/// and writes, if it is asked to, the letters of those before the first that is wrong.
pub fn write_rows<W: TextWrite>(
    alloc: Global,
    out: &mut W,
    letters: &Letters,
    frame: Frame<'_>,
    rest: Reader<'_>,
    writes: bool,
    progress: &mut Progress<'_>,
) -> Result<Vec<LineFault>, Error>
    requires ready { AreReady letters.now (kinds_in frame.columns.now) frame.sample.now }
    ensures { IfOk result (λ faults. (rows : List Entry)
        × AreEntries (separator_of rest.entry) rows (at rest.entry)
        × WritesRows letters.now (names_in frame.entry.columns.now)
        (kinds_in frame.entry.columns.now) writes rows (W.written out.old).text
        (W.written out.new).text faults.items) }
{
    let mut reader = rest;
    let mut fields = Vec::new(alloc);
    let mut faults = repeats_of(alloc, frame.columns)?;
    progress.begin(writes);
    'rows: while write_next(
        alloc,
        out,
        &mut faults,
        letters,
        frame,
        &mut reader,
        &mut fields,
        writes,
    )? {
        progress.count();
    }
    Ok(faults)
}

/// Writes the letters of the records that a reader has left, up to the first that is wrong, and
/// returns what is wrong with them and with the names.
fn write_letters<W: TextWrite>(
    alloc: Global,
    out: &mut W,
    letters: &Letters,
    frame: Frame<'_>,
    rest: Reader<'_>,
    progress: &mut Progress<'_>,
) -> Result<(), Fault>
    requires ready { AreReady letters.now (kinds_in frame.columns.now) frame.sample.now }
    ensures { MergesFrom (separator_of rest.entry) letters.now (names_in frame.entry.columns.now)
        (kinds_in frame.entry.columns.now) true (at rest.entry) (W.written out.old).text
        (W.written out.new).text result }
{
    let faults = write_rows(alloc, out, letters, frame, rest, true, progress)?;
    if is_clean(&faults) {
        return Ok(());
    }
    Err(Fault::Table(faults))
}

/// The same, but no letter is written if anything is wrong, unless a part of them is wanted.
fn merge_letters<W: TextWrite>(
    alloc: Global,
    out: &mut W,
    letters: &Letters,
    frame: Frame<'_>,
    rest: Reader<'_>,
    is_partial: bool,
    progress: &mut Progress<'_>,
) -> Result<(), Fault>
    requires ready { AreReady letters.now (kinds_in frame.columns.now) frame.sample.now }
    ensures { MergesFrom (separator_of rest.entry) letters.now (names_in frame.entry.columns.now)
        (kinds_in frame.entry.columns.now) is_partial (at rest.entry) (W.written out.old).text
        (W.written out.new).text result }
{
    if is_partial {
        return write_letters(alloc, out, letters, frame, rest, progress);
    }
    let faults = write_rows(alloc, out, letters, frame, rest, false, progress)?;
    if is_clean(&faults) {
        a_table_is_read_in_one_way();
        return write_letters(alloc, out, letters, frame, rest, progress);
    }
    Err(Fault::Table(faults))
}

/// The fault of a table with this one trouble, in this line.
fn one_fault(alloc: Global, line: usize, trouble: Trouble) -> Fault
    ensures { IsOneFault result (with_line line (Some trouble)) }
{
    let mut faults = Vec::new(alloc);
    match push_fault(&mut faults, line, Some(trouble)) {
        Ok(()) => Fault::Table(faults),
        Err(_) => Fault::Stopped,
    }
}

/// Fills in the fields of the header, which the reader of a table begins with.
pub fn read_header<'a>(
    alloc: Global,
    reader: &mut Reader<'a>,
    fields: &mut Vec<Field<'a>>,
) -> Result<(), Fault>
    ensures ok { OnOk result (GivesRecord (separator_of reader.old) (map text_of fields.new.items)
        (at reader.old) (at reader.new)) }
    ensures same { separator_of reader.new ≡ separator_of reader.old }
    ensures err { IfErr result (LacksHeader (separator_of reader.old) (at reader.old)) }
{
    match reader.next_record(alloc, fields) {
        Ok(Some(_)) => Ok(()),
        Ok(None) => Err(one_fault(alloc, 1, Trouble::Empty)),
        Err(ReadError::Fault(fault)) => {
            Err(one_fault(alloc, fault.place.line, Trouble::Broken(fault)))
        }
        Err(ReadError::NoMemory) => Err(Fault::Stopped),
    }
}

/// Writes the letters of the records that a reader has left behind a header with these fields.
fn merge_rows<W: TextWrite>(
    alloc: Global,
    out: &mut W,
    templates: Templates<'_>,
    header: &[Field<'_>],
    rest: Reader<'_>,
    is_partial: bool,
    progress: &mut Progress<'_>,
) -> Result<(), Fault>
    ensures { MergesAfter (separator_of rest.entry) templates.entry (map text_of header.now)
        is_partial (at rest.entry) (W.written out.old).text (W.written out.new).text result }
{
    let held = columns_of(alloc, header)?;
    let columns = held.as_slice();
    let text = View::Character('a');
    let number = View::Decimal { units: 0, scale: 0 };
    let held = sample_of(alloc, columns, &text, &number)?;
    let sample = held.as_slice();
    let frame = Frame { columns, sample };
    match prepared_letters(alloc, templates, frame) {
        Ok(letters) => merge_letters(alloc, out, &letters, frame, rest, is_partial, progress),
        Err(fault) => Err(fault),
    }
}

/// Writes a letter for each record of the table after the first, which names the fields. The
/// templates are read, checked and prepared once, before the first letter: after that no letter can
/// have a fault. Each letter is written as it is made. If a record is wrong no letter is written,
/// unless a part of them is wanted: then those of the records before it are.
///
/// # Errors
///
/// The fault of a first record whose names cannot be read; all faults that a template has with the
/// names, why it is not fit for the escape, or that the names lack the one of the column;
/// the faults of all records; `Stopped`.
pub fn merge<W: TextWrite>(
    alloc: Global,
    out: &mut W,
    templates: Templates<'_>,
    table: &str,
    separator: Separator,
    is_partial: bool,
    progress: &mut Progress<'_>,
) -> Result<(), Fault>
    ensures { Merges separator templates.entry table.now is_partial (W.written out.old).text
        (W.written out.new).text result }
{
    let mut reader = Reader::new(table, separator);
    let mut fields = Vec::new(alloc);
    match read_header(alloc, &mut reader, &mut fields) {
        Ok(()) => merge_rows(
            alloc,
            out,
            templates,
            fields.as_slice(),
            reader,
            is_partial,
            progress,
        ),
        Err(fault) => Err(fault),
    }
}
