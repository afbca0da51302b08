//! A table: one format, read and prepared once, over each of its rows.
ghost use Rattle.std.specs.Prelude.{◌≡◌, ◌≤◌, ◌↔◌, ◌+◌, ◌*◌, [], false, length, take, drop, map};
ghost use Rattle.std.specs.Prelude.{IfOk, IsTrue, MatchResult, Ok, Err};
ghost use Rattle.interpolator_eval.specs.Slots.{slots_of};
ghost use Rattle.interpolator_border.specs.Fields.{field_slots};
ghost use Rattle.interpolator_border.specs.Tables.{Appended, MadeRows, PairsMade, Prepares};
ghost use Rattle.interpolator_border.specs.Tables.{RowsAnswers, TellsRows, cell_at, values_mean};

use crate::answer::{Answer, Failure, put, reported_failure, reported_fault, well};
use crate::bytes::text_of;
use crate::cells::CellRow;
use crate::field::Field;
use crate::formatting::{MOST_MORE, reported_no_memory};
use crate::levels::all_within;
use crate::slots::field_slots;
use interpolator::{Error, Formattable, Pairs, Prepared, Template, TextBuffer, TextWrite};
use std::alloc::{AllocError, Global};

/// A table: its columns, each an example under its name, and the cells of its rows.
#[derive(Clone, Copy)]
pub struct Table<'a> {
    /// A name, and an example, for each cell of a row.
    pub columns: &'a [Field<'a>],
    /// The cells, row by row.
    pub cells: &'a [Field<'a>],
}

/// The columns: a name, and what its example stands for.
fn pairs_of<'a>(
    alloc: Global,
    columns: &'a [Field<'a>],
) -> Result<Vec<(&'a str, Formattable<'a, Field<'a>>)>, Failure>
    ensures { PairsMade columns.now result }
{
    let mut pairs = match Vec::with_capacity(alloc, columns.len()) {
        Ok(pairs) => pairs,
        Err(_) => return Err(Failure::Fault(Error::NoMemory)),
    };
    for column in columns {
        let Some(name) = text_of(column.name) else {
            return Err(Failure::NotUtf8);
        };
        match pairs.push((name, field_slots(&[], column))) {
            Ok(()) => {}
            Err(_) => return Err(Failure::Fault(Error::NoMemory)),
        }
    }
    Ok(pairs)
}

/// The format, prepared over the columns.
fn prepare<'a>(alloc: Global, format: &[u8], columns: &'a [Field<'a>]) -> Result<Prepared, Failure>
    ensures { Prepares columns.now format.now result }
{
    let Some(text) = text_of(format) else {
        return Err(Failure::NotUtf8);
    };
    let template = match Template::parse(alloc, text) {
        Ok(template) => template,
        Err(error) => return Err(Failure::Fault(error)),
    };
    match pairs_of(alloc, columns) {
        Ok(pairs) => match template.prepare(alloc, &Pairs(&pairs)) {
            Ok(line) => Ok(line),
            Err(error) => Err(Failure::Fault(error)),
        },
        Err(failure) => Err(failure),
    }
}

/// Appends a row of cells, and returns where it ends.
#[tactic(auto, using(crate::proofs::AnswerLemmas::appended, interpolator_eval::proofs::FieldNameLemmas::name_bytes))]
fn put_row<'a>(
    alloc: Global,
    out: &mut TextBuffer,
    line: &Prepared,
    cells: &'a [Field<'a>],
) -> Result<usize, Error>
    requires goes_on { out.old.refused ≡ false }
    ensures { Appended (values_mean line.now.names line.now.text (cell_at cells.now)) out.old out.new
        result }
{
    let written = line.write_named(alloc, out, &CellRow(cells));
    if out.refused() {
        return Err(Error::NoMemory);
    }
    let end = out.as_str().len();
    // The answer is moved only if there is a fault.
    if written.is_ok() {
        return Ok(end);
    }
    ending(written, end)
}

/// What was written, with where it ends.
#[cold]
#[inline(never)]
fn ending(written: Result<(), Error>, end: usize) -> Result<usize, Error>
    ensures { MatchResult written (λ _. result ≡ Ok end) (λ e. result ≡ Err e) }
{
    match written {
        Ok(()) => Ok(end),
        Err(error) => Err(error),
    }
}

/// The cells of a row.
fn cells_at<'a>(cells: &'a [Field<'a>], width: usize, row: usize) -> &'a [Field<'a>]
    requires { row * width + width ≤ length cells.now }
    ensures { result.now ≡ take width (drop (row * width) cells.now) }
{
    let (_, rest) = cells.split_at(row * width);
    let (row, _) = rest.split_at(width);
    row
}

/// A fault, and how many rows come before it.
#[derive(Drop)]
struct RowFault {
    row: usize,
    error: Error,
}

/// Appends the rows of a table, and notes where each ends.
fn put_rows<'a>(
    alloc: Global,
    out: &mut TextBuffer,
    line: &Prepared,
    table: Table<'a>,
    ends: &mut [usize],
) -> Result<(), RowFault>
    requires goes_on { out.old.refused ≡ false }
    requires empty { out.old.text ≡ [] }
    requires table { length table.cells.now ≡ length ends.old * length table.columns.now }
    ensures { MadeRows line.now.names line.now.text (length table.entry.columns.now)
        table.entry.cells.now ends.old ends.new out.new result }
{
    let width = table.columns.len();
    for row in 0..ends.len() {
        match put_row(alloc, out, line, cells_at(table.cells, width, row)) {
            Ok(end) => ends[row] = end,
            Err(error) => return Err(RowFault { row, error }),
        }
    }
    Ok(())
}

/// How many bytes the texts of so many rows may have, at first: as many for each as a new buffer of
/// `format` has, but no more than fit in the room.
fn first_bytes(format: usize, rows: usize, room: usize) -> usize {
    let row = format.saturating_add(format.min(MOST_MORE));
    row.saturating_mul(rows).min(room)
}

/// An empty buffer with memory for so many bytes.
fn buffer_with(alloc: Global, bytes: usize) -> Result<TextBuffer, AllocError>
    ensures { IfOk result (λ out. (out.text ≡ []) × (out.refused ≡ false)) }
{
    let mut out = TextBuffer::from_string(String::with_capacity(alloc, bytes)?);
    out.clear();
    Ok(out)
}

/// Formats each row of a table, and copies the texts to the caller.
fn rows_of<'a>(
    alloc: Global,
    mut out: TextBuffer,
    line: &Prepared,
    table: Table<'a>,
    ends: &mut [usize],
    room: &mut [u8],
) -> Answer
    requires goes_on { out.refused ≡ false }
    requires empty { out.text ≡ [] }
    requires table { length table.cells.now ≡ length ends.old * length table.columns.now }
    ensures { TellsRows line.now.names line.now.text (length table.entry.columns.now)
        table.entry.cells.now ends.old ends.new room.old room.new result }
{
    match put_rows(alloc, &mut out, line, table, ends) {
        Ok(()) => {
            let text = out.as_str();
            put(room, text.as_bytes());
            well(text.len())
        }
        Err(wrong) => Answer {
            row: wrong.row,
            ..reported_fault(alloc, &wrong.error, 0, room)
        },
    }
}

/// Formats each row of a table, which has as many rows as `ends` has places, and as many cells in
/// each row as there are columns. The texts come to the front of the room one after the other, if
/// they fit, and `ends` gets where each ends.
#[tactic(auto, using(crate::proofs::TableLemmas::columns_fail, crate::proofs::TableLemmas::no_rows))]
pub fn rows<'a>(
    alloc: Global,
    format: &[u8],
    table: Table<'a>,
    ends: &mut [usize],
    room: &mut [u8],
) -> Answer
    ensures { RowsAnswers table.entry.columns.now table.entry.cells.now format.now ends.old ends.new
        room.old room.new result }
{
    if !all_within(0, table.columns) || !all_within(0, table.cells) {
        return reported_failure(alloc, &Failure::Lists, room);
    }
    if !is_table(table.columns.len(), ends.len(), table.cells.len()) {
        return reported_failure(alloc, &Failure::Table, room);
    }
    let line = match prepare(alloc, format, table.columns) {
        Ok(line) => line,
        Err(failure) => return reported_failure(alloc, &failure, room),
    };
    match buffer_with(alloc, first_bytes(format.len(), ends.len(), room.len())) {
        Ok(out) => rows_of(alloc, out, &line, table, ends, room),
        Err(_) => reported_no_memory(alloc, room),
    }
}

/// Whether there are as many cells as columns times rows.
fn is_table(columns: usize, rows: usize, cells: usize) -> bool
    ensures { IsTrue result ↔ (cells ≡ rows * columns) }
{
    match rows.checked_mul(columns) {
        Some(wanted) => wanted == cells,
        None => false,
    }
}
