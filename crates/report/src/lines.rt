//! Records as lines, each by one format, which is checked once before the first: after that no line
//! has a fault.

ghost use Rattle.std.specs.Prelude.{◌≡◌, ◌∷◌, ◌++◌, [], ℕ, List, IfOk, MatchResult, OnOk, length};
ghost use Rattle.std.specs.Prelude.{map, string_bytes};
ghost use Rattle.std.specs.Str.{chars, encode_utf8_all};
ghost use Rattle.interpolator.specs.{Prepared.Rows.pair_names, Slots.slots_of};
ghost use Rattle.report.specs.Lines.{AreLines, AreShown, HasFaults, HasNames, IsReady, IsShown};
ghost use Rattle.report.specs.Lines.{IsShownAs, PutsLine, PutsLines, PutsViews, as_value};
ghost use Rattle.report.specs.Lines.{entries_of, format_of, kinds_in, names_in, shown_character};
ghost use Rattle.report.specs.Lines.{without_controls};

use crate::rows::entry_in;
use crate::totals::{Cell, cell_of};
use interpolator::{
    Error, Formattable, Interpolate, Pairs, Prepared, Row, Template, TextBuffer, TextWrite, View,
};
use interpolator_laws::prepared::a_prepared_format_is_written;
use interpolator_laws::samples::a_view_has_a_text_by_its_kind;
use records::Record;
use std::alloc::{AllocError, Global};

/// A column that a format names.
#[derive(Clone, Copy)]
pub struct Named<'a> {
    pub name: &'a str,
    /// Its index in a record.
    pub index: usize,
    /// Whether its entries are shown as numbers, where they are some.
    pub is_numeric: bool,
}

/// The columns that a format names, and an example value of each under its name.
#[derive(Clone, Copy)]
pub struct Frame<'a> {
    pub columns: &'a [Named<'a>],
    pub sample: &'a [(&'a str, Formattable<'a, View<'a>>)],
}

/// This example value under the name of each column.
pub fn sample_of<'a>(
    alloc: Global,
    columns: &'a [Named<'a>],
    example: &'a View<'a>,
) -> Result<Vec<(&'a str, Formattable<'a, View<'a>>)>, AllocError>
    ensures names { IfOk result (λ sample. pair_names sample.items ≡ names_in columns.now) }
    ensures values { IfOk result (λ sample. map (λ pair. slots_of pair.1) sample.items
        ≡ map (λ _. as_value example.now) columns.now) }
{
    let mut sample = Vec::with_capacity(alloc, columns.len())?;
    for column in columns.iter() {
        sample.push((column.name, Formattable::debug_display(example)))?;
    }
    Ok(sample)
}

/// Prepares a format, or returns all faults that it has with the sample.
pub fn prepared_line(
    alloc: Global,
    template: &Template,
    frame: Frame<'_>,
) -> Result<Result<Prepared, Vec<Error>>, Error>
    requires { HasNames (names_in frame.columns.now) frame.sample.now }
    ensures { IfOk result (λ made. MatchResult made
        (λ line. (line ≡ format_of template.now (names_in frame.entry.columns.now))
        × IsReady line frame.entry.sample.now)
        (λ faults. HasFaults (format_of template.now (names_in frame.entry.columns.now))
        faults.items)) }
{
    let sample = Pairs(frame.sample);
    let faults = sample.template_faults(alloc, template)?;
    if faults.is_empty() {
        return Ok(Ok(template.prepare(alloc, &sample)?));
    }
    Ok(Err(faults))
}

/// What a character is shown as: a control as a blank.
pub fn shown_character(c: char) -> char
    ensures { result ≡ shown_character c }
{
    if c.is_control() { ' ' } else { c }
}

/// A text with a blank for each control character.
fn without_controls(alloc: Global, text: &str) -> Result<String, AllocError>
    ensures { IfOk result (λ shown. string_bytes shown ≡ without_controls text.now) }
{
    let mut shown = String::with_capacity(alloc, text.len())?;
    for c in text.chars() {
        shown.push(shown_character(c))?;
    }
    Ok(shown)
}

/// The entries of a record in some columns.
fn entries_of(
    alloc: Global,
    columns: &[Named<'_>],
    record: &Record<'_>,
) -> Result<Vec<String>, AllocError>
    ensures { IfOk result (λ entries.
        map string_bytes entries.items ≡ entries_of columns.now record.now) }
{
    let mut entries = Vec::with_capacity(alloc, columns.len())?;
    for column in columns.iter() {
        entries.push(without_controls(alloc, entry_in(record, column.index))?)?;
    }
    Ok(entries)
}

/// What an entry is shown as, by what it is: where numbers are, a number as one, and else a text.
fn shown_as(is_numeric: bool, entry: &str, cell: Cell) -> View<'_>
    ensures { IsShownAs is_numeric entry.now cell result }
{
    if !is_numeric {
        return View::Text(entry);
    }
    match cell {
        Cell::Number(number) => View::Decimal {
            units: number.units,
            scale: number.scale,
        },
        Cell::Empty => View::Text(entry),
        Cell::Large => View::Text(entry),
        Cell::Other => View::Text(entry),
    }
}

/// What an entry is shown as in a column of numbers, or in another.
fn view_of(is_numeric: bool, entry: &str) -> View<'_>
    ensures { IsShown is_numeric entry.now result }
{
    shown_as(is_numeric, entry, cell_of(entry))
}

/// What the entries of columns are shown as.
fn views_of<'a>(
    alloc: Global,
    columns: &[Named<'_>],
    entries: &'a [String],
) -> Result<Vec<View<'a>>, AllocError>
    requires { length entries.now ≡ length columns.now }
    ensures { IfOk result (λ views.
        AreShown (kinds_in columns.now) (map string_bytes entries.now) views.items) }
{
    let mut views = Vec::with_capacity(alloc, entries.len())?;
    for (at, entry) in entries.iter().enumerate() {
        views.push(view_of(columns[at].is_numeric, entry.as_str()))?;
    }
    Ok(views)
}

/// The views as the values of a row.
fn row_of<'a>(
    alloc: Global,
    views: &'a [View<'a>],
) -> Result<Vec<Formattable<'a, View<'a>>>, AllocError>
    ensures { IfOk result (λ row. map slots_of row.items ≡ map as_value views.now) }
{
    let mut row = Vec::with_capacity(alloc, views.len())?;
    for view in views.iter() {
        row.push(Formattable::debug_display(view))?;
    }
    Ok(row)
}

/// Writes the line of a record whose entries are shown as these views.
fn write_views<W: TextWrite>(
    alloc: Global,
    out: &mut W,
    line: &Prepared,
    frame: Frame<'_>,
    views: &[View<'_>],
) -> Result<(), Error>
    requires names { line.now.names ≡ names_in frame.columns.now }
    requires ready { IsReady line.now frame.sample.now }
    requires shown { (entries : List (List ℕ)) × AreShown (kinds_in frame.columns.now) entries
        views.now }
    ensures { OnOk result (PutsViews line.now views.now (W.written out.old).text
        (W.written out.new).text) }
{
    let held = row_of(alloc, views)?;
    let row = Row(held.as_slice());
    a_view_has_a_text_by_its_kind();
    let sample = Pairs(frame.sample);
    a_prepared_format_is_written(alloc, out, line, &sample, &row)
}

/// Writes the line of a record, without its end.
fn write_line<W: TextWrite>(
    alloc: Global,
    out: &mut W,
    line: &Prepared,
    frame: Frame<'_>,
    record: &Record<'_>,
) -> Result<(), Error>
    requires names { line.now.names ≡ names_in frame.columns.now }
    requires ready { IsReady line.now frame.sample.now }
    ensures { OnOk result (PutsLine line.now frame.entry.columns.now record.now
        (W.written out.old).text (W.written out.new).text) }
{
    let entries = entries_of(alloc, frame.columns, record)?;
    let views = views_of(alloc, frame.columns, entries.as_slice())?;
    write_views(alloc, out, line, frame, views.as_slice())
}

/// Writes a text.
fn put_text<W: TextWrite>(out: &mut W, text: &str) -> Result<(), Error>
    ensures { OnOk result ((W.written out.new).text ≡ (W.written out.old).text ++ chars text.now) }
{
    match out.write_str(text) {
        Ok(()) => Ok(()),
        Err(_) => Err(Error::NoMemory),
    }
}

/// Writes the line of a record, and its end.
fn write_whole<W: TextWrite>(
    alloc: Global,
    out: &mut W,
    line: &Prepared,
    end: &str,
    frame: Frame<'_>,
    record: &Record<'_>,
) -> Result<(), Error>
    requires names { line.now.names ≡ names_in frame.columns.now }
    requires ready { IsReady line.now frame.sample.now }
    ensures { OnOk result (PutsLines line.now (chars end.now) frame.entry.columns.now
        (record.now ∷ []) (W.written out.old).text (W.written out.new).text) }
{
    write_line(alloc, out, line, frame, record)?;
    put_text(out, end)?;
    Ok(())
}

/// Writes the lines of records.
fn write_lines<W: TextWrite>(
    alloc: Global,
    out: &mut W,
    line: &Prepared,
    end: &str,
    frame: Frame<'_>,
    records: &[Record<'_>],
) -> Result<(), Error>
    requires names { line.now.names ≡ names_in frame.columns.now }
    requires ready { IsReady line.now frame.sample.now }
    ensures { OnOk result (PutsLines line.now (chars end.now) frame.entry.columns.now
        records.now (W.written out.old).text (W.written out.new).text) }
{
    for record in records.iter() {
        write_whole(alloc, out, line, end, frame, record)?;
    }
    Ok(())
}

/// The lines of records, each by a format that has no fault with the sample, and with this end.
///
/// # Errors
///
/// Memory ran out.
pub fn lines_of(
    alloc: Global,
    line: &Prepared,
    end: &str,
    frame: Frame<'_>,
    records: &[Record<'_>],
) -> Result<String, AllocError>
    requires names { line.now.names ≡ names_in frame.columns.now }
    requires ready { IsReady line.now frame.sample.now }
    ensures { IfOk result (λ text. AreLines line.now (chars end.now) frame.entry.columns.now
        records.now (chars (string_bytes text))) }
{
    let mut out = TextBuffer::new(alloc);
    match write_lines(alloc, &mut out, line, end, frame, records) {
        Ok(()) => Ok(out.into_string()),
        Err(_) => Err(AllocError),
    }
}
