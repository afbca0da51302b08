//! The templates of letters, prepared for the columns of a table, and why letters are missing.

ghost use Rattle.std.specs.Prelude.{◌≡◌, IfOk, MatchOption, MatchResult, map};
ghost use Rattle.merge.specs.Columns.{kinds_in, names_in};
ghost use Rattle.merge.specs.Letters.{ArePlaced, HasFaults, HasNames, IsReady, IsUnfit, LooksUp};
ghost use Rattle.merge.specs.Letters.{IsCsvWay, IsFit, IsMisplaced, IsUnfitForCsv, IsWay, Prepares};
ghost use Rattle.merge.specs.Letters.{form_by, form_for, format_of, further, is_csv, unfit_place};
ghost use Rattle.merge.specs.{Values.is_empty_at, declared.templates.Fault.TheVariants.Stopped};
ghost use Rattle.merge.specs.declared.templates.Way.TheVariants as ways;
ghost use Rattle.interpolator_escapes.specs.declared.escape.Escape.TheVariants.{Csv};
ghost use Rattle.records.specs.Spellings.{text_of};

use crate::columns::{Column, column_named};
use crate::samples::map_of;
use crate::table::LineFault;
use crate::values::is_empty_at;
use interpolator::{
    Error, Escape, Formattable, Interpolate, Misplaced, Pairs, PlaceError, Prepared, Template, View,
};
use interpolator_escapes::{Ending, check_format, check_record};
use records::Field;
use std::alloc::{AllocError, Global};

/// How the values of a template are written.
#[derive(Clone, Copy)]
pub enum Way {
    /// As they are.
    Plain,
    /// Escaped.
    Escaped(Escape),
    /// As records of CSV have them: under `?` as whole fields, and else escaped between quotes.
    Record,
}

/// Why a template is not fit for letters whose values are escaped.
#[derive(Clone, Copy)]
pub enum Unfit {
    /// This is its first value in no place of the escape.
    Misplaced(Misplaced),
    /// It ends where a value may stand, and not as it began: the next letter would begin there.
    EndsInPlace,
    /// It ends elsewhere than it began.
    EndsElsewhere,
}

/// Why letters are missing.
#[derive(Drop)]
pub enum Fault {
    /// All faults that the template has with the names of the table.
    Template(Vec<Error>),
    /// Those of the other template.
    Other(Vec<Error>),
    /// Why the template is not fit for the escape.
    Unfit(Unfit),
    /// Why the other template is not.
    OtherUnfit(Unfit),
    /// No column has the name of the one whose empty fields choose the other template.
    NoColumn,
    /// All lines of the table that have a fault.
    Table(Vec<LineFault>),
    /// Memory ran out, or the output refused a text.
    Stopped,
}

impl From<Error> for Fault {
    ghost from_gives = { λ _ fault. fault ≡ Stopped };

    fn from(_refused: Error) -> Fault {
        Fault::Stopped
    }
}

impl From<AllocError> for Fault {
    ghost from_gives = { λ _ fault. fault ≡ Stopped };

    fn from(_refused: AllocError) -> Fault {
        Fault::Stopped
    }
}

/// The templates of letters.
#[derive(Clone, Copy)]
pub struct Templates<'a> {
    /// The template.
    pub letter: &'a str,
    /// The other one, of the records with an empty field in the column.
    pub other: &'a str,
    /// The name of this column; without it, `other` is for no record.
    pub column: Option<&'a str>,
    /// How values are to be escaped, if they are.
    pub escape: Option<Escape>,
}

impl<'a> Templates<'a> {
    /// One template, for all records, whose values are as they are.
    pub fn plain(letter: &'a str) -> Templates<'a> {
        Templates {
            letter,
            other: "",
            column: None,
            escape: None,
        }
    }
}

/// A template, prepared for the columns of a table, and how its values are written.
#[derive(Drop)]
pub struct Form {
    pub format: Prepared,
    pub way: Way,
}

/// The templates, prepared for the columns of a table.
#[derive(Drop)]
pub struct Letters {
    letter: Form,
    other: Form,
    column: Option<usize>,
}

/// The columns of a table, and an example value of each under its name.
#[derive(Clone, Copy)]
pub struct Frame<'a> {
    pub columns: &'a [Column<'a>],
    pub sample: &'a [(&'a str, Formattable<'a, View<'a>>)],
}

/// Prepares a template, or returns all faults that it has with the sample.
fn prepared_letter(
    alloc: Global,
    text: &str,
    frame: Frame<'_>,
) -> Result<Result<Prepared, Vec<Error>>, Error>
    requires { HasNames (names_in frame.columns.now) (kinds_in frame.columns.now)
        frame.sample.now }
    ensures { IfOk result (λ made. MatchResult made
        (λ letter. (letter ≡ format_of text.now (names_in frame.entry.columns.now))
        × IsReady letter (kinds_in frame.entry.columns.now) frame.entry.sample.now)
        (λ faults. HasFaults (format_of text.now (names_in frame.entry.columns.now))
        (kinds_in frame.entry.columns.now) faults.items)) }
{
    let template = Template::parse(alloc, text)?;
    let refused = match template.prepare(alloc, &Pairs(frame.sample)) {
        Ok(letter) => return Ok(Ok(letter)),
        Err(refused) => refused,
    };
    let sample = map_of(alloc, frame.sample)?;
    let faults = sample.template_faults(alloc, &template)?;
    if faults.is_empty() {
        // then what was refused is memory
        return Err(refused);
    }
    Ok(Err(faults))
}

/// The column whose empty fields choose the other template, if one is asked for.
fn chosen_column(columns: &[Column<'_>], name: Option<&str>) -> Result<Option<usize>, Fault>
    ensures { LooksUp (names_in columns.now) name.entry result }
{
    let Some(name) = name else {
        return Ok(None);
    };
    match column_named(columns, name) {
        Some(column) => Ok(Some(column)),
        None => Err(Fault::NoColumn),
    }
}

/// Why a template is not fit for letters whose values are escaped, if it is not.
fn unfit_for(alloc: Global, escape: Escape, text: &str) -> Result<Option<Unfit>, Error>
    ensures { IfOk result (λ found. MatchOption found
        (IsFit (ways.Escaped escape) text.now) (IsUnfit (ways.Escaped escape) text.now)) }
{
    match check_format(alloc, escape, text) {
        Ok(Ending::Beginning) => Ok(None),
        Ok(Ending::Place) => Ok(Some(Unfit::EndsInPlace)),
        Ok(Ending::Elsewhere) => Ok(Some(Unfit::EndsElsewhere)),
        Err(PlaceError::Misplaced(misplaced)) => Ok(Some(Unfit::Misplaced(misplaced))),
        Err(PlaceError::NoMemory) => Err(Error::NoMemory),
    }
}

/// Why a template is not fit for letters that are records of CSV, if it is not.
fn unfit_as_record(alloc: Global, text: &str) -> Result<Option<Unfit>, Error>
    ensures { IfOk result (λ found.
        MatchOption found (IsFit ways.Record text.now) (IsUnfit ways.Record text.now)) }
{
    match check_record(alloc, text) {
        Ok(Ending::Beginning) => Ok(None),
        Ok(Ending::Place) => Ok(Some(Unfit::EndsInPlace)),
        Ok(Ending::Elsewhere) => Ok(Some(Unfit::EndsElsewhere)),
        Err(PlaceError::Misplaced(misplaced)) => Ok(Some(Unfit::Misplaced(misplaced))),
        Err(PlaceError::NoMemory) => Err(Error::NoMemory),
    }
}

/// The byte at which a template is not fit; its end, if it ends elsewhere.
fn unfit_place(text: &str, unfit: Unfit) -> usize
    ensures { result ≡ unfit_place text.now unfit }
{
    match unfit {
        Unfit::Misplaced(misplaced) => misplaced.place,
        Unfit::EndsInPlace => text.len(),
        Unfit::EndsElsewhere => text.len(),
    }
}

/// Of two reasons the one whose place lies further on; at one place, the second.
fn further(text: &str, first: Unfit, second: Unfit) -> Unfit
    ensures { result ≡ further text.now first second }
{
    if unfit_place(text, second) < unfit_place(text, first) {
        return first;
    }
    second
}

/// How a template of CSV is written: as a record, if it is fit for that; else escaped, if it is fit
/// for that. If it is for neither, the reason that lies further on tells what was meant.
fn csv_way(alloc: Global, text: &str) -> Result<Result<Way, Unfit>, Error>
    ensures { IfOk result (λ made. MatchResult made (IsCsvWay text.now) (IsUnfitForCsv text.now)) }
{
    let Some(first) = unfit_as_record(alloc, text)? else {
        return Ok(Ok(Way::Record));
    };
    let Some(second) = unfit_for(alloc, Escape::Csv, text)? else {
        return Ok(Ok(Way::Escaped(Escape::Csv)));
    };
    Ok(Err(further(text, first, second)))
}

/// Tests for [`Escape::Csv`].
fn is_csv(escape: Escape) -> bool
    ensures { result ≡ is_csv escape }
{
    match escape {
        Escape::Csv => true,
        _ => false,
    }
}

/// How a template is written, or why it is not fit for the escape, if one is asked for.
fn way_for(alloc: Global, escape: Option<Escape>, text: &str) -> Result<Result<Way, Unfit>, Error>
    ensures { IfOk result (λ made.
        MatchResult made (IsWay escape text.now) (IsMisplaced escape text.now)) }
{
    let Some(escape) = escape else {
        return Ok(Ok(Way::Plain));
    };
    if is_csv(escape) {
        return csv_way(alloc, text);
    }
    match unfit_for(alloc, escape, text)? {
        Some(unfit) => Ok(Err(unfit)),
        None => Ok(Ok(Way::Escaped(escape))),
    }
}

/// How both templates are written, if they are fit for the escape, if one is asked for.
fn ways_of(alloc: Global, templates: Templates<'_>) -> Result<(Way, Way), Fault>
    ensures { ArePlaced templates.entry result }
{
    let letter = match way_for(alloc, templates.escape, templates.letter)? {
        Ok(way) => way,
        Err(unfit) => return Err(Fault::Unfit(unfit)),
    };
    let other = match way_for(alloc, templates.escape, templates.other)? {
        Ok(way) => way,
        Err(unfit) => return Err(Fault::OtherUnfit(unfit)),
    };
    Ok((letter, other))
}

/// Prepares the templates.
pub fn prepared_letters(
    alloc: Global,
    templates: Templates<'_>,
    frame: Frame<'_>,
) -> Result<Letters, Fault>
    requires { HasNames (names_in frame.columns.now) (kinds_in frame.columns.now)
        frame.sample.now }
    ensures { Prepares templates.entry (names_in frame.entry.columns.now)
        (kinds_in frame.entry.columns.now) frame.entry.sample.now result }
{
    let column = chosen_column(frame.columns, templates.column)?;
    let letter = match prepared_letter(alloc, templates.letter, frame)? {
        Ok(letter) => letter,
        Err(faults) => return Err(Fault::Template(faults)),
    };
    let other = match prepared_letter(alloc, templates.other, frame)? {
        Ok(other) => other,
        Err(faults) => return Err(Fault::Other(faults)),
    };
    let (letter_way, other_way) = ways_of(alloc, templates)?;
    Ok(Letters {
        letter: Form {
            format: letter,
            way: letter_way,
        },
        other: Form {
            format: other,
            way: other_way,
        },
        column,
    })
}

impl Letters {
    /// The template of a record with these fields.
    pub fn letter_of(&self, fields: &[Field<'_>]) -> &Form
        ensures { result.now ≡ form_for self.now (map text_of fields.now) }
    {
        match self.column {
            Some(column) => self.letter_by(fields, column),
            None => &self.letter,
        }
    }

    /// The template of a record with these fields, by that in a column.
    fn letter_by(&self, fields: &[Field<'_>], column: usize) -> &Form
        ensures { result.now
            ≡ form_by self.now (is_empty_at column (map text_of fields.now)) }
    {
        if is_empty_at(fields, column) {
            return &self.other;
        }
        &self.letter
    }
}
