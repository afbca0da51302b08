//! The columns of a table: their names, and what their fields are.

ghost use Rattle.std.specs.Prelude.{◌≡◌, IfOk, map};
ghost use Rattle.std.specs.{Option.option_map, Str.trim, List.position};
ghost use Rattle.merge.specs.Columns.{as_column, column_named, column_of, is_named, kinds_in};
ghost use Rattle.merge.specs.Columns.{names_in, without};
ghost use Rattle.records.specs.Spellings.{text_of};

use records::Field;
use std::alloc::{AllocError, Global};

const NUMBER_MARK: &str = ":";

const FLOAT_MARK: &str = ":~";

/// What the fields of a column are.
#[derive(Clone, Copy, Debug, PartialEq, Eq)]
pub enum Kind {
    /// Texts.
    Text,
    /// Whole numbers and decimals.
    Number,
    /// Floats.
    Float,
}

/// A column: its name, and what its fields are.
#[derive(Clone, Copy, Debug)]
pub struct Column<'a> {
    pub name: &'a str,
    pub kind: Kind,
}

/// The column that a field of the first line names: `price:` is a column of numbers with the name
/// `price`, `x:~` one of floats with the name `x`, and any other text is the name of a column of
/// texts. White space around a name does not count.
fn column_of(field: &str) -> Column<'_>
    ensures { as_column result ≡ column_of field.now }
{
    let name = field.trim();
    if let Some(column) = with_ending(NUMBER_MARK, Kind::Number, name) {
        return column;
    }
    if let Some(column) = with_ending(FLOAT_MARK, Kind::Float, name) {
        return column;
    }
    Column {
        name,
        kind: Kind::Text,
    }
}

/// The column whose name is before an ending, if a text ends so.
#[tactic(auto, using(std::proofs::lemmas::Slice::Eq::ends_is))]
fn with_ending<'a>(ending: &str, kind: Kind, text: &'a str) -> Option<Column<'a>>
    ensures { option_map as_column result
        ≡ option_map (λ name. (trim name, kind)) (without ending.now text.now) }
{
    match text.strip_suffix(ending) {
        Some(name) => Some(Column {
            name: name.trim(),
            kind,
        }),
        None => None,
    }
}

/// The columns that the fields of the first line name.
pub fn columns_of<'a>(alloc: Global, fields: &'a [Field<'_>]) -> Result<Vec<Column<'a>>, AllocError>
    ensures kinds { IfOk result (λ columns. kinds_in columns.items
        ≡ map (λ column. column.1) (map column_of (map text_of fields.now))) }
    ensures names { IfOk result (λ columns. names_in columns.items
        ≡ map (λ column. column.0) (map column_of (map text_of fields.now))) }
{
    let mut columns = Vec::with_capacity(alloc, fields.len())?;
    for field in fields.iter() {
        columns.push(column_of(field.as_str()))?;
    }
    Ok(columns)
}

/// The names of columns.
pub fn names_of<'a>(alloc: Global, columns: &[Column<'a>]) -> Result<Vec<&'a str>, AllocError>
    ensures { IfOk result (λ names.
        map (λ x. x.now) names.items ≡ names_in columns.now) }
{
    let mut names = Vec::with_capacity(alloc, columns.len())?;
    for column in columns.iter() {
        names.push(column.name)?;
    }
    Ok(names)
}

/// Whether a column has this name.
fn is_named(column: &Column<'_>, name: &str) -> bool
    ensures { result ≡ is_named name.now column.now }
{
    column.name == name
}

/// The place of the first column that has this name, from 0.
fn place_of(columns: &[Column<'_>], name: &str) -> Option<usize>
    ensures { result ≡ position (is_named name.now) columns.now }
{
    columns.iter().position(|column| is_named(column, name))
}

/// The place of the column of a name, from 0.
pub fn column_named(columns: &[Column<'_>], name: &str) -> Option<usize>
    ensures { result ≡ column_named (names_in columns.now) name.now }
{
    place_of(columns, name)
}
