//! The fields of a line as values, each as its column wants it.

ghost use Rattle.std.specs.Prelude.{◌≡◌, IfOk, MatchOption, MatchResult, Some, length, map};
ghost use Rattle.interpolator.specs.Slots.{slots_of};
ghost use Rattle.merge.specs.Columns.{kinds_in};
ghost use Rattle.merge.specs.Values.{AreShown, Fits, IsMisfit, Shows, as_value, example_by};
ghost use Rattle.merge.specs.Values.{is_empty_at};
ghost use Rattle.records.specs.Spellings.{text_of};
ghost use Rattle.merge.specs.declared.columns.Kind.TheVariants.{Float, Number};

use crate::columns::{Column, Kind};
use interpolator::{Decimal, Formattable, View};
use records::Field;
use std::alloc::{AllocError, Global};

/// The view of the number in a field, if it has one, with white space around it or none.
fn number_in(field: &str) -> Option<View<'_>>
    ensures { MatchOption result (¬ Fits Number field.now) (λ view. Shows Number field.now view) }
{
    match Decimal::parse(field.trim()) {
        Ok(decimal) => Some(View::Decimal {
            units: decimal.units,
            scale: decimal.scale,
        }),
        Err(_) => None,
    }
}

/// The view of the float in a field, if it has one, with white space around it or none.
fn float_in(field: &str) -> Option<View<'_>>
    ensures { MatchOption result (¬ Fits Float field.now) (λ view. Shows Float field.now view) }
{
    match field.trim().parse::<f64>() {
        Ok(value) => Some(View::Float(value)),
        Err(_) => None,
    }
}

/// The view of a field in a column, if it is what the column wants.
fn view_of(kind: Kind, field: &str) -> Option<View<'_>>
    ensures { MatchOption result (¬ Fits kind field.now) (λ view. Shows kind field.now view) }
{
    match kind {
        Kind::Text => Some(View::Text(field)),
        Kind::Number => number_in(field),
        Kind::Float => float_in(field),
    }
}

/// The views of the fields of a line, one for each column; or the number, from 1, of the first
/// column of numbers or floats whose field is none.
pub fn views_of<'a>(
    alloc: Global,
    columns: &[Column<'_>],
    fields: &'a [Field<'_>],
) -> Result<Result<Vec<View<'a>>, usize>, AllocError>
    requires { length fields.now ≡ length columns.now }
    ensures { IfOk result (λ read. MatchResult read
        (λ views. AreShown (kinds_in columns.now) (map text_of fields.now)
        views.items)
        (λ column. IsMisfit 1 (kinds_in columns.now)
        (map text_of fields.now) (Some column))) }
{
    let mut views = Vec::with_capacity(alloc, fields.len())?;
    for (at, field) in fields.iter().enumerate() {
        match view_of(columns[at].kind, field.as_str()) {
            Some(view) => views.push(view)?,
            None => return Ok(Err(at + 1)),
        }
    }
    Ok(Ok(views))
}

/// A view as a value: a number or a float fills the slots of debug, display and exponents, and a
/// text those of debug and display.
fn as_value<'a>(view: &'a View<'a>) -> Formattable<'a, View<'a>>
    ensures { slots_of result ≡ as_value view.now }
{
    match view {
        View::Decimal { .. } => Formattable::float(view),
        View::Float(_) => Formattable::float(view),
        _ => Formattable::debug_display(view),
    }
}

/// The views as the values of a row.
pub fn row_of<'a>(
    alloc: Global,
    views: &'a [View<'a>],
) -> Result<Vec<Formattable<'a, View<'a>>>, AllocError>
    ensures { IfOk result (λ row. map slots_of row.items ≡ map as_value views.now) }
{
    let mut row = Vec::with_capacity(alloc, views.len())?;
    for view in views.iter() {
        row.push(as_value(view))?;
    }
    Ok(row)
}

/// An example of the fields of a column, of an example of a text and one of a number. A float can
/// be formatted under the same traits as a number.
pub fn example_of<'a>(
    kind: Kind,
    text: &'a View<'a>,
    number: &'a View<'a>,
) -> Formattable<'a, View<'a>>
    ensures { slots_of result ≡ example_by text.now number.now kind }
{
    match kind {
        Kind::Text => as_value(text),
        Kind::Number => as_value(number),
        Kind::Float => as_value(number),
    }
}

/// Whether the field of a column is empty.
pub fn is_empty_at(fields: &[Field<'_>], column: usize) -> bool
    ensures { result ≡ is_empty_at column (map text_of fields.now) }
{
    match fields.get(column) {
        Some(field) => field.as_str().is_empty(),
        None => false,
    }
}
