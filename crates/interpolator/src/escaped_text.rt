//! The text of a format whose values are written escaped, by one call.
ghost use Rattle.std.specs.Prelude.{◌≡◌, Some};
ghost use Rattle.interpolator.specs.EscapedTexts.{MakesEscaped, escape_error_text, of_place};
ghost use Rattle.interpolator.specs.declared.escaped_text.EscapeError.TheVariants.{Fault};

use crate::template::Template;
use interpolator_escapes::{Escape, Misplaced, PlaceError};
use interpolator_eval::Context;
use interpolator_syntax::{Error, write_unstyled};
use std::alloc::Global;
use std::fmt;

/// Why there is no escaped text. `{}` writes one line, as `{}` of what it holds does.
#[derive(Debug, Drop)]
pub enum EscapeError {
    /// A value or a list is out of place: the first one.
    Misplaced(Misplaced),
    /// The fault of a format whose values are all in place, or `NoMemory`.
    Fault(Error),
}

impl std::error::Error for EscapeError {}

impl fmt::Display for EscapeError {
    ghost output = { λ error. Some (escape_error_text error) };

    ghost styled_output = { λ error _. Some (escape_error_text error) };

    fn fmt<W: fmt::Write>(&self, f: &mut fmt::Formatter<W>) -> fmt::Result {
        match self {
            EscapeError::Misplaced(misplaced) => write_unstyled(f, *misplaced),
            EscapeError::Fault(error) => write_unstyled(f, error),
        }
    }
}

/// Converts to `EscapeError::Fault`.
impl From<Error> for EscapeError {
    ghost from_gives = { λ fault error. error ≡ Fault fault };

    fn from(fault: Error) -> EscapeError {
        EscapeError::Fault(fault)
    }
}

/// Converts to the same variant, and `NoMemory` to that of `EscapeError::Fault`.
impl From<PlaceError> for EscapeError {
    ghost from_gives = { λ place error. error ≡ of_place place };

    fn from(place: PlaceError) -> EscapeError {
        match place {
            PlaceError::Misplaced(misplaced) => EscapeError::Misplaced(misplaced),
            PlaceError::NoMemory => EscapeError::Fault(Error::NoMemory),
        }
    }
}

/// The format's text in a new `String`, each value escaped, if all its values stand in places of
/// the escape: what [`EscapedTemplate::format`](crate::EscapedTemplate::format) makes. For a format
/// that is used often, keep the template.
///
/// # Errors
///
/// - `Misplaced`: the first value or list that does not stand, as [`Template::escaped`] returns it.
/// - `Fault`: the fault of a format whose values all stand, at its place, where `Fmt` means that a
///   value failed; or `NoMemory`.
///
/// # Example
///
/// ```text
/// format_escaped(alloc, Escape::Line, "user {name}", &values!(name))?
/// // with a newline and `Ann` under `name`: user \nAnn
/// ```
pub fn format_escaped<C: Context>(
    alloc: Global,
    escape: Escape,
    text: &str,
    context: &C,
) -> Result<String, EscapeError>
    ensures { MakesEscaped escape C.Object.shows (C.finds context.now) text.now result }
{
    let page = Template::parse(alloc, text)?.escaped(alloc, escape)?;
    Ok(page.format(alloc, context)?)
}
