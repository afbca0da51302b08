//! The field at the beginning of a text.

ghost use Rattle.std.specs.Prelude.{◌≡◌};
ghost use Rattle.records.specs.Scans.{IsUnquoted, ReadsField, problem_at};

use crate::fault::{Problem, Stop};
use crate::field::Field;
use crate::quoted::take_quoted;
use crate::scan::{CARRIAGE_RETURN, QUOTE, ends_field, skip_blanks, split_plain, strip};
use crate::separator::Separator;
use std::alloc::Global;

/// What is wrong where a field does not end: a carriage return, or else this problem.
fn problem_at(tail: &str, other: Problem) -> Problem
    ensures { result ≡ problem_at other tail.now }
{
    match tail.as_bytes() {
        [b, ..] if *b == CARRIAGE_RETURN => Problem::LoneReturn,
        _ => other,
    }
}

/// The field without quotes that a text begins with, and the text after it.
fn plain_field<'a>(text: &'a str, separator: Separator) -> Result<(Field<'a>, &'a str), Stop<'a>>
    requires { IsUnquoted text.now }
    ensures { ReadsField separator text.now result }
{
    let (front, tail) = split_plain(text, separator);
    if ends_field(tail, separator) {
        return Ok((Field::Lent(front), tail));
    }
    Err(Stop::Broken(problem_at(tail, Problem::StrayQuote), tail))
}

/// The field that a text begins with, and the text after it, and after the blanks behind a quote.
pub(crate) fn take_field<'a>(
    alloc: Global,
    text: &'a str,
    separator: Separator,
) -> Result<(Field<'a>, &'a str), Stop<'a>>
    ensures { ReadsField separator text.now result }
{
    let rest = skip_blanks(text);
    let Some(inner) = strip(rest, QUOTE) else {
        return plain_field(text, separator);
    };
    match take_quoted(alloc, inner) {
        Err(_) => Err(Stop::NoMemory),
        Ok(None) => Err(Stop::Broken(Problem::Unclosed, rest)),
        Ok(Some((field, after))) => {
            let tail = skip_blanks(after);
            if ends_field(tail, separator) {
                return Ok((field, tail));
            }
            Err(Stop::Broken(problem_at(tail, Problem::AfterQuote), tail))
        }
    }
}
