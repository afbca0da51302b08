//! A field in quotes.

ghost use Rattle.std.specs.Prelude.{IfOk, MatchOption, string_bytes};
ghost use Rattle.records.specs.{Scans.IsInside, Scans.IsOpen, Spellings.text_of};

use crate::field::Field;
use crate::scan::{QUOTE, split_at_quote, strip};
use std::alloc::{AllocError, Global};

/// The text up to the closing quote, with two quotes as one, and the text after that; none if no
/// quote closes it.
fn undoubled<'a>(alloc: Global, text: &'a str) -> Result<Option<(String, &'a str)>, AllocError>
    ensures { IfOk result (λ found. MatchOption found (IsOpen text.now)
        (λ r. IsInside (string_bytes r.0) text.now r.1.now)) }
{
    let mut field = String::new(alloc);
    let mut rest = text;
    while let Some((front, after)) = split_at_quote(rest) {
        field.push_str(front)?;
        match strip(after, QUOTE) {
            Some(next) => rest = next,
            None => return Ok(Some((field, after))),
        }
        field.push('"')?;
    }
    Ok(None)
}

/// The field that a text begins with behind its opening quote, and the text after the closing
/// quote; none if no quote closes it.
pub(crate) fn take_quoted<'a>(
    alloc: Global,
    text: &'a str,
) -> Result<Option<(Field<'a>, &'a str)>, AllocError>
    ensures { IfOk result (λ found. MatchOption found (IsOpen text.now)
        (λ r. IsInside (text_of r.0) text.now r.1.now)) }
{
    let Some((front, after)) = split_at_quote(text) else {
        return Ok(None);
    };
    if strip(after, QUOTE).is_none() {
        return Ok(Some((Field::Lent(front), after)));
    }
    match undoubled(alloc, text)? {
        Some((field, after)) => Ok(Some((Field::Made(field), after))),
        None => Ok(None),
    }
}
