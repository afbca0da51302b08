//! The record at the beginning of a text.

ghost use Rattle.std.specs.Prelude.{◌≡◌, ◌⊎◌, ◌<◌, ◌∷◌, ◌++◌, [], IfOk, length, map, true};
ghost use Rattle.records.specs.{Marks.NotFirst, Marks.byte_of, Records.EndsLine, Scans.ReadsRecord};
ghost use Rattle.records.specs.{Spellings.ends_field, Spellings.text_of};
ghost use Rattle.records.specs.declared.separator.Separator.{Separator as Sep};

use crate::fault::Stop;
use crate::field::Field;
use crate::scan::{CARRIAGE_RETURN, LINE_FEED, strip};
use crate::separator::Separator;
use crate::take::take_field;
use std::alloc::{AllocError, Global};

/// The text without this ASCII character at its head, if it has one.
fn without(text: &str, wanted: u8) -> &str
    requires ascii { wanted < 128 }
    ensures { (text.now ≡ wanted ∷ result.now)
        ⊎ (NotFirst wanted text.now × (result.now ≡ text.now)) }
{
    match strip(text, wanted) {
        Some(rest) => rest,
        None => text,
    }
}

/// The text after the line end that follows a record, if one does.
fn after_line(tail: &str) -> &str
    ensures { (separator : Sep) → ends_field separator tail.now ≡ true
        → NotFirst (byte_of separator) tail.now → EndsLine tail.now result.now }
{
    without(without(tail, CARRIAGE_RETURN), LINE_FEED)
}

/// Appends a field.
fn push<'a>(fields: &mut Vec<Field<'a>>, field: Field<'a>) -> Result<(), AllocError>
    ensures { IfOk result (λ _. map text_of fields.new.items
        ≡ map text_of fields.old.items ++ (text_of field.entry ∷ [])) }
{
    fields.push(field)?;
    Ok(())
}

/// Fills in the fields of the record that a text begins with, and returns the text after it.
pub(crate) fn take_record<'a>(
    alloc: Global,
    text: &'a str,
    separator: Separator,
    fields: &mut Vec<Field<'a>>,
) -> Result<&'a str, Stop<'a>>
    requires { fields.old.items ≡ [] }
    ensures { ReadsRecord separator (map text_of fields.new.items) text.now result }
{
    let mut rest = text;
    'fields: loop {
        let (field, tail) = take_field(alloc, rest, separator)?;
        push(fields, field)?;
        match strip(tail, separator.byte()) {
            Some(next) => rest = next,
            None => return Ok(after_line(tail)),
        }
    }
}
