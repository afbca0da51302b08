//! Records as a table has them.

ghost use Rattle.std.specs.Prelude.{◌≡◌, ◌≢◌, ◌++◌, ◌∷◌, [], ℕ, List, IfOk, map, true};
ghost use Rattle.std.specs.Prelude.{string_bytes};
ghost use Rattle.records.specs.{Marks.byte_of, Marks.quote, Records.Opens, Spellings.IsSpelled};
ghost use Rattle.records.specs.{Spellings.doubled, Written.IsWritten, Written.Puts};

use crate::scan::{split_at_quote, split_plain};
use crate::separator::Separator;
use std::alloc::AllocError;

/// Appends a text, with each quote in it doubled.
fn push_doubled(out: &mut String, text: &str) -> Result<(), AllocError>
    ensures { IfOk result (λ _. Puts (string_bytes out.old) (string_bytes out.new)
        (doubled text.now)) }
{
    let mut rest = text;
    while let Some((front, after)) = split_at_quote(rest) {
        out.push_str(front)?;
        out.push_str("\"\"")?;
        rest = after;
    }
    out.push_str(rest)?;
    Ok(())
}

/// Appends a field in quotes.
fn push_quoted(out: &mut String, field: &str) -> Result<(), AllocError>
    ensures { IfOk result (λ _. Puts (string_bytes out.old) (string_bytes out.new)
        (quote ∷ (doubled field.now ++ (quote ∷ [])))) }
{
    out.push('"')?;
    push_doubled(out, field)?;
    out.push('"')?;
    Ok(())
}

/// Appends a field: as it is, if it is plain, or else in quotes.
fn push_field(out: &mut String, separator: Separator, field: &str) -> Result<(), AllocError>
    ensures { IfOk result (λ _. (written : List ℕ) × IsSpelled separator field.now written
        × Puts (string_bytes out.old) (string_bytes out.new) written) }
{
    let (_, stopped) = split_plain(field, separator);
    if !stopped.is_empty() {
        return push_quoted(out, field);
    }
    out.push_str(field)?;
    Ok(())
}

/// Appends the separator.
fn push_separator(out: &mut String, separator: Separator) -> Result<(), AllocError>
    ensures { IfOk result (λ _. Puts (string_bytes out.old) (string_bytes out.new)
        (byte_of separator ∷ [])) }
{
    match separator {
        Separator::Comma => out.push(',')?,
        Separator::Semicolon => out.push(';')?,
        Separator::Tab => out.push('\t')?,
    }
    Ok(())
}

/// Appends fields, with a separator after each.
fn push_opening(out: &mut String, separator: Separator, fields: &[&str]) -> Result<(), AllocError>
    ensures { IfOk result (λ _. (opening : List ℕ)
        × Opens separator (map (λ x. x.now) fields.now) opening
        × Puts (string_bytes out.old) (string_bytes out.new) opening) }
{
    for field in fields {
        push_field(out, separator, field)?;
        push_separator(out, separator)?;
    }
    Ok(())
}

/// Appends the last field of a record that has others before it, or none. By itself an empty one is
/// in quotes: a blank line at the end of a table would be no record.
fn push_last(
    out: &mut String,
    separator: Separator,
    field: &str,
    is_alone: bool,
) -> Result<(), AllocError>
    ensures { IfOk result (λ _. (written : List ℕ) × IsSpelled separator field.now written
        × Puts (string_bytes out.old) (string_bytes out.new) written
        × (is_alone ≡ true → written ≢ [])) }
{
    if is_alone && field.is_empty() {
        return push_quoted(out, field);
    }
    push_field(out, separator, field)
}

/// Appends a record with these fields, and a line feed after it. Without fields it appends nothing.
///
/// ```text
/// push_record(&mut out, Separator::Comma, &["bread, white", "7", ""])?; // "bread, white",7,
/// ```
///
/// # Errors
///
/// Memory ran out.
pub fn push_record(
    out: &mut String,
    separator: Separator,
    fields: &[&str],
) -> Result<(), AllocError>
    ensures { IfOk result (λ _. (written : List ℕ)
        × Puts (string_bytes out.old) (string_bytes out.new) written
        × IsWritten separator (map (λ x. x.now) fields.now) written) }
{
    let Some((last, others)) = fields.split_last() else {
        return Ok(());
    };
    push_opening(out, separator, others)?;
    push_last(out, separator, last, others.is_empty())?;
    out.push_str("\n")?;
    Ok(())
}
