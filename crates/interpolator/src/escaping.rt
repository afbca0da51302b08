//! Texts made into formats that mean them.
ghost use Rattle.std.specs.Prelude.{◌≡◌, ◌<◌, ◌++◌, ◌∷◌, [], length, IfOk, IfErr, string_bytes};
ghost use Rattle.std.specs.Str.{chars, IsUtf8};
ghost use Rattle.interpolator_syntax.specs.{Places.outermost, Pieces.pieces};
ghost use Rattle.interpolator_syntax.specs.declared.error.Error.TheVariants.{NoMemory};
ghost use Rattle.interpolator.specs.Escaping.{braces_doubled, ArePlain};

use interpolator_render::{TextBuffer, TextWrite};
use interpolator_syntax::{Class, Error, split_class, split_first};
use std::alloc::Global;

/// Appends a text; there may be no memory for it.
fn append(out: &mut TextBuffer, text: &str) -> Result<(), Error>
    ensures ok { IfOk result (λ _. out.new.text ≡ out.old.text ++ chars text.now) }
    ensures err { IfErr result (λ error. error ≡ NoMemory) }
{
    match out.write_str(text) {
        Ok(()) => Ok(()),
        Err(_) => Err(Error::NoMemory),
    }
}

/// Appends a character twice; there may be no memory for it.
fn append_twice(out: &mut TextBuffer, c: char) -> Result<(), Error>
    ensures ok { IfOk result (λ _. out.new.text ≡ out.old.text ++ (c ∷ c ∷ [])) }
    ensures err { IfErr result (λ error. error ≡ NoMemory) }
{
    if out.write_char(c).is_err() || out.write_char(c).is_err() {
        return Err(Error::NoMemory);
    }
    Ok(())
}

/// Appends the part of a text before its first brace, and that brace twice. Returns what follows
/// it.
fn append_front<'a>(out: &mut TextBuffer, text: &'a str) -> Result<&'a str, Error>
    requires not_empty { 0 < length text.now }
    ensures ok { IfOk result (λ rest. out.new.text ++ braces_doubled (chars rest.now)
        ≡ out.old.text ++ braces_doubled (chars text.now)) }
    ensures shorter { IfOk result (λ rest. length rest.now < length text.now) }
    ensures utf8 { IfOk result (λ rest. IsUtf8 rest.now) }
    ensures err { IfErr result (λ error. error ≡ NoMemory) }
{
    let (run, rest) = split_class(text, Class::Literal);
    append(out, run)?;
    match split_first(rest) {
        None => Ok(rest),
        Some((brace, after)) => {
            append_twice(out, brace)?;
            Ok(after)
        }
    }
}

/// The text with every brace doubled: a format that means the text, whatever the context.
///
/// # Errors
///
/// `NoMemory` if memory for the format is refused.
///
/// # Example
///
/// ```text
/// let format = escape(alloc, "a{b}")?; // a{{b}}
/// write(alloc, &mut out, format.as_str(), &context)?; // a{b}
/// ```
pub fn escape(alloc: Global, text: &str) -> Result<String, Error>
    ensures ok { IfOk result (λ s. chars (string_bytes s) ≡ braces_doubled (chars text.now)) }
    ensures err { IfErr result (λ error. error ≡ NoMemory) }
    ensures pieces { IfOk result (λ s.
        ArePlain (pieces (outermost (chars (string_bytes s)))) (chars text.now)) }
{
    let mut out = TextBuffer::from_string(String::with_capacity(alloc, text.len())?);
    let mut rest = text;
    while !rest.is_empty() {
        rest = append_front(&mut out, rest)?;
    }
    Ok(out.into_string())
}
