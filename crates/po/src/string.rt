//! A string of a file.

ghost use Rattle.std.specs.Prelude.{◌≡◌, ◌<◌, ◌∷◌, ◌++◌, [], IfOk, IfSome, length, option_map};
ghost use Rattle.std.specs.Prelude.{string_bytes};
ghost use Rattle.po.specs.Marks.{IsStopped, backslash, quote};
ghost use Rattle.po.specs.Strings.{IsSpecial, ReadsString, control, escape_at, is_octal, letter_at};
ghost use Rattle.po.specs.Strings.{octal, octal_at};

use crate::fault::{Fault, Problem, ReadError};
use crate::scan::{At, split_plain, strip};
use std::alloc::{AllocError, Global};

/// The byte that a letter stands for behind a backslash.
fn control(c: u8) -> Option<u8>
    ensures byte { result ≡ control c }
    ensures ascii { IfSome result (λ b. (b < 128) × (c < 128)) }
{
    match c {
        b'n' => Some(b'\n'),
        b't' => Some(b'\t'),
        b'r' => Some(b'\r'),
        b'a' => Some(7),
        b'b' => Some(8),
        b'f' => Some(12),
        b'v' => Some(11),
        b'\\' => Some(b'\\'),
        b'"' => Some(b'"'),
        _ => None,
    }
}

/// Whether a byte is an octal digit.
pub(crate) fn is_octal(c: u8) -> bool
    ensures { result ≡ is_octal c }
{
    b'0' <= c && c < b'8'
}

/// The byte of three octal digits, from `001` to `177`.
fn octal(a: u8, b: u8, c: u8) -> Option<u8>
    ensures byte { result ≡ octal a b c }
    ensures ascii { IfSome result (λ n. (n < 128) × (c < 128)) }
{
    if !(b'0' <= a && a < b'2' && is_octal(b) && is_octal(c)) {
        return None;
    }
    let value = (a - b'0') * 64 + ((b - b'0') * 8 + (c - b'0'));
    if 0 < value { Some(value) } else { None }
}

/// The byte of a letter that a text begins with, and the text after it.
fn letter_at(text: &str) -> Option<(u8, &str)>
    ensures letter { option_map (λ r. (r.0, r.1.now)) result ≡ letter_at text.now }
    ensures ascii { IfSome result (λ r. r.0 < 128) }
    ensures shorter { IfSome result (λ r. length r.1.now < length text.now) }
{
    let first = text.as_bytes().first()?;
    let byte = control(*first)?;
    let (_, rest) = text.split_at(1);
    Some((byte, rest))
}

/// The byte of three octal digits that a text begins with, and the text after them.
fn octal_at(text: &str) -> Option<(u8, &str)>
    ensures digits { option_map (λ r. (r.0, r.1.now)) result ≡ octal_at text.now }
    ensures ascii { IfSome result (λ r. r.0 < 128) }
    ensures shorter { IfSome result (λ r. length r.1.now < length text.now) }
{
    let [a, b, c, ..] = text.as_bytes() else {
        return None;
    };
    let byte = octal(*a, *b, *c)?;
    let (_, rest) = text.split_at(3);
    Some((byte, rest))
}

/// The byte that is written behind a backslash, and the text after it.
fn escape_at(text: &str) -> Option<(u8, &str)>
    ensures escape { option_map (λ r. (r.0, r.1.now)) result ≡ escape_at text.now }
    ensures ascii { IfSome result (λ r. r.0 < 128) }
    ensures shorter { IfSome result (λ r. length r.1.now < length text.now) }
{
    letter_at(text).or(octal_at(text))
}

/// What comes where no byte stands for itself: the end of the string, without a byte, or an escape,
/// with its byte; and the text after it.
fn special_at(text: &str) -> Result<(Option<u8>, &str), Problem>
    requires { IsStopped text.now }
    ensures special { IsSpecial text.now result }
    ensures shorter { IfOk result (λ r. length r.1.now < length text.now) }
    ensures ascii { IfOk result (λ r. IfSome r.0 (λ b. b < 128)) }
{
    if let Some(rest) = strip(text, b'"') {
        return Ok((None, rest));
    }
    let Some(more) = strip(text, b'\\') else {
        return Err(Problem::Unclosed);
    };
    match escape_at(more) {
        Some((byte, rest)) => Ok((Some(byte), rest)),
        None => Err(Problem::Escape),
    }
}

/// Appends a byte below 128.
fn push_byte(value: &mut String, byte: u8) -> Result<(), AllocError>
    requires ascii { byte < 128 }
    ensures { IfOk result (λ _. string_bytes value.new ≡ string_bytes value.old ++ (byte ∷ [])) }
{
    value.push(char::from(byte))?;
    Ok(())
}

/// The text of a string behind its opening quote, and what is behind the closing one.
pub(crate) fn take_string<'a>(alloc: Global, from: At<'a>) -> Result<(String, &'a str), ReadError>
    ensures string { ReadsString from.entry.end from.entry.text.now result }
    ensures shorter { IfOk result (λ r. length r.1.now < length from.entry.text.now) }
{
    let mut value = String::new(alloc);
    let mut at = from;
    'pieces: loop {
        let (plain, tail) = split_plain(at.text);
        value.push_str(plain)?;
        match special_at(tail) {
            Ok((None, rest)) => return Ok((value, rest)),
            Ok((Some(byte), rest)) => {
                push_byte(&mut value, byte)?;
                at = At {
                    text: rest,
                    end: at.end,
                };
            }
            Err(problem) => {
                let place = at.end.saturating_sub(tail.len());
                return Err(ReadError::Broken(Fault { place, problem }));
            }
        }
    }
}
