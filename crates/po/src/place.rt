//! Where in a file the text of strings is written.

ghost use Rattle.std.specs.Prelude.{◌≡◌, ◌≤◌, ◌∷◌, ℕ, List, drop, length};
ghost use Rattle.po.specs.Strings.{ReadsByte, is_octal};
ghost use Rattle.po.specs.{Marks.quote, Places.width_of, Steps.Leads};

use crate::string::is_octal;
use crate::token::{Placed, Token};

/// How many bytes of a file write the byte of a string that a text begins with.
fn width_of(text: &[u8]) -> usize
    ensures { result ≡ width_of text.now }
{
    match text {
        [b'\\', c, ..] => { if is_octal(*c) { 4 } else { 2 } }
        _ => 1,
    }
}

/// The text of a file from a byte on.
fn from_byte(file: &[u8], place: usize) -> &[u8]
    ensures { result.now ≡ drop place file.now }
{
    match file.get(place..) {
        Some(rest) => rest,
        None => &[],
    }
}

/// The byte of a file at which a byte of a string is written, which begins, behind its quote, at this
/// byte of the file: from there on the file has the rest of the string.
fn place_in(file: &[u8], start: usize, byte: usize) -> usize
    ensures { (value rest : List ℕ) → Leads ReadsByte (drop start file.now) value (quote ∷ rest)
        → byte ≤ length value
        → Leads ReadsByte (drop result file.now) (drop byte value) (quote ∷ rest) }
{
    let mut place = start;
    for _taken in 0..byte {
        let width = width_of(from_byte(file, place));
        place = place.saturating_add(width).min(file.len());
    }
    place
}

/// The byte of a file at which a byte of the text of strings of it is written; for the byte behind
/// that text, the closing quote.
pub fn place_of(file: &str, strings: &[Placed], byte: usize) -> usize {
    let mut left = byte;
    let mut place = 0;
    let mut within = 0;
    for one in strings {
        if let Token::Text(text) = &one.token {
            left = left.saturating_sub(within);
            place = one.place;
            within = text.len();
            if left < within {
                break;
            }
        }
    }
    place_in(file.as_bytes(), place.saturating_add(1), left.min(within))
}
