//! Bytes as text: UTF-8, or Latin-1, in which each byte is the character of that code.

ghost use Rattle.std.specs.Prelude.{◌≡◌, IfOk, MatchResult, string_bytes};
ghost use Rattle.std.specs.Str.{encode_utf8_all};
ghost use Rattle.records.specs.Encodings.{IsBad, is_utf16};

use crate::fault::Place;
use crate::place::place_after;
use std::alloc::{AllocError, Global};

/// A byte that is no UTF-8, and its place.
#[derive(Clone, Copy, Debug, PartialEq, Eq)]
pub struct BadByte {
    /// The byte.
    pub byte: u8,
    /// Its place.
    pub place: Place,
}

/// The bytes as text.
///
/// # Errors
///
/// The first byte that is no UTF-8.
pub fn text_in(bytes: &[u8]) -> Result<&str, BadByte>
    ensures { MatchResult result (λ text. text.now ≡ bytes.now) (λ bad. IsBad bytes.now bad) }
{
    match str::from_utf8(bytes) {
        Ok(text) => Ok(text),
        Err(error) => {
            let count = error.valid_up_to();
            Err(BadByte {
                byte: bytes[count],
                place: place_after(1, &bytes[..count]),
            })
        }
    }
}

/// Whether bytes begin with the mark of UTF-16, as what a spreadsheet calls Unicode text does. They
/// are no UTF-8, from their first byte on.
pub fn is_utf16(bytes: &[u8]) -> bool
    ensures { result ≡ is_utf16 bytes.now }
{
    match bytes {
        [a, b, ..] => (*a == 0xff && *b == 0xfe) || (*a == 0xfe && *b == 0xff),
        _ => false,
    }
}

/// What to do about a file of these bytes, which are no UTF-8, in words.
pub fn advice_on(bytes: &[u8]) -> &'static str {
    if is_utf16(bytes) {
        return "this looks like UTF-16: save it as UTF-8";
    }
    "is this Latin-1? try --latin1"
}

/// The bytes as text, if they are Latin-1.
pub fn latin1(alloc: Global, bytes: &[u8]) -> Result<String, AllocError>
    ensures { IfOk result (λ text. string_bytes text ≡ encode_utf8_all bytes.now) }
{
    let mut text = String::with_capacity(alloc, bytes.len())?;
    for byte in bytes {
        text.push(char::from(*byte))?;
    }
    Ok(text)
}
