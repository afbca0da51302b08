//! Reading JSON.
ghost use Rattle.std.specs.Prelude.{◌≡◌, ◌↔◌, ◌+◌, ◌*◌, IsTrue, false};
ghost use Rattle.std.specs.Char.{digit_value};
ghost use Rattle.interpolator_escapes.specs.Json.{JsonState, after_slash, between, in_string};
ghost use Rattle.interpolator_escapes.specs.Json.{is_json_place, json_step};
ghost use Rattle.interpolator_escapes.specs.CodeReaders.{has_structure, json_state};

use crate::plain::{is_bare, is_debug, is_plain};
use crate::readers::Reader;
use interpolator_render::{Spec, Trait};
use std::alloc::AllocError;

/// Where a reader of JSON is. A value may stand in a string, or under debug between strings.
#[derive(Clone, Copy, Debug)]
pub enum JsonReader {
    /// Between strings.
    Between,
    /// In a string.
    InString,
    /// After a backslash in one.
    AfterSlash,
    /// At the first digit of a code.
    FirstDigit,
    /// At the second digit of a code, after a digit of this value.
    SecondDigit(u8),
    /// At the third digit, after these.
    ThirdDigit(u8, u8),
    /// At the fourth digit, after these.
    FourthDigit(u8, u8, u8),
}

/// The value of a digit or a letter, or 36 of any other character.
fn digit_value(c: char) -> u8
    ensures { result ≡ digit_value c }
{
    match c.to_digit(36) {
        Some(value) => value as u8,
        None => 36,
    }
}

/// The state after a character between strings, and whether it is structure.
fn after_between(c: char) -> (JsonReader, bool)
    ensures state { json_state result.0 ≡ (json_step between c).0 }
    ensures structure { result.1 ≡ has_structure (json_step between c).1 }
{
    if c == '"' {
        return (JsonReader::InString, false);
    }
    (JsonReader::Between, !is_plain(c))
}

/// The state after a character in a string, and whether it is structure.
fn after_in_string(c: char) -> (JsonReader, bool)
    ensures state { json_state result.0 ≡ (json_step in_string c).0 }
    ensures structure { result.1 ≡ has_structure (json_step in_string c).1 }
{
    if c == '"' {
        return (JsonReader::Between, false);
    }
    if c == '\\' {
        return (JsonReader::AfterSlash, false);
    }
    (JsonReader::InString, c < ' ')
}

/// The state after a character behind a backslash, which is no structure.
fn after_slash(c: char) -> JsonReader
    ensures state { json_state result ≡ (json_step after_slash c).0 }
    ensures structure { false ≡ has_structure (json_step after_slash c).1 }
{
    if c == 'u' {
        return JsonReader::FirstDigit;
    }
    JsonReader::InString
}

/// The state after a character, and whether it is structure.
fn after(state: JsonReader, c: char) -> (JsonReader, bool)
    ensures state { json_state result.0 ≡ (json_step (json_state state) c).0 }
    ensures structure { result.1 ≡ has_structure (json_step (json_state state) c).1 }
{
    match state {
        JsonReader::Between => after_between(c),
        JsonReader::InString => after_in_string(c),
        JsonReader::AfterSlash => (after_slash(c), false),
        JsonReader::FirstDigit => (JsonReader::SecondDigit(digit_value(c)), false),
        JsonReader::SecondDigit(a) => (JsonReader::ThirdDigit(a, digit_value(c)), false),
        JsonReader::ThirdDigit(a, b) => (JsonReader::FourthDigit(a, b, digit_value(c)), false),
        JsonReader::FourthDigit(_, _, _) => (JsonReader::InString, false),
    }
}

/// The number of digits so far.
fn number(a: u8, b: u8, c: u8) -> u32
    ensures { result ≡ (a * 16 + b) * 16 + c }
{
    (a as u32 * 16 + b as u32) * 16 + c as u32
}

/// Tests whether two readers are in the same state.
fn same(left: JsonReader, right: JsonReader) -> bool
    ensures { IsTrue result ↔ json_state left ≡ json_state right }
{
    match (left, right) {
        (JsonReader::Between, JsonReader::Between) => true,
        (JsonReader::InString, JsonReader::InString) => true,
        (JsonReader::AfterSlash, JsonReader::AfterSlash) => true,
        (JsonReader::FirstDigit, JsonReader::FirstDigit) => true,
        (JsonReader::SecondDigit(a), JsonReader::SecondDigit(d)) => a == d,
        (JsonReader::ThirdDigit(a, b), JsonReader::ThirdDigit(d, e)) => {
            number(0, a, b) == number(0, d, e)
        }
        (JsonReader::FourthDigit(a, b, c), JsonReader::FourthDigit(d, e, f)) => {
            number(a, b, c) == number(d, e, f)
        }
        _ => false,
    }
}

impl Reader for JsonReader {
    ghost State = { JsonState };

    ghost state = { json_state };

    ghost step = { json_step };

    ghost places = { is_json_place };

    fn read(&mut self, c: char) -> Result<bool, AllocError> {
        let (state, is_structure) = after(*self, c);
        *self = state;
        Ok(is_structure)
    }

    fn is_place(&self, wanted: Trait, spec: &Spec) -> bool {
        match *self {
            JsonReader::Between => is_debug(wanted) && is_bare(spec),
            JsonReader::InString => !is_debug(wanted),
            _ => false,
        }
    }

    fn is_at(&self, other: &JsonReader) -> bool {
        same(*self, *other)
    }

    fn copied(&self) -> Result<JsonReader, AllocError> {
        Ok(*self)
    }
}
