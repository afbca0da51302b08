//! The place behind a text, and where a text goes on.

ghost use Rattle.std.specs.Prelude.{◌≡◌, ◌++◌, ◌+◌, ◌^◌, ◌<◌, ℕ, ◌==◌, List, length};
ghost use Rattle.std.specs.List.{after_first};
ghost use Rattle.records.specs.Places.{moved, place_after};
ghost use Rattle.records.specs.{Marks.line_feed, Tables.after_fault};

use crate::fault::{Place, Problem};
use crate::scan::LINE_FEED;

/// The place behind one more byte.
fn moved(place: Place, byte: u8) -> Place
    requires line { place.line + 1 < 2 ^ 64 }
    requires column { place.column + 1 < 2 ^ 64 }
    ensures { result ≡ moved place byte }
{
    match byte {
        LINE_FEED => Place {
            line: place.line + 1,
            column: 1,
        },
        0x80..=0xbf => place,
        _ => Place {
            line: place.line,
            column: place.column + 1,
        },
    }
}

/// The place behind a text that begins at the beginning of a line.
pub(crate) fn place_after(line: usize, text: &[u8]) -> Place
    requires { line + length text.now < 2 ^ 64 }
    ensures { result ≡ place_after (record { line = line; column = 1 }) text.now }
{
    let mut place = Place { line, column: 1 };
    for byte in text {
        place = moved(place, *byte);
    }
    place
}

/// The part of a text before its rest.
pub(crate) fn before<'a>(text: &'a str, rest: &str) -> &'a str
    requires { (front : List ℕ) × (text.now ≡ front ++ rest.now) }
    ensures { text.now ≡ result.now ++ rest.now }
{
    let (front, _) = text.split_at(text.len() - rest.len());
    front
}

/// The text after the first line feed; none if there is none.
pub(crate) fn next_line(text: &str) -> &str
    ensures is { result.now ≡ after_first (λ b. b == line_feed) text.now }
    ensures rest { (front : List ℕ) × (text.now ≡ front ++ result.now) }
{
    match text.split_once('\n') {
        Some((_, rest)) => rest,
        None => "",
    }
}

/// Where the text goes on after a fault that is in front of this text.
pub(crate) fn after_fault(problem: Problem, tail: &str) -> &str
    ensures is { result.now ≡ after_fault problem tail.now }
    ensures rest { (front : List ℕ) × (tail.now ≡ front ++ result.now) }
{
    match problem {
        Problem::Unclosed => "",
        Problem::StrayQuote => next_line(tail),
        Problem::AfterQuote => next_line(tail),
        Problem::LoneReturn => next_line(tail),
    }
}
