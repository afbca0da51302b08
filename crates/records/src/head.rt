//! The head and the end of a text, which belong to no record.

ghost use Rattle.std.specs.Prelude.{◌≡◌, ◌++◌, ℕ, List, MatchOption};
ghost use Rattle.records.specs.Heads.{IsEnded, IsUnmarked, first_record};
ghost use Rattle.records.specs.{Ends.LosesLineEnd, Ends.NotLast, Marks.line_feed};

use crate::place::next_line;
use crate::separator::{Separator, first_line};

/// The text without the byte order mark at its head.
pub(crate) fn without_mark(text: &str) -> &str
    ensures { IsUnmarked text.now result.now }
{
    match text.strip_prefix('\u{feff}') {
        Some(rest) => rest,
        None => text,
    }
}

/// Where the records of a text begin, by line and text: below its first line, if that names a
/// separator, as `sep=;`.
pub(crate) fn first_record(text: &str) -> (usize, &str)
    ensures line { result.0 ≡ (first_record text.now).line }
    ensures text { result.1.now ≡ (first_record text.now).text }
    ensures rest { (front : List ℕ) × (text.now ≡ front ++ result.1.now) }
{
    match Separator::named_in(first_line(text)) {
        Some(_) => (2, next_line(text)),
        None => (1, text),
    }
}

/// The text without the line end at its end, if it has one.
fn without_line_end(text: &str) -> Option<&str>
    ensures { MatchOption result (NotLast line_feed text.now)
        (λ rest. LosesLineEnd text.now rest.now) }
{
    match text.strip_suffix('\n') {
        None => None,
        Some(line) => match line.strip_suffix('\r') {
            None => Some(line),
            Some(rest) => Some(rest),
        },
    }
}

/// The text without the line ends at its end.
pub(crate) fn without_end(text: &str) -> &str
    ensures { IsEnded text.now result.now }
{
    let mut kept = text;
    while let Some(rest) = without_line_end(kept) {
        kept = rest;
    }
    kept
}
