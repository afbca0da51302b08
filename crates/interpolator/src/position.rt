//! The line and the column of a byte of a text.
ghost use Rattle.std.specs.Prelude.{◌≡◌, ◌+◌, length, Some};
ghost use Rattle.std.specs.Str.{chars};
ghost use Rattle.interpolator.specs.Positions.{begun_before, lines_ended, last_line, line_at, column_at};
ghost use Rattle.interpolator.specs.Positions.{position_text};

use interpolator_syntax::write_unstyled;
use std::fmt;

/// A line and a column, each from 1 on. Columns count characters. `{}` writes both, with a colon
/// between them, whatever the options: `3:17`.
#[derive(Clone, Copy, Debug, PartialEq, Eq)]
pub struct Position {
    /// One more than the number of line ends before it.
    pub line: usize,
    /// One more than the number of characters before it in its line.
    pub column: usize,
}

impl Position {
    /// The line and the column of a byte of a text, by the characters that begin before it. A byte
    /// past the text's end is taken as its end.
    ///
    /// ```text
    /// Position::of("a\né{x}", 4)    // line 2, column 2: `é` has two bytes
    /// ```
    pub fn of(text: &str, place: usize) -> Position
        ensures line { result.line ≡ line_at text.now place }
        ensures column { result.column ≡ column_at text.now place }
    {
        let before = text_before(text, place);
        Position {
            line: line_at_end(before),
            column: column_at_end(before),
        }
    }
}

impl fmt::Display for Position {
    ghost output = { λ position. Some (position_text position.line position.column) };

    ghost styled_output = { λ position _. Some (position_text position.line position.column) };

    fn fmt<W: fmt::Write>(&self, f: &mut fmt::Formatter<W>) -> fmt::Result {
        let Position { line, column } = *self;
        write_unstyled(f, format_args!("{line}:{column}"))
    }
}

/// The front of a text that has the characters that begin before a byte.
fn text_before(text: &str, place: usize) -> &str
    ensures { chars result.now ≡ begun_before place (chars text.now) }
{
    let mut end = 0usize;
    for c in text.chars() {
        if end >= place {
            return &text[..end];
        }
        end += c.len_utf8();
    }
    text
}

/// One more than the number of line ends in a text.
#[tactic(auto, using(std::proofs::lemmas::Str::chars_from_encodes))]
fn line_at_end(text: &str) -> usize
    ensures { result ≡ lines_ended (chars text.now) + 1 }
{
    text.chars().filter(|c| *c == '\n').count() + 1
}

/// One more than the number of characters after the last line end of a text.
fn column_at_end(text: &str) -> usize
    ensures { result ≡ length (last_line (chars text.now)) + 1 }
{
    let mut column = 1usize;
    for c in text.chars() {
        column = if c == '\n' { 1 } else { column + 1 };
    }
    column
}
