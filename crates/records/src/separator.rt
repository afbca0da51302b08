//! The character between two fields.

ghost use Rattle.std.specs.Prelude.{◌≡◌, ◌==◌, ℕ, List};
ghost use Rattle.std.specs.List.{before_first, list_any};
ghost use Rattle.records.specs.Separators.{named, named_in, detected_in, detected_in_line};
ghost use Rattle.records.specs.{Heads.IsUnmarked, Marks.byte_of, Marks.line_feed};

use crate::head::without_mark;

/// The character between two fields of a record.
#[derive(Clone, Copy, Debug, PartialEq, Eq)]
pub enum Separator {
    /// `,`
    Comma,
    /// `;`
    Semicolon,
    /// A tab.
    Tab,
}

/// The first line of a text.
pub(crate) fn first_line(text: &str) -> &str
    ensures { result.now ≡ before_first (λ b. b == line_feed) text.now }
{
    match text.split_once('\n') {
        Some((line, _)) => line,
        None => text,
    }
}

impl Separator {
    /// The byte of the character.
    pub fn byte(self) -> u8
        ensures { result ≡ byte_of self }
    {
        match self {
            Separator::Comma => b',',
            Separator::Semicolon => b';',
            Separator::Tab => b'\t',
        }
    }

    /// The separator that a word of a command line names: `,`, `;` or `tab`.
    pub fn named(word: &str) -> Option<Separator>
        ensures { result ≡ named word.now }
    {
        if word == "," {
            return Some(Separator::Comma);
        }
        if word == ";" {
            return Some(Separator::Semicolon);
        }
        if word == "tab" {
            return Some(Separator::Tab);
        }
        None
    }

    /// Whether a line has this character.
    fn is_in(self, line: &str) -> bool
        ensures { result ≡ list_any (λ b. b == byte_of self) line.now }
    {
        line.as_bytes().contains(&self.byte())
    }

    /// The separator that a line `sep=;` names, which some programs write above a table; with `,`
    /// or a tab likewise. A carriage return may be at its end.
    pub(crate) fn named_in(line: &str) -> Option<Separator>
        ensures { result ≡ named_in line.now }
    {
        if line == "sep=," || line == "sep=,\r" {
            return Some(Separator::Comma);
        }
        if line == "sep=;" || line == "sep=;\r" {
            return Some(Separator::Semicolon);
        }
        if line == "sep=\t" || line == "sep=\t\r" {
            return Some(Separator::Tab);
        }
        None
    }

    /// The separator of the three that a line has, if it has none of the others.
    fn detected_in_line(line: &str) -> Option<Separator>
        ensures { result ≡ detected_in_line line.now }
    {
        let comma = Separator::Comma.is_in(line);
        let semicolon = Separator::Semicolon.is_in(line);
        let tab = Separator::Tab.is_in(line);
        match (comma, semicolon, tab) {
            (true, false, false) => Some(Separator::Comma),
            (false, true, false) => Some(Separator::Semicolon),
            (false, false, true) => Some(Separator::Tab),
            _ => None,
        }
    }

    /// The separator that the first line of a table names, as `sep=;`; or else the one of the three
    /// that it has, if it has none of the others.
    pub fn detected_in(table: &str) -> Option<Separator>
        ensures { (rest : List ℕ) × IsUnmarked table.now rest × (result ≡ detected_in rest) }
    {
        let line = first_line(without_mark(table));
        match Separator::named_in(line) {
            Some(separator) => Some(separator),
            None => Separator::detected_in_line(line),
        }
    }
}
