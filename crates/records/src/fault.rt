//! What is wrong with a text that begins with no record, and where.

ghost use Rattle.std.specs.Prelude.{◌≡◌};
ghost use Rattle.records.specs.declared.fault.Stop.TheVariants.{NoMemory};

use std::alloc::AllocError;

/// Why a text begins with no record.
#[derive(Clone, Copy, Debug, PartialEq, Eq)]
pub enum Problem {
    /// A quote begins a field, and is never closed.
    Unclosed,
    /// A quote is in a field without quotes.
    StrayQuote,
    /// A character comes behind the closing quote of a field, where a separator or a line end may.
    AfterQuote,
    /// A carriage return outside of quotes has no line feed after it.
    LoneReturn,
}

impl Problem {
    /// What is wrong, in words.
    pub fn as_str(self) -> &'static str {
        match self {
            Problem::Unclosed => "a quote that is never closed",
            Problem::StrayQuote => {
                "a stray quote: write the field in quotes, and double those in it"
            }
            Problem::AfterQuote => "text after a closing quote: double the quotes in a field",
            Problem::LoneReturn => "a carriage return without a newline",
        }
    }
}

/// A place in a text, by line and character, both from 1.
#[derive(Clone, Copy, Debug, PartialEq, Eq)]
pub struct Place {
    /// The line: one more than the line feeds before.
    pub line: usize,
    /// The column: one more than the characters before, in this line.
    pub column: usize,
}

/// Why a text begins with no record, and where.
#[derive(Clone, Copy, Debug, PartialEq, Eq)]
pub struct Fault {
    /// Why.
    pub problem: Problem,
    /// The place of the quote, the carriage return or the character. For a quote that is never
    /// closed, that is where it opens.
    pub place: Place,
}

/// Why there is no record, with the text from its place on.
#[derive(Clone, Copy)]
pub(crate) enum Stop<'a> {
    /// The text begins with none.
    Broken(Problem, &'a str),
    /// Memory ran out.
    NoMemory,
}

impl From<AllocError> for Stop<'_> {
    ghost from_gives = { λ _ stop. stop ≡ NoMemory };

    fn from(_refused: AllocError) -> Self {
        Stop::NoMemory
    }
}
