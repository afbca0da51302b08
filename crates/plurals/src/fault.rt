//! What is wrong with a rule.

ghost use Rattle.std.specs.Prelude.{◌≡◌};

use std::alloc::AllocError;

/// What is wrong at a place of a rule.
#[derive(Clone, Copy, Debug, PartialEq, Eq)]
pub enum Problem {
    /// No name, number or sign begins here, or the number is 2^64 or more.
    Token,
    /// The text in quotes that begins here does not follow a name and `==` or `!=`.
    Text,
    /// The quote that is here is not closed.
    Quote,
    /// What follows the `%` that is here is no number, or is 0.
    Divisor,
    /// A name, a number, `!` or `(` is wanted here.
    Operand,
    /// An operator, or the end of the rule, is wanted here.
    Operator,
    /// A `(` is not closed, or a `?` has no `:`.
    Unfinished,
    /// More tokens than a rule may have.
    Long,
}

/// What is wrong with a rule, and where.
#[derive(Clone, Copy, Debug, PartialEq, Eq)]
pub struct Fault {
    /// The byte of the rule.
    pub place: usize,
    pub problem: Problem,
}

/// Why there is no expression.
#[derive(Clone, Copy, Debug, PartialEq, Eq)]
pub enum ParseError {
    /// The rule is none.
    Broken(Fault),
    /// Memory ran out.
    NoMemory,
}

impl From<AllocError> for ParseError {
    ghost use Rattle.plurals.specs.declared.fault.ParseError.TheVariants.{NoMemory};

    ghost from_gives = { λ _ error. error ≡ NoMemory };

    fn from(_error: AllocError) -> Self {
        ParseError::NoMemory
    }
}
