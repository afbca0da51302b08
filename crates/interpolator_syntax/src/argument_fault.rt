//! The reason why an argument cannot be read.
ghost use Rattle.std.specs.Prelude.{◌≡◌, ◌+◌};
ghost use Rattle.interpolator_syntax.specs.Faults.{answer_of, argument_fault_of, fault};

use crate::error::{Error, ParseError};

/// The reason why an argument cannot be read. Unlike an `Error`, it is small and can be copied.
#[derive(Clone, Copy)]
pub enum ArgumentFault {
    /// The text is no argument.
    Text(ParseError),
    /// The argument uses the pointer trait, whose letter is at this place.
    Pointer(usize),
}

/// Converts the fault to the `Error` that a caller gets.
impl From<ArgumentFault> for Error {
    ghost from_gives = { λ broken error. answer_of error ≡ fault (argument_fault_of broken) };

    fn from(broken: ArgumentFault) -> Error {
        match broken {
            ArgumentFault::Text(error) => Error::Parse(error),
            ArgumentFault::Pointer(place) => Error::UnsupportedOption("p", "pointer", place),
        }
    }
}
