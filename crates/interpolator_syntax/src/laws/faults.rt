//! Laws of the faults, each the contract of a small function.

ghost use Rattle.std.specs.Prelude.{◌≡◌, ◌↔◌, IsTrue, Ok};
ghost use Rattle.interpolator_syntax.specs.Faults.{answer_of, parse_fault_of};

use crate::error::{Error, NumberError, ParseError};
use std::alloc::AllocError;

/// Tests whether two errors are equal: they are exactly when their variants and fields are.
pub fn is_same_error(error: &Error, other: &Error) -> bool
    ensures { IsTrue result ↔ (answer_of error.now ≡ answer_of other.now) }
{
    *error == *other
}

/// Tests whether two faults of a format text are equal: they are exactly when their variants and
/// fields are.
pub fn is_same_parse_error(fault: &ParseError, other: &ParseError) -> bool
    ensures { IsTrue result ↔ (parse_fault_of fault.now ≡ parse_fault_of other.now) }
{
    *fault == *other
}

/// Tests whether two faults of a number are equal: they are exactly when their variants are.
pub fn is_same_number_error(kind: &NumberError, other: &NumberError) -> bool
    ensures { IsTrue result ↔ (kind.now ≡ other.now) }
{
    *kind == *other
}

/// Clones a fault of a format text: the clone equals the fault, and cloning never fails.
pub fn clone_of_parse_error(fault: &ParseError) -> Result<ParseError, AllocError>
    ensures { result ≡ Ok fault.now }
{
    fault.clone()
}

/// Clones a fault of a number: the clone equals the fault, and cloning never fails.
pub fn clone_of_number_error(kind: &NumberError) -> Result<NumberError, AllocError>
    ensures { result ≡ Ok kind.now }
{
    kind.clone()
}
