//! A fault in numbers.
ghost use Rattle.std.specs.Prelude.{◌≡◌, ◌<◌, ◌≤◌, IfOk, map};
ghost use Rattle.interpolator_syntax.specs.Faults.{answer_of, parse_fault_of};
ghost use Rattle.interpolator_border.specs.Answers.{code_of_answer, detail_of_answer, fault_numbers};
ghost use Rattle.interpolator_border.specs.Answers.{expected_code, number_code, parse_code};

use crate::request::slot_code;
use interpolator::{Error, NumberError, ParseError};
use std::alloc::{AllocError, Global};

/// The code of a refusal of memory.
pub(crate) const NO_MEMORY: u32 = 6;

/// A fault of a format, in numbers.
#[repr(C)]
#[derive(Clone, Copy)]
pub struct Fault {
    /// What is wrong: 1 to 5.
    pub code: u32,
    /// The number of a missing trait, or how a format is broken; else 0.
    pub detail: u32,
    /// The byte of the format at which it is.
    pub place: usize,
}

/// 16 times the number of what is wrong with a number.
fn number_code(kind: NumberError) -> u32
    ensures code { result ≡ number_code kind }
    ensures small { result ≤ 64 }
{
    match kind {
        NumberError::Empty => 16,
        NumberError::InvalidDigit => 32,
        NumberError::PosOverflow => 48,
        NumberError::NegOverflow => 64,
    }
}

/// The number of the text that should be there: 2 of a closing brace, 3 of a bracket.
fn expected_code(text: &str) -> u32
    ensures { result ≡ expected_code text.now }
{
    if text == "(" { 3 } else { 2 }
}

/// How a format is broken, in a number.
fn parse_code(fault: &ParseError) -> u32
    ensures { result ≡ parse_code (parse_fault_of fault.now) }
{
    match *fault {
        ParseError::FormatSpecUnclosed(_) => 1,
        ParseError::Expected(text, _) => expected_code(text),
        ParseError::InvalidWidth(kind, _) => 4 + number_code(kind),
        ParseError::InvalidPrecision(kind, _) => 5 + number_code(kind),
        ParseError::Fill(_) => 6,
        ParseError::Iter(_) => 7,
        ParseError::RangeBound(kind, _) => 8 + number_code(kind),
    }
}

/// The code of a fault.
pub(crate) fn code_of(error: &Error) -> u32
    ensures code { result ≡ code_of_answer (answer_of error.now) }
    ensures some { 0 < result }
{
    match error {
        Error::MissingTraitImpl(_, _) => 1,
        Error::Fmt(_, _) => 2,
        Error::Parse(_) => 3,
        Error::MissingValue(_, _) => 4,
        Error::UnsupportedOption(_, _, _) => 5,
        Error::NoMemory => NO_MEMORY,
    }
}

/// The number of a missing trait, or how the format is broken.
fn detail_of(error: &Error) -> u32
    ensures { result ≡ detail_of_answer (answer_of error.now) }
{
    match error {
        Error::MissingTraitImpl(t, _) => slot_code(*t),
        Error::Parse(fault) => parse_code(fault),
        _ => 0,
    }
}

/// A fault in numbers.
pub(crate) fn fault_numbers(error: &Error) -> Fault
    ensures numbers { result ≡ fault_numbers (answer_of error.now) }
    ensures some { 0 < result.code }
{
    Fault {
        code: code_of(error),
        detail: detail_of(error),
        place: error.place().unwrap_or(0),
    }
}

/// Faults in numbers.
pub(crate) fn all_numbers(alloc: Global, errors: &[Error]) -> Result<Vec<Fault>, AllocError>
    ensures { IfOk result (λ faults. faults.items
        ≡ map fault_numbers (map answer_of errors.now)) }
{
    let mut faults = Vec::with_capacity(alloc, errors.len())?;
    for error in errors {
        faults.push(fault_numbers(error))?;
    }
    Ok(faults)
}
