//! The faults: what a call returns in place of its result.

ghost use Rattle.std.specs.Prelude.{◌≡◌, IfOk, IfErr, IsOk};
ghost use Rattle.interpolator_syntax.specs.Faults.{answer_of, parse_fault_of, IsMissingValue};
ghost use Rattle.interpolator_syntax.specs.Faults.{answer_place, fault, parse_place};
ghost use Rattle.interpolator_syntax.specs.Faults.{fmt as fmt_fault};
ghost use Rattle.interpolator_syntax.specs.declared.error.Error.TheVariants.{Parse, NoMemory};

use interpolator_render::{Refusal, Trait};
use std::alloc::{AllocError, AllocFailed, Global};
use std::fmt;

/// Why a text is not a number.
///
/// In a format, what decides is the first character, from the left, that is no digit or takes the
/// number out of the range of its type.
#[derive(Debug, PartialEq, Eq, Clone, Copy)]
pub enum NumberError {
    /// There is no character to read.
    Empty,
    /// A character is no digit, or a `-` stands alone or where none is allowed.
    InvalidDigit,
    /// The number is greater than the greatest of its type.
    PosOverflow,
    /// The number is less than the least of its type.
    NegOverflow,
}

/// Why a format text is rejected.
///
/// Each place counts bytes from the beginning of the outermost format text.
#[derive(Debug, PartialEq, Clone, Copy)]
pub enum ParseError {
    /// The text ends before the argument does; the place is the byte after its `{`.
    FormatSpecUnclosed(usize),
    /// This text should be at this place.
    Expected(&'static str, usize),
    /// The width that begins at this place is no `usize`.
    InvalidWidth(NumberError, usize),
    /// The precision that begins at this place is no `usize`.
    InvalidPrecision(NumberError, usize),
    /// A `{` is used as a fill character at this place, in front of an alignment.
    Fill(usize),
    /// A list has a precision, a sign, `#` or the zero flag; the place is the byte after its spec.
    Iter(usize),
    /// The bound of a range that begins at this place is no `isize`.
    RangeBound(NumberError, usize),
}

/// Why a format was not written, or not in full.
///
/// Each place counts bytes from the beginning of the outermost format text. Two faults are equal
/// when their variants and fields are. `{}` writes one line:
///
/// ```text
/// specified value not in context `name` at 7
/// ```
#[derive(Debug, PartialEq, Drop)]
pub enum Error {
    /// The value does not implement this trait; the place is the byte after the argument's spec.
    MissingTraitImpl(Trait, usize),
    /// A value failed, or the writer refused a text.
    ///
    /// The place is the byte after the argument's spec, or that of the first literal character that
    /// was not appended.
    Fmt(fmt::Error, usize),
    /// The format text is broken.
    Parse(ParseError),
    /// The context has no value of this name; the place is the byte after the argument's `{`.
    MissingValue(String, usize),
    /// This option, at this place, needs this feature, which this crate leaves out.
    UnsupportedOption(&'static str, &'static str, usize),
    /// Memory ran out.
    NoMemory,
}

impl std::error::Error for NumberError {}

impl std::error::Error for ParseError {}

impl std::error::Error for Error {}

/// Converts the fault to `Error::Parse`.
impl From<ParseError> for Error {
    ghost from_gives = { λ fault error. error ≡ Parse fault };

    fn from(fault: ParseError) -> Error {
        Error::Parse(fault)
    }
}

/// Converts to `Error::NoMemory`.
impl From<AllocError> for Error {
    ghost from_gives = { λ _ error. error ≡ NoMemory };

    fn from(_refused: AllocError) -> Error {
        Error::NoMemory
    }
}

/// Converts to `Error::NoMemory`, and drops what could not be stored.
impl<T: Drop> From<AllocFailed<T>> for Error {
    ghost from_gives = { λ _ error. error ≡ NoMemory };

    fn from(_refused: AllocFailed<T>) -> Error {
        Error::NoMemory
    }
}

/// Converts to `Error::Fmt` at place 0, for a text of your own between formats: a [`Refusal`] has
/// no place in a format.
///
/// ```text
/// fn greet<W: TextWrite>(alloc: Global, out: &mut W, guest: &Guest) -> Result<(), Error> {
///     guest.write_to(alloc, out, "Hello {name}")?;
///     out.write_char('\n')?;    // refused: `Fmt` at place 0
///     Ok(())
/// }
/// ```
impl From<Refusal> for Error {
    ghost from_gives = { λ _ error. answer_of error ≡ fault (fmt_fault 0) };

    fn from(_refusal: Refusal) -> Error {
        Error::Fmt(fmt::Error, 0)
    }
}

impl ParseError {
    /// Returns the place of the fault, in bytes of the outermost format text.
    ///
    /// ```text
    /// ParseError::Expected("}", 9).place()    // 9
    /// ```
    pub fn place(&self) -> usize
        ensures { result ≡ parse_place (parse_fault_of self.now) }
    {
        match *self {
            ParseError::FormatSpecUnclosed(place) => place,
            ParseError::Expected(_, place) => place,
            ParseError::InvalidWidth(_, place) => place,
            ParseError::InvalidPrecision(_, place) => place,
            ParseError::Fill(place) => place,
            ParseError::Iter(place) => place,
            ParseError::RangeBound(_, place) => place,
        }
    }
}

impl Error {
    /// Returns the place of the fault, in bytes of the outermost format text; none for `NoMemory`.
    ///
    /// ```text
    /// Error::NoMemory.place()    // None
    /// ```
    pub fn place(&self) -> Option<usize>
        ensures { result ≡ answer_place (answer_of self.now) }
    {
        match self {
            Error::MissingTraitImpl(_, place) => Some(*place),
            Error::Fmt(_, place) => Some(*place),
            Error::Parse(fault) => Some(fault.place()),
            Error::MissingValue(_, place) => Some(*place),
            Error::UnsupportedOption(_, _, place) => Some(*place),
            Error::NoMemory => None,
        }
    }

    /// Returns an equal fault.
    ///
    /// Only the name of a `MissingValue` needs memory.
    ///
    /// # Errors
    ///
    /// `NoMemory` if that name cannot be copied.
    ///
    /// ```text
    /// Error::NoMemory.try_clone(alloc)?    // `NoMemory`
    /// ```
    pub fn try_clone(&self, alloc: Global) -> Result<Error, Error>
        ensures ok { IfOk result (λ copy. answer_of copy ≡ answer_of self.now) }
        ensures err { IfErr result (λ error. error ≡ NoMemory) }
        ensures succeeds { ¬ IsMissingValue self.now → IsOk result }
    {
        match self {
            Error::MissingTraitImpl(wanted, place) => Ok(Error::MissingTraitImpl(*wanted, *place)),
            Error::Fmt(fault, place) => Ok(Error::Fmt(*fault, *place)),
            Error::Parse(fault) => Ok(Error::Parse(*fault)),
            Error::MissingValue(name, place) => match String::from_str(alloc, name.as_str()) {
                Ok(name) => Ok(Error::MissingValue(name, *place)),
                Err(_) => Err(Error::NoMemory),
            },
            Error::UnsupportedOption(option, feature, place) => {
                Ok(Error::UnsupportedOption(*option, *feature, *place))
            }
            Error::NoMemory => Ok(Error::NoMemory),
        }
    }
}
