//! What `{}` writes for a fault: the same text whatever the formatter's options.

ghost use Rattle.std.specs.Prelude.{◌≡◌, Some};
ghost use Rattle.std.specs.Fmt.{WritesOnOk, WritesStyledOnOk};
ghost use Rattle.interpolator_syntax.specs.FaultTexts.{error_text, number_text, parse_error_text};
ghost use Rattle.interpolator_syntax.specs.FaultTexts.{trait_name as trait_name_of};
ghost use Rattle.interpolator_syntax.specs.FaultTexts.{unsupported_text};

use crate::error::{Error, NumberError, ParseError};
use crate::unstyled::write_unstyled;
use interpolator_render::Trait;
use std::fmt;

impl fmt::Display for NumberError {
    ghost output = { λ error. Some (number_text error) };

    ghost styled_output = { λ error _. Some (number_text error) };

    fn fmt<W: fmt::Write>(&self, f: &mut fmt::Formatter<W>) -> fmt::Result {
        match self {
            NumberError::Empty => f.write_str("cannot parse integer from empty string"),
            NumberError::InvalidDigit => f.write_str("invalid digit found in string"),
            NumberError::PosOverflow => f.write_str("number too large to fit in target type"),
            NumberError::NegOverflow => f.write_str("number too small to fit in target type"),
        }
    }
}

impl fmt::Display for ParseError {
    ghost output = { λ error. Some (parse_error_text error) };

    ghost styled_output = { λ error _. Some (parse_error_text error) };

    fn fmt<W: fmt::Write>(&self, f: &mut fmt::Formatter<W>) -> fmt::Result {
        match *self {
            ParseError::FormatSpecUnclosed(place) => write_unstyled(
                f,
                format_args!("Format spec at {place} is nether closed with a `}}`"),
            ),
            ParseError::Expected(wanted, place) => write_unstyled(
                f,
                format_args!("Expected `{wanted}` at {place}"),
            ),
            ParseError::InvalidWidth(fault, place) => write_unstyled(
                f,
                format_args!("Unable to parse width at {place} as usize: {fault}"),
            ),
            ParseError::InvalidPrecision(fault, place) => write_unstyled(
                f,
                format_args!("Unable to parse precision at {place} as usize: {fault}"),
            ),
            ParseError::Fill(place) => write_unstyled(
                f,
                format_args!(
                    "Fill is not supported due to \
                     https://github.com/rust-lang/rfcs/pull/3394 at {place}"
                ),
            ),
            ParseError::Iter(place) => write_unstyled(
                f,
                format_args!(
                    "Width, precision, `-`, `+` and `#` are not supported for `i` at {place}"
                ),
            ),
            ParseError::RangeBound(fault, place) => write_unstyled(
                f,
                format_args!("Unable to parse range bound at {place} as isize: {fault}"),
            ),
        }
    }
}

impl fmt::Display for Error {
    ghost output = { λ error. Some (error_text error) };

    ghost styled_output = { λ error _. Some (error_text error) };

    fn fmt<W: fmt::Write>(&self, f: &mut fmt::Formatter<W>) -> fmt::Result {
        match self {
            Error::MissingTraitImpl(wanted, place) => {
                let name = trait_name(*wanted);
                write_unstyled(
                    f,
                    format_args!(
                        "trait `{name}` not implemented, used by format argument at {place}"
                    ),
                )
            }
            Error::Fmt(_, place) => write_unstyled(
                f,
                format_args!(
                    "error while formatting at {place}: \
                     an error occurred when formatting an argument"
                ),
            ),
            Error::Parse(fault) => write_unstyled(
                f,
                format_args!("error while parsing input: {fault}"),
            ),
            Error::MissingValue(name, place) => write_unstyled(
                f,
                format_args!("specified value not in context `{name}` at {place}"),
            ),
            Error::UnsupportedOption(option, feature, place) => {
                write_unsupported(f, *option, *feature, *place)
            }
            Error::NoMemory => f.write_str("out of memory"),
        }
    }
}

fn trait_name(wanted: Trait) -> &'static str
    ensures { result.now ≡ trait_name_of wanted }
{
    match wanted {
        Trait::Binary => "Binary",
        Trait::Debug => "Debug",
        Trait::Display => "Display",
        Trait::LowerExp => "LowerExp",
        Trait::LowerHex => "LowerHex",
        Trait::Octal => "Octal",
        Trait::UpperExp => "UpperExp",
        Trait::UpperHex => "UpperHex",
        Trait::Iter => "Iter",
    }
}

// A function of its own, since the prover knows the two `'static` texts only as parameters.
fn write_unsupported<W: fmt::Write>(
    f: &mut fmt::Formatter<W>,
    option: &str,
    feature: &str,
    place: usize,
) -> fmt::Result
    ensures writes { WritesOnOk W.write_str_gives f.old result
        (unsupported_text option.now feature.now place) f.new }
    ensures styled { WritesStyledOnOk W.write_str_gives f.old result
        (unsupported_text option.now feature.now place) f.new }
{
    write_unstyled(
        f,
        format_args!("option `{option}` is not supported without feature `{feature}` at {place}"),
    )
}
