//! How an argument wants its value written, in numbers that C can read.
ghost use Rattle.std.specs.Prelude.{◌≡◌};
ghost use Rattle.interpolator_border.specs.Requests.{alignment_code, fill_code, flag_code};
ghost use Rattle.interpolator_border.specs.Requests.{given_code, hex_debug_code, is_request};
ghost use Rattle.interpolator_border.specs.Requests.{request_of, sign_code, slot_code};

use interpolator::{Alignment, HexDebug, Sign, Spec, Trait};

/// How an argument wants its value written: under which trait, and with which fill, flags, width
/// and precision.
#[repr(C)]
#[derive(Clone, Copy)]
pub struct Request {
    /// The trait: 0 display, 1 debug, 2 binary, 3 octal, 4 and 5 hexadecimal, 6 and 7 exponent
    /// form, in lower and upper case; 8 a list.
    pub slot: u32,
    /// The code of the fill character; the greatest `u32` if there is none.
    pub fill: u32,
    /// 0 none, 1 left, 2 centre, 3 right.
    pub alignment: u32,
    /// 0 none, 1 plus, 2 minus.
    pub sign: u32,
    /// 1 after `#`, else 0.
    pub alternate: u32,
    /// 1 after the zero flag, else 0.
    pub zero: u32,
    /// 0 none, 1 lower, 2 upper case.
    pub hex_debug: u32,
    /// 1 if a width is given, and 2 more if a precision is.
    pub given: u32,
    /// The width; 0 if none is given.
    pub width: usize,
    /// The precision; 0 if none is given.
    pub precision: usize,
}

/// The number of a trait.
pub(crate) fn slot_code(t: Trait) -> u32
    ensures { result ≡ slot_code t }
{
    match t {
        Trait::Display => 0,
        Trait::Debug => 1,
        Trait::Binary => 2,
        Trait::Octal => 3,
        Trait::LowerHex => 4,
        Trait::UpperHex => 5,
        Trait::LowerExp => 6,
        Trait::UpperExp => 7,
        Trait::Iter => 8,
    }
}

/// The number of a fill.
fn fill_code(fill: Option<char>) -> u32
    ensures { result ≡ fill_code fill }
{
    match fill {
        Some(c) => u32::from(c),
        None => u32::MAX,
    }
}

/// The number of an alignment.
fn alignment_code(alignment: Alignment) -> u32
    ensures { result ≡ alignment_code alignment }
{
    match alignment {
        Alignment::Unset => 0,
        Alignment::Left => 1,
        Alignment::Center => 2,
        Alignment::Right => 3,
    }
}

/// The number of a sign flag.
fn sign_code(sign: Sign) -> u32
    ensures { result ≡ sign_code sign }
{
    match sign {
        Sign::Unset => 0,
        Sign::Plus => 1,
        Sign::Minus => 2,
    }
}

/// The number of a debug flag.
fn hex_debug_code(hex_debug: HexDebug) -> u32
    ensures { result ≡ hex_debug_code hex_debug }
{
    match hex_debug {
        HexDebug::No => 0,
        HexDebug::Lower => 1,
        HexDebug::Upper => 2,
    }
}

/// 1 if a flag is set.
fn flag_code(set: bool) -> u32
    ensures { result ≡ flag_code set }
{
    if set { 1 } else { 0 }
}

/// Which of a width and a precision are given.
fn given_code(width: Option<usize>, precision: Option<usize>) -> u32
    ensures { result ≡ given_code width precision }
{
    match (width, precision) {
        (None, None) => 0,
        (Some(_), None) => 1,
        (None, Some(_)) => 2,
        (Some(_), Some(_)) => 3,
    }
}

/// A trait and a spec, in numbers.
pub(crate) fn request_of(t: Trait, spec: &Spec) -> Request
    ensures { result ≡ request_of t spec.now }
{
    Request {
        slot: slot_code(t),
        fill: fill_code(spec.fill),
        alignment: alignment_code(spec.alignment),
        sign: sign_code(spec.sign),
        alternate: flag_code(spec.alternate),
        zero: flag_code(spec.zero),
        hex_debug: hex_debug_code(spec.hex_debug),
        given: given_code(spec.width, spec.precision),
        width: spec.width.unwrap_or(0),
        precision: spec.precision.unwrap_or(0),
    }
}

/// Whether two requests are the same.
pub(crate) fn is_request(wanted: &Request, request: &Request) -> bool
    ensures { result ≡ is_request wanted.now request.now }
{
    wanted.slot == request.slot
        && wanted.fill == request.fill
        && wanted.alignment == request.alignment
        && wanted.sign == request.sign
        && wanted.alternate == request.alternate
        && wanted.zero == request.zero
        && wanted.hex_debug == request.hex_debug
        && wanted.given == request.given
        && wanted.width == request.width
        && wanted.precision == request.precision
}
