//! The base or form in which a whole number is written, and the number that its digits show.
ghost use Rattle.std.specs.Prelude.{◌≡◌, ◌≤◌};
ghost use Rattle.interpolator_render.specs.Numbers.{base_of, has_minus, IsShortAscii, is_upper};
ghost use Rattle.interpolator_render.specs.Numbers.{magnitude, number_form, prefix_of};
ghost use Rattle.interpolator_render.specs.Numbers.{twos_complement};

use crate::view::{Bits, HexDebug, Trait};

/// A base in which digits are written.
#[derive(Clone, Copy)]
pub(crate) enum Radix {
    Decimal,
    Binary,
    Octal,
    LowerHex,
    UpperHex,
}

/// How a number is written: by its digits, or in exponent form with `E` (true) or `e`.
#[derive(Clone, Copy)]
pub(crate) enum NumberForm {
    Digits(Radix),
    Exponent(bool),
}

impl Radix {
    pub(crate) fn base(self) -> u64
        ensures value { result ≡ base_of self }
        ensures lowest { 2 ≤ result }
        ensures highest { result ≤ 16 }
    {
        match self {
            Radix::Decimal => 10,
            Radix::Binary => 2,
            Radix::Octal => 8,
            Radix::LowerHex | Radix::UpperHex => 16,
        }
    }

    pub(crate) fn is_upper(self) -> bool
        ensures { result ≡ is_upper self }
    {
        matches!(self, Radix::UpperHex)
    }

    pub(crate) fn prefix(self) -> &'static str
        ensures value { result.now ≡ prefix_of self }
        ensures ascii { IsShortAscii result.now }
    {
        match self {
            Radix::Decimal => "",
            Radix::Binary => "0b",
            Radix::Octal => "0o",
            Radix::LowerHex => "0x",
            Radix::UpperHex => "0x",
        }
    }
}

/// How a trait writes whole numbers, if it does.
pub(crate) fn number_form(wanted: Trait, hex_debug: HexDebug) -> Option<NumberForm>
    ensures { result ≡ number_form wanted hex_debug }
{
    match wanted {
        Trait::Display => Some(NumberForm::Digits(Radix::Decimal)),
        Trait::Debug => Some(NumberForm::Digits(match hex_debug {
            HexDebug::No => Radix::Decimal,
            HexDebug::Lower => Radix::LowerHex,
            HexDebug::Upper => Radix::UpperHex,
        })),
        Trait::Binary => Some(NumberForm::Digits(Radix::Binary)),
        Trait::Octal => Some(NumberForm::Digits(Radix::Octal)),
        Trait::LowerHex => Some(NumberForm::Digits(Radix::LowerHex)),
        Trait::UpperHex => Some(NumberForm::Digits(Radix::UpperHex)),
        Trait::LowerExp => Some(NumberForm::Exponent(false)),
        Trait::UpperExp => Some(NumberForm::Exponent(true)),
        Trait::Iter => None,
    }
}

/// The bits of a signed number at its width.
fn twos_complement(number: i128, bits: Bits) -> u128
    ensures { result ≡ twos_complement number bits }
{
    let all = number.cast_unsigned();
    match bits {
        Bits::B8 => all % 0x100,
        Bits::B16 => all % 0x1_0000,
        Bits::B32 => all % 0x1_0000_0000,
        Bits::B64 => all % 0x1_0000_0000_0000_0000,
        Bits::B128 => all,
    }
}

/// Whether a signed number has a `-`, and which number its digits show.
pub(crate) fn sign_and_magnitude(form: NumberForm, number: i128, bits: Bits) -> (bool, u128)
    ensures negative { result.0 ≡ has_minus form number }
    ensures number { result.1 ≡ magnitude form number bits }
{
    match form {
        NumberForm::Digits(Radix::Decimal) => (number < 0, number.unsigned_abs()),
        NumberForm::Digits(_) => (false, twos_complement(number, bits)),
        NumberForm::Exponent(_) => (number < 0, number.unsigned_abs()),
    }
}
