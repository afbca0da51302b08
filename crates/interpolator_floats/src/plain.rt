//! The text of a float's shortest digits, in parts.
ghost use Rattle.std.specs.Prelude.{◌≡◌, ◌+◌, ◌*◌, ◌^◌, ◌<◌, ◌≤◌, Bool, false};
ghost use Rattle.interpolator_digits.specs.{Digits.digit_text, Exponent.exponent_of};
ghost use Rattle.interpolator_floats.specs.ExponentTexts.{scientific_text};
ghost use Rattle.interpolator_floats.specs.ShortestDigits.{IsTrimmed, plain_text};
ghost use Rattle.interpolator_floats.specs.ShortestDigits.{shortest_exponent_text, shortest_text};

use crate::exponent::exponent_less;
use crate::shortest::Shortest;

/// The digits of `whole` and so many zeros as `tens` says, and if `places` is not 0 after a point
/// those of `part`, with zeros before them up to `places`.
#[derive(Clone, Copy)]
pub struct PlainDigits {
    pub whole: u64,
    pub tens: usize,
    pub part: u64,
    pub places: usize,
}

/// The digits of exponent form, of which the first stands before the point, and the exponent.
#[derive(Clone, Copy)]
pub struct ScientificDigits {
    pub digits: u64,
    /// Whether the exponent of the first digit is below zero.
    pub below: bool,
    /// How far the exponent lies from zero.
    pub size: usize,
}

/// The text of shortest digits, all of them before the point and after it.
///
/// ```text
/// plain_digits(shortest_digits(1.5e9))     // whole 15, tens 8
/// plain_digits(shortest_digits(0.025))     // whole 0, part 25, places 3
/// ```
#[tactic(auto, using(crate::proofs::PlainLemmas::plain_steps))]
pub fn plain_digits(shown: Shortest) -> PlainDigits
    requires { IsTrimmed shown.digits shown.up shown.down }
    ensures text { plain_text result.whole result.tens result.part result.places
        ≡ shortest_text shown }
    ensures fits { result.part < 10 ^ result.places }
{
    if shown.down == 0 {
        return PlainDigits {
            whole: shown.digits,
            tens: shown.up as usize,
            part: 0,
            places: 0,
        };
    }
    if shown.down > 19 {
        return PlainDigits {
            whole: 0,
            tens: 0,
            part: shown.digits,
            places: shown.down as usize,
        };
    }
    let unit = 10u64.pow(shown.down);
    PlainDigits {
        whole: shown.digits / unit,
        tens: 0,
        part: shown.digits % unit,
        places: shown.down as usize,
    }
}

/// The exponent of the first of shortest digits, counted in units of 10 ^ -down.
pub fn units_exponent(shown: Shortest) -> usize
    requires { IsTrimmed shown.digits shown.up shown.down }
    ensures exponent { result ≡ exponent_of (shown.digits * 10 ^ shown.up) }
    ensures small { result ≤ shown.up + 20 }
{
    if shown.digits == 0 {
        return 0;
    }
    shown.digits.ilog10() as usize + shown.up as usize
}

/// The text of shortest digits in exponent form.
///
/// ```text
/// scientific_digits(shortest_digits(1.5e-7))     // digits 15, below zero, size 7
/// ```
pub fn scientific_digits(shown: Shortest) -> ScientificDigits
    requires { IsTrimmed shown.digits shown.up shown.down }
    ensures { (upper : Bool) →
        scientific_text upper (digit_text 10 false result.digits) 0 result.below result.size
        ≡ shortest_exponent_text upper shown }
{
    if shown.digits == 0 {
        return ScientificDigits {
            digits: 0,
            below: false,
            size: 0,
        };
    }
    let (below, size) = exponent_less(units_exponent(shown), shown.down as usize);
    ScientificDigits {
        digits: shown.digits,
        below,
        size,
    }
}
