//! The arithmetic of exponent form: the digits that are shown, and the exponent.
ghost use Rattle.std.specs.Prelude.{◌≡◌, ◌+◌, ◌/◌, ◌%◌, ◌^◌, ◌<◌, ◌≤◌, ◌++◌, false, replicate};
ghost use Rattle.std.specs.Prelude.{unwrap_or};
ghost use Rattle.interpolator_digits.specs.Exponent.{exponent_of, nearest, rounding, scientific};
ghost use Rattle.interpolator_digits.specs.Exponent.{significant_digits};
ghost use Rattle.interpolator_digits.specs.{Characters.zero_digit, Digits.digit_text};

use crate::digits::GREATEST_U64;

/// The powers of ten below 2 ^ 128.
static POWERS: [u128; 39] = [
    1,
    10,
    100,
    1_000,
    10_000,
    100_000,
    1_000_000,
    10_000_000,
    100_000_000,
    1_000_000_000,
    10_000_000_000,
    100_000_000_000,
    1_000_000_000_000,
    10_000_000_000_000,
    100_000_000_000_000,
    1_000_000_000_000_000,
    10_000_000_000_000_000,
    100_000_000_000_000_000,
    1_000_000_000_000_000_000,
    10_000_000_000_000_000_000,
    100_000_000_000_000_000_000,
    1_000_000_000_000_000_000_000,
    10_000_000_000_000_000_000_000,
    100_000_000_000_000_000_000_000,
    1_000_000_000_000_000_000_000_000,
    10_000_000_000_000_000_000_000_000,
    100_000_000_000_000_000_000_000_000,
    1_000_000_000_000_000_000_000_000_000,
    10_000_000_000_000_000_000_000_000_000,
    100_000_000_000_000_000_000_000_000_000,
    1_000_000_000_000_000_000_000_000_000_000,
    10_000_000_000_000_000_000_000_000_000_000,
    100_000_000_000_000_000_000_000_000_000_000,
    1_000_000_000_000_000_000_000_000_000_000_000,
    10_000_000_000_000_000_000_000_000_000_000_000,
    100_000_000_000_000_000_000_000_000_000_000_000,
    1_000_000_000_000_000_000_000_000_000_000_000_000,
    10_000_000_000_000_000_000_000_000_000_000_000_000,
    100_000_000_000_000_000_000_000_000_000_000_000_000,
];

/// What exponent form shows of a number: the digits of `digits`, then `zeros` zeros, and the
/// exponent of the first digit.
#[derive(Clone, Copy)]
pub(crate) struct Shown {
    pub(crate) digits: u128,
    pub(crate) zeros: usize,
    pub(crate) exponent: usize,
}

#[tactic(auto, using(crate::proofs::ScientificLemmas::power_at))]
pub(crate) fn power(exponent: usize) -> u128
    requires { exponent ≤ 38 }
    ensures { result ≡ 10 ^ exponent }
{
    POWERS[exponent]
}

/// Quotient and remainder.
///
/// Numbers that fit 64 bits are divided as `u64`, which costs a fraction of a division of `u128`.
pub(crate) fn divided(n: u128, unit: u128) -> (u128, u128)
    requires { 0 < unit }
    ensures quotient { result.0 ≡ n / unit }
    ensures remainder { result.1 ≡ n % unit }
{
    if n <= GREATEST_U64 && unit <= GREATEST_U64 {
        let (n, unit) = (n as u64, unit as u64);
        ((n / unit) as u128, (n % unit) as u128)
    } else {
        (n / unit, n % unit)
    }
}

/// The exponent of the first digit.
#[tactic(auto, using(crate::proofs::ScientificLemmas::exponent_found))]
#[inline(always)]
fn exponent_of(n: u128) -> usize
    ensures value { result ≡ exponent_of n }
    ensures small { result ≤ 38 }
{
    let mut exponent = 0;
    while exponent < 38 && power(exponent + 1) <= n {
        exponent += 1;
    }
    exponent
}

/// The whole number nearest to `n / unit`, the even one on a tie.
pub(crate) fn nearest(n: u128, unit: u128) -> u128
    requires { 2 ≤ unit }
    ensures { result ≡ nearest n unit }
{
    let (low, rest) = divided(n, unit);
    let other = unit - rest;
    if rest < other {
        low
    } else if other < rest {
        low + 1
    } else {
        low + low % 2
    }
}

/// A number without the zeros at its end.
#[tactic(auto, using(crate::proofs::ScientificLemmas::trims))]
fn trimmed(n: u128) -> u128
    ensures { digit_text 10 false result ≡ significant_digits (digit_text 10 false n) }
{
    let mut rest = n;
    while rest >= 10 && divided(rest, 10).1 == 0 {
        rest = divided(rest, 10).0;
    }
    rest
}

/// A number with more than `places` digits after the first, rounded to `places` of them.
#[tactic(auto, using(interpolator_digits::proofs::ExponentLemmas::pow_more))]
fn rounded(n: u128, places: usize, exponent: usize) -> Shown
    requires exponent { exponent ≡ exponent_of n }
    requires low { exponent ≤ 38 }
    requires fewer { places < exponent }
    ensures digits { digit_text 10 false result.digits ≡ (rounding places n exponent).digits }
    ensures zeros { result.zeros ≡ 0 }
    ensures exponent { result.exponent ≡ (rounding places n exponent).exponent }
{
    let mantissa = nearest(n, power(exponent - places));
    if mantissa == power(places + 1) {
        Shown {
            digits: power(places),
            zeros: 0,
            exponent: exponent + 1,
        }
    } else {
        Shown {
            digits: mantissa,
            zeros: 0,
            exponent,
        }
    }
}

/// What exponent form shows of a number at a precision.
#[tactic(auto, using(interpolator_digits::proofs::ExponentLemmas::scientific_steps))]
#[inline(always)]
pub(crate) fn shown_of(n: u128, precision: Option<usize>) -> Shown
    ensures digits { digit_text 10 false result.digits ++ replicate result.zeros zero_digit
        ≡ (scientific precision n).digits }
    ensures exponent { result.exponent ≡ (scientific precision n).exponent }
    ensures small { result.exponent ≤ 39 }
{
    let exponent = exponent_of(n);
    match precision {
        None => Shown {
            digits: trimmed(n),
            zeros: 0,
            exponent,
        },
        Some(places) if places < exponent => rounded(n, places, exponent),
        Some(places) => Shown {
            digits: n,
            zeros: places - exponent,
            exponent,
        },
    }
}
