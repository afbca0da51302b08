//! The digits of a float at a precision.
ghost use Rattle.std.specs.Prelude.{◌≡◌, ◌+◌, ◌*◌, ◌/◌, ◌%◌, ◌^◌, ◌<◌, ◌≤◌, IfSome, IsSome, IsTrue};
ghost use Rattle.std.specs.Prelude.{Some};
ghost use Rattle.std.specs.Float.{float_is_finite};
ghost use Rattle.interpolator_digits.specs.Decimals.{decimal_text, split_text, units_text};
ghost use Rattle.interpolator_digits.specs.Exponent.{nearest};
ghost use Rattle.interpolator_floats.specs.Floats.{float_scale, float_text, float_units};

use crate::parts::{float_parts, odd_parts};
use crate::powers::power;

/// The digits of `whole`, after a point those of `part`, with zeros before them up to `places`,
/// and then `zeros` zeros.
#[derive(Clone, Copy)]
pub struct FloatDigits {
    pub whole: u128,
    pub part: u128,
    pub places: usize,
    pub zeros: usize,
}

/// The whole number nearest to n / 2 ^ down, the even one on a tie.
#[tactic(auto, using(crate::proofs::FloatLemmas::shifts))]
fn nearest_shifted(n: u128, down: u32) -> u128
    requires some { 0 < down }
    requires few { down ≤ 127 }
    ensures { result ≡ nearest n (2 ^ down) }
{
    let unit = 1u128 << down;
    let low = n / unit;
    let rest = n % unit;
    let other = unit - rest;
    if rest < other {
        low
    } else if other < rest {
        low + 1
    } else {
        low + low % 2
    }
}

/// How many units of 10 ^ -places are nearest to mantissa / 2 ^ down.
#[tactic(auto, using(crate::proofs::FloatLemmas::counts))]
fn part_count(mantissa: u64, down: u32, places: usize) -> u128
    requires short { mantissa < 2 ^ 53 }
    requires some { 0 < down }
    requires few { places ≤ 22 }
    ensures { result ≡ nearest (mantissa * 10 ^ places) (2 ^ down) }
{
    if down > 127 {
        return 0;
    }
    nearest_shifted(mantissa as u128 * power(places), down)
}

/// How many of the digits after the point are not zeros for certain.
pub(crate) fn shown_places(precision: usize, down: usize) -> usize
    ensures asked { result ≤ precision }
    ensures there { result ≤ down }
    ensures most { result < precision → result ≡ down }
{
    if precision < down { precision } else { down }
}

/// A count of units of 10 ^ -places, split at the point.
#[tactic(auto, using(crate::proofs::FloatLemmas::splits))]
fn split_count(count: u128, places: usize, zeros: usize) -> FloatDigits
    requires few { places ≤ 22 }
    ensures text { split_text result.whole result.part result.places result.zeros
        ≡ units_text (places + zeros) (count * 10 ^ zeros) }
    ensures fits { result.part < 10 ^ result.places }
{
    let unit = power(places);
    FloatDigits {
        whole: count / unit,
        part: count % unit,
        places,
        zeros,
    }
}

/// What is before the point, and what is after it.
#[inline(always)]
#[tactic(auto, using(crate::proofs::FloatLemmas::cuts))]
fn cut_at_point(mantissa: u64, down: u32) -> (u64, u64)
    requires { down ≤ 63 }
    ensures whole { result.0 ≡ mantissa / 2 ^ down }
    ensures rest { result.1 ≡ mantissa % 2 ^ down }
    ensures short { result.1 < 2 ^ down }
{
    let step = 1u64 << down;
    (mantissa / step, mantissa % step)
}

/// As [`nearest_shifted`] of rest * unit, by a product of two words.
#[inline(always)]
#[tactic(auto, using(crate::proofs::FloatLemmas::part_steps))]
fn nearest_part(rest: u64, unit: u64, down: u32) -> u64
    requires short { rest < 2 ^ down }
    requires unit { 0 < unit }
    requires some { 0 < down }
    requires near { down ≤ 63 }
    ensures { result ≡ nearest (rest * unit) (2 ^ down) }
{
    let step = 1u64 << down;
    let product = rest as u128 * unit as u128;
    let units = (product / step as u128) as u64;
    let left = (product % step as u128) as u64;
    let other = step - left;
    if left < other {
        units
    } else if other < left {
        units + 1
    } else {
        units + units % 2
    }
}

/// As [`split_count`] of a [`part_count`], with less than 64 bits after the point: the whole and
/// the rest apart, which takes no division.
#[inline(always)]
#[tactic(auto, using(crate::proofs::FloatLemmas::near_steps))]
fn near_digits(mantissa: u64, down: u32, places: usize, zeros: usize) -> FloatDigits
    requires some { 0 < down }
    requires near { down ≤ 63 }
    requires point { 0 < places }
    requires few { places ≤ 19 }
    ensures text { split_text result.whole result.part result.places result.zeros
        ≡ units_text (places + zeros) (nearest (mantissa * 10 ^ places) (2 ^ down) * 10 ^ zeros) }
    ensures fits { result.part < 10 ^ result.places }
{
    let unit = power(places) as u64;
    let (whole, rest) = cut_at_point(mantissa, down);
    let part = nearest_part(rest, unit, down);
    if part == unit {
        return FloatDigits {
            whole: whole as u128 + 1,
            part: 0,
            places,
            zeros,
        };
    }
    FloatDigits {
        whole: whole as u128,
        part: part as u128,
        places,
        zeros,
    }
}

/// What a precision shows of mantissa * 2 ^ power steps of 2 ^ -1074, if 128 bits serve.
#[inline(never)]
#[tactic(auto, using(crate::proofs::FloatLemmas::digits))]
pub fn short_digits(mantissa: u64, power: u32, precision: usize) -> Option<FloatDigits>
    requires short { mantissa < 2 ^ 53 }
    ensures text { IfSome result (λ shown.
        split_text shown.whole shown.part shown.places shown.zeros
        ≡ units_text precision (nearest (mantissa * 2 ^ power * 10 ^ precision) (2 ^ 1074))) }
    ensures fits { IfSome result (λ shown. shown.part < 10 ^ shown.places) }
    ensures some { precision ≤ 22 → power ≤ 1149 → IsSome result }
{
    if power >= 1074 {
        let up = power - 1074;
        if up > 75 {
            return None;
        }
        return Some(split_count((mantissa as u128) << up, 0, precision));
    }
    let down = 1074 - power;
    let places = shown_places(precision, down as usize);
    if places > 22 {
        return None;
    }
    if down <= 63 && places > 0 && places <= 19 {
        return Some(near_digits(mantissa, down, places, precision - places));
    }
    let count = part_count(mantissa, down, places);
    Some(split_count(count, places, precision - places))
}

/// What a precision shows of a finite float, if 128 bits serve: up to 22 places, or past those only
/// zeros, of a float whose odd mantissa is shifted by no more than 75 bits.
///
/// It is the text of the decimal that the float is, without its sign.
#[inline(always)]
#[tactic(auto, using(crate::proofs::FloatLemmas::decimal_texts))]
pub fn float_digits(x: f64, precision: usize) -> Option<FloatDigits>
    requires { IsTrue (float_is_finite x) }
    ensures text { IfSome result (λ shown.
        split_text shown.whole shown.part shown.places shown.zeros
        ≡ decimal_text (Some precision) (float_scale x) (float_units x)) }
    ensures fits { IfSome result (λ shown. shown.part < 10 ^ shown.places) }
{
    let near = float_parts(x);
    if 1011 <= near.power && near.power <= 1073 && 0 < precision && precision <= 19 {
        return Some(near_digits(near.mantissa, 1074 - near.power, precision, 0));
    }
    let parts = odd_parts(x);
    short_digits(parts.mantissa, parts.power, precision)
}

/// A finite float is a decimal: at a precision it has the text of its units.
#[tactic(auto, using(crate::proofs::FloatLemmas::as_decimal))]
pub fn float_is_decimal(x: f64, precision: usize)
    requires { IsTrue (float_is_finite x) }
    ensures { float_text precision x
        ≡ decimal_text (Some precision) (float_scale x) (float_units x) }
{}
