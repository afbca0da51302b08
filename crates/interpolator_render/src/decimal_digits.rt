//! The arithmetic of decimals: the digits that are shown before the point and after it.
ghost use Rattle.std.specs.Prelude.{◌≡◌, ◌/◌, ◌%◌, ◌^◌, ◌<◌, ◌≤◌, None};
ghost use Rattle.interpolator_digits.specs.Decimals.{decimal_text, split_text};
ghost use Rattle.interpolator_digits.specs.Exponent.{nearest};

use crate::scientific::{divided, nearest, power};

/// The greatest scale whose unit fits 64 bits.
pub(crate) const GREATEST_SHORT_SCALE: u32 = 19;

/// What is shown of a decimal without its sign: the digits of `whole`, after a point those of
/// `part`, with zeros before them up to `places`, and then `zeros` zeros.
#[derive(Clone, Copy)]
pub(crate) struct DecimalDigits {
    pub(crate) whole: u128,
    pub(crate) part: u128,
    pub(crate) places: usize,
    pub(crate) zeros: usize,
}

/// Units rounded to a power of ten, and counted in it.
#[tactic(auto, using(interpolator_digits::proofs::DecimalLemmas::roundings))]
fn rounded_units(units: u128, dropped: usize) -> u128
    requires { 0 < dropped }
    ensures { result ≡ nearest units (10 ^ dropped) }
{
    if dropped > 38 {
        return 0;
    }
    nearest(units, power(dropped))
}

/// A count of units, of which the last `places` digits are after the point.
#[tactic(auto, using(interpolator_digits::proofs::DecimalLemmas::splits))]
fn split_at_point(count: u128, places: usize, zeros: usize) -> DecimalDigits
    ensures whole { result.whole ≡ count / 10 ^ places }
    ensures part { result.part ≡ count % 10 ^ places }
    ensures places { result.places ≡ places }
    ensures zeros { result.zeros ≡ zeros }
{
    if places > 38 {
        return DecimalDigits {
            whole: 0,
            part: count,
            places,
            zeros,
        };
    }
    let (whole, part) = divided(count, power(places));
    DecimalDigits {
        whole,
        part,
        places,
        zeros,
    }
}

/// As [`split_at_point`], of a number of 64 bits at a scale whose unit has as many.
#[tactic(auto, using(interpolator_digits::proofs::DecimalLemmas::short_units))]
#[inline(always)]
pub(crate) fn short_split(units: u64, scale: usize) -> DecimalDigits
    requires { scale ≤ 19 }
    ensures text { split_text result.whole result.part result.places result.zeros
        ≡ decimal_text None scale units }
    ensures fits { result.part < 10 ^ result.places }
    ensures places { result.places ≡ scale }
    ensures zeros { result.zeros ≡ 0 }
{
    let unit = power(scale) as u64;
    DecimalDigits {
        whole: (units / unit) as u128,
        part: (units % unit) as u128,
        places: scale,
        zeros: 0,
    }
}

/// What is shown of units of 10 ^ -scale at a precision.
#[tactic(auto, using(interpolator_digits::proofs::DecimalLemmas::point_splits))]
pub(crate) fn decimal_digits(units: u128, scale: u32, precision: Option<usize>) -> DecimalDigits
    ensures text { split_text result.whole result.part result.places result.zeros
        ≡ decimal_text precision scale units }
    ensures fits { result.part < 10 ^ result.places }
{
    let scale = scale as usize;
    match precision {
        None => split_at_point(units, scale, 0),
        Some(places) if places < scale => {
            split_at_point(rounded_units(units, scale - places), places, 0)
        }
        Some(places) => split_at_point(units, scale, places - scale),
    }
}
