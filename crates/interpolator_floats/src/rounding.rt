//! A float rounded to as many digits as a word has.
ghost use Rattle.std.specs.Prelude.{◌≡◌, ℕ, ◌+◌, ◌-◌, ◌*◌, ◌/◌, ◌%◌, ◌^◌, ◌<◌, ◌≤◌, false, true};
ghost use Rattle.interpolator_digits.specs.Exponent.{nearest};
ghost use Rattle.interpolator_floats.specs.ExponentTexts.{IsRounded};
ghost use Rattle.interpolator_floats.specs.Shortest.{IsScale, units_down, units_up};

use crate::powers::power;
use crate::scale::{Counted, Scale, counted_scale};
use crate::units::{Cut, quick_nearest, quick_units, units_in};
use crate::words::is_upper_half;

/// How many digits after the first a float is rounded to at most.
pub(crate) const MOST_PLACES: usize = 17;

/// A number rounded to the digits that a precision shows: so many units of 10 ^ (last - precision)
/// times the unit of a scale.
#[derive(Clone, Copy)]
pub(crate) struct Rounded {
    pub(crate) count: u64,
    pub(crate) last: usize,
    pub(crate) scale: Scale,
}

/// How many times mantissa * 10 ^ places holds 2 ^ down, by 128 bits.
#[tactic(auto, using(crate::proofs::StepLemmas::short_steps))]
fn short_steps(mantissa: u64, down: u32, places: u32) -> Cut
    requires short { mantissa < 2 ^ 53 }
    requires some { 0 < down }
    requires near { down ≤ 69 }
    requires few { places ≤ 22 }
    requires fits { mantissa * 10 ^ places / 2 ^ down < 2 ^ 64 }
    ensures count { result.count ≡ mantissa * 10 ^ places / 2 ^ down }
    ensures some { result.more ≡ true → 0 < mantissa * 10 ^ places % 2 ^ down }
    ensures none { result.more ≡ false → mantissa * 10 ^ places % 2 ^ down ≡ 0 }
{
    let n = mantissa as u128 * power(places as usize);
    let unit = 1u128 << down;
    Cut {
        count: (n / unit) as u64,
        more: n % unit > 0,
    }
}

/// How many whole units are in so many steps.
fn step_count(mantissa: u64, power: u32, counted: Counted) -> Cut
    requires short { mantissa < 2 ^ 53 }
    requires low { power ≤ 2045 }
    requires scale { IsScale power 2 counted.scale.up counted.scale.down }
    requires units { counted.units
        ≡ 2 ^ 62 * units_down power counted.scale.down / units_up counted.scale.up }
    ensures count { result.count
        ≡ 4 * mantissa * units_down power counted.scale.down / units_up counted.scale.up }
    ensures some { result.more ≡ true →
        0 < 4 * mantissa * units_down power counted.scale.down % units_up counted.scale.up }
    ensures none { result.more ≡ false →
        4 * mantissa * units_down power counted.scale.down % units_up counted.scale.up ≡ 0 }
{
    let scale = counted.scale;
    if 1005 <= power && power <= 1073 && scale.up == 0 && scale.down <= 22 {
        return short_steps(mantissa, 1074 - power, scale.down);
    }
    quick_units(4 * mantissa, power, 2, counted)
}

/// The number nearest to tens of units.
fn nearest_count(cut: Cut, dropped: usize) -> u64
    requires some { 0 < dropped }
    requires few { dropped ≤ 19 }
    ensures { (n deep : ℕ) → 0 < deep → n / deep ≡ cut.count →
        (cut.more ≡ true → 0 < n % deep) → (cut.more ≡ false → n % deep ≡ 0) →
        result ≡ nearest n (deep * 10 ^ dropped) }
{
    let unit = power(dropped) as u64;
    let low = cut.count / unit;
    if is_upper_half(cut.count % unit, unit, cut.more, low % 2 == 1) {
        return low + 1;
    }
    low
}

/// A scale whose unit is so many tens smaller.
fn lowered(scale: Scale, places: u32) -> Scale
    requires few { places ≤ 18 }
    requires small { scale.down ≤ 324 }
    ensures up { result.up ≡ scale.up - places }
    ensures down { result.down ≡ scale.down + (places - scale.up) }
{
    Scale {
        up: scale.up.saturating_sub(places),
        down: scale.down + places.saturating_sub(scale.up),
    }
}

/// How many quarters of a step are in so many steps, times a power of ten.
fn fine_quarters(mantissa: u64, places: usize) -> u64
    requires short { mantissa < 2 ^ 53 }
    requires few { places ≤ 17 }
    requires fits { 4 * mantissa * 10 ^ places < 2 ^ 62 }
    ensures { result ≡ 4 * mantissa * 10 ^ places }
{
    4 * mantissa * power(places) as u64
}

/// As [`round_to`], by words, in units of which the number has 19 digits.
fn word_rounded(mantissa: u64, power: u32, places: usize, scale: Scale, last: usize) -> Rounded
    requires short { mantissa < 2 ^ 53 }
    requires low { power ≤ 2045 }
    requires scale { IsScale power 2 scale.up scale.down }
    requires least { 10 ^ last * units_up scale.up ≤ 4 * mantissa * units_down power scale.down }
    requires most { 4 * mantissa * units_down power scale.down
        < 10 ^ (last + 1) * units_up scale.up }
    requires more { last ≤ places }
    requires few { places ≤ 17 }
    ensures rounded { IsRounded mantissa power places
        result.count result.last result.scale.up result.scale.down }
    ensures last { result.last ≤ 19 }
    ensures up { result.scale.up ≤ 300 }
{
    let fine = lowered(scale, (18 - last) as u32);
    let cut = units_in(4 * mantissa, power, fine);
    Rounded {
        count: nearest_count(cut, 18 - places),
        last: 18,
        scale: fine,
    }
}

/// As [`round_to`], where the whole units of the scale have no more digits than are shown.
fn fine_rounded(mantissa: u64, power: u32, places: usize, counted: Counted, last: usize) -> Rounded
    requires some { 0 < mantissa }
    requires short { mantissa < 2 ^ 53 }
    requires low { power ≤ 2045 }
    requires scale { IsScale power 2 counted.scale.up counted.scale.down }
    requires units { counted.units
        ≡ 2 ^ 62 * units_down power counted.scale.down / units_up counted.scale.up }
    requires least { 10 ^ last * units_up counted.scale.up
        ≤ 4 * mantissa * units_down power counted.scale.down }
    requires most { 4 * mantissa * units_down power counted.scale.down
        < 10 ^ (last + 1) * units_up counted.scale.up }
    requires more { last ≤ places }
    requires few { places ≤ 17 }
    ensures rounded { IsRounded mantissa power places
        result.count result.last result.scale.up result.scale.down }
    ensures last { result.last ≤ 19 }
    ensures up { result.scale.up ≤ 300 }
{
    let x = fine_quarters(mantissa, places - last);
    match quick_nearest(x, power, counted) {
        Some(count) => Rounded {
            count,
            last: places,
            scale: lowered(counted.scale, (places - last) as u32),
        },
        None => word_rounded(mantissa, power, places, counted.scale, last),
    }
}

/// The number mantissa * 2 ^ power steps of 2 ^ -1074, rounded to so many digits after the first.
pub(crate) fn round_to(mantissa: u64, power: u32, places: usize) -> Rounded
    requires some { 0 < mantissa }
    requires short { mantissa < 2 ^ 53 }
    requires low { power ≤ 2045 }
    requires few { places ≤ 17 }
    ensures rounded { IsRounded mantissa power places
        result.count result.last result.scale.up result.scale.down }
    ensures last { result.last ≤ 19 }
    ensures up { result.scale.up ≤ 300 }
{
    let counted = counted_scale(power, 2);
    let cut = step_count(mantissa, power, counted);
    let last = cut.count.ilog10() as usize;
    if places < last {
        return Rounded {
            count: nearest_count(cut, last - places),
            last,
            scale: counted.scale,
        };
    }
    fine_rounded(mantissa, power, places, counted, last)
}
