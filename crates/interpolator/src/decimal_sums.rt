//! Sums and differences of decimals, and the same number with more or fewer digits after the point,
//! exactly.
//!
//! Of two numbers `high` has fewer digits after its point, and a unit is what one of it is worth in
//! the last digit of the other, `low`: a power of ten. All units of `high` together can be too many
//! for an `i128` where the sum is not, as with 17014118346046923173168730371588410573 and -0.5. So
//! the whole units in `low` are added to `high` first, and what is left of `low` is added to a
//! product that is no further from zero than the sum.

ghost use Rattle.std.specs.Prelude.{◌≡◌, ◌↔◌, ◌+ℤ◌, ◌-ℤ◌, ◌*ℤ◌, ◌≤ℤ◌, ◌<ℤ◌, ℤ, pos, FitsSigned};
ghost use Rattle.std.specs.Prelude.{MatchOption, Some, SomeIff};
ghost use Rattle.std.specs.{Bool.Decides, Int.int_pow, Int.w128};
ghost use Rattle.interpolator.specs.DecimalSums.{HaveSameValue, IsRescaled, exact_difference};
ghost use Rattle.interpolator.specs.DecimalSums.{exact_sum};
ghost use Rattle.interpolator.specs.{DecimalTexts.decimal_of, declared.decimal.Decimal.Decimal};

use crate::decimal::Decimal;

/// `high` units and less than one, if that fits.
fn with_low(high: i128, unit: i128, low: i128) -> Option<i128>
    requires { (pos 0 ≤ℤ low) × (low <ℤ unit) }
    ensures { SomeIff result (FitsSigned w128 (high *ℤ unit +ℤ low)) (high *ℤ unit +ℤ low) }
{
    if high < 0 {
        return (high + 1).checked_mul(unit)?.checked_add(low - unit);
    }
    high.checked_mul(unit)?.checked_add(low)
}

/// `high` units without less than one, if that fits.
fn without_low(high: i128, unit: i128, low: i128) -> Option<i128>
    requires { (pos 0 ≤ℤ low) × (low <ℤ unit) }
    ensures { SomeIff result (FitsSigned w128 (high *ℤ unit -ℤ low)) (high *ℤ unit -ℤ low) }
{
    if 0 < high {
        return (high - 1).checked_mul(unit)?.checked_add(unit - low);
    }
    high.checked_mul(unit)?.checked_sub(low)
}

/// `high` units and `low`, if that fits.
fn unit_sum(high: i128, unit: i128, low: i128) -> Option<i128>
    requires { pos 0 <ℤ unit }
    ensures { SomeIff result (FitsSigned w128 (high *ℤ unit +ℤ low)) (high *ℤ unit +ℤ low) }
{
    let whole = high.checked_add(low.div_euclid(unit))?;
    with_low(whole, unit, low.rem_euclid(unit))
}

/// `high` units without `low`, if that fits.
fn unit_difference(high: i128, unit: i128, low: i128) -> Option<i128>
    requires { pos 0 <ℤ unit }
    ensures { SomeIff result (FitsSigned w128 (high *ℤ unit -ℤ low)) (high *ℤ unit -ℤ low) }
{
    let whole = high.checked_sub(low.div_euclid(unit))?;
    without_low(whole, unit, low.rem_euclid(unit))
}

/// `high` with as many zeros at its end, and `low`, if that fits.
fn shifted_sum(high: i128, zeros: u32, low: i128) -> Option<i128>
    ensures { SomeIff result (FitsSigned w128 (high *ℤ int_pow (pos 10) zeros +ℤ low))
        (high *ℤ int_pow (pos 10) zeros +ℤ low) }
{
    if high == 0 {
        return Some(low);
    }
    unit_sum(high, 10i128.checked_pow(zeros)?, low)
}

/// `high` with as many zeros at its end, without `low`, if that fits.
fn shifted_difference(high: i128, zeros: u32, low: i128) -> Option<i128>
    ensures { SomeIff result (FitsSigned w128 (high *ℤ int_pow (pos 10) zeros -ℤ low))
        (high *ℤ int_pow (pos 10) zeros -ℤ low) }
{
    if high == 0 {
        return low.checked_neg();
    }
    unit_difference(high, 10i128.checked_pow(zeros)?, low)
}

/// The units of a sum at the greater of the scales, if they fit.
fn sum_units(left: Decimal, right: Decimal) -> Option<i128>
    ensures { SomeIff result (FitsSigned w128 (exact_sum left right).units)
        (exact_sum left right).units }
{
    if left.scale < right.scale {
        return shifted_sum(left.units, right.scale - left.scale, right.units);
    }
    shifted_sum(right.units, left.scale - right.scale, left.units)
}

/// The units of a difference at the greater of the scales, if they fit.
fn difference_units(left: Decimal, right: Decimal) -> Option<i128>
    ensures { SomeIff result (FitsSigned w128 (exact_difference left right).units)
        (exact_difference left right).units }
{
    if right.scale < left.scale {
        return shifted_sum(
            right.units.checked_neg()?,
            left.scale - right.scale,
            left.units,
        );
    }
    shifted_difference(left.units, right.scale - left.scale, right.units)
}

/// How many units a number is, if it is a whole number of them.
fn multiple_of(unit: i128, number: i128) -> Option<i128>
    requires { pos 0 <ℤ unit }
    ensures { MatchOption result ((times : ℤ) → ¬ (times *ℤ unit ≡ number))
        (λ times. times *ℤ unit ≡ number) }
{
    if number.rem_euclid(unit) != 0 {
        return None;
    }
    Some(number.div_euclid(unit))
}

/// A number without as many zeros at its end, if it ends with them.
fn without_zeros(number: i128, zeros: u32) -> Option<i128>
    ensures { MatchOption result
        ((shorter : ℤ) → ¬ (shorter *ℤ int_pow (pos 10) zeros ≡ number))
        (λ shorter. shorter *ℤ int_pow (pos 10) zeros ≡ number) }
{
    if number == 0 {
        return Some(0);
    }
    multiple_of(10i128.checked_pow(zeros)?, number)
}

/// The units of a number at another scale, if it has any there.
fn rescaled_units(number: Decimal, scale: u32) -> Option<i128>
    ensures { MatchOption result
        ((units : ℤ) → FitsSigned w128 units
        → ¬ (HaveSameValue number (decimal_of units scale)))
        (λ units. HaveSameValue number (decimal_of units scale)) }
{
    if scale < number.scale {
        return without_zeros(number.units, number.scale - scale);
    }
    shifted_sum(number.units, scale - number.scale, 0)
}

impl Decimal {
    /// The sum, exactly, with as many digits after the point as the number that has more of them.
    /// `None` only if its units are no `i128`.
    ///
    /// ```text
    /// let price = Decimal { units: 1250, scale: 2 };
    /// price.checked_add(Decimal { units: 7, scale: 1 })    // 13.20, as 1320 units at the scale 2
    /// ```
    pub fn checked_add(self, other: Decimal) -> Option<Decimal>
        ensures { SomeIff result (FitsSigned w128 (exact_sum self other).units)
            (exact_sum self other) }
    {
        let units = sum_units(self, other)?;
        let scale = self.scale.max(other.scale);
        Some(Decimal { units, scale })
    }

    /// The difference, exactly, with as many digits after the point as the number that has more of
    /// them. `None` only if its units are no `i128`.
    ///
    /// ```text
    /// let price = Decimal { units: 1250, scale: 2 };
    /// price.checked_sub(Decimal { units: 20, scale: 0 })    // -7.50, as -750 units at the scale 2
    /// ```
    pub fn checked_sub(self, other: Decimal) -> Option<Decimal>
        ensures { SomeIff result (FitsSigned w128 (exact_difference self other).units)
            (exact_difference self other) }
    {
        let units = difference_units(self, other)?;
        let scale = self.scale.max(other.scale);
        Some(Decimal { units, scale })
    }

    /// The same number with `scale` digits after the point. `None` only if there is no such
    /// decimal: a digit other than zero would be lost, or the units would be no `i128`.
    ///
    /// ```text
    /// let price = Decimal { units: 1250, scale: 2 };
    /// price.rescaled(3)    // 12.500, as 12500 units at the scale 3
    /// price.rescaled(1)    // 12.5, as 125 units at the scale 1
    /// price.rescaled(0)    // None
    /// ```
    pub fn rescaled(self, scale: u32) -> Option<Decimal>
        ensures { (decimal : Decimal) → IsRescaled self scale decimal ↔ (result ≡ Some decimal) }
    {
        let units = rescaled_units(self, scale)?;
        Some(Decimal { units, scale })
    }

    /// Whether both are the same number, however many digits are after their points.
    ///
    /// ```text
    /// let price = Decimal { units: 1250, scale: 2 };
    /// price.same_value(Decimal { units: 125, scale: 1 })    // true: 12.50 is 12.5
    /// price == Decimal { units: 125, scale: 1 }             // false: they are written differently
    /// ```
    pub fn same_value(self, other: Decimal) -> bool
        ensures { Decides result (HaveSameValue self other) }
    {
        match self.rescaled(other.scale) {
            Some(rescaled) => rescaled.units == other.units,
            None => false,
        }
    }
}
