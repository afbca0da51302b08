//! Decimals: amounts and measures, exactly.
ghost use Rattle.std.specs.Prelude.{◌≡◌, ◌↔◌, ℕ, ◌+◌, ◌*◌, ◌^◌, ◌<◌, Bool, List, ◌∷◌, ◌++◌, length};
ghost use Rattle.std.specs.Prelude.{FitsSigned, IfErr, MatchOption, Ok, if◌then◌else◌};
ghost use Rattle.std.specs.Str.Parse.{AllDigits, IsNumeral, digits_value, digits_value_after};
ghost use Rattle.std.specs.{Bool.Decides, Char.digit_value, Char.is_ascii_digit};
ghost use Rattle.std.specs.{Int.IsInRange as IsBetween, Int.w128, List.list_all, Option.SomeIff};
ghost use Rattle.interpolator_render.specs.Views.{decimal_number, shown_by};
ghost use Rattle.interpolator.specs.DecimalTexts.{AreParts, Explains, HasSign, IsInRange, Spells};
ghost use Rattle.interpolator.specs.DecimalTexts.{decimal_of, signed};
ghost use Rattle.interpolator.specs.declared.decimal.Decimal.{Decimal};
ghost use Rattle.interpolator_syntax.specs.declared.error.NumberError.TheVariants.{NegOverflow};
ghost use Rattle.interpolator_syntax.specs.declared.error.NumberError.TheVariants.{PosOverflow};

use interpolator_render::{Spec, Trait, Value, View};
use interpolator_syntax::NumberError;

/// A decimal number: `units` of 10 ^ -`scale`, exactly. 12.50 is 1250 units at the scale 2.
///
/// Two decimals are equal if their fields are: 12.5 and 12.50 are the same number, and not equal,
/// since they are written differently.
///
/// ```text
/// let price = Decimal { units: 1250, scale: 2 };
/// values!(price).format(alloc, "{price:>8} {price:.1}")?    // "   12.50 12.5"
/// ```
#[derive(Clone, Copy, Debug, PartialEq)]
pub struct Decimal {
    /// How many units.
    pub units: i128,
    /// How many digits are after the point.
    pub scale: u32,
}

/// Whether a text begins with `-`, and what is after the `-` or `+` if it begins with one.
fn split_sign(text: &str) -> (bool, &str)
    ensures sign { HasSign text.now result.1.now result.0 }
    ensures only { (negative : Bool) (digit : ℕ) (rest : List ℕ) → IsBetween 48 57 digit
        → HasSign text.now (digit ∷ rest) negative
        → (negative ≡ result.0) × (digit ∷ rest ≡ result.1.now) }
{
    if let Some(rest) = text.strip_prefix('-') {
        return (true, rest);
    }
    match text.strip_prefix('+') {
        Some(rest) => (false, rest),
        None => (false, text),
    }
}

/// Whether each byte of a text is a digit.
fn has_only_digits(text: &str) -> bool
    ensures { result ≡ list_all is_ascii_digit text.now }
{
    text.bytes().all(|byte| byte.is_ascii_digit())
}

/// Whether a text is digits, one at least.
fn is_digits(text: &str) -> bool
    ensures { Decides result (IsNumeral 10 text.now) }
{
    !text.is_empty() && has_only_digits(text)
}

/// Whether both texts are digits, one at least in each.
fn are_digits(before: &str, after: &str) -> bool
    ensures { Decides result (IsNumeral 10 before.now × IsNumeral 10 after.now) }
{
    is_digits(before) && is_digits(after)
}

/// The digits before a point and after it, if a text is digits or two runs of digits with a point
/// between them.
fn split_point(text: &str) -> Option<(&str, &str)>
    ensures { MatchOption result ((before after : List ℕ) → ¬ (AreParts text.now before after))
        (λ parts. AreParts text.now parts.0.now parts.1.now) }
{
    match text.split_once('.') {
        None => is_digits(text).then_some((text, "")),
        Some((before, after)) => are_digits(before, after).then_some((before, after)),
    }
}

/// A number with one more digit, if it is less than 2^128.
fn with_digit(number: u128, digit: u8) -> Option<u128>
    requires { IsBetween 48 57 digit }
    ensures { SomeIff result (number * 10 + digit_value digit < 2 ^ 128)
        (number * 10 + digit_value digit) }
{
    number
        .checked_mul(10)?
        .checked_add(u128::from(digit - b'0'))
}

/// A number with more digits after its own, if it is less than 2^128.
fn with_digits(number: u128, digits: &[u8]) -> Option<u128>
    requires { AllDigits 10 digits.now }
    ensures { SomeIff result (digits_value_after 10 number digits.now < 2 ^ 128)
        (digits_value_after 10 number digits.now) }
{
    let mut total = number;
    for digit in digits {
        total = with_digit(total, *digit)?;
    }
    Some(total)
}

/// The number that digits before a point and after it spell together, if it is less than 2^128.
fn count_of(before: &str, after: &str) -> Option<u128>
    requires before { AllDigits 10 before.now }
    requires after { AllDigits 10 after.now }
    ensures { SomeIff result (digits_value 10 (before.now ++ after.now) < 2 ^ 128)
        (digits_value 10 (before.now ++ after.now)) }
{
    let whole = with_digits(0, before.as_bytes())?;
    with_digits(whole, after.as_bytes())
}

/// A count under its sign, if it is in range.
fn with_sign(negative: bool, count: u128) -> Option<i128>
    ensures { SomeIff result (FitsSigned w128 (signed negative count)) (signed negative count) }
{
    if negative {
        return 0i128.checked_sub_unsigned(count);
    }
    i128::try_from(count).ok()
}

/// The units that digits spell under a sign, if they are in range.
fn units_of(negative: bool, before: &str, after: &str) -> Option<i128>
    requires before { AllDigits 10 before.now }
    requires after { AllDigits 10 after.now }
    ensures { SomeIff result
        (FitsSigned w128 (signed negative (digits_value 10 (before.now ++ after.now))))
        (signed negative (digits_value 10 (before.now ++ after.now))) }
{
    let count = count_of(before, after)?;
    with_sign(negative, count)
}

/// The decimal of these digits under a sign, if its parts are in range.
fn assembled(negative: bool, before: &str, after: &str) -> Option<Decimal>
    requires before { AllDigits 10 before.now }
    requires after { AllDigits 10 after.now }
    ensures { SomeIff result
        (IsInRange (signed negative (digits_value 10 (before.now ++ after.now)))
        (length after.now))
        (decimal_of (signed negative (digits_value 10 (before.now ++ after.now)))
        (length after.now)) }
{
    let units = units_of(negative, before, after)?;
    let scale = u32::try_from(after.len()).ok()?;
    Some(Decimal { units, scale })
}

/// The fault of a number out of range under its sign.
fn overflow(negative: bool) -> NumberError
    ensures { result ≡ (if negative then NegOverflow else PosOverflow) }
{
    if negative {
        NumberError::NegOverflow
    } else {
        NumberError::PosOverflow
    }
}

impl Decimal {
    /// Reads a decimal: a `-` or `+` if there is one, digits, and if there is a point digits after
    /// it, too. The scale is how many those are, so that 12.50 keeps its last digit.
    ///
    /// # Errors
    ///
    /// - `Empty`: the text is empty.
    /// - `InvalidDigit`: it is no such number.
    /// - `PosOverflow`, `NegOverflow`: its digits together are a number that is no `i128`, or 2^32
    ///   of them or more are after the point.
    ///
    /// ```text
    /// Decimal::parse("12.50")     // Ok(Decimal { units: 1250, scale: 2 })
    /// Decimal::parse("-0.05")     // Ok(Decimal { units: -5, scale: 2 })
    /// Decimal::parse("12.")       // Err(NumberError::InvalidDigit)
    /// ```
    pub fn parse(text: &str) -> Result<Decimal, NumberError>
        ensures spelled { (decimal : Decimal) → Spells text.now decimal ↔ (result ≡ Ok decimal) }
        ensures err { IfErr result (λ error. Explains text.now error) }
    {
        if text.is_empty() {
            return Err(NumberError::Empty);
        }
        let (negative, unsigned) = split_sign(text);
        match split_point(unsigned) {
            None => Err(NumberError::InvalidDigit),
            Some((before, after)) => assembled(negative, before, after).ok_or(overflow(negative)),
        }
    }
}

impl From<Decimal> for View<'_> {
    ghost from_gives = { λ decimal view.
        shown_by view ≡ decimal_number decimal.units decimal.scale };

    fn from(decimal: Decimal) -> Self {
        View::Decimal {
            units: decimal.units,
            scale: decimal.scale,
        }
    }
}

impl Value for Decimal {
    ghost shows = { λ decimal _ _. decimal_number decimal.units decimal.scale };

    fn view(&self, _t: Trait, _spec: &Spec) -> View<'_> {
        View::from(*self)
    }
}
