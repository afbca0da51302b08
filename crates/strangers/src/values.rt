//! The values of words.
ghost use Rattle.std.specs.Prelude.{◌≡◌, ◌≤◌, ◌<◌, ◌+◌, ◌/◌, ◌^◌, false, All, FitsSigned, None};
ghost use Rattle.std.specs.Prelude.{length};
ghost use Rattle.std.specs.{Int.w128};
ghost use Rattle.interpolator_digits.specs.{Decimals.decimal_text, Digits.digit_text};
ghost use Rattle.strangers.specs.Values.{IsInRange, characters_of, count_after, decimal_characters};
ghost use Rattle.strangers.specs.Values.{longest_of};

use interpolator::{Bits, Decimal, Spec, Trait, Value, View};
use interpolator_render::char_count;

/// A text, a whole number or a decimal.
#[derive(Clone, Copy)]
pub enum Datum<'a> {
    /// A text.
    Text(&'a str),
    /// A whole number, of 128 bits.
    Number(i128),
    /// A decimal.
    Decimal(Decimal),
}

impl<'a> Value for Datum<'a> {
    ghost use Rattle.strangers.specs.Values.{datum_shows};

    ghost shows = { λ value _ _. datum_shows value };

    fn view(&self, _t: Trait, _spec: &Spec) -> View<'_> {
        match self {
            Datum::Text(text) => View::Text(text),
            Datum::Number(number) => View::Signed(*number, Bits::B128),
            Datum::Decimal(decimal) => View::Decimal {
                units: decimal.units,
                scale: decimal.scale,
            },
        }
    }
}

/// The value of a word.
#[derive(Drop)]
pub enum Given<'a> {
    /// One value.
    One(Datum<'a>),
    /// The items of a list.
    Many(Vec<Datum<'a>>),
}

/// A word: a name, and the value under it.
#[derive(Drop)]
pub struct Word<'a> {
    pub name: &'a str,
    pub given: Given<'a>,
}

/// How many characters a value's text has. A whole number has no text. A decimal has the text that
/// is written without a precision, and counts one more for a sign.
pub fn characters_of(value: &Datum<'_>) -> usize
    ensures count { result ≡ characters_of value.now }
    ensures range { IsInRange value.now }
{
    match value {
        Datum::Text(text) => char_count(text),
        Datum::Number(number) => characters_of_number(*number),
        Datum::Decimal(decimal) => characters_of_decimal(*decimal),
    }
}

/// 0, since a whole number is no text; the second clause gives its range to the caller.
fn characters_of_number(number: i128) -> usize
    ensures none { result ≡ 0 }
    ensures fits { FitsSigned w128 number }
{
    let _ = number;
    0
}

/// How many digits a number has.
fn digit_count(number: u128) -> usize
    ensures count { result ≡ length (digit_text 10 false number) }
    ensures most { result ≤ 39 }
{
    match number.checked_ilog10() {
        None => 1,
        Some(power) => power as usize + 1,
    }
}

/// How many digits a decimal has before its point.
#[tactic(auto, using(interpolator_digits::proofs::ExponentLemmas::pow_some))]
fn whole_digits(units: u128, scale: u32) -> usize
    ensures count { result ≡ length (digit_text 10 false (units / 10 ^ scale)) }
    ensures most { result ≤ 39 }
{
    match 10u128.checked_pow(scale) {
        None => 1,
        Some(unit) => digit_count(units / unit),
    }
}

/// How many characters are after those digits: the point and the digits after it, or none.
fn count_after(scale: u32) -> usize
    ensures { result ≡ count_after scale }
{
    if scale == 0 {
        return 0;
    }
    scale as usize + 1
}

/// How many characters a decimal of these units has, with one for a sign.
fn characters_of_units(units: u128, scale: u32) -> usize
    ensures { result ≡ length (decimal_text None scale units) + 1 }
{
    whole_digits(units, scale) + count_after(scale) + 1
}

/// How many characters a decimal has, with one for a sign.
fn characters_of_decimal(decimal: Decimal) -> usize
    ensures count { result ≡ decimal_characters decimal }
    ensures units { FitsSigned w128 decimal.units }
    ensures scale { decimal.scale < 2 ^ 32 }
{
    characters_of_units(decimal.units.unsigned_abs(), decimal.scale)
}

/// How many characters the longest text has.
pub fn longest_of(values: &[Datum<'_>]) -> usize
    ensures count { result ≡ longest_of values.now }
    ensures range { All IsInRange values.now }
{
    let mut longest = 0usize;
    for value in values {
        longest = longest.max(characters_of(value));
    }
    longest
}
