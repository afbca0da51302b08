//! Decimals, written by their digits.
ghost use Rattle.std.specs.Prelude.{◌≡◌, ◌+◌, ◌^◌, ◌<◌, ◌≤◌, ◌++◌, [], false, replicate, Bool, ℕ};
ghost use Rattle.std.specs.Prelude.{None, if◌then◌else◌, true, unwrap_or, ◌==◌, ◌∷◌};
ghost use Rattle.interpolator_render.specs.Numbers.{IsShortAscii, distance_from_zero, is_negative};
ghost use Rattle.interpolator_render.specs.Numbers.{sign_text};
ghost use Rattle.interpolator_render.specs.Padding.{row_fill, padded_number};
ghost use Rattle.interpolator_render.specs.declared.view.Sign.TheVariants.{Unset};
ghost use Rattle.interpolator_render.specs.{DigitBuffers.put_before, Writers.Puts};
ghost use Rattle.interpolator_digits.specs.Characters.{point, zero_digit};
ghost use Rattle.interpolator_digits.specs.Decimals.{after_point, decimal_text, placed, split_text};
ghost use Rattle.interpolator_digits.specs.Digits.{digit_text};

use crate::decimal_digits::{DecimalDigits, GREATEST_SHORT_SCALE, decimal_digits, short_split};
use crate::decimal_parts::{DecimalParts, put_padded_decimal};
use crate::digit_buffer::{BUFFER_WIDTH, DigitBuffer};
use crate::digits::{GREATEST_U64, digit_str};
use crate::layout::put_ascii;
use crate::number::is_bare;
use crate::number_form::NumberForm;
use crate::number_parts::sign_str;
use crate::number_row::{fill_byte, fits_buffer, put_around, put_sign};
use crate::scientific::power;
use crate::text_write::{Refusal, TextWrite};
use crate::view::{Sign, Spec};

/// How many digits after a one 64 bits have room for.
const MOST_LED: usize = 18;

/// Writes a number by exactly `places` digits, with zeros before its own.
#[inline(never)]
fn put_many_placed(buffer: &mut DigitBuffer, part: u128, places: usize)
    requires fits { part < 10 ^ places }
    requires room { places ≤ buffer.old.before }
    ensures { buffer.new ≡ put_before (placed places part) buffer.old }
{
    if places == 0 {
        return;
    }
    let after = buffer.len();
    buffer.put_decimal(part);
    let count = buffer.len() - after;
    let missing = places - count;
    buffer.put_zeros(missing);
}

/// As [`put_many_placed`]: with a one before them, few digits are those of a word but its first.
#[inline(always)]
#[tactic(auto, using(crate::proofs::DecimalRowLemmas::led_steps))]
fn put_placed(buffer: &mut DigitBuffer, part: u128, places: usize)
    requires fits { part < 10 ^ places }
    requires room { places < buffer.old.before }
    ensures { buffer.new ≡ put_before (placed places part) buffer.old }
{
    if places > MOST_LED {
        put_many_placed(buffer, part, places);
        return;
    }
    let led = power(places) as u64 + part as u64;
    let _one = buffer.put_low_decimal(led as u128);
}

/// Writes the digits after the point, and the point if there are any.
#[tactic(auto, using(crate::proofs::DecimalRowLemmas::after_steps))]
#[inline(always)]
fn put_after_point(buffer: &mut DigitBuffer, shown: DecimalDigits)
    requires fits { shown.part < 10 ^ shown.places }
    requires few { shown.places + shown.zeros ≤ 40 }
    requires room { 41 ≤ buffer.old.before }
    ensures { buffer.new ≡ put_before
        (after_point (placed shown.places shown.part ++ replicate shown.zeros zero_digit)) buffer.old }
{
    if shown.places + shown.zeros == 0 {
        return;
    }
    buffer.put_zeros(shown.zeros);
    put_placed(buffer, shown.part, shown.places);
    buffer.push_front(b'.');
}

/// Writes a decimal without its sign.
#[tactic(auto, using(crate::proofs::DecimalRowLemmas::split_steps))]
#[inline(always)]
fn put_split(buffer: &mut DigitBuffer, shown: DecimalDigits)
    requires fits { shown.part < 10 ^ shown.places }
    requires few { shown.places + shown.zeros ≤ 40 }
    requires room { 80 ≤ buffer.old.before }
    ensures { buffer.new
        ≡ put_before (split_text shown.whole shown.part shown.places shown.zeros) buffer.old }
{
    put_after_point(buffer, shown);
    buffer.put_decimal(shown.whole);
}

/// Writes a decimal made in one buffer, by one call.
#[tactic(auto, using(crate::proofs::DecimalRowLemmas::decimal_row))]
#[inline(always)]
fn put_decimal_in_row<W: TextWrite>(
    out: &mut W,
    spec: &Spec,
    negative: bool,
    shown: DecimalDigits,
) -> Result<(), Refusal>
    requires narrow { unwrap_or spec.now.width 0 ≤ 40 }
    requires ascii { row_fill spec.now < 128 }
    requires fits { shown.part < 10 ^ shown.places }
    requires few { shown.places + shown.zeros ≤ 40 }
    ensures { Puts (W.written out.old) (padded_number spec.now (sign_text negative spec.now.sign)
        (split_text shown.whole shown.part shown.places shown.zeros)) result (W.written out.new) }
{
    let mut buffer = DigitBuffer::new(fill_byte(spec));
    put_split(&mut buffer, shown);
    put_around(&mut buffer, NumberForm::Exponent(false), spec, negative);
    put_ascii(out, buffer.as_str())
}

/// The point, if digits follow.
pub(crate) fn point_str(digits: usize) -> &'static str
    ensures value { result.now ≡ (if digits == 0 then [] else point ∷ []) }
    ensures ascii { IsShortAscii result.now }
{
    if digits == 0 {
        return "";
    }
    "."
}

/// The digits of a number after the point, without the zeros before them.
fn part_str(part: u128, places: usize, buffer: &mut [u8; 128]) -> &str
    ensures text { result.now ≡ (if places == 0 then [] else digit_text 10 false part) }
    ensures ascii { IsShortAscii result.now }
{
    if places == 0 {
        return "";
    }
    digit_str(part, 10, false, buffer)
}

/// Writes a decimal part by part, which serves any width, scale and precision.
#[cold]
#[inline(never)]
#[tactic(auto, using(crate::proofs::DecimalRowLemmas::decimal_body))]
fn put_decimal_in_parts<W: TextWrite>(
    out: &mut W,
    spec: &Spec,
    negative: bool,
    shown: DecimalDigits,
) -> Result<(), Refusal>
    requires { shown.part < 10 ^ shown.places }
    ensures { Puts (W.written out.old) (padded_number spec.now (sign_text negative spec.now.sign)
        (split_text shown.whole shown.part shown.places shown.zeros)) result (W.written out.new) }
{
    let mut before = [0u8; 128];
    let mut after = [0u8; 128];
    let part = part_str(shown.part, shown.places, &mut after);
    let number = DecimalParts {
        sign: sign_str(negative, spec.sign),
        whole: digit_str(shown.whole, 10, false, &mut before),
        point: point_str(shown.places.saturating_add(shown.zeros)),
        between: shown.places.saturating_sub(part.len()),
        part,
        zeros: shown.zeros,
        tail: "",
    };
    put_padded_decimal(out, spec, number)
}

/// Writes units of 10 ^ -scale after a minus if they are negative, and nothing around them.
#[inline(never)]
pub(crate) fn put_bare_decimal<W: TextWrite>(
    out: &mut W,
    negative: bool,
    units: u64,
    scale: usize,
) -> Result<(), Refusal>
    requires { scale ≤ 19 }
    ensures { Puts (W.written out.old) (sign_text negative Unset ++ decimal_text None scale units)
        result (W.written out.new) }
{
    let mut buffer = DigitBuffer::new(b'0');
    put_split(&mut buffer, short_split(units, scale));
    put_sign(&mut buffer, negative, Sign::Unset);
    put_ascii(out, buffer.as_str())
}

/// Whether a spec adds nothing to a decimal but a minus if it is negative.
#[inline(always)]
fn is_bare_decimal(spec: &Spec) -> bool
    ensures { result ≡ true → (negative : Bool) (scale units : ℕ) →
        padded_number spec.now (sign_text negative spec.now.sign)
        (decimal_text spec.now.precision scale units)
        ≡ sign_text negative Unset ++ decimal_text None scale units }
{
    match spec.precision {
        None => is_bare(spec),
        Some(_) => false,
    }
}

/// Writes the digits of a decimal after a sign.
#[inline(always)]
pub(crate) fn put_decimal_digits<W: TextWrite>(
    out: &mut W,
    spec: &Spec,
    negative: bool,
    shown: DecimalDigits,
) -> Result<(), Refusal>
    requires { shown.part < 10 ^ shown.places }
    ensures { Puts (W.written out.old) (padded_number spec.now (sign_text negative spec.now.sign)
        (split_text shown.whole shown.part shown.places shown.zeros)) result (W.written out.new) }
{
    let after = shown.places.saturating_add(shown.zeros);
    if after <= BUFFER_WIDTH && fits_buffer(spec) {
        return put_decimal_in_row(out, spec, negative, shown);
    }
    let copy = DecimalDigits {
        whole: shown.whole,
        part: shown.part,
        places: shown.places,
        zeros: shown.zeros,
    };
    put_decimal_in_parts(out, spec, negative, copy)
}

/// Writes units of 10 ^ -scale after a sign.
#[inline(never)]
pub(crate) fn put_any_units<W: TextWrite>(
    out: &mut W,
    spec: &Spec,
    negative: bool,
    units: u128,
    scale: u32,
) -> Result<(), Refusal>
    ensures { Puts (W.written out.old)
        (padded_number spec.now (sign_text negative spec.now.sign)
        (decimal_text spec.now.precision scale units))
        result (W.written out.new) }
{
    put_decimal_digits(
        out,
        spec,
        negative,
        decimal_digits(units, scale, spec.precision),
    )
}

/// As [`put_any_units`], with a short way for a short number alone.
#[inline(always)]
fn put_units<W: TextWrite>(
    out: &mut W,
    spec: &Spec,
    negative: bool,
    units: u128,
    scale: u32,
) -> Result<(), Refusal>
    ensures { Puts (W.written out.old)
        (padded_number spec.now (sign_text negative spec.now.sign)
        (decimal_text spec.now.precision scale units))
        result (W.written out.new) }
{
    if units <= GREATEST_U64 && scale <= GREATEST_SHORT_SCALE && is_bare_decimal(spec) {
        put_bare_decimal(out, negative, units as u64, scale as usize)
    } else {
        put_any_units(out, spec, negative, units, scale)
    }
}

/// Writes units of 10 ^ -scale.
#[inline(never)]
pub(crate) fn put_decimal<W: TextWrite>(
    out: &mut W,
    spec: &Spec,
    units: i128,
    scale: u32,
) -> Result<(), Refusal>
    ensures { Puts (W.written out.old)
        (padded_number spec.now (sign_text (is_negative units) spec.now.sign)
        (decimal_text spec.now.precision scale (distance_from_zero units)))
        result (W.written out.new) }
{
    put_units(out, spec, units < 0, units.unsigned_abs(), scale)
}
