//! Floats that are finite, written by their digits.
ghost use Rattle.std.specs.Prelude.{◌≡◌, ◌*◌, ◌^◌, ◌<◌, ◌≤◌, ◌++◌, IsTrue, None, Some, false};
ghost use Rattle.std.specs.Prelude.{length, replicate};
ghost use Rattle.std.specs.{Float.float_is_finite, Str.IsAscii};
ghost use Rattle.interpolator_digits.specs.Decimals.{decimal_exponent_text, decimal_text};
ghost use Rattle.interpolator_digits.specs.{Characters.zero_digit, Digits.digit_text};
ghost use Rattle.interpolator_floats.specs.ExponentTexts.{scientific_text, signed_tail};
ghost use Rattle.interpolator_floats.specs.Floats.{float_scale, float_units};
ghost use Rattle.interpolator_floats.specs.LastDigits.{pointed_text};
ghost use Rattle.interpolator_floats.specs.ShortestDigits.{IsTrimmed, shortest_exponent_text};
ghost use Rattle.interpolator_floats.specs.ShortestDigits.{shortest_text};
ghost use Rattle.interpolator_render.specs.declared.view.Sign.TheVariants.{Unset};
ghost use Rattle.interpolator_render.specs.{DigitBuffers.put_before, Forms.debugged, Forms.is_far};
ghost use Rattle.interpolator_render.specs.{Numbers.sign_text, Padding.padded_number, Writers.Puts};

use crate::decimal::{point_str, put_any_units, put_bare_decimal, put_decimal_digits};
use crate::decimal_digits::{DecimalDigits, GREATEST_SHORT_SCALE, decimal_digits};
use crate::decimal_parts::{DecimalParts, put_padded_decimal};
use crate::digit_buffer::DigitBuffer;
use crate::digits::digit_str;
use crate::exponent::mark;
use crate::layout::put_ascii;
use crate::number::is_bare;
use crate::number_parts::sign_str;
use crate::number_row::put_sign;
use crate::text_write::{Refusal, TextWrite};
use crate::view::{Sign, Spec};
use interpolator_floats::{
    ExactDigits, ExponentDigits, MOST_DIGITS, Shortest, exact_digits, exponent_digits,
    float_digits, scientific_digits, units_exponent,
};

/// How many zeros after any 64 bits 128 bits have room for.
const MOST_TENS: u32 = 19;

/// Shortest digits as a count of units of 10 ^ -down.
fn shown_units(shown: Shortest) -> u128
    requires { shown.up ≤ 19 }
    ensures { result ≡ shown.digits * 10 ^ shown.up }
{
    shown.digits as u128 * 10u64.pow(shown.up) as u128
}

/// Writes digits that have more zeros after them than 128 bits have room for.
#[cold]
#[inline(never)]
#[tactic(auto, using(crate::proofs::FloatRowLemmas::tens_text))]
fn put_tens<W: TextWrite>(
    out: &mut W,
    spec: &Spec,
    negative: bool,
    shown: Shortest,
) -> Result<(), Refusal>
    requires trimmed { IsTrimmed shown.digits shown.up shown.down }
    requires many { 19 < shown.up }
    ensures { Puts (W.written out.old) (padded_number spec.now (sign_text negative spec.now.sign)
        (shortest_text shown)) result (W.written out.new) }
{
    let mut digits = [0u8; 128];
    let number = DecimalParts {
        sign: sign_str(negative, spec.sign),
        whole: digit_str(shown.digits as u128, 10, false, &mut digits),
        point: "",
        between: shown.up as usize,
        part: "",
        zeros: 0,
        tail: "",
    };
    put_padded_decimal(out, spec, number)
}

/// Writes shortest digits as a decimal under any spec, all of them.
#[inline(never)]
fn put_around_shortest<W: TextWrite>(
    out: &mut W,
    spec: &Spec,
    negative: bool,
    shown: Shortest,
) -> Result<(), Refusal>
    requires trimmed { IsTrimmed shown.digits shown.up shown.down }
    requires plain { spec.now.precision ≡ None }
    ensures { Puts (W.written out.old) (padded_number spec.now (sign_text negative spec.now.sign)
        (shortest_text shown)) result (W.written out.new) }
{
    if shown.up <= MOST_TENS {
        put_any_units(out, spec, negative, shown_units(shown), shown.down)
    } else {
        put_tens(out, spec, negative, shown)
    }
}

/// Writes a whole number and zeros after it, after a minus if it is negative, and nothing around
/// them.
#[inline(never)]
#[tactic(auto, using(crate::proofs::FloatRowLemmas::bare_tens))]
fn put_bare_tens<W: TextWrite>(
    out: &mut W,
    negative: bool,
    digits: u64,
    tens: usize,
) -> Result<(), Refusal>
    requires { tens ≤ 40 }
    ensures { Puts (W.written out.old)
        (sign_text negative Unset ++ (digit_text 10 false digits ++ replicate tens zero_digit))
        result (W.written out.new) }
{
    let mut buffer = DigitBuffer::new(b'0');
    buffer.pad_before(tens);
    buffer.put_decimal(digits as u128);
    put_sign(&mut buffer, negative, Sign::Unset);
    put_ascii(out, buffer.as_str())
}

/// Writes shortest digits as a decimal, all of them, after a minus if they are negative, and nothing
/// around them.
#[inline(always)]
#[tactic(auto, using(crate::proofs::FloatRowLemmas::bare_shortest))]
pub(crate) fn put_bare_shortest<W: TextWrite>(
    out: &mut W,
    negative: bool,
    shown: Shortest,
) -> Result<(), Refusal>
    requires { IsTrimmed shown.digits shown.up shown.down }
    ensures { Puts (W.written out.old) (sign_text negative Unset ++ shortest_text shown)
        result (W.written out.new) }
{
    if shown.down == 0 && shown.up <= 40 {
        return put_bare_tens(out, negative, shown.digits, shown.up as usize);
    }
    if shown.up == 0 && shown.down <= GREATEST_SHORT_SCALE {
        return put_bare_decimal(out, negative, shown.digits, shown.down as usize);
    }
    put_around_shortest(out, &Spec::default(), negative, shown)
}

/// Writes shortest digits as a decimal, all of them.
#[inline(always)]
pub(crate) fn put_shortest<W: TextWrite>(
    out: &mut W,
    spec: &Spec,
    negative: bool,
    shown: Shortest,
) -> Result<(), Refusal>
    requires trimmed { IsTrimmed shown.digits shown.up shown.down }
    requires plain { spec.now.precision ≡ None }
    ensures { Puts (W.written out.old) (padded_number spec.now (sign_text negative spec.now.sign)
        (shortest_text shown)) result (W.written out.new) }
{
    if is_bare(spec) {
        put_bare_shortest(out, negative, shown)
    } else {
        put_around_shortest(out, spec, negative, shown)
    }
}

/// Writes the exponent after its mark.
#[tactic(auto, using(crate::proofs::FloatRowLemmas::tail_steps))]
fn put_signed_tail(buffer: &mut DigitBuffer, upper: bool, below: bool, size: usize)
    requires { 24 ≤ buffer.old.before }
    ensures { buffer.new ≡ put_before (signed_tail upper below size) buffer.old }
{
    buffer.put_decimal(size as u128);
    if below {
        buffer.push_front(b'-');
    }
    buffer.push_front(mark(upper));
}

/// Writes digits in exponent form.
#[inline(never)]
#[tactic(auto, using(crate::proofs::FloatRowLemmas::form_steps))]
fn put_form<W: TextWrite>(
    out: &mut W,
    upper: bool,
    spec: &Spec,
    negative: bool,
    shown: ExponentDigits<'_>,
) -> Result<(), Refusal>
    requires ascii { IsAscii shown.digits.now }
    requires some { 0 < length shown.digits.now }
    ensures { let shown = shown.entry in
        Puts (W.written out.old) (padded_number spec.now (sign_text negative spec.now.sign)
        (scientific_text upper shown.digits.now shown.zeros shown.below shown.size))
        result (W.written out.new) }
{
    let (first, more) = shown.digits.split_at(1);
    let mut tail = DigitBuffer::new(b' ');
    put_signed_tail(&mut tail, upper, shown.below, shown.size);
    let number = DecimalParts {
        sign: sign_str(negative, spec.sign),
        whole: first,
        point: point_str(more.len().saturating_add(shown.zeros)),
        between: 0,
        part: more,
        zeros: shown.zeros,
        tail: tail.as_str(),
    };
    put_padded_decimal(out, spec, number)
}

/// Writes shortest digits in exponent form.
#[inline(never)]
pub(crate) fn put_shortest_exponent<W: TextWrite>(
    out: &mut W,
    upper: bool,
    spec: &Spec,
    negative: bool,
    shown: Shortest,
) -> Result<(), Refusal>
    requires { IsTrimmed shown.digits shown.up shown.down }
    ensures { Puts (W.written out.old) (padded_number spec.now (sign_text negative spec.now.sign)
        (shortest_exponent_text upper shown)) result (W.written out.new) }
{
    let number = scientific_digits(shown);
    let mut digits = [0u8; 128];
    let form = ExponentDigits {
        digits: digit_str(number.digits as u128, 10, false, &mut digits),
        zeros: 0,
        below: number.below,
        size: number.size,
    };
    put_form(out, upper, spec, negative, form)
}

/// Whether debug writes shortest digits in exponent form.
fn is_far(shown: Shortest) -> bool
    requires { IsTrimmed shown.digits shown.up shown.down }
    ensures { result ≡ is_far shown.down (shown.digits * 10 ^ shown.up) }
{
    let exponent = units_exponent(shown);
    let scale = shown.down as usize;
    exponent >= scale + 16 || exponent + 4 < scale
}

/// Writes shortest digits as debug does: a whole number with one zero after the point.
#[inline(never)]
#[tactic(auto, using(crate::proofs::FloatRowLemmas::near_tens))]
pub(crate) fn put_debugged<W: TextWrite>(
    out: &mut W,
    spec: &Spec,
    negative: bool,
    shown: Shortest,
) -> Result<(), Refusal>
    requires { IsTrimmed shown.digits shown.up shown.down }
    ensures { Puts (W.written out.old) (padded_number spec.now (sign_text negative spec.now.sign)
        (debugged shown)) result (W.written out.new) }
{
    if is_far(shown) {
        return put_shortest_exponent(out, false, spec, negative, shown);
    }
    let places = (shown.down as usize).max(1);
    let digits = decimal_digits(shown_units(shown), shown.down, Some(places));
    put_decimal_digits(out, spec, negative, digits)
}

/// Writes digits that lie in a room of their own.
#[tactic(auto, using(crate::proofs::FloatRowLemmas::pointed_parts))]
fn put_exact_digits<W: TextWrite>(
    out: &mut W,
    spec: &Spec,
    negative: bool,
    shown: ExactDigits<'_>,
) -> Result<(), Refusal>
    requires whole { IsAscii shown.whole.now }
    requires part { IsAscii shown.part.now }
    ensures { let shown = shown.entry in
        Puts (W.written out.old) (padded_number spec.now (sign_text negative spec.now.sign)
        (pointed_text shown.whole.now shown.part.now shown.zeros)) result (W.written out.new) }
{
    let number = DecimalParts {
        sign: sign_str(negative, spec.sign),
        whole: shown.whole,
        point: point_str(shown.part.len().saturating_add(shown.zeros)),
        between: 0,
        part: shown.part,
        zeros: shown.zeros,
        tail: "",
    };
    put_padded_decimal(out, spec, number)
}

/// As [`put_places`], for every float and precision.
#[cold]
#[inline(never)]
fn put_exactly<W: TextWrite>(
    out: &mut W,
    spec: &Spec,
    negative: bool,
    x: f64,
    places: usize,
) -> Result<(), Refusal>
    requires { IsTrue (float_is_finite x) }
    ensures { Puts (W.written out.old) (padded_number spec.now (sign_text negative spec.now.sign)
        (decimal_text (Some places) (float_scale x) (float_units x))) result (W.written out.new) }
{
    let mut room = [0u8; MOST_DIGITS];
    put_exact_digits(out, spec, negative, exact_digits(x, places, &mut room))
}

/// Writes a float with so many digits after the point.
#[inline(never)]
pub(crate) fn put_places<W: TextWrite>(
    out: &mut W,
    spec: &Spec,
    negative: bool,
    x: f64,
    places: usize,
) -> Result<(), Refusal>
    requires { IsTrue (float_is_finite x) }
    ensures { Puts (W.written out.old) (padded_number spec.now (sign_text negative spec.now.sign)
        (decimal_text (Some places) (float_scale x) (float_units x))) result (W.written out.new) }
{
    match float_digits(x, places) {
        Some(shown) => {
            let digits = DecimalDigits {
                whole: shown.whole,
                part: shown.part,
                places: shown.places,
                zeros: shown.zeros,
            };
            put_decimal_digits(out, spec, negative, digits)
        }
        None => put_exactly(out, spec, negative, x, places),
    }
}

/// Writes a float in exponent form with so many digits after the first.
#[inline(never)]
pub(crate) fn put_places_exponent<W: TextWrite>(
    out: &mut W,
    upper: bool,
    spec: &Spec,
    negative: bool,
    x: f64,
    places: usize,
) -> Result<(), Refusal>
    requires { IsTrue (float_is_finite x) }
    ensures { Puts (W.written out.old) (padded_number spec.now (sign_text negative spec.now.sign)
        (decimal_exponent_text upper (Some places) (float_scale x) (float_units x)))
        result (W.written out.new) }
{
    let mut room = [0u8; MOST_DIGITS];
    put_form(
        out,
        upper,
        spec,
        negative,
        exponent_digits(x, places, &mut room),
    )
}
