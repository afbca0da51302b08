//! Decimals in exponent form.
ghost use Rattle.std.specs.Prelude.{◌≡◌, ◌<◌, ◌≤◌, Bool, unwrap_or};
ghost use Rattle.interpolator_digits.specs.Decimals.{decimal_exponent_text, scaled_tail, scale_of};
ghost use Rattle.interpolator_digits.specs.Decimals.{shown_scaled};
ghost use Rattle.interpolator_render.specs.Numbers.{distance_from_zero, is_negative, sign_text};
ghost use Rattle.interpolator_render.specs.Padding.{row_fill, padded_number};
ghost use Rattle.interpolator_render.specs.{DigitBuffers.put_before, Writers.Puts};

use crate::digit_buffer::DigitBuffer;
use crate::exponent::{mark, put_leading, put_tail};
use crate::layout::put_ascii;
use crate::number_form::NumberForm;
use crate::number_parts::{NumberParts, put_padded, sign_str};
use crate::number_row::{fill_byte, fits_buffer, put_around};
use crate::scientific::{Shown, shown_of};
use crate::text_write::{Refusal, TextWrite};
use crate::view::Spec;

/// How many zeros a buffer has room for, after any digits and before any exponent.
const MOST_ZEROS: usize = 30;

/// What exponent form shows of a decimal: the digits and zeros of its units, and the exponent of
/// their first digit less the scale.
#[derive(Clone, Copy)]
struct ScaledShown {
    shown: Shown,
    scale: u32,
}

/// The scale of a decimal, but 0 for zero.
fn scale_of(scale: u32, units: u128) -> u32
    ensures { result ≡ scale_of scale units }
{
    if units == 0 { 0 } else { scale }
}

/// What exponent form shows of units of 10 ^ -scale at a precision.
#[tactic(auto, using(crate::proofs::DecimalRowLemmas::scaled_exponent))]
fn scaled_shown(units: u128, scale: u32, precision: Option<usize>) -> ScaledShown
    ensures text { (upper : Bool) → shown_scaled upper result.shown.digits result.shown.zeros
        result.shown.exponent result.scale ≡ decimal_exponent_text upper precision scale units }
    ensures small { result.shown.exponent ≤ 39 }
{
    ScaledShown {
        shown: shown_of(units, precision),
        scale: scale_of(scale, units),
    }
}

/// Writes an exponent less a scale, after its mark.
#[tactic(auto, using(crate::proofs::DecimalRowLemmas::scaled_steps))]
#[inline(always)]
fn put_scaled_tail(buffer: &mut DigitBuffer, upper: bool, exponent: usize, scale: u32)
    requires small { exponent ≤ 39 }
    requires room { 12 ≤ buffer.old.before }
    ensures { buffer.new ≡ put_before (scaled_tail upper exponent scale) buffer.old }
{
    let scale = scale as usize;
    if exponent < scale {
        buffer.put_decimal((scale - exponent) as u128);
        buffer.push_front(b'-');
        buffer.push_front(mark(upper));
    } else {
        put_tail(buffer, upper, exponent - scale);
    }
}

/// Writes a decimal in exponent form, without its sign.
#[inline(always)]
#[tactic(auto, using(crate::proofs::DecimalRowLemmas::shown_scaled_steps))]
fn put_scaled(buffer: &mut DigitBuffer, upper: bool, number: ScaledShown)
    requires small { number.shown.exponent ≤ 39 }
    requires few { number.shown.zeros ≤ 30 }
    requires room { 82 ≤ buffer.old.before }
    ensures { buffer.new ≡ put_before (shown_scaled upper number.shown.digits number.shown.zeros
        number.shown.exponent number.scale) buffer.old }
{
    put_scaled_tail(buffer, upper, number.shown.exponent, number.scale);
    buffer.put_zeros(number.shown.zeros);
    put_leading(buffer, number.shown.digits, number.shown.zeros);
}

/// Writes a decimal in exponent form, made in one buffer and written by one call.
#[tactic(auto, using(crate::proofs::DecimalRowLemmas::scaled_row))]
#[inline(always)]
fn put_scaled_in_row<W: TextWrite>(
    out: &mut W,
    upper: bool,
    spec: &Spec,
    negative: bool,
    number: ScaledShown,
) -> Result<(), Refusal>
    requires narrow { unwrap_or spec.now.width 0 ≤ 40 }
    requires ascii { row_fill spec.now < 128 }
    requires small { number.shown.exponent ≤ 39 }
    requires few { number.shown.zeros ≤ 30 }
    ensures { Puts (W.written out.old) (padded_number spec.now (sign_text negative spec.now.sign)
        (shown_scaled upper number.shown.digits number.shown.zeros number.shown.exponent
        number.scale)) result (W.written out.new) }
{
    let mut buffer = DigitBuffer::new(fill_byte(spec));
    put_scaled(&mut buffer, upper, number);
    put_around(&mut buffer, NumberForm::Exponent(upper), spec, negative);
    put_ascii(out, buffer.as_str())
}

/// Writes a decimal in exponent form part by part, which serves any width and precision.
#[cold]
#[inline(never)]
#[tactic(auto, using(crate::proofs::ExponentRowLemmas::part_steps))]
fn put_scaled_in_parts<W: TextWrite>(
    out: &mut W,
    upper: bool,
    spec: &Spec,
    negative: bool,
    number: ScaledShown,
) -> Result<(), Refusal>
    requires { number.shown.exponent ≤ 39 }
    ensures { Puts (W.written out.old) (padded_number spec.now (sign_text negative spec.now.sign)
        (shown_scaled upper number.shown.digits number.shown.zeros number.shown.exponent
        number.scale)) result (W.written out.new) }
{
    let mut head = DigitBuffer::new(b' ');
    put_leading(&mut head, number.shown.digits, number.shown.zeros);
    let mut tail = DigitBuffer::new(b' ');
    put_scaled_tail(&mut tail, upper, number.shown.exponent, number.scale);
    let parts = NumberParts {
        sign: sign_str(negative, spec.sign),
        prefix: "",
        head: head.as_str(),
        zeros: number.shown.zeros,
        tail: tail.as_str(),
    };
    put_padded(out, spec, parts)
}

/// Writes a decimal in exponent form, after a sign.
#[inline(never)]
fn put_signed_scaled<W: TextWrite>(
    out: &mut W,
    upper: bool,
    spec: &Spec,
    negative: bool,
    number: ScaledShown,
) -> Result<(), Refusal>
    requires { number.shown.exponent ≤ 39 }
    ensures { Puts (W.written out.old) (padded_number spec.now (sign_text negative spec.now.sign)
        (shown_scaled upper number.shown.digits number.shown.zeros number.shown.exponent
        number.scale)) result (W.written out.new) }
{
    if number.shown.zeros <= MOST_ZEROS && fits_buffer(spec) {
        put_scaled_in_row(out, upper, spec, negative, number)
    } else {
        put_scaled_in_parts(out, upper, spec, negative, number)
    }
}

/// Writes units of 10 ^ -scale in exponent form.
#[inline(never)]
pub(crate) fn put_decimal_exponent<W: TextWrite>(
    out: &mut W,
    upper: bool,
    spec: &Spec,
    units: i128,
    scale: u32,
) -> Result<(), Refusal>
    ensures { Puts (W.written out.old)
        (padded_number spec.now (sign_text (is_negative units) spec.now.sign)
        (decimal_exponent_text upper spec.now.precision scale (distance_from_zero units)))
        result (W.written out.new) }
{
    let number = scaled_shown(units.unsigned_abs(), scale, spec.precision);
    put_signed_scaled(out, upper, spec, units < 0, number)
}
