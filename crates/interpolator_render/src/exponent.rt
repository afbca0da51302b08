//! Whole numbers in exponent form.
ghost use Rattle.std.specs.Prelude.{◌≡◌, ◌<◌, ◌≤◌, false, replicate, unwrap_or};
ghost use Rattle.interpolator_digits.specs.Exponent.{exponent_tail, leading, mark, shown_text};
ghost use Rattle.interpolator_digits.specs.{Characters.zero_digit, Digits.digit_text};
ghost use Rattle.interpolator_render.specs.Numbers.{number_text, sign_text};
ghost use Rattle.interpolator_render.specs.Padding.{row_fill, padded_number};
ghost use Rattle.interpolator_render.specs.Texts.{Renders, has_text};
ghost use Rattle.interpolator_render.specs.{DigitBuffers.put_before, Writers.Puts};

use crate::digit_buffer::{BUFFER_WIDTH, DigitBuffer};
use crate::digits::GREATEST_U64;
use crate::layout::put_ascii;
use crate::number_form::NumberForm;
use crate::number_parts::{NumberParts, put_padded, sign_str};
use crate::number_row::{fill_byte, fits_buffer, put_around};
use crate::scientific::{Shown, shown_of};
use crate::text_write::{Refusal, TextWrite, as_rendered};
use crate::view::{RenderFault, Spec};

pub(crate) fn mark(upper: bool) -> u8
    ensures value { result ≡ mark upper }
    ensures ascii { result < 128 }
{
    if upper { b'E' } else { b'e' }
}

/// Writes the exponent after its mark.
#[tactic(auto, using(crate::proofs::ExponentRowLemmas::tail_steps))]
#[inline(always)]
pub(crate) fn put_tail(buffer: &mut DigitBuffer, upper: bool, exponent: usize)
    requires small { exponent ≤ 39 }
    requires room { 3 ≤ buffer.old.before }
    ensures { buffer.new ≡ put_before (exponent_tail upper exponent) buffer.old }
{
    buffer.put_decimal(exponent as u128);
    buffer.push_front(mark(upper));
}

/// Writes the digits of a number, with a point after the first if more follow or zeros are to
/// follow. It does not write the zeros.
#[tactic(auto, using(crate::proofs::ExponentRowLemmas::leading_counts))]
#[inline(always)]
pub(crate) fn put_leading(buffer: &mut DigitBuffer, digits: u128, zeros: usize)
    requires { 40 ≤ buffer.old.before }
    ensures { buffer.new
        ≡ put_before (leading (digit_text 10 false digits) (replicate zeros zero_digit)) buffer.old }
{
    let first = buffer.put_low_decimal(digits);
    let glyph = b'0' + first as u8;
    if digits < 10 && zeros == 0 {
        buffer.push_front(glyph);
        return;
    }
    buffer.push_front(b'.');
    buffer.push_front(glyph);
}

/// Writes a number in exponent form, without its sign.
#[inline(always)]
#[tactic(auto, using(crate::proofs::ExponentRowLemmas::shown_steps))]
fn put_shown(buffer: &mut DigitBuffer, upper: bool, shown: Shown)
    requires small { shown.exponent ≤ 39 }
    requires few { shown.zeros ≤ 40 }
    requires room { 83 ≤ buffer.old.before }
    ensures { buffer.new
        ≡ put_before (shown_text upper shown.digits shown.zeros shown.exponent) buffer.old }
{
    put_tail(buffer, upper, shown.exponent);
    buffer.put_zeros(shown.zeros);
    put_leading(buffer, shown.digits, shown.zeros);
}

/// Writes a number in exponent form, made in one buffer and written by one call.
#[tactic(auto, using(crate::proofs::ExponentRowLemmas::exponent_row))]
#[inline(always)]
fn put_exponent_in_row<W: TextWrite>(
    out: &mut W,
    upper: bool,
    spec: &Spec,
    negative: bool,
    shown: Shown,
) -> Result<(), Refusal>
    requires narrow { unwrap_or spec.now.width 0 ≤ 40 }
    requires ascii { row_fill spec.now < 128 }
    requires small { shown.exponent ≤ 39 }
    requires few { shown.zeros ≤ 40 }
    ensures { Puts (W.written out.old) (padded_number spec.now (sign_text negative spec.now.sign)
        (shown_text upper shown.digits shown.zeros shown.exponent)) result (W.written out.new) }
{
    let mut buffer = DigitBuffer::new(fill_byte(spec));
    put_shown(&mut buffer, upper, shown);
    put_around(&mut buffer, NumberForm::Exponent(upper), spec, negative);
    put_ascii(out, buffer.as_str())
}

/// Writes what exponent form shows part by part, which serves any width and precision.
#[inline(always)]
#[tactic(auto, using(crate::proofs::ExponentRowLemmas::part_steps))]
fn put_shown_parts<W: TextWrite>(
    out: &mut W,
    spec: &Spec,
    shown: Shown,
    negative: bool,
    upper: bool,
) -> Result<(), Refusal>
    requires { shown.exponent ≤ 39 }
    ensures { Puts (W.written out.old) (padded_number spec.now (sign_text negative spec.now.sign)
        (shown_text upper shown.digits shown.zeros shown.exponent)) result (W.written out.new) }
{
    let mut head = DigitBuffer::new(b' ');
    put_leading(&mut head, shown.digits, shown.zeros);
    let mut tail = DigitBuffer::new(b' ');
    put_tail(&mut tail, upper, shown.exponent);
    let number = NumberParts {
        sign: sign_str(negative, spec.sign),
        prefix: "",
        head: head.as_str(),
        zeros: shown.zeros,
        tail: tail.as_str(),
    };
    put_padded(out, spec, number)
}

/// Writes a number in exponent form part by part. It finds anew what is shown, so that this need
/// not be in memory for its sake.
#[cold]
#[inline(never)]
#[tactic(auto, using(crate::proofs::ExponentRowLemmas::shown_exponent))]
fn put_exponent_in_parts<W: TextWrite>(
    out: &mut W,
    spec: &Spec,
    n: u128,
    negative: bool,
    upper: bool,
) -> Result<(), Refusal>
    ensures { Puts (W.written out.old) (number_text (NumberForm.Exponent upper) spec.now negative n)
        result (W.written out.new) }
{
    let shown = shown_of(n, spec.precision);
    put_shown_parts(out, spec, shown, negative, upper)
}

/// Writes a number in exponent form, made in one buffer if it fits.
#[inline(always)]
#[tactic(auto, using(crate::proofs::ExponentRowLemmas::shown_exponent))]
fn put_fitting<W: TextWrite>(
    out: &mut W,
    spec: &Spec,
    n: u128,
    negative: bool,
    upper: bool,
) -> Result<(), Refusal>
    ensures { Puts (W.written out.old) (number_text (NumberForm.Exponent upper) spec.now negative n)
        result (W.written out.new) }
{
    let shown = shown_of(n, spec.precision);
    if shown.zeros <= BUFFER_WIDTH && fits_buffer(spec) {
        put_exponent_in_row(out, upper, spec, negative, shown)
    } else {
        put_exponent_in_parts(out, spec, n, negative, upper)
    }
}

/// Writes a number of 64 bits in exponent form. It is a call of its own, so that the compiler knows
/// of each number that follows from it how short it is.
#[inline(never)]
fn put_short_exponent<W: TextWrite>(
    out: &mut W,
    spec: &Spec,
    n: u64,
    negative: bool,
    upper: bool,
) -> Result<(), RenderFault>
    ensures { Renders (has_text (number_text (NumberForm.Exponent upper) spec.now negative n))
        (W.written out.old) result (W.written out.new) }
{
    as_rendered(put_fitting(out, spec, n as u128, negative, upper))
}

/// Writes a number of any width in exponent form.
#[inline(never)]
fn put_long_exponent<W: TextWrite>(
    out: &mut W,
    spec: &Spec,
    n: u128,
    negative: bool,
    upper: bool,
) -> Result<(), RenderFault>
    ensures { Renders (has_text (number_text (NumberForm.Exponent upper) spec.now negative n))
        (W.written out.old) result (W.written out.new) }
{
    as_rendered(put_fitting(out, spec, n, negative, upper))
}

/// Writes a number in exponent form.
#[inline(always)]
pub(crate) fn put_exponent<W: TextWrite>(
    out: &mut W,
    spec: &Spec,
    n: u128,
    negative: bool,
    upper: bool,
) -> Result<(), RenderFault>
    ensures { Renders (has_text (number_text (NumberForm.Exponent upper) spec.now negative n))
        (W.written out.old) result (W.written out.new) }
{
    if n <= GREATEST_U64 {
        put_short_exponent(out, spec, n as u64, negative, upper)
    } else {
        put_long_exponent(out, spec, n, negative, upper)
    }
}
