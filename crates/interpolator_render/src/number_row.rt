//! Sign, prefix and padding of a number, in the buffer that holds its digits.
ghost use Rattle.std.specs.Prelude.{◌≡◌, ◌<◌, ◌≤◌, length, true, unwrap_or};
ghost use Rattle.interpolator_render.specs.DigitBuffers.{put_before};
ghost use Rattle.interpolator_render.specs.Numbers.{front_text, prefix_of, sign_text};
ghost use Rattle.interpolator_render.specs.Padding.{IsNumberRow, number_fill, padded_number, row_fill};

use crate::digit_buffer::{BUFFER_WIDTH, DigitBuffer};
use crate::layout::{fill_before, fill_char};
use crate::number_form::{NumberForm, Radix};
use crate::number_parts::sign_str;
use crate::view::{Sign, Spec};

/// What pads a number.
fn number_fill(spec: &Spec) -> char
    ensures { result ≡ number_fill spec.now }
{
    if spec.zero { '0' } else { fill_char(spec) }
}

/// Whether a number's padding fits in a buffer: it is short, and of an ASCII character.
#[inline(always)]
pub(crate) fn fits_buffer(spec: &Spec) -> bool
    ensures narrow { result ≡ true → unwrap_or spec.now.width 0 ≤ 40 }
    ensures ascii { result ≡ true → row_fill spec.now < 128 }
{
    match spec.width {
        None => true,
        Some(width) => width <= BUFFER_WIDTH && number_fill(spec).is_ascii(),
    }
}

/// What is around a number in a buffer: what pads it, if there is a width.
#[inline(always)]
pub(crate) fn fill_byte(spec: &Spec) -> u8
    requires { row_fill spec.now < 128 }
    ensures { result ≡ row_fill spec.now }
{
    match spec.width {
        None => b' ',
        Some(_) => number_fill(spec) as u8,
    }
}

#[inline(always)]
pub(crate) fn put_sign(buffer: &mut DigitBuffer, negative: bool, sign: Sign)
    requires { 1 ≤ buffer.old.before }
    ensures { buffer.new ≡ put_before (sign_text negative sign) buffer.old }
{
    if negative {
        buffer.push_front(b'-');
        return;
    }
    match sign {
        Sign::Plus => buffer.push_front(b'+'),
        Sign::Minus => {}
        Sign::Unset => {}
    }
}

#[inline(always)]
fn put_prefix(buffer: &mut DigitBuffer, radix: Radix)
    requires { 2 ≤ buffer.old.before }
    ensures { buffer.new ≡ put_before (prefix_of radix) buffer.old }
{
    let letter = match radix {
        Radix::Decimal => return,
        Radix::Binary => b'b',
        Radix::Octal => b'o',
        Radix::LowerHex => b'x',
        Radix::UpperHex => b'x',
    };
    buffer.push_front(letter);
    buffer.push_front(b'0');
}

/// Writes sign and prefix.
#[inline(always)]
fn put_front(buffer: &mut DigitBuffer, form: NumberForm, spec: &Spec, negative: bool)
    requires { 3 ≤ buffer.old.before }
    ensures { buffer.new ≡ put_before (front_text form spec.now negative) buffer.old }
{
    if let NumberForm::Digits(radix) = form {
        if spec.alternate {
            put_prefix(buffer, radix);
        }
    }
    put_sign(buffer, negative, spec.sign);
}

/// How many bytes sign and prefix have.
#[inline(always)]
fn front_len(form: NumberForm, spec: &Spec, negative: bool) -> usize
    ensures { result ≡ length (front_text form spec.now negative) }
{
    let sign = sign_str(negative, spec.sign).len();
    match form {
        NumberForm::Digits(radix) if spec.alternate => sign + radix.prefix().len(),
        _ => sign,
    }
}

/// Writes sign and prefix in front of a number's body, and pads it.
#[inline(always)]
#[tactic(auto, using(crate::proofs::NumberLemmas::row_paddings))]
pub(crate) fn put_around(buffer: &mut DigitBuffer, form: NumberForm, spec: &Spec, negative: bool)
    requires { IsNumberRow spec.now buffer.old }
    ensures { buffer.new.text
        ≡ padded_number spec.now (front_text form spec.now negative) buffer.old.text }
{
    let Some(width) = spec.width else {
        put_front(buffer, form, spec, negative);
        return;
    };
    if spec.zero {
        let count = front_len(form, spec, negative) + buffer.len();
        buffer.pad_before(width.saturating_sub(count));
        put_front(buffer, form, spec, negative);
    } else {
        put_front(buffer, form, spec, negative);
        let missing = width.saturating_sub(buffer.len());
        if missing == 0 {
            return;
        }
        let before = fill_before(spec.alignment, missing, missing);
        buffer.pad_before(before);
        buffer.pad_after(missing - before);
    }
}
