//! Whole numbers, written by their digits or in exponent form.
ghost use Rattle.std.specs.Prelude.{◌≡◌, ◌<◌, ◌≤◌, ◌++◌, Bool, false, true, ℕ, List, codes, length};
ghost use Rattle.std.specs.Prelude.{unwrap_or};
ghost use Rattle.interpolator_render.specs.Numbers.{base_of, distance_from_zero, is_negative};
ghost use Rattle.interpolator_render.specs.Numbers.{is_upper, number_text, sign_text};
ghost use Rattle.interpolator_render.specs.Padding.{row_fill, padded_number};
ghost use Rattle.interpolator_render.specs.Texts.{Renders, has_text};
ghost use Rattle.interpolator_render.specs.DigitBuffers.{put_before};
ghost use Rattle.interpolator_render.specs.{declared.view.Sign.TheVariants.Unset, Writers.Puts};
ghost use Rattle.interpolator_digits.specs.Digits.{digit_text};

use crate::digit_buffer::DigitBuffer;
use crate::digit_tables::pair_digits;
use crate::digits::{GREATEST_U64, ascii_str, digit_str};
use crate::exponent::put_exponent;
use crate::layout::{put_ascii, put_char};
use crate::number_form::{NumberForm, Radix};
use crate::number_parts::{NumberParts, put_padded, sign_str};
use crate::number_row::{fill_byte, fits_buffer, put_around};
use crate::text_write::{Refusal, TextWrite, as_rendered};
use crate::view::{RenderFault, Sign, Spec};

/// Writes a number by its digits, in parts.
#[inline(never)]
fn put_digits_in_parts<W: TextWrite>(
    out: &mut W,
    radix: Radix,
    spec: &Spec,
    negative: bool,
    n: u128,
) -> Result<(), Refusal>
    ensures { Puts (W.written out.old)
        (number_text (NumberForm.Digits radix) spec.now negative n)
        result (W.written out.new) }
{
    let mut buffer = [0u8; 128];
    let number = NumberParts {
        sign: sign_str(negative, spec.sign),
        prefix: if spec.alternate { radix.prefix() } else { "" },
        head: digit_str(n, radix.base(), radix.is_upper(), &mut buffer),
        zeros: 0,
        tail: "",
    };
    put_padded(out, spec, number)
}

/// Writes the digits of a number. The compiler knows the base in each call, and so divides by a
/// constant.
#[tactic(auto, using(crate::proofs::DigitBufferLemmas::short_digits))]
#[inline(always)]
fn put_in_radix(buffer: &mut DigitBuffer, radix: Radix, n: u64)
    requires { 64 ≤ buffer.old.before }
    ensures { buffer.new ≡ put_before (digit_text (base_of radix) (is_upper radix) n) buffer.old }
{
    match radix {
        Radix::Decimal => buffer.put_decimal(n as u128),
        Radix::Binary => buffer.put_digits(n, 2, false),
        Radix::Octal => buffer.put_digits(n, 8, false),
        Radix::LowerHex => buffer.put_digits(n, 16, false),
        Radix::UpperHex => buffer.put_digits(n, 16, true),
    }
}

/// Writes a number by its digits, in one buffer and by one call.
#[tactic(auto, using(crate::proofs::DigitBufferLemmas::number_row))]
#[inline(always)]
fn put_digits_in_row<W: TextWrite>(
    out: &mut W,
    radix: Radix,
    spec: &Spec,
    negative: bool,
    n: u64,
) -> Result<(), Refusal>
    requires narrow { unwrap_or spec.now.width 0 ≤ 40 }
    requires ascii { row_fill spec.now < 128 }
    ensures { Puts (W.written out.old)
        (number_text (NumberForm.Digits radix) spec.now negative n)
        result (W.written out.new) }
{
    let mut buffer = DigitBuffer::new(fill_byte(spec));
    put_in_radix(&mut buffer, radix, n);
    put_around(&mut buffer, NumberForm::Digits(radix), spec, negative);
    put_ascii(out, buffer.as_str())
}

/// Writes a number by its digits. The compiler knows the base in each call.
#[inline(always)]
fn put_digits<W: TextWrite>(
    out: &mut W,
    radix: Radix,
    spec: &Spec,
    n: u128,
    negative: bool,
) -> Result<(), RenderFault>
    ensures { Renders (has_text (number_text (NumberForm.Digits radix) spec.now negative n))
        (W.written out.old) result (W.written out.new) }
{
    if n <= GREATEST_U64 && fits_buffer(spec) {
        as_rendered(put_digits_in_row(out, radix, spec, negative, n as u64))
    } else {
        as_rendered(put_digits_in_parts(out, radix, spec, negative, n))
    }
}

/// Writes a number in base two.
#[inline(never)]
fn put_binary<W: TextWrite>(
    out: &mut W,
    spec: &Spec,
    n: u128,
    negative: bool,
) -> Result<(), RenderFault>
    ensures { Renders (has_text (number_text (NumberForm.Digits Radix.Binary) spec.now negative n))
        (W.written out.old) result (W.written out.new) }
{
    put_digits(out, Radix::Binary, spec, n, negative)
}

/// Writes a number in base eight.
#[inline(never)]
fn put_octal<W: TextWrite>(
    out: &mut W,
    spec: &Spec,
    n: u128,
    negative: bool,
) -> Result<(), RenderFault>
    ensures { Renders (has_text (number_text (NumberForm.Digits Radix.Octal) spec.now negative n))
        (W.written out.old) result (W.written out.new) }
{
    put_digits(out, Radix::Octal, spec, n, negative)
}

/// Writes a number in base sixteen, by `a` to `f`.
#[inline(never)]
fn put_lower_hex<W: TextWrite>(
    out: &mut W,
    spec: &Spec,
    n: u128,
    negative: bool,
) -> Result<(), RenderFault>
    ensures { Renders
        (has_text (number_text (NumberForm.Digits Radix.LowerHex) spec.now negative n))
        (W.written out.old) result (W.written out.new) }
{
    put_digits(out, Radix::LowerHex, spec, n, negative)
}

/// Writes a number in base sixteen, by `A` to `F`.
#[inline(never)]
fn put_upper_hex<W: TextWrite>(
    out: &mut W,
    spec: &Spec,
    n: u128,
    negative: bool,
) -> Result<(), RenderFault>
    ensures { Renders
        (has_text (number_text (NumberForm.Digits Radix.UpperHex) spec.now negative n))
        (W.written out.old) result (W.written out.new) }
{
    put_digits(out, Radix::UpperHex, spec, n, negative)
}

/// Writes a number in base ten.
#[inline(never)]
fn put_base_ten<W: TextWrite>(
    out: &mut W,
    spec: &Spec,
    n: u128,
    negative: bool,
) -> Result<(), RenderFault>
    ensures { Renders (has_text (number_text (NumberForm.Digits Radix.Decimal) spec.now negative n))
        (W.written out.old) result (W.written out.new) }
{
    put_digits(out, Radix::Decimal, spec, n, negative)
}

/// The digits of a number that has three.
#[inline(always)]
#[tactic(auto, using(interpolator_digits::proofs::DigitLemmas::three_alone))]
pub(crate) fn three_digits(n: u64) -> [u8; 3]
    requires least { 100 ≤ n }
    requires most { n < 1000 }
    ensures { result ≡ digit_text 10 false n }
{
    let (tens, ones) = pair_digits(n % 100);
    [b'0' + (n / 100) as u8, tens, ones]
}

/// Writes the digits of a number in a buffer. It is a call of its own, so that a short number is
/// written without room for the buffer.
#[inline(never)]
#[tactic(auto, using(crate::proofs::DigitBufferLemmas::few_decimals))]
fn put_many<W: TextWrite>(out: &mut W, n: u64) -> Result<(), Refusal>
    ensures { Puts (W.written out.old) (digit_text 10 false n) result (W.written out.new) }
{
    let mut buffer = DigitBuffer::new(b' ');
    buffer.put_decimal(n as u128);
    put_ascii(out, buffer.as_str())
}

/// Writes the digits of a number that has more than one.
#[inline(never)]
#[tactic(auto, using(interpolator_digits::proofs::DigitLemmas::pair_texts))]
fn put_several<W: TextWrite>(out: &mut W, n: u64) -> Result<(), Refusal>
    requires { 10 ≤ n }
    ensures { Puts (W.written out.old) (digit_text 10 false n) result (W.written out.new) }
{
    if n < 100 {
        let (tens, ones) = pair_digits(n);
        return put_ascii(out, ascii_str(&[tens, ones]));
    }
    if n < 1000 {
        let digits = three_digits(n);
        return put_ascii(out, ascii_str(&digits));
    }
    put_many(out, n)
}

/// Writes the digits of a number in base ten, and nothing around them. A single digit takes no
/// call.
#[inline(always)]
pub(crate) fn put_bare<W: TextWrite>(out: &mut W, n: u64) -> Result<(), Refusal>
    ensures { Puts (W.written out.old) (digit_text 10 false n) result (W.written out.new) }
{
    if n < 10 {
        return put_char(out, (b'0' + n as u8) as char);
    }
    put_several(out, n)
}

/// Writes a minus and the digits of a number in base ten, and nothing around them.
#[tactic(auto, using(crate::proofs::DigitBufferLemmas::few_decimals))]
#[inline(never)]
fn put_bare_negative<W: TextWrite>(out: &mut W, n: u64) -> Result<(), Refusal>
    ensures { Puts (W.written out.old) (codes "-" ++ digit_text 10 false n) result
        (W.written out.new) }
{
    let mut buffer = DigitBuffer::new(b' ');
    buffer.put_decimal(n as u128);
    buffer.push_front(b'-');
    put_ascii(out, buffer.as_str())
}

/// Writes a number with a sign in base ten, and nothing around it. It is one call, so that the code
/// that writes a number is no longer than for one without a sign.
#[inline(never)]
pub(crate) fn put_bare_signed<W: TextWrite>(out: &mut W, number: i64) -> Result<(), Refusal>
    ensures { Puts (W.written out.old)
        (sign_text (is_negative number) Unset ++ digit_text 10 false (distance_from_zero number))
        result (W.written out.new) }
{
    if number < 0 {
        put_bare_negative(out, number.unsigned_abs())
    } else {
        put_bare(out, number.unsigned_abs())
    }
}

/// Whether a spec adds nothing to a number in base ten but a minus if it is negative, nor to a
/// decimal of its own scale.
#[tactic(auto, using(crate::proofs::NumberLemmas::bare_texts))]
pub(crate) fn is_bare(spec: &Spec) -> bool
    ensures number { result ≡ true → (negative : Bool) (n : ℕ) →
        number_text (NumberForm.Digits Radix.Decimal) spec.now negative n
        ≡ sign_text negative Unset ++ digit_text 10 false n }
    ensures body { result ≡ true → (negative : Bool) (body : List ℕ) →
        padded_number spec.now (sign_text negative spec.now.sign) body
        ≡ sign_text negative Unset ++ body }
{
    if spec.zero || spec.alternate {
        return false;
    }
    match (spec.sign, spec.width) {
        (Sign::Unset, None) => true,
        _ => false,
    }
}

/// Writes a number that is not negative, in base ten.
#[inline(always)]
pub(crate) fn put_natural<W: TextWrite>(
    out: &mut W,
    spec: &Spec,
    n: u128,
) -> Result<(), RenderFault>
    ensures { Renders
        (has_text (number_text (NumberForm.Digits Radix.Decimal) spec.now false n))
        (W.written out.old) result (W.written out.new) }
{
    if n <= GREATEST_U64 && is_bare(spec) {
        as_rendered(put_bare(out, n as u64))
    } else {
        put_base_ten(out, spec, n, false)
    }
}

/// Writes a number with a sign, in base ten.
#[inline(always)]
pub(crate) fn put_integer<W: TextWrite>(
    out: &mut W,
    spec: &Spec,
    number: i128,
) -> Result<(), RenderFault>
    ensures { Renders
        (has_text (number_text (NumberForm.Digits Radix.Decimal) spec.now (is_negative number)
        (distance_from_zero number)))
        (W.written out.old) result (W.written out.new) }
{
    if i64::MIN as i128 <= number && number <= i64::MAX as i128 && is_bare(spec) {
        as_rendered(put_bare_signed(out, number as i64))
    } else {
        put_base_ten(out, spec, number.unsigned_abs(), number < 0)
    }
}

/// Writes a number in a form.
#[inline(always)]
pub(crate) fn put_number<W: TextWrite>(
    out: &mut W,
    form: NumberForm,
    spec: &Spec,
    n: u128,
    negative: bool,
) -> Result<(), RenderFault>
    ensures { Renders (has_text (number_text form spec.now negative n)) (W.written out.old) result
        (W.written out.new) }
{
    match form {
        NumberForm::Digits(Radix::Decimal) => put_base_ten(out, spec, n, negative),
        NumberForm::Digits(Radix::Binary) => put_binary(out, spec, n, negative),
        NumberForm::Digits(Radix::Octal) => put_octal(out, spec, n, negative),
        NumberForm::Digits(Radix::LowerHex) => put_lower_hex(out, spec, n, negative),
        NumberForm::Digits(Radix::UpperHex) => put_upper_hex(out, spec, n, negative),
        NumberForm::Exponent(upper) => put_exponent(out, spec, n, negative, upper),
    }
}
