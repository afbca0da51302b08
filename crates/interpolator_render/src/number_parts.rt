//! A number in parts, padded to its width.
ghost use Rattle.std.specs.Prelude.{◌≡◌, ◌++◌, replicate};
ghost use Rattle.interpolator_digits.specs.Characters.{zero_digit};
ghost use Rattle.interpolator_render.specs.Numbers.{IsShortAscii, sign_text};
ghost use Rattle.interpolator_render.specs.Padding.{IsNumberLayout, padded_number};
ghost use Rattle.interpolator_render.specs.Writers.{Puts};

use crate::layout::{Part, fill_before, fill_char, put_parts};
use crate::text_write::{Refusal, TextWrite};
use crate::view::{Sign, Spec};

/// A number's text in parts. Each text is ASCII and short.
#[derive(Clone, Copy)]
pub(crate) struct NumberParts<'t> {
    pub(crate) sign: &'t str,
    pub(crate) prefix: &'t str,
    /// The first digits.
    pub(crate) head: &'t str,
    /// The zeros after them.
    pub(crate) zeros: usize,
    /// What follows those: the exponent, or nothing.
    pub(crate) tail: &'t str,
}

/// The zeros that pad a number, and the copies of the fill on both sides.
#[derive(Clone, Copy)]
pub(crate) struct NumberLayout {
    pub(crate) before: usize,
    pub(crate) zeros: usize,
    pub(crate) after: usize,
}

pub(crate) fn sign_str(negative: bool, sign: Sign) -> &'static str
    ensures value { result.now ≡ sign_text negative sign }
    ensures ascii { IsShortAscii result.now }
{
    if negative {
        return "-";
    }
    match sign {
        Sign::Plus => "+",
        Sign::Minus => "",
        Sign::Unset => "",
    }
}

/// How a number of `count` characters is padded.
pub(crate) fn number_layout(spec: &Spec, count: usize) -> NumberLayout
    ensures { IsNumberLayout spec.now count result.before result.zeros result.after }
{
    let missing = spec.width.unwrap_or(0).saturating_sub(count);
    if spec.zero {
        return NumberLayout {
            before: 0,
            zeros: missing,
            after: 0,
        };
    }
    let before = fill_before(spec.alignment, missing, missing);
    NumberLayout {
        before,
        zeros: 0,
        after: missing - before,
    }
}

/// Writes a number's parts, padded.
///
/// The count of characters saturates at the greatest `usize`. That changes no padding, since no
/// width is greater.
#[inline(always)]
pub(crate) fn put_padded<W: TextWrite>(
    out: &mut W,
    spec: &Spec,
    number: NumberParts<'_>,
) -> Result<(), Refusal>
    requires sign { IsShortAscii number.sign.now }
    requires prefix { IsShortAscii number.prefix.now }
    requires head { IsShortAscii number.head.now }
    requires tail { IsShortAscii number.tail.now }
    ensures { let parts = number.entry in Puts (W.written out.old)
        (padded_number spec.now (parts.sign.now ++ parts.prefix.now)
        (parts.head.now ++ (replicate parts.zeros zero_digit ++ parts.tail.now)))
        result (W.written out.new) }
{
    let short = number.sign.len() + number.prefix.len() + number.head.len() + number.tail.len();
    let layout = number_layout(spec, number.zeros.saturating_add(short));
    let fill = fill_char(spec);
    put_parts(
        out,
        &[
            Part::Copies(fill, layout.before),
            Part::Text(number.sign),
            Part::Text(number.prefix),
            Part::Copies('0', layout.zeros),
            Part::Text(number.head),
            Part::Copies('0', number.zeros),
            Part::Text(number.tail),
            Part::Copies(fill, layout.after),
        ],
    )
}
