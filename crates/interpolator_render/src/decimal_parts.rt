//! A decimal or a float in parts, padded to its width.
ghost use Rattle.std.specs.Prelude.{◌++◌, replicate};
ghost use Rattle.std.specs.Str.{IsAscii};
ghost use Rattle.interpolator_digits.specs.Characters.{zero_digit};
ghost use Rattle.interpolator_render.specs.{Padding.padded_number, Writers.Puts};

use crate::layout::{Part, fill_char, put_parts};
use crate::number_parts::number_layout;
use crate::text_write::{Refusal, TextWrite};
use crate::view::Spec;

/// A number's text in parts. Each text is ASCII.
#[derive(Clone, Copy)]
pub(crate) struct DecimalParts<'t> {
    pub(crate) sign: &'t str,
    /// The digits before the point.
    pub(crate) whole: &'t str,
    pub(crate) point: &'t str,
    /// The zeros after the point.
    pub(crate) between: usize,
    /// The digits after those.
    pub(crate) part: &'t str,
    /// The zeros after those.
    pub(crate) zeros: usize,
    /// What follows: the exponent, or nothing.
    pub(crate) tail: &'t str,
}

/// Writes a number's parts, padded. Their count saturates, which changes no padding.
#[inline(always)]
pub(crate) fn put_padded_decimal<W: TextWrite>(
    out: &mut W,
    spec: &Spec,
    number: DecimalParts<'_>,
) -> Result<(), Refusal>
    requires sign { IsAscii number.sign.now }
    requires whole { IsAscii number.whole.now }
    requires point { IsAscii number.point.now }
    requires part { IsAscii number.part.now }
    requires tail { IsAscii number.tail.now }
    ensures { let parts = number.entry in Puts (W.written out.old)
        (padded_number spec.now parts.sign.now
        (parts.whole.now ++ (parts.point.now ++ (replicate parts.between zero_digit
        ++ (parts.part.now ++ (replicate parts.zeros zero_digit ++ parts.tail.now))))))
        result (W.written out.new) }
{
    let count = number
        .sign
        .len()
        .saturating_add(number.whole.len())
        .saturating_add(number.point.len())
        .saturating_add(number.between)
        .saturating_add(number.part.len())
        .saturating_add(number.zeros)
        .saturating_add(number.tail.len());
    let layout = number_layout(spec, count);
    let fill = fill_char(spec);
    put_parts(
        out,
        &[
            Part::Copies(fill, layout.before),
            Part::Text(number.sign),
            Part::Copies('0', layout.zeros),
            Part::Text(number.whole),
            Part::Text(number.point),
            Part::Copies('0', number.between),
            Part::Text(number.part),
            Part::Copies('0', number.zeros),
            Part::Text(number.tail),
            Part::Copies(fill, layout.after),
        ],
    )
}
