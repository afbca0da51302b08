//! Floats under a trait and a spec.
ghost use Rattle.std.specs.Prelude.{◌≡◌, IsTrue, None, Some};
ghost use Rattle.std.specs.{Float.binary32, Float.binary64, Float.float_is_finite, Str.IsAscii};
ghost use Rattle.interpolator_floats.specs.Floats.{float_scale, float_units, float_word, has_minus};
ghost use Rattle.interpolator_floats.specs.ShortestDigits.{IsTrimmed};
ghost use Rattle.interpolator_render.specs.Forms.{decimal_body, float_body, float_front};
ghost use Rattle.interpolator_render.specs.Forms.{short_body, worded};
ghost use Rattle.interpolator_render.specs.Padding.{padded_number, unset_spec};
ghost use Rattle.interpolator_render.specs.Texts.{Renders, padded_decimal, padded_float};
ghost use Rattle.interpolator_render.specs.Numbers.{IsShortAscii};
ghost use Rattle.interpolator_render.specs.{declared.view.Trait.TheVariants.Display, Writers.Puts};

use crate::float::{
    put_bare_shortest, put_debugged, put_places, put_places_exponent, put_shortest,
    put_shortest_exponent,
};
use crate::number_parts::{NumberParts, put_padded, sign_str};
use crate::text_write::{Refusal, TextWrite, as_rendered};
use crate::view::{RenderFault, Sign, Spec, Trait};
use interpolator_floats::{Shortest, is_negative, shortest_digits, shortest_f32_digits, word};

/// The sign of a float: a NaN has none.
#[tactic(auto, using(crate::proofs::FloatViewLemmas::fronts))]
fn front_str(x: f64, sign: Sign) -> &'static str
    ensures value { result.now ≡ float_front x sign }
    ensures ascii { IsShortAscii result.now }
{
    if x.is_nan() {
        return "";
    }
    sign_str(is_negative(x), sign)
}

/// Writes the word of a float after its sign, padded as a number is.
#[inline(never)]
#[tactic(auto, using(crate::proofs::FloatViewLemmas::word_ascii))]
fn put_word<W: TextWrite>(out: &mut W, spec: &Spec, x: f64, text: &str) -> Result<(), Refusal>
    requires { text.now ≡ float_word x }
    ensures { Puts (W.written out.old)
        (padded_number spec.now (float_front x spec.now.sign) (float_word x))
        result (W.written out.new) }
{
    let parts = NumberParts {
        sign: front_str(x, spec.sign),
        prefix: "",
        head: text,
        zeros: 0,
        tail: "",
    };
    put_padded(out, spec, parts)
}

/// Writes the word of a float under the traits that write floats.
#[inline(never)]
fn render_word<W: TextWrite>(
    out: &mut W,
    wanted: Trait,
    spec: &Spec,
    x: f64,
    text: &str,
) -> Result<(), RenderFault>
    requires { text.now ≡ float_word x }
    ensures { Renders (padded_float spec.now x (worded wanted (float_word x))) (W.written out.old)
        result (W.written out.new) }
{
    match wanted {
        Trait::Display => as_rendered(put_word(out, spec, x, text)),
        Trait::Debug => as_rendered(put_word(out, spec, x, text)),
        Trait::LowerExp => as_rendered(put_word(out, spec, x, text)),
        Trait::UpperExp => as_rendered(put_word(out, spec, x, text)),
        _ => Err(RenderFault::NotImplemented),
    }
}

/// Writes shortest digits.
fn render_shortest<W: TextWrite>(
    out: &mut W,
    wanted: Trait,
    spec: &Spec,
    negative: bool,
    shown: Shortest,
) -> Result<(), RenderFault>
    requires trimmed { IsTrimmed shown.digits shown.up shown.down }
    requires plain { spec.now.precision ≡ None }
    ensures { Renders (padded_decimal spec.now negative (short_body wanted shown))
        (W.written out.old) result (W.written out.new) }
{
    match wanted {
        Trait::Display => as_rendered(put_shortest(out, spec, negative, shown)),
        Trait::Debug => as_rendered(put_debugged(out, spec, negative, shown)),
        Trait::LowerExp => as_rendered(put_shortest_exponent(out, false, spec, negative, shown)),
        Trait::UpperExp => as_rendered(put_shortest_exponent(out, true, spec, negative, shown)),
        _ => Err(RenderFault::NotImplemented),
    }
}

/// Writes a float at a precision.
#[inline(always)]
fn render_places<W: TextWrite>(
    out: &mut W,
    wanted: Trait,
    spec: &Spec,
    x: f64,
    places: usize,
) -> Result<(), RenderFault>
    requires { IsTrue (float_is_finite x) }
    ensures { Renders (padded_decimal spec.now (has_minus x)
        (decimal_body wanted (Some places) (float_scale x) (float_units x)))
        (W.written out.old) result (W.written out.new) }
{
    let negative = is_negative(x);
    match wanted {
        Trait::Display => as_rendered(put_places(out, spec, negative, x, places)),
        Trait::Debug => as_rendered(put_places(out, spec, negative, x, places)),
        Trait::LowerExp => as_rendered(put_places_exponent(out, false, spec, negative, x, places)),
        Trait::UpperExp => as_rendered(put_places_exponent(out, true, spec, negative, x, places)),
        _ => Err(RenderFault::NotImplemented),
    }
}

/// Writes a float.
#[inline(never)]
#[tactic(auto, using(crate::proofs::FloatViewLemmas::float_texts))]
pub(crate) fn render_float<W: TextWrite>(
    out: &mut W,
    wanted: Trait,
    spec: &Spec,
    x: f64,
) -> Result<(), RenderFault>
    ensures { Renders (padded_float spec.now x (float_body binary64 wanted spec.now.precision x))
        (W.written out.old) result (W.written out.new) }
{
    if let Some(text) = word(x) {
        return render_word(out, wanted, spec, x, text);
    }
    match spec.precision {
        Some(places) => render_places(out, wanted, spec, x, places),
        None => render_shortest(out, wanted, spec, is_negative(x), shortest_digits(x)),
    }
}

/// Writes a float displayed plainly.
#[inline(never)]
#[tactic(auto, using(crate::proofs::FloatViewLemmas::plain_texts))]
pub(crate) fn render_plain_float<W: TextWrite>(out: &mut W, x: f64) -> Result<(), RenderFault>
    ensures { Renders (padded_float unset_spec x (float_body binary64 Display None x))
        (W.written out.old) result (W.written out.new) }
{
    if let Some(text) = word(x) {
        return render_word(out, Trait::Display, &Spec::default(), x, text);
    }
    as_rendered(put_bare_shortest(out, is_negative(x), shortest_digits(x)))
}

/// Writes a float of 32 bits. At a precision it is the float of 64 bits with the same value.
#[inline(never)]
#[tactic(auto, using(crate::proofs::FloatViewLemmas::float_texts))]
pub(crate) fn render_f32<W: TextWrite>(
    out: &mut W,
    wanted: Trait,
    spec: &Spec,
    x: f32,
) -> Result<(), RenderFault>
    ensures { Renders (padded_float spec.now x (float_body binary32 wanted spec.now.precision x))
        (W.written out.old) result (W.written out.new) }
{
    let wide = f64::from(x);
    if let Some(text) = word(wide) {
        return render_word(out, wanted, spec, wide, text);
    }
    match spec.precision {
        Some(places) => render_places(out, wanted, spec, wide, places),
        None => render_shortest(out, wanted, spec, is_negative(wide), shortest_f32_digits(x)),
    }
}
