//! The text of a view, written.
ghost use Rattle.std.specs.Prelude.{◌≡◌, ◌+◌, ◌∷◌, [], ◌<◌, ◌≤◌, None, Some, length, true};
ghost use Rattle.std.specs.Str.{chars};
ghost use Rattle.interpolator_render.specs.Padding.{displayed_text, unset_spec};
ghost use Rattle.interpolator_render.specs.Texts.{padded_decimal, under, truth_text, view_text};
ghost use Rattle.interpolator_render.specs.Texts.{Renders};
ghost use Rattle.interpolator_render.specs.Numbers.{distance_from_zero, is_negative, number_form};
ghost use Rattle.interpolator_render.specs.Views.{IsInRange, shown_by, unsigned_number};
ghost use Rattle.interpolator_render.specs.{Characters.single_quote, Quoting.quotation};
ghost use Rattle.interpolator_render.specs.Forms.{decimal_body};
ghost use Rattle.interpolator_render.specs.{declared.view.Trait.TheVariants.Display, Writers.Puts};

use crate::characters::cut;
use crate::copies::{put_between, put_between_spaces, put_in_block};
use crate::decimal::put_decimal;
use crate::decimal_exponent::put_decimal_exponent;
use crate::digits::GREATEST_U64;
use crate::float_view::{render_f32, render_float, render_plain_float};
use crate::layout::{fill_before, put_text};
use crate::number::{put_bare, put_bare_signed, put_integer, put_natural, put_number};
use crate::number_form::{NumberForm, number_form, sign_and_magnitude};
use crate::places::BLOCK;
use crate::quoting::put_quoted;
use crate::text_write::{Refusal, TextWrite, as_rendered};
use crate::view::{RenderFault, Spec, Trait, View};

/// Writes a text as display does: at most as many of its first characters as the precision says,
/// and copies of the fill up to the width, after the text unless the alignment says otherwise.
/// Sign, `#` and the zero flag have no effect. Width and precision count characters. The call
/// itself takes no memory.
///
/// # Errors
///
/// A [`Refusal`] if the writer refused; the writer's flag is then set. `taken` is how many bytes
/// this whole call appended, or the greatest `usize` if they are more.
///
/// # Examples
///
/// ```text
/// pad(&mut out, "é", &Spec { width: Some(3), alignment: Alignment::Center, ..Spec::default() })
/// // appends " é "
/// ```
#[inline(always)]
#[tactic(auto, using(crate::proofs::RenderingLemmas::displayed_as_it_is))]
pub fn pad<W: TextWrite>(out: &mut W, text: &str, spec: &Spec) -> Result<(), Refusal>
    ensures { Puts (W.written out.old) (displayed_text spec.now (chars text.now)) result
        (W.written out.new) }
{
    match (spec.width, spec.precision) {
        (None, None) => put_text(out, text),
        _ => put_cut(out, text, spec),
    }
}

/// Whether a text and its padding of ASCII characters fit in a block.
#[inline(always)]
fn fits_block(text: &str, missing: usize) -> bool
    ensures { result ≡ true → length text.now + missing ≤ 64 }
{
    text.len() <= BLOCK && missing <= BLOCK - text.len()
}

/// As [`pad`], with a precision or a width.
#[inline(never)]
fn put_cut<W: TextWrite>(out: &mut W, text: &str, spec: &Spec) -> Result<(), Refusal>
    ensures { Puts (W.written out.old) (displayed_text spec.now (chars text.now)) result
        (W.written out.new) }
{
    let Some(fill) = spec.fill else {
        return put_spaced(out, text, spec);
    };
    if fill.is_ascii() {
        return put_filled(out, text, spec, fill as u8);
    }
    put_filled_widely(out, text, spec, fill)
}

/// As [`pad`], without a fill.
#[tactic(auto, unfolding(crate::specs::Padding::padded_text))]
#[inline(never)]
fn put_spaced<W: TextWrite>(out: &mut W, text: &str, spec: &Spec) -> Result<(), Refusal>
    requires { spec.now.fill ≡ None }
    ensures { Puts (W.written out.old) (displayed_text spec.now (chars text.now)) result
        (W.written out.new) }
{
    let (shown, missing) = cut(text, spec.precision, spec.width);
    let before = fill_before(spec.alignment, missing, 0);
    if fits_block(shown, missing) {
        put_in_block(out, shown, b' ', before, missing - before)
    } else {
        put_between_spaces(out, shown, before, missing - before)
    }
}

/// As [`pad`], with a fill that is ASCII.
#[tactic(auto, unfolding(crate::specs::Padding::padded_text))]
#[inline(never)]
fn put_filled<W: TextWrite>(out: &mut W, text: &str, spec: &Spec, fill: u8) -> Result<(), Refusal>
    requires given { spec.now.fill ≡ Some fill }
    requires ascii { fill < 128 }
    ensures { Puts (W.written out.old) (displayed_text spec.now (chars text.now)) result
        (W.written out.new) }
{
    let (shown, missing) = cut(text, spec.precision, spec.width);
    let before = fill_before(spec.alignment, missing, 0);
    if fits_block(shown, missing) {
        put_in_block(out, shown, fill, before, missing - before)
    } else {
        put_between(out, shown, fill as char, before, missing - before)
    }
}

/// As [`pad`], with a fill of one byte or more.
#[tactic(auto, unfolding(crate::specs::Padding::padded_text))]
#[inline(never)]
fn put_filled_widely<W: TextWrite>(
    out: &mut W,
    text: &str,
    spec: &Spec,
    fill: char,
) -> Result<(), Refusal>
    requires { spec.now.fill ≡ Some fill }
    ensures { Puts (W.written out.old) (displayed_text spec.now (chars text.now)) result
        (W.written out.new) }
{
    let (shown, missing) = cut(text, spec.precision, spec.width);
    let before = fill_before(spec.alignment, missing, 0);
    put_between(out, shown, fill, before, missing - before)
}

fn truth_str(truth: bool) -> &'static str
    ensures { chars result.now ≡ truth_text truth }
{
    if truth { "true" } else { "false" }
}

/// Writes a text under display or debug.
#[inline(always)]
fn render_text<W: TextWrite>(
    out: &mut W,
    wanted: Trait,
    quote: char,
    text: &str,
    spec: &Spec,
) -> Result<(), RenderFault>
    requires { quote < 128 }
    ensures { Renders
        (under wanted (displayed_text spec.now (chars text.now)) (quotation quote (chars text.now)))
        (W.written out.old) result (W.written out.new) }
{
    match wanted {
        Trait::Display => as_rendered(pad(out, text, spec)),
        Trait::Debug => as_rendered(put_quoted(out, quote, text)),
        _ => Err(RenderFault::NotImplemented),
    }
}

/// Writes a character under display or debug.
#[tactic(auto, using(crate::proofs::WrittenLemmas::one_character))]
#[inline(never)]
fn render_character<W: TextWrite>(
    out: &mut W,
    wanted: Trait,
    c: char,
    spec: &Spec,
) -> Result<(), RenderFault>
    ensures { Renders
        (under wanted (displayed_text spec.now (c ∷ [])) (quotation single_quote (c ∷ [])))
        (W.written out.old) result (W.written out.new) }
{
    let mut bytes = [0u8; 4];
    render_text(out, wanted, '\'', c.encode_utf8(&mut bytes), spec)
}

/// Writes a truth value, under debug as under display.
#[inline(never)]
fn render_truth<W: TextWrite>(
    out: &mut W,
    wanted: Trait,
    truth: bool,
    spec: &Spec,
) -> Result<(), RenderFault>
    ensures { let text = displayed_text spec.now (truth_text truth) in
        Renders (under wanted text text) (W.written out.old) result (W.written out.new) }
{
    match wanted {
        Trait::Display | Trait::Debug => as_rendered(pad(out, truth_str(truth), spec)),
        _ => Err(RenderFault::NotImplemented),
    }
}

/// Writes a decimal, under debug as under display.
#[inline(never)]
fn render_decimal<W: TextWrite>(
    out: &mut W,
    wanted: Trait,
    spec: &Spec,
    units: i128,
    scale: u32,
) -> Result<(), RenderFault>
    ensures { Renders (padded_decimal spec.now (is_negative units)
        (decimal_body wanted spec.now.precision scale (distance_from_zero units)))
        (W.written out.old) result (W.written out.new) }
{
    match wanted {
        Trait::Display | Trait::Debug => as_rendered(put_decimal(out, spec, units, scale)),
        Trait::LowerExp => as_rendered(put_decimal_exponent(out, false, spec, units, scale)),
        Trait::UpperExp => as_rendered(put_decimal_exponent(out, true, spec, units, scale)),
        _ => Err(RenderFault::NotImplemented),
    }
}

/// Writes the text of a view under a trait and a spec.
///
/// After `Ok`, exactly this text was appended. A signed number has to lie in the range of its
/// width. The call itself takes no memory.
///
/// # Errors
///
/// - [`RenderFault::NotImplemented`] if the view has no text under this trait, such as a text
///   under `Trait::Octal`. Nothing was written.
/// - [`RenderFault::Failed`] if the view is `View::Failed`. Nothing was written.
/// - [`RenderFault::Refused`] if the writer refused. A proper prefix of the text was appended, or
///   nothing if the writer's flag was set before, and the flag is set.
///
/// # Examples
///
/// ```text
/// let spec = Spec { alternate: true, zero: true, width: Some(10), ..Spec::default() };
/// render(&mut out, View::Signed(-1, Bits::B8), Trait::LowerHex, &spec)   // appends "0x000000ff"
/// ```
#[tactic(auto, unfolding(crate::specs::Texts::view_text))]
#[inline(always)]
pub fn render<W: TextWrite>(
    out: &mut W,
    view: View<'_>,
    wanted: Trait,
    spec: &Spec,
) -> Result<(), RenderFault>
    requires { IsInRange (shown_by view) }
    ensures { Renders (view_text (shown_by view.entry) wanted spec.now) (W.written out.old) result
        (W.written out.new) }
{
    if let View::Text(text) = view {
        return render_text(out, wanted, '"', text, spec);
    }
    if let View::Unsigned(number) = view {
        if let Trait::Display = wanted {
            return put_natural(out, spec, number);
        }
        return render_natural(out, spec, number, wanted);
    }
    if let Trait::Display = wanted {
        if let View::Signed(number, _) = view {
            return put_integer(out, spec, number);
        }
        if let View::Decimal { units, scale } = view {
            return as_rendered(put_decimal(out, spec, units, scale));
        }
        if let View::Float(number) = view {
            return render_float(out, wanted, spec, number);
        }
    }
    render_any(out, view, wanted, spec)
}

/// Writes the text of a view displayed plainly: under display and a spec that sets nothing.
///
/// It is [`render`] under these, without a spec in memory for a text or a whole number.
///
/// # Errors
///
/// Those of [`render`].
///
/// # Examples
///
/// ```text
/// render_plainly(&mut out, View::Unsigned(7))   // appends "7"
/// ```
#[inline(always)]
pub fn render_plainly<W: TextWrite>(out: &mut W, view: View<'_>) -> Result<(), RenderFault>
    requires { IsInRange (shown_by view) }
    ensures { Renders (view_text (shown_by view.entry) Display unset_spec) (W.written out.old) result
        (W.written out.new) }
{
    if let View::Text(text) = view {
        return as_rendered(put_text(out, text));
    }
    if let View::Unsigned(number) = view {
        if number <= GREATEST_U64 {
            return as_rendered(put_bare(out, number as u64));
        }
    }
    if let View::Signed(number, _) = view {
        if i64::MIN as i128 <= number && number <= i64::MAX as i128 {
            return as_rendered(put_bare_signed(out, number as i64));
        }
    }
    render_unset(out, view)
}

/// As [`render_plainly`], for every view.
#[tactic(auto, unfolding(crate::specs::Texts::view_text))]
#[inline(never)]
fn render_unset<W: TextWrite>(out: &mut W, view: View<'_>) -> Result<(), RenderFault>
    requires { IsInRange (shown_by view) }
    ensures { Renders (view_text (shown_by view.entry) Display unset_spec) (W.written out.old) result
        (W.written out.new) }
{
    if let View::Float(number) = view {
        return render_plain_float(out, number);
    }
    render(out, view, Trait::Display, &Spec::default())
}

/// Writes a number of an unsigned type.
#[tactic(auto, unfolding(crate::specs::Texts::view_text))]
#[inline(never)]
fn render_natural<W: TextWrite>(
    out: &mut W,
    spec: &Spec,
    number: u128,
    wanted: Trait,
) -> Result<(), RenderFault>
    ensures { Renders (view_text (unsigned_number number) wanted spec.now) (W.written out.old)
        result (W.written out.new) }
{
    match number_form(wanted, spec.hex_debug) {
        None => Err(RenderFault::NotImplemented),
        Some(form) => put_number(out, form, spec, number, false),
    }
}

/// As [`render`], for every view and trait; [`render`] tries the most likely ones first.
#[tactic(auto, unfolding(crate::specs::Texts::view_text))]
#[inline(never)]
fn render_any<W: TextWrite>(
    out: &mut W,
    view: View<'_>,
    wanted: Trait,
    spec: &Spec,
) -> Result<(), RenderFault>
    requires { IsInRange (shown_by view) }
    ensures { Renders (view_text (shown_by view.entry) wanted spec.now) (W.written out.old) result
        (W.written out.new) }
{
    match view {
        View::Signed(number, bits) => match number_form(wanted, spec.hex_debug) {
            None => Err(RenderFault::NotImplemented),
            Some(form) => {
                let (negative, magnitude) = sign_and_magnitude(form, number, bits);
                put_number(out, form, spec, magnitude, negative)
            }
        },
        View::Unsigned(number) => render_natural(out, spec, number, wanted),
        View::Truth(truth) => render_truth(out, wanted, truth, spec),
        View::Decimal { units, scale } => render_decimal(out, wanted, spec, units, scale),
        View::Float(number) => render_float(out, wanted, spec, number),
        View::Float32(number) => render_f32(out, wanted, spec, number),
        View::Character(c) => render_character(out, wanted, c, spec),
        View::Text(text) => render_text(out, wanted, '"', text, spec),
        View::Plain(text) => as_rendered(put_text(out, text)),
        View::NotImplemented => Err(RenderFault::NotImplemented),
        View::Failed => Err(RenderFault::Failed),
    }
}
