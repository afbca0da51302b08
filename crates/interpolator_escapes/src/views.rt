//! Views, written escaped.
ghost use Rattle.std.specs.Prelude.{◌≡◌, ◌∷◌, [], None, Some, false, if◌then◌else◌, true};
ghost use Rattle.std.specs.Str.{chars};
ghost use Rattle.interpolator_render.specs.Texts.{Renders, has_text, view_text};
ghost use Rattle.interpolator_render.specs.Views.{IsInRange, shown_by, some_text};
ghost use Rattle.interpolator_render.specs.declared.view.Trait.TheVariants.{Display};
ghost use Rattle.interpolator_syntax.specs.SpecTexts.{plain_spec};
ghost use Rattle.interpolator_escapes.specs.Wholes.{escaped_text, is_whole, json_null, json_string};
ghost use Rattle.interpolator_escapes.specs.Wholes.{whole_text, whole_view};
ghost use Rattle.interpolator_escapes.specs.{Escapes.escape_of, Formats.escaped_view};
ghost use Rattle.interpolator_escapes.specs.Plain.{is_debug};

use crate::escape::Escape;
use crate::escaped::{put_escaped, put_json_null, put_json_string};
use crate::escaping::Escaping;
use crate::plain::is_debug;
use interpolator_render::{RenderFault, Spec, TextWrite, Trait, View, render};

/// Writes a view under a trait and a spec, escaped: its text is cut and padded first, so that width
/// and precision count its own characters, and then each character is escaped, those of the fill
/// too.
///
/// With [`Escape::Json`] and [`Trait::Debug`] it writes a whole value of JSON: a text or a character
/// as a string with its quotes, whatever the spec is, `null` for a float that is not finite, and any
/// other value as `Debug` does.
///
/// # Errors
///
/// Those of [`render`](interpolator_render::rendering::render). If the writer refused, it has a
/// beginning of the escaped text, which may end amid an escape.
///
/// # Examples
///
/// ```text
/// let spec = Spec { precision: Some(2), ..Spec::default() };
/// put_view(&mut out, Escape::Html, View::Text("<b>"), Trait::Display, &spec)?;    // &lt;b
/// put_view(&mut out, Escape::Json, View::Text("<b>"), Trait::Debug, &spec)?;      // "\u003cb>"
/// ```
pub fn put_view<W: TextWrite>(
    out: &mut W,
    escape: Escape,
    view: View<'_>,
    wanted: Trait,
    spec: &Spec,
) -> Result<(), RenderFault>
    requires in_range { IsInRange (shown_by view) }
    ensures { Renders
        (view_text (escaped_view escape (shown_by view.entry) wanted spec.now) wanted spec.now)
        (W.written out.old) result (W.written out.new) }
{
    if is_whole(escape, wanted) {
        return put_whole(out, view, wanted, spec);
    }
    put_characters(out, escape, view, wanted, spec)
}

/// Tests whether a value is written whole.
fn is_whole(escape: Escape, wanted: Trait) -> bool
    ensures { result ≡ is_whole escape wanted }
{
    match escape {
        Escape::Json => is_debug(wanted),
        _ => false,
    }
}

/// Writes a view as a whole value of JSON.
fn put_whole<W: TextWrite>(
    out: &mut W,
    view: View<'_>,
    wanted: Trait,
    spec: &Spec,
) -> Result<(), RenderFault>
    requires in_range { IsInRange (shown_by view) }
    requires debug { is_debug wanted ≡ true }
    ensures { Renders
        (view_text (whole_view (whole_text (shown_by view.entry)) (shown_by view.entry) spec.now)
        wanted spec.now)
        (W.written out.old) result (W.written out.new) }
{
    match view {
        View::Text(text) => put_string(out, text),
        View::Plain(text) => put_string(out, text),
        View::Character(c) => put_character(out, c),
        View::Float(x) => put_number(out, x.is_finite(), view, wanted, spec),
        View::Float32(x) => put_number(out, x.is_finite(), view, wanted, spec),
        _ => put_characters(out, Escape::Json, view, wanted, spec),
    }
}

/// Writes a text as a string of JSON.
fn put_string<W: TextWrite>(out: &mut W, text: &str) -> Result<(), RenderFault>
    ensures { Renders (has_text (json_string (chars text.now)))
        (W.written out.old) result (W.written out.new) }
{
    match put_json_string(out, text) {
        Ok(()) => Ok(()),
        Err(_) => Err(RenderFault::Refused),
    }
}

/// Writes a character as a string of JSON.
fn put_character<W: TextWrite>(out: &mut W, c: char) -> Result<(), RenderFault>
    ensures { Renders (has_text (json_string (c ∷ [])))
        (W.written out.old) result (W.written out.new) }
{
    let mut buffer = [0; 4];
    put_string(out, c.encode_utf8(&mut buffer))
}

/// Writes `null`.
fn put_null<W: TextWrite>(out: &mut W) -> Result<(), RenderFault>
    ensures { Renders (has_text json_null) (W.written out.old) result (W.written out.new) }
{
    match put_json_null(out) {
        Ok(()) => Ok(()),
        Err(_) => Err(RenderFault::Refused),
    }
}

/// Writes a float as a whole value of JSON.
fn put_number<W: TextWrite>(
    out: &mut W,
    is_finite: bool,
    view: View<'_>,
    wanted: Trait,
    spec: &Spec,
) -> Result<(), RenderFault>
    requires in_range { IsInRange (shown_by view) }
    requires debug { is_debug wanted ≡ true }
    requires float { whole_text (shown_by view) ≡ (if is_finite then None else Some json_null) }
    ensures { Renders
        (view_text (whole_view (whole_text (shown_by view.entry)) (shown_by view.entry) spec.now)
        wanted spec.now)
        (W.written out.old) result (W.written out.new) }
{
    if is_finite {
        return put_characters(out, Escape::Json, view, wanted, spec);
    }
    put_null(out)
}

/// As [`put_view`], each character of the view's text by itself.
pub(crate) fn put_characters<W: TextWrite>(
    out: &mut W,
    escape: Escape,
    view: View<'_>,
    wanted: Trait,
    spec: &Spec,
) -> Result<(), RenderFault>
    requires in_range { IsInRange (shown_by view) }
    ensures { Renders
        (view_text (escaped_text (escape_of escape)
        (view_text (shown_by view.entry) wanted spec.now)) wanted spec.now)
        (W.written out.old) result (W.written out.new) }
{
    // It takes only the empty text, which is the same escaped.
    if out.refused() {
        return render(out, view, wanted, spec);
    }
    put_open(out, escape, view, wanted, spec)
}

/// As [`put_characters`], to a writer that has refused nothing.
fn put_open<W: TextWrite>(
    out: &mut W,
    escape: Escape,
    view: View<'_>,
    wanted: Trait,
    spec: &Spec,
) -> Result<(), RenderFault>
    requires in_range { IsInRange (shown_by view) }
    requires clear { (W.written out.old).refused ≡ false }
    ensures { Renders
        (view_text (escaped_text (escape_of escape)
        (view_text (shown_by view.entry) wanted spec.now)) wanted spec.now)
        (W.written out.old) result (W.written out.new) }
{
    let mut escaping = Escaping::over(out, escape);
    let answer = escaping.put(view, wanted, spec);
    escaping.into_below();
    answer
}

/// Writes a text displayed plainly, escaped. It is escaped as it is, which saves making a spec.
#[inline(always)]
pub fn put_text_view<W: TextWrite>(
    out: &mut W,
    escape: Escape,
    text: &str,
) -> Result<(), RenderFault>
    ensures { Renders
        (view_text (escaped_text (escape_of escape)
        (view_text (some_text (chars text.now)) Display plain_spec)) Display plain_spec)
        (W.written out.old) result (W.written out.new) }
{
    match put_escaped(out, escape, text) {
        Ok(()) => Ok(()),
        Err(_) => Err(RenderFault::Refused),
    }
}
