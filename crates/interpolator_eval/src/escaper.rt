//! How the text of a value is written: as it is, or escaped for the place where it stands.
ghost use Rattle.std.specs.Prelude.{◌≡◌, true};
ghost use Rattle.std.specs.Str.{chars};
ghost use Rattle.interpolator_render.specs.Texts.{Renders, view_text};
ghost use Rattle.interpolator_render.specs.Views.{IsInRange, Shown, shown_by, some_text};
ghost use Rattle.interpolator_render.specs.{declared.view.Spec.Spec, declared.view.Trait.Trait};
ghost use Rattle.interpolator_render.specs.declared.view.Trait.TheVariants.{Display};
ghost use Rattle.interpolator_syntax.specs.SpecTexts.{plain_spec};

use interpolator_render::{RenderFault, Spec, TextWrite, Trait, View, render, render_plainly};

/// Writes the text of each value of a format. The literals between the values are written as they
/// are. An escaper is a type without values: it is chosen where a format is written, and the
/// compiler makes a copy of the evaluator for each.
pub trait Escaper {
    // what is shown in place of what a view shows, under a trait and a spec
    ghost shown: { Shown → Trait → Spec → Shown };

    /// Whether each view that is displayed plainly is written as it is. A list then writes a number
    /// together with the text before it.
    #[inline(always)]
    fn writes_as_it_is() -> bool
        ensures { result ≡ true → (x : Shown) → shown x Display plain_spec ≡ x }
    {
        false
    }

    /// Writes a view under a trait and a spec.
    fn put<W: TextWrite>(
        out: &mut W,
        view: View<'_>,
        wanted: Trait,
        spec: &Spec,
    ) -> Result<(), RenderFault>
        requires in_range { IsInRange (shown_by view) }
        ensures { Renders
            (view_text (shown (shown_by view.entry) wanted spec.now) wanted spec.now)
            (W.written out.old) result (W.written out.new) };

    /// Writes a text displayed plainly.
    fn put_text<W: TextWrite>(out: &mut W, text: &str) -> Result<(), RenderFault>
        ensures { Renders
            (view_text (shown (some_text (chars text.now)) Display plain_spec) Display plain_spec)
            (W.written out.old) result (W.written out.new) };

    /// Writes a view displayed plainly.
    fn put_plainly<W: TextWrite>(out: &mut W, view: View<'_>) -> Result<(), RenderFault>
        requires in_range { IsInRange (shown_by view) }
        ensures { Renders
            (view_text (shown (shown_by view.entry) Display plain_spec) Display plain_spec)
            (W.written out.old) result (W.written out.new) };
}

/// Writes the text of each value as it is.
pub struct Unescaped;

impl Escaper for Unescaped {
    ghost shown = { λ shown _ _. shown };

    #[inline(always)]
    fn writes_as_it_is() -> bool
        ensures { result ≡ true }
    {
        true
    }

    #[inline(always)]
    fn put<W: TextWrite>(
        out: &mut W,
        view: View<'_>,
        wanted: Trait,
        spec: &Spec,
    ) -> Result<(), RenderFault> {
        render(out, view, wanted, spec)
    }

    // A text is written as it is, which saves making a spec.
    #[inline(always)]
    fn put_text<W: TextWrite>(out: &mut W, text: &str) -> Result<(), RenderFault> {
        match out.write_str(text) {
            Ok(()) => Ok(()),
            Err(_) => Err(RenderFault::Refused),
        }
    }

    #[inline(always)]
    fn put_plainly<W: TextWrite>(out: &mut W, view: View<'_>) -> Result<(), RenderFault> {
        render_plainly(out, view)
    }
}
