//! The escapes as types, by which a format is written.
ghost use Rattle.interpolator_escapes.specs.Formats.{escaped_view};
ghost use Rattle.interpolator_escapes.specs.declared.escape.Escape.TheVariants.{Csv, Html, Json};
ghost use Rattle.interpolator_escapes.specs.declared.escape.Escape.TheVariants.{Line, Shell};

use crate::escape::Escape;
use crate::views::{put_characters, put_text_view, put_view};
use interpolator_eval::Escaper;
use interpolator_render::{RenderFault, Spec, TextWrite, Trait, View};

/// Writes the text of each value as [`Escape::Line`] says.
pub struct LineEscaper;

/// Writes the text of each value as [`Escape::Html`] says.
pub struct HtmlEscaper;

/// Writes the text of each value as [`Escape::Csv`] says.
pub struct CsvEscaper;

/// Writes the text of each value as [`Escape::Json`] says.
pub struct JsonEscaper;

/// Writes the text of each value as [`Escape::Shell`] says.
pub struct ShellEscaper;

impl Escaper for LineEscaper {
    ghost shown = { escaped_view Line };

    #[inline(always)]
    fn put<W: TextWrite>(
        out: &mut W,
        view: View<'_>,
        wanted: Trait,
        spec: &Spec,
    ) -> Result<(), RenderFault> {
        put_characters(out, Escape::Line, view, wanted, spec)
    }

    #[inline(always)]
    fn put_text<W: TextWrite>(out: &mut W, text: &str) -> Result<(), RenderFault> {
        put_text_view(out, Escape::Line, text)
    }

    #[inline(always)]
    fn put_plainly<W: TextWrite>(out: &mut W, view: View<'_>) -> Result<(), RenderFault> {
        put_characters(out, Escape::Line, view, Trait::Display, &Spec::default())
    }
}

impl Escaper for HtmlEscaper {
    ghost shown = { escaped_view Html };

    #[inline(always)]
    fn put<W: TextWrite>(
        out: &mut W,
        view: View<'_>,
        wanted: Trait,
        spec: &Spec,
    ) -> Result<(), RenderFault> {
        put_characters(out, Escape::Html, view, wanted, spec)
    }

    #[inline(always)]
    fn put_text<W: TextWrite>(out: &mut W, text: &str) -> Result<(), RenderFault> {
        put_text_view(out, Escape::Html, text)
    }

    #[inline(always)]
    fn put_plainly<W: TextWrite>(out: &mut W, view: View<'_>) -> Result<(), RenderFault> {
        put_characters(out, Escape::Html, view, Trait::Display, &Spec::default())
    }
}

impl Escaper for CsvEscaper {
    ghost shown = { escaped_view Csv };

    #[inline(always)]
    fn put<W: TextWrite>(
        out: &mut W,
        view: View<'_>,
        wanted: Trait,
        spec: &Spec,
    ) -> Result<(), RenderFault> {
        put_characters(out, Escape::Csv, view, wanted, spec)
    }

    #[inline(always)]
    fn put_text<W: TextWrite>(out: &mut W, text: &str) -> Result<(), RenderFault> {
        put_text_view(out, Escape::Csv, text)
    }

    #[inline(always)]
    fn put_plainly<W: TextWrite>(out: &mut W, view: View<'_>) -> Result<(), RenderFault> {
        put_characters(out, Escape::Csv, view, Trait::Display, &Spec::default())
    }
}

impl Escaper for JsonEscaper {
    ghost shown = { escaped_view Json };

    #[inline(always)]
    fn put<W: TextWrite>(
        out: &mut W,
        view: View<'_>,
        wanted: Trait,
        spec: &Spec,
    ) -> Result<(), RenderFault> {
        put_view(out, Escape::Json, view, wanted, spec)
    }

    #[inline(always)]
    fn put_text<W: TextWrite>(out: &mut W, text: &str) -> Result<(), RenderFault> {
        put_text_view(out, Escape::Json, text)
    }

    #[inline(always)]
    fn put_plainly<W: TextWrite>(out: &mut W, view: View<'_>) -> Result<(), RenderFault> {
        put_characters(out, Escape::Json, view, Trait::Display, &Spec::default())
    }
}

impl Escaper for ShellEscaper {
    ghost shown = { escaped_view Shell };

    #[inline(always)]
    fn put<W: TextWrite>(
        out: &mut W,
        view: View<'_>,
        wanted: Trait,
        spec: &Spec,
    ) -> Result<(), RenderFault> {
        put_characters(out, Escape::Shell, view, wanted, spec)
    }

    #[inline(always)]
    fn put_text<W: TextWrite>(out: &mut W, text: &str) -> Result<(), RenderFault> {
        put_text_view(out, Escape::Shell, text)
    }

    #[inline(always)]
    fn put_plainly<W: TextWrite>(out: &mut W, view: View<'_>) -> Result<(), RenderFault> {
        put_characters(out, Escape::Shell, view, Trait::Display, &Spec::default())
    }
}
