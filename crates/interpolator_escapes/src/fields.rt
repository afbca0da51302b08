//! Whole fields of CSV, written.
ghost use Rattle.std.specs.Prelude.{◌≡◌, ◌∷◌, ◌++◌, [], true};
ghost use Rattle.std.specs.{List.flat_map, Str.chars};
ghost use Rattle.interpolator_render.specs.Texts.{Renders, has_text, view_text};
ghost use Rattle.interpolator_render.specs.Views.{IsInRange, shown_by};
ghost use Rattle.interpolator_render.specs.Writers.{Puts, Writes};
ghost use Rattle.interpolator_escapes.specs.Fields.{field_text, field_view, record_view};
ghost use Rattle.interpolator_escapes.specs.{Escapes.csv_escape, Plain.is_debug};
ghost use Rattle.interpolator_escapes.specs.Records.{quoted_field};

use crate::escape::Escape;
use crate::escaped::put_escaped;
use crate::plain::is_debug;
use crate::views::{put_characters, put_text_view};
use interpolator_eval::Escaper;
use interpolator_render::{Refusal, RenderFault, Spec, TextWrite, Trait, View};

/// Writes a double quote.
#[tactic(auto, using(interpolator_render::proofs::LayoutLemmas::one_write))]
fn put_quote<W: TextWrite>(out: &mut W) -> Result<(), Refusal>
    ensures { Puts (W.written out.old) (34 ∷ []) result (W.written out.new) }
{
    out.write_char('"')
}

/// Writes a text with its quotes doubled, and the quote after it.
#[tactic(auto, using(interpolator_render::proofs::LayoutLemmas::run_outcomes))]
fn put_field_to_quote<W: TextWrite>(out: &mut W, text: &str) -> Result<(), Refusal>
    ensures { Writes (W.written out.old) (flat_map csv_escape (chars text.now) ++ 34 ∷ []) result
        (W.written out.new) }
{
    put_escaped(out, Escape::Csv, text)?;
    put_quote(out)
}

/// Writes a text between quotes.
fn put_quoted<W: TextWrite>(out: &mut W, text: &str) -> Result<(), Refusal>
    ensures { Writes (W.written out.old) (quoted_field (chars text.now)) result
        (W.written out.new) }
{
    put_quote(out)?;
    put_field_to_quote(out, text)
}

/// Writes a text as a whole field.
fn put_text_field<W: TextWrite>(out: &mut W, text: &str) -> Result<(), RenderFault>
    ensures { Renders (has_text (quoted_field (chars text.now)))
        (W.written out.old) result (W.written out.new) }
{
    match put_quoted(out, text) {
        Ok(()) => Ok(()),
        Err(_) => Err(RenderFault::Refused),
    }
}

/// Writes a character as a whole field.
fn put_character_field<W: TextWrite>(out: &mut W, c: char) -> Result<(), RenderFault>
    ensures { Renders (has_text (quoted_field (c ∷ [])))
        (W.written out.old) result (W.written out.new) }
{
    let mut buffer = [0; 4];
    put_text_field(out, c.encode_utf8(&mut buffer))
}

/// Writes a view as a whole field.
fn put_field<W: TextWrite>(
    out: &mut W,
    view: View<'_>,
    wanted: Trait,
    spec: &Spec,
) -> Result<(), RenderFault>
    requires in_range { IsInRange (shown_by view) }
    requires debug { is_debug wanted ≡ true }
    ensures { Renders
        (view_text (field_view (field_text (shown_by view.entry)) (shown_by view.entry) spec.now)
        wanted spec.now)
        (W.written out.old) result (W.written out.new) }
{
    match view {
        View::Text(text) => put_text_field(out, text),
        View::Plain(text) => put_text_field(out, text),
        View::Character(c) => put_character_field(out, c),
        _ => put_characters(out, Escape::Csv, view, wanted, spec),
    }
}

/// Writes each value under `?` as a whole field of CSV, and any other as
/// [`CsvEscaper`](crate::CsvEscaper) does.
pub struct RecordEscaper;

impl Escaper for RecordEscaper {
    ghost shown = { record_view };

    #[inline(always)]
    fn put<W: TextWrite>(
        out: &mut W,
        view: View<'_>,
        wanted: Trait,
        spec: &Spec,
    ) -> Result<(), RenderFault> {
        if is_debug(wanted) {
            return put_field(out, view, wanted, spec);
        }
        put_characters(out, Escape::Csv, view, wanted, spec)
    }

    #[inline(always)]
    fn put_text<W: TextWrite>(out: &mut W, text: &str) -> Result<(), RenderFault> {
        put_text_view(out, Escape::Csv, text)
    }

    #[inline(always)]
    fn put_plainly<W: TextWrite>(out: &mut W, view: View<'_>) -> Result<(), RenderFault> {
        put_characters(out, Escape::Csv, view, Trait::Display, &Spec::default())
    }
}
