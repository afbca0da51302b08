//! The text of a format in a new `String`.

ghost use Rattle.std.specs.Prelude.{◌≡◌, ◌⊎◌, Some};
ghost use Rattle.std.specs.Str.{chars};
ghost use Rattle.interpolator_syntax.specs.{Places.outermost, Faults.result_answer};
ghost use Rattle.interpolator_syntax.specs.{Faults.no_memory};
ghost use Rattle.interpolator_eval.specs.Meaning.CodeEnvironments.{environment_of};
ghost use Rattle.interpolator_eval.specs.Meaning.{Meanings.forest_means, Meanings.means};
ghost use Rattle.interpolator_eval.specs.Meaning.{ScannedLists.ListAt, ScannedLists.text_forest};
ghost use Rattle.interpolator_eval.specs.Meaning.{Sinks.SameEnd, Sinks.Writes, Sources.from_list};
ghost use Rattle.interpolator_eval.specs.Escaping.{shows_by};
ghost use Rattle.interpolator_pieces.specs.Calls.{MakesText, WritesText};

use crate::functions::buffer_for;
use crate::parse::parse_pieces;
use crate::piece_text::cut;
use crate::stored_source::Stored;
use interpolator_eval::{
    Context, Environment, Escaper, Sink, Unescaped, write_before_list, write_uncounted,
};
use interpolator_render::{TextBuffer, TextWrite};
use interpolator_syntax::{Cursor, Error};
use std::alloc::Global;

/// The format's text in a new `String`.
///
/// The text is written while the format is read, up to the first list; from there on the format is
/// read into its pieces first, which are then written. So the format of an item is read once, and
/// not for each item. To write into a buffer of your own, use [`write`](crate::write); to write a
/// format often, use a `Template`.
///
/// # Errors
///
/// Those of `write` with the same format and context, where `Fmt` means that a value failed; and
/// `NoMemory` if there is no memory for the text, for the room that it has at the beginning, or for
/// the pieces of the format from its first list on.
///
/// # Example
///
/// ```text
/// let text = format(alloc, "{{{x}}}", &context)?; // with 1 under `x`: {1}
/// ```
pub fn format<C: Context>(alloc: Global, format: &str, context: &C) -> Result<String, Error>
    ensures { MakesText C.Object.shows (C.finds context.now) format.now result }
{
    format_by::<C, Unescaped>(alloc, format, context)
}

/// The format's text in a new `String`, as [`format`] makes it, but the text of each value as the
/// escaper writes it.
#[inline(always)]
pub fn format_by<C: Context, E: Escaper>(
    alloc: Global,
    format: &str,
    context: &C,
) -> Result<String, Error>
    ensures { MakesText (shows_by E.shown C.Object.shows) (C.finds context.now) format.now result }
{
    let mut out = buffer_for(alloc, format)?;
    let answer = write_once::<TextBuffer, C, E>(alloc, &mut out, format, context);
    if out.refused() {
        return Err(Error::NoMemory);
    }
    answer?;
    Ok(out.into_string())
}

/// Writes what the format means in the context, or returns that there was no memory for its pieces.
#[tactic(auto, using(interpolator_eval::proofs::MeaningLemmas::SinkLemmas::writer_stays))]
fn write_once<W: TextWrite, C: Context, E: Escaper>(
    alloc: Global,
    out: &mut W,
    format: &str,
    context: &C,
) -> Result<(), Error>
    ensures { (WritesText (shows_by E.shown C.Object.shows) (C.finds context.now) format.now
        (W.written out.old) (W.written out.new) (result_answer result))
        ⊎ (result_answer result ≡ Some no_memory) }
{
    let mut sink = Sink::Writer(out);
    let answer = write_to_end::<W, C, E>(
        alloc,
        &mut sink,
        &Environment::outermost(alloc, context),
        format,
    );
    sink.into_writer();
    answer
}

/// Writes the format while it is read, up to its first list, and what is left by its pieces.
fn write_to_end<'a, W: TextWrite, C: Context, E: Escaper>(
    alloc: Global,
    sink: &mut Sink<'_, W>,
    environment: &Environment<'a, C, C::Object>,
    format: &str,
) -> Result<(), Error>
    ensures outcome { (Writes W.written
        (means (shows_by E.shown C.Object.shows) (environment_of C.finds environment.now)
        (outermost (chars format.now)))
        sink.old sink.new (result_answer result))
        ⊎ (result_answer result ≡ Some no_memory) }
    ensures same { SameEnd sink.old sink.new }
{
    let text = Cursor {
        place: 0,
        rest: format,
    };
    match write_before_list::<W, C, E>(sink, environment, text)? {
        Some(place) => write_from_list::<W, C, E>(alloc, sink, environment, format, place),
        None => Ok(()),
    }
}

/// Reads the format into its pieces from its first list on, which begins at `place`, and writes
/// these. It is not inlined, so that a text without a list takes no step for it.
#[inline(never)]
fn write_from_list<'a, W: TextWrite, C: Context, E: Escaper>(
    alloc: Global,
    sink: &mut Sink<'_, W>,
    environment: &Environment<'a, C, C::Object>,
    format: &str,
    place: usize,
) -> Result<(), Error>
    requires list { ListAt (outermost (chars format.now)) place }
    ensures outcome { (Writes W.written
        (forest_means (shows_by E.shown C.Object.shows) (environment_of C.finds environment.now)
        (from_list (text_forest (outermost (chars format.now)))))
        sink.old sink.new (result_answer result))
        ⊎ (result_answer result ≡ Some no_memory) }
    ensures same { SameEnd sink.old sink.new }
{
    let start = Cursor {
        place,
        rest: cut(format, place, format.len()),
    };
    let pieces = parse_pieces(alloc, start)?;
    let source = Stored {
        text: format,
        pieces: &pieces,
    };
    write_uncounted::<W, C, E, Stored<'_>>(sink, environment, source)
}
