//! The functions that write a format, write its pieces, and check it.

ghost use Rattle.std.specs.Prelude.{◌≡◌, ◌+◌, ◌<◌, ◌≤◌, [], false, length, IfOk, Some, min};
ghost use Rattle.std.specs.Prelude.{option_map};
ghost use Rattle.std.specs.Str.{chars};
ghost use Rattle.interpolator_syntax.specs.Faults.{result_answer, fault, PlaceWithin};
ghost use Rattle.interpolator_syntax.specs.{Places.outermost, Nodes.nodes};
ghost use Rattle.interpolator_eval.specs.Meaning.Environments.{environment, cut};
ghost use Rattle.interpolator_eval.specs.{Escaping.shows_by, Meaning.AskedNames.asked_names};
ghost use Rattle.interpolator_eval.specs.{Meaning.Limits.IsWithin, Meaning.Meanings.means};
ghost use Rattle.interpolator_eval.specs.{Meaning.Outcomes.Outcome, Meaning.Work.text_work};
ghost use Rattle.interpolator_pieces.specs.Calls.{MakesText, WritesText};
ghost use Rattle.interpolator_pieces.specs.NodeChecks.{first_fault, text_faults};
ghost use Rattle.interpolator_pieces.specs.{NodeCosts.text_cost, declared.cost.Limits.Limits};
ghost use Rattle.interpolator_pieces.specs.Stored.{nodes_of};
ghost use Rattle.interpolator_render.specs.Writers.{as_writer, plain};

use crate::piece::Piece;
use crate::stored_source::Stored;
use crate::text_check::check_text;
use interpolator_eval::{
    Context, Environment, Escaper, FormatSource, PieceCount, Sink, Unescaped, write_source,
    write_uncounted,
};
use interpolator_render::{TextBuffer, TextWrite};
use interpolator_syntax::{Cursor, Error};
use std::alloc::{AllocError, Global};
use std::marker::Brand;
use std::sync::ledger::{Blank, Ledger};

/// Writes what the format means in the context, up to its first fault.
///
/// The pieces of the format are read once, from left to right, and written as they come: `{{` as
/// `{`, `}}` as `}`, `{name}` as the text of the value under the name, and every other character as
/// it is. `{name:i}` writes the items of a list one after the other: each displayed plainly or, if
/// a group `(..)` follows, by the format in it, in which the empty name is the item. A second group
/// is written between each two items.
///
/// Under a width the text of a list is first made whole in a buffer and then padded; if there is a
/// fault in it, nothing of the list is written. Memory is taken for such a buffer, before anything
/// of its argument is written, and for the name in a `MissingValue`; and for nothing else. If the
/// writer has a limit, its [`room`](TextWrite::room) when the list begins also limits the buffer: a
/// longer list is not made whole, since the writer would refuse it.
///
/// # Errors
///
/// - `Parse`: an argument is broken, or asks for a list with a precision, a sign, `#` or the zero
///   flag. The text before it was written.
/// - `MissingValue`: the context has nothing under the name.
/// - `MissingTraitImpl`: the value has no slot for the trait, or no text under it.
/// - `Fmt`: a value failed, or the writer refused. If the writer refused a literal character, the
///   place is that of the first one that was not appended; if it refused a value or a padded list,
///   the place is the byte after the argument's spec.
/// - `NoMemory`: there was no memory for the name of a missing value or for the text of a padded
///   list, or that text has more bytes than the writer's room.
///
/// Every place counts bytes from the beginning of the format, and is at most its length.
///
/// # Example
///
/// ```text
/// write(alloc, &mut out, "Hello {name}, {{n}} is {n} }", &context)?;
/// // with `Ann` under `name` and -7 under `n`: Hello Ann, {n} is -7 }
/// write(alloc, &mut out, "{l:i(<{}>)(, )}", &context)?;
/// // with the list of 1, 2 and 3 under `l`: <1>, <2>, <3>
/// ```
pub fn write<W: TextWrite, C: Context>(
    alloc: Global,
    out: &mut W,
    format: &str,
    context: &C,
) -> Result<(), Error>
    ensures outcome { Outcome
        (means C.Object.shows (environment (C.finds context.now)) (outermost (chars format.now)))
        (W.written out.old) (W.written out.new) (result_answer result) }
    ensures asked { let a = outermost (chars format.now) in Outcome
        (means C.Object.shows (cut (environment (C.finds context.now)) (asked_names a)) a)
        (W.written out.old) (W.written out.new) (result_answer result) }
    ensures place { PlaceWithin (length format.now) (result_answer result) }
{
    write_by::<W, C, Unescaped>(alloc, out, format, context)
}

/// Writes what the format means in the context, as [`write`] does, but the text of each value as
/// the escaper writes it.
#[tactic(auto, using(interpolator_eval::proofs::MeaningLemmas::SinkLemmas::writer_stays))]
#[inline(always)]
pub fn write_by<W: TextWrite, C: Context, E: Escaper>(
    alloc: Global,
    out: &mut W,
    format: &str,
    context: &C,
) -> Result<(), Error>
    ensures { WritesText (shows_by E.shown C.Object.shows) (C.finds context.now) format.now
        (W.written out.old) (W.written out.new) (result_answer result) }
{
    let text = Cursor {
        place: 0,
        rest: format,
    };
    let mut sink = Sink::Writer(out);
    let environment = Environment::outermost(alloc, context);
    let answer = write_uncounted::<W, C, E, Cursor<'_>>(&mut sink, &environment, text);
    sink.into_writer();
    answer
}

/// The most bytes beyond the length of its format for which a buffer has room at the beginning, for
/// the texts of values.
const MOST_MORE: usize = 256;

/// An empty buffer with room for the bytes of the format and, up to a bound, as many again.
#[tactic(auto, using(interpolator_syntax::proofs::CharacterLemmas::no_text))]
pub fn buffer_for(alloc: Global, format: &str) -> Result<TextBuffer, AllocError>
    ensures empty { IfOk result
        (λ buffer. as_writer buffer ≡ record { text = []; refused = false; origin = plain }) }
    ensures room { IfOk result (λ buffer. length format.now ≤ buffer.room) }
    ensures most { IfOk result
        (λ buffer. buffer.room ≤ length format.now + min (length format.now) 256) }
{
    let len = format.len();
    let text = String::with_capacity(alloc, len.saturating_add(len.min(MOST_MORE)))?;
    Ok(TextBuffer::from_string(text))
}

/// A format that was read: its text and its pieces.
#[derive(Clone, Copy)]
pub struct Parsed<'a> {
    pub text: &'a str,
    pub pieces: &'a [Piece],
}

/// Writes what the stored pieces of a format mean in the context, and counts the pieces that it
/// goes through: no more than the format's work, and so, with values within limits, no more than
/// its cost.
#[tactic(auto, using(interpolator_eval::proofs::MeaningLemmas::SinkLemmas::writer_stays))]
pub fn write_counted<W: TextWrite, C: Context, E: Escaper, L: Ledger>(
    alloc: Global,
    out: &mut W,
    format: Parsed<'_>,
    context: &C,
    count: &mut PieceCount<L>,
) -> Result<(), Error>
    requires pieces { nodes_of format.text.now format.pieces.now
        ≡ nodes (outermost (chars format.text.now)) }
    ensures written { WritesText (shows_by E.shown C.Object.shows)
        (C.finds context.now) format.entry.text.now
        (W.written out.old) (W.written out.new) (result_answer result) }
    ensures visited { count.new ≤ count.old + (text_work (shows_by E.shown C.Object.shows)
        (environment (C.finds context.now))
        (outermost (chars format.entry.text.now))).pieces }
    ensures exact { IfOk result (λ _. count.new ≡ count.old + (text_work
        (shows_by E.shown C.Object.shows)
        (environment (C.finds context.now))
        (outermost (chars format.entry.text.now))).pieces) }
    ensures within { (limits : Limits)
        → IsWithin (shows_by E.shown C.Object.shows) limits.text limits.items (environment
        (C.finds context.now))
        (asked_names (outermost (chars format.entry.text.now)))
        → count.new
        ≤ count.old + (text_cost limits (outermost (chars format.entry.text.now))).pieces }
{
    let mut sink = Sink::Writer(out);
    let source = Stored {
        text: format.text,
        pieces: format.pieces,
    };
    let environment = Environment::outermost(alloc, context);
    let mut scratch = source.scratch_list();
    let answer = write_source::<W, C, E, Stored<'_>, L>(
        &mut sink,
        &environment,
        source,
        &mut scratch,
        count,
    );
    sink.into_writer();
    answer
}

/// Writes what the stored pieces of a format mean in the context, counted from a blank ledger.
#[inline(always)]
fn write_on<W: TextWrite, C: Context, E: Escaper, L: Ledger>(
    alloc: Global,
    out: &mut W,
    format: Parsed<'_>,
    context: &C,
    blank: Blank,
) -> Result<(), Error>
    requires name { blank.name ≡ L.name }
    requires parts { blank.parts ≡ L.parts }
    requires some { 0 < blank.parts }
    requires pieces { nodes_of format.text.now format.pieces.now
        ≡ nodes (outermost (chars format.text.now)) }
    ensures { WritesText (shows_by E.shown C.Object.shows)
        (C.finds context.now) format.entry.text.now
        (W.written out.old) (W.written out.new) (result_answer result) }
{
    let mut count = PieceCount::<L>::open(blank);
    write_counted::<W, C, E, L>(alloc, out, format, context, &mut count)
}

/// Writes what the stored pieces of a format mean in the context.
pub fn write_pieces<W: TextWrite, C: Context, E: Escaper>(
    alloc: Global,
    out: &mut W,
    format: Parsed<'_>,
    context: &C,
) -> Result<(), Error>
    requires pieces { nodes_of format.text.now format.pieces.now
        ≡ nodes (outermost (chars format.text.now)) }
    ensures { WritesText (shows_by E.shown C.Object.shows)
        (C.finds context.now) format.entry.text.now
        (W.written out.old) (W.written out.new) (result_answer result) }
{
    write_on::<W, C, E, Brand>(alloc, out, format, context, Blank::new(1))
}

/// The text that the stored pieces of a format mean in the context, in a new `String`.
pub fn format_pieces<C: Context, E: Escaper>(
    alloc: Global,
    format: Parsed<'_>,
    context: &C,
) -> Result<String, Error>
    requires pieces { nodes_of format.text.now format.pieces.now
        ≡ nodes (outermost (chars format.text.now)) }
    ensures { MakesText (shows_by E.shown C.Object.shows)
        (C.finds context.now) format.entry.text.now result }
{
    let mut out = buffer_for(alloc, format.text)?;
    let answer = write_pieces::<TextBuffer, C, E>(alloc, &mut out, format, context);
    if out.refused() {
        return Err(Error::NoMemory);
    }
    answer?;
    Ok(out.into_string())
}

/// Reports the first fault that a format has by itself, as
/// `Template::check` does for a format that was read.
///
/// If it returns `Ok`, the format never fails with `Parse` or `UnsupportedOption`, whatever its
/// context.
///
/// # Errors
///
/// `Parse` and `UnsupportedOption`, each at its place in the text. It takes no memory.
///
/// # Example
///
/// ```text
/// check(alloc, "{a:i({z)}{b")?    // Err(Parse(FormatSpecUnclosed(6)))
/// ```
pub fn check(_alloc: Global, text: &str) -> Result<(), Error>
    ensures first { result_answer result
        ≡ option_map fault (first_fault (text_faults (outermost (chars text.now)))) }
    ensures place { PlaceWithin (length text.now) (result_answer result) }
{
    let start = Cursor {
        place: 0,
        rest: text,
    };
    check_text(start)
}
