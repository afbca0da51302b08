//! A row written into a room.
ghost use Rattle.std.specs.Prelude.{◌≡◌, ◌≤◌, drop, length, map, MatchResult, Ok, Err};
ghost use Rattle.interpolator_border.specs.declared.answer.Failure.TheVariants.{Fault};
ghost use Rattle.interpolator_border.specs.Answers.{TellsFault, TellsResult, WriteAnswers};
ghost use Rattle.interpolator_border.specs.Answers.{WritesKnown, WritesRow};
ghost use Rattle.interpolator_border.specs.Fields.{field_shows, field_slots, lie_in_levels};
ghost use Rattle.interpolator_border.specs.Fields.{lists_lie};
ghost use Rattle.interpolator_eval.specs.{Escaping.shows_by, Slots.slots_of};
ghost use Rattle.interpolator_syntax.specs.Faults.{answer_of};

use crate::answer::{Answer, Failure, put, reported_failure, reported_fault, reported_full, well};
use crate::bytes::text_of;
use crate::field::Field;
use crate::levels::{Known, LEVELS, all_lie_within, next_level, settled};
use crate::row::{FieldRow, Row};
use interpolator::{Bounded, Error, Formattable, TextWrite};
use interpolator_eval::{Escaper, Unescaped};
use interpolator_pieces::write_by;
use std::alloc::Global;

/// Writes a format with a row of whose items this much is known.
#[tactic(auto, using(crate::proofs::LevelLemmas::next_known))]
pub(crate) fn write_levels<'a, W: TextWrite, E: Escaper>(
    alloc: Global,
    out: &mut W,
    format: &str,
    row: FieldRow<'a>,
    known: Known<'a>,
) -> Result<(), Failure>
    requires within { known.left ≤ length row.items.now }
    requires known { let trees = map slots_of known.slots.now in
        drop known.left trees ≡ drop known.left (map (field_slots trees) row.items.now) }
    ensures { WritesRow (shows_by E.shown field_shows)
        (lie_in_levels known.entry.levels row.entry.items.now known.entry.left)
        row.entry.fields.now row.entry.items.now format.now (W.written out.old) (W.written out.new)
        result }
{
    let Known {
        slots,
        left,
        levels,
    } = known;
    if left == 0 {
        return write_known::<W, E>(alloc, out, format, row.fields, slots);
    }
    if levels == 0 {
        return Err(Failure::Lists);
    }
    let from = settled(left, row.items);
    match next_level(alloc, row.items, slots, left, from) {
        Ok(level) => {
            let deeper = Known {
                slots: &level,
                left: from,
                levels: levels - 1,
            };
            let row = FieldRow {
                fields: &*row.fields,
                items: &*row.items,
            };
            write_levels::<W, E>(alloc, out, format, row, deeper)
        }
        Err(_) => Err(Failure::Fault(Error::NoMemory)),
    }
}

/// Writes a format with a row whose items stand for these.
#[inline(always)]
fn write_known<'a, W: TextWrite, E: Escaper>(
    alloc: Global,
    out: &mut W,
    format: &str,
    fields: &'a [Field<'a>],
    known: &'a [Formattable<'a, Field<'a>>],
) -> Result<(), Failure>
    ensures { WritesKnown (shows_by E.shown field_shows) fields.now (map slots_of known.now)
        format.now (W.written out.old) (W.written out.new) result }
{
    let row = Row {
        fields,
        items: known,
    };
    let written = write_by::<W, Row<'a>, E>(alloc, out, format, &row);
    // The answer is moved only if there is a fault.
    if written.is_ok() {
        return Ok(());
    }
    failing(written)
}

/// A fault as why there is no text.
#[cold]
#[inline(never)]
pub(crate) fn failing(written: Result<(), Error>) -> Result<(), Failure>
    ensures { MatchResult written (λ ok. result ≡ Ok ok) (λ e. result ≡ Err (Fault e)) }
{
    match written {
        Ok(()) => Ok(()),
        Err(error) => Err(Failure::Fault(error)),
    }
}

/// Writes a format with a row, its values by the escaper, unless a list lies where it may not.
#[tactic(auto, using(crate::proofs::LevelLemmas::nothing_known))]
pub(crate) fn write_row<'a, W: TextWrite, E: Escaper>(
    alloc: Global,
    out: &mut W,
    format: &str,
    row: FieldRow<'a>,
) -> Result<(), Failure>
    ensures { WritesRow (shows_by E.shown field_shows)
        (lists_lie row.entry.fields.now row.entry.items.now) row.entry.fields.now
        row.entry.items.now format.now (W.written out.old) (W.written out.new) result }
{
    if !all_lie_within(row.fields, row.items) {
        return Err(Failure::Lists);
    }
    if row.items.is_empty() {
        return write_known::<W, E>(alloc, out, format, row.fields, &[]);
    }
    let none = Known {
        slots: &[],
        left: row.items.len(),
        levels: LEVELS,
    };
    write_levels::<W, E>(alloc, out, format, row, none)
}

/// The answer for a fault after the bytes of the text that were written.
fn reported_beside(
    alloc: Global,
    error: &Error,
    refused: bool,
    length: usize,
    sentence: &mut [u8],
) -> Answer
    ensures { TellsFault refused length (answer_of error.now) sentence.old sentence.new result }
{
    if refused {
        return reported_full(error.place().unwrap_or(0), length, sentence);
    }
    reported_fault(alloc, error, length, sentence)
}

/// The answer beside the bytes of the text that were written.
fn reported_written(
    alloc: Global,
    written: &Result<(), Failure>,
    refused: bool,
    length: usize,
    sentence: &mut [u8],
) -> Answer
    ensures { TellsResult refused length written.now sentence.old sentence.new result }
{
    match written {
        Ok(()) => well(length),
        Err(Failure::Fault(error)) => reported_beside(alloc, error, refused, length, sentence),
        Err(failure) => reported_failure(alloc, failure, sentence),
    }
}

/// Writes the text of a format with a row into a room, up to its first fault.
fn write_text<'a>(
    alloc: Global,
    text: &str,
    row: FieldRow<'a>,
    room: &mut [u8],
    sentence: &mut [u8],
) -> Answer
    ensures { WriteAnswers row.entry.fields.now row.entry.items.now text.now room.old room.new sentence.old
        sentence.new result }
{
    let Ok(mut out) = Bounded::with_room(alloc, room.len()) else {
        return reported_failure(alloc, &Failure::Fault(Error::NoMemory), sentence);
    };
    let written = write_row::<Bounded, Unescaped>(alloc, &mut out, text, row);
    let made = out.as_str();
    put(room, made.as_bytes());
    reported_written(alloc, &written, out.refused(), made.len(), sentence)
}

/// Writes the text of a format with a row into a room, up to its first fault, whose sentence comes
/// into a second room.
pub fn write<'a>(
    alloc: Global,
    format: &[u8],
    row: FieldRow<'a>,
    room: &mut [u8],
    sentence: &mut [u8],
) -> Answer
    ensures { WriteAnswers row.entry.fields.now row.entry.items.now format.now room.old room.new sentence.old
        sentence.new result }
{
    match text_of(format) {
        Some(text) => write_text(alloc, text, row, room, sentence),
        None => reported_failure(alloc, &Failure::NotUtf8, sentence),
    }
}
