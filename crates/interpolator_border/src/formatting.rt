//! The whole text of a row.
ghost use Rattle.std.specs.Prelude.{IfOk, IsUtf8};
ghost use Rattle.interpolator_border.specs.Answers.{FormatAnswers, ReportedBy, ReportedNotUtf8};
ghost use Rattle.interpolator_border.specs.Fields.{field_shows};
ghost use Rattle.interpolator_border.specs.Measures.{TellsText, TellsWhy, measured};
ghost use Rattle.interpolator_eval.specs.Escaping.{shows_by};
ghost use Rattle.interpolator_syntax.specs.Faults.{no_memory};

use crate::answer::{Answer, Failure, put, reported_failure, well};
use crate::bytes::text_of;
use crate::measured::Measured;
use crate::row::FieldRow;
use crate::writing::write_row;
use interpolator::{Error, TextWrite};
use interpolator_eval::{Escaper, Unescaped};
use std::alloc::{AllocError, Global};

/// The most bytes, beyond those of the format, for which a new buffer has room at first.
pub(crate) const MOST_MORE: usize = 256;

/// So many zeros.
fn zeros(alloc: Global, count: usize) -> Result<Vec<u8>, AllocError>
    ensures { IfOk result (λ zeros. IsUtf8 zeros.items) }
{
    let mut zeros = Vec::with_capacity(alloc, count)?;
    zeros.resize(count, 0u8)?;
    Ok(zeros)
}

/// Says that memory was refused.
#[cold]
#[inline(never)]
pub(crate) fn reported_no_memory(alloc: Global, room: &mut [u8]) -> Answer
    ensures { ReportedBy no_memory 0 room.old room.new result }
{
    reported_failure(alloc, &Failure::Fault(Error::NoMemory), room)
}

/// Says that a format is not UTF-8.
#[cold]
#[inline(never)]
pub(crate) fn reported_not_utf8(alloc: Global, room: &mut [u8]) -> Answer
    ensures { ReportedNotUtf8 room.old room.new result }
{
    reported_failure(alloc, &Failure::NotUtf8, room)
}

/// The answer for a text, which comes to the front of the room if it fits.
fn reported_text(alloc: Global, made: &Measured, room: &mut [u8]) -> Answer
    ensures { TellsText (measured made.now).text room.old room.new result }
{
    let length = made.len();
    if length > room.len() {
        return well(length);
    }
    match made.whole() {
        Some(text) => {
            put(room, text.as_bytes());
            well(length)
        }
        None => reported_no_memory(alloc, room),
    }
}

/// The answer for a text that is not whole. A writer that refused lacked memory.
#[cold]
#[inline(never)]
fn reported_why(alloc: Global, failure: &Failure, refused: bool, room: &mut [u8]) -> Answer
    ensures { TellsWhy refused failure.now room.old room.new result }
{
    if refused {
        return reported_failure(alloc, &Failure::Fault(Error::NoMemory), room);
    }
    reported_failure(alloc, failure, room)
}

/// The text of a format with a row, its values by the escaper, or the fault's sentence, at the front of
/// the room, if it fits. A text that does not fit is not made, but for the beginning that does. At
/// first there is memory for the format and, up to a bound, as many bytes again.
#[inline(always)]
pub(crate) fn format_text<'a, E: Escaper>(
    alloc: Global,
    text: &str,
    row: FieldRow<'a>,
    room: &mut [u8],
) -> Answer
    ensures { FormatAnswers (shows_by E.shown field_shows) row.entry.fields.now row.entry.items.now
        text.now room.old room.new result }
{
    let first = text.len().saturating_add(text.len().min(MOST_MORE));
    let Ok(places) = zeros(alloc, first.min(room.len())) else {
        return reported_no_memory(alloc, room);
    };
    let mut out = Measured::new(places, room.len());
    match write_row::<Measured, E>(alloc, &mut out, text, row) {
        Ok(()) => reported_text(alloc, &out, room),
        Err(failure) => reported_why(alloc, &failure, out.refused(), room),
    }
}

/// The text of a format with a row, or the fault's sentence, at the front of the room, if it fits.
pub fn format<'a>(alloc: Global, format: &[u8], row: FieldRow<'a>, room: &mut [u8]) -> Answer
    ensures { FormatAnswers field_shows row.entry.fields.now row.entry.items.now format.now room.old
        room.new result }
{
    match text_of(format) {
        Some(text) => format_text::<Unescaped>(alloc, text, row, room),
        None => reported_not_utf8(alloc, room),
    }
}
