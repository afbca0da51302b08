//! The whole text of a row, its values escaped.
ghost use Rattle.std.specs.Prelude.{◌≡◌, ◌<◌, IfSome};
ghost use Rattle.interpolator_border.specs.Answers.{FormatAnswers, Reported, ReportedCode};
ghost use Rattle.interpolator_border.specs.Escaped.{EscapedBy, TellsPlace, escape_numbered};
ghost use Rattle.interpolator_border.specs.Escaped.{misplaced_answer, no_escape_sentence, why_code};
ghost use Rattle.interpolator_border.specs.Fields.{field_shows};
ghost use Rattle.interpolator_escapes.specs.{Formats.escaped_shows, PlaceTexts.why_text};

use crate::answer::{Answer, coded};
use crate::bytes::text_of;
use crate::formatting::{format_text, reported_no_memory, reported_not_utf8};
use crate::row::FieldRow;
use interpolator::{Escape, Misplaced, PlaceError, Why};
use interpolator_escapes::{
    CsvEscaper, HtmlEscaper, JsonEscaper, LineEscaper, ShellEscaper, check_format,
};
use std::alloc::Global;

/// The code of a value that is out of place.
const MISPLACED: u32 = 11;

/// The code of a number that is no escape's.
const NO_ESCAPE: u32 = 12;

/// The escape of a number, if it is one's.
fn escape_numbered(number: u32) -> Option<Escape>
    ensures { result ≡ escape_numbered number }
{
    match number {
        1 => Some(Escape::Line),
        2 => Some(Escape::Html),
        3 => Some(Escape::Csv),
        4 => Some(Escape::Json),
        5 => Some(Escape::Shell),
        _ => None,
    }
}

/// Why a value is out of place, in a number.
fn why_code(why: Why) -> u32
    ensures { result ≡ why_code why }
{
    match why {
        Why::Value => 1,
        Why::Item => 2,
        Why::Join => 3,
        Why::Fill => 4,
    }
}

/// Why a value is out of place, in a sentence: that which `{why}` writes, without memory.
fn why_sentence(why: Why) -> &'static str
    ensures { result.now ≡ why_text why }
{
    match why {
        Why::Value => "this value is out of place",
        Why::Item => "an item of this list ends elsewhere than it began",
        Why::Join => "what is between two items of this list ends elsewhere than it began",
        Why::Fill => "the character that pads this list is structure",
    }
}

/// A value is out of place.
#[cold]
#[inline(never)]
fn reported_misplaced(misplaced: Misplaced, room: &mut [u8]) -> Answer
    ensures answer { result ≡ misplaced_answer misplaced }
    ensures room { Reported (why_text misplaced.why) room.old room.new }
{
    let reported = coded(MISPLACED, why_sentence(misplaced.why), room);
    Answer {
        detail: why_code(misplaced.why),
        place: misplaced.place,
        ..reported
    }
}

/// It is not known that all values stand.
fn reported_place(alloc: Global, error: &PlaceError, room: &mut [u8]) -> Answer
    ensures { TellsPlace error.now room.old room.new result }
{
    match *error {
        PlaceError::Misplaced(misplaced) => reported_misplaced(misplaced, room),
        PlaceError::NoMemory => reported_no_memory(alloc, room),
    }
}

/// The text of a format with a row, whose values stand, each escaped.
fn format_escaped<'a>(
    alloc: Global,
    escape: Escape,
    text: &str,
    row: FieldRow<'a>,
    room: &mut [u8],
) -> Answer
    ensures { FormatAnswers (escaped_shows escape field_shows) row.entry.fields.now
        row.entry.items.now text.now room.old room.new result }
{
    match escape {
        Escape::Line => format_text::<LineEscaper>(alloc, text, row, room),
        Escape::Html => format_text::<HtmlEscaper>(alloc, text, row, room),
        Escape::Csv => format_text::<CsvEscaper>(alloc, text, row, room),
        Escape::Json => format_text::<JsonEscaper>(alloc, text, row, room),
        Escape::Shell => format_text::<ShellEscaper>(alloc, text, row, room),
    }
}

/// The text of a format with a row, each value escaped, or which value is out of place.
fn place_and_format<'a>(
    alloc: Global,
    escape: Escape,
    text: &str,
    row: FieldRow<'a>,
    room: &mut [u8],
) -> Answer
    ensures { EscapedBy escape row.entry.fields.now row.entry.items.now text.now room.old room.new
        result }
{
    match check_format(alloc, escape, text) {
        Ok(_) => format_escaped(alloc, escape, text, row, room),
        Err(error) => reported_place(alloc, &error, room),
    }
}

/// As `place_and_format`, of a format that is given by its bytes.
fn escaped_by<'a>(
    alloc: Global,
    escape: Escape,
    format: &[u8],
    row: FieldRow<'a>,
    room: &mut [u8],
) -> Answer
    ensures { EscapedBy escape row.entry.fields.now row.entry.items.now format.now room.old room.new
        result }
{
    match text_of(format) {
        Some(text) => place_and_format(alloc, escape, text, row, room),
        None => reported_not_utf8(alloc, room),
    }
}

/// The text of a format with a row, each value escaped as the number says, if all of them stand in
/// places of that escape; else which is the first that does not. 0 is no escape: a value may stand
/// anywhere, and is written as it is.
pub fn escaped<'a>(
    alloc: Global,
    escape: u32,
    format: &[u8],
    row: FieldRow<'a>,
    room: &mut [u8],
) -> Answer
    ensures plain { escape ≡ 0 → FormatAnswers field_shows row.entry.fields.now
        row.entry.items.now format.now room.old room.new result }
    ensures escaped { IfSome (escape_numbered escape) (λ e. EscapedBy e row.entry.fields.now
        row.entry.items.now format.now room.old room.new result) }
    ensures unknown { 5 < escape → ReportedCode 12 no_escape_sentence room.old room.new result }
{
    if escape == 0 {
        return crate::formatting::format(alloc, format, row, room);
    }
    match escape_numbered(escape) {
        Some(escape) => escaped_by(alloc, escape, format, row, room),
        None => coded(NO_ESCAPE, "there is no such escape", room),
    }
}
