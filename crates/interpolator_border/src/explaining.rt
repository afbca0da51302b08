//! A fault as a compiler shows it.
ghost use Rattle.interpolator_syntax.specs.Faults.{answer_of};
ghost use Rattle.interpolator_border.specs.Checks.{ExplainAnswers, PictureMade, TellsPicture};

use crate::answer::{Answer, Failure, pictured, reported_failure, well};
use crate::bytes::text_of;
use crate::checking::{fault_at, find_faults};
use crate::row::FieldRow;
use interpolator::{Error, Source as Named, explain_in};
use std::alloc::Global;

/// Where a format is: a text, such as a file or a line of one, in which it begins.
#[repr(C)]
#[derive(Clone, Copy)]
pub struct Source<'a> {
    /// What the text is called, such as the name of a file, in UTF-8.
    pub name: &'a [u8],
    /// The text, in UTF-8.
    pub text: &'a [u8],
    /// The number of the text's first line: 1 for a whole file.
    pub first_line: usize,
    /// The byte of the text at which the format begins.
    pub start: usize,
}

/// A format, and where it is.
#[derive(Clone, Copy)]
pub struct Located<'a> {
    /// The text in which the format is.
    pub source: &'a Source<'a>,
    /// The format.
    pub format: &'a [u8],
}

/// The picture of a fault of a format.
fn picture(alloc: Global, located: Located<'_>, error: &Error) -> Result<String, Failure>
    ensures { PictureMade located.entry.source.now located.entry.format.now (answer_of error.now)
        result }
{
    let source = located.source;
    let Some(name) = text_of(source.name) else {
        return Err(Failure::NotUtf8);
    };
    let Some(text) = text_of(source.text) else {
        return Err(Failure::NotUtf8);
    };
    let Some(format) = text_of(located.format) else {
        return Err(Failure::NotUtf8);
    };
    let named = Named {
        name,
        first_line: source.first_line,
        text,
        start: source.start,
        format,
    };
    match explain_in(alloc, &named, error) {
        Ok(picture) => Ok(picture),
        Err(error) => Err(Failure::Fault(error)),
    }
}

/// Tells a fault with its picture.
fn tell_picture(alloc: Global, located: Located<'_>, error: &Error, room: &mut [u8]) -> Answer
    ensures { TellsPicture located.entry.source.now located.entry.format.now (answer_of error.now)
        room.old room.new result }
{
    match picture(alloc, located, error) {
        Ok(picture) => pictured(error, picture.as_str(), room),
        Err(failure) => reported_failure(alloc, &failure, room),
    }
}

/// The fault of that number, from 0 on, of those that [`faults`](crate::faults) finds, as a compiler
/// shows it. Code 0 means that there are no more than `which`.
pub fn explain<'a>(
    alloc: Global,
    located: Located<'_>,
    row: FieldRow<'a>,
    which: usize,
    room: &mut [u8],
) -> Answer
    ensures { ExplainAnswers located.entry.source.now row.entry.fields.now row.entry.items.now which
        located.entry.format.now room.old room.new result }
{
    match find_faults(alloc, located.format, row) {
        Ok(found) => match fault_at(&found, which) {
            Some(error) => tell_picture(alloc, located, error, room),
            None => well(0),
        },
        Err(failure) => reported_failure(alloc, &failure, room),
    }
}
