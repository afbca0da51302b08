//! The format of a message, which may go on on the lines after its own.

ghost use Rattle.std.specs.Prelude.{◌≡◌, IfOk, IfErr, Some, string_bytes};
ghost use Rattle.interpolator.specs.Faults.{answer_of, no_memory};
ghost use Rattle.catalogue.specs.Files.{as_line};
ghost use Rattle.std.specs.List.{after_first};
ghost use Rattle.catalogue.specs.Formats.{text_on_line, format_of, reported_in, report_of_place};
ghost use Rattle.catalogue.specs.Formats.{written_of};
ghost use Rattle.words.specs.Words.{is_equals};

use crate::files::Line;
use crate::reports::reported_at;
use folds::{ReadError, place_of, read, spot_of, written};
use interpolator::{Error, Source, Template, explain_place};
use std::alloc::{AllocError, Global};

/// What comes after the first `=` of a line.
fn after_equals(text: &str) -> &str
    ensures { result.now ≡ after_first is_equals text.now }
{
    match text.split_once('=') {
        Some((_, rest)) => rest,
        None => "",
    }
}

/// What the line of a message writes of its format.
fn text_on_line(text: &str) -> &str
    ensures { result.now ≡ text_on_line text.now }
{
    after_equals(text).trim_start()
}

/// What the lines of a message write of its format.
fn written_of(alloc: Global, line: &Line<'_, '_>) -> Result<String, AllocError>
    ensures { IfOk result (λ all. string_bytes all ≡ written_of (as_line line.now)) }
{
    written(alloc, text_on_line(line.text), line.rest)
}

/// The format of a line's message, or the byte of what its lines write at which a backslash is
/// wrong.
pub fn format_of(alloc: Global, line: &Line<'_, '_>) -> Result<Result<Template, usize>, Error>
    ensures format { IfOk result (λ format. format ≡ format_of (as_line line.now)) }
    ensures refused { IfErr result (λ error. answer_of error ≡ no_memory) }
{
    let written = written_of(alloc, line)?;
    match read(alloc, written.as_str()) {
        Ok(text) => Ok(Ok(Template::parse(alloc, text.as_str())?)),
        Err(ReadError::Broken(place)) => Ok(Err(place)),
        Err(ReadError::NoMemory) => Err(Error::NoMemory),
    }
}

/// Reports something at a byte of what the lines of a message write, in the line that writes it.
pub fn reported_in(
    alloc: Global,
    line: &Line<'_, '_>,
    place: usize,
    what: &str,
) -> Result<String, Error>
    ensures reported { IfOk result (λ reported.
        string_bytes reported ≡ reported_in (as_line line.now) place what.now) }
    ensures refused { IfErr result (λ error. answer_of error ≡ no_memory) }
{
    let begin = line
        .text
        .len()
        .saturating_sub(text_on_line(line.text).len());
    let spot = spot_of(line.text, begin, line.rest, place);
    let its_line = Line {
        file: line.file,
        number: line.number.saturating_add(spot.index),
        text: spot.text,
        rest: &[],
    };
    reported_at(alloc, &its_line, spot.begin.saturating_add(spot.byte), what)
}

/// Reports something at a byte of a line's format: in its line, if that writes the format as it is,
/// or else in the line that writes the byte.
pub fn report_of_place(
    alloc: Global,
    line: &Line<'_, '_>,
    format: &str,
    place: usize,
    what: &str,
) -> Result<String, Error>
    ensures reported { IfOk result (λ reported.
        string_bytes reported ≡ report_of_place (as_line line.now) format.now (Some place) what.now) }
    ensures refused { IfErr result (λ error. answer_of error ≡ no_memory) }
{
    let written = written_of(alloc, line)?;
    if written.as_str() != format {
        return reported_in(alloc, line, place_of(written.as_str(), place), what);
    }
    let source = Source {
        name: line.file,
        first_line: line.number,
        text: line.text,
        start: line.text.len().saturating_sub(format.len()),
        format,
    };
    let picture = explain_place(alloc, &source, place, what)?;
    let reported = format!(in alloc; "{picture}\n")?;
    Ok(reported)
}
