//! What is reported at a byte of a PO file.

ghost use Rattle.std.specs.Prelude.{◌≡◌, IfErr, IfOk, string_bytes};
ghost use Rattle.interpolator.specs.{Faults.answer_of, Faults.no_memory, Positions.line_at};
ghost use Rattle.catalogue.specs.{Reported.IsReportedAt, Translations.TellsFault};

use crate::files::{File, Line};
use crate::reports::reported_at;
use interpolator::{Error, Position};
use po::{Placed, place_of};
use std::alloc::Global;

/// The line of a file at a byte, and which byte of the line that is.
fn line_at(file: &File, place: usize) -> (Line<'_, '_>, usize)
    ensures named { result.0.file.now ≡ string_bytes file.now.name }
    ensures numbered { result.0.number ≡ line_at (string_bytes file.now.text) place }
{
    let text = file.text.as_str();
    let front = text.get(..place).unwrap_or(text);
    let start = match front.rsplit_once('\n') {
        Some((before, _)) => before.len().saturating_add(1),
        None => 0,
    };
    let rest = text.get(start..).unwrap_or("");
    let line = Line {
        file: file.name.as_str(),
        number: Position::of(text, place).line,
        text: rest.lines().next().unwrap_or(""),
        rest: &[],
    };
    (line, place.saturating_sub(start))
}

/// Reports something at a byte of a file, with its line and a mark.
pub fn reported_at_byte(
    alloc: Global,
    file: &File,
    place: usize,
    what: &str,
) -> Result<String, Error>
    ensures reported { IfOk result (λ reported. IsReportedAt file.now what.now (string_bytes reported)) }
    ensures refused { IfErr result (λ error. answer_of error ≡ no_memory) }
{
    let (line, place) = line_at(file, place);
    let reported = reported_at(alloc, &line, place, what)?;
    Ok(reported)
}

/// Reports something at a byte of the text that strings of a file make.
pub fn reported_in_strings(
    alloc: Global,
    file: &File,
    strings: &[Placed],
    byte: usize,
    what: &str,
) -> Result<String, Error>
    ensures reported { IfOk result (λ reported. IsReportedAt file.now what.now (string_bytes reported)) }
    ensures refused { IfErr result (λ error. answer_of error ≡ no_memory) }
{
    let place = place_of(file.text.as_str(), strings, byte);
    reported_at_byte(alloc, file, place, what)
}

/// Reports a fault of the format that strings make.
pub fn report_of_error(
    alloc: Global,
    file: &File,
    strings: &[Placed],
    error: &Error,
) -> Result<String, Error>
    ensures reported { IfOk result (λ reported.
        TellsFault file.now (answer_of error.now) (string_bytes reported)) }
    ensures refused { IfErr result (λ error. answer_of error ≡ no_memory) }
{
    let what = format!(in alloc; "{error}")?;
    let byte = error.place().unwrap_or(0);
    reported_in_strings(alloc, file, strings, byte, what.as_str())
}
