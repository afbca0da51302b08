//! What is reported at a byte of a line.

ghost use Rattle.std.specs.Prelude.{◌≡◌, IfErr, IfOk, string_bytes};
ghost use Rattle.std.specs.List.{after_first};
ghost use Rattle.interpolator.specs.Faults.{answer_of, no_memory};
ghost use Rattle.catalogue.specs.Files.{as_line};
ghost use Rattle.catalogue.specs.Reports.{is_newline, picture_at, reported_at};

use crate::files::Line;
use interpolator::{Error, Position, Source, explain_in};
use std::alloc::Global;
use std::fmt;

/// What comes after the first line of a text.
fn after_first_line(text: &str) -> &str
    ensures { result.now ≡ after_first is_newline text.now }
{
    match text.split_once('\n') {
        Some((_, rest)) => rest,
        None => "",
    }
}

/// A line with a mark under the character at a byte, as `explain_in` shows it for a fault at the
/// beginning of an empty format.
#[tactic(auto, unfolding(crate::specs::Reports::picture_at))]
fn picture_at(alloc: Global, line: &Line<'_, '_>, place: usize) -> Result<String, Error>
    ensures picture { IfOk result (λ picture.
        string_bytes picture ≡ picture_at (as_line line.now) place) }
    ensures refused { IfErr result (λ error. answer_of error ≡ no_memory) }
{
    let here = Source {
        name: "",
        first_line: line.number,
        text: line.text,
        start: place,
        format: "",
    };
    let explained = explain_in(alloc, &here, &Error::Fmt(fmt::Error, 0))?;
    let picture = String::from_str(alloc, after_first_line(explained.as_str()))?;
    Ok(picture)
}

/// Reports something at a byte of a line of the file, with the line and a mark under the byte's
/// character.
pub fn reported_at(
    alloc: Global,
    line: &Line<'_, '_>,
    place: usize,
    what: &str,
) -> Result<String, Error>
    ensures reported { IfOk result (λ reported.
        string_bytes reported ≡ reported_at (as_line line.now) place what.now) }
    ensures refused { IfErr result (λ error. answer_of error ≡ no_memory) }
{
    let picture = picture_at(alloc, line, place)?;
    let file = line.file;
    let number = line.number;
    let column = Position::of(line.text, place).column;
    let reported = format!(in alloc; "{file}:{number}:{column}: {what}\n{picture}\n")?;
    Ok(reported)
}
