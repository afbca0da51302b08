//! Values that are in no place of an escape.

ghost use Rattle.std.specs.Prelude.{◌≡◌, IfOk, length, map, string_bytes};
ghost use Rattle.std.specs.List.{All};
ghost use Rattle.catalogue.specs.Files.{as_line, as_page, page_of};
ghost use Rattle.catalogue.specs.Places.{AllPlaced, IsPlaced, IsPlacedFile, IsPlacedLine};

use crate::files::{File, Line, Page, lines_of, pages_of};
use crate::formats::{format_of, report_of_place};
use crate::lines::message_of;
use interpolator::{Error, Escape, Misplaced, PlaceError, Template, places_of};
use interpolator_escapes::check_format;
use std::alloc::Global;

/// Reports a value of a line's format that is in no place of an escape, shown in its line.
fn report_of_value(
    alloc: Global,
    line: &Line<'_, '_>,
    format: &str,
    escape: Escape,
    misplaced: Misplaced,
) -> Result<String, Error>
    ensures { IfOk result (λ reported. length (string_bytes reported) ≡ 0 → ⊥) }
{
    let places = places_of(escape);
    let why = format!(in alloc; "{}; a value may stand {places}", misplaced.why)?;
    report_of_place(alloc, line, format, misplaced.place, why.as_str())
}

/// Reports the first value of a line's format that is in no place of an escape, if there is one.
fn misplaced_in_format(
    alloc: Global,
    line: &Line<'_, '_>,
    template: &Template,
    escape: Escape,
) -> Result<String, Error>
    ensures { IfOk result (λ reported. length (string_bytes reported) ≡ 0 → IsPlaced escape template.now) }
{
    match check_format(alloc, escape, template.text()) {
        Ok(_) => Ok(String::new(alloc)),
        Err(PlaceError::Misplaced(misplaced)) => {
            report_of_value(alloc, line, template.text(), escape, misplaced)
        }
        Err(PlaceError::NoMemory) => Err(Error::NoMemory),
    }
}

/// Reports the first value of a line that is in no place of an escape, if the line has a message
/// with such a value.
fn misplaced_in_line(alloc: Global, line: &Line<'_, '_>, escape: Escape) -> Result<String, Error>
    ensures { IfOk result (λ reported. length (string_bytes reported) ≡ 0
        → IsPlacedLine escape (as_line line.now)) }
{
    if message_of(line.text).is_none() {
        return Ok(String::new(alloc));
    }
    match format_of(alloc, line)? {
        Ok(template) => misplaced_in_format(alloc, line, &template, escape),
        Err(_) => Ok(String::new(alloc)),
    }
}

/// Reports such values of the lines of a file.
fn misplaced_in_lines(
    alloc: Global,
    lines: &[Line<'_, '_>],
    escape: Escape,
) -> Result<String, Error>
    ensures { IfOk result (λ reported. length (string_bytes reported) ≡ 0
        → AllPlaced escape (map as_line lines.now)) }
{
    let mut reported = String::new(alloc);
    for line in lines {
        let more = misplaced_in_line(alloc, line, escape)?;
        reported.push_str(more.as_str())?;
    }
    Ok(reported)
}

/// Reports such values of a file.
fn misplaced_in_file(alloc: Global, page: &Page<'_>, escape: Escape) -> Result<String, Error>
    ensures { IfOk result (λ reported. length (string_bytes reported) ≡ 0
        → IsPlacedFile escape (as_page page.now)) }
{
    let lines = lines_of(alloc, page)?;
    misplaced_in_lines(alloc, lines.as_slice(), escape)
}

/// Reports such values of some files.
fn misplaced_in(alloc: Global, pages: &[Page<'_>], escape: Escape) -> Result<String, Error>
    ensures { IfOk result (λ reported. length (string_bytes reported) ≡ 0
        → All (IsPlacedFile escape) (map as_page pages.now)) }
{
    let mut reported = String::new(alloc);
    for page in pages {
        let more = misplaced_in_file(alloc, page, escape)?;
        reported.push_str(more.as_str())?;
    }
    Ok(reported)
}

/// Reports the values of some files that are in no place of an escape, of each message the first,
/// in the order of the lines; nothing, only if each value of each message is in such a place.
///
/// # Errors
///
/// `NoMemory`.
pub fn misplaced(alloc: Global, files: &[File], escape: Escape) -> Result<String, Error>
    ensures { IfOk result (λ reported. length (string_bytes reported) ≡ 0
        → All (IsPlacedFile escape) (map page_of files.now)) }
{
    let pages = pages_of(alloc, files)?;
    misplaced_in(alloc, pages.as_slice(), escape)
}
