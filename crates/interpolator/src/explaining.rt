//! Faults as a compiler shows them.
ghost use Rattle.std.specs.Prelude.{◌≡◌, ◌<◌, ◌++◌, codes, IfErr, IfOk, Some, string_bytes};
ghost use Rattle.std.specs.Str.{chars};
ghost use Rattle.interpolator.specs.Explained.{before_in_line, explanation, explanation_of};
ghost use Rattle.interpolator.specs.Explained.{head as head_of, line_of, marked_bytes, names_after};
ghost use Rattle.interpolator.specs.Explained.{names_line, note_of, reported_at, reported_in};
ghost use Rattle.interpolator_syntax.specs.Faults.{answer_of, no_memory};

use crate::excerpt::{draw, gap};
use crate::naming::reported_names;
use crate::position::Position;
use crate::template::Template;
use interpolator_render::char_count;
use interpolator_syntax::Error;
use std::alloc::{AllocError, Global};

/// Where a format is: a text, such as a file or a line of one, and the part of it that is the
/// format.
///
/// ```text
/// // the format of line 3 of a file of messages, `greeting = Hello {name, you`
/// let start = line.len() - format.len();
/// Source { name: "messages.txt", first_line: 3, text: line, start, format }
/// ```
#[derive(Clone, Copy, Debug)]
pub struct Source<'a> {
    /// What the text is called, such as the name of a file.
    pub name: &'a str,
    /// The number of the text's first line: 1 for a whole file.
    pub first_line: usize,
    /// The text.
    pub text: &'a str,
    /// The byte of the text at which the format begins.
    pub start: usize,
    /// The format.
    pub format: &'a str,
}

/// Shows a fault of a format as a compiler does: [`explain_in`] for a text that is the format
/// itself.
///
/// ```text
/// // for `Hello {name` in a file `greeting.txt`, whose fault is `FormatSpecUnclosed(7)`
/// greeting.txt:1:8: error while parsing input: Format spec at 7 is nether closed with a `}`
///   |
/// 1 | Hello {name
///   |       ~^~~~
/// ```
///
/// # Errors
///
/// `NoMemory`.
pub fn explain(alloc: Global, name: &str, text: &str, error: &Error) -> Result<String, Error>
    ensures reported { IfOk result (λ reported. string_bytes reported ≡ explanation_of (record {
      name = name.entry;
      first_line = 1;
      text = text.entry;
      start = 0;
      format = text.entry;
    }) (answer_of error.now)) }
    ensures refused { IfErr result (λ error. answer_of error ≡ no_memory) }
{
    let source = Source {
        name,
        first_line: 1,
        text,
        start: 0,
        format: text,
    };
    explain_in(alloc, &source, error)
}

/// Shows a fault of a format as a compiler does: the name of the text, the line and the column of
/// the fault, what it is, and the line with marks under the argument that has the fault's place.
///
/// In the column that is named stands `^`, and `~` under the rest of the innermost argument that
/// has the place, as far as it is in the line; if no argument has it, `^` stands alone. Before the
/// marks there is a space under each character. Under a tab there is a tab in place of the space or
/// the `~`, but not of `^`. A line of more than 120 characters is cut around the place, with `..`
/// where it is cut. If the format does not begin the text, a note says which byte of the format the
/// fault's text names. A fault without a place is shown with the name alone. The text that is
/// returned has no newline at its end.
///
/// The format is read again, and memory is taken for that.
///
/// ```text
/// messages.txt:3:31: specified value not in context `nme` at 19 (byte 19 of the format)
///   |
/// 3 | greeting = Bonjour {nom}, et {nme}!
///   |                              ~^~~~
/// ```
///
/// # Errors
///
/// `NoMemory`.
pub fn explain_in(alloc: Global, source: &Source<'_>, error: &Error) -> Result<String, Error>
    ensures reported { IfOk result (λ reported.
        string_bytes reported ≡ explanation_of source.now (answer_of error.now)) }
    ensures refused { IfErr result (λ error. answer_of error ≡ no_memory) }
{
    let what = format!(in alloc; "{error}")?;
    match error.place() {
        None => {
            let reported = without_place(alloc, source.name, what.as_str())?;
            Ok(reported)
        }
        Some(place) => explain_place(alloc, source, place, what.as_str()),
    }
}

/// Shows what is said of a byte of a format as [`explain_in`] shows a fault: for what no `Error` says,
/// like a value that is out of place in a page.
///
/// ```text
/// explain_place(alloc, &source, misplaced.place, "this value stands in a tag")?
/// // page.html:1:4: this value stands in a tag
/// //   |
/// // 1 | <p {class}>
/// //   |    ^~~~~~~
/// ```
///
/// # Errors
///
/// `NoMemory`.
pub fn explain_place(
    alloc: Global,
    source: &Source<'_>,
    place: usize,
    what: &str,
) -> Result<String, Error>
    ensures reported { IfOk result (λ reported.
        string_bytes reported ≡ explanation source.now (Some place) what.now) }
    ensures refused { IfErr result (λ error. answer_of error ≡ no_memory) }
{
    let marked = marked_bytes(alloc, source.format, place)?;
    let at = source.start.saturating_add(place);
    let note = note(alloc, source.start, place)?;
    let what = format!(in alloc; "{what}{note}")?;
    let report = Report {
        at,
        marked,
        what: what.as_str(),
    };
    let reported = reported_at(alloc, source, &report)?;
    Ok(reported)
}

/// Shows a fault of a format as [`explain_in`] does, and for a `MissingValue` the names that there
/// are, on a line below: first the one that may be meant, if there is one, and then all of them. It
/// is the first that is at most one slip away from the missing one: a character inserted, left out
/// or replaced, or two neighbours swapped. For any other fault, and if there are no names, there is
/// no such line.
///
/// ```text
/// explain_with_names(alloc, &source, &error, &["nom", "name"])?
/// // messages.txt:3:31: specified value not in context `nme` at 19 (byte 19 of the format)
/// //   |
/// // 3 | greeting = Bonjour {nom}, et {nme}!
/// //   |                              ~^~~~
/// //   = did you mean `name`? names: `nom`, `name`
/// ```
///
/// # Errors
///
/// `NoMemory`.
pub fn explain_with_names(
    alloc: Global,
    source: &Source<'_>,
    error: &Error,
    names: &[&str],
) -> Result<String, Error>
    ensures reported { IfOk result (λ reported. string_bytes reported
        ≡ explanation_of source.now (answer_of error.now)
        ++ names_after source.now (answer_of error.now) names.now) }
    ensures refused { IfErr result (λ error. answer_of error ≡ no_memory) }
{
    let reported = explain_in(alloc, source, error)?;
    match error {
        Error::MissingValue(name, place) => {
            let line = names_line(alloc, source, *place, name.as_str(), names)?;
            let reported = format!(in alloc; "{reported}{line}")?;
            Ok(reported)
        }
        _ => Ok(reported),
    }
}

/// The line that lists the names if one is missing; empty if there are none.
fn names_line(
    alloc: Global,
    source: &Source<'_>,
    place: usize,
    name: &str,
    names: &[&str],
) -> Result<String, AllocError>
    ensures { IfOk result (λ line. string_bytes line
        ≡ names_line source.now place (chars name.now) names.now) }
{
    let Some((_, _)) = names.split_first() else {
        return Ok(String::new(alloc));
    };
    let position = Position::of(source.text, source.start.saturating_add(place));
    let number = source.first_line.saturating_add(position.line - 1);
    let gap = gap(alloc, number)?;
    let reported = reported_names(alloc, name, names)?;
    let line = format!(in alloc; "\n{gap} = {reported}")?;
    Ok(line)
}

/// What is reported without a place.
fn without_place(alloc: Global, name: &str, what: &str) -> Result<String, AllocError>
    ensures { IfOk result (λ reported.
        string_bytes reported ≡ name.now ++ (codes ": " ++ what.now)) }
{
    let reported = format!(in alloc; "{name}: {what}")?;
    Ok(reported)
}

/// A note on where the place that a fault's text names counts from; empty if the format begins its
/// text.
fn note(alloc: Global, start: usize, place: usize) -> Result<String, AllocError>
    ensures { IfOk result (λ note. string_bytes note ≡ note_of start place) }
{
    if start == 0 {
        return Ok(String::new(alloc));
    }
    let note = format!(in alloc; " (byte {place} of the format)")?;
    Ok(note)
}

/// The bytes of a format that are marked for a place.
fn marked_bytes(alloc: Global, format: &str, place: usize) -> Result<(usize, usize), Error>
    ensures marked { IfOk result (λ marked. marked ≡ marked_bytes format.now place) }
    ensures refused { IfErr result (λ error. answer_of error ≡ no_memory) }
{
    let template = Template::parse(alloc, format)?;
    Ok(template.argument_at(place).unwrap_or((place, place)))
}

/// The line of this number, counted from 1; empty if the text has fewer lines.
fn line_of(text: &str, number: usize) -> &str
    requires { 0 < number }
    ensures { result.now ≡ line_of text.now number }
{
    text.lines().nth(number - 1).unwrap_or("")
}

/// How many characters of the line of this number, which has `count` of them, are before a byte of
/// the text.
fn before_in_line(text: &str, number: usize, count: usize, place: usize) -> usize
    ensures { result ≡ before_in_line text.now number count place }
{
    let at = Position::of(text, place);
    if at.line < number {
        return 0;
    }
    if number < at.line {
        return count;
    }
    at.column - 1
}

/// What comes before the line that is shown.
fn head(alloc: Global, name: &str, position: Position, what: &str) -> Result<String, AllocError>
    ensures { IfOk result (λ head.
        string_bytes head ≡ head_of name.now position.line position.column what.now) }
{
    let head = format!(in alloc; "{name}:{position}: {what}")?;
    Ok(head)
}

/// What is reported of a text: at which byte of it, with which bytes of the format marked, and what.
#[derive(Clone, Copy)]
struct Report<'a> {
    at: usize,
    marked: (usize, usize),
    what: &'a str,
}

/// What is reported at a byte of the text, with the line that has it. If the byte is the newline
/// after a carriage return, a space stands for that, so that the mark is in the column reported.
fn reported_at(
    alloc: Global,
    source: &Source<'_>,
    report: &Report<'_>,
) -> Result<String, AllocError>
    ensures { IfOk result (λ reported. string_bytes reported
        ≡ reported_at source.now report.now.at report.now.marked report.now.what.now) }
{
    let position = Position::of(source.text, report.at);
    let line = line_of(source.text, position.line);
    if char_count(line) < position.column - 1 {
        let line = format!(in alloc; "{line} ")?;
        let reported = reported_in(alloc, source, line.as_str(), report)?;
        return Ok(reported);
    }
    let reported = reported_in(alloc, source, line, report)?;
    Ok(reported)
}

/// What is reported at a byte of the text, with this line.
fn reported_in(
    alloc: Global,
    source: &Source<'_>,
    line: &str,
    report: &Report<'_>,
) -> Result<String, AllocError>
    ensures { IfOk result (λ reported. string_bytes reported
        ≡ reported_in source.now line.now report.now.at report.now.marked report.now.what.now) }
{
    let position = Position::of(source.text, report.at);
    let count = char_count(line);
    let (from, to) = (
        source.start.saturating_add(report.marked.0),
        source.start.saturating_add(report.marked.1),
    );
    let from = before_in_line(source.text, position.line, count, from);
    let to = before_in_line(source.text, position.line, count, to);
    let number = source.first_line.saturating_add(position.line - 1);
    let shown = Position {
        line: number,
        column: position.column,
    };
    let head = head(alloc, source.name, shown, report.what)?;
    let picture = draw(alloc, number, line, position.column - 1, (from, to))?;
    let reported = format!(in alloc; "{head}\n{picture}")?;
    Ok(reported)
}
