//! The lines of files, which are all checked, and the one under a key.

ghost use Rattle.std.specs.Prelude.{◌≡◌, ◌++◌, ℕ, List, [], IfOk, IfErr, None, Some, false, length};
ghost use Rattle.std.specs.Prelude.{map, string_bytes};
ghost use Rattle.std.specs.{List.All, Option.option_map};
ghost use Rattle.interpolator.specs.Faults.{answer_of, no_memory};
ghost use Rattle.catalogue.specs.Declarations.{declared_by, declared_in, key_in};
ghost use Rattle.catalogue.specs.Files.{as_line, as_page, page_of};
ghost use Rattle.catalogue.specs.Forms.{as_sought, first_given};
ghost use Rattle.catalogue.specs.Keys.{Remembers, report_of_key};
ghost use Rattle.catalogue.specs.Sought.{as_found, found_among, found_by, found_in, line_for};
ghost use Rattle.catalogue.specs.FileReports.{report_of_file, report_of_files, report_of_line};
ghost use Rattle.catalogue.specs.FileReports.{report_of_lines};
ghost use Rattle.catalogue.specs.FileReports.{report_of_message, report_of_more};
ghost use Rattle.catalogue.specs.{Formats.format_of, Lines.key_with, Sound.IsSoundFile};

use crate::declarations::{Heading, begin_of, heading_of};
use crate::entries::Object;
use crate::files::{File, Line, Page, lines_of, pages_of};
use crate::formats::format_of;
use crate::forms::Sought;
use crate::keys::{add_key, no_keys, report_of_key};
use crate::line_faults::{report_of_message, report_of_rule};
use crate::lines::{head_of, is_key, is_passed_over, opens, sought};
use crate::reports::reported_at;
use crate::rules::{HEAD, rule_in};
use folds::goes_on;
use interpolator::{Error, Template};
use std::alloc::Global;
use std::collections::HashMap;
use words::Declaration;

/// A line that has the key.
#[derive(Drop)]
pub struct Found<'p, 'a> {
    pub line: Line<'p, 'a>,
    pub template: Template,
    pub heading: Heading<'a>,
    /// What is missing to choose the form of the key, if anything is.
    pub lacks: Option<Declaration<'a>>,
}

/// What is wrong with a line, its own key, or `plural:` for a rule, and the line itself if it has
/// the key that is looked up.
#[derive(Drop)]
struct LineVerdict<'p, 'a> {
    reported: String,
    key: Option<&'a str>,
    found: Option<Found<'p, 'a>>,
}

/// What is wrong with all lines, and the one that has the key.
#[derive(Drop)]
pub struct Verdict<'p, 'a> {
    pub reported: String,
    pub found: Option<Found<'p, 'a>>,
}

/// A line that does not have the key that is looked up.
fn passed<'p, 'a>(reported: String, key: Option<&'a str>) -> LineVerdict<'p, 'a>
    ensures reported { result.reported ≡ reported }
    ensures key { result.key ≡ key.entry }
    ensures found { result.found ≡ None }
{
    LineVerdict {
        reported,
        key,
        found: None,
    }
}

/// What is reported of a line that goes on with no message.
const WHAT_GOES_ON: &str =
    "a line that begins with a blank goes on with a message, and none is before";

/// Reports that a line goes on, if no message may go on there.
fn report_of_more(alloc: Global, line: &Line<'_, '_>, is_open: bool) -> Result<String, Error>
    ensures reported { IfOk result (λ reported.
        string_bytes reported ≡ report_of_more is_open (as_line line.now)) }
    ensures refused { IfErr result (λ error. answer_of error ≡ no_memory) }
{
    if is_open || !goes_on(line.text) {
        return Ok(String::new(alloc));
    }
    reported_at(alloc, line, begin_of(0, line.text), WHAT_GOES_ON)
}

/// The line of a message, if it has the key that is looked up.
fn found_by<'p, 'a>(
    line: &Line<'p, 'a>,
    key: &str,
    format: Result<Template, usize>,
    heading: Heading<'a>,
    wanted: &Sought<'a>,
) -> Option<Found<'p, 'a>>
    ensures { option_map as_found result ≡ found_by (as_line line.now) key.now
        (declared_by heading.entry) format (as_sought wanted.now) }
{
    let Ok(template) = format else {
        return None;
    };
    if !is_key(key, wanted.key.as_str()) {
        return None;
    }
    Some(Found {
        line: *line,
        template,
        heading,
        lacks: wanted.lacks,
    })
}

/// Checks the line of a message with this head, after others with these keys.
fn checked_message<'p, 'a>(
    alloc: Global,
    line: &Line<'p, 'a>,
    head: &'a str,
    keys: &HashMap<&str, usize>,
    wanted: &Sought<'a>,
) -> Result<LineVerdict<'p, 'a>, Error>
    ensures reported { IfOk result (λ checked. (seen : List (ℕ × List ℕ)) → Remembers seen keys.now
        → string_bytes checked.reported ≡ report_of_key (as_line line.now) head.now (key_in head.now) seen
        ++ report_of_message (as_line line.now) (declared_in head.now)
        (format_of (as_line line.now))) }
    ensures key { IfOk result (λ checked.
        option_map (λ x. x.now) checked.key ≡ Some (key_in head.now)) }
    ensures found { IfOk result (λ checked. option_map as_found checked.found ≡ found_by
        (as_line line.now) (key_in head.now) (declared_in head.now)
        (format_of (as_line line.now)) (as_sought wanted.now)) }
    ensures refused { IfErr result (λ error. answer_of error ≡ no_memory) }
{
    let (key, heading) = heading_of(alloc, head)?;
    let format = format_of(alloc, line)?;
    let mut reported = report_of_key(alloc, line, head, key, keys)?;
    let more = report_of_message(alloc, line, &format, &heading)?;
    reported.push_str(more.as_str())?;
    let found = found_by(line, key, format, heading, wanted);
    Ok(LineVerdict {
        reported,
        key: Some(key),
        found,
    })
}

/// Checks a line, after others with these keys.
fn checked_line<'p, 'a>(
    alloc: Global,
    line: &Line<'p, 'a>,
    is_open: bool,
    keys: &HashMap<&str, usize>,
    wanted: &Sought<'a>,
) -> Result<LineVerdict<'p, 'a>, Error>
    ensures reported { IfOk result (λ checked. (seen : List (ℕ × List ℕ)) → Remembers seen keys.now
        → string_bytes checked.reported ≡ report_of_line seen is_open (as_line line.now)) }
    ensures key { IfOk result (λ checked.
        option_map (λ x. x.now) checked.key ≡ key_with line.now.text.now) }
    ensures found { IfOk result (λ checked. option_map as_found checked.found
        ≡ line_for (as_sought wanted.now) (as_line line.now)) }
    ensures refused { IfErr result (λ error. answer_of error ≡ no_memory) }
{
    if is_passed_over(line.text) {
        let reported = report_of_more(alloc, line, is_open)?;
        return Ok(passed(reported, None));
    }
    if let Some(rule) = rule_in(line.text) {
        let reported = report_of_rule(alloc, line, rule, keys)?;
        return Ok(passed(reported, Some(HEAD)));
    }
    match head_of(line.text) {
        Some(head) => checked_message(alloc, line, head, keys, wanted),
        None => {
            let reported = reported_at(alloc, line, 0, "no `=`")?;
            Ok(passed(reported, None))
        }
    }
}

/// Checks each line of a file, and finds the one that has the key.
fn checked_lines<'p, 'a>(
    alloc: Global,
    lines: &[Line<'p, 'a>],
    wanted: &Sought<'a>,
) -> Result<Verdict<'p, 'a>, Error>
    ensures reported { IfOk result (λ verdict.
        string_bytes verdict.reported ≡ report_of_lines [] false (map as_line lines.now)) }
    ensures found { IfOk result (λ verdict. option_map as_found verdict.found
        ≡ first_given (line_for (as_sought wanted.now)) (map as_line lines.now)) }
    ensures refused { IfErr result (λ error. answer_of error ≡ no_memory) }
{
    let mut reported = String::new(alloc);
    let mut keys = no_keys(alloc);
    let mut found = None;
    let mut is_open = false;
    for line in lines {
        let checked = checked_line(alloc, line, is_open, &keys, wanted)?;
        reported.push_str(checked.reported.as_str())?;
        add_key(&mut keys, line.number, checked.key)?;
        found = found.or(checked.found);
        is_open = opens(is_open, line.text);
    }
    Ok(Verdict { reported, found })
}

/// Checks a file, and finds the line of a key, or of its form that the file's rule chooses by
/// objects.
fn checked_file<'p, 'a>(
    alloc: Global,
    page: &'p Page<'a>,
    key: &str,
    objects: &[Object<'_>],
) -> Result<Verdict<'p, 'a>, Error>
    ensures reported { IfOk result (λ verdict.
        string_bytes verdict.reported ≡ report_of_file (as_page page.now)) }
    ensures found { IfOk result (λ verdict. option_map as_found verdict.found
        ≡ found_in objects.now key.now (as_page page.now)) }
    ensures refused { IfErr result (λ error. answer_of error ≡ no_memory) }
{
    let lines = lines_of(alloc, page)?;
    let wanted = sought(alloc, objects, key, page.texts.as_slice())?;
    checked_lines(alloc, lines.as_slice(), &wanted)
}

/// Checks some files, and finds the line of the key, or of its form, in the first that has it.
pub fn checked<'p, 'a>(
    alloc: Global,
    pages: &'p [Page<'a>],
    key: &str,
    objects: &[Object<'_>],
) -> Result<Verdict<'p, 'a>, Error>
    ensures reported { IfOk result (λ verdict.
        string_bytes verdict.reported ≡ report_of_files (map as_page pages.now)) }
    ensures sound { IfOk result (λ verdict.
        length (string_bytes verdict.reported) ≡ 0 → All IsSoundFile (map as_page pages.now)) }
    ensures found { IfOk result (λ verdict. option_map as_found verdict.found
        ≡ found_among objects.now key.now (map as_page pages.now)) }
    ensures refused { IfErr result (λ error. answer_of error ≡ no_memory) }
{
    let mut reported = String::new(alloc);
    let mut found = None;
    for page in pages {
        let of_file = checked_file(alloc, page, key, objects)?;
        reported.push_str(of_file.reported.as_str())?;
        found = found.or(of_file.found);
    }
    Ok(Verdict { reported, found })
}

/// Reports all that is wrong with some files: the faults of each line of each file, in their order;
/// nothing, if every file is sound.
///
/// # Errors
///
/// `NoMemory`.
pub fn check(alloc: Global, files: &[File]) -> Result<String, Error>
    ensures reported { IfOk result (λ reported.
        string_bytes reported ≡ report_of_files (map page_of files.now)) }
    ensures sound { IfOk result (λ reported. length (string_bytes reported) ≡ 0
        → All IsSoundFile (map page_of files.now)) }
    ensures refused { IfErr result (λ error. answer_of error ≡ no_memory) }
{
    let pages = pages_of(alloc, files)?;
    let verdict = checked(alloc, pages.as_slice(), "", &[])?;
    Ok(verdict.reported)
}
