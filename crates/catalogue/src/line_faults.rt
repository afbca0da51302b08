//! What is reported of the message of a line, or of its rule.

ghost use Rattle.std.specs.Prelude.{◌≡◌, ℕ, List, IfOk, IfErr, map, string_bytes};
ghost use Rattle.interpolator.specs.Faults.{answer_of, no_memory};
ghost use Rattle.catalogue.specs.FileReports.{report_of_fault, report_of_faults, report_of_message};
ghost use Rattle.catalogue.specs.FileReports.{report_of_rule};
ghost use Rattle.catalogue.specs.{Declarations.declared_by, Files.as_line, Keys.Remembers};

use crate::declarations::Heading;
use crate::examples::faults_of;
use crate::files::Line;
use crate::formats::{report_of_place, reported_in};
use crate::keys::is_first;
use crate::reports::reported_at;
use crate::rules::wrong_in;
use interpolator::{Error, Template};
use std::alloc::Global;
use std::collections::HashMap;

/// What is reported of a broken declaration.
const WHAT_IS_DECLARED: &str =
    "declarations are `(NAME, NAME:, NAME:., NAME:~, NAME[])`, each name once";

/// What is reported of a wrong backslash.
const WHAT_IS_WRITTEN: &str =
    "a backslash is followed by `n`, for a line end, or by another backslash";

/// What is reported of a rule that comes too late.
const WHAT_IS_BEFORE: &str = "a rule stands once, before all messages";

/// Reports a fault of a line's format, shown in its line.
pub fn report_of_fault(
    alloc: Global,
    line: &Line<'_, '_>,
    format: &str,
    error: &Error,
) -> Result<String, Error>
    ensures reported { IfOk result (λ reported. string_bytes reported
        ≡ report_of_fault (as_line line.now) format.now (answer_of error.now)) }
    ensures refused { IfErr result (λ error. answer_of error ≡ no_memory) }
{
    match error.place() {
        None => Err(Error::NoMemory),
        Some(place) => {
            let what = format!(in alloc; "{error}")?;
            report_of_place(alloc, line, format, place, what.as_str())
        }
    }
}

/// Reports faults of a line's format, in their order.
fn report_of_faults(
    alloc: Global,
    line: &Line<'_, '_>,
    format: &str,
    errors: &[Error],
) -> Result<String, Error>
    ensures reported { IfOk result (λ reported. string_bytes reported
        ≡ report_of_faults (as_line line.now) format.now (map answer_of errors.now)) }
    ensures refused { IfErr result (λ error. answer_of error ≡ no_memory) }
{
    let mut reported = String::new(alloc);
    for error in errors {
        let more = report_of_fault(alloc, line, format, error)?;
        reported.push_str(more.as_str())?;
    }
    Ok(reported)
}

/// Reports what is wrong with a line's message: a broken declaration, or the faults of its format,
/// all that it has by itself, or with examples of what the line declares.
pub fn report_of_message(
    alloc: Global,
    line: &Line<'_, '_>,
    format: &Result<Template, usize>,
    heading: &Heading<'_>,
) -> Result<String, Error>
    ensures reported { IfOk result (λ reported. string_bytes reported
        ≡ report_of_message (as_line line.now) (declared_by heading.now) format.now) }
    ensures refused { IfErr result (λ error. answer_of error ≡ no_memory) }
{
    if let Heading::Broken(place) = heading {
        return reported_at(alloc, line, *place, WHAT_IS_DECLARED);
    }
    match format {
        Err(place) => reported_in(alloc, line, *place, WHAT_IS_WRITTEN),
        Ok(template) => {
            let errors = faults_of(alloc, template, heading)?;
            report_of_faults(alloc, line, template.text(), errors.as_slice())
        }
    }
}

/// Reports what is wrong with the rule of a line, after others with these keys: it comes after
/// another rule or a message, or is none.
pub fn report_of_rule(
    alloc: Global,
    line: &Line<'_, '_>,
    rule: &str,
    keys: &HashMap<&str, usize>,
) -> Result<String, Error>
    ensures reported { IfOk result (λ reported. (seen : List (ℕ × List ℕ)) → Remembers seen keys.now
        → string_bytes reported ≡ report_of_rule seen (as_line line.now) rule.now) }
    ensures refused { IfErr result (λ error. answer_of error ≡ no_memory) }
{
    if !is_first(keys) {
        return reported_at(alloc, line, 0, WHAT_IS_BEFORE);
    }
    match wrong_in(alloc, rule)? {
        Some((place, what)) => reported_at(alloc, line, place, what),
        None => Ok(String::new(alloc)),
    }
}
