//! The header of a PO file: its Plural-Forms, and its character set.

ghost use Rattle.std.specs.Prelude.{◌≡◌, MatchOption, map};
ghost use Rattle.std.specs.Option.{option_map};
ghost use Rattle.po.specs.Entries.{as_entry};
ghost use Rattle.plurals.specs.Trees.{tree_of};
ghost use Rattle.catalogue.specs.PluralForms.{AreBelow, IsFirstBeyond, header_in, header_of};

use crate::files::File;
use crate::po_reports::reported_in_strings;
use crate::rules::problem_text;
use crate::translations::is_head;
use interpolator::Error;
use plurals::{ParseError, parse};
use po::{Entry, Placed};
use std::alloc::Global;

/// The forms that a file tells: how many, and the rule that chooses by a number `n`.
#[derive(Clone, Copy)]
pub struct PluralForms<'h> {
    pub count: usize,
    pub rule: &'h str,
    /// The byte of the header at which the rule begins.
    place: usize,
    /// The strings of the header, if the file has one.
    header: &'h [Placed],
}

/// The strings of a header, if a message is one.
fn header_in<'t>(entry: &Entry<'t>) -> Option<&'t [Placed]>
    ensures { option_map (λ x. x.now) result ≡ header_in (as_entry entry.now) }
{
    if is_head(entry) {
        return entry.texts.first().copied();
    }
    None
}

/// The strings of the header of a file: the translation of the empty message.
pub fn header_of<'t>(entries: &[Entry<'t>]) -> &'t [Placed]
    ensures { result.now ≡ header_of (map as_entry entries.now) }
{
    for entry in entries {
        if let Some(text) = header_in(entry) {
            return text;
        }
    }
    &[]
}

/// The number and the rule of a header `Plural-Forms: nplurals=2; plural=n != 1;`. A file that
/// tells none has two forms, as English.
pub fn plural_forms<'h>(header: &'h [Placed], text: &'h str) -> PluralForms<'h> {
    let reported = count_in(text).zip(text.split_once("plural="));
    match reported {
        Some((count, (before, rest))) => PluralForms {
            count,
            rule: front_of_rule(rest),
            place: before.len().saturating_add(7),
            header,
        },
        None => PluralForms {
            count: 2,
            rule: "n != 1",
            place: 0,
            header,
        },
    }
}

/// The front of a text before a `;` or the end of its line.
fn front_of_rule(text: &str) -> &str {
    let line = text.lines().next().unwrap_or("");
    match line.split_once(';') {
        Some((rule, _)) => rule,
        None => line,
    }
}

/// The number behind `nplurals=`.
fn count_in(text: &str) -> Option<usize> {
    let (_, rest) = text.split_once("nplurals=")?;
    front_of_rule(rest).trim().parse::<usize>().ok()
}

/// The first number up to 1000 for which a rule chooses no form that there is, with what it
/// chooses.
fn beyond(read: &plurals::Expression<'_>, count: usize) -> Option<(u128, u128)>
    ensures { MatchOption result (AreBelow count 1001 (tree_of read.now))
        (λ found. IsFirstBeyond count (tree_of read.now) found) }
{
    for index in 0..1001usize {
        let n = index as u128;
        let value = read.value(&n);
        if count as u128 <= value {
            return Some((n, value));
        }
    }
    None
}

/// What is reported of a rule that compares a text.
const NO_TEXTS: &str = "a rule of a PO file compares no texts";

/// Reports that a rule that was read compares a text, or chooses a form that is not there.
fn report_of_choices(
    alloc: Global,
    file: &File,
    forms: &PluralForms<'_>,
    read: &plurals::Expression<'_>,
) -> Result<String, Error> {
    // A number alone is given for each name, so only a text can be missing.
    if read.missing_for(&0u128).is_some() {
        return reported_in_strings(alloc, file, forms.header, forms.place, NO_TEXTS);
    }
    match beyond(read, forms.count) {
        None => Ok(String::new(alloc)),
        Some((n, value)) => {
            let count = forms.count;
            let what = format!(in alloc; "the rule chooses form {value} of {count} for {n}")?;
            reported_in_strings(alloc, file, forms.header, forms.place, what.as_str())
        }
    }
}

/// Reports what is wrong with the rule of a file: it is none, compares a text, or chooses a form
/// that is not there for a number up to 1000.
pub fn report_of_plural_forms(
    alloc: Global,
    file: &File,
    forms: &PluralForms<'_>,
) -> Result<String, Error> {
    match parse(alloc, forms.rule) {
        Ok(read) => report_of_choices(alloc, file, forms, &read),
        Err(ParseError::Broken(fault)) => {
            let place = forms.place.saturating_add(fault.place);
            reported_in_strings(
                alloc,
                file,
                forms.header,
                place,
                problem_text(fault.problem),
            )
        }
        Err(ParseError::NoMemory) => Err(Error::NoMemory),
    }
}

/// Reports that the header of a file tells another character set than that by which it is read, if
/// that matters.
pub fn report_of_charset(
    alloc: Global,
    file: &File,
    header: &[Placed],
    text: &str,
) -> Result<String, Error> {
    let Some((before, rest)) = text.split_once("charset=") else {
        return Ok(String::new(alloc));
    };
    if front_of_rule(rest).trim().eq_ignore_ascii_case("utf-8") || file.text.as_str().is_ascii() {
        return Ok(String::new(alloc));
    }
    let place = before.len().saturating_add(8);
    reported_in_strings(alloc, file, header, place, "a PO file is read as UTF-8")
}
