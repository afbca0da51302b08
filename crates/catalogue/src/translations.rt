//! What is wrong with the messages of a PO file, as `msgfmt -c` tells it of `%s`.

ghost use Rattle.std.specs.Prelude.{◌≡◌, ◌==◌, IfErr, IfOk, is_some, length, map, string_bytes};
ghost use Rattle.interpolator.specs.Faults.{answer_of, no_memory};
ghost use Rattle.interpolator_syntax.specs.Arguments.{argument_of};
ghost use Rattle.po.specs.Entries.{as_entry, lists_of};
ghost use Rattle.po.specs.Sections.{text_of, token_text};
ghost use Rattle.catalogue.specs.Reported.{Each, When};
ghost use Rattle.catalogue.specs.Translations.{TellsCount, TellsTwice, has_other_count, TellsFault};
ghost use Rattle.catalogue.specs.Translations.{TellsFormat, TellsFormats, TellsPlaces, TellsSingle};
ghost use Rattle.catalogue.specs.Translations.{TellsText, TellsTexts, is_empty, arguments_in};
ghost use Rattle.catalogue.specs.Translations.{is_head, is_translated};

use crate::arguments::{report_of_lacking_names, report_of_others};
use crate::declarations::Heading;
use crate::examples::faults_of;
use crate::files::File;
use crate::keys::{add_key, no_keys};
use crate::plural_forms::{PluralForms, report_of_plural_forms};
use crate::po_reports::{report_of_error, reported_in_strings};
use interpolator::{Argument, Error, Escape, PlaceError, Position, Template};
use interpolator_escapes::check_format;
use po::{Entry, Placed, Token, place_of, text_of};
use std::alloc::Global;
use std::collections::HashMap;

/// Reports some faults of the format that strings make.
fn report_of_string_faults(
    alloc: Global,
    file: &File,
    strings: &[Placed],
    errors: &[Error],
) -> Result<String, Error>
    ensures reported { IfOk result (λ reported.
        Each (TellsFault file.now) (map answer_of errors.now) (string_bytes reported)) }
    ensures refused { IfErr result (λ error. answer_of error ≡ no_memory) }
{
    let mut reported = String::new(alloc);
    for error in errors {
        let more = report_of_error(alloc, file, strings, error)?;
        reported.push_str(more.as_str())?;
    }
    Ok(reported)
}

/// Reports the first value of the format that strings make in no place of an escape, if one is
/// asked for.
fn report_of_places(
    alloc: Global,
    file: &File,
    escape: Option<Escape>,
    strings: &[Placed],
    format: &str,
) -> Result<String, Error>
    ensures reported { IfOk result (λ reported.
        TellsPlaces file.now escape format.now (string_bytes reported)) }
    ensures refused { IfErr result (λ error. answer_of error ≡ no_memory) }
{
    let Some(escape) = escape else {
        return Ok(String::new(alloc));
    };
    match check_format(alloc, escape, format) {
        Ok(_) => Ok(String::new(alloc)),
        Err(PlaceError::Misplaced(misplaced)) => {
            let what = format!(in alloc; "{}", misplaced.why)?;
            let reported = reported_in_strings(
                alloc,
                file,
                strings,
                misplaced.place,
                what.as_str(),
            )?;
            Ok(reported)
        }
        Err(PlaceError::NoMemory) => Err(Error::NoMemory),
    }
}

/// Reports what is wrong with the format that strings make by itself, and the first value that is
/// in no place of an escape.
fn report_of_format(
    alloc: Global,
    file: &File,
    escape: Option<Escape>,
    strings: &[Placed],
    template: &Template,
) -> Result<String, Error>
    ensures reported { IfOk result (λ reported.
        TellsFormat file.now escape template.now (string_bytes reported)) }
    ensures refused { IfErr result (λ error. answer_of error ≡ no_memory) }
{
    let errors = faults_of(alloc, template, &Heading::Plain)?;
    let mut reported = report_of_string_faults(alloc, file, strings, errors.as_slice())?;
    let more = report_of_places(alloc, file, escape, strings, template.text())?;
    reported.push_str(more.as_str())?;
    Ok(reported)
}

/// The format that strings make.
pub fn template_of(alloc: Global, strings: &[Placed]) -> Result<Template, Error>
    ensures format { IfOk result (λ template. template ≡ text_of strings.now) }
    ensures refused { IfErr result (λ error. answer_of error ≡ no_memory) }
{
    let text = text_of(alloc, strings)?;
    Template::parse(alloc, text.as_str())
}

/// Whether the text of a token is empty.
fn is_empty_token(token: &Token) -> bool
    ensures { result ≡ (length (token_text token.now) == 0) }
{
    match token {
        Token::Text(text) => text.is_empty(),
        _ => true,
    }
}

/// Whether the text that strings make is empty.
pub fn is_empty(strings: &[Placed]) -> bool
    ensures { result ≡ is_empty strings.now }
{
    strings.iter().all(|one| is_empty_token(&one.token))
}

/// Whether a message has a translation that counts.
pub fn is_translated(entry: &Entry<'_>) -> bool
    ensures { result ≡ is_translated (as_entry entry.now) }
{
    match entry.texts.first() {
        Some(first) => !is_empty(first) && !entry.is_fuzzy,
        None => false,
    }
}

/// Whether a message is the head of its file.
pub fn is_head(entry: &Entry<'_>) -> bool
    ensures { result ≡ is_head (as_entry entry.now) }
{
    entry.context.is_empty() && is_empty(entry.id)
}

/// Reports what is wrong with the format of a translation, and the arguments in it that its message
/// does not have.
fn report_of_text(
    alloc: Global,
    file: &File,
    escape: Option<Escape>,
    strings: &[Placed],
    id: &[Argument<'_>],
    plural: &[Argument<'_>],
) -> Result<String, Error>
    ensures reported { IfOk result (λ reported. TellsText file.now escape (map argument_of id.now)
        (map argument_of plural.now) strings.now (string_bytes reported)) }
    ensures refused { IfErr result (λ error. answer_of error ≡ no_memory) }
{
    let template = template_of(alloc, strings)?;
    let found = template.arguments(alloc)?;
    let mut reported = report_of_format(alloc, file, escape, strings, &template)?;
    let more = report_of_others(alloc, file, strings, found.as_slice(), id, plural)?;
    reported.push_str(more.as_str())?;
    Ok(reported)
}

/// Reports what is wrong with each of some translations.
fn report_of_each(
    alloc: Global,
    file: &File,
    escape: Option<Escape>,
    texts: &[&[Placed]],
    id: &[Argument<'_>],
    plural: &[Argument<'_>],
) -> Result<String, Error>
    ensures reported { IfOk result (λ reported. Each
        (TellsText file.now escape (map argument_of id.now) (map argument_of plural.now))
        (lists_of texts.now) (string_bytes reported)) }
    ensures refused { IfErr result (λ error. answer_of error ≡ no_memory) }
{
    let mut reported = String::new(alloc);
    for text in texts {
        let more = report_of_text(alloc, file, escape, text, id, plural)?;
        reported.push_str(more.as_str())?;
    }
    Ok(reported)
}

/// Reports each name of a message, if it has no plural, that its one translation lacks.
fn report_of_single(
    alloc: Global,
    file: &File,
    entry: &Entry<'_>,
    id: &[Argument<'_>],
) -> Result<String, Error>
    ensures reported { IfOk result (λ reported. map argument_of id.now ≡ arguments_in entry.now.id.now
        → TellsSingle file.now (as_entry entry.now) (lists_of entry.now.texts.items)
        (string_bytes reported)) }
    ensures refused { IfErr result (λ error. answer_of error ≡ no_memory) }
{
    match entry.texts.as_slice() {
        [text] if entry.plural.is_empty() => {
            let reported = report_of_lacking_names(alloc, file, text, id)?;
            Ok(reported)
        }
        _ => Ok(String::new(alloc)),
    }
}

/// Reports what is wrong with the translations of a message whose formats these are.
fn report_of_texts(
    alloc: Global,
    file: &File,
    escape: Option<Escape>,
    entry: &Entry<'_>,
    id: &Template,
    plural: &Template,
) -> Result<String, Error>
    ensures reported { IfOk result (λ reported. id.now ≡ text_of entry.now.id.now
        → plural.now ≡ text_of entry.now.plural.now
        → TellsTexts file.now escape (as_entry entry.now) (string_bytes reported)) }
    ensures refused { IfErr result (λ error. answer_of error ≡ no_memory) }
{
    let one = id.arguments(alloc)?;
    let other = plural.arguments(alloc)?;
    let texts = entry.texts.as_slice();
    let mut reported = report_of_each(
        alloc,
        file,
        escape,
        texts,
        one.as_slice(),
        other.as_slice(),
    )?;
    let more = report_of_single(alloc, file, entry, one.as_slice())?;
    reported.push_str(more.as_str())?;
    Ok(reported)
}

/// Reports the same, if the translations count.
fn reported_if_translated(
    alloc: Global,
    file: &File,
    escape: Option<Escape>,
    entry: &Entry<'_>,
    id: &Template,
    plural: &Template,
) -> Result<String, Error>
    ensures reported { IfOk result (λ reported. id.now ≡ text_of entry.now.id.now
        → plural.now ≡ text_of entry.now.plural.now → When (is_translated (as_entry entry.now))
        (TellsTexts file.now escape (as_entry entry.now)) (string_bytes reported)) }
    ensures refused { IfErr result (λ error. answer_of error ≡ no_memory) }
{
    if is_translated(entry) {
        let reported = report_of_texts(alloc, file, escape, entry, id, plural)?;
        return Ok(reported);
    }
    Ok(String::new(alloc))
}

/// Reports what is wrong with the formats of a message and its translation.
fn report_of_formats(
    alloc: Global,
    file: &File,
    escape: Option<Escape>,
    entry: &Entry<'_>,
) -> Result<String, Error>
    ensures reported { IfOk result (λ reported.
        TellsFormats file.now escape (as_entry entry.now) (string_bytes reported)) }
    ensures refused { IfErr result (λ error. answer_of error ≡ no_memory) }
{
    let id = template_of(alloc, entry.id)?;
    let plural = template_of(alloc, entry.plural)?;
    let mut reported = report_of_format(alloc, file, escape, entry.id, &id)?;
    let more = report_of_format(alloc, file, escape, entry.plural, &plural)?;
    reported.push_str(more.as_str())?;
    let last = reported_if_translated(alloc, file, escape, entry, &id, &plural)?;
    reported.push_str(last.as_str())?;
    Ok(reported)
}

/// Whether a translation that counts, of a message with a plural, has another number of forms.
fn has_other_count(wanted: usize, entry: &Entry<'_>) -> bool
    ensures { result ≡ has_other_count wanted (as_entry entry.now) }
{
    is_translated(entry) && !entry.plural.is_empty() && entry.texts.len() != wanted
}

/// Reports that a translation has fewer or more forms than the file tells.
fn report_of_count(
    alloc: Global,
    file: &File,
    wanted: usize,
    entry: &Entry<'_>,
) -> Result<String, Error>
    ensures reported { IfOk result (λ reported.
        TellsCount file.now wanted (as_entry entry.now) (string_bytes reported)) }
    ensures refused { IfErr result (λ error. answer_of error ≡ no_memory) }
{
    if has_other_count(wanted, entry) {
        let count = entry.texts.len();
        let what = format!(in alloc; "{count} of {wanted} forms that Plural-Forms tells")?;
        let reported = reported_in_strings(alloc, file, entry.id, 0, what.as_str())?;
        return Ok(reported);
    }
    Ok(String::new(alloc))
}

/// Reports that a message stands twice, if it stands before.
fn report_of_twice(
    alloc: Global,
    file: &File,
    entry: &Entry<'_>,
    before: Option<&Entry<'_>>,
) -> Result<String, Error>
    ensures reported { IfOk result (λ reported.
        TellsTwice file.now (is_some before.entry) (string_bytes reported)) }
    ensures refused { IfErr result (λ error. answer_of error ≡ no_memory) }
{
    let Some(before) = before else {
        return Ok(String::new(alloc));
    };
    let text = file.text.as_str();
    let line = Position::of(text, place_of(text, before.id, 0)).line;
    let what = format!(in alloc; "line {line} has this message too")?;
    let reported = reported_in_strings(alloc, file, entry.id, 0, what.as_str())?;
    Ok(reported)
}

/// What tells a message from others: its text, behind its context, if it has one.
fn identity_of(alloc: Global, entry: &Entry<'_>) -> Result<String, Error> {
    let mut key = text_of(alloc, entry.context)?;
    if !entry.context.is_empty() {
        key.push('\u{4}')?;
    }
    let id = text_of(alloc, entry.id)?;
    key.push_str(id.as_str())?;
    Ok(key)
}

/// The index of the first message with each key.
fn firsts_of(alloc: Global, keys: &[String]) -> Result<HashMap<&str, usize>, Error> {
    let mut firsts = no_keys(alloc);
    let mut index = 0usize;
    for key in keys {
        add_key(&mut firsts, index, Some(key.as_str()))?;
        index = index.saturating_add(1);
    }
    Ok(firsts)
}

/// Reports what is wrong with the messages of a file: with its Plural-Forms, and with each message
/// that is not fuzzy.
pub fn report_of_entries(
    alloc: Global,
    file: &File,
    escape: Option<Escape>,
    forms: &PluralForms<'_>,
    entries: &[Entry<'_>],
) -> Result<String, Error> {
    let mut keys = Vec::with_capacity(alloc, entries.len())?;
    for entry in entries {
        keys.push(identity_of(alloc, entry)?)?;
    }
    let firsts = firsts_of(alloc, keys.as_slice())?;
    let mut reported = report_of_plural_forms(alloc, file, forms)?;
    let mut index = 0usize;
    for (entry, key) in entries.iter().zip(keys.as_slice()) {
        let before = match firsts.get(key.as_str()).copied() {
            Some(first) if first < index => entries.get(first),
            _ => None,
        };
        index = index.saturating_add(1);
        let more = report_of_twice(alloc, file, entry, before)?;
        reported.push_str(more.as_str())?;
        let more = report_of_count(alloc, file, forms.count, entry)?;
        reported.push_str(more.as_str())?;
        if !entry.is_fuzzy && !is_head(entry) {
            let more = report_of_formats(alloc, file, escape, entry)?;
            reported.push_str(more.as_str())?;
        }
    }
    Ok(reported)
}
