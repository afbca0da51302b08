//! The message under a text of a PO file.

ghost use Rattle.std.specs.Prelude.{◌≡◌, IfOk, slice_get};
ghost use Rattle.std.specs.Option.{option_map};
ghost use Rattle.po.specs.Entries.{as_entry, lists_of};
ghost use Rattle.catalogue.specs.PluralForms.{form_of, index_of, own_text};

use crate::entries::{Object, entries_of, pairs_of};
use crate::files::File;
use crate::messages::{Answer, made};
use crate::objects::objects_of;
use crate::plural_forms::{PluralForms, header_of, plural_forms, report_of_charset};
use crate::po_reports::{report_of_error, reported_at_byte};
use crate::rules::Named;
use crate::translations::{is_translated, report_of_entries, template_of};
use interpolator::{Error, Escape};
use plurals::{ParseError, Values, parse};
use po::{Entry, Placed, ReadError, text_of, tokens_of};
use std::alloc::{AllocError, Global};

/// The message that is looked up.
#[derive(Clone, Copy)]
pub struct Sought<'a> {
    /// Its `msgctxt`; empty for one that has none.
    pub context: &'a str,
    /// Its `msgid`.
    pub key: &'a str,
    pub words: &'a [String],
}

/// Reports where a file is no PO file.
fn broken(alloc: Global, file: &File, error: ReadError) -> Result<Answer, Error> {
    match error {
        ReadError::NoMemory => Err(Error::NoMemory),
        ReadError::Broken(fault) => {
            let reported = reported_at_byte(alloc, file, fault.place, fault.problem.as_str())?;
            Ok(Answer::Faults(reported))
        }
    }
}

/// Whether strings make this text.
fn is_text(alloc: Global, strings: &[Placed], text: &str) -> Result<bool, Error> {
    let made = text_of(alloc, strings)?;
    Ok(made.as_str() == text)
}

/// The message that is looked up.
fn found_in<'e, 't>(
    alloc: Global,
    entries: &'e [Entry<'t>],
    sought: &Sought<'_>,
) -> Result<Option<&'e Entry<'t>>, Error> {
    for entry in entries {
        if is_text(alloc, entry.context, sought.context)? && is_text(alloc, entry.id, sought.key)? {
            return Ok(Some(entry));
        }
    }
    Ok(None)
}

/// The text of a message for a number, without its translation.
fn own_text<'t>(entry: &Entry<'t>, number: u128) -> &'t [Placed]
    ensures { result.now ≡ own_text (as_entry entry.now) number }
{
    if entry.plural.is_empty() || number == 1 {
        return entry.id;
    }
    entry.plural
}

/// Which form a rule chooses of a message for a number.
fn index_of(alloc: Global, rule: &str, entry: &Entry<'_>, number: u128) -> Result<u128, AllocError>
    ensures { IfOk result (λ index. index ≡ index_of rule.now (as_entry entry.now) number) }
{
    if entry.plural.is_empty() {
        return Ok(0);
    }
    match parse(alloc, rule) {
        Ok(read) => Ok(read.value(&number)),
        Err(ParseError::Broken(_)) => Ok(0),
        Err(ParseError::NoMemory) => Err(AllocError),
    }
}

/// The form of this index, if there is one.
fn form_at<'t>(texts: &[&'t [Placed]], index: u128) -> Option<&'t [Placed]>
    ensures { option_map (λ x. x.now) result ≡ slice_get (lists_of texts.now) index }
{
    match usize::try_from(index) {
        Ok(index) => texts.get(index).copied(),
        Err(_) => None,
    }
}

/// The strings of the form that a rule chooses of a message for a number, or of its own text, if it
/// has no translation that counts.
fn form_of<'t>(
    alloc: Global,
    rule: &str,
    entry: &Entry<'t>,
    number: u128,
) -> Result<&'t [Placed], AllocError>
    ensures { IfOk result (λ form. form.now ≡ form_of rule.now (as_entry entry.now) number) }
{
    let own = own_text(entry, number);
    if !is_translated(entry) {
        return Ok(own);
    }
    let index = index_of(alloc, rule, entry, number)?;
    match form_at(entry.texts.as_slice(), index) {
        Some(form) => Ok(form),
        None => Ok(own),
    }
}

/// The text of a format that strings make, with the values of objects; or its fault.
fn text_of_strings(
    alloc: Global,
    file: &File,
    escape: Option<Escape>,
    strings: &[Placed],
    objects: &[Object<'_>],
) -> Result<Answer, Error> {
    let template = template_of(alloc, strings)?;
    let entries = entries_of(alloc, objects)?;
    let pairs = pairs_of(alloc, entries.as_slice())?;
    match made(alloc, escape, &template, pairs.as_slice()) {
        Ok(message) => Ok(Answer::Message(message)),
        Err(Error::NoMemory) => Err(Error::NoMemory),
        Err(error) => Ok(Answer::Faults(report_of_error(alloc, file, strings, &error)?)),
    }
}

/// The message that is looked up among those of a file without a fault; or what is missing for it.
fn translation(
    alloc: Global,
    file: &File,
    escape: Option<Escape>,
    forms: &PluralForms<'_>,
    entries: &[Entry<'_>],
    sought: &Sought<'_>,
) -> Result<Answer, Error> {
    let values = objects_of(alloc, sought.words)?;
    let objects = match &values {
        Ok(objects) => objects.as_slice(),
        Err(word) => return Ok(Answer::BadWord(String::from_str(alloc, word)?)),
    };
    let name = file.name.as_str();
    let key = sought.key;
    let Some(entry) = found_in(alloc, entries, sought)? else {
        let reported = format!(in alloc; "{name}: no message `{key}`\n")?;
        return Ok(Answer::Faults(reported));
    };
    match Named(objects).number("n") {
        None if !entry.plural.is_empty() => {
            let reported = format!(in alloc; "{name}: `{key}` wants `n:=NUMBER`\n")?;
            Ok(Answer::Faults(reported))
        }
        number => {
            let strings = form_of(alloc, forms.rule, entry, number.unwrap_or(1))?;
            text_of_strings(alloc, file, escape, strings, objects)
        }
    }
}

/// All that is wrong with a PO file; if nothing is, the message that is looked up, if one is.
///
/// A message that is fuzzy, or has no translation, has its own text. The form of one with a plural
/// is that which the file's Plural-Forms choose by the number `n`.
///
/// # Errors
///
/// `NoMemory`.
pub fn in_po(
    alloc: Global,
    file: &File,
    escape: Option<Escape>,
    sought: Option<Sought<'_>>,
) -> Result<Answer, Error> {
    let tokens = match tokens_of(alloc, file.text.as_str()) {
        Ok(tokens) => tokens,
        Err(error) => return broken(alloc, file, error),
    };
    let entries = match po::entries_of(alloc, file.text.len(), tokens.as_slice()) {
        Ok(entries) => entries,
        Err(error) => return broken(alloc, file, error),
    };
    let header = header_of(entries.as_slice());
    let head = text_of(alloc, header)?;
    let forms = plural_forms(header, head.as_str());
    let mut reported = report_of_charset(alloc, file, header, head.as_str())?;
    let more = report_of_entries(alloc, file, escape, &forms, entries.as_slice())?;
    reported.push_str(more.as_str())?;
    match sought {
        Some(sought) if reported.is_empty() => {
            translation(alloc, file, escape, &forms, entries.as_slice(), &sought)
        }
        _ => Ok(Answer::Faults(reported)),
    }
}
