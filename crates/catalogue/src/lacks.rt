//! Keys that lack a form which the rule of their file can choose.

ghost use Rattle.std.specs.Prelude.{◌≡◌, List, IfErr, IfOk, OnOk, map, string_bytes};
ghost use Rattle.std.specs.{List.concat, Option.option_map, Path.rsplit_once};
ghost use Rattle.interpolator.specs.Faults.{answer_of, no_memory};
ghost use Rattle.plurals.specs.{Trees.tree_of, Values.forms};
ghost use Rattle.words.specs.Items.{texts_of};
ghost use Rattle.catalogue.specs.Files.{Line as PlainLine, as_line, page_of};
ghost use Rattle.catalogue.specs.Lacks.{HasFirsts, all_quoted, each_once, first_of, forms_in};
ghost use Rattle.catalogue.specs.Lacks.{has_before, is_before, is_form, is_one_of, key_if_message};
ghost use Rattle.catalogue.specs.Lacks.{key_with_forms, lacking, lacking_in_file, lacking_in_files};
ghost use Rattle.catalogue.specs.Lacks.{lacking_at_key, lacking_in_line, what_is_lacking};
ghost use Rattle.catalogue.specs.Lacks.{with_text};

use crate::declarations::{begin_of, key_in};
use crate::files::{File, Line, lines_of, page_of};
use crate::forms::{key_of_form, rule_of, text_of_form};
use crate::keys::{add_key, no_keys};
use crate::lines::message_of;
use crate::reports::reported_at;
use interpolator::Error;
use plurals::{Expression, ParseError, parse};
use std::alloc::{AllocError, Global};
use std::collections::HashMap;

/// The key of the message of a line, if it has one.
pub fn key_of(line: &str) -> Option<&str>
    ensures { option_map (λ x. x.now) result ≡ key_if_message line.now }
{
    match message_of(line) {
        Some(head) => Some(key_in(head)),
        None => None,
    }
}

/// The keys of messages in some lines, each with the number of its first line.
fn keys_of<'a>(alloc: Global, lines: &[Line<'_, 'a>]) -> Result<HashMap<&'a str, usize>, AllocError>
    ensures { IfOk result (λ keys. HasFirsts (map as_line lines.now) keys) }
{
    let mut keys = no_keys(alloc);
    for line in lines {
        add_key(&mut keys, line.number, key_of(line.text))?;
    }
    Ok(keys)
}

/// The number of the first line that has a key, if one has.
fn first_of(keys: &HashMap<&str, usize>, key: &str) -> Option<usize>
    ensures { (lines : List PlainLine) → HasFirsts lines keys.now
        → result ≡ first_of lines key.now }
{
    keys.get(key).copied()
}

/// Whether one of some texts is this one.
fn has_text(texts: &[String], text: &str) -> bool
    ensures { result ≡ is_one_of (map string_bytes texts.now) text.now }
{
    for one in texts {
        if one.as_str() == text {
            return true;
        }
    }
    false
}

/// Adds a text, unless it is there.
fn add_once(found: &mut Vec<String>, text: String) -> Result<(), AllocError>
    ensures { OnOk result (map string_bytes found.new.items
        ≡ with_text (map string_bytes found.old.items) (string_bytes text)) }
{
    if !has_text(found.as_slice(), text.as_str()) {
        found.push(text)?;
    }
    Ok(())
}

/// The forms that a rule can choose, each once.
fn forms_of(alloc: Global, read: &Expression<'_>) -> Result<Vec<String>, AllocError>
    ensures { IfOk result (λ found.
        map string_bytes found.items ≡ each_once (forms (tree_of read.now))) }
{
    let mut all = Vec::new(alloc);
    read.push_forms(&mut all)?;
    let mut found = Vec::new(alloc);
    for form in &all {
        add_once(&mut found, text_of_form(alloc, *form)?)?;
    }
    Ok(found)
}

/// The forms that the rule of some lines can choose; none, if they have no rule, or a broken one.
fn forms_in(alloc: Global, lines: &[&str]) -> Result<Vec<String>, AllocError>
    ensures { IfOk result (λ found. map string_bytes found.items ≡ forms_in (texts_of lines.now)) }
{
    let Some(rule) = rule_of(lines) else {
        return Ok(Vec::new(alloc));
    };
    match parse(alloc, rule) {
        Ok(read) => forms_of(alloc, &read),
        Err(ParseError::Broken(_)) => Ok(Vec::new(alloc)),
        Err(ParseError::NoMemory) => Err(AllocError),
    }
}

/// The forms of a key of which no line has a message.
fn lacking<'f>(
    alloc: Global,
    key: &str,
    forms: &'f [String],
    keys: &HashMap<&str, usize>,
) -> Result<Vec<&'f str>, AllocError>
    ensures { IfOk result (λ found. (lines : List PlainLine) → HasFirsts lines keys.now
        → texts_of found.items ≡ lacking lines key.now (map string_bytes forms.now)) }
{
    let mut found = Vec::new(alloc);
    for form in forms {
        let whole = key_of_form(alloc, key, form.as_str())?;
        if first_of(keys, whole.as_str()).is_none() {
            found.push(form.as_str())?;
        }
    }
    Ok(found)
}

/// Whether the first line that has a key, if one has, is before the one of this number.
fn is_before(number: usize, first: Option<usize>) -> bool
    ensures { result ≡ is_before number first }
{
    match first {
        Some(first) => first < number,
        None => false,
    }
}

/// Whether a line before the one of this number has one of some forms of a key.
fn has_before(
    alloc: Global,
    number: usize,
    key: &str,
    forms: &[String],
    keys: &HashMap<&str, usize>,
) -> Result<bool, AllocError>
    ensures { IfOk result (λ is_there. (lines : List PlainLine) → HasFirsts lines keys.now
        → is_there ≡ has_before lines number key.now (map string_bytes forms.now)) }
{
    for form in forms {
        let whole = key_of_form(alloc, key, form.as_str())?;
        if is_before(number, first_of(keys, whole.as_str())) {
            return Ok(true);
        }
    }
    Ok(false)
}

/// The parts of a key around its last `.`, if it has one.
pub fn around_dot(key: &str) -> Option<(&str, &str)>
    ensures { option_map (λ x. (x.0.now, x.1.now)) result ≡ rsplit_once 46 key.now }
{
    key.rsplit_once('.')
}

/// Whether a form is one of some forms, and no line has the key itself.
fn is_form(key: &str, form: &str, forms: &[String], keys: &HashMap<&str, usize>) -> bool
    ensures { (lines : List PlainLine) → HasFirsts lines keys.now
        → result ≡ is_form lines (map string_bytes forms.now) key.now form.now }
{
    has_text(forms, form) && first_of(keys, key).is_none()
}

/// The key of which this is one of some forms, if no line has the key itself.
fn key_with_forms<'a>(
    whole: &'a str,
    forms: &[String],
    keys: &HashMap<&str, usize>,
) -> Option<&'a str>
    ensures { (lines : List PlainLine) → HasFirsts lines keys.now → option_map (λ x. x.now) result
        ≡ key_with_forms lines (map string_bytes forms.now) whole.now }
{
    match around_dot(whole) {
        Some((key, form)) if is_form(key, form, forms, keys) => Some(key),
        _ => None,
    }
}

/// Some texts between backquotes, with commas between.
fn all_quoted(alloc: Global, first: &str, more: &[&str]) -> Result<String, AllocError>
    ensures { IfOk result (λ reported. string_bytes reported ≡ all_quoted first.now (texts_of more.now)) }
{
    let mut reported = format!(in alloc; "`{first}`")?;
    for text in more {
        let part = format!(in alloc; ", `{text}`")?;
        reported.push_str(part.as_str())?;
    }
    Ok(reported)
}

/// What is reported of a key that lacks forms.
fn what_is_lacking(
    alloc: Global,
    key: &str,
    first: &str,
    more: &[&str],
) -> Result<String, AllocError>
    ensures { IfOk result (λ what.
        string_bytes what ≡ what_is_lacking key.now first.now (texts_of more.now)) }
{
    let forms = all_quoted(alloc, first, more)?;
    let what = format!(in alloc; "`{key}` lacks forms that the rule can choose: {forms}")?;
    Ok(what)
}

/// Reports the forms that a key lacks, if it lacks any.
fn lacking_at_key(
    alloc: Global,
    line: &Line<'_, '_>,
    head: &str,
    key: &str,
    lacks: &[&str],
) -> Result<String, Error>
    ensures reported { IfOk result (λ reported. string_bytes reported
        ≡ lacking_at_key (as_line line.now) head.now key.now (texts_of lacks.now)) }
    ensures refused { IfErr result (λ error. answer_of error ≡ no_memory) }
{
    let Some((first, more)) = lacks.split_first() else {
        return Ok(String::new(alloc));
    };
    let what = what_is_lacking(alloc, key, first, more)?;
    reported_at(alloc, line, begin_of(0, head), what.as_str())
}

/// Reports the forms that a key lacks, in the first line that has one of them.
fn lacking_in_line(
    alloc: Global,
    line: &Line<'_, '_>,
    forms: &[String],
    keys: &HashMap<&str, usize>,
) -> Result<String, Error>
    ensures reported { IfOk result (λ reported. (lines : List PlainLine) → HasFirsts lines keys.now
        → string_bytes reported
        ≡ lacking_in_line lines (map string_bytes forms.now) (as_line line.now)) }
    ensures refused { IfErr result (λ error. answer_of error ≡ no_memory) }
{
    let Some(head) = message_of(line.text) else {
        return Ok(String::new(alloc));
    };
    let Some(key) = key_with_forms(key_in(head), forms, keys) else {
        return Ok(String::new(alloc));
    };
    if has_before(alloc, line.number, key, forms, keys)? {
        return Ok(String::new(alloc));
    }
    let lacks = lacking(alloc, key, forms, keys)?;
    lacking_at_key(alloc, line, head, key, lacks.as_slice())
}

/// Reports the forms that the keys of some lines lack.
fn lacking_in_lines(
    alloc: Global,
    lines: &[Line<'_, '_>],
    forms: &[String],
) -> Result<String, Error>
    ensures reported { IfOk result (λ reported. string_bytes reported ≡ concat (map
        (lacking_in_line (map as_line lines.now) (map string_bytes forms.now))
        (map as_line lines.now))) }
    ensures refused { IfErr result (λ error. answer_of error ≡ no_memory) }
{
    let keys = keys_of(alloc, lines)?;
    let mut reported = String::new(alloc);
    for line in lines {
        let more = lacking_in_line(alloc, line, forms, &keys)?;
        reported.push_str(more.as_str())?;
    }
    Ok(reported)
}

/// Reports the forms that the keys of a file lack.
fn lacking_in_file(alloc: Global, file: &File) -> Result<String, Error>
    ensures reported { IfOk result (λ reported. string_bytes reported ≡ lacking_in_file (page_of file.now)) }
    ensures refused { IfErr result (λ error. answer_of error ≡ no_memory) }
{
    let page = page_of(alloc, file)?;
    let lines = lines_of(alloc, &page)?;
    let forms = forms_in(alloc, page.texts.as_slice())?;
    lacking_in_lines(alloc, lines.as_slice(), forms.as_slice())
}

/// Reports the keys of some files that lack a form which the rule of their file can choose, though
/// they have another: each once, in the first line that has one.
///
/// # Errors
///
/// `NoMemory`.
pub fn lacking_forms(alloc: Global, files: &[File]) -> Result<String, Error>
    ensures reported { IfOk result (λ reported.
        string_bytes reported ≡ lacking_in_files (map page_of files.now)) }
    ensures refused { IfErr result (λ error. answer_of error ≡ no_memory) }
{
    let mut reported = String::new(alloc);
    for file in files {
        let more = lacking_in_file(alloc, file)?;
        reported.push_str(more.as_str())?;
    }
    Ok(reported)
}
