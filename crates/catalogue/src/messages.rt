//! The message under a key of files that are sound.

ghost use Rattle.std.specs.Prelude.{◌≡◌, IfOk, IfErr, None, map, string_bytes};
ghost use Rattle.std.specs.{List.All, Option.option_map, Str.chars};
ghost use Rattle.interpolator.specs.{Places.outermost, Contexts.found_by_pairs, Faults.answer_of};
ghost use Rattle.interpolator.specs.{Faults.no_memory, Meaning.Environments.environment};
ghost use Rattle.interpolator.specs.{Meaning.Meanings.means, Meaning.Outcomes.Formats};
ghost use Rattle.interpolator_escapes.specs.Formats.{escaped_shows};
ghost use Rattle.catalogue.specs.Files.{as_line, as_page, page_of};
ghost use Rattle.catalogue.specs.Messages.{Answers, IsMadeOrReported, Replies, escaped_by, given};
ghost use Rattle.catalogue.specs.FileReports.{reported_absent, report_of_absent};
ghost use Rattle.catalogue.specs.{Declarations.declared_by, Entries.held_by_entry};
ghost use Rattle.catalogue.specs.{Examples.view_shows, Sound.IsSoundOver, Objects.IsGiven};
ghost use Rattle.words.specs.Declarations.{as_declaration};

use crate::checks::{Found, Verdict, checked};
use crate::entries::{Entry, Object, pairs_of};
use crate::files::{File, Page, pages_of};
use crate::forms::{choice_in, or_form};
use crate::line_faults::report_of_fault;
use crate::objects::objects_of;
use crate::picks::{Picked, picks_of, report_of_missing_word};
use interpolator::{Error, Escape, Formattable, Interpolate, Pairs, Template, Value, View};
use interpolator_escapes::laws::escapes_make_no_fault;
use interpolator_escapes::{CsvEscaper, HtmlEscaper, JsonEscaper, LineEscaper, ShellEscaper};
use interpolator_laws::samples::{a_checked_format_means_no_fault, a_view_has_a_text_by_its_kind};
use interpolator_pieces::format_by;
use std::alloc::Global;

/// What the program prints.
#[derive(Drop)]
pub enum Answer {
    /// The message.
    Message(String),
    /// Everything that is wrong, fault by fault.
    Faults(String),
    /// That no file has the key.
    Absent(String),
    /// The first word that gives no value.
    BadWord(String),
}

/// Reports that a file has no message under a key, nor under its form.
fn reported_absent(
    alloc: Global,
    page: &Page<'_>,
    key: &str,
    objects: &[Object<'_>],
) -> Result<String, Error>
    ensures reported { IfOk result (λ reported.
        string_bytes reported ≡ reported_absent objects.now key.now (as_page page.now)) }
    ensures refused { IfErr result (λ error. answer_of error ≡ no_memory) }
{
    let choice = choice_in(alloc, objects, page.texts.as_slice())?;
    let form = or_form(alloc, key, choice)?;
    let name = page.file;
    let reported = format!(in alloc; "{name}: no message `{key}`{form}\n")?;
    Ok(reported)
}

/// Reports that no file has a message under a key, nor under its form, for each of them.
fn report_of_absent(
    alloc: Global,
    pages: &[Page<'_>],
    key: &str,
    objects: &[Object<'_>],
) -> Result<String, Error>
    ensures reported { IfOk result (λ reported.
        string_bytes reported ≡ report_of_absent objects.now key.now (map as_page pages.now)) }
    ensures refused { IfErr result (λ error. answer_of error ≡ no_memory) }
{
    let mut reported = String::new(alloc);
    for page in pages {
        let more = reported_absent(alloc, page, key, objects)?;
        reported.push_str(more.as_str())?;
    }
    Ok(reported)
}

/// The text of a format with these pairs, each value escaped.
fn made_escaped<V: Value>(
    alloc: Global,
    escape: Escape,
    format: &str,
    pairs: &Pairs<'_, V>,
) -> Result<String, Error>
    ensures { Formats (means (escaped_shows escape V.shows)
        (environment (found_by_pairs pairs.now.0.now)) (outermost (chars format.now))) result }
{
    match escape {
        Escape::Line => format_by::<Pairs<'_, V>, LineEscaper>(alloc, format, pairs),
        Escape::Html => format_by::<Pairs<'_, V>, HtmlEscaper>(alloc, format, pairs),
        Escape::Csv => format_by::<Pairs<'_, V>, CsvEscaper>(alloc, format, pairs),
        Escape::Json => format_by::<Pairs<'_, V>, JsonEscaper>(alloc, format, pairs),
        Escape::Shell => format_by::<Pairs<'_, V>, ShellEscaper>(alloc, format, pairs),
    }
}

/// The text of a format with these pairs, each value escaped, if that is asked for.
pub fn made(
    alloc: Global,
    escape: Option<Escape>,
    template: &Template,
    pairs: &[(&str, Formattable<'_, View<'_>>)],
) -> Result<String, Error>
    ensures formats { Formats (means (escaped_by escape view_shows)
        (environment (found_by_pairs pairs.now)) (outermost (chars template.now))) result }
{
    let pairs = Pairs(pairs);
    match escape {
        None => pairs.format_template(alloc, template),
        Some(escape) => made_escaped(alloc, escape, template.text(), &pairs),
    }
}

/// The message of a line, or its fault.
fn said(
    alloc: Global,
    escape: Option<Escape>,
    found: &Found<'_, '_>,
    entries: &[Entry<'_>],
) -> Result<Answer, Error>
    ensures said { IfOk result (λ answer. IsMadeOrReported escape (as_line found.now.line)
        found.now.template (map held_by_entry entries.now) answer) }
    ensures refused { IfErr result (λ error. answer_of error ≡ no_memory) }
{
    let pairs = pairs_of(alloc, entries)?;
    match made(alloc, escape, &found.template, pairs.as_slice()) {
        Ok(message) => Ok(Answer::Message(message)),
        Err(error) => match error.place() {
            None => Err(error),
            Some(_) => {
                let format = found.template.text();
                let reported = report_of_fault(alloc, &found.line, format, &error)?;
                Ok(Answer::Faults(reported))
            }
        },
    }
}

/// The message of a sound line with the values that are picked for it; or which value is missing,
/// or its fault.
fn message(
    alloc: Global,
    escape: Option<Escape>,
    key: &str,
    found: &Found<'_, '_>,
    objects: &[Object<'_>],
) -> Result<Answer, Error>
    ensures replies { IfOk result (λ answer. IsSoundOver (declared_by found.now.heading)
        found.now.template → All IsGiven objects.now → Replies escape answer None
        (as_line found.now.line) key.now (declared_by found.now.heading) found.now.template
        objects.now) }
    ensures refused { IfErr result (λ error. answer_of error ≡ no_memory) }
{
    a_view_has_a_text_by_its_kind();
    a_checked_format_means_no_fault::<View<'_>, View<'_>>();
    escapes_make_no_fault::<View<'_>>();
    match picks_of(alloc, objects, &found.heading)? {
        Picked::Values(entries) => said(alloc, escape, found, entries.as_slice()),
        Picked::Lacks(lacking) => {
            let reported = report_of_missing_word(alloc, &found.line, key, &lacking)?;
            Ok(Answer::Faults(reported))
        }
    }
}

/// What the sound line that was found comes to: what is missing to choose its form, or its message.
fn reply(
    alloc: Global,
    escape: Option<Escape>,
    key: &str,
    found: &Found<'_, '_>,
    objects: &[Object<'_>],
) -> Result<Answer, Error>
    ensures replies { IfOk result (λ answer. IsSoundOver (declared_by found.now.heading)
        found.now.template → All IsGiven objects.now
        → Replies escape answer (option_map as_declaration found.now.lacks)
        (as_line found.now.line) key.now (declared_by found.now.heading) found.now.template
        objects.now) }
    ensures refused { IfErr result (λ error. answer_of error ≡ no_memory) }
{
    let Some(lacking) = found.lacks else {
        return message(alloc, escape, key, found, objects);
    };
    let reported = report_of_missing_word(alloc, &found.line, key, &lacking)?;
    Ok(Answer::Faults(reported))
}

/// The objects that words give; none, if a word gives nothing.
fn given<'o, 'a>(objects: &'o Result<Vec<Object<'a>>, &'a str>) -> &'o [Object<'a>]
    ensures { result.now ≡ given objects.now }
{
    match objects {
        Ok(objects) => objects.as_slice(),
        Err(_) => &[],
    }
}

/// What `look_up` answers, by the lines of the files.
fn look_up_in(
    alloc: Global,
    escape: Option<Escape>,
    pages: &[Page<'_>],
    key: &str,
    words: &[String],
) -> Result<Answer, Error>
    ensures answers { IfOk result (λ answer.
        Answers escape (map as_page pages.now) key.now words.now answer) }
    ensures refused { IfErr result (λ error. answer_of error ≡ no_memory) }
{
    let values = objects_of(alloc, words)?;
    let objects = given(&values);
    let Verdict { reported, found } = checked(alloc, pages, key, objects)?;
    if !reported.is_empty() {
        return Ok(Answer::Faults(reported));
    }
    match &values {
        Err(word) => {
            let bad = String::from_str(alloc, word)?;
            Ok(Answer::BadWord(bad))
        }
        Ok(_) => match &found {
            Some(found) => reply(alloc, escape, key, found, objects),
            None => {
                let absent = report_of_absent(alloc, pages, key, objects)?;
                Ok(Answer::Absent(absent))
            }
        },
    }
}

/// The message under a key, or under its form, in the first file that has it, with the values of
/// words `NAME=TEXT`, `NAME:=NUMBER`, `NAME:.=DECIMAL`, `NAME:~=FLOAT` and `NAME[]=ITEM,ITEM..`,
/// each value escaped, if that is asked for; or all that is wrong with the files, or else with the
/// words, the key or the message.
///
/// There is a message only if every line of every file but blank ones, comments and a whole rule
/// before all messages is sound: it has an `=` and a key that no line before it has, its
/// declarations are whole, and its format has no fault, by itself or with examples of what the line
/// declares. Else all faults of each line are reported. A byte order mark at the head of a file is
/// skipped. Of two words with one name the last counts.
///
/// A line before all messages may be a rule, `plural: n == 0 ? zero : n == 1 ? one : other`. Then
/// the key `cart` in a file that has no line of it is `cart.one` if the number of the last word of
/// the name `n` is 1, and so on: the form is that of the first test that holds, or for which a
/// number or a text is missing, or else the last one. What is missing is reported, if the line of
/// the form is there. `plural: gender == 'f' ? she : they` chooses by the text of `gender`.
///
/// The format of a line that declares names gets the words of these names, in any order, and no
/// others. If one of them is missing, or of another kind, that is reported; else the message has no
/// fault.
///
/// # Errors
///
/// `NoMemory`.
pub fn look_up(
    alloc: Global,
    escape: Option<Escape>,
    files: &[File],
    key: &str,
    words: &[String],
) -> Result<Answer, Error>
    ensures answers { IfOk result (λ answer.
        Answers escape (map page_of files.now) key.now words.now answer) }
    ensures refused { IfErr result (λ error. answer_of error ≡ no_memory) }
{
    let pages = pages_of(alloc, files)?;
    look_up_in(alloc, escape, pages.as_slice(), key, words)
}
