//! A format whose fault is shown in it.

use crate::binding::{Entry, entries_of, fill, objects_of};
use crate::command::first_bad;
use crate::run::{complain, report, report_fault, usage};
use interpolator::{ContextMap, Error, Interpolate, explain_with_names};
use std::alloc::Global;
use std::io::Write;
use words::Word;
use words::formats::source_of;

/// What a format on a command line is called.
const NAME: &str = "format";

/// Runs a command line as [`answer`](crate::command::answer) does, but a fault of the format is
/// shown in its line, as a compiler does, and below a missing name those that there are.
pub fn answer_explained<O: Write, E: Write>(
    alloc: Global,
    line: &[String],
    out: &mut O,
    err: &mut E,
) -> u8 {
    let Some((format, words)) = line.split_first() else {
        return usage(err);
    };
    if let Some(word) = first_bad(words) {
        return complain(word, err);
    }
    match text_or_picture(alloc, format.as_str(), words) {
        Ok(Outcome::Text(text)) => report(Ok(text), out, err),
        Ok(Outcome::Picture(picture)) => report_fault(picture.as_str(), err),
        Err(error) => report(Err(error), out, err),
    }
}

/// What a format and words give.
#[derive(Drop)]
enum Outcome {
    /// A text.
    Text(String),
    /// Its fault, shown in the format.
    Picture(String),
}

// The text of a format with the values of words, or its fault, shown.
fn text_or_picture(alloc: Global, format: &str, words: &[String]) -> Result<Outcome, Error> {
    let objects = objects_of(alloc, words)?;
    let entries = entries_of(alloc, objects.as_slice())?;
    let mut context = ContextMap::new(alloc);
    for entry in &entries {
        let items = entry.items.as_slice();
        fill(&mut context, entry.word, entry.value, items)?;
    }
    match context.format(alloc, format) {
        Ok(text) => Ok(Outcome::Text(text)),
        Err(Error::NoMemory) => Err(Error::NoMemory),
        Err(error) => {
            let picture = picture_of(alloc, format, &error, entries.as_slice())?;
            Ok(Outcome::Picture(picture))
        }
    }
}

// A fault, shown in the format.
fn picture_of(
    alloc: Global,
    format: &str,
    error: &Error,
    entries: &[Entry<'_>],
) -> Result<String, Error> {
    let mut names = Vec::with_capacity(alloc, entries.len())?;
    for entry in entries {
        names.push(name_of(entry.word))?;
    }
    explain_with_names(alloc, &source_of(NAME, format), error, names.as_slice())
}

// The name of a word.
fn name_of(word: Word<'_>) -> &str {
    match word {
        Word::Text { name, text: _ } => name,
        Word::Number { name, value: _ } => name,
        Word::Decimal { name, value: _ } => name,
        Word::Float { name, value: _ } => name,
        Word::List { name, items: _ } => name,
        Word::Bad => "",
    }
}
