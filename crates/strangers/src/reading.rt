//! The arguments of the command line: limits, a format, and words.
ghost use Rattle.std.specs.Prelude.{◌≡◌, IfOk, MatchOption, MatchResult, map, string_bytes};
ghost use Rattle.std.specs.Option.{option_map};
ghost use Rattle.strangers.specs.Reading.{as_asked, asked_by, is_flag, limit_of, with_flag};
ghost use Rattle.strangers.specs.Reading.{with_limit};
ghost use Rattle.strangers.specs.Words.{GiveAll, Gives, IsFirstBad, are_texts, text_in, IsGood};
ghost use Rattle.strangers.specs.declared.values.Given.TheVariants.{One};
ghost use Rattle.words.specs.Items.{texts_of};

use crate::serving::Allowed;
use crate::values::{Datum, Given, Word};
use interpolator::{Cost, Limits};
use std::alloc::{AllocError, Global};
use words::{Word as Assigned, classify, items};

/// The limits by default.
const USUAL: Allowed = Allowed {
    values: Limits {
        text: 80,
        items: 20,
    },
    most: Cost {
        characters: 10_000,
        pieces: 1_000,
        buffered: 10_000,
    },
};

/// A command line: the limits, the format, and the words after it.
#[derive(Clone, Copy)]
pub struct Request<'a> {
    pub allowed: Allowed,
    pub format: &'a str,
    pub words: &'a [String],
}

/// These limits with a new number for the one that a flag names, if there is such a flag.
fn with_limit(allowed: Allowed, flag: &str, limit: usize) -> Option<Allowed>
    ensures { result ≡ with_limit allowed flag.now limit }
{
    let Allowed { values, most } = allowed;
    match flag {
        "--characters" => Some(Allowed {
            values,
            most: Cost {
                characters: limit,
                ..most
            },
        }),
        "--pieces" => Some(Allowed {
            values,
            most: Cost {
                pieces: limit,
                ..most
            },
        }),
        "--buffered" => Some(Allowed {
            values,
            most: Cost {
                buffered: limit,
                ..most
            },
        }),
        "--text" => Some(Allowed {
            values: Limits {
                text: limit,
                ..values
            },
            most,
        }),
        "--items" => Some(Allowed {
            values: Limits {
                items: limit,
                ..values
            },
            most,
        }),
        _ => None,
    }
}

/// The limit that a text sets, if any: digits after an optional `+`, within `usize`.
fn limit_of(text: &str) -> Option<usize>
    ensures { result ≡ limit_of text.now }
{
    text.parse::<usize>().ok()
}

/// These limits with the number that a text sets for a flag, if it does.
fn with_flag(allowed: Allowed, flag: &str, text: &str) -> Option<Allowed>
    ensures { result ≡ with_flag allowed flag.now text.now }
{
    with_limit(allowed, flag, limit_of(text)?)
}

/// Whether a text begins as flags do.
fn is_flag(text: &str) -> bool
    ensures { result ≡ is_flag text.now }
{
    text.starts_with("--")
}

/// Reads a command line: flags with their numbers, a format, and words. `--` ends the flags, so a
/// format that begins with `--` comes after it.
///
/// `None` if there is no format, or a flag is unknown or has no number. A flag that stands twice
/// has its last number.
pub fn asked_by(line: &[String]) -> Option<Request<'_>>
    ensures { option_map as_asked result ≡ asked_by (map string_bytes line.now) }
{
    let mut allowed = USUAL;
    let mut rest = line;
    loop {
        let (first, others) = rest.split_first()?;
        if first.as_str() == "--" {
            let (format, words) = others.split_first()?;
            return Some(Request {
                allowed,
                format: format.as_str(),
                words,
            });
        }
        if !is_flag(first.as_str()) {
            return Some(Request {
                allowed,
                format: first.as_str(),
                words: others,
            });
        }
        let (number, others) = others.split_first()?;
        allowed = with_flag(allowed, first.as_str(), number.as_str())?;
        rest = others;
    }
}

/// Each text as a value.
fn values_of<'a>(alloc: Global, texts: &[&'a str]) -> Result<Vec<Datum<'a>>, AllocError>
    ensures { IfOk result (λ values. map text_in values.items ≡ are_texts (texts_of texts.now)) }
{
    let mut values = Vec::with_capacity(alloc, texts.len())?;
    for text in texts {
        values.push(Datum::Text(text))?;
    }
    Ok(values)
}

/// The word that gives one value.
fn single<'a>(name: &'a str, value: Datum<'a>) -> Word<'a>
    ensures name { result.name.now ≡ name.now }
    ensures given { result.given ≡ One value.entry }
{
    Word {
        name,
        given: Given::One(value),
    }
}

/// Reads a word; `None` for one that gives nothing.
fn word_of(alloc: Global, word: &str) -> Result<Option<Word<'_>>, AllocError>
    ensures { IfOk result (λ found. MatchOption found (¬ IsGood word.now)
        (λ given. Gives word.now given)) }
{
    match classify(word) {
        Assigned::Bad => Ok(None),
        Assigned::Float { .. } => Ok(None),
        Assigned::Text { name, text } => Ok(Some(single(name, Datum::Text(text)))),
        Assigned::Number { name, value } => Ok(Some(single(name, Datum::Number(value)))),
        Assigned::Decimal { name, value } => Ok(Some(single(name, Datum::Decimal(value)))),
        Assigned::List { name, items: text } => {
            let texts = items(alloc, text)?;
            let given = Given::Many(values_of(alloc, texts.as_slice())?);
            Ok(Some(Word { name, given }))
        }
    }
}

/// Reads the words, or returns the first that gives no value.
///
/// # Errors
///
/// Memory ran out.
pub fn words_of(alloc: Global, words: &[String]) -> Result<Result<Vec<Word<'_>>, &str>, AllocError>
    ensures { IfOk result (λ found. MatchResult found
        (λ read. GiveAll (map string_bytes words.now) read.items)
        (λ bad. IsFirstBad (map string_bytes words.now) bad.now)) }
{
    let mut read = Vec::with_capacity(alloc, words.len())?;
    for word in words {
        match word_of(alloc, word.as_str())? {
            Some(word) => read.push(word)?,
            None => return Ok(Err(word.as_str())),
        }
    }
    Ok(Ok(read))
}
