//! What the program does with a command line.

ghost use Rattle.std.specs.Prelude.{◌≡◌, IfErr, IfOk, MatchBool, MatchOption, OnErr};
ghost use Rattle.interpolator.specs.declared.Error.TheVariants.{NoMemory};
ghost use Rattle.words.specs.Words.{IsGood};
ghost use Rattle.ifmt.specs.Command.{AllGood, Answers, IsFirstBad, RunsOver};

use crate::binding::{entries_of, fill, objects_of};
use crate::run::{complain, report, run, usage};
use interpolator::{ContextMap, Error};
use std::alloc::Global;
use std::io::Write;
use words::{Word, classify};

/// Runs a command line: a format and the words after it.
///
/// Without a format it writes the usage line. If a word is bad, it complains of the first such
/// word, and does not read the format. Returns the status of the program.
pub fn answer<O: Write, E: Write>(alloc: Global, line: &[String], out: &mut O, err: &mut E) -> u8
    ensures { Answers (O.contents out.old) (O.contents out.new)
        (E.contents err.old) (E.contents err.new) result line.now }
{
    match line.split_first() {
        None => usage(err),
        Some((format, words)) => match first_bad(words) {
            Some(word) => complain(word, err),
            None => match run_words(alloc, format.as_str(), words, out, err) {
                Ok(status) => status,
                Err(error) => report(Err(error), out, err),
            },
        },
    }
}

/// The first bad word.
pub fn first_bad(words: &[String]) -> Option<&str>
    ensures { MatchOption result (AllGood words.now) (λ bad. IsFirstBad words.now bad.now) }
{
    for word in words {
        let text = word.as_str();
        if is_bad(text) {
            return Some(text);
        }
    }
    None
}

fn is_bad(word: &str) -> bool
    ensures { MatchBool result (¬ IsGood word.now) (IsGood word.now) }
{
    match classify(word) {
        Word::Bad => true,
        _ => false,
    }
}

// Makes a context of the values of all words, and runs the format.
fn run_words<O: Write, E: Write>(
    alloc: Global,
    format: &str,
    words: &[String],
    out: &mut O,
    err: &mut E,
) -> Result<u8, Error>
    requires { AllGood words.now }
    ensures ok { IfOk result (λ status.
        RunsOver (O.contents out.old) (O.contents out.new)
        (E.contents err.old) (E.contents err.new) status format.now words.now) }
    ensures err { IfErr result (λ error. error ≡ NoMemory) }
    ensures out { OnErr result (O.contents out.new ≡ O.contents out.old) }
    ensures rest { OnErr result (E.contents err.new ≡ E.contents err.old) }
{
    let objects = objects_of(alloc, words)?;
    let entries = entries_of(alloc, objects.as_slice())?;
    let mut context = ContextMap::new(alloc);
    for entry in &entries {
        let items = entry.items.as_slice();
        fill(&mut context, entry.word, entry.value, items)?;
    }
    Ok(run(alloc, format, &context, out, err))
}
