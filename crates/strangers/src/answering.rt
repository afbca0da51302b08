//! The answer to a command line.
ghost use Rattle.std.specs.Prelude.{◌≡◌, IfErr, IfOk, map, string_bytes};
ghost use Rattle.interpolator.specs.declared.Error.TheVariants.{NoMemory};
ghost use Rattle.strangers.specs.Answering.{IsAnswer};

use crate::reading::{asked_by, words_of};
use crate::serving::{Refused, served};
use interpolator::Error;
use std::alloc::Global;

/// What is printed: a text to standard output, with status 0; anything else to standard error.
#[derive(Drop)]
pub enum Answer {
    /// The text of the format.
    Text(String),
    /// Why the format is rejected.
    Refused(Refused),
    /// The first word that gives no value.
    BadWord(String),
    /// The command line has no format, or a flag is unknown or has no number.
    BadUse,
}

/// Runs a command line.
///
/// # Errors
///
/// `NoMemory`.
pub fn answered(alloc: Global, line: &[String]) -> Result<Answer, Error>
    ensures ok { IfOk result (λ answer. IsAnswer (map string_bytes line.now) answer) }
    ensures err { IfErr result (λ error. error ≡ NoMemory) }
{
    let Some(asked) = asked_by(line) else {
        return Ok(Answer::BadUse);
    };
    match words_of(alloc, asked.words)? {
        Err(word) => Ok(Answer::BadWord(String::from_str(alloc, word)?)),
        Ok(words) => match served(alloc, &asked.allowed, asked.format, words.as_slice()) {
            Ok(text) => Ok(Answer::Text(text)),
            Err(refused) => Ok(Answer::Refused(refused)),
        },
    }
}
