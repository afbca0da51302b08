//! Formats that are files, and what is wrong at a place of one.

ghost use Rattle.std.specs.Prelude.{◌≡◌, ◌++◌, ◌∷◌, [], IfErr, IfOk, Some, string_bytes};
ghost use Rattle.interpolator.specs.{Explained.explanation, Faults.answer_of, Faults.no_memory};

use interpolator::{Error, Source, explain_place};
use std::alloc::Global;

/// A format that is the whole text of a file of this name.
pub fn source_of<'a>(name: &'a str, text: &'a str) -> Source<'a>
    ensures { result ≡ record {
      name = name.entry;
      first_line = 1;
      text = text.entry;
      start = 0;
      format = text.entry;
    } }
{
    Source {
        name,
        first_line: 1,
        text,
        start: 0,
        format: text,
    }
}

/// What is wrong at a place of a format, shown in its line, with a newline after it.
pub fn reported_at(
    alloc: Global,
    source: &Source<'_>,
    place: usize,
    why: &str,
) -> Result<String, Error>
    ensures reported { IfOk result (λ reported.
        string_bytes reported ≡ explanation source.now (Some place) why.now ++ (10 ∷ [])) }
    ensures refused { IfErr result (λ error. answer_of error ≡ no_memory) }
{
    let mut reported = explain_place(alloc, source, place, why)?;
    reported.push('\n')?;
    Ok(reported)
}
