//! The keys of the lines of a file.

ghost use Rattle.std.specs.Prelude.{◌≡◌, ◌==◌, ℕ, List, [], IfErr, IfOk, OnOk, length};
ghost use Rattle.std.specs.Prelude.{string_bytes};
ghost use Rattle.std.specs.Option.{option_map};
ghost use Rattle.interpolator.specs.Faults.{answer_of, no_memory};
ghost use Rattle.catalogue.specs.{Files.as_line, Keys.Remembers, Keys.number_of};
ghost use Rattle.catalogue.specs.{Keys.reported_again};
ghost use Rattle.catalogue.specs.{Keys.report_of_key, Keys.what_is_again, Keys.with_key};

use crate::declarations::begin_of;
use crate::files::Line;
use crate::reports::reported_at;
use interpolator::Error;
use std::alloc::{AllocError, Global};
use std::collections::HashMap;

/// No keys yet.
pub fn no_keys<'a>(alloc: Global) -> HashMap<&'a str, usize>
    ensures { Remembers [] result }
{
    HashMap::new(alloc)
}

/// Adds the key of a line, if it has one that no line before it has.
pub fn add_key<'a>(
    keys: &mut HashMap<&'a str, usize>,
    number: usize,
    key: Option<&'a str>,
) -> Result<(), AllocError>
    ensures { OnOk result ((seen : List (ℕ × List ℕ)) → Remembers seen keys.old
        → Remembers (with_key seen number (option_map (λ x. x.now) key.entry)) keys.new) }
{
    let Some(key) = key else {
        return Ok(());
    };
    if !keys.contains_key(key) {
        keys.insert(key, number)?;
    }
    Ok(())
}

/// The number of the line that has a key, if one has.
fn number_of(keys: &HashMap<&str, usize>, key: &str) -> Option<usize>
    ensures { (seen : List (ℕ × List ℕ)) → Remembers seen keys.now
        → result ≡ number_of seen key.now }
{
    keys.get(key).copied()
}

/// Whether no line has a key.
pub fn is_first(keys: &HashMap<&str, usize>) -> bool
    ensures { (seen : List (ℕ × List ℕ)) → Remembers seen keys.now → result ≡ (length seen == 0) }
{
    keys.is_empty()
}

/// What is reported of a key that another line has.
fn what_is_again(alloc: Global, number: usize, key: &str) -> Result<String, AllocError>
    ensures { IfOk result (λ what. string_bytes what ≡ what_is_again number key.now) }
{
    let what = format!(in alloc; "line {number} has the key `{key}` too")?;
    Ok(what)
}

/// Reports that the line `before` has the key in the head of a line, if one has.
fn reported_again(
    alloc: Global,
    line: &Line<'_, '_>,
    head: &str,
    key: &str,
    before: Option<usize>,
) -> Result<String, Error>
    ensures reported { IfOk result (λ reported.
        string_bytes reported ≡ reported_again (as_line line.now) head.now key.now before) }
    ensures refused { IfErr result (λ error. answer_of error ≡ no_memory) }
{
    let Some(before) = before else {
        return Ok(String::new(alloc));
    };
    let what = what_is_again(alloc, before, key)?;
    reported_at(alloc, line, begin_of(0, head), what.as_str())
}

/// Reports what is wrong with the key in the head of a line: it is empty, or it is among those of
/// the lines before.
pub fn report_of_key(
    alloc: Global,
    line: &Line<'_, '_>,
    head: &str,
    key: &str,
    keys: &HashMap<&str, usize>,
) -> Result<String, Error>
    ensures reported { IfOk result (λ reported. (seen : List (ℕ × List ℕ)) → Remembers seen keys.now
        → string_bytes reported ≡ report_of_key (as_line line.now) head.now key.now seen) }
    ensures refused { IfErr result (λ error. answer_of error ≡ no_memory) }
{
    if key.is_empty() {
        return reported_at(alloc, line, begin_of(0, head), "no key");
    }
    reported_again(alloc, line, head, key, number_of(keys, key))
}
