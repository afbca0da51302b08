//! Rows about small calls: what a range chooses, seams, escapes, and the texts of faults.

use crate::files::Facts;
use crate::names::{NUMBER_FAULTS, TRUTHS};
use crate::report::Report;
use crate::trouble::Read;
use crate::ways::Outcome;
use crate::words::Words;
use interpolator::{Error, Formattable, Pairs, chosen, escape, format, seam};
use std::alloc::Global;

/// `chosen`: the items that a range chooses, by their indices.
fn run_chosen(report: &mut Report<'_>, facts: &mut Facts<'_>) -> Read<bool> {
    let Some(mut words) = facts.next("chosen") else {
        return Ok(false);
    };
    let wanted = (words.number()?, words.number()?);
    words.done()?;
    let items = facts.the_number("items")?;
    let range = facts.range()?;
    report.compare("chosen", &wanted, &chosen(items, range));
    Ok(true)
}

/// `seam`: whether a text may come after another.
fn run_seam(report: &mut Report<'_>, facts: &mut Facts<'_>) -> Read<bool> {
    let Some(mut words) = facts.next("seam") else {
        return Ok(false);
    };
    let first = words.text()?;
    let second = words.text()?;
    let wanted = words.wanted(&TRUTHS)?;
    words.done()?;
    report.compare("seam", &wanted, &seam(first.as_str(), second.as_str()));
    Ok(true)
}

/// Checks that a call returned this text.
fn check_made(report: &mut Report<'_>, way: &str, wanted: String, made: Result<String, Error>) {
    let came = Outcome::made(report.alloc, made);
    report.compare(way, &Outcome::new(wanted, Ok(())), &came);
}

/// `escape`: a text with its braces doubled, which is a format whose output is the text.
fn run_escape(report: &mut Report<'_>, facts: &mut Facts<'_>) -> Read<bool> {
    let Some(text) = facts.text("escape")? else {
        return Ok(false);
    };
    let doubled = facts.the_text("text")?;
    let alloc = report.alloc;
    let made = escape(alloc, text.as_str());
    let nothing: [(&str, Formattable<'_, u64>); 0] = [];
    let back = format(alloc, doubled.as_str(), &Pairs(&nothing));
    check_made(report, "escape", doubled, made);
    check_made(report, "format of the escaped text", text, back);
    Ok(true)
}

/// The text of the fault here: of a number, of parsing, or any other.
fn printed(alloc: Global, mut words: Words<'_>) -> Read<String> {
    if let Some(fault) = words.one_of(&NUMBER_FAULTS) {
        words.done()?;
        return Ok(format!(in alloc; "{fault}")?);
    }
    let mut ahead = words;
    if let Some(fault) = ahead.parse_fault() {
        ahead.done()?;
        return Ok(format!(in alloc; "{fault}")?);
    }
    let fault = words.fault()?;
    Ok(format!(in alloc; "{fault}")?)
}

/// `prints`: the text of a fault.
fn run_prints(report: &mut Report<'_>, facts: &mut Facts<'_>) -> Read<bool> {
    let Some(words) = facts.next("prints") else {
        return Ok(false);
    };
    let came = printed(report.alloc, words)?;
    let wanted = facts.the_text("text")?;
    report.compare("its text", &wanted, &came);
    Ok(true)
}

/// Runs the row if it is about a small call; returns whether it is.
pub fn run_small(report: &mut Report<'_>, facts: &mut Facts<'_>) -> Read<bool> {
    Ok(
        run_chosen(report, facts)?
            || run_seam(report, facts)?
            || run_escape(report, facts)?
            || run_prints(report, facts)?,
    )
}
