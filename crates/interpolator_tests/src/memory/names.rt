//! Memory that is refused for a name of a map, for a name that is missing, for a copy of a fault,
//! and for a text whose braces are doubled. If it is called again, each call succeeds.

use crate::own::Nowhere;
use crate::report::Report;
use interpolator::{Context, ContextMap, Error, Formattable, TextBuffer, escape, write};

/// Whether there was memory for the entry of the name.
fn is_lent(report: &mut Report, map: &mut ContextMap<'_, u64>, name: &str) -> bool {
    match map.entry(name) {
        Ok(_) => true,
        Err(error) => {
            report.refused(name, error == Error::NoMemory);
            false
        }
    }
}

/// Whether the map has these names, and `count` names in all.
fn has(map: &ContextMap<'_, u64>, a: bool, b: bool, count: usize) -> bool {
    map.get("a").is_some() == a && map.get("b").is_some() == b && map.len() == count
}

/// A call that is refused memory leaves the map as it was.
fn maps(report: &mut Report) {
    let value = 7u64;
    let shown = Formattable::display(&value);
    let mut map = ContextMap::new(report.alloc);
    if map.put("a", shown).is_err() {
        report.refused("a put that is refused", has(&map, false, false, 0));
        report.refused("a put again", map.put("a", shown).is_ok());
    }
    report.holds("a name that is put", has(&map, true, false, 1));
    if !is_lent(report, &mut map, "b") {
        report.refused("an entry that is refused", has(&map, true, false, 1));
        let lent = is_lent(report, &mut map, "b");
        report.refused("an entry again", lent);
    }
    report.holds("a name that is entered", has(&map, true, true, 2));
}

/// Whether the fault is that there is no value under `q`, at this place.
fn is_missing(fault: &Error, wanted: usize) -> bool {
    match fault {
        Error::MissingValue(name, place) => name.as_str() == "q" && *place == wanted,
        _ => false,
    }
}

/// A copy of a fault.
fn faults(report: &mut Report) -> Result<(), Error> {
    let alloc = report.alloc;
    let name = again!(String::from_str(alloc, "q").map_err(Error::from))?;
    let fault = Error::MissingValue(name, 1);
    let copy = again!(fault.try_clone(alloc))?;
    report.holds("a copy of a fault", copy == fault);
    report.holds("the copied fault stays", is_missing(&fault, 1));
    Ok(())
}

/// Texts, and the same texts with their braces doubled: by hand, each brace twice.
#[rattlefmt::skip]
const ESCAPED: [(&str, &str); 4] = [
    ("", ""),
    ("}{", "}}{{"),
    ("é{naïve}ü", "é{{naïve}}ü"),
    ("more than sixteen bytes{ and a brace }", "more than sixteen bytes{{ and a brace }}"),
];

fn escapes(report: &mut Report) {
    for (text, doubled) in ESCAPED {
        let made = again!(escape(report.alloc, text));
        report.made(text, (doubled, ""), made);
    }
}

/// Checks that the missing name is reported, and returns whether there was memory for it. If its
/// copy is refused, the call returns `NoMemory`, and the text before it stays. The writer has its
/// room already.
fn is_reported(report: &mut Report) -> bool {
    let alloc = report.alloc;
    let Ok(room) = String::with_capacity(alloc, 8) else {
        return false;
    };
    let mut out = TextBuffer::from_string(room);
    let answer = write(alloc, &mut out, "ab{q}", &Nowhere);
    report.refused("the text before a missing name", out.as_str() == "ab");
    match answer {
        Err(Error::NoMemory) => false,
        Err(fault) => is_missing(&fault, 3),
        Ok(()) => false,
    }
}

pub fn run(report: &mut Report) -> Result<(), Error> {
    maps(report);
    escapes(report);
    let reported = is_reported(report) || is_reported(report);
    report.holds("a missing name is told", reported);
    faults(report)
}
