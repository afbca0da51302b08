//! What maps and pairs keep and find: many names, long names and the empty name.
ghost use Rattle.std.specs.Prelude.{◌≡◌, Some, OnOk};
ghost use Rattle.std.specs.{Str.chars, Option.unwrap_or};
ghost use Rattle.interpolator.specs.NameMaps.{stored_slots};
ghost use Rattle.interpolator.specs.Slots.{empty_slots, with_debug, with_display};

use crate::given::gives;
use crate::report::Report;
use interpolator::{ContextMap, Error, Formattable, Interpolate, Pairs, Template, View};
use std::collections::HashMap;

// Fills two slots under one name, in two calls.
fn merge<'a>(
    map: &mut ContextMap<'a, u64>,
    name: &str,
    shown: &'a u64,
    debugged: &'a u64,
) -> Result<(), Error>
    ensures { OnOk result (stored_slots map.new (chars name.now) ≡ Some (with_debug
        (with_display (unwrap_or (stored_slots map.old (chars name.now)) empty_slots) shown.now)
        debugged.now)) }
{
    map.entry(name)?.set_display(shown);
    map.entry(name)?.set_debug(debugged);
    Ok(())
}

/// What is put stays, under the empty name, a long one and any other; `put` replaces it.
fn puts(report: &mut Report) -> Result<(), Error> {
    let alloc = report.alloc;
    let values = [1u64, 2];
    let long = "b".repeat(alloc, 100_000)?;
    let mut map = ContextMap::new(alloc);
    report.holds("a new map is empty", map.is_empty());
    merge(&mut map, "a", &values[0], &values[1])?;
    report.number("one name", 1, map.len());
    map.put("", Formattable::octal(&values[1]))?;
    map.put("", Formattable::octal(&values[0]))?;
    merge(&mut map, long.as_str(), &values[1], &values[0])?;
    report.number("three names", 3, map.len());
    report.holds("they are there", !map.is_empty());
    let format = format!(in alloc; "{{a}}{{a:?}}{{:o}}{{{long}}}{{{long}:?}}")?;
    gives(report, &map, format.as_str(), ("12121", ""))
}

/// Formats with the pairs `n` 1, `nn` 2, the empty name 3, `é` 4 and `n` 5; their output, or the
/// fault of the missing name. Worked by hand from the rules of contexts and of arguments in
/// docs/DEFINITIONS.md: the argument starts after its brace, at 1. std escapes the accent when it
/// shows a text by `Debug`.
#[rattlefmt::skip]
const ROWS: [(&str, &str, &str); 8] = [
    ("{ n}", "5", ""),
    ("{nn}{}{n}{n}{é}", "23554", ""),
    ("{nnn}", "", "MissingValue(\"nnn\", 1)"),
    ("{N}", "", "MissingValue(\"N\", 1)"),
    ("{e}", "", "MissingValue(\"e\", 1)"),
    ("{éé}", "", "MissingValue(\"éé\", 1)"),
    ("{n }", "", "MissingValue(\"n \", 1)"),
    ("{\u{301}}", "", "MissingValue(\"\\u{301}\", 1)"),
];

/// If a name has several pairs, the last one counts.
fn last_pairs(report: &mut Report) -> Result<(), Error> {
    let values = [1u64, 2, 3, 4, 5];
    let pairs = [
        ("n", Formattable::display(&values[0])),
        ("nn", Formattable::display(&values[1])),
        ("", Formattable::display(&values[2])),
        ("é", Formattable::display(&values[3])),
        ("n", Formattable::display(&values[4])),
    ];
    for (format, text, fault) in ROWS {
        gives(report, &Pairs(&pairs), format, (text, fault))?;
    }
    Ok(())
}

/// How many names the map has.
const COUNT: usize = 5_000;

/// Adds the number under its name, by `put` if it is even, and else by `entry`.
fn add<'a>(map: &mut ContextMap<'a, usize>, name: &str, number: &'a usize) -> Result<(), Error> {
    if *number % 2 == 0 {
        map.put(name, Formattable::display(number))?;
    } else {
        map.entry(name)?.set_display(number);
    }
    Ok(())
}

/// Many names, each of which is its value in decimal: a format uses all of them.
fn many_names(report: &mut Report) -> Result<(), Error> {
    let alloc = report.alloc;
    let numbers = (0..COUNT).collect::<Vec<usize>>(alloc)?;
    let mut map = ContextMap::new(alloc);
    let mut format = String::new(alloc);
    let mut text = String::new(alloc);
    for number in &numbers {
        let name = format!(in alloc; "{number}")?;
        add(&mut map, name.as_str(), number)?;
        format.push_str(format!(in alloc; "{{{number}}}")?.as_str())?;
        text.push_str(name.as_str())?;
    }
    report.number("many names", COUNT, map.len());
    gives(report, &map, format.as_str(), (text.as_str(), ""))
}

/// A map as a sample.
fn as_a_sample(report: &mut Report) -> Result<(), Error> {
    let alloc = report.alloc;
    let name = View::Text("Ann");
    let mut sample = HashMap::new(alloc);
    sample.insert("name", Formattable::display(&name))?;
    let template = Template::parse(alloc, "{name}{n}")?;
    let answer = sample.check_template(alloc, &template);
    report.fault("a sample", "MissingValue(\"n\", 7)", answer);
    let faults = sample.template_faults(alloc, &template)?;
    report.number("its faults", 1, faults.len());
    Ok(())
}

pub fn run(report: &mut Report) -> Result<(), Error> {
    report.begin("maps");
    puts(report)?;
    last_pairs(report)?;
    many_names(report)?;
    as_a_sample(report)
}
