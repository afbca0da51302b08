//! Long values, and many arguments and items, by hand: each result is exact, and no size is too
//! great.

use crate::counting::Counting;
use crate::given::gives;
use crate::report::Report;
use interpolator::{
    ContextMap, Error, Formattable, Interpolate, OwnedView, Pairs, Row, Template, TextBuffer,
    TextWrite, View, check, items_of, rows_of,
};
use std::fmt;

/// A value of a million letters is written by one call.
fn a_long_value(report: &mut Report) -> Result<(), Error> {
    let long = "a".repeat(report.alloc, 1_000_000)?;
    let view = View::Text(long.as_str());
    let context = Pairs(&[("t", Formattable::display(&view))]);
    let mut out = Counting::new(report.alloc);
    context.write_to(report.alloc, &mut out, "{t}")?;
    out.check(report, long.as_str(), 1);
    Ok(())
}

/// How many arguments, or rows, there are.
const MANY: usize = 5_000;

/// Thousands of arguments of three bytes each. By hand, the fault is at the `y` of the last one, 3
/// bytes after its `{`.
fn many_arguments(report: &mut Report) -> Result<(), Error> {
    let alloc = report.alloc;
    let format = "{x}".repeat(alloc, MANY)?;
    let text = "7".repeat(alloc, MANY)?;
    let pairs = Pairs(&[("x", Formattable::display(&7u64))]);
    gives(report, &pairs, format.as_str(), (text.as_str(), ""))?;
    let template = Template::parse(alloc, format.as_str())?;
    report.fault("the check of many", "", template.check());
    report.number("many names", MANY, template.names(alloc)?.len());
    report.number("many arguments", MANY, template.arguments(alloc)?.len());
    let broken = format!(in alloc; "{format}{{x:y}}")?;
    let fault = "Parse(Expected(\"}\", 15003))";
    report.fault("a fault after many", fault, check(alloc, broken.as_str()));
    Ok(())
}

/// Thousands of pieces, prepared: an argument and a text in turn.
fn many_pieces(report: &mut Report) -> Result<(), Error> {
    let alloc = report.alloc;
    let format = "{x}-".repeat(alloc, MANY)?;
    let text = "7-".repeat(alloc, MANY)?;
    let row = [Formattable::display(&7u64)];
    let template = Template::parse(alloc, format.as_str())?;
    let prepared = template.prepare(alloc, &Pairs(&[("x", row[0])]))?;
    let mut out = TextBuffer::new(alloc);
    let answer = prepared.write(alloc, &mut out, &Row(&row));
    report.written("many steps", (text.as_str(), ""), out.as_str(), answer);
    report.made(
        "many steps",
        (text.as_str(), ""),
        prepared.format(alloc, &Row(&row)),
    );
    Ok(())
}

/// A value that fails.
#[derive(Clone, Copy)]
struct Failing;

impl fmt::Display for Failing {
    fn fmt<W: fmt::Write>(&self, f: &mut fmt::Formatter<W>) -> fmt::Result {
        f.write_str("7")?;
        Err(fmt::Error)
    }
}

/// Values that own a long text, which `Display` wrote; one that failed is no text, and no lack of
/// memory.
fn owned_texts(report: &mut Report) -> Result<(), Error> {
    let alloc = report.alloc;
    let long = "a".repeat(alloc, MANY)?;
    let owned = OwnedView::shown(alloc, long.as_str())?;
    let pairs = Pairs(&[("t", Formattable::display(&owned))]);
    gives(report, &pairs, "{t}", (long.as_str(), ""))?;
    let failed = OwnedView::shown(alloc, Failing)?;
    let pairs = Pairs(&[("t", Formattable::display(&failed))]);
    gives(report, &pairs, "a{t}", ("a", "Fmt(Error, 3)"))
}

/// How many times the ten digits are in the lists.
const TIMES: usize = 10_000;

/// A hundred thousand items, without a width and with one.
fn many_items(report: &mut Report, digits: &[char], text: &str) -> Result<(), Error> {
    let items = items_of(report.alloc, digits)?;
    let mut map = ContextMap::new(report.alloc);
    map.put("l", Formattable::iter(&items))?;
    gives(report, &map, "{l:i}", (text, ""))?;
    let text = format!(in report.alloc; "   {text}")?;
    gives(report, &map, "{l:>100003i}", (text.as_str(), ""))
}

/// Under a width, a fault after thousands of characters leaves no text of the list. By hand, the
/// first item asks for a slot that it lacks at the `}` of `{:x}`, 21 bytes from the beginning.
fn a_fault_after_many_items(report: &mut Report, digits: &[char]) -> Result<(), Error> {
    let items = items_of(report.alloc, digits)?;
    let mut map = ContextMap::new(report.alloc);
    map.put("l", Formattable::iter(&items))?;
    let fault = "MissingTraitImpl(LowerHex, 21)";
    gives(report, &map, "a{l:>6i..1({}{l:i}{:x})}", ("a", fault))
}

/// Thousands of rows of twenty items each.
fn many_rows(report: &mut Report, digits: &[char], text: &str) -> Result<(), Error> {
    let mut ends = Vec::new(report.alloc);
    for row in 1..=MANY {
        ends.push(row.saturating_mul(20))?;
    }
    let items = items_of(report.alloc, digits)?;
    let rows = rows_of(report.alloc, &items, &ends)?;
    let mut map = ContextMap::new(report.alloc);
    map.put("r", Formattable::iter(&rows))?;
    gives(report, &map, "{r:i#({:i})#}", (text, ""))
}

/// Lists of many digits.
fn many_digits(report: &mut Report) -> Result<(), Error> {
    let text = "0123456789".repeat(report.alloc, TIMES)?;
    let digits = text.chars().collect::<Vec<char>>(report.alloc)?;
    many_items(report, &digits, text.as_str())?;
    a_fault_after_many_items(report, &digits)?;
    many_rows(report, &digits, text.as_str())
}

/// A buffer grows as often as is needed, by characters and by texts, even if it began with a text.
fn a_buffer(report: &mut Report) -> Result<(), Error> {
    let alloc = report.alloc;
    let mut out = TextBuffer::from_string(String::from_str(alloc, "<")?);
    let mut is_taken = true;
    for _ in 0..20_000 {
        is_taken = out.write_char('é').is_ok() && out.write_str("ab").is_ok() && is_taken;
    }
    report.holds("everything is taken", is_taken);
    report.holds("it refuses nothing", !out.refused());
    let text = "éab".repeat(alloc, 20_000)?;
    let text = format!(in alloc; "<{text}")?;
    report.text("a buffer that grew", text.as_str(), out.as_str());
    Ok(())
}

pub fn run(report: &mut Report) -> Result<(), Error> {
    report.begin("long");
    a_long_value(report)?;
    many_arguments(report)?;
    many_pieces(report)?;
    owned_texts(report)?;
    many_digits(report)?;
    a_buffer(report)
}
