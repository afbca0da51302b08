//! What templates report of their arguments, and laws whose bodies are worth running.

use crate::report::Report;
use interpolator::{
    Argument, Bounded, Error, Formattable, Interpolate, Kind, Pairs, Range, Template, TextBuffer,
    Trait,
};
use interpolator_laws::samples::{
    a_checked_template_is_formatted, a_checked_template_is_written, a_context_resembles_itself,
};
use interpolator_laws::templates::rest_of_the_pieces_is_written;

/// Worked by hand: of the three pieces `a`, `{x}` and `b`, the output of those after the first 0,
/// 1, 2 and so on, with 1 under `x`.
#[rattlefmt::skip]
const TAILS: [(usize, &str); 5] = [(0, "a1b"), (1, "1b"), (2, "b"), (3, ""), (usize::MAX, "")];

fn tails(report: &mut Report) -> Result<(), Error> {
    let alloc = report.alloc;
    let template = Template::parse(alloc, "a{x}b")?;
    let pairs = [("x", Formattable::display(&1u64))];
    for (skipped, text) in TAILS {
        let mut out = TextBuffer::new(alloc);
        let context = Pairs(&pairs);
        rest_of_the_pieces_is_written(alloc, &mut out, &template, skipped, &context)?;
        report.text("the pieces after some", text, out.as_str());
    }
    Ok(())
}

/// A template that is checked with a row, and then written with it, is written whole.
fn checked(report: &mut Report) -> Result<(), Error> {
    let alloc = report.alloc;
    let template = Template::parse(alloc, "a{x}b")?;
    let pairs = [("x", Formattable::display(&1u64))];
    let row = Pairs(&pairs);
    template.check_in(alloc, &row)?;
    a_context_resembles_itself::<u64>();
    let mut out = TextBuffer::new(alloc);
    a_checked_template_is_written(alloc, &mut out, &template, &row, &row)?;
    report.text("a checked template, written", "a1b", out.as_str());
    let text = a_checked_template_is_formatted(alloc, &template, &row, &row)?;
    report.text("a checked template, formatted", "a1b", text.as_str());
    Ok(())
}

/// Whether the argument is the list `l` with the range `1..2`, whose items are each written by the
/// format `{}` at byte 17.
fn is_the_list(argument: &Argument<'_>) -> bool {
    match argument.kind {
        Kind::List {
            range: Some(range),
            item: Some(item),
            join: None,
        } => {
            argument.name == "l" && is_one_to_two(range) && item.text == "{}" && item.place == 17
        }
        _ => false,
    }
}

fn is_one_to_two(range: Range) -> bool {
    range.lower == Some(1) && !range.inclusive && range.upper == Some(2)
}

/// Whether the argument has this name and uses a value under this trait.
fn is_a_value(argument: &Argument<'_>, name: &str, t: Trait) -> bool {
    match argument.kind {
        Kind::Value(asked) => argument.name == name && asked == t,
        _ => false,
    }
}

/// By hand, from the rules of arguments and of lists in docs/DEFINITIONS.md.
fn arguments(report: &mut Report) -> Result<(), Error> {
    let template = Template::parse(report.alloc, "{n:>4x}{l:i1..2#({})#}")?;
    let arguments = template.arguments(report.alloc)?;
    report.number("arguments", 3, arguments.len());
    if let [number, list, item] = arguments.as_slice() {
        report.holds("n under x", is_a_value(number, "n", Trait::LowerHex));
        report.holds("its width", number.spec.width == Some(4));
        report.holds("l under i", is_the_list(list));
        report.holds("its item", is_a_value(item, "", Trait::Display));
    }
    Ok(())
}

/// A format, how many bytes the writer takes, what it contains in the end, and the fault.
type Between = (&'static str, usize, &'static str, &'static str);

/// By hand, with a list `l` of 1 and 5.
#[rattlefmt::skip]
const BETWEEN: [Between; 13] = [
    ("{l:i(<{}>)}", 99, "<1><5>", ""),
    ("{l:i(<{}>)(, )}.", 99, "<1>, <5>.", ""),
    ("{l:i(é{})}", 99, "é1é5", ""),
    ("{l:i({};)(-)}", 99, "1;-5;", ""),
    ("{l:i(a{}{})}", 99, "a11a55", ""),
    ("{l:i({}{{)}", 99, "1{5{", ""),
    ("{l:<9i(<{}>)}|", 99, "<1><5>   |", ""),
    ("{l:i(<{}>)}", 0, "", "Fmt(Error, 5)"),
    ("{l:i(<{}>)}", 1, "<", "Fmt(Error, 7)"),
    ("{l:i(<{}>)}", 2, "<1", "Fmt(Error, 8)"),
    ("{l:i(<{}>)}", 3, "<1>", "Fmt(Error, 5)"),
    ("{l:i(<{}>)(, )}", 4, "<1>,", "Fmt(Error, 12)"),
    ("{l:i(é{})}", 1, "", "Fmt(Error, 5)"),
];

/// By hand, with a list whose second item is not displayed.
const HIDDEN: Between = ("{l:i(<{}>)}", 99, "<1><", "MissingTraitImpl(Display, 7)");

/// A list by a format that is read for it, and by a template.
fn between(report: &mut Report, row: Between, items: Formattable<'_, u64>) -> Result<(), Error> {
    let alloc = report.alloc;
    let (format, room, text, fault) = row;
    let context = Pairs(&[("l", items)]);
    let mut out = Bounded::new(alloc, room);
    let answer = context.write_to(alloc, &mut out, format);
    report.written(format, (text, fault), out.as_str(), answer);
    let template = Template::parse(alloc, format)?;
    let mut out = Bounded::new(alloc, room);
    let answer = context.write_template_to(alloc, &mut out, &template);
    report.written(format, (text, fault), out.as_str(), answer);
    Ok(())
}

/// Items between two texts.
fn items_between_texts(report: &mut Report) -> Result<(), Error> {
    let shown = [Formattable::display(&1u64), Formattable::display(&5u64)];
    for row in BETWEEN {
        between(report, row, Formattable::iter(&shown))?;
    }
    let hidden = [Formattable::display(&1u64), Formattable::debug(&5u64)];
    between(report, HIDDEN, Formattable::iter(&hidden))
}

pub fn run(report: &mut Report) -> Result<(), Error> {
    report.begin("templates");
    tails(report)?;
    checked(report)?;
    items_between_texts(report)?;
    arguments(report)
}
