//! User-defined contexts and values, by every way to write a format. The rows are worked by hand,
//! from the rules of arguments and outcomes in docs/DEFINITIONS.md.

use crate::given::gives;
use crate::own::{AlwaysFailed, AlwaysPlain, Everywhere, Nowhere, OnlyFive};
use crate::report::Report;
use interpolator::{
    Bounded, Context, Error, Formattable, Pairs, Template, TextBuffer, Value, format, iwriteln,
    write,
};

/// A format, its output, and the fault that is returned, as `Debug` shows it.
type Row = (&'static str, &'static str, &'static str);

/// Checks the rows against a context that has one value under every name.
fn give<V: Value>(report: &mut Report, value: &V, rows: &[Row]) -> Result<(), Error> {
    let context = Everywhere {
        value: Formattable::display(value),
    };
    for (format, text, fault) in rows {
        gives(report, &context, format, (*text, *fault))?;
    }
    Ok(())
}

/// With a value that has a text only if the width is 5.
const AS_FIVE: [Row; 1] = [("{v:5}{v}", "w5   ", "MissingTraitImpl(Display, 7)")];

/// With the plain text, which no option changes and which is not read as a format again.
#[rattlefmt::skip]
const AS_PLAIN: [Row; 3] = [
    ("{v}", "{x}", ""),
    ("{v}}", "{x}}", ""),
    ("{v:>9}{v:.1}{", "{x}{x}", "Parse(FormatSpecUnclosed(13))"),
];

/// With the failure.
const AS_FAILED: [Row; 2] = [
    ("a{v}b", "a", "Fmt(Error, 3)"),
    ("a{v:>9}b", "a", "Fmt(Error, 6)"),
];

/// Checks contexts that contain nothing.
fn give_nothing(report: &mut Report) -> Result<(), Error> {
    let none: [(&str, Formattable<'_, u64>); 0] = [];
    let fault = ("a", "MissingValue(\"b\", 2)");
    gives(report, &Nowhere, "a{b}", fault)?;
    gives(report, &Pairs(&none), "a{b}", fault)?;
    gives(report, &Nowhere, "{{}}", ("{}", ""))?;
    report.holds("no pairs", Context::get(&Pairs(&none), "").is_none());
    Ok(())
}

/// The functions, which do the same as the methods of contexts.
fn functions(report: &mut Report) -> Result<(), Error> {
    let alloc = report.alloc;
    let one = Pairs(&[("a", Formattable::display(&1u64))]);
    let template = Template::parse(alloc, "-{a}")?;
    let mut out = TextBuffer::new(alloc);
    write(alloc, &mut out, "{a};", &one)?;
    iwriteln(alloc, &mut out, "{a:>2}", &one)?;
    template.write(alloc, &mut out, &one)?;
    report.text("the functions", "1; 1\n-1", out.as_str());
    report.made("`format`", ("< 1>", ""), format(alloc, "<{a:>2}>", &one));
    Ok(())
}

/// A newline that the writer refuses is reported at place 0.
fn a_refused_newline(report: &mut Report) {
    let one = Pairs(&[("a", Formattable::display(&1u64))]);
    let mut out = Bounded::new(report.alloc, 1);
    let answer = iwriteln(report.alloc, &mut out, "{a}", &one);
    report.written("a newline", ("1", "Fmt(Error, 0)"), out.as_str(), answer);
}

pub fn run(report: &mut Report) -> Result<(), Error> {
    report.begin("contexts");
    give(report, &OnlyFive, &AS_FIVE)?;
    give(report, &AlwaysPlain, &AS_PLAIN)?;
    give(report, &AlwaysFailed, &AS_FAILED)?;
    give_nothing(report)?;
    a_refused_newline(report);
    functions(report)
}
