//! The renderer by itself: the calls that a writer gets.

use crate::counting::Counting;
use crate::given::{Padded, padded};
use crate::report::Report;
use interpolator::{
    Alignment, Bounded, Error, HexDebug, Refusal, Sign, Spec, TextWrite, Trait, Value, View, pad,
    render,
};

/// A view and how it is written, its text, and the most calls by which it may be written.
type Row<'a> = (View<'a>, Trait, Spec, Padded<'a>, usize);

/// A spec in which nothing is set.
const PLAIN: Spec = Spec {
    fill: None,
    alignment: Alignment::Unset,
    sign: Sign::Unset,
    alternate: false,
    zero: false,
    width: None,
    precision: None,
    hex_debug: HexDebug::No,
};

/// The text follows the rules of rendering in docs/DEFINITIONS.md; the calls are one for each part,
/// and for padding one for each 64 characters or fewer.
#[rattlefmt::skip]
const CALLS: [Row<'static>; 9] = [
    (View::Unsigned(7), Trait::Display, Spec { width: Some(1001), ..PLAIN }, ("", " ", 1000, "7"), 17),
    (View::Unsigned(7), Trait::Display, Spec { fill: Some('*'), alignment: Alignment::Right, width: Some(1001), ..PLAIN }, ("", "*", 1000, "7"), 17),
    (View::Unsigned(7), Trait::Display, Spec { fill: Some('é'), alignment: Alignment::Left, width: Some(1001), ..PLAIN }, ("7", "é", 1000, ""), 17),
    (View::Text("a"), Trait::Display, Spec { fill: Some('🦀'), alignment: Alignment::Right, width: Some(1001), ..PLAIN }, ("", "🦀", 1000, "a"), 17),
    (View::Unsigned(7), Trait::Display, PLAIN, ("7", "", 0, ""), 1),
    (View::Unsigned(42), Trait::LowerExp, PLAIN, ("4.2e1", "", 0, ""), 2),
    (View::Text("as it is"), Trait::Debug, PLAIN, ("\"as it is\"", "", 0, ""), 3),
    (View::Text(""), Trait::Display, PLAIN, ("", "", 0, ""), 0),
    (View::Text("letters ten"), Trait::Display, PLAIN, ("letters ten", "", 0, ""), 1),
];

/// Checks that the view is written by no more calls than the row says, none with an empty text:
/// digits, padding and the runs of a quoted text are handed over as slices.
fn is_written_by_few(report: &mut Report, row: &Row<'_>) -> Result<(), Error> {
    let (view, t, spec, parts, most) = row;
    let text = padded(report.alloc, *parts)?;
    let mut out = Counting::new(report.alloc);
    let answer = render(&mut out, view.view(*t, spec), *t, spec);
    report.holds(text.as_str(), answer.is_ok());
    out.check(report, text.as_str(), *most);
    Ok(())
}

/// Views are written by few calls; and a writer that has refused takes nothing but the empty text.
pub fn run(report: &mut Report) -> Result<(), Error> {
    report.begin("render");
    for row in &CALLS {
        is_written_by_few(report, row)?;
    }
    let mut out = Bounded::new(report.alloc, 0);
    let answer = pad(&mut out, "a", &PLAIN);
    report.holds("a letter", answer == Err(Refusal { taken: 0 }));
    report.holds("it has refused", out.refused());
    report.holds("the empty text", pad(&mut out, "", &PLAIN).is_ok());
    Ok(())
}
