//! Writers of the tests' own: how often they are called and how often they are asked to reserve
//! room; and a width that no memory holds.

ghost use Rattle.std.specs.Prelude.{Some};
ghost use Rattle.interpolator_render.specs.Bounds.{bounded_writer, bytes_left};

use crate::counting::Counting;
use crate::given::{Given, Padded, padded, write_given};
use crate::report::Report;
use interpolator::{
    Bounded, Error, Formattable, Interpolate, Pairs, Refusal, Template, TextBuffer, TextWrite,
    format,
};
use std::alloc::Global;

/// A writer that takes a limited number of bytes, reports how many are left, and counts how often
/// it is asked to reserve room.
#[derive(Drop)]
struct Telling {
    inner: Bounded,
    asked: usize,
}

impl Telling {
    fn new(alloc: Global, most: usize) -> Telling {
        Telling {
            inner: Bounded::new(alloc, most),
            asked: 0,
        }
    }
}

impl TextWrite for Telling {
    ghost written = { λ writer. bounded_writer writer.inner };

    ghost limit = { λ writer. Some (bytes_left writer.inner) };

    fn write_str(&mut self, text: &str) -> Result<(), Refusal> {
        self.inner.write_str(text)
    }

    fn write_char(&mut self, c: char) -> Result<(), Refusal> {
        self.inner.write_char(c)
    }

    fn refused(&self) -> bool {
        self.inner.refused()
    }

    fn reserve(&mut self, bytes: usize) -> Result<(), Refusal> {
        self.asked = self.asked.saturating_add(1);
        self.inner.reserve(bytes)
    }

    fn room(&self) -> Option<usize> {
        self.inner.room()
    }
}

/// Whether nothing was taken.
fn is_refused(answer: Result<(), Refusal>) -> bool {
    matches!(answer, Err(Refusal { taken: 0 }))
}

/// A bounded writer by itself. After a refusal, a text that would fit is refused too: `ï` has 2
/// bytes.
fn bounded(report: &mut Report) {
    let mut out = Bounded::new(report.alloc, 5);
    report.number("the room of five", 5, out.left());
    report.holds("ab is taken", out.write_str("ab").is_ok());
    report.holds("the room after ab", out.room() == Some(3));
    report.holds("ï is taken", out.write_char('ï').is_ok());
    report.number("what is left after ï", 1, out.left());
    report.holds("ï does not fit", is_refused(out.write_char('ï')));
    report.holds("nor does a letter then", is_refused(out.write_str("a")));
    report.holds("the empty text is taken", out.write_str("").is_ok());
    report.holds("it has refused", out.refused());
    report.number("what is left then", 0, out.left());
    report.text("its text", "abï", out.into_string().as_str());
}

/// Beginnings of a row as texts, which fit where the row does not.
fn beginnings_of_a_row(report: &mut Report) {
    let row = b"ab--------------";
    let mut out = Bounded::new(report.alloc, 3);
    report.holds("two bytes fit", out.write_short(row, 2).is_ok());
    let second = out.write_short(row, 2);
    report.holds("of two more, one fits", second == Err(Refusal { taken: 1 }));
    report.text("the three", "aba", out.as_str());
    let mut out = TextBuffer::new(report.alloc);
    let mut is_taken = true;
    for _ in 0..1100 {
        is_taken = out.write_short(row, 2).is_ok() && is_taken;
    }
    report.holds("each is taken", is_taken);
    report.number("the bytes of all", 2200, out.as_str().len());
    report.holds("no byte of a row is left", !out.as_str().contains('-'));
}

/// A bounded writer that takes its memory at once. `naï` has four bytes.
fn bounded_with_room(report: &mut Report) -> Result<(), Error> {
    let mut out = Bounded::with_room(report.alloc, 4)?;
    report.holds("all of it is reserved", out.reserve(4).is_ok());
    report.holds("naï is taken with room", out.write_str("naï").is_ok());
    report.holds("v does not fit the room", is_refused(out.write_str("v")));
    report.text("the text in the room", "naï", out.as_str());
    let great = Bounded::with_room(report.alloc, usize::MAX);
    report.holds("no room is so great", great.is_err());
    Ok(())
}

/// There is no memory for this many spaces, whatever the system says of its memory.
fn great_widths(report: &mut Report) {
    let alloc = report.alloc;
    let great = "ab{x:1000000000000000000}";
    let pairs = Pairs(&[("x", Formattable::display(&1u64))]);
    report.made(great, ("", "NoMemory"), format(alloc, great, &pairs));
    let mut out = TextBuffer::new(alloc);
    let answer = pairs.write_to(alloc, &mut out, great);
    report.written(great, ("ab", "Fmt(Error, 24)"), out.as_str(), answer);
    report.holds("it has refused", out.refused());
}

/// A format with the number 7 under `v`, and how often the writer is asked to reserve room.
const ASKED: [(&str, usize); 4] = [
    ("{v}", 0),
    ("{v:1001}", 1),
    ("{v:^1001}", 2),
    ("{v:01001}", 1),
];

/// Room is reserved before a long padding.
fn asked_room(report: &mut Report) -> Result<(), Error> {
    let pairs = Pairs(&[("v", Formattable::display(&7u64))]);
    for (text, asked) in &ASKED {
        let mut out = Telling::new(report.alloc, usize::MAX);
        pairs.write_to(report.alloc, &mut out, text)?;
        report.number(text, *asked, out.asked);
    }
    Ok(())
}

/// A format with 7 under `v`, its output, and the most calls that the writer may get: one for each
/// part, and for padding one for each 64 characters or fewer. Worked by hand from the rules of
/// pieces and of padding in docs/DEFINITIONS.md.
#[rattlefmt::skip]
const BY_CALLS: [(&str, Padded<'static>, usize); 9] = [
    ("{{", ("{", "", 0, ""), 1),
    ("}}", ("}", "", 0, ""), 1),
    ("}", ("}", "", 0, ""), 1),
    ("ab{{cd}}", ("ab{cd}", "", 0, ""), 4),
    ("a text of some words", ("a text of some words", "", 0, ""), 1),
    ("{v}", ("7", "", 0, ""), 1),
    ("{v:1001}", ("", " ", 1000, "7"), 17),
    ("{v:é>1001}", ("", "é", 1000, "7"), 17),
    ("<{v:-<1001}>", ("<7", "-", 1000, ">"), 19),
];

/// The format and its template are each written by few calls.
fn is_written_by(report: &mut Report, format: &str, text: &str, most: usize) -> Result<(), Error> {
    let alloc = report.alloc;
    let template = Template::parse(alloc, format)?;
    for given in [Given::Text(format), Given::Template(&template)] {
        let mut out = Counting::new(alloc);
        let pairs = Pairs(&[("v", Formattable::display(&7u64))]);
        write_given(alloc, &mut out, given, &pairs)?;
        out.check(report, text, most);
    }
    Ok(())
}

pub fn run(report: &mut Report) -> Result<(), Error> {
    report.begin("writers");
    bounded(report);
    beginnings_of_a_row(report);
    bounded_with_room(report)?;
    great_widths(report);
    asked_room(report)?;
    for (format, parts, most) in BY_CALLS {
        let text = padded(report.alloc, parts)?;
        is_written_by(report, format, text.as_str(), most)?;
    }
    Ok(())
}
