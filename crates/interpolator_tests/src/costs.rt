//! What formats cost at most. The cost of a format whose output would be huge is known without
//! writing it.

ghost use Rattle.std.specs.Prelude.{◌≡◌, ◌<◌};

use crate::report::Report;
use interpolator::{Error, Formattable, Limits, Pairs, PieceCount, Template, TextBuffer};
use std::marker::Brand;
use std::sync::ledger::{Blank, Ledger};

/// A format, the limits, and what the format costs under them.
#[derive(Drop)]
struct Priced<'a> {
    format: &'a str,
    text: usize,
    items: usize,
    cost: (usize, usize, usize),
}

/// Worked by hand from the rules of costs in docs/DEFINITIONS.md: characters, pieces, and
/// characters in buffers. A number of 128 bits has 39 digits in base ten, 128 in base two, 43 in
/// base eight and 32 in base sixteen.
#[rattlefmt::skip]
const COSTS: [Priced<'static>; 22] = [
    Priced { format: "", text: 10, items: 3, cost: (0, 0, 0) },
    Priced { format: "aé{{}", text: 10, items: 3, cost: (4, 3, 0) },
    Priced { format: "{x}{x:x}{x:#x}{x:+X}", text: 0, items: 0, cost: (40 + 32 + 34 + 33, 4, 0) },
    Priced { format: "{x:e}{x:.0E}{x:.7e}", text: 0, items: 0, cost: (53 + 15 + 22, 3, 0) },
    Priced { format: "{x:x?}{x:?}{x:.3?}", text: 100, items: 0, cost: (602 * 3, 3, 0) },
    Priced { format: "{x:7}{x:300}{x:300?}", text: 100, items: 0, cost: (100 + 300 + 602, 3, 0) },
    Priced { format: "{l:i}", text: 100, items: 0, cost: (0, 1, 0) },
    Priced { format: "{l:i}", text: 100, items: 1, cost: (100, 2, 0) },
    Priced { format: "{l:i(a{}b)(, )}", text: 100, items: 4, cost: (4 * 102 + 3 * 2, 1 + 4 * 3 + 3, 0) },
    Priced { format: "{l:i2..5()(-)}", text: 100, items: 9, cost: (2, 1 + 3 + 2, 0) },
    Priced { format: "{l:i2..=5()(-)}", text: 100, items: 4, cost: (1, 1 + 2 + 1, 0) },
    Priced { format: "{l:i-4..-1()(-)}", text: 100, items: 9, cost: (2, 1 + 3 + 2, 0) },
    Priced { format: "{l:i-4..()(-)}", text: 100, items: 9, cost: (3, 1 + 4 + 3, 0) },
    Priced { format: "{l:i-1..=-9()(-)}", text: 100, items: 9, cost: (0, 1 + 1, 0) },
    Priced { format: "{l:i3..-2()(-)}", text: 100, items: 9, cost: (3, 1 + 4 + 3, 0) },
    Priced { format: "{l:5i(a)}", text: 100, items: 9, cost: (9, 1 + 9, 9) },
    Priced { format: "{l:50i(a)}", text: 100, items: 9, cost: (50, 1 + 9, 9) },
    Priced { format: "{l:50i()}", text: 100, items: 9, cost: (50, 1 + 9, 1) },
    Priced { format: "{l:5i#({:7i(ab)}{:8i(abc)})#}", text: 100, items: 2, cost: (2 * 15, 1 + 2 * 6, 30 + 6) },
    Priced { format: "{a:i({z)}{b", text: 100, items: 2, cost: (0, 1 + 2 * 1 + 1, 0) },
    // eight nested lists whose items are empty: with ten items each, 10^8 items are gone through
    Priced {
        format: "{a:i#######({a:i######({a:i#####({a:i####({a:i###({a:i##({a:i#({a:i()})#})##})###})####})#####})######})#######}",
        text: 10,
        items: 10,
        cost: (0, 111_111_111, 0),
    },
    Priced {
        format: "{l:i({:.1000000000000000000e})}{x:.1000000000000000000e}",
        text: 10,
        items: 100,
        cost: (usize::MAX, 1 + 100 + 1, 0),
    },
];

fn worked_costs(report: &mut Report) -> Result<(), Error> {
    for row in &COSTS {
        let (text, items) = (row.text, row.items);
        let template = Template::parse(report.alloc, row.format)?;
        let cost = template.cost(&Limits { text, items });
        let (characters, pieces, buffered) = row.cost;
        report.number(row.format, characters, cost.characters);
        report.number(row.format, pieces, cost.pieces);
        report.number(row.format, buffered, cost.buffered);
    }
    Ok(())
}

/// The count of pieces has no code: the output is the same as that of `write`.
fn written_counted<L: Ledger>(report: &mut Report, blank: Blank) -> Result<(), Error>
    requires name { blank.name ≡ L.name }
    requires parts { blank.parts ≡ L.parts }
    requires some { 0 < blank.parts }
{
    let alloc = report.alloc;
    let views = [1i32, 2i32];
    let items = [
        Formattable::display(&views[0]),
        Formattable::display(&views[1]),
    ];
    let context = [("l", Formattable::iter(&items))];
    let template = Template::parse(alloc, "{l:i({})(, )}|")?;
    let mut out = TextBuffer::new(alloc);
    let mut count = PieceCount::<L>::open(blank);
    template.write_counted(alloc, &mut out, &Pairs(&context), &mut count)?;
    report.text("counted", "1, 2|", out.as_str());
    Ok(())
}

/// The same, starting from a blank count.
fn counted(report: &mut Report) -> Result<(), Error> {
    written_counted::<Brand>(report, Blank::new(1))
}

pub fn run(report: &mut Report) -> Result<(), Error> {
    report.begin("costs");
    worked_costs(report)?;
    counted(report)
}
