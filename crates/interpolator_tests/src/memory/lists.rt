//! Memory that a padded list or the name of a missing value needs.

use crate::given::{Given, format_given, write_given};
use crate::report::Report;
use interpolator::{Error, Formattable, Pairs, Template, TextBuffer};

/// A format, what may already be written when memory is needed, the output if memory is given, and
/// the fault that is then returned.
struct Wanting<'a> {
    format: &'a str,
    before: &'a [&'a str],
    text: &'a str,
    fault: &'a str,
}

/// Worked by hand from the rules of lists and outcomes in docs/DEFINITIONS.md, with the list `h` of
/// 1 and 5, and the list `o` of one item, which is the list `h`.
#[rattlefmt::skip]
const WANTING: [Wanting<'static>; 13] = [
    Wanting { format: "ab{h:>6i({})(,)}", before: &["ab"], text: "ab   1,5", fault: "" },
    Wanting { format: "{h:6i}", before: &[""], text: "15    ", fault: "" },
    Wanting { format: "ab{h:1i({}, and quite a few characters after each item)}", before: &["ab"], text: "ab1, and quite a few characters after each item5, and quite a few characters after each item", fault: "" },
    Wanting { format: "ab{h:9i({:>80})}", before: &["ab"], text: "ab                                                                               1                                                                               5", fault: "" },
    Wanting { format: "ab{o:>6i#({:4i({})})#}!", before: &["ab"], text: "ab  15  !", fault: "" },
    Wanting { format: "ab{o:i#(c{:>4i})#}!", before: &["abc"], text: "abc  15!", fault: "" },
    Wanting { format: "ab{h:6i({z})}", before: &["ab"], text: "ab", fault: "MissingValue(\"z\", 9)" },
    Wanting { format: "ab{h:6i({}{:b})}", before: &["ab"], text: "ab", fault: "MissingTraitImpl(Binary, 13)" },
    Wanting { format: "{h:5i({:y})}", before: &[""], text: "", fault: "Parse(Expected(\"}\", 8))" },
    Wanting { format: "{h:5i({:+i})}", before: &[""], text: "", fault: "MissingTraitImpl(Iter, 10)" },
    Wanting { format: "{o:5i({:+i})}", before: &[""], text: "", fault: "Parse(Iter(10))" },
    Wanting { format: "ab{q}", before: &["ab"], text: "ab", fault: "MissingValue(\"q\", 3)" },
    Wanting { format: "ab{h:6i}{z}", before: &["ab", "ab15    "], text: "ab15    ", fault: "MissingValue(\"z\", 9)" },
];

/// More bytes than any row writes.
const ROOM: usize = 300;

/// Checks the row with a writer that has its room already, and returns whether there was memory. If
/// there was not, nothing of the argument that needs memory was written.
fn is_written(
    report: &mut Report,
    pairs: Pairs<'_, u64>,
    row: &Wanting<'_>,
    given: Given<'_>,
) -> bool {
    let Ok(room) = String::with_capacity(report.alloc, ROOM) else {
        return false;
    };
    let mut out = TextBuffer::from_string(room);
    let answer = write_given(report.alloc, &mut out, given, &pairs);
    if matches!(answer, Err(Error::NoMemory)) {
        report.refused(row.format, row.before.contains(&out.as_str()));
        return false;
    }
    report.written(row.format, (row.text, row.fault), out.as_str(), answer);
    true
}

/// Checks the row: the first call succeeds or, if memory was refused, the second.
fn gives(report: &mut Report, pairs: Pairs<'_, u64>, row: &Wanting<'_>, given: Given<'_>) {
    let written = is_written(report, pairs, row, given) || is_written(report, pairs, row, given);
    report.holds(row.format, written);
    let made = again!(format_given(report.alloc, given, &pairs));
    report.made(row.format, (row.text, row.fault), made);
}

/// Checks the rows with a list, and with a list of one item which is that list: by their formats
/// and by the templates of these.
fn give(report: &mut Report, numbers: Formattable<'_, u64>) -> Result<(), Error> {
    let outer = [numbers];
    for row in &WANTING {
        let pairs = Pairs(&[("h", numbers), ("o", Formattable::iter(&outer))]);
        let template = again!(Template::parse(report.alloc, row.format))?;
        gives(report, pairs, row, Given::Text(row.format));
        gives(report, pairs, row, Given::Template(&template));
    }
    Ok(())
}

pub fn run(report: &mut Report) -> Result<(), Error> {
    let numbers = [Formattable::display(&1u64), Formattable::display(&5u64)];
    give(report, Formattable::iter(&numbers))
}
