//! Formats whose values are written escaped: by a page, by one call, prepared, as records of CSV,
//! and by laws.

use crate::report::Report;
use interpolator::{
    Error, Escape, EscapeError, EscapedTemplate, Formattable, Interpolate, PlaceError, Template,
    TextBuffer, Values, View, Why, format_escaped, items_of, list, values,
};
use interpolator_laws::escaped::{
    a_line_stays_a_line, a_list_is_a_record, an_escape_makes_no_fault, no_value_leaves_its_place,
    values_come_back,
};
use std::alloc::Global;
use std::collections::HashMap;

/// An escape, a format, and what it means with the values below.
type Row = (Escape, &'static str, &'static str);

/// Worked by hand from the tables of escapes: `a` is `<&>"x`, `b` is `it's`, `c` is a tab and `\`, `n`
/// is -7, and `l` is the list of `<` and `"`.
#[rattlefmt::skip]
const PAGES: [Row; 20] = [
    (Escape::Html, "<p title=\"{a}\">{b}</p>", "<p title=\"&lt;&amp;&gt;&quot;x\">it&#39;s</p>"),
    (Escape::Html, "{a:.3}|{a:>7}|{a:?}", "&lt;&amp;&gt;|  &lt;&amp;&gt;&quot;x|&quot;&lt;&amp;&gt;\\&quot;x&quot;"),
    (Escape::Html, "{a:<^9}{n:&>4}", "&lt;&lt;&lt;&amp;&gt;&quot;x&lt;&lt;&amp;&amp;-7"),
    (Escape::Html, "{l:i(<b>{}</b>)(, )}{l:i}", "<b>&lt;</b>, <b>&quot;</b>&lt;&quot;"),
    (Escape::Html, "{l:>13i({})(,)}|{l:>11i({})(,)}", "  &lt;,&quot;|&lt;,&quot;"),
    (Escape::Html, "<a href=\"/{b}\">{n:+}</a>", "<a href=\"/it&#39;s\">-7</a>"),
    (Escape::Csv, "\"{a}\",\"{b}\"", "\"<&>\"\"x\",\"it's\""),
    (Escape::Csv, "\"{a:.4}\",\"{a:>6}\"", "\"<&>\"\"\",\" <&>\"\"x\""),
    (Escape::Csv, "x,\"{l:i({})(;)}\"\n", "x,\"<;\"\"\"\n"),
    (Escape::Json, "{{\"a\": \"{a}\", \"b\": \"{b}\"}}", "{\"a\": \"\\u003c&>\\\"x\", \"b\": \"it's\"}"),
    (Escape::Json, "[{l:i(\"{}\")(, )}]", "[\"\\u003c\", \"\\\"\"]"),
    (Escape::Json, "\"{c}{n}\"", "\"\\t\\\\-7\""),
    (Escape::Json, "{{\"a\":{a:?},\"n\":[{n:?},{n:>4?}]}}", "{\"a\":\"\\u003c&>\\\"x\",\"n\":[-7,  -7]}"),
    (Escape::Json, "[{c:.1?},{a:>9?}]", "[\"\\t\\\\\",\"\\u003c&>\\\"x\"]"),
    (Escape::Shell, "echo '{b}' -- '{c}'", "echo 'it'\\''s' -- '\t\\'"),
    (Escape::Shell, "echo {l:i('{}')( )}", "echo '<' '\"'"),
    (Escape::Line, "{a} {b} {c}", "<&>\"x it's \\t\\\\"),
    (Escape::Line, "C:\\{c:>3}", "C:\\ \\t\\\\"),
    (Escape::Line, "{c:?}", "\"\\\\t\\\\\\\\\""),
    (Escape::Line, "{l:>5i({})(;)}", "  <;\""),
];

/// A format that no value stands in, and why not: its byte, and what is wrong.
#[rattlefmt::skip]
const MISPLACED: [(Escape, &str, usize, Why); 14] = [
    (Escape::Html, "<p id={a}>", 6, Why::Value),
    (Escape::Html, "{a}<script>{b}</script>", 11, Why::Value),
    (Escape::Html, "<a href=\"{b}\">", 9, Why::Value),
    (Escape::Html, "{l:i(<b {})}", 8, Why::Value),
    (Escape::Html, "{l:i(<b>{}</b)}", 0, Why::Item),
    (Escape::Html, "{l:i({})(<br)}", 0, Why::Join),
    (Escape::Html, "{l:<<9i({})}", 0, Why::Fill),
    (Escape::Csv, "\"{a}\",{n}", 6, Why::Value),
    (Escape::Json, "{{\"n\": {n}}}", 7, Why::Value),
    (Escape::Json, "[\"{a:?}\"]", 2, Why::Value),
    (Escape::Json, "[{n:+?}]", 1, Why::Value),
    (Escape::Shell, "echo \"{a}\"", 6, Why::Value),
    (Escape::Shell, "echo {b}", 5, Why::Value),
    (Escape::Line, "{a}{l:\t>9i({})}", 3, Why::Fill),
];

/// A format of records of CSV, and what it means with the values above.
#[rattlefmt::skip]
const RECORDS: [(&str, &str); 8] = [
    ("{a:?},{n:?}\n", "\"<&>\"\"x\",-7\n"),
    ("{c:?},\"{a:.4}\",\"{b:>6}\"", "\"\t\\\",\"<&>\"\"\",\"  it's\""),
    ("{n:>4?},{a:.1?},{a:>9?}\r\n", "  -7,\"<&>\"\"x\",\"<&>\"\"x\"\r\n"),
    ("{l:i({:?})(,)}\n", "\"<\",\"\"\"\"\n"),
    ("{n:?},\"{l:i({})(\",\")}\"", "-7,\"<\",\"\"\"\""),
    ("a,\"{l:i({}: {})(; )}\",{n:?}", "a,\"<: <; \"\": \"\"\",-7"),
    ("\"{a}\",,x", "\"<&>\"\"x\",,x"),
    ("a,b\n", "a,b\n"),
];

/// A format that is no record of CSV, and why not: its byte, and what is wrong.
#[rattlefmt::skip]
const NO_RECORDS: [(&str, usize, Why); 9] = [
    ("{a}", 0, Why::Value),
    ("{n:?};{b:?}", 0, Why::Value),
    ("{a:?},\"{b:?}\"", 7, Why::Value),
    ("\"{a}\",{n}", 6, Why::Value),
    ("x{a:?}", 1, Why::Value),
    ("{a:?},{n:+?}", 6, Why::Value),
    ("{l:i({:?})}", 0, Why::Join),
    ("{a:?},{l:i(\"{}\")(,)}", 6, Why::Item),
    ("{n:?},{l:>9i({:?})(,)}", 6, Why::Value),
];

/// The page of a format, if its values stand.
fn page_of(alloc: Global, escape: Escape, format: &str) -> Result<Option<EscapedTemplate>, Error> {
    match Template::parse(alloc, format)?.escaped(alloc, escape) {
        Ok(page) => Ok(Some(page)),
        Err(PlaceError::Misplaced(_)) => Ok(None),
        Err(PlaceError::NoMemory) => Err(Error::NoMemory),
    }
}

/// A page, written, made and prepared, and made by the laws of all pages.
fn shown(
    report: &mut Report,
    page: &EscapedTemplate,
    row: &Values<'_>,
    wanted: &str,
) -> Result<(), Error> {
    let alloc = report.alloc;
    let mut out = TextBuffer::new(alloc);
    row.write_page_to(alloc, &mut out, page)?;
    report.text("a page, written", wanted, out.as_str());
    let text = row.format_page(alloc, page)?;
    report.text("a page, made", wanted, text.as_str());
    let text = no_value_leaves_its_place(alloc, page, row)?;
    report.text("a page, made by the law", wanted, text.as_str());
    let text = values_come_back(alloc, page, row)?;
    report.text("a page, read back", wanted, text.as_str());
    let line = page.prepare_named(alloc, row)?;
    out.clear();
    line.write_named(alloc, &mut out, row)?;
    report.text("a page, prepared", wanted, out.as_str());
    Ok(())
}

/// A text by one call, or its fault: a text that is wanted, and a fault.
fn at_once(
    report: &mut Report,
    format: &str,
    wanted: (&str, &str),
    answer: Result<String, EscapeError>,
) {
    match answer {
        Ok(text) => report.made(format, wanted, Ok(text)),
        Err(EscapeError::Fault(error)) => report.made(format, wanted, Err(error)),
        Err(EscapeError::Misplaced(_)) => report.holds(format, false),
    }
}

fn pages(report: &mut Report, row: &Values<'_>) -> Result<(), Error> {
    for (escape, format, wanted) in PAGES {
        let answer = row.format_escaped(report.alloc, escape, format);
        at_once(report, format, (wanted, ""), answer);
        match page_of(report.alloc, escape, format)? {
            Some(page) => shown(report, &page, row, wanted)?,
            None => report.holds(format, false),
        }
    }
    Ok(())
}

fn misplaced(report: &mut Report, row: &Values<'_>) -> Result<(), Error> {
    let alloc = report.alloc;
    for (escape, format, place, why) in MISPLACED {
        match row.format_escaped(alloc, escape, format) {
            Err(EscapeError::Misplaced(found)) => {
                report.holds(format, found.place == place && found.why == why);
            }
            _ => report.holds(format, false),
        }
        match Template::parse(alloc, format)?.escaped(alloc, escape) {
            Err(PlaceError::Misplaced(found)) => {
                report.number(format, place, found.place);
                report.holds(format, found.why == why);
            }
            Err(PlaceError::NoMemory) => return Err(Error::NoMemory),
            Ok(_) => report.holds(format, false),
        }
    }
    Ok(())
}

/// Formats of whole fields, written and made, and those that are none.
fn records(report: &mut Report, row: &Values<'_>) -> Result<(), Error> {
    let alloc = report.alloc;
    for (format, wanted) in RECORDS {
        match Template::parse(alloc, format)?.as_record() {
            Ok(record) => {
                let mut out = TextBuffer::new(alloc);
                let answer = record.write(alloc, &mut out, row);
                report.written(format, (wanted, ""), out.as_str(), answer);
                report.made(format, (wanted, ""), record.format(alloc, row));
                report.text(format, format, record.template().text());
            }
            Err(_) => report.holds(format, false),
        }
    }
    for (format, place, why) in NO_RECORDS {
        match Template::parse(alloc, format)?.as_record() {
            Err(PlaceError::Misplaced(found)) => {
                report.number(format, place, found.place);
                report.holds(format, found.why == why);
            }
            _ => report.holds(format, false),
        }
    }
    Ok(())
}

/// A line of values with controls, and a list as a record of CSV.
fn lines_and_records(report: &mut Report, row: &Values<'_>) -> Result<(), Error> {
    let alloc = report.alloc;
    match page_of(alloc, Escape::Line, "user {c}: {a}")? {
        Some(line) => {
            let text = a_line_stays_a_line(alloc, &line, row)?;
            report.text("a line", "user \\t\\\\: <&>\"x", text.as_str());
        }
        None => report.holds("a line", false),
    }
    match page_of(alloc, Escape::Csv, "\"{row:i({})(\",\")}\"")? {
        Some(record) => {
            let text = a_list_is_a_record(alloc, &record, row)?;
            report.text("a record", "\"<\",\"\"\"\"", text.as_str());
        }
        None => report.holds("a record", false),
    }
    Ok(())
}

/// Formats that fail, and one that does not, as they are and escaped.
fn faults(report: &mut Report, row: &Values<'_>) -> Result<(), Error> {
    let alloc = report.alloc;
    for (format, fault) in [
        ("{a}{missing}", "MissingValue(\"missing\", 4)"),
        ("{b:x}", "MissingTraitImpl(LowerHex, 4)"),
        ("{l:.1i}", "Parse(Iter(6))"),
        ("{a:>5y}", "Parse(Expected(\"}\", 5))"),
    ] {
        at_once(
            report,
            format,
            ("", fault),
            row.format_escaped(alloc, Escape::Html, format),
        );
        match page_of(alloc, Escape::Html, format)? {
            Some(page) => {
                let (plain, escaped) = an_escape_makes_no_fault(alloc, &page, row);
                report.fault(format, fault, plain);
                report.fault(format, fault, escaped);
            }
            None => report.holds(format, false),
        }
    }
    match page_of(alloc, Escape::Html, "{b}")? {
        Some(page) => {
            let (plain, escaped) = an_escape_makes_no_fault(alloc, &page, row);
            report.made("no fault", ("it's", ""), plain);
            report.made("no fault, escaped", ("it&#39;s", ""), escaped);
        }
        None => report.holds("no fault", false),
    }
    Ok(())
}

/// One call over a map whose type names two lifetimes, and over a context by the function.
fn maps(report: &mut Report) {
    let alloc = report.alloc;
    let name = View::Text("Ann\n<b>");
    let mut map = HashMap::new(alloc);
    let added = map.insert("name", Formattable::display(&name));
    report.holds("a name is added", added.is_ok());
    let answer = map.format_escaped(alloc, Escape::Line, "user {name}");
    at_once(report, "a map", ("user Ann\\n<b>", ""), answer);
    let answer = format_escaped(alloc, Escape::Html, "<i>{name:.5}</i>", &values!(name));
    at_once(report, "a function", ("<i>Ann\n&lt;</i>", ""), answer);
}

/// What `{}` writes for an error of one call.
fn reported(report: &mut Report, row: &Values<'_>) -> Result<(), Error> {
    for (format, wanted) in [
        ("<p id={a}>", "at 6: this value is out of place"),
        (
            "{a}{missing}",
            "specified value not in context `missing` at 4",
        ),
    ] {
        match row.format_escaped(report.alloc, Escape::Html, format) {
            Ok(_) => report.holds(format, false),
            Err(error) => {
                let text = format!(in report.alloc; "{error}")?;
                report.text(format, wanted, text.as_str());
            }
        }
    }
    Ok(())
}

/// The checks of escaped formats.
pub fn run(report: &mut Report) -> Result<(), Error> {
    report.begin("escaped");
    let alloc = report.alloc;
    let marks = list!["<", "\""];
    let items = items_of(alloc, &marks)?;
    let row = values!(
        a:debug_display = "<&>\"x", b = "it's", c:debug_display = "\t\\", n:integer = -7i32,
        l:i = &items, row:i = &items
    );
    pages(report, &row)?;
    records(report, &row)?;
    lines_and_records(report, &row)?;
    faults(report, &row)?;
    maps(report);
    reported(report, &row)?;
    misplaced(report, &row)
}
