//! Views and their escaped texts. Each text was made by hand: what Rust's `format!` writes for the
//! view, and then each character as its escape writes it.

use interpolator_escapes::{
    CsvEscaper, Escape, HtmlEscaper, JsonEscaper, LineEscaper, ShellEscaper, put_text_view,
    put_view,
};
use interpolator_eval::Escaper;
use interpolator_render::{
    Alignment, Bits, Bounded, HexDebug, RenderFault, Sign, Spec, TextBuffer, TextWrite, Trait,
    Value, View,
};
use std::alloc::Global;

/// An escape, a view and how it is written, and its escaped text.
type Row = (Escape, View<'static>, Trait, Spec, &'static str);

/// A spec in which nothing is set.
const PLAIN: Spec = Spec {
    fill: None,
    alignment: Alignment::Unset,
    sign: Sign::Unset,
    alternate: false,
    zero: false,
    width: None,
    precision: None,
    hex_debug: HexDebug::No,
};

#[rattlefmt::skip]
const ROWS: [Row; 36] = [
    // each kind of view
    (Escape::Html, View::Text("<b>"), Trait::Display, PLAIN, "&lt;b&gt;"),
    (Escape::Html, View::Character('<'), Trait::Display, PLAIN, "&lt;"),
    (Escape::Html, View::Truth(true), Trait::Display, PLAIN, "true"),
    (Escape::Html, View::Signed(-7, Bits::B8), Trait::Display, PLAIN, "-7"),
    (Escape::Html, View::Unsigned(7), Trait::Display, PLAIN, "7"),
    (Escape::Html, View::Decimal { units: 1250, scale: 2 }, Trait::Display, PLAIN, "12.50"),
    (Escape::Html, View::Float(1.5), Trait::Display, PLAIN, "1.5"),
    (Escape::Html, View::Float32(0.25), Trait::Display, PLAIN, "0.25"),
    (Escape::Html, View::Plain("<b>"), Trait::Iter, PLAIN, "&lt;b&gt;"),
    (Escape::Html, View::Plain("<b>"), Trait::Display, Spec { precision: Some(1), width: Some(9), ..PLAIN }, "&lt;b&gt;"),
    (Escape::Html, View::Text(""), Trait::Display, PLAIN, ""),
    // a precision counts the characters of the value
    (Escape::Html, View::Text("<b>"), Trait::Display, Spec { precision: Some(0), ..PLAIN }, ""),
    (Escape::Html, View::Text("<b>"), Trait::Display, Spec { precision: Some(1), ..PLAIN }, "&lt;"),
    (Escape::Html, View::Text("<b>"), Trait::Display, Spec { precision: Some(2), ..PLAIN }, "&lt;b"),
    (Escape::Json, View::Text("\u{1}<é"), Trait::Display, Spec { precision: Some(2), ..PLAIN }, "\\u0001\\u003c"),
    // and so does a width
    (Escape::Html, View::Text("<b>"), Trait::Display, Spec { width: Some(5), ..PLAIN }, "&lt;b&gt;  "),
    (Escape::Html, View::Text("<b>"), Trait::Display, Spec { precision: Some(1), width: Some(3), alignment: Alignment::Right, ..PLAIN }, "  &lt;"),
    // a fill is escaped
    (Escape::Html, View::Text("a"), Trait::Display, Spec { fill: Some('&'), width: Some(3), ..PLAIN }, "a&amp;&amp;"),
    (Escape::Html, View::Text("<"), Trait::Display, Spec { fill: Some('>'), width: Some(4), alignment: Alignment::Center, ..PLAIN }, "&gt;&lt;&gt;&gt;"),
    (Escape::Csv, View::Unsigned(5), Trait::Display, Spec { fill: Some('"'), width: Some(3), ..PLAIN }, "\"\"\"\"5"),
    (Escape::Shell, View::Signed(-7, Bits::B64), Trait::Display, Spec { fill: Some('\''), width: Some(3), ..PLAIN }, "'\\''-7"),
    (Escape::Line, View::Truth(false), Trait::Display, Spec { fill: Some('\n'), width: Some(6), alignment: Alignment::Left, ..PLAIN }, "false\\n"),
    (Escape::Line, View::Character('é'), Trait::Display, Spec { fill: Some('\u{2028}'), width: Some(2), alignment: Alignment::Right, ..PLAIN }, "\\u2028é"),
    (Escape::Json, View::Float(-2.5), Trait::Display, Spec { fill: Some('\\'), width: Some(5), alignment: Alignment::Left, ..PLAIN }, "-2.5\\\\"),
    // so are the quotes and the escapes of debug
    (Escape::Html, View::Text("\""), Trait::Debug, PLAIN, "&quot;\\&quot;&quot;"),
    (Escape::Html, View::Character('\''), Trait::Debug, PLAIN, "&#39;\\&#39;&#39;"),
    (Escape::Shell, View::Character('\''), Trait::Debug, PLAIN, "'\\''\\'\\'''\\''"),
    (Escape::Csv, View::Text("a\"b"), Trait::Debug, PLAIN, "\"\"a\\\"\"b\"\""),
    (Escape::Line, View::Text("\u{1b}"), Trait::Debug, PLAIN, "\"\\\\u{1b}\""),
    // numbers in other forms have no character that is escaped
    (Escape::Html, View::Unsigned(255), Trait::LowerHex, Spec { alternate: true, ..PLAIN }, "0xff"),
    (Escape::Json, View::Signed(-1, Bits::B8), Trait::Binary, PLAIN, "11111111"),
    (Escape::Csv, View::Unsigned(1200), Trait::LowerExp, PLAIN, "1.2e3"),
    (Escape::Line, View::Signed(7, Bits::B8), Trait::Display, Spec { sign: Sign::Plus, zero: true, width: Some(4), ..PLAIN }, "+007"),
    (Escape::Shell, View::Decimal { units: -5, scale: 1 }, Trait::Debug, Spec { precision: Some(2), ..PLAIN }, "-0.50"),
    (Escape::Line, View::Text("a\tb"), Trait::Display, PLAIN, "a\\tb"),
    (Escape::Shell, View::Text("it's"), Trait::Display, PLAIN, "it'\\''s"),
];

/// Whole values of JSON, which debug writes.
#[rattlefmt::skip]
const WHOLES: [Row; 14] = [
    // a text with its quotes, whatever the spec is
    (Escape::Json, View::Text("a\nb"), Trait::Debug, PLAIN, "\"a\\nb\""),
    (Escape::Json, View::Text(""), Trait::Debug, Spec { width: Some(3), ..PLAIN }, "\"\""),
    (Escape::Json, View::Text("</é\"\\"), Trait::Debug, Spec { precision: Some(1), ..PLAIN }, "\"\\u003c/é\\\"\\\\\""),
    (Escape::Json, View::Plain("12 a"), Trait::Debug, PLAIN, "\"12 a\""),
    (Escape::Json, View::Character('"'), Trait::Debug, PLAIN, "\"\\\"\""),
    // a number or a truth value as debug shows it, but a float that is not finite
    (Escape::Json, View::Signed(-7, Bits::B8), Trait::Debug, Spec { width: Some(4), ..PLAIN }, "  -7"),
    (Escape::Json, View::Unsigned(18446744073709551616), Trait::Debug, PLAIN, "18446744073709551616"),
    (Escape::Json, View::Truth(true), Trait::Debug, PLAIN, "true"),
    (Escape::Json, View::Decimal { units: -5, scale: 1 }, Trait::Debug, Spec { precision: Some(2), ..PLAIN }, "-0.50"),
    (Escape::Json, View::Float(2.0), Trait::Debug, PLAIN, "2.0"),
    (Escape::Json, View::Float(1e300), Trait::Debug, PLAIN, "1e300"),
    (Escape::Json, View::Float32(0.25), Trait::Debug, Spec { precision: Some(1), ..PLAIN }, "0.2"),
    (Escape::Json, View::Float(f64::NAN), Trait::Debug, Spec { width: Some(6), ..PLAIN }, "null"),
    (Escape::Json, View::Float32(f32::NEG_INFINITY), Trait::Debug, PLAIN, "null"),
];

/// Writes a row's view.
fn put_row<W: TextWrite>(out: &mut W, row: &Row) -> Result<(), RenderFault> {
    let (escape, view, wanted, spec, _) = row;
    put_view(out, *escape, view.view(*wanted, spec), *wanted, spec)
}

/// Whether a row's view has its text.
fn is_written(alloc: Global, row: &Row) -> bool {
    let mut out = TextBuffer::new(alloc);
    put_row(&mut out, row).is_ok() && out.as_str() == row.4
}

#[test]
fn views_are_escaped(rt: HostRuntime) {
    for row in &ROWS {
        assert!(rt; is_written(rt.alloc(), row), "{}", row.4);
    }
}

#[test]
fn whole_values_are_written(rt: HostRuntime) {
    for row in &WHOLES {
        assert!(rt; is_written(rt.alloc(), row), "{}", row.4);
    }
}

/// Whether a writer of at most so many bytes keeps a beginning of a row's text, and says so.
fn is_kept(alloc: Global, row: &Row, most: usize) -> bool {
    let mut out = Bounded::new(alloc, most);
    let answer = put_row(&mut out, row);
    let (beginning, rest) = row.4.split_at(row.4.floor_char_boundary(most));
    let wanted = if rest.is_empty() {
        Ok(())
    } else {
        Err(RenderFault::Refused)
    };
    answer == wanted && out.as_str() == beginning && out.refused() != rest.is_empty()
}

/// Whether this holds of each number of bytes up to the text's own.
fn are_kept(alloc: Global, row: &Row) -> bool {
    for most in 0..row.4.len() {
        if !is_kept(alloc, row, most) {
            return false;
        }
    }
    is_kept(alloc, row, row.4.len())
}

#[test]
fn a_refused_view_is_a_beginning(rt: HostRuntime) {
    for row in &ROWS {
        assert!(rt; are_kept(rt.alloc(), row), "{}", row.4);
    }
}

#[test]
fn a_refused_whole_value_is_a_beginning(rt: HostRuntime) {
    for row in &WHOLES {
        assert!(rt; are_kept(rt.alloc(), row), "{}", row.4);
    }
}

/// Whether a writer that has refused refuses a text, and takes the empty one.
fn takes_only_empty(out: &mut Bounded) -> bool {
    let refused = put_view(out, Escape::Html, View::Text("<"), Trait::Display, &PLAIN);
    let empty = put_view(out, Escape::Html, View::Text(""), Trait::Display, &PLAIN);
    let plainly = put_text_view(out, Escape::Html, "");
    refused == Err(RenderFault::Refused) && empty.is_ok() && plainly.is_ok()
}

#[test]
fn a_writer_that_refused_takes_the_empty_text(rt: HostRuntime) {
    let mut out = Bounded::new(rt.alloc(), 1);
    assert!(rt; out.write_str("ab").is_err());
    assert!(rt; takes_only_empty(&mut out));
    assert_eq!(rt; out.as_str(), "a");
}

/// Whether a view has no text, for this reason, and nothing was written.
fn has_no_text(alloc: Global, view: &View<'_>, wanted: Trait, fault: RenderFault) -> bool {
    let mut out = TextBuffer::new(alloc);
    let answer = put_view(
        &mut out,
        Escape::Html,
        view.view(wanted, &PLAIN),
        wanted,
        &PLAIN,
    );
    answer == Err(fault) && out.as_str().is_empty() && !out.refused()
}

#[test]
fn what_has_no_text_writes_nothing(rt: HostRuntime) {
    let (text, none, failed) = (View::Text("<"), View::NotImplemented, View::Failed);
    let not = RenderFault::NotImplemented;
    assert!(rt; has_no_text(rt.alloc(), &text, Trait::Octal, not));
    assert!(rt; has_no_text(rt.alloc(), &none, Trait::Display, not));
    assert!(rt; has_no_text(rt.alloc(), &failed, Trait::Display, RenderFault::Failed));
}

/// Whether an escaper writes this of a text, a number, and a text of which a part is shown.
fn writes<E: Escaper>(alloc: Global, wanted: &str) -> bool {
    let mut out = TextBuffer::new(alloc);
    let text = E::put_text(&mut out, "<'\"\n");
    let number = E::put_plainly(&mut out, View::Unsigned(7));
    let spec = Spec {
        precision: Some(1),
        ..PLAIN
    };
    let part = E::put(&mut out, View::Text("\"&"), Trait::Display, &spec);
    let view = E::put_plainly(&mut out, View::Text("<"));
    text.is_ok() && number.is_ok() && part.is_ok() && view.is_ok() && out.as_str() == wanted
}

#[test]
fn escapers_write_as_their_escapes(rt: HostRuntime) {
    assert!(rt; writes::<LineEscaper>(rt.alloc(), "<'\"\\n7\"<"));
    assert!(rt; writes::<HtmlEscaper>(rt.alloc(), "&lt;&#39;&quot;\n7&quot;&lt;"));
    assert!(rt; writes::<CsvEscaper>(rt.alloc(), "<'\"\"\n7\"\"<"));
    assert!(rt; writes::<JsonEscaper>(rt.alloc(), "\\u003c'\\\"\\n7\\\"\\u003c"));
    assert!(rt; writes::<ShellEscaper>(rt.alloc(), "<'\\''\"\n7\"<"));
}
