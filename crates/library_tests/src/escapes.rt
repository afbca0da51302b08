//! Texts and what is written for them, as Python's `html`, `csv` and `json` write them, its codec
//! `unicode_escape` for controls, and bash's `${x@Q}`; and writers that refuse.

use interpolator_escapes::{Escape, put_escaped};
use interpolator_render::{Bounded, TextBuffer, TextWrite};
use std::alloc::Global;

/// A text, and what is written in a line, a page, a table, a message and a command.
type Row = (&'static str, [&'static str; 5]);

const ROWS: [Row; 18] = [
    ("", ["", "", "", "", ""]),
    ("plain", ["plain", "plain", "plain", "plain", "plain"]),
    (
        "a<b & 'c' > \"d\"",
        [
            "a<b & 'c' > \"d\"",
            "a&lt;b &amp; &#39;c&#39; &gt; &quot;d&quot;",
            "a<b & 'c' > \"\"d\"\"",
            "a\\u003cb & 'c' > \\\"d\\\"",
            "a<b & '\\''c'\\'' > \"d\"",
        ],
    ),
    ("it's", ["it's", "it&#39;s", "it's", "it's", "it'\\''s"]),
    (
        "5\" nails",
        [
            "5\" nails",
            "5&quot; nails",
            "5\"\" nails",
            "5\\\" nails",
            "5\" nails",
        ],
    ),
    (
        "\\n\n\r\t\u{1b}[2J",
        [
            "\\\\n\\n\\r\\t\\x1b[2J",
            "\\n\n\r\t\u{1b}[2J",
            "\\n\n\r\t\u{1b}[2J",
            "\\\\n\\n\\r\\t\\u001b[2J",
            "\\n\n\r\t\u{1b}[2J",
        ],
    ),
    (
        "\u{0}\u{1f}\u{7f}",
        [
            "\\x00\\x1f\\x7f",
            "\u{0}\u{1f}\u{7f}",
            "\u{0}\u{1f}\u{7f}",
            "\\u0000\\u001f\u{7f}",
            "\u{0}\u{1f}\u{7f}",
        ],
    ),
    (
        "~\u{80}\u{85}\u{9b}\u{9f}\u{a0}°",
        [
            "~\\x80\\x85\\x9b\\x9f\u{a0}°",
            "~\u{80}\u{85}\u{9b}\u{9f}\u{a0}°",
            "~\u{80}\u{85}\u{9b}\u{9f}\u{a0}°",
            "~\u{80}\u{85}\u{9b}\u{9f}\u{a0}°",
            "~\u{80}\u{85}\u{9b}\u{9f}\u{a0}°",
        ],
    ),
    (
        "\u{61b}\u{61c}\u{200d}\u{200e}\u{200f}\u{2010}",
        [
            "\u{61b}\\u061c\u{200d}\\u200e\\u200f\u{2010}",
            "\u{61b}\u{61c}\u{200d}\u{200e}\u{200f}\u{2010}",
            "\u{61b}\u{61c}\u{200d}\u{200e}\u{200f}\u{2010}",
            "\u{61b}\u{61c}\u{200d}\u{200e}\u{200f}\u{2010}",
            "\u{61b}\u{61c}\u{200d}\u{200e}\u{200f}\u{2010}",
        ],
    ),
    (
        "\u{2027}\u{2028}\u{2029}\u{202a}\u{202e}\u{202f}",
        [
            "\u{2027}\\u2028\\u2029\\u202a\\u202e\u{202f}",
            "\u{2027}\u{2028}\u{2029}\u{202a}\u{202e}\u{202f}",
            "\u{2027}\u{2028}\u{2029}\u{202a}\u{202e}\u{202f}",
            "\u{2027}\u{2028}\u{2029}\u{202a}\u{202e}\u{202f}",
            "\u{2027}\u{2028}\u{2029}\u{202a}\u{202e}\u{202f}",
        ],
    ),
    (
        "\u{2065}\u{2066}\u{2069}\u{206a}",
        [
            "\u{2065}\\u2066\\u2069\u{206a}",
            "\u{2065}\u{2066}\u{2069}\u{206a}",
            "\u{2065}\u{2066}\u{2069}\u{206a}",
            "\u{2065}\u{2066}\u{2069}\u{206a}",
            "\u{2065}\u{2066}\u{2069}\u{206a}",
        ],
    ),
    (
        "</script><!--",
        [
            "</script><!--",
            "&lt;/script&gt;&lt;!--",
            "</script><!--",
            "\\u003c/script>\\u003c!--",
            "</script><!--",
        ],
    ),
    ("né €😀", ["né €😀", "né €😀", "né €😀", "né €😀", "né €😀"]),
    (
        "0123456789abcdef",
        [
            "0123456789abcdef",
            "0123456789abcdef",
            "0123456789abcdef",
            "0123456789abcdef",
            "0123456789abcdef",
        ],
    ),
    (
        "0123456789abcde\"",
        [
            "0123456789abcde\"",
            "0123456789abcde&quot;",
            "0123456789abcde\"\"",
            "0123456789abcde\\\"",
            "0123456789abcde\"",
        ],
    ),
    (
        "0123456789abcdef0123456789abcdef'&",
        [
            "0123456789abcdef0123456789abcdef'&",
            "0123456789abcdef0123456789abcdef&#39;&amp;",
            "0123456789abcdef0123456789abcdef'&",
            "0123456789abcdef0123456789abcdef'&",
            "0123456789abcdef0123456789abcdef'\\''&",
        ],
    ),
    (
        "<<<<<<<<",
        [
            "<<<<<<<<",
            "&lt;&lt;&lt;&lt;&lt;&lt;&lt;&lt;",
            "<<<<<<<<",
            "\\u003c\\u003c\\u003c\\u003c\\u003c\\u003c\\u003c\\u003c",
            "<<<<<<<<",
        ],
    ),
    (
        "aaaaaaaaaaaaaaaaaaaaaaaaaaaaaaaaaaaaaaaa\\",
        [
            "aaaaaaaaaaaaaaaaaaaaaaaaaaaaaaaaaaaaaaaa\\\\",
            "aaaaaaaaaaaaaaaaaaaaaaaaaaaaaaaaaaaaaaaa\\",
            "aaaaaaaaaaaaaaaaaaaaaaaaaaaaaaaaaaaaaaaa\\",
            "aaaaaaaaaaaaaaaaaaaaaaaaaaaaaaaaaaaaaaaa\\\\",
            "aaaaaaaaaaaaaaaaaaaaaaaaaaaaaaaaaaaaaaaa\\",
        ],
    ),
];

const ESCAPES: [Escape; 5] = [
    Escape::Line,
    Escape::Html,
    Escape::Csv,
    Escape::Json,
    Escape::Shell,
];

#[test]
fn texts_are_escaped(rt: HostRuntime) {
    let mut out = TextBuffer::new(rt.alloc());
    for (text, wanted) in ROWS {
        for index in 0..5 {
            out.clear();
            assert!(rt; put_escaped(&mut out, ESCAPES[index], text).is_ok());
            assert_eq!(rt; out.as_str(), wanted[index], "{text:?}");
        }
    }
}

/// What a writer of at most so many bytes keeps of an escaped text.
fn kept(alloc: Global, most: usize, escape: Escape, text: &str) -> (bool, Bounded) {
    let mut out = Bounded::new(alloc, most);
    let is_whole = put_escaped(&mut out, escape, text).is_ok();
    (is_whole, out)
}

#[test]
fn a_refused_text_is_a_beginning(rt: HostRuntime) {
    for (most, wanted, whole) in [
        (0, "", false),
        (1, "a", false),
        (2, "a&", false),
        (5, "a&lt;", false),
        (6, "a&lt;b", true),
    ] {
        let (is_whole, out) = kept(rt.alloc(), most, Escape::Html, "a<b");
        assert_eq!(rt; is_whole, whole, "{most}");
        assert_eq!(rt; out.as_str(), wanted, "{most}");
        assert_eq!(rt; out.refused(), !whole, "{most}");
    }
}
