//! The escapes, by where a value is shown.

/// Where values are shown, and so which of their characters are escaped.
#[derive(Clone, Copy, Debug, PartialEq, Eq)]
pub enum Escape {
    /// A line, as of a log: `\`, ASCII controls, U+0080 to U+009F, the separators of lines and
    /// paragraphs, and the marks of direction, each after a backslash: `\n`, `\x1b`, `\u202e`.
    Line,
    /// Text of HTML, and the value of an attribute between quotes: `&`, `<`, `>` and both quotes as
    /// references, as `&lt;`.
    Html,
    /// A CSV field between double quotes, by RFC 4180: each double quote twice.
    Csv,
    /// A string of JSON, between its double quotes: these, `\` and the controls below U+0020 after
    /// a backslash. `<` is written `\u003c`, so that the text may stand in a page. Between strings, and
    /// under `?` alone, a whole value: a text with its quotes, a number, `true`, `false` or `null`.
    Json,
    /// A word of a POSIX shell between single quotes: these as `'\''`.
    Shell,
}
