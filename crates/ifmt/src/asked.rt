//! What a command line asks for.

use words::program::about;

const EXPLAIN_FLAG: &str = "--explain";

/// Ends the flags.
const END: &str = "--";

const HELP: &str = "\
Prints a text by a format and named values.

usage: ifmt [--explain] FORMAT [NAME=TEXT | NAME:=NUMBER | NAME:.=DECIMAL | NAME:~=FLOAT
    | NAME[]=ITEM,ITEM..]..

  --explain     show a fault of the format in its line, with the names that there are
  --help        print this, if it is the only word
  --version     print the version, if it is the only word
  --            before a format that begins with `--`

In a format `{name}` and `{name:spec}` stand for values, `{{` and `}}` for braces.

example: ifmt '{name} owes {sum:>8.2} for {items:i({})(, )}' name=Ann sum:.=12.5 'items[]=tea,milk'
  Ann owes    12.50 for tea, milk

Statuses: 0 printed, 1 a fault or out of memory, 2 wrong use, 3 the text cannot be written.";

const VERSION: &str = "ifmt 0.5.0";

/// What a command line asks for.
#[derive(Clone, Copy)]
pub enum Asked<'a> {
    /// The help, or the version.
    Reported(&'static str),
    /// A text, by a format and the words after it; a fault is shown in the format.
    Explained(&'a [String]),
    /// A text, by a format and the words after it.
    Text(&'a [String]),
}

/// What a command line asks for: `--help` and `--version` alone, `--explain` before a format and
/// its words, and `--` before a format that begins with `--`. Any other first word is the format.
pub fn asked_by(line: &[String]) -> Asked<'_> {
    if let Some(text) = about(line, HELP, VERSION) {
        return Asked::Reported(text);
    }
    match line {
        [first, rest @ ..] if first.as_str() == EXPLAIN_FLAG && !rest.is_empty() => {
            Asked::Explained(without_end(rest))
        }
        _ => Asked::Text(without_end(line)),
    }
}

// The words without a first `--`, if the second begins so, too.
fn without_end(line: &[String]) -> &[String] {
    match line.split_first() {
        Some((first, rest)) if first.as_str() == END && begins_like_a_flag(rest) => rest,
        _ => line,
    }
}

// Whether the first of the words begins with `--`.
fn begins_like_a_flag(words: &[String]) -> bool {
    words.first().is_some_and(|word| word.starts_with(END))
}
