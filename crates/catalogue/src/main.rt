//! `catalogue [--line | --html] [--fallback FILE] FILE KEY WORD..`: the message under a key in a
//! file whose messages are all checked first, with the values of words `NAME=TEXT`, `NAME:=NUMBER`,
//! `NAME:.=DECIMAL`, `NAME:~=FLOAT` and `NAME[]=ITEM,ITEM..`. If the file lacks the key, the
//! message is that of the fallback, which is checked too. `catalogue --check FILE..` checks files
//! alone.
//!
//! A line of a file is `key = format`, or `key(name, count:, price:., x:~, items[]) = format`,
//! which declares a text `name`, a whole number `count`, a decimal `price`, a float `x` and a list
//! of texts `items`. The format is then checked with examples of these, and the words have to give
//! them, in any order. No two lines of a file have the same key. Blank lines, and lines whose first
//! character is `#`, are skipped. White space around a key and in front of a format does not count.
//! Each fault is shown in its line, with the file, the line and the column; if there is any, no
//! message is written.
//!
//! A line that begins with a blank or a tab goes on with the message before it (the crate `folds`):
//!
//! ```text
//! mail(name) = Dear {name},\n
//!   your order was shipped, and
//!   will arrive.
//! ```
//!
//! has two lines. Such a line adds a blank and its text, and only the text at the beginning of a
//! format or after a `\n`. In a format `\n` is a line end and `\\` a backslash, and no other
//! backslash may stand. Blank lines end no message, but comments and rules do.
//!
//! A line that begins with `plural:` is the rule of its file, an expression as gettext and CLDR
//! write them (the crate `plurals`). It stands once, before all messages:
//!
//! ```text
//! plural: n == 1 ? one : other
//! plural: n == 1 ? one : n >= 2 && n <= 4 ? few : other
//! plural: n % 10 == 1 && n % 100 != 11 ? one : n % 10 >= 2 && n % 10 <= 4 ? few : many
//! ```
//!
//! are those of English and Czech, and nearly that of Russian, whose `few` also wants `(n % 100 <
//! 12 || n % 100 > 14)`. If the file has no line of the key `cart`, `catalogue FILE cart n:=1`
//! writes the message of `cart.one`: the form is the name, or the number, to which the rule comes
//! with the numbers of the words. If the number of a test is missing, or a decimal has its name,
//! the form is the one before the `:`, and the missing number is reported; if no line has the form,
//! that is. A negative number is none of those that a rule names, but has the last digits of its
//! size: `n % 10 == 1` holds for -21, and `n == 1` does not for -1. A check reports what is wrong
//! with the rule, and a key that lacks a form which the rule can choose.
//!
//! A rule may also choose by a text, alone or with numbers:
//!
//! ```text
//! plural: gender == 'f' ? she : gender == 'm' ? he : they
//! ```
//!
//! A name followed by `==` or `!=` and a text between quotes `'` is whether the word `NAME=TEXT`
//! gives that text, byte for byte; it binds more tightly than any operator, and the text has no
//! quote in it. Such a text stands nowhere else. One that is missing is reported as a number is.
//!
//! Beside a message, the words whose names no message or declaration of the files uses and no rule
//! asks for are told on standard error; a rule does not ask for its forms. Below the report that a
//! key is not there stands the nearest that is: at most a character inserted, removed or replaced
//! for each three of the key.
//!
//! With `--line` or `--html` the values are written escaped. Then each value of each message has to
//! stand where it may, of `--html` in text or between the quotes of an attribute; of each message
//! the first that does not is shown after all other faults, and no message is written.
//!
//! With `--po` the file is a PO file of gettext (the crate `po`), and the key a `msgid`, with
//! `--context` one of this `msgctxt`. The form of a message with a plural is that which
//! Plural-Forms choose by the number `n`, and a message that is fuzzy or has no translation is its
//! own text. A check also reports messages that stand twice, a translation that lacks a form or, if
//! there is no plural, a name of its message, and one with a name, trait or list that its message
//! has not.
//!
//! The status is 0 after a message, or a check without a fault; 1 after a fault, 2 after a wrong
//! use or a bad word, and 3 if a file cannot be read or is no UTF-8, or the output cannot be
//! written, which is told on standard error. Of a file that is no UTF-8 the first byte that is none
//! is told, with its line and column.
#![tactic(auto)]

mod answers;
mod arguments;
mod asked;
mod checks;
mod declarations;
mod encoding;
mod entries;
mod examples;
mod files;
mod formats;
mod forms;
mod keys;
mod lacks;
mod line_faults;
mod lines;
mod messages;
mod nearest;
mod objects;
mod picks;
mod places;
mod plural_forms;
mod po_reports;
mod reports;
mod rules;
mod translated;
mod translations;
mod unused;

use answers::{answer, answer_po, check_files, status_after};
use asked::{asked_by, is_po_free, wanted_by};
use std::io;
use std::process::ExitCode;
use words::program::{BAD_USE, REFUSED, about, out_of_memory, words_in};

const USAGE: &str = "usage: catalogue [--line | --html] [--fallback FILE] [--] FILE KEY \
    [NAME=TEXT | NAME:=NUMBER | NAME:.=DECIMAL | NAME:~=FLOAT | NAME[]=ITEM,ITEM..] | \
    catalogue --check [--line | --html] [--] FILE.. | \
    catalogue --po [--context TEXT] [--line | --html] [--] FILE KEY WORD.. | \
    catalogue --po --check [--line | --html] [--] FILE..";

const HELP: &str = "\
Writes the message under a key of a file whose messages are all checked first.

usage: catalogue [--line | --html] [--fallback FILE] [--] FILE KEY WORD..
       catalogue --check [--line | --html] [--] FILE..
       catalogue --po [--context TEXT] [--line | --html] [--] FILE KEY WORD..
       catalogue --po --check [--line | --html] [--] FILE..

  WORD               NAME=TEXT, NAME:=NUMBER, NAME:.=DECIMAL, NAME:~=FLOAT or NAME[]=ITEM,ITEM..
  --check            only check files
  --fallback FILE    the messages whose keys the file lacks
  --line             values escaped, so that they have no line ends
  --html             values escaped, as in the text or a quoted attribute of a page
  --po               files of gettext, whose KEY is a msgid; the number n chooses its form
  --context TEXT     the msgctxt of KEY
  --help             print this
  --version          print the version

A line of a file is `KEY = FORMAT`, or `KEY(name, count:, price:., x:~, items[]) = FORMAT`, which
declares a text, a whole number, a decimal, a float and a list. A line that begins with a blank goes
on with the format before it. By a line `plural: n == 1 ? one : other` the number n chooses between
KEY.one and KEY.other, by `plural: gender == 'f' ? she : they` the text gender.

example: with the line `cart(name, n:) = {name} has {n} items.` in m.txt
  catalogue m.txt cart name=Ann n:=3
writes
  Ann has 3 items.
";

const VERSION: &str = "catalogue 0.5.0\n";

/// Writes the usage line.
fn tell_usage(rt: &HostRuntime) -> io::Result<u8> {
    eprintln!(rt; "{USAGE}")?;
    Ok(BAD_USE)
}

/// Runs a command line, and returns the status.
fn run(rt: &HostRuntime, line: &[String]) -> io::Result<u8> {
    if let Some(text) = about(line.get(..1).unwrap_or(&[]), HELP, VERSION) {
        return status_after(rt, rt.print(text));
    }
    let Some(asked) = asked_by(line) else {
        return tell_usage(rt);
    };
    let is_plain = asked.second.is_none() && asked.context.is_none();
    if asked.is_check && is_plain && !asked.words.is_empty() {
        return check_files(rt, &asked);
    }
    match wanted_by(&asked) {
        Some(wanted) if asked.is_po && !asked.is_check && asked.second.is_none() => {
            answer_po(rt, &asked, &wanted)
        }
        Some(wanted) if is_po_free(&asked) => answer(rt, &wanted),
        _ => tell_usage(rt),
    }
}

fn main(rt: HostRuntime) -> ExitCode {
    let line = match words_in(&rt, USAGE) {
        Ok(line) => line,
        Err(status) => return status,
    };
    match run(&rt, &line) {
        Ok(status) => ExitCode::from(status),
        Err(error) if error.kind() == io::ErrorKind::OutOfMemory => out_of_memory(&rt),
        Err(_) => ExitCode::from(REFUSED),
    }
}
