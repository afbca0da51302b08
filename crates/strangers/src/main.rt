//! `strangers [FLAG NUMBER..] FORMAT [NAME=TEXT | NAME:=NUMBER | NAME:.=DECIMAL |
//! NAME[]=ITEM,ITEM..]`: formats with an untrusted format, if it has no fault with the values and
//! cannot cost more than is allowed.
//!
//! `--text` and `--items` limit the characters of a text or a decimal and the items of a list among
//! the values: 80 and 20 by default. `--characters`, `--pieces` and `--buffered` limit the cost of
//! the format with such values: 10000, 1000 and 10000. Put `--` before a format that begins with
//! `--`; `--help` as the only word prints help, `--version` the version. A float, `NAME:~=FLOAT` in
//! other programs, is a bad word: its text may be longer than any limit.
#![tactic(auto)]

mod answering;
mod lending;
mod reading;
mod serving;
mod values;

use answering::{Answer, answered};
use serving::{Count, Refused};
use std::io;
use std::process::ExitCode;
use words::program::{
    BAD_USE, FAULT, WRITTEN, about, ended, out_of_memory, status_of, usage, words_in,
};

const USAGE: &str = "usage: strangers [FLAG NUMBER..] FORMAT \
    [NAME=TEXT | NAME:=NUMBER | NAME:.=DECIMAL | NAME[]=ITEM,ITEM..]";

const HELP: &str = "\
Prints a text by a format that nobody trusts, if it has no fault with the values, and cannot cost
more than is allowed.

usage: strangers [FLAG NUMBER..] [--] FORMAT
    [NAME=TEXT | NAME:=NUMBER | NAME:.=DECIMAL | NAME[]=ITEM,ITEM..]..

  --text N        the most characters of a text or a decimal among the values: 80
  --items N       the most items of a list: 20
  --characters N  the most characters that may be written: 10000
  --pieces N      the most pieces that may be gone through: 1000
  --buffered N    the most characters that may be held: 10000
  --              before a format that begins with `--`
  --help          print this, if it is the only word
  --version       print the version, if it is the only word

example: strangers --text 20 'Dear {name}' name=Ann
  Dear Ann
";

const VERSION: &str = "strangers 0.5.0\n";

/// The name of a count, as it is reported.
fn name_of(count: Count) -> &'static str {
    match count {
        Count::Characters => "characters",
        Count::Pieces => "pieces",
        Count::Buffered => "buffered characters",
        Count::Text => "characters of a text",
        Count::Items => "items of a list",
    }
}

/// Reports why a format was rejected.
fn tell_refused(rt: &HostRuntime, refused: &Refused) -> io::Result<()> {
    match refused {
        Refused::Format(error) => eprintln!(rt; "{error}"),
        Refused::Past {
            count,
            reported,
            limit,
        } => {
            let what = name_of(*count);
            if *reported == usize::MAX {
                eprintln!(rt; "{what}: {reported} or more, where {limit} are allowed")
            } else {
                eprintln!(rt; "{what}: {reported}, where {limit} are allowed")
            }
        }
    }
}

/// Prints an answer, and ends the run.
fn tell(rt: &HostRuntime, answer: &Answer) -> ExitCode {
    match answer {
        Answer::Text(text) => ended(println!(rt; "{text}"), WRITTEN),
        Answer::Refused(refused) => ended(tell_refused(rt, refused), FAULT),
        Answer::BadWord(word) => ended(eprintln!(rt; "bad word: {word}"), BAD_USE),
        Answer::BadUse => usage(rt, USAGE),
    }
}

/// Runs a command line.
fn run(rt: &HostRuntime) -> Result<ExitCode, ExitCode> {
    let line = words_in(rt, USAGE)?;
    if let Some(text) = about(&line, HELP, VERSION) {
        return Ok(ended(rt.print(text), WRITTEN));
    }
    match answered(rt.alloc(), &line) {
        Ok(answer) => Ok(tell(rt, &answer)),
        Err(_) => Err(out_of_memory(rt)),
    }
}

fn main(rt: HostRuntime) -> ExitCode {
    status_of(run(&rt))
}
