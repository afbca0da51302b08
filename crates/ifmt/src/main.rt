//! `ifmt [--explain] FORMAT [NAME=TEXT | NAME:=NUMBER | NAME:.=DECIMAL | NAME:~=FLOAT |
//! NAME[]=ITEM,ITEM..]..`: formats on the command line.
#![tactic(auto)]

mod asked;
mod binding;
mod command;
mod explained;
mod run;

use asked::{Asked, asked_by};
use interpolator::Error;
use std::alloc::Global;
use std::io;
use std::io::Write;
use std::process::ExitCode;
use words::program::{WRITTEN, arguments};

fn main(rt: HostRuntime) -> ExitCode {
    let mut out = rt.stdout();
    let mut err = rt.stderr();
    let status = match arguments(&rt) {
        Ok(line) => answer_line(rt.alloc(), line.as_slice(), &mut out, &mut err),
        Err(error) if error.kind() == io::ErrorKind::OutOfMemory => {
            run::report(Err(Error::NoMemory), &mut out, &mut err)
        }
        // An argument is not UTF-8, so there is no word that a complaint could show.
        Err(_) => run::usage(&mut err),
    };
    ExitCode::from(status)
}

// Does what a command line asks for, and returns the status.
fn answer_line<O: Write, E: Write>(alloc: Global, line: &[String], out: &mut O, err: &mut E) -> u8 {
    match asked_by(line) {
        Asked::Reported(text) => run::status_of(run::put_text(text, out), WRITTEN),
        Asked::Explained(words) => explained::answer_explained(alloc, words, out, err),
        Asked::Text(words) => command::answer(alloc, words, out, err),
    }
}
