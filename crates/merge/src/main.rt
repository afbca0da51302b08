//! `merge TEMPLATE TABLE`: a letter for each record of the table.
//!
//! The first record of the table is its header, which names its columns; white space around a name
//! does not count. A name that ends in `:`, as `price:`, is that of a column of numbers, without
//! the `:`. Its fields are whole numbers or decimals, as -7 or 12.50, of 128 bits without the
//! point.
//! White space around them, zeros in front and a `+` are not shown; all digits after the point are.
//! `{price:>10.2}` shows such a field with two digits after the point, at the right of ten
//! characters. A name that ends in `:~` is that of a column of floats, as std reads an `f64`: also
//! `1e21`, `nan` and `inf`. The fields of other columns are texts.
//!
//! The other records have a field for each name. Records are spelled as the crate `records` reads
//! them: fields may stand in quotes, with separators, line ends and doubled quotes in them. The
//! separator is that of `--separator`, which is `,`, `;` or `tab`; without it, the one that a line
//! `sep=;` above the header names, or that of the three which the header's line alone has, or else
//! the comma. Blank lines at the end are no records; any other blank line is a record of one empty
//! field, so it is reported in a table of two columns or more. A byte order mark at the head of a
//! file is skipped, and so is a line `sep=;` at the head of a table. The table is UTF-8, or with
//! `--latin1` Latin-1; templates are UTF-8.
//!
//! With `--if-empty title=PLAIN`, the letter of a record whose field `title` is empty is made by
//! the template in the file PLAIN.
//!
//! With `--html`, `--csv` or `--json`, of which one may be given, once, values are written
//! escaped: as in the text and the attributes of a page, in the quoted fields of a table, or in
//! the strings of JSON. In a table `{name:?}` is a whole field, and in JSON between strings a whole
//! value, with its quotes if it is a text. Each value of a template has to stand in such a place,
//! and a template has to end as it began, so that the next letter begins as this one did: one of
//! CSV ends with a newline. One of CSV has `{name:?}` as whole fields alone, or else between quotes
//! alone, where it is the text that debug shows, escaped.
//!
//! Templates are checked with the columns before the first letter, and all faults of the first
//! that has any are shown in their lines, as a compiler does; else the first value that is out of
//! place is, or the end. All records of the table that have a fault are reported, by their first
//! line, and all places where the table goes on with no record. In both cases no letter is written;
//! but with `--partial` those of the records before the first fault are. So the table is read
//! twice, or once with `--partial`, and each letter is written as it is made.
//!
//! With `--out letters/{name}.txt`, each letter is written into a file of its own, which this
//! template names by the record. A value in a name has no `/` and makes no part of it `..`, and no
//! two records give the same name; else this is told of all records, and no letter is written.
//!
//! A flag that is given again counts as it was given last; `--` ends the flags. `--help` as the
//! first word prints help, and `--version` the version. The status is 0 if the letters are written,
//! 1 after a fault of a template or of the table, 2 after wrong use, and 3 after a refused write or
//! for a file that cannot be read. A run of more than a second tells a terminal how far it is.
#![tactic(auto)]

mod columns;
mod files;
mod letters;
mod output;
mod progress;
mod reported;
mod samples;
mod table;
mod templates;
mod values;

use files::{FileFault, Named, write_files};
use interpolator::{Escape, IoWriter};
use letters::merge;
use output::Output;
use progress::Progress;
use records::{Separator, advice_on, is_utf16, latin1, text_in};
use reported::{Files, reported, reported_files};
use std::process::ExitCode;
use templates::{Fault, Templates};
use words::flags::{Flags, files_after};
use words::program::{
    FAULT, REFUSED, WRITTEN, about, bytes_in, ended, out_of_memory, status_of, usage, without_mark,
    words_in,
};

const USAGE: &str = "usage: merge [--separator , | ; | tab] [--latin1] [--partial] \
    [--html | --csv | --json] [--if-empty NAME=TEMPLATE] [--out NAMES] [--] TEMPLATE TABLE";

const HELP: &str = "\
Writes a letter for each record of a table.

usage: merge [FLAG..] [--] TEMPLATE TABLE

  --separator , | ; | tab    what is between two fields; else the one that a line `sep=;` above
                             the header names, that which the header alone has, or a comma
  --latin1                   the table is Latin-1, not UTF-8
  --partial                  if a record is wrong, write the letters of those before it
  --html, --csv or --json    values escaped: in text or quoted attributes, quoted fields, or strings
  --if-empty NAME=TEMPLATE   another template for the records whose field NAME is empty
  --out NAMES                a file for each letter, as 'letters/{name}.txt' names it
  --help                     print this
  --version                  print the version

The first line of the table names its columns; `price:` names a column of numbers, `price`, and
`x:~` one of floats, `x`. With --csv, `{x:?}` is a whole field, and with --json a whole value: a
number, or a text with quotes.

example: with `Dear {name}, {item} costs {price:.2}.` in letter.txt, and in people.csv
  name,item,price:
  Ann,tea,2.5
the line `merge letter.txt people.csv` writes
  Dear Ann, tea costs 2.50.
";

const VERSION: &str = "merge 0.5.0\n";

/// What the command line asks for.
#[derive(Clone, Copy, Default)]
struct Asked<'a> {
    template: &'a str,
    table: &'a str,
    separator: Option<Separator>,
    is_latin1: bool,
    is_partial: bool,
    escape: Option<Escape>,
    /// The name of a column, and of the template for its empty fields.
    if_empty: Option<(&'a str, &'a str)>,
    /// The template of the names of files, if each letter has one of its own.
    out: Option<&'a str>,
}

/// The escape that a flag asks for.
fn escape_of(flag: &str) -> Option<Escape> {
    match flag {
        "--html" => Some(Escape::Html),
        "--csv" => Some(Escape::Csv),
        "--json" => Some(Escape::Json),
        _ => None,
    }
}

impl<'a> Flags<'a> for Asked<'a> {
    fn take_word(&mut self, flag: &str) -> Option<()> {
        match flag {
            "--latin1" => self.is_latin1 = true,
            "--partial" => self.is_partial = true,
            _ if self.escape.is_some() => return None,
            _ => self.escape = Some(escape_of(flag)?),
        }
        Some(())
    }

    fn take_value(&mut self, flag: &str, value: &'a str) -> Option<()> {
        match flag {
            "--separator" => self.separator = Some(Separator::named(value)?),
            "--if-empty" => self.if_empty = Some(value.split_once('=')?),
            "--out" => self.out = Some(value),
            _ => return None,
        }
        Some(())
    }
}

/// What the words ask for: flags, and then two files.
fn asked_by(words: &[String]) -> Option<Asked<'_>> {
    let mut asked = Asked::default();
    let [template, table] = files_after(&mut asked, words)? else {
        return None;
    };
    asked.template = template.as_str();
    asked.table = table.as_str();
    Some(asked)
}

/// Ends a run that wrote what it could.
fn stopped(rt: &HostRuntime, output: Output<'_>) -> ExitCode {
    match output.into_error() {
        Some(error) => ended(eprintln!(rt; "cannot write: {error}"), REFUSED),
        None => out_of_memory(rt),
    }
}

/// The templates of letters.
fn templates_of<'a>(files: Files<'a>) -> Templates<'a> {
    Templates {
        letter: files.template,
        other: files.other,
        column: files.column,
        escape: files.escape,
    }
}

/// Writes the letters of templates and a table into files, which this template names, or why they
/// are missing.
fn write_named(rt: &HostRuntime, files: Files<'_>, pattern: &str) -> ExitCode {
    let templates = templates_of(files);
    let named = Named { templates, pattern };
    let mut progress = Progress::new(rt);
    let written = write_files(
        rt,
        named,
        files.table,
        files.separator,
        files.is_partial,
        &mut progress,
    );
    progress.clear();
    let Err(fault) = written else {
        return ExitCode::from(WRITTEN);
    };
    let status = match fault {
        FileFault::Refused(..) => REFUSED,
        _ => FAULT,
    };
    match reported_files(rt.alloc(), files, pattern, &fault) {
        Ok(reported) => ended(eprint!(rt; "{reported}"), status),
        Err(_) => out_of_memory(rt),
    }
}

/// Writes the letters of templates and a table, or why they are missing.
fn print_letters(rt: &HostRuntime, files: Files<'_>) -> ExitCode {
    let alloc = rt.alloc();
    let mut out = IoWriter::new(alloc, Output::new(rt));
    let mut progress = Progress::of_output(rt);
    let merged = merge(
        alloc,
        &mut out,
        templates_of(files),
        files.table,
        files.separator,
        files.is_partial,
        &mut progress,
    );
    progress.clear();
    if let Err(Fault::Stopped) = merged {
        return stopped(rt, out.into_inner());
    }
    if out.flush().is_err() {
        return stopped(rt, out.into_inner());
    }
    let Err(fault) = merged else {
        return ExitCode::from(WRITTEN);
    };
    match reported(alloc, files, &fault) {
        Ok(reported) => ended(eprint!(rt; "{reported}"), FAULT),
        Err(_) => out_of_memory(rt),
    }
}

/// The bytes of a file as text, or how the run ends without it. Only a table may be Latin-1.
fn text_of<'a>(
    rt: &HostRuntime,
    name: &str,
    bytes: &'a [u8],
    is_table: bool,
) -> Result<&'a str, ExitCode> {
    match text_in(bytes) {
        Ok(text) => Ok(without_mark(text)),
        Err(bad) if is_table || is_utf16(bytes) => {
            let advice = advice_on(bytes);
            Err(ended(eprintln!(rt; "{name}:{bad}; {advice}"), REFUSED))
        }
        Err(bad) => Err(ended(eprintln!(rt; "{name}:{bad}"), REFUSED)),
    }
}

/// Merges texts.
fn merge_texts(
    rt: &HostRuntime,
    asked: Asked<'_>,
    template: &str,
    other: &str,
    table: &str,
) -> ExitCode {
    let detected = Separator::detected_in(table);
    let separator = asked.separator.or(detected).unwrap_or(Separator::Comma);
    let (column, other_name) = match asked.if_empty {
        Some((column, name)) => (Some(column), name),
        None => (None, ""),
    };
    let files = Files {
        template_name: asked.template,
        template,
        other_name,
        other,
        column,
        table_name: asked.table,
        table,
        separator,
        is_partial: asked.is_partial,
        escape: asked.escape,
    };
    match asked.out {
        Some(pattern) => write_named(rt, files, pattern),
        None => print_letters(rt, files),
    }
}

/// Merges files, or ends the run without one.
fn merge_files(rt: &HostRuntime, asked: Asked<'_>) -> Result<ExitCode, ExitCode> {
    let template = bytes_in(rt, asked.template)?;
    let template = text_of(rt, asked.template, template.as_slice(), false)?;
    let other = match asked.if_empty {
        Some((_, name)) => bytes_in(rt, name)?,
        None => Vec::new(rt.alloc()),
    };
    let other_name = match asked.if_empty {
        Some((_, name)) => name,
        None => "",
    };
    let other = text_of(rt, other_name, other.as_slice(), false)?;
    let table = bytes_in(rt, asked.table)?;
    if asked.is_latin1 {
        return match latin1(rt.alloc(), table.as_slice()) {
            Ok(text) => Ok(merge_texts(rt, asked, template, other, text.as_str())),
            Err(_) => Err(out_of_memory(rt)),
        };
    }
    let table = text_of(rt, asked.table, table.as_slice(), true)?;
    Ok(merge_texts(rt, asked, template, other, table))
}

/// Runs a command line.
fn run(rt: &HostRuntime) -> Result<ExitCode, ExitCode> {
    let words = words_in(rt, USAGE)?;
    let first = words.get(..1).unwrap_or(&[]);
    if let Some(text) = about(first, HELP, VERSION) {
        return Ok(ended(rt.print(text), WRITTEN));
    }
    match asked_by(&words) {
        Some(asked) => merge_files(rt, asked),
        None => Err(usage(rt, USAGE)),
    }
}

fn main(rt: HostRuntime) -> ExitCode {
    status_of(run(&rt))
}
