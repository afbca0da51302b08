//! A log in a file: once all is written, the file has exactly the texts of the records.
ghost use Rattle.std.specs.Prelude.{OnOk, IfOk};
ghost use Rattle.interpolator.specs.Writers.{Appends};
ghost use Rattle.interpolator_examples.specs.Logs.{GetsTexts, log_text, found_in};

use crate::page::Page;
use crate::users::files::WriteError;
use interpolator::{Context, Error, Formattable, Interpolate, IoWriter, TextWrite, is_name};
use std::alloc::Global;
use std::io;

/// A record of a log, with a number under the name `n`.
#[derive(Clone, Copy)]
struct Record {
    number: u64,
}

impl Context for Record {
    type Object = u64;

    ghost finds = { found_in };

    fn get(&self, key: &str) -> Option<Formattable<'_, u64>> {
        if is_name(key, "n") {
            return Some(Formattable::display(&self.number));
        }
        None
    }
}

impl Interpolate for Record {}

/// The records of a log.
#[derive(Drop)]
enum Records {
    End,
    More(Record, Box<Records>),
}

/// Writes what the format means for each record.
fn write_records<W: TextWrite>(
    alloc: Global,
    out: &mut W,
    format: &str,
    records: &Records,
) -> Result<(), Error>
    ensures texts { OnOk result (Appends (W.written out.old) (log_text format.now records.now)
        (W.written out.new)) }
{
    match records {
        Records::End => Ok(()),
        Records::More(first, rest) => {
            first.write_to(alloc, out, format)?;
            write_records(alloc, out, format, rest)
        }
    }
}

/// Writes a log to `to`, and returns `to`: it has what it had, and then exactly the records' texts.
fn write_log<W: io::Write + Drop>(
    alloc: Global,
    to: W,
    format: &str,
    records: &Records,
) -> Result<W, WriteError>
    ensures whole { IfOk result (λ file. GetsTexts (W.contents to) (W.contents file)
        (log_text format.now records.now)) }
{
    let mut out = IoWriter::new(alloc, to);
    write_records(alloc, &mut out, format, records)?;
    out.flush()?;
    Ok(out.into_inner())
}

/// A thousand records, from 0 on.
fn thousand(alloc: Global) -> Result<Records, Error> {
    let mut records = Records::End;
    for number in (0..1000).rev() {
        records = Records::More(Record { number }, Box::new(alloc, records)?);
    }
    Ok(records)
}

/// How many bytes the log of these records has.
fn size(alloc: Global, format: &str, records: &Records) -> Result<String, Error> {
    match write_log(alloc, Vec::new(alloc), format, records) {
        Ok(file) => Ok(format!(in alloc; "{} bytes", file.len())?),
        Err(_) => Ok(String::from_str(alloc, "not written")?),
    }
}

/// A log that is passed on at once, by `flush`, and one that is passed on in three parts; and none.
pub fn show(page: &mut Page) -> Result<(), Error> {
    let alloc = page.alloc;
    let records = thousand(alloc)?;
    for format in ["{n};\n", "{n:>15};\n", "{m}"] {
        page.put_made("log file", size(alloc, format, &records));
    }
    Ok(())
}
