//! Runs a format, and writes the lines of the program.

ghost use Rattle.std.specs.Prelude.{◌≡◌, MatchResult, OnOk, string_bytes};
ghost use Rattle.std.specs.{Str.chars, Io.KnownBytes.Appends};
ghost use Rattle.interpolator.specs.Meaning.{Environments.environment, Meanings.means};
ghost use Rattle.interpolator.specs.{Places.outermost, Faults.answer_of, FaultTexts.error_text};
ghost use Rattle.ifmt.specs.Run.{Prints, Puts, Runs, Tells, complaint, line, usage_line};

use interpolator::{Context, Error};
use std::alloc::Global;
use std::io;
use std::io::Write;
use words::program::{BAD_USE, FAULT, REFUSED, WRITTEN};

/// Formats, and then writes the text to `out`, or the text of the fault to `err`, as a line.
///
/// Returns 0 if the text was written, 1 if there was a fault or memory ran out, and 3 if the write
/// failed; how much was written is then unknown. The writer that was used is flushed, and the other
/// is not touched.
pub fn run<C: Context, O: Write, E: Write>(
    alloc: Global,
    format: &str,
    context: &C,
    out: &mut O,
    err: &mut E,
) -> u8
    ensures { Runs
        (O.contents out.old) (O.contents out.new) (E.contents err.old) (E.contents err.new) result
        (means C.Object.shows (environment (C.finds context.now)) (outermost (chars format.now))) }
{
    report(interpolator::format(alloc, format, context), out, err)
}

/// Writes the usage line to `err`, and flushes.
///
/// Returns 2, or 3 if the write failed; how much was written is then unknown.
pub fn usage<E: Write>(err: &mut E) -> u8
    ensures { Puts 2 (E.contents err.old) (E.contents err.new) usage_line result }
{
    status_of(put_usage(err), BAD_USE)
}

/// Writes a line to `err` which says that a word is bad, and flushes.
///
/// Returns 2, or 3 if the write failed; how much was written is then unknown.
pub fn complain<E: Write>(word: &str, err: &mut E) -> u8
    ensures { Puts 2 (E.contents err.old) (E.contents err.new) (complaint word.now) result }
{
    status_of(put_complaint(word, err), BAD_USE)
}

/// Writes the result of formatting: a text to `out`, or an error to `err`, as a line, and flushes.
///
/// Returns 0 for a text, 1 for an error, and 3 if the write failed.
pub fn report<O: Write, E: Write>(outcome: Result<String, Error>, out: &mut O, err: &mut E) -> u8
    ensures { MatchResult outcome
        (λ text. Prints (O.contents out.old) (O.contents out.new)
        (E.contents err.old) (E.contents err.new) result (string_bytes text))
        (λ error. Tells (O.contents out.old) (O.contents out.new)
        (E.contents err.old) (E.contents err.new) result (answer_of error)) }
{
    match outcome {
        Ok(text) => status_of(put_text(text.as_str(), out), WRITTEN),
        Err(error) => status_of(put_error(&error, err), FAULT),
    }
}

/// Writes what is said of a fault to `err`, as a line, and flushes.
///
/// Returns 1, or 3 if the write failed; how much was written is then unknown.
pub fn report_fault<E: Write>(reported: &str, err: &mut E) -> u8
    ensures { Puts 1 (E.contents err.old) (E.contents err.new) (line reported.now) result }
{
    status_of(put_text(reported, err), FAULT)
}

/// Writes a text as a line, and flushes.
pub fn put_text<O: Write>(text: &str, out: &mut O) -> io::Result<()>
    ensures { OnOk result (Appends (O.contents out.old) (O.contents out.new) (line text.now)) }
{
    writeln!(out, "{text}")?;
    out.flush()
}

fn put_error<E: Write>(error: &Error, err: &mut E) -> io::Result<()>
    ensures { OnOk result
        (Appends (E.contents err.old) (E.contents err.new) (line (error_text error.now))) }
{
    writeln!(err, "{error}")?;
    err.flush()
}

fn put_complaint<E: Write>(word: &str, err: &mut E) -> io::Result<()>
    ensures { OnOk result
        (Appends (E.contents err.old) (E.contents err.new) (complaint word.now)) }
{
    writeln!(err, "bad word: {word}")?;
    err.flush()
}

fn put_usage<E: Write>(err: &mut E) -> io::Result<()>
    ensures { OnOk result (Appends (E.contents err.old) (E.contents err.new) usage_line) }
{
    writeln!(
        err,
        "usage: ifmt FORMAT [NAME=TEXT | NAME:=NUMBER | NAME:.=DECIMAL | NAME[]=ITEM,ITEM..]"
    )?;
    err.flush()
}

/// This status, or that of a failed write.
pub fn status_of(written: io::Result<()>, status: u8) -> u8
    ensures { MatchResult written (λ _. result ≡ status) (λ _. result ≡ 3) }
{
    match written {
        Ok(()) => status,
        Err(_) => REFUSED,
    }
}

#[cfg(test)]
mod tests;
