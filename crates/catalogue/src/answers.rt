//! What is written for a command line: a message, or what is wrong with files.

use crate::asked::{Asked, Wanted};
use crate::checks::check;
use crate::encoding::{BadByte, text_in};
use crate::files::File;
use crate::lacks::lacking_forms;
use crate::messages::{Answer, look_up};
use crate::nearest::nearest;
use crate::places::misplaced;
use crate::translated::{Sought, in_po};
use crate::unused::unused;
use interpolator::{Error, Escape};
use std::alloc::Global;
use std::{fs, io};
use words::program::{BAD_USE, FAULT, REFUSED, WRITTEN};

/// Writes that a file has a byte that is no UTF-8.
fn tell_bad(rt: &HostRuntime, name: &str, bad: BadByte) -> io::Result<()> {
    let BadByte { byte, place } = bad;
    eprintln!(rt; "{name}:{place}: byte 0x{byte:02X} is no UTF-8")
}

/// Reads a file; if that fails, says why.
fn read(rt: &HostRuntime, name: &str) -> io::Result<Option<File>> {
    let bytes = match fs::read(rt, name) {
        Ok(bytes) => bytes,
        Err(error) => {
            eprintln!(rt; "{name}: {error}")?;
            return Ok(None);
        }
    };
    match String::from_utf8(bytes) {
        Ok(text) => {
            let name = String::from_str(rt.alloc(), name)?;
            Ok(Some(File { name, text }))
        }
        Err(error) => {
            if let Err(bad) = text_in(error.as_bytes()) {
                tell_bad(rt, name, bad)?;
            }
            Ok(None)
        }
    }
}

/// The status after a write to standard output; if it failed, says why.
pub(crate) fn status_after(rt: &HostRuntime, written: io::Result<()>) -> io::Result<u8> {
    match written {
        Ok(()) => Ok(WRITTEN),
        Err(error) => {
            eprintln!(rt; "cannot write: {error}")?;
            Ok(REFUSED)
        }
    }
}

/// Writes an error.
fn tell_error(rt: &HostRuntime, error: &Error) -> io::Result<u8> {
    eprintln!(rt; "{error}")?;
    Ok(FAULT)
}

/// Writes a message, and which words no message uses.
fn tell_message(
    rt: &HostRuntime,
    message: &str,
    files: &[File],
    words: &[String],
) -> io::Result<u8> {
    match unused(rt.alloc(), files, words) {
        Ok(reported) => {
            let status = status_after(rt, println!(rt; "{message}"))?;
            if status == WRITTEN && !reported.is_empty() {
                eprint!(rt; "{reported}")?;
            }
            Ok(status)
        }
        Err(error) => tell_error(rt, &error),
    }
}

/// Writes that a key is not there, and the key that may be meant.
fn tell_absent(rt: &HostRuntime, absent: &str, files: &[File], key: &str) -> io::Result<u8> {
    let near = nearest(rt.alloc(), files, key)?;
    eprint!(rt; "{absent}")?;
    if let Some(near) = near {
        eprintln!(rt; "did you mean `{near}`?")?;
    }
    Ok(FAULT)
}

/// Writes an answer.
fn tell(rt: &HostRuntime, answer: &Answer, files: &[File], wanted: &Wanted<'_>) -> io::Result<u8> {
    match answer {
        Answer::Message(message) => tell_message(rt, message.as_str(), files, wanted.values),
        Answer::Absent(absent) => tell_absent(rt, absent.as_str(), files, wanted.key),
        Answer::Faults(faults) => {
            eprint!(rt; "{faults}")?;
            Ok(FAULT)
        }
        Answer::BadWord(word) => {
            eprintln!(rt; "bad word: {word}")?;
            Ok(BAD_USE)
        }
    }
}

/// What is wrong with files: the faults of their lines, and the values that are in no place of an
/// escape, if one is asked for.
fn report_of(alloc: Global, files: &[File], escape: Option<Escape>) -> Result<String, Error> {
    let mut reported = check(alloc, files)?;
    if let Some(escape) = escape {
        let more = misplaced(alloc, files, escape)?;
        reported.push_str(more.as_str())?;
    }
    Ok(reported)
}

/// What a check reports: what is wrong with files, and the keys that lack a form.
fn reported_by_check(
    alloc: Global,
    files: &[File],
    escape: Option<Escape>,
) -> Result<String, Error> {
    let mut reported = report_of(alloc, files, escape)?;
    let more = lacking_forms(alloc, files)?;
    reported.push_str(more.as_str())?;
    Ok(reported)
}

/// What is wrong with PO files.
fn reported_by_po(alloc: Global, files: &[File], escape: Option<Escape>) -> Result<String, Error> {
    let mut reported = String::new(alloc);
    for file in files {
        if let Answer::Faults(more) = in_po(alloc, file, escape, None)? {
            reported.push_str(more.as_str())?;
        }
    }
    Ok(reported)
}

/// What is answered: all that is wrong with the files, or the message, or why there is none.
fn answer_in(alloc: Global, wanted: &Wanted<'_>, files: &[File]) -> Result<Answer, Error> {
    if wanted.escape.is_some() {
        let reported = report_of(alloc, files, wanted.escape)?;
        if !reported.is_empty() {
            return Ok(Answer::Faults(reported));
        }
    }
    look_up(alloc, wanted.escape, files, wanted.key, wanted.values)
}

/// Writes a message.
pub(crate) fn answer(rt: &HostRuntime, wanted: &Wanted<'_>) -> io::Result<u8> {
    let mut files = Vec::new(rt.alloc());
    let Some(file) = read(rt, wanted.file)? else {
        return Ok(REFUSED);
    };
    files.push(file)?;
    if let Some(second) = wanted.second {
        let Some(file) = read(rt, second)? else {
            return Ok(REFUSED);
        };
        files.push(file)?;
    }
    match answer_in(rt.alloc(), wanted, files.as_slice()) {
        Ok(answer) => tell(rt, &answer, files.as_slice(), wanted),
        Err(error) => tell_error(rt, &error),
    }
}

/// Writes a message of a PO file, or why there is none.
pub(crate) fn answer_po(
    rt: &HostRuntime,
    asked: &Asked<'_>,
    wanted: &Wanted<'_>,
) -> io::Result<u8> {
    let Some(file) = read(rt, wanted.file)? else {
        return Ok(REFUSED);
    };
    let sought = Sought {
        context: asked.context.unwrap_or(""),
        key: wanted.key,
        words: wanted.values,
    };
    match in_po(rt.alloc(), &file, wanted.escape, Some(sought)) {
        Ok(Answer::Message(message)) => status_after(rt, println!(rt; "{message}")),
        Ok(answer) => tell(rt, &answer, &[], wanted),
        Err(error) => tell_error(rt, &error),
    }
}

/// Checks files, and writes what is wrong with those that can be read.
pub(crate) fn check_files(rt: &HostRuntime, asked: &Asked<'_>) -> io::Result<u8> {
    let mut files = Vec::new(rt.alloc());
    let mut status = WRITTEN;
    for name in asked.words {
        match read(rt, name.as_str())? {
            Some(file) => files.push(file)?,
            None => status = REFUSED,
        }
    }
    let reported = if asked.is_po {
        reported_by_po(rt.alloc(), files.as_slice(), asked.escape)
    } else {
        reported_by_check(rt.alloc(), files.as_slice(), asked.escape)
    };
    match &reported {
        Ok(reported) if reported.is_empty() => return Ok(status),
        Ok(reported) => eprint!(rt; "{reported}")?,
        Err(error) => eprintln!(rt; "{error}")?,
    }
    Ok(status.max(FAULT))
}
