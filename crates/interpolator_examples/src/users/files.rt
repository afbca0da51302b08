//! Text that goes to a writer of bytes, such as a file or the standard output.

use crate::page::Page;
use interpolator::{Error, Formattable, Interpolate, IoWriter, Pairs};
use std::alloc::Global;
use std::io;

/// Why not everything was written.
#[derive(Drop)]
pub enum WriteError {
    Format(Error),
    Io(io::Error),
}

impl From<Error> for WriteError {
    fn from(error: Error) -> WriteError {
        WriteError::Format(error)
    }
}

impl From<io::Error> for WriteError {
    fn from(error: io::Error) -> WriteError {
        WriteError::Io(error)
    }
}

/// Writes a line for each name to `to`, and returns `to`. Gathered text is passed on by `flush`,
/// never by a drop.
fn write_lines<W: io::Write + Drop>(
    alloc: Global,
    to: W,
    format: &str,
    names: &[&str],
) -> Result<W, WriteError> {
    let mut out = IoWriter::new(alloc, to);
    for name in names {
        Pairs(&[("name", Formattable::display(name))]).write_line_to(alloc, &mut out, format)?;
    }
    out.flush()?;
    Ok(out.into_inner())
}

/// How many bytes the lines have, or why there are none.
fn lines(alloc: Global, format: &str, names: &[&str]) -> Result<String, Error> {
    match write_lines(alloc, Vec::new(alloc), format, names) {
        Ok(bytes) => Ok(format!(in alloc; "{} bytes", bytes.len())?),
        Err(WriteError::Format(error)) => Err(error),
        Err(WriteError::Io(_)) => Ok(String::from_str(alloc, "not written")?),
    }
}

/// Lines of 10 and 12 bytes, and a fault.
pub fn show(page: &mut Page) {
    let alloc = page.alloc;
    for format in ["Hello {name}", "{nom}"] {
        page.put_made("to a file", lines(alloc, format, &["Ann", "Béla"]));
    }
}
