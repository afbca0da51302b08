//! A fault as an `io::Error`, for functions that return an `io::Result`.

ghost use Rattle.std.specs.Prelude.{◌≡◌};
ghost use Rattle.std.specs.IoError.{error_kind};
ghost use Rattle.interpolator_syntax.specs.IoErrors.{kind_of};

use crate::error::Error;
use std::fmt::Write;
use std::{fmt, io, str};

// An `io::Error` keeps 80 bytes of its message, and marks by three dots that it cut more: so those
// of one character more are collected.
const MOST_BYTES: usize = 84;

// The beginning of a text.
#[derive(Drop)]
struct Beginning {
    bytes: [u8; MOST_BYTES],
    len: usize,
}

impl Beginning {
    fn push(&mut self, byte: u8) {
        if self.len < MOST_BYTES {
            self.bytes[self.len] = byte;
            self.len += 1;
        }
    }

    // Returns the whole characters.
    fn text(&self) -> &str {
        let bytes = &self.bytes[..self.len.min(MOST_BYTES)];
        match str::from_utf8(bytes) {
            Ok(text) => text,
            Err(fault) => str::from_utf8(&bytes[..fault.valid_up_to()]).unwrap_or(""),
        }
    }
}

impl Write for Beginning {
    // Takes every text, and leaves out what is past the end.
    fn write_str(&mut self, text: &str) -> fmt::Result {
        for byte in text.as_bytes() {
            self.push(*byte);
        }
        Ok(())
    }
}

/// Converts the fault to an I/O error: `OutOfMemory` for `NoMemory`; else `Other`, with what `{}`
/// writes for the fault as its message, of which `io::Error` keeps 80 bytes.
///
/// ```text
/// fn greet(rt: HostRuntime) -> io::Result<()> {
///     Pairs(&[("name", Formattable::display(&name))])
///         .write_to(rt.alloc(), &mut out, "Hello {name}\n")?;    // `Error` becomes `io::Error`
///     out.flush()
/// }
/// ```
impl From<Error> for io::Error {
    ghost from_gives = { λ fault error. error_kind error ≡ kind_of fault };

    fn from(fault: Error) -> io::Error {
        if let Error::NoMemory = fault {
            return io::Error::from(io::ErrorKind::OutOfMemory);
        }
        let mut message = Beginning {
            bytes: [0; MOST_BYTES],
            len: 0,
        };
        match message.write(fault) {
            Ok(()) => io::Error::other(message.text()),
            Err(_) => io::Error::other("error while formatting"),
        }
    }
}
