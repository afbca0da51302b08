//! Standard output, which remembers why it took no more.

use std::io;
use std::io::Write;

/// Standard output, and why it took no more, if it did not.
#[derive(Drop)]
pub struct Output<'a> {
    rt: &'a HostRuntime,
    error: Option<io::Error>,
}

impl<'a> Output<'a> {
    /// The standard output of a program.
    pub fn new(rt: &'a HostRuntime) -> Output<'a> {
        Output { rt, error: None }
    }

    /// Why it took no more.
    pub fn into_error(self) -> Option<io::Error> {
        self.error
    }
}

impl Write for Output<'_> {
    fn write(&mut self, bytes: &[u8]) -> io::Result<usize> {
        match io::writer(self.rt).write(bytes) {
            Ok(count) => Ok(count),
            Err(error) => {
                let kind = error.kind();
                self.error = Some(error);
                Err(io::Error::from(kind))
            }
        }
    }

    // Nothing is held back.
    fn flush(&mut self) -> io::Result<()> {
        Ok(())
    }
}
