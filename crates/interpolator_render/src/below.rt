//! The writer of bytes below an `IoWriter`.
ghost use Rattle.std.specs.Prelude.{◌≡◌, ◌<◌, ◌≤◌, true, false, length, take, IfOk, OnErr, OnOk};
ghost use Rattle.std.specs.Io.KnownBytes.{Keeps};
ghost use Rattle.interpolator_render.specs.PassedOn.{Gets};

use std::io;
use std::io::Write;

/// How often a write that a signal interrupts is tried.
const TRIES: usize = 64;

/// A writer of bytes, and whether a write or a flush of it has failed.
#[derive(Drop)]
pub(crate) struct Below<W: Write + Drop> {
    inner: W,
    failed: bool,
}

impl<W: Write + Drop> Below<W> {
    /// A writer of which no call has failed yet.
    pub(crate) fn new(inner: W) -> Below<W>
        ensures inner { result.inner ≡ inner }
        ensures failed { result.failed ≡ false }
    {
        Below {
            inner,
            failed: false,
        }
    }

    /// Writes bytes until all are written or a write fails.
    pub(crate) fn write(&mut self, bytes: &[u8]) -> (usize, io::Result<()>)
        ensures all { OnOk result.1 (result.0 ≡ length bytes.now) }
        ensures not_all { OnErr result.1 (result.0 < length bytes.now) }
        ensures got { Gets (W.contents self.old.inner) (W.contents self.new.inner)
            (take result.0 bytes.now) }
        ensures ok { OnOk result.1 (self.new.failed ≡ self.old.failed) }
        ensures err { OnErr result.1 (self.new.failed ≡ true) }
    {
        let (count, result) = write_out(bytes, &mut self.inner);
        self.failed = self.failed || result.is_err();
        (count, result)
    }

    /// Flushes the writer.
    pub(crate) fn flush(&mut self) -> io::Result<()>
        ensures kept { Keeps (W.contents self.old.inner) (W.contents self.new.inner) }
        ensures ok { OnOk result (self.new.failed ≡ self.old.failed) }
        ensures err { OnErr result (self.new.failed ≡ true) }
    {
        let flushed = self.inner.flush();
        self.failed = self.failed || flushed.is_err();
        flushed
    }

    /// Whether a write or a flush has failed.
    pub(crate) fn failed(&self) -> bool
        ensures { result ≡ self.now.failed }
    {
        self.failed
    }

    /// The writer itself.
    pub(crate) fn into_inner(self) -> W
        ensures { result ≡ self.inner }
    {
        let Below { inner, failed: _ } = self;
        inner
    }
}

/// Writes bytes until all are written or a write fails, and returns how many were written.
fn write_out<W: Write>(bytes: &[u8], to: &mut W) -> (usize, io::Result<()>)
    ensures bound { result.0 ≤ length bytes.now }
    ensures all { OnOk result.1 (result.0 ≡ length bytes.now) }
    ensures not_all { OnErr result.1 (result.0 < length bytes.now) }
    ensures got { Gets (W.contents to.old) (W.contents to.new) (take result.0 bytes.now) }
{
    let mut done = 0usize;
    while done < bytes.len() {
        match write_some(to, &bytes[done..]) {
            Ok(0) => return (done, Err(io::Error::from(io::ErrorKind::WriteZero))),
            Ok(n) => done += n,
            Err(error) => return (done, Err(error)),
        }
    }
    (done, Ok(()))
}

/// One write, tried again each time that a signal interrupts it.
fn write_some<W: Write>(to: &mut W, bytes: &[u8]) -> io::Result<usize>
    ensures bound { IfOk result (λ n. n ≤ length bytes.now) }
    ensures ok { IfOk result (λ n. Gets (W.contents to.old) (W.contents to.new)
        (take n bytes.now)) }
    ensures err { OnErr result (Keeps (W.contents to.old) (W.contents to.new)) }
{
    for _try in 0..TRIES {
        match to.write(bytes) {
            Ok(n) => return Ok(n),
            Err(error) => {
                if error.kind() != io::ErrorKind::Interrupted {
                    return Err(error);
                }
            }
        }
    }
    Err(io::Error::from(io::ErrorKind::Interrupted))
}
