//! A writer on top of a writer of bytes: what it passes on, and when it refuses.

use crate::given::padded;
use crate::report::Report;
use interpolator::{Error, IoWriter, TextWrite};
use std::alloc::Global;
use std::io;

/// A writer of bytes that keeps what it gets, and fails once, or in some writes one after the other.
#[derive(Drop)]
struct Spy {
    got: Vec<u8>,
    /// How many bytes it takes in each call up to the one that fails. Later it takes everything.
    most: usize,
    /// The first write that fails, counted from one, and the flush that fails; 0 if none does.
    failing: (usize, usize),
    /// How many writes fail, if one does.
    times: usize,
    kind: io::ErrorKind,
    writes: usize,
    flushes: usize,
}

impl Spy {
    fn new(alloc: Global, most: usize, failing: (usize, usize), kind: io::ErrorKind) -> Spy {
        Spy {
            got: Vec::new(alloc),
            most,
            failing,
            times: 1,
            kind,
            writes: 0,
            flushes: 0,
        }
    }
}

impl io::Write for Spy {
    fn write(&mut self, buf: &[u8]) -> io::Result<usize> {
        self.writes = self.writes.saturating_add(1);
        let since = self.writes.saturating_sub(self.failing.0);
        if 0 < self.failing.0 && self.failing.0 <= self.writes && since < self.times {
            self.most = usize::MAX;
            return Err(io::Error::from(self.kind));
        }
        let count = buf.len().min(self.most);
        self.got.extend_from_slice(&buf[..count])?;
        Ok(count)
    }

    fn flush(&mut self) -> io::Result<()> {
        self.flushes = self.flushes.saturating_add(1);
        if self.flushes == self.failing.1 {
            return Err(io::Error::from(self.kind));
        }
        Ok(())
    }
}

/// Checks that the writer below has got `count` bytes, a prefix of the text taken.
fn holds_prefix(report: &mut Report, what: &str, below: &Spy, taken: &str, count: usize) {
    report.number(what, count, below.got.len());
    report.holds(what, taken.as_bytes().starts_with(below.got.as_slice()));
}

/// 2,000 times six bytes, and a text, which are more than is gathered at once.
fn long_text(report: &mut Report) -> Result<(), Error> {
    let long = "x".repeat(report.alloc, 9_000)?;
    let spy = Spy::new(report.alloc, 1_000, (0, 0), io::ErrorKind::Other);
    let mut out = IoWriter::new(report.alloc, spy);
    let mut is_taken = true;
    for _ in 0..2_000 {
        is_taken = out.write_str("naïve").is_ok() && is_taken;
    }
    report.holds("short texts", is_taken);
    report.holds("a long one", out.write_str(long.as_str()).is_ok());
    report.holds("a character", out.write_char('é').is_ok());
    report.holds("all is passed on", out.flush().is_ok());
    let text = padded(report.alloc, ("", "naïve", 2_000, long.as_str()))?;
    let text = padded(report.alloc, (text.as_str(), "é", 1, ""))?;
    holds_prefix(report, "long", &out.into_inner(), text.as_str(), 21_002);
    Ok(())
}

/// What the writer below does, how often its write fails, how the first flush and the second then
/// fail, and how many writes, flushes and bytes it got in the end.
struct Case {
    what: &'static str,
    most: usize,
    failing: (usize, usize),
    times: usize,
    kind: io::ErrorKind,
    fails: Option<(io::ErrorKind, io::ErrorKind)>,
    got: (usize, usize, usize),
}

/// Worked by hand: `text` is gathered, and the first flush passes it on; `more` and `c` come next,
/// and another flush. A write that a signal interrupts is tried 64 times in all, and no other is
/// tried again; after a failure nothing is passed on any more.
#[rattlefmt::skip]
const CASES: [Case; 7] = [
    Case { what: "flushed twice", most: 9, failing: (0, 0), times: 1, kind: io::ErrorKind::Other, fails: None, got: (2, 2, 9) },
    Case { what: "interrupted", most: 2, failing: (2, 0), times: 1, kind: io::ErrorKind::Interrupted, fails: None, got: (4, 2, 9) },
    Case { what: "interrupted 63 times", most: 9, failing: (1, 0), times: 63, kind: io::ErrorKind::Interrupted, fails: None, got: (65, 2, 9) },
    Case { what: "interrupted 64 times", most: 9, failing: (1, 0), times: 64, kind: io::ErrorKind::Interrupted, fails: Some((io::ErrorKind::Interrupted, io::ErrorKind::Other)), got: (64, 0, 0) },
    Case { what: "failed flush", most: 9, failing: (0, 1), times: 1, kind: io::ErrorKind::StorageFull, fails: Some((io::ErrorKind::StorageFull, io::ErrorKind::Other)), got: (1, 1, 4) },
    Case { what: "failed write", most: 9, failing: (1, 0), times: 1, kind: io::ErrorKind::StorageFull, fails: Some((io::ErrorKind::StorageFull, io::ErrorKind::Other)), got: (1, 0, 0) },
    Case { what: "nothing taken", most: 0, failing: (0, 0), times: 1, kind: io::ErrorKind::Other, fails: Some((io::ErrorKind::WriteZero, io::ErrorKind::Other)), got: (1, 0, 0) },
];

/// Whether a call failed with an error of this kind, or not at all if none is given.
fn ends_as(flushed: io::Result<()>, wanted: Option<io::ErrorKind>) -> bool {
    match (flushed, wanted) {
        (Ok(()), None) => true,
        (Err(error), Some(kind)) => error.kind() == kind,
        _ => false,
    }
}

fn is_flushed(report: &mut Report, case: &Case) {
    let what = case.what;
    let mut spy = Spy::new(report.alloc, case.most, case.failing, case.kind);
    spy.times = case.times;
    let mut out = IoWriter::new(report.alloc, spy);
    let (first, second) = match case.fails {
        Some((first, second)) => (Some(first), Some(second)),
        None => (None, None),
    };
    report.holds(what, out.write_str("text").is_ok());
    report.holds(what, ends_as(out.flush(), first));
    report.holds(what, out.refused() == first.is_some());
    report.holds(what, out.write_str("more").is_err() == first.is_some());
    report.holds(what, out.write_char('c').is_err() == first.is_some());
    report.holds(what, out.write_str("").is_ok());
    report.holds(what, ends_as(out.flush(), second));
    let below = out.into_inner();
    let (writes, flushes, count) = case.got;
    report.number(what, writes, below.writes);
    report.number(what, flushes, below.flushes);
    holds_prefix(report, what, &below, "textmorec", count);
}

pub fn run(report: &mut Report) -> Result<(), Error> {
    report.begin("io writers");
    long_text(report)?;
    for case in &CASES {
        is_flushed(report, case);
    }
    Ok(())
}
