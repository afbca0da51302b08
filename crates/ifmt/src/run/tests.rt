//! Tests of the flush after each line, and of writers that refuse.

use crate::run::{complain, report, run, usage};
use interpolator::{ContextMap, Error};
use std::alloc::Global;
use std::io;
use std::io::{ErrorKind, Write};

/// A writer that counts its calls, and refuses one of them.
#[derive(Drop)]
struct Spy {
    calls: usize,
    flushes: usize,
    // Whether the last call was a flush.
    flushed: bool,
    // The call that is refused, counted from 1; none for 0.
    refuses: usize,
}

impl Spy {
    fn new(refuses: usize) -> Spy {
        Spy {
            calls: 0,
            flushes: 0,
            flushed: false,
            refuses,
        }
    }

    fn call(&mut self, is_flush: bool) -> io::Result<()> {
        self.calls = self.calls.saturating_add(1);
        self.flushed = is_flush;
        if self.calls == self.refuses {
            return Err(io::Error::from(ErrorKind::BrokenPipe));
        }
        Ok(())
    }
}

impl Write for Spy {
    fn write(&mut self, buf: &[u8]) -> io::Result<usize> {
        self.call(false)?;
        Ok(buf.len())
    }

    fn flush(&mut self) -> io::Result<()> {
        self.flushes = self.flushes.saturating_add(1);
        self.call(true)
    }
}

/// What the writers are called for.
#[derive(Clone, Copy, Debug)]
enum Call {
    Text,
    Fault,
    OutOfMemory,
    Complain,
    Usage,
}

/// Each call, and its status if no write is refused.
const CALLS: [(Call, u8); 5] = [
    (Call::Text, 0),
    (Call::Fault, 1),
    (Call::OutOfMemory, 1),
    (Call::Complain, 2),
    (Call::Usage, 2),
];

fn run_on<O: Write, E: Write>(alloc: Global, format: &str, out: &mut O, err: &mut E) -> u8 {
    let context: ContextMap<'_, u64> = ContextMap::new(alloc);
    run(alloc, format, &context, out, err)
}

/// Makes the call, with the writer that it goes to and the other one.
fn status_of_call(alloc: Global, call: Call, to: &mut Spy, other: &mut Spy) -> u8 {
    match call {
        Call::Text => run_on(alloc, "Hi", to, other),
        Call::Fault => run_on(alloc, "{q}", other, to),
        Call::OutOfMemory => report(Err(Error::NoMemory), other, to),
        Call::Complain => complain("a", to),
        Call::Usage => usage(to),
    }
}

#[test]
fn each_line_is_flushed_after_its_end(rt: HostRuntime) {
    for (call, wanted) in CALLS {
        let mut to = Spy::new(0);
        let mut other = Spy::new(0);
        let status = status_of_call(rt.alloc(), call, &mut to, &mut other);
        assert_eq!(rt; status, wanted, "{call:?}");
        assert!(rt; to.calls >= 2, "{call:?} writes and flushes");
        assert!(rt; to.flushed, "{call:?} ends with a flush");
        assert_eq!(rt; to.flushes, 1, "{call:?} flushes once");
        assert_eq!(rt; other.calls, 0, "{call:?} leaves the other writer alone");
    }
}

#[test]
fn each_refused_call_shows(rt: HostRuntime) {
    for (call, wanted) in CALLS {
        let mut met = 0usize;
        for refuses in 1..64 {
            let mut to = Spy::new(refuses);
            let mut other = Spy::new(0);
            let status = status_of_call(rt.alloc(), call, &mut to, &mut other);
            assert_eq!(rt; other.calls, 0, "{call:?} leaves the other writer alone");
            if to.calls < refuses {
                assert_eq!(rt; status, wanted, "{call:?} with no call refused");
                break;
            }
            met = refuses;
            assert_eq!(rt; status, 3, "{call:?} with call {refuses} refused");
            assert_eq!(rt; to.calls, refuses, "{call:?} ends at the refused call");
        }
        assert!(rt; met >= 2 && met < 63, "{call:?} meets a write and a flush");
    }
}
