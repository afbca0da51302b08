//! Memory that is refused. The group passes whether memory is given or one allocation is refused.
//! In the gate, `run-refused.sh` of this crate has each allocation refused in turn: it loads the
//! allocator `.ci/refuse.c` before the C library. A call whose allocation is refused returns
//! `NoMemory` and leaves everything as it was; called again, it returns what its row says.

/// What a call returns, which is made once more if it is refused memory.
macro_rules! again {
    ($call:expr) => {
        match $call {
            Err(Error::NoMemory) => $call,
            answer => answer,
        }
    };
}

mod at_once;
mod decimals;
mod lists;
mod loaded;
mod many;
mod named;
mod names;

use crate::report::Report;
use interpolator::Error;

pub fn run(report: &mut Report) -> Result<(), Error> {
    report.begin("memory");
    at_once::run(report);
    decimals::run(report)?;
    lists::run(report)?;
    loaded::run(report)?;
    many::run(report);
    named::run(report);
    names::run(report)
}
