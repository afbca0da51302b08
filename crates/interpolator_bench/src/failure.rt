//! Why the program ends early.

use interpolator::{Error, RenderFault};
use std::alloc::{AllocError, AllocFailed};
use std::io;

/// Why the program ends early.
#[derive(Drop)]
pub enum Failure {
    /// The command line does not name a workload and a number of repeats.
    Usage,
    /// A format was rejected.
    Format(Error),
    /// A value could not be rendered.
    Render(RenderFault),
    /// There was no memory for a workload's own texts.
    NoMemory,
    /// The arguments could not be read, or the output could not be written.
    Io(io::Error),
}

impl From<Error> for Failure {
    fn from(error: Error) -> Failure {
        Failure::Format(error)
    }
}

impl From<RenderFault> for Failure {
    fn from(fault: RenderFault) -> Failure {
        Failure::Render(fault)
    }
}

impl From<AllocError> for Failure {
    fn from(_refused: AllocError) -> Failure {
        Failure::NoMemory
    }
}

impl<T: Drop> From<AllocFailed<T>> for Failure {
    fn from(_refused: AllocFailed<T>) -> Failure {
        Failure::NoMemory
    }
}

impl From<io::Error> for Failure {
    fn from(error: io::Error) -> Failure {
        Failure::Io(error)
    }
}
