//! Why a file cannot be run.

use interpolator::Error;
use std::alloc::{AllocError, AllocFailed};

/// Why a file cannot be run.
#[derive(Drop)]
pub enum Trouble {
    /// Memory was refused.
    NoMemory,
    /// What is wrong with a line, and its number.
    Line(usize, &'static str),
}

/// What is read from a file.
pub type Read<T> = Result<T, Trouble>;

impl From<AllocError> for Trouble {
    fn from(_refused: AllocError) -> Trouble {
        Trouble::NoMemory
    }
}

impl<T: Drop> From<AllocFailed<T>> for Trouble {
    fn from(_refused: AllocFailed<T>) -> Trouble {
        Trouble::NoMemory
    }
}

/// What a call returned that fails only for want of memory.
pub fn known<T: Drop>(came: Result<T, Error>) -> Read<T> {
    match came {
        Ok(came) => Ok(came),
        Err(_) => Err(Trouble::NoMemory),
    }
}
