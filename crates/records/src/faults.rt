//! What is wrong with a file, as lines of text.

use crate::encoding::BadByte;
use crate::fault::{Fault, Place};
use std::alloc::{AllocError, Global};
use std::fmt;
use std::fmt::Write;

impl fmt::Display for Fault {
    fn fmt<W: fmt::Write>(&self, f: &mut fmt::Formatter<W>) -> fmt::Result {
        let Place { line, column } = self.place;
        let why = self.problem.as_str();
        write!(f, "{line}:{column}: {why}")
    }
}

impl fmt::Display for BadByte {
    fn fmt<W: fmt::Write>(&self, f: &mut fmt::Formatter<W>) -> fmt::Result {
        let Place { line, column } = self.place;
        let byte = self.byte;
        write!(f, "{line}:{column}: byte 0x{byte:02X} is no UTF-8")
    }
}

/// What is wrong with a file: a line of text for each fault.
#[derive(Drop)]
pub struct Faults<'a> {
    /// What the text is allocated by.
    pub alloc: Global,
    /// The line of the header of a table.
    pub header: usize,
    file: &'a str,
    reported: String,
}

impl<'a> Faults<'a> {
    /// No faults yet, of the file of this name, whose header is its first line.
    pub fn new(alloc: Global, file: &'a str) -> Faults<'a> {
        Faults {
            alloc,
            header: 1,
            file,
            reported: String::new(alloc),
        }
    }

    /// Adds a fault that says where it is.
    pub fn add<F: fmt::Display + Drop>(&mut self, fault: F) -> Result<(), AllocError> {
        let file = self.file;
        writeln!(self.reported, "{file}:{fault}")
    }

    /// Adds what is wrong with the line of this number.
    pub fn tell(&mut self, line: usize, why: &str) -> Result<(), AllocError> {
        self.add(format_args!("{line}: {why}"))
    }

    /// Whether there are none.
    pub fn is_empty(&self) -> bool {
        self.reported.is_empty()
    }

    /// All faults; empty if there are none.
    pub fn into_text(self) -> String {
        self.reported
    }
}
