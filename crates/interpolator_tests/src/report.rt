//! The report of what is checked and which checks fail.

use interpolator::Error;
use std::alloc::{AllocError, Global};
use std::fmt;

/// More bytes than all groups report, so that the report itself never grows.
const ROOM: usize = 4_000;

/// The report of the checks.
#[derive(Drop)]
pub struct Report {
    pub alloc: Global,
    /// How many checks each group has, and those that fail.
    pub reported: String,
    /// Whether memory for the report was refused.
    pub wants_memory: bool,
    /// The present group, and how many of its checks were made and failed.
    group: &'static str,
    checks: usize,
    failed: usize,
}

impl Report {
    pub fn new(alloc: Global) -> Result<Report, AllocError> {
        Ok(Report {
            alloc,
            reported: String::with_capacity(alloc, ROOM)?,
            wants_memory: false,
            group: "",
            checks: 0,
            failed: 0,
        })
    }

    /// Reports a line, if there was memory for it.
    fn say(&mut self, line: Result<String, AllocError>) {
        let Ok(line) = line else {
            self.wants_memory = true;
            return;
        };
        if self.reported.push_str(line.as_str()).is_err() {
            self.wants_memory = true;
        }
    }

    /// Begins a group: the next checks belong to it.
    pub fn begin(&mut self, group: &'static str) {
        self.end();
        self.group = group;
        self.checks = 0;
        self.failed = 0;
    }

    /// Ends the group: reports how many checks it has, and how many fail.
    fn end(&mut self) {
        if self.checks > 0 {
            let line = format!(in self.alloc;
                "{}: {} checks, {} fail\n",
                self.group, self.checks, self.failed
            );
            self.say(line);
        }
    }

    /// Ends the report. A fault that ended a group early is a failed check of it.
    pub fn done(&mut self, answer: Result<(), Error>) {
        match answer {
            Ok(()) => {}
            Err(Error::NoMemory) => self.wants_memory = true,
            Err(error) => self.error("its end", "", &error),
        }
        self.end();
    }

    /// Counts a check, and reports it if it fails: what was wanted, and what came.
    fn check<W: fmt::Debug, C: fmt::Debug>(
        &mut self,
        what: &str,
        holds: bool,
        wanted: &W,
        came: &C,
    ) {
        self.checks = self.checks.saturating_add(1);
        if holds {
            return;
        }
        self.failed = self.failed.saturating_add(1);
        let group = self.group;
        let line = format!(in self.alloc;
            "{group}: {what:.200}\n  wanted {wanted:?}\n  came   {came:?}\n"
        );
        self.say(line);
    }

    /// Checks that this holds.
    pub fn holds(&mut self, what: &str, holds: bool) {
        self.check(what, holds, &true, &holds);
    }

    /// Checks that this holds after memory was refused. It is counted only if it fails, so that the
    /// report is the same whichever allocation is refused.
    pub fn refused(&mut self, what: &str, holds: bool) {
        if !holds {
            self.holds(what, false);
        }
    }

    /// Checks that the number is the wanted one.
    pub fn number(&mut self, what: &str, wanted: usize, came: usize) {
        self.check(what, wanted == came, &wanted, &came);
    }

    /// Checks that the text is the wanted one.
    pub fn text(&mut self, what: &str, wanted: &str, came: &str) {
        self.check(what, wanted == came, &wanted, &came);
    }

    /// Checks that the result has this fault, as `Debug` shows it; none if that is empty.
    pub fn fault<T: Drop>(&mut self, what: &str, wanted: &str, answer: Result<T, Error>) {
        match answer {
            Ok(_) => self.text(what, wanted, ""),
            Err(error) => self.error(what, wanted, &error),
        }
    }

    /// Checks that the fault is the wanted one.
    fn error(&mut self, what: &str, wanted: &str, error: &Error) {
        match format!(in self.alloc; "{error:?}") {
            Ok(came) => self.text(what, wanted, came.as_str()),
            Err(_) => self.wants_memory = true,
        }
    }

    /// Checks that this text was written, and this fault returned.
    pub fn written(
        &mut self,
        what: &str,
        wanted: (&str, &str),
        text: &str,
        answer: Result<(), Error>,
    ) {
        let (wanted, fault) = wanted;
        self.text(what, wanted, text);
        self.fault(what, fault, answer);
    }

    /// Checks that this text was returned, or else this fault.
    pub fn made(&mut self, what: &str, wanted: (&str, &str), made: Result<String, Error>) {
        match made {
            Ok(text) => self.written(what, wanted, text.as_str(), Ok(())),
            Err(error) => self.error(what, wanted.1, &error),
        }
    }
}
