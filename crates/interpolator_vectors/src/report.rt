//! The report on the rows: how many there were, and which of them fail.

use crate::files::Row;
use crate::ways::Room;
use std::alloc::{AllocError, Global};
use std::fmt;

/// What of a row was run.
#[derive(Clone, Copy, Debug)]
pub enum Part<'a> {
    /// As it is, with a writer that takes this.
    To(Room),
    /// A beginning of its format.
    Beginning(&'a str),
    /// Its format, joined with that of the row at this line.
    Joined(usize),
}

/// A run of a row: by which call, and what of the row.
#[derive(Clone, Copy)]
pub struct Run<'a> {
    pub way: &'a str,
    pub part: Part<'a>,
}

/// A run of the row as it is.
pub fn whole(way: &str) -> Run<'_> {
    Run {
        way,
        part: Part::To(Room::All),
    }
}

/// The report on the rows of a file.
#[derive(Drop)]
pub struct Report<'a> {
    pub alloc: Global,
    /// The name of the file.
    file: &'a str,
    /// The report on those that fail.
    pub reported: String,
    /// Whether memory for the report was refused.
    pub wants_memory: bool,
    pub rows: usize,
    pub runs: usize,
    /// How many rows fail.
    pub failed: usize,
    /// The first line of the present row.
    line: usize,
    /// Whether one of its runs fails.
    fails: bool,
}

impl<'a> Report<'a> {
    pub fn new(alloc: Global, file: &'a str) -> Report<'a> {
        Report {
            alloc,
            file,
            reported: String::new(alloc),
            wants_memory: false,
            rows: 0,
            runs: 0,
            failed: 0,
            line: 0,
            fails: false,
        }
    }

    /// Reports a text, if there was memory for it.
    fn say(&mut self, text: Result<String, AllocError>) {
        let Ok(text) = text else {
            self.wants_memory = true;
            return;
        };
        if self.reported.push_str(text.as_str()).is_err() {
            self.wants_memory = true;
        }
    }

    /// Reports something about a line.
    pub fn tell(&mut self, line: usize, what: &str) {
        let file = self.file;
        let reported = format!(in self.alloc; "{file}:{line}: {what}\n");
        self.say(reported);
    }

    /// Begins a row: the next runs belong to it.
    pub fn begin(&mut self, row: &Row) {
        self.line = row.number;
        self.fails = false;
    }

    /// Counts a run of the row. The first that fails is reported: how it was run, what was wanted,
    /// and what came.
    pub fn check<W: fmt::Debug, C: fmt::Debug>(
        &mut self,
        run: Run<'_>,
        holds: bool,
        wanted: &W,
        came: &C,
    ) {
        let Run { way, part } = run;
        self.runs = self.runs.saturating_add(1);
        if holds || self.fails {
            return;
        }
        self.fails = true;
        self.failed = self.failed.saturating_add(1);
        let file = self.file;
        let line = self.line;
        let reported = format!(in self.alloc;
            "{file}:{line}: by `{way}`, {part:?}\n  wanted {wanted:?}\n  came   {came:?}\n"
        );
        self.say(reported);
    }

    /// Counts a run of the row as it is, by a call that has to return what is wanted.
    pub fn compare<T: PartialEq + fmt::Debug>(&mut self, way: &str, wanted: &T, came: &T) {
        self.check(whole(way), *wanted == *came, wanted, came);
    }
}
