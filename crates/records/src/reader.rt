//! Records, one after the other.

ghost use Rattle.std.specs.Prelude.{◌≡◌, ◌++◌, ◌+◌, ◌^◌, ◌<◌, ℕ, List, length, map};

use crate::fault::{Fault, Problem, Stop};
use crate::field::Field;
use crate::head::{first_record, without_end, without_mark};
use crate::place::{after_fault, before, place_after};
use crate::record::take_record;
use crate::separator::Separator;
use std::alloc::Global;

/// Why there is no record.
#[derive(Clone, Copy, Debug)]
pub enum ReadError {
    /// The text goes on with none.
    Fault(Fault),
    /// Memory ran out.
    NoMemory,
}

/// A reader of the records of a table, one after the other.
#[derive(Clone, Copy, Debug)]
pub struct Reader<'a> {
    separator: Separator,
    line: usize,
    rest: &'a str,
    ghost fits: { line + length rest.now < 2 ^ 64 },
}

impl<'a> Reader<'a> {
    ghost use Rattle.records.specs.Faults.{Breaks};
    ghost use Rattle.records.specs.Heads.{Starts};
    ghost use Rattle.records.specs.Spellings.{text_of};
    ghost use Rattle.records.specs.Tables.{GivesFault, IsPast, Passes, ReadsNext, at, separator_of};

    /// A reader of a table from its beginning. A byte order mark at its head, a first line `sep=;`,
    /// `sep=,` or `sep=` and a tab, and line ends at its end belong to no record.
    pub fn new(table: &'a str, separator: Separator) -> Reader<'a>
        ensures starts { Starts table.now (at result) }
        ensures separator { separator_of result ≡ separator }
    {
        let (line, rest) = first_record(without_mark(table));
        Reader {
            separator,
            line,
            rest: without_end(rest),
        }
    }

    /// Goes on with a rest of the text.
    fn go_on(&mut self, rest: &'a str)
        requires { (front : List ℕ) × (self.old.rest.now ≡ front ++ rest.now) }
        ensures passes { (front : List ℕ) × Passes front (at self.old) (at self.new) }
        ensures rest { self.new.rest.now ≡ rest.now }
        ensures same { self.new.separator ≡ self.old.separator }
    {
        let place = place_after(self.line, before(self.rest, rest).as_bytes());
        *self = Reader {
            separator: self.separator,
            line: place.line,
            rest,
        };
    }

    /// Goes on behind a fault that is in front of this text, and returns it with its place.
    fn fault_at(&mut self, problem: Problem, tail: &'a str) -> Fault
        requires { Breaks self.old.separator problem self.old.rest.now tail.now }
        ensures gives { GivesFault self.old.separator result (at self.old) (at self.new) }
        ensures same { self.new.separator ≡ self.old.separator }
    {
        let place = place_after(self.line, before(self.rest, tail).as_bytes());
        self.go_on(after_fault(problem, tail));
        Fault { problem, place }
    }

    /// Fills in the fields of the next record, and returns the number of the line in which it
    /// begins; none at the end of the table.
    ///
    /// # Errors
    ///
    /// The fault by which the table does not go on with a record, after which the reader goes on
    /// with the next line; `NoMemory`, after which it is where it was. In both cases `fields` is
    /// empty.
    pub fn next_record(
        &mut self,
        alloc: Global,
        fields: &mut Vec<Field<'a>>,
    ) -> Result<Option<usize>, ReadError>
        ensures next { ReadsNext (separator_of self.old) (at self.old) (at self.new)
            (map text_of fields.new.items) result }
        ensures same { separator_of self.new ≡ separator_of self.old }
        ensures shorter { IsPast result → length (at self.new).text < length (at self.old).text }
    {
        fields.clear();
        if self.rest.is_empty() {
            return Ok(None);
        }
        match take_record(alloc, self.rest, self.separator, fields) {
            Ok(rest) => {
                let line = self.line;
                self.go_on(rest);
                Ok(Some(line))
            }
            Err(Stop::Broken(problem, tail)) => {
                fields.clear();
                Err(ReadError::Fault(self.fault_at(problem, tail)))
            }
            Err(Stop::NoMemory) => {
                fields.clear();
                Err(ReadError::NoMemory)
            }
        }
    }
}
