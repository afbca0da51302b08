//! How far a long run is, told on a terminal.

use std::io::IsTerminal;
use std::time::Instant;

/// How many records go by before the clock is read again.
const STRIDE: usize = 64;

/// How many records are done, told on standard error once in a second, from the first second on: on
/// one line, which each telling overwrites. It tells nothing if standard error is no terminal.
#[derive(Drop)]
pub struct Progress<'a> {
    rt: &'a HostRuntime,
    // none if nothing is to be told
    began: Option<Instant>,
    // the second of the last telling; 0 before the first
    reported: u64,
    are_written: bool,
    count: usize,
}

impl<'a> Progress<'a> {
    /// That of a run that begins now.
    pub fn new(rt: &'a HostRuntime) -> Progress<'a> {
        let began = if rt.stderr().is_terminal() {
            Instant::now(rt).ok()
        } else {
            None
        };
        Progress {
            rt,
            began,
            reported: 0,
            are_written: false,
            count: 0,
        }
    }

    /// That of a run whose letters go to standard output. If they are seen on a terminal, it would
    /// stand between them, and tells nothing.
    pub fn of_output(rt: &'a HostRuntime) -> Progress<'a> {
        let progress = Progress::new(rt);
        if rt.stdout().is_terminal() {
            return Progress {
                began: None,
                ..progress
            };
        }
        progress
    }

    /// Begins to count again: records that are written, or only checked.
    pub fn begin(&mut self, are_written: bool) {
        self.are_written = are_written;
        self.count = 0;
    }

    /// Counts a record that is done.
    pub fn count(&mut self) {
        self.count = self.count.saturating_add(1);
        if self.count % STRIDE == 0 {
            self.tell_in_time();
        }
    }

    /// Tells how many records are done, if a second has begun since the last telling. A clock or a
    /// terminal that fails ends that.
    fn tell_in_time(&mut self) {
        let Some(began) = self.began else {
            return;
        };
        match began.elapsed(self.rt) {
            Ok(passed) if passed.as_secs() > self.reported => {
                self.reported = passed.as_secs();
                self.tell();
            }
            Ok(_) => {}
            Err(_) => self.began = None,
        }
    }

    /// Tells how many records are done. Each line is as long as the one that it overwrites.
    fn tell(&mut self) {
        let count = self.count;
        let done = if self.are_written {
            "written"
        } else {
            "checked"
        };
        if eprint!(self.rt; "\r{count:>12} records {done}").is_err() {
            self.began = None;
        }
    }

    /// Clears the line, if there is one, for what else is told there.
    pub fn clear(self) {
        if self.reported > 0 {
            let _ = eprint!(self.rt; "\r{:28}\r", "");
        }
    }
}
