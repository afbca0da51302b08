//! A writer that counts its calls.

ghost use Rattle.interpolator_render.specs.Writers.{as_writer};

use crate::report::Report;
use interpolator_render::{Refusal, TextBuffer, TextWrite};
use std::alloc::Global;

/// A writer that counts its calls, and those with an empty text.
#[derive(Drop)]
pub struct Counting {
    inner: TextBuffer,
    pub calls: usize,
    empty_calls: usize,
}

impl Counting {
    pub fn new(alloc: Global) -> Counting {
        Counting {
            inner: TextBuffer::new(alloc),
            calls: 0,
            empty_calls: 0,
        }
    }

    /// Checks that this text was written, by at most `most` calls, none of them with an empty text.
    pub fn check(&self, report: &mut Report, text: &str, most: usize) {
        report.text("what few calls write", text, self.inner.as_str());
        report.holds(text, self.calls <= most);
        report.number(text, 0, self.empty_calls);
    }
}

impl TextWrite for Counting {
    ghost written = { λ writer. as_writer writer.inner };

    fn write_str(&mut self, text: &str) -> Result<(), Refusal> {
        self.calls = self.calls.saturating_add(1);
        if text.is_empty() {
            self.empty_calls = self.empty_calls.saturating_add(1);
        }
        self.inner.write_str(text)
    }

    fn write_char(&mut self, c: char) -> Result<(), Refusal> {
        self.calls = self.calls.saturating_add(1);
        self.inner.write_char(c)
    }

    fn refused(&self) -> bool {
        self.inner.refused()
    }
}
