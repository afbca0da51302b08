//! A writer that takes a number of characters and then refuses.

use interpolator::{Refusal, TextWrite};
use std::alloc::{AllocError, Global};
use std::marker::Model;

/// A writer that takes a limited number of characters in all, into room that is reserved when it is
/// made.
///
/// If a text does not fit, it appends the longest beginning that does, and then refuses.
#[derive(Drop)]
pub struct Limited {
    text: String,
    room: usize,
    refused: bool,
}

impl Model for Limited {
    ghost use Rattle.std.specs.Prelude.{string_bytes};
    ghost use Rattle.std.specs.Str.{chars};
    ghost use Rattle.interpolator_render.specs.Writers.{Written, plain};

    ghost Value = { Written };

    ghost view = { λ writer. record {
      text = chars (string_bytes writer.text);
      refused = writer.refused;
      origin = plain;
    } };
}

impl Limited {
    /// A writer that takes `room` characters.
    pub fn new(alloc: Global, room: usize) -> Result<Limited, AllocError> {
        Ok(Limited {
            text: String::with_capacity(alloc, room.saturating_mul(4))?,
            room,
            refused: false,
        })
    }

    /// The text so far.
    pub fn as_str(&self) -> &str {
        self.text.as_str()
    }

    /// The text.
    pub fn into_string(self) -> String {
        self.text
    }
}

impl TextWrite for Limited {
    ghost written = { λ writer. writer };

    fn write_str(&mut self, text: &str) -> Result<(), Refusal> {
        let mut taken = 0;
        for c in text.chars() {
            match self.write_char(c) {
                Ok(()) => taken += c.len_utf8(),
                Err(_) => return Err(Refusal { taken }),
            }
        }
        Ok(())
    }

    fn write_char(&mut self, c: char) -> Result<(), Refusal> {
        if self.refused {
            return Err(Refusal { taken: 0 });
        }
        if self.room == 0 {
            self.refused = true;
            return Err(Refusal { taken: 0 });
        }
        match self.text.push(c) {
            Ok(()) => {
                self.room -= 1;
                Ok(())
            }
            Err(_) => {
                self.refused = true;
                Err(Refusal { taken: 0 })
            }
        }
    }

    fn refused(&self) -> bool {
        self.refused
    }
}
