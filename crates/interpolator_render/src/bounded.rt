//! A writer over a `String` with a limit on its bytes.
ghost use Rattle.std.specs.Prelude.{◌≡◌, ℕ, ◌+◌, ◌<◌, ◌≤◌, ◌++◌, ◌∷◌, [], ◌⊎◌, true, false};
ghost use Rattle.std.specs.Prelude.{length, min, take, string_bytes, string_capacity};
ghost use Rattle.std.specs.Prelude.{IfOk, MatchResult, OnErr, OnOk, Some};
ghost use Rattle.std.specs.Str.{chars, IsCharBoundary};
ghost use Rattle.interpolator_render.specs.Writers.{Appends, Refuses, RefusesWhole, byte_count};
ghost use Rattle.interpolator_render.specs.Writers.{plain};
ghost use Rattle.interpolator_render.specs.Bounds.{bounded, bounded_writer, bytes_left};
ghost use Rattle.interpolator_render.specs.Bounds.{IsWithinBound, RefusesFor};

use crate::appends::{append, append_char, make_room};
use crate::text_write::{Refusal, TextWrite};
use std::alloc::{AllocError, Global};
use std::marker::Model;

/// A writer over a `String` with a limit on its bytes, which its text never exceeds.
///
/// Of a text that would exceed the limit it takes the longest prefix of whole characters that still
/// fits, and refuses the rest. A text for which there is no memory it refuses whole, which does not
/// happen if it was made by [`Bounded::with_room`]. After a refusal it takes only the empty text,
/// and refuses even a text that would fit.
///
/// Its `reserve` takes memory for the bytes named or for those that are left, whichever are fewer,
/// and refuses only if there is no memory for these. Its `room` is what is left.
///
/// ```text
/// let mut out = Bounded::new(rt.alloc(), 3);
/// out.left()                // 3
/// out.write_str("naïve")    // Err(Refusal { taken: 2 }): `ï` has two bytes, and one was left
/// out.as_str()              // "na"
/// out.write_str("a")        // Err(Refusal { taken: 0 })
/// out.left()                // 0
/// ```
#[derive(Debug, Drop)]
pub struct Bounded {
    text: String,
    most: usize,
    /// Whether the memory for all of `most` bytes was taken at first.
    ready: bool,
    refused: bool,
}

impl Model for Bounded {
    ghost use Rattle.std.specs.Prelude.{◌≤◌, length, string_bytes, string_capacity};
    ghost use Rattle.std.specs.Str.{chars};
    ghost use Rattle.interpolator_render.specs.Bounds.{BoundedText, IsReady};

    ghost Value = { BoundedText };

    ghost view = { λ b. record {
      text = chars (string_bytes b.text);
      refused = b.refused;
      most = b.most;
      ready = b.ready;
      room = string_capacity b.text;
    } };

    ghost invariant = { λ b. (length (string_bytes b.text) ≤ b.most)
        × IsReady b.ready b.most (string_capacity b.text) };
}

impl Bounded {
    /// An empty writer that takes at most `most` bytes, and grows in `alloc`'s memory.
    #[tactic(auto, using(crate::proofs::WrittenLemmas::empty_text))]
    pub fn new(alloc: Global, most: usize) -> Bounded
        ensures written { bounded_writer result
            ≡ record { text = []; refused = false; origin = plain } }
        ensures most { result.most ≡ most }
    {
        Bounded {
            text: String::new(alloc),
            most,
            ready: false,
            refused: false,
        }
    }

    /// An empty writer that takes at most `most` bytes, and takes the memory for all of them from
    /// `alloc` at once. So it refuses only a text that goes over the limit, and each text that
    /// comes after.
    ///
    /// # Errors
    ///
    /// `AllocError` if there is no memory for `most` bytes.
    #[tactic(auto, using(crate::proofs::WrittenLemmas::empty_text))]
    pub fn with_room(alloc: Global, most: usize) -> Result<Bounded, AllocError>
        ensures written { IfOk result (λ b. bounded_writer b
            ≡ record { text = []; refused = false; origin = bounded most true }) }
        ensures most { IfOk result (λ b. b.most ≡ most) }
    {
        let text = String::with_capacity(alloc, most)?;
        Ok(Bounded {
            text,
            most,
            ready: true,
            refused: false,
        })
    }

    /// The text so far.
    pub fn as_str(&self) -> &str
        ensures text { chars result.now ≡ self.now.text }
        ensures within { length result.now ≤ self.now.most }
    {
        self.text.as_str()
    }

    /// The text so far, as a `String`.
    pub fn into_string(self) -> String
        ensures text { chars (string_bytes result) ≡ self.text }
        ensures within { length (string_bytes result) ≤ self.most }
    {
        let Bounded {
            text,
            most: _,
            ready: _,
            refused: _,
        } = self;
        text
    }

    /// How many bytes it would still take, if there is memory for them: none once it has refused.
    pub fn left(&self) -> usize
        ensures left { result ≡ bytes_left self.now }
        ensures within { IsWithinBound self.now }
    {
        if self.refused {
            return 0;
        }
        self.most - self.text.len()
    }
}

/// Appends the longest beginning of whole characters with at most `left` bytes, and sets the flag.
/// If the flag was set before, or there is no memory, it appends nothing.
fn append_beginning(held: &mut String, refused: &mut bool, text: &str, left: usize) -> Refusal
    requires { left < length text.now }
    ensures bytes { string_bytes held.new ≡ string_bytes held.old ++ take result.taken text.now }
    ensures flag { refused.new ≡ true }
    ensures boundary { IsCharBoundary text.now result.taken }
    ensures fits { result.taken ≤ left }
    ensures none { refused.old ≡ true → result.taken ≡ 0 }
    ensures longest { (refused.old ≡ true)
        ⊎ (((result.taken ≡ 0) × (string_capacity held.old < length (string_bytes held.old) + left))
        ⊎ ((i : ℕ) → result.taken < i → i ≤ left → ¬ (IsCharBoundary text.now i))) }
    ensures room { string_capacity held.old ≤ string_capacity held.new }
{
    let taken = text.floor_char_boundary(left);
    let (beginning, _) = text.split_at(taken);
    let appended = append(held, refused, beginning);
    *refused = true;
    match appended {
        Ok(()) => Refusal { taken },
        Err(refusal) => refusal,
    }
}

impl TextWrite for Bounded {
    ghost written = { λ b. bounded_writer b };

    ghost limit = { λ b. Some (bytes_left b) };

    fn write_str(&mut self, text: &str) -> Result<(), Refusal>
        ensures written { MatchResult result
            (λ _. Appends (bounded_writer self.old) (chars text.now) (bounded_writer self.new))
            (λ refusal. Refuses (bounded_writer self.old) (chars text.now) refusal.taken
            (bounded_writer self.new)) }
        ensures left { OnOk result
            (byte_count (chars text.now) + bytes_left self.new ≤ bytes_left self.old) }
        ensures why { OnErr result (RefusesFor self.old (chars text.now) self.new) }
        ensures within { IsWithinBound self.new }
        ensures most { self.new.most ≡ self.old.most }
        ensures room { self.old.room ≤ self.new.room }
    {
        let left = self.most - self.text.len();
        if text.is_empty() {
            return Ok(());
        }
        if text.len() <= left {
            return append(&mut self.text, &mut self.refused, text);
        }
        Err(append_beginning(&mut self.text, &mut self.refused, text, left))
    }

    fn write_char(&mut self, c: char) -> Result<(), Refusal>
        ensures written { MatchResult result
            (λ _. Appends (bounded_writer self.old) (c ∷ []) (bounded_writer self.new))
            (λ refusal. Refuses (bounded_writer self.old) (c ∷ []) refusal.taken
            (bounded_writer self.new)) }
        ensures left { OnOk result
            (byte_count (c ∷ []) + bytes_left self.new ≤ bytes_left self.old) }
        ensures why { OnErr result (RefusesFor self.old (c ∷ []) self.new) }
        ensures within { IsWithinBound self.new }
        ensures most { self.new.most ≡ self.old.most }
        ensures room { self.old.room ≤ self.new.room }
    {
        if c.len_utf8() <= self.most - self.text.len() {
            return append_char(&mut self.text, &mut self.refused, c);
        }
        self.refused = true;
        Err(Refusal { taken: 0 })
    }

    fn refused(&self) -> bool {
        self.refused
    }

    fn reserve(&mut self, bytes: usize) -> Result<(), Refusal>
        ensures written { MatchResult result
            (λ _. bounded_writer self.new ≡ bounded_writer self.old)
            (λ refusal. RefusesWhole (bounded_writer self.old) refusal.taken
            (bounded_writer self.new)) }
        ensures left { OnOk result (bytes_left self.new ≡ bytes_left self.old) }
        ensures ready { OnOk result
            (byte_count self.new.text + min bytes (bytes_left self.old) ≤ self.new.room) }
        ensures full { OnErr result
            (self.old.room < byte_count self.old.text + min bytes (bytes_left self.old)) }
        ensures within { IsWithinBound self.new }
        ensures most { self.new.most ≡ self.old.most }
        ensures room { self.old.room ≤ self.new.room }
    {
        let fitting = bytes.min(self.left());
        make_room(&mut self.text, &mut self.refused, fitting)
    }

    fn room(&self) -> Option<usize>
        ensures left { result ≡ Some (bytes_left self.now) }
    {
        Some(self.left())
    }
}
