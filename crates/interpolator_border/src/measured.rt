//! A writer that keeps a text while it fits, and else counts it.
ghost use Rattle.std.specs.Prelude.{◌≡◌, ◌<◌, ◌∷◌, [], ◌++◌, false, true, length};
ghost use Rattle.std.specs.Prelude.{encode_utf8, IfSome, IsUtf8, MatchResult};
ghost use Rattle.std.specs.Str.{chars};
ghost use Rattle.interpolator_render.specs.Writers.{byte_count, plain};

use crate::taken::Taken;
use interpolator::{Refusal, TextBuffer, TextWrite};

/// To how many bytes a run of copies may bring a text that is counted. Each 64 bytes are a step, so
/// that a wide padding of more would take many seconds; there is no memory for it, either.
const MOST_COUNTED: usize = 1 << 36;

/// A writer that keeps a text while it has at most so many bytes. Once it has more, it keeps none of
/// what comes, and counts the bytes of all.
///
/// It refuses a text for which there is no memory, or that brings the count past what a `usize` says.
#[derive(Drop)]
pub(crate) struct Measured {
    kept: TextBuffer,
    /// How many bytes more it keeps.
    left: usize,
    /// How many bytes the whole text has, once it is not kept; else 0.
    count: usize,
    /// What was counted and is not kept.
    rest: Taken,
    /// Whether it has refused to count a text.
    refused: bool,
    // the count is that of all the text
    ghost counted: { 0 < count → count ≡ byte_count (kept.text ++ rest.text) },
    // all is kept while nothing was counted
    ghost whole: { count ≡ 0 → rest.text ≡ [] },
    // after what is not kept, nothing is
    ghost over: { 0 < count → left ≡ 0 },
    ghost silent: { refused ≡ true → left ≡ 0 },
}

impl Measured {
    ghost use Rattle.interpolator_border.specs.Measures.{measured};
    ghost use Rattle.interpolator_render.specs.Writers.{Appends, Refuses};

    /// A writer that has taken nothing, and keeps at most `left` bytes, the first of them in these
    /// places.
    #[tactic(auto, using(interpolator_syntax::proofs::CharacterLemmas::no_text))]
    pub(crate) fn new(places: Vec<u8>, left: usize) -> Measured
        requires { IsUtf8 places.items }
        ensures { measured result ≡ record { text = []; refused = false; origin = plain } }
    {
        let held = unsafe { String::from_utf8_unchecked(places) };
        let mut kept = TextBuffer::from_string(held);
        kept.clear();
        Measured {
            kept,
            left,
            count: 0,
            rest: Taken::nothing(),
            refused: false,
        }
    }

    /// How many bytes the text has.
    pub(crate) fn len(&self) -> usize
        ensures { result ≡ byte_count (measured self.now).text }
    {
        if self.count == 0 {
            return self.kept.as_str().len();
        }
        self.count
    }

    /// The text, if it is kept.
    pub(crate) fn whole(&self) -> Option<&str>
        ensures { IfSome result (λ text. chars text.now ≡ (measured self.now).text) }
    {
        if self.count == 0 {
            return Some(self.kept.as_str());
        }
        None
    }

    /// Whether it has refused a text.
    fn has_refused(&self) -> bool
        ensures { result ≡ (measured self.now).refused }
    {
        self.kept.refused() || self.refused
    }

    /// Refuses a text, and each that comes after.
    fn refuse(&mut self) -> Refusal
        ensures text { (measured self.new) ≡ record (measured self.old) { refused = true } }
        ensures taken { result.taken ≡ 0 }
    {
        self.refused = true;
        self.left = 0;
        Refusal { taken: 0 }
    }

    /// Counts a text that is not kept.
    #[cold]
    #[inline(never)]
    fn count(&mut self, text: &str) -> Result<(), Refusal>
        requires { self.old.left < length text.now }
        ensures { MatchResult result
            (λ _. Appends (measured self.old) (chars text.now) (measured self.new))
            (λ refusal. Refuses (measured self.old) (chars text.now) refusal.taken
            (measured self.new)) }
    {
        if self.has_refused() {
            return Err(Refusal { taken: 0 });
        }
        match self.len().checked_add(text.len()) {
            Some(count) => {
                self.left = 0;
                self.count = count;
                self.rest = self.rest.and(text);
                Ok(())
            }
            None => Err(self.refuse()),
        }
    }

    /// Counts a character that is not kept.
    #[cold]
    #[inline(never)]
    #[tactic(auto, using(interpolator_syntax::proofs::CharacterLemmas::no_text))]
    fn count_char(&mut self, c: char) -> Result<(), Refusal>
        requires { self.old.left < length (encode_utf8 c) }
        ensures { MatchResult result
            (λ _. Appends (measured self.old) (c ∷ []) (measured self.new))
            (λ refusal. Refuses (measured self.old) (c ∷ []) refusal.taken
            (measured self.new)) }
    {
        let mut buffer = [0; 4];
        self.count(c.encode_utf8(&mut buffer))
    }
}

impl Measured {
    ghost use Rattle.interpolator_border.specs.Measures.{measured};
    ghost use Rattle.interpolator_render.specs.Writers.{RefusesWhole};

    /// Refuses a run of copies that does not fit, if counting it would take too long.
    fn reserve_count(&mut self, bytes: usize) -> Result<(), Refusal>
        ensures { MatchResult result (λ _. self.new ≡ self.old)
            (λ refusal. RefusesWhole (measured self.old) refusal.taken (measured self.new)) }
    {
        if bytes > MOST_COUNTED.saturating_sub(self.len()) {
            return Err(self.refuse());
        }
        Ok(())
    }
}

impl TextWrite for Measured {
    ghost use Rattle.interpolator_border.specs.Measures.{measured};
    ghost use Rattle.interpolator_render.specs.Writers.{Appends, Refuses};

    ghost written = { λ m. measured m };

    #[inline(always)]
    fn write_str(&mut self, text: &str) -> Result<(), Refusal>
        ensures { MatchResult result
            (λ _. Appends (measured self.old) (chars text.now) (measured self.new))
            (λ refusal. Refuses (measured self.old) (chars text.now) refusal.taken
            (measured self.new)) }
    {
        if text.len() > self.left {
            return self.count(text);
        }
        match self.kept.write_str(text) {
            Ok(()) => {
                self.left -= text.len();
                Ok(())
            }
            Err(refusal) => Err(refusal),
        }
    }

    #[inline(always)]
    fn write_char(&mut self, c: char) -> Result<(), Refusal>
        ensures { MatchResult result
            (λ _. Appends (measured self.old) (c ∷ []) (measured self.new))
            (λ refusal. Refuses (measured self.old) (c ∷ []) refusal.taken
            (measured self.new)) }
    {
        if c.len_utf8() > self.left {
            return self.count_char(c);
        }
        match self.kept.write_char(c) {
            Ok(()) => {
                self.left -= c.len_utf8();
                Ok(())
            }
            Err(refusal) => Err(refusal),
        }
    }

    fn refused(&self) -> bool {
        self.has_refused()
    }

    fn reserve(&mut self, bytes: usize) -> Result<(), Refusal> {
        if bytes > self.left {
            return self.reserve_count(bytes);
        }
        self.kept.reserve(bytes)
    }
}
