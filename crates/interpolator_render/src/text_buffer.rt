//! A writer that keeps its text in memory.
ghost use Rattle.std.specs.Prelude.{◌≡◌, ◌+◌, ◌<◌, ◌≤◌, ◌∷◌, [], false, length, encode_utf8};
ghost use Rattle.std.specs.Prelude.{string_bytes, string_capacity, MatchResult, OnOk, OnErr, None};
ghost use Rattle.std.specs.Prelude.{take};
ghost use Rattle.std.specs.Str.{chars, IsUtf8};
ghost use Rattle.interpolator_render.specs.Writers.{Appends, Refuses, RefusesWhole, as_writer};
ghost use Rattle.interpolator_render.specs.Writers.{byte_count, MayRefuse, plain};

use crate::places::{make_ready, put_at};
use crate::text_write::{Refusal, TextWrite};
use std::alloc::Global;
use std::fmt;
use std::marker::Model;

/// A writer that keeps its text in memory.
///
/// It refuses a text for which there is no memory, whole, and from then on every text but the
/// empty one, until [`TextBuffer::clear`] or [`TextBuffer::forget_refusal`]. Otherwise it never
/// refuses a text that it has room for. After a `reserve` that returns `Ok`, it has room
/// for the bytes reserved.
///
/// ```text
/// let mut out = TextBuffer::new(rt.alloc());
/// pad(&mut out, "left", &Spec { width: Some(6), ..Spec::default() })?;
/// out.as_str()   // "left  "
/// ```
#[derive(Drop)]
pub struct TextBuffer {
    /// The text, and behind it places that are ready for more, whatever they hold.
    bytes: Vec<u8>,
    /// How many bytes the text has.
    len: usize,
    refused: bool,
}

impl Model for TextBuffer {
    ghost use Rattle.std.specs.Prelude.{take, vec_capacity};
    ghost use Rattle.std.specs.Str.{chars};
    ghost use Rattle.interpolator_render.specs.Writers.{Buffered, HoldsText};

    ghost Value = { Buffered };

    ghost view = { λ buffer. record {
      text = chars (take buffer.len buffer.bytes.items);
      refused = buffer.refused;
      room = vec_capacity buffer.bytes;
    } };

    ghost invariant = { λ buffer. HoldsText buffer.bytes.items buffer.len buffer.refused };
}

impl fmt::Debug for TextBuffer {
    fn fmt<W: fmt::Write>(&self, f: &mut fmt::Formatter<W>) -> fmt::Result {
        f.debug_struct("TextBuffer")
            .field("text", &self.as_str())
            .field("refused", &self.refused)
            .finish()
    }
}

impl TextBuffer {
    /// An empty buffer, which grows in `alloc`'s memory.
    #[tactic(auto, using(crate::proofs::WrittenLemmas::empty_text))]
    pub fn new(alloc: Global) -> TextBuffer
        ensures { as_writer result ≡ record { text = []; refused = false; origin = plain } }
    {
        TextBuffer {
            bytes: Vec::new(alloc),
            len: 0,
            refused: false,
        }
    }

    /// A buffer that holds this text already.
    pub fn from_string(text: String) -> TextBuffer
        ensures { result ≡ record {
          text = chars (string_bytes text);
          refused = false;
          room = string_capacity text;
        } }
    {
        let bytes = text.into_bytes();
        TextBuffer {
            len: bytes.len(),
            bytes,
            refused: false,
        }
    }

    /// The text so far.
    pub fn as_str(&self) -> &str
        ensures { chars result.now ≡ self.now.text }
    {
        unsafe { str::from_utf8_unchecked(&self.bytes[..self.len]) }
    }

    /// The text so far, as a `String`.
    pub fn into_string(self) -> String
        ensures { chars (string_bytes result) ≡ self.text }
    {
        let TextBuffer {
            mut bytes,
            len,
            refused: _,
        } = self;
        bytes.truncate(len);
        unsafe { String::from_utf8_unchecked(bytes) }
    }

    /// Empties the buffer, and clears the flag that a refusal has set. Its capacity stays: a
    /// loop over records that makes each text in one buffer takes memory for the longest alone.
    ///
    /// ```text
    /// for record in records {
    ///     out.clear();
    ///     record.write_template_to(alloc, &mut out, &line)?;
    ///     print(out.as_str());
    /// }
    /// ```
    #[tactic(auto, using(crate::proofs::WrittenLemmas::empty_text))]
    pub fn clear(&mut self)
        ensures { self.new ≡ record { text = []; refused = false; room = self.old.room } }
    {
        self.forget_refusal();
        self.len = 0;
    }

    /// Clears the flag that a refusal has set, and changes nothing else.
    pub fn forget_refusal(&mut self)
        ensures { self.new ≡ record self.old { refused = false } }
    {
        self.refused = false;
    }
}

impl TextBuffer {
    /// Appends a text for which no places are ready, or sets the flag and changes nothing else.
    #[cold]
    #[inline(never)]
    fn append_slowly(&mut self, text: &str) -> Result<(), Refusal>
        requires { 0 < length text.now }
        ensures written { MatchResult result
            (λ _. Appends (as_writer self.old) (chars text.now) (as_writer self.new))
            (λ refusal. Refuses (as_writer self.old) (chars text.now) refusal.taken
            (as_writer self.new)) }
        ensures whole { MatchResult result (λ _. Unit {0})
            (λ refusal. RefusesWhole (as_writer self.old) refusal.taken (as_writer self.new)) }
        ensures full { OnErr result (MayRefuse self.old (length text.now)) }
        ensures room { self.old.room ≤ self.new.room }
    {
        self.bytes.truncate(self.len);
        if self.refused {
            return Err(Refusal { taken: 0 });
        }
        match self.bytes.extend_from_slice(text.as_bytes()) {
            Ok(()) => {
                self.len = self.bytes.len();
                make_ready(&mut self.bytes);
                Ok(())
            }
            Err(_) => {
                self.refused = true;
                Err(Refusal { taken: 0 })
            }
        }
    }
}

impl TextBuffer {
    /// Appends a character that is not ASCII or for which no place is ready.
    #[inline(never)]
    #[tactic(auto, using(crate::proofs::WrittenLemmas::one_character))]
    fn append_encoded(&mut self, c: char) -> Result<(), Refusal>
        ensures written { MatchResult result
            (λ _. Appends (as_writer self.old) (c ∷ []) (as_writer self.new))
            (λ refusal. Refuses (as_writer self.old) (c ∷ []) refusal.taken
            (as_writer self.new)) }
        ensures whole { MatchResult result (λ _. Unit {0})
            (λ refusal. RefusesWhole (as_writer self.old) refusal.taken (as_writer self.new)) }
        ensures full { OnErr result (MayRefuse self.old (length (encode_utf8 c))) }
        ensures room { self.old.room ≤ self.new.room }
    {
        let mut buffer = [0; 4];
        self.write_str(c.encode_utf8(&mut buffer))
    }
}

impl TextWrite for TextBuffer {
    ghost written = { λ buffer. as_writer buffer };

    #[inline(always)]
    fn write_str(&mut self, text: &str) -> Result<(), Refusal>
        ensures written { MatchResult result
            (λ _. Appends (as_writer self.old) (chars text.now) (as_writer self.new))
            (λ refusal. Refuses (as_writer self.old) (chars text.now) refusal.taken
            (as_writer self.new)) }
        ensures whole { MatchResult result (λ _. Unit {0})
            (λ refusal. RefusesWhole (as_writer self.old) refusal.taken (as_writer self.new)) }
        ensures full { OnErr result (MayRefuse self.old (length text.now)) }
        ensures room { self.old.room ≤ self.new.room }
    {
        let count = text.len();
        if count <= self.bytes.len() - self.len {
            put_at(&mut self.bytes, self.len, text.as_bytes());
            self.len += count;
            return Ok(());
        }
        self.append_slowly(text)
    }

    #[inline(always)]
    fn write_short(&mut self, row: &[u8; 16], count: usize) -> Result<(), Refusal>
        requires fits { count ≤ 16 }
        requires utf8 { IsUtf8 (take count row.now) }
        ensures written { MatchResult result
            (λ _. Appends (as_writer self.old) (chars (take count row.now)) (as_writer self.new))
            (λ refusal. Refuses (as_writer self.old) (chars (take count row.now)) refusal.taken
            (as_writer self.new)) }
        ensures whole { MatchResult result (λ _. Unit {0})
            (λ refusal. RefusesWhole (as_writer self.old) refusal.taken (as_writer self.new)) }
        ensures full { OnErr result (MayRefuse self.old count) }
        ensures room { self.old.room ≤ self.new.room }
    {
        if row.len() <= self.bytes.len() - self.len {
            put_at(&mut self.bytes, self.len, row);
            self.len += count;
            return Ok(());
        }
        self.write_str(unsafe { str::from_utf8_unchecked(&row[..count]) })
    }

    #[inline(always)]
    fn write_char(&mut self, c: char) -> Result<(), Refusal>
        ensures written { MatchResult result
            (λ _. Appends (as_writer self.old) (c ∷ []) (as_writer self.new))
            (λ refusal. Refuses (as_writer self.old) (c ∷ []) refusal.taken
            (as_writer self.new)) }
        ensures whole { MatchResult result (λ _. Unit {0})
            (λ refusal. RefusesWhole (as_writer self.old) refusal.taken (as_writer self.new)) }
        ensures full { OnErr result (MayRefuse self.old (length (encode_utf8 c))) }
        ensures room { self.old.room ≤ self.new.room }
    {
        if c.is_ascii() && self.len < self.bytes.len() {
            self.bytes[self.len] = c as u8;
            self.len += 1;
            return Ok(());
        }
        self.append_encoded(c)
    }

    fn refused(&self) -> bool {
        self.refused
    }

    fn room(&self) -> Option<usize>
        ensures { result ≡ None }
    {
        None
    }

    fn reserve(&mut self, bytes: usize) -> Result<(), Refusal>
        ensures written { MatchResult result (λ _. as_writer self.new ≡ as_writer self.old)
            (λ refusal. RefusesWhole (as_writer self.old) refusal.taken (as_writer self.new)) }
        ensures ready { OnOk result (byte_count self.new.text + bytes ≤ self.new.room) }
        ensures full { OnErr result (self.old.room < byte_count self.old.text + bytes) }
        ensures room { self.old.room ≤ self.new.room }
    {
        if bytes <= self.bytes.capacity() - self.len {
            return Ok(());
        }
        self.bytes.truncate(self.len);
        match self.bytes.reserve(bytes) {
            Ok(()) => Ok(()),
            Err(_) => {
                self.refused = true;
                Err(Refusal { taken: 0 })
            }
        }
    }
}
