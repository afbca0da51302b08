//! A writer over a writer of bytes.
ghost use Rattle.std.specs.Prelude.{◌≡◌, ◌≤◌, ◌<◌, ◌+◌, ◌++◌, ◌∷◌, [], true, false, length, max};
ghost use Rattle.std.specs.Prelude.{string_bytes, string_capacity, encode_utf8, encode_utf8_all};
ghost use Rattle.std.specs.Prelude.{◌⊎◌, IfErr, MatchResult, OnErr, OnOk};
ghost use Rattle.std.specs.{IoError.error_kind, declared.io.ErrorKind.TheVariants.Other, Str.chars};
ghost use Rattle.interpolator_render.specs.PassedOn.{Gets, GetsFront, got};

use crate::appends::{append, append_char};
use crate::below::Below;
use crate::ghost_log::GhostLog;
use crate::text_write::{Refusal, TextWrite};
use std::alloc::Global;
use std::io;
use std::io::Write;

/// How many bytes are gathered before they are passed on.
const GATHERED: usize = 8192;

/// A writer over a writer of bytes, such as a file or the standard output.
///
/// It gathers up to 8 KiB of text in memory, and then passes it on. A longer text is gathered whole.
/// What the writer below contains is at any time what it did at first, and then a front of the bytes
/// of all the text taken, with nothing left out and nothing twice.
///
/// It refuses a text only if a write or a flush below failed, or there is no memory for the text, and
/// from then on every text but the empty one. Once it has refused, it passes nothing on.
///
/// Dropping it passes nothing on either, so end with [`IoWriter::flush`]: after `Ok`, all the text
/// taken has been passed on.
///
/// ```text
/// let mut out = IoWriter::new(rt.alloc(), io::writer(&rt));
/// for record in records {
///     record.write_template_to(alloc, &mut out, &line)?;
/// }
/// out.flush()?;
/// ```
#[derive(Drop)]
pub struct IoWriter<W: Write + Drop> {
    below: Below<W>,
    held: String,
    /// Whether there was no memory for a text.
    no_memory: bool,
    passed_on: GhostLog,
    // the writer below has got what was passed on, each byte once, unless a call of it has failed
    ghost whole: { below.failed ≡ false → Gets passed_on.start (W.contents below.inner)
        (encode_utf8_all passed_on.text) } by { Prim.hlevel got },
    // in any case it has got a front of all the text that was taken
    ghost front: { GetsFront passed_on.start (W.contents below.inner)
        (encode_utf8_all passed_on.text ++ string_bytes held) } by { Prim.hlevel got },
}

impl<W: Write + Drop> IoWriter<W> {
    ghost use Rattle.interpolator_render.specs.IoWriters.{FailsBelow, Gathers, HandsOn, HasAll};
    ghost use Rattle.interpolator_render.specs.IoWriters.{HasFront, io_written, over, refuses};
    ghost use Rattle.interpolator_render.specs.Writers.{RefusesWhole};

    /// A writer over `inner` that has taken nothing. It gathers text in `alloc`'s memory.
    pub fn new(alloc: Global, inner: W) -> IoWriter<W>
        ensures written { io_written result
            ≡ record { text = []; refused = false; origin = over (W.contents inner) } }
        ensures held { string_bytes result.held ≡ [] }
        ensures inner { result.below.inner ≡ inner }
    {
        let passed_on = GhostLog::over(&inner);
        IoWriter {
            below: Below::new(inner),
            held: String::new(alloc),
            no_memory: false,
            passed_on,
        }
    }

    /// Passes on what is gathered, and flushes the writer below. After `Ok` nothing is gathered, and
    /// the writer below has got all the text taken. After `Err` the writer refuses every text but the
    /// empty one, and passes nothing more on.
    ///
    /// # Errors
    ///
    /// The error of the write or of the flush below. If the writer had refused before,
    /// `ErrorKind::Other`, and nothing is done.
    pub fn flush(&mut self) -> io::Result<()>
        ensures written { MatchResult result (λ _. io_written self.new ≡ io_written self.old)
            (λ _. io_written self.new ≡ record (io_written self.old) { refused = true }) }
        ensures all { OnOk result (HasAll W.contents self.new) }
        ensures ok { OnOk result ((refuses self.old ≡ false) × (string_bytes self.new.held ≡ [])) }
        ensures got { OnOk result (Gets (W.contents self.old.below.inner)
            (W.contents self.new.below.inner) (string_bytes self.old.held)) }
        ensures passed_on { HandsOn W.contents self.old self.new [] }
        ensures why { OnErr result ((refuses self.old ≡ true) ⊎ FailsBelow self.old self.new) }
        ensures memory { self.new.no_memory ≡ self.old.no_memory }
        ensures kind { refuses self.old ≡ true → IfErr result (λ e. error_kind e ≡ Other) }
        ensures quiet { refuses self.old ≡ true → self.new ≡ self.old }
    {
        if self.has_refused() {
            return Err(io::Error::from(io::ErrorKind::Other));
        }
        match self.hand_on() {
            Ok(()) => self.below.flush(),
            Err(error) => Err(error),
        }
    }

    /// The writer below, which has got all the text taken, or a front of it. What is gathered and not
    /// passed on is lost: call [`IoWriter::flush`] first.
    pub fn into_inner(self) -> W
        ensures inner { result ≡ self.below.inner }
        ensures front { HasFront W.contents self }
    {
        let IoWriter {
            below,
            held: _,
            no_memory: _,
            passed_on: _,
        } = self;
        below.into_inner()
    }

    /// Whether it refuses.
    fn has_refused(&self) -> bool
        ensures { result ≡ refuses self.now }
    {
        self.below.failed() || self.no_memory
    }

    /// Passes on what is held, or refuses from now on.
    fn hand_on(&mut self) -> io::Result<()>
        requires { refuses self.old ≡ false }
        ensures written { MatchResult result (λ _. io_written self.new ≡ io_written self.old)
            (λ _. io_written self.new ≡ record (io_written self.old) { refused = true }) }
        ensures ok { OnOk result ((string_bytes self.new.held ≡ [])
            × Gets (W.contents self.old.below.inner) (W.contents self.new.below.inner)
            (string_bytes self.old.held)) }
        ensures passed_on { HandsOn W.contents self.old self.new [] }
        ensures why { OnErr result (FailsBelow self.old self.new) }
        ensures memory { self.new.no_memory ≡ self.old.no_memory }
        ensures room { string_capacity self.new.held ≡ string_capacity self.old.held }
    {
        let (_, result) = self.below.write(self.held.as_str().as_bytes());
        match result {
            Ok(()) => {
                self.passed_on = self.passed_on.and(&self.held);
                self.held.clear();
                Ok(())
            }
            Err(error) => Err(error),
        }
    }

    /// Passes on what is held if this many more bytes would be too many. A writer that has refused
    /// refuses again.
    fn make_way(&mut self, bytes: usize) -> Result<(), Refusal>
        ensures ok { OnOk result ((io_written self.new ≡ io_written self.old)
            × (refuses self.new ≡ false)) }
        ensures err { MatchResult result (λ _. Unit {0})
            (λ refusal. RefusesWhole (io_written self.old) refusal.taken (io_written self.new)) }
        ensures passed_on { HandsOn W.contents self.old self.new [] }
        ensures gathered { OnOk result (length (string_bytes self.new.held) + bytes
            ≤ max (max 8192 bytes) (length (string_bytes self.old.held))) }
        ensures why { OnErr result ((refuses self.old ≡ true) ⊎ FailsBelow self.old self.new) }
        ensures quiet { refuses self.old ≡ true → self.new ≡ self.old }
        ensures room { string_capacity self.new.held ≡ string_capacity self.old.held }
    {
        if self.has_refused() {
            return Err(Refusal { taken: 0 });
        }
        if bytes <= GATHERED.saturating_sub(self.held.len()) {
            return Ok(());
        }
        match self.hand_on() {
            Ok(()) => Ok(()),
            Err(_) => Err(Refusal { taken: 0 }),
        }
    }
}

impl<W: Write + Drop> TextWrite for IoWriter<W> {
    ghost use Rattle.interpolator_render.specs.IoWriters.{Gathers, HandsOn, io_written, IoRefusesFor};
    ghost use Rattle.interpolator_render.specs.IoWriters.{refuses};
    ghost use Rattle.interpolator_render.specs.Writers.{Appends, Refuses};

    ghost written = { λ w. io_written w };

    fn write_str(&mut self, text: &str) -> Result<(), Refusal>
        ensures written { MatchResult result
            (λ _. Appends (io_written self.old) (chars text.now) (io_written self.new))
            (λ refusal. Refuses (io_written self.old) (chars text.now) refusal.taken
            (io_written self.new)) }
        ensures passed_on { MatchResult result
            (λ _. HandsOn W.contents self.old self.new text.now)
            (λ _. HandsOn W.contents self.old self.new []) }
        ensures gathered { OnOk result (Gathers self.old (length text.now) self.new) }
        ensures why { OnErr result (IoRefusesFor self.old text.now self.new) }
        ensures quiet { refuses self.old ≡ true → self.new ≡ self.old }
    {
        if text.is_empty() {
            return Ok(());
        }
        match self.make_way(text.len()) {
            Ok(()) => append(&mut self.held, &mut self.no_memory, text),
            Err(refusal) => Err(refusal),
        }
    }

    fn write_char(&mut self, c: char) -> Result<(), Refusal>
        ensures written { MatchResult result
            (λ _. Appends (io_written self.old) (c ∷ []) (io_written self.new))
            (λ refusal. Refuses (io_written self.old) (c ∷ []) refusal.taken
            (io_written self.new)) }
        ensures passed_on { MatchResult result
            (λ _. HandsOn W.contents self.old self.new (encode_utf8 c))
            (λ _. HandsOn W.contents self.old self.new []) }
        ensures gathered { OnOk result
            (Gathers self.old (length (encode_utf8 c)) self.new) }
        ensures why { OnErr result (IoRefusesFor self.old (encode_utf8 c) self.new) }
        ensures quiet { refuses self.old ≡ true → self.new ≡ self.old }
    {
        match self.make_way(c.len_utf8()) {
            Ok(()) => append_char(&mut self.held, &mut self.no_memory, c),
            Err(refusal) => Err(refusal),
        }
    }

    fn refused(&self) -> bool {
        self.has_refused()
    }
}
