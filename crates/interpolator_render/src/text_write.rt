//! Writers of text, which may refuse what they are given.
ghost use Rattle.std.specs.Prelude.{◌≡◌, ◌≤◌, ℕ, ◌∷◌, [], MatchOption, MatchResult, Option};
ghost use Rattle.std.specs.Prelude.{None, Some, take};
ghost use Rattle.std.specs.Str.{chars, IsUtf8};
ghost use Rattle.interpolator_render.specs.Writers.{Written, AppendsWithin, StaysWithin};
ghost use Rattle.interpolator_render.specs.Texts.{render_answer};
ghost use Rattle.interpolator_render.specs.Writers.{Refuses, RefusesWhole};

use crate::view::RenderFault;

/// A writer's refusal: it did not take the whole of a text.
#[derive(Clone, Copy, Debug, PartialEq, Eq)]
pub struct Refusal {
    /// How many bytes of the text were taken: its beginning, up to a character boundary.
    pub taken: usize,
}

/// A writer's answer as that of [`render`](crate::render).
pub(crate) fn as_rendered(answer: Result<(), Refusal>) -> Result<(), RenderFault>
    ensures { result ≡ render_answer answer }
{
    answer.map_err(|_| RenderFault::Refused)
}

/// Where text goes, from front to back.
///
/// A call that returns `Ok` has taken its whole text. One that returns `Err` has taken the first
/// `taken` bytes of it and has set the writer's flag, `refused`. While the flag is set, the writer
/// takes only the empty text, and no write clears the flag. An empty text is never refused.
///
/// For proofs, what is `written` also has the writer's `origin`, which no call changes: `plain` for
/// most writers. One that has a bound in it has the memory for so many bytes, and refuses only a
/// character that goes over them, until it has refused once.
///
/// ```text
/// let mut out = TextBuffer::new(alloc);
/// out.write_str("né")?;
/// out.write_char('!')?;
/// out.reserve(100)?;
/// out.as_str()       // "né!"
/// out.refused()      // false
/// out.room()         // None: it is not bounded
/// ```
pub trait TextWrite {
    // the characters taken so far, whether a text was refused, and the writer's origin
    ghost written: { Self → Written };

    // how many bytes it takes at most from now on, if it is limited
    ghost limit: { Self → Option ℕ } = { λ _. None };

    /// Appends a text, or refuses it or its end.
    fn write_str(&mut self, text: &str) -> Result<(), Refusal>
        ensures { MatchResult result
            (λ _. AppendsWithin (limit self.old) (limit self.new) (written self.old)
            (chars text.now) (written self.new))
            (λ refusal. Refuses (written self.old) (chars text.now) refusal.taken
            (written self.new)) };

    /// Appends a character, or refuses it, with `taken` 0.
    fn write_char(&mut self, c: char) -> Result<(), Refusal>
        ensures { MatchResult result
            (λ _. AppendsWithin (limit self.old) (limit self.new) (written self.old) (c ∷ [])
            (written self.new))
            (λ refusal. Refuses (written self.old) (c ∷ []) refusal.taken (written self.new)) };

    /// Appends a text that is the first `count` bytes of a row, as [`TextWrite::write_str`] does. A
    /// writer that has room for the row may copy all of it, which is faster than to copy a text whose
    /// length is not known beforehand.
    ///
    /// ```text
    /// out.write_short(b", 70............", 4)?;   // appends ", 70"
    /// ```
    #[inline(always)]
    fn write_short(&mut self, row: &[u8; 16], count: usize) -> Result<(), Refusal>
        requires fits { count ≤ 16 }
        requires utf8 { IsUtf8 (take count row.now) }
        ensures { MatchResult result
            (λ _. AppendsWithin (limit self.old) (limit self.new) (written self.old)
            (chars (take count row.now)) (written self.new))
            (λ refusal. Refuses (written self.old) (chars (take count row.now)) refusal.taken
            (written self.new)) }
    {
        self.write_str(unsafe { str::from_utf8_unchecked(&row[..count]) })
    }

    /// Whether the writer has refused a text.
    fn refused(&self) -> bool
        ensures { result ≡ (written self.now).refused };

    /// Makes room in memory for this many bytes of the text that comes next, or refuses that
    /// text whole. A writer that cannot reserve memory returns `Ok`, and refuses the text itself
    /// if it has to. One that has a bound refuses nothing here, if it had not refused before.
    ///
    /// It is called before each run of more than 64 copies of a character, such as a wide
    /// padding, with the bytes of the run. So a run for which there is no memory is refused
    /// before any of it is written.
    fn reserve(&mut self, _bytes: usize) -> Result<(), Refusal>
        ensures { MatchResult result
            (λ _. StaysWithin (limit self.old) (limit self.new) (written self.old)
            (written self.new))
            (λ refusal. RefusesWhole (written self.old) refusal.taken (written self.new)) }
    {
        Ok(())
    }

    /// The greatest number of bytes that the writer could still take, if it has a limit that it
    /// knows. It has to keep to the limit: of a longer text it refuses the end, or all.
    ///
    /// A list with a width is first made in a buffer that takes at most this many bytes, and then
    /// written.
    fn room(&self) -> Option<usize>
        ensures { MatchOption result (Unit {0}) (λ most. limit self.now ≡ Some most) }
    {
        None
    }
}
