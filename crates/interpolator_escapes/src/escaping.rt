//! A writer that escapes its text.
ghost use Rattle.std.specs.Prelude.{◌≡◌, [], ◌∷◌, MatchResult, true, false};
ghost use Rattle.std.specs.Str.{chars};
ghost use Rattle.interpolator_render.specs.Texts.{Renders, view_text};
ghost use Rattle.interpolator_render.specs.Views.{IsInRange, shown_by};
ghost use Rattle.interpolator_escapes.specs.Escapes.{escape_of, escaped};
ghost use Rattle.interpolator_escapes.specs.Wholes.{escaped_text};
ghost use Rattle.interpolator_escapes.specs.Passing.{HasFront, HasWhole, LacksEnd, NextGoesOver};
ghost use Rattle.interpolator_escapes.specs.Passing.{got, or_refused};

use crate::escape::Escape;
use crate::escaped::put_escaped;
use crate::taken::Taken;
use interpolator_render::{Refusal, RenderFault, Spec, TextWrite, Trait, View, render};

/// A writer that writes each text escaped to a writer below.
///
/// Where that one refuses a part of a text, all of the text counts as taken, since no other count
/// fits: what was refused may lie amid the escape of a character. Each text that comes after, but
/// the empty one, is refused whole.
#[derive(Drop)]
pub(crate) struct Escaping<'o, W: TextWrite> {
    out: &'o mut W,
    escape: Escape,
    refused: bool,
    taken: Taken,
    // the writer below has got all that was taken, escaped, until it refuses
    ghost whole: { HasWhole taken.start (escaped escape taken.text) (W.written out.now) },
    // from then on it has a beginning, and not all, up to a character that goes over its bound
    ghost front: { HasFront taken.start (escaped escape taken.text) (W.written out.now) },
    ghost lacks: { LacksEnd taken.start (escaped escape taken.text) (W.written out.now) },
    ghost over: { NextGoesOver taken.start (escaped escape taken.text) (W.written out.now) } by { Prim.hlevel got },
    // no text is refused before
    ghost after: { refused ≡ true → (W.written out.now).refused ≡ true },
}

impl<'o, W: TextWrite> Escaping<'o, W> {
    ghost use Rattle.interpolator_escapes.specs.EscapingWriters.{escaping_written};
    ghost use Rattle.interpolator_render.specs.Writers.{Appends};

    /// A writer over `out` that has taken nothing.
    pub(crate) fn over(out: &'o mut W, escape: Escape) -> Escaping<'o, W>
        requires clear { (W.written out.old).refused ≡ false }
        ensures out { (result.out.ghost_name ≡ out.entry.ghost_name) × (result.out.now ≡ out.old) }
        ensures escape { result.escape ≡ escape }
        ensures nothing { (result.taken.text ≡ []) × (result.refused ≡ false) }
        ensures start { result.taken.start ≡ (W.written out.old).text }
    {
        let taken = Taken::over(out);
        Escaping {
            out,
            escape,
            refused: false,
            taken,
        }
    }

    /// The writer below. A caller takes it back to end its own borrow.
    pub(crate) fn into_below(self) -> &'o mut W
        ensures { self.entry.out ≡ result }
    {
        let Escaping {
            out,
            escape: _,
            refused: _,
            taken: _,
        } = self;
        out
    }

    /// Writes a view through a writer that has taken nothing. It is refused if the writer below has
    /// refused a part of it.
    pub(crate) fn put(
        &mut self,
        view: View<'_>,
        wanted: Trait,
        spec: &Spec,
    ) -> Result<(), RenderFault>
        requires in_range { IsInRange (shown_by view) }
        requires nothing { (self.old.taken.text ≡ []) × (self.old.refused ≡ false) }
        requires start { self.old.taken.start ≡ (W.written self.old.out.now).text }
        requires clear { (W.written self.old.out.now).refused ≡ false }
        ensures same_reference { self.new.out.ghost_name ≡ self.old.out.ghost_name }
        ensures renders { Renders
            (view_text (escaped_text (escape_of self.old.escape)
            (view_text (shown_by view.entry) wanted spec.now)) wanted spec.now)
            (W.written self.old.out.now) result (W.written self.new.out.now) }
    {
        let rendered = render(self, view, wanted, spec);
        or_refused(rendered, self.out.refused())
    }

    /// Passes a text on.
    fn pass_on(&mut self, text: &str)
        requires clear { (W.written self.old.out.now).refused ≡ false }
        ensures appends { Appends (escaping_written W.written self.old) (chars text.now)
            (escaping_written W.written self.new) }
    {
        match put_escaped(&mut *self.out, self.escape, text) {
            Ok(()) => {}
            Err(_) => {}
        }
        self.taken = self.taken.and(text);
    }
}

/// A success is a refusal, if the writer below has refused a part of the text.
fn or_refused(rendered: Result<(), RenderFault>, is_refused: bool) -> Result<(), RenderFault>
    ensures { result ≡ or_refused rendered is_refused }
{
    if is_refused && rendered.is_ok() {
        return Err(RenderFault::Refused);
    }
    rendered
}

impl<W: TextWrite> TextWrite for Escaping<'_, W> {
    ghost use Rattle.interpolator_escapes.specs.EscapingWriters.{escaping_written};
    ghost use Rattle.interpolator_render.specs.Writers.{Appends, Refuses};

    ghost written = { λ w. escaping_written W.written w };

    fn write_str(&mut self, text: &str) -> Result<(), Refusal>
        ensures { MatchResult result
            (λ _. Appends (escaping_written W.written self.old) (chars text.now)
            (escaping_written W.written self.new))
            (λ refusal. Refuses (escaping_written W.written self.old) (chars text.now) refusal.taken
            (escaping_written W.written self.new)) }
    {
        if text.is_empty() {
            return Ok(());
        }
        if self.out.refused() {
            self.refused = true;
            return Err(Refusal { taken: 0 });
        }
        self.pass_on(text);
        Ok(())
    }

    fn write_char(&mut self, c: char) -> Result<(), Refusal>
        ensures { MatchResult result
            (λ _. Appends (escaping_written W.written self.old) (c ∷ [])
            (escaping_written W.written self.new))
            (λ refusal. Refuses (escaping_written W.written self.old) (c ∷ []) refusal.taken
            (escaping_written W.written self.new)) }
    {
        let mut buffer = [0; 4];
        self.write_str(c.encode_utf8(&mut buffer))
    }

    fn refused(&self) -> bool {
        self.refused
    }
}
