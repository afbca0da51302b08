//! Where text goes: to the writer, or into a buffer.
ghost use Rattle.std.specs.Prelude.{◌≡◌, ◌≢◌, ◌+◌, ◌^◌, ◌<◌, Err, MatchBool, Some, length, [], ◌∷◌};
ghost use Rattle.std.specs.{Str.chars, Option.option_copied};
ghost use Rattle.interpolator_render.specs.Views.{IsInRange, shown_by, some_text};
ghost use Rattle.interpolator_render.specs.Texts.{Renders, ViewText, view_text};
ghost use Rattle.interpolator_render.specs.declared.view.Trait.TheVariants.{Display};
ghost use Rattle.interpolator_render.specs.{Padding.padded_text, Writers.Written};
ghost use Rattle.interpolator_render.specs.declared.view.RenderFault.TheVariants.{NotImplemented};
ghost use Rattle.interpolator_syntax.specs.Places.{placed_at, placed_from};
ghost use Rattle.interpolator_syntax.specs.{Faults.answer_of, SpecTexts.plain_spec};
ghost use Rattle.interpolator_eval.specs.Meaning.Meanings.{text_alone, view_means, value_means};
ghost use Rattle.interpolator_eval.specs.Meaning.Sinks.{HasRoom, IsWriter, Writes, write_answered};
ghost use Rattle.interpolator_eval.specs.Meaning.Sinks.{write_fault_answer};
ghost use Rattle.interpolator_eval.specs.{Escaping.shows_by, Meaning.Outcomes.Outcome};
ghost use Rattle.interpolator_eval.specs.declared.evaluate.sink.Sink.TheVariants.{Writer};

use crate::escaper::Escaper;
use interpolator_render::{Bounded, RenderFault, Spec, TextWrite, Trait, Value, View, pad};
use interpolator_syntax::Error;
use std::fmt;

/// Why something was not written, and where in the format. An [`Error`] is made of it only after a
/// fault: else the slot of an `Error`, which is bigger, would be zeroed for each piece.
#[derive(Clone, Copy)]
pub enum WriteFault {
    /// The slot of the trait is empty, or its value has no text under the trait.
    MissingTraitImpl(Trait, usize),
    /// A value failed, or the writer refused a text.
    Fmt(usize),
}

impl From<WriteFault> for Error {
    ghost from_gives = { λ fault error. answer_of error ≡ write_fault_answer fault };

    #[cold]
    fn from(fault: WriteFault) -> Error {
        match fault {
            WriteFault::MissingTraitImpl(wanted, place) => Error::MissingTraitImpl(wanted, place),
            WriteFault::Fmt(place) => Error::Fmt(fmt::Error, place),
        }
    }
}

/// Writes one character of the format.
pub fn write_char<W: TextWrite>(out: &mut W, c: char, place: usize) -> Result<(), WriteFault>
    ensures outcome { Outcome (text_alone ((c, place) ∷ []))
        (W.written out.old) (W.written out.new) (write_answered result) }
{
    match out.write_char(c) {
        Ok(()) => Ok(()),
        Err(_) => Err(WriteFault::Fmt(place)),
    }
}

/// Writes characters of the format from a place on. A single ASCII character is written as such,
/// since a text costs more.
#[inline(always)]
pub fn write_run<W: TextWrite>(out: &mut W, text: &str, place: usize) -> Result<(), WriteFault>
    requires fits { place + length text.now < 2 ^ 64 }
    ensures outcome { Outcome (text_alone (placed_from place (chars text.now)))
        (W.written out.old) (W.written out.new) (write_answered result) }
{
    if let [byte] = text.as_bytes() {
        if byte.is_ascii() {
            return write_char(out, *byte as char, place);
        }
    }
    match out.write_str(text) {
        Ok(()) => Ok(()),
        Err(refusal) => Err(WriteFault::Fmt(place + refusal.taken)),
    }
}

/// Whether a view had no text under its trait, or its slot was empty. This is called, so that a value
/// that is written takes no step for its faults.
#[cold]
#[inline(never)]
fn lacks_text(fault: RenderFault) -> bool
    ensures { MatchBool result (fault ≡ NotImplemented) (fault ≢ NotImplemented) }
{
    match fault {
        RenderFault::NotImplemented => true,
        RenderFault::Failed => false,
        RenderFault::Refused => false,
    }
}

/// Why a value was not written, at a place.
#[inline(always)]
fn fault_at(fault: RenderFault, wanted: Trait, place: usize) -> WriteFault
    ensures outcome { (text : ViewText) (old new : Written) → Renders text old (Err fault) new
        → Outcome (view_means wanted place text) old new (Some (write_fault_answer result)) }
{
    if lacks_text(fault) {
        return WriteFault::MissingTraitImpl(wanted, place);
    }
    WriteFault::Fmt(place)
}

/// Writes a view, with all its characters at one place.
#[inline(always)]
fn write_view<W: TextWrite, E: Escaper>(
    out: &mut W,
    view: View<'_>,
    wanted: Trait,
    spec: &Spec,
    place: usize,
) -> Result<(), WriteFault>
    requires in_range { IsInRange (shown_by view) }
    ensures outcome { Outcome
        (view_means wanted place
        (view_text (E.shown (shown_by view.entry) wanted spec.now) wanted spec.now))
        (W.written out.old) (W.written out.new) (write_answered result) }
{
    match E::put(out, view, wanted, spec) {
        Ok(()) => Ok(()),
        Err(fault) => Err(fault_at(fault, wanted, place)),
    }
}

/// Writes a view displayed plainly, with all its characters at one place. A text goes its own way:
/// no answer of its is joined with that of other views, which saves looking at it again.
#[inline(always)]
fn write_plain_view<W: TextWrite, E: Escaper>(
    out: &mut W,
    view: View<'_>,
    place: usize,
) -> Result<(), WriteFault>
    requires in_range { IsInRange (shown_by view) }
    ensures outcome { Outcome
        (view_means Display place
        (view_text (E.shown (shown_by view.entry) Display plain_spec) Display plain_spec))
        (W.written out.old) (W.written out.new) (write_answered result) }
{
    match view {
        View::Text(text) => write_text_at::<W, E>(out, text, place),
        _ => write_displayed::<W, E>(out, view, place),
    }
}

/// Writes a text displayed plainly, with all its characters at one place.
#[inline(always)]
fn write_text_at<W: TextWrite, E: Escaper>(
    out: &mut W,
    text: &str,
    place: usize,
) -> Result<(), WriteFault>
    ensures outcome { Outcome
        (view_means Display place
        (view_text (E.shown (some_text (chars text.now)) Display plain_spec) Display plain_spec))
        (W.written out.old) (W.written out.new) (write_answered result) }
{
    match E::put_text(out, text) {
        Ok(()) => Ok(()),
        Err(fault) => Err(fault_at(fault, Trait::Display, place)),
    }
}

/// Writes a view displayed plainly, with all its characters at one place.
#[inline(always)]
fn write_displayed<W: TextWrite, E: Escaper>(
    out: &mut W,
    view: View<'_>,
    place: usize,
) -> Result<(), WriteFault>
    requires in_range { IsInRange (shown_by view) }
    ensures outcome { Outcome
        (view_means Display place
        (view_text (E.shown (shown_by view.entry) Display plain_spec) Display plain_spec))
        (W.written out.old) (W.written out.new) (write_answered result) }
{
    match E::put_plainly(out, view) {
        Ok(()) => Ok(()),
        Err(fault) => Err(fault_at(fault, Trait::Display, place)),
    }
}

/// Writes a text padded to the width, with all its characters at one place.
fn write_padded<W: TextWrite>(
    out: &mut W,
    text: &str,
    spec: &Spec,
    place: usize,
) -> Result<(), WriteFault>
    requires no_precision { spec.now.precision ≡ None }
    ensures outcome { Outcome (text_alone (placed_at place (padded_text spec.now (chars text.now))))
        (W.written out.old) (W.written out.new) (write_answered result) }
{
    match pad(out, text, spec) {
        Ok(()) => Ok(()),
        Err(_) => Err(WriteFault::Fmt(place)),
    }
}

/// Writes the value in a slot, under a trait and a spec, with all its characters at one place.
#[inline(always)]
pub fn write_shown<W: TextWrite, V: Value, E: Escaper>(
    out: &mut W,
    value: Option<&V>,
    wanted: Trait,
    spec: &Spec,
    place: usize,
) -> Result<(), WriteFault>
    ensures outcome { Outcome
        (value_means (shows_by E.shown V.shows) wanted spec.now place
        (option_copied value.entry))
        (W.written out.old) (W.written out.new) (write_answered result) }
{
    let Some(value) = value else {
        return Err(fault_at(RenderFault::NotImplemented, wanted, place));
    };
    write_view::<W, E>(out, value.view(wanted, spec), wanted, spec, place)
}

/// Writes the value in a slot, displayed plainly, with all its characters at one place.
#[inline(always)]
pub fn write_plain<W: TextWrite, V: Value, E: Escaper>(
    out: &mut W,
    value: Option<&V>,
    place: usize,
) -> Result<(), WriteFault>
    ensures outcome { Outcome
        (value_means (shows_by E.shown V.shows) Display plain_spec place
        (option_copied value.entry))
        (W.written out.old) (W.written out.new) (write_answered result) }
{
    let Some(value) = value else {
        return Err(fault_at(RenderFault::NotImplemented, Trait::Display, place));
    };
    let view = value.view(Trait::Display, &Spec::default());
    write_plain_view::<W, E>(out, view, place)
}

/// As [`write_plain`], by a call. A buffer is for lists under a width alone, and the code for it would
/// make that of each other list longer.
#[inline(never)]
fn write_plain_apart<W: TextWrite, V: Value, E: Escaper>(
    out: &mut W,
    value: Option<&V>,
    place: usize,
) -> Result<(), WriteFault>
    ensures outcome { Outcome
        (value_means (shows_by E.shown V.shows) Display plain_spec place
        (option_copied value.entry))
        (W.written out.old) (W.written out.new) (write_answered result) }
{
    write_plain::<W, V, E>(out, value, place)
}

/// Where text goes: to the writer, or into a buffer, for a list that is padded when it is whole.
pub enum Sink<'s, W> {
    Writer(&'s mut W),
    Buffer(&'s mut Bounded),
}

impl<'s, W> Sink<'s, W> {
    /// The writer that this sink was made of. A caller takes it back to end its own borrow.
    #[inline(always)]
    pub fn into_writer(self) -> &'s mut W
        requires writer { IsWriter self }
        ensures { self.entry ≡ Writer result }
    {
        match self {
            Sink::Writer(out) => out,
            Sink::Buffer(_) => unreachable!(),
        }
    }
}

impl<'s, W: TextWrite> Sink<'s, W> {
    /// Writes characters of the format from a place on, as one slice.
    #[inline(always)]
    pub fn put_run(&mut self, text: &str, place: usize) -> Result<(), WriteFault>
        requires fits { place + length text.now < 2 ^ 64 }
        ensures writes { Writes W.written (text_alone (placed_from place (chars text.now)))
            self.old self.new (write_answered result) }
    {
        match self {
            Sink::Writer(out) => write_run(&mut **out, text, place),
            Sink::Buffer(buffer) => write_run(&mut **buffer, text, place),
        }
    }

    /// Writes a text padded to the width, with all its characters at one place.
    pub fn put_padded(&mut self, text: &str, spec: &Spec, place: usize) -> Result<(), WriteFault>
        requires no_precision { spec.now.precision ≡ None }
        ensures writes { Writes W.written
            (text_alone (placed_at place (padded_text spec.now (chars text.now))))
            self.old self.new (write_answered result) }
    {
        match self {
            Sink::Writer(out) => write_padded(&mut **out, text, spec, place),
            Sink::Buffer(buffer) => write_padded(&mut **buffer, text, spec, place),
        }
    }

    /// Returns how many more bytes it can take at most: for a buffer what is left of it, and for a
    /// writer what that reports, or the greatest `usize` if it reports nothing.
    pub(crate) fn room(&self) -> usize
        ensures room { HasRoom W.limit self.now result }
    {
        match self {
            Sink::Writer(out) => out.room().unwrap_or(usize::MAX),
            Sink::Buffer(buffer) => buffer.left(),
        }
    }

    /// Writes the value in a slot, displayed plainly, with all its characters at one place.
    #[inline(always)]
    pub fn put_plain<V: Value, E: Escaper>(
        &mut self,
        value: Option<&V>,
        place: usize,
    ) -> Result<(), WriteFault>
        ensures writes { Writes W.written
            (value_means (shows_by E.shown V.shows) Display plain_spec place
            (option_copied value.entry))
            self.old self.new (write_answered result) }
    {
        match self {
            Sink::Writer(out) => write_plain::<W, V, E>(&mut **out, value, place),
            Sink::Buffer(buffer) => write_plain_apart::<Bounded, V, E>(&mut **buffer, value, place),
        }
    }
}
