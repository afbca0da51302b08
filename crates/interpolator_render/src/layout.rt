//! A text in parts, written one after the other.
ghost use Rattle.std.specs.Prelude.{◌≡◌, ◌∷◌, ◌-◌, ◌^◌, [], ◌≤◌, min};
ghost use Rattle.std.specs.Str.{chars, IsAscii};
ghost use Rattle.interpolator_render.specs.Layout.{part_text, text_of_parts};
ghost use Rattle.interpolator_render.specs.Padding.{fill_before, fill_of};
ghost use Rattle.interpolator_render.specs.Writers.{Puts, byte_count};

use crate::copies::{copies_len, put_copies};
use crate::text_write::{Refusal, TextWrite};
use crate::view::{Alignment, Spec};

/// A part of a text.
#[derive(Clone, Copy)]
pub(crate) enum Part<'a> {
    Text(&'a str),
    /// This many copies of a character.
    Copies(char, usize),
}

/// Writes one character.
#[tactic(auto, using(crate::proofs::LayoutLemmas::one_write))]
#[inline(always)]
pub(crate) fn put_char<W: TextWrite>(out: &mut W, c: char) -> Result<(), Refusal>
    ensures { Puts (W.written out.old) (c ∷ []) result (W.written out.new) }
{
    out.write_char(c)
}

/// Writes a text by one call, or by none if it is empty.
#[tactic(auto, using(crate::proofs::LayoutLemmas::one_write))]
#[inline(always)]
pub(crate) fn put_text<W: TextWrite>(out: &mut W, text: &str) -> Result<(), Refusal>
    ensures { Puts (W.written out.old) (chars text.now) result (W.written out.new) }
{
    if text.is_empty() {
        return Ok(());
    }
    out.write_str(text)
}

/// Writes an ASCII text, whose bytes are its characters, by one call.
#[tactic(auto, using(crate::proofs::LayoutLemmas::one_write))]
#[inline(always)]
pub(crate) fn put_ascii<W: TextWrite>(out: &mut W, text: &str) -> Result<(), Refusal>
    requires { IsAscii text.now }
    ensures { Puts (W.written out.old) text.now result (W.written out.new) }
{
    out.write_str(text)
}

#[tactic(auto, using(crate::proofs::LayoutLemmas::one_write))]
pub(crate) fn byte_len(text: &str) -> usize
    ensures { result ≡ byte_count (chars text.now) }
{
    text.len()
}

impl Part<'_> {
    #[inline(always)]
    fn put<W: TextWrite>(self, out: &mut W) -> Result<(), Refusal>
        ensures { Puts (W.written out.old) (part_text self.entry) result (W.written out.new) }
    {
        match self {
            Part::Text(text) => put_text(out, text),
            Part::Copies(c, count) => put_copies(out, c, count),
        }
    }

    /// The bytes of the part, or the greatest `usize` if they are more.
    fn len(self) -> usize
        ensures { result ≡ min (byte_count (part_text self.entry)) (2 ^ 64 - 1) }
    {
        match self {
            Part::Text(text) => byte_len(text),
            Part::Copies(c, count) => copies_len(c, count),
        }
    }
}

/// Writes the parts in order, up to the first that the writer refuses.
#[inline(always)]
pub(crate) fn put_parts<W: TextWrite>(out: &mut W, parts: &[Part<'_>]) -> Result<(), Refusal>
    ensures { Puts (W.written out.old) (text_of_parts parts.now) result (W.written out.new) }
{
    let mut done = 0usize;
    for part in parts {
        if let Err(refusal) = part.put(out) {
            let taken = done.saturating_add(refusal.taken);
            return Err(Refusal { taken });
        }
        done = done.saturating_add(part.len());
    }
    Ok(())
}

/// The character that pads.
pub(crate) fn fill_char(spec: &Spec) -> char
    ensures { result ≡ fill_of spec.now }
{
    spec.fill.unwrap_or(' ')
}

/// How many of the missing characters go before a text: `unset` of them without alignment.
pub(crate) fn fill_before(alignment: Alignment, missing: usize, unset: usize) -> usize
    requires { unset ≤ missing }
    ensures before { result ≡ fill_before alignment missing unset }
    ensures within { result ≤ missing }
{
    match alignment {
        Alignment::Unset => unset,
        Alignment::Left => 0,
        Alignment::Center => missing / 2,
        Alignment::Right => missing,
    }
}
