//! Text of several parts of a format.
ghost use Rattle.std.specs.Prelude.{◌≡◌, ◌+◌, ◌≤◌, ℕ, List, [], ◌∷◌, ◌++◌, IfOk, IsSome, Some};
ghost use Rattle.std.specs.Prelude.{length, string_bytes, take};
ghost use Rattle.std.specs.{List.All, Str.chars, Str.IsAscii, Str.IsUtf8};
ghost use Rattle.interpolator_syntax.specs.Places.{Placed, placed_at, placed_from};
ghost use Rattle.interpolator_eval.specs.{Meaning.Meanings.text_alone, Meaning.Outcomes.Outcome};
ghost use Rattle.interpolator_eval.specs.Meaning.Sinks.{write_answered};
ghost use Rattle.interpolator_prepared.specs.Programs.{text_step};
ghost use Rattle.interpolator_prepared.specs.StoredSteps.{joined_place, joined_step, joined_text};
ghost use Rattle.interpolator_prepared.specs.StoredSteps.{row_place, texts_placed};
ghost use Rattle.interpolator_pieces.specs.{Stored.part, StoredMeanings.stored_part};

use crate::step::{JoinedText, Part};
use interpolator_eval::WriteFault;
use interpolator_pieces::{Piece, cut, part_of};
use interpolator_render::TextWrite;
use std::alloc::{AllocError, Global};

/// No parts yet.
fn no_parts(alloc: Global) -> JoinedText
    ensures { joined_step result.parts.items (string_bytes result.text) ≡ Some (text_step []) }
{
    JoinedText {
        text: String::new(alloc),
        parts: Vec::new(alloc),
    }
}

/// Adds bytes of the format, from one up to another.
fn add_part(joined: &mut JoinedText, text: &str, from: usize, to: usize) -> Result<(), AllocError>
    requires fits { IsSome (part text.now from to) }
    ensures added { IfOk result (λ _. (cs : List ℕ) (placed : Placed)
        → part text.now from to ≡ Some cs
        → joined_step joined.old.parts.items (string_bytes joined.old.text) ≡ Some (text_step placed)
        → joined_step joined.new.parts.items (string_bytes joined.new.text)
        ≡ Some (text_step (placed ++ placed_from from cs))) }
{
    joined.text.push_str(cut(text, from, to))?;
    joined.parts.push(Part { from, to })?;
    Ok(())
}

/// Adds the text of pieces.
fn add_texts(joined: &mut JoinedText, text: &str, pieces: &[Piece]) -> Result<(), AllocError>
    requires fit { All (λ piece. IsSome (stored_part text.now piece)) pieces.now }
    ensures added { IfOk result (λ _. (placed : Placed)
        → joined_step joined.old.parts.items (string_bytes joined.old.text) ≡ Some (text_step placed)
        → joined_step joined.new.parts.items (string_bytes joined.new.text)
        ≡ Some (text_step (placed ++ texts_placed text.now pieces.now))) }
{
    for piece in pieces {
        let (from, to) = part_of(text, piece);
        add_part(joined, text, from, to)?;
    }
    Ok(())
}

/// The text of a piece and of those after it.
pub fn join(
    alloc: Global,
    text: &str,
    first: &Piece,
    rest: &[Piece],
) -> Result<Box<JoinedText>, AllocError>
    requires first { IsSome (stored_part text.now first.now) }
    requires rest { All (λ piece. IsSome (stored_part text.now piece)) rest.now }
    ensures joined { IfOk result (λ joined.
        joined_step joined.value.parts.items (string_bytes joined.value.text)
        ≡ Some (text_step (texts_placed text.now (first.now ∷ rest.now)))) }
{
    let mut joined = no_parts(alloc);
    let (from, to) = part_of(text, first);
    add_part(&mut joined, text, from, to)?;
    add_texts(&mut joined, text, rest)?;
    Ok(Box::new(alloc, joined)?)
}

/// The text of pieces.
pub fn join_texts(alloc: Global, text: &str, pieces: &[Piece]) -> Result<JoinedText, AllocError>
    requires fit { All (λ piece. IsSome (stored_part text.now piece)) pieces.now }
    ensures joined { IfOk result (λ joined.
        joined_text joined ≡ texts_placed text.now pieces.now) }
{
    let mut joined = no_parts(alloc);
    add_texts(&mut joined, text, pieces)?;
    Ok(joined)
}

/// The text of pieces between those before them and those after them.
pub fn join_around(
    alloc: Global,
    text: &str,
    before: &[Piece],
    pieces: &[Piece],
    after: &[Piece],
) -> Result<JoinedText, AllocError>
    requires before { All (λ piece. IsSome (stored_part text.now piece)) before.now }
    requires fit { All (λ piece. IsSome (stored_part text.now piece)) pieces.now }
    requires after { All (λ piece. IsSome (stored_part text.now piece)) after.now }
    ensures joined { IfOk result (λ joined. joined_text joined
        ≡ (texts_placed text.now before.now ++ texts_placed text.now pieces.now)
        ++ texts_placed text.now after.now) }
{
    let mut joined = no_parts(alloc);
    add_texts(&mut joined, text, before)?;
    add_texts(&mut joined, text, pieces)?;
    add_texts(&mut joined, text, after)?;
    Ok(joined)
}

/// The place in the format of a byte of joined parts, which is needed only once a byte is refused.
#[cold]
#[inline(never)]
fn place_of(parts: &[Part], offset: usize) -> usize
    ensures { result ≡ joined_place parts.now offset }
{
    let mut left = offset;
    for part in parts {
        let size = part.to.saturating_sub(part.from);
        if left < size {
            return part.from + left;
        }
        left -= size;
    }
    left
}

/// Writes text of several parts.
#[inline(always)]
pub fn put_joined<W: TextWrite>(out: &mut W, joined: &JoinedText) -> Result<(), WriteFault>
    ensures outcome { Outcome
        (text_alone (joined_text joined.now))
        (W.written out.old) (W.written out.new) (write_answered result) }
{
    match out.write_str(joined.text.as_str()) {
        Ok(()) => Ok(()),
        Err(refusal) => Err(WriteFault::Fmt(place_of(&joined.parts, refusal.taken))),
    }
}

/// The place in the format of a byte of joined text, or of the value behind it, which is at `end`.
#[cold]
#[inline(never)]
fn place_behind(joined: &JoinedText, offset: usize, end: usize) -> usize
    ensures { result ≡ row_place joined.now.parts.items (length (string_bytes joined.now.text)) end
        offset }
{
    if offset < joined.text.len() {
        return place_of(&joined.parts, offset);
    }
    end
}

/// Writes joined text and the value behind it, the first `count` bytes of a row, by one call of the
/// writer.
#[inline(always)]
pub fn put_row<W: TextWrite>(
    out: &mut W,
    joined: &JoinedText,
    row: &[u8; 16],
    count: usize,
    end: usize,
) -> Result<(), WriteFault>
    requires fits { count ≤ 16 }
    requires utf8 { IsUtf8 (take count row.now) }
    ensures outcome { (digits : List ℕ) → IsAscii digits
        → take count row.now ≡ string_bytes joined.now.text ++ digits
        → Outcome (text_alone (joined_text joined.now ++ placed_at end digits))
        (W.written out.old) (W.written out.new) (write_answered result) }
{
    match out.write_short(row, count) {
        Ok(()) => Ok(()),
        Err(refusal) => Err(WriteFault::Fmt(place_behind(joined, refusal.taken, end))),
    }
}
