//! Whether the values of a format stand in places of a reader.
ghost use Rattle.std.specs.Prelude.{◌≡◌, ◌↔◌, ◌<◌, ◌∷◌, [], IfOk, IsTrue, length, true};
ghost use Rattle.std.specs.Str.{chars};
ghost use Rattle.interpolator_render.specs.Padding.{fill_of};
ghost use Rattle.interpolator_render.specs.declared.view.Trait.TheVariants.{Display};
ghost use Rattle.interpolator_syntax.specs.Nodes.{as_forest, nodes};
ghost use Rattle.interpolator_syntax.specs.{Places.outermost, SpecTexts.plain_spec};
ghost use Rattle.interpolator_pieces.specs.Stored.{branch_of, detail_of, forest_whole, node_of};
ghost use Rattle.interpolator_pieces.specs.Stored.{node_whole, nodes_of};
ghost use Rattle.interpolator_pieces.specs.StoredLists.{is_list_form};
ghost use Rattle.interpolator_pieces.specs.declared.piece.Piece.TheViews.{out-Piece};
ghost use Rattle.interpolator_escapes.specs.Formats.{FillStays, ForestStands, NodeStands, Stands};
ghost use Rattle.interpolator_escapes.specs.Formats.{Stays};
ghost use Rattle.interpolator_escapes.specs.Placing.{Ends, EndsElsewhere, Fails, FillFails};
ghost use Rattle.interpolator_escapes.specs.Placing.{FillPlaced, IsEnding, ForestFails};
ghost use Rattle.interpolator_escapes.specs.Placing.{ForestPlaced, ItemPlaced, JoinPlaced};
ghost use Rattle.interpolator_escapes.specs.Placing.{NodeFails, NodePlaced, Placed, IfMisplaced};
ghost use Rattle.interpolator_escapes.specs.Placing.{ValueFails};
ghost use Rattle.interpolator_escapes.specs.Readers.{state_after};

use crate::ending::Ending;
use crate::misplaced::{Misplaced, PlaceError, Why};
use crate::readers::Reader;
use interpolator_pieces::{Form, Piece, form_of, spec_of, text_of};
use interpolator_render::{Spec, Trait};
use std::alloc::AllocError;

/// Reads a literal.
fn read_text<R: Reader>(reader: &mut R, text: &str) -> Result<(), PlaceError>
    ensures { Placed (R.state reader.new ≡ state_after R.step (R.state reader.old) (chars text.now))
        (λ _. ⊥) result }
{
    for c in text.chars() {
        reader.read(c)?;
    }
    Ok(())
}

/// Tests whether a reader stays where it is over a character, and reads no structure.
#[tactic(auto, using(crate::proofs::PlacingLemmas::structured, crate::proofs::PlacingLemmas::quiet))]
fn stays<R: Reader>(reader: &R, c: char) -> Result<bool, AllocError>
    ensures { IfOk result (λ stays. IsTrue stays
        ↔ Stays R.step (R.state reader.now) (c ∷ [])) }
{
    let mut after = reader.copied()?;
    if after.read(c)? {
        return Ok(false);
    }
    Ok(after.is_at(reader))
}

/// Requires that a value which begins at `place`, shown under a trait and a spec, stands here.
fn place_value<R: Reader>(
    reader: &R,
    wanted: Trait,
    spec: &Spec,
    place: usize,
) -> Result<(), PlaceError>
    ensures { Placed (R.places (R.state reader.now) wanted spec.now ≡ true)
        (ValueFails R.step R.places place (R.state reader.now) wanted spec.now) result }
{
    if reader.is_place(wanted, spec) {
        return Ok(());
    }
    Err(PlaceError::Misplaced(Misplaced {
        place,
        why: Why::Value,
    }))
}

/// Requires that a value which begins at `place`, displayed plainly, stands here.
fn place_plain<R: Reader>(reader: &R, place: usize) -> Result<(), PlaceError>
    ensures { Placed (R.places (R.state reader.now) Display plain_spec ≡ true)
        (ValueFails R.step R.places place (R.state reader.now) Display plain_spec) result }
{
    place_value(reader, Trait::Display, &Spec::default(), place)
}

/// Requires that a reader is where it was before the pieces of a group.
fn require_at<R: Reader>(reader: &R, before: &R, place: usize, why: Why) -> Result<(), PlaceError>
    ensures { Placed (R.state reader.now ≡ R.state before.now) (λ m.
        (R.state reader.now ≡ R.state before.now → ⊥) × (m ≡ record { place = place; why = why }))
        result }
{
    if reader.is_at(before) {
        return Ok(());
    }
    Err(PlaceError::Misplaced(Misplaced { place, why }))
}

/// Requires that the character that pads a list at `place` stays.
fn place_padding<R: Reader>(reader: &R, c: char, place: usize) -> Result<(), PlaceError>
    ensures { Placed (Stays R.step (R.state reader.now) (c ∷ [])) (λ m.
        (Stays R.step (R.state reader.now) (c ∷ []) → ⊥)
        × (m ≡ record { place = place; why = Why.Fill })) result }
{
    if stays(reader, c)? {
        return Ok(());
    }
    Err(PlaceError::Misplaced(Misplaced {
        place,
        why: Why::Fill,
    }))
}

/// Requires that the fill of a list at `place` stays, if it has a width.
fn place_fill<R: Reader>(reader: &R, spec: &Spec, place: usize) -> Result<(), PlaceError>
    ensures { FillPlaced R.step R.places place (R.state reader.now) spec.now result }
{
    match spec.width {
        Some(_) => place_padding(reader, spec.fill.unwrap_or(' '), place),
        None => Ok(()),
    }
}

/// Goes through pieces of a text, in order, and requires that their values stand.
#[cycle(placing)]
fn place_all<R: Reader>(reader: &mut R, text: &str, pieces: &[Piece]) -> Result<(), PlaceError>
    requires whole { forest_whole (as_forest (nodes_of text.now pieces.now)) ≡ true }
    ensures reported { ForestPlaced R.step R.places (R.state reader.old)
        (as_forest (nodes_of text.now pieces.now)) (R.state reader.new) result }
    ensures within { IfMisplaced result (λ m. m.place < length text.now) }
{
    for piece in pieces {
        place_piece(reader, text, piece)?;
    }
    Ok(())
}

/// Goes through a piece: text is read, a value wants a place.
#[cycle(placing)]
fn place_piece<R: Reader>(reader: &mut R, text: &str, piece: &Piece) -> Result<(), PlaceError>
    requires whole { node_whole (node_of text.now piece.now) ≡ true }
    ensures reported { NodePlaced R.step R.places (R.state reader.old) (node_of text.now piece.now)
        (R.state reader.new) result }
    ensures within { IfMisplaced result (λ m. m.place < length text.now) }
{
    match form_of(piece) {
        Form::Text => read_text(reader, text_of(text, piece)),
        Form::Plain => place_plain(reader, piece.place),
        Form::Value(wanted) => place_value(reader, wanted, &spec_of(piece), piece.place),
        Form::List(_) => place_list(reader, text, piece),
        Form::Broken(_) => Ok(()),
    }
}

/// Requires of a list that its item and its join end where they begin, and that its fill stays.
#[cycle(placing)]
fn place_list<R: Reader>(reader: &R, text: &str, piece: &Piece) -> Result<(), PlaceError>
    requires whole { node_whole (node_of text.now piece.now) ≡ true }
    requires list { is_list_form (detail_of piece.now).form ≡ true }
    requires within { (out-Piece piece.now).place < length text.now }
    ensures reported { NodePlaced R.step R.places (R.state reader.now) (node_of text.now piece.now)
        (R.state reader.now) result }
    ensures within { IfMisplaced result (λ m. m.place < length text.now) }
{
    place_item(reader, text, piece)?;
    place_join(reader, text, piece)?;
    place_fill(reader, &spec_of(piece), piece.place)
}

/// Requires that an item ends where it begins, or stands if it has no format.
#[cycle(placing)]
fn place_item<R: Reader>(reader: &R, text: &str, piece: &Piece) -> Result<(), PlaceError>
    requires whole { node_whole (node_of text.now piece.now) ≡ true }
    requires within { (out-Piece piece.now).place < length text.now }
    ensures reported { ItemPlaced R.step R.places (out-Piece piece.now).place (R.state reader.now)
        (branch_of text.now (out-Piece piece.now).item) result }
    ensures within { IfMisplaced result (λ m. m.place < length text.now) }
{
    match &piece.item {
        Some(pieces) => {
            let mut inner = reader.copied()?;
            place_all(&mut inner, text, pieces)?;
            require_at(&inner, reader, piece.place, Why::Item)
        }
        None => place_plain(reader, piece.place),
    }
}

/// Requires that a join ends where it begins, if there is one.
#[cycle(placing)]
fn place_join<R: Reader>(reader: &R, text: &str, piece: &Piece) -> Result<(), PlaceError>
    requires whole { node_whole (node_of text.now piece.now) ≡ true }
    requires within { (out-Piece piece.now).place < length text.now }
    ensures reported { JoinPlaced R.step R.places (out-Piece piece.now).place (R.state reader.now)
        (branch_of text.now (out-Piece piece.now).join) result }
    ensures within { IfMisplaced result (λ m. m.place < length text.now) }
{
    match &piece.join {
        Some(pieces) => {
            let mut inner = reader.copied()?;
            place_all(&mut inner, text, pieces)?;
            require_at(&inner, reader, piece.place, Why::Join)
        }
        None => Ok(()),
    }
}

/// Where a reader is that began as `start`.
fn ending_between<R: Reader>(start: &R, reader: &R) -> Ending
    ensures { IsEnding R.step R.places (R.state start.now) (R.state reader.now) result }
{
    if reader.is_at(start) {
        return Ending::Beginning;
    }
    if reader.is_place(Trait::Display, &Spec::default()) {
        return Ending::Place;
    }
    Ending::Elsewhere
}

/// Requires that the values of a format, whose pieces are these, stand in places of a reader that
/// begins as `start`: each value in a place, each item and join ending where it began, and the fill
/// of a padded list no structure. Returns where the reader is after the format.
///
/// # Errors
///
/// - `Misplaced`: the first value or list that does not stand, and why.
/// - `NoMemory`: the reader had no memory for a name.
///
/// ```text
/// check_stands(&CsvReader::FieldStart, text, &pieces)?;
/// // of `"{a}","{b}"` and a newline: `Beginning`; without the newline: `Elsewhere`
/// ```
pub fn check_stands<R: Reader>(
    start: &R,
    text: &str,
    pieces: &[Piece],
) -> Result<Ending, PlaceError>
    requires { nodes_of text.now pieces.now ≡ nodes (outermost (chars text.now)) }
    ensures stands { IfOk result (λ _. (t : R.State)
        × Stands R.step R.places (R.state start.now) (outermost (chars text.now)) t) }
    ensures ends { IfOk result
        (Ends R.step R.places (R.state start.now) (outermost (chars text.now))) }
    ensures refused { IfMisplaced result (λ m. (t : R.State)
        → Stands R.step R.places (R.state start.now) (outermost (chars text.now)) t → ⊥) }
    ensures first { IfMisplaced result
        (Fails R.step R.places (R.state start.now) (outermost (chars text.now))) }
    ensures within { IfMisplaced result (λ m. m.place < length text.now) }
{
    let mut reader = start.copied()?;
    place_all(&mut reader, text, pieces)?;
    Ok(ending_between(start, &reader))
}
