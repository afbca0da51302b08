//! Formats of whole fields of CSV, checked.
ghost use Rattle.std.specs.Prelude.{◌≡◌, ◌<◌, IfOk, length, true};
ghost use Rattle.std.specs.Str.{chars};
ghost use Rattle.interpolator_render.specs.declared.view.Trait.TheVariants.{Display};
ghost use Rattle.interpolator_syntax.specs.Nodes.{as_forest, nodes};
ghost use Rattle.interpolator_syntax.specs.{Places.outermost, SpecTexts.plain_spec};
ghost use Rattle.interpolator_pieces.specs.Stored.{branch_of, detail_of, forest_whole, node_of};
ghost use Rattle.interpolator_pieces.specs.Stored.{node_whole, nodes_of};
ghost use Rattle.interpolator_pieces.specs.StoredLists.{is_list_form};
ghost use Rattle.interpolator_pieces.specs.declared.piece.Piece.TheViews.{out-Piece};
ghost use Rattle.interpolator_escapes.specs.CodeRecords.{AnswersAs, spot_of};
ghost use Rattle.interpolator_escapes.specs.RecordFormats.{after_forest, after_item, after_join};
ghost use Rattle.interpolator_escapes.specs.RecordFormats.{after_literal, after_node, and_then};
ghost use Rattle.interpolator_escapes.specs.RecordFormats.{covers, item_end, join_end, list_end};
ghost use Rattle.interpolator_escapes.specs.RecordFormats.{same_state, after_record, after_value};
ghost use Rattle.interpolator_escapes.specs.RecordFormats.{in_state, is_field_place};
ghost use Rattle.interpolator_escapes.specs.RecordFormats.{is_quoted_place, IsRecordAnswer};
ghost use Rattle.interpolator_escapes.specs.RecordFormats.{record_answer, spot_ending};
ghost use Rattle.interpolator_escapes.specs.{CodeReaders.csv_state, Placing.IfMisplaced};
ghost use Rattle.interpolator_escapes.specs.Csv.{field_start};

use crate::ending::Ending;
use crate::misplaced::{Misplaced, PlaceError, Why};
use crate::plain::{is_bare, is_debug};
use crate::readers::{CsvReader, csv_after, ends_field};
use interpolator_pieces::{Form, Piece, form_of, parse_pieces, spec_of, text_of};
use interpolator_render::{Spec, Trait};
use interpolator_syntax::Cursor;
use std::alloc::Global;

/// Where a record is after the pieces so far.
#[derive(Clone, Copy)]
pub(crate) enum Spot {
    /// In a state of its reader.
    InState(CsvReader),
    /// After the whole field that begins at this byte of the format.
    FieldEnd(usize),
}

/// What is told of a value at `place` that does not stand.
fn misplaced_at(place: usize) -> Misplaced
    ensures { result ≡ record { place = place; why = Why.Value } }
{
    Misplaced {
        place,
        why: Why::Value,
    }
}

/// Goes past a literal.
fn after_literal(spot: Spot, text: &str) -> Result<Spot, Misplaced>
    ensures { AnswersAs result (after_literal (spot_of spot) (chars text.now)) }
{
    match spot {
        Spot::InState(state) => Ok(Spot::InState(csv_after(state, text))),
        Spot::FieldEnd(place) => after_field(place, text),
    }
}

/// Goes past a literal behind the whole field that begins at `place`.
fn after_field(place: usize, text: &str) -> Result<Spot, Misplaced>
    ensures { AnswersAs result (after_literal (spot_of (Spot.FieldEnd place)) (chars text.now)) }
{
    match text.chars().next() {
        None => Ok(Spot::FieldEnd(place)),
        Some(c) => {
            if ends_field(c) {
                return Ok(Spot::InState(csv_after(CsvReader::QuoteSeen, text)));
            }
            Err(misplaced_at(place))
        }
    }
}

/// Tests whether a whole field may stand here.
fn is_field_place(spot: Spot, wanted: Trait, spec: &Spec) -> bool
    ensures { result ≡ is_field_place (spot_of spot) wanted spec.now }
{
    match spot {
        Spot::InState(CsvReader::FieldStart) => is_debug(wanted) && is_bare(spec),
        _ => false,
    }
}

/// Tests whether a value between quotes may stand here.
fn is_quoted_place(spot: Spot, wanted: Trait) -> bool
    ensures { result ≡ is_quoted_place (spot_of spot) wanted }
{
    match spot {
        Spot::InState(CsvReader::Quoted) => !is_debug(wanted),
        _ => false,
    }
}

/// Goes past a value that begins at `place`.
fn after_value(spot: Spot, wanted: Trait, spec: &Spec, place: usize) -> Result<Spot, Misplaced>
    ensures { AnswersAs result (after_value place (spot_of spot) wanted spec.now) }
{
    if is_field_place(spot, wanted, spec) {
        return Ok(Spot::FieldEnd(place));
    }
    if is_quoted_place(spot, wanted) {
        return Ok(spot);
    }
    Err(misplaced_at(place))
}

/// Goes past a value that begins at `place`, displayed plainly.
fn after_plain(spot: Spot, place: usize) -> Result<Spot, Misplaced>
    ensures { AnswersAs result (after_value place (spot_of spot) Display plain_spec) }
{
    after_value(spot, Trait::Display, &Spec::default(), place)
}

/// Tests whether two states are the same.
fn same_state(left: CsvReader, right: CsvReader) -> bool
    ensures { result ≡ same_state (csv_state left) (csv_state right) }
{
    match (left, right) {
        (CsvReader::FieldStart, CsvReader::FieldStart) => true,
        (CsvReader::Bare, CsvReader::Bare) => true,
        (CsvReader::Quoted, CsvReader::Quoted) => true,
        (CsvReader::QuoteSeen, CsvReader::QuoteSeen) => true,
        _ => false,
    }
}

/// Tests whether a reader that may be here may be there.
fn covers(there: Spot, here: Spot) -> bool
    ensures { result ≡ covers (spot_of there) (spot_of here) }
{
    match (there, here) {
        (Spot::InState(there), Spot::InState(here)) => same_state(there, here),
        (Spot::InState(_), Spot::FieldEnd(_)) => false,
        (Spot::FieldEnd(_), Spot::InState(here)) => !same_state(CsvReader::Quoted, here),
        (Spot::FieldEnd(_), Spot::FieldEnd(_)) => true,
    }
}

/// Requires that an item ends where a list without items does.
fn item_end(start: Spot, end: Spot, place: usize) -> Result<Spot, Misplaced>
    ensures { AnswersAs result (item_end place (spot_of start) (spot_of end)) }
{
    if covers(end, start) {
        return Ok(end);
    }
    Err(Misplaced {
        place,
        why: Why::Item,
    })
}

/// Requires that what is between two items ends where an item begins.
fn join_end(start: Spot, end: Spot, next: Spot, place: usize) -> Result<Spot, Misplaced>
    ensures { AnswersAs result (join_end place (spot_of start) (spot_of end) (spot_of next)) }
{
    if covers(start, next) {
        return Ok(end);
    }
    Err(Misplaced {
        place,
        why: Why::Join,
    })
}

/// Requires that a list has no width.
fn list_end(width: Option<usize>, end: Spot, place: usize) -> Result<Spot, Misplaced>
    ensures { AnswersAs result (list_end place width (spot_of end)) }
{
    match width {
        None => Ok(end),
        Some(_) => Err(misplaced_at(place)),
    }
}

/// Goes past pieces of a text, in order.
#[cycle(record)]
fn after_pieces(start: Spot, text: &str, pieces: &[Piece]) -> Result<Spot, Misplaced>
    requires whole { forest_whole (as_forest (nodes_of text.now pieces.now)) ≡ true }
    ensures { AnswersAs result
        (after_forest (spot_of start) (as_forest (nodes_of text.now pieces.now))) }
{
    let mut spot = start;
    for piece in pieces {
        spot = after_piece(spot, text, piece)?;
    }
    Ok(spot)
}

/// Goes past a piece.
#[cycle(record)]
fn after_piece(spot: Spot, text: &str, piece: &Piece) -> Result<Spot, Misplaced>
    requires whole { node_whole (node_of text.now piece.now) ≡ true }
    ensures { AnswersAs result (after_node (spot_of spot) (node_of text.now piece.now)) }
{
    match form_of(piece) {
        Form::Text => after_literal(spot, text_of(text, piece)),
        Form::Plain => after_plain(spot, piece.place),
        Form::Value(wanted) => after_value(spot, wanted, &spec_of(piece), piece.place),
        Form::List(_) => after_list(spot, text, piece),
        Form::Broken(_) => Ok(spot),
    }
}

/// Goes past a list.
#[cycle(record)]
fn after_list(start: Spot, text: &str, piece: &Piece) -> Result<Spot, Misplaced>
    requires whole { node_whole (node_of text.now piece.now) ≡ true }
    requires list { is_list_form (detail_of piece.now).form ≡ true }
    ensures { AnswersAs result (after_node (spot_of start) (node_of text.now piece.now)) }
{
    let end = after_item(start, text, piece)?;
    let next = after_join(start, end, text, piece)?;
    list_end(spec_of(piece).width, next, piece.place)
}

/// Goes past an item of a list.
#[cycle(record)]
fn after_item(start: Spot, text: &str, piece: &Piece) -> Result<Spot, Misplaced>
    requires whole { node_whole (node_of text.now piece.now) ≡ true }
    ensures { AnswersAs result (and_then
        (after_item (out-Piece piece.now).place (spot_of start)
        (branch_of text.now (out-Piece piece.now).item))
        (item_end (out-Piece piece.now).place (spot_of start))) }
{
    let end = match &piece.item {
        Some(pieces) => after_pieces(start, text, pieces)?,
        None => after_plain(start, piece.place)?,
    };
    item_end(start, end, piece.place)
}

/// Goes past what is between two items of a list that begins at `start`; an item ends at `end`.
#[cycle(record)]
fn after_join(start: Spot, end: Spot, text: &str, piece: &Piece) -> Result<Spot, Misplaced>
    requires whole { node_whole (node_of text.now piece.now) ≡ true }
    ensures { AnswersAs result (and_then
        (after_join (spot_of end) (branch_of text.now (out-Piece piece.now).join))
        (join_end (out-Piece piece.now).place (spot_of start) (spot_of end))) }
{
    match &piece.join {
        Some(pieces) => {
            let next = after_pieces(end, text, pieces)?;
            join_end(start, end, next, piece.place)
        }
        None => join_end(start, end, end, piece.place),
    }
}

/// Where a record is that began where a field does.
fn ending_of_spot(spot: Spot) -> Ending
    ensures { result ≡ spot_ending (spot_of spot) }
{
    match spot {
        Spot::InState(CsvReader::FieldStart) => Ending::Beginning,
        Spot::InState(CsvReader::Quoted) => Ending::Place,
        _ => Ending::Elsewhere,
    }
}

/// Checks that the values of a format, whose pieces are these, stand in records of CSV. Under `?` a
/// value is a whole field: it stands where a field begins, and a comma or the end of the record
/// comes after it. Any other value stands between double quotes. An item of a list ends where it
/// began; or it is a whole field, or several, and what is between two items ends where a field
/// begins. A list has no width. Returns where the format ends: `Beginning` is where a field begins.
///
/// # Errors
///
/// `Misplaced`: the first value or list that does not stand, and why.
///
/// # Example
///
/// ```text
/// check_record_pieces(text, &pieces)?;
/// // of `{name:?},"{city}"` and a newline: `Beginning`; of `{name:?};`: `Misplaced` at place 0
/// ```
pub fn check_record_pieces(text: &str, pieces: &[Piece]) -> Result<Ending, PlaceError>
    requires { nodes_of text.now pieces.now ≡ nodes (outermost (chars text.now)) }
    ensures { result ≡ record_answer (after_record (outermost (chars text.now))) }
{
    match after_pieces(Spot::InState(CsvReader::FieldStart), text, pieces) {
        Ok(spot) => Ok(ending_of_spot(spot)),
        Err(misplaced) => Err(PlaceError::Misplaced(misplaced)),
    }
}

/// Reads a format and checks it, as [`check_record_pieces`] does for one that was read.
///
/// # Errors
///
/// As for [`check_record_pieces`]; and `NoMemory` if there is none for the pieces of the format.
///
/// ```text
/// check_record(alloc, "{l:i({:?})(,)}\n")    // `Beginning`
/// ```
#[tactic(auto, using(interpolator_pieces::proofs::RunLemmas::format_stands))]
pub fn check_record(alloc: Global, text: &str) -> Result<Ending, PlaceError>
    ensures { IsRecordAnswer result (after_record (outermost (chars text.now))) }
{
    let start = Cursor {
        place: 0,
        rest: text,
    };
    let pieces = parse_pieces(alloc, start)?;
    check_record_pieces(text, &pieces)
}
