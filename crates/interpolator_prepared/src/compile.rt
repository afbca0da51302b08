//! Turns the pieces of a format into steps, for names in order.
ghost use Rattle.std.specs.Prelude.{◌≡◌, ◌<◌, ◌≤◌, ℕ, List, [], ◌∷◌, ◌++◌, IfOk, flat_map};
ghost use Rattle.std.specs.Prelude.{IsSome, Some, length, map, true};
ghost use Rattle.std.specs.List.{All};
ghost use Rattle.std.specs.Str.{encode_utf8_all};
ghost use Rattle.interpolator_syntax.specs.Nodes.{as_forest};
ghost use Rattle.interpolator_prepared.specs.Programs.{argument_step, node_position, program};
ghost use Rattle.interpolator_prepared.specs.Programs.{text_step, value_step, whole_step};
ghost use Rattle.interpolator_prepared.specs.Rows.{HasPositions, last_position, name_bytes};
ghost use Rattle.interpolator_prepared.specs.StoredSteps.{first_step, is_text, kept_step, step_of};
ghost use Rattle.interpolator_prepared.specs.StoredSteps.{steps_of};
ghost use Rattle.interpolator_prepared.specs.StoredSteps.{text_count, texts_after, texts_placed};
ghost use Rattle.interpolator_pieces.specs.Stored.{detail_of, forest_whole, node_of, node_whole, nodes_of};
ghost use Rattle.interpolator_pieces.specs.StoredMeanings.{stored_name, stored_part};
ghost use Rattle.interpolator_pieces.specs.declared.piece.Form.TheVariants as forms;

use crate::joined::join;
use crate::lists::{list_pieces, made_list};
use crate::name_index::{FEW, NameIndex, Names, positions_of};
use crate::step::{Part, Step, ValueSpec};
use interpolator_pieces::{
    Form, Piece, copy_piece, form_of, part_of, spec_end_of, spec_of, text_of,
};
use interpolator_render::Trait;
use interpolator_syntax::{PieceKind, Range};
use std::alloc::{AllocError, Global};
use std::collections::HashMap;

/// The most steps for which room is made at the beginning: half as many as there are pieces, since
/// most have text before a value.
const MOST_ROOM: usize = 64;

/// The steps of the pieces of a text.
pub fn compile(
    alloc: Global,
    text: &str,
    names: &[String],
    pieces: &[Piece],
) -> Result<Vec<Step>, AllocError>
    requires whole { forest_whole (as_forest (nodes_of text.now pieces.now)) ≡ true }
    ensures program { IfOk result (λ made. flat_map (steps_of text.now) made.items
        ≡ map Some (program (name_bytes names.now) (nodes_of text.now pieces.now))) }
{
    if names.len() <= FEW {
        return compile_by(alloc, text, names, pieces);
    }
    compile_many(alloc, text, names, pieces)
}

/// As [`compile`], for many names: each is put into a map first. It stays out of the way of few.
#[cold]
#[inline(never)]
fn compile_many(
    alloc: Global,
    text: &str,
    names: &[String],
    pieces: &[Piece],
) -> Result<Vec<Step>, AllocError>
    requires whole { forest_whole (as_forest (nodes_of text.now pieces.now)) ≡ true }
    ensures program { IfOk result (λ made. flat_map (steps_of text.now) made.items
        ≡ map Some (program (name_bytes names.now) (nodes_of text.now pieces.now))) }
{
    let positions = positions_of(alloc, names)?;
    compile_mapped(alloc, text, names, &positions, pieces)
}

/// The steps of the pieces of a text, for names whose last positions are in a map.
fn compile_mapped(
    alloc: Global,
    text: &str,
    names: &[String],
    positions: &HashMap<&str, usize>,
    pieces: &[Piece],
) -> Result<Vec<Step>, AllocError>
    requires positions { HasPositions (name_bytes names.now) positions.now }
    requires whole { forest_whole (as_forest (nodes_of text.now pieces.now)) ≡ true }
    ensures program { IfOk result (λ made. flat_map (steps_of text.now) made.items
        ≡ map Some (program (name_bytes names.now) (nodes_of text.now pieces.now))) }
{
    compile_by(alloc, text, &NameIndex::new(names, positions), pieces)
}

/// The steps of the pieces of a text, for names that are found by a map or by a search.
fn compile_by<N: Names>(
    alloc: Global,
    text: &str,
    names: N,
    pieces: &[Piece],
) -> Result<Vec<Step>, AllocError>
    requires whole { forest_whole (as_forest (nodes_of text.now pieces.now)) ≡ true }
    ensures program { IfOk result (λ made. flat_map (steps_of text.now) made.items
        ≡ map Some (program (N.known names) (nodes_of text.now pieces.now))) }
{
    let mut made = Vec::with_capacity(alloc, (pieces.len() / 2 + 1).min(MOST_ROOM))?;
    let mut left = pieces;
    while !left.is_empty() {
        left = add_first(alloc, text, names, &mut made, left)?;
    }
    Ok(made)
}

/// Adds the step of the first piece, with the text after it if it is text, and with the argument
/// after that. Returns the pieces that are left.
fn add_first<'p, N: Names>(
    alloc: Global,
    text: &str,
    names: N,
    made: &mut Vec<Step>,
    pieces: &'p [Piece],
) -> Result<&'p [Piece], AllocError>
    requires whole { forest_whole (as_forest (nodes_of text.now pieces.now)) ≡ true }
    ensures whole { IfOk result (λ left.
        forest_whole (as_forest (nodes_of text.now left.now)) ≡ true) }
    ensures shorter { 0 < length pieces.now
        → IfOk result (λ left. length left.now < length pieces.now) }
    ensures added { IfOk result (λ left. flat_map (steps_of text.now) made.new.items
        ++ map Some (program (N.known names) (nodes_of text.now left.now))
        ≡ flat_map (steps_of text.now) made.old.items
        ++ map Some (program (N.known names) (nodes_of text.now pieces.now))) }
{
    let Some((piece, after)) = pieces.split_first() else {
        return Ok(pieces);
    };
    let (texts, rest) = after.split_at(texts_after(piece, after));
    let step = first_step(alloc, text, names, piece, texts)?;
    if is_text(piece) {
        if let Some((next, left)) = rest.split_first() {
            let argument = argument_step(alloc, text, names, next)?;
            push_pair(made, step, argument)?;
            return Ok(left);
        }
    }
    push_step(made, step)?;
    Ok(rest)
}

/// Whether a piece is text.
fn is_text(piece: &Piece) -> bool
    ensures { result ≡ is_text piece.now }
{
    match form_of(piece) {
        Form::Text => true,
        _ => false,
    }
}

/// How many pieces of text follow a piece, if that is text too.
fn texts_after(piece: &Piece, after: &[Piece]) -> usize
    ensures count { result ≡ texts_after piece.now after.now }
    ensures within { result ≤ length after.now }
{
    if !is_text(piece) {
        return 0;
    }
    text_count(after)
}

/// How many pieces of text are at the beginning of some pieces.
pub fn text_count(pieces: &[Piece]) -> usize
    ensures { result ≡ text_count pieces.now }
{
    let mut count = 0usize;
    for piece in pieces {
        if !is_text(piece) {
            return count;
        }
        count += 1;
    }
    count
}

/// Adds a step.
fn push_step(made: &mut Vec<Step>, step: Step) -> Result<(), AllocError>
    ensures pushed { IfOk result (λ _. (bs : List ℕ) → flat_map (steps_of bs) made.new.items
        ≡ flat_map (steps_of bs) made.old.items ++ steps_of bs step) }
{
    made.reserve(1)?;
    made.push_reserved(step);
    Ok(())
}

/// Adds two steps, as one if there is one for both.
#[inline(always)]
fn push_pair(made: &mut Vec<Step>, first: Step, second: Step) -> Result<(), AllocError>
    ensures pushed { IfOk result (λ _. (bs : List ℕ) → flat_map (steps_of bs) made.new.items
        ≡ flat_map (steps_of bs) made.old.items ++ (steps_of bs first ++ steps_of bs second)) }
{
    match (first, second) {
        (Step::Literal(from, to), Step::Plain(position, end)) => {
            push_step(made, Step::LiteralPlain(Part { from, to }, position, end))
        }
        (Step::Literal(from, to), Step::Value(position, asked)) => {
            push_step(made, Step::LiteralValue(Part { from, to }, position, asked))
        }
        (Step::Joined(joined), Step::Plain(position, end)) => {
            push_step(made, Step::JoinedPlain(joined, position, end))
        }
        (first, second) => {
            push_step(made, first)?;
            push_step(made, second)
        }
    }
}

/// The step of a piece, and of the text after it if it is text.
#[inline(always)]
fn first_step<N: Names>(
    alloc: Global,
    text: &str,
    names: N,
    piece: &Piece,
    texts: &[Piece],
) -> Result<Step, AllocError>
    requires whole { node_whole (node_of text.now piece.now) ≡ true }
    requires texts { All (λ piece. IsSome (stored_part text.now piece)) texts.now }
    ensures step { IfOk result (λ step. step_of text.now step
        ≡ Some (first_step text.now (N.known names) piece.now texts.now)) }
{
    if is_text(piece) {
        return text_step(alloc, text, piece, texts);
    }
    argument_step(alloc, text, names, piece)
}

/// The step of a piece of text, and of the text after it.
#[inline(always)]
fn text_step(alloc: Global, text: &str, piece: &Piece, texts: &[Piece]) -> Result<Step, AllocError>
    requires first { IsSome (stored_part text.now piece.now) }
    requires texts { All (λ piece. IsSome (stored_part text.now piece)) texts.now }
    ensures step { IfOk result (λ step. step_of text.now step
        ≡ Some (text_step (texts_placed text.now (piece.now ∷ texts.now)))) }
{
    if texts.is_empty() {
        let (from, to) = part_of(text, piece);
        return Ok(Step::Literal(from, to));
    }
    Ok(Step::Joined(join(alloc, text, piece, texts)?))
}

/// The step of an argument: the value at the position of its name, or a copy of its piece.
#[inline(always)]
fn argument_step<N: Names>(
    alloc: Global,
    text: &str,
    names: N,
    piece: &Piece,
) -> Result<Step, AllocError>
    requires whole { node_whole (node_of text.now piece.now) ≡ true }
    ensures step { IfOk result (λ step. let x = node_of text.now piece.now in
        let known = N.known names in
        step_of text.now step ≡ Some (argument_step known (node_position known x) x)) }
{
    match position_of(text, names, piece) {
        Some(position) => match form_of(piece) {
            Form::Plain => Ok(Step::Plain(position, spec_end_of(piece))),
            Form::Value(t) => under(alloc, position, t, piece),
            Form::Text => kept(alloc, piece),
            Form::List(_) => kept(alloc, piece),
            Form::Broken(_) => kept(alloc, piece),
        },
        None => whole_step(alloc, text, piece),
    }
}

/// The step of a piece that has no position: a list's, or a copy of the piece.
fn whole_step(alloc: Global, text: &str, piece: &Piece) -> Result<Step, AllocError>
    requires whole { node_whole (node_of text.now piece.now) ≡ true }
    ensures step { IfOk result (λ step. step_of text.now step
        ≡ Some (whole_step (node_of text.now piece.now))) }
{
    match form_of(piece) {
        Form::List(range) => list_step(alloc, text, piece, range),
        _ => kept(alloc, piece),
    }
}

/// The step of a list: one of its own if its items are one value each, between texts, and its join
/// is text; else a copy of its piece.
fn list_step(
    alloc: Global,
    text: &str,
    piece: &Piece,
    range: Option<Range>,
) -> Result<Step, AllocError>
    requires whole { node_whole (node_of text.now piece.now) ≡ true }
    requires list { (detail_of piece.now).form ≡ forms.List range }
    ensures step { IfOk result (λ step. step_of text.now step
        ≡ Some (whole_step (node_of text.now piece.now))) }
{
    match list_pieces(text, piece) {
        Some(pieces) => {
            let list = made_list(alloc, text, piece, range, pieces)?;
            Ok(Step::List(Box::new(alloc, list)?))
        }
        None => kept(alloc, piece),
    }
}

/// The value at a position, under a trait and the spec of a piece.
fn under(alloc: Global, position: usize, t: Trait, piece: &Piece) -> Result<Step, AllocError>
    ensures step { IfOk result (λ step. (bs : List ℕ) → step_of bs step
        ≡ Some (value_step position t (detail_of piece.now).spec (detail_of piece.now).spec_end)) }
{
    let asked = ValueSpec {
        slot: t,
        spec: spec_of(piece),
        end: spec_end_of(piece),
    };
    Ok(Step::Value(position, Box::new(alloc, asked)?))
}

/// The step of a piece of which a copy is kept.
fn kept(alloc: Global, piece: &Piece) -> Result<Step, AllocError>
    ensures step { IfOk result (λ step. (bs : List ℕ)
        → step_of bs step ≡ kept_step (node_of bs piece.now)) }
{
    let copy = copy_piece(alloc, piece)?;
    Ok(Step::Kept(Box::new(alloc, copy)?))
}

/// The position of the name of a closed argument that asks for a value, if it is one of the names.
fn position_of<N: Names>(text: &str, names: N, piece: &Piece) -> Option<usize>
    requires whole { node_whole (node_of text.now piece.now) ≡ true }
    ensures { result ≡ node_position (N.known names) (node_of text.now piece.now) }
{
    match piece.kind {
        PieceKind::Closed => match form_of(piece) {
            Form::Plain => position_in(text, names, piece),
            Form::Value(_) => position_in(text, names, piece),
            Form::Text => None,
            Form::List(_) => None,
            Form::Broken(_) => None,
        },
        PieceKind::Literal => None,
        PieceKind::Doubled => None,
        PieceKind::LoneClose => None,
        PieceKind::Unclosed => None,
        PieceKind::Broken => None,
    }
}

/// The position of the name of an argument, if it is one of the names.
fn position_in<N: Names>(text: &str, names: N, piece: &Piece) -> Option<usize>
    requires fits { IsSome (stored_name text.now piece.now) }
    ensures position { (name : List ℕ) → stored_name text.now piece.now ≡ Some name
        → result ≡ last_position (N.known names) (encode_utf8_all name) }
{
    names.find(text_of(text, piece))
}
