//! Turns lists of a format into steps, if their items are one value each, between texts.
ghost use Rattle.std.specs.Prelude.{◌≡◌, ◌+◌, ⊤, ℕ, List, IfOk, IsSome, MatchOption, Some, false};
ghost use Rattle.std.specs.Prelude.{is_some, true};
ghost use Rattle.interpolator_syntax.specs.Nodes.{argument_content, as_forest, no_branch};
ghost use Rattle.interpolator_syntax.specs.Nodes.{target_value};
ghost use Rattle.interpolator_syntax.specs.declared.piece_kind.PieceKind.TheVariants.{Closed};
ghost use Rattle.interpolator_prepared.specs.Items.{in_item, item_parts, join_parts, parts_by};
ghost use Rattle.interpolator_prepared.specs.SimpleLists.{IsItem, IsItems, IsJoin, IsSimple};
ghost use Rattle.interpolator_prepared.specs.{Programs.whole_step, StoredSteps.compiled_list};
ghost use Rattle.interpolator_pieces.specs.Stored.{branch_of, content_of, detail_of, forest_whole};
ghost use Rattle.interpolator_pieces.specs.Stored.{node_of, node_whole, nodes_of};
ghost use Rattle.interpolator_pieces.specs.StoredMeanings.{stored_name};
ghost use Rattle.interpolator_pieces.specs.declared.piece.Form.TheVariants as forms;
ghost use Rattle.interpolator_pieces.specs.declared.piece.Piece.TheViews.{out-Piece};

use crate::compile::text_count;
use crate::joined::{join_around, join_texts};
use crate::step::{ListStep, Part, ValueSpec};
use interpolator_pieces::{Form, Piece, form_of, name_of, part_of, spec_end_of, spec_of};
use interpolator_render::{Spec, Trait};
use interpolator_syntax::{PieceKind, Range};
use std::alloc::{AllocError, Global};

/// The pieces of an item format that are text, one value, and text.
#[derive(Clone, Copy)]
pub struct ItemPieces<'p> {
    pub before: &'p [Piece],
    pub value: ValueSpec,
    pub after: &'p [Piece],
}

/// The pieces of a list that has a step of its own: those of its item format, and of its join.
#[derive(Clone, Copy)]
pub struct ListPieces<'p> {
    pub item: ItemPieces<'p>,
    pub join: &'p [Piece],
}

/// The pieces of a list, if it has a step of its own.
pub fn list_pieces<'p>(text: &str, piece: &'p Piece) -> Option<ListPieces<'p>>
    requires whole { node_whole (node_of text.now piece.now) ≡ true }
    ensures simple { MatchOption result ⊤ (IsSimple text.now piece.now) }
{
    if !is_bare(piece) {
        return None;
    }
    let Some(item) = item_pieces(text, piece) else {
        return None;
    };
    let Some(join) = join_pieces(text, piece) else {
        return None;
    };
    Some(ListPieces { item, join })
}

/// Whether a list is closed and under no width.
fn is_bare(piece: &Piece) -> bool
    ensures { result ≡ true → ((out-Piece piece.now).kind ≡ Closed)
        × (is_some (detail_of piece.now).spec.width ≡ false) }
{
    match piece.kind {
        PieceKind::Closed => spec_of(piece).width.is_none(),
        _ => false,
    }
}

/// The pieces of an item format, if they are text around one value.
fn item_pieces<'p>(text: &str, piece: &'p Piece) -> Option<ItemPieces<'p>>
    requires whole { node_whole (node_of text.now piece.now) ≡ true }
    ensures items { MatchOption result ⊤ (IsItems text.now
        (item_parts (branch_of text.now (out-Piece piece.now).item) (detail_of piece.now).spec_end)) }
{
    let Some(pieces) = &piece.item else {
        return Some(plain_item(spec_end_of(piece)));
    };
    around_value(text, pieces)
}

/// No pieces, for a list without an item format: its items are displayed plainly.
fn plain_item<'p>(end: usize) -> ItemPieces<'p>
    ensures items { (bs : List ℕ) → IsItems bs (item_parts no_branch end) result }
{
    ItemPieces {
        before: &[],
        value: ValueSpec {
            slot: Trait::Display,
            spec: Spec::default(),
            end,
        },
        after: &[],
    }
}

/// Pieces as text, one value, and text.
fn around_value<'p>(text: &str, pieces: &'p [Piece]) -> Option<ItemPieces<'p>>
    requires whole { forest_whole (as_forest (nodes_of text.now pieces.now)) ≡ true }
    ensures items { MatchOption result ⊤ (IsItems text.now
        (parts_by in_item (as_forest (nodes_of text.now pieces.now)))) }
{
    let (before, rest) = pieces.split_at(text_count(pieces));
    let Some((one, after)) = rest.split_first() else {
        return None;
    };
    let Some(value) = value_form(text, one) else {
        return None;
    };
    if text_count(after) < after.len() {
        return None;
    }
    Some(ItemPieces {
        before,
        value,
        after,
    })
}

/// The pieces of a join, if they are text.
fn join_pieces<'p>(text: &str, piece: &'p Piece) -> Option<&'p [Piece]>
    requires whole { node_whole (node_of text.now piece.now) ≡ true }
    ensures join { MatchOption result ⊤ (λ join. IsJoin text.now
        (join_parts (branch_of text.now (out-Piece piece.now).join)) join.now) }
{
    let Some(pieces) = &piece.join else {
        return Some(&[]);
    };
    if text_count(pieces) < pieces.len() {
        return None;
    }
    Some(pieces)
}

/// How a piece is written, if it is the value under the empty name.
fn value_form(text: &str, piece: &Piece) -> Option<ValueSpec>
    requires whole { node_whole (node_of text.now piece.now) ≡ true }
    ensures form { MatchOption result ⊤ (IsItem (node_of text.now piece.now)) }
{
    match piece.kind {
        PieceKind::Closed => closed_form(text, piece),
        _ => None,
    }
}

/// How a closed piece is written, if it is the value under the empty name.
fn closed_form(text: &str, piece: &Piece) -> Option<ValueSpec>
    requires whole { node_whole (node_of text.now piece.now) ≡ true }
    requires closed { (out-Piece piece.now).kind ≡ Closed }
    ensures form { MatchOption result ⊤ (IsItem (node_of text.now piece.now)) }
{
    match form_of(piece) {
        Form::Plain => nameless_form(text, piece, Trait::Display, Spec::default()),
        Form::Value(t) => nameless_form(text, piece, t, spec_of(piece)),
        _ => None,
    }
}

/// How a closed piece that asks for this value is written, if its name is empty.
fn nameless_form(text: &str, piece: &Piece, slot: Trait, spec: Spec) -> Option<ValueSpec>
    requires fits { IsSome (stored_name text.now piece.now) }
    requires closed { (out-Piece piece.now).kind ≡ Closed }
    requires held { (name : List ℕ) → Some name ≡ stored_name text.now piece.now
        → content_of text.now piece.now ≡ Some (argument_content ((out-Piece piece.now).place + 1) name spec
        (target_value slot) (detail_of piece.now).spec_end) }
    ensures form { MatchOption result ⊤ (IsItem (node_of text.now piece.now)) }
{
    let (_, name) = name_of(text, piece);
    if !name.is_empty() {
        return None;
    }
    Some(ValueSpec {
        slot,
        spec,
        end: spec_end_of(piece),
    })
}

/// The step of a list that has one of its own.
pub fn made_list(
    alloc: Global,
    text: &str,
    piece: &Piece,
    range: Option<Range>,
    pieces: ListPieces<'_>,
) -> Result<ListStep, AllocError>
    requires whole { node_whole (node_of text.now piece.now) ≡ true }
    requires list { (detail_of piece.now).form ≡ forms.List range }
    requires simple { IsSimple text.now piece.now pieces }
    ensures list { IfOk result (λ list. compiled_list text.now list
        ≡ Some (whole_step (node_of text.now piece.now))) }
{
    let (start, _) = name_of(text, piece);
    let (from, to) = part_of(text, piece);
    let item = pieces.item;
    let before = join_texts(alloc, text, item.before)?;
    let after = join_texts(alloc, text, item.after)?;
    let between = join_around(alloc, text, item.after, pieces.join, item.before)?;
    Ok(ListStep {
        start,
        name: Part { from, to },
        range,
        spec: spec_of(piece),
        end: spec_end_of(piece),
        value: item.value,
        before,
        between,
        after,
    })
}
