//! Groups of a list as stored pieces: what is read of them once, before the items are written.
ghost use Rattle.std.specs.Prelude.{◌≡◌, ◌∷◌, [], IfSome, option_map, true};
ghost use Rattle.interpolator_syntax.specs.{Groups.group_of, Nodes.as_forest, Nodes.branch};
ghost use Rattle.interpolator_eval.specs.Meaning.Sources.{IsBare, IsFramed, IsRun, IsText};
ghost use Rattle.interpolator_eval.specs.Meaning.Sources.{RunFirst};
ghost use Rattle.interpolator_pieces.specs.Stored.{StandsAlone, forest_whole, node_of, node_whole};
ghost use Rattle.interpolator_pieces.specs.Stored.{nodes_of};

use crate::piece::{Piece, spec_end_of};
use crate::piece_text::{name_of, text_of};
use interpolator_eval::PlainItem;
use interpolator_syntax::{Group, PieceKind};

/// Returns how pieces display an item plainly: if they are those of `{}`, with or without a text
/// before it and one after it.
pub fn plain_pieces<'t>(text: &'t str, pieces: &[Piece]) -> Option<PlainItem<'t>>
    requires whole { forest_whole (as_forest (nodes_of text.now pieces.now)) ≡ true }
    ensures { IfSome result (λ p. IsFramed (option_map group_of p.before) p.place
        (option_map group_of p.after) (branch (as_forest (nodes_of text.now pieces.now)))) }
{
    let (before, rest) = text_first(text, pieces);
    let (piece, behind) = rest.split_first()?;
    let place = closing_place(text, piece)?;
    let (after, left) = text_first(text, behind);
    if left.is_empty() {
        Some(PlainItem {
            before,
            place,
            after,
        })
    } else {
        None
    }
}

/// Returns the text of the first of some pieces, if that is a run of it, and the pieces after it.
fn text_first<'t, 'p>(text: &'t str, pieces: &'p [Piece]) -> (Option<Group<'t>>, &'p [Piece])
    requires whole { forest_whole (as_forest (nodes_of text.now pieces.now)) ≡ true }
    ensures first { RunFirst (option_map group_of result.0)
        (as_forest (nodes_of text.now result.1.now)) (as_forest (nodes_of text.now pieces.now)) }
    ensures whole { forest_whole (as_forest (nodes_of text.now result.1.now)) ≡ true }
{
    if let Some((piece, rest)) = pieces.split_first() {
        if let Some(run) = text_piece(text, piece) {
            return (Some(run), rest);
        }
    }
    (None, pieces)
}

/// Returns the place of the closing brace, if a piece is an argument without name and spec.
fn closing_place(text: &str, piece: &Piece) -> Option<usize>
    requires whole { node_whole (node_of text.now piece.now) ≡ true }
    ensures { IfSome result (λ q. IsBare q (node_of text.now piece.now)) }
{
    if !stands_alone(piece) {
        return None;
    }
    match piece.kind {
        PieceKind::Closed => {}
        _ => return None,
    }
    let (_, name) = name_of(text, piece);
    if name.is_empty() {
        Some(spec_end_of(piece))
    } else {
        None
    }
}

/// Returns the text of pieces, if they are one run of it.
pub fn text_pieces<'t>(text: &'t str, pieces: &[Piece]) -> Option<Group<'t>>
    requires whole { forest_whole (as_forest (nodes_of text.now pieces.now)) ≡ true }
    ensures { IfSome result (λ g. IsText (group_of g)
        (branch (as_forest (nodes_of text.now pieces.now)))) }
{
    let (run, rest) = text_first(text, pieces);
    if rest.is_empty() { run } else { None }
}

/// Returns the text of a piece, if it is a run of it.
fn text_piece<'t>(text: &'t str, piece: &Piece) -> Option<Group<'t>>
    requires whole { node_whole (node_of text.now piece.now) ≡ true }
    ensures { IfSome result (λ g. IsRun (group_of g) (node_of text.now piece.now)) }
{
    if !stands_alone(piece) {
        return None;
    }
    match piece.kind {
        PieceKind::Literal => Some(Group {
            text: text_of(text, piece),
            place: piece.place,
        }),
        _ => None,
    }
}

/// Returns whether a piece has neither a detail nor groups.
fn stands_alone(piece: &Piece) -> bool
    ensures alone { result ≡ true → StandsAlone piece.now }
{
    match (&piece.detail, &piece.item, &piece.join) {
        (None, None, None) => true,
        _ => false,
    }
}
