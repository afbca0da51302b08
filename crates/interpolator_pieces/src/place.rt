//! Which argument of a format has a place.
ghost use Rattle.std.specs.Prelude.{◌≡◌, ℕ, List};
ghost use Rattle.interpolator_pieces.specs.NodePlaces.{argument_among, argument_in, has_place};
ghost use Rattle.interpolator_pieces.specs.NodePlaces.{innermost};
ghost use Rattle.interpolator_pieces.specs.Stored.{branch_of, node_of, nodes_of};
ghost use Rattle.interpolator_pieces.specs.declared.piece.Piece.TheViews.{out-Piece};
ghost use Rattle.interpolator_syntax.specs.Nodes.{as_forest};

use crate::piece::Piece;
use interpolator_syntax::PieceKind;

/// The innermost argument among pieces that has a place: its first byte, and the byte after its
/// last.
#[cycle(place)]
pub fn argument_among(pieces: &[Piece], place: usize) -> Option<(usize, usize)>
    ensures { (bs : List ℕ) → result ≡ argument_among place (as_forest (nodes_of bs pieces.now)) }
{
    for piece in pieces {
        if has_place(piece, place) {
            return Some(innermost(piece, place));
        }
    }
    None
}

/// Tests whether a piece is an argument that has a place.
fn has_place(piece: &Piece, place: usize) -> bool
    ensures { let x = out-Piece piece.now in result ≡ has_place place x.place x.end x.kind }
{
    match piece.kind {
        PieceKind::Closed => piece.place < place && place < piece.end,
        PieceKind::Unclosed => piece.place < place && place <= piece.end,
        PieceKind::Broken => piece.place < place && place <= piece.end,
        _ => false,
    }
}

/// The innermost argument that has a place, in a piece that has it: one in its groups, or itself.
#[cycle(place)]
fn innermost(piece: &Piece, place: usize) -> (usize, usize)
    ensures { (bs : List ℕ) → result ≡ innermost place (node_of bs piece.now) }
{
    let whole = (piece.place, piece.end);
    argument_in_item(piece, place)
        .or(argument_in_join(piece, place))
        .unwrap_or(whole)
}

/// The innermost argument in an item format that has a place.
#[cycle(place)]
fn argument_in_item(piece: &Piece, place: usize) -> Option<(usize, usize)>
    ensures { (bs : List ℕ)
        → result ≡ argument_in place (branch_of bs (out-Piece piece.now).item) }
{
    match &piece.item {
        Some(pieces) => argument_among(pieces, place),
        None => None,
    }
}

/// The innermost argument in a join that has a place.
#[cycle(place)]
fn argument_in_join(piece: &Piece, place: usize) -> Option<(usize, usize)>
    ensures { (bs : List ℕ)
        → result ≡ argument_in place (branch_of bs (out-Piece piece.now).join) }
{
    match &piece.join {
        Some(pieces) => argument_among(pieces, place),
        None => None,
    }
}
