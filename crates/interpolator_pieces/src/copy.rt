//! Copies of pieces.
ghost use Rattle.std.specs.Prelude.{◌≡◌, ℕ, List, IfOk};
ghost use Rattle.interpolator_syntax.specs.declared.piece_kind.PieceKind.{PieceKind};
ghost use Rattle.interpolator_pieces.specs.Stored.{branch_of, detail_or_bare, node_of, nodes_of};

use crate::piece::{Detail, Piece};
use std::alloc::{AllocError, Global};

/// A copy of pieces.
#[cycle(copy)]
fn copy_pieces(alloc: Global, pieces: &[Piece]) -> Result<Vec<Piece>, AllocError>
    ensures same { IfOk result (λ copy. (bs : List ℕ)
        → nodes_of bs copy.items ≡ nodes_of bs pieces.now) }
{
    let mut copy = Vec::with_capacity(alloc, pieces.len())?;
    for piece in pieces {
        copy.push(copy_piece(alloc, piece)?)?;
    }
    Ok(copy)
}

/// A copy of a piece.
#[cycle(copy)]
pub fn copy_piece(alloc: Global, piece: &Piece) -> Result<Piece, AllocError>
    ensures same { IfOk result (λ copy. (bs : List ℕ) → node_of bs copy ≡ node_of bs piece.now) }
{
    let item = copy_group(alloc, &piece.item)?;
    let join = copy_group(alloc, &piece.join)?;
    let detail = copy_detail(alloc, &piece.detail)?;
    Ok(Piece {
        place: piece.place,
        end: piece.end,
        kind: piece.kind,
        item,
        join,
        detail,
    })
}

/// A copy of the pieces of a group, if there is one.
#[cycle(copy)]
fn copy_group(alloc: Global, group: &Option<Vec<Piece>>) -> Result<Option<Vec<Piece>>, AllocError>
    ensures same { IfOk result (λ copy. (bs : List ℕ) → branch_of bs copy ≡ branch_of bs group.now) }
{
    match group {
        Some(pieces) => Ok(Some(copy_pieces(alloc, pieces)?)),
        None => Ok(None),
    }
}

/// A copy of the detail of a piece, if there is one.
#[tactic(auto, unfolding(crate::specs::Stored::detail_or_bare))]
fn copy_detail(
    alloc: Global,
    detail: &Option<Box<Detail>>,
) -> Result<Option<Box<Detail>>, AllocError>
    ensures same { IfOk result (λ copy. (place end : ℕ) (kind : PieceKind)
        → detail_or_bare place end kind copy ≡ detail_or_bare place end kind detail.now) }
{
    match detail {
        Some(detail) => Ok(Some(Box::new(alloc, **detail)?)),
        None => Ok(None),
    }
}
