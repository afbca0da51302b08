//! How wide and how deep pieces are.
ghost use Rattle.std.specs.Prelude.{◌≡◌, ◌+◌, ◌<◌, ◌^◌, ℕ, List, IsSome, Ok, max};
ghost use Rattle.interpolator_pieces.specs.NodeExtents.{spec_extent, stored_extent};
ghost use Rattle.interpolator_pieces.specs.NodeExtents.{inner_depth, visit_depth, visit_extent};
ghost use Rattle.interpolator_pieces.specs.Stored.{branch_of};

use crate::piece::{Form, Piece, form_of, spec_of};
use crate::walk::{Level, Visitor};
use interpolator_render::Spec;
use std::convert::Infallible;

/// The width or the precision of a spec, whichever is greater.
fn extent_of(spec: &Spec) -> usize
    ensures { result ≡ spec_extent spec.now }
{
    spec.width.unwrap_or(0).max(spec.precision.unwrap_or(0))
}

/// The width or the precision of a piece, whichever is greater, without its groups.
fn own_extent(piece: &Piece) -> usize
    ensures { result ≡ stored_extent piece.now }
{
    match form_of(piece) {
        Form::Value(_) => extent_of(&spec_of(piece)),
        Form::List(_) => extent_of(&spec_of(piece)),
        _ => 0,
    }
}

/// The greatest width or precision of pieces.
#[derive(Drop)]
pub struct Widest(pub usize);

impl Visitor for Widest {
    type Stop = Infallible;

    ghost step = { λ text old visit new answer.
        (answer ≡ Ok tt) × (new.0 ≡ max old.0 (visit_extent visit)) };

    fn enter(&mut self, _text: &str, piece: &Piece, _spot: Level) -> Result<(), Infallible> {
        self.0 = self.0.max(own_extent(piece));
        Ok(())
    }

    fn leave(&mut self, _text: &str, _piece: &Piece, _spot: Level) -> Result<(), Infallible> {
        Ok(())
    }
}

/// How many groups the pieces of a group are in, if its argument is in `depth`; 0 without a group.
fn inner_depth(group: &Option<Vec<Piece>>, depth: usize) -> usize
    requires { IsSome group.now → depth + 1 < 2 ^ 64 }
    ensures { (bs : List ℕ) → result ≡ inner_depth depth (branch_of bs group.now) }
{
    match group {
        Some(_) => depth + 1,
        None => 0,
    }
}

/// How many groups the deepest pieces are in.
#[derive(Drop)]
pub struct Deepest(pub usize);

impl Visitor for Deepest {
    type Stop = Infallible;

    ghost step = { λ text old visit new answer.
        (answer ≡ Ok tt) × (new.0 ≡ max old.0 (visit_depth visit)) };

    fn enter(&mut self, _text: &str, piece: &Piece, level: Level) -> Result<(), Infallible> {
        let item = inner_depth(&piece.item, level.depth);
        let join = inner_depth(&piece.join, level.depth);
        self.0 = self.0.max(item.max(join));
        Ok(())
    }

    fn leave(&mut self, _text: &str, _piece: &Piece, _spot: Level) -> Result<(), Infallible> {
        Ok(())
    }
}
