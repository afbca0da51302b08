//! The walk over the pieces of a format, at every depth of groups.
ghost use Rattle.std.specs.Prelude.{◌≡◌, ◌+◌, ◌^◌, ◌<◌, ℕ, List, Result, true};
ghost use Rattle.std.specs.Str.{chars};
ghost use Rattle.interpolator_pieces.specs.NodeExtents.{forest_depth, node_depth, branch_depth};
ghost use Rattle.interpolator_pieces.specs.Visits.{Visit, enter, leave, Walks, inner, node_visits};
ghost use Rattle.interpolator_pieces.specs.Visits.{branch_visits, forest_visits, text_visits};
ghost use Rattle.interpolator_pieces.specs.Stored.{node_of, nodes_of, branch_of, node_whole};
ghost use Rattle.interpolator_pieces.specs.Stored.{branch_whole, forest_whole};
ghost use Rattle.interpolator_syntax.specs.{Places.outermost, Nodes.as_forest, Nodes.nodes};

use crate::piece::Piece;

/// Where a piece is.
#[derive(Clone, Copy)]
pub struct Level {
    /// In how many groups it is.
    pub depth: usize,
    /// Whether it is in an item format: in the format itself, or in a join in it.
    pub in_item: bool,
}

/// A visitor, which is shown the pieces of a format, in order and at every depth of groups.
pub trait Visitor {
    /// What it returns to stop the walk.
    type Stop;

    // what it does at a visit, in a text: how it changes, and whether it stops there
    ghost step: { List ℕ → Self → Visit → Self → Result (Unit {0}) Self.Stop → Type 0 };

    /// Enters a piece, before its groups.
    fn enter(&mut self, text: &str, piece: &Piece, level: Level) -> Result<(), Self::Stop>
        requires whole { node_whole (node_of text.now piece.now) ≡ true }
        requires fits { level.depth + node_depth (node_of text.now piece.now) < 2 ^ 64 }
        ensures { step text.now self.old (enter level (node_of text.now piece.now)) self.new
            result };

    /// Leaves a piece, after its groups.
    fn leave(&mut self, text: &str, piece: &Piece, level: Level) -> Result<(), Self::Stop>
        requires { node_whole (node_of text.now piece.now) ≡ true }
        ensures { step text.now self.old (leave level (node_of text.now piece.now)) self.new
            result };
}

/// Shows the visitor pieces of a text, and those of their groups.
#[cycle(walk)]
pub fn walk<V: Visitor>(
    visitor: &mut V,
    text: &str,
    pieces: &[Piece],
    level: Level,
) -> Result<(), V::Stop>
    requires whole { forest_whole (as_forest (nodes_of text.now pieces.now)) ≡ true }
    requires fits { level.depth + forest_depth (as_forest (nodes_of text.now pieces.now)) < 2 ^ 64 }
    ensures { Walks (V.step text.now) visitor.old
        (forest_visits level (as_forest (nodes_of text.now pieces.now))) visitor.new result }
{
    for piece in pieces {
        walk_piece(visitor, text, piece, level)?;
    }
    Ok(())
}

/// Shows the visitor a piece, before and after those of its groups.
#[cycle(walk)]
fn walk_piece<V: Visitor>(
    visitor: &mut V,
    text: &str,
    piece: &Piece,
    level: Level,
) -> Result<(), V::Stop>
    requires whole { node_whole (node_of text.now piece.now) ≡ true }
    requires fits { level.depth + node_depth (node_of text.now piece.now) < 2 ^ 64 }
    ensures { Walks (V.step text.now) visitor.old (node_visits level (node_of text.now piece.now))
        visitor.new result }
{
    visitor.enter(text, piece, level)?;
    walk_group(visitor, text, &piece.item, level, true)?;
    walk_group(visitor, text, &piece.join, level, level.in_item)?;
    visitor.leave(text, piece, level)
}

/// Shows the visitor the pieces of the group, if there is one, of an argument that is here.
#[cycle(walk)]
fn walk_group<V: Visitor>(
    visitor: &mut V,
    text: &str,
    group: &Option<Vec<Piece>>,
    level: Level,
    in_item: bool,
) -> Result<(), V::Stop>
    requires whole { branch_whole (branch_of text.now group.now) ≡ true }
    requires fits { level.depth + branch_depth (branch_of text.now group.now) < 2 ^ 64 }
    ensures { Walks (V.step text.now) visitor.old
        (branch_visits (inner in_item level) (branch_of text.now group.now)) visitor.new result }
{
    match group {
        Some(pieces) => {
            let level = Level {
                depth: level.depth + 1,
                in_item,
            };
            walk(visitor, text, pieces, level)
        }
        None => Ok(()),
    }
}

/// Shows the visitor the pieces of a whole text.
pub fn walk_text<V: Visitor>(visitor: &mut V, text: &str, pieces: &[Piece]) -> Result<(), V::Stop>
    requires { nodes_of text.now pieces.now ≡ nodes (outermost (chars text.now)) }
    ensures { Walks (V.step text.now) visitor.old (text_visits (outermost (chars text.now)))
        visitor.new result }
{
    let level = Level {
        depth: 0,
        in_item: false,
    };
    walk(visitor, text, pieces, level)
}
