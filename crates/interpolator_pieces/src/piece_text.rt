//! The text of a piece and its name, and the fault of one that is not closed.
ghost use Rattle.std.specs.Prelude.{◌≡◌, ◌+◌, ◌^◌, ◌<◌, IsSome, Some, length, option_map};
ghost use Rattle.std.specs.Str.{chars};
ghost use Rattle.interpolator_syntax.specs.Faults.{result_answer, fault};
ghost use Rattle.interpolator_pieces.specs.Stored.{detail_of, part};
ghost use Rattle.interpolator_pieces.specs.StoredMeanings.{stored_part, stored_name};
ghost use Rattle.interpolator_pieces.specs.StoredMeanings.{unclosed_fault};
ghost use Rattle.interpolator_pieces.specs.declared.piece.Piece.TheViews.{out-Piece};

use crate::piece::{Piece, part_of, spec_end_of};
use interpolator_syntax::{Error, ParseError, PieceKind};

/// The text from byte `from` up to `to`.
pub fn cut(text: &str, from: usize, to: usize) -> &str
    requires fits { IsSome (part text.now from to) }
    ensures text { Some (chars result.now) ≡ part text.now from to }
    ensures size { from + length result.now ≡ to }
    ensures fits { from + length result.now < 2 ^ 64 }
{
    &text[from..to]
}

/// The bytes of the text that are written for a piece.
pub fn text_of<'t>(text: &'t str, piece: &Piece) -> &'t str
    requires fits { IsSome (stored_part text.now piece.now) }
    ensures text { Some (chars result.now) ≡ stored_part text.now piece.now }
    ensures fits { (detail_of piece.now).from + length result.now < 2 ^ 64 }
{
    let (from, to) = part_of(text, piece);
    cut(text, from, to)
}

/// Where the argument of a piece begins, and its name.
pub fn name_of<'t>(text: &'t str, piece: &Piece) -> (usize, &'t str)
    requires fits { IsSome (stored_name text.now piece.now) }
    ensures start { result.0 ≡ (out-Piece piece.now).place + 1 }
    ensures name { Some (chars result.1.now) ≡ stored_name text.now piece.now }
{
    (piece.place + 1, text_of(text, piece))
}

/// The fault of an argument that is not closed.
pub fn require_closed(piece: &Piece) -> Result<(), Error>
    ensures { result_answer result ≡ option_map fault (unclosed_fault piece.now) }
{
    match piece.kind {
        PieceKind::Unclosed => { Err(Error::Parse(ParseError::Expected("}", spec_end_of(piece)))) }
        _ => Ok(()),
    }
}
