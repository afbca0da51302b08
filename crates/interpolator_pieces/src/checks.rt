//! The faults that pieces have in every context.
ghost use Rattle.std.specs.Prelude.{◌≡◌, option_map};
ghost use Rattle.interpolator_syntax.specs.Faults.{result_answer, fault};
ghost use Rattle.interpolator_pieces.specs.NodeChecks.{first_fault, visit_faults};
ghost use Rattle.interpolator_pieces.specs.NodeChecks.{stored_own_fault, stored_end_fault};

use crate::piece::{Form, Piece, form_of, spec_end_of, spec_of};
use crate::piece_text::require_closed;
use crate::walk::{Level, Visitor};
use interpolator_eval::forbids_list;
use interpolator_syntax::{Error, ParseError};

/// The fault that a piece has by itself: that it is broken, or that the spec of a list has what it
/// may not have.
pub fn check_own(piece: &Piece) -> Result<(), Error>
    ensures own { result_answer result ≡ option_map fault (stored_own_fault piece.now) }
{
    match form_of(piece) {
        Form::List(_) if forbids_list(&spec_of(piece)) => {
            Err(Error::Parse(ParseError::Iter(spec_end_of(piece))))
        }
        Form::Broken(fault) => Err(Error::from(fault)),
        _ => Ok(()),
    }
}

/// The fault that an argument, which was read, is not closed.
pub fn check_end(piece: &Piece) -> Result<(), Error>
    ensures end { result_answer result ≡ option_map fault (stored_end_fault piece.now) }
{
    match form_of(piece) {
        Form::Text => Ok(()),
        Form::Broken(_) => Ok(()),
        _ => require_closed(piece),
    }
}

/// A visitor that stops at the first fault.
#[derive(Drop)]
pub struct Check;

impl Visitor for Check {
    type Stop = Error;

    ghost step = { λ text old visit new answer.
        result_answer answer ≡ option_map fault (first_fault (visit_faults visit)) };

    fn enter(&mut self, _text: &str, piece: &Piece, _spot: Level) -> Result<(), Error> {
        check_own(piece)
    }

    fn leave(&mut self, _text: &str, piece: &Piece, _spot: Level) -> Result<(), Error> {
        check_end(piece)
    }
}
