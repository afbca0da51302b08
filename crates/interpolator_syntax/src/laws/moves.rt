//! Laws of a format text at another base, each the contract of a small function.

ghost use Rattle.std.specs.Prelude.{◌≡◌, ℕ, map, Ok, Err};
ghost use Rattle.interpolator_syntax.specs.Arguments.{Argument, argument_at};
ghost use Rattle.interpolator_syntax.specs.Moved.{moved_at, moved_argument, moved_fault};
ghost use Rattle.interpolator_syntax.specs.Moved.{moved_piece};
ghost use Rattle.interpolator_syntax.specs.{Places.At, Pieces.pieces, Faults.Fault};

/// A text reads the same wherever it is. At a base that is `by` bytes further on, there is the same
/// argument or the same fault, and there are the same pieces, with every place moved by `by` bytes:
/// that of a name, of a group, of a piece and of a fault.
///
/// So in `{x:5y}` a `}` is expected at byte 4, and in `ab{x:5y}` at byte 6.
pub fn places_move_with_the_text()
    ensures argument { (by : ℕ) (a q : At) (x : Argument) → argument_at a ≡ Ok (x, q)
        → argument_at (moved_at by a) ≡ Ok (moved_argument by x, moved_at by q) }
    ensures broken { (by : ℕ) (a : At) (f : Fault) → argument_at a ≡ Err f
        → argument_at (moved_at by a) ≡ Err (moved_fault by f) }
    ensures pieces { (by : ℕ) (a : At)
        → pieces (moved_at by a) ≡ map (moved_piece by) (pieces a) }
{}
