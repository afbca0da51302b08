//! Laws of the pieces of a format text, each the contract of a small function.

ghost use Rattle.std.specs.Prelude.{◌≡◌, ◌↔◌, ℕ, ◌++◌, List, [], flat_map, None, Some};
ghost use Rattle.interpolator_syntax.specs.Grammar.{IsPieces, IsClosed, IsUnclosed, IsBroken};
ghost use Rattle.interpolator_syntax.specs.PieceGrammar.{ClosedStands, UnclosedStands};
ghost use Rattle.interpolator_syntax.specs.PieceGrammar.{BrokenStands, token_pieces};
ghost use Rattle.interpolator_syntax.specs.Pieces.{Piece, pieces};
ghost use Rattle.interpolator_syntax.specs.Tokens.{Token, first_token, past_token};
ghost use Rattle.interpolator_syntax.specs.{Arguments.Argument, Places.At, Faults.Fault};

/// The texts of the pieces, joined, are the text: no character is lost, and none is read twice.
pub fn pieces_join()
    ensures joined { (a : At) → flat_map (λ x. x.text) (pieces a) ≡ a.text }
{}

/// The pieces of a text are the only list of pieces that follow one after the other, each at its
/// place in bytes, and each of the first of these kinds that its place allows:
///
/// 1. a doubled brace, `{{` or `}}`
/// 2. a closed argument, from a `{` to the `}` at which the argument ends
/// 3. an unclosed argument, or a broken one, which takes all the rest
/// 4. a lone `}`
/// 5. a literal, one character
///
/// So `a{{b}` is the literal `a`, a doubled `{`, the literal `b` and a lone `}`; and `{{a}` has no
/// argument.
pub fn pieces_are_the_one_list()
    ensures is { (a : At) → IsPieces a (pieces a) }
    ensures only { (a : At) (xs : List Piece) → IsPieces a xs → xs ≡ pieces a }
{}

/// The relation of arguments decides what a piece that begins with a brace is: closed exactly when
/// an argument follows the brace, up to a closing one; unclosed exactly when an argument follows,
/// but no closing brace after that; and broken exactly when no argument follows, for the reason
/// that the relation gives.
///
/// The tokens of the scan are the pieces: a run of literals is a piece for each of its characters,
/// and a doubled brace, a lone brace and an argument are one piece each; then come the pieces of
/// the rest of the text.
///
/// So the tokens of `ab{{{x}` are `ab`, a doubled brace and an argument, which are four pieces.
pub fn pieces_stand_by_the_grammar()
    ensures closed { (p start end : ℕ) (x : Argument) (text rest : List ℕ)
        → IsClosed p start x end text rest ↔ ClosedStands p start x end text rest }
    ensures unclosed { (p start end : ℕ) (x : Argument) (text rest : List ℕ)
        → IsUnclosed p start x end text rest ↔ UnclosedStands p start x end text rest }
    ensures broken { (p : ℕ) (f : Fault) (text rest : List ℕ)
        → IsBroken p f text rest ↔ BrokenStands p f text rest }
    ensures runs { (a b : At) (t : Token) → first_token a ≡ Some (t, b)
        → pieces a ≡ token_pieces a.place t b ++ pieces (past_token t b) }
    ensures end { (a : At) → first_token a ≡ None → pieces a ≡ [] }
{}
