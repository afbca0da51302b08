//! Laws of formats that follow one another, each the contract of a small function.

ghost use Rattle.std.specs.Prelude.{◌≡◌, ◌≢◌, ℕ, ◌+◌, ◌++◌, List, [], ◌∷◌, IsTrue, IsFalse, Ok};
ghost use Rattle.std.specs.Prelude.{None, codes};
ghost use Rattle.interpolator_syntax.specs.Places.{At, size, outermost};
ghost use Rattle.interpolator_syntax.specs.Arguments.{Argument, argument_at};
ghost use Rattle.interpolator_syntax.specs.{Classes.close_brace, Grammar.from_place, Pieces.pieces};
ghost use Rattle.interpolator.specs.Seams.{EndsClosed, ending, may_follow, seam_of};
ghost use Rattle.interpolator.specs.Meaning.Parts.{joined_text, parts_mean, Clean, FrontsClose};
ghost use Rattle.interpolator_eval.specs.Meaning.Meanings.{chain, means};
ghost use Rattle.interpolator_eval.specs.Meaning.{Environments.Environment, Moves.moved_meaning};

use interpolator_render::Value;

/// The pieces of two texts, one after the other, are those of the first and then those of the
/// second, at its place, if the first does not end in an argument that is unclosed or broken, and
/// the seam between the two is true.
///
/// So the pieces of `a{x}` followed by `}` are those of `a{x}`, and then a lone `}`.
pub fn pieces_compose()
    ensures compose { (a : At) (more : List ℕ) → EndsClosed a
        → IsTrue (may_follow (ending a) more)
        → pieces (from_place a.place (a.text ++ more))
        ≡ pieces a ++ pieces (from_place (a.place + size a.text) more) }
{}

/// A closed argument is the same whatever follows its `}`.
///
/// So the argument of `{x:}` is that of `{x:}<` too.
pub fn closed_argument_stays()
    ensures stays { (a q : At) (x : Argument) (rest more : List ℕ) → argument_at a ≡ Ok (x, q)
        → q.text ≡ close_brace ∷ rest
        → argument_at (from_place a.place (a.text ++ more))
        ≡ Ok (x, from_place q.place (q.text ++ more)) }
{}

/// Parts mean what their joined text means, in every environment, if none but the last ends in an
/// argument that is unclosed or broken, and at each border the seam between all parts before it,
/// joined, and the next is true: text, fault and memory points are the same.
///
/// So the parts `{x} ` and `{q}` mean what `{x} {q}` means.
pub fn parts_compose<V: Value>()
    ensures compose { (e : Environment V) (parts : List (List ℕ)) → Clean parts
        → FrontsClose 0 parts
        → parts_mean V.shows e 0 parts ≡ means V.shows e (outermost (joined_text parts)) }
{}

/// The second of two texts means what it means by itself, with every place in text and fault moved
/// by the byte length of the first: so if the first has no fault, the two as parts mean the text of
/// the first and then that; and their joined text means the same, if the first does not end in an
/// argument that is unclosed or broken and the seam between the two is true.
///
/// So the parts `ab` and `{q}`, with nothing under `q`, write `ab`, and `q` is missing at byte 3;
/// in `{q}` by itself it is missing at byte 1.
pub fn second_text_is_moved<V: Value>()
    ensures joined { (e : Environment V) (a b : List ℕ) → EndsClosed (outermost a)
        → IsTrue (seam_of a b)
        → means V.shows e (outermost (a ++ b))
        ≡ chain (means V.shows e (outermost a))
        (moved_meaning (size a) (means V.shows e (outermost b))) }
    ensures parts { (e : Environment V) (a b : List ℕ)
        → parts_mean V.shows e 0 (a ∷ b ∷ [])
        ≡ chain (means V.shows e (outermost a))
        (moved_meaning (size a) (means V.shows e (outermost b))) }
{}

/// A text that means no fault in some environment ends in no argument that is unclosed or broken.
///
/// So a text without a fault composes with every text after it, except at the one seam.
pub fn faultless_text_closes<V: Value>()
    ensures closes { (e : Environment V) (a : At) → (means V.shows e a).fault ≡ None
        → EndsClosed a }
{}

/// If the seam is false, the joined text has other pieces: `}` and `}`, one after the other, are
/// one doubled brace.
pub fn seams_are_real()
    ensures braces_seam { IsFalse (seam_of (codes "}") (codes "}")) }
    ensures braces { pieces (outermost (codes "}}"))
        ≢ pieces (outermost (codes "}")) ++ pieces (from_place 1 (codes "}")) }
{}
