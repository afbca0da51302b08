//! Laws of formats that mean a text and nothing else, each the contract of a small function.

ghost use Rattle.std.specs.Prelude.{List, ℕ};
ghost use Rattle.interpolator_syntax.specs.{Places.At, Places.outermost, Pieces.pieces};
ghost use Rattle.interpolator_eval.specs.{Meaning.Environments.Environment, Meaning.Meanings.means};
ghost use Rattle.interpolator.specs.Escaping.{braces_doubled, ArePlain, SaysAlone};

use interpolator_render::Value;

/// A format whose pieces are only literals and doubled braces means their characters in every
/// environment: it has no fault, and takes no memory.
///
/// So `a{{b` means `a{b`, whatever the context has.
pub fn plain_pieces_say_their_characters<V: Value>()
    ensures { (e : Environment V) (a : At) (text : List ℕ) → ArePlain (pieces a) text
        → SaysAlone text (means V.shows e a) }
{}

/// A text whose braces are doubled is a format that means the text in every environment: it has no
/// fault, and takes no memory.
///
/// So what `escape` returns for a text means that text.
pub fn doubled_braces_say_the_text<V: Value>()
    ensures { (e : Environment V) (text : List ℕ)
        → SaysAlone text (means V.shows e (outermost (braces_doubled text))) }
{}
