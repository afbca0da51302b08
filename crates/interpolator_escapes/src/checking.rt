//! Whether the values of a format stand in places of an escape.
ghost use Rattle.std.specs.Prelude.{◌≡◌, ◌<◌, IfOk, length};
ghost use Rattle.std.specs.Str.{chars};
ghost use Rattle.interpolator_syntax.specs.{Places.outermost, Nodes.nodes};
ghost use Rattle.interpolator_pieces.specs.Stored.{nodes_of};
ghost use Rattle.interpolator_escapes.specs.Placing.{EndsFor, FailsFor, IfMisplaced, StandsFor};

use crate::ending::Ending;
use crate::escape::Escape;
use crate::misplaced::PlaceError;
use crate::placing::check_stands;
use crate::readers::{ControlReader, CsvReader, HtmlReader, JsonReader, ShellReader};
use interpolator_pieces::{Piece, parse_pieces};
use interpolator_syntax::Cursor;
use std::alloc::Global;

/// Checks that the values of a format, whose pieces are these, stand in places of an escape: each
/// value in a place, each item and join of a list ending where it began, and the fill of a padded
/// list no structure. Of a [line](Escape::Line) only that fill is asked: a value may stand
/// anywhere. Returns where the format ends.
///
/// Memory is taken for names of elements, attributes and references, of [HTML](Escape::Html) alone.
///
/// # Errors
///
/// - `Misplaced`: the first value or list that does not stand, and why.
/// - `NoMemory`: there was no memory for a name.
///
/// # Example
///
/// ```text
/// check_places(alloc, Escape::Html, text, &pieces)?;
/// // of `<p id="{a}">{b}</p>`: `Beginning`; of `<p id={a}>`: `Misplaced`, why `Value` at place 6
/// ```
pub fn check_places(
    alloc: Global,
    escape: Escape,
    text: &str,
    pieces: &[Piece],
) -> Result<Ending, PlaceError>
    requires { nodes_of text.now pieces.now ≡ nodes (outermost (chars text.now)) }
    ensures stands { IfOk result (λ _. StandsFor escape (outermost (chars text.now))) }
    ensures ends { IfOk result (EndsFor escape (outermost (chars text.now))) }
    ensures refused { IfMisplaced result (λ _. StandsFor escape (outermost (chars text.now)) → ⊥) }
    ensures first { IfMisplaced result (FailsFor escape (outermost (chars text.now))) }
    ensures within { IfMisplaced result (λ m. m.place < length text.now) }
{
    match escape {
        Escape::Line => check_stands(&ControlReader {}, text, pieces),
        Escape::Html => check_stands(&HtmlReader::new(alloc), text, pieces),
        Escape::Csv => check_stands(&CsvReader::FieldStart, text, pieces),
        Escape::Json => check_stands(&JsonReader::Between, text, pieces),
        Escape::Shell => check_stands(&ShellReader::Outside, text, pieces),
    }
}

/// Reads a format and checks it, as [`check_places`] does for one that was read.
///
/// # Errors
///
/// As for [`check_places`]; and `NoMemory` if there is none for the pieces of the format.
///
/// ```text
/// check_format(alloc, Escape::Csv, "\"{a}\",{b}")    // `Misplaced`, why `Value` at place 6
/// ```
#[tactic(auto, using(interpolator_pieces::proofs::RunLemmas::format_stands))]
pub fn check_format(alloc: Global, escape: Escape, text: &str) -> Result<Ending, PlaceError>
    ensures stands { IfOk result (λ _. StandsFor escape (outermost (chars text.now))) }
    ensures ends { IfOk result (EndsFor escape (outermost (chars text.now))) }
    ensures refused { IfMisplaced result (λ _. StandsFor escape (outermost (chars text.now)) → ⊥) }
    ensures first { IfMisplaced result (FailsFor escape (outermost (chars text.now))) }
    ensures within { IfMisplaced result (λ m. m.place < length text.now) }
{
    let start = Cursor {
        place: 0,
        rest: text,
    };
    let pieces = parse_pieces(alloc, start)?;
    check_places(alloc, escape, text, &pieces)
}
