//! The law of formats that a check accepts.
ghost use Rattle.std.specs.Prelude.{◌≡◌, None};
ghost use Rattle.interpolator_syntax.specs.Places.{At};
ghost use Rattle.interpolator_eval.specs.{Meaning.Environments.Environment, Meaning.Meanings.means};
ghost use Rattle.interpolator_escapes.specs.Formats.{escaped_shows, shows_nothing};
ghost use Rattle.interpolator_escapes.specs.Placing.{StandsFor, structure_for};
ghost use Rattle.interpolator_escapes.specs.declared.escape.Escape.{Escape};

use interpolator_render::Value;

/// A format that [`check_format`](crate::check_format) accepts has, escaped, the structure that it
/// has where every value shows the empty text, whatever its values are.
pub fn accepted_formats_keep_structure<V: Value>()
    ensures { (escape : Escape) (e : Environment V) (a : At) → StandsFor escape a
        → (means (escaped_shows escape V.shows) e a).fault ≡ None
        → structure_for escape (means (escaped_shows escape V.shows) e a)
        ≡ structure_for escape (means shows_nothing e a) }
{}
