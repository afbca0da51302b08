//! Laws of the names that a format uses, each the contract of a small function.

ghost use Rattle.std.specs.Prelude.{◌≡◌, ℕ, List, [], ◌∷◌, Option, codes};
ghost use Rattle.interpolator_render.specs.Writers.{Written};
ghost use Rattle.interpolator_syntax.specs.{Places.At, Places.outermost, Faults.Answer};
ghost use Rattle.interpolator_eval.specs.Meaning.AskedNames.{asked_names, AgreeOn};
ghost use Rattle.interpolator_eval.specs.Meaning.Environments.{Environment, cut};
ghost use Rattle.interpolator_eval.specs.Meaning.{AskedGrammar.AsksNames, EqualValues.EqualOn};
ghost use Rattle.interpolator_eval.specs.Meaning.{Meanings.means, Outcomes.Finished};

use interpolator_render::Value;

/// A format means the same in two environments that have the same under the names that it uses:
/// the name of each of its arguments, those of its joins, and those of its item formats except the
/// empty name, which is the item there.
///
/// So `{a:i({}{b})({c})}` uses `a`, `b` and `c`, and whatever else a context has changes nothing.
pub fn asked_names_alone_matter<V: Value>()
    ensures two { (e d : Environment V) (a : At) → AgreeOn e d (asked_names a)
        → means V.shows e a ≡ means V.shows d a }
    ensures cut { (e : Environment V) (a : At)
        → means V.shows e a ≡ means V.shows (cut e (asked_names a)) a }
{}

/// The names that a format uses are exactly those of its arguments and of the arguments in their
/// groups, at any depth, in order: for each closed or unclosed argument its own name, then the
/// names of its item format, except the empty one, which is the item there, and then those of its
/// join.
///
/// So `{a:i#({b:i({})({})})#}` uses `a` and `b`: the first `{}` is an item of the list `b`, and the
/// second, in the join of that list, is the item of the list `a`. And `{a:i({b})({c})}` uses `a`,
/// `b` and `c`.
pub fn asked_names_are_those_of_the_arguments()
    ensures is { (a : At) → AsksNames a (asked_names a) }
    ensures only { (a : At) (names : List (List ℕ)) → AsksNames a names
        → names ≡ asked_names a }
    ensures value { asked_names (outermost (codes "{a:i#({b:i({})({})})#}"))
        ≡ codes "a" ∷ codes "b" ∷ [] }
    ensures order { asked_names (outermost (codes "{a:i({b})({c})}"))
        ≡ codes "a" ∷ codes "b" ∷ codes "c" ∷ [] }
{}

/// A format means the same in two contexts that have equal values under the names that it uses,
/// whatever types these values have, and wherever they lie in memory. Values are equal if, under
/// each trait and spec, they show the same text, or lack one in the same way; and lists are equal
/// if their items are, one by one. If no writer refuses and memory does not run out, the two then
/// have the same outcome.
///
/// So two contexts that have the text `Ann` in two buffers are equal here, and names that the
/// format does not use make no difference.
pub fn equal_values_mean_the_same<V: Value, W: Value>()
    ensures meaning { (e : Environment V) (d : Environment W) (a : At)
        → EqualOn V.shows W.shows e d (asked_names a)
        → means V.shows e a ≡ means W.shows d a }
    ensures outcome { (e : Environment V) (d : Environment W) (a : At) (old new other : Written)
        (answer reported : Option Answer) → EqualOn V.shows W.shows e d (asked_names a)
        → Finished (means V.shows e a) old new answer
        → Finished (means W.shows d a) old other reported → (new ≡ other) × (answer ≡ reported) }
{}
