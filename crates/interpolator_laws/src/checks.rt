//! Laws of what can be known of a format before it is written, each the contract of a small
//! function.

ghost use Rattle.std.specs.Prelude.{◌≡◌, ◌↔◌, ℕ, List, Option, None, Some, Contains, codes};
ghost use Rattle.interpolator_syntax.specs.Faults.{Fault, parse, unclosed, missing_value};
ghost use Rattle.interpolator_syntax.specs.{Places.At, Places.outermost, Nodes.as_forest};
ghost use Rattle.interpolator_syntax.specs.{Nodes.nodes};
ghost use Rattle.interpolator_eval.specs.Meaning.Environments.{Environment, environment};
ghost use Rattle.interpolator_eval.specs.{Slots.Slots, Meaning.AskedNames.asked_names};
ghost use Rattle.interpolator_eval.specs.Meaning.Meanings.{means};
ghost use Rattle.interpolator_pieces.specs.NodeChecks.{first_fault, text_faults, IsOfText};
ghost use Rattle.interpolator_pieces.specs.NodeChecks.{ForestHas, FirstFaulty};

use interpolator_render::Value;

/// A `Parse` or an `UnsupportedOption` that a format means in some environment is one of the faults
/// that it has by itself. So if a check finds none, the format fails with neither of the two,
/// whatever its context is.
///
/// The reverse does not hold: a check of `{a:i({z)}` finds an unclosed argument at byte 6, but with
/// an empty list under `a` the format is written without a fault.
pub fn a_format_that_checks_has_no_fault_of_its_own<V: Value>()
    ensures among { (e : Environment V) (a : At) (f : Fault) → (means V.shows e a).fault ≡ Some f
        → IsOfText f → Contains (text_faults a) f }
    ensures none { (e : Environment V) (a : At) → first_fault (text_faults a) ≡ None
        → (f : Fault) → (means V.shows e a).fault ≡ Some f → ¬ (IsOfText f) }
{}

/// The faults that a format has by itself are those of its pieces, at any depth of groups: that an
/// argument is broken, that the spec of a list has what it may not have, and that an argument is
/// not closed. The first fault is the first of some piece, and no piece before that one has any.
/// Each is a `Parse` or an `UnsupportedOption`.
///
/// So the first of `{a:i({z)}{b` is that `{z` is not closed.
pub fn a_fault_of_its_own_is_that_of_some_piece()
    ensures listed { (a : At) (f : Fault) → Contains (text_faults a) f
        ↔ ForestHas f (as_forest (nodes a)) }
    ensures first { (a : At) (f : Fault) → first_fault (text_faults a) ≡ Some f
        → FirstFaulty f (nodes a) }
    ensures none { (a : At) → first_fault (text_faults a) ≡ None
        ↔ ((f : Fault) → ¬ (ForestHas f (as_forest (nodes a)))) }
    ensures of_text { (a : At) (f : Fault) → Contains (text_faults a) f → IsOfText f }
    ensures value { first_fault (text_faults (outermost (codes "{a:i({z)}{b")))
        ≡ Some (parse (unclosed 6)) }
{}

/// If a value is missing, its name is one that the format uses, and the context has nothing under
/// it. So no value is missing from a context that has something under each name that
/// `Template::names` returns.
///
/// So for `{a}{b}`, in a context that has `a` alone, the missing value is `b`.
pub fn a_missing_value_is_an_asked_name<V: Value>()
    ensures { (finds : List ℕ → Option (Slots V)) (a : At) (name : List ℕ) (place : ℕ)
        → (means V.shows (environment finds) a).fault ≡ Some (missing_value name place)
        → Contains (asked_names a) name × (finds name ≡ None) }
{}
