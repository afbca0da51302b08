//! Laws of what a format can cost at most, each the contract of a small function.

ghost use Rattle.std.specs.Prelude.{◌≡◌, ◌≢◌, ℕ, ◌*◌, ◌-◌, ◌^◌, ◌<◌, ◌≤◌, Bool, List, [], Option};
ghost use Rattle.std.specs.Prelude.{None, Some, codes, false, length, max};
ghost use Rattle.std.specs.{Float.float_is_finite, Float.Ieee.Float, Float.Ieee.Format};
ghost use lib.Ieee.Exact.{HasValue};
ghost use Rattle.interpolator_render.specs.Lengths.{IsBodyWithin, IsFloatWithin, most_decimal};
ghost use Rattle.interpolator_render.specs.Lengths.{most_text};
ghost use Rattle.interpolator_render.specs.{Forms.float_body, declared.view.Trait.Trait};
ghost use Rattle.interpolator_syntax.specs.Places.{At, outermost};
ghost use Rattle.interpolator_syntax.specs.{Faults.missing_value, declared.range.Range.Range};
ghost use Rattle.interpolator_eval.specs.Meaning.Limits.{IsWithin, most_chosen};
ghost use Rattle.interpolator_eval.specs.Meaning.{AskedNames.asked_names, Choices.chosen_items};
ghost use Rattle.interpolator_eval.specs.Meaning.{Environments.Environment, Meanings.means};
ghost use Rattle.interpolator_eval.specs.Meaning.Work.{text_work};
ghost use Rattle.interpolator_pieces.specs.NodeCosts.{text_cost, usize_cost, ten_and_three};
ghost use Rattle.interpolator_pieces.specs.declared.cost.Limits.{Limits};

use interpolator_render::Value;
use interpolator_render::laws::precise_digits;

/// With values within the limits, a format costs no more than its cost: the text that it means has
/// no more characters, writing it goes through no more pieces, and lists under a width have no more
/// characters in buffers at one time. A count that is reported as the greatest `usize` may be
/// greater.
///
/// So `{l:i({:?})(, )}` with at most three texts of at most ten characters writes at most 190
/// characters: 62 for each quoted text, and two joins.
pub fn a_format_costs_no_more_than_it_is_said_to<V: Value>()
    ensures characters { (limits : Limits) (e : Environment V) (a : At)
        → IsWithin V.shows limits.text limits.items e (asked_names a)
        → length (means V.shows e a).text ≤ (text_cost limits a).characters }
    ensures pieces { (limits : Limits) (e : Environment V) (a : At)
        → IsWithin V.shows limits.text limits.items e (asked_names a)
        → (text_work V.shows e a).pieces ≤ (text_cost limits a).pieces }
    ensures buffered { (limits : Limits) (e : Environment V) (a : At)
        → IsWithin V.shows limits.text limits.items e (asked_names a)
        → (text_work V.shows e a).held ≤ (text_cost limits a).buffered }
    ensures reported { (limits : Limits) (e : Environment V) (a : At)
        → IsWithin V.shows limits.text limits.items e (asked_names a)
        → (usize_cost (text_cost limits a)).characters ≢ 2 ^ 64 - 1
        → length (means V.shows e a).text ≤ (usize_cost (text_cost limits a)).characters }
{}

/// A format whose cost has nothing buffered takes memory for nothing but the name of a missing
/// value.
///
/// So `{a:>5}{l:i({})(, )}` takes no memory in a context that has `a` and `l`.
pub fn a_format_that_holds_nothing_takes_no_memory<V: Value>()
    ensures none { (limits : Limits) (e : Environment V) (a : At)
        → (text_cost limits a).buffered ≡ 0
        → ((name : List ℕ) (place : ℕ)
        → (means V.shows e a).fault ≢ Some (missing_value name place))
        → (means V.shows e a).memory_points ≡ [] }
{}

/// Greater limits never give a smaller cost. So a program may round its limits up.
pub fn a_cost_grows_with_the_limits()
    ensures characters { (few many : Limits) (a : At) → few.text ≤ many.text
        → few.items ≤ many.items
        → (text_cost few a).characters ≤ (text_cost many a).characters }
    ensures pieces { (few many : Limits) (a : At) → few.text ≤ many.text
        → few.items ≤ many.items → (text_cost few a).pieces ≤ (text_cost many a).pieces }
    ensures buffered { (few many : Limits) (a : At) → few.text ≤ many.text
        → few.items ≤ many.items → (text_cost few a).buffered ≤ (text_cost many a).buffered }
{}

/// The cost of some formats, if a text has at most 10 characters and a list at most 3 items.
///
/// A number has at most 40 characters under display, 46 under `+#o`, and a decimal at most 19
/// under `.4e`.
pub fn worked_costs()
    ensures pieces { text_cost ten_and_three (outermost (codes "ab{{{x}}"))
        ≡ record { characters = 44; pieces = 4; buffered = 0 } }
    ensures traits { text_cost ten_and_three (outermost (codes "{x:+#o}{x:.4e}{x:?}{x:50}"))
        ≡ record { characters = 177; pieces = 4; buffered = 0 } }
    ensures joins { text_cost ten_and_three (outermost (codes "{l:i({:?}!)(, )}"))
        ≡ record { characters = 193; pieces = 9; buffered = 0 } }
    ensures ranges { text_cost ten_and_three (outermost (codes "{l:i-3..-1}{l:i2..}{l:i..=0}"))
        ≡ record { characters = 160; pieces = 7; buffered = 0 } }
    ensures buffers { text_cost ten_and_three (outermost (codes "{l:200i#({:150i})#(-)}"))
        ≡ record { characters = 452; pieces = 15; buffered = 572 } }
    ensures empty { text_cost ten_and_three (outermost (codes "{l:i#({:i()})#}"))
        ≡ record { characters = 0; pieces = 13; buffered = 0 } }
{}

/// From a list of at most `most` items, a range chooses no more than the bound that a cost uses.
///
/// So `-3..-1` chooses at most two items of any list.
pub fn a_range_chooses_no_more_than_is_said_of_it<T>()
    ensures { (most : ℕ) (range : Option Range) (xs : List T) → length xs ≤ most
        → length (chosen_items range xs) ≤ most_chosen most range }
{}

/// A float below 2^126 that is within a limit without a precision is within it at any precision.
/// So is an infinity, or a NaN.
///
/// So with the limit 10 `{x:.9}` of 1.5 has no more than 50 characters.
pub fn a_float_that_keeps_a_limit_keeps_it_at_each_precision()
    ensures finite { (most : ℕ) (format : Format) (x : Float) (negative : Bool)
        (mantissa power : ℕ) → HasValue x negative (mantissa * 2 ^ power) (2 ^ 1074)
        → mantissa < 2 ^ 53 → power ≤ 1147
        → ((t : Trait) → IsBodyWithin (max (most_decimal t None) (most_text t most))
        (float_body format t None x))
        → IsFloatWithin most format x }
    ensures words { (most : ℕ) (format : Format) (x : Float) → float_is_finite x ≡ false
        → ((t : Trait) → IsBodyWithin (max (most_decimal t None) (most_text t most))
        (float_body format t None x))
        → IsFloatWithin most format x }
{
    precise_digits();
}
