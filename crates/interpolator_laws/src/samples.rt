//! Laws of formats that were checked against a sample, each the contract of a small function.

ghost use Rattle.std.specs.Prelude.{◌≡◌, ◌≢◌, ◌≤◌, IfErr, ℕ, ℤ, Bool, false, codes, length, List};
ghost use Rattle.std.specs.Prelude.{[], ◌∷◌, Option, None, Some};
ghost use Rattle.std.specs.{List.All, Float.Float, Float.Format, Str.chars, Borrow.Bor};
ghost use Rattle.interpolator_render.specs.Views.{Shown, some_text, unsigned_number, failure};
ghost use Rattle.interpolator_render.specs.Views.{signed_number, truth_value, one_character};
ghost use Rattle.interpolator_render.specs.Views.{decimal_number, float_number};
ghost use Rattle.interpolator_render.specs.{Texts.view_text, declared.view.Bits.Bits};
ghost use Rattle.interpolator_render.specs.{declared.view.Spec.Spec, declared.view.Trait.Trait};
ghost use Rattle.interpolator_render.specs.declared.view.Trait.TheVariants as traits;
ghost use Rattle.interpolator_syntax.specs.Places.{At, outermost};
ghost use Rattle.interpolator_syntax.specs.Faults.{fault_place, fmt, missing_trait_impl};
ghost use Rattle.interpolator_syntax.specs.Faults.{missing_value, parse, unclosed, iter, answer_of};
ghost use Rattle.interpolator_syntax.specs.Faults.{result_answer, no_memory};
ghost use Rattle.interpolator_eval.specs.Meaning.Environments.{Environment, environment};
ghost use Rattle.interpolator_eval.specs.Meaning.Outcomes.{Outcome, Formats, OnlyRefused};
ghost use Rattle.interpolator_eval.specs.Meaning.Resembling.{HasText, ResemblesOn};
ghost use Rattle.interpolator_eval.specs.Meaning.Samples.{shows_nothing, is_failure};
ghost use Rattle.interpolator_eval.specs.Slots.{Slots, empty_slots, with_debug_display};
ghost use Rattle.interpolator_eval.specs.Slots.{with_integer, with_iter};
ghost use Rattle.interpolator_eval.specs.{Meaning.AskedNames.asked_names, Meaning.Meanings.means};
ghost use Rattle.interpolator_eval.specs.Contexts.{found_by_pairs};
ghost use Rattle.interpolator_eval.specs.declared.slots.Formattable.{Formattable};
ghost use Rattle.interpolator_laws.specs.SamplePairs.{PairsResemble};
ghost use Rattle.interpolator_pieces.specs.NodeSamples.{faults_over, pads_a_list};

use interpolator::{Interpolate, Template};
use interpolator_eval::Context;
use interpolator_render::{TextWrite, Value};
use interpolator_syntax::Error;
use std::alloc::Global;

/// A format that has no fault against a sample means no fault in any context that resembles the
/// sample under the names that the format uses: it is not broken, no value and no trait is missing,
/// and no value fails. If no list in it is under a width, it takes no memory there.
///
/// A context resembles a sample if it has something under each name under which the sample has
/// something; if each slot that the sample fills is filled, by a value that has a text under each
/// spec under which the sample's value has one; and if it has a list wherever the sample has one,
/// each of whose items resembles some item of the sample's list.
///
/// So `Dear {name:>8}, {guests:i({})(, )}` is checked once, against one name and one guest; it then
/// has a text for every name and every list of guests.
pub fn a_checked_format_means_no_fault<S: Value, V: Value>()
    ensures fault { (finds : List ℕ → Option (Slots S)) (e : Environment V) (a : At)
        → faults_over S.shows finds a ≡ []
        → ResemblesOn S.shows V.shows e (environment finds) (asked_names a)
        → (means V.shows e a).fault ≡ None }
    ensures memory { (finds : List ℕ → Option (Slots S)) (e : Environment V) (a : At)
        → faults_over S.shows finds a ≡ []
        → ResemblesOn S.shows V.shows e (environment finds) (asked_names a)
        → pads_a_list a ≡ false → (means V.shows e a).memory_points ≡ [] }
{}

/// Each fault that a format has by itself or with a sample has a place in its text, or just after
/// it: at most as many bytes from the beginning as the text has.
pub fn every_fault_lies_in_the_text<V: Value>(_text: &str)
    ensures { (finds : List ℕ → Option (Slots V)) → All (λ f. fault_place f ≤ length _text.now)
        (faults_over V.shows finds (outermost (chars _text.now))) }
{}

/// Writes a template that has no fault against a sample, in a context that resembles it: all is
/// written, unless the writer refuses or there is no memory for a list under a width. Without such
/// a list no memory is taken.
///
/// # Errors
///
/// `Fmt` if the writer has refused; `NoMemory`.
///
/// # Example
///
/// ```text
/// template.check_in(alloc, &sample)?;    // once
/// for row in &rows {
///     a_checked_template_is_written(alloc, &mut out, &template, &sample, row)?;
/// }
/// ```
pub fn a_checked_template_is_written<W: TextWrite, S: Context, C: Context>(
    alloc: Global,
    out: &mut W,
    template: &Template,
    _sample: &S,
    context: &C,
) -> Result<(), Error>
    requires checked { faults_over S.Object.shows (S.finds _sample.now)
        (outermost (chars template.now)) ≡ [] }
    requires resembles { ResemblesOn S.Object.shows C.Object.shows
        (environment (C.finds context.now)) (environment (S.finds _sample.now))
        (asked_names (outermost (chars template.now))) }
    ensures outcome { Outcome
        (means C.Object.shows (environment (C.finds context.now)) (outermost (chars template.now)))
        (W.written out.old) (W.written out.new) (result_answer result) }
    ensures answer { OnlyRefused (W.written out.new) (result_answer result) }
    ensures memory { pads_a_list (outermost (chars template.now)) ≡ false
        → result_answer result ≢ Some no_memory }
{
    template.write(alloc, out, context)
}

/// Returns the text of a template that has no fault against a sample, in a context that resembles
/// it.
///
/// # Errors
///
/// `NoMemory`.
///
/// # Example
///
/// ```text
/// a_checked_template_is_formatted(alloc, &template, &sample, &row)?
/// ```
pub fn a_checked_template_is_formatted<S: Context, C: Interpolate>(
    alloc: Global,
    template: &Template,
    _sample: &S,
    context: &C,
) -> Result<String, Error>
    requires checked { faults_over S.Object.shows (S.finds _sample.now)
        (outermost (chars template.now)) ≡ [] }
    requires resembles { ResemblesOn S.Object.shows C.Object.shows
        (environment (C.finds context.now)) (environment (S.finds _sample.now))
        (asked_names (outermost (chars template.now))) }
    ensures formats { Formats
        (means C.Object.shows (environment (C.finds context.now)) (outermost (chars template.now)))
        result }
    ensures refused { IfErr result (λ error. answer_of error ≡ no_memory) }
{
    context.format_template(alloc, template)
}

/// Pairs resemble a sample of pairs that has the same names in the same order, if under each name
/// is what resembles what the sample has there: so the pairs that a function makes of a row
/// resemble those that it makes of an example row.
pub fn pairs_of_the_same_names_resemble<S: Value, V: Value>()
    ensures { (pairs : List (Bor (List ℕ) × Formattable V))
        (sample : List (Bor (List ℕ) × Formattable S)) (names : List (List ℕ))
        → PairsResemble S.shows V.shows pairs sample
        → ResemblesOn S.shows V.shows (environment (found_by_pairs pairs))
        (environment (found_by_pairs sample)) names }
{}

/// Each context resembles itself, under whatever names. So the values that a format is to be
/// written with may be its sample: if it has no fault against them, it means none with them.
pub fn a_context_resembles_itself<V: Value>()
    ensures resembles { (e : Environment V) (names : List (List ℕ))
        → ResemblesOn V.shows V.shows e e names }
    ensures fault { (finds : List ℕ → Option (Slots V)) (a : At)
        → faults_over V.shows finds a ≡ []
        → (means V.shows (environment finds) a).fault ≡ None }
{}

/// Whether a view has a text depends on its kind and on the trait, not on what it contains. So each
/// number has a text if any number of its type has one, each text if any text has one, and so on
/// for decimals, floats of any width, truth values and characters: one of them is a sample of all.
pub fn a_view_has_a_text_by_its_kind()
    ensures kind { (x y : Shown) (t : Trait) (spec : Spec) → shows_nothing x t ≡ shows_nothing y t
        → is_failure x ≡ is_failure y → HasText (view_text x t spec)
        → HasText (view_text y t spec) }
    ensures unsigned { (m n : ℕ) (t : Trait) (spec : Spec)
        → HasText (view_text (unsigned_number m) t spec)
        → HasText (view_text (unsigned_number n) t spec) }
    ensures signed { (y z : ℤ) (bits : Bits) (t : Trait) (spec : Spec)
        → HasText (view_text (signed_number y bits) t spec)
        → HasText (view_text (signed_number z bits) t spec) }
    ensures texts { (cs ds : List ℕ) (t : Trait) (spec : Spec)
        → HasText (view_text (some_text cs) t spec) → HasText (view_text (some_text ds) t spec) }
    ensures truths { (a b : Bool) (t : Trait) (spec : Spec)
        → HasText (view_text (truth_value a) t spec)
        → HasText (view_text (truth_value b) t spec) }
    ensures decimals { (y z : ℤ) (m n : ℕ) (t : Trait) (spec : Spec)
        → HasText (view_text (decimal_number y m) t spec)
        → HasText (view_text (decimal_number z n) t spec) }
    ensures floats { (f h : Format) (x y : Float) (t : Trait) (spec : Spec)
        → HasText (view_text (float_number f x) t spec)
        → HasText (view_text (float_number h y) t spec) }
    ensures characters { (c d : ℕ) (t : Trait) (spec : Spec)
        → HasText (view_text (one_character c) t spec)
        → HasText (view_text (one_character d) t spec) }
{}

/// The faults of some formats against samples, whose values show what they contain. In the first
/// sample each name has a list of the text `a` and the number 7: the item format is checked with
/// both, though the range chooses neither. In the second each name has the text `a`, which is not a
/// list; in the third no name has anything; in the fourth each has a list of a value that fails.
pub fn faults_over_examples()
    ensures range { faults_over (λ shown t spec. shown) (λ name. Some (with_iter empty_slots
        (with_debug_display empty_slots (some_text (codes "a"))
        ∷ with_integer empty_slots (unsigned_number 7) ∷ [])))
        (outermost (codes "{l:i5({:x})}")) ≡ missing_trait_impl traits.LowerHex 9 ∷ [] }
    ensures order { faults_over (λ shown t spec. shown)
        (λ name. Some (with_debug_display empty_slots (some_text (codes "a"))))
        (outermost (codes "{n:+i({:x})({z)}"))
        ≡ missing_trait_impl traits.Iter 15 ∷ parse (iter 15) ∷ parse (unclosed 13) ∷ [] }
    ensures missing { faults_over (λ shown t spec. shown) (λ name. None)
        (outermost (codes "{a}{b:x}")) ≡ missing_value (codes "a") 1 ∷ missing_value (codes "b") 4
        ∷ [] }
    ensures fails { faults_over (λ shown t spec. shown)
        (λ name. Some (with_iter empty_slots (with_debug_display empty_slots failure ∷ [])))
        (outermost (codes "{l:i}")) ≡ fmt 4 ∷ [] }
{}
