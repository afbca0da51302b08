//! Laws of prepared formats, each the contract of a small function.

ghost use Rattle.std.specs.Prelude.{◌≡◌, ◌≢◌, ◌<◌, ◌≤◌, ℕ, List, [], ◌∷◌, length, map, Option};
ghost use Rattle.std.specs.Prelude.{IsSome, None, Some, codes, false};
ghost use Rattle.std.specs.{Borrow.Bor, List.zip, Str.chars};
ghost use Rattle.interpolator_render.specs.declared.view.Trait.TheVariants as traits;
ghost use Rattle.interpolator_syntax.specs.Nodes.{Node, as_forest, nodes};
ghost use Rattle.interpolator_syntax.specs.{Places.At, Places.outermost, Faults.result_answer};
ghost use Rattle.interpolator_syntax.specs.{Faults.no_memory, SpecTexts.plain_spec};
ghost use Rattle.interpolator_eval.specs.Meaning.Meanings.{forest_means, means};
ghost use Rattle.interpolator_eval.specs.Meaning.Outcomes.{Outcome, OnlyRefused};
ghost use Rattle.interpolator_eval.specs.{Contexts.found_by_pairs, Slots.Slots};
ghost use Rattle.interpolator_eval.specs.declared.slots.Formattable.{Formattable};
ghost use Rattle.interpolator_eval.specs.Meaning.Environments.{environment};
ghost use Rattle.interpolator_laws.specs.SamplePairs.{RowResembles};
ghost use Rattle.interpolator_prepared.specs.Programs.{program, steps_mean, text_step, value_step};
ghost use Rattle.interpolator_prepared.specs.Rows.{found_by_row, pair_names, row_at};
ghost use Rattle.interpolator_pieces.specs.NodeSamples.{faults_over, pads_a_list};

use interpolator_eval::Pairs;
use interpolator_prepared::{Prepared, Row};
use interpolator_render::{TextWrite, Value};
use interpolator_syntax::Error;
use std::alloc::Global;

/// With a row that reaches each name, the program of nodes and names means what the nodes mean if
/// each name means the value at its last position: text, places and fault are the same.
///
/// So the program of `a{{b{x}` and the names `x`, `y` and `x` has two steps: the text `a{b`, whose
/// characters are at 0, 1 and 3, and the value at position 2.
pub fn programs_mean_what_their_nodes_mean<V: Value>()
    ensures program { (names : List (List ℕ)) → (value_at : ℕ → Option (Slots V))
        → ((k : ℕ) → k < length names → IsSome (value_at k)) → (xs : List Node)
        → let e = environment (found_by_row names value_at) in
        steps_mean V.shows e value_at (program names xs) ≡ forest_means V.shows e (as_forest xs) }
    ensures value { program (codes "x" ∷ codes "y" ∷ codes "x" ∷ [])
        (nodes (outermost (codes "a{{b{x}")))
        ≡ text_step ((97, 0) ∷ (123, 1) ∷ (98, 3) ∷ []) ∷ value_step 2 traits.Display plain_spec 6
        ∷ [] }
{}

/// With a row that reaches each of some names, a format means what it means with pairs of these
/// names and the row's values. Of two equal names the last counts in both.
pub fn a_row_means_what_its_pairs_do<V: Value>()
    ensures { (names : List (Bor (List ℕ))) (row : List (Formattable V)) (a : At)
        → length names ≤ length row
        → means V.shows (environment (found_by_row (map (λ name. name.now) names) (row_at row))) a
        ≡ means V.shows (environment (found_by_pairs (zip names row))) a }
{}

/// A format that has no fault against a sample of pairs means none with a row that has, at the
/// position of each pair, what resembles it: whatever values the row has, no value and no trait is
/// missing, and no value fails.
pub fn a_checked_format_means_no_fault_over_rows<S: Value, V: Value>()
    ensures { (sample : List (Bor (List ℕ) × Formattable S)) (row : List (Formattable V)) (a : At)
        → faults_over S.shows (found_by_pairs sample) a ≡ []
        → RowResembles S.shows V.shows row sample
        → (means V.shows (environment (found_by_row (pair_names sample) (row_at row))) a).fault
        ≡ None }
{}

/// Writes a prepared format with a row that resembles the sample, against which the format has no
/// fault: all is written, unless the writer refuses or there is no memory for a list under a width.
/// Without such a list no memory is taken.
///
/// # Errors
///
/// `Fmt` if the writer has refused; `NoMemory`.
///
/// # Example
///
/// ```text
/// let line = template.prepare(alloc, &sample)?;    // once
/// for row in &rows {
///     a_prepared_format_is_written(alloc, &mut out, &line, &sample, &Row(row))?;
/// }
/// ```
pub fn a_prepared_format_is_written<W: TextWrite, S: Value, V: Value>(
    alloc: Global,
    out: &mut W,
    prepared: &Prepared,
    _sample: &Pairs<'_, S>,
    row: &Row<'_, V>,
) -> Result<(), Error>
    requires names { prepared.now.names ≡ pair_names _sample.now.0.now }
    requires checked { faults_over S.shows (found_by_pairs _sample.now.0.now)
        (outermost (chars prepared.now.text)) ≡ [] }
    requires resembles { RowResembles S.shows V.shows row.now.0.now _sample.now.0.now }
    ensures outcome { Outcome
        (means V.shows (environment (found_by_row prepared.now.names (row_at row.now.0.now)))
        (outermost (chars prepared.now.text)))
        (W.written out.old) (W.written out.new) (result_answer result) }
    ensures answer { OnlyRefused (W.written out.new) (result_answer result) }
    ensures memory { pads_a_list (outermost (chars prepared.now.text)) ≡ false
        → result_answer result ≢ Some no_memory }
{
    prepared.write(alloc, out, row)
}
