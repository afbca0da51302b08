//! Writes the steps of a prepared format with a row.
ghost use Rattle.std.specs.Prelude.{◌≡◌, flat_map, length, map, Some};
ghost use Rattle.std.specs.Str.{chars};
ghost use Rattle.interpolator_syntax.specs.Faults.{result_answer, PlaceWithin};
ghost use Rattle.interpolator_syntax.specs.{Places.outermost, Nodes.nodes};
ghost use Rattle.interpolator_eval.specs.Meaning.Outcomes.{Outcome, Formats};
ghost use Rattle.interpolator_eval.specs.{Escaping.shows_by, Meaning.Environments.environment};
ghost use Rattle.interpolator_eval.specs.Meaning.Meanings.{means};
ghost use Rattle.interpolator_prepared.specs.{Programs.program, Rows.name_bytes};
ghost use Rattle.interpolator_prepared.specs.StoredSteps.{steps_of};

use crate::row::{NamedRow, PreparedRow};
use crate::run::run_steps;
use crate::step::Step;
use interpolator_eval::Escaper;
use interpolator_pieces::{buffer_for, write_by};
use interpolator_render::{TextBuffer, TextWrite};
use interpolator_syntax::Error;
use std::alloc::Global;

/// Writes the steps of a format with a row; if the row is not in the order of the names, writes the
/// text instead.
pub fn write_row<'a, W: TextWrite, R: PreparedRow, E: Escaper>(
    alloc: Global,
    out: &mut W,
    text: &str,
    named: &NamedRow<'a, R>,
    steps: &[Step],
) -> Result<(), Error>
    requires program { flat_map (steps_of text.now) steps.now
        ≡ map Some (program (name_bytes named.now.names.now) (nodes (outermost (chars text.now)))) }
    ensures outcome { Outcome
        (means (shows_by E.shown R.Object.shows)
        (environment (R.finds_in named.now.row.now (name_bytes named.now.names.now)))
        (outermost (chars text.now)))
        (W.written out.old) (W.written out.new) (result_answer result) }
    ensures place { PlaceWithin (length text.now) (result_answer result) }
{
    if !named.row.is_in_order(named.names) {
        return write_by::<W, NamedRow<'_, R>, E>(alloc, out, text, named);
    }
    run_steps::<W, R, E>(alloc, out, text, named, steps)?;
    Ok(())
}

/// The text of the steps of a format with a row, in a new `String`.
pub fn format_row<'a, R: PreparedRow, E: Escaper>(
    alloc: Global,
    text: &str,
    named: &NamedRow<'a, R>,
    steps: &[Step],
) -> Result<String, Error>
    requires program { flat_map (steps_of text.now) steps.now
        ≡ map Some (program (name_bytes named.now.names.now) (nodes (outermost (chars text.now)))) }
    ensures formats { Formats
        (means (shows_by E.shown R.Object.shows)
        (environment (R.finds_in named.now.row.now (name_bytes named.now.names.now)))
        (outermost (chars text.now)))
        result }
    ensures place { PlaceWithin (length text.now) (result_answer result) }
{
    let mut out = buffer_for(alloc, text)?;
    let answer = write_row::<TextBuffer, R, E>(alloc, &mut out, text, named, steps);
    if out.refused() {
        return Err(Error::NoMemory);
    }
    answer?;
    Ok(out.into_string())
}
