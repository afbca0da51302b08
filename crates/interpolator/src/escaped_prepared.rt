//! Prepared formats whose values are written escaped.
ghost use Rattle.std.specs.Prelude.{◌≡◌, length, IfErr, IfOk, Some, None, ◌⊎◌};
ghost use Rattle.std.specs.Str.{chars};
ghost use Rattle.interpolator_syntax.specs.{Places.outermost, Faults.answer_of};
ghost use Rattle.interpolator_syntax.specs.{Faults.result_answer};
ghost use Rattle.interpolator_syntax.specs.{Faults.no_memory, Faults.PlaceWithin};
ghost use Rattle.interpolator_eval.specs.{Meaning.Environments.environment, Meaning.Meanings.means};
ghost use Rattle.interpolator_eval.specs.Meaning.Outcomes.{Outcome};
ghost use Rattle.interpolator_escapes.specs.Formats.{escaped_shows};
ghost use Rattle.interpolator_pieces.specs.{NodeSamples.faults_over, Collecting.AnswersFirst};
ghost use Rattle.interpolator_prepared.specs.Rows.{found_by_row, pair_names, row_at};
ghost use Rattle.interpolator.specs.NamedValues.{found_by_values, pairs_of, view_shows};

use crate::escaped_template::EscapedTemplate;
use crate::values::Values;
use interpolator_escapes::{
    CsvEscaper, Escape, HtmlEscaper, JsonEscaper, LineEscaper, ShellEscaper,
};
use interpolator_prepared::{Prepared, PreparedRow, Row};
use interpolator_render::{TextWrite, Value};
use interpolator_syntax::Error;
use std::alloc::Global;
use std::marker::Model;

/// A prepared format whose values all stand in places of an [`Escape`], and are written escaped.
/// [`EscapedTemplate::prepare_named`] makes it.
///
/// # Example
///
/// ```text
/// let line = page.prepare_named(alloc, &values!(name = ""))?;
/// for name in names {
///     line.write_named(alloc, &mut out, &values!(name = *name))?;
/// }
/// ```
#[derive(Drop)]
pub struct EscapedPrepared {
    prepared: Prepared,
    escape: Escape,
}

impl Model for EscapedPrepared {
    ghost use Rattle.std.specs.Str.{chars};
    ghost use Rattle.interpolator_syntax.specs.Places.{outermost};
    ghost use Rattle.interpolator_escapes.specs.EscapedFormats.{EscapedRows};
    ghost use Rattle.interpolator_escapes.specs.Placing.{StandsFor};

    ghost Value = { EscapedRows };

    ghost view = { λ p. record {
      text = p.prepared.text;
      names = p.prepared.names;
      escape = p.escape;
    } };

    ghost invariant = { λ p. StandsFor p.escape (outermost (chars p.prepared.text)) };
}

impl EscapedTemplate {
    /// The format, prepared for rows of values in the order of the sample's names, if it has no fault
    /// against them, as [`Template::prepare_named`](crate::Template::prepare_named) prepares it. An
    /// escape makes no fault, so the sample is not escaped.
    ///
    /// # Errors
    ///
    /// Those of `Template::prepare_named`.
    ///
    /// # Example
    ///
    /// ```text
    /// let line = page.prepare_named(alloc, &values!(name = "", n:integer = 0u8))?;
    /// ```
    pub fn prepare_named(
        &self,
        alloc: Global,
        values: &Values<'_>,
    ) -> Result<EscapedPrepared, Error>
        ensures prepared { IfOk result (λ made. made ≡ record {
          text = self.now.text;
          names = pair_names (pairs_of values.now);
          escape = self.now.escape;
        }) }
        ensures faultless { IfOk result (λ _. AnswersFirst (faults_over view_shows
            (found_by_values values.now) (outermost (chars self.now.text))) None) }
        ensures refused { IfErr result (λ error. (answer_of error ≡ no_memory)
            ⊎ AnswersFirst (faults_over view_shows (found_by_values values.now)
            (outermost (chars self.now.text))) (Some (answer_of error))) }
        ensures place { PlaceWithin (length self.now.text) (result_answer result) }
    {
        let escape = self.escape();
        let prepared = self.template().prepare_named(alloc, values)?;
        Ok(EscapedPrepared { prepared, escape })
    }
}

impl EscapedPrepared {
    /// Writes what the format means with a row of named values, or a row of your own, each value
    /// escaped, as [`Prepared::write_named`] does.
    ///
    /// # Errors
    ///
    /// Those of `Prepared::write_named`.
    ///
    /// # Example
    ///
    /// ```text
    /// line.write_named(alloc, &mut out, &values!(name, n:integer = apples))?;
    /// ```
    pub fn write_named<W: TextWrite, R: PreparedRow>(
        &self,
        alloc: Global,
        out: &mut W,
        row: &R,
    ) -> Result<(), Error>
        ensures outcome { Outcome
            (means (escaped_shows self.now.escape R.Object.shows)
            (environment (R.finds_in row.now self.now.names))
            (outermost (chars self.now.text)))
            (W.written out.old) (W.written out.new) (result_answer result) }
        ensures place { PlaceWithin (length self.now.text) (result_answer result) }
    {
        let prepared = &self.prepared;
        match self.escape {
            Escape::Line => prepared.write_by::<W, R, LineEscaper>(alloc, out, row),
            Escape::Html => prepared.write_by::<W, R, HtmlEscaper>(alloc, out, row),
            Escape::Csv => prepared.write_by::<W, R, CsvEscaper>(alloc, out, row),
            Escape::Json => prepared.write_by::<W, R, JsonEscaper>(alloc, out, row),
            Escape::Shell => prepared.write_by::<W, R, ShellEscaper>(alloc, out, row),
        }
    }

    /// Writes what the format means with a row of values, each escaped, as [`Prepared::write`] does.
    ///
    /// # Errors
    ///
    /// Those of `Prepared::write`.
    ///
    /// # Example
    ///
    /// ```text
    /// line.write(alloc, &mut out, &Row(&[Formattable::display(&name)]))?;
    /// ```
    pub fn write<W: TextWrite, V: Value>(
        &self,
        alloc: Global,
        out: &mut W,
        row: &Row<'_, V>,
    ) -> Result<(), Error>
        ensures outcome { Outcome
            (means (escaped_shows self.now.escape V.shows)
            (environment (found_by_row self.now.names (row_at row.now.0.now)))
            (outermost (chars self.now.text)))
            (W.written out.old) (W.written out.new) (result_answer result) }
        ensures place { PlaceWithin (length self.now.text) (result_answer result) }
    {
        self.write_named(alloc, out, row)?;
        Ok(())
    }
}
