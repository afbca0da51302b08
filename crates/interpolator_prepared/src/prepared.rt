//! Formats that were prepared for rows of values: names are positions, and text is joined.
ghost use Rattle.std.specs.Prelude.{◌≡◌, flat_map, length, map, IfErr, IfOk, Some};
ghost use Rattle.std.specs.Str.{chars};
ghost use Rattle.interpolator_syntax.specs.{Places.outermost, Faults.answer_of};
ghost use Rattle.interpolator_syntax.specs.{Faults.result_answer};
ghost use Rattle.interpolator_syntax.specs.{Faults.no_memory, Faults.PlaceWithin, Nodes.nodes};
ghost use Rattle.interpolator_eval.specs.Meaning.Outcomes.{Outcome, Formats};
ghost use Rattle.interpolator_eval.specs.{Escaping.shows_by, Meaning.Environments.environment};
ghost use Rattle.interpolator_eval.specs.Meaning.Meanings.{means};
ghost use Rattle.interpolator_prepared.specs.Rows.{cell_at, found_by_row, name_bytes, row_at};
ghost use Rattle.interpolator_prepared.specs.{Programs.program, StoredSteps.steps_of};
ghost use Rattle.interpolator_pieces.specs.{Lines.line_means, Stored.nodes_of};

use crate::compile::compile;
use crate::row::{Cells, NamedRow, PreparedRow, Row};
use crate::step::Step;
use crate::written_row::{format_row, write_row};
use interpolator_eval::{Escaper, Unescaped};
use interpolator_pieces::{Piece, write_by, write_newline};
use interpolator_render::{TextWrite, Value};
use interpolator_syntax::Error;
use std::alloc::Global;
use std::marker::Model;

/// A format that was prepared for rows of values: its names are positions, and the text between two
/// arguments is one piece, in which a doubled brace is one character.
///
/// It is written as [`write`](interpolator_pieces::write) writes its text with pairs of the names and the values,
/// to the byte and to the fault: use it for a format that is written often with values of the same
/// names. `Template::prepare` makes it.
///
/// # Example
///
/// ```text
/// let line = template.prepare(alloc, &sample)?;
/// for row in &rows {
///     line.write(alloc, &mut out, &Row(row))?;
/// }
/// ```
#[derive(Drop)]
pub struct Prepared {
    text: String,
    names: Vec<String>,
    steps: Vec<Step>,
}

impl Model for Prepared {
    ghost use Rattle.std.specs.Prelude.{◌≡◌, Some, flat_map, map, string_bytes};
    ghost use Rattle.std.specs.Str.{chars};
    ghost use Rattle.interpolator_syntax.specs.Places.{outermost};
    ghost use Rattle.interpolator_syntax.specs.Nodes.{nodes};
    ghost use Rattle.interpolator_prepared.specs.Programs.{program};
    ghost use Rattle.interpolator_prepared.specs.Rows.{PreparedFormat, name_bytes};
    ghost use Rattle.interpolator_prepared.specs.StoredSteps.{steps_of};

    ghost Value = { PreparedFormat };

    ghost view = { λ p. record { text = string_bytes p.text; names = name_bytes p.names.items } };

    ghost invariant = { λ p. flat_map (steps_of (string_bytes p.text)) p.steps.items
        ≡ map Some (program (name_bytes p.names.items)
        (nodes (outermost (chars (string_bytes p.text))))) };
}

impl Prepared {
    /// Writes what the format means with a row of values, as [`write`](interpolator_pieces::write) does with
    /// pairs of the names and these values. Of two equal names the last one counts. A name whose
    /// position the row does not reach has no value.
    ///
    /// Memory is taken where `write` takes it, and for nothing else.
    ///
    /// # Errors
    ///
    /// Those of `write` for the text, each at its place in it.
    ///
    /// # Example
    ///
    /// ```text
    /// prepared.write(alloc, &mut out, &Row(&[Formattable::display(&name)]))?;
    /// ```
    pub fn write<W: TextWrite, V: Value>(
        &self,
        alloc: Global,
        out: &mut W,
        row: &Row<'_, V>,
    ) -> Result<(), Error>
        ensures outcome { Outcome
            (means V.shows (environment (found_by_row self.now.names (row_at row.now.0.now)))
            (outermost (chars self.now.text)))
            (W.written out.old) (W.written out.new) (result_answer result) }
        ensures place { PlaceWithin (length self.now.text) (result_answer result) }
    {
        self.write_named(alloc, out, row)?;
        Ok(())
    }

    /// Writes what the format means with a row of values, as [`write`](Prepared::write) does, and
    /// after it a newline if there is no fault.
    ///
    /// # Errors
    ///
    /// Those of `write`; `Fmt` at place 0 if the writer takes the text and refuses the newline.
    ///
    /// # Example
    ///
    /// ```text
    /// prepared.write_line(alloc, &mut out, &Row(&[Formattable::display(&name)]))?;
    /// ```
    pub fn write_line<W: TextWrite, V: Value>(
        &self,
        alloc: Global,
        out: &mut W,
        row: &Row<'_, V>,
    ) -> Result<(), Error>
        ensures outcome { Outcome
            (line_means
            (means V.shows (environment (found_by_row self.now.names (row_at row.now.0.now)))
            (outermost (chars self.now.text))))
            (W.written out.old) (W.written out.new) (result_answer result) }
        ensures place { PlaceWithin (length self.now.text) (result_answer result) }
    {
        match self.write(alloc, out, row) {
            Ok(()) => write_newline(out),
            Err(fault) => Err(fault),
        }
    }

    /// The text that it means with a row, in a new `String`.
    ///
    /// # Errors
    ///
    /// Those of `write`, where `Fmt` means that a value failed; and `NoMemory` if there is no
    /// memory for the text, or for the room that it has at the beginning.
    ///
    /// # Example
    ///
    /// ```text
    /// prepared.format(alloc, &Row(&[Formattable::display(&name)]))?
    /// ```
    pub fn format<V: Value>(&self, alloc: Global, row: &Row<'_, V>) -> Result<String, Error>
        ensures formats { Formats
            (means V.shows (environment (found_by_row self.now.names (row_at row.now.0.now)))
            (outermost (chars self.now.text)))
            result }
        ensures place { PlaceWithin (length self.now.text) (result_answer result) }
    {
        let named = NamedRow {
            names: &self.names,
            row,
        };
        format_row::<Row<'_, V>, Unescaped>(alloc, self.text.as_str(), &named, &self.steps)
    }

    /// Writes what the format means with a row of another kind than [`Row`]: named values, as
    /// `values!` makes them, or a row of your own. Named values in another order than that of the
    /// names, more of them or fewer, are looked up one by one.
    ///
    /// # Errors
    ///
    /// Those of [`write`](Prepared::write).
    ///
    /// # Example
    ///
    /// ```text
    /// prepared.write_named(alloc, &mut out, &values!(name, n = apples))?;
    /// ```
    #[inline(always)]
    pub fn write_named<W: TextWrite, R: PreparedRow>(
        &self,
        alloc: Global,
        out: &mut W,
        row: &R,
    ) -> Result<(), Error>
        ensures outcome { Outcome
            (means R.Object.shows (environment (R.finds_in row.now self.now.names))
            (outermost (chars self.now.text)))
            (W.written out.old) (W.written out.new) (result_answer result) }
        ensures place { PlaceWithin (length self.now.text) (result_answer result) }
    {
        self.write_by::<W, R, Unescaped>(alloc, out, row)?;
        Ok(())
    }

    /// Writes what the format means with such a row, as [`write_named`](Prepared::write_named)
    /// does, but the text of each value as the escaper writes it.
    #[inline(always)]
    pub fn write_by<W: TextWrite, R: PreparedRow, E: Escaper>(
        &self,
        alloc: Global,
        out: &mut W,
        row: &R,
    ) -> Result<(), Error>
        ensures outcome { Outcome
            (means (shows_by E.shown R.Object.shows)
            (environment (R.finds_in row.now self.now.names))
            (outermost (chars self.now.text)))
            (W.written out.old) (W.written out.new) (result_answer result) }
        ensures place { PlaceWithin (length self.now.text) (result_answer result) }
    {
        let named = NamedRow {
            names: &self.names,
            row,
        };
        write_row::<W, R, E>(alloc, out, self.text.as_str(), &named, &self.steps)?;
        Ok(())
    }

    /// Writes what the format means with such a row, as [`write_named`](Prepared::write_named)
    /// does, and after it a newline if there is no fault.
    ///
    /// # Errors
    ///
    /// Those of `write_named`; `Fmt` at place 0 if the writer takes the text and refuses the newline.
    ///
    /// # Example
    ///
    /// ```text
    /// prepared.write_named_line(alloc, &mut out, &values!(name, n = apples))?;
    /// ```
    pub fn write_named_line<W: TextWrite, R: PreparedRow>(
        &self,
        alloc: Global,
        out: &mut W,
        row: &R,
    ) -> Result<(), Error>
        ensures outcome { Outcome
            (line_means
            (means R.Object.shows (environment (R.finds_in row.now self.now.names))
            (outermost (chars self.now.text))))
            (W.written out.old) (W.written out.new) (result_answer result) }
        ensures place { PlaceWithin (length self.now.text) (result_answer result) }
    {
        match self.write_named(alloc, out, row) {
            Ok(()) => write_newline(out),
            Err(fault) => Err(fault),
        }
    }

    /// The text that it means with such a row, in a new `String`.
    ///
    /// # Errors
    ///
    /// Those of [`format`](Prepared::format).
    ///
    /// # Example
    ///
    /// ```text
    /// prepared.format_named(alloc, &values!(name, n = apples))?
    /// ```
    pub fn format_named<R: PreparedRow>(&self, alloc: Global, row: &R) -> Result<String, Error>
        ensures formats { Formats
            (means R.Object.shows (environment (R.finds_in row.now self.now.names))
            (outermost (chars self.now.text)))
            result }
        ensures place { PlaceWithin (length self.now.text) (result_answer result) }
    {
        self.format_by::<R, Unescaped>(alloc, row)
    }

    /// The text that it means with such a row, in a new `String`, where the text of each value is
    /// as the escaper writes it.
    #[inline(always)]
    pub fn format_by<R: PreparedRow, E: Escaper>(
        &self,
        alloc: Global,
        row: &R,
    ) -> Result<String, Error>
        ensures formats { Formats
            (means (shows_by E.shown R.Object.shows)
            (environment (R.finds_in row.now self.now.names))
            (outermost (chars self.now.text)))
            result }
        ensures place { PlaceWithin (length self.now.text) (result_answer result) }
    {
        let named = NamedRow {
            names: &self.names,
            row,
        };
        format_row::<R, E>(alloc, self.text.as_str(), &named, &self.steps)
    }

    /// Writes what the format means with these values in the order of the names, each in the slots
    /// of all eight formatting traits. There is no list among them.
    ///
    /// # Errors
    ///
    /// Those of [`write`](Prepared::write).
    ///
    /// # Example
    ///
    /// ```text
    /// prepared.write_values(alloc, &mut out, &[View::from("Ann"), View::from(3u8)])?;
    /// ```
    pub fn write_values<W: TextWrite, V: Value>(
        &self,
        alloc: Global,
        out: &mut W,
        values: &[V],
    ) -> Result<(), Error>
        ensures outcome { Outcome
            (means V.shows (environment (found_by_row self.now.names (cell_at values.now)))
            (outermost (chars self.now.text)))
            (W.written out.old) (W.written out.new) (result_answer result) }
        ensures place { PlaceWithin (length self.now.text) (result_answer result) }
    {
        self.write_named(alloc, out, &Cells(values))?;
        Ok(())
    }

    /// The names, in the order of a row's values.
    ///
    /// # Example
    ///
    /// ```text
    /// prepared.names()    // the names of the sample
    /// ```
    pub fn names(&self) -> &[String]
        ensures names { name_bytes result.now ≡ self.now.names }
    {
        &self.names
    }

    /// The text of the format.
    ///
    /// # Example
    ///
    /// ```text
    /// prepared.text()    // the text of the template
    /// ```
    pub fn text(&self) -> &str
        ensures text { result.now ≡ self.now.text }
    {
        self.text.as_str()
    }
}

/// The format of these pieces with these names, in order.
pub fn prepare_pieces(
    alloc: Global,
    text: &str,
    pieces: &[Piece],
    names: Vec<String>,
) -> Result<Prepared, Error>
    requires pieces { nodes_of text.now pieces.now ≡ nodes (outermost (chars text.now)) }
    ensures prepared { IfOk result (λ made. made
        ≡ record { text = text.now; names = name_bytes names.items }) }
    ensures refused { IfErr result (λ error. answer_of error ≡ no_memory) }
{
    let steps = compile(alloc, text, &names, pieces)?;
    let text = String::from_str(alloc, text)?;
    Ok(Prepared { text, names, steps })
}
