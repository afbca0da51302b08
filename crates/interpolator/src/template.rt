//! Formats that are read once and written many times.
ghost use Rattle.std.specs.Prelude.{◌≡◌, ◌+◌, ◌≤◌, ◌⊎◌, None, Some, length, IfErr, IfOk};
ghost use Rattle.std.specs.Str.{chars};
ghost use Rattle.interpolator_syntax.specs.Faults.{answer_of, result_answer, fault, no_memory};
ghost use Rattle.interpolator_syntax.specs.Faults.{PlaceWithin};
ghost use Rattle.interpolator_syntax.specs.{Places.outermost, Nodes.nodes};
ghost use Rattle.interpolator_eval.specs.Meaning.{AskedNames.asked_names, Environments.environment};
ghost use Rattle.interpolator_eval.specs.Meaning.{Limits.IsWithin, Work.text_work};
ghost use Rattle.interpolator_eval.specs.{Escaping.shows_by, Contexts.found_by_pairs};
ghost use Rattle.interpolator_prepared.specs.Rows.{pair_names};
ghost use Rattle.interpolator_pieces.specs.Calls.{MakesText, WritesLine, WritesText};
ghost use Rattle.interpolator_pieces.specs.{NodeCosts.text_cost, declared.cost.Limits.Limits};
ghost use Rattle.interpolator_pieces.specs.{NodeSamples.faults_over, Collecting.AnswersFirst};
ghost use Rattle.interpolator_pieces.specs.Stored.{nodes_of};
ghost use Rattle.interpolator.specs.NamedValues.{found_by_values, pairs_of, view_shows};

use crate::interpolate::Interpolate;
use crate::sample_map::map_of;
use crate::values::Values;
use interpolator_eval::{Context, Escaper, Pairs, PieceCount, Unescaped};
use interpolator_pieces::{
    Limits, Parsed, Piece, format_pieces, parse_pieces, write_counted, write_newline, write_pieces,
};
use interpolator_prepared::{Prepared, names_of, prepare_pieces};
use interpolator_render::{TextWrite, Value};
use interpolator_syntax::{Cursor, Error};
use std::alloc::Global;
use std::marker::Model;
use std::sync::ledger::Ledger;

/// The most pairs of a sample that are looked through for each name.
const FEW: usize = 32;

/// A format that was read once: its text and its pieces.
///
/// It is written as [`write`](crate::write) writes its text, to the byte and to the fault, but
/// nothing is read again: use it for a format that is written often, and `write` for one that is
/// written once.
///
/// # Example
///
/// ```text
/// let letter = Template::parse(alloc, "Dear {name},\n")?;
/// for row in &rows {
///     row.write_template_to(alloc, &mut out, &letter)?;
/// }
/// ```
#[derive(Drop)]
pub struct Template {
    pub(crate) text: String,
    pub(crate) pieces: Vec<Piece>,
}

impl Model for Template {
    ghost use Rattle.std.specs.Prelude.{◌≡◌, List, ℕ, string_bytes};
    ghost use Rattle.std.specs.Str.{chars};
    ghost use Rattle.interpolator_syntax.specs.Places.{outermost};
    ghost use Rattle.interpolator_syntax.specs.Nodes.{nodes};
    ghost use Rattle.interpolator_pieces.specs.Stored.{nodes_of};

    ghost Value = { List ℕ };

    ghost view = { λ t. string_bytes t.text };

    ghost invariant = { λ t. nodes_of (string_bytes t.text) t.pieces.items
        ≡ nodes (outermost (chars (string_bytes t.text))) };
}

impl Template {
    /// Reads a format. A broken one is read too: its fault is returned when it is written, and that
    /// of an item format when an item is written.
    ///
    /// # Errors
    ///
    /// `NoMemory`: there is no memory for the text or its pieces.
    ///
    /// # Example
    ///
    /// ```text
    /// let template = Template::parse(alloc, "{name:>8}|")?;
    /// ```
    pub fn parse(alloc: Global, text: &str) -> Result<Template, Error>
        ensures template { IfOk result (λ template. template ≡ text.now) }
        ensures refused { IfErr result (λ error. answer_of error ≡ no_memory) }
    {
        let start = Cursor {
            place: 0,
            rest: text,
        };
        let pieces = parse_pieces(alloc, start)?;
        let text = String::from_str(alloc, text)?;
        Ok(Template { text, pieces })
    }

    /// Its text and its pieces.
    #[inline(always)]
    fn parsed(&self) -> Parsed<'_>
        ensures text { result.text.now ≡ self.now }
        ensures pieces { nodes_of result.text.now result.pieces.now
            ≡ nodes (outermost (chars self.now)) }
    {
        Parsed {
            text: self.text.as_str(),
            pieces: &self.pieces,
        }
    }

    /// Writes what the format means in the context, as [`write`](crate::write) does with its text.
    ///
    /// Memory is taken where `write` takes it, and for nothing else. How many pieces are gone through
    /// is what [`write_counted`](Template::write_counted) counts, by the same code.
    ///
    /// # Errors
    ///
    /// Those of `write` for the text, each at its place in it.
    ///
    /// # Example
    ///
    /// ```text
    /// template.write(alloc, &mut out, &context)?;
    /// ```
    pub fn write<W: TextWrite, C: Context>(
        &self,
        alloc: Global,
        out: &mut W,
        context: &C,
    ) -> Result<(), Error>
        ensures { WritesText C.Object.shows (C.finds context.now) self.now
            (W.written out.old) (W.written out.new) (result_answer result) }
    {
        self.write_by::<W, C, Unescaped>(alloc, out, context)
    }

    /// Writes what the format means in the context, the text of each value as the escaper writes it.
    #[inline(always)]
    pub(crate) fn write_by<W: TextWrite, C: Context, E: Escaper>(
        &self,
        alloc: Global,
        out: &mut W,
        context: &C,
    ) -> Result<(), Error>
        ensures { WritesText (shows_by E.shown C.Object.shows) (C.finds context.now) self.now
            (W.written out.old) (W.written out.new) (result_answer result) }
    {
        write_pieces::<W, C, E>(alloc, out, self.parsed(), context)
    }

    /// Writes what the format means in the context, and after it a newline if there is no fault.
    pub(crate) fn write_line<W: TextWrite, C: Context>(
        &self,
        alloc: Global,
        out: &mut W,
        context: &C,
    ) -> Result<(), Error>
        ensures { WritesLine C.Object.shows (C.finds context.now) self.now
            (W.written out.old) (W.written out.new) (result_answer result) }
    {
        match self.write(alloc, out, context) {
            Ok(()) => write_newline(out),
            Err(fault) => Err(fault),
        }
    }

    /// Writes what the format means in the context, as [`write`](Template::write) does, and counts
    /// the pieces that it goes through. The count is for proofs: it has no code and takes no bytes.
    ///
    /// If `Ok` is returned, just the pieces that the format means in the context were counted:
    /// literals in a row as one, braces and arguments, each as often as it is written, and one for
    /// an item that is displayed plainly or whose format is empty. If an error is returned, no more
    /// were. If the values are within limits, that is at most the `pieces` of
    /// [`cost`](Template::cost) within these.
    ///
    /// # Errors
    ///
    /// Those of `write`.
    ///
    /// # Example
    ///
    /// ```text
    /// let mut count = PieceCount::<L>::open(blank);    // 0
    /// template.write_counted(alloc, &mut out, &context, &mut count)?;
    /// // of `{l:i({})(, )}` and three items: 1 + 3 * 1 + 2 * 1
    /// ```
    pub fn write_counted<W: TextWrite, C: Context, L: Ledger>(
        &self,
        alloc: Global,
        out: &mut W,
        context: &C,
        count: &mut PieceCount<L>,
    ) -> Result<(), Error>
        ensures written { WritesText C.Object.shows (C.finds context.now) self.now
            (W.written out.old) (W.written out.new) (result_answer result) }
        ensures exact { IfOk result (λ _. count.new ≡ count.old + (text_work C.Object.shows
            (environment (C.finds context.now)) (outermost (chars self.now))).pieces) }
        ensures visited { count.new ≤ count.old + (text_work C.Object.shows
            (environment (C.finds context.now)) (outermost (chars self.now))).pieces }
        ensures within { (limits : Limits)
            → IsWithin C.Object.shows limits.text limits.items (environment (C.finds context.now))
            (asked_names (outermost (chars self.now)))
            → count.new ≤ count.old + (text_cost limits (outermost (chars self.now))).pieces }
    {
        write_counted::<W, C, Unescaped, L>(alloc, out, self.parsed(), context, count)
    }

    /// The text that it means in the context, in a new `String`.
    pub(crate) fn format<C: Context>(&self, alloc: Global, context: &C) -> Result<String, Error>
        ensures { MakesText C.Object.shows (C.finds context.now) self.now result }
    {
        self.format_by::<C, Unescaped>(alloc, context)
    }

    /// The text that it means in the context, in which the text of each value is as the escaper writes
    /// it.
    #[inline(always)]
    pub(crate) fn format_by<C: Context, E: Escaper>(
        &self,
        alloc: Global,
        context: &C,
    ) -> Result<String, Error>
        ensures { MakesText (shows_by E.shown C.Object.shows) (C.finds context.now) self.now result }
    {
        format_pieces::<C, E>(alloc, self.parsed(), context)
    }

    /// Reports the first fault with pairs, as [`check_in`](Template::check_in) does; of many pairs a
    /// map is made, so that a format takes no time that grows with their square.
    fn check_pairs<V: Value>(&self, alloc: Global, sample: &Pairs<'_, V>) -> Result<(), Error>
        ensures faultless { IfOk result (λ _. AnswersFirst (faults_over V.shows
            (found_by_pairs sample.now.0.now) (outermost (chars self.now))) None) }
        ensures refused { IfErr result (λ error. (answer_of error ≡ no_memory)
            ⊎ AnswersFirst (faults_over V.shows (found_by_pairs sample.now.0.now)
            (outermost (chars self.now))) (Some (answer_of error))) }
        ensures place { PlaceWithin (length self.now) (result_answer result) }
    {
        if sample.0.len() <= FEW {
            self.check_in(alloc, sample)?;
            return Ok(());
        }
        let map = map_of(alloc, sample.0)?;
        map.check_template(alloc, self)?;
        Ok(())
    }

    /// The format, prepared for rows of values in the order of the sample's pairs, if it has no
    /// fault against them: what a pair has is an example of what a row will have at its position,
    /// as for [`check_in`](Template::check_in).
    ///
    /// # Errors
    ///
    /// The first fault that the format has by itself or against the sample, at its place in the
    /// text; `NoMemory`: there is no memory for the prepared format, or for the name in a
    /// `MissingValue`.
    ///
    /// # Example
    ///
    /// ```text
    /// let line = template.prepare(alloc, &Pairs(&[("name", Formattable::display(&name))]))?;
    /// line.write(alloc, &mut out, &Row(&[Formattable::display(&other)]))?;
    /// ```
    pub fn prepare<V: Value>(&self, alloc: Global, sample: &Pairs<'_, V>) -> Result<Prepared, Error>
        ensures prepared { IfOk result (λ made. made
            ≡ record { text = self.now; names = pair_names sample.now.0.now }) }
        ensures faultless { IfOk result (λ _. AnswersFirst (faults_over V.shows
            (found_by_pairs sample.now.0.now) (outermost (chars self.now))) None) }
        ensures refused { IfErr result (λ error. (answer_of error ≡ no_memory)
            ⊎ AnswersFirst (faults_over V.shows (found_by_pairs sample.now.0.now)
            (outermost (chars self.now))) (Some (answer_of error))) }
        ensures place { PlaceWithin (length self.now) (result_answer result) }
    {
        self.check_pairs(alloc, sample)?;
        let names = names_of(alloc, sample.0)?;
        prepare_pieces(alloc, self.text.as_str(), &self.pieces, names)
    }

    /// As [`prepare`](Template::prepare), with named values as the sample.
    ///
    /// # Errors
    ///
    /// Those of `prepare`.
    ///
    /// # Example
    ///
    /// ```text
    /// let line = template.prepare_named(alloc, &values!(name = "", n:integer = 0u8))?;
    /// line.write_named(alloc, &mut out, &values!(name, n:integer = apples))?;
    /// ```
    pub fn prepare_named(&self, alloc: Global, values: &Values<'_>) -> Result<Prepared, Error>
        ensures prepared { IfOk result (λ made. made
            ≡ record { text = self.now; names = pair_names (pairs_of values.now) }) }
        ensures faultless { IfOk result (λ _. AnswersFirst (faults_over view_shows
            (found_by_values values.now) (outermost (chars self.now))) None) }
        ensures refused { IfErr result (λ error. (answer_of error ≡ no_memory)
            ⊎ AnswersFirst (faults_over view_shows (found_by_values values.now)
            (outermost (chars self.now))) (Some (answer_of error))) }
        ensures place { PlaceWithin (length self.now) (result_answer result) }
    {
        self.check_in(alloc, values)?;
        let names = values.names(alloc)?;
        prepare_pieces(alloc, self.text.as_str(), &self.pieces, names)
    }

    /// The pieces of the format in order, each with the pieces of its groups. No memory is taken.
    ///
    /// # Example
    ///
    /// ```text
    /// for piece in template.pieces() {
    ///     if piece.kind == PieceKind::Broken {
    ///         // the bytes from piece.place up to piece.end
    ///     }
    /// }
    /// ```
    pub fn pieces(&self) -> &[Piece]
        ensures pieces { nodes_of self.now result.now ≡ nodes (outermost (chars self.now)) }
    {
        &self.pieces
    }

    /// The text of the format.
    ///
    /// # Example
    ///
    /// ```text
    /// template.text()    // the text that `parse` was given
    /// ```
    pub fn text(&self) -> &str
        ensures text { result.now ≡ self.now }
    {
        self.text.as_str()
    }
}
