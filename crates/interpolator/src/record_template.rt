//! Formats of records of CSV, whose values are whole fields.
ghost use Rattle.std.specs.Prelude.{◌≡◌, ◌<◌, Err, IfErr, IfOk, length};
ghost use Rattle.std.specs.Str.{chars};
ghost use Rattle.interpolator_syntax.specs.{Places.outermost, Faults.result_answer};
ghost use Rattle.interpolator_escapes.specs.RecordFormats.{StandsAsRecord, after_record};
ghost use Rattle.interpolator_escapes.specs.RecordFormats.{record_answer};
ghost use Rattle.interpolator_escapes.specs.{Fields.record_shows, Placing.IfMisplaced};
ghost use Rattle.interpolator_pieces.specs.Calls.{MakesText, WritesText};

use crate::template::Template;
use interpolator_escapes::{PlaceError, RecordEscaper, check_record_pieces};
use interpolator_eval::Context;
use interpolator_render::TextWrite;
use interpolator_syntax::Error;
use std::alloc::Global;
use std::marker::Model;

/// A format of records of CSV, in which a value under `?` is a whole field, and any other value
/// stands between double quotes. So whatever the values are, the text has the fields and the
/// records that it has if every value is empty, and a reader has each value back.
///
/// [`Template::as_record`] makes it. A text or a character under `?` is written between quotes of
/// its own, uncut and without padding, with its quotes doubled; any other value as `?` shows it. A
/// value between quotes is escaped after its precision has cut it and its width has padded it.
///
/// # Example
///
/// ```text
/// let line = Template::parse(alloc, "{name:?},{price:?}\n")?.as_record()?;
/// line.write(alloc, &mut out, &values!(name:debug, price:float = 2.5f64))?;
/// // with `5" nail, steel` under `name`: "5"" nail, steel",2.5
/// ```
#[derive(Drop)]
pub struct RecordTemplate {
    template: Template,
}

impl Model for RecordTemplate {
    ghost use Rattle.std.specs.Prelude.{List, ℕ};
    ghost use Rattle.std.specs.Str.{chars};
    ghost use Rattle.interpolator_syntax.specs.Places.{outermost};
    ghost use Rattle.interpolator_escapes.specs.RecordFormats.{StandsAsRecord};

    ghost Value = { List ℕ };

    ghost view = { λ r. r.template };

    ghost invariant = { λ r. StandsAsRecord (outermost (chars r.template)) };
}

impl Template {
    /// This format, to be written as records of CSV, if each of its values stands: under `?` where
    /// a field begins, with a comma, a line end or the end of the format after it; under any other
    /// trait between double quotes. An item of a list has to end where it began, or be whole fields
    /// with a comma between two items. A list has no width, and under `?` a spec no `+`, no zeros,
    /// no fill but blanks and no base sixteen.
    ///
    /// # Errors
    ///
    /// `Misplaced`: the first value or list that does not stand. There is no `NoMemory`.
    ///
    /// # Example
    ///
    /// ```text
    /// let format = "{name:?},\"{city:.20}\",{cells:i({:?})(,)}\n";
    /// let line = Template::parse(alloc, format)?.as_record()?;
    /// // of `{name:?};`: `Misplaced` at place 0
    /// ```
    pub fn as_record(self) -> Result<RecordTemplate, PlaceError>
        ensures made { IfOk result (λ made. made ≡ self) }
        ensures stand { IfOk result (λ _. StandsAsRecord (outermost (chars self))) }
        ensures refused { IfErr result (λ error.
            Err error ≡ record_answer (after_record (outermost (chars self)))) }
        ensures within { IfMisplaced result (λ m. m.place < length self) }
    {
        match check_record_pieces(self.text(), self.pieces()) {
            Ok(_) => Ok(RecordTemplate { template: self }),
            Err(error) => Err(error),
        }
    }
}

impl RecordTemplate {
    /// Writes what the format means in the context, as [`Template::write`] does: a value under `?`
    /// as a whole field, and any other with its quotes doubled.
    ///
    /// # Errors
    ///
    /// Those of `Template::write`: whole fields make no fault.
    ///
    /// # Example
    ///
    /// ```text
    /// line.write(alloc, &mut out, &context)?;
    /// ```
    pub fn write<W: TextWrite, C: Context>(
        &self,
        alloc: Global,
        out: &mut W,
        context: &C,
    ) -> Result<(), Error>
        ensures { WritesText (record_shows C.Object.shows) (C.finds context.now) self.now
            (W.written out.old) (W.written out.new) (result_answer result) }
    {
        self.template
            .write_by::<W, C, RecordEscaper>(alloc, out, context)
    }

    /// The text that it means in the context, as [`write`](RecordTemplate::write) writes it, in a
    /// new `String`.
    ///
    /// # Errors
    ///
    /// Those of `write`, where `Fmt` means that a value failed; and `NoMemory` if there is no
    /// memory for the text, or for the room that it has at the beginning.
    ///
    /// # Example
    ///
    /// ```text
    /// line.format(alloc, &context)?
    /// ```
    pub fn format<C: Context>(&self, alloc: Global, context: &C) -> Result<String, Error>
        ensures { MakesText (record_shows C.Object.shows) (C.finds context.now) self.now result }
    {
        self.template.format_by::<C, RecordEscaper>(alloc, context)
    }

    /// The format, to be checked with a sample, which finds the faults that it has as records, too.
    ///
    /// # Example
    ///
    /// ```text
    /// sample.check_template(alloc, line.template())?;
    /// ```
    pub fn template(&self) -> &Template
        ensures template { result.now ≡ self.now }
        ensures stand { StandsAsRecord (outermost (chars self.now)) }
    {
        &self.template
    }
}
