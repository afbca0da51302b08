//! Formats whose values are written escaped.
ghost use Rattle.std.specs.Prelude.{◌≡◌, ◌<◌, IfOk, length};
ghost use Rattle.std.specs.Str.{chars};
ghost use Rattle.interpolator_syntax.specs.{Places.outermost, Faults.result_answer};
ghost use Rattle.interpolator_escapes.specs.Placing.{FailsFor, IfMisplaced, StandsFor};
ghost use Rattle.interpolator_escapes.specs.Formats.{escaped_shows};
ghost use Rattle.interpolator_pieces.specs.Calls.{MakesText, WritesText};

use crate::template::Template;
use interpolator_escapes::{
    CsvEscaper, Escape, HtmlEscaper, JsonEscaper, LineEscaper, PlaceError, ShellEscaper,
    check_places,
};
use interpolator_eval::Context;
use interpolator_render::TextWrite;
use interpolator_syntax::Error;
use std::alloc::Global;
use std::marker::Model;

/// A format whose values all stand in places of an [`Escape`], and are written escaped. So whatever
/// the values are, none leaves its place: the text has the tags, fields, words, lines, or brackets and
/// commas of JSON that it has if every value is empty.
///
/// [`Template::escaped`] makes it. The text of a value is escaped after its precision has cut it and
/// its width has padded it; literals are written as they are.
///
/// # Example
///
/// ```text
/// let page = Template::parse(alloc, "<p title=\"{name}\">{name:.20}</p>")?.escaped(alloc, Escape::Html)?;
/// values!(name).write_page_to(alloc, &mut out, &page)?;
/// // with `a<b` under `name`: <p title="a&lt;b">a&lt;b</p>
/// ```
#[derive(Drop)]
pub struct EscapedTemplate {
    template: Template,
    escape: Escape,
}

impl Model for EscapedTemplate {
    ghost use Rattle.std.specs.Str.{chars};
    ghost use Rattle.interpolator_syntax.specs.Places.{outermost};
    ghost use Rattle.interpolator_escapes.specs.EscapedFormats.{EscapedFormat};
    ghost use Rattle.interpolator_escapes.specs.Placing.{StandsFor};

    ghost Value = { EscapedFormat };

    ghost view = { λ page. record { text = page.template; escape = page.escape } };

    ghost invariant = { λ page. StandsFor page.escape (outermost (chars page.template)) };
}

impl Template {
    /// This format, to be written with its values escaped, if each of them stands in a place where the
    /// escape may stand: of HTML, in text or between the quotes of an attribute; of CSV, between double
    /// quotes; of JSON, in a string, or under `?` between strings; of a shell's command, between single
    /// quotes; of a line, anywhere. An item format and a join have to end where they began.
    ///
    /// Under `?` a value is a whole value of JSON: a text or a character has its quotes, whatever the
    /// spec is, a float that is not finite is `null`, and any other value is as `?` shows it. A spec
    /// with `+`, zeros, a fill but blanks, or base sixteen is out of place there.
    ///
    /// # Errors
    ///
    /// `Misplaced`: the first value or list that does not stand; `NoMemory`: there is no memory for the
    /// names of elements and attributes.
    ///
    /// # Example
    ///
    /// ```text
    /// let line = Template::parse(alloc, "\"{name}\",\"{city}\"")?.escaped(alloc, Escape::Csv)?;
    /// let text = Template::parse(alloc, "{{\"name\":{name:?},\"n\":{n:?}}}")?.escaped(alloc, Escape::Json)?;
    /// ```
    pub fn escaped(self, alloc: Global, escape: Escape) -> Result<EscapedTemplate, PlaceError>
        ensures made { IfOk result (λ page. page ≡ record { text = self; escape = escape }) }
        ensures stand { IfOk result (λ _. StandsFor escape (outermost (chars self))) }
        ensures refused { IfMisplaced result (λ _. StandsFor escape (outermost (chars self)) → ⊥) }
        ensures first { IfMisplaced result (FailsFor escape (outermost (chars self))) }
        ensures within { IfMisplaced result (λ m. m.place < length self) }
    {
        check_places(alloc, escape, self.text(), self.pieces())?;
        Ok(EscapedTemplate {
            template: self,
            escape,
        })
    }
}

impl EscapedTemplate {
    /// Writes what the format means in the context, as [`Template::write`] does, each value escaped.
    ///
    /// # Errors
    ///
    /// Those of `Template::write`: an escape makes no fault.
    ///
    /// # Example
    ///
    /// ```text
    /// page.write(alloc, &mut out, &context)?;
    /// ```
    pub fn write<W: TextWrite, C: Context>(
        &self,
        alloc: Global,
        out: &mut W,
        context: &C,
    ) -> Result<(), Error>
        ensures { WritesText (escaped_shows self.now.escape C.Object.shows)
            (C.finds context.now) self.now.text
            (W.written out.old) (W.written out.new) (result_answer result) }
    {
        let template = &self.template;
        match self.escape {
            Escape::Line => template.write_by::<W, C, LineEscaper>(alloc, out, context),
            Escape::Html => template.write_by::<W, C, HtmlEscaper>(alloc, out, context),
            Escape::Csv => template.write_by::<W, C, CsvEscaper>(alloc, out, context),
            Escape::Json => template.write_by::<W, C, JsonEscaper>(alloc, out, context),
            Escape::Shell => template.write_by::<W, C, ShellEscaper>(alloc, out, context),
        }
    }

    /// The text that it means in the context, each value escaped, in a new `String`.
    ///
    /// # Errors
    ///
    /// Those of [`write`](EscapedTemplate::write), where `Fmt` means that a value failed; and `NoMemory`
    /// if there is no memory for the text, or for the room that it has at the beginning.
    ///
    /// # Example
    ///
    /// ```text
    /// page.format(alloc, &context)?
    /// ```
    pub fn format<C: Context>(&self, alloc: Global, context: &C) -> Result<String, Error>
        ensures { MakesText (escaped_shows self.now.escape C.Object.shows)
            (C.finds context.now) self.now.text result }
    {
        let template = &self.template;
        match self.escape {
            Escape::Line => template.format_by::<C, LineEscaper>(alloc, context),
            Escape::Html => template.format_by::<C, HtmlEscaper>(alloc, context),
            Escape::Csv => template.format_by::<C, CsvEscaper>(alloc, context),
            Escape::Json => template.format_by::<C, JsonEscaper>(alloc, context),
            Escape::Shell => template.format_by::<C, ShellEscaper>(alloc, context),
        }
    }

    /// The format, to be checked with a sample, or for its cost without escapes. An escaped text has
    /// at most six characters for each of the plain one, and of JSON two more for each
    /// [`View::Plain`](interpolator_render::View::Plain) under `?`.
    ///
    /// # Example
    ///
    /// ```text
    /// sample.check_template(alloc, page.template())?;
    /// ```
    pub fn template(&self) -> &Template
        ensures template { result.now ≡ self.now.text }
        ensures stand { StandsFor self.now.escape (outermost (chars self.now.text)) }
    {
        &self.template
    }

    /// How its values are escaped.
    ///
    /// # Example
    ///
    /// ```text
    /// page.escape()    // Escape::Html
    /// ```
    pub fn escape(&self) -> Escape
        ensures { result ≡ self.now.escape }
    {
        self.escape
    }
}
