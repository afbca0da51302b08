//! Formats as methods of a context.
ghost use Rattle.std.specs.Prelude.{◌≡◌, length, map, IfErr, IfOk, Some};
ghost use Rattle.std.specs.{List.All, Str.chars};
ghost use Rattle.interpolator_syntax.specs.{Places.outermost, Faults.answer_of};
ghost use Rattle.interpolator_syntax.specs.{Faults.result_answer};
ghost use Rattle.interpolator_syntax.specs.{Faults.fault, Faults.no_memory, Faults.PlaceWithin};
ghost use Rattle.interpolator_escapes.specs.Formats.{escaped_shows};
ghost use Rattle.interpolator_pieces.specs.Calls.{MakesText, WritesLine, WritesText};
ghost use Rattle.interpolator_pieces.specs.{NodeSamples.faults_over, Collecting.AnswersFirst};
ghost use Rattle.interpolator.specs.EscapedTexts.{MakesEscaped};

use crate::escaped_template::EscapedTemplate;
use crate::escaped_text::{EscapeError, format_escaped};
use crate::template::Template;
use interpolator_escapes::Escape;
use interpolator_eval::{ByNames, Context, Formattable, NameMap, Pairs};
use interpolator_pieces::{format, iwriteln, write};
use interpolator_render::{TextWrite, Value};
use interpolator_syntax::Error;
use std::alloc::Global;
use std::collections::HashMap;

/// `format`, `write` and the other calls that write, as methods of a context.
///
/// A caller with a map of borrowed values writes `map.format(alloc, text)?`, and has nothing to
/// prove. For a context type of your own that names at most one lifetime, write an empty impl.
pub trait Interpolate: Context {
    /// The format's text, as the function `format` makes it.
    ///
    /// # Errors
    ///
    /// The format's first fault, or `NoMemory`.
    ///
    /// ```text
    /// context.format(alloc, "{n:>3}")?    // with 7 under `n`: "  7"
    /// ```
    fn format(&self, alloc: Global, text: &str) -> Result<String, Error>
        ensures { MakesText Self.Object.shows (Self.finds self.now) text.now result }
    {
        format(alloc, text, self)
    }

    /// The format's text, each value escaped, as the function [`format_escaped`] makes it.
    ///
    /// # Errors
    ///
    /// `Misplaced`: the first value or list that is out of place; `Fault`: the fault of a format whose
    /// values are all in place, or `NoMemory`.
    ///
    /// ```text
    /// values!(name).format_escaped(alloc, Escape::Line, "user {name}")?
    /// // with a newline and `Ann` under `name`: user \nAnn
    /// ```
    fn format_escaped(
        &self,
        alloc: Global,
        escape: Escape,
        text: &str,
    ) -> Result<String, EscapeError>
        ensures { MakesEscaped escape Self.Object.shows (Self.finds self.now) text.now result }
    {
        format_escaped(alloc, escape, text, self)
    }

    /// Writes what the format means, as the function `write` does.
    ///
    /// # Errors
    ///
    /// The format's first fault; `Fmt` if the writer refuses; `NoMemory`.
    ///
    /// ```text
    /// context.write_to(alloc, &mut out, "{n};")?    // with 7 under `n`, appends "7;"
    /// ```
    fn write_to<W: TextWrite>(&self, alloc: Global, out: &mut W, text: &str) -> Result<(), Error>
        ensures { WritesText Self.Object.shows (Self.finds self.now) text.now
            (W.written out.old) (W.written out.new) (result_answer result) }
    {
        write(alloc, out, text, self)
    }

    /// Writes what the format means, and a newline after it if there is no fault, as the function
    /// `iwriteln` does.
    ///
    /// # Errors
    ///
    /// Those of `write_to`; `Fmt` at place 0 if the writer refuses the newline alone.
    ///
    /// ```text
    /// context.write_line_to(alloc, &mut out, "{n}")?    // with 7 under `n`, appends "7\n"
    /// ```
    fn write_line_to<W: TextWrite>(
        &self,
        alloc: Global,
        out: &mut W,
        text: &str,
    ) -> Result<(), Error>
        ensures { WritesLine Self.Object.shows (Self.finds self.now) text.now
            (W.written out.old) (W.written out.new) (result_answer result) }
    {
        iwriteln(alloc, out, text, self)
    }

    /// Writes what the template means, as [`Template::write`] does.
    ///
    /// # Errors
    ///
    /// The format's first fault; `Fmt` if the writer refuses; `NoMemory`.
    ///
    /// ```text
    /// let template = Template::parse(alloc, "{n:>3}")?;
    /// context.write_template_to(alloc, &mut out, &template)?;    // with 7, appends "  7"
    /// ```
    fn write_template_to<W: TextWrite>(
        &self,
        alloc: Global,
        out: &mut W,
        template: &Template,
    ) -> Result<(), Error>
        ensures { WritesText Self.Object.shows (Self.finds self.now) template.now
            (W.written out.old) (W.written out.new) (result_answer result) }
    {
        template.write(alloc, out, self)
    }

    /// Writes what the template means, as [`Template::write`] does, and after it a newline if there
    /// is no fault.
    ///
    /// # Errors
    ///
    /// Those of `write_template_to`; `Fmt` at place 0 if the writer refuses the newline.
    ///
    /// ```text
    /// let template = Template::parse(alloc, "{n:>3}")?;
    /// context.write_template_line_to(alloc, &mut out, &template)?;    // with 7, appends "  7\n"
    /// ```
    fn write_template_line_to<W: TextWrite>(
        &self,
        alloc: Global,
        out: &mut W,
        template: &Template,
    ) -> Result<(), Error>
        ensures { WritesLine Self.Object.shows (Self.finds self.now) template.now
            (W.written out.old) (W.written out.new) (result_answer result) }
    {
        template.write_line(alloc, out, self)
    }

    /// The text that the template means, in a new `String`.
    ///
    /// # Errors
    ///
    /// The format's first fault, where `Fmt` means that a value failed; and `NoMemory` if there is no
    /// memory for the text, or for the room that it has at the beginning.
    ///
    /// ```text
    /// context.format_template(alloc, &template)?    // for `{n:>3}` and 7: "  7"
    /// ```
    fn format_template(&self, alloc: Global, template: &Template) -> Result<String, Error>
        ensures { MakesText Self.Object.shows (Self.finds self.now) template.now result }
    {
        template.format(alloc, self)
    }

    /// Writes what the page means, each value escaped, as [`EscapedTemplate::write`] does.
    ///
    /// # Errors
    ///
    /// Those of `write_template_to`.
    ///
    /// ```text
    /// let page = Template::parse(alloc, "<b>{n}</b>")?.escaped(alloc, Escape::Html)?;
    /// context.write_page_to(alloc, &mut out, &page)?;    // with `a<b`, appends "<b>a&lt;b</b>"
    /// ```
    fn write_page_to<W: TextWrite>(
        &self,
        alloc: Global,
        out: &mut W,
        page: &EscapedTemplate,
    ) -> Result<(), Error>
        ensures { WritesText (escaped_shows page.now.escape Self.Object.shows)
            (Self.finds self.now) page.now.text
            (W.written out.old) (W.written out.new) (result_answer result) }
    {
        page.write(alloc, out, self)
    }

    /// The text that the page means, each value escaped, in a new `String`.
    ///
    /// # Errors
    ///
    /// Those of `format_template`.
    ///
    /// ```text
    /// context.format_page(alloc, &page)?    // for `<b>{n}</b>` and `a<b`: "<b>a&lt;b</b>"
    /// ```
    fn format_page(&self, alloc: Global, page: &EscapedTemplate) -> Result<String, Error>
        ensures { MakesText (escaped_shows page.now.escape Self.Object.shows)
            (Self.finds self.now) page.now.text result }
    {
        page.format(alloc, self)
    }

    /// Reports the first fault that the template has by itself or against this context as a sample,
    /// as [`Template::check_in`] does.
    ///
    /// # Errors
    ///
    /// The first fault, at its place in the text; `NoMemory` if it is a missing value, and there is
    /// no memory for its name.
    ///
    /// ```text
    /// sample.check_template(alloc, &template)?    // before the first row is written
    /// ```
    fn check_template(&self, alloc: Global, template: &Template) -> Result<(), Error>
        ensures first { AnswersFirst
            (faults_over Self.Object.shows (Self.finds self.now) (outermost (chars template.now)))
            (result_answer result) }
        ensures place { PlaceWithin (length template.now) (result_answer result) }
    {
        template.check_in(alloc, self)
    }

    /// All faults that the template has by itself or against this context as a sample, as
    /// [`Template::faults_in`] returns them.
    ///
    /// # Errors
    ///
    /// `NoMemory`: there is no memory for the faults.
    ///
    /// ```text
    /// for fault in &sample.template_faults(alloc, &template)? {}
    /// ```
    fn template_faults(&self, alloc: Global, template: &Template) -> Result<Vec<Error>, Error>
        ensures all { IfOk result (λ errors. map answer_of errors.items ≡ map fault
            (faults_over Self.Object.shows (Self.finds self.now)
            (outermost (chars template.now)))) }
        ensures places { IfOk result (λ errors. All
            (λ answer. PlaceWithin (length template.now) (Some answer)) (map answer_of errors.items)) }
        ensures refused { IfErr result (λ error. answer_of error ≡ no_memory) }
    {
        template.faults_in(alloc, self)
    }
}

impl<'a, V: Value> Interpolate for HashMap<String, Formattable<'a, V>> {}

impl<'a, V: Value> Interpolate for NameMap<Formattable<'a, V>> {}

impl<'a, V: Value> Interpolate for Pairs<'a, V> {}

// The type of this map names two lifetimes, and the methods take a type that names one.
impl<'k, 'a, V: Value> Interpolate for HashMap<&'k str, Formattable<'a, V>> {
    fn format(&self, alloc: Global, text: &str) -> Result<String, Error> {
        format(alloc, text, &ByNames::new(self))
    }

    fn format_escaped(
        &self,
        alloc: Global,
        escape: Escape,
        text: &str,
    ) -> Result<String, EscapeError> {
        format_escaped(alloc, escape, text, &ByNames::new(self))
    }

    fn write_to<W: TextWrite>(&self, alloc: Global, out: &mut W, text: &str) -> Result<(), Error> {
        write(alloc, out, text, &ByNames::new(self))
    }

    fn write_line_to<W: TextWrite>(
        &self,
        alloc: Global,
        out: &mut W,
        text: &str,
    ) -> Result<(), Error> {
        iwriteln(alloc, out, text, &ByNames::new(self))
    }

    fn write_template_to<W: TextWrite>(
        &self,
        alloc: Global,
        out: &mut W,
        template: &Template,
    ) -> Result<(), Error> {
        template.write(alloc, out, &ByNames::new(self))
    }

    fn write_template_line_to<W: TextWrite>(
        &self,
        alloc: Global,
        out: &mut W,
        template: &Template,
    ) -> Result<(), Error> {
        template.write_line(alloc, out, &ByNames::new(self))
    }

    fn format_template(&self, alloc: Global, template: &Template) -> Result<String, Error> {
        template.format(alloc, &ByNames::new(self))
    }

    fn write_page_to<W: TextWrite>(
        &self,
        alloc: Global,
        out: &mut W,
        page: &EscapedTemplate,
    ) -> Result<(), Error> {
        page.write(alloc, out, &ByNames::new(self))
    }

    fn format_page(&self, alloc: Global, page: &EscapedTemplate) -> Result<String, Error> {
        page.format(alloc, &ByNames::new(self))
    }

    fn check_template(&self, alloc: Global, template: &Template) -> Result<(), Error> {
        template.check_in(alloc, &ByNames::new(self))
    }

    fn template_faults(&self, alloc: Global, template: &Template) -> Result<Vec<Error>, Error> {
        template.faults_in(alloc, &ByNames::new(self))
    }
}
