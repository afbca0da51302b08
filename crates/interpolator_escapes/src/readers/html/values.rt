//! Reading text, attributes' values and the references in them.
ghost use Rattle.std.specs.Prelude.{◌≡◌, ◌∷◌, ◌++◌, [], IfOk};
ghost use Rattle.interpolator_escapes.specs.CodeHtml.{html_state, html_state_in, kind_in, quote_of};
ghost use Rattle.interpolator_escapes.specs.CodeHtml.{settled};
ghost use Rattle.interpolator_escapes.specs.CodeReaders.{Reads};
ghost use Rattle.interpolator_escapes.specs.Html.{address, base_step, html_step, in_base};
ghost use Rattle.interpolator_escapes.specs.Html.{in_reference, in_text, in_value, kind_after};
ghost use Rattle.interpolator_escapes.specs.Html.{lower, open_step, opened};

use crate::readers::html::HtmlReader;
use crate::readers::html::names::{
    Phase, ValueKind, is_in_reference, is_letter, is_scheme, lower, quote_char, settled,
};
use std::alloc::AllocError;

impl HtmlReader {
    /// After a character of text; returns whether it is structure.
    pub fn after_text(&mut self, c: char) -> bool
        ensures { Reads (base_step in_text c) (html_state self.new) result }
    {
        if c == '<' {
            self.phase = Phase::Opened;
            return true;
        }
        if c == '&' {
            self.name.clear();
            self.phase = Phase::TextReference;
            return false;
        }
        self.phase = Phase::InText;
        false
    }

    /// After `<` and a character; returns whether it is structure.
    pub fn after_open(&mut self, c: char) -> Result<bool, AllocError>
        ensures { IfOk result (Reads (open_step c) (html_state self.new)) }
    {
        if is_letter(c) {
            self.begin_element(Phase::NameBegins, c)?;
            return Ok(true);
        }
        if c == '/' {
            self.phase = Phase::Closing;
            return Ok(true);
        }
        if c == '!' {
            self.phase = Phase::Marked;
            return Ok(true);
        }
        if c == '?' {
            self.phase = Phase::Declared;
            return Ok(true);
        }
        Ok(self.after_text(c))
    }

    /// Adds a character to what was read of an address.
    fn push_address(&mut self, c: char) -> Result<(), AllocError>
        ensures { IfOk result (λ _. html_state self.new ≡ in_base (in_value
            (quote_of self.old.quotes) self.old.element.items
            (address (self.old.name.items ++ lower c ∷ [])))) }
    {
        self.phase = Phase::InValue;
        self.kind = ValueKind::Address;
        self.name.push(lower(c))?;
        Ok(())
    }

    /// After a character of an address, but `&`.
    fn after_address(&mut self, c: char) -> Result<(), AllocError>
        requires { ¬ (c ≡ 38) }
        ensures { IfOk result (λ _. html_state self.new ≡ in_base (in_value
            (quote_of self.old.quotes) self.old.element.items
            (kind_after (address self.old.name.items) c))) }
    {
        if c == '/' || c == '?' || c == '#' {
            self.kind = ValueKind::Plain;
        } else if c == ':' && is_scheme(&self.name) {
            self.kind = ValueKind::Plain;
        } else if c == ':' {
            self.kind = ValueKind::ReadAgain;
        } else {
            return self.push_address(c);
        }
        self.phase = Phase::InValue;
        Ok(())
    }

    /// After `&` in an attribute's value.
    fn begin_reference(&mut self)
        ensures { html_state self.new ≡ in_reference (in_value (quote_of self.old.quotes)
            self.old.element.items (settled self.old.kind)) [] }
    {
        self.name.clear();
        self.phase = Phase::ValueReference;
    }

    /// After a character of an attribute's value; returns whether it is structure.
    pub fn after_value(&mut self, c: char) -> Result<bool, AllocError>
        ensures { IfOk result (Reads (base_step (in_value (quote_of self.old.quotes)
            self.old.element.items (kind_in self.old.kind self.old.name.items)) c)
            (html_state self.new)) }
    {
        if c == quote_char(self.quotes) {
            self.phase = Phase::Spaced;
            return Ok(true);
        }
        if c == '&' {
            self.begin_reference();
            return Ok(false);
        }
        match self.kind {
            ValueKind::Address => self.after_address(c)?,
            _ => self.phase = Phase::InValue,
        }
        Ok(false)
    }

    /// Goes on in an attribute's value after a reference.
    fn end_reference(&mut self)
        ensures state { html_state self.new ≡ in_base (in_value (quote_of self.old.quotes)
            self.old.element.items (settled self.old.kind)) }
        ensures kind { kind_in self.new.kind self.new.name.items ≡ settled self.old.kind }
        ensures quotes { self.new.quotes ≡ self.old.quotes }
        ensures element { self.new.element.items ≡ self.old.element.items }
    {
        self.kind = settled(self.kind);
        self.phase = Phase::InValue;
    }

    /// Adds a character to the name of a reference.
    fn push_reference(&mut self, phase: Phase, c: char) -> Result<(), AllocError>
        ensures { IfOk result (λ _. html_state self.new ≡ html_state_in phase self.old.quotes
            self.old.kind self.old.element.items (self.old.name.items ++ c ∷ [])) }
    {
        self.phase = phase;
        self.name.push(c)?;
        Ok(())
    }

    /// After a character of a reference in text; returns whether it is structure.
    #[tactic(auto, using(crate::proofs::HtmlLemmas::meaning_quiet, crate::proofs::HtmlLemmas::name_quiet))]
    pub fn after_text_reference(&mut self, c: char) -> Result<bool, AllocError>
        ensures { IfOk result (Reads (html_step (in_reference in_text self.old.name.items) c)
            (html_state self.new)) }
    {
        if c == ';' {
            self.phase = Phase::InText;
            return Ok(false);
        }
        if is_in_reference(c) {
            self.push_reference(Phase::TextReference, c)?;
            return Ok(false);
        }
        Ok(self.after_text(c))
    }

    /// After a character of a reference in an attribute's value; returns whether it is structure.
    #[tactic(auto, using(crate::proofs::HtmlLemmas::meaning_quiet, crate::proofs::HtmlLemmas::name_quiet))]
    pub fn after_value_reference(&mut self, c: char) -> Result<bool, AllocError>
        ensures { IfOk result (Reads (html_step (in_reference (in_value (quote_of self.old.quotes)
            self.old.element.items (settled self.old.kind)) self.old.name.items) c)
            (html_state self.new)) }
    {
        if c == ';' {
            self.end_reference();
            return Ok(false);
        }
        if is_in_reference(c) {
            self.push_reference(Phase::ValueReference, c)?;
            return Ok(false);
        }
        self.end_reference();
        self.after_value(c)
    }
}
