//! Reading HTML.
ghost use Rattle.std.specs.Prelude.{◌≡◌};
ghost use Rattle.interpolator_escapes.specs.CodeHtml.{html_state};
ghost use Rattle.interpolator_escapes.specs.Html.{HtmlState, html_start, html_step, is_html_place};

mod names;
mod raw;
mod states;
mod tags;
mod values;

use crate::readers::Reader;
use crate::readers::html::names::{Phase, Quotes, ValueKind};
use interpolator_render::{Spec, Trait};
use std::alloc::{AllocError, Global};

/// Where a reader of HTML is. It takes memory for the names of elements, attributes and references.
/// A value may stand in text, and between the quotes of an attribute that is a text.
#[derive(Drop)]
pub struct HtmlReader {
    phase: Phase,
    quotes: Quotes,
    kind: ValueKind,
    element: Vec<char>,
    name: Vec<char>,
}

impl HtmlReader {
    /// A reader at the beginning of a page.
    pub fn new(alloc: Global) -> HtmlReader
        ensures { html_state result ≡ html_start }
    {
        HtmlReader {
            phase: Phase::InText,
            quotes: Quotes::Double,
            kind: ValueKind::Plain,
            element: Vec::new(alloc),
            name: Vec::new(alloc),
        }
    }
}

impl Reader for HtmlReader {
    ghost State = { HtmlState };

    ghost state = { html_state };

    ghost step = { html_step };

    ghost places = { is_html_place };

    fn read(&mut self, c: char) -> Result<bool, AllocError> {
        match self.phase {
            Phase::InText => Ok(self.after_text(c)),
            Phase::InValue => self.after_value(c),
            Phase::TextReference => self.after_text_reference(c),
            Phase::ValueReference => self.after_value_reference(c),
            Phase::Opened => self.after_open(c),
            _ => {
                self.past_named_markup(c)?;
                Ok(true)
            }
        }
    }

    fn is_place(&self, _wanted: Trait, _spec: &Spec) -> bool {
        match self.phase {
            Phase::InText => true,
            Phase::InValue => self.kind == ValueKind::Plain,
            _ => false,
        }
    }

    fn is_at(&self, other: &HtmlReader) -> bool {
        self.same_state(other)
    }

    fn copied(&self) -> Result<HtmlReader, AllocError> {
        let element = self.element.clone()?;
        let name = self.name.clone()?;
        Ok(HtmlReader {
            phase: self.phase,
            quotes: self.quotes,
            kind: self.kind,
            element,
            name,
        })
    }
}
