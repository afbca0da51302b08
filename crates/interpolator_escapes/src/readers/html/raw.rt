//! Reading the text of a raw element, up to the tag that ends it; and all that is no text or value.
ghost use Rattle.std.specs.Prelude.{◌≡◌, IfOk, Some, [], false, slice_get};
ghost use Rattle.interpolator_escapes.specs.CodeHtml.{html_state, takes_memory};
ghost use Rattle.interpolator_escapes.specs.Html.{markup_after, past_raw_close, past_raw_open};
ghost use Rattle.interpolator_escapes.specs.Html.{raw_closing};

use crate::readers::html::HtmlReader;
use crate::readers::html::names::{Phase, is_letter, is_space, lower};
use crate::readers::html::tags::{
    in_declared, past_comment, past_dash, past_dashes, past_mark, past_mark_dash, past_raw,
};
use std::alloc::AllocError;

impl HtmlReader {
    /// After `</` in a raw element, whose name has to follow.
    fn begin_raw_closing(&mut self) -> Result<(), AllocError>
        ensures { IfOk result (λ _. html_state self.new
            ≡ raw_closing self.old.element.items self.old.element.items) }
    {
        self.name = self.element.clone()?;
        self.phase = Phase::RawClosing;
        Ok(())
    }

    /// After `<` in a raw element and a character.
    fn past_raw_open(&mut self, c: char) -> Result<(), AllocError>
        ensures { IfOk result (λ _. html_state self.new ≡ past_raw_open self.old.element.items c) }
    {
        if c == '/' {
            return self.begin_raw_closing();
        }
        if c == '<' {
            self.phase = Phase::RawOpened;
        } else if is_letter(c) || c == '!' || c == '?' {
            self.phase = Phase::Lost;
        } else {
            self.phase = Phase::InRaw;
        }
        Ok(())
    }

    /// After the name in a tag that ends a raw element, and a character.
    fn past_raw_name(&mut self, c: char)
        ensures { html_state self.new ≡ past_raw_close self.old.element.items [] c }
    {
        if c == '>' {
            self.phase = Phase::InText;
        } else if is_space(c) || c == '/' {
            self.element.clear();
            self.phase = Phase::Spaced;
        } else {
            self.phase = Phase::Lost;
        }
    }

    /// After a character where the next letter of that name has to be.
    fn past_raw_letter(&mut self, letter: char, c: char)
        requires { slice_get self.old.name.items 0 ≡ Some letter }
        ensures { html_state self.new
            ≡ past_raw_close self.old.element.items self.old.name.items c }
    {
        if lower(c) == letter {
            self.name.remove(0);
            self.phase = Phase::RawClosing;
        } else {
            self.phase = Phase::Lost;
        }
    }

    /// After a character in a tag that ends a raw element.
    fn past_raw_close(&mut self, c: char)
        ensures { html_state self.new
            ≡ past_raw_close self.old.element.items self.old.name.items c }
    {
        match self.name.first() {
            Some(letter) => {
                let letter = *letter;
                self.past_raw_letter(letter, c);
            }
            None => self.past_raw_name(c),
        }
    }

    /// After a character of a tag's name, or of a raw element's text.
    pub fn past_named_markup(&mut self, c: char) -> Result<(), AllocError>
        ensures { IfOk result (λ _. html_state self.new ≡ markup_after (html_state self.old) c) }
    {
        match self.phase {
            Phase::Closing => self.past_closing(c),
            Phase::NameBegins => self.in_beginning(c),
            Phase::NameEnds => self.in_ending(c),
            Phase::Spaced => self.in_spaced(c),
            Phase::InName => self.past_name(c),
            Phase::AfterName => self.past_named(c),
            Phase::RawOpened => self.past_raw_open(c),
            _ => {
                self.past_markup(c);
                Ok(())
            }
        }
    }

    /// After a character elsewhere outside of text and values.
    fn past_markup(&mut self, c: char)
        requires { takes_memory self.old.phase ≡ false }
        ensures { html_state self.new ≡ markup_after (html_state self.old) c }
    {
        match self.phase {
            Phase::Marked => self.phase = past_mark(c),
            Phase::MarkedDash => self.phase = past_mark_dash(c),
            Phase::Declared => self.phase = in_declared(c),
            Phase::Comment => self.phase = past_comment(c),
            Phase::CommentDash => self.phase = past_dash(c),
            Phase::CommentDashes => self.phase = past_dashes(c),
            Phase::BeforeValue => self.past_equals(c),
            Phase::InBareValue => self.past_bare(c),
            Phase::InRaw => self.phase = past_raw(c),
            Phase::RawClosing => self.past_raw_close(c),
            _ => self.phase = Phase::Lost,
        }
    }
}
