//! Reading what is neither text nor an attribute's value: tags, comments, raw elements.
ghost use Rattle.std.specs.Prelude.{◌≡◌, ◌∷◌, ◌++◌, [], ℕ, List, IfOk, false, true};
ghost use Rattle.interpolator_escapes.specs.CodeHtml.{html_state, html_state_in, quote_of};
ghost use Rattle.interpolator_escapes.specs.Html.{comment, comment_dash, comment_dashes, in_base};
ghost use Rattle.interpolator_escapes.specs.Html.{in_declared, in_name, in_named, in_raw};
ghost use Rattle.interpolator_escapes.specs.Html.{in_spaced, in_value, kind_of, lower};
ghost use Rattle.interpolator_escapes.specs.Html.{markup_after, past_bare, past_closing};
ghost use Rattle.interpolator_escapes.specs.Html.{past_dashes, past_equals, past_mark};
ghost use Rattle.interpolator_escapes.specs.Html.{past_mark_dash, past_name, past_named, past_tag};
ghost use Rattle.interpolator_escapes.specs.declared.readers.html.names.Quotes.{Quotes};
ghost use Rattle.interpolator_escapes.specs.declared.readers.html.names.ValueKind.{ValueKind};

use crate::readers::html::HtmlReader;
use crate::readers::html::names::{
    Phase, Quotes, is_letter, is_raw, is_space, is_word, kind_of, lower,
};
use std::alloc::AllocError;

/// After a tag of this element.
fn past_tag(element: &[char]) -> Phase
    ensures { (q : Quotes) (k : ValueKind) (n : List ℕ)
        → html_state_in result q k element.now n ≡ past_tag element.now }
{
    if is_raw(element) {
        return Phase::InRaw;
    }
    if is_word(element, b"plaintext") {
        return Phase::Lost;
    }
    Phase::InText
}

/// After a character of a declaration.
pub fn in_declared(c: char) -> Phase
    ensures { (q : Quotes) (k : ValueKind) (e n : List ℕ)
        → html_state_in result q k e n ≡ in_declared c }
{
    if c == '>' {
        return Phase::InText;
    }
    Phase::Declared
}

/// After `<!` and a character.
pub fn past_mark(c: char) -> Phase
    ensures { (q : Quotes) (k : ValueKind) (e n : List ℕ)
        → html_state_in result q k e n ≡ past_mark c }
{
    if c == '-' {
        return Phase::MarkedDash;
    }
    if c == '[' {
        return Phase::Lost;
    }
    in_declared(c)
}

/// After `<!-` and a character.
pub fn past_mark_dash(c: char) -> Phase
    ensures { (q : Quotes) (k : ValueKind) (e n : List ℕ)
        → html_state_in result q k e n ≡ past_mark_dash c }
{
    if c == '-' {
        return Phase::CommentDashes;
    }
    in_declared(c)
}

/// After a character of a comment.
pub fn past_comment(c: char) -> Phase
    ensures { (q : Quotes) (k : ValueKind) (e n : List ℕ)
        → html_state_in result q k e n ≡ markup_after comment c }
{
    if c == '-' {
        return Phase::CommentDash;
    }
    Phase::Comment
}

/// After a dash in a comment and a character.
pub fn past_dash(c: char) -> Phase
    ensures { (q : Quotes) (k : ValueKind) (e n : List ℕ)
        → html_state_in result q k e n ≡ markup_after comment_dash c }
{
    if c == '-' {
        return Phase::CommentDashes;
    }
    Phase::Comment
}

/// After two dashes in a comment and a character.
pub fn past_dashes(c: char) -> Phase
    ensures { (q : Quotes) (k : ValueKind) (e n : List ℕ)
        → html_state_in result q k e n ≡ past_dashes c }
{
    match c {
        '-' => Phase::CommentDashes,
        '>' => Phase::InText,
        '!' => Phase::Lost,
        _ => Phase::Comment,
    }
}

/// After a character of a raw element.
pub fn past_raw(c: char) -> Phase
    ensures { (q : Quotes) (k : ValueKind) (e n : List ℕ)
        → html_state_in result q k e n ≡ markup_after (in_raw e) c }
{
    if c == '<' {
        return Phase::RawOpened;
    }
    Phase::InRaw
}

impl HtmlReader {
    /// Begins an element's name with a letter.
    pub fn begin_element(&mut self, phase: Phase, c: char) -> Result<(), AllocError>
        ensures { IfOk result (λ _. html_state self.new ≡ html_state_in phase self.old.quotes
            self.old.kind (lower c ∷ []) self.old.name.items) }
    {
        self.phase = phase;
        self.element.clear();
        self.element.push(lower(c))?;
        Ok(())
    }

    /// Adds a character to an element's name.
    fn push_element(&mut self, phase: Phase, c: char) -> Result<(), AllocError>
        ensures { IfOk result (λ _. html_state self.new ≡ html_state_in phase self.old.quotes
            self.old.kind (self.old.element.items ++ lower c ∷ []) self.old.name.items) }
    {
        self.phase = phase;
        self.element.push(lower(c))?;
        Ok(())
    }

    /// Begins an attribute's name with a character.
    fn begin_name(&mut self, c: char) -> Result<(), AllocError>
        ensures { IfOk result (λ _. html_state self.new
            ≡ in_name self.old.element.items (lower c ∷ [])) }
    {
        self.phase = Phase::InName;
        self.name.clear();
        self.name.push(lower(c))?;
        Ok(())
    }

    /// Adds a character to an attribute's name.
    fn push_name(&mut self, c: char) -> Result<(), AllocError>
        ensures { IfOk result (λ _. html_state self.new
            ≡ in_name self.old.element.items (self.old.name.items ++ lower c ∷ [])) }
    {
        self.phase = Phase::InName;
        self.name.push(lower(c))?;
        Ok(())
    }

    /// Begins an attribute's value between quotes.
    fn begin_value(&mut self, quotes: Quotes)
        ensures { html_state self.new ≡ in_base (in_value (quote_of quotes) self.old.element.items
            (kind_of self.old.name.items)) }
    {
        self.kind = kind_of(&self.name);
        self.quotes = quotes;
        self.name.clear();
        self.phase = Phase::InValue;
    }

    /// After `</` and a character.
    pub fn past_closing(&mut self, c: char) -> Result<(), AllocError>
        ensures { IfOk result (λ _. html_state self.new ≡ past_closing c) }
    {
        if is_letter(c) {
            return self.begin_element(Phase::NameEnds, c);
        }
        self.phase = in_declared(c);
        Ok(())
    }

    /// After a character of the name of a tag that begins an element.
    pub fn in_beginning(&mut self, c: char) -> Result<(), AllocError>
        ensures { IfOk result (λ _. html_state self.new ≡ in_named true self.old.element.items c) }
    {
        if c == '>' {
            self.phase = past_tag(&self.element);
            return Ok(());
        }
        if is_space(c) || c == '/' {
            self.phase = Phase::Spaced;
            return Ok(());
        }
        self.push_element(Phase::NameBegins, c)
    }

    /// After a character of the name of a tag that ends an element.
    pub fn in_ending(&mut self, c: char) -> Result<(), AllocError>
        ensures { IfOk result (λ _. html_state self.new ≡ in_named false self.old.element.items c) }
    {
        if c == '>' {
            self.phase = Phase::InText;
            return Ok(());
        }
        if is_space(c) || c == '/' {
            self.element.clear();
            self.phase = Phase::Spaced;
            return Ok(());
        }
        self.push_element(Phase::NameEnds, c)
    }

    /// After a character before an attribute.
    pub fn in_spaced(&mut self, c: char) -> Result<(), AllocError>
        ensures { IfOk result (λ _. html_state self.new ≡ in_spaced self.old.element.items c) }
    {
        if c == '>' {
            self.phase = past_tag(&self.element);
            return Ok(());
        }
        if is_space(c) || c == '/' {
            self.phase = Phase::Spaced;
            return Ok(());
        }
        self.begin_name(c)
    }

    /// After a character of an attribute's name.
    pub fn past_name(&mut self, c: char) -> Result<(), AllocError>
        ensures { IfOk result (λ _. html_state self.new
            ≡ past_name self.old.element.items self.old.name.items c) }
    {
        if c == '=' {
            self.phase = Phase::BeforeValue;
            return Ok(());
        }
        if is_space(c) {
            self.phase = Phase::AfterName;
            return Ok(());
        }
        if c == '>' || c == '/' {
            return self.in_spaced(c);
        }
        self.push_name(c)
    }

    /// After a character behind an attribute's name.
    pub fn past_named(&mut self, c: char) -> Result<(), AllocError>
        ensures { IfOk result (λ _. html_state self.new
            ≡ past_named self.old.element.items self.old.name.items c) }
    {
        if c == '=' {
            self.phase = Phase::BeforeValue;
            return Ok(());
        }
        if is_space(c) {
            self.phase = Phase::AfterName;
            return Ok(());
        }
        self.in_spaced(c)
    }

    /// After `=` and a character.
    pub fn past_equals(&mut self, c: char)
        ensures { html_state self.new ≡ past_equals self.old.element.items self.old.name.items c }
    {
        if c == '"' {
            self.begin_value(Quotes::Double);
        } else if c == '\'' {
            self.begin_value(Quotes::Single);
        } else if c == '>' {
            self.phase = past_tag(&self.element);
        } else if is_space(c) {
            self.phase = Phase::BeforeValue;
        } else {
            self.phase = Phase::InBareValue;
        }
    }

    /// After a character of a value without quotes.
    pub fn past_bare(&mut self, c: char)
        ensures { html_state self.new ≡ past_bare self.old.element.items c }
    {
        if c == '>' {
            self.phase = past_tag(&self.element);
        } else if is_space(c) {
            self.phase = Phase::Spaced;
        } else {
            self.phase = Phase::InBareValue;
        }
    }
}
