//! Whether two readers of HTML are in the same state.
ghost use Rattle.std.specs.Prelude.{◌≡◌, ◌↔◌, IsTrue};
ghost use Rattle.interpolator_escapes.specs.CodeHtml.{html_state, kind_in, quote_of, settled};

use crate::readers::html::HtmlReader;
use crate::readers::html::names::{Phase, Quotes, ValueKind};

/// Tests whether two names are the same.
fn same_names(left: &[char], right: &[char]) -> bool
    ensures { IsTrue result ↔ left.now ≡ right.now }
{
    left == right
}

/// Tests whether two phases are the same.
fn same_phase(left: Phase, right: Phase) -> bool
    ensures { IsTrue result ↔ left ≡ right }
{
    left == right
}

/// Tests whether two quotes are the same.
fn same_quotes(left: Quotes, right: Quotes) -> bool
    ensures { IsTrue result ↔ left ≡ right }
{
    left == right
}

/// Tests whether two values are of the same kind after a reference.
fn same_settled(left: ValueKind, right: ValueKind) -> bool
    ensures { IsTrue result ↔ settled left ≡ settled right }
{
    match (left, right) {
        (ValueKind::Plain, ValueKind::Plain) => true,
        (ValueKind::Plain, _) => false,
        (_, ValueKind::Plain) => false,
        _ => true,
    }
}

/// Tests whether two values are of the same kind, and of an address, the same was read.
fn same_kinds(left: ValueKind, seen: &[char], right: ValueKind, other: &[char]) -> bool
    ensures { IsTrue result ↔ kind_in left seen.now ≡ kind_in right other.now }
{
    match (left, right) {
        (ValueKind::Plain, ValueKind::Plain) => true,
        (ValueKind::ReadAgain, ValueKind::ReadAgain) => true,
        (ValueKind::Address, ValueKind::Address) => same_names(seen, other),
        _ => false,
    }
}

impl HtmlReader {
    /// Tests whether the tag is of the same element.
    fn same_element(&self, other: &HtmlReader) -> bool
        ensures { IsTrue result ↔ self.now.element.items ≡ other.now.element.items }
    {
        same_names(&self.element, &other.element)
    }

    /// Tests whether the name that is read is the same.
    fn same_name(&self, other: &HtmlReader) -> bool
        ensures { IsTrue result ↔ self.now.name.items ≡ other.now.name.items }
    {
        same_names(&self.name, &other.name)
    }

    /// Tests whether both names are the same.
    fn same_both(&self, other: &HtmlReader) -> bool
        ensures { IsTrue result ↔ (self.now.element.items ≡ other.now.element.items)
            × (self.now.name.items ≡ other.now.name.items) }
    {
        self.same_element(other) && self.same_name(other)
    }

    /// Tests whether both are in the same value.
    fn same_value(&self, other: &HtmlReader) -> bool
        ensures { IsTrue result ↔ (quote_of self.now.quotes ≡ quote_of other.now.quotes)
            × (self.now.element.items ≡ other.now.element.items)
            × (kind_in self.now.kind self.now.name.items
            ≡ kind_in other.now.kind other.now.name.items) }
    {
        same_quotes(self.quotes, other.quotes)
            && self.same_element(other)
            && same_kinds(self.kind, &self.name, other.kind, &other.name)
    }

    /// Tests whether both are in the same reference in a value.
    fn same_reference(&self, other: &HtmlReader) -> bool
        ensures { IsTrue result ↔ (quote_of self.now.quotes ≡ quote_of other.now.quotes)
            × (self.now.element.items ≡ other.now.element.items)
            × (settled self.now.kind ≡ settled other.now.kind)
            × (self.now.name.items ≡ other.now.name.items) }
    {
        same_quotes(self.quotes, other.quotes)
            && self.same_element(other)
            && same_settled(self.kind, other.kind)
            && self.same_name(other)
    }

    /// Tests whether another reader in the same phase is in the same state.
    fn same_in_phase(&self, other: &HtmlReader) -> bool
        requires { self.now.phase ≡ other.now.phase }
        ensures { IsTrue result ↔ html_state self.now ≡ html_state other.now }
    {
        match self.phase {
            Phase::InText => true,
            Phase::InValue => self.same_value(other),
            Phase::TextReference => self.same_name(other),
            Phase::ValueReference => self.same_reference(other),
            Phase::Opened => true,
            Phase::Closing => true,
            Phase::Marked => true,
            Phase::MarkedDash => true,
            Phase::Declared => true,
            Phase::Comment => true,
            Phase::CommentDash => true,
            Phase::CommentDashes => true,
            Phase::NameBegins => self.same_element(other),
            Phase::NameEnds => self.same_element(other),
            Phase::Spaced => self.same_element(other),
            Phase::InName => self.same_both(other),
            Phase::AfterName => self.same_both(other),
            Phase::BeforeValue => self.same_both(other),
            Phase::InBareValue => self.same_element(other),
            Phase::InRaw => self.same_element(other),
            Phase::RawOpened => self.same_element(other),
            Phase::RawClosing => self.same_both(other),
            Phase::Lost => true,
        }
    }

    /// Tests whether another reader is in the same state.
    #[tactic(auto, using(crate::proofs::HtmlLemmas::same_phases))]
    pub fn same_state(&self, other: &HtmlReader) -> bool
        ensures { IsTrue result ↔ html_state self.now ≡ html_state other.now }
    {
        if same_phase(self.phase, other.phase) {
            return self.same_in_phase(other);
        }
        false
    }
}
