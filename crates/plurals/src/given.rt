//! The numbers and texts by which a rule chooses.

ghost use Rattle.std.specs.Prelude.{◌≡◌, List, None, Option, Some, ℕ};
ghost use Rattle.std.specs.Option.{option_map};
ghost use Rattle.plurals.specs.Values.{as_lack, is_text, or_zero, unless};

/// Numbers and texts under names.
pub trait Values {
    ghost number: { Self → List ℕ → Option ℕ };

    ghost text: { Self → List ℕ → Option (List ℕ) };

    /// The number under a name, if it has one.
    fn number(&self, name: &str) -> Option<u128>
        ensures { result ≡ number self.now name.now };

    /// The text under a name, if it has one.
    fn text(&self, name: &str) -> Option<&str>
        ensures { option_map (λ x. x.now) result ≡ text self.now name.now };
}

/// A number is the one under each name, and no name has a text.
impl Values for u128 {
    ghost number = { λ n name. Some n };

    ghost text = { λ n name. None };

    fn number(&self, _name: &str) -> Option<u128> {
        Some(*self)
    }

    fn text(&self, _name: &str) -> Option<&str> {
        None
    }
}

/// What a rule names, and nothing is given for it.
#[derive(Clone, Copy, Debug, PartialEq, Eq)]
pub enum Missing<'a> {
    /// A number, under this name.
    Number(&'a str),
    /// A text, under this name.
    Text(&'a str),
}

/// A number, or 0 if it is missing.
pub(crate) fn or_zero(number: Option<u128>) -> u128
    ensures { result ≡ or_zero number }
{
    number.unwrap_or(0)
}

/// Whether a text is the one that is wanted. One that is missing is none.
pub(crate) fn is_text(text: Option<&str>, wanted: &str) -> bool
    ensures { result ≡ is_text (option_map (λ x. x.now) text.entry) wanted.now }
{
    match text {
        Some(text) => text == wanted,
        None => false,
    }
}

/// What is missing, unless it is there.
pub(crate) fn unless(is_there: bool, missing: Missing<'_>) -> Option<Missing<'_>>
    ensures { option_map as_lack result ≡ unless is_there (as_lack missing.entry) }
{
    if is_there { None } else { Some(missing) }
}
