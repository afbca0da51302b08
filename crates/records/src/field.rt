//! The text of a field.

ghost use Rattle.std.specs.Prelude.{◌≡◌};
ghost use Rattle.records.specs.Spellings.{text_of};

/// The text of a field.
#[derive(Debug, Drop)]
pub enum Field<'a> {
    /// As it stands in the table.
    Lent(&'a str),
    /// With two quotes as one, where the table has two.
    Made(String),
}

impl Field<'_> {
    /// The text.
    pub fn as_str(&self) -> &str
        ensures { result.now ≡ text_of self.now }
    {
        match self {
            Field::Lent(text) => text,
            Field::Made(text) => text.as_str(),
        }
    }
}
