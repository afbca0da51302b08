//! What stands before the `=` of a word: a name, with a kind of value.

ghost use Rattle.std.specs.Prelude.{◌≡◌};
ghost use Rattle.std.specs.Option.{option_map};
ghost use Rattle.words.specs.Declarations.{as_declaration, declaration_of, without};

const NUMBER_MARK: &str = ":";

const DECIMAL_MARK: &str = ":.";

const FLOAT_MARK: &str = ":~";

const LIST_MARK: &str = "[]";

/// What kind of value is under a name.
#[derive(Clone, Copy, Debug, PartialEq, Eq)]
pub enum Kind {
    /// A text.
    Text,
    /// A whole number.
    Number,
    /// A decimal.
    Decimal,
    /// A float.
    Float,
    /// A list of texts.
    List,
}

/// A name, and the kind of value under it.
#[derive(Clone, Copy, Debug)]
pub struct Declaration<'a> {
    pub name: &'a str,
    pub kind: Kind,
}

/// The name and the kind that a text gives: `NAME:` is a whole number, `NAME:.` a decimal, `NAME:~`
/// a float, `NAME[]` a list of texts, and any other text is the name of a text. The name may be empty.
pub fn declaration_of(text: &str) -> Declaration<'_>
    ensures { as_declaration result ≡ declaration_of text.now }
{
    if let Some(declared) = with_ending(NUMBER_MARK, Kind::Number, text) {
        return declared;
    }
    if let Some(declared) = with_ending(DECIMAL_MARK, Kind::Decimal, text) {
        return declared;
    }
    if let Some(declared) = with_ending(FLOAT_MARK, Kind::Float, text) {
        return declared;
    }
    if let Some(declared) = with_ending(LIST_MARK, Kind::List, text) {
        return declared;
    }
    Declaration {
        name: text,
        kind: Kind::Text,
    }
}

// The name before an ending, and the kind that the ending is of, if a text ends so.
#[tactic(auto, using(std::proofs::lemmas::Slice::Eq::ends_is))]
fn with_ending<'a>(ending: &str, kind: Kind, text: &'a str) -> Option<Declaration<'a>>
    ensures { option_map as_declaration result
        ≡ option_map (λ name. (name, kind)) (without ending.now text.now) }
{
    match text.strip_suffix(ending) {
        Some(name) => Some(Declaration { name, kind }),
        None => None,
    }
}
