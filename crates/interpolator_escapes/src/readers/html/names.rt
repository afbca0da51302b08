//! Where a reader of HTML is, and the names that it remembers.
ghost use Rattle.std.specs.Prelude.{◌≡◌, ◌∷◌, [], ℕ, List, codes, take};
ghost use Rattle.std.specs.Str.{bytes_eq};
ghost use Rattle.interpolator_escapes.specs.CodeHtml.{kind_in, quote_of, settled};
ghost use Rattle.interpolator_escapes.specs.Html.{is_in_reference, is_letter, is_one_of, is_raw};
ghost use Rattle.interpolator_escapes.specs.Html.{is_scheme, is_space, kind_of, lower, quote_code};

/// The quotes around a value.
#[derive(Clone, Copy, PartialEq, Eq)]
pub enum Quotes {
    Double,
    Single,
}

/// What an attribute's value is: a text; what is read once more; or an address, of which the name
/// that is remembered was read.
#[derive(Clone, Copy, PartialEq, Eq)]
pub enum ValueKind {
    Plain,
    ReadAgain,
    Address,
}

/// Where a reader is, as `specs/Html` names it.
#[derive(Clone, Copy, PartialEq, Eq)]
pub enum Phase {
    InText,
    InValue,
    TextReference,
    ValueReference,
    Opened,
    Closing,
    Marked,
    MarkedDash,
    Declared,
    Comment,
    CommentDash,
    CommentDashes,
    NameBegins,
    NameEnds,
    Spaced,
    InName,
    AfterName,
    BeforeValue,
    InBareValue,
    InRaw,
    RawOpened,
    RawClosing,
    Lost,
}

/// Tests for a letter.
pub fn is_letter(c: char) -> bool
    ensures { result ≡ is_letter c }
{
    match c {
        'A'..='Z' => true,
        'a'..='z' => true,
        _ => false,
    }
}

/// A capital letter as a small one.
pub fn lower(c: char) -> char
    ensures { result ≡ lower c }
{
    c.to_ascii_lowercase()
}

/// Tests for a space, a tab or an end of a line.
pub fn is_space(c: char) -> bool
    ensures { result ≡ is_space c }
{
    c == ' ' || c == '\t' || c == '\n' || c == '\x0c' || c == '\r'
}

/// Tests for a letter, a digit or `#`.
pub fn is_in_reference(c: char) -> bool
    ensures { result ≡ is_in_reference c }
{
    match c {
        '0'..='9' => true,
        '#' => true,
        _ => is_letter(c),
    }
}

/// Tests whether a name is a word of ASCII.
pub fn is_word(name: &[char], word: &[u8]) -> bool
    ensures { result ≡ bytes_eq name.now word.now }
{
    if name.len() != word.len() {
        return false;
    }
    for i in 0..name.len() {
        if name[i] as u32 != word[i] as u32 {
            return false;
        }
    }
    true
}

/// Tests for an element whose text a reader may take as it stands.
pub fn is_raw(element: &[char]) -> bool
    ensures { result ≡ is_raw element.now }
{
    is_word(element, b"script")
        || is_word(element, b"style")
        || is_word(element, b"title")
        || is_word(element, b"textarea")
        || is_word(element, b"iframe")
        || is_word(element, b"xmp")
        || is_word(element, b"noscript")
        || is_word(element, b"noembed")
        || is_word(element, b"noframes")
}

/// Tests for a scheme whose addresses run nothing.
pub fn is_scheme(name: &[char]) -> bool
    ensures { result ≡ is_scheme name.now }
{
    is_word(name, b"http")
        || is_word(name, b"https")
        || is_word(name, b"mailto")
        || is_word(name, b"tel")
}

/// Tests for a name that begins with `on`.
fn begins_on(name: &[char]) -> bool
    ensures { result ≡ bytes_eq (take 2 name.now) (codes "on") }
{
    if name.len() < 2 {
        return false;
    }
    is_word(&name[..2], b"on")
}

/// Tests for an attribute that is an address.
fn is_address(name: &[char]) -> bool
    ensures { result ≡ is_one_of name.now (codes "href" ∷ codes "src" ∷ codes "action"
        ∷ codes "formaction" ∷ codes "data" ∷ codes "xlink:href" ∷ []) }
{
    is_word(name, b"href")
        || is_word(name, b"src")
        || is_word(name, b"action")
        || is_word(name, b"formaction")
        || is_word(name, b"data")
        || is_word(name, b"xlink:href")
}

/// What the value of an attribute of this name is.
pub fn kind_of(name: &[char]) -> ValueKind
    ensures { kind_in result [] ≡ kind_of name.now }
{
    if begins_on(name) || is_word(name, b"style") || is_word(name, b"srcdoc") {
        return ValueKind::ReadAgain;
    }
    if is_address(name) {
        return ValueKind::Address;
    }
    ValueKind::Plain
}

/// What a value is once a reference was read in it: an address may be hidden by it.
pub fn settled(kind: ValueKind) -> ValueKind
    ensures { (name : List ℕ) → kind_in result name ≡ settled kind }
{
    match kind {
        ValueKind::Plain => ValueKind::Plain,
        ValueKind::ReadAgain => ValueKind::ReadAgain,
        ValueKind::Address => ValueKind::ReadAgain,
    }
}

/// The quote around a value.
pub fn quote_char(quotes: Quotes) -> char
    ensures { result ≡ quote_code (quote_of quotes) }
{
    match quotes {
        Quotes::Double => '"',
        Quotes::Single => '\'',
    }
}
