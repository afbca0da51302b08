//! What is left of a file, and the front of it without some bytes.

ghost use Rattle.std.specs.Prelude.{◌≡◌, ◌++◌, ◌≤◌, ◌∷◌, ◌+◌, ◌<◌, MatchOption, length, true};
ghost use Rattle.std.specs.List.{list_all, position, position_or_len};
ghost use Rattle.po.specs.Marks.{IsStopped, NotFirst, ends_word, is_plain, is_special};
ghost use Rattle.po.specs.Tokens.{after_word, word_of};

/// What is left of a file.
#[derive(Clone, Copy)]
pub(crate) struct At<'a> {
    pub(crate) text: &'a str,
    /// The byte at which the file ends.
    pub(crate) end: usize,
}

/// The text after this ASCII character, if it begins the text.
pub(crate) fn strip(text: &str, wanted: u8) -> Option<&str>
    requires ascii { wanted < 128 }
    ensures { MatchOption result (NotFirst wanted text.now) (λ rest. text.now ≡ wanted ∷ rest.now) }
{
    let first = text.as_bytes().first()?;
    if *first != wanted {
        return None;
    }
    let (_, rest) = text.split_at(1);
    Some(rest)
}

/// Whether a byte does not stand for itself in a string.
fn is_special(b: u8) -> bool
    ensures { result ≡ is_special b }
{
    b == b'"' || b == b'\\' || b == b'\n' || b == 0
}

/// Whether a byte ends a word: white space, a control character or a quote.
fn ends_word(b: u8) -> bool
    ensures { result ≡ ends_word b }
{
    b <= b' ' || b == b'"'
}

/// The index of the first byte that does not stand for itself in a string.
fn special_in(bytes: &[u8]) -> Option<usize>
    ensures { result ≡ position is_special bytes.now }
{
    bytes.iter().position(|b| is_special(*b))
}

/// The index of the first byte that ends a word.
fn end_in(bytes: &[u8]) -> Option<usize>
    ensures { result ≡ position ends_word bytes.now }
{
    bytes.iter().position(|b| ends_word(*b))
}

/// How many bytes come before the first that does not stand for itself.
#[tactic(auto, using(crate::proofs::ScanLemmas::first_or_all))]
fn plain_len(bytes: &[u8]) -> usize
    ensures { result ≡ position_or_len is_special bytes.now }
{
    special_in(bytes).unwrap_or(bytes.len())
}

/// How many bytes come before the first that ends a word.
#[tactic(auto, using(crate::proofs::ScanLemmas::first_or_all))]
fn word_len(bytes: &[u8]) -> usize
    ensures { result ≡ position_or_len ends_word bytes.now }
{
    end_in(bytes).unwrap_or(bytes.len())
}

/// Splits the text of a string after the longest front that stands for itself.
pub(crate) fn split_plain(text: &str) -> (&str, &str)
    ensures whole { text.now ≡ result.0.now ++ result.1.now }
    ensures plain { list_all is_plain result.0.now ≡ true }
    ensures stopped { IsStopped result.1.now }
    ensures shorter { length result.1.now ≤ length text.now }
{
    text.split_at(plain_len(text.as_bytes()))
}

/// Splits a text after the longest front that is a word.
pub(crate) fn split_word(text: &str) -> (&str, &str)
    ensures word { result.0.now ≡ word_of text.now }
    ensures after { result.1.now ≡ after_word text.now }
    ensures whole { length text.now ≡ length result.0.now + length result.1.now }
{
    text.split_at(word_len(text.as_bytes()))
}
