//! The longest front of a text without some bytes, and what comes after it.

ghost use Rattle.std.specs.Prelude.{◌≡◌, ◌<◌, ◌++◌, ◌∷◌, ℕ, List, IfSome, MatchOption, length};
ghost use Rattle.std.specs.List.{position, position_or_len};
ghost use Rattle.records.specs.Spellings.{AreBlanks, IsPlain, doubled, ends_field, stops};
ghost use Rattle.records.specs.{Marks.NotFirst, Marks.blank, Marks.quote, Scans.IsStopped};

use crate::separator::Separator;

pub(crate) const QUOTE: u8 = b'"';

pub(crate) const BLANK: u8 = b' ';

pub(crate) const LINE_FEED: u8 = b'\n';

pub(crate) const CARRIAGE_RETURN: u8 = b'\r';

/// Returns the text after this ASCII character, if it begins the text.
pub(crate) fn strip(text: &str, wanted: u8) -> Option<&str>
    requires ascii { wanted < 128 }
    ensures cases { MatchOption result (NotFirst wanted text.now) (λ r. text.now ≡ wanted ∷ r.now) }
    ensures shorter { IfSome result (λ r. length r.now < length text.now) }
{
    let first = text.as_bytes().first()?;
    if *first != wanted {
        return None;
    }
    let (_, rest) = text.split_at(1);
    Some(rest)
}

/// Returns the text after the blanks in front of it.
pub(crate) fn skip_blanks(text: &str) -> &str
    ensures blanks { (blanks : List ℕ) × AreBlanks blanks × (text.now ≡ blanks ++ result.now) }
    ensures all { NotFirst blank result.now }
{
    let mut rest = text;
    while let Some(after) = strip(rest, BLANK) {
        rest = after;
    }
    rest
}

/// Whether a byte may not stand in a field without quotes.
fn stops(separator: Separator, byte: u8) -> bool
    ensures { result ≡ stops separator byte }
{
    byte == separator.byte() || byte == QUOTE || byte == LINE_FEED || byte == CARRIAGE_RETURN
}

/// Returns the index of the first byte that may not stand in a field without quotes.
fn stop_in(bytes: &[u8], separator: Separator) -> Option<usize>
    ensures { result ≡ position (stops separator) bytes.now }
{
    bytes.iter().position(|byte| stops(separator, *byte))
}

/// How many bytes come before the first that may not stand in a field without quotes.
#[tactic(auto, using(crate::proofs::ScanLemmas::first_or_all))]
fn plain_len(bytes: &[u8], separator: Separator) -> usize
    ensures { result ≡ position_or_len (stops separator) bytes.now }
{
    stop_in(bytes, separator).unwrap_or(bytes.len())
}

/// Splits a text after its longest front that may be a field without quotes.
pub(crate) fn split_plain(text: &str, separator: Separator) -> (&str, &str)
    ensures whole { text.now ≡ result.0.now ++ result.1.now }
    ensures plain { IsPlain separator result.0.now }
    ensures stopped { IsStopped separator result.1.now }
{
    text.split_at(plain_len(text.as_bytes(), separator))
}

/// Splits a text at its first quote.
pub(crate) fn split_at_quote(text: &str) -> Option<(&str, &str)>
    ensures cases { MatchOption result (doubled text.now ≡ text.now)
        (λ r. (text.now ≡ r.0.now ++ (quote ∷ r.1.now)) × (doubled r.0.now ≡ r.0.now)) }
    ensures shorter { IfSome result (λ r. length r.1.now < length text.now) }
{
    text.split_once('"')
}

/// Whether a field may end before this text.
pub(crate) fn ends_field(text: &str, separator: Separator) -> bool
    ensures { result ≡ ends_field separator text.now }
{
    match text.as_bytes() {
        [] => true,
        [b] => *b == separator.byte() || *b == LINE_FEED,
        [b, c, ..] => {
            *b == separator.byte() || *b == LINE_FEED || (*b == CARRIAGE_RETURN && *c == LINE_FEED)
        }
    }
}
