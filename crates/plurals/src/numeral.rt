//! Numbers in a rule.
ghost use Rattle.std.specs.Prelude.{◌≡◌, ◌<◌};
ghost use Rattle.std.specs.{Char.is_ascii_digit, List.list_all};
ghost use Rattle.plurals.specs.Tokens.{is_numeral, number_in};

/// Whether each byte of a text is a digit.
fn has_only_digits(text: &str) -> bool
    ensures { result ≡ list_all is_ascii_digit text.now }
{
    text.bytes().all(|b| b.is_ascii_digit())
}

/// Whether a text is one or more digits.
pub(crate) fn is_numeral(text: &str) -> bool
    ensures { result ≡ is_numeral text.now }
{
    !text.is_empty() && has_only_digits(text)
}

/// The number that digits write, if it is below 2^64.
pub(crate) fn number_in(text: &str) -> Option<u64>
    ensures { result ≡ number_in text.now }
{
    if !is_numeral(text) {
        return None;
    }
    text.parse::<u64>().ok()
}
