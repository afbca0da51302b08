//! Bytes that may be a text.
ghost use Rattle.std.specs.Prelude.{◌≡◌, true, false, MatchBool, MatchOption};
ghost use Rattle.std.specs.Str.{IsAscii, IsNotAscii, is_utf8};

/// Whether bytes are ASCII. It is not inlined, so that its few words stay in registers.
#[inline(never)]
pub(crate) fn is_ascii(bytes: &[u8]) -> bool
    ensures cases { MatchBool result (IsAscii bytes.now) (IsNotAscii bytes.now) }
{
    bytes.is_ascii()
}

/// ASCII bytes as a text.
#[tactic(auto, using(crate::proofs::TextLemmas::utf8))]
#[inline(always)]
pub(crate) fn ascii_text(bytes: &[u8]) -> &str
    requires { IsAscii bytes.now }
    ensures text { result.now ≡ bytes.now }
    ensures utf8 { is_utf8 bytes.now ≡ true }
{
    unsafe { str::from_utf8_unchecked(bytes) }
}

/// The bytes as a text, if they are UTF-8.
#[tactic(auto, using(crate::proofs::TextLemmas::utf8))]
#[inline(never)]
fn checked_text(bytes: &[u8]) -> Option<&str>
    ensures { MatchOption result (is_utf8 bytes.now ≡ false)
        (λ text. (text.now ≡ bytes.now) × (is_utf8 bytes.now ≡ true)) }
{
    match std::str::from_utf8(bytes) {
        Ok(text) => Some(text),
        Err(_) => None,
    }
}

/// The bytes as a text, if they are UTF-8. Most are ASCII, which is tested faster.
#[inline(always)]
pub(crate) fn text_of(bytes: &[u8]) -> Option<&str>
    ensures { MatchOption result (is_utf8 bytes.now ≡ false)
        (λ text. (text.now ≡ bytes.now) × (is_utf8 bytes.now ≡ true)) }
{
    if is_ascii(bytes) {
        return Some(ascii_text(bytes));
    }
    checked_text(bytes)
}
