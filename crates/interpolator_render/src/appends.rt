//! Appends to a `String`, for the writers that hold one.
ghost use Rattle.std.specs.Prelude.{◌≡◌, ◌+◌, ◌<◌, ◌≤◌, ◌++◌, ◌⊎◌, true, false, length};
ghost use Rattle.std.specs.Prelude.{encode_utf8, string_bytes, string_capacity};
ghost use Rattle.std.specs.Prelude.{MatchResult, OnOk, OnErr};

use crate::text_write::Refusal;

/// Appends a text to a buffer's text, or sets the flag and changes nothing else.
#[inline(always)]
pub(crate) fn append(held: &mut String, refused: &mut bool, text: &str) -> Result<(), Refusal>
    ensures ok { OnOk result ((string_bytes held.new ≡ string_bytes held.old ++ text.now)
        × (refused.old ≡ false) × (refused.new ≡ false)) }
    ensures err { OnErr result ((string_bytes held.new ≡ string_bytes held.old)
        × (refused.new ≡ true)) }
    ensures taken { MatchResult result (λ _. Unit {0}) (λ refusal. refusal.taken ≡ 0) }
    ensures full { OnErr result ((refused.old ≡ true)
        ⊎ (string_capacity held.old < length (string_bytes held.old) + length text.now)) }
    ensures room { string_capacity held.old ≤ string_capacity held.new }
{
    if *refused {
        return Err(Refusal { taken: 0 });
    }
    match held.push_str(text) {
        Ok(()) => Ok(()),
        Err(_) => {
            *refused = true;
            Err(Refusal { taken: 0 })
        }
    }
}

/// Appends a character to a buffer's text, or sets the flag and changes nothing else.
pub(crate) fn append_char(held: &mut String, refused: &mut bool, c: char) -> Result<(), Refusal>
    ensures ok { OnOk result ((string_bytes held.new ≡ string_bytes held.old ++ encode_utf8 c)
        × (refused.old ≡ false) × (refused.new ≡ false)) }
    ensures err { OnErr result ((string_bytes held.new ≡ string_bytes held.old)
        × (refused.new ≡ true)) }
    ensures taken { MatchResult result (λ _. Unit {0}) (λ refusal. refusal.taken ≡ 0) }
    ensures full { OnErr result ((refused.old ≡ true)
        ⊎ (string_capacity held.old < length (string_bytes held.old) + length (encode_utf8 c))) }
    ensures room { string_capacity held.old ≤ string_capacity held.new }
{
    if *refused {
        return Err(Refusal { taken: 0 });
    }
    match held.push(c) {
        Ok(()) => Ok(()),
        Err(_) => {
            *refused = true;
            Err(Refusal { taken: 0 })
        }
    }
}

/// Makes room in a buffer for this many more bytes, or sets the flag and changes nothing else.
pub(crate) fn make_room(held: &mut String, refused: &mut bool, bytes: usize) -> Result<(), Refusal>
    ensures same { string_bytes held.new ≡ string_bytes held.old }
    ensures ok { OnOk result ((refused.new ≡ refused.old)
        × (length (string_bytes held.new) + bytes ≤ string_capacity held.new)) }
    ensures err { OnErr result (refused.new ≡ true) }
    ensures taken { MatchResult result (λ _. Unit {0}) (λ refusal. refusal.taken ≡ 0) }
    ensures full { OnErr result
        (string_capacity held.old < length (string_bytes held.old) + bytes) }
    ensures room { string_capacity held.old ≤ string_capacity held.new }
{
    match held.reserve(bytes) {
        Ok(()) => Ok(()),
        Err(_) => {
            *refused = true;
            Err(Refusal { taken: 0 })
        }
    }
}
