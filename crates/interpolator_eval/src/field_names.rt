//! Comparison of a key with a name, for contexts that a caller writes.
ghost use Rattle.std.specs.Prelude.{◌≡◌};
ghost use Rattle.std.specs.Str.{bytes_eq, chars, encode_utf8_all};

use crate::names::same_name;

/// Returns whether a key is this name. If the `get` of your own context calls it for each of its
/// fields, the checker proves without your help that `get` finds what `finds` says.
///
/// # Example
///
/// ```text
/// if is_name(key, "level") {
///     return Some(Formattable::debug_display(&self.level));
/// }
/// ```
#[tactic(auto, using(crate::proofs::FieldNameLemmas::name_bytes))]
#[inline(always)]
pub fn is_name(key: &str, name: &str) -> bool
    ensures { result ≡ bytes_eq (encode_utf8_all (chars key.now)) name.now }
{
    same_name(name, key)
}
