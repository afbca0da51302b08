//! Characters of numbers, and under which traits and specs a value shows them alone.
ghost use Rattle.std.specs.Prelude.{◌≡◌};
ghost use Rattle.interpolator_escapes.specs.Plain.{in_base_ten, is_bare, is_debug, is_plain, is_plus};

use interpolator_render::{HexDebug, Sign, Spec, Trait};

/// Tests for a digit, a letter of ASCII, `+`, `-`, `.` and a blank.
pub(crate) fn is_plain(c: char) -> bool
    ensures { result ≡ is_plain c }
{
    match c {
        '0'..='9' | 'a'..='z' | 'A'..='Z' => true,
        '+' | '-' | '.' | ' ' => true,
        _ => false,
    }
}

/// Tests for [`Trait::Debug`].
pub(crate) fn is_debug(wanted: Trait) -> bool
    ensures { result ≡ is_debug wanted }
{
    match wanted {
        Trait::Debug => true,
        _ => false,
    }
}

/// Tests for [`Sign::Plus`].
fn is_plus(sign: Sign) -> bool
    ensures { result ≡ is_plus sign }
{
    match sign {
        Sign::Plus => true,
        _ => false,
    }
}

/// Tests for [`HexDebug::No`].
fn in_base_ten(hex_debug: HexDebug) -> bool
    ensures { result ≡ in_base_ten hex_debug }
{
    match hex_debug {
        HexDebug::No => true,
        _ => false,
    }
}

/// Tests whether a number under debug and this spec is one of JSON, with blanks around it.
pub(crate) fn is_bare(spec: &Spec) -> bool
    ensures { result ≡ is_bare spec.now }
{
    !is_plus(spec.sign)
        && !spec.zero
        && spec.fill.unwrap_or(' ') == ' '
        && in_base_ten(spec.hex_debug)
}
