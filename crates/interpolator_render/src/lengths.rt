//! How many characters the text of a view has at most.
ghost use Rattle.std.specs.Prelude.{◌≡◌, ◌≤◌};
ghost use Rattle.interpolator_render.specs.Lengths.{most_digits, most_front, most_body};
ghost use Rattle.interpolator_render.specs.Lengths.{most_number};
ghost use Rattle.interpolator_render.specs.Lengths.{most_decimal, most_plain, most_scaled};
ghost use Rattle.interpolator_render.specs.Lengths.{most_text, most_written, usize_count};
ghost use Rattle.interpolator_render.specs.Numbers.{prefix_of, sign_text};
ghost use Rattle.std.specs.Prelude.{false, length, [], if◌then◌else◌};

use crate::number_form::{NumberForm, Radix, number_form};
use crate::view::{Sign, Spec, Trait};

/// The digits of a number of at most 128 bits.
fn most_digits(radix: Radix) -> usize
    ensures { result ≡ most_digits radix }
{
    match radix {
        Radix::Decimal => 39,
        Radix::Binary => 128,
        Radix::Octal => 43,
        Radix::LowerHex => 32,
        Radix::UpperHex => 32,
    }
}

/// The `+` of a number that is not negative.
fn plus_count(sign: Sign) -> usize
    ensures { result ≡ length (sign_text false sign) }
{
    match sign {
        Sign::Plus => 1,
        Sign::Minus => 0,
        Sign::Unset => 0,
    }
}

/// The prefix, if `#` is set.
fn prefix_count(radix: Radix, alternate: bool) -> usize
    ensures { result ≡ length (if alternate then prefix_of radix else []) }
{
    if alternate { radix.prefix().len() } else { 0 }
}

/// Sign and prefix.
fn most_front(form: NumberForm, spec: &Spec) -> usize
    ensures { result ≡ most_front form spec.now }
{
    match form {
        NumberForm::Digits(Radix::Decimal) => 1,
        NumberForm::Digits(radix) => plus_count(spec.sign) + prefix_count(radix, spec.alternate),
        NumberForm::Exponent(_) => 1,
    }
}

/// The digits, in an exponent form with point, mark and exponent.
fn most_body(form: NumberForm, precision: Option<usize>) -> usize
    ensures { result ≡ usize_count (most_body form precision) }
{
    match form {
        NumberForm::Digits(radix) => most_digits(radix),
        NumberForm::Exponent(_) => match precision {
            None => 43,
            Some(0) => 4,
            Some(places) => places.saturating_add(5),
        },
    }
}

/// A number in the form that a trait writes, if it writes numbers.
fn most_number(form: Option<NumberForm>, spec: &Spec) -> usize
    ensures { result ≡ usize_count (most_number form spec.now) }
{
    match form {
        Some(form) => most_front(form, spec).saturating_add(most_body(form, spec.precision)),
        None => 0,
    }
}

/// A decimal with this many digits after the point; 0 without precision, as its text is then one
/// that the caller counts.
fn most_plain(precision: Option<usize>) -> usize
    ensures { result ≡ usize_count (most_plain precision) }
{
    match precision {
        None => 0,
        Some(places) => places.saturating_add(41),
    }
}

/// A decimal in exponent form, with an exponent of ten digits and its sign.
fn most_scaled(precision: Option<usize>) -> usize
    ensures { result ≡ usize_count (most_scaled precision) }
{
    match precision {
        None => 53,
        Some(places) => places.saturating_add(15),
    }
}

/// A decimal under a trait.
fn most_decimal(wanted: Trait, precision: Option<usize>) -> usize
    ensures { result ≡ usize_count (most_decimal wanted precision) }
{
    match wanted {
        Trait::Display => most_plain(precision),
        Trait::Debug => most_plain(precision),
        Trait::LowerExp => most_scaled(precision),
        Trait::UpperExp => most_scaled(precision),
        _ => 0,
    }
}

/// A text of at most this many characters.
fn most_text(wanted: Trait, most: usize) -> usize
    ensures { result ≡ usize_count (most_text wanted most) }
{
    match wanted {
        Trait::Debug => most.saturating_mul(6).saturating_add(2),
        _ => most,
    }
}

/// The most characters that [`render`](crate::render) writes under a trait and a spec of any view
/// whose text has at most `most` characters, a decimal's with its sign. The greatest `usize` means
/// that many or more. The call takes no memory.
///
/// # Example
///
/// ```text
/// most_written(Trait::Binary, &Spec::default(), 10)   // 128: a number may be longer than the text
/// most_written(Trait::Debug, &Spec::default(), 10)    // 62: six for each character, and two quotes
/// ```
#[tactic(auto, using(crate::proofs::LengthLemmas::most_reported))]
pub fn most_written(wanted: Trait, spec: &Spec, most: usize) -> usize
    ensures { result ≡ usize_count (most_written wanted spec.now most) }
{
    let number = most_number(number_form(wanted, spec.hex_debug), spec);
    spec.width
        .unwrap_or(0)
        .max(number)
        .max(most_decimal(wanted, spec.precision))
        .max(most_text(wanted, most))
}
