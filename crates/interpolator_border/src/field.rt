//! A value as C passes it.
ghost use Rattle.std.specs.Prelude.{◌≡◌, ◌+◌, ◌*◌};
ghost use Rattle.std.specs.{Option.option_copied, List.find, Str.IsAscii};
ghost use Rattle.interpolator_render.specs.Views.{IsInRange, shown_by, some_text, plain_text};
ghost use Rattle.interpolator_border.specs.Requests.{is_request, request_of};
ghost use Rattle.interpolator_border.specs.Fields.{character_shows, field_shows, lent_shows};
ghost use Rattle.interpolator_border.specs.Fields.{decimal_shows, real_shows, signed_halves};
ghost use Rattle.interpolator_border.specs.Fields.{number_shows, signed_shows, text_shows};

use crate::bytes::{ascii_text, is_ascii, text_of};
use crate::request::{Request, is_request, request_of};
use interpolator::{Bits, Spec, Trait, Value, View};

/// A text.
pub(crate) const TEXT: u32 = 0;

/// A text that is written as it is.
pub(crate) const PLAIN: u32 = 1;

/// A truth value.
pub(crate) const TRUTH: u32 = 2;

/// A character.
pub(crate) const CHARACTER: u32 = 3;

/// An unsigned number of at most 64 bits.
pub(crate) const UNSIGNED: u32 = 4;

/// An unsigned number of 128 bits.
pub(crate) const UNSIGNED128: u32 = 5;

/// A signed number of 8 bits.
pub(crate) const SIGNED8: u32 = 6;

/// A signed number of 16 bits.
pub(crate) const SIGNED16: u32 = 7;

/// A signed number of 32 bits.
pub(crate) const SIGNED32: u32 = 8;

/// A signed number of 64 bits.
pub(crate) const SIGNED64: u32 = 9;

/// A signed number of 128 bits.
pub(crate) const SIGNED128: u32 = 10;

/// A list, whose texts for other slots are lent.
pub(crate) const LIST: u32 = 11;

/// A value whose texts are lent.
pub(crate) const LENT: u32 = 12;

/// A float of 64 bits.
pub(crate) const DOUBLE: u32 = 13;

/// A float of 32 bits.
pub(crate) const FLOAT: u32 = 14;

/// A decimal.
pub(crate) const DECIMAL: u32 = 15;

/// A text that the caller made of a value, for one request.
#[repr(C)]
#[derive(Clone, Copy)]
pub struct Lent<'a> {
    /// The request that it is for.
    pub request: Request,
    /// The text, in UTF-8, which is written as it is.
    pub text: &'a [u8],
}

/// A value under a name, or an item of a list.
///
/// Its kind says which of its members are read; `interpolator.h` has their meaning.
#[repr(C)]
#[derive(Clone, Copy)]
pub struct Field<'a> {
    /// The name, in UTF-8; of an item it is not read.
    pub name: &'a [u8],
    /// A text, in UTF-8.
    pub text: &'a [u8],
    /// Texts, each for a request.
    pub lent: &'a [Lent<'a>],
    /// What it is.
    pub kind: u32,
    /// The slots that it fills; 0 for those of its kind.
    pub slots: u32,
    /// A signed number, or the upper half of one of 128 bits, as the units of a decimal are.
    pub number: i64,
    /// An unsigned number, a truth value (0 is false), the code of a character, or the lower half of
    /// a number of 128 bits.
    pub natural: u64,
    /// The upper half of an unsigned number of 128 bits, or how many digits of a decimal are after its
    /// point.
    pub upper: u64,
    /// Of a list: the first of its items.
    pub first: usize,
    /// Of a list: the item after its last.
    pub end: usize,
    /// A float of 64 bits.
    pub real: f64,
    /// A float of 32 bits.
    pub single: f32,
    /// Not read.
    pub spare: u32,
}

/// The view of an ASCII text.
#[inline(always)]
fn ascii_view(bytes: &[u8]) -> View<'_>
    requires { IsAscii bytes.now }
    ensures { shown_by result ≡ text_shows some_text bytes.now }
{
    View::Text(ascii_text(bytes))
}

/// The view of a text.
fn text_view(bytes: &[u8]) -> View<'_>
    ensures { shown_by result ≡ text_shows some_text bytes.now }
{
    match text_of(bytes) {
        Some(text) => View::Text(text),
        None => View::Failed,
    }
}

/// The view of a text that is written as it is.
fn plain_view(bytes: &[u8]) -> View<'_>
    ensures { shown_by result ≡ text_shows plain_text bytes.now }
{
    match text_of(bytes) {
        Some(text) => View::Plain(text),
        None => View::Failed,
    }
}

/// The view of a character.
fn character_view(code: u64) -> View<'static>
    ensures { shown_by result ≡ character_shows code }
{
    match u32::try_from(code) {
        Ok(code) => match char::from_u32(code) {
            Some(c) => View::Character(c),
            None => View::Failed,
        },
        Err(_) => View::Failed,
    }
}

/// The view of a signed number.
fn signed_view(number: i128, bits: Bits) -> View<'static>
    ensures shown { shown_by result ≡ signed_shows number bits }
    ensures in_range { IsInRange (shown_by result) }
{
    if bits.fits(number) {
        View::Signed(number, bits)
    } else {
        View::Failed
    }
}

/// The two halves of an unsigned number.
fn unsigned_halves(upper: u64, lower: u64) -> u128
    ensures { result ≡ upper * 0x1_0000_0000_0000_0000 + lower }
{
    u128::from(upper) * 0x1_0000_0000_0000_0000 + u128::from(lower)
}

/// The two halves of a signed number.
fn signed_halves(upper: i64, lower: u64) -> i128
    ensures { result ≡ signed_halves upper lower }
{
    i128::from(upper) * 0x1_0000_0000_0000_0000 + i128::from(lower)
}

/// The text that is lent for a request.
fn lent_for<'s, 'a>(lent: &'s [Lent<'a>], request: &Request) -> Option<&'s Lent<'a>>
    ensures { option_copied result
        ≡ find (λ lent. is_request request.now lent.request) lent.now }
{
    lent.iter().find(|lent| is_request(request, &lent.request))
}

/// The view of a text that is lent.
fn lent_view<'s>(lent: &'s [Lent<'s>], t: Trait, spec: &Spec) -> View<'s>
    ensures { shown_by result ≡ lent_shows lent.now t spec.now }
{
    match lent_for(lent, &request_of(t, spec)) {
        Some(found) => plain_view(found.text),
        None => View::NotImplemented,
    }
}

/// The view of a decimal.
fn decimal_view(units: i128, scale: u64) -> View<'static>
    ensures { shown_by result ≡ decimal_shows units scale }
{
    match u32::try_from(scale) {
        Ok(scale) => View::Decimal { units, scale },
        Err(_) => View::Failed,
    }
}

/// The view of a number with digits after its point.
fn real_view<'s>(field: &'s Field<'s>) -> View<'s>
    ensures shown { shown_by result ≡ real_shows field.now }
    ensures in_range { IsInRange (shown_by result) }
{
    match field.kind {
        DOUBLE => View::Float(field.real),
        FLOAT => View::Float32(field.single),
        DECIMAL => decimal_view(signed_halves(field.number, field.natural), field.upper),
        _ => View::NotImplemented,
    }
}

/// The view of a number.
fn number_view<'s>(field: &'s Field<'s>) -> View<'s>
    ensures shown { shown_by result ≡ number_shows field.now }
    ensures in_range { IsInRange (shown_by result) }
{
    match field.kind {
        UNSIGNED => View::Unsigned(u128::from(field.natural)),
        UNSIGNED128 => View::Unsigned(unsigned_halves(field.upper, field.natural)),
        SIGNED8 => signed_view(i128::from(field.number), Bits::B8),
        SIGNED16 => signed_view(i128::from(field.number), Bits::B16),
        SIGNED32 => signed_view(i128::from(field.number), Bits::B32),
        SIGNED64 => signed_view(i128::from(field.number), Bits::B64),
        SIGNED128 => signed_view(signed_halves(field.number, field.natural), Bits::B128),
        _ => real_view(field),
    }
}

/// The view of a field.
#[inline(never)]
fn field_view<'s>(field: &'s Field<'s>, t: Trait, spec: &Spec) -> View<'s>
    ensures shown { shown_by result ≡ field_shows field.now t spec.now }
    ensures in_range { IsInRange (shown_by result) }
{
    match field.kind {
        TEXT => text_view(field.text),
        PLAIN => plain_view(field.text),
        TRUTH => View::Truth(field.natural != 0),
        CHARACTER => character_view(field.natural),
        LIST => lent_view(field.lent, t, spec),
        LENT => lent_view(field.lent, t, spec),
        _ => number_view(field),
    }
}

impl<'a> Value for Field<'a> {
    ghost shows = { λ field t spec. field_shows field t spec };

    /// Most fields are ASCII texts or small numbers, so that these are tested where a value is
    /// written.
    #[inline(always)]
    fn view(&self, t: Trait, spec: &Spec) -> View<'_> {
        if self.kind == TEXT && is_ascii(self.text) {
            ascii_view(self.text)
        } else if self.kind == UNSIGNED {
            View::Unsigned(u128::from(self.natural))
        } else {
            field_view(self, t, spec)
        }
    }
}
