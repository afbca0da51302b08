//! Values of several kinds that own their text.
ghost use Rattle.std.specs.Prelude.{◌≡◌, ◌≢◌, ◌++◌, IfOk, IfErr, IfSome};
ghost use Rattle.std.specs.Prelude.{Err, Ok, if◌then◌else◌, string_bytes};
ghost use Rattle.std.specs.Str.{chars};
ghost use Rattle.interpolator_render.specs.declared.view.Bits.TheVariants.{B8, B16, B32, B64, B128};
ghost use Rattle.interpolator_render.specs.Views.{shown_by, some_text, IsInRange};
ghost use Rattle.interpolator.specs.OwnedViews.{owned_shows};
ghost use Rattle.interpolator.specs.declared.owned_view.OwnedView.TheVariants as owned;
ghost use Rattle.interpolator_syntax.specs.declared.error.Error.TheVariants.{NoMemory};

use crate::decimal::Decimal;
use interpolator_render::{Bits, Spec, Trait, Value, View};
use interpolator_syntax::Error;
use std::alloc::Global;
use std::fmt::{self, Display, Write};

/// A [`View`] that owns its text: for rows whose texts are `String`s, and for values that only
/// `Display` can write.
///
/// ```text
/// let row = [OwnedView::from(name), OwnedView::shown(alloc, amount)?, OwnedView::from(7u32)];
/// Pairs(&[("name", Formattable::display(&row[0])), ..]).format(alloc, "{name} pays {amount}")?
/// ```
#[derive(Debug, Drop)]
pub enum OwnedView {
    /// A number of a signed type of this width. To write one outside the range of that type is the
    /// fault `Fmt`.
    Signed(i128, Bits),
    /// A number of an unsigned type.
    Unsigned(u128),
    /// A truth value.
    Truth(bool),
    /// A decimal: this many units of 10 ^ -scale. 12.50 is 1250 units at the scale 2.
    Decimal {
        /// How many units.
        units: i128,
        /// How many digits are after the point.
        scale: u32,
    },
    /// A float.
    Float(f64),
    /// A float of 32 bits.
    Float32(f32),
    /// One character.
    Character(char),
    /// A text.
    Text(String),
    /// A value that failed. To write it is the fault `Fmt`.
    Failed,
}

/// A text that is being written, and whether memory was refused for it.
#[derive(Drop)]
struct Draft {
    text: String,
    refused: bool,
}

impl Write for Draft {
    ghost write_str_gives = { λ before bytes after.
        string_bytes after.text ≡ string_bytes before.text ++ bytes };

    fn write_str(&mut self, text: &str) -> fmt::Result {
        match self.text.push_str(text) {
            Ok(()) => Ok(()),
            Err(_) => {
                self.refused = true;
                Err(fmt::Error)
            }
        }
    }
}

/// What a value shows that could not be written.
fn unwritten(refused: bool) -> Result<OwnedView, Error>
    ensures { result ≡ (if refused then Err NoMemory else Ok owned.Failed) }
{
    if refused {
        return Err(Error::NoMemory);
    }
    Ok(OwnedView::Failed)
}

impl OwnedView {
    /// The text of any value with `Display`, as `{}` of std writes it, or `Failed`, if the value
    /// fails although memory was not refused.
    ///
    /// # Errors
    ///
    /// `NoMemory`: there is no memory for the text.
    ///
    /// ```text
    /// OwnedView::shown(alloc, Cents(1250))?    // shows the text 12.50, if `Cents` writes it so
    /// ```
    pub fn shown<D: Display + Drop>(alloc: Global, value: D) -> Result<OwnedView, Error>
        ensures text { IfOk result (λ made. (made ≢ owned.Failed) → IfSome (D.output value)
            (λ bytes. owned_shows made ≡ some_text (chars bytes))) }
        ensures refused { IfErr result (λ error. error ≡ NoMemory) }
    {
        let mut draft = Draft {
            text: String::new(alloc),
            refused: false,
        };
        match draft.write(value) {
            Ok(()) => Ok(OwnedView::Text(draft.text)),
            Err(_) => unwritten(draft.refused),
        }
    }
}

/// The view borrows the text. A signed number outside its width is a failure.
impl<'a> From<&'a OwnedView> for View<'a> {
    ghost from_gives = { λ value view. (shown_by view ≡ owned_shows value.now)
        × IsInRange (shown_by view) };

    fn from(value: &'a OwnedView) -> View<'a> {
        match value {
            OwnedView::Signed(number, bits) => {
                if bits.fits(*number) {
                    View::Signed(*number, *bits)
                } else {
                    View::Failed
                }
            }
            OwnedView::Unsigned(number) => View::Unsigned(*number),
            OwnedView::Truth(truth) => View::Truth(*truth),
            OwnedView::Decimal { units, scale } => View::Decimal {
                units: *units,
                scale: *scale,
            },
            OwnedView::Float(number) => View::Float(*number),
            OwnedView::Float32(number) => View::Float32(*number),
            OwnedView::Character(c) => View::Character(*c),
            OwnedView::Text(text) => View::Text(text.as_str()),
            OwnedView::Failed => View::Failed,
        }
    }
}

impl Value for OwnedView {
    ghost shows = { λ value _ _. owned_shows value };

    fn view(&self, _t: Trait, _spec: &Spec) -> View<'_> {
        View::from(self)
    }
}

impl From<u8> for OwnedView {
    ghost from_gives = { λ number value. value ≡ owned.Unsigned number };

    fn from(number: u8) -> OwnedView {
        OwnedView::Unsigned(u128::from(number))
    }
}

impl From<u16> for OwnedView {
    ghost from_gives = { λ number value. value ≡ owned.Unsigned number };

    fn from(number: u16) -> OwnedView {
        OwnedView::Unsigned(u128::from(number))
    }
}

impl From<u32> for OwnedView {
    ghost from_gives = { λ number value. value ≡ owned.Unsigned number };

    fn from(number: u32) -> OwnedView {
        OwnedView::Unsigned(u128::from(number))
    }
}

impl From<u64> for OwnedView {
    ghost from_gives = { λ number value. value ≡ owned.Unsigned number };

    fn from(number: u64) -> OwnedView {
        OwnedView::Unsigned(u128::from(number))
    }
}

impl From<u128> for OwnedView {
    ghost from_gives = { λ number value. value ≡ owned.Unsigned number };

    fn from(number: u128) -> OwnedView {
        OwnedView::Unsigned(number)
    }
}

impl From<usize> for OwnedView {
    ghost from_gives = { λ number value. value ≡ owned.Unsigned number };

    fn from(number: usize) -> OwnedView {
        OwnedView::Unsigned(number as u128)
    }
}

impl From<f64> for OwnedView {
    ghost from_gives = { λ number value. value ≡ owned.Float number };

    fn from(number: f64) -> OwnedView {
        OwnedView::Float(number)
    }
}

impl From<f32> for OwnedView {
    ghost from_gives = { λ number value. value ≡ owned.Float32 number };

    fn from(number: f32) -> OwnedView {
        OwnedView::Float32(number)
    }
}

impl From<i8> for OwnedView {
    ghost from_gives = { λ number value. value ≡ owned.Signed number B8 };

    fn from(number: i8) -> OwnedView {
        OwnedView::Signed(i128::from(number), Bits::B8)
    }
}

impl From<i16> for OwnedView {
    ghost from_gives = { λ number value. value ≡ owned.Signed number B16 };

    fn from(number: i16) -> OwnedView {
        OwnedView::Signed(i128::from(number), Bits::B16)
    }
}

impl From<i32> for OwnedView {
    ghost from_gives = { λ number value. value ≡ owned.Signed number B32 };

    fn from(number: i32) -> OwnedView {
        OwnedView::Signed(i128::from(number), Bits::B32)
    }
}

impl From<i64> for OwnedView {
    ghost from_gives = { λ number value. value ≡ owned.Signed number B64 };

    fn from(number: i64) -> OwnedView {
        OwnedView::Signed(i128::from(number), Bits::B64)
    }
}

impl From<i128> for OwnedView {
    ghost from_gives = { λ number value. value ≡ owned.Signed number B128 };

    fn from(number: i128) -> OwnedView {
        OwnedView::Signed(number, Bits::B128)
    }
}

impl From<isize> for OwnedView {
    ghost from_gives = { λ number value. value ≡ owned.Signed number B64 };

    fn from(number: isize) -> OwnedView {
        OwnedView::Signed(number as i128, Bits::B64)
    }
}

impl From<bool> for OwnedView {
    ghost from_gives = { λ truth value. value ≡ owned.Truth truth };

    fn from(truth: bool) -> OwnedView {
        OwnedView::Truth(truth)
    }
}

impl From<Decimal> for OwnedView {
    ghost from_gives = { λ decimal value. value ≡ owned.Decimal decimal.units decimal.scale };

    fn from(decimal: Decimal) -> OwnedView {
        OwnedView::Decimal {
            units: decimal.units,
            scale: decimal.scale,
        }
    }
}

impl From<char> for OwnedView {
    ghost from_gives = { λ c value. value ≡ owned.Character c };

    fn from(c: char) -> OwnedView {
        OwnedView::Character(c)
    }
}

impl From<String> for OwnedView {
    ghost from_gives = { λ text value. value ≡ owned.Text text };

    fn from(text: String) -> OwnedView {
        OwnedView::Text(text)
    }
}
