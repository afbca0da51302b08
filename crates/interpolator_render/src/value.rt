//! Values that have a view.
ghost use Rattle.std.specs.Prelude.{◌≡◌, string_bytes};
ghost use Rattle.std.specs.{Float.binary32, Float.binary64, Str.chars};
ghost use Rattle.interpolator_render.specs.declared.view.Bits.TheVariants.{B8, B16, B32, B64, B128};
ghost use Rattle.interpolator_render.specs.Views.{IsInRange, Shown, shown_by, signed_number};
ghost use Rattle.interpolator_render.specs.Views.{unsigned_number, truth_value, one_character};
ghost use Rattle.interpolator_render.specs.Views.{float_number, some_text, shown_as_value};
ghost use Rattle.interpolator_render.specs.{declared.view.Spec.Spec, declared.view.Trait.Trait};

use crate::view::{Bits, Spec, Trait, View};

/// A value that can be written: under each trait and spec it shows one view.
///
/// The view is a function of what the value holds, of the trait and of the spec, and a signed
/// number in it lies in the range of its width.
///
/// ```text
/// struct Celsius(i16);
///
/// impl Value for Celsius {
///     ghost shows = { λ degrees _ _. signed_number degrees.0 B16 };
///
///     fn view(&self, _t: Trait, _spec: &Spec) -> View<'_> {
///         View::Signed(i128::from(self.0), Bits::B16)
///     }
/// }
/// ```
pub trait Value {
    // what the value shows under a trait and a spec
    ghost shows: { Self → Trait → Spec → Shown };

    /// What the value shows under a trait and a spec.
    fn view(&self, wanted: Trait, spec: &Spec) -> View<'_>
        ensures shown { shown_by result ≡ shows self.now wanted spec.now }
        ensures in_range { IsInRange (shown_by result) };
}

impl Value for u8 {
    ghost shows = { λ number _ _. unsigned_number number };

    fn view(&self, _t: Trait, _spec: &Spec) -> View<'_> {
        View::Unsigned(u128::from(*self))
    }
}

impl Value for u16 {
    ghost shows = { λ number _ _. unsigned_number number };

    fn view(&self, _t: Trait, _spec: &Spec) -> View<'_> {
        View::Unsigned(u128::from(*self))
    }
}

impl Value for u32 {
    ghost shows = { λ number _ _. unsigned_number number };

    fn view(&self, _t: Trait, _spec: &Spec) -> View<'_> {
        View::Unsigned(u128::from(*self))
    }
}

impl Value for u64 {
    ghost shows = { λ number _ _. unsigned_number number };

    fn view(&self, _t: Trait, _spec: &Spec) -> View<'_> {
        View::Unsigned(u128::from(*self))
    }
}

impl Value for u128 {
    ghost shows = { λ number _ _. unsigned_number number };

    fn view(&self, _t: Trait, _spec: &Spec) -> View<'_> {
        View::Unsigned(*self)
    }
}

impl Value for usize {
    ghost shows = { λ number _ _. unsigned_number number };

    fn view(&self, _t: Trait, _spec: &Spec) -> View<'_> {
        View::Unsigned(*self as u128)
    }
}

impl Value for i8 {
    ghost shows = { λ number _ _. signed_number number B8 };

    fn view(&self, _t: Trait, _spec: &Spec) -> View<'_> {
        View::Signed(i128::from(*self), Bits::B8)
    }
}

impl Value for i16 {
    ghost shows = { λ number _ _. signed_number number B16 };

    fn view(&self, _t: Trait, _spec: &Spec) -> View<'_> {
        View::Signed(i128::from(*self), Bits::B16)
    }
}

impl Value for i32 {
    ghost shows = { λ number _ _. signed_number number B32 };

    fn view(&self, _t: Trait, _spec: &Spec) -> View<'_> {
        View::Signed(i128::from(*self), Bits::B32)
    }
}

impl Value for i64 {
    ghost shows = { λ number _ _. signed_number number B64 };

    fn view(&self, _t: Trait, _spec: &Spec) -> View<'_> {
        View::Signed(i128::from(*self), Bits::B64)
    }
}

impl Value for i128 {
    ghost shows = { λ number _ _. signed_number number B128 };

    fn view(&self, _t: Trait, _spec: &Spec) -> View<'_> {
        View::Signed(*self, Bits::B128)
    }
}

impl Value for isize {
    ghost shows = { λ number _ _. signed_number number B64 };

    fn view(&self, _t: Trait, _spec: &Spec) -> View<'_> {
        View::Signed(*self as i128, Bits::B64)
    }
}

impl Value for f64 {
    ghost shows = { λ number _ _. float_number binary64 number };

    fn view(&self, _t: Trait, _spec: &Spec) -> View<'_> {
        View::Float(*self)
    }
}

impl Value for f32 {
    ghost shows = { λ number _ _. float_number binary32 number };

    fn view(&self, _t: Trait, _spec: &Spec) -> View<'_> {
        View::Float32(*self)
    }
}

impl Value for bool {
    ghost shows = { λ truth _ _. truth_value truth };

    fn view(&self, _t: Trait, _spec: &Spec) -> View<'_> {
        View::Truth(*self)
    }
}

impl Value for char {
    ghost shows = { λ c _ _. one_character c };

    fn view(&self, _t: Trait, _spec: &Spec) -> View<'_> {
        View::Character(*self)
    }
}

impl Value for &str {
    ghost shows = { λ text _ _. some_text (chars text.now) };

    fn view(&self, _t: Trait, _spec: &Spec) -> View<'_> {
        View::Text(self)
    }
}

impl Value for String {
    ghost shows = { λ text _ _. some_text (chars (string_bytes text)) };

    fn view(&self, _t: Trait, _spec: &Spec) -> View<'_> {
        View::Text(self.as_str())
    }
}

/// A view shows itself, except that a signed number outside its width shows a failure.
impl<'a> Value for View<'a> {
    ghost shows = { λ view _ _. shown_as_value view };

    #[inline(always)]
    fn view(&self, _t: Trait, _spec: &Spec) -> View<'_> {
        match *self {
            View::Signed(number, bits) => {
                if bits.fits(number) {
                    View::Signed(number, bits)
                } else {
                    View::Failed
                }
            }
            _ => *self,
        }
    }
}
