//! Views made of values, so that one map can hold values of several kinds.
ghost use Rattle.std.specs.Prelude.{◌≡◌, string_bytes};
ghost use Rattle.std.specs.{Float.binary32, Float.binary64, Str.chars};
ghost use Rattle.interpolator_render.specs.declared.view.Bits.TheVariants.{B8, B16, B32, B64, B128};
ghost use Rattle.interpolator_render.specs.Views.{float_number, shown_by, signed_number};
ghost use Rattle.interpolator_render.specs.Views.{unsigned_number, truth_value, one_character};
ghost use Rattle.interpolator_render.specs.Views.{some_text};

use crate::view::{Bits, View};

impl From<u8> for View<'_> {
    ghost from_gives = { λ number view. shown_by view ≡ unsigned_number number };

    fn from(number: u8) -> Self {
        View::Unsigned(u128::from(number))
    }
}

impl From<u16> for View<'_> {
    ghost from_gives = { λ number view. shown_by view ≡ unsigned_number number };

    fn from(number: u16) -> Self {
        View::Unsigned(u128::from(number))
    }
}

impl From<u32> for View<'_> {
    ghost from_gives = { λ number view. shown_by view ≡ unsigned_number number };

    fn from(number: u32) -> Self {
        View::Unsigned(u128::from(number))
    }
}

impl From<u64> for View<'_> {
    ghost from_gives = { λ number view. shown_by view ≡ unsigned_number number };

    fn from(number: u64) -> Self {
        View::Unsigned(u128::from(number))
    }
}

impl From<u128> for View<'_> {
    ghost from_gives = { λ number view. shown_by view ≡ unsigned_number number };

    fn from(number: u128) -> Self {
        View::Unsigned(number)
    }
}

impl From<usize> for View<'_> {
    ghost from_gives = { λ number view. shown_by view ≡ unsigned_number number };

    fn from(number: usize) -> Self {
        View::Unsigned(number as u128)
    }
}

impl From<f64> for View<'_> {
    ghost from_gives = { λ number view. shown_by view ≡ float_number binary64 number };

    fn from(number: f64) -> Self {
        View::Float(number)
    }
}

impl From<f32> for View<'_> {
    ghost from_gives = { λ number view. shown_by view ≡ float_number binary32 number };

    fn from(number: f32) -> Self {
        View::Float32(number)
    }
}

impl From<i8> for View<'_> {
    ghost from_gives = { λ number view. shown_by view ≡ signed_number number B8 };

    fn from(number: i8) -> Self {
        View::Signed(i128::from(number), Bits::B8)
    }
}

impl From<i16> for View<'_> {
    ghost from_gives = { λ number view. shown_by view ≡ signed_number number B16 };

    fn from(number: i16) -> Self {
        View::Signed(i128::from(number), Bits::B16)
    }
}

impl From<i32> for View<'_> {
    ghost from_gives = { λ number view. shown_by view ≡ signed_number number B32 };

    fn from(number: i32) -> Self {
        View::Signed(i128::from(number), Bits::B32)
    }
}

impl From<i64> for View<'_> {
    ghost from_gives = { λ number view. shown_by view ≡ signed_number number B64 };

    fn from(number: i64) -> Self {
        View::Signed(i128::from(number), Bits::B64)
    }
}

impl From<i128> for View<'_> {
    ghost from_gives = { λ number view. shown_by view ≡ signed_number number B128 };

    fn from(number: i128) -> Self {
        View::Signed(number, Bits::B128)
    }
}

impl From<isize> for View<'_> {
    ghost from_gives = { λ number view. shown_by view ≡ signed_number number B64 };

    fn from(number: isize) -> Self {
        View::Signed(number as i128, Bits::B64)
    }
}

impl From<bool> for View<'_> {
    ghost from_gives = { λ truth view. shown_by view ≡ truth_value truth };

    fn from(truth: bool) -> Self {
        View::Truth(truth)
    }
}

impl From<char> for View<'_> {
    ghost from_gives = { λ c view. shown_by view ≡ one_character c };

    fn from(c: char) -> Self {
        View::Character(c)
    }
}

impl<'a> From<&'a str> for View<'a> {
    ghost from_gives = { λ text view. shown_by view ≡ some_text (chars text.now) };

    fn from(text: &'a str) -> View<'a> {
        View::Text(text)
    }
}

impl<'a> From<&'a String> for View<'a> {
    ghost from_gives = { λ text view. shown_by view ≡ some_text (chars (string_bytes text.now)) };

    fn from(text: &'a String) -> View<'a> {
        View::Text(text.as_str())
    }
}
